//! Recordings with their packets, and with the report of what is lost.

use std::alloc::{AllocError, Global};
use tm_tool::Settings;

pub(crate) const BASE: &str = "spacecraft = 42\nframe_length = 24\nerror_control = false\n";

const WIDE: &str = "spacecraft = 42\nframe_length = 27\nerror_control = false\n";

/// No packet has more than twelve octets.
pub(crate) const TWELVE: &str =
    "spacecraft = 42\nframe_length = 24\nerror_control = false\nmax_packet = 12\n";

/// A recording, and what is known of it. Octets are in hexadecimal: `55*4` is four octets `55`.
#[derive(Clone, Copy)]
pub(crate) struct Row {
    pub(crate) name: &'static str,
    pub(crate) settings: &'static str,
    // Each record: its header, and then its packets and parts of packets.
    pub(crate) recording: &'static str,
    pub(crate) records: u32,
    // What is found in it: `packet seen channel first place octets`, `drop seen channel first place octets reason`, and the others likewise.
    pub(crate) items: &'static str,
    // What `extract` writes: the packets.
    pub(crate) octets: &'static str,
    // What `packets` writes.
    pub(crate) lines: &'static str,
    // What `fields` writes after the head, of a field of eight bits after each packet's header.
    pub(crate) rows: &'static str,
    // What all three write to the report.
    pub(crate) report: &'static str,
    // What `summary` writes.
    pub(crate) summary: &'static str,
    // What is done, in this order: `/` reads a record, and `.` finds the end. A digit is a packet with that many lines in the
    // report, `i` is an idle packet, and `-` is a line of the report alone. Between `(` and `)` are packets that lie end to end
    // in one data field, and add nothing to the report.
    pub(crate) order: &'static str,
}

pub(crate) const TWO_PACKETS: Row = Row {
    name: "two-packets",
    settings: BASE,
    recording: "02A000001800 0064C000000055 0064C00100045555555555",
    records: 1,
    items: "packet 0 0 0 0 7\n\
        packet 0 0 0 7 11\n",
    octets: "0064C000000055 0064C00100045555555555",
    lines: "packet record=0 channel=0 from=0 at=0 type=tm secondary=no apid=100 flags=unsegmented count=0 octets=7\n\
        packet record=0 channel=0 from=0 at=7 type=tm secondary=no apid=100 flags=unsegmented count=1 octets=11\n",
    rows: "0,0,100,0,85\n\
        0,0,100,1,85\n",
    report: "",
    summary: "recording records=1 good=1 bad=0 rest=0\n\
        master gaps=0 missing=0\n\
        channel channel=0 frames=1 idle=0 vca=0 gaps=0 missing=0 packets=2 octets=18 dropped=0 lost=0 data=18\n\
        application channel=0 apid=100 packets=2 octets=18 first=0 last=0 gaps=0 missing=0 groups=0 broken=0 strays=0\n",
    order: "/(00).",
};

const EMPTY_RECORDING: Row = Row {
    name: "empty-recording",
    settings: BASE,
    recording: "",
    records: 0,
    items: "",
    octets: "",
    lines: "",
    rows: "",
    report: "",
    summary: "recording records=0 good=0 bad=0 rest=0\n\
        master gaps=0 missing=0\n",
    order: ".",
};

const SKIPPED_OCTETS: Row = Row {
    name: "skipped-octets",
    settings: "spacecraft = 42\nframe_length = 24\nskip_before = 4\nerror_control = false\n",
    recording: "1ACFFC1D 02A000001800 0064C000000055 0064C00100045555555555",
    records: 1,
    items: "packet 0 0 0 0 7\n\
        packet 0 0 0 7 11\n",
    octets: "0064C000000055 0064C00100045555555555",
    lines: "packet record=0 channel=0 from=0 at=0 type=tm secondary=no apid=100 flags=unsegmented count=0 octets=7\n\
        packet record=0 channel=0 from=0 at=7 type=tm secondary=no apid=100 flags=unsegmented count=1 octets=11\n",
    rows: "0,0,100,0,85\n\
        0,0,100,1,85\n",
    report: "",
    summary: "recording records=1 good=1 bad=0 rest=0\n\
        master gaps=0 missing=0\n\
        channel channel=0 frames=1 idle=0 vca=0 gaps=0 missing=0 packets=2 octets=18 dropped=0 lost=0 data=18\n\
        application channel=0 apid=100 packets=2 octets=18 first=0 last=0 gaps=0 missing=0 groups=0 broken=0 strays=0\n",
    order: "/(00).",
};

pub(crate) const TWO_CHANNELS: Row = Row {
    name: "two-channels",
    settings: BASE,
    recording: "02A000001800 0064C0000013555555555555555555555555 \
        02A201001800 0064C000000F555555555555555555555555 \
        02A202011804 55555555 0064C00100075555555555555555 \
        02A003011808 5555555555555555 0064C001000355555555",
    records: 4,
    items: "packet 2 1 1 0 22\n\
        packet 2 1 2 4 14\n\
        packet 3 0 0 0 26\n\
        packet 3 0 3 8 10\n",
    octets: "0064C000000F55555555555555555555555555555555 \
        0064C00100075555555555555555 \
        0064C00000135555555555555555555555555555555555555555 \
        0064C001000355555555",
    lines: "packet record=2 channel=1 from=1 at=0 type=tm secondary=no apid=100 flags=unsegmented count=0 octets=22\n\
        packet record=2 channel=1 from=2 at=4 type=tm secondary=no apid=100 flags=unsegmented count=1 octets=14\n\
        packet record=3 channel=0 from=0 at=0 type=tm secondary=no apid=100 flags=unsegmented count=0 octets=26\n\
        packet record=3 channel=0 from=3 at=8 type=tm secondary=no apid=100 flags=unsegmented count=1 octets=10\n",
    rows: "2,1,100,0,85\n\
        2,1,100,1,85\n\
        3,0,100,0,85\n\
        3,0,100,1,85\n",
    report: "",
    summary: "recording records=4 good=4 bad=0 rest=0\n\
        master gaps=0 missing=0\n\
        channel channel=0 frames=2 idle=0 vca=0 gaps=0 missing=0 packets=2 octets=36 dropped=0 lost=0 data=36\n\
        channel channel=1 frames=2 idle=0 vca=0 gaps=0 missing=0 packets=2 octets=36 dropped=0 lost=0 data=36\n\
        application channel=0 apid=100 packets=2 octets=36 first=3 last=3 gaps=0 missing=0 groups=0 broken=0 strays=0\n\
        application channel=1 apid=100 packets=2 octets=36 first=2 last=2 gaps=0 missing=0 groups=0 broken=0 strays=0\n",
    order: "///00/00.",
};

const PACKET_OVER_THREE_FRAMES: Row = Row {
    name: "packet-over-three-frames",
    settings: BASE,
    recording: "02A000001800 0064C0000021 55*12 \
        02A001011FFF 55*18 \
        02A002021804 55*4 0064C0010007 55*8",
    records: 3,
    items: "packet 2 0 0 0 40\n\
        packet 2 0 2 4 14\n",
    octets: "0064C0000021 55*34 \
        0064C0010007 55*8",
    lines: "packet record=2 channel=0 from=0 at=0 type=tm secondary=no apid=100 flags=unsegmented count=0 octets=40\n\
        packet record=2 channel=0 from=2 at=4 type=tm secondary=no apid=100 flags=unsegmented count=1 octets=14\n",
    rows: "2,0,100,0,85\n\
        2,0,100,1,85\n",
    report: "",
    summary: "recording records=3 good=3 bad=0 rest=0\n\
        master gaps=0 missing=0\n\
        channel channel=0 frames=3 idle=0 vca=0 gaps=0 missing=0 packets=2 octets=54 dropped=0 lost=0 data=54\n\
        application channel=0 apid=100 packets=2 octets=54 first=2 last=2 gaps=0 missing=0 groups=0 broken=0 strays=0\n",
    order: "///00.",
};

const SPLIT_HEADER_OVER_IDLE: Row = Row {
    name: "split-header-over-idle",
    settings: BASE,
    recording: "02A000001800 0064C0000008 55*9 0064C0 \
        02A001011FFE 55*18 \
        02A002021807 010003 55*4 0064C0020004 55*5",
    records: 3,
    items: "packet 0 0 0 0 15\n\
        packet 2 0 0 15 10\n\
        packet 2 0 2 7 11\n",
    octets: "0064C0000008 55*9 \
        0064C0010003 55*4 \
        0064C0020004 55*5",
    lines: "packet record=0 channel=0 from=0 at=0 type=tm secondary=no apid=100 flags=unsegmented count=0 octets=15\n\
        packet record=2 channel=0 from=0 at=15 type=tm secondary=no apid=100 flags=unsegmented count=1 octets=10\n\
        packet record=2 channel=0 from=2 at=7 type=tm secondary=no apid=100 flags=unsegmented count=2 octets=11\n",
    rows: "0,0,100,0,85\n\
        2,0,100,1,85\n\
        2,0,100,2,85\n",
    report: "",
    summary: "recording records=3 good=3 bad=0 rest=0\n\
        master gaps=0 missing=0\n\
        channel channel=0 frames=3 idle=1 vca=0 gaps=0 missing=0 packets=3 octets=36 dropped=0 lost=0 data=36\n\
        application channel=0 apid=100 packets=3 octets=36 first=0 last=2 gaps=0 missing=0 groups=0 broken=0 strays=0\n",
    order: "/0//00.",
};

const POINTER_DISAGREES: Row = Row {
    name: "pointer-disagrees",
    settings: BASE,
    recording: "02A000001800 0064C0000008555555555555555555 0064C0 \
        02A001011801 55 0064C001000A5555555555555555555555",
    records: 2,
    items: "packet 0 0 0 0 15\n\
        drop 1 0 0 15 3 pointer\n\
        drop 1 0 1 0 1 pointer\n\
        packet 1 0 1 1 17\n",
    octets: "0064C0000008555555555555555555 0064C001000A5555555555555555555555",
    lines: "packet record=0 channel=0 from=0 at=0 type=tm secondary=no apid=100 flags=unsegmented count=0 octets=15\n\
        packet record=1 channel=0 from=1 at=1 type=tm secondary=no apid=100 flags=unsegmented count=1 octets=17\n",
    rows: "0,0,100,0,85\n\
        1,0,100,1,85\n",
    report: "drop record=1 channel=0 from=0 at=15 octets=3 reason=pointer\n\
        drop record=1 channel=0 from=1 at=0 octets=1 reason=pointer\n",
    summary: "recording records=2 good=2 bad=0 rest=0\n\
        master gaps=0 missing=0\n\
        channel channel=0 frames=2 idle=0 vca=0 gaps=0 missing=0 packets=2 octets=32 dropped=2 lost=4 data=36\n\
        loss channel=0 reason=pointer parts=2 octets=4\n\
        application channel=0 apid=100 packets=2 octets=32 first=0 last=1 gaps=0 missing=0 groups=0 broken=0 strays=0\n",
    order: "/0/--0.",
};

const NO_START_DROPPED: Row = Row {
    name: "no-start-dropped",
    settings: BASE,
    recording: "02A000001800 0064C000000B555555555555555555555555 \
        02A001011FFF 555555555555555555555555555555555555",
    records: 2,
    items: "packet 0 0 0 0 18\n\
        drop 1 0 1 0 18 no-start\n",
    octets: "0064C000000B555555555555555555555555",
    lines: "packet record=0 channel=0 from=0 at=0 type=tm secondary=no apid=100 flags=unsegmented count=0 octets=18\n",
    rows: "0,0,100,0,85\n",
    report: "drop record=1 channel=0 from=1 at=0 octets=18 reason=no-start\n",
    summary: "recording records=2 good=2 bad=0 rest=0\n\
        master gaps=0 missing=0\n\
        channel channel=0 frames=2 idle=0 vca=0 gaps=0 missing=0 packets=1 octets=18 dropped=1 lost=18 data=36\n\
        loss channel=0 reason=no-start parts=1 octets=18\n\
        application channel=0 apid=100 packets=1 octets=18 first=0 last=0 gaps=0 missing=0 groups=0 broken=0 strays=0\n",
    order: "/0/-.",
};

pub(crate) const POINTER_DROP_AND_SEQUENCE_GAP: Row = Row {
    name: "pointer-drop-and-sequence-gap",
    settings: BASE,
    recording: "02A000001800 0064C000000355555555 0064C00100075555 \
        02A001011808 5555555555555555 0064C002000355555555",
    records: 2,
    items: "packet 0 0 0 0 10\n\
        drop 1 0 0 10 8 pointer\n\
        drop 1 0 1 0 8 pointer\n\
        packet 1 0 1 8 10\n",
    octets: "0064C000000355555555 0064C002000355555555",
    lines: "packet record=0 channel=0 from=0 at=0 type=tm secondary=no apid=100 flags=unsegmented count=0 octets=10\n\
        packet record=1 channel=0 from=1 at=8 type=tm secondary=no apid=100 flags=unsegmented count=2 octets=10\n",
    rows: "0,0,100,0,85\n\
        1,0,100,2,85\n",
    report: "drop record=1 channel=0 from=0 at=10 octets=8 reason=pointer\n\
        drop record=1 channel=0 from=1 at=0 octets=8 reason=pointer\n\
        seqgap record=1 channel=0 apid=100 expected=1 found=2 missing=1\n",
    summary: "recording records=2 good=2 bad=0 rest=0\n\
        master gaps=0 missing=0\n\
        channel channel=0 frames=2 idle=0 vca=0 gaps=0 missing=0 packets=2 octets=20 dropped=2 lost=16 data=36\n\
        loss channel=0 reason=pointer parts=2 octets=16\n\
        application channel=0 apid=100 packets=2 octets=20 first=0 last=1 gaps=1 missing=1 groups=0 broken=0 strays=0\n",
    order: "/0/--1.",
};

pub(crate) const FRAME_GAP: Row = Row {
    name: "frame-gap",
    settings: BASE,
    recording: "02A0FEFE1800 0064C000000B555555555555555555555555 \
        02A0FFFF1800 0064C001000B555555555555555555555555 \
        02A000001800 0064C002000355555555 0064C00300075555 \
        02A002021806 555555555555 0064C0040005555555555555",
    records: 4,
    items: "packet 0 0 0 0 18\n\
        packet 1 0 1 0 18\n\
        packet 2 0 2 0 10\n\
        mastergap 3 1 2 1\n\
        gap 3 0 1 2 1\n\
        drop 3 0 2 10 8 gap\n\
        drop 3 0 3 0 6 no-start\n\
        packet 3 0 3 6 12\n",
    octets: "0064C000000B555555555555555555555555 \
        0064C001000B555555555555555555555555 \
        0064C002000355555555 \
        0064C0040005555555555555",
    lines: "packet record=0 channel=0 from=0 at=0 type=tm secondary=no apid=100 flags=unsegmented count=0 octets=18\n\
        packet record=1 channel=0 from=1 at=0 type=tm secondary=no apid=100 flags=unsegmented count=1 octets=18\n\
        packet record=2 channel=0 from=2 at=0 type=tm secondary=no apid=100 flags=unsegmented count=2 octets=10\n\
        packet record=3 channel=0 from=3 at=6 type=tm secondary=no apid=100 flags=unsegmented count=4 octets=12\n",
    rows: "0,0,100,0,85\n\
        1,0,100,1,85\n\
        2,0,100,2,85\n\
        3,0,100,4,85\n",
    report: "mastergap record=3 expected=1 found=2 missing=1\n\
        gap record=3 channel=0 expected=1 found=2 missing=1\n\
        drop record=3 channel=0 from=2 at=10 octets=8 reason=gap\n\
        drop record=3 channel=0 from=3 at=0 octets=6 reason=no-start\n\
        seqgap record=3 channel=0 apid=100 expected=3 found=4 missing=1\n",
    summary: "recording records=4 good=4 bad=0 rest=0\n\
        master gaps=1 missing=1\n\
        channel channel=0 frames=4 idle=0 vca=0 gaps=1 missing=1 packets=4 octets=58 dropped=2 lost=14 data=72\n\
        loss channel=0 reason=gap parts=1 octets=8\n\
        loss channel=0 reason=no-start parts=1 octets=6\n\
        application channel=0 apid=100 packets=4 octets=58 first=0 last=3 gaps=1 missing=1 groups=0 broken=0 strays=0\n",
    order: "/0/0/0/----1.",
};

const FRAME_TWICE: Row = Row {
    name: "frame-twice",
    settings: BASE,
    recording: "02A000001800 0064C000000B555555555555555555555555 \
        02A000001800 0064C000000B555555555555555555555555",
    records: 2,
    items: "packet 0 0 0 0 18\n\
        mastergap 1 1 0 255\n\
        gap 1 0 1 0 255\n\
        packet 1 0 1 0 18\n",
    octets: "0064C000000B555555555555555555555555 \
        0064C000000B555555555555555555555555",
    lines: "packet record=0 channel=0 from=0 at=0 type=tm secondary=no apid=100 flags=unsegmented count=0 octets=18\n\
        packet record=1 channel=0 from=1 at=0 type=tm secondary=no apid=100 flags=unsegmented count=0 octets=18\n",
    rows: "0,0,100,0,85\n\
        1,0,100,0,85\n",
    report: "mastergap record=1 expected=1 found=0 missing=255\n\
        gap record=1 channel=0 expected=1 found=0 missing=255\n\
        seqgap record=1 channel=0 apid=100 expected=1 found=0 missing=16383\n",
    summary: "recording records=2 good=2 bad=0 rest=0\n\
        master gaps=1 missing=255\n\
        channel channel=0 frames=2 idle=0 vca=0 gaps=1 missing=255 packets=2 octets=36 dropped=0 lost=0 data=36\n\
        application channel=0 apid=100 packets=2 octets=36 first=0 last=1 gaps=1 missing=16383 groups=0 broken=0 strays=0\n",
    order: "/0/--1.",
};

const OTHER_VERSION: Row = Row {
    name: "other-version",
    settings: BASE,
    recording: "02A000001800 0064C000000355555555 E055555555555555 \
        02A001011804 55555555 0064C00100075555555555555555",
    records: 2,
    items: "packet 0 0 0 0 10\n\
        drop 0 0 0 10 8 version\n\
        drop 1 0 1 0 4 no-start\n\
        packet 1 0 1 4 14\n",
    octets: "0064C000000355555555 0064C00100075555555555555555",
    lines: "packet record=0 channel=0 from=0 at=0 type=tm secondary=no apid=100 flags=unsegmented count=0 octets=10\n\
        packet record=1 channel=0 from=1 at=4 type=tm secondary=no apid=100 flags=unsegmented count=1 octets=14\n",
    rows: "0,0,100,0,85\n\
        1,0,100,1,85\n",
    report: "drop record=0 channel=0 from=0 at=10 octets=8 reason=version\n\
        drop record=1 channel=0 from=1 at=0 octets=4 reason=no-start\n",
    summary: "recording records=2 good=2 bad=0 rest=0\n\
        master gaps=0 missing=0\n\
        channel channel=0 frames=2 idle=0 vca=0 gaps=0 missing=0 packets=2 octets=24 dropped=2 lost=12 data=36\n\
        loss channel=0 reason=no-start parts=1 octets=4\n\
        loss channel=0 reason=version parts=1 octets=8\n\
        application channel=0 apid=100 packets=2 octets=24 first=0 last=1 gaps=0 missing=0 groups=0 broken=0 strays=0\n",
    order: "/0-/-0.",
};

pub(crate) const GREATEST_PACKET: Row = Row {
    name: "greatest-packet",
    settings: "spacecraft = 42\nframe_length = 2048\nerror_control = false\n",
    recording: "02A000001800 0064C000072E 55*1839 0064C001FFFF 55*191 \
        02A001011FFF 55*2042 02A002021FFF 55*2042 02A003031FFF 55*2042 02A004041FFF 55*2042 \
        02A005051FFF 55*2042 02A006061FFF 55*2042 02A007071FFF 55*2042 02A008081FFF 55*2042 \
        02A009091FFF 55*2042 02A00A0A1FFF 55*2042 02A00B0B1FFF 55*2042 02A00C0C1FFF 55*2042 \
        02A00D0D1FFF 55*2042 02A00E0E1FFF 55*2042 02A00F0F1FFF 55*2042 02A010101FFF 55*2042 \
        02A011111FFF 55*2042 02A012121FFF 55*2042 02A013131FFF 55*2042 02A014141FFF 55*2042 \
        02A015151FFF 55*2042 02A016161FFF 55*2042 02A017171FFF 55*2042 02A018181FFF 55*2042 \
        02A019191FFF 55*2042 02A01A1A1FFF 55*2042 02A01B1B1FFF 55*2042 02A01C1C1FFF 55*2042 \
        02A01D1D1FFF 55*2042 02A01E1E1FFF 55*2042 02A01F1F1FFF 55*2042 02A020201FFF 55*2042 \
        02A021211801 55 0064C00207F2 55*2035",
    records: 34,
    items: "packet 0 0 0 0 1845\n\
        packet 33 0 0 1845 65542\n\
        packet 33 0 33 1 2041\n",
    octets: "0064C000072E 55*1839 \
        0064C001FFFF 55*65536 \
        0064C00207F2 55*2035",
    lines: "packet record=0 channel=0 from=0 at=0 type=tm secondary=no apid=100 flags=unsegmented count=0 octets=1845\n\
        packet record=33 channel=0 from=0 at=1845 type=tm secondary=no apid=100 flags=unsegmented count=1 octets=65542\n\
        packet record=33 channel=0 from=33 at=1 type=tm secondary=no apid=100 flags=unsegmented count=2 octets=2041\n",
    rows: "0,0,100,0,85\n\
        33,0,100,1,85\n\
        33,0,100,2,85\n",
    report: "",
    summary: "recording records=34 good=34 bad=0 rest=0\n\
        master gaps=0 missing=0\n\
        channel channel=0 frames=34 idle=0 vca=0 gaps=0 missing=0 packets=3 octets=69428 dropped=0 lost=0 data=69428\n\
        application channel=0 apid=100 packets=3 octets=69428 first=0 last=33 gaps=0 missing=0 groups=0 broken=0 strays=0\n",
    order: "/0/////////////////////////////////00.",
};

const GROUP_BROKEN_BY_GAP: Row = Row {
    name: "group-broken-by-gap",
    settings: WIDE,
    recording: "02A000001800 00647FFF000055 00640000000055 00648002000055",
    records: 1,
    items: "packet 0 0 0 0 7\n\
        packet 0 0 0 7 7\n\
        packet 0 0 0 14 7\n",
    octets: "00647FFF000055 00640000000055 00648002000055",
    lines: "packet record=0 channel=0 from=0 at=0 type=tm secondary=no apid=100 flags=first count=16383 octets=7\n\
        packet record=0 channel=0 from=0 at=7 type=tm secondary=no apid=100 flags=continuation count=0 octets=7\n\
        packet record=0 channel=0 from=0 at=14 type=tm secondary=no apid=100 flags=last count=2 octets=7\n",
    rows: "0,0,100,16383,85\n\
        0,0,100,0,85\n\
        0,0,100,2,85\n",
    report: "seqgap record=0 channel=0 apid=100 expected=1 found=2 missing=1\n\
        broken record=0 channel=0 apid=100 first=16383 last=0 reason=gap\n\
        stray record=0 channel=0 apid=100 count=2 flag=last\n",
    summary: "recording records=1 good=1 bad=0 rest=0\n\
        master gaps=0 missing=0\n\
        channel channel=0 frames=1 idle=0 vca=0 gaps=0 missing=0 packets=3 octets=21 dropped=0 lost=0 data=21\n\
        application channel=0 apid=100 packets=3 octets=21 first=0 last=0 gaps=1 missing=1 groups=0 broken=1 strays=1\n",
    order: "/(00)3.",
};

const GROUPS: Row = Row {
    name: "groups",
    settings: WIDE,
    recording: "02A000001800 00644005000055 00640006000055 00648007000055 \
        02A001011800 00644008000055 0064C00900075555555555555555 \
        02A002021800 0064400A000055 07FFC00000075555555555555555",
    records: 3,
    items: "packet 0 0 0 0 7\n\
        packet 0 0 0 7 7\n\
        packet 0 0 0 14 7\n\
        packet 1 0 1 0 7\n\
        packet 1 0 1 7 14\n\
        packet 2 0 2 0 7\n\
        packet 2 0 2 7 14\n",
    octets: "00644005000055 00640006000055 00648007000055 \
        00644008000055 0064C00900075555555555555555 \
        0064400A000055 07FFC00000075555555555555555",
    lines: "packet record=0 channel=0 from=0 at=0 type=tm secondary=no apid=100 flags=first count=5 octets=7\n\
        packet record=0 channel=0 from=0 at=7 type=tm secondary=no apid=100 flags=continuation count=6 octets=7\n\
        packet record=0 channel=0 from=0 at=14 type=tm secondary=no apid=100 flags=last count=7 octets=7\n\
        packet record=1 channel=0 from=1 at=0 type=tm secondary=no apid=100 flags=first count=8 octets=7\n\
        packet record=1 channel=0 from=1 at=7 type=tm secondary=no apid=100 flags=unsegmented count=9 octets=14\n\
        packet record=2 channel=0 from=2 at=0 type=tm secondary=no apid=100 flags=first count=10 octets=7\n\
        packet record=2 channel=0 from=2 at=7 type=tm secondary=no apid=2047 flags=unsegmented count=0 octets=14\n",
    rows: "0,0,100,5,85\n\
        0,0,100,6,85\n\
        0,0,100,7,85\n\
        1,0,100,8,85\n\
        1,0,100,9,85\n\
        2,0,100,10,85\n",
    report: "group record=0 channel=0 apid=100 first=5 last=7\n\
        broken record=1 channel=0 apid=100 first=8 last=8 reason=unsegmented\n\
        broken record=3 channel=0 apid=100 first=10 last=10 reason=end\n",
    summary: "recording records=3 good=3 bad=0 rest=0\n\
        master gaps=0 missing=0\n\
        channel channel=0 frames=3 idle=0 vca=0 gaps=0 missing=0 packets=7 octets=63 dropped=0 lost=0 data=63\n\
        application channel=0 apid=100 packets=6 octets=49 first=0 last=2 gaps=0 missing=0 groups=1 broken=2 strays=0\n\
        application channel=0 apid=2047 packets=1 octets=14 first=2 last=2 gaps=0 missing=0 groups=0 broken=0 strays=0\n",
    order: "/(00)1/01/(0i).-",
};

pub(crate) const FIELDS: Row = Row {
    name: "fields",
    settings: "spacecraft = 42\nframe_length = 22\nerror_control = false\n",
    recording: "02A000001800 0064C0000009 07FFF0612C623F800000",
    records: 1,
    items: "packet 0 0 0 0 16\n",
    octets: "0064C0000009 07FFF0612C623F800000",
    lines: "packet record=0 channel=0 from=0 at=0 type=tm secondary=no apid=100 flags=unsegmented count=0 octets=16\n",
    rows: "0,0,100,0,7\n",
    report: "",
    summary: "recording records=1 good=1 bad=0 rest=0\n\
        master gaps=0 missing=0\n\
        channel channel=0 frames=1 idle=0 vca=0 gaps=0 missing=0 packets=1 octets=16 dropped=0 lost=0 data=16\n\
        application channel=0 apid=100 packets=1 octets=16 first=0 last=0 gaps=0 missing=0 groups=0 broken=0 strays=0\n",
    order: "/0.",
};

const VCA_FRAME: Row = Row {
    name: "vca-frame",
    settings: BASE,
    recording: "02A000001800 0064C000000355555555 0064C00100075555 \
        02A001015800 555555555555555555555555555555555555 \
        02A002021806 555555555555 0064C0020005555555555555",
    records: 3,
    items: "packet 0 0 0 0 10\n\
        vca 1 0\n\
        drop 1 0 0 10 8 vca\n\
        drop 2 0 2 0 6 no-start\n\
        packet 2 0 2 6 12\n",
    octets: "0064C000000355555555 0064C0020005555555555555",
    lines: "packet record=0 channel=0 from=0 at=0 type=tm secondary=no apid=100 flags=unsegmented count=0 octets=10\n\
        packet record=2 channel=0 from=2 at=6 type=tm secondary=no apid=100 flags=unsegmented count=2 octets=12\n",
    rows: "0,0,100,0,85\n\
        2,0,100,2,85\n",
    report: "vca record=1 channel=0\n\
        drop record=1 channel=0 from=0 at=10 octets=8 reason=vca\n\
        drop record=2 channel=0 from=2 at=0 octets=6 reason=no-start\n\
        seqgap record=2 channel=0 apid=100 expected=1 found=2 missing=1\n",
    summary: "recording records=3 good=3 bad=0 rest=0\n\
        master gaps=0 missing=0\n\
        channel channel=0 frames=3 idle=0 vca=1 gaps=0 missing=0 packets=2 octets=22 dropped=2 lost=14 data=36\n\
        loss channel=0 reason=vca parts=1 octets=8\n\
        loss channel=0 reason=no-start parts=1 octets=6\n\
        application channel=0 apid=100 packets=2 octets=22 first=0 last=2 gaps=1 missing=1 groups=0 broken=0 strays=0\n",
    order: "/0/--/-1.",
};

pub(crate) const SHORT_REST: Row = Row {
    name: "short-rest",
    settings: BASE,
    recording: "02A000001800 0064C0000013555555555555555555555555 \
        02A201001800 0064C000000F555555555555555555555555 \
        00000000000000000000",
    records: 2,
    items: "short 2 10\n\
        drop 2 0 0 0 18 end\n\
        drop 2 1 1 0 18 end\n",
    octets: "",
    lines: "",
    rows: "",
    report: "short record=2 octets=10\n\
        drop record=2 channel=0 from=0 at=0 octets=18 reason=end\n\
        drop record=2 channel=1 from=1 at=0 octets=18 reason=end\n",
    summary: "recording records=2 good=2 bad=0 rest=10\n\
        master gaps=0 missing=0\n\
        channel channel=0 frames=1 idle=0 vca=0 gaps=0 missing=0 packets=0 octets=0 dropped=1 lost=18 data=18\n\
        loss channel=0 reason=end parts=1 octets=18\n\
        channel channel=1 frames=1 idle=0 vca=0 gaps=0 missing=0 packets=0 octets=0 dropped=1 lost=18 data=18\n\
        loss channel=1 reason=end parts=1 octets=18\n",
    order: "//.---",
};

pub(crate) const SPLIT_WITH_IDLE: Row = Row {
    name: "split-with-idle",
    settings: BASE,
    recording: "02A000001800 0064C000000055 07FFC00000045555555555",
    records: 1,
    items: "packet 0 0 0 0 7\n\
        packet 0 0 0 7 11\n",
    octets: "0064C000000055 07FFC00000045555555555",
    lines: "packet record=0 channel=0 from=0 at=0 type=tm secondary=no apid=100 flags=unsegmented count=0 octets=7\n\
        packet record=0 channel=0 from=0 at=7 type=tm secondary=no apid=2047 flags=unsegmented count=0 octets=11\n",
    rows: "0,0,100,0,85\n",
    report: "",
    summary: "recording records=1 good=1 bad=0 rest=0\n\
        master gaps=0 missing=0\n\
        channel channel=0 frames=1 idle=0 vca=0 gaps=0 missing=0 packets=2 octets=18 dropped=0 lost=0 data=18\n\
        application channel=0 apid=100 packets=1 octets=7 first=0 last=0 gaps=0 missing=0 groups=0 broken=0 strays=0\n\
        application channel=0 apid=2047 packets=1 octets=11 first=0 last=0 gaps=0 missing=0 groups=0 broken=0 strays=0\n",
    order: "/(0i).",
};

pub(crate) const HELD_AFTER_FIRST_RECORD: Row = Row {
    name: "held-after-first-record",
    settings: BASE,
    recording: "02A000001800 0064C0000013555555555555555555555555 \
        00000000000000000000",
    records: 1,
    items: "short 1 10\n\
        drop 1 0 0 0 18 end\n",
    octets: "",
    lines: "",
    rows: "",
    report: "short record=1 octets=10\n\
        drop record=1 channel=0 from=0 at=0 octets=18 reason=end\n",
    summary: "recording records=1 good=1 bad=0 rest=10\n\
        master gaps=0 missing=0\n\
        channel channel=0 frames=1 idle=0 vca=0 gaps=0 missing=0 packets=0 octets=0 dropped=1 lost=18 data=18\n\
        loss channel=0 reason=end parts=1 octets=18\n",
    order: "/.--",
};

const ERROR_CONTROL: Row = Row {
    name: "error-control",
    settings: "spacecraft = 42\nframe_length = 9\nerror_control = true\n",
    recording: "02A000001FFE 55 25C9 02A000001FFE 54 25C9",
    records: 2,
    items: "bad 1 crc\n",
    octets: "",
    lines: "",
    rows: "",
    report: "bad record=1 fault=crc\n",
    summary: "recording records=2 good=1 bad=1 rest=0\n\
        fault word=crc records=1\n\
        master gaps=0 missing=0\n\
        channel channel=0 frames=1 idle=1 vca=0 gaps=0 missing=0 packets=0 octets=0 dropped=0 lost=0 data=0\n",
    order: "//-.",
};

pub(crate) const LONG_AT_ONCE: Row = Row {
    name: "long-at-once",
    settings: TWELVE,
    recording: "02A000001800 0064C000000355555555 0064C00100075555 \
        02A001011806 555555555555 0064C0020005555555555555",
    records: 2,
    items: "packet 0 0 0 0 10\n\
        drop 0 0 0 10 8 length\n\
        drop 1 0 1 0 6 no-start\n\
        packet 1 0 1 6 12\n",
    octets: "0064C000000355555555 0064C0020005555555555555",
    lines: "packet record=0 channel=0 from=0 at=0 type=tm secondary=no apid=100 flags=unsegmented count=0 octets=10\n\
        packet record=1 channel=0 from=1 at=6 type=tm secondary=no apid=100 flags=unsegmented count=2 octets=12\n",
    rows: "0,0,100,0,85\n\
        1,0,100,2,85\n",
    report: "drop record=0 channel=0 from=0 at=10 octets=8 reason=length\n\
        drop record=1 channel=0 from=1 at=0 octets=6 reason=no-start\n\
        seqgap record=1 channel=0 apid=100 expected=1 found=2 missing=1\n",
    summary: "recording records=2 good=2 bad=0 rest=0\n\
        master gaps=0 missing=0\n\
        channel channel=0 frames=2 idle=0 vca=0 gaps=0 missing=0 packets=2 octets=22 dropped=2 lost=14 data=36\n\
        loss channel=0 reason=no-start parts=1 octets=6\n\
        loss channel=0 reason=length parts=1 octets=8\n\
        application channel=0 apid=100 packets=2 octets=22 first=0 last=1 gaps=1 missing=1 groups=0 broken=0 strays=0\n",
    order: "/0-/-1.",
};

pub(crate) const LONG_SPLIT_HEADER: Row = Row {
    name: "long-split-header",
    settings: TWELVE,
    recording: "02A000001800 0064C00000015555 0064C001000055 0064C0 \
        02A00101180B 0200075555555555555555 0064C003000055",
    records: 2,
    items: "packet 0 0 0 0 8\n\
        packet 0 0 0 8 7\n\
        drop 1 0 0 15 3 length\n\
        drop 1 0 1 0 11 length\n\
        packet 1 0 1 11 7\n",
    octets: "0064C00000015555 0064C001000055 0064C003000055",
    lines: "packet record=0 channel=0 from=0 at=0 type=tm secondary=no apid=100 flags=unsegmented count=0 octets=8\n\
        packet record=0 channel=0 from=0 at=8 type=tm secondary=no apid=100 flags=unsegmented count=1 octets=7\n\
        packet record=1 channel=0 from=1 at=11 type=tm secondary=no apid=100 flags=unsegmented count=3 octets=7\n",
    rows: "0,0,100,0,85\n\
        0,0,100,1,85\n\
        1,0,100,3,85\n",
    report: "drop record=1 channel=0 from=0 at=15 octets=3 reason=length\n\
        drop record=1 channel=0 from=1 at=0 octets=11 reason=length\n\
        seqgap record=1 channel=0 apid=100 expected=2 found=3 missing=1\n",
    summary: "recording records=2 good=2 bad=0 rest=0\n\
        master gaps=0 missing=0\n\
        channel channel=0 frames=2 idle=0 vca=0 gaps=0 missing=0 packets=3 octets=22 dropped=2 lost=14 data=36\n\
        loss channel=0 reason=length parts=2 octets=14\n\
        application channel=0 apid=100 packets=3 octets=22 first=0 last=1 gaps=1 missing=1 groups=0 broken=0 strays=0\n",
    order: "/(00)/--1.",
};

const LONG_SPLIT_HEADER_AND_POINTER: Row = Row {
    name: "long-split-header, where the pointer disagrees too",
    settings: TWELVE,
    recording: "02A000001800 0064C00000015555 0064C001000055 0064C0 \
        02A00101180A 02000755555555555555 0064C00300015555",
    records: 2,
    items: "packet 0 0 0 0 8\n\
        packet 0 0 0 8 7\n\
        drop 1 0 0 15 3 pointer\n\
        drop 1 0 1 0 10 pointer\n\
        packet 1 0 1 10 8\n",
    octets: "0064C00000015555 0064C001000055 0064C00300015555",
    lines: "packet record=0 channel=0 from=0 at=0 type=tm secondary=no apid=100 flags=unsegmented count=0 octets=8\n\
        packet record=0 channel=0 from=0 at=8 type=tm secondary=no apid=100 flags=unsegmented count=1 octets=7\n\
        packet record=1 channel=0 from=1 at=10 type=tm secondary=no apid=100 flags=unsegmented count=3 octets=8\n",
    rows: "0,0,100,0,85\n\
        0,0,100,1,85\n\
        1,0,100,3,85\n",
    report: "drop record=1 channel=0 from=0 at=15 octets=3 reason=pointer\n\
        drop record=1 channel=0 from=1 at=0 octets=10 reason=pointer\n\
        seqgap record=1 channel=0 apid=100 expected=2 found=3 missing=1\n",
    summary: "recording records=2 good=2 bad=0 rest=0\n\
        master gaps=0 missing=0\n\
        channel channel=0 frames=2 idle=0 vca=0 gaps=0 missing=0 packets=3 octets=23 dropped=2 lost=13 data=36\n\
        loss channel=0 reason=pointer parts=2 octets=13\n\
        application channel=0 apid=100 packets=3 octets=23 first=0 last=1 gaps=1 missing=1 groups=0 broken=0 strays=0\n",
    order: "/(00)/--1.",
};

const LONG: Row = Row {
    name: "long-or-not, where it is long",
    settings: TWELVE,
    recording: "02A000001800 0064C00000075555555555555555 55555555",
    records: 1,
    items: "drop 0 0 0 0 18 length\n",
    octets: "",
    lines: "",
    rows: "",
    report: "drop record=0 channel=0 from=0 at=0 octets=18 reason=length\n",
    summary: "recording records=1 good=1 bad=0 rest=0\n\
        master gaps=0 missing=0\n\
        channel channel=0 frames=1 idle=0 vca=0 gaps=0 missing=0 packets=0 octets=0 dropped=1 lost=18 data=18\n\
        loss channel=0 reason=length parts=1 octets=18\n",
    order: "/-.",
};

const NOT_LONG: Row = Row {
    name: "long-or-not, where it is not",
    settings: "spacecraft = 42\nframe_length = 24\nerror_control = false\nmax_packet = 14\n",
    recording: "02A000001800 0064C00000075555555555555555 55555555",
    records: 1,
    items: "packet 0 0 0 0 14\n\
        drop 0 0 0 14 4 version\n",
    octets: "0064C00000075555555555555555",
    lines: "packet record=0 channel=0 from=0 at=0 type=tm secondary=no apid=100 flags=unsegmented count=0 octets=14\n",
    rows: "0,0,100,0,85\n",
    report: "drop record=0 channel=0 from=0 at=14 octets=4 reason=version\n",
    summary: "recording records=1 good=1 bad=0 rest=0\n\
        master gaps=0 missing=0\n\
        channel channel=0 frames=1 idle=0 vca=0 gaps=0 missing=0 packets=1 octets=14 dropped=1 lost=4 data=18\n\
        loss channel=0 reason=version parts=1 octets=4\n\
        application channel=0 apid=100 packets=1 octets=14 first=0 last=0 gaps=0 missing=0 groups=0 broken=0 strays=0\n",
    order: "/0-.",
};

const MASTER_GAP_UNCHOSEN: Row = Row {
    name: "master-gap-unchosen",
    settings: "spacecraft = 42\nframe_length = 24\nerror_control = false\nchannels = [1]\n",
    recording: "02A000001800 0064C000000B555555555555555555555555 \
        02A202001800 0064C000000B555555555555555555555555",
    records: 2,
    items: "mastergap 1 1 2 1\n\
        packet 1 1 1 0 18\n",
    octets: "0064C000000B555555555555555555555555",
    lines: "packet record=1 channel=1 from=1 at=0 type=tm secondary=no apid=100 flags=unsegmented count=0 octets=18\n",
    rows: "1,1,100,0,85\n",
    report: "mastergap record=1 expected=1 found=2 missing=1\n",
    summary: "recording records=2 good=2 bad=0 rest=0\n\
        master gaps=1 missing=1\n\
        channel channel=1 frames=1 idle=0 vca=0 gaps=0 missing=0 packets=1 octets=18 dropped=0 lost=0 data=18\n\
        application channel=1 apid=100 packets=1 octets=18 first=1 last=1 gaps=0 missing=0 groups=0 broken=0 strays=0\n",
    order: "//-0.",
};

/// All of them.
pub(crate) fn rows() -> [&'static Row; 27] {
    [
        &TWO_PACKETS,
        &EMPTY_RECORDING,
        &SKIPPED_OCTETS,
        &TWO_CHANNELS,
        &PACKET_OVER_THREE_FRAMES,
        &SPLIT_HEADER_OVER_IDLE,
        &POINTER_DISAGREES,
        &NO_START_DROPPED,
        &POINTER_DROP_AND_SEQUENCE_GAP,
        &FRAME_GAP,
        &FRAME_TWICE,
        &OTHER_VERSION,
        &GREATEST_PACKET,
        &GROUP_BROKEN_BY_GAP,
        &GROUPS,
        &FIELDS,
        &VCA_FRAME,
        &SHORT_REST,
        &SPLIT_WITH_IDLE,
        &HELD_AFTER_FIRST_RECORD,
        &ERROR_CONTROL,
        &LONG_AT_ONCE,
        &LONG_SPLIT_HEADER,
        &LONG_SPLIT_HEADER_AND_POINTER,
        &LONG,
        &NOT_LONG,
        &MASTER_GAP_UNCHOSEN,
    ]
}

// Appends the octets that digits spell. What is no digit is passed over.
fn push_octets(octets: &mut Vec<u8>, digits: &str) -> Result<(), AllocError> {
    let mut high = None;
    for letter in digits.chars() {
        let Some(digit) = letter.to_digit(16) else {
            continue;
        };
        let low = digit as u8;
        high = match high {
            None => Some(low),
            Some(high) => {
                octets.push(high << 4 | low)?;
                None
            }
        };
    }
    Ok(())
}

// Likewise, as often as a number after `*` says.
fn push_word(octets: &mut Vec<u8>, word: &str) -> Result<(), AllocError> {
    let (digits, times) = match word.split_once('*') {
        Some((digits, times)) => (digits, times.parse::<u32>().unwrap_or(0)),
        None => (word, 1),
    };
    for _ in 0..times {
        push_octets(octets, digits)?;
    }
    Ok(())
}

/// The octets that a text spells in hexadecimal, word by word.
pub(crate) fn octets_of(alloc: Global, text: &str) -> Option<Vec<u8>> {
    let mut octets = Vec::new(alloc);
    for word in text.split_whitespace() {
        push_word(&mut octets, word).ok()?;
    }
    Some(octets)
}

/// The settings of a text.
pub(crate) fn settings_of(alloc: Global, text: &str) -> Option<Settings> {
    Settings::read(alloc, text.as_bytes()).ok()
}
