//! Recordings with the lines of their frames.

use crate::bench::{Bench, By};
use crate::runs::{BASE, octets_of, settings_of};
use std::alloc::Global;
use std::io::{self, BufReader, Cursor, ErrorKind, Read, Seek, SeekFrom, Write};
use tm_devices::fill;
use tm_tool::{
    Buffered, BufferedSource, DeviceFailed, Drain, Reading, RunFault, Seeking, Writing, list_frames,
};

// A frame of 24 octets with a packet of 7 octets and one of 11.
const TWO_PACKETS: &str = "02A000001800 0064C000000055 0064C00100045555555555";

const TWO_PACKETS_LINE: &str =
    "frame record=0 channel=0 master=0 count=0 kind=packets place=0 secondary=0 ocf=no order=0 segment=3 octets=18\n";

// The frames of a recording are listed by just these lines, in few calls.
fn is_listed(
    alloc: Global,
    settings: &str,
    recording: &str,
    records: u32,
    lines: &str,
) -> Option<bool> {
    let mut bench = Bench::new(alloc, settings, recording, 65_536)?;
    let answer = bench.close(alloc, By::Frames);
    Some(answer == Ok(records) && bench.has_given(lines.as_bytes(), b""))
}

// 43 octets, and what Python's `binascii.crc_hqx` gives for them from a register of ones.
const LAZY_DOG: &[u8] = b"The quick brown fox jumps over the lazy dog";

#[test]
fn error_control_values(rt: HostRuntime) {
    // guards: error_control-is-that-of-the-standard
    assert!(rt; tm_frame::error_control(b"") == 0xFFFF);
    assert!(rt; tm_frame::error_control(b"\0") == 0xE1F0);
    assert!(rt; tm_frame::error_control(b"123456789") == 0x29B1);
    assert!(rt; tm_frame::error_control(LAZY_DOG) == 0x8FDD);
    assert!(rt; tm_frame::error_control_by_table(b"") == 0xFFFF);
    assert!(rt; tm_frame::error_control_by_table(b"\0") == 0xE1F0);
    assert!(rt; tm_frame::error_control_by_table(b"123456789") == 0x29B1);
    assert!(rt; tm_frame::table_entry(1) == 0x1021);
}

// Octets of a fixed pattern: 0 to 400 of them, and 65,541.
#[test]
fn error_control_both_ways(rt: HostRuntime) {
    // guards: error_control-is-that-of-the-standard
    let mut octets = Vec::new(rt.alloc());
    for place in 0..65_541u32 {
        if place <= 400 {
            let by_table = tm_frame::error_control_by_table(&octets);
            assert!(rt;
                tm_frame::error_control(&octets) == by_table,
                "{place} octets"
            );
        }
        let octet = (place.wrapping_mul(0x9E37_79B9) >> 24) as u8;
        octets.push(octet).expect(&rt, "room");
    }
    let by_table = tm_frame::error_control_by_table(&octets);
    assert!(rt; tm_frame::error_control(&octets) == by_table);
}

#[test]
fn two_packets(rt: HostRuntime) {
    // guards: read-gives-the-good-frame-or-its-first-fault
    // guards: list_frames-lists-the-whole-recording
    let listed = is_listed(rt.alloc(), BASE, TWO_PACKETS, 1, TWO_PACKETS_LINE);
    assert!(rt; listed == Some(true));
}

#[test]
fn empty_recording(rt: HostRuntime) {
    // guards: list_frames-lists-the-whole-recording
    assert!(rt; is_listed(rt.alloc(), BASE, "", 0, "") == Some(true));
}

#[test]
fn error_control(rt: HostRuntime) {
    // guards: error_control-is-that-of-the-standard
    let settings = "spacecraft = 42\nframe_length = 9\nerror_control = true\n";
    let recording = "02A000001FFE 55 25C9 02A000001FFE 54 25C9";
    let lines =
        "frame record=0 channel=0 master=0 count=0 kind=idle place=- secondary=0 ocf=no order=0 segment=3 octets=1\nbad record=1 fault=crc\n";
    assert!(rt; is_listed(rt.alloc(), settings, recording, 2, lines) == Some(true));
}

#[test]
fn skipped_octets(rt: HostRuntime) {
    // guards: layout-refuses-only-what-is-out-of-range
    let text = "spacecraft = 42\nframe_length = 24\nerror_control = false\nskip_before = 4\n";
    let settings = settings_of(rt.alloc(), text).expect(&rt, "the settings");
    assert!(rt; settings.layout().record_length() == 28);
    let recording = "1ACFFC1D 02A000001800 0064C000000055 0064C00100045555555555";
    let listed = is_listed(rt.alloc(), text, recording, 1, TWO_PACKETS_LINE);
    assert!(rt; listed == Some(true));
}

const ALWAYS: &str =
    "spacecraft = 42\nframe_length = 24\nerror_control = false\nsecondary = \"always\"\n";

const NEVER: &str = "spacecraft = 42\nframe_length = 24\nerror_control = false\nocf = \"never\"\n";

// One record under its settings, and its line.
const FAULTS: [(&str, &str, &str); 10] = [
    (BASE, "42A000001800 55*18", "bad record=0 fault=version\n"),
    (
        BASE,
        "02B000001800 55*18",
        "bad record=0 fault=spacecraft\n",
    ),
    (
        ALWAYS,
        "02A000001800 55*18",
        "bad record=0 fault=secondary-flag\n",
    ),
    (NEVER, "02A100001800 55*18", "bad record=0 fault=ocf-flag\n"),
    (BASE, "02A000001812 55*18", "bad record=0 fault=pointer\n"),
    (
        BASE,
        "02A000001811 55*18",
        "frame record=0 channel=0 master=0 count=0 kind=packets place=17 secondary=0 ocf=no order=0 segment=3 octets=18\n",
    ),
    (
        BASE,
        "02A000009800 40 55*17",
        "bad record=0 fault=secondary-version\n",
    ),
    (BASE, "02A000009800 11 55*17", "bad record=0 fault=layout\n"),
    (
        BASE,
        "02A000009800 10 55*17",
        "frame record=0 channel=0 master=0 count=0 kind=packets place=0 secondary=17 ocf=no order=0 segment=3 octets=1\n",
    ),
    (
        BASE,
        "02A100001800 0064C0000007 55*12",
        "frame record=0 channel=0 master=0 count=0 kind=packets place=0 secondary=0 ocf=yes order=0 segment=3 octets=14\n",
    ),
];

#[test]
fn frame_faults(rt: HostRuntime) {
    // guards: read-gives-the-good-frame-or-its-first-fault
    for (settings, recording, line) in FAULTS {
        let listed = is_listed(rt.alloc(), settings, recording, 1, line);
        assert!(rt; listed == Some(true), "{recording} has no {line}");
    }
}

// Two records and ten octets more.
const WITH_REST: &str = "02A000001800 0064C000000055 0064C00100045555555555 \
    02A000001800 0064C000000055 0064C00100045555555555 00*10";

const WITH_REST_LINES: &str =
    "frame record=0 channel=0 master=0 count=0 kind=packets place=0 secondary=0 ocf=no order=0 segment=3 octets=18\nframe record=1 channel=0 master=0 count=0 kind=packets place=0 secondary=0 ocf=no order=0 segment=3 octets=18\nshort record=2 octets=10\n";

/// What a listing answers under the settings of a text.
pub(crate) fn list_through<R: BufferedSource, W: Drain>(
    alloc: Global,
    settings: &str,
    source: &mut R,
    out: &mut W,
) -> Option<Result<u32, RunFault>> {
    let settings = settings_of(alloc, settings)?;
    Some(list_frames(alloc, &settings, source, out))
}

#[test]
fn through_readers_and_writers(rt: HostRuntime) {
    // guards: devices-over-stds-readers-and-writers
    let alloc = rt.alloc();
    let octets = octets_of(alloc, WITH_REST).expect(&rt, "octets");
    let mut lines = Vec::new(alloc);
    let mut source = Reading::new(octets.as_slice());
    let answer = list_through(alloc, BASE, &mut source, &mut Writing::new(&mut lines));
    assert!(rt; answer == Some(Ok(2)));
    assert!(rt; lines.as_slice() == WITH_REST_LINES.as_bytes());
}

// A buffer that holds no whole record, one, or all, so that records are read, or lent, or both.
#[test]
fn through_a_buffer(rt: HostRuntime) {
    // guards: devices-over-stds-readers-and-writers
    let alloc = rt.alloc();
    let octets = octets_of(alloc, WITH_REST).expect(&rt, "octets");
    for capacity in [7, 30, 65_536] {
        let reader = BufReader::with_capacity(alloc, capacity, octets.as_slice());
        let mut source = Buffered::new(reader.expect(&rt, "buffer"));
        let mut lines = Vec::new(alloc);
        let answer = list_through(alloc, BASE, &mut source, &mut Writing::new(&mut lines));
        assert!(rt; answer == Some(Ok(2)));
        assert!(rt; lines.as_slice() == WITH_REST_LINES.as_bytes());
    }
}

// The first record is passed over, and more than is left is not.
#[test]
fn passed_over_by_a_seek(rt: HostRuntime) {
    // guards: devices-over-stds-readers-and-writers
    let octets = octets_of(rt.alloc(), WITH_REST).expect(&rt, "octets");
    let reader = BufReader::new(rt.alloc(), Cursor::new(octets.as_slice()));
    let mut source = Seeking::new(reader.expect(&rt, "buffer"), false);
    let mut next = [0; 24];
    assert!(rt; source.pass_over(24) == Ok(true));
    assert!(rt; source.pass_over(1000) == Ok(false));
    assert!(rt; fill(&mut source, &mut next) == Ok(24));
    assert!(rt; octets.get(24..48) == Some(next.as_slice()));
}

// A reader and writer that fails at one call alone, by an error of this kind: at the call of this number, counted from 1. Its other
// reads find the end, and its other writes take all.
#[derive(Drop)]
struct FailsOnce {
    call: u32,
    kind: ErrorKind,
    calls: u32,
}

impl FailsOnce {
    fn new(call: u32, kind: ErrorKind) -> Self {
        FailsOnce {
            call,
            kind,
            calls: 0,
        }
    }

    // Counts a call, which may be the one that fails.
    fn count_call(&mut self) -> io::Result<()> {
        self.calls = self.calls.saturating_add(1);
        if self.calls == self.call {
            return Err(io::Error::from(self.kind));
        }
        Ok(())
    }
}

impl Read for FailsOnce {
    fn read(&mut self, _buffer: &mut [u8]) -> io::Result<usize> {
        self.count_call()?;
        Ok(0)
    }
}

impl Seek for FailsOnce {
    fn seek(&mut self, _to: SeekFrom) -> io::Result<u64> {
        self.count_call()?;
        Ok(48)
    }
}

impl Write for FailsOnce {
    fn write(&mut self, octets: &[u8]) -> io::Result<usize> {
        self.count_call()?;
        Ok(octets.len())
    }

    fn flush(&mut self) -> io::Result<()> {
        self.count_call()
    }
}

// An interrupted call is an error as any other.
const KINDS: [ErrorKind; 2] = [ErrorKind::Other, ErrorKind::Interrupted];

// The reader tells its place and its end, and can't be moved back. Where it can't tell one of these, nothing is passed over.
#[test]
fn failing_seek(rt: HostRuntime) {
    // guards: devices-over-stds-readers-and-writers
    let answers = [(1, Ok(false)), (2, Ok(false)), (3, Err(DeviceFailed))];
    for kind in KINDS {
        for (call, answer) in answers {
            let reader = BufReader::new(rt.alloc(), FailsOnce::new(call, kind));
            let mut source = Seeking::new(reader.expect(&rt, "buffer"), false);
            assert!(rt; source.pass_over(0) == answer);
        }
    }
}

// A writer that takes nothing.
#[derive(Drop)]
struct Full;

impl Write for Full {
    fn write(&mut self, _octets: &[u8]) -> io::Result<usize> {
        Ok(0)
    }

    fn flush(&mut self) -> io::Result<()> {
        Ok(())
    }
}

// What a listing answers through this source, into a writer whose call of this number fails.
fn list_between<R: BufferedSource>(
    alloc: Global,
    source: &mut R,
    call: u32,
    kind: ErrorKind,
) -> Option<Result<u32, RunFault>> {
    let mut out = Writing::new(FailsOnce::new(call, kind));
    list_through(alloc, BASE, source, &mut out)
}

// A read that fails once is a failure of the recording. The next read would find its end.
#[test]
fn failing_readers(rt: HostRuntime) {
    // guards: devices-over-stds-readers-and-writers
    let alloc = rt.alloc();
    let refused = Some(Err(RunFault::Read));
    for kind in KINDS {
        let mut source = Reading::new(FailsOnce::new(1, kind));
        assert!(rt; list_between(alloc, &mut source, 0, kind) == refused);
        let reader = BufReader::new(alloc, FailsOnce::new(1, kind)).expect(&rt, "buffer");
        assert!(rt; list_between(alloc, &mut Buffered::new(reader), 0, kind) == refused);
        let reader = BufReader::new(alloc, FailsOnce::new(1, kind)).expect(&rt, "buffer");
        assert!(rt; list_between(alloc, &mut Seeking::new(reader, true), 0, kind) == refused);
    }
}

// The first call writes the line, and the second one flushes it. Each is a failure of the output if it fails once. So is a write of nothing.
#[test]
fn failing_writers(rt: HostRuntime) {
    // guards: devices-over-stds-readers-and-writers
    let alloc = rt.alloc();
    let octets = octets_of(alloc, TWO_PACKETS).expect(&rt, "octets");
    let refused = Some(Err(RunFault::Write));
    for kind in KINDS {
        for (call, answer) in [(0, Some(Ok(1))), (1, refused), (2, refused)] {
            let mut source = Reading::new(octets.as_slice());
            assert!(rt; list_between(alloc, &mut source, call, kind) == answer);
        }
    }
    let mut source = Reading::new(octets.as_slice());
    let mut full = Writing::new(Full);
    assert!(rt; list_through(alloc, BASE, &mut source, &mut full) == refused);
}
