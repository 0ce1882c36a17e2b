//! Packet headers, and the notes and the spelling of their sequence counts.

use std::alloc::Global;
use tm_packet::{
    Flags, Header, Note, PacketFault, Tracker, TrackerFault, Why, packet_version, read_header,
    write_header,
};

#[test]
fn packet_headers(rt: HostRuntime) {
    // guards: packet-headers-are-those-of-the-standard
    let octets = [0x00, 0x64, 0xC0, 0x00, 0x00, 0x00];
    assert!(rt; read_header(&octets[..5]) == Err(PacketFault::Short));
    assert!(rt; read_header(&[0xE0, 0, 0, 0, 0, 0]) == Err(PacketFault::Version));
    assert!(rt; packet_version(0xE0) == 7);
    let header = read_header(&octets).expect(&rt, "a header");
    assert!(rt; !header.telecommand() && !header.secondary() && !header.is_idle());
    assert!(rt; header.application() == 100 && header.flags() == Flags::Unsegmented);
    assert!(rt; header.count() == 0 && header.data_length() == 0 && header.length() == 7);
    assert!(rt; write_header(header) == octets);
    assert!(rt; Header::new(false, false, 2048, Flags::First, 0, 0).is_none());
    assert!(rt; Header::new(false, false, 100, Flags::First, 16384, 0).is_none());
}

// Packets of application 100 on channel 0, their sequence flags and counts, with the notes that they give.
const GROUPS: [(Flags, u16, [Option<Note>; 3]); 6] = [
    (Flags::First, 5, [None; 3]),
    (Flags::Continuation, 6, [None; 3]),
    (
        Flags::Last,
        7,
        [Some(Note::Whole { first: 5, last: 7 }), None, None],
    ),
    (Flags::First, 8, [None; 3]),
    (
        Flags::Unsegmented,
        9,
        [
            Some(Note::Broken {
                first: 8,
                last: 8,
                why: Why::Unsegmented,
            }),
            None,
            None,
        ],
    ),
    (Flags::First, 10, [None; 3]),
];

const BROKEN_BY_GAP: [(Flags, u16, [Option<Note>; 3]); 3] = [
    (Flags::First, 16383, [None; 3]),
    (Flags::Continuation, 0, [None; 3]),
    (
        Flags::Last,
        2,
        [
            Some(Note::Gap {
                expected: 1,
                found: 2,
                missing: 1,
            }),
            Some(Note::Broken {
                first: 16383,
                last: 0,
                why: Why::Gap,
            }),
            Some(Note::Stray {
                count: 2,
                flags: Flags::Last,
            }),
        ],
    ),
];

// Takes a packet on channel 0: it gives these notes.
fn gives(tracker: &mut Tracker, header: Header, wanted: &[Option<Note>; 3]) -> bool {
    let notes = tracker.take(0, header);
    [notes.get(0), notes.get(1), notes.get(2)] == *wanted
}

// The packets give their notes one after the other.
fn all_give(tracker: &mut Tracker, packets: &[(Flags, u16, [Option<Note>; 3])]) -> bool {
    for (flags, count, wanted) in packets {
        let is_right = match Header::new(false, false, 100, *flags, *count, 0) {
            Some(header) => gives(tracker, header, wanted),
            None => false,
        };
        if !is_right {
            return false;
        }
    }
    true
}

#[test]
fn group_broken_by_gap(rt: HostRuntime) {
    // guards: trackertake-gives-the-notes-of-the-next-header
    let mut tracker = Tracker::new(rt.alloc()).expect(&rt, "memory");
    assert!(rt; all_give(&mut tracker, &BROKEN_BY_GAP));
}

#[test]
fn groups(rt: HostRuntime) {
    // guards: trackertake-gives-the-notes-of-the-next-header
    let mut tracker = Tracker::new(rt.alloc()).expect(&rt, "memory");
    assert!(rt; all_give(&mut tracker, &GROUPS));
    let idle = Header::new(false, false, 2047, Flags::Unsegmented, 0, 7);
    let idle = idle.expect(&rt, "a header");
    assert!(rt; tracker.take(0, idle).len() == 0);
    let unclosed = tracker.next_unclosed(0).expect(&rt, "an open group");
    let open = Note::Broken {
        first: 10,
        last: 10,
        why: Why::Close,
    };
    assert!(rt; unclosed.key == 100 && unclosed.note == open);
    assert!(rt; tracker.next_unclosed(101).is_none());
}

// Two packets on channel 1, as they are spelled.
const SPELLED: [u8; 8] = [0x00, 0x01, 0x08, 0x64, 0x00, 0x01, 0xFF, 0xFF];

// Takes two packets without a note.
fn takes_two(tracker: &mut Tracker) -> bool {
    for count in 0..2 {
        match Header::new(false, false, 100, Flags::Unsegmented, count, 0) {
            Some(header) if tracker.take(1, header).len() == 0 => {}
            _ => return false,
        }
    }
    true
}

// The two packets are spelled by a tracker.
fn spells_two(alloc: Global, tracker: &Tracker) -> bool {
    let mut octets = Vec::new(alloc);
    tracker.encode(&mut octets).is_ok() && octets.as_slice() == SPELLED.as_slice()
}

#[test]
fn spelling_of_two_packets(rt: HostRuntime) {
    // guards: a-trackers-spelling
    let alloc = rt.alloc();
    let mut tracker = Tracker::new(alloc).expect(&rt, "memory");
    assert!(rt; takes_two(&mut tracker));
    assert!(rt; spells_two(alloc, &tracker));
    let (again, read) = Tracker::decode(alloc, &SPELLED).expect(&rt, "what was spelled");
    assert!(rt; read == 8);
    assert!(rt; spells_two(alloc, &again));
}

#[test]
fn decode_faults(rt: HostRuntime) {
    // guards: a-trackers-spelling
    let order = [
        0, 2, 0x08, 0x64, 0, 1, 0xFF, 0xFF, 0, 0x64, 0, 1, 0xFF, 0xFF,
    ];
    let value = [0, 1, 0x07, 0xFF, 0, 0, 0xFF, 0xFF];
    let rows: [(&[u8], TrackerFault); 3] = [
        (&[0], TrackerFault::Short),
        (&order, TrackerFault::Order),
        (&value, TrackerFault::Value),
    ];
    for (octets, fault) in rows {
        let answer = Tracker::decode(rt.alloc(), octets).err();
        assert!(rt; answer == Some(fault));
    }
}
