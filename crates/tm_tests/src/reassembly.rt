//! Records of channels, with the packets and the lost parts that they give.

use crate::refused::{OLD_STATE, STATE, TAIL, is_state};
use crate::refusing::{Expected, finish, step};
use crate::runs::{
    GREATEST_PACKET, HELD_AFTER_FIRST_RECORD, Row, SHORT_REST, TWO_CHANNELS, TWO_PACKETS,
    octets_of, settings_of,
};
use std::alloc::Global;
use tm_frame::{Layout, LayoutParts, Presence};
use tm_reassembly::{Channels, Reason, Reassembly, StateFault, StepFault};

/// The layout of frames of 24 octets of spacecraft 42.
pub(crate) fn layout() -> Option<Layout> {
    let parts = LayoutParts {
        frame_length: 24,
        skip_before: 0,
        skip_after: 0,
        spacecraft: 42,
        secondary: Presence::Flag,
        ocf: Presence::Flag,
        error_control: false,
    };
    Layout::new(parts).ok()
}

/// The octets that a packet may have at most.
pub(crate) const GREATEST: u32 = 65_542;

// The mask of these channels, where they can be chosen.
fn mask_of(channels: &[u8]) -> Option<u8> {
    match Channels::of(channels) {
        Some(channels) => Some(channels.mask()),
        None => None,
    }
}

// The channel is one of these.
fn is_one(channel: u8, channels: &[u8]) -> bool {
    match Channels::of(channels) {
        Some(channels) => channel < 8 && channels.has(channel),
        None => false,
    }
}

#[test]
fn channels(rt: HostRuntime) {
    // guards: lengths-channels-and-the-words-for-dropped-parts
    let table = [
        ([0, 3].as_slice(), Some(9)),
        (&[0, 0], None),
        (&[8], None),
        (&[], None),
    ];
    for (channels, mask) in table {
        assert!(rt; mask_of(channels) == mask);
    }
    assert!(rt; is_one(3, &[0, 3]));
    assert!(rt; !is_one(1, &[0, 3]));
    assert!(rt; Channels::all().mask() == 255);
    assert!(rt; Reason::Close.word() == "end");
}

// A sink that wants these items and the octets of their packets, and refuses none of them.
fn sink_of<'w>(alloc: Global, items: &'w str, octets: &'w [u8]) -> Expected<'w> {
    Expected {
        alloc,
        items: items.as_bytes(),
        octets,
        accepted: 0,
        refuses: usize::MAX,
    }
}

// A row's reassembly after this many records, all of them taken.
fn after_records(
    alloc: Global,
    row: &Row,
    records: usize,
    sink: &mut Expected<'_>,
) -> Option<Reassembly> {
    let settings = settings_of(alloc, row.settings)?;
    let layout = settings.layout();
    let recording = octets_of(alloc, row.recording)?;
    let mut reassembly = Reassembly::new(alloc, layout, Channels::all(), GREATEST).ok()?;
    for record in recording.chunks_exact(layout.record_length()).take(records) {
        step(&mut reassembly, record, sink).ok()?;
    }
    Some(reassembly)
}

// What is held of channel 0.
fn held(reassembly: &Reassembly) -> &[u8] {
    if reassembly.failed() {
        return &[];
    }
    reassembly.held(0)
}

// What is known after the records of a row where two channels hold a tail.
fn is_held(reassembly: &Reassembly) -> bool {
    !reassembly.failed()
        && reassembly.records() == 2
        && reassembly.held(0) == TAIL.as_slice()
        && reassembly.last_count(1) == Some(0)
        && reassembly.last_count(2).is_none()
        && reassembly.last_master() == Some(1)
        && reassembly.max_packet() == GREATEST
}

#[test]
fn held_and_closed(rt: HostRuntime) {
    // guards: refusals-and-the-closed-end
    // guards: the-parts-of-the-state
    let alloc = rt.alloc();
    let mut sink = sink_of(alloc, SHORT_REST.items, &[]);
    let reassembly = after_records(alloc, &SHORT_REST, 2, &mut sink).expect(&rt, "two records");
    assert!(rt; is_held(&reassembly));
    assert!(rt; finish(reassembly, 10, &mut sink) == Ok(()));
    assert!(rt; sink.accepted == 3);
}

// How many octets are held of channel 0 after the first record of a row, and its last count.
fn kept_of_first(alloc: Global, row: &Row) -> Option<(usize, Option<u8>)> {
    let octets = octets_of(alloc, row.octets)?;
    let mut sink = sink_of(alloc, row.items, &octets);
    let reassembly = after_records(alloc, row, 1, &mut sink)?;
    if reassembly.failed() {
        return None;
    }
    Some((reassembly.held(0).len(), reassembly.last_count(0)))
}

#[test]
fn kept_of_the_first_record(rt: HostRuntime) {
    // guards: the-parts-of-the-state
    let alloc = rt.alloc();
    assert!(rt; kept_of_first(alloc, &TWO_PACKETS) == Some((0, Some(0))));
    assert!(rt; kept_of_first(alloc, &HELD_AFTER_FIRST_RECORD) == Some((18, Some(0))));
}

// What is spelled of the state after three records: the first leaves a tail, and the others have two packets.
fn spelled_state(alloc: Global) -> Option<Vec<u8>> {
    let octets = octets_of(alloc, TWO_CHANNELS.octets)?;
    let mut sink = sink_of(alloc, TWO_CHANNELS.items, &octets);
    let reassembly = after_records(alloc, &TWO_CHANNELS, 3, &mut sink)?;
    if reassembly.failed() || sink.accepted != 2 {
        return None;
    }
    let mut spelled = Vec::new(alloc);
    reassembly.encode(&mut spelled).ok()?;
    Some(spelled)
}

#[test]
fn state_after_three_records(rt: HostRuntime) {
    // guards: a-states-spelling
    let spelled = spelled_state(rt.alloc()).expect(&rt, "a state");
    assert!(rt; spelled.as_slice() == STATE.as_slice());
}

// A state is spelled as it is written, or as it was before the last count of the master channel was kept.
fn decode(alloc: Global, is_old: bool, octets: &[u8]) -> Result<(Reassembly, usize), StateFault> {
    let Some(layout) = layout() else {
        return Err(StateFault::NoMemory);
    };
    if is_old {
        Reassembly::decode_old(alloc, layout, Channels::all(), GREATEST, octets)
    } else {
        Reassembly::decode(alloc, layout, Channels::all(), GREATEST, octets)
    }
}

// Reads the state after three records, with an octet after it, and takes a bad frame.
fn is_read_again(alloc: Global, is_old: bool, state: &[u8], master: Option<u8>) -> Option<bool> {
    let mut octets = state.to_vec(alloc).ok()?;
    octets.push(0x77).ok()?;
    let (mut again, read) = decode(alloc, is_old, &octets).ok()?;
    let is_same = read == state.len() && is_state(&again, master);
    let mut sink = sink_of(alloc, "bad 3 version\n", &[]);
    step(&mut again, &[0x42; 24], &mut sink).ok()?;
    Some(is_same && sink.accepted == 1 && is_master(&again, master))
}

// The last count of the master channel.
fn is_master(reassembly: &Reassembly, master: Option<u8>) -> bool {
    !reassembly.failed() && reassembly.last_master() == master
}

#[test]
fn state_that_is_read_again(rt: HostRuntime) {
    // guards: the-parts-of-the-state
    let alloc = rt.alloc();
    assert!(rt; is_read_again(alloc, false, &STATE, Some(2)) == Some(true));
    assert!(rt; is_read_again(alloc, true, &OLD_STATE, None) == Some(true));
}

// Reads a state of the greatest number of records, which takes no further one.
fn is_full(alloc: Global, is_old: bool, octets: &[u8]) -> Option<bool> {
    let (mut full, read) = decode(alloc, is_old, octets).ok()?;
    let mut sink = sink_of(alloc, "", &[]);
    let answer = step(&mut full, &[0x55; 24], &mut sink);
    Some(
        read == octets.len()
            && answer == Err(StepFault::TooMany)
            && full.records() == 4_294_967_295,
    )
}

#[test]
fn greatest_number_of_records(rt: HostRuntime) {
    // guards: refusals-and-the-closed-end
    let alloc = rt.alloc();
    let full = [0xFF, 0xFF, 0xFF, 0xFF, 0, 0, 0, 0, 0, 0, 0, 0, 0];
    assert!(rt; is_full(alloc, false, &full) == Some(true));
    assert!(rt; is_full(alloc, true, &full[..12]) == Some(true));
}

// In the older spelling the fifth octet is left out, where it says that the master channel has no last count.
const DECODE_FAULTS: [(bool, &[u8], StateFault); 11] = [
    (false, &[0, 0, 0], StateFault::Short),
    (true, &[0, 0, 0], StateFault::Short),
    (false, &[0, 0, 0, 0, 0, 3], StateFault::Flag),
    (true, &[0, 0, 0, 0, 3], StateFault::Flag),
    (
        false,
        &[
            0, 0, 0, 1, 0, 2, 0, 0, 0, 0, 0, 0, 0, 0, 0, 0, 1, 0xE0, 0, 0, 0, 0, 0, 0, 0,
        ],
        StateFault::Tail,
    ),
    (
        true,
        &[
            0, 0, 0, 1, 2, 0, 0, 0, 0, 0, 0, 0, 0, 0, 0, 1, 0xE0, 0, 0, 0, 0, 0, 0, 0,
        ],
        StateFault::Tail,
    ),
    (
        false,
        &[
            0, 0, 0, 1, 0, 2, 0, 0, 0, 0, 1, 0, 0, 0, 0, 0, 1, 0xE0, 0, 0, 0, 0, 0, 0, 0,
        ],
        StateFault::Place,
    ),
    (
        true,
        &[
            0, 0, 0, 1, 2, 0, 0, 0, 0, 1, 0, 0, 0, 0, 0, 1, 0xE0, 0, 0, 0, 0, 0, 0, 0,
        ],
        StateFault::Place,
    ),
    (false, &[0, 0, 0, 0, 2], StateFault::Flag),
    (false, &[0, 0, 0, 0], StateFault::Short),
    (false, &[0, 0, 0, 0, 1], StateFault::Short),
];

#[test]
fn decode_faults(rt: HostRuntime) {
    // guards: a-states-spelling
    for &(is_old, octets, fault) in &DECODE_FAULTS {
        let answer = decode(rt.alloc(), is_old, octets).err();
        assert!(rt; answer == Some(fault), "{octets:?}");
    }
}

// The greatest packet is held up to its last octet, and given with the last record.
fn is_greatest_given(alloc: Global) -> Option<bool> {
    let row = &GREATEST_PACKET;
    let octets = octets_of(alloc, row.octets)?;
    let mut sink = sink_of(alloc, row.items, &octets);
    let mut reassembly = after_records(alloc, row, 33, &mut sink)?;
    let is_held = held(&reassembly).len() == 65_541;
    let recording = octets_of(alloc, row.recording)?;
    step(
        &mut reassembly,
        recording.chunks_exact(2048).last()?,
        &mut sink,
    )
    .ok()?;
    Some(is_held && sink.accepted == 3)
}

#[test]
fn greatest_packet(rt: HostRuntime) {
    // guards: the-parts-of-the-state
    // guards: exactly-the-whole-packets-are-given
    assert!(rt; is_greatest_given(rt.alloc()) == Some(true));
}
