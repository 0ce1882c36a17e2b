//! Calls that are refused memory, one request after the other: on sequence counts, channels, definitions, settings and jobs. Each says so and
//! leaves things as they were, and gives what it gives in ample memory as soon as there is enough.

use crate::field_rows::ROW_OCTETS;
use crate::fields::{HEAD, LEAD, PACKET, ROW, TEXT};
use crate::reassembly::{GREATEST, layout};
use crate::runs::settings_of;
use std::alloc::Global;
use std::process::Abort;
use std::rt::Files;
use tm_fields::{BinaryRows, Definition, DefinitionFault, RowFault, RowWriter, Rows};
use tm_frame::Layout;
use tm_memory::{Answer, NOTHING_HELD, Turns, try_twice};
use tm_packet::{Tracker, TrackerFault};
use tm_reassembly::{Channels, Reassembly, StateFault};
use tm_tool::{Job, Settings, SettingsFault};

/// A call that is made in turn.
pub(crate) trait Tried {
    /// What it gives now.
    fn once(&mut self, alloc: Global) -> Answer;
}

/// All turns of a call pass.
pub(crate) fn passes<R, T>(rt: &R, tried: &mut T) -> bool
where
    R: Files + AllocGlobal + Abort,
    T: Tried,
{
    let mut turns = Turns::new(rt).expect(rt, NOTHING_HELD);
    for _ in 0..turns.most() {
        if !turns.take(tried.once(rt.alloc())) {
            break;
        }
    }
    turns.has_passed()
}

// Octets that a vector holds before others are appended, without room for more.
const BEFORE: [u8; 64] = [0xAA; 64];

// One entry: two packets were taken.
const ENTRY: [u8; 8] = [0x00, 0x01, 0x08, 0x64, 0x00, 0x01, 0xFF, 0xFF];

/// Three records are done. The last of the master channel has count 2, 18 octets are held of channel 0, and one of count 1 was
/// the last on channel 1.
pub(crate) const STATE: [u8; 44] = [
    0, 0, 0, 3, 1, 2, 2, 0, 0, 0, 0, 0, 0, 0, 0, 0, 0, 0x12, 0x00, 0x64, 0xC0, 0x00, 0x00, 0x13,
    0x55, 0x55, 0x55, 0x55, 0x55, 0x55, 0x55, 0x55, 0x55, 0x55, 0x55, 0x55, 1, 1, 0, 0, 0, 0, 0, 0,
];

/// Likewise, in the older spelling, which has no count of the master channel.
pub(crate) const OLD_STATE: [u8; 42] = [
    0, 0, 0, 3, 2, 0, 0, 0, 0, 0, 0, 0, 0, 0, 0, 0x12, 0x00, 0x64, 0xC0, 0x00, 0x00, 0x13, 0x55,
    0x55, 0x55, 0x55, 0x55, 0x55, 0x55, 0x55, 0x55, 0x55, 0x55, 0x55, 1, 1, 0, 0, 0, 0, 0, 0,
];

/// What is held of channel 0.
pub(crate) const TAIL: [u8; 18] = [
    0x00, 0x64, 0xC0, 0x00, 0x00, 0x13, 0x55, 0x55, 0x55, 0x55, 0x55, 0x55, 0x55, 0x55, 0x55, 0x55,
    0x55, 0x55,
];

const SETTINGS: &str =
    "spacecraft = 42\nframe_length = 24\nerror_control = false\nsecondary = \"never\"\nchannels = [0, 3]\nmax_packet = 12\n";

#[derive(Clone, Copy)]
enum Call {
    NewTracker,
    EncodeTracker,
    DecodeTracker,
    NewReassembly,
    EncodeReassembly,
    DecodeReassembly,
    DecodeOldReassembly,
    ReadDefinition,
    Head,
    Row,
    KeptRow,
    BinaryRow,
    ReadSettings,
    NewJob,
}

// A call, and what the calls need.
#[derive(Drop)]
struct Needs {
    call: Call,
    tracker: Tracker,
    layout: Layout,
    reassembly: Reassembly,
    definition: Definition,
    settings: Settings,
    out: Vec<u8>,
}

impl Needs {
    fn new(alloc: Global, call: Call) -> Option<Needs> {
        let (tracker, _) = Tracker::decode(alloc, &ENTRY).ok()?;
        let layout = layout()?;
        let all = Channels::all();
        let (reassembly, _) = Reassembly::decode(alloc, layout, all, GREATEST, &STATE).ok()?;
        Some(Needs {
            call,
            tracker,
            layout,
            reassembly,
            definition: Definition::read(alloc, TEXT.as_bytes()).ok()?,
            settings: settings_of(alloc, SETTINGS)?,
            out: BEFORE.to_vec(alloc).ok()?,
        })
    }
}

impl Tried for Needs {
    fn once(&mut self, alloc: Global) -> Answer {
        match self.call {
            Call::NewTracker => tracker_made(alloc),
            Call::EncodeTracker => tracker_encoded(&self.tracker, &mut self.out),
            Call::DecodeTracker => tracker_decoded(alloc, &mut self.out),
            Call::NewReassembly => reassembly_made(alloc, self.layout),
            Call::EncodeReassembly => reassembly_encoded(&self.reassembly, &mut self.out),
            Call::DecodeReassembly => reassembly_decoded(alloc, self.layout),
            Call::DecodeOldReassembly => old_reassembly_decoded(alloc, self.layout),
            Call::ReadDefinition => definition_read(alloc),
            Call::Head => head_made(alloc, &self.definition),
            Call::Row => row_made(alloc, &self.definition),
            Call::KeptRow => row_written(alloc, &self.definition),
            Call::BinaryRow => octets_written(alloc, &self.definition),
            Call::ReadSettings => settings_read(alloc),
            Call::NewJob => job_made(alloc, &self.settings),
        }
    }
}

// All turns of a call pass, with what it needs made beforehand.
fn passes_call<R: Files + AllocGlobal + Abort>(rt: &R, call: Call) -> bool {
    match try_twice(|| Needs::new(rt.alloc(), call)) {
        Some(mut needs) => passes(rt, &mut needs),
        None => false,
    }
}

fn tracker_made(alloc: Global) -> Answer {
    match Tracker::new(alloc) {
        Ok(tracker) => Answer::right_if(tracker.next_unclosed(0).is_none()),
        Err(_) => Answer::Refused,
    }
}

// What is appended to octets that were there before, or none of it.
fn answer_of_appending(encoded: bool, octets: &[u8], wanted: &[u8]) -> Answer {
    let more = octets.strip_prefix(BEFORE.as_slice());
    if encoded {
        Answer::right_if(more == Some(wanted))
    } else {
        Answer::refused_if(more == Some(&[]))
    }
}

fn tracker_encoded(tracker: &Tracker, octets: &mut Vec<u8>) -> Answer {
    let encoded = tracker.encode(octets).is_ok();
    answer_of_appending(encoded, octets, &ENTRY)
}

fn tracker_decoded(alloc: Global, again: &mut Vec<u8>) -> Answer {
    again.clear();
    match Tracker::decode(alloc, &ENTRY) {
        Ok((tracker, read)) => {
            let encoded = tracker.encode(again).is_ok();
            Answer::right_if(read == 8 && encoded && again.as_slice() == ENTRY.as_slice())
        }
        Err(fault) => Answer::refused_if(fault == TrackerFault::NoMemory),
    }
}

fn reassembly_made(alloc: Global, layout: Layout) -> Answer {
    match Reassembly::new(alloc, layout, Channels::all(), GREATEST) {
        Ok(reassembly) => Answer::right_if(
            !reassembly.failed() && reassembly.records() == 0 && reassembly.held(0).is_empty(),
        ),
        Err(_) => Answer::Refused,
    }
}

fn reassembly_encoded(reassembly: &Reassembly, octets: &mut Vec<u8>) -> Answer {
    if reassembly.failed() {
        return Answer::Wrong;
    }
    let encoded = reassembly.encode(octets).is_ok();
    answer_of_appending(encoded, octets, &STATE)
}

/// The state has three records, the tail and this last count of the master channel.
pub(crate) fn is_state(reassembly: &Reassembly, master: Option<u8>) -> bool {
    !reassembly.failed()
        && reassembly.records() == 3
        && reassembly.held(0) == TAIL.as_slice()
        && reassembly.last_count(1) == Some(1)
        && reassembly.last_master() == master
}

fn reassembly_decoded(alloc: Global, layout: Layout) -> Answer {
    match Reassembly::decode(alloc, layout, Channels::all(), GREATEST, &STATE) {
        Ok((reassembly, read)) => Answer::right_if(read == 44 && is_state(&reassembly, Some(2))),
        Err(fault) => Answer::refused_if(fault == StateFault::NoMemory),
    }
}

fn old_reassembly_decoded(alloc: Global, layout: Layout) -> Answer {
    match Reassembly::decode_old(alloc, layout, Channels::all(), GREATEST, &OLD_STATE) {
        Ok((reassembly, read)) => Answer::right_if(read == 42 && is_state(&reassembly, None)),
        Err(fault) => Answer::refused_if(fault == StateFault::NoMemory),
    }
}

fn definition_read(alloc: Global) -> Answer {
    match Definition::read(alloc, TEXT.as_bytes()) {
        Ok(definition) => Answer::right_if(definition.bits_needed() == 128),
        Err(fault) => Answer::refused_if(fault == DefinitionFault::NoMemory),
    }
}

fn head_made(alloc: Global, definition: &Definition) -> Answer {
    match definition.head(alloc) {
        Ok(head) => Answer::right_if(head.as_slice() == HEAD.as_bytes()),
        Err(_) => Answer::Refused,
    }
}

fn row_made(alloc: Global, definition: &Definition) -> Answer {
    match definition.row(alloc, LEAD, &PACKET) {
        Ok(row) => Answer::right_if(row.as_slice() == ROW.as_bytes()),
        Err(fault) => Answer::refused_if(fault == RowFault::NoMemory),
    }
}

fn row_written(alloc: Global, definition: &Definition) -> Answer {
    let mut rows = Rows::new(alloc, definition);
    match rows.write(LEAD, &PACKET) {
        Ok(()) => Answer::right_if(rows.row() == ROW.as_bytes()),
        Err(fault) => Answer::refused_if(fault == RowFault::NoMemory && rows.row().is_empty()),
    }
}

fn octets_written(alloc: Global, definition: &Definition) -> Answer {
    let mut rows = BinaryRows::new(alloc, definition);
    match rows.write(LEAD, &PACKET) {
        Ok(()) => Answer::right_if(rows.row() == ROW_OCTETS),
        Err(fault) => Answer::refused_if(fault == RowFault::NoMemory && rows.row().is_empty()),
    }
}

fn settings_read(alloc: Global) -> Answer {
    match Settings::read(alloc, SETTINGS.as_bytes()) {
        Ok(settings) => Answer::right_if(
            settings.layout().record_length() == 24
                && settings.channels().mask() == 9
                && settings.max_packet() == 12,
        ),
        Err(SettingsFault::NoMemory) => Answer::Refused,
        Err(_) => Answer::Wrong,
    }
}

fn job_made(alloc: Global, settings: &Settings) -> Answer {
    match Job::new(alloc, settings) {
        Ok(job) => Answer::right_if(job.records() == 0),
        Err(_) => Answer::Refused,
    }
}

#[test]
fn new_tracker(rt: HostRuntime) {
    // guards: keys-open-groups-and-the-list-of-notes
    assert!(rt; passes_call(&rt, Call::NewTracker));
}

#[test]
fn encode_tracker(rt: HostRuntime) {
    // guards: a-trackers-spelling
    assert!(rt; passes_call(&rt, Call::EncodeTracker));
}

#[test]
fn decode_tracker(rt: HostRuntime) {
    // guards: a-trackers-spelling
    assert!(rt; passes_call(&rt, Call::DecodeTracker));
}

#[test]
fn new_reassembly(rt: HostRuntime) {
    // guards: the-parts-of-the-state
    assert!(rt; passes_call(&rt, Call::NewReassembly));
}

#[test]
fn encode_reassembly(rt: HostRuntime) {
    // guards: a-states-spelling
    assert!(rt; passes_call(&rt, Call::EncodeReassembly));
}

#[test]
fn decode_reassembly(rt: HostRuntime) {
    // guards: a-states-spelling
    assert!(rt; passes_call(&rt, Call::DecodeReassembly));
}

#[test]
fn decode_old_reassembly(rt: HostRuntime) {
    // guards: a-states-spelling
    assert!(rt; passes_call(&rt, Call::DecodeOldReassembly));
}

#[test]
fn read_definition(rt: HostRuntime) {
    // guards: definitionread-gives-the-fields-or-the-refusal
    assert!(rt; passes_call(&rt, Call::ReadDefinition));
}

#[test]
fn head_of_rows(rt: HostRuntime) {
    // guards: head-row-and-rows-give-the-head-and-the-rows
    assert!(rt; passes_call(&rt, Call::Head));
}

#[test]
fn row_of_a_packet(rt: HostRuntime) {
    // guards: head-row-and-rows-give-the-head-and-the-rows
    assert!(rt; passes_call(&rt, Call::Row));
}

#[test]
fn row_of_rows(rt: HostRuntime) {
    // guards: head-row-and-rows-give-the-head-and-the-rows
    assert!(rt; passes_call(&rt, Call::KeptRow));
}

#[test]
fn row_of_binary_rows(rt: HostRuntime) {
    // guards: head-row-and-rows-give-the-head-and-the-rows
    assert!(rt; passes_call(&rt, Call::BinaryRow));
}

#[test]
fn read_settings(rt: HostRuntime) {
    // guards: settingsread-gives-the-settings-or-the-refusal
    assert!(rt; passes_call(&rt, Call::ReadSettings));
}

#[test]
fn new_job(rt: HostRuntime) {
    // guards: a-jobs-checkpoint-is-written-and-read
    assert!(rt; passes_call(&rt, Call::NewJob));
}
