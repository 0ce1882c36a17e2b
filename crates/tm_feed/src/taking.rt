//! Octets that come: the records that they make whole are taken, one by one.

ghost use Rattle.std.specs.Prelude.{◌≡◌, ◌≢◌, ◌<◌, ◌≤◌, ◌+◌, ◌-◌, ◌++◌, length, take, [], true, false, None, IfSome, vec_capacity, vec_len};
ghost use Rattle.tm_frame.specs.Layout.{most_records, record_length_of};
ghost use Rattle.tm_checkpoint.specs.Works.{IsGoing};
ghost use Rattle.tm_reassembly.specs.Steps.{step_items, stepped};
ghost use Rattle.tm_feed.specs.Jobs.{IsFull, all_events_most, octets_most};
ghost use Rattle.tm_feed.specs.code.Sinking.{after_items, sink_state};
ghost use Rattle.tm_feed.specs.code.Taking.{HasAdded, HasRoom, StopsAdding};

use crate::job::StopReason;
use crate::sink::EventSink;
use tm_reassembly::Reassembly;

/// The most events that a record gives without rows.
pub(crate) const EVENTS_MOST: usize = 1170;

// The most octets of packets beside the longest packet, and the most packets.
const FIELD_MOST: usize = 2041;

const PACKETS_MOST: usize = 292;

/// The most events that a record gives, where the longest row has so many octets.
pub(crate) fn all_events_most(longest: u32) -> usize
    ensures { result ≡ all_events_most longest }
{
    if longest == 0 {
        EVENTS_MOST
    } else {
        EVENTS_MOST + PACKETS_MOST
    }
}

/// The most octets of packets and rows that a record gives, where a packet has at most `limit`, and a row at most `longest`.
pub(crate) fn octets_most(limit: u32, longest: u32) -> usize
    ensures { result ≡ octets_most limit longest }
{
    limit as usize + FIELD_MOST + PACKETS_MOST * longest as usize
}

// A room is too small for what a record may give.
fn is_full(limit: u32, sink: &EventSink<'_>) -> bool
    ensures full { result ≡ true
        → IsFull limit sink.now.choice.now.chosen.longest (length sink.now.events.now) sink.now.filled
        (length sink.now.octets.now) sink.now.used }
    ensures room { result ≡ false → HasRoom limit (sink_state sink.now) }
{
    let longest = sink.choice.longest();
    sink.events.len() - sink.filled < all_events_most(longest)
        || sink.octets.len() - sink.used < octets_most(limit, longest)
}

// Takes the octets of a record, for whose events there is room.
fn add_record(reassembly: &mut Reassembly, octets: &[u8], sink: &mut EventSink<'_>)
    requires exact { length octets.now ≡ record_length_of reassembly.old.rules.layout }
    requires going { IsGoing reassembly.old }
    requires few { reassembly.old.state.records < most_records }
    requires room { HasRoom reassembly.old.rules.max_packet (sink_state sink.old) }
    ensures gave { sink_state sink.new ≡ after_items (sink_state sink.old) (step_items reassembly.old octets.now) }
    ensures left { reassembly.new ≡ stepped reassembly.old octets.now }
    ensures going { IsGoing reassembly.new }
{
    // So it is known that the layout is in range, and with it how much the record gives at most.
    let _parts = reassembly.layout().parts();
    match reassembly.step_record(octets, sink) {
        Ok(_) => {}
        Err(_) => unreachable!(),
    }
    prove!(!reassembly.failed());
}

// Keeps octets of a record that isn't whole yet, for which there is room.
fn keep_part(part: &mut Vec<u8>, more: &[u8])
    requires { vec_len part.old + length more.now ≤ vec_capacity part.old }
    ensures items { part.new.items ≡ part.old.items ++ more.now }
    ensures room { vec_capacity part.old ≤ vec_capacity part.new }
{
    match part.extend_from_slice(more) {
        Ok(()) => {}
        Err(_) => unreachable!(),
    }
}

// Takes the octets that make a record whole.
fn complete_record(
    reassembly: &mut Reassembly,
    part: &mut Vec<u8>,
    more: &[u8],
    sink: &mut EventSink<'_>,
)
    requires exact { length part.old.items + length more.now ≡ record_length_of reassembly.old.rules.layout }
    requires space { record_length_of reassembly.old.rules.layout ≤ vec_capacity part.old }
    requires going { IsGoing reassembly.old }
    requires few { reassembly.old.state.records < most_records }
    requires room { HasRoom reassembly.old.rules.max_packet (sink_state sink.old) }
    ensures gave { sink_state sink.new
        ≡ after_items (sink_state sink.old) (step_items reassembly.old (part.old.items ++ more.now)) }
    ensures left { reassembly.new ≡ stepped reassembly.old (part.old.items ++ more.now) }
    ensures going { IsGoing reassembly.new }
    ensures none { part.new.items ≡ [] }
    ensures space { vec_capacity part.old ≤ vec_capacity part.new }
{
    if part.is_empty() {
        add_record(reassembly, more, sink);
        return;
    }
    keep_part(part, more);
    add_record(reassembly, part.as_slice(), sink);
    part.clear();
}

// Why no further record may be taken, if so.
fn stop_at(reassembly: &Reassembly, sink: &EventSink<'_>) -> Option<StopReason>
    requires { IsGoing reassembly.now }
    ensures none { result ≡ None → HasRoom reassembly.now.rules.max_packet (sink_state sink.now)
        × (reassembly.now.state.records < most_records) }
    ensures stop { IfSome result (λ stop. StopsAdding stop reassembly.now (sink_state sink.now)) }
{
    if is_full(reassembly.max_packet(), sink) {
        return Some(StopReason::Room);
    }
    if reassembly.records() == u32::MAX {
        return Some(StopReason::TooMany);
    }
    None
}

/// Takes the records that octets make whole, as long as there is room for what each gives, and keeps the octets after them. Answers how
/// many octets it took, and why no more.
pub(crate) fn add_octets(
    reassembly: &mut Reassembly,
    part: &mut Vec<u8>,
    octets: &[u8],
    sink: &mut EventSink<'_>,
) -> (usize, StopReason)
    requires short { length part.old.items < record_length_of reassembly.old.rules.layout }
    requires space { record_length_of reassembly.old.rules.layout ≤ vec_capacity part.old }
    requires going { IsGoing reassembly.old }
    ensures taken { HasAdded reassembly.old reassembly.new (sink_state sink.old) (sink_state sink.new)
        (part.old.items ++ take result.0 octets.now) part.new.items }
    ensures rules { reassembly.new.rules ≡ reassembly.old.rules }
    ensures short { length part.new.items < record_length_of reassembly.new.rules.layout }
    ensures space { record_length_of reassembly.new.rules.layout ≤ vec_capacity part.new }
    ensures within { result.0 ≤ length octets.now }
    ensures done { result.1 ≡ StopReason.Done → result.0 ≡ length octets.now }
    ensures stop { result.1 ≢ StopReason.Done → StopsAdding result.1 reassembly.new (sink_state sink.new) }
    ensures whole { result.1 ≢ StopReason.Done
        → record_length_of reassembly.new.rules.layout ≤ length part.new.items + (length octets.now - result.0) }
{
    let size = reassembly.layout().record_length();
    let mut at = 0;
    'records: loop {
        let rest = &octets[at..];
        let missing = size - part.len();
        if rest.len() < missing {
            keep_part(part, rest);
            return (octets.len(), StopReason::Done);
        }
        if let Some(stop) = stop_at(reassembly, sink) {
            return (at, stop);
        }
        complete_record(reassembly, part, &rest[..missing], sink);
        at += missing;
    }
}
