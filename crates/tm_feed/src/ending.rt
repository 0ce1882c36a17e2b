//! The end of a recording: its items, and the groups that are open.

ghost use Rattle.std.specs.Prelude.{◌≡◌, ◌<◌, ◌≤◌, [], length, IfSome};
ghost use Rattle.tm_frame.specs.Layout.{record_length_of};
ghost use Rattle.tm_checkpoint.specs.Works.{IsGoing};
ghost use Rattle.tm_reassembly.specs.Items.{closing};
ghost use Rattle.tm_feed.specs.Endings.{unclosed_event};
ghost use Rattle.tm_feed.specs.Feeding.{events_of};
ghost use Rattle.tm_feed.specs.Jobs.{StandsIn, events_most};
ghost use Rattle.tm_feed.specs.code.Sinking.{after_items, sink_state};
ghost use Rattle.tm_feed.specs.code.Groups.{HasPut, IsFilled, left_from};

use crate::choice::Choice;
use crate::event::{Event, note_event};
use crate::sink::EventSink;
use tm_packet::{Pair, Tracker, Unclosed};
use tm_reassembly::Reassembly;

// The event of a group that is open after this many records.
fn unclosed_event(seen: u32, unclosed: Unclosed) -> Event
    requires { unclosed.key < 16384 }
    ensures { result ≡ unclosed_event seen unclosed }
{
    let pair = Pair::of_key(unclosed.key);
    note_event(seen, pair.channel, pair.application, unclosed.note)
}

/// Puts the events of the groups that are open from a key on after others. Answers how many events stand in the room then, and from which
/// key on groups are left, if the room is full.
pub(crate) fn give_groups(
    tracker: &Tracker,
    seen: u32,
    from: u16,
    events: &mut [Event],
    start: usize,
) -> (usize, Option<u16>)
    requires start { start ≤ length events.old }
    requires from { from ≤ 16384 }
    ensures put { HasPut tracker.now seen from start events.old events.new result.0 (left_from tracker.now result.1) }
    ensures full { IsFilled result.1 result.0 (length events.new) }
    ensures key { IfSome result.1 (λ key. key ≤ 16384) }
{
    let (mut filled, mut key) = (start, from);
    'groups: while let Some(unclosed) = tracker.next_unclosed(key) {
        if filled == events.len() {
            return (filled, Some(key));
        }
        events[filled] = unclosed_event(seen, unclosed);
        filled += 1;
        key = unclosed.key + 1;
    }
    (filled, None)
}

// Gives the items of a closed end to a sink that has room for them.
fn close_into(reassembly: &Reassembly, rest: usize, sink: &mut EventSink<'_>)
    requires rest { rest < record_length_of reassembly.now.rules.layout }
    requires going { IsGoing reassembly.now }
    requires empty { (sink_state sink.old).events ≡ [] }
    requires none { (sink_state sink.old).octets ≡ [] }
    requires room { events_most ≤ length sink.old.events.now }
    ensures { sink_state sink.new ≡ after_items (sink_state sink.old) (closing reassembly.now.state rest) }
{
    match reassembly.close(rest, sink) {
        Ok(()) => {}
        Err(_) => unreachable!(),
    }
}

/// Puts the events of the items of a closed end into a room, and answers how many there are.
pub(crate) fn give_closing(
    reassembly: &Reassembly,
    tracker: &mut Tracker,
    choice: &mut Choice,
    rest: usize,
    events: &mut [Event],
) -> usize
    requires rest { rest < record_length_of reassembly.now.rules.layout }
    requires going { IsGoing reassembly.now }
    requires room { events_most ≤ length events.old }
    ensures gave { StandsIn events.new result (events_of choice.old.chosen 0 tracker.old (closing reassembly.now.state rest)) }
    ensures tracker { tracker.new ≡ tracker.old }
    ensures choice { choice.new.chosen ≡ choice.old.chosen }
{
    let mut nothing: [u8; 0] = [];
    let mut sink = EventSink {
        tracker,
        choice,
        events,
        filled: 0,
        octets: &mut nothing,
        used: 0,
    };
    close_into(reassembly, rest, &mut sink);
    sink.filled
}
