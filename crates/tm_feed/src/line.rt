//! The line of an event, as the program prints it.

ghost use Rattle.std.specs.Prelude.{◌≡◌};
ghost use Rattle.tm_feed.specs.EventLines.{event_line, note_told, nth_of, packet_told};

use crate::event::{
    BAD, BROKEN, DROP, Event, GAP, GROUP, MASTER_GAP, PACKET, SEQUENCE_GAP, SHORT, SHORT_PACKET,
    STRAY, VCA,
};
use tm_frame::FrameFault;
use tm_items::Reason;
use tm_lines::{
    DroppedPart, LineBuffer, PacketPlace, format_bad, format_drop, format_gap, format_master_gap,
    format_note, format_packet_at, format_short, format_short_packet_at, format_vca,
};
use tm_packet::{Flags, Header, Note, Why};

// As their two bits number them.
const ALL_FLAGS: [Flags; 4] = [
    Flags::Continuation,
    Flags::First,
    Flags::Last,
    Flags::Unsegmented,
];

const ALL_WHYS: [Why; 4] = [Why::Gap, Why::First, Why::Unsegmented, Why::Close];

// What has this number in a list that is numbered from 1.
fn nth_of<T: Copy>(all: &[T], number: u8) -> Option<T>
    ensures { result ≡ nth_of all.now number }
{
    match number {
        0 => None,
        _ => all.get(usize::from(number) - 1).copied(),
    }
}

// Where a packet is.
fn place_of(event: &Event) -> PacketPlace
    ensures { result ≡ record {
      seen = event.now.seen;
      channel = event.now.channel;
      first = event.now.from;
      place = event.now.place;
    } }
{
    PacketPlace {
        seen: event.seen,
        channel: event.channel,
        first: event.from,
        place: event.place,
    }
}

fn packet_told(event: &Event) -> Option<LineBuffer>
    ensures { result ≡ packet_told event.now }
{
    let flags = ALL_FLAGS.get(usize::from(event.flags)).copied()?;
    let header = Header::new(
        event.telecommand != 0,
        event.secondary != 0,
        event.application,
        flags,
        event.count,
        0,
    )?;
    let mut line = LineBuffer::new();
    format_packet_at(&mut line, place_of(event), &header, event.octets as usize);
    Some(line)
}

// The note of an event that tells one.
fn note_told(event: &Event) -> Option<Note>
    ensures { result ≡ note_told event.now }
{
    let (first, last) = (event.expected, event.found);
    match event.kind {
        SEQUENCE_GAP => Some(Note::Gap {
            expected: first,
            found: last,
            missing: event.missing,
        }),
        BROKEN => Some(Note::Broken {
            first,
            last,
            why: nth_of(&ALL_WHYS, event.why)?,
        }),
        GROUP => Some(Note::Whole { first, last }),
        STRAY => Some(Note::Stray {
            count: event.count,
            flags: ALL_FLAGS.get(usize::from(event.flags)).copied()?,
        }),
        _ => None,
    }
}

/// The line of an event, as the program prints it in the list of packets or in the report. `None` for a row, and where the kind, a number that
/// the line has as a word, or a part of a packet's header is out of range.
pub fn event_line(event: &Event) -> Option<LineBuffer>
    ensures { result ≡ event_line event.now }
{
    if event.kind == PACKET {
        return packet_told(event);
    }
    let (seen, channel) = (event.seen, event.channel);
    let (expected, found, missing) = (event.expected, event.found, event.missing);
    let mut line = LineBuffer::new();
    match event.kind {
        BAD => format_bad(&mut line, seen, nth_of(&FrameFault::ALL, event.why)?),
        MASTER_GAP => format_master_gap(&mut line, seen, expected, found, missing),
        GAP => format_gap(&mut line, seen, channel, expected, found, missing),
        VCA => format_vca(&mut line, seen, channel),
        DROP => {
            let reason = nth_of(&Reason::ALL, event.why)?;
            let part = DroppedPart {
                first: event.from,
                place: event.place,
                octets: event.octets,
                reason,
            };
            format_drop(&mut line, seen, channel, part);
        }
        SHORT => format_short(&mut line, seen, event.octets as usize),
        SHORT_PACKET => {
            let found = 8 * u64::from(event.octets);
            format_short_packet_at(&mut line, place_of(event), event.at, found);
        }
        _ => {
            let note = note_told(event)?;
            format_note(&mut line, seen, channel, event.application, note);
        }
    }
    Some(line)
}
