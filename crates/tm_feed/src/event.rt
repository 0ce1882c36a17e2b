//! Events: what is reported of records, in numbers of fixed size, as a caller in C reads them.

ghost use Rattle.std.specs.Prelude.{◌≡◌, length};
ghost use Rattle.tm_items.specs.OnePacket.{IsOnePacket};
ghost use Rattle.tm_items.specs.Sinks.{item_of};
ghost use Rattle.tm_output.specs.FieldRows.{lead_of};
ghost use Rattle.tm_output.specs.Packets.{HasHeader, item_with};
ghost use Rattle.tm_output.specs.Pieces.{HasLine};
ghost use Rattle.tm_packet.specs.Header.{flags_number};
ghost use Rattle.tm_feed.specs.Events.{bit, blank, item_event, note_event, reason_number, row_event, short_packet_event, why_number};

use tm_fields::Lead;
use tm_items::{Item, Reason};
use tm_lines::Packet;
use tm_packet::{Flags, Note, Why};

/// One event. `kind` says which it is, and which numbers it has; all others are 0.
#[repr(C)]
#[derive(Clone, Copy, Debug, PartialEq, Eq)]
pub struct Event {
    /// The octets of an event: 48.
    pub size: u32,
    /// The record at which it is given, from 0.
    pub seen: u32,
    /// The record in which a packet or a dropped part begins.
    pub from: u32,
    /// How many octets a packet, a dropped part, a short record or a row has.
    pub octets: u32,
    /// Where the octets of a packet or row begin in the room of octets; of a packet that is too short for a row how many bits that needs.
    pub at: u64,
    /// The place in the data field of `from` at which a packet or a dropped part begins.
    pub place: u16,
    /// The application of a packet, a note or a row.
    pub application: u16,
    /// The sequence count of a packet, a stray or a row's packet.
    pub count: u16,
    /// The count that a gap expected; a group's first count.
    pub expected: u16,
    /// The count that a gap has; a group's last count.
    pub found: u16,
    /// How many counts a gap lacks.
    pub missing: u16,
    /// What is told.
    pub kind: u8,
    /// The channel of all but a bad frame, a gap of the master channel and a short record.
    pub channel: u8,
    /// The sequence flags of a packet or of a stray, as its header has them.
    pub flags: u8,
    /// 1 where a packet is a telecommand.
    pub telecommand: u8,
    /// 1 where a packet has a secondary header.
    pub secondary: u8,
    /// The number of a bad frame's fault, of the reason of a dropped part, or of why a group is broken.
    pub why: u8,
}

/// A whole packet.
pub const PACKET: u8 = 1;
/// A bad frame.
pub const BAD: u8 = 2;
/// A gap of the master channel.
pub const MASTER_GAP: u8 = 3;
/// A gap of a channel.
pub const GAP: u8 = 4;
/// A VCA frame.
pub const VCA: u8 = 5;
/// A dropped part.
pub const DROP: u8 = 6;
/// Octets that are left at the end.
pub const SHORT: u8 = 7;
/// A gap of the sequence counts of an application.
pub const SEQUENCE_GAP: u8 = 8;
/// A broken group.
pub const BROKEN: u8 = 9;
/// A whole group.
pub const GROUP: u8 = 10;
/// A packet that should be in a group, and is in none.
pub const STRAY: u8 = 11;
/// A row.
pub const ROW: u8 = 12;
/// A packet that is too short for a row.
pub const SHORT_PACKET: u8 = 13;

// An event of this kind at this record, whose other numbers are 0.
fn blank(kind: u8, seen: u32) -> Event
    ensures { result ≡ blank kind seen }
{
    Event {
        size: 48,
        seen,
        from: 0,
        octets: 0,
        at: 0,
        place: 0,
        application: 0,
        count: 0,
        expected: 0,
        found: 0,
        missing: 0,
        kind,
        channel: 0,
        flags: 0,
        telecommand: 0,
        secondary: 0,
        why: 0,
    }
}

fn bit(set: bool) -> u8
    ensures { result ≡ bit set }
{
    if set { 1 } else { 0 }
}

fn flags_number(flags: Flags) -> u8
    ensures { result ≡ flags_number flags }
{
    match flags {
        Flags::Continuation => 0,
        Flags::First => 1,
        Flags::Last => 2,
        Flags::Unsegmented => 3,
    }
}

fn reason_number(reason: Reason) -> u8
    ensures { result ≡ reason_number reason }
{
    match reason {
        Reason::Pointer => 1,
        Reason::Gap => 2,
        Reason::Vca => 3,
        Reason::Close => 4,
        Reason::NoStart => 5,
        Reason::Version => 6,
        Reason::Length => 7,
    }
}

fn why_number(why: Why) -> u8
    ensures { result ≡ why_number why }
{
    match why {
        Why::Gap => 1,
        Why::First => 2,
        Why::Unsegmented => 3,
        Why::Close => 4,
    }
}

/// The event of a packet whose octets begin at this place of the room.
#[inline(always)]
#[tactic(auto, using(crate::proofs::SinkLemmas::whole_length))]
pub(crate) fn packet_event(at: u64, packet: &Packet<'_>) -> Event
    requires header { HasHeader packet.now }
    requires whole { IsOnePacket packet.now.octets.now }
    ensures { result ≡ item_event at (item_with packet.now) }
{
    let header = packet.header;
    Event {
        from: packet.first,
        octets: header.length(),
        at,
        place: packet.place,
        application: header.application(),
        count: header.count(),
        channel: packet.channel,
        flags: flags_number(header.flags()),
        telecommand: bit(header.telecommand()),
        secondary: bit(header.secondary()),
        ..blank(PACKET, packet.seen)
    }
}

// The event of a gap of counts.
fn gap_event(kind: u8, seen: u32, channel: u8, counts: (u16, u16, u16)) -> Event
    ensures { result ≡ record (blank kind seen) {
      channel = channel;
      expected = counts.0;
      found = counts.1;
      missing = counts.2;
    } }
{
    let (expected, found, missing) = counts;
    Event {
        channel,
        expected,
        found,
        missing,
        ..blank(kind, seen)
    }
}

/// The event of an item that is no packet.
pub(crate) fn other_event(item: Item<'_>) -> Event
    requires { HasLine (item_of item) }
    ensures { result ≡ item_event 0 (item_of item.entry) }
{
    match item {
        Item::Bad { seen, fault } => Event {
            why: fault.number(),
            ..blank(BAD, seen)
        },
        Item::MasterGap {
            seen,
            expected,
            found,
            missing,
        } => gap_event(
            MASTER_GAP,
            seen,
            0,
            (expected.into(), found.into(), missing.into()),
        ),
        Item::Gap {
            seen,
            channel,
            expected,
            found,
            missing,
        } => gap_event(
            GAP,
            seen,
            channel,
            (expected.into(), found.into(), missing.into()),
        ),
        Item::Vca { seen, channel } => Event {
            channel,
            ..blank(VCA, seen)
        },
        Item::Dropped {
            seen,
            channel,
            first,
            place,
            octets,
            reason,
        } => Event {
            from: first,
            octets,
            place,
            channel,
            why: reason_number(reason),
            ..blank(DROP, seen)
        },
        Item::Short { seen, octets } => Event {
            octets,
            ..blank(SHORT, seen)
        },
        Item::Packet { .. } => unreachable!(),
    }
}

/// The event of a note on the sequence counts of a channel and application.
pub(crate) fn note_event(seen: u32, channel: u8, application: u16, note: Note) -> Event
    ensures { result ≡ note_event seen channel application note }
{
    let mut event = match note {
        Note::Gap {
            expected,
            found,
            missing,
        } => gap_event(SEQUENCE_GAP, seen, channel, (expected, found, missing)),
        Note::Broken { first, last, why } => Event {
            expected: first,
            found: last,
            why: why_number(why),
            ..blank(BROKEN, seen)
        },
        Note::Whole { first, last } => Event {
            expected: first,
            found: last,
            ..blank(GROUP, seen)
        },
        Note::Stray { count, flags } => Event {
            count,
            flags: flags_number(flags),
            ..blank(STRAY, seen)
        },
    };
    event.channel = channel;
    event.application = application;
    event
}

/// The event of a row of so many octets, which begin at this place of the room.
pub(crate) fn row_event(at: u64, lead: Lead, octets: u32) -> Event
    ensures { result ≡ row_event at lead octets }
{
    Event {
        octets,
        at,
        application: lead.application,
        count: lead.count,
        channel: lead.channel,
        ..blank(ROW, lead.seen)
    }
}

/// The event of a packet of these fields' application that has fewer bits than they need.
#[tactic(auto, using(crate::proofs::SinkLemmas::whole_length))]
pub(crate) fn short_packet_event(packet: &Packet<'_>, needed: u32) -> Event
    requires header { HasHeader packet.now }
    requires whole { IsOnePacket packet.now.octets.now }
    ensures { result ≡ short_packet_event packet.now.first packet.now.place
        (lead_of packet.now.seen packet.now.channel packet.now.octets.now)
        needed (length packet.now.octets.now) }
{
    let header = packet.header;
    Event {
        from: packet.first,
        octets: header.length(),
        at: u64::from(needed),
        place: packet.place,
        application: header.application(),
        count: header.count(),
        channel: packet.channel,
        ..blank(SHORT_PACKET, packet.seen)
    }
}
