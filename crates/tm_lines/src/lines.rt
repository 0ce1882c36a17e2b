//! The printed lines. Each is made in a buffer, from its end to its beginning.

ghost use Rattle.std.specs.Prelude.{◌≡◌, ◌+◌, ◌≤◌, ◌++◌, codes, drop, length};
ghost use Rattle.std.specs.Fmt.{decimal};
ghost use Rattle.tm_lines.specs.Lines.{bad_line, bit_text, drop_line, flags_word, frame_line, gap_line, kind_word, master_gap_line, note_line, packet_line, place_text, short_line, short_packet_line, type_word, vca_line, why_word, yes_or_no};
ghost use Rattle.tm_lines.specs.code.Parts.{packet_end};

use crate::{DroppedPart, LineBuffer, Packet, PacketPlace};
use tm_frame::{Frame, FrameFault, Kind};
use tm_packet::{Flags, Header, Note, Why};

// The word of what a data field holds.
#[inline(always)]
fn format_kind(line: &mut LineBuffer, kind: Kind)
    requires { 7 + length line.old ≤ 320 }
    ensures most { length line.new ≤ 7 + length line.old }
    ensures text { line.new ≡ kind_word kind ++ line.old }
{
    match kind {
        Kind::Packets(_) => line.prepend_text(b"packets"),
        Kind::NoStart => line.prepend_text(b"nostart"),
        Kind::Idle => line.prepend_text(b"idle"),
        Kind::Vca => line.prepend_text(b"vca"),
    }
}

// The place of the first packet, or a dash.
#[inline(always)]
fn format_place(line: &mut LineBuffer, kind: Kind)
    requires { 10 + length line.old ≤ 320 }
    ensures most { length line.new ≤ 10 + length line.old }
    ensures text { line.new ≡ place_text kind ++ line.old }
{
    match kind {
        Kind::Packets(place) => line.prepend_number(u32::from(place)),
        Kind::NoStart => line.prepend_text(b"-"),
        Kind::Idle => line.prepend_text(b"-"),
        Kind::Vca => line.prepend_text(b"-"),
    }
}

#[inline(always)]
fn format_yes_or_no(line: &mut LineBuffer, b: bool)
    requires { 3 + length line.old ≤ 320 }
    ensures most { length line.new ≤ 3 + length line.old }
    ensures text { line.new ≡ yes_or_no b ++ line.old }
{
    if b {
        line.prepend_text(b"yes")
    } else {
        line.prepend_text(b"no")
    }
}

fn bit_text(b: bool) -> &'static [u8; 1]
    ensures { result.now ≡ bit_text b }
{
    if b { b"1" } else { b"0" }
}

/// The line of a good frame.
#[inline(always)]
pub fn format_frame(line: &mut LineBuffer, seen: u32, frame: &Frame<'_>)
    ensures { line.new ≡ frame_line seen frame.now }
{
    line.start();
    line.prepend_long_number(frame.field().len() as u64);
    line.prepend_text(b" octets=");
    line.prepend_digit(frame.segment());
    line.prepend_text(b" segment=");
    line.prepend_text(bit_text(frame.order_flag()));
    line.prepend_text(b" order=");
    format_yes_or_no(line, frame.has_ocf());
    line.prepend_text(b" ocf=");
    line.prepend_number(u32::from(frame.secondary_length()));
    line.prepend_text(b" secondary=");
    format_place(line, frame.kind());
    line.prepend_text(b" place=");
    format_kind(line, frame.kind());
    line.prepend_text(b" kind=");
    line.prepend_number(u32::from(frame.count()));
    line.prepend_text(b" count=");
    line.prepend_number(u32::from(frame.master_count()));
    line.prepend_text(b" master=");
    line.prepend_digit(frame.channel());
    line.prepend_text(b" channel=");
    line.prepend_number(seen);
    line.prepend_text(b"frame record=");
}

/// The line of a bad frame.
#[tactic(auto, using(crate::proofs::BufferLemmas::short_fault_word))]
pub fn format_bad(line: &mut LineBuffer, seen: u32, fault: FrameFault)
    ensures { line.new ≡ bad_line seen fault }
{
    line.start();
    line.prepend_word(fault.word());
    line.prepend_text(b" fault=");
    line.prepend_number(seen);
    line.prepend_text(b"bad record=");
}

/// The line of octets that are left after `seen` records.
pub fn format_short(line: &mut LineBuffer, seen: u32, octets: usize)
    ensures { line.new ≡ short_line seen octets }
{
    line.start();
    line.prepend_long_number(octets as u64);
    line.prepend_text(b" octets=");
    line.prepend_number(seen);
    line.prepend_text(b"short record=");
}

// ---- packets

#[inline(always)]
fn format_flags(line: &mut LineBuffer, flags: Flags)
    requires { 12 + length line.old ≤ 320 }
    ensures most { length line.new ≤ 12 + length line.old }
    ensures text { line.new ≡ flags_word flags ++ line.old }
{
    match flags {
        Flags::Continuation => line.prepend_text(b"continuation"),
        Flags::First => line.prepend_text(b"first"),
        Flags::Last => line.prepend_text(b"last"),
        Flags::Unsegmented => line.prepend_text(b"unsegmented"),
    }
}

// The word of a packet's sequence flags, with what stands before and after it: one text takes fewer stores than three.
#[inline(always)]
fn format_packet_flags(line: &mut LineBuffer, flags: Flags)
    requires { 26 + length line.old ≤ 320 }
    ensures most { length line.new ≤ 26 + length line.old }
    ensures text { line.new ≡ codes " flags=" ++ (flags_word flags ++ (codes " count=" ++ line.old)) }
{
    match flags {
        Flags::Continuation => line.prepend_text(b" flags=continuation count="),
        Flags::First => line.prepend_text(b" flags=first count="),
        Flags::Last => line.prepend_text(b" flags=last count="),
        Flags::Unsegmented => line.prepend_text(b" flags=unsegmented count="),
    }
}

// The words of a packet's type and secondary header, likewise.
#[inline(always)]
fn format_type_and_secondary(line: &mut LineBuffer, telecommand: bool, secondary: bool)
    requires { 28 + length line.old ≤ 320 }
    ensures most { length line.new ≤ 28 + length line.old }
    ensures text { line.new ≡ codes " type=" ++ (type_word telecommand
        ++ (codes " secondary=" ++ (yes_or_no secondary ++ (codes " apid=" ++ line.old)))) }
{
    if telecommand {
        if secondary {
            line.prepend_text(b" type=tc secondary=yes apid=")
        } else {
            line.prepend_text(b" type=tc secondary=no apid=")
        }
    } else if secondary {
        line.prepend_text(b" type=tm secondary=yes apid=")
    } else {
        line.prepend_text(b" type=tm secondary=no apid=")
    }
}

// The line of a packet, from the place on.
#[inline(always)]
fn format_packet_end(line: &mut LineBuffer, place: u16, header: &Header, octet_count: usize)
    ensures most { length line.new ≤ 113 }
    ensures text { line.new ≡ packet_end place header.now octet_count }
{
    line.start();
    line.prepend_long_number(octet_count as u64);
    line.prepend_text(b" octets=");
    line.prepend_number(u32::from(header.count()));
    format_packet_flags(line, header.flags());
    line.prepend_number(u32::from(header.application()));
    format_type_and_secondary(line, header.telecommand(), header.secondary());
    line.prepend_number(u32::from(place));
}

/// The line of a packet of this length that was found at a place.
#[inline(always)]
#[tactic(auto, using(crate::proofs::LineLemmas::line_of_parts))]
pub fn format_packet_at(line: &mut LineBuffer, place: PacketPlace, header: &Header, length: usize)
    ensures { line.new ≡ packet_line place.seen place.channel place.first place.place header.now length }
{
    format_packet_end(line, place.place, header, length);
    line.prepend_beginning(place.seen, place.channel, place.first);
}

// Where a packet is.
#[inline(always)]
fn place_of(packet: &Packet<'_>) -> PacketPlace
    ensures { result ≡ record {
      seen = packet.now.seen;
      channel = packet.now.channel;
      first = packet.now.first;
      place = packet.now.place;
    } }
{
    PacketPlace {
        seen: packet.seen,
        channel: packet.channel,
        first: packet.first,
        place: packet.place,
    }
}

// A packet of fewer octets is short. Where packets are short, most records have several, whose lines have the same beginning.
const SHORT: usize = 64;

/// The line of a packet.
#[inline(always)]
#[tactic(auto, using(crate::proofs::LineLemmas::line_of_parts))]
pub fn format_packet(line: &mut LineBuffer, packet: &Packet<'_>)
    ensures { line.new
        ≡ packet_line packet.now.seen packet.now.channel packet.now.first packet.now.place packet.now.header
        (length packet.now.octets.now) }
{
    let octets = packet.octets.len();
    format_packet_end(line, packet.place, &packet.header, octets);
    if octets < SHORT && packet.first == packet.seen {
        line.repeat_beginning(packet.seen, packet.channel);
    } else {
        line.prepend_beginning(packet.seen, packet.channel, packet.first);
    }
}

// ---- the report

// What the counts of a gap are, and how many are missing.
fn format_counts(line: &mut LineBuffer, expected: u16, found: u16, missing: u16)
    requires { 56 + length line.old ≤ 320 }
    ensures most { length line.new ≤ 56 + length line.old }
    ensures text { line.new ≡ codes " expected="
        ++ (decimal expected ++ (codes " found=" ++ (decimal found ++ (codes " missing=" ++ (decimal missing ++ line.old))))) }
{
    line.prepend_number(u32::from(missing));
    line.prepend_text(b" missing=");
    line.prepend_number(u32::from(found));
    line.prepend_text(b" found=");
    line.prepend_number(u32::from(expected));
    line.prepend_text(b" expected=");
}

/// The line of a gap in the counts of a channel's frames.
pub fn format_gap(
    line: &mut LineBuffer,
    seen: u32,
    channel: u8,
    expected: u16,
    found: u16,
    missing: u16,
)
    ensures { line.new ≡ gap_line seen channel expected found missing }
{
    line.start();
    format_counts(line, expected, found, missing);
    line.prepend_number(u32::from(channel));
    line.prepend_text(b" channel=");
    line.prepend_number(seen);
    line.prepend_text(b"gap record=");
}

/// The line of a gap in the counts of the master channel, over the good frames of all channels.
pub fn format_master_gap(line: &mut LineBuffer, seen: u32, expected: u16, found: u16, missing: u16)
    ensures { line.new ≡ master_gap_line seen expected found missing }
{
    line.start();
    format_counts(line, expected, found, missing);
    line.prepend_number(seen);
    line.prepend_text(b"mastergap record=");
}

/// The line of a VCA frame.
pub fn format_vca(line: &mut LineBuffer, seen: u32, channel: u8)
    ensures { line.new ≡ vca_line seen channel }
{
    line.start();
    line.prepend_number(u32::from(channel));
    line.prepend_text(b" channel=");
    line.prepend_number(seen);
    line.prepend_text(b"vca record=");
}

/// The line of a dropped part.
#[tactic(auto, using(crate::proofs::BufferLemmas::short_reason_word))]
pub fn format_drop(line: &mut LineBuffer, seen: u32, channel: u8, part: DroppedPart)
    ensures { line.new ≡ drop_line seen channel part.first part.place part.octets part.reason }
{
    line.start();
    line.prepend_word(part.reason.word());
    line.prepend_text(b" reason=");
    line.prepend_number(part.octets);
    line.prepend_text(b" octets=");
    line.prepend_number(u32::from(part.place));
    line.prepend_text(b" at=");
    line.prepend_number(part.first);
    line.prepend_text(b" from=");
    line.prepend_number(u32::from(channel));
    line.prepend_text(b" channel=");
    line.prepend_number(seen);
    line.prepend_text(b"drop record=");
}

/// The line of a packet at this place that has too few bits for its fields.
pub fn format_short_packet_at(line: &mut LineBuffer, place: PacketPlace, needed: u64, found: u64)
    ensures { line.new ≡ short_packet_line place.seen place.channel place.first place.place needed found }
{
    let PacketPlace {
        seen,
        channel,
        first,
        place,
    } = place;
    line.start();
    line.prepend_long_number(found);
    line.prepend_text(b" found=");
    line.prepend_long_number(needed);
    line.prepend_text(b" needed=");
    line.prepend_number(u32::from(place));
    line.prepend_text(b" at=");
    line.prepend_number(first);
    line.prepend_text(b" from=");
    line.prepend_number(u32::from(channel));
    line.prepend_text(b" channel=");
    line.prepend_number(seen);
    line.prepend_text(b"shortpacket record=");
}

/// The line of a packet of too few bits for its fields.
pub fn format_short_packet(line: &mut LineBuffer, packet: &Packet<'_>, needed: u64, found: u64)
    ensures { line.new ≡ short_packet_line packet.now.seen packet.now.channel packet.now.first packet.now.place needed found }
{
    format_short_packet_at(line, place_of(packet), needed, found);
}

// ---- notes on sequence counts

// Why a group is broken.
fn format_why(line: &mut LineBuffer, why: Why)
    requires { 11 + length line.old ≤ 320 }
    ensures most { length line.new ≤ 11 + length line.old }
    ensures text { line.new ≡ why_word why ++ line.old }
{
    match why {
        Why::Gap => line.prepend_text(b"gap"),
        Why::First => line.prepend_text(b"first"),
        Why::Unsegmented => line.prepend_text(b"unsegmented"),
        Why::Close => line.prepend_text(b"end"),
    }
}

// The channel and application of a note, before what the note says of them, and the record.
fn format_place_of_note(line: &mut LineBuffer, seen: u32, channel: u8, apid: u16)
    requires { 45 + length line.old ≤ 320 }
    ensures most { length line.new ≤ 45 + length line.old }
    ensures text { line.new
        ≡ decimal seen ++ (codes " channel=" ++ (decimal channel ++ (codes " apid=" ++ (decimal apid ++ line.old)))) }
{
    line.prepend_number(u32::from(apid));
    line.prepend_text(b" apid=");
    line.prepend_number(u32::from(channel));
    line.prepend_text(b" channel=");
    line.prepend_number(seen);
}

/// The line of a note on the sequence counts of a channel and application.
pub fn format_note(line: &mut LineBuffer, seen: u32, channel: u8, apid: u16, note: Note)
    ensures { line.new ≡ note_line seen channel apid note }
{
    line.start();
    match note {
        Note::Gap {
            expected,
            found,
            missing,
        } => {
            format_counts(line, expected, found, missing);
            format_place_of_note(line, seen, channel, apid);
            line.prepend_text(b"seqgap record=");
        }
        Note::Broken { first, last, why } => {
            format_why(line, why);
            line.prepend_text(b" reason=");
            line.prepend_number(u32::from(last));
            line.prepend_text(b" last=");
            line.prepend_number(u32::from(first));
            line.prepend_text(b" first=");
            format_place_of_note(line, seen, channel, apid);
            line.prepend_text(b"broken record=");
        }
        Note::Whole { first, last } => {
            line.prepend_number(u32::from(last));
            line.prepend_text(b" last=");
            line.prepend_number(u32::from(first));
            line.prepend_text(b" first=");
            format_place_of_note(line, seen, channel, apid);
            line.prepend_text(b"group record=");
        }
        Note::Stray { count, flags } => {
            format_flags(line, flags);
            line.prepend_text(b" flag=");
            line.prepend_number(u32::from(count));
            line.prepend_text(b" count=");
            format_place_of_note(line, seen, channel, apid);
            line.prepend_text(b"stray record=");
        }
    }
}
