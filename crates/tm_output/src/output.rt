//! Where the texts of items go.

ghost use Rattle.std.specs.Prelude.{◌≡◌, ◌≢◌, ◌+◌, ◌^◌, ◌<◌, ◌≤◌, ◌++◌, ◌∷◌, [], true, false, drop, length, None, IfErr, IfOk, IfSome, OnOk, OnErr};
ghost use Rattle.std.specs.Io.KnownBytes.{Keeps};
ghost use Rattle.tm_packet.specs.Merge as sequence;
ghost use Rattle.tm_packet.specs.Header.{packet_header_of};
ghost use Rattle.tm_items.specs.Sinks.{RefusesOne, item_of};
ghost use Rattle.tm_items.specs.Fronts.{front_items, front_packets};
ghost use Rattle.tm_items.specs.OnePacket.{IsOnePacket};
ghost use Rattle.tm_lines.specs.Lines.{note_line, note_lines};
ghost use Rattle.tm_output.specs.Outputs.{Written};
ghost use Rattle.tm_output.specs.Pieces.{HasLine, item_line, noted, notes_of, report_of, sent, unclosed_piece, unclosed_pieces};
ghost use Rattle.tm_output.specs.Totals.{note_tells_loss, notes_tell_loss, with_loss, with_unclosed};
ghost use Rattle.tm_output.specs.Packets.{HasHeader, item_with};
ghost use Rattle.tm_output.specs.code.Quiet.{HasNoted, IsFirstPacket, IsQuiet, IsAccepted};
ghost use Rattle.tm_output.specs.code.Sinking.{CountsItem, NotesItem, Refuses, Takes, WritesItem};
ghost use Rattle.tm_output.specs.Seen.{OutputState, fixture, output_both, output_state};

use crate::Packet;
use crate::front::{first_packet, span_from};
use crate::outlet::{Outlet, copy_of};
use crate::totals::Totals;
use std::alloc::AllocError;
use tm_devices::{Drain, write_all};
use tm_faults::RunFault;
use tm_items::{Item, Sink, Span};
use tm_lines::{
    DroppedPart, LineBuffer, format_bad, format_drop, format_gap, format_master_gap, format_note,
    format_short, format_vca,
};
use tm_packet::{Header, Note, Notes, Pair, Tracker, Unclosed, read_header};

/// Writes the texts of the items that it takes. Lines are made in memory that is kept from item to item.
#[derive(Drop)]
pub struct Output<'a, O, V> {
    pub tracker: &'a mut Tracker,
    pub notes: &'a mut Vec<u8>,
    pub outlet: &'a mut O,
    pub report: &'a mut V,
    /// What was given and lost so far, in numbers.
    pub totals: Totals,
}

// Makes the line of a note after others.
fn push_note(
    lines: &mut Vec<u8>,
    seen: u32,
    channel: u8,
    apid: u16,
    note: Note,
) -> Result<(), AllocError>
    ensures { OnOk result (lines.new.items ≡ lines.old.items ++ note_line seen channel apid note) }
{
    let mut line = LineBuffer::new();
    format_note(&mut line, seen, channel, apid, note);
    lines.extend_from_slice(line.as_slice())
}

// A note tells a loss: any but that of a whole group.
fn tells_loss(note: Note) -> bool
    ensures { result ≡ note_tells_loss note }
{
    match note {
        Note::Whole { .. } => false,
        Note::Gap { .. } | Note::Broken { .. } | Note::Stray { .. } => true,
    }
}

// Makes the lines of notes, one after the other, and answers whether one of them tells a loss.
#[tactic(auto, using(crate::proofs::PacketLemmas::some_notes))]
fn push_notes(
    lines: &mut Vec<u8>,
    seen: u32,
    channel: u8,
    apid: u16,
    notes: &Notes,
) -> Result<bool, AllocError>
    ensures lines { OnOk result (lines.new.items ≡ lines.old.items ++ note_lines seen channel apid notes.now) }
    ensures lost { IfOk result (λ lost. lost ≡ notes_tell_loss notes.now) }
    ensures memory { OnErr result (note_lines seen channel apid notes.now ≢ []) }
{
    let mut lost = false;
    for i in 0..notes.len() {
        if let Some(note) = notes.get(i) {
            if let Err(error) = push_note(lines, seen, channel, apid, note) {
                return Err(error);
            }
            lost |= tells_loss(note);
        }
    }
    Ok(lost)
}

// Makes the line of an item; of a packet none.
#[tactic(auto, unfolding(crate::specs::Pieces::item_line))]
fn make_line(line: &mut LineBuffer, item: Item<'_>)
    ensures { line.new ≡ item_line (item_of item.entry) }
{
    match item {
        Item::Bad { seen, fault } => format_bad(line, seen, fault),
        Item::MasterGap {
            seen,
            expected,
            found,
            missing,
        } => format_master_gap(line, seen, expected.into(), found.into(), missing.into()),
        Item::Gap {
            seen,
            channel,
            expected,
            found,
            missing,
        } => format_gap(
            line,
            seen,
            channel,
            expected.into(),
            found.into(),
            missing.into(),
        ),
        Item::Vca { seen, channel } => format_vca(line, seen, channel),
        Item::Dropped {
            seen,
            channel,
            first,
            place,
            octets,
            reason,
        } => format_drop(
            line,
            seen,
            channel,
            DroppedPart {
                first,
                place,
                octets,
                reason,
            },
        ),
        Item::Packet { .. } => line.clear(),
        Item::Short { seen, octets } => format_short(line, seen, octets as usize),
    }
}

/// The header of a whole packet.
#[tactic(auto, using(crate::proofs::PacketLemmas::packet_read, crate::proofs::PacketLemmas::packet_not))]
pub fn header_in(octets: &[u8]) -> Header
    requires { IsOnePacket octets.now }
    ensures { result ≡ packet_header_of octets.now }
{
    match read_header(octets) {
        Ok(header) => header,
        Err(_) => unreachable!(),
    }
}

// Takes note of a packet, makes the lines of its notes, and answers whether one of them tells a loss.
#[tactic(auto, using(crate::proofs::PacketLemmas::notes_one), unfolding(crate::specs::Pieces::noted, crate::specs::Pieces::report_of))]
fn note_packet(
    tracker: &mut Tracker,
    lines: &mut Vec<u8>,
    packet: &Packet<'_>,
) -> Result<bool, AllocError>
    requires channel { packet.now.channel < 8 }
    requires header { HasHeader packet.now }
    ensures noted { tracker.new ≡ noted tracker.old (item_with packet.now) }
    ensures lines { OnOk result (lines.new.items ≡ report_of tracker.old (item_with packet.now)) }
    ensures lost { IfOk result (λ lost. lost
        ≡ notes_tell_loss (notes_of tracker.old (sent packet.now.channel packet.now.octets.now))) }
    ensures memory { OnErr result (report_of tracker.old (item_with packet.now) ≢ []) }
{
    lines.clear();
    let notes = tracker.take(packet.channel, packet.header);
    let application = packet.header.application();
    push_notes(lines, packet.seen, packet.channel, application, &notes)
}

// Takes note of a packet if the report says nothing of it, as of most, and answers whether it says nothing.
#[inline(always)]
#[tactic(auto, unfolding(crate::specs::Pieces::noted))]
fn note_if_quiet<O: Outlet>(tracker: &mut Tracker, outlet: &O, packet: &Packet<'_>) -> bool
    requires channel { packet.now.channel < 8 }
    requires header { HasHeader packet.now }
    ensures quiet { result ≡ true → IsQuiet (O.text (O.fixed outlet.now)) tracker.old (item_with packet.now) }
    ensures noted { result ≡ true → tracker.new ≡ noted tracker.old (item_with packet.now) }
    ensures left { result ≡ false → tracker.new ≡ tracker.old }
{
    if !outlet.adds_nothing_to_report(packet) {
        return false;
    }
    tracker.add_without_notes(packet.channel, &packet.header)
}

// Takes note of the first packets of a span that the outlet joins and that add nothing to the report, and counts them. Answers how many
// octets they have, and whether no packet lies whole after them.
#[inline(always)]
fn note_quiet<O: Outlet>(
    tracker: &mut Tracker,
    totals: &mut Totals,
    outlet: &O,
    limit: usize,
    span: Span<'_>,
) -> (usize, bool)
    requires channel { span.channel < 8 }
    requires places { span.place + length span.octets.now < 2 ^ 16 }
    ensures noted { HasNoted (O.text (O.fixed outlet.now)) (O.joins (O.fixed outlet.now)) limit
        tracker.old tracker.new totals.old totals.new span.entry result.0 }
    ensures ended { result.1 ≡ true → front_packets limit (drop result.0 span.entry.octets.now) ≡ [] }
{
    let mut at = 0;
    loop {
        let Some(packet) = first_packet(limit, span_from(span, at)) else {
            return (at, true);
        };
        if !outlet.joins(&packet) {
            return (at, false);
        }
        if !note_if_quiet(tracker, outlet, &packet) {
            return (at, false);
        }
        totals.add_quiet(outlet.gives(&packet));
        at += packet.octets.len();
    }
}

impl<O: Outlet, V: Drain> Output<'_, O, V> {
    // Takes a packet that may add something to the report. It stands apart, since of most packets the report says nothing.
    #[inline(never)]
    fn write_reported(&mut self, packet: &Packet<'_>) -> Result<(), RunFault>
        requires channel { packet.now.channel < 8 }
        requires header { HasHeader packet.now }
        ensures noted { NotesItem O.Outlet V.Drain self.old self.new (item_with packet.now) }
        ensures written { WritesItem O.Outlet V.Drain self.old self.new (item_with packet.now) result }
        ensures counted { OnOk result (CountsItem O.Outlet V.Drain self.old self.new (item_with packet.now)) }
    {
        let Ok(lost) = note_packet(self.tracker, self.notes, packet) else {
            return Err(RunFault::NoMemory);
        };
        let Ok(short) = self.outlet.remark(self.notes, packet) else {
            return Err(RunFault::NoMemory);
        };
        let given = self.outlet.gives(packet);
        if let Err(fault) = self.outlet.write(packet) {
            return Err(fault);
        }
        if let Err(_) = write_all(self.report, self.notes.as_slice()) {
            return Err(RunFault::Report);
        }
        self.totals.add_packet(given, short, lost);
        Ok(())
    }

    // Takes a packet.
    #[inline(always)]
    fn write_packet(&mut self, packet: &Packet<'_>) -> Result<(), RunFault>
        requires channel { packet.now.channel < 8 }
        requires header { HasHeader packet.now }
        ensures noted { NotesItem O.Outlet V.Drain self.old self.new (item_with packet.now) }
        ensures written { WritesItem O.Outlet V.Drain self.old self.new (item_with packet.now) result }
        ensures counted { OnOk result (CountsItem O.Outlet V.Drain self.old self.new (item_with packet.now)) }
    {
        if !note_if_quiet(self.tracker, self.outlet, packet) {
            return self.write_reported(&copy_of(packet));
        }
        let given = self.outlet.gives(packet);
        if let Err(fault) = self.outlet.write(packet) {
            return Err(fault);
        }
        self.totals.add_quiet(given);
        Ok(())
    }

    // Takes the first packets of a span that add nothing to the report, if the outlet can join them. Answers how many octets they have,
    // and whether no packet lies whole after them.
    #[inline(always)]
    fn write_quiet(&mut self, limit: usize, span: Span<'_>) -> Result<(usize, bool), RunFault>
        requires channel { span.channel < 8 }
        requires places { span.place + length span.octets.now < 2 ^ 16 }
        ensures accepted { IfOk result (λ taken. IsAccepted (Takes O.grows O.text O.buffering) limit
            (output_state O.Outlet V.Drain self.old) (output_state O.Outlet V.Drain self.new) span.entry taken.0) }
        ensures ended { IfOk result (λ taken. taken.1 ≡ true → front_packets limit (drop taken.0 span.entry.octets.now) ≡ []) }
        ensures refused { IfErr result (λ fault. RefusesOne (Takes O.grows O.text O.buffering)
            (Refuses O.grows O.text O.buffering) (output_state O.Outlet V.Drain self.old)
            (front_items limit span.entry) fault (output_state O.Outlet V.Drain self.new)) }
    {
        if !self.outlet.can_join() {
            return Ok((0, false));
        }
        let (quiet, ended) = note_quiet(self.tracker, &mut self.totals, self.outlet, limit, span);
        if quiet == 0 {
            return Ok((0, ended));
        }
        let front = Span {
            octets: &span.octets[..quiet],
            ..span
        };
        match self.outlet.write_span(limit, front) {
            Ok(()) => Ok((quiet, ended)),
            Err(_) => Err(RunFault::Write),
        }
    }

    // Takes the packet at the front of a span, if there is one, and answers how many octets it has.
    #[inline(always)]
    fn write_first(&mut self, limit: usize, span: Span<'_>) -> Result<usize, RunFault>
        requires channel { span.channel < 8 }
        requires places { span.place + length span.octets.now < 2 ^ 16 }
        ensures accepted { IfOk result (IsAccepted (Takes O.grows O.text O.buffering) limit
            (output_state O.Outlet V.Drain self.old) (output_state O.Outlet V.Drain self.new) span.entry) }
        ensures ended { IfOk result (λ many. many ≡ 0 → front_packets limit span.entry.octets.now ≡ []) }
        ensures refused { IfErr result (λ fault. RefusesOne (Takes O.grows O.text O.buffering)
            (Refuses O.grows O.text O.buffering) (output_state O.Outlet V.Drain self.old)
            (front_items limit span.entry) fault (output_state O.Outlet V.Drain self.new)) }
    {
        let Some(packet) = first_packet(limit, span) else {
            return Ok(0);
        };
        match self.write_packet(&packet) {
            Ok(()) => Ok(packet.octets.len()),
            Err(fault) => Err(fault),
        }
    }

    // Writes the line of an item that is no packet.
    #[tactic(auto, unfolding(crate::specs::Pieces::report_of, crate::specs::Pieces::noted))]
    fn write_item_line(&mut self, item: Item<'_>) -> Result<(), RunFault>
        requires { HasLine (item_of item) }
        ensures noted { NotesItem O.Outlet V.Drain self.old self.new (item_of item.entry) }
        ensures written { WritesItem O.Outlet V.Drain self.old self.new (item_of item.entry) result }
        ensures counted { OnOk result (CountsItem O.Outlet V.Drain self.old self.new (item_of item.entry)) }
    {
        let mut line = LineBuffer::new();
        make_line(&mut line, item);
        if let Err(_) = write_all(self.report, line.as_slice()) {
            return Err(RunFault::Report);
        }
        self.totals.add_line(item);
        Ok(())
    }

    // Writes the line of a group that is open at a closed end.
    #[tactic(auto, unfolding(crate::specs::Pieces::unclosed_piece))]
    fn write_unclosed(&mut self, seen: u32, unclosed: Unclosed) -> Result<(), RunFault>
        requires { unclosed.key < 16384 }
        ensures same { fixture O.Outlet V.Drain self.new ≡ fixture O.Outlet V.Drain self.old }
        ensures tracker { self.new.tracker.now ≡ self.old.tracker.now }
        ensures written { Written O.grows O.buffering (output_both O.Outlet V.Drain self.old)
            (output_both O.Outlet V.Drain self.new)
            (unclosed_piece seen unclosed ∷ []) result }
        ensures counted { OnOk result (self.new.totals ≡ with_loss self.old.totals) }
    {
        let pair = Pair::of_key(unclosed.key);
        let mut line = LineBuffer::new();
        format_note(
            &mut line,
            seen,
            pair.channel,
            pair.application,
            unclosed.note,
        );
        if let Err(_) = write_all(self.report, line.as_slice()) {
            return Err(RunFault::Report);
        }
        self.totals.add_loss();
        Ok(())
    }

    /// Writes the lines of the groups that are open at a closed end after `seen` records, by rising key.
    pub fn write_all_unclosed(&mut self, seen: u32) -> Result<(), RunFault>
        ensures same { fixture O.Outlet V.Drain self.new ≡ fixture O.Outlet V.Drain self.old }
        ensures written { Written O.grows O.buffering (output_both O.Outlet V.Drain self.old)
            (output_both O.Outlet V.Drain self.new)
            (unclosed_pieces seen (sequence.unclosed 0 self.old.tracker.now)) result }
        ensures counted { OnOk result (self.new.totals
            ≡ with_unclosed self.old.totals (sequence.unclosed 0 self.old.tracker.now)) }
    {
        let mut at = 0;
        while let Some(unclosed) = self.tracker.next_unclosed(at) {
            if let Err(fault) = self.write_unclosed(seen, unclosed) {
                return Err(fault);
            }
            at = unclosed.key + 1;
        }
        Ok(())
    }

    /// Flushes both outputs.
    pub fn flush(&mut self) -> Result<(), RunFault>
        ensures same { fixture O.Outlet V.Drain self.new ≡ fixture O.Outlet V.Drain self.old }
        ensures tracker { self.new.tracker.now ≡ self.old.tracker.now }
        ensures totals { self.new.totals ≡ self.old.totals }
        ensures flushed_out { OnOk result (O.passed self.new.outlet.now) }
        ensures flushed_report { OnOk result (Keeps (V.flushed self.new.report.now) (V.written self.new.report.now)) }
        ensures written { Written O.grows O.buffering (output_both O.Outlet V.Drain self.old)
            (output_both O.Outlet V.Drain self.new)
            [] result }
    {
        if let Err(_) = self.outlet.flush() {
            return Err(RunFault::Write);
        }
        if let Err(_) = self.report.flush() {
            return Err(RunFault::Report);
        }
        Ok(())
    }
}

impl<O: Outlet, V: Drain> Sink for Output<'_, O, V> {
    type Fault = RunFault;

    ghost Known = { OutputState O.Held O.Fixed };

    ghost known = { output_state O.Outlet V.Drain };

    ghost takes = { Takes O.grows O.text O.buffering };

    ghost refuses = { Refuses O.grows O.text O.buffering };

    // At each call the compiler knows what kind of item is given, so it drops the other arms there.
    #[inline(always)]
    fn take(&mut self, item: Item<'_>) -> Result<(), RunFault> {
        match item {
            Item::Packet {
                seen,
                channel,
                first,
                place,
                octets,
            } => {
                let header = header_in(octets);
                let packet = Packet {
                    seen,
                    channel,
                    first,
                    place,
                    header,
                    octets,
                };
                self.write_packet(&packet)
            }
            Item::Bad { .. }
            | Item::MasterGap { .. }
            | Item::Gap { .. }
            | Item::Vca { .. }
            | Item::Dropped { .. }
            | Item::Short { .. } => self.write_item_line(item),
        }
    }

    fn take_front(&mut self, limit: usize, span: Span<'_>) -> Result<usize, RunFault> {
        let mut at = 0;
        loop {
            match self.write_quiet(limit, span_from(span, at)) {
                Ok((many, ended)) => {
                    at += many;
                    if ended {
                        return Ok(at);
                    }
                }
                Err(fault) => return Err(fault),
            }
            match self.write_first(limit, span_from(span, at)) {
                Ok(0) => return Ok(at),
                Ok(many) => at += many,
                Err(fault) => return Err(fault),
            }
        }
    }
}
