//! Where packets go: their octets into a drain or a shelf, or a line or a row for each into a drain.

ghost use Rattle.std.specs.Prelude.{◌≡◌, ◌≢◌, ◌+◌, ◌^◌, ◌<◌, ◌≤◌, ◌++◌, ◌==◌, [], ℕ, Bool, true, false, List, Option, OnOk, OnErr, IfErr, IfOk, length, take, refl};
ghost use Rattle.std.specs.List.{flat_map};
ghost use Rattle.std.specs.Io.KnownBytes.{Appends, Keeps};
ghost use Rattle.std.proofs.KnownBytes.{Appends-nil, Appends-trans};
ghost use Rattle.tm_items.specs.Item.{Item};
ghost use Rattle.tm_items.specs.Fronts.{front_items, front_packets, octets_of};
ghost use Rattle.tm_devices.specs.Devices.{AppendsPrefix, CountsFailures};
ghost use Rattle.tm_output.specs.FieldRows.{is_of_other, tabled};
ghost use Rattle.tm_output.specs.Packets.{HasHeader, item_with};
ghost use Rattle.tm_output.specs.code.Outlets.{GivesNone, PutStopped, appends_split, binary_none, listed_none, octets_none, packet_none};
ghost use Rattle.tm_output.specs.code.Quiet.{AreJoined, outs_of};
ghost use Rattle.tm_output.specs.Outputs.{FixedDrain, PutsPart, Buffering, lines_buffering, octets_buffering};
ghost use Rattle.tm_output.specs.Pieces.{HasLine, Texts, binary_packet, listed, packet_lead, packet_octets, packet_texts};
ghost use Rattle.tm_output.specs.Totals.{is_some_text};
ghost use Rattle.tm_output.specs.code.ShelfLaws.{no_shelf, shelves_nil, shelves_split, shelves_trans};
ghost use Rattle.tm_output.specs.Shelves.{Shelved, Shelves, shelf_text, shelf_buffering};

use crate::Packet;
use crate::front::{first_packet, span_from};
use std::alloc::AllocError;
use tm_devices::{DeviceFailed, Drain, Shelf, write_all};
use tm_faults::RunFault;
use tm_fields::{Lead, RowFault, RowWriter};
use tm_items::Span;
use tm_lines::{LineBuffer, format_packet, format_short_packet};
use tm_packet::Header;

/// Where packets go.
pub trait Outlet {
    /// What belongs here is a list of these.
    ghost Part: { Type 0 };

    /// What is known of what is held here.
    ghost Held: { Type 0 };

    /// What stays the same: the name of the reference to the device, the number of a drain, and what the texts are made by.
    ghost Fixed: { Type 0 };

    ghost fixed: { Self → Self.Fixed };

    /// How many calls of the device have failed.
    ghost failures: { Self → ℕ };

    ghost held: { Self → Self.Held };

    /// What is held has grown by these.
    ghost grows: { Self.Held → Self.Held → List Self.Part → Type 0 };

    /// What is given of an item: here, and to the report.
    ghost text: { Self.Fixed → Texts Self.Part };

    /// Whether memory is taken for what belongs here, and whether that may wait for a flush.
    ghost buffering: { Buffering };

    /// All that is held was passed on.
    ghost passed: { Self → Type 0 };

    /// The report says nothing of a packet after the lines of its notes. Where it may, this is false.
    fn adds_nothing_to_report(&self, packet: &Packet<'_>) -> bool
        requires { HasHeader packet.now }
        ensures { result ≡ true → (Self.text (Self.fixed self.now)).remark (item_with packet.now) ≡ [] };

    /// Whether a packet counts as one that is given here.
    fn gives(&self, packet: &Packet<'_>) -> bool
        requires { HasHeader packet.now }
        ensures { result ≡ (Self.text (Self.fixed self.now)).given (item_with packet.now) };

    /// Writes what the report says of a packet, after the lines of its notes, and answers whether it says something.
    fn remark(&self, lines: &mut Vec<u8>, packet: &Packet<'_>) -> Result<bool, AllocError>
        requires { HasHeader packet.now }
        ensures line { OnOk result (lines.new.items
            ≡ lines.old.items ++ (Self.text (Self.fixed self.now)).remark (item_with packet.now)) }
        ensures said { IfOk result (λ said. said
            ≡ is_some_text ((Self.text (Self.fixed self.now)).remark (item_with packet.now))) }
        ensures memory { OnErr result ((Self.text (Self.fixed self.now)).remark (item_with packet.now) ≢ []) };

    /// Writes what belongs here for a packet.
    fn write(&mut self, packet: &Packet<'_>) -> Result<(), RunFault>
        requires { HasHeader packet.now }
        ensures same { Self.fixed self.new ≡ Self.fixed self.old }
        ensures whole { OnOk result (Self.grows (Self.held self.old) (Self.held self.new)
            ((Self.text (Self.fixed self.old)).out (item_with packet.now))
            × (Self.failures self.new ≡ Self.failures self.old)) }
        ensures stopped { IfErr result (PutStopped Self.grows Self.buffering (Self.held self.old) (Self.held self.new)
            (Self.failures self.old) (Self.failures self.new)
            ((Self.text (Self.fixed self.old)).out (item_with packet.now))) };

    /// Passes on all that was written.
    fn flush(&mut self) -> Result<(), DeviceFailed>
        ensures same { Self.fixed self.new ≡ Self.fixed self.old }
        ensures kept { Self.grows (Self.held self.old) (Self.held self.new) [] }
        ensures passed { OnOk result (Self.passed self.new) }
        ensures failed { OnErr result (Self.buffering.flush ≡ true) }
        ensures counts { CountsFailures (Self.failures self.old) (Self.failures self.new) result };

    /// A packet may be put at once with those beside it.
    ghost joins: { Fixed → Item → Bool };

    fn joins(&self, packet: &Packet<'_>) -> bool
        requires { HasHeader packet.now }
        ensures { result ≡ Self.joins (Self.fixed self.now) (item_with packet.now) };

    /// Whether a packet may be put at once with others. Where this is false, none may.
    fn can_join(&self) -> bool
        ensures { result ≡ false → (x : Item) → Self.joins (Self.fixed self.now) x ≡ false };

    /// Writes at once what belongs here for the packets of a span, which lie there end to end.
    fn write_span(&mut self, limit: usize, span: Span<'_>) -> Result<(), DeviceFailed>
        requires places { span.place + length span.octets.now < 2 ^ 16 }
        requires packets { octets_of (front_packets limit span.octets.now) ≡ span.octets.now }
        requires joined { AreJoined (Self.joins (Self.fixed self.old)) (front_items limit span) }
        ensures same { Self.fixed self.new ≡ Self.fixed self.old }
        ensures whole { OnOk result (Self.grows (Self.held self.old) (Self.held self.new)
            (outs_of (Self.text (Self.fixed self.old)) (front_items limit span.entry))) }
        ensures part { OnErr result (PutsPart Self.grows (Self.held self.old) (Self.held self.new)
            (outs_of (Self.text (Self.fixed self.old)) (front_items limit span.entry))) }
        ensures counts { CountsFailures (Self.failures self.old) (Self.failures self.new) result };

    /// An item that has a line gives nothing to the outlet, and nothing more to the report.
    ghost text_none: { (f : Fixed) (x : Item) → HasLine x → GivesNone (text f) x };

    /// Nothing is added by nothing.
    ghost grows_nil: { (k : Held) → grows k k [] };

    /// What is added after other parts is added to them.
    ghost grows_trans: { (j k l : Held) (xs ys : List Part) → grows j k xs → grows k l ys → grows j l (xs ++ ys) };

    /// What is added at once may be added in two steps.
    ghost grows_split: { (j l : Held) (xs ys : List Part) → grows j l (xs ++ ys) → (k : Held) × grows j k xs × grows k l ys };
}

/// What is written of a packet into a drain. The report says nothing more of it.
pub trait PacketText {
    /// The text of an item.
    ghost text: { Item → List ℕ };

    /// Packets may be put at once with those beside them.
    ghost can_join: { Bool };

    fn can_join(&self) -> bool
        ensures { result ≡ can_join };

    /// Writes the text of a packet, whole or a part of it.
    fn write<W: Drain>(&mut self, out: &mut W, packet: &Packet<'_>) -> Result<(), DeviceFailed>
        requires { HasHeader packet.now }
        ensures same { W.fixed out.new ≡ W.fixed out.old }
        ensures whole { OnOk result (Appends (W.written out.old) (W.written out.new) (text (item_with packet.now))) }
        ensures prefix { OnErr result (AppendsPrefix (W.written out.old) (W.written out.new)
            (text (item_with packet.now))) }
        ensures counts { CountsFailures (W.failures out.old) (W.failures out.new) result };

    /// Writes the texts of the packets of a span, which lie there end to end, whole or a part of them.
    fn write_span<W: Drain>(
        &mut self,
        out: &mut W,
        limit: usize,
        span: Span<'_>,
    ) -> Result<(), DeviceFailed>
        requires places { span.place + length span.octets.now < 2 ^ 16 }
        requires packets { octets_of (front_packets limit span.octets.now) ≡ span.octets.now }
        requires joined { AreJoined (λ _. can_join) (front_items limit span) }
        ensures same { W.fixed out.new ≡ W.fixed out.old }
        ensures whole { OnOk result (Appends (W.written out.old) (W.written out.new)
            (flat_map text (front_items limit span.entry))) }
        ensures prefix { OnErr result (AppendsPrefix (W.written out.old) (W.written out.new)
            (flat_map text (front_items limit span.entry))) }
        ensures counts { CountsFailures (W.failures out.old) (W.failures out.new) result };

    /// An item that has a line has no text here.
    ghost text_none: { (x : Item) → HasLine x → text x ≡ [] };
}

/// A packet's own octets.
#[derive(Drop)]
pub struct PacketOctets;

impl PacketText for PacketOctets {
    ghost text = { packet_octets };

    ghost can_join = { true };

    ghost text_none = { octets_none };

    fn can_join(&self) -> bool {
        true
    }

    #[inline(always)]
    #[tactic(auto, unfolding(crate::specs::Pieces::packet_octets))]
    fn write<W: Drain>(&mut self, out: &mut W, packet: &Packet<'_>) -> Result<(), DeviceFailed> {
        write_all(out, packet.octets)
    }

    #[inline(always)]
    fn write_span<W: Drain>(
        &mut self,
        out: &mut W,
        _limit: usize,
        span: Span<'_>,
    ) -> Result<(), DeviceFailed> {
        write_all(out, span.octets)
    }
}

/// A packet's line.
#[derive(Drop)]
pub struct PacketLines {
    /// The memory in which each is made.
    pub line: LineBuffer,
}

impl PacketText for PacketLines {
    ghost text = { listed };

    ghost can_join = { false };

    ghost text_none = { listed_none };

    fn can_join(&self) -> bool {
        false
    }

    #[inline(always)]
    #[tactic(auto, unfolding(crate::specs::Pieces::listed))]
    fn write<W: Drain>(&mut self, out: &mut W, packet: &Packet<'_>) -> Result<(), DeviceFailed> {
        format_packet(&mut self.line, packet);
        write_all(out, self.line.as_slice())
    }

    fn write_span<W: Drain>(
        &mut self,
        _out: &mut W,
        _limit: usize,
        _span: Span<'_>,
    ) -> Result<(), DeviceFailed> {
        Ok(())
    }
}

// The octets before a packet in the binary form.
#[inline(always)]
fn packet_lead(packet: &Packet<'_>) -> [u8; 16]
    ensures { result ≡ packet_lead packet.now.seen packet.now.channel packet.now.first packet.now.place
        (length packet.now.octets.now) }
{
    let [r0, r1, r2, r3] = packet.seen.to_le_bytes();
    let [f0, f1, f2, f3] = packet.first.to_le_bytes();
    let [p0, p1] = packet.place.to_le_bytes();
    let [n0, n1, n2, n3, ..] = (packet.octets.len() as u64).to_le_bytes();
    let channel = packet.channel;
    [
        r0, r1, r2, r3, f0, f1, f2, f3, p0, p1, channel, 0, n0, n1, n2, n3,
    ]
}

// How many octets are put together before they are written: as many as the packets of most data fields have with their leads.
const ROOM: usize = 2048;

// How many octets are copied of a packet that is short, whatever it has: a number that is known is copied without a call.
const SHORT: usize = 64;

// Copies the first octets of others to a place of a room. What the room has after them is not kept.
#[inline(always)]
fn copy_first(room: &mut [u8], at: usize, octets: &[u8], many: usize)
    requires inside { many ≤ length octets.now }
    requires room { at + many ≤ length room.old }
    ensures put { take (at + many) room.new ≡ take at room.old ++ take many octets.now }
{
    if many <= SHORT && SHORT <= octets.len() && SHORT <= room.len() - at {
        room[at..at + SHORT].copy_from_slice(&octets[..SHORT]);
    } else {
        room[at..at + many].copy_from_slice(&octets[..many]);
    }
}

// Appends a packet with its lead to the octets that a room has, and answers how many they are then. The packet stands first in the rest of
// its span.
#[inline(always)]
fn append_packet(room: &mut [u8], filled: usize, packet: &Packet<'_>, rest: &[u8]) -> usize
    requires room { filled + (16 + length packet.now.octets.now) ≤ length room.old }
    requires inside { length packet.now.octets.now ≤ length rest.now }
    requires first { packet.now.octets.now ≡ take (length packet.now.octets.now) rest.now }
    ensures filled { result ≡ filled + (16 + length packet.now.octets.now) }
    ensures put { take result room.new ≡ take filled room.old ++ binary_packet (item_with packet.now) }
{
    let begin = filled + 16;
    let many = packet.octets.len();
    room[filled..begin].copy_from_slice(&packet_lead(packet));
    copy_first(room, begin, rest, many);
    begin + many
}

// Writes a packet's lead, and then its octets.
#[inline(always)]
#[tactic(auto, unfolding(crate::specs::Pieces::binary_packet))]
fn write_with_lead<W: Drain>(out: &mut W, packet: &Packet<'_>) -> Result<(), DeviceFailed>
    ensures same { W.fixed out.new ≡ W.fixed out.old }
    ensures whole { OnOk result (Appends (W.written out.old) (W.written out.new)
        (binary_packet (item_with packet.now))) }
    ensures prefix { OnErr result (AppendsPrefix (W.written out.old) (W.written out.new)
        (binary_packet (item_with packet.now))) }
    ensures counts { CountsFailures (W.failures out.old) (W.failures out.new) result }
{
    if let Err(fault) = write_all(out, &packet_lead(packet)) {
        return Err(fault);
    }
    match write_all(out, packet.octets) {
        Ok(()) => Ok(()),
        Err(fault) => Err(fault),
    }
}

/// A packet's octets in the binary form, after those that tell where it was found.
#[derive(Drop)]
pub struct BinaryPackets {
    // Packets are put together here before they are written.
    room: [u8; ROOM],
}

impl BinaryPackets {
    /// Nothing is put together yet.
    pub fn new() -> BinaryPackets {
        BinaryPackets { room: [0; ROOM] }
    }
}

impl PacketText for BinaryPackets {
    ghost text = { binary_packet };

    ghost can_join = { true };

    ghost text_none = { binary_none };

    fn can_join(&self) -> bool {
        true
    }

    #[inline(always)]
    fn write<W: Drain>(&mut self, out: &mut W, packet: &Packet<'_>) -> Result<(), DeviceFailed> {
        write_with_lead(out, packet)
    }

    // It puts packets into the room. Where the next doesn't fit, it writes the room, and then that packet by itself.
    fn write_span<W: Drain>(
        &mut self,
        out: &mut W,
        limit: usize,
        span: Span<'_>,
    ) -> Result<(), DeviceFailed> {
        let room = &mut self.room;
        let mut filled = 0;
        let mut at = 0;
        while let Some(packet) = first_packet(limit, span_from(span, at)) {
            if ROOM - filled < 16 + packet.octets.len() {
                if let Err(fault) = write_all(out, &room[..filled]) {
                    return Err(fault);
                }
                filled = 0;
                if let Err(fault) = write_with_lead(out, &packet) {
                    return Err(fault);
                }
            } else {
                filled = append_packet(room, filled, &packet, &span.octets[at..]);
            }
            at += packet.octets.len();
        }
        match write_all(out, &room[..filled]) {
            Ok(()) => Ok(()),
            Err(fault) => Err(fault),
        }
    }
}

/// The text of each packet into a drain.
#[derive(Drop)]
pub struct PacketTexts<'a, W, T> {
    /// Where the texts go.
    pub out: &'a mut W,
    /// What makes them.
    pub text: T,
}

impl<W: Drain, T: PacketText> Outlet for PacketTexts<'_, W, T> {
    ghost Part = { ℕ };

    ghost Held = { Option (List ℕ) };

    ghost Fixed = { FixedDrain };

    ghost fixed = { λ o. record { name = o.out.ghost_name; number = W.fixed o.out.now } };

    ghost failures = { λ o. W.failures o.out.now };

    ghost held = { λ o. W.written o.out.now };

    ghost grows = { Appends };

    ghost text = { λ _. packet_texts T.text };

    ghost buffering = { octets_buffering };

    ghost passed = { λ o. Keeps (W.flushed o.out.now) (W.written o.out.now) };

    ghost joins = { λ _ _. T.can_join };

    ghost text_none = { λ _ x has. (T.text_none x has, refl, packet_none x has) };

    ghost grows_nil = { Appends-nil };

    ghost grows_trans = { Appends-trans };

    ghost grows_split = { appends_split };

    fn adds_nothing_to_report(&self, _packet: &Packet<'_>) -> bool {
        true
    }

    fn gives(&self, _packet: &Packet<'_>) -> bool {
        true
    }

    fn remark(&self, _lines: &mut Vec<u8>, _packet: &Packet<'_>) -> Result<bool, AllocError> {
        Ok(false)
    }

    #[inline(always)]
    fn write(&mut self, packet: &Packet<'_>) -> Result<(), RunFault> {
        match self.text.write(self.out, packet) {
            Ok(()) => Ok(()),
            Err(_) => Err(RunFault::Write),
        }
    }

    fn flush(&mut self) -> Result<(), DeviceFailed> {
        self.out.flush()
    }

    fn can_join(&self) -> bool {
        self.text.can_join()
    }

    fn joins(&self, _packet: &Packet<'_>) -> bool {
        self.text.can_join()
    }

    #[inline(always)]
    fn write_span(&mut self, limit: usize, span: Span<'_>) -> Result<(), DeviceFailed> {
        self.text.write_span(self.out, limit, span)
    }
}

/// Packets' octets into a shelf.
#[derive(Drop)]
pub struct PacketShelf<'a, H> {
    pub shelf: &'a mut H,
}

impl<H: Shelf> Outlet for PacketShelf<'_, H> {
    ghost use Rattle.std.specs.Prelude.{⊤};

    ghost Part = { Shelved };

    ghost Held = { Option (ℕ → List ℕ) };

    ghost Fixed = { ℕ };

    ghost fixed = { λ o. o.shelf.ghost_name };

    ghost failures = { λ o. H.refusals o.shelf.now };

    ghost held = { λ o. H.kept o.shelf.now };

    ghost grows = { Shelves };

    ghost text = { λ _. shelf_text };

    ghost buffering = { shelf_buffering };

    ghost passed = { λ _. ⊤ };

    ghost text_none = { λ _. no_shelf };

    ghost grows_nil = { shelves_nil };

    ghost grows_trans = { shelves_trans };

    ghost grows_split = { shelves_split };

    fn adds_nothing_to_report(&self, _packet: &Packet<'_>) -> bool {
        true
    }

    fn gives(&self, _packet: &Packet<'_>) -> bool {
        true
    }

    fn remark(&self, _lines: &mut Vec<u8>, _packet: &Packet<'_>) -> Result<bool, AllocError> {
        Ok(false)
    }

    #[inline(always)]
    #[tactic(auto, using(crate::proofs::ShelfLemmas::shelf_stopped, crate::specs::code::ShelfLaws::shelves_put), unfolding(crate::specs::Shelves::shelved_of))]
    fn write(&mut self, packet: &Packet<'_>) -> Result<(), RunFault> {
        if let Err(_) = self.shelf.put(packet.header.application(), packet.octets) {
            return Err(RunFault::Write);
        }
        Ok(())
    }

    fn flush(&mut self) -> Result<(), DeviceFailed> {
        self.shelf.write_out();
        Ok(())
    }

    ghost joins = { λ _ _. false };

    fn can_join(&self) -> bool {
        false
    }

    fn joins(&self, _packet: &Packet<'_>) -> bool {
        false
    }

    fn write_span(&mut self, _limit: usize, _span: Span<'_>) -> Result<(), DeviceFailed> {
        Ok(())
    }
}

/// A row for each packet of an application into a drain.
#[derive(Drop)]
pub struct PacketRows<'r, 'o, R, W> {
    pub rows: &'r mut R,
    pub application: u16,
    pub out: &'o mut W,
}

/// A copy of a packet, made field by field. So the compiler needn't put the packet together in memory, as it would for a reference to it.
#[inline(always)]
pub(crate) fn copy_of<'p>(packet: &Packet<'p>) -> Packet<'p>
    ensures { result ≡ packet.now }
{
    Packet {
        seen: packet.seen,
        channel: packet.channel,
        first: packet.first,
        place: packet.place,
        header: packet.header,
        octets: packet.octets,
    }
}

// Writes the row of a packet of the application. It stands apart, since most packets are of others.
#[inline(never)]
#[tactic(auto, unfolding(crate::specs::FieldRows::tabled))]
fn write_row<R: RowWriter, W: Drain>(
    rows: &mut R,
    application: u16,
    out: &mut W,
    packet: &Packet<'_>,
) -> Result<(), RunFault>
    requires header { HasHeader packet.now }
    requires application { packet.now.header.application ≡ application }
    ensures same { W.fixed out.new ≡ W.fixed out.old }
    ensures fields { R.fields rows.new ≡ R.fields rows.old }
    ensures whole { OnOk result (Appends (W.written out.old) (W.written out.new)
        (tabled R.form (R.fields rows.old) application (item_with packet.now))
        × (W.failures out.new ≡ W.failures out.old)) }
    ensures stopped { IfErr result (PutStopped Appends lines_buffering (W.written out.old) (W.written out.new)
        (W.failures out.old) (W.failures out.new)
        (tabled R.form (R.fields rows.old) application (item_with packet.now))) }
{
    let lead = Lead {
        seen: packet.seen,
        channel: packet.channel,
        application: packet.header.application(),
        count: packet.header.count(),
    };
    match rows.write(lead, packet.octets) {
        Ok(()) => match write_all(out, rows.row()) {
            Ok(()) => Ok(()),
            Err(_) => Err(RunFault::Write),
        },
        Err(RowFault::ShortPacket { .. }) => Ok(()),
        Err(RowFault::NoMemory) => Err(RunFault::NoMemory),
    }
}

impl<R, W> PacketRows<'_, '_, R, W> {
    // The packet of this header is of the application.
    fn is_of_application(&self, header: &Header) -> bool
        ensures { result ≡ (header.now.application == self.now.application) }
    {
        header.application() == self.application
    }
}

impl<R: RowWriter, W: Drain> Outlet for PacketRows<'_, '_, R, W> {
    ghost use Rattle.tm_output.specs.FieldRows.{RowsBy};
    ghost use Rattle.tm_output.specs.code.Outlets.{no_row};
    ghost use Rattle.tm_output.specs.Pieces.{rows_text};

    ghost Part = { ℕ };

    ghost Held = { Option (List ℕ) };

    ghost Fixed = { RowsBy };

    ghost fixed = { λ o. record {
      out = record { name = o.out.ghost_name; number = W.fixed o.out.now };
      fields = R.fields o.rows.now;
      application = o.application;
    } };

    ghost failures = { λ o. W.failures o.out.now };

    ghost held = { λ o. W.written o.out.now };

    ghost grows = { Appends };

    ghost text = { λ f. rows_text R.form f.fields f.application };

    ghost buffering = { lines_buffering };

    ghost passed = { λ o. Keeps (W.flushed o.out.now) (W.written o.out.now) };

    ghost text_none = { λ f. no_row R.form f.fields f.application };

    ghost grows_nil = { Appends-nil };

    ghost grows_trans = { Appends-trans };

    ghost grows_split = { appends_split };

    #[tactic(auto, unfolding(crate::specs::FieldRows::too_short))]
    fn adds_nothing_to_report(&self, packet: &Packet<'_>) -> bool {
        !self.is_of_application(&packet.header)
            || packet.octets.len() >= self.rows.bits_needed().div_ceil(8) as usize
    }

    #[tactic(auto, unfolding(crate::specs::FieldRows::has_row))]
    fn gives(&self, packet: &Packet<'_>) -> bool {
        self.is_of_application(&packet.header)
            && packet.octets.len() >= self.rows.bits_needed().div_ceil(8) as usize
    }

    #[tactic(auto, using(crate::proofs::RowLemmas::some_short_packet), unfolding(crate::specs::FieldRows::too_short))]
    fn remark(&self, lines: &mut Vec<u8>, packet: &Packet<'_>) -> Result<bool, AllocError> {
        let needed = self.rows.bits_needed();
        let octets = packet.octets.len();
        if !self.is_of_application(&packet.header) || octets >= needed.div_ceil(8) as usize {
            return Ok(false);
        }
        let found = 8 * octets as u64;
        let mut line = LineBuffer::new();
        format_short_packet(&mut line, packet, u64::from(needed), found);
        match lines.extend_from_slice(line.as_slice()) {
            Ok(()) => Ok(true),
            Err(error) => Err(error),
        }
    }

    #[inline(always)]
    #[tactic(auto, unfolding(crate::specs::FieldRows::tabled))]
    fn write(&mut self, packet: &Packet<'_>) -> Result<(), RunFault> {
        if !self.is_of_application(&packet.header) {
            return Ok(());
        }
        write_row(self.rows, self.application, self.out, &copy_of(packet))
    }

    fn flush(&mut self) -> Result<(), DeviceFailed> {
        self.out.flush()
    }

    // Packets of other applications have no row, so they are put by writing nothing.
    ghost joins = { λ f. is_of_other f.application };

    fn can_join(&self) -> bool {
        true
    }

    #[tactic(auto, unfolding(crate::specs::FieldRows::is_of_other))]
    fn joins(&self, packet: &Packet<'_>) -> bool {
        packet.header.application() != self.application
    }

    fn write_span(&mut self, _limit: usize, _span: Span<'_>) -> Result<(), DeviceFailed> {
        Ok(())
    }
}
