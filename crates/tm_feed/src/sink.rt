//! Where events go: a room of events, and a room of the packets' octets.

ghost use Rattle.std.specs.Prelude.{◌≤◌, length};

use crate::choice::{Choice, Made};
use crate::event::{Event, note_event, other_event, packet_event, row_event, short_packet_event};
use tm_fields::Lead;
use tm_items::{Item, Sink};
use tm_lines::Packet;
use tm_output::header_in;
use tm_packet::{Notes, Tracker};

/// A room is too small for what an item gives.
#[derive(Clone, Copy)]
pub(crate) struct RoomFull;

/// Takes items as events.
#[derive(Drop)]
pub(crate) struct EventSink<'a> {
    /// The sequence counts.
    pub tracker: &'a mut Tracker,
    /// Which packets and which rows are given.
    pub choice: &'a mut Choice,
    /// The room of events, and how many stand in it.
    pub events: &'a mut [Event],
    pub filled: usize,
    /// The room of octets, and how many stand in it.
    pub octets: &'a mut [u8],
    pub used: usize,
    ghost events_within: { filled ≤ length events.now },
    ghost octets_within: { used ≤ length octets.now },
}

impl EventSink<'_> {
    ghost use Rattle.std.specs.Prelude.{◌<◌, [], ◌∷◌, OnOk, OnErr, IfErr};
    ghost use Rattle.tm_items.specs.OnePacket.{IsOnePacket};
    ghost use Rattle.tm_items.specs.Sinks.{item_of};
    ghost use Rattle.tm_output.specs.Packets.{HasHeader, item_with};
    ghost use Rattle.tm_output.specs.Pieces.{HasLine, noted};
    ghost use Rattle.tm_feed.specs.Feeding.{noted_events, packet_events, own_octets, row_events, row_given};
    ghost use Rattle.tm_feed.specs.code.Sinking.{Lacks, AddsEvents, RefusesEvents, TakesAsEvents, note_events, sink_state};

    // Puts an event after the others.
    #[inline(always)]
    fn push(&mut self, event: Event) -> Result<(), RoomFull>
        ensures put { OnOk result (AddsEvents (sink_state self.old) (sink_state self.new) self.old.tracker.now
            (event ∷ []) []) }
        ensures full { OnErr result (Lacks (sink_state self.old) (event ∷ []) []) }
    {
        if self.filled == self.events.len() {
            return Err(RoomFull);
        }
        self.events[self.filled] = event;
        self.filled += 1;
        Ok(())
    }

    // Puts the octets of a packet after the others.
    #[inline(always)]
    fn push_octets(&mut self, octets: &[u8]) -> Result<(), RoomFull>
        ensures put { OnOk result (AddsEvents (sink_state self.old) (sink_state self.new) self.old.tracker.now [] octets.now) }
        ensures full { OnErr result (Lacks (sink_state self.old) [] octets.now) }
    {
        if self.octets.len() - self.used < octets.len() {
            return Err(RoomFull);
        }
        self.octets[self.used..self.used + octets.len()].copy_from_slice(octets);
        self.used += octets.len();
        Ok(())
    }

    // Puts the events of notes after the others.
    #[inline(never)]
    fn push_notes(
        &mut self,
        seen: u32,
        channel: u8,
        application: u16,
        notes: &Notes,
    ) -> Result<(), RoomFull>
        ensures put { OnOk result (AddsEvents (sink_state self.old) (sink_state self.new) self.old.tracker.now
            (note_events seen channel application notes.now) []) }
        ensures full { OnErr result (Lacks (sink_state self.old) (note_events seen channel application notes.now) []) }
    {
        for i in 0..notes.len() {
            if let Some(note) = notes.get(i) {
                self.push(note_event(seen, channel, application, note))?;
            }
        }
        Ok(())
    }

    // Puts a packet after the others, if those of its application are given.
    #[inline(always)]
    fn push_packet(&mut self, packet: &Packet<'_>) -> Result<(), RoomFull>
        requires header { HasHeader packet.now }
        requires whole { IsOnePacket packet.now.octets.now }
        ensures put { OnOk result (AddsEvents (sink_state self.old) (sink_state self.new) self.old.tracker.now
            (packet_events self.old.choice.now.chosen (length (sink_state self.old).octets) (item_with packet.now))
            (own_octets self.old.choice.now.chosen (item_with packet.now))) }
        ensures full { OnErr result (Lacks (sink_state self.old)
            (packet_events self.old.choice.now.chosen (length (sink_state self.old).octets) (item_with packet.now))
            (own_octets self.old.choice.now.chosen (item_with packet.now))) }
    {
        if !self.choice.gives(packet.header.application()) {
            return Ok(());
        }
        self.push(packet_event(self.used as u64, packet))?;
        self.push_octets(packet.octets)
    }

    // Takes note of a packet, and puts the events of its notes after the others.
    #[inline(always)]
    #[tactic(auto, using(crate::proofs::SinkLemmas::noted_is, crate::proofs::SinkLemmas::notes_are))]
    fn note_packet(&mut self, packet: &Packet<'_>) -> Result<(), RoomFull>
        requires channel { packet.now.channel < 8 }
        requires header { HasHeader packet.now }
        ensures put { OnOk result (AddsEvents (sink_state self.old) (sink_state self.new)
            (noted self.old.tracker.now (item_with packet.now)) (noted_events self.old.tracker.now (item_with packet.now)) []) }
        ensures full { OnErr result (Lacks (sink_state self.old) (noted_events self.old.tracker.now (item_with packet.now)) []) }
    {
        if self
            .tracker
            .add_without_notes(packet.channel, &packet.header)
        {
            return Ok(());
        }
        let notes = self.tracker.take(packet.channel, packet.header);
        let application = packet.header.application();
        self.push_notes(packet.seen, packet.channel, application, &notes)
    }

    // Puts the octets of the row that was made last after the others.
    fn push_row_octets(&mut self) -> Result<(), RoomFull>
        ensures put { OnOk result (AddsEvents (sink_state self.old) (sink_state self.new) self.old.tracker.now []
            self.old.choice.now.row) }
        ensures full { OnErr result (Lacks (sink_state self.old) [] self.old.choice.now.row) }
    {
        let row = self.choice.row();
        if self.octets.len() - self.used < row.len() {
            return Err(RoomFull);
        }
        self.octets[self.used..self.used + row.len()].copy_from_slice(row);
        self.used += row.len();
        Ok(())
    }

    // Puts the row of a packet after the others, or says that the packet is too short, if its application has a definition. It stands apart,
    // since most packets have no row.
    #[inline(never)]
    fn push_made_row(&mut self, packet: &Packet<'_>) -> Result<(), RoomFull>
        requires header { HasHeader packet.now }
        requires whole { IsOnePacket packet.now.octets.now }
        ensures put { OnOk result (AddsEvents (sink_state self.old) (sink_state self.new) self.old.tracker.now
            (row_events self.old.choice.now.chosen (length (sink_state self.old).octets) (item_with packet.now))
            (row_given self.old.choice.now.chosen (item_with packet.now))) }
        ensures full { OnErr result (Lacks (sink_state self.old)
            (row_events self.old.choice.now.chosen (length (sink_state self.old).octets) (item_with packet.now))
            (row_given self.old.choice.now.chosen (item_with packet.now))) }
    {
        let lead = lead_of(packet);
        match self.choice.make_row(lead, packet.octets) {
            Made::Nothing => Ok(()),
            Made::Row(octets) => {
                let at = self.used as u64;
                self.push_row_octets()?;
                self.push(row_event(at, lead, octets))
            }
            Made::Short(needed) => self.push(short_packet_event(packet, needed)),
        }
    }

    // Does so, if there may be a definition. The copy is made field by field, so without one the compiler needn't put it together.
    #[inline(always)]
    fn push_row(&mut self, packet: &Packet<'_>) -> Result<(), RoomFull>
        requires header { HasHeader packet.now }
        requires whole { IsOnePacket packet.now.octets.now }
        ensures put { OnOk result (AddsEvents (sink_state self.old) (sink_state self.new) self.old.tracker.now
            (row_events self.old.choice.now.chosen (length (sink_state self.old).octets) (item_with packet.now))
            (row_given self.old.choice.now.chosen (item_with packet.now))) }
        ensures full { OnErr result (Lacks (sink_state self.old)
            (row_events self.old.choice.now.chosen (length (sink_state self.old).octets) (item_with packet.now))
            (row_given self.old.choice.now.chosen (item_with packet.now))) }
    {
        if !self.choice.has_place(packet.header.application()) {
            return Ok(());
        }
        self.push_made_row(&Packet {
            seen: packet.seen,
            channel: packet.channel,
            first: packet.first,
            place: packet.place,
            header: packet.header,
            octets: packet.octets,
        })
    }

    // Takes a packet.
    #[inline(always)]
    #[tactic(auto, using(crate::proofs::SinkLemmas::one_packet))]
    fn add_packet(&mut self, packet: &Packet<'_>) -> Result<(), RoomFull>
        requires channel { packet.now.channel < 8 }
        requires header { HasHeader packet.now }
        requires whole { IsOnePacket packet.now.octets.now }
        ensures taken { OnOk result (TakesAsEvents (sink_state self.old) (item_with packet.now) (sink_state self.new)) }
        ensures refused { IfErr result (λ fault.
            RefusesEvents (sink_state self.old) (item_with packet.now) fault (sink_state self.new)) }
    {
        if let Err(full) = self.push_packet(packet) {
            return Err(full);
        }
        if let Err(full) = self.note_packet(packet) {
            return Err(full);
        }
        self.push_row(packet)
    }

    // Takes an item that is no packet.
    #[tactic(auto, using(crate::proofs::SinkLemmas::other_taken, crate::proofs::SinkLemmas::other_refused))]
    fn add_other(&mut self, item: Item<'_>) -> Result<(), RoomFull>
        requires { HasLine (item_of item) }
        ensures taken { OnOk result (TakesAsEvents (sink_state self.old) (item_of item.entry) (sink_state self.new)) }
        ensures refused { IfErr result (λ fault.
            RefusesEvents (sink_state self.old) (item_of item.entry) fault (sink_state self.new)) }
    {
        match self.push(other_event(item)) {
            Ok(()) => Ok(()),
            Err(full) => Err(full),
        }
    }
}

ghost use Rattle.std.specs.Prelude.{◌≡◌};
ghost use Rattle.tm_output.specs.FieldRows.{lead_of};
ghost use Rattle.tm_output.specs.Packets.{HasHeader};

// What the row of a packet begins with.
fn lead_of(packet: &Packet<'_>) -> Lead
    requires { HasHeader packet.now }
    ensures { result ≡ lead_of packet.now.seen packet.now.channel packet.now.octets.now }
{
    Lead {
        seen: packet.seen,
        channel: packet.channel,
        application: packet.header.application(),
        count: packet.header.count(),
    }
}

impl Sink for EventSink<'_> {
    type Fault = RoomFull;

    ghost use Rattle.tm_feed.specs.code.Sinking.{RefusesEvents, SinkState, TakesAsEvents, sink_state};

    ghost Known = { SinkState };

    ghost known = { sink_state };

    ghost takes = { TakesAsEvents };

    ghost refuses = { RefusesEvents };

    // At each call the compiler knows what kind of item is given, so it drops the other arms there.
    #[inline(always)]
    fn take(&mut self, item: Item<'_>) -> Result<(), RoomFull> {
        match item {
            Item::Packet {
                seen,
                channel,
                first,
                place,
                octets,
            } => self.add_packet(&Packet {
                seen,
                channel,
                first,
                place,
                header: header_in(octets),
                octets,
            }),
            Item::Bad { .. }
            | Item::MasterGap { .. }
            | Item::Gap { .. }
            | Item::Vca { .. }
            | Item::Dropped { .. }
            | Item::Short { .. } => self.add_other(item),
        }
    }
}
