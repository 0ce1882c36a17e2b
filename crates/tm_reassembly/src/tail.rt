//! The tail of a channel: the octets so far of a packet that isn't whole.

ghost use Rattle.std.specs.Prelude.{◌≡◌, ◌+◌, ◌<◌, ◌≤◌, ◌++◌, length, take, IfOk, IfErr, OnOk, Option, None, Some, is_some, true, vec_len, vec_capacity};
ghost use Rattle.tm_reassembly.specs.code.Blocks.{Appends, spelled_tail};
ghost use Rattle.tm_items.specs.declared.items.Reason.TheVariants as why;
ghost use Rattle.tm_reassembly.specs.code.DataFields.{IsDataField, IsFieldOf, member_with};
ghost use Rattle.tm_reassembly.specs.code.Field.{broken_off_parts, step_parts, step_tail, ended_parts, frame_parts, frame_tail, part_items, GivesParts};
ghost use Rattle.tm_items.specs.Item as value;
ghost use Rattle.tm_reassembly.specs.code.Slots.{Buffer, HoldsTail, LeavesTail, MayComplete, MayGrow, tail_of_octets, grown, completed, completed_parts, member_at};
ghost use Rattle.tm_reassembly.specs.State.{octets_in};
ghost use Rattle.tm_reassembly.specs.Parts as model;
ghost use Rattle.tm_frame.specs.Rules.{IsLimit};
ghost use Rattle.tm_items.specs.OnePacket.{IsOnePacket};
ghost use Rattle.tm_items.specs.Giving.{Gives};
ghost use Rattle.tm_reassembly.specs.State as state;
ghost use Rattle.tm_reassembly.specs.code.Fits.{IsOpenTail};

use crate::checkpoint::push_four;
use crate::packets::{
    DataField, Site, agrees_at, give_field, is_long, packet_length_over, read_field,
};
use std::alloc::{AllocError, Global};
use std::marker::Model;
use tm_bits::{push, push_two};
use tm_items::{Item, Reason, Sink};

/// The tail that is held, if its octets are not empty, and the record and place where it begins. A packet has at most `limit` octets, for
/// which there is room.
#[derive(Drop)]
pub struct Tail {
    limit: usize,
    first: u32,
    place: u16,
    octets: Vec<u8>,
}

impl Model for Tail {
    ghost Value = { Buffer };

    ghost view = { λ t. record {
      limit = t.limit;
      capacity = vec_capacity t.octets;
      tail = tail_of_octets t.first t.place t.octets.items;
    } };

    ghost invariant = { λ t. IsLimit t.limit × (t.limit ≤ vec_capacity t.octets) × (length t.octets.items ≤ t.limit) };
}

impl Tail {
    /// No tail, with its room.
    pub fn new(alloc: Global, limit: usize) -> Result<Tail, AllocError>
        requires { IsLimit limit }
        ensures { IfOk result (λ tail. tail ≡ record { limit = limit; capacity = limit; tail = None }) }
    {
        Ok(Tail {
            limit,
            first: 0,
            place: 0,
            octets: Vec::with_capacity(alloc, limit)?,
        })
    }

    /// The octets that are held.
    pub fn octets(&self) -> &[u8]
        ensures { result.now ≡ octets_in self.now.tail }
    {
        self.octets.as_slice()
    }

    /// Whether a tail is held.
    pub fn is_held(&self) -> bool
        ensures { result ≡ is_some self.now.tail }
    {
        !self.octets.is_empty()
    }

    /// Holds these octets in place of what was held.
    pub fn hold(&mut self, first: u32, place: u16, octets: &[u8])
        requires { length octets.now ≤ self.old.limit }
        ensures { HoldsTail self.old self.new (tail_of_octets first place octets.now) }
    {
        self.octets.clear();
        match self.octets.extend_from_slice(octets) {
            Ok(()) => {}
            Err(_) => unreachable!(),
        }
        self.first = first;
        self.place = place;
    }

    /// Gives the tail, if one is held, as lost for this reason.
    pub fn give_lost<S: Sink>(
        &self,
        site: Site,
        reason: Reason,
        sink: &mut S,
    ) -> Result<(), S::Fault>
        requires { site.channel < 8 }
        ensures given { GivesParts S.Sink sink.old sink.new site.channel (ended_parts self.now.tail reason site.seen) result }
    {
        if self.octets.is_empty() {
            return Ok(());
        }
        let lost = Item::Dropped {
            seen: site.seen,
            channel: site.channel,
            first: self.first,
            place: self.place,
            octets: self.octets.len() as u32,
            reason,
        };
        match sink.take(lost) {
            Ok(()) => Ok(()),
            Err(fault) => Err(fault),
        }
    }

    /// Loses the tail, if one is held, for this reason.
    pub fn end<S: Sink>(&mut self, site: Site, reason: Reason, sink: &mut S) -> Result<(), S::Fault>
        requires { site.channel < 8 }
        ensures given { GivesParts S.Sink sink.old sink.new site.channel (ended_parts self.old.tail reason site.seen) result }
        ensures left { LeavesTail self.old self.new None result }
    {
        match self.give_lost(site, reason, sink) {
            Ok(()) => {
                self.octets.clear();
                Ok(())
            }
            Err(fault) => Err(fault),
        }
    }

    /// Takes a frame that doesn't go on with a tail. The tail, if one is held, is lost for this reason, and so is what stands before
    /// the frame's place. Its packets are given, and its unfinished packet is held.
    pub fn begin<S: Sink>(
        &mut self,
        site: Site,
        reason: Reason,
        field: DataField<'_>,
        sink: &mut S,
    ) -> Result<(), S::Fault>
        requires field { IsDataField site.channel field }
        ensures given { GivesParts S.Sink sink.old sink.new site.channel
            (broken_off_parts self.old.limit self.old.tail reason (member_with site.seen field.entry)) result }
        ensures left { LeavesTail self.old self.new (frame_tail self.old.limit (member_with site.seen field.entry)) result }
    {
        if let Err(fault) = self.end(site, reason, sink) {
            return Err(fault);
        }
        match give_field(self.limit, site, reason, field, sink) {
            Ok(at) => {
                self.hold(site.seen, at as u16, &field.octets[at..]);
                Ok(())
            }
            Err(fault) => Err(fault),
        }
    }

    /// Takes a frame's field, by what is held and by the place of the first packet that starts in it.
    pub fn add_field<S: Sink>(
        &mut self,
        site: Site,
        field: DataField<'_>,
        sink: &mut S,
    ) -> Result<(), S::Fault>
        requires field { IsDataField site.channel field }
        requires open { IsOpenTail self.old.limit self.old.tail }
        ensures given { GivesParts S.Sink sink.old sink.new site.channel
            (step_parts self.old.limit self.old.tail (member_with site.seen field.entry)) result }
        ensures left { LeavesTail self.old self.new
            (step_tail self.old.limit self.old.tail (member_with site.seen field.entry)) result }
    {
        if self.octets.is_empty() {
            return self.begin(site, Reason::NoStart, field, sink);
        }
        let held = self.octets.len();
        let end = held + field.octets.len();
        let length = packet_length_over(self.octets.as_slice(), field.octets);
        if !agrees_at(length, held, field.octets.len(), field.place) {
            return self.begin(site, Reason::Pointer, field, sink);
        }
        if is_long(self.limit, length, end) {
            return self.begin(site, Reason::Length, field, sink);
        }
        match field.place {
            None if end < length => {
                self.grow(field.octets);
                Ok(())
            }
            None => self.complete(site, field.octets, sink),
            Some(start) => self.complete_in(site, start, field.octets, sink),
        }
    }

    // Holds more octets of the packet.
    #[tactic(auto, using(crate::proofs::Tails::grown_octets, crate::proofs::Tails::octets_again))]
    fn grow(&mut self, more: &[u8])
        requires { MayGrow self.old more.now }
        ensures { HoldsTail self.old self.new (grown self.old.tail more.now) }
    {
        match self.octets.extend_from_slice(more) {
            Ok(()) => {}
            Err(_) => unreachable!(),
        }
    }

    // Gives the packet, which is whole with these octets.
    #[inline(always)]
    fn complete<S: Sink>(&mut self, site: Site, last: &[u8], sink: &mut S) -> Result<(), S::Fault>
        requires channel { site.channel < 8 }
        requires whole { MayComplete self.old last.now }
        ensures given { GivesParts S.Sink sink.old sink.new site.channel (completed self.old.tail last.now site.seen) result }
        ensures left { LeavesTail self.old self.new None result }
    {
        self.grow(last);
        let packet = Item::Packet {
            seen: site.seen,
            channel: site.channel,
            first: self.first,
            place: self.place,
            octets: self.octets.as_slice(),
        };
        if let Err(fault) = sink.take(packet) {
            return Err(fault);
        }
        self.octets.clear();
        Ok(())
    }

    // Gives the packet, which ends where the next one starts in the field, and reads on from there.
    fn complete_in<S: Sink>(
        &mut self,
        site: Site,
        start: u16,
        field: &[u8],
        sink: &mut S,
    ) -> Result<(), S::Fault>
        requires field { IsFieldOf site.channel (Some start) field.now }
        requires whole { MayComplete self.old (take start field.now) }
        ensures given { GivesParts S.Sink sink.old sink.new site.channel
            (completed_parts self.old.limit self.old.tail site.seen start field.now) result }
        ensures left { LeavesTail self.old self.new
            (frame_tail self.old.limit (member_at site.seen (Some start) field.now)) result }
    {
        let start = start as usize;
        if let Err(fault) = self.complete(site, &field[..start], sink) {
            return Err(fault);
        }
        match read_field(self.limit, site, field, start, sink) {
            Ok(at) => {
                self.hold(site.seen, at as u16, &field[at..]);
                Ok(())
            }
            Err(fault) => Err(fault),
        }
    }

    /// How many octets spell the tail in a checkpoint, where one is held.
    pub fn spelled_length(&self) -> usize
        ensures value { result ≡ 10 + length (octets_in self.now.tail) }
        ensures most { result ≤ 65552 }
    {
        10 + self.octets.len()
    }

    /// Appends the spelling of the tail that is held, for which there is room.
    pub fn push(&self, out: &mut Vec<u8>)
        requires held { is_some self.now.tail ≡ true }
        requires room { vec_len out.old + (10 + length (octets_in self.now.tail)) ≤ vec_capacity out.old }
        ensures { Appends out.old out.new (spelled_tail self.now.tail) (10 + length (octets_in self.now.tail)) }
    {
        push_four(out, self.first);
        push_two(out, self.place);
        push_four(out, self.octets.len() as u32);
        push(out, self.octets.as_slice());
    }
}
