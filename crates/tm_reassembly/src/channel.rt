//! What is kept of a channel from frame to frame.

ghost use Rattle.std.specs.Prelude.{◌≡◌, ◌+◌, ◌<◌, ◌≤◌, vec_len, vec_capacity, ◌∷◌, ◌++◌, length, IfOk, IfErr, OnOk, Option, None, Some, IsSome, true, false};
ghost use Rattle.tm_reassembly.specs.code.Blocks.{Appends, block_last};
ghost use Rattle.tm_reassembly.specs.Checkpoint.{block};
ghost use Rattle.tm_reassembly.specs.Chain.{member, has_frame_gap};
ghost use Rattle.tm_frame.specs.Frame.{is_vca_kind};
ghost use Rattle.tm_reassembly.specs.code.DataFields.{IsDataField, member_with};
ghost use Rattle.tm_reassembly.specs.code.Field.{chain_parts_at, chain_tail_at, ended_parts, step_parts, step_tail, part_items, GivesParts};
ghost use Rattle.tm_reassembly.specs.Items.{gap_item, master_gap_item, gap_at, vca_at, close_last, last_with};
ghost use Rattle.tm_items.specs.Item as value;
ghost use Rattle.tm_reassembly.specs.code.Slots.{HoldsLast, LeavesLast, Slot, frame_count_in, tail_in, frame_items, last_after, data_items, last_with_data, slot_parts, slot_after, vca_items, counted, missed_count};
ghost use Rattle.tm_reassembly.specs.State.{octets_in, Last};
ghost use Rattle.tm_frame.specs.Rules.{IsLimit};
ghost use Rattle.tm_items.specs.Giving.{Gives};
ghost use Rattle.tm_reassembly.specs.code.Fits.{IsOpenTail};

use crate::checkpoint::Block;
use crate::packets::{DataField, Site};
use crate::tail::Tail;
use std::alloc::{AllocError, Global};
use std::marker::Model;
use tm_bits::push;
use tm_frame::{Frame, Kind};
use tm_items::{Item, Reason, Sink};

/// The virtual channel frame count of the last good frame, if there was one, and the tail.
#[derive(Drop)]
pub struct ChannelState {
    count: Option<u8>,
    tail: Tail,
}

impl Model for ChannelState {
    ghost Value = { Slot };

    ghost view = { λ k. record { limit = k.tail.limit; capacity = k.tail.capacity; last = last_with k.tail.tail k.count } };

    ghost invariant = { λ k. k.count ≡ None → k.tail.tail ≡ None };
}

impl ChannelState {
    /// The state of a channel that had no frame, with capacity for a tail.
    pub fn new(alloc: Global, limit: usize) -> Result<ChannelState, AllocError>
        requires { IsLimit limit }
        ensures { IfOk result (λ state. state ≡ record { limit = limit; capacity = limit; last = None }) }
    {
        Ok(ChannelState {
            count: None,
            tail: Tail::new(alloc, limit)?,
        })
    }

    /// The last count.
    pub fn count(&self) -> Option<u8>
        ensures { result ≡ frame_count_in self.now.last }
    {
        self.count
    }

    /// The octets of the tail.
    pub fn octets(&self) -> &[u8]
        ensures { result.now ≡ octets_in (tail_in self.now.last) }
    {
        self.tail.octets()
    }

    /// Takes a good frame of the channel.
    pub fn add_frame<S: Sink>(
        &mut self,
        seen: u32,
        channel: u8,
        frame: &Frame<'_>,
        sink: &mut S,
    ) -> Result<(), S::Fault>
        requires channel { channel < 8 }
        requires open { IsOpenTail self.old.limit (tail_in self.old.last) }
        ensures given { Gives S.Sink sink.old sink.new
            (frame_items self.old.limit channel self.old.last (member seen frame.now)) result }
        ensures left { LeavesLast self.old self.new (last_after self.old.limit self.old.last (member seen frame.now)) result }
    {
        let count = frame.count();
        match give_gap(seen, channel, self.count, count, sink) {
            Ok(gap) => {
                self.count = Some(count);
                self.add_data(Site { seen, channel }, gap, frame, sink)
            }
            Err(fault) => Err(fault),
        }
    }

    // Takes what the frame holds, after a gap or none.
    fn add_data<S: Sink>(
        &mut self,
        site: Site,
        gap: bool,
        frame: &Frame<'_>,
        sink: &mut S,
    ) -> Result<(), S::Fault>
        requires channel { site.channel < 8 }
        requires open { IsOpenTail self.old.limit (tail_in self.old.last) }
        requires counted { frame_count_in self.old.last ≡ Some frame.now.count }
        ensures given { Gives S.Sink sink.old sink.new
            (data_items self.old.limit site.channel self.old.last gap (member site.seen frame.now)) result }
        ensures left { LeavesLast self.old self.new
            (last_with_data self.old.limit self.old.last gap (member site.seen frame.now)) result }
    {
        let (place, octets): (Option<u16>, &[u8]) = match frame.kind() {
            Kind::Vca => return self.add_vca(site, gap, sink),
            Kind::Idle => (None, &[]),
            Kind::NoStart => (None, frame.field()),
            Kind::Packets(place) => (Some(place), frame.field()),
        };
        self.add_field(site, gap, DataField { place, octets }, sink)
    }

    // Takes a VCA frame: the tail is lost.
    fn add_vca<S: Sink>(&mut self, site: Site, gap: bool, sink: &mut S) -> Result<(), S::Fault>
        requires { site.channel < 8 }
        ensures given { Gives S.Sink sink.old sink.new (vca_items self.old site.seen site.channel gap) result }
        ensures left { LeavesLast self.old self.new (last_with None (frame_count_in self.old.last)) result }
    {
        let reason = if gap { Reason::Gap } else { Reason::Vca };
        let vca = Item::Vca {
            seen: site.seen,
            channel: site.channel,
        };
        match sink.take(vca) {
            Ok(()) => self.tail.end(site, reason, sink),
            Err(fault) => Err(fault),
        }
    }

    // Takes a field of packets, after a gap or none.
    fn add_field<S: Sink>(
        &mut self,
        site: Site,
        gap: bool,
        field: DataField<'_>,
        sink: &mut S,
    ) -> Result<(), S::Fault>
        requires field { IsDataField site.channel field }
        requires open { IsOpenTail self.old.limit (tail_in self.old.last) }
        requires counted { IsSome (frame_count_in self.old.last) }
        ensures given { GivesParts S.Sink sink.old sink.new site.channel
            (slot_parts self.old gap (member_with site.seen field.entry)) result }
        ensures left { LeavesLast self.old self.new (slot_after self.old gap (member_with site.seen field.entry)) result }
    {
        if !gap {
            return self.tail.add_field(site, field, sink);
        }
        match self.tail.end(site, Reason::Gap, sink) {
            Ok(()) => self.tail.begin(site, Reason::NoStart, field, sink),
            Err(fault) => Err(fault),
        }
    }

    /// Gives the tail that is held, as lost by the closed end.
    pub fn close<S: Sink>(&self, seen: u32, channel: u8, sink: &mut S) -> Result<(), S::Fault>
        requires { channel < 8 }
        ensures given { Gives S.Sink sink.old sink.new (close_last seen channel self.now.last) result }
    {
        match self
            .tail
            .give_lost(Site { seen, channel }, Reason::Close, sink)
        {
            Ok(()) => Ok(()),
            Err(fault) => Err(fault),
        }
    }

    /// How many octets spell the channel in a checkpoint.
    pub fn spelled_length(&self) -> usize
        ensures value { result ≡ length (block self.now.last) }
        ensures most { result ≤ 65554 }
    {
        if self.count.is_none() {
            1
        } else if self.tail.is_held() {
            2 + self.tail.spelled_length()
        } else {
            2
        }
    }

    /// Appends the spelling of the channel, for which there is room.
    pub fn push(&self, out: &mut Vec<u8>)
        requires { vec_len out.old + length (block self.now.last) ≤ vec_capacity out.old }
        ensures { Appends out.old out.new (block self.now.last) (length (block self.now.last)) }
    {
        let Some(count) = self.count else {
            push(out, &[0]);
            return;
        };
        if self.tail.is_held() {
            push(out, &[2, count]);
            self.tail.push(out);
        } else {
            push(out, &[1, count]);
        }
    }

    /// Keeps what a checkpoint says of the channel.
    pub fn restore(&mut self, read: &Block<'_>)
        requires { length read.now.tail.now ≤ self.old.limit }
        ensures { HoldsLast self.old self.new (block_last read.now) }
    {
        let tail = if read.count.is_some() { read.tail } else { &[] };
        self.count = read.count;
        self.tail.hold(read.first, read.place, tail);
    }
}

// The count that should have been found, where it isn't the one that was.
fn missed_count(before: Option<u8>, found: u8) -> Option<u8>
    ensures { result ≡ missed_count before found }
{
    let Some(before) = before else {
        return None;
    };
    let expected = before.wrapping_add(1);
    if found == expected {
        None
    } else {
        Some(expected)
    }
}

// Gives the gap between a count and the one before it, if there is one; answers whether there is.
#[tactic(auto, using(crate::proofs::Gaps::none_missed, crate::proofs::Gaps::one_missed, crate::proofs::Gaps::no_gap, crate::proofs::Gaps::the_gap))]
fn give_gap<S: Sink>(
    seen: u32,
    channel: u8,
    before: Option<u8>,
    found: u8,
    sink: &mut S,
) -> Result<bool, S::Fault>
    requires { channel < 8 }
    ensures given { Gives S.Sink sink.old sink.new (gap_at (gap_item channel) before (counted seen found)) result }
    ensures answer { IfOk result (λ gap. gap ≡ has_frame_gap before (counted seen found)) }
{
    let Some(expected) = missed_count(before, found) else {
        return Ok(false);
    };
    let gap = Item::Gap {
        seen,
        channel,
        expected,
        found,
        missing: found.wrapping_sub(expected),
    };
    match sink.take(gap) {
        Ok(()) => Ok(true),
        Err(fault) => Err(fault),
    }
}

/// Gives the gap of the master channel between a count and the one before it, if there is one.
#[tactic(auto, using(crate::proofs::Gaps::no_gap, crate::proofs::Gaps::the_gap))]
pub fn give_master_gap<S: Sink>(
    seen: u32,
    before: Option<u8>,
    found: u8,
    sink: &mut S,
) -> Result<(), S::Fault>
    ensures given { Gives S.Sink sink.old sink.new (gap_at master_gap_item before (counted seen found)) result }
{
    let Some(expected) = missed_count(before, found) else {
        return Ok(());
    };
    let gap = Item::MasterGap {
        seen,
        expected,
        found,
        missing: found.wrapping_sub(expected),
    };
    match sink.take(gap) {
        Ok(()) => Ok(()),
        Err(fault) => Err(fault),
    }
}
