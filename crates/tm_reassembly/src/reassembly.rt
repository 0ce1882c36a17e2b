//! The reassembly of packets, record by record.

ghost use Rattle.std.specs.Prelude.{◌≡◌, ◌⊎◌, ◌+◌, if◌then◌else◌, ◌*◌, ◌<◌, ◌≤◌, ◌++◌, IfOk, IfErr, OnOk, OnErr, Ok, Err, vec_len, vec_capacity, replicate, ℕ, List, Option, None, Some, true, false, [], ◌∷◌, length};
ghost use Rattle.std.specs.List.{flat_map};
ghost use Rattle.tm_frame.specs.Fault.{frame_reading_of};
ghost use Rattle.tm_frame.specs.Layout.{record_length_of};
ghost use Rattle.tm_reassembly.specs.Checkpoint.{block, state_spelling, blocks_read, state_decoding_of, old_decoding_of, spelled_octets};
ghost use Rattle.tm_reassembly.specs.code.Blocks.{HaveBlocks, IsFront, KeepBlocks, channels_decoding, decoding_in};
ghost use Rattle.tm_reassembly.specs.Items.{closing, close_channels};
ghost use Rattle.tm_reassembly.specs.code.Slots.{HaveLimit, lasts, capacities, state_in_slots, unused};
ghost use Rattle.tm_reassembly.specs.State.{octets_in, State, Last};
ghost use Rattle.tm_reassembly.specs.Recording.{items, after, is_chosen_frame, is_chosen_reading};
ghost use Rattle.tm_frame.specs.Rules.{IsLimit, Rules, chooses};
ghost use Rattle.tm_items.specs.Giving.{Gives};
ghost use Rattle.tm_items.specs.Sinks.{TakesAll};
ghost use Rattle.tm_reassembly.specs.Steps.{Progress, new_progress, most_records, progress_in, step_items, stepped, StepRefused, CloseRefused, last_count_of, rules_of, IsRestored, IsRefusal};
ghost use Rattle.tm_reassembly.specs.Tiles.{held_tail};
ghost use Rattle.tm_reassembly.specs.Valid.{IsCount, IsValidState};

use crate::channel::{ChannelState, give_master_gap};
use crate::checkpoint::{
    Form, four_at, master_length, push_four, push_master, read_block, read_master,
};
use crate::fault::{NoMemory, StateFault, StepFault};
use std::alloc::{AllocError, Global};
use std::marker::Model;
use tm_frame::{Channels, Frame, FrameFault, Layout, Rules, read};
use tm_items::{Item, Sink};

/// Takes the records of a recording one by one, and gives the packets of the chosen channels and what was lost.
#[derive(Drop)]
pub struct Reassembly {
    rules: Rules,
    records: u32,
    master: Option<u8>,
    failed: bool,
    states: [ChannelState; 8],
}

impl Model for Reassembly {
    ghost Value = { Progress };

    ghost view = { λ r. record {
      rules = r.rules;
      state = state_in_slots r.records r.master r.states;
      failed = r.failed;
      capacity = capacities r.states;
    } };

    ghost invariant = { λ r. r.failed ≡ false → IsValidState r.rules (state_in_slots r.records r.master r.states)
        × HaveLimit r.rules.max_packet r.states };
}

impl Reassembly {
    /// Before any record. No packet has more than `max_packet` octets, 7 to 65,542. Room for as many is reserved for each of the eight channels;
    /// no later call takes memory.
    ///
    /// # Errors
    ///
    /// `NoMemory` where that room can't be had.
    pub fn new(
        alloc: Global,
        layout: Layout,
        channels: Channels,
        max_packet: u32,
    ) -> Result<Reassembly, NoMemory>
        requires { IsLimit max_packet }
        ensures { IfOk result (λ reassembly. reassembly ≡ new_progress (rules_of layout channels max_packet)) }
    {
        match eight_states(alloc, max_packet as usize) {
            Ok(states) => Ok(Reassembly {
                rules: Rules {
                    layout,
                    channels,
                    max_packet,
                },
                records: 0,
                master: None,
                failed: false,
                states,
            }),
            Err(_) => Err(NoMemory),
        }
    }

    /// Takes the octets of the next record, and gives its items in order.
    ///
    /// # Errors
    ///
    /// As `step_record`.
    pub fn step<S: Sink>(&mut self, octets: &[u8], sink: &mut S) -> Result<(), StepFault<S::Fault>>
        requires { length octets.now ≡ record_length_of self.old.rules.layout }
        ensures accepted { OnOk result (TakesAll S.takes (S.known sink.old) (step_items self.old octets.now) (S.known sink.new)) }
        ensures left { OnOk result (self.new ≡ stepped self.old octets.now) }
        ensures asked { OnOk result ((self.old.failed ≡ false) × (self.old.state.records < most_records)) }
        ensures refused { IfErr result (StepRefused S.known S.takes S.refuses self.old self.new sink.old sink.new
            (step_items self.old octets.now)) }
    {
        match self.step_record(octets, sink) {
            Ok(_) => Ok(()),
            Err(fault) => Err(fault),
        }
    }

    /// Takes the octets of the next record, and gives its items in order. Answers whether the record is a good frame of a chosen channel.
    ///
    /// # Errors
    ///
    /// `Failed` where an earlier step was refused by its sink; else `TooMany` where 2^32 - 1 records are done; both change nothing. Else
    /// `Sink` where the sink refused an item: it then has taken the items before that one, each later step is `Failed`, and the number of
    /// records stays.
    #[inline(always)]
    pub fn step_record<S: Sink>(
        &mut self,
        octets: &[u8],
        sink: &mut S,
    ) -> Result<bool, StepFault<S::Fault>>
        requires { length octets.now ≡ record_length_of self.old.rules.layout }
        ensures accepted { OnOk result (TakesAll S.takes (S.known sink.old) (step_items self.old octets.now) (S.known sink.new)) }
        ensures chosen { IfOk result (λ chosen. chosen ≡ is_chosen_frame self.old.rules octets.now) }
        ensures left { OnOk result (self.new ≡ stepped self.old octets.now) }
        ensures asked { OnOk result ((self.old.failed ≡ false) × (self.old.state.records < most_records)) }
        ensures refused { IfErr result (StepRefused S.known S.takes S.refuses self.old self.new sink.old sink.new
            (step_items self.old octets.now)) }
    {
        let reading = self.read(octets);
        self.step_reading(reading, octets, sink)
    }

    /// Reads the octets of a record: the good frame, or the first fault that applies.
    #[inline(always)]
    pub fn read<'r>(&self, octets: &'r [u8]) -> Result<Frame<'r>, FrameFault>
        requires { length octets.now ≡ record_length_of self.now.rules.layout }
        ensures { result ≡ frame_reading_of self.now.rules.layout octets.now }
    {
        read(&self.rules.layout, octets)
    }

    /// Takes the next record as `step_record` does, where `read` has read its octets already.
    ///
    /// # Errors
    ///
    /// As `step_record`.
    #[inline(always)]
    pub fn step_reading<S: Sink>(
        &mut self,
        reading: Result<Frame<'_>, FrameFault>,
        octets: &[u8],
        sink: &mut S,
    ) -> Result<bool, StepFault<S::Fault>>
        requires { reading ≡ frame_reading_of self.old.rules.layout octets.now }
        ensures accepted { OnOk result (TakesAll S.takes (S.known sink.old) (step_items self.old octets.now) (S.known sink.new)) }
        ensures chosen { IfOk result (λ chosen. chosen ≡ is_chosen_frame self.old.rules octets.now) }
        ensures left { OnOk result (self.new ≡ stepped self.old octets.now) }
        ensures asked { OnOk result ((self.old.failed ≡ false) × (self.old.state.records < most_records)) }
        ensures refused { IfErr result (StepRefused S.known S.takes S.refuses self.old self.new sink.old sink.new
            (step_items self.old octets.now)) }
    {
        if self.failed() {
            return Err(StepFault::Failed);
        }
        if self.records == u32::MAX {
            return Err(StepFault::TooMany);
        }
        match add_record(
            &self.rules,
            self.records,
            &mut self.master,
            &mut self.states,
            reading,
            sink,
        ) {
            Ok(chosen) => {
                self.records += 1;
                Ok(chosen)
            }
            Err(fault) => {
                self.failed = true;
                Err(StepFault::Sink(fault))
            }
        }
    }

    /// Closes the recording, with `rest` octets left, fewer than a record. It gives the short record, if octets are left, and the
    /// tails that are held, by rising channel.
    ///
    /// # Errors
    ///
    /// `Failed` where a step was refused by its sink; else `Sink` where the sink refused an item, having taken those before it.
    pub fn finish<S: Sink>(self, rest: usize, sink: &mut S) -> Result<(), StepFault<S::Fault>>
        requires { rest < record_length_of self.rules.layout }
        ensures accepted { OnOk result (TakesAll S.takes (S.known sink.old) (closing self.state rest) (S.known sink.new)) }
        ensures asked { OnOk result (self.failed ≡ false) }
        ensures refused { IfErr result (CloseRefused S.known S.takes S.refuses self sink.old sink.new (closing self.state rest)) }
    {
        match self.close(rest, sink) {
            Ok(()) => Ok(()),
            Err(fault) => Err(fault),
        }
    }

    /// The same for an object that is kept: it stays as it is, and may take further records.
    ///
    /// # Errors
    ///
    /// As `finish`.
    pub fn close<S: Sink>(&self, rest: usize, sink: &mut S) -> Result<(), StepFault<S::Fault>>
        requires { rest < record_length_of self.now.rules.layout }
        ensures accepted { OnOk result (TakesAll S.takes (S.known sink.old) (closing self.now.state rest) (S.known sink.new)) }
        ensures asked { OnOk result (self.now.failed ≡ false) }
        ensures refused { IfErr result (CloseRefused S.known S.takes S.refuses self.now sink.old sink.new
            (closing self.now.state rest)) }
    {
        prove!(rest < self.rules.layout.record_length());
        if self.failed {
            return Err(StepFault::Failed);
        }
        match close_recording(self.records, rest as u32, &self.states, sink) {
            Ok(()) => Ok(()),
            Err(fault) => Err(StepFault::Sink(fault)),
        }
    }

    /// Whether a step was refused by its sink. As long as none was, the state is a valid one.
    pub fn failed(&self) -> bool
        ensures value { result ≡ self.now.failed }
        ensures valid { self.now.failed ≡ false → IsValidState self.now.rules self.now.state }
    {
        self.failed
    }

    /// How a record is laid out.
    pub fn layout(&self) -> Layout
        ensures { result ≡ self.now.rules.layout }
    {
        self.rules.layout
    }

    /// The chosen channels.
    pub fn channels(&self) -> Channels
        ensures { result ≡ self.now.rules.channels }
    {
        self.rules.channels
    }

    /// How many octets a packet may have at most.
    pub fn max_packet(&self) -> u32
        ensures { result ≡ self.now.rules.max_packet }
    {
        self.rules.max_packet
    }

    /// The number of records that are done: of steps that were not refused, those before a checkpoint included.
    pub fn records(&self) -> u32
        ensures { result ≡ self.now.state.records }
    {
        self.records
    }

    /// The octets so far of a channel's unfinished packet, fewer than a packet may have. There are none where nothing is held, as
    /// for a channel that isn't chosen. No step was refused.
    pub fn held(&self, channel: u8) -> &[u8]
        requires channel { channel < 8 }
        requires done { self.now.failed ≡ false }
        ensures value { result.now ≡ octets_in (held_tail self.now.state channel) }
        ensures short { length result.now < self.now.rules.max_packet }
        ensures other { chooses self.now.rules channel ≡ false → result.now ≡ [] }
    {
        self.states[channel as usize].octets()
    }

    /// The virtual channel frame count of the last good frame of a channel, if there was one and the channel is chosen. No step was refused.
    pub fn last_count(&self, channel: u8) -> Option<u8>
        requires channel { channel < 8 }
        requires done { self.now.failed ≡ false }
        ensures value { result ≡ last_count_of self.now.state channel }
        ensures other { chooses self.now.rules channel ≡ false → result ≡ None }
    {
        self.states[channel as usize].count()
    }

    /// The master channel frame count of the last good frame, of whatever channel, if there was one and it is known. It isn't known where the state
    /// was read by `decode_old` and no good frame came since. No step was refused.
    pub fn last_master(&self) -> Option<u8>
        requires { self.now.failed ≡ false }
        ensures { result ≡ self.now.state.master }
    {
        self.master
    }

    /// Appends the spelling of the state. First come the number of records in four octets, the most significant first, and the
    /// last master channel frame count: 0 where there is none, else 1 and the count. Then comes the block of each of the eight
    /// channels. The block is 0 where nothing is kept; 1 and the last count where no tail is held; else 2, the last count, and
    /// the tail. A tail is the record in which it begins in four octets, its place there in two, the number of its octets in
    /// four, and these. No step was refused.
    ///
    /// # Errors
    ///
    /// `NoMemory` where the vector's capacity is too small for it and can't be made larger; the octets are then as they
    /// were.
    pub fn encode(&self, out: &mut Vec<u8>) -> Result<(), NoMemory>
        requires { self.now.failed ≡ false }
        ensures appended { OnOk result (out.new.items ≡ out.old.items ++ state_spelling self.now.state) }
        ensures full { OnErr result (vec_capacity out.old < vec_len out.old + length (state_spelling self.now.state)) }
        ensures unchanged { OnErr result (out.new.items ≡ out.old.items) }
    {
        match out.try_reserve(4 + master_length(self.master) + spelled_length(&self.states)) {
            Ok(()) => {}
            Err(_) => return Err(NoMemory),
        }
        push_four(out, self.records);
        push_master(out, self.master);
        push_channels(out, &self.states);
        Ok(())
    }

    /// Reads the spelling at the beginning of these octets: the reassembly in that state, and the number of octets that were read. Room is
    /// reserved as `new` does.
    ///
    /// # Errors
    ///
    /// What is wrong first, in the order of the octets. `Short` where octets are missing. `Flag` where the flag of the master
    /// channel's count is over 1, or a channel's flag is over 2, or not 0 for a channel that isn't chosen. `Place` where a tail
    /// begins in a record that isn't done, or at a place over the frame length less 7. `Tail` where its length is 0 or not less
    /// than `max_packet`, or its version is not 0. `Tail` also where it holds the whole packet, or its header gives a packet that
    /// is longer than `max_packet`. `NoMemory` only after all of these.
    pub fn decode(
        alloc: Global,
        layout: Layout,
        channels: Channels,
        max_packet: u32,
        octets: &[u8],
    ) -> Result<(Reassembly, usize), StateFault>
        requires { IsLimit max_packet }
        ensures ok { IfOk result (λ read. IsRestored state_decoding_of (rules_of layout channels max_packet) octets.now read) }
        ensures refused { IfErr result (IsRefusal (state_decoding_of (rules_of layout channels max_packet) octets.now)) }
    {
        let rules = Rules {
            layout,
            channels,
            max_packet,
        };
        decode_form(alloc, rules, Form::WithMaster, octets)
    }

    /// Reads the older form of the spelling, which has no last master channel count: the state that is read has none. All else is as
    /// `decode` says.
    ///
    /// # Errors
    ///
    /// As `decode`.
    pub fn decode_old(
        alloc: Global,
        layout: Layout,
        channels: Channels,
        max_packet: u32,
        older: &[u8],
    ) -> Result<(Reassembly, usize), StateFault>
        requires { IsLimit max_packet }
        ensures ok { IfOk result (λ read. IsRestored old_decoding_of (rules_of layout channels max_packet) older.now read) }
        ensures refused { IfErr result (IsRefusal (old_decoding_of (rules_of layout channels max_packet) older.now)) }
    {
        let rules = Rules {
            layout,
            channels,
            max_packet,
        };
        decode_form(alloc, rules, Form::WithoutMaster, older)
    }

    /// Checks the spelling at the beginning of these octets as `decode` does, or `decode_old` where `with_master` is false. It takes no
    /// memory. Answers the number of octets that this decoder reads.
    ///
    /// # Errors
    ///
    /// As `decode`, and never `NoMemory`.
    pub fn check(
        layout: Layout,
        channels: Channels,
        max_packet: u32,
        with_master: bool,
        octets: &[u8],
    ) -> Result<usize, StateFault>
        ensures { let rules = rules_of layout channels max_packet in result ≡ spelled_octets
            (if with_master then state_decoding_of rules octets.now else old_decoding_of rules octets.now) }
    {
        let rules = Rules {
            layout,
            channels,
            max_packet,
        };
        if with_master {
            check_form(&rules, Form::WithMaster, octets)
        } else {
            check_form(&rules, Form::WithoutMaster, octets)
        }
    }
}

// Reads what a spelling has before the channels: the number of records, the last master channel count, and how many octets these are.
#[tactic(auto, using(crate::proofs::Decoding::decoding_short))]
fn read_front(form: Form, octets: &[u8]) -> Result<(u32, Option<u8>, usize), StateFault>
    ensures ok { IfOk result (IsFront form octets.now) }
    ensures refused { IfErr result (λ fault. (rules : Rules) → decoding_in form rules octets.now ≡ Err fault) }
{
    if octets.len() < 4 {
        return Err(StateFault::Short);
    }
    match read_master(form, &octets[4..]) {
        Ok((master, used)) => Ok((four_at(octets, 0), master, 4 + used)),
        Err(fault) => Err(fault),
    }
}

// Checks a spelling of this form. Answers how many octets it has.
fn check_form(rules: &Rules, form: Form, octets: &[u8]) -> Result<usize, StateFault>
    ensures { result ≡ spelled_octets (decoding_in form rules.now octets.now) }
{
    let (records, _, start) = match read_front(form, octets) {
        Ok(front) => front,
        Err(fault) => return Err(fault),
    };
    match check_channels(rules, records, &octets[start..]) {
        Ok(read) => Ok(start + read),
        Err(fault) => Err(fault),
    }
}

// Reads a spelling of this form.
fn decode_form(
    alloc: Global,
    rules: Rules,
    form: Form,
    octets: &[u8],
) -> Result<(Reassembly, usize), StateFault>
    requires { IsLimit rules.max_packet }
    ensures ok { IfOk result (λ read. IsRestored (decoding_in form) rules octets.now read) }
    ensures refused { IfErr result (IsRefusal (decoding_in form rules octets.now)) }
{
    match read_front(form, octets) {
        Ok((records, master, start)) => {
            decode_channels(alloc, rules, records, master, start, &octets[start..])
        }
        Err(fault) => Err(fault),
    }
}

// Reads the channels, whose spelling begins at `start`, where the numbers before them are read.
fn decode_channels(
    alloc: Global,
    rules: Rules,
    records: u32,
    master: Option<u8>,
    start: usize,
    octets: &[u8],
) -> Result<(Reassembly, usize), StateFault>
    requires limit { IsLimit rules.max_packet }
    requires count { IsCount master }
    requires start { start ≤ 6 }
    ensures ok { IfOk result (λ read. IsRestored (channels_decoding records master start) rules octets.now read) }
    ensures refused { IfErr result (IsRefusal (channels_decoding records master start rules octets.now)) }
{
    if let Err(fault) = check_channels(&rules, records, octets) {
        return Err(fault);
    }
    let Ok(mut states) = eight_states(alloc, rules.max_packet as usize) else {
        return Err(StateFault::NoMemory);
    };
    match restore(&rules, records, octets, &mut states) {
        Ok(used) => {
            let reassembly = Reassembly {
                rules,
                records,
                master,
                failed: false,
                states,
            };
            Ok((reassembly, start + used))
        }
        Err(fault) => Err(fault),
    }
}

// Two channels without anything kept, with capacity for a packet of this length each.
fn two_states(alloc: Global, limit: usize) -> Result<(ChannelState, ChannelState), AllocError>
    requires { IsLimit limit }
    ensures { IfOk result (λ two_states. (two_states.0 ≡ unused limit) × (two_states.1 ≡ unused limit)) }
{
    Ok((
        ChannelState::new(alloc, limit)?,
        ChannelState::new(alloc, limit)?,
    ))
}

// Four channels without anything kept.
fn four_states(
    alloc: Global,
    limit: usize,
) -> Result<((ChannelState, ChannelState), (ChannelState, ChannelState)), AllocError>
    requires { IsLimit limit }
    ensures { IfOk result (λ four_states. (four_states.0.0 ≡ unused limit) × (four_states.0.1 ≡ unused limit)
        × (four_states.1.0 ≡ unused limit) × (four_states.1.1 ≡ unused limit)) }
{
    Ok((two_states(alloc, limit)?, two_states(alloc, limit)?))
}

// The channels in a row.
fn states_in_a_row(
    low: ((ChannelState, ChannelState), (ChannelState, ChannelState)),
    high: ((ChannelState, ChannelState), (ChannelState, ChannelState)),
) -> [ChannelState; 8]
    ensures { result ≡ low.0.0 ∷ low.0.1 ∷ low.1.0 ∷ low.1.1 ∷ high.0.0 ∷ high.0.1 ∷ high.1.0 ∷ high.1.1 ∷ [] }
{
    let ((a, b), (c, d)) = low;
    let ((e, f), (g, h)) = high;
    [a, b, c, d, e, f, g, h]
}

// All eight.
fn eight_states(alloc: Global, limit: usize) -> Result<[ChannelState; 8], AllocError>
    requires { IsLimit limit }
    ensures { IfOk result (λ states. states ≡ replicate 8 (unused limit)) }
{
    Ok(states_in_a_row(four_states(alloc, limit)?, four_states(alloc, limit)?))
}

// Takes a record by its reading, after `seen` that are done. Answers whether it is a good frame of a chosen channel.
#[inline(always)]
fn add_record<S: Sink>(
    rules: &Rules,
    seen: u32,
    master: &mut Option<u8>,
    states: &mut [ChannelState; 8],
    reading: Result<Frame<'_>, FrameFault>,
    sink: &mut S,
) -> Result<bool, S::Fault>
    requires state { IsValidState rules.now (state_in_slots seen master.old states.old) }
    requires limit { HaveLimit rules.now.max_packet states.old }
    ensures given { (octets : List ℕ) → frame_reading_of rules.now.layout octets ≡ reading.entry
        → Gives S.Sink sink.old sink.new
        (items rules.now (state_in_slots seen master.old states.old) (octets ∷ [])) result }
    ensures chosen { IfOk result (λ chosen. chosen ≡ is_chosen_reading rules.now reading.entry) }
    ensures left { OnOk result ((octets : List ℕ) → frame_reading_of rules.now.layout octets ≡ reading.entry
        → state_in_slots (seen + 1) master.new states.new
        ≡ after rules.now (state_in_slots seen master.old states.old) (octets ∷ [])) }
    ensures limit { OnOk result (HaveLimit rules.now.max_packet states.new) }
{
    match reading {
        Ok(frame) => {
            let count = frame.master_count();
            if let Err(fault) = give_master_gap(seen, *master, count, sink) {
                return Err(fault);
            }
            *master = Some(count);
            let channel = frame.channel();
            if !rules.channels.has(channel) {
                return Ok(false);
            }
            match states[channel as usize].add_frame(seen, channel, &frame, sink) {
                Ok(()) => Ok(true),
                Err(fault) => Err(fault),
            }
        }
        Err(fault) => match sink.take(Item::Bad { seen, fault }) {
            Ok(()) => Ok(false),
            Err(refusal) => Err(refusal),
        },
    }
}

// The items of a closed end: of the rest, and of the tails.
fn close_recording<S: Sink>(
    seen: u32,
    rest: u32,
    states: &[ChannelState; 8],
    sink: &mut S,
) -> Result<(), S::Fault>
    ensures given { Gives S.Sink sink.old sink.new (closing (state_in_slots seen None states.now) rest) result }
{
    if rest > 0 {
        if let Err(fault) = sink.take(Item::Short { seen, octets: rest }) {
            return Err(fault);
        }
    }
    close_channels(seen, states, sink)
}

// The tails that are held, by rising channel.
#[tactic(auto, using(crate::proofs::Slots::close_more))]
fn close_channels<S: Sink>(
    seen: u32,
    states: &[ChannelState; 8],
    sink: &mut S,
) -> Result<(), S::Fault>
    ensures given { Gives S.Sink sink.old sink.new (close_channels seen 0 (lasts states.now)) result }
{
    for channel in 0..8 {
        if let Err(fault) = states[channel].close(seen, channel as u8, sink) {
            return Err(fault);
        }
    }
    Ok(())
}

// How many octets spell the channels.
#[tactic(auto, using(crate::proofs::Slots::spelled_more))]
fn spelled_length(states: &[ChannelState; 8]) -> usize
    ensures value { result ≡ length (flat_map block (lasts states.now)) }
    ensures most { result ≤ 8 * 65554 }
{
    let mut length = 0;
    for channel in 0..8 {
        length += states[channel].spelled_length();
    }
    length
}

// Appends the spelling of the channels, for which there is room.
#[tactic(auto, using(crate::proofs::Slots::spelled_rest))]
fn push_channels(out: &mut Vec<u8>, states: &[ChannelState; 8])
    requires { vec_len out.old + length (flat_map block (lasts states.now)) ≤ vec_capacity out.old }
    ensures { out.new.items ≡ out.old.items ++ flat_map block (lasts states.now) }
{
    for channel in 0..8 {
        states[channel].push(out);
    }
}

// Checks the blocks of the channels. Answers how many octets they have.
#[tactic(auto, using(crate::proofs::Blocks::some_none, crate::proofs::Blocks::some_more))]
fn check_channels(rules: &Rules, records: u32, octets: &[u8]) -> Result<usize, StateFault>
    ensures ok { IfOk result (HaveBlocks rules.now records octets.now) }
    ensures refused { IfErr result (λ fault. blocks_read rules.now records 8 0 octets.now ≡ Err fault) }
{
    let mut at = 0;
    for channel in 0..8u8 {
        match read_block(rules, channel, records, &octets[at..]) {
            Ok((_, used)) => at += used,
            Err(fault) => return Err(fault),
        }
    }
    Ok(at)
}

// Keeps what the blocks say of the channels. Answers how many octets they have.
#[tactic(auto, using(crate::proofs::Blocks::reads_none, crate::proofs::Blocks::asked_fault))]
fn restore(
    rules: &Rules,
    records: u32,
    octets: &[u8],
    states: &mut [ChannelState; 8],
) -> Result<usize, StateFault>
    requires { HaveLimit rules.now.max_packet states.old }
    ensures ok { IfOk result (KeepBlocks rules.now records octets.now states.new) }
    ensures limit { OnOk result (HaveLimit rules.now.max_packet states.new) }
    ensures refused { IfErr result (λ fault. blocks_read rules.now records 8 0 octets.now ≡ Err fault) }
{
    let mut at = 0;
    for channel in 0..8 {
        match read_block(rules, channel as u8, records, &octets[at..]) {
            Ok((block, used)) => {
                states[channel].restore(&block);
                at += used;
            }
            Err(fault) => return Err(fault),
        }
    }
    Ok(at)
}
