//! What is counted of a recording.

ghost use Rattle.std.specs.Prelude.{◌≡◌, ◌<◌, ◌-◌, ◌∷◌, [], length, IfOk};
ghost use Rattle.tm_packet.specs.Header.{packet_header_of};
ghost use Rattle.tm_items.specs.Item as value;
ghost use Rattle.tm_items.specs.Sinks.{item_of, ItemFits};
ghost use Rattle.tm_summary.specs.Adding.{with_bad, with_frame, with_item, with_note, with_packet};
ghost use Rattle.tm_summary.specs.Losses.{application_lost, channel_lost, has_good_frame, tells_loss};
ghost use Rattle.std.specs.List.{list_any};
ghost use Rattle.tm_summary.specs.code.Places.{no_applications};
ghost use Rattle.tm_summary.specs.SummaryNumbers.{numbers_of, nothing};
ghost use Rattle.tm_output.specs.Pieces.{HasLine};

use crate::application::ApplicationCounts;
use crate::channel::ChannelCounts;
use std::alloc::{AllocError, Global};
use std::marker::Model;
use tm_frame::{Channels, FrameFault, Kind};
use tm_items::Item;
use tm_packet::{Note, Pair};

// A place for each channel and application.
const PAIRS: usize = 16384;

/// What is counted of a recording. The room for all channels and applications is made at the beginning.
#[derive(Drop)]
pub struct Counts {
    pub(crate) good: u64,
    pub(crate) bad: u64,
    pub(crate) rest: u64,
    pub(crate) faults: [u64; 8],
    pub(crate) master_gaps: u64,
    pub(crate) master_missing: u64,
    pub(crate) channels: [ChannelCounts; 8],
    pub(crate) applications: Vec<ApplicationCounts>,
}

impl Model for Counts {
    ghost use Rattle.std.specs.Prelude.{◌≡◌, length};
    ghost use Rattle.tm_summary.specs.SummaryNumbers.{SummaryNumbers};

    ghost Value = { SummaryNumbers };

    ghost view = { λ c. record {
      good = c.good;
      bad = c.bad;
      rest = c.rest;
      faults = c.faults;
      master_gaps = c.master_gaps;
      master_missing = c.master_missing;
      channels = c.channels;
      applications = c.applications.items;
    } };

    ghost invariant = { λ c. (length c.faults ≡ 8) × (length c.channels ≡ 8) × (length c.applications.items ≡ 16384) };
}

// A place for each channel and application, for which nothing came.
#[tactic(auto, using(crate::proofs::Tables::filled))]
fn empty_counts(alloc: Global) -> Result<Vec<ApplicationCounts>, AllocError>
    ensures { IfOk result (λ empty_counts. empty_counts.items ≡ no_applications) }
{
    let mut empty_counts = Vec::with_capacity(alloc, PAIRS)?;
    empty_counts.resize(PAIRS, ApplicationCounts::none())?;
    Ok(empty_counts)
}

// One of the channels lost frames or octets.
fn any_channel_lost(channels: &[ChannelCounts]) -> bool
    ensures { result ≡ list_any channel_lost channels.now }
{
    channels.iter().any(|c| c.gaps > 0 || c.dropped > 0)
}

// The sequence counts of one of these tell a loss.
fn any_application_lost(applications: &[ApplicationCounts]) -> bool
    ensures { result ≡ list_any application_lost applications.now }
{
    applications
        .iter()
        .any(|a| a.gaps > 0 || a.broken > 0 || a.strays > 0)
}

impl Counts {
    /// Nothing yet. No later call takes memory.
    pub fn new(alloc: Global) -> Result<Counts, AllocError>
        ensures { IfOk result (λ counts. counts ≡ numbers_of nothing) }
    {
        let applications = empty_counts(alloc)?;
        Ok(Counts {
            good: 0,
            bad: 0,
            rest: 0,
            faults: [0; 8],
            master_gaps: 0,
            master_missing: 0,
            channels: [ChannelCounts::none(); 8],
            applications,
        })
    }

    /// Counts a good frame of this channel, by what its data field holds and how many octets that has.
    #[tactic(auto, unfolding(crate::specs::Adding::with_frame))]
    pub fn add_frame(&mut self, channel: u8, kind: Kind, octets: u64)
        requires { channel < 8 }
        ensures { self.new ≡ with_frame self.old channel kind octets }
    {
        self.good = self.good.saturating_add(1);
        self.channels[usize::from(channel)].add_frame(kind, octets);
    }

    // A bad frame more.
    fn add_bad(&mut self, fault: FrameFault)
        ensures { self.new ≡ with_bad self.old fault }
    {
        self.bad = self.bad.saturating_add(1);
        let place = fault as usize;
        self.faults[place] = self.faults[place].saturating_add(1);
    }

    /// Counts a whole packet of this channel and application, which the record `seen` completed, and its octets.
    pub fn add_packet(&mut self, seen: u32, channel: u8, application: u16, octets: u64)
        requires channel { channel < 8 }
        requires application { application < 2048 }
        ensures { self.new ≡ with_packet self.old seen channel application octets }
    {
        self.channels[usize::from(channel)].add_packet(octets);
        let pair = Pair {
            channel,
            application,
        };
        self.applications[pair.key()].add_packet(seen, octets);
    }

    /// Counts an item that is no packet.
    #[tactic(auto, unfolding(crate::specs::Adding::with_item))]
    pub fn add_item(&mut self, item: Item<'_>)
        requires fits { ItemFits (item_of item) }
        requires line { HasLine (item_of item) }
        ensures { self.new ≡ with_item self.old (item_of item.entry) }
    {
        match item {
            Item::Bad { fault, .. } => self.add_bad(fault),
            Item::MasterGap { missing, .. } => {
                self.master_gaps = self.master_gaps.saturating_add(1);
                self.master_missing = self.master_missing.saturating_add(u64::from(missing));
            }
            Item::Gap {
                channel,
                missing,
                ..
            } => self.channels[usize::from(channel)].add_gap(missing),
            Item::Vca { .. } => {}
            Item::Dropped {
                channel,
                octets,
                reason,
                ..
            } => self.channels[usize::from(channel)].add_drop(octets, reason),
            Item::Packet { .. } => unreachable!(),
            Item::Short { octets, .. } => self.rest = self.rest.saturating_add(u64::from(octets)),
        }
    }

    /// Counts a note on the sequence counts of the channel and application of this key.
    #[tactic(auto, unfolding(crate::specs::Adding::with_note))]
    pub fn add_note(&mut self, key: u16, note: Note)
        requires { key < 16384 }
        ensures { self.new ≡ with_note self.old key note }
    {
        self.applications[usize::from(key)].add_note(note);
    }

    /// Whether something was lost: there is a bad frame, a gap, a dropped part, a broken group or a stray. Gaps are those of the master channel,
    /// of a channel or of sequence counts.
    pub fn tells_loss(&self) -> bool
        ensures { result ≡ tells_loss self.now }
    {
        let lost = any_channel_lost(&self.channels) || any_application_lost(&self.applications);
        self.bad > 0 || self.master_gaps > 0 || lost
    }

    /// Whether one of these channels had a good frame.
    pub fn has_good_frame(&self, chosen: &Channels) -> bool
        ensures { result ≡ has_good_frame chosen.now self.now }
    {
        let mut came = false;
        for channel in 0..8 {
            came |= chosen.has(channel as u8) && self.channels[channel].frames > 0;
        }
        came
    }
}
