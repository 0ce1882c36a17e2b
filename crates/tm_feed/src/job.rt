//! The job: how far it has got, and the calls that feed it.

use crate::choice::{Choice, NoApplication, RowsFault};
use crate::ending::{give_closing, give_groups};
use crate::event::Event;
use crate::sink::EventSink;
use crate::taking::{EVENTS_MOST, add_octets, all_events_most, octets_most};
use std::alloc::{AllocError, Global};
use std::marker::Model;
use tm_checkpoint::{read_checkpoint, write_checkpoint};
use tm_faults::CheckpointFault;
use tm_fields::Definition;
use tm_packet::Tracker;
use tm_reassembly::Reassembly;
use tm_settings::Settings;
use tm_tool::NoMemory;

/// Why a call took no more octets, or gave no more events.
#[derive(Clone, Copy, Debug, PartialEq, Eq)]
pub enum StopReason {
    /// All are taken.
    Done,
    /// What is left of a room may be too small for what the next record gives: in rooms that are emptied the call goes on.
    Room,
    /// A room as a whole may be too small for what the next record gives.
    TooSmall,
    /// As many records are done as can be told.
    TooMany,
    /// The recording was closed.
    Closed,
}

/// How far the end of the recording is told.
#[derive(Clone, Copy, Debug, PartialEq, Eq)]
pub enum EndProgress {
    /// It isn't closed.
    Open,
    /// The items of the end are given, and the groups that are open from this key on are left.
    Groups(u16),
    /// All is given.
    Told,
}

/// What a call did.
#[derive(Clone, Copy, Debug, PartialEq, Eq)]
pub struct Fed {
    /// How many octets it took.
    pub used: usize,
    /// How many events it gave, and how many octets of packets.
    pub events: usize,
    pub octets: usize,
    /// Why it took no more.
    pub stop: StopReason,
}

impl Fed {
    ghost use Rattle.std.specs.Prelude.{◌≡◌};
    ghost use Rattle.tm_feed.specs.Jobs.{nothing_fed};

    // Nothing was done, for this reason.
    fn nothing(stop: StopReason) -> Fed
        ensures { result ≡ nothing_fed stop }
    {
        Fed {
            used: 0,
            events: 0,
            octets: 0,
            stop,
        }
    }
}

/// A job that is fed with the octets of a recording. It keeps the part of a record that isn't whole.
#[derive(Drop)]
pub struct FedJob {
    reassembly: Reassembly,
    tracker: Tracker,
    part: Vec<u8>,
    choice: Choice,
    end: EndProgress,
}

impl Model for FedJob {
    ghost use Rattle.std.specs.Prelude.{◌≡◌, ◌<◌, ◌≤◌, length, vec_capacity};
    ghost use Rattle.tm_frame.specs.Layout.{record_length_of};
    ghost use Rattle.tm_checkpoint.specs.Works.{IsGoing, work_of};
    ghost use Rattle.tm_feed.specs.States.{FeedState, IsKey};

    ghost Value = { FeedState };

    ghost view = { λ j. record {
      work = work_of j.reassembly j.tracker;
      part = j.part.items;
      chosen = j.choice.chosen;
      end = j.end;
    } };

    ghost invariant = { λ j. IsGoing j.reassembly × (length j.part.items < record_length_of j.reassembly.rules.layout)
        × (record_length_of j.reassembly.rules.layout ≤ vec_capacity j.part) × IsKey j.end };
}

impl FedJob {
    ghost use Rattle.std.specs.Prelude.{◌≡◌, ◌≢◌, ◌<◌, ◌≤◌, ◌+◌, true, false, Err, length, take, IfOk, IfErr, OnOk, OnErr};
    ghost use Rattle.tm_checkpoint.specs.Works.{IsGoing, new_job, work_of};
    ghost use Rattle.tm_checkpoint.specs.Checkpoints.{checkpoint_of, resumed};
    ghost use Rattle.tm_feed.specs.Endings.{EndedBy, GivesEnd};
    ghost use Rattle.tm_feed.specs.Choosing.{GivesRows, row_length_for};
    ghost use Rattle.tm_feed.specs.Jobs.{AreSmall, IsFed, GoesOnFrom, IsStopped, MakesWhole, all_events_most, new_feed, octets_most, record_size};
    ghost use Rattle.tm_feed.specs.Only.{GivesOnly, IsNoApplication};
    ghost use Rattle.tm_feed.specs.code.Feeds.{LeavesRecord};

    // With a reassembly and its tracker, and no octets of a further record.
    fn with(alloc: Global, reassembly: Reassembly, tracker: Tracker) -> Result<FedJob, AllocError>
        requires { IsGoing reassembly }
        ensures { IfOk result (λ job. job ≡ new_feed (work_of reassembly tracker)) }
    {
        let part = Vec::with_capacity(alloc, reassembly.layout().record_length())?;
        Ok(FedJob {
            reassembly,
            tracker,
            part,
            choice: Choice::all(alloc),
            end: EndProgress::Open,
        })
    }

    /// Before any record. All memory is taken here: the tails of eight channels, each with room for the longest packet, the entries of all
    /// sequence counts, and a record. `feed` and `end` take none.
    ///
    /// # Errors
    ///
    /// `NoMemory` where that can't be had.
    #[tactic(auto, using(tm_tool::proofs::Running::none_valid))]
    pub fn new(alloc: Global, settings: &Settings) -> Result<FedJob, NoMemory>
        ensures { IfOk result (λ job. job ≡ new_feed (new_job settings.now).work) }
    {
        let Ok(reassembly) = Reassembly::new(
            alloc,
            settings.layout(),
            settings.channels(),
            settings.max_packet(),
        ) else {
            return Err(NoMemory);
        };
        let Ok(tracker) = Tracker::new(alloc) else {
            return Err(NoMemory);
        };
        match FedJob::with(alloc, reassembly, tracker) {
            Ok(job) => Ok(job),
            Err(_) => Err(NoMemory),
        }
    }

    /// The job that a checkpoint says, which was written with the same settings, by a job or by the program, in version 3 or an older one.
    ///
    /// # Errors
    ///
    /// What is wrong first with the checkpoint. `NoMemory` where memory runs out.
    pub fn resume(
        alloc: Global,
        settings: &Settings,
        octets: &[u8],
    ) -> Result<FedJob, CheckpointFault>
        ensures ok { IfOk result (λ job. GoesOnFrom (resumed settings.now octets.now) job) }
        ensures refused { IfErr result (λ found. found ≢ CheckpointFault.NoMemory
            → resumed settings.now octets.now ≡ Err found) }
    {
        let (reassembly, tracker) = match read_checkpoint(alloc, settings, octets) {
            Ok(read) => read,
            Err(fault) => return Err(fault),
        };
        match FedJob::with(alloc, reassembly, tracker) {
            Ok(job) => Ok(job),
            Err(_) => Err(CheckpointFault::NoMemory),
        }
    }

    /// From now on gives packets of these applications alone, and the notes of all. Before this call it gives the packets of all.
    ///
    /// # Errors
    ///
    /// `NoApplication` where a number is over 2047. Then the job is as it was.
    pub fn give_only(&mut self, applications: &[u16]) -> Result<(), NoApplication>
        ensures given { OnOk result (GivesOnly applications.now self.old self.new) }
        ensures refused { OnErr result (IsNoApplication applications.now × (self.new ≡ self.old)) }
    {
        self.choice.give_only(applications)
    }

    /// From now on gives rows of the packets of this application, in the order of the report: the event of a row comes after those of the
    /// packet's notes. They are given whether its packets are or not. A definition takes the place of an earlier one of the application.
    /// All memory is taken here.
    ///
    /// # Errors
    ///
    /// `NoApplication` where the number is over 2047, `NoMemory` where memory runs out. Then the job is as it was.
    pub fn give_rows(&mut self, application: u16, definition: Definition) -> Result<(), RowsFault>
        ensures given { OnOk result (GivesRows application definition self.old self.new) }
        ensures refused { OnErr result (self.new ≡ self.old) }
        ensures number { IfErr result (λ fault. fault ≡ RowsFault.NoApplication → 2047 < application) }
        ensures over { 2047 < application → result ≡ Err RowsFault.NoApplication }
    {
        self.choice.give_rows(application, definition)
    }

    /// How many octets the rows of an application have, 0 without a definition.
    pub fn row_length(&self, application: u16) -> u32
        ensures { result ≡ row_length_for self.now.chosen application }
    {
        self.choice.row_length(application)
    }

    /// How many events, and how many octets of packets and rows, a record gives at most.
    pub fn most(&self) -> (usize, usize)
        ensures events { result.0 ≡ all_events_most self.now.chosen.longest }
        ensures octets { result.1 ≡ octets_most self.now.work.rules.max_packet self.now.chosen.longest }
    {
        let longest = self.choice.longest();
        (
            all_events_most(longest),
            octets_most(self.reassembly.max_packet(), longest),
        )
    }

    // Whether rooms as a whole may be too small for what a record gives.
    fn are_small(&self, event_room: usize, octet_room: usize) -> bool
        ensures small { result ≡ true → AreSmall self.now.work.rules.max_packet self.now.chosen.longest event_room octet_room }
        ensures large { result ≡ false → AreSmall self.now.work.rules.max_packet self.now.chosen.longest event_room octet_room → ⊥ }
    {
        let (events, octets) = self.most();
        event_room < events || octet_room < octets
    }

    // Whether octets that come make the next record whole.
    fn makes_whole(&self, octets: &[u8]) -> bool
        ensures whole { result ≡ true → MakesWhole self.now (length octets.now) }
        ensures part { result ≡ false → length self.now.part + length octets.now < record_size self.now.work }
    {
        self.reassembly.layout().record_length() - self.part.len() <= octets.len()
    }

    /// Takes the octets that follow those that earlier calls took, record by record. It gives their events, and the octets of their packets and
    /// rows, each in a room from its beginning on. It takes all octets, or stops before a record for whose events a room may be too small.
    /// Rooms as large as `most` says hold those of any record: without rows these are 1,170 events and `max_packet` + 2,041 octets. In
    /// smaller ones no record is taken: the answer is `TooSmall` where the octets make one whole. In such rooms or larger ones `Room` is
    /// answered only after a record was taken.
    #[tactic(auto, using(crate::proofs::FeedEnds::stopped_open))]
    pub fn feed(&mut self, octets: &[u8], events: &mut [Event], packets: &mut [u8]) -> Fed
        ensures fed { self.old.end ≡ EndProgress.Open
            → IsFed self.old self.new (take result.used octets.now) result events.new packets.new }
        ensures within { result.used ≤ length octets.now }
        ensures stopped { IsStopped self.old self.new (length octets.now) result (length events.new) (length packets.new) }
        ensures small { self.old.end ≡ EndProgress.Open → MakesWhole self.old (length octets.now)
            → AreSmall self.old.work.rules.max_packet self.old.chosen.longest (length events.new) (length packets.new)
            → result.stop ≡ StopReason.TooSmall }
    {
        let EndProgress::Open = self.end else {
            return Fed::nothing(StopReason::Closed);
        };
        if self.are_small(events.len(), packets.len()) && self.makes_whole(octets) {
            return Fed::nothing(StopReason::TooSmall);
        }
        self.feed_open(octets, events, packets)
    }

    // Takes octets as `feed` does where the recording isn't closed, in rooms of any size.
    fn feed_open(&mut self, octets: &[u8], events: &mut [Event], packets: &mut [u8]) -> Fed
        requires { self.old.end ≡ EndProgress.Open }
        ensures fed { IsFed self.old self.new (take result.used octets.now) result events.new packets.new }
        ensures within { result.used ≤ length octets.now }
        ensures done { result.stop ≡ StopReason.Done → result.used ≡ length octets.now }
        ensures stopped { result.stop ≢ StopReason.Done
            → LeavesRecord self.new (length octets.now) result (length events.new) (length packets.new) result.stop }
    {
        let mut sink = EventSink {
            tracker: &mut self.tracker,
            choice: &mut self.choice,
            events,
            filled: 0,
            octets: packets,
            used: 0,
        };
        let (used, stop) = add_octets(&mut self.reassembly, &mut self.part, octets, &mut sink);
        Fed {
            used,
            events: sink.filled,
            octets: sink.used,
            stop,
        }
    }

    /// Closes the recording, and gives what is left then. That is the short record, if octets of one are there, and the tails that are held. Then
    /// come the groups that are open, by rising key. Where the room is too small for all of them the next call goes on. The first call wants
    /// a room of 1,170 events, and later ones a room of one: in a smaller one nothing is given, and the answer is `TooSmall`. Answers how
    /// many events it gave, and `Done` where all are given.
    pub fn end(&mut self, events: &mut [Event]) -> (usize, StopReason)
        ensures gave { GivesEnd self.old self.new result.0 events.new }
        ensures stopped { EndedBy self.old self.new result.0 (length events.new) result.1 }
    {
        let (start, from) = match self.end {
            EndProgress::Told => return (0, StopReason::Done),
            EndProgress::Groups(key) => (0, key),
            EndProgress::Open if events.len() < EVENTS_MOST => return (0, StopReason::TooSmall),
            EndProgress::Open => {
                let rest = self.part.len();
                let tracker = &mut self.tracker;
                let choice = &mut self.choice;
                let given = give_closing(&self.reassembly, tracker, choice, rest, events);
                (given, 0)
            }
        };
        let seen = self.reassembly.records();
        let (filled, left) = give_groups(&self.tracker, seen, from, events, start);
        match left {
            Some(_) if filled == 0 => (0, StopReason::TooSmall),
            Some(key) => {
                self.end = EndProgress::Groups(key);
                (filled, StopReason::Room)
            }
            None => {
                self.end = EndProgress::Told;
                (filled, StopReason::Done)
            }
        }
    }

    /// The job in octets, as a checkpoint of the program has it. The part of a record that isn't whole is left out. So a job that goes on from
    /// the checkpoint is fed from the octets after the whole records on.
    ///
    /// # Errors
    ///
    /// `NoMemory` where there is no room for them.
    pub fn checkpoint(&self, alloc: Global) -> Result<Vec<u8>, NoMemory>
        ensures { IfOk result (λ octets. octets.items ≡ checkpoint_of self.now.work) }
    {
        write_checkpoint(alloc, &self.reassembly, &self.tracker)
    }

    /// How many octets a record has, those that are skipped among them: at most 4,096.
    pub fn record_length(&self) -> usize
        ensures value { result ≡ record_size self.now.work }
        ensures most { result ≤ 4096 }
    {
        self.reassembly.layout().record_length()
    }

    /// How many records are done.
    pub fn records(&self) -> u32
        ensures { result ≡ self.now.work.state.records }
    {
        self.reassembly.records()
    }
}
