//! A job: the packets of a recording, and the report of what is lost.

ghost use Rattle.std.specs.Prelude.{◌≡◌, option_map, IfOk, IfSome};
ghost use Rattle.tm_checkpoint.specs.Works.{new_job};
ghost use Rattle.tm_tool.specs.Runs.{IsUncounted, RunsJob, SplitsJob, drains_state, kept_of, shelf_and_drain};
ghost use Rattle.tm_tool.specs.code.Extractors.{IsReady, work_in};

use crate::commands::{run_command, write_csv_head};
use crate::extractor::Extractor;
use crate::recording::run_into;
use crate::{BufferedSource, Command, Drain, Ending, NoMemory, RunFault, Settings, Shelf};
use std::alloc::Global;
use std::marker::Model;
use tm_output::{PacketShelf, Totals};
use tm_packet::Tracker;
use tm_reassembly::Reassembly;

/// What a run did.
#[derive(Drop)]
pub struct Done {
    /// The number of records that are done in all.
    pub records: u32,
    /// The job after them, unless the recording was closed.
    pub kept: Option<Job>,
}

/// What a run did that also counts.
#[derive(Drop)]
pub struct CountedRun {
    /// The number of records that are done in all.
    pub records: u32,
    /// The job after them, unless the recording was closed.
    pub kept: Option<Job>,
    /// What this run gave and lost, in numbers.
    pub totals: Totals,
}

impl CountedRun {
    // What the run did, without its numbers.
    fn into_done(self) -> Done
        ensures { result ≡ record { records = self.records; kept = self.kept } }
    {
        Done {
            records: self.records,
            kept: self.kept,
        }
    }
}

/// The packets of a recording, as far as it has been read.
#[derive(Drop)]
pub struct Job {
    pub(crate) extractor: Extractor,
    pub(crate) fresh: bool,
}

impl Model for Job {
    ghost use Rattle.tm_checkpoint.specs.Works.{JobState};
    ghost use Rattle.tm_tool.specs.code.Extractors.{IsReady, work_in};

    ghost Value = { JobState };

    ghost view = { λ j. record { work = work_in j.extractor; fresh = j.fresh } };

    ghost invariant = { λ j. IsReady j.extractor };
}

impl Job {
    /// Before any record. What `run` needs is reserved here: the tails of eight channels, each with capacity for the longest
    /// packet, the entries of all sequence counts, and a buffer of one record.
    ///
    /// # Errors
    ///
    /// `NoMemory` where that can't be had.
    #[tactic(auto, using(crate::proofs::Running::none_valid))]
    pub fn new(alloc: Global, settings: &Settings) -> Result<Job, NoMemory>
        ensures { IfOk result (λ job. job ≡ new_job settings.now) }
    {
        // The tracker is made before the tails: glibc keeps the pages of what is taken first, for the next job.
        let Ok(tracker) = Tracker::new(alloc) else {
            return Err(NoMemory);
        };
        let Ok(reassembly) = Reassembly::new(
            alloc,
            settings.layout(),
            settings.channels(),
            settings.max_packet(),
        ) else {
            return Err(NoMemory);
        };
        match Extractor::new(alloc, reassembly, tracker) {
            Ok(extractor) => Ok(Job {
                extractor,
                fresh: true,
            }),
            Err(_) => Err(NoMemory),
        }
    }

    /// The number of records that are done.
    pub fn records(&self) -> u32
        ensures { result ≡ self.now.work.state.records }
    {
        self.extractor.reassembly.records()
    }
}

/// What was done: the job is kept, unless the ending closed the recording.
pub(crate) fn make_counted(
    extractor: Extractor,
    fresh: bool,
    ending: Ending,
    totals: Totals,
) -> CountedRun
    requires ready { IsReady extractor }
    ensures totals { result.totals ≡ totals }
    ensures records { result.records ≡ extractor.reassembly.state.records }
    ensures kept { option_map (λ j. j.work) result.kept ≡ kept_of ending (work_in extractor) }
    ensures fresh { IfSome result.kept (λ j. j.fresh ≡ fresh) }
{
    let records = extractor.reassembly.records();
    let kept = match ending {
        Ending::Close => None,
        Ending::Keep | Ending::StopAfter(_) => Some(Job { extractor, fresh }),
    };
    CountedRun {
        records,
        kept,
        totals,
    }
}

/// Reads the recording from its beginning, one record at a time, and passes over the records that are done. From those after
/// them it gives what the job's settings choose. To `out` goes what the command gives of each whole packet. To the report goes each
/// bad frame, gap of the master channel, gap of a channel, VCA frame and dropped part. Notes of the packets' sequence counts, and
/// packets that are too short for a row, go there, too. For each item what belongs to `out` is written first. With `Close` the
/// recording is closed at its end; with `Keep` and `StopAfter` the job after the records is kept. Both outputs are flushed.
///
/// # Errors
///
/// `Read`, `Write` or `Report` where a call of that device failed. `ShortRecording` where there are fewer whole records than are done.
/// `TooMany` where a whole record follows 2^32 - 1. `NoMemory` where a line for the report can't be made, or with `Fields` the head
/// or a row, or with `BinaryFields` the first row. The job is given up.
pub fn run<R: BufferedSource, W: Drain, V: Drain>(
    alloc: Global,
    job: Job,
    command: Command<'_>,
    recording: &mut R,
    out: &mut W,
    report: &mut V,
    ending: Ending,
) -> Result<Done, RunFault>
    // With Ok just the pieces of what was read were written. After a fault they were written up to one place.
    ensures { IsUncounted (RunsJob command.entry ending job
        (drains_state R.BufferedSource W.Drain V.Drain recording.old out.old report.old)
        (drains_state R.BufferedSource W.Drain V.Drain recording.new out.new report.new)) result }
{
    match run_and_count(alloc, job, command, recording, out, report, ending) {
        Ok(counted) => Ok(counted.into_done()),
        Err(fault) => Err(fault),
    }
}

/// Runs as `run` does, and also answers what was given and lost, in numbers.
///
/// # Errors
///
/// As `run`.
pub fn run_and_count<R: BufferedSource, W: Drain, V: Drain>(
    alloc: Global,
    job: Job,
    command: Command<'_>,
    recording: &mut R,
    out: &mut W,
    report: &mut V,
    ending: Ending,
) -> Result<CountedRun, RunFault>
    ensures { RunsJob command.entry ending job
        (drains_state R.BufferedSource W.Drain V.Drain recording.old out.old report.old)
        (drains_state R.BufferedSource W.Drain V.Drain recording.new out.new report.new) result }
{
    let Job {
        mut extractor,
        fresh,
    } = job;
    if let Err(fault) = write_csv_head(alloc, command, fresh, recording.may_wait(), out) {
        return Err(fault);
    }
    match run_command(command, &mut extractor, recording, out, report, ending) {
        Ok(totals) => Ok(make_counted(extractor, false, ending, totals)),
        Err(fault) => Err(fault),
    }
}

/// Reads the recording as `run` does, and puts the octets of each whole packet, idle packets included, after those of its
/// application, all channels together. The report is that of `run`, and is flushed at the end.
///
/// # Errors
///
/// As `run`: `Write` where a put was refused, and `NoMemory` only where a line for the report can't be made. The job is given up.
pub fn split<R: BufferedSource, H: Shelf, V: Drain>(
    _alloc: Global,
    job: Job,
    recording: &mut R,
    shelf: &mut H,
    report: &mut V,
    ending: Ending,
) -> Result<Done, RunFault>
    ensures { IsUncounted (SplitsJob ending job
        (shelf_and_drain R.BufferedSource H.Shelf V.Drain recording.old shelf.old report.old)
        (shelf_and_drain R.BufferedSource H.Shelf V.Drain recording.new shelf.new report.new)) result }
{
    match split_and_count(job, recording, shelf, report, ending) {
        Ok(counted) => Ok(counted.into_done()),
        Err(fault) => Err(fault),
    }
}

/// Splits as `split` does, and also answers what was given and lost, in numbers.
///
/// # Errors
///
/// As `split`.
pub fn split_and_count<R: BufferedSource, H: Shelf, V: Drain>(
    job: Job,
    recording: &mut R,
    shelf: &mut H,
    report: &mut V,
    ending: Ending,
) -> Result<CountedRun, RunFault>
    ensures { SplitsJob ending job
        (shelf_and_drain R.BufferedSource H.Shelf V.Drain recording.old shelf.old report.old)
        (shelf_and_drain R.BufferedSource H.Shelf V.Drain recording.new shelf.new report.new) result }
{
    let Job {
        mut extractor,
        fresh,
    } = job;
    let mut outlet = PacketShelf { shelf };
    match run_into(&mut extractor, recording, &mut outlet, report, ending) {
        Ok(totals) => Ok(make_counted(extractor, fresh, ending, totals)),
        Err(fault) => Err(fault),
    }
}
