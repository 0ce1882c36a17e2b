//! A summary of a recording: what came, and what was lost, at a glance.

ghost use Rattle.std.specs.Prelude.{◌≡◌, ◌<◌, false, length};
ghost use Rattle.tm_frame.specs.Layout.{record_length_of};
ghost use Rattle.tm_summary.specs.SummaryNumbers.{nothing, numbers_of};
ghost use Rattle.tm_summary.specs.Tallies.{SameReferences};
ghost use Rattle.tm_tool.specs.Overviews.{Shows, source_and_drain};
ghost use Rattle.tm_tool.specs.Summaries.{IsSummarized, IsSummaryStop};
ghost use Rattle.tm_tool.specs.SummaryNumbers.{IsSummed};
ghost use Rattle.tm_checkpoint.specs.Works.{IsGoing, work_of};
ghost use Rattle.tm_tool.specs.code.Extractors.{IsReady, work_in};
ghost use Rattle.tm_tool.specs.code.Summing.{CountsEnd, SumsUp};

use crate::extractor::Extractor;
use crate::job::Job;
use crate::record_loop::{RecordHandler, handle_records};
use crate::{BufferedSource, Drain, Ending, RunFault, Settings};
use std::alloc::Global;
use tm_frame::read_good;
use tm_packet::Tracker;
use tm_reassembly::{Reassembly, StepFault};
use tm_summary::{Counting, Counts, write_summary};

impl RecordHandler for Counting<'_> {
    ghost use Rattle.std.specs.Prelude.{⊤};
    ghost use Rattle.tm_tool.specs.code.Summing.{CountingNames, CountingState, CountsRecords, RefusesCount, counting_names, counting_state};

    type Progress = Reassembly;

    ghost Known = { CountingState };

    ghost Fixed = { CountingNames };

    ghost known = { counting_state };

    ghost fixed = { counting_names };

    ghost size = { λ f. record_length_of f.rules.layout };

    ghost count = { λ known. known.work.state.records };

    ghost ready = { IsGoing };

    ghost takes = { λ _. CountsRecords };

    ghost refuses = { λ _. RefusesCount };

    ghost flushed = { λ _. ⊤ };

    fn records(&self, progress: &Reassembly) -> u32 {
        progress.records()
    }

    // Counts a record, and its frame where it is a good one.
    fn handle_record(&mut self, progress: &mut Reassembly, octets: &[u8]) -> Result<(), RunFault> {
        let layout = progress.layout();
        self.bad = false;
        match progress.step(octets, self) {
            Ok(()) => {}
            Err(StepFault::TooMany) => return Err(RunFault::TooMany),
            Err(StepFault::Failed) => unreachable!(),
            Err(StepFault::Sink(_)) => unreachable!(),
        }
        if !self.bad {
            let frame = read_good(&layout, octets);
            let length = frame.field().len() as u64;
            self.counts.add_frame(frame.channel(), frame.kind(), length);
        }
        Ok(())
    }

    // Nothing is written before the recording's end.
    fn flush_all(&mut self, _progress: &Reassembly) -> Result<(), RunFault> {
        Ok(())
    }
}

// Counts a closed end, where this many octets are left.
fn count_end(reassembly: &Reassembly, rest: usize, counting: &mut Counting<'_>)
    requires rest { rest < record_length_of reassembly.now.rules.layout }
    requires going { reassembly.now.failed ≡ false }
    ensures same { SameReferences counting.old counting.new }
    ensures counted { CountsEnd (work_of reassembly.now counting.old.tracker.now) counting.old.counts.now rest counting.new.counts.now }
{
    match reassembly.close(rest, counting) {
        Ok(()) => {}
        Err(_) => unreachable!(),
    }
    counting.add_open();
}

// Counts a recording down to its closed end, with a job's extractor. Answers the number of its records.
#[tactic(auto, using(crate::proofs::SummaryEnds::summed))]
fn count_into<R: BufferedSource>(
    extractor: &mut Extractor,
    recording: &mut R,
    counts: &mut Counts,
) -> Result<u32, RunFault>
    requires ready { IsReady extractor.old }
    requires first { extractor.old.reassembly.state.records ≡ 0 }
    requires none { counts.old ≡ numbers_of nothing }
    requires places { length extractor.old.tracker ≡ 16384 }
    ensures sums { SumsUp (work_in extractor.old) (R.left recording.old) (R.left recording.new) (R.failures recording.old)
        (R.failures recording.new) counts.new result }
{
    let Extractor {
        reassembly,
        tracker,
        buffer,
        ..
    } = extractor;
    let mut counting = Counting {
        tracker,
        counts,
        bad: false,
    };
    let rest = match handle_records(
        reassembly,
        buffer.as_mut_slice(),
        recording,
        &mut counting,
        Ending::Close,
    ) {
        Ok(rest) => rest,
        Err(fault) => return Err(fault),
    };
    let records = reassembly.records();
    count_end(reassembly, rest, &mut counting);
    Ok(records)
}

/// What a summary tells at once.
#[derive(Clone, Copy, Debug, PartialEq, Eq)]
pub struct Summed {
    /// The number of records.
    pub records: u32,
    /// A chosen channel had a good frame.
    pub has_good_frame: bool,
    /// A number of bad frames, gaps, dropped parts, sequence gaps, broken groups or strays isn't 0.
    pub has_losses: bool,
}

/// Writes the lines of a summary of the recording, closed at its end: its records, the faults of bad frames, and the gaps of the
/// master channel. For each chosen channel and each application it says what came and what was lost. It flushes, and answers what
/// these numbers tell at once. One record is read at a time. All memory is taken before the first is read, and nothing is written
/// before the last.
///
/// # Errors
///
/// `Read` or `Write` where a call of that device failed. `TooMany` where a whole record follows 2^32 - 1. `NoMemory` where memory for the
/// numbers can't be had, and nothing was read or written then.
pub fn sum_up<R: BufferedSource, W: Drain>(
    alloc: Global,
    settings: &Settings,
    recording: &mut R,
    out: &mut W,
) -> Result<Summed, RunFault>
    // With Ok just the lines of the summary of what was read were written. After a fault they were written up to one place:
    // none before all was read.
    ensures { Shows (IsSummed settings.now) (IsSummaryStop settings.now)
        (source_and_drain R.BufferedSource W.Drain recording.old out.old)
        (source_and_drain R.BufferedSource W.Drain recording.new out.new) result }
{
    let Ok(mut job) = Job::new(alloc, settings) else {
        return Err(RunFault::NoMemory);
    };
    let Ok(mut counts) = Counts::new(alloc) else {
        return Err(RunFault::NoMemory);
    };
    let records = match count_into(&mut job.extractor, recording, &mut counts) {
        Ok(records) => records,
        Err(fault) => return Err(fault),
    };
    let channels = settings.channels();
    if let Err(fault) = write_summary(&channels, records, &counts, out) {
        return Err(fault);
    }
    let summed = Summed {
        records,
        has_good_frame: counts.has_good_frame(&channels),
        has_losses: counts.tells_loss(),
    };
    match out.flush() {
        Ok(()) => Ok(summed),
        Err(_) => Err(RunFault::Write),
    }
}

/// Writes the lines of a summary as `sum_up` does, and answers the number of records.
///
/// # Errors
///
/// As `sum_up`.
pub fn summarize<R: BufferedSource, W: Drain>(
    alloc: Global,
    settings: &Settings,
    recording: &mut R,
    out: &mut W,
) -> Result<u32, RunFault>
    ensures { Shows (IsSummarized settings.now) (IsSummaryStop settings.now)
        (source_and_drain R.BufferedSource W.Drain recording.old out.old)
        (source_and_drain R.BufferedSource W.Drain recording.new out.new) result }
{
    match sum_up(alloc, settings, recording, out) {
        Ok(summed) => Ok(summed.records),
        Err(fault) => Err(fault),
    }
}
