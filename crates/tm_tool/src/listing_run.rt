//! A line for each frame of a recording, with which a job goes on.

ghost use Rattle.std.specs.Prelude.{◌≡◌, ◌<◌, length, OnOk};
ghost use Rattle.std.specs.Io.KnownBytes.{Keeps};
ghost use Rattle.tm_frame.specs.Layout.{record_length_of};
ghost use Rattle.tm_checkpoint.specs.Works.{IsGoing, work_of};
ghost use Rattle.tm_output.specs.Seen.{out_alone, outlet_both};
ghost use Rattle.tm_output.specs.Totals.{no_totals};
ghost use Rattle.tm_tool.specs.ListedRuns.{ListsWithJob};
ghost use Rattle.tm_tool.specs.code.Extractors.{IsReady, work_in};
ghost use Rattle.tm_tool.specs.code.Listed.{drain_devices};
ghost use Rattle.tm_tool.specs.code.ListingRuns.{ListingRunEnded, listing_run_fixture};

use crate::extractor::Extractor;
use crate::job::{CountedRun, Job, make_counted};
use crate::listing::{make_reading_line, write_end_line};
use crate::nowhere::Nowhere;
use crate::record_loop::{RecordHandler, handle_records};
use crate::recording::{absent_channels, end, handle_reading};
use crate::{BufferedSource, Drain, Ending, RunFault};
use tm_devices::write_all;
use tm_lines::LineBuffer;
use tm_output::{Outlet, Output, PacketOctets, PacketTexts, Totals};
use tm_packet::Tracker;
use tm_reassembly::Reassembly;

// Lists records, of any channel, and a run takes them too.
#[derive(Drop)]
struct ListingRun<'l, 'a, O, V, W> {
    line: LineBuffer,
    out: &'l mut W,
    tracker: &'a mut Tracker,
    notes: &'a mut Vec<u8>,
    outlet: &'a mut O,
    report: &'a mut V,
    totals: Totals,
}

impl<O: Outlet, V: Drain, W: Drain> RecordHandler for ListingRun<'_, '_, O, V, W> {
    ghost use Rattle.tm_tool.specs.code.ListingRuns.{ListingRunFixture, ListingRunState, RefusesEither, TakesAndLists, listing_run_fixture, listing_run_state};

    type Progress = Reassembly;

    ghost Known = { ListingRunState O.Held };

    ghost Fixed = { ListingRunFixture O.Fixed };

    ghost known = { listing_run_state O.Outlet V.Drain W.Drain };

    ghost fixed = { listing_run_fixture O.Outlet V.Drain W.Drain };

    ghost size = { λ f. record_length_of f.run.rules.layout };

    ghost count = { λ known. known.run.work.state.records };

    ghost ready = { IsGoing };

    ghost takes = { λ f. TakesAndLists O.grows (O.text f.run.output.texts) };

    ghost refuses = { λ f. RefusesEither O.grows (O.text f.run.output.texts) O.buffering };

    ghost flushed = { λ both. Keeps (W.flushed both.out.now) (W.written both.out.now) };

    fn records(&self, progress: &Reassembly) -> u32 {
        progress.records()
    }

    // The run takes the record first, so that nothing of its line is written where memory runs out.
    #[tactic(auto, unfolding(crate::specs::Listing::record_line))]
    fn handle_record(&mut self, progress: &mut Reassembly, octets: &[u8]) -> Result<(), RunFault> {
        let reading = progress.read(octets);
        let _good = make_reading_line(&mut self.line, progress.records(), &reading);
        let mut output = Output {
            tracker: self.tracker,
            notes: self.notes,
            outlet: self.outlet,
            report: self.report,
            totals: self.totals,
        };
        if let Err(fault) = handle_reading(progress, reading, octets, &mut output) {
            return Err(fault);
        }
        self.totals = output.totals;
        match write_all(self.out, self.line.as_slice()) {
            Ok(()) => Ok(()),
            Err(_) => Err(RunFault::Write),
        }
    }

    fn flush_all(&mut self, _progress: &Reassembly) -> Result<(), RunFault> {
        match self.out.flush() {
            Ok(()) => Ok(()),
            Err(_) => Err(RunFault::Write),
        }
    }
}

// Takes what the ending reads of the recording, ends both, and flushes the lines. Answers what the run gave and lost, in numbers.
fn list_and_run<R: BufferedSource, O: Outlet, V: Drain, W: Drain>(
    reassembly: &mut Reassembly,
    buffer: &mut [u8],
    recording: &mut R,
    both: &mut ListingRun<'_, '_, O, V, W>,
    ending: Ending,
) -> Result<Totals, RunFault>
    requires exact { length buffer.old ≡ record_length_of reassembly.old.rules.layout }
    requires some { 0 < length buffer.old }
    requires going { IsGoing reassembly.old }
    requires begun { both.old.totals ≡ no_totals }
    ensures same { listing_run_fixture O.Outlet V.Drain W.Drain reassembly.new both.new
        ≡ listing_run_fixture O.Outlet V.Drain W.Drain reassembly.old both.old }
    ensures exact { length buffer.new ≡ length buffer.old }
    ensures going_on { OnOk result (IsGoing reassembly.new × (reassembly.new.rules ≡ reassembly.old.rules)) }
    ensures runs { ListingRunEnded ending (work_of reassembly.old both.old.tracker.now)
        (R.left recording.old) (R.left recording.new) (R.failures recording.old) (R.failures recording.new)
        (out_alone W.Drain both.old.out.now) (out_alone W.Drain both.new.out.now)
        (outlet_both O.Outlet V.Drain both.old.outlet.now both.old.report.now)
        (outlet_both O.Outlet V.Drain both.new.outlet.now both.new.report.now)
        O.grows O.buffering (O.text (O.fixed both.old.outlet.now))
        (work_of reassembly.new both.new.tracker.now) result }
    ensures flushed { OnOk result (Keeps (W.flushed both.new.out.now) (W.written both.new.out.now)) }
{
    let rest = match handle_records(reassembly, buffer, recording, both, ending) {
        Ok(rest) => rest,
        Err(fault) => return Err(fault),
    };
    let mut output = Output {
        tracker: both.tracker,
        notes: both.notes,
        outlet: both.outlet,
        report: both.report,
        totals: both.totals,
    };
    if let Err(fault) = end(reassembly, rest, &mut output, ending) {
        return Err(fault);
    }
    let mut totals = output.totals;
    totals.absent = absent_channels(reassembly);
    let records = reassembly.records();
    match write_end_line(&mut both.line, records, rest, both.out, ending) {
        Ok(()) => Ok(totals),
        Err(_) => Err(RunFault::Write),
    }
}

// Lists and runs with a job's extractor, into an outlet and a report of the run.
fn list_into<R: BufferedSource, O: Outlet, V: Drain, W: Drain>(
    extractor: &mut Extractor,
    recording: &mut R,
    out: &mut W,
    outlet: &mut O,
    report: &mut V,
    ending: Ending,
) -> Result<Totals, RunFault>
    requires ready { IsReady extractor.old }
    ensures ready { OnOk result (IsReady extractor.new) }
    ensures same { W.fixed out.new ≡ W.fixed out.old }
    ensures runs { ListingRunEnded ending (work_in extractor.old)
        (R.left recording.old) (R.left recording.new) (R.failures recording.old) (R.failures recording.new)
        (out_alone W.Drain out.old) (out_alone W.Drain out.new)
        (outlet_both O.Outlet V.Drain outlet.old report.old) (outlet_both O.Outlet V.Drain outlet.new report.new)
        O.grows O.buffering (O.text (O.fixed outlet.old)) (work_in extractor.new) result }
    ensures flushed { OnOk result (Keeps (W.flushed out.new) (W.written out.new)) }
{
    let Extractor {
        reassembly,
        tracker,
        buffer,
        lines,
        ..
    } = extractor;
    let mut both = ListingRun {
        line: LineBuffer::new(),
        out,
        tracker,
        notes: lines,
        outlet,
        report,
        totals: Totals::none(),
    };
    list_and_run(
        reassembly,
        buffer.as_mut_slice(),
        recording,
        &mut both,
        ending,
    )
}

/// Lists the records that the ending wants after those that the job has done, and the octets that are left where it closes the recording.
/// The job goes on with these records, as in a run of `Extract` whose packets and report go nowhere. Each record is read once. Flushes.
///
/// # Errors
///
/// `Read` or `Write` where a call of that device failed. `ShortRecording` where there are fewer whole records than are done. `TooMany` where a
/// whole record follows 2^32 - 1. `NoMemory` where memory ran out. The job is given up.
pub fn list_with_job<R: BufferedSource, W: Drain>(
    job: Job,
    recording: &mut R,
    out: &mut W,
    ending: Ending,
) -> Result<CountedRun, RunFault>
    ensures same { W.fixed out.new ≡ W.fixed out.old }
    ensures lists { ListsWithJob ending job (drain_devices R.BufferedSource W.Drain recording.old out.old)
        (drain_devices R.BufferedSource W.Drain recording.new out.new) result }
    ensures flushed { OnOk result (Keeps (W.flushed out.new) (W.written out.new)) }
{
    let Job { mut extractor, .. } = job;
    let (mut packets, mut report) = (Nowhere, Nowhere);
    let mut outlet = PacketTexts {
        out: &mut packets,
        text: PacketOctets,
    };
    match list_into(
        &mut extractor,
        recording,
        out,
        &mut outlet,
        &mut report,
        ending,
    ) {
        Ok(totals) => Ok(make_counted(extractor, false, ending, totals)),
        Err(fault) => Err(fault),
    }
}
