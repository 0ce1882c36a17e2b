//! A run of a job over a recording, into an outlet and a report.

ghost use Rattle.std.specs.Prelude.{◌≡◌, ◌<◌, ◌+◌, ◌∷◌, [], false, length, IfErr, OnOk};
ghost use Rattle.std.specs.Io.KnownBytes.{Keeps};
ghost use Rattle.tm_frame.specs.Fault.{frame_reading_of};
ghost use Rattle.tm_frame.specs.Layout.{record_length_of};
ghost use Rattle.tm_reassembly.specs.Items.{closing};
ghost use Rattle.tm_output.specs.Outputs.{Written};
ghost use Rattle.tm_tool.specs.RecordingPieces.{closing_pieces, end_pieces};
ghost use Rattle.tm_output.specs.Pieces.{noted_all, pieces_of};
ghost use Rattle.tm_tool.specs.Runs.{kept_of};
ghost use Rattle.tm_checkpoint.specs.Works.{IsGoing, work_of};
ghost use Rattle.tm_tool.specs.code.Extractors.{IsReady, work_in};
ghost use Rattle.tm_tool.specs.code.Stepping.{RefusesRecord, RunHasEnded, TakesRecords, outlet_devices, output_devices, run_fixture, run_state, with_end};
ghost use Rattle.tm_output.specs.Totals.{no_totals};
ghost use Rattle.tm_tool.specs.RunTotals.{absent_channels, is_absent};
ghost use Rattle.tm_output.specs.Seen.{fixture, output_both};

use crate::extractor::Extractor;
use crate::record_loop::{RecordHandler, handle_records};
use crate::{BufferedSource, Drain, Ending, RunFault};
use tm_frame::{Frame, FrameFault};
use tm_output::{Outlet, Output, Totals};
use tm_reassembly::{Reassembly, StepFault};

/// Takes a record that is read already.
#[inline(always)]
pub(crate) fn handle_reading<O: Outlet, V: Drain>(
    reassembly: &mut Reassembly,
    reading: Result<Frame<'_>, FrameFault>,
    octets: &[u8],
    output: &mut Output<'_, O, V>,
) -> Result<(), RunFault>
    requires read { reading ≡ frame_reading_of reassembly.old.rules.layout octets.now }
    requires ready { IsGoing reassembly.old }
    ensures same { run_fixture O.Outlet V.Drain reassembly.new output.new
        ≡ run_fixture O.Outlet V.Drain reassembly.old output.old }
    ensures ready { OnOk result (IsGoing reassembly.new) }
    ensures counted { OnOk result (reassembly.new.state.records ≡ reassembly.old.state.records + 1) }
    ensures taken { OnOk result (TakesRecords O.grows (O.text (O.fixed output.old.outlet.now))
        (run_state O.Outlet V.Drain reassembly.old output.old) (octets.now ∷ [])
        (run_state O.Outlet V.Drain reassembly.new output.new)) }
    ensures refused { IfErr result (RefusesRecord O.grows (O.text (O.fixed output.old.outlet.now)) O.buffering
        (run_state O.Outlet V.Drain reassembly.old output.old) octets.now
        (run_state O.Outlet V.Drain reassembly.new output.new)) }
{
    match reassembly.step_reading(reading, octets, output) {
        Ok(chosen) => {
            output.totals.add_record(chosen);
            Ok(())
        }
        Err(StepFault::Sink(fault)) => Err(fault),
        Err(StepFault::TooMany) => Err(RunFault::TooMany),
        Err(StepFault::Failed) => unreachable!(),
    }
}

impl<O: Outlet, V: Drain> RecordHandler for Output<'_, O, V> {
    ghost use Rattle.tm_tool.specs.code.Stepping.{RefusesRecord, RunFixture, RunState, TakesRecords, run_fixture, run_state};

    type Progress = Reassembly;

    ghost Known = { RunState O.Held };

    ghost Fixed = { RunFixture O.Fixed };

    ghost known = { run_state O.Outlet V.Drain };

    ghost fixed = { run_fixture O.Outlet V.Drain };

    ghost size = { λ f. record_length_of f.rules.layout };

    ghost count = { λ known. known.work.state.records };

    ghost ready = { IsGoing };

    ghost takes = { λ f. TakesRecords O.grows (O.text f.output.texts) };

    ghost refuses = { λ f. RefusesRecord O.grows (O.text f.output.texts) O.buffering };

    ghost flushed = { λ output. O.passed output.outlet.now × Keeps (V.flushed output.report.now) (V.written output.report.now) };

    fn records(&self, progress: &Reassembly) -> u32 {
        progress.records()
    }

    fn handle_record(&mut self, progress: &mut Reassembly, octets: &[u8]) -> Result<(), RunFault> {
        let reading = progress.read(octets);
        handle_reading(progress, reading, octets, self)
    }

    fn flush_all(&mut self, _progress: &Reassembly) -> Result<(), RunFault> {
        self.flush()
    }
}

/// Writes what the ending has after the records: a closed end has its items, and then the groups that are open.
pub(crate) fn end<O: Outlet, V: Drain>(
    reassembly: &Reassembly,
    rest: usize,
    output: &mut Output<'_, O, V>,
    ending: Ending,
) -> Result<(), RunFault>
    requires rest { rest < record_length_of reassembly.now.rules.layout }
    requires going { reassembly.now.failed ≡ false }
    ensures same { fixture O.Outlet V.Drain output.new ≡ fixture O.Outlet V.Drain output.old }
    ensures kept { OnOk result (kept_of ending (work_of reassembly.now output.new.tracker.now)
        ≡ kept_of ending (work_of reassembly.now output.old.tracker.now)) }
    ensures written { Written O.grows O.buffering (output_both O.Outlet V.Drain output.old)
        (output_both O.Outlet V.Drain output.new)
        (end_pieces (O.text (O.fixed output.old.outlet.now)) ending (work_of reassembly.now output.old.tracker.now) rest) result }
    ensures counted { OnOk result (output.new.totals ≡ with_end (O.text (O.fixed output.old.outlet.now)) ending
        (work_of reassembly.now output.old.tracker.now) rest output.old.totals) }
{
    let Ending::Close = ending else {
        return Ok(());
    };
    let records = reassembly.records();
    match reassembly.close(rest, output) {
        Ok(()) => output.write_all_unclosed(records),
        Err(StepFault::Sink(fault)) => Err(fault),
        Err(StepFault::TooMany | StepFault::Failed) => unreachable!(),
    }
}

// The channel is chosen, and no good frame of it came by now.
fn is_absent(reassembly: &Reassembly, channel: u8) -> bool
    requires going { reassembly.now.failed ≡ false }
    requires channel { channel < 8 }
    ensures { result ≡ is_absent (work_of reassembly.now []) channel }
{
    reassembly.channels().has(channel) && reassembly.last_count(channel).is_none()
}

/// For each channel whether it is absent.
pub(crate) fn absent_channels(reassembly: &Reassembly) -> [bool; 8]
    requires going { reassembly.now.failed ≡ false }
    ensures { result ≡ absent_channels (work_of reassembly.now []) }
{
    [
        is_absent(reassembly, 0),
        is_absent(reassembly, 1),
        is_absent(reassembly, 2),
        is_absent(reassembly, 3),
        is_absent(reassembly, 4),
        is_absent(reassembly, 5),
        is_absent(reassembly, 6),
        is_absent(reassembly, 7),
    ]
}

// Takes what the ending reads of the recording, ends it, and flushes. Answers what was given and lost, in numbers.
fn handle_recording<R: BufferedSource, O: Outlet, V: Drain>(
    reassembly: &mut Reassembly,
    buffer: &mut [u8],
    recording: &mut R,
    output: &mut Output<'_, O, V>,
    ending: Ending,
) -> Result<Totals, RunFault>
    requires exact { length buffer.old ≡ record_length_of reassembly.old.rules.layout }
    requires some { 0 < length buffer.old }
    requires going { IsGoing reassembly.old }
    requires begun { output.old.totals ≡ no_totals }
    ensures same { fixture O.Outlet V.Drain output.new ≡ fixture O.Outlet V.Drain output.old }
    ensures exact { length buffer.new ≡ length buffer.old }
    ensures going_on { OnOk result (IsGoing reassembly.new × (reassembly.new.rules ≡ reassembly.old.rules)) }
    ensures runs { RunHasEnded (O.text (O.fixed output.old.outlet.now)) ending (work_of reassembly.old output.old.tracker.now)
        (work_of reassembly.new output.new.tracker.now) O.grows O.buffering
        (output_devices R.BufferedSource O.Outlet V.Drain recording.old output.old)
        (output_devices R.BufferedSource O.Outlet V.Drain recording.new output.new) result }
    ensures flushed_out { OnOk result (O.passed output.new.outlet.now) }
    ensures flushed_report { OnOk result (Keeps (V.flushed output.new.report.now) (V.written output.new.report.now)) }
{
    let rest = match handle_records(reassembly, buffer, recording, output, ending) {
        Ok(rest) => rest,
        Err(fault) => return Err(fault),
    };
    if let Err(fault) = end(reassembly, rest, output, ending) {
        return Err(fault);
    }
    if let Err(fault) = output.flush() {
        return Err(fault);
    }
    output.totals.absent = absent_channels(reassembly);
    Ok(output.totals)
}

/// Runs over a recording by a job's extractor, into an outlet and a report. Answers what was given and lost, in numbers.
pub(crate) fn run_into<R: BufferedSource, O: Outlet, V: Drain>(
    extractor: &mut Extractor,
    recording: &mut R,
    outlet: &mut O,
    report: &mut V,
    ending: Ending,
) -> Result<Totals, RunFault>
    requires ready { IsReady extractor.old }
    ensures ready { OnOk result (IsReady extractor.new) }
    ensures runs { RunHasEnded (O.text (O.fixed outlet.old)) ending (work_in extractor.old) (work_in extractor.new)
        O.grows O.buffering (outlet_devices R.BufferedSource O.Outlet V.Drain recording.old outlet.old report.old)
        (outlet_devices R.BufferedSource O.Outlet V.Drain recording.new outlet.new report.new) result }
    ensures same_out { O.fixed outlet.new ≡ O.fixed outlet.old }
    ensures same_report { V.fixed report.new ≡ V.fixed report.old }
    ensures flushed_out { OnOk result (O.passed outlet.new) }
    ensures flushed_report { OnOk result (Keeps (V.flushed report.new) (V.written report.new)) }
{
    let Extractor {
        reassembly,
        tracker,
        buffer,
        lines,
        ..
    } = extractor;
    let mut output = Output {
        tracker,
        notes: lines,
        outlet,
        report,
        totals: Totals::none(),
    };
    handle_recording(
        reassembly,
        buffer.as_mut_slice(),
        recording,
        &mut output,
        ending,
    )
}
