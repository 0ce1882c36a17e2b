//! The run of each command: the head of its rows, and the outlet that it gives packets to.

ghost use Rattle.std.specs.Prelude.{◌≡◌, ◌≢◌, [], true, IfErr, OnOk};
ghost use Rattle.std.specs.Io.KnownBytes.{Appends, Keeps};
ghost use Rattle.tm_output.specs.declared.command.Command.TheVariants.{Extract, Packets};
ghost use Rattle.tm_tool.specs.HeadPieces.{head_pieces};
ghost use Rattle.tm_tool.specs.code.Extractors.{IsReady, work_in};
ghost use Rattle.tm_tool.specs.code.Heads.{HeadStopped, head_text};
ghost use Rattle.tm_output.specs.Pieces.{buffering_of, text_of};
ghost use Rattle.tm_tool.specs.Runs.{devices};
ghost use Rattle.tm_tool.specs.code.Stepping.{RunHasEnded};

use crate::extractor::Extractor;
use crate::recording::run_into;
use crate::{BufferedSource, Command, Drain, Ending, RunFault};
use std::alloc::Global;
use tm_devices::write_all;
use tm_fields::{BinaryRows, Rows};
use tm_lines::LineBuffer;
use tm_output::{BinaryPackets, PacketLines, PacketOctets, PacketRows, PacketTexts, Totals};

/// Writes the head of the command's rows, where that is due, and flushes it if the recording may wait.
pub fn write_csv_head<W: Drain>(
    alloc: Global,
    command: Command<'_>,
    fresh: bool,
    waits: bool,
    out: &mut W,
) -> Result<(), RunFault>
    ensures same { W.fixed out.new ≡ W.fixed out.old }
    ensures whole { OnOk result (Appends (W.written out.old) (W.written out.new) (head_text command.entry fresh)
        × (W.failures out.new ≡ W.failures out.old)) }
    ensures flushed { OnOk result (waits ≡ true → head_pieces command.entry fresh ≢ []
        → Keeps (W.flushed out.new) (W.written out.new)) }
    ensures stopped { IfErr result (λ fault. (head_pieces command.entry fresh ≢ [])
        × HeadStopped (W.written out.old) (W.written out.new) (W.failures out.old) (W.failures out.new)
        (head_text command.entry fresh) fault) }
{
    let Command::Fields(definition, _) = command else {
        return Ok(());
    };
    if !fresh {
        return Ok(());
    }
    let Ok(head) = definition.head(alloc) else {
        return Err(RunFault::NoMemory);
    };
    if let Err(_) = write_all(out, head.as_slice()) {
        return Err(RunFault::Write);
    }
    if !waits {
        return Ok(());
    }
    match out.flush() {
        Ok(()) => Ok(()),
        Err(_) => Err(RunFault::Write),
    }
}

/// Runs over the recording, and gives what the command gives of the packets to a drain. Answers what was given and lost, in numbers.
pub(crate) fn run_command<R: BufferedSource, W: Drain, V: Drain>(
    command: Command<'_>,
    extractor: &mut Extractor,
    recording: &mut R,
    out: &mut W,
    report: &mut V,
    ending: Ending,
) -> Result<Totals, RunFault>
    requires ready { IsReady extractor.old }
    ensures same_out { W.fixed out.new ≡ W.fixed out.old }
    ensures same_report { V.fixed report.new ≡ V.fixed report.old }
    ensures ready { OnOk result (IsReady extractor.new) }
    ensures runs { RunHasEnded (text_of command.entry) ending (work_in extractor.old) (work_in extractor.new)
        Appends (buffering_of command.entry) (devices R.BufferedSource W.Drain V.Drain recording.old out.old report.old)
        (devices R.BufferedSource W.Drain V.Drain recording.new out.new report.new) result }
    ensures flushed_out { OnOk result (Keeps (W.flushed out.new) (W.written out.new)) }
    ensures flushed_report { OnOk result (Keeps (V.flushed report.new) (V.written report.new)) }
{
    match command {
        Command::Extract => {
            let text = PacketOctets;
            let mut outlet = PacketTexts { out, text };
            run_into(extractor, recording, &mut outlet, report, ending)
        }
        Command::Packets => {
            let line = LineBuffer::new();
            let text = PacketLines { line };
            let mut outlet = PacketTexts { out, text };
            run_into(extractor, recording, &mut outlet, report, ending)
        }
        Command::BinaryPackets => {
            let text = BinaryPackets::new();
            let mut outlet = PacketTexts { out, text };
            run_into(extractor, recording, &mut outlet, report, ending)
        }
        Command::Fields(definition, application) => {
            let mut rows = Rows::new(extractor.alloc, definition);
            let mut outlet = PacketRows {
                rows: &mut rows,
                application,
                out,
            };
            run_into(extractor, recording, &mut outlet, report, ending)
        }
        Command::BinaryFields(definition, application) => {
            let mut rows = BinaryRows::new(extractor.alloc, definition);
            let mut outlet = PacketRows {
                rows: &mut rows,
                application,
                out,
            };
            run_into(extractor, recording, &mut outlet, report, ending)
        }
    }
}
