//! What is opened: the recording, the report, and their buffers.

ghost use Rattle.std.specs.Prelude.{◌≡◌, IfErr, IfOk, is_some};
ghost use Rattle.tm_files.specs.code.Files.{HasFault, IsFileFault, IsNoMemory};
ghost use Rattle.tm_files.specs.code.Reports.{is_file};

use crate::decisions::{ReportTarget, choose_report};
use crate::files::{append, create, open};
use crate::names::Checked;
use crate::report::Report;
use std::alloc::Global;
use std::fs::OpenFile;
use std::io::{BufReader, BufWriter, Read, Write};
use std::rt::Files;
use tm_arguments::Plan;
use tm_bits::Octets;
use tm_devices::{Buffered, Seeking, Writing};
use tm_faults::{RunFault, ToolFault};

// The octets of the recording's buffer.
const RECORDING_BUFFER: usize = 131_072;

// The octets of the buffer before an output.
const OUTPUT_BUFFER: usize = 65_536;

// The recording's buffer.
fn make_reader<S: Read + Drop>(alloc: Global, recording: S) -> Result<BufReader<S>, ToolFault>
    ensures left { IfOk result (λ reader. ⟦<BufReader<S> as Read>⟧.remaining reader ≡ S.remaining recording) }
    ensures refused { IfErr result IsNoMemory }
{
    match BufReader::with_capacity(alloc, RECORDING_BUFFER, recording) {
        Ok(reader) => Ok(reader),
        Err(_) => Err(ToolFault::Run(RunFault::NoMemory)),
    }
}

/// A drain into a buffer before the writer. What is in the buffer is written when the drain is dropped, too.
pub fn make_drain<W: Write + Drop>(
    alloc: Global,
    writer: W,
) -> Result<Writing<BufWriter<W>>, ToolFault>
    ensures { IfErr result IsNoMemory }
{
    match BufWriter::with_capacity(alloc, OUTPUT_BUFFER, writer) {
        Ok(writer) => Ok(Writing::new(writer)),
        Err(_) => Err(ToolFault::Run(RunFault::NoMemory)),
    }
}

/// The recording in this file. A regular file never waits; a named pipe or a device may.
pub fn open_recording<R: Files + AllocGlobal>(
    rt: &R,
    name: &Octets,
) -> Result<Seeking<R::File>, ToolFault>
    ensures { IfErr result (IsFileFault name.now) }
{
    let file = open(rt, name)?;
    let waits = !is_regular(&file);
    Ok(Seeking::new(make_reader(rt.alloc(), file)?, waits))
}

// Whether a file is a regular one, as far as the system says so.
fn is_regular<F: OpenFile>(file: &F) -> bool {
    match file.metadata() {
        Ok(metadata) => metadata.is_file(),
        Err(_) => false,
    }
}

/// The recording on standard input.
pub fn source_of_input<R: Input + AllocGlobal>(rt: &R) -> Result<Buffered<R::Reader>, ToolFault>
    ensures { IfErr result IsNoMemory }
{
    Ok(Buffered::new(make_reader(rt.alloc(), rt.reader())?))
}

/// Where the plan wants the report, once its names are checked.
#[tactic(auto, using(crate::proofs::FaultLemmas::fault_there))]
pub fn open_report<R: Files + AllocGlobal, E: Write + Drop>(
    rt: &R,
    plan: &Plan,
    _: Checked,
    errors: E,
) -> Result<Report<R::File, E>, ToolFault>
    ensures file { IfOk result (λ report. is_file report ≡ is_some plan.now.report) }
    ensures refused { IfErr result (HasFault plan.now.report) }
{
    match choose_report(plan) {
        ReportTarget::New(name) => Ok(Report::File(create(rt, name)?)),
        ReportTarget::Append(name) => Ok(Report::File(append(rt, name)?)),
        ReportTarget::Errors => Ok(Report::Errors(errors)),
    }
}
