//! What is checked before anything is read or made: the standard streams, the names of the files, and the folder.

ghost use Rattle.std.specs.Prelude.{◌≡◌, ◌⊎◌, IfErr, OnOk};
ghost use Rattle.tm_files.specs.code.Decisions.{IsOfStreams, stream_fault_of};
ghost use Rattle.tm_files.specs.code.Files.{HasFault, IsNoMemory, IsRunFault};
ghost use Rattle.tm_files.specs.Names.{AreClear};

use crate::decisions::{Stream, stream_fault, writes_errors, writes_output};
use crate::identities::identify_files;
use crate::names::{Checked, check_errors, check_names};
use std::fs;
use std::io::{self, ErrorKind, Write};
use std::rt::Files;
use tm_arguments::Plan;
use tm_faults::{RunFault, ToolFault};

// The system's number of the error that a file isn't open: EBADF.
const CLOSED: i32 = 9;

// A writer of a standard stream is closed: a file that is opened would take its place.
fn is_closed<W: Write>(writer: &mut W) -> bool {
    match writer.write(&[]) {
        Ok(_) => false,
        Err(error) => error.raw_os_error() == Some(CLOSED),
    }
}

// The standard stream that has this writer is open.
fn check_stream<W: Write>(stream: Stream, writer: &mut W) -> Result<(), ToolFault>
    ensures { IfErr result (λ fault. fault ≡ stream_fault_of stream) }
{
    if is_closed(writer) {
        return Err(stream_fault(stream));
    }
    Ok(())
}

/// The standard streams to which the plan writes are open.
pub fn check_streams<R: Print, E: Write>(
    rt: &R,
    plan: &Plan,
    errors: &mut E,
) -> Result<(), ToolFault>
    ensures { IfErr result (IsOfStreams plan.now) }
{
    if writes_output(plan) {
        check_stream(Stream::Output, &mut io::writer(rt))?;
    }
    if writes_errors(plan) {
        check_stream(Stream::Errors, errors)?;
    }
    Ok(())
}

/// Standard error is no file that the plan reads, as the folders are now.
pub fn check_standard_error<R: Files + AllocGlobal>(rt: &R, plan: &Plan) -> Result<(), ToolFault>
    ensures { IfErr result (λ fault. IsNoMemory fault ⊎ (fault ≡ ToolFault.Errors)) }
{
    let identities = identify_files(rt, plan)?;
    let checked = check_errors(&identities);
    drop(identities);
    checked
}

/// The names of the plan's files, with what they stand for now, pass `check_names`.
pub fn check_file_names<R: Files + AllocGlobal>(rt: &R, plan: &Plan) -> Result<Checked, ToolFault>
    ensures ok { OnOk result (AreClear plan.now) }
    ensures refused { IfErr result (λ fault. HasFault plan.now.report fault ⊎ HasFault plan.now.checkpoint fault
        ⊎ IsRunFault fault) }
{
    let identities = identify_files(rt, plan)?;
    let checked = check_names(rt.alloc(), plan, &identities);
    drop(identities);
    checked
}

/// The folder that the packets go to is there, where the plan has one. A name that is empty or no text is refused where it is used.
pub fn check_folder<R: Files + AllocGlobal>(rt: &R, plan: &Plan) -> Result<(), ToolFault>
    ensures { IfErr result IsRunFault }
{
    let Some(dir) = &plan.dir else {
        return Ok(());
    };
    let path = match std::str::from_utf8(dir.as_slice()) {
        Ok(path) if !path.is_empty() => path,
        _ => return Ok(()),
    };
    match fs::metadata(rt, path) {
        Ok(metadata) if metadata.is_dir() => Ok(()),
        Err(error) if error.kind() == ErrorKind::OutOfMemory => {
            Err(ToolFault::Run(RunFault::NoMemory))
        }
        Ok(_) | Err(_) => Err(ToolFault::Run(RunFault::Write)),
    }
}
