//! What the names of a plan's files stand for, before any of them is written.

ghost use Rattle.std.specs.Prelude.{IfErr, IfOk, IsSomeAnd, option_map};
ghost use Rattle.tm_file_identity.specs.FileIdentities.{identity_at};
ghost use Rattle.tm_files.specs.code.Files.{IsNoMemory};
ghost use Rattle.tm_files.specs.FileIdentities.{IsOfAny, IsOfPlace};

use crate::decisions::{writes_errors, writes_output};
use crate::names::{name_at, temporary_checkpoint};
use tm_arguments::Plan;
use tm_bits::Octets;
use tm_faults::{RunFault, ToolFault};
use tm_file_identity::{FileIdentities, FileIdentity, Namespace, Place};

/// The name that the system has for the standard input of a process.
pub const INPUT_NAME: &str = "/proc/self/fd/0";

// Those for standard output and standard error.
const OUTPUT_NAME: &str = "/proc/self/fd/1";

const ERRORS_NAME: &str = "/proc/self/fd/2";

// What a path stands for.
fn identify_path<N: Namespace>(names: &N, path: &str) -> Result<FileIdentity, ToolFault>
    ensures identity { IfOk result (N.stands_for names.now path.now) }
    ensures refused { IfErr result IsNoMemory }
{
    match names.find(path) {
        Ok(identity) => Ok(identity),
        Err(_) => Err(ToolFault::Run(RunFault::NoMemory)),
    }
}

// What the name of a file stands for. One that is no text stands for none, nor does no name.
fn identify_name<N: Namespace + AllocGlobal>(
    names: &N,
    name: Option<&Octets>,
) -> Result<FileIdentity, ToolFault>
    ensures identity { IfOk result (IsOfAny (N.stands_for names.now) (option_map (λ n. n.now) name.entry)) }
    ensures refused { IfErr result IsNoMemory }
{
    let Some(name) = name else {
        return Ok(FileIdentity::other(names.alloc()));
    };
    match std::str::from_utf8(name.as_slice()) {
        Ok(path) => identify_path(names, path),
        Err(_) => Ok(FileIdentity::other(names.alloc())),
    }
}

// What the plan's file or stream at a place stands for. Standard input is the recording where no file is named.
fn identify_place<N: Namespace + AllocGlobal>(
    names: &N,
    plan: &Plan,
    place: Place,
) -> Result<FileIdentity, ToolFault>
    ensures identity { IfOk result (IsOfPlace (N.stands_for names.now) plan.now place) }
    ensures refused { IfErr result IsNoMemory }
{
    match place {
        Place::Recording if plan.recording.is_none() => identify_path(names, INPUT_NAME),
        Place::Output if writes_output(plan) => identify_path(names, OUTPUT_NAME),
        Place::Errors if writes_errors(plan) => identify_path(names, ERRORS_NAME),
        Place::Faults => identify_path(names, ERRORS_NAME),
        Place::TemporaryCheckpoint => {
            identify_name(names, temporary_checkpoint(names.alloc(), plan)?.as_ref())
        }
        _ => identify_name(names, name_at(plan, place)),
    }
}

/// What the names of the plan's files, and the standard streams that it reads and writes, stand for now: each identity is that of its name.
pub fn identify_files<N: Namespace + AllocGlobal>(
    names: &N,
    plan: &Plan,
) -> Result<FileIdentities, ToolFault>
    ensures identities { IfOk result (λ s. (place : Place)
        → IsSomeAnd (identity_at s place) (IsOfPlace (N.stands_for names.now) plan.now place)) }
    ensures refused { IfErr result IsNoMemory }
{
    let mut identities = FileIdentities::none(names.alloc());
    for place in Place::ALL {
        identities.set(place, identify_place(names, plan, place)?);
    }
    Ok(identities)
}
