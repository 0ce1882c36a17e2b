//! Packets to a file for each application: the folder's files, and what splitting ends with.

ghost use Rattle.std.specs.Prelude.{◌≡◌, ◌≢◌, ◌⊎◌, [], Ok, IfErr, IfOk, OnOk, is_some};
ghost use Rattle.tm_files.specs.code.Files.{IsFileFault, IsRunFault};
ghost use Rattle.tm_program.specs.code.Blames.{IsBlamedBeside, IsPutFault, IsSplitEnd, held_fault_of};
ghost use Rattle.tm_program.specs.code.Endings.{IsDone};
ghost use Rattle.tm_program.specs.code.Faults.{IsFolderFault};
ghost use Rattle.tm_program.specs.code.Tasks.{folder_texts};
ghost use Rattle.tm_split_files.specs.Shelves.{HoldsNone};

use std::alloc::Global;
use std::rt::Files;
use tm_arguments::Plan;
use tm_faults::ToolFault;
use tm_file_identity::FileIdentities;
use tm_files::file_fault;
use tm_split_files::{FileShelf, RefusedPut, ShelfFault, name_in};
use tm_tool::{BufferedSource, CountedRun, Drain, Ending, Job, Octets, RunFault, split_and_count};

// The files for the applications in this folder, appended to if the plan resumes a job. None is one of the run's other
// files. An empty name is none: it would stand for the root.
pub(crate) fn make_shelf<'a, R: Files + AllocGlobal>(
    rt: &'a R,
    plan: &Plan,
    dir: &'a Octets,
    identities: &'a FileIdentities,
) -> Result<FileShelf<'a, R>, ToolFault>
    ensures folder { IfOk result (λ s. (s.folder ≡ dir.now) × (s.goes_on ≡ is_some plan.now.resume)
        × (s.identities ≡ identities.now) × (dir.now ≢ [])) }
    ensures refused { IfErr result (IsFileFault dir.now) }
{
    let path = match std::str::from_utf8(dir.as_slice()) {
        Ok(path) if !path.is_empty() => path,
        _ => return Err(file_fault(rt.alloc(), dir)),
    };
    match FileShelf::new(rt, path, plan.resume.is_some(), identities) {
        Ok(shelf) => Ok(shelf),
        Err(_) => Err(ToolFault::Run(RunFault::NoMemory)),
    }
}

// The fault of the last put into the folder, which the shelf refused.
fn fault_of_put(alloc: Global, dir: &str, put: Option<RefusedPut>) -> ToolFault
    ensures fault { IsPutFault dir.now put result }
    ensures refused { IsRunFault result ⊎ IsFolderFault dir.now result }
{
    let Some(put) = put else {
        return ToolFault::Run(RunFault::Write);
    };
    match put.fault {
        ShelfFault::NoMemory => ToolFault::Run(RunFault::NoMemory),
        ShelfFault::NotWritten => ToolFault::Run(RunFault::Write),
        ShelfFault::Clashes => match name_in(alloc, dir, put.application) {
            Ok(name) => ToolFault::File(Octets::new(name.into_bytes())),
            Err(_) => ToolFault::Run(RunFault::NoMemory),
        },
    }
}

// The fault of octets that were held and can't be written.
fn fault_of_held(fault: ShelfFault) -> RunFault
    ensures { result ≡ held_fault_of fault }
{
    match fault {
        ShelfFault::NoMemory => RunFault::NoMemory,
        ShelfFault::NotWritten | ShelfFault::Clashes => RunFault::Write,
    }
}

// What splitting into the folder ends with, once what the shelf holds is written.
fn split_end(
    alloc: Global,
    dir: &str,
    put: Option<RefusedPut>,
    done: Result<CountedRun, RunFault>,
    written: Result<(), ShelfFault>,
) -> Result<CountedRun, ToolFault>
    ensures done { IfOk result (λ d. done ≡ Ok d) }
    ensures written { OnOk result (written ≡ Ok tt) }
    ensures refused { IfErr result (λ fault. IsRunFault fault ⊎ IsFolderFault dir.now fault) }
    ensures end { IsSplitEnd done written dir.now put result }
{
    match (done, written) {
        (Ok(done), Ok(())) => Ok(done),
        (Ok(done), Err(fault)) => {
            drop(done);
            Err(ToolFault::Run(fault_of_held(fault)))
        }
        (Err(RunFault::Write), _) => Err(fault_of_put(alloc, dir, put)),
        (Err(fault), _) => Err(ToolFault::Run(fault)),
    }
}

// Goes on with a job up to its ending, and gives its packets to a file for each application. Not inlined, as the large steps of `steps.rt`.
#[inline(never)]
#[tactic(auto, using(crate::proofs::BlameLemmas::split_blames))]
pub(crate) fn split_packets<R: Files + AllocGlobal, S: BufferedSource, V: Drain>(
    rt: &R,
    job: Job,
    ending: Ending,
    shelf: &mut FileShelf<'_, R>,
    source: &mut S,
    report: &mut V,
) -> Result<CountedRun, ToolFault>
    ensures done { IfOk result (IsDone folder_texts ending job.work) }
    ensures written { OnOk result (HoldsNone shelf.new.held) }
    ensures blamed { IfErr result (IsBlamedBeside (S.failures source.old) (S.failures source.new) (V.failures report.old)
        (V.failures report.new)) }
    ensures refused { IfErr result (λ fault. IsRunFault fault ⊎ IsFolderFault shelf.old.folder fault) }
{
    let alloc = rt.alloc();
    let dir = shelf.dir();
    let done = split_and_count(job, source, shelf, report, ending);
    let written = shelf.write_held();
    split_end(alloc, dir, shelf.last_refused(), done, written)
}
