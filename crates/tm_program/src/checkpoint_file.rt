//! The job that a run goes on with, where the run ends, and the file that takes its checkpoint.

ghost use Rattle.std.specs.Prelude.{◌≡◌, ◌⊎◌, Err, Ok, IfErr, IfOk, IfSome, MatchOption, option_map};
ghost use Rattle.tm_checkpoint.specs.Works.{new_job};
ghost use Rattle.tm_program.specs.code.Endings.{FindsDone, HasCheckpoint, requested_checkpoint};
ghost use Rattle.tm_program.specs.Found.{ending_of, work_from};
ghost use Rattle.tm_files.specs.code.Files.{HasFault, IsNoMemory};
ghost use Rattle.tm_files.specs.code.Replacements.{replaced_name, replacement_name};

use crate::outcome::{Finished, Found};
use std::rt::Files;
use tm_arguments::Plan;
use tm_faults::ToolFault;
use tm_files::{Replaced, Replacement, abandon_replacement, begin_replacement, finish_replacement};
use tm_tool::{CountedRun, Ending, Job, RunFault, Settings};

/// Where the run of the plan ends: after its number of records, or at the end of the recording. That is closed there unless the plan names a
/// checkpoint.
pub fn choose_ending(plan: &Plan) -> Ending
    ensures { result ≡ ending_of plan.now }
{
    match (&plan.checkpoint, plan.stop_after) {
        (Some(_), Some(records)) => Ending::StopAfter(records),
        (Some(_), None) => Ending::Keep,
        (None, _) => Ending::Close,
    }
}

/// The job to go on with, or else a new one.
pub fn make_job<R: AllocGlobal>(
    rt: &R,
    resumed: Option<Job>,
    settings: &Settings,
) -> Result<Job, ToolFault>
    ensures job { MatchOption resumed (IfOk result (λ job. job ≡ new_job settings.now)) (λ job. result ≡ Ok job) }
    ensures work { IfOk result (λ job. job.work ≡ work_from settings.now resumed) }
    ensures refused { IfErr result IsNoMemory }
{
    match resumed {
        Some(job) => Ok(job),
        None => match Job::new(rt.alloc(), settings) {
            Ok(job) => Ok(job),
            Err(_) => Err(ToolFault::Run(RunFault::NoMemory)),
        },
    }
}

/// Makes the file beside that of the plan's checkpoint, where the plan has one. So a checkpoint that can't be written is refused before the run.
pub fn begin_checkpoint<'p, R: Files + AllocGlobal>(
    rt: &R,
    plan: &'p Plan,
) -> Result<Option<Replacement<'p, R::File>>, ToolFault>
    ensures file { IfOk result (λ found. option_map replacement_name found ≡ plan.now.checkpoint) }
    ensures refused { IfErr result (HasFault plan.now.checkpoint) }
{
    match &plan.checkpoint {
        Some(name) => Ok(Some(begin_replacement(rt, name)?)),
        None => Ok(None),
    }
}

// Removes that file again, where the run ended with a fault.
fn abandon_checkpoint<R: Files>(rt: &R, replacement: Option<Replacement<'_, R::File>>) {
    if let Some(replacement) = replacement {
        abandon_replacement(rt, replacement);
    }
}

// Writes the checkpoint of the job that a run kept, and answers which file it replaced. No contract can say what the file then holds.
#[tactic(auto, using(tm_files::proofs::FaultLemmas::no_memory_there))]
fn store_checkpoint<'p, R: Files + AllocGlobal>(
    rt: &R,
    replacement: Option<Replacement<'p, R::File>>,
    done: &CountedRun,
) -> Result<Option<Replaced<'p>>, ToolFault>
    ensures replaced { IfOk result (λ found. option_map replaced_name found
        ≡ requested_checkpoint (option_map replacement_name replacement.entry) done.now.kept) }
    ensures octets { IfOk result (λ found. IfSome found (HasCheckpoint done.now)) }
    ensures refused { IfErr result (HasFault (option_map replacement_name replacement.entry)) }
{
    let Some(replacement) = replacement else {
        return Ok(None);
    };
    let Some(job) = &done.kept else {
        abandon_replacement(rt, replacement);
        return Ok(None);
    };
    match job.checkpoint(rt.alloc()) {
        Ok(octets) => Ok(Some(finish_replacement(rt, replacement, octets)?)),
        Err(_) => {
            abandon_replacement(rt, replacement);
            Err(ToolFault::Run(RunFault::NoMemory))
        }
    }
}

// What a job has found that did this, where this many records were done before.
fn findings_of(done: &CountedRun, before: u32) -> Found
    ensures { FindsDone done.now result }
{
    Found::Packets {
        records: done.records.saturating_sub(before),
        totals: done.totals,
    }
}

/// Ends what was begun for the checkpoint, once the job has run: its file takes the checkpoint, or is removed again. Answers what the run did.
/// This many records were done before it.
pub(crate) fn end_checkpoint<'p, R: Files + AllocGlobal>(
    rt: &R,
    replacement: Option<Replacement<'p, R::File>>,
    done: Result<CountedRun, ToolFault>,
    before: u32,
) -> Result<Finished<'p>, ToolFault>
    ensures done { IfOk result (λ finished. MatchOption finished.done ⊥ (λ it. done ≡ Ok it)) }
    ensures replaced { IfOk result (λ finished. IfSome finished.done (λ it. option_map replaced_name finished.replaced
        ≡ requested_checkpoint (option_map replacement_name replacement.entry) it.kept)) }
    ensures octets { IfOk result (λ finished. IfSome finished.done (λ it. IfSome finished.replaced (HasCheckpoint it))) }
    ensures found { IfOk result (λ finished. MatchOption finished.done ⊥ (λ it. FindsDone it finished.found)) }
    ensures refused { IfErr result (λ fault. HasFault (option_map replacement_name replacement.entry) fault ⊎ (done ≡ Err fault)) }
{
    match done {
        Ok(done) => match store_checkpoint(rt, replacement, &done) {
            Ok(replaced) => Ok(Finished {
                found: findings_of(&done, before),
                done: Some(done),
                replaced,
            }),
            Err(fault) => {
                drop(done);
                Err(fault)
            }
        },
        Err(fault) => {
            abandon_checkpoint(rt, replacement);
            Err(fault)
        }
    }
}
