//! The order of steps: the arguments, the checks, what is read and opened, the run, and the checkpoint that it leaves. No large step
//! is inlined, so that each takes its stack only while it runs.

ghost use Rattle.std.specs.Prelude.{◌≡◌, ◌⊎◌, IfErr, IfOk, IfSome, MatchOption, OnOk, map, option_map, string_bytes};
ghost use Rattle.tm_arguments.specs.CommandLine.{HasRequired};
ghost use Rattle.tm_files.specs.code.Files.{IsRunFault};
ghost use Rattle.tm_files.specs.code.Replacements.{replaced_name};
ghost use Rattle.tm_files.specs.Names.{AreClear};
ghost use Rattle.tm_output.specs.Pieces.{text_of};
ghost use Rattle.tm_program.specs.code.Blames.{IsBlamed, IsBlamedBeside};
ghost use Rattle.tm_program.specs.code.Endings.{HasCheckpoint, HasDone, HasShown, IsDone, IsListFound, IsTaskDone};
ghost use Rattle.tm_program.specs.code.Faults.{HasFolderFault, IsFolderFault, IsOfOutputs};
ghost use Rattle.tm_program.specs.code.Tasks.{IsJob, IsTask, folder_texts};
ghost use Rattle.tm_program.specs.Found.{Finds, HasFound, ending_of};
ghost use Rattle.tm_program.specs.Program.{IsAsked, MayCome, MayEnd};

use crate::checkpoint_file::{begin_checkpoint, choose_ending, end_checkpoint, make_job};
use crate::folder::{make_shelf, split_packets};
use crate::inputs::{Inputs, prepare_inputs};
use crate::outcome::{Finished, Found, ProgramOutcome};
use crate::task::{Destination, JobInputs, Overview, Task};
use std::alloc::Global;
use std::io::{self, BufWriter, Write};
use std::rt::Files;
use tm_arguments::{Plan, plan};
use tm_faults::ToolFault;
use tm_files::{
    Checked, Recording, Report, check_file_names, check_folder, choose_recording, identify_files,
    make_drain, open_recording, open_report, source_of_input, writes_errors,
};
use tm_tool::{
    BufferedSource, Command, CountedRun, Drain, Ending, Job, Octets, Settings, Writing,
    list_recording, run_and_count, sum_up,
};

// The plan of the arguments.
fn read_arguments(alloc: Global, arguments: Vec<String>) -> Result<Plan, ToolFault>
    ensures ok { IfOk result (IsAsked (map string_bytes arguments.items)) }
    ensures refused { IfErr result (MayEnd (map string_bytes arguments.items)) }
{
    match plan(alloc, arguments) {
        Ok(plan) => Ok(plan),
        Err(fault) => Err(ToolFault::Usage(fault)),
    }
}

// Lists the frames of a recording, or sums it up, and answers what was found.
fn list_to<S: BufferedSource, W: Drain>(
    alloc: Global,
    overview: Overview,
    settings: &Settings,
    source: &mut S,
    out: &mut W,
) -> Result<Found, ToolFault>
    ensures listed { IfOk result (HasShown overview settings.now (S.left source.old) (S.left source.new) (W.written out.old)
        (W.written out.new)) }
    ensures blamed { IfErr result (IsBlamed (S.failures source.old) (S.failures source.new) (W.failures out.old)
        (W.failures out.new)) }
    ensures refused { IfErr result IsRunFault }
{
    match overview {
        Overview::Summary => match sum_up(alloc, settings, source, out) {
            Ok(summed) => Ok(Found::Summary(summed)),
            Err(fault) => Err(ToolFault::Run(fault)),
        },
        Overview::Frames => match list_recording(alloc, settings, source, out) {
            Ok(listed) => Ok(Found::Frames(listed)),
            Err(fault) => Err(ToolFault::Run(fault)),
        },
    }
}

// Lists the frames of a recording, or sums it up, on standard output.
#[inline(never)]
#[tactic(auto, using(tm_files::proofs::FaultLemmas::no_memory_run, crate::proofs::EndingLemmas::found_of_shown))]
fn list<R: Print + AllocGlobal, S: BufferedSource>(
    rt: &R,
    overview: Overview,
    settings: &Settings,
    source: &mut S,
) -> Result<Found, ToolFault>
    ensures found { IfOk result (IsListFound overview) }
    ensures refused { IfErr result IsRunFault }
{
    let alloc = rt.alloc();
    let mut out = make_drain(alloc, io::writer(rt))?;
    match list_to(alloc, overview, settings, source, &mut out) {
        Ok(found) => Ok(found),
        Err(fault) => Err(fault),
    }
}

// Goes on with a job up to its ending, and gives its packets on standard output.
#[inline(never)]
#[tactic(auto, using(tm_files::proofs::FaultLemmas::no_memory_run, crate::proofs::BlameLemmas::run_blames, crate::proofs::BlameLemmas::no_memory_blames, crate::proofs::EndingLemmas::ran_done))]
fn give_packets<R: Print + AllocGlobal, S: BufferedSource, V: Drain>(
    rt: &R,
    job: Job,
    command: Command<'_>,
    ending: Ending,
    source: &mut S,
    report: &mut V,
) -> Result<CountedRun, ToolFault>
    ensures done { IfOk result (IsDone (text_of command.entry) ending job.work) }
    ensures blamed { IfErr result (IsBlamedBeside (S.failures source.old) (S.failures source.new) (V.failures report.old)
        (V.failures report.new)) }
    ensures refused { IfErr result IsRunFault }
{
    let alloc = rt.alloc();
    let mut out = make_drain(alloc, io::writer(rt))?;
    match run_and_count(alloc, job, command, source, &mut out, report, ending) {
        Ok(done) => Ok(done),
        Err(fault) => Err(ToolFault::Run(fault)),
    }
}

// Goes on with a job up to the plan's ending, and gives its packets to the files of a folder. Names are looked up anew, now that the report
// is made: before, it may have been none.
#[tactic(auto, using(tm_files::proofs::FaultLemmas::no_memory_run))]
fn fill_folder<R: Files + AllocGlobal, S: BufferedSource, V: Drain>(
    rt: &R,
    plan: &Plan,
    dir: &Octets,
    job: Job,
    source: &mut S,
    report: &mut V,
) -> Result<CountedRun, ToolFault>
    ensures done { IfOk result (IsDone folder_texts (ending_of plan.now) job.work) }
    ensures refused { IfErr result (λ fault. IsRunFault fault ⊎ IsFolderFault dir.now fault) }
{
    let identities = identify_files(rt, plan)?;
    let mut shelf = make_shelf(rt, plan, dir, &identities)?;
    split_packets(rt, job, choose_ending(plan), &mut shelf, source, report)
}

// Does the job to where the packets go.
#[tactic(auto, using(tm_files::proofs::FaultLemmas::no_memory_run, crate::proofs::ProgramLemmas::split_there))]
fn run_to_destination<R: Files + Print + AllocGlobal, S: BufferedSource, V: Drain>(
    rt: &R,
    plan: &Plan,
    settings: &Settings,
    job: JobInputs<'_>,
    source: &mut S,
    report: &mut V,
) -> Result<CountedRun, ToolFault>
    requires { IsJob plan.now settings.now job }
    ensures done { IfOk result (HasDone plan.now settings.now job.entry) }
    ensures refused { IfErr result (λ fault. IsRunFault fault ⊎ HasFolderFault plan.now.dir fault) }
{
    let JobInputs {
        destination,
        resumed,
    } = job;
    let job = make_job(rt, resumed, settings)?;
    match &destination {
        Destination::Output(form) => {
            give_packets(rt, job, form.command(), choose_ending(plan), source, report)
        }
        Destination::Folder(dir) => fill_folder(rt, plan, dir, job, source, report),
    }
}

// The number of records that are done before the run.
fn records_before(resumed: &Option<Job>) -> u32 {
    match resumed {
        Some(job) => job.records(),
        None => 0,
    }
}

// Looks at the folder of the plan, and makes its report. Its names were checked.
#[tactic(auto, using(tm_files::proofs::FaultLemmas::no_memory_run))]
fn make_report<R: Files + AllocGlobal, E: Write + Drop>(
    rt: &R,
    plan: &Plan,
    checked: Checked,
    errors: E,
) -> Result<Writing<BufWriter<Report<R::File, E>>>, ToolFault>
    ensures { IfErr result (IsOfOutputs plan.now) }
{
    check_folder(rt, plan)?;
    let report = open_report(rt, plan, checked, errors)?;
    make_drain(rt.alloc(), report)
}

// Does the job over the recording, and answers what is done. The file of the plan's checkpoint is made ready before the
// run, and replaced after it in any case, also where no record is done.
#[tactic(auto, using(crate::proofs::ProgramLemmas::run_ends, crate::proofs::EndingLemmas::file_of_done, crate::proofs::EndingLemmas::found_of_done))]
fn run_job<'p, R: Files + Print + AllocGlobal, S: BufferedSource, V: Drain>(
    rt: &R,
    plan: &'p Plan,
    settings: &Settings,
    job: JobInputs<'_>,
    source: &mut S,
    report: &mut V,
) -> Result<Finished<'p>, ToolFault>
    requires { IsJob plan.now settings.now job }
    ensures done { IfOk result (λ finished. MatchOption finished.done ⊥ (HasDone plan.now settings.now job.entry)) }
    ensures checkpoint { IfOk result (λ finished. option_map replaced_name finished.replaced ≡ plan.now.checkpoint) }
    ensures octets { IfOk result (λ finished. IfSome finished.done (λ done. IfSome finished.replaced (HasCheckpoint done))) }
    ensures found { IfOk result (λ finished. Finds plan.now finished.found) }
    ensures refused { IfErr result (IsOfOutputs plan.now) }
{
    let before = records_before(&job.resumed);
    match begin_checkpoint(rt, plan) {
        Ok(replacement) => {
            let done = run_to_destination(rt, plan, settings, job, source, report);
            end_checkpoint(rt, replacement, done, before)
        }
        Err(fault) => Err(fault),
    }
}

// Checks the names of the plan's files, does its task with the recording, and answers what its job has done, if it has one.
#[inline(never)]
#[tactic(auto, using(crate::proofs::ProgramLemmas::names_come, crate::proofs::EndingLemmas::list_found))]
fn run_on_recording<'p, R: Files + Print + AllocGlobal, S: BufferedSource, E: Write + Drop>(
    rt: &R,
    plan: &'p Plan,
    settings: &Settings,
    task: Task<'_>,
    source: &mut S,
    errors: &mut E,
) -> Result<Finished<'p>, ToolFault>
    requires { IsTask plan.now settings.now task }
    ensures ok { OnOk result (AreClear plan.now) }
    ensures done { IfOk result (λ finished. IsTaskDone plan.now settings.now task.entry finished.done) }
    ensures checkpoint { IfOk result (λ finished. IfSome finished.done
        (λ done. option_map replaced_name finished.replaced ≡ plan.now.checkpoint)) }
    ensures octets { IfOk result (λ finished. IfSome finished.done (λ done. IfSome finished.replaced (HasCheckpoint done))) }
    ensures found { IfOk result (λ finished. Finds plan.now finished.found) }
    ensures refused { IfErr result (IsOfOutputs plan.now) }
{
    let checked = check_file_names(rt, plan)?;
    match task {
        Task::Overview(overview) => Ok(Finished {
            done: None,
            replaced: None,
            found: list(rt, overview, settings, source)?,
        }),
        Task::Job(job) => {
            let mut report = make_report(rt, plan, checked, errors)?;
            run_job(rt, plan, settings, job, source, &mut report)
        }
    }
}

// Does what the plan asks for, once its files are read, and answers what came of the run.
#[inline(never)]
#[tactic(auto, using(tm_files::proofs::FaultLemmas::no_memory_run, crate::proofs::ProgramLemmas::file_comes, crate::proofs::ProgramLemmas::outputs_come, crate::proofs::ProgramLemmas::run_comes))]
fn run_prepared<R: Files + Input + Print + AllocGlobal, E: Write + Drop>(
    rt: &R,
    plan: &Plan,
    inputs: Inputs<'_>,
    errors: &mut E,
) -> Result<ProgramOutcome, ToolFault>
    requires { IsTask plan.now inputs.settings inputs.task }
    ensures ok { IfOk result (λ outcome. AreClear plan.now × HasFound plan.now outcome) }
    ensures refused { IfErr result (MayCome plan.now) }
{
    let Inputs { settings, task } = inputs;
    let finished = match choose_recording(plan) {
        Recording::File(name) => match open_recording(rt, name) {
            Ok(mut source) => run_on_recording(rt, plan, &settings, task, &mut source, errors),
            Err(fault) => Err(fault),
        },
        Recording::Input => match source_of_input(rt) {
            Ok(mut source) => run_on_recording(rt, plan, &settings, task, &mut source, errors),
            Err(fault) => Err(fault),
        },
    };
    let has_all_channels = settings.channels().mask() == u8::MAX;
    drop(settings);
    match finished {
        Ok(finished) => Ok(ProgramOutcome {
            found: finished.into_found(),
            strict: plan.strict,
            reports_to_errors: writes_errors(plan),
            has_all_channels,
        }),
        Err(fault) => Err(fault),
    }
}

// Reads the files of the plan, does what it asks for, and answers what came of the run.
fn run_plan<R: Files + Input + Print + AllocGlobal, E: Write + Drop>(
    rt: &R,
    plan: &Plan,
    errors: &mut E,
) -> Result<ProgramOutcome, ToolFault>
    requires { HasRequired plan.now }
    ensures ok { IfOk result (λ outcome. AreClear plan.now × HasFound plan.now outcome) }
    ensures refused { IfErr result (MayCome plan.now) }
{
    match prepare_inputs(rt, plan, errors) {
        Ok(inputs) => run_prepared(rt, plan, inputs, errors),
        Err(fault) => Err(fault),
    }
}

/// Does what these arguments of the command line ask for, and answers what came of the run: what it found, and whether its status is to say so.
/// A report that has no file goes to `errors`, all of it before this returns.
///
/// # Errors
///
/// `Usage` where the arguments are no plan; else a fault of a file that the plan names, of what the file says, or of the run.
#[tactic(auto, using(crate::proofs::ProgramLemmas::plan_ends))]
pub fn run<R: Files + Input + Print + AllocGlobal, E: Write + Drop>(
    rt: &R,
    arguments: Vec<String>,
    mut errors: E,
) -> Result<ProgramOutcome, ToolFault>
    ensures ok { IfOk result (λ outcome. (p : Plan) × IsAsked (map string_bytes arguments.items) p × AreClear p
        × HasFound p outcome) }
    ensures refused { IfErr result (MayEnd (map string_bytes arguments.items)) }
{
    let plan = read_arguments(rt.alloc(), arguments)?;
    let outcome = run_plan(rt, &plan, &mut errors);
    drop(plan);
    outcome
}
