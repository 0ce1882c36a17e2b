//! What is read before the recording: the settings, the definition of fields, and the checkpoint to go on from. What reads a file
//! isn't inlined, so that it takes stack only while it reads.

ghost use Rattle.std.specs.Prelude.{◌≡◌, ◌⊎◌, IfErr, IfOk, IfSome, IsSome, is_some};
ghost use Rattle.tm_arguments.specs.CommandLine.{HasNeeds, HasRequired};
ghost use Rattle.tm_program.specs.Program.{MayCome};
ghost use Rattle.tm_program.specs.code.Faults.{IsOfDefinition, IsOfResumed, IsOfSettings, IsResumed};
ghost use Rattle.tm_program.specs.Found.{row_form};
ghost use Rattle.tm_program.specs.code.Tasks.{IsTask};

use crate::task::{Destination, JobInputs, Overview, PacketForm, Task};
use std::io::Write;
use std::rt::Files;
use tm_arguments::{Action, Plan};
use tm_faults::ToolFault;
use tm_fields::{Definition, RowForm};
use tm_files::{check_standard_error, check_streams, read_file};
use tm_tool::{Job, Settings};

// The settings in the plan's file.
#[inline(never)]
fn read_settings<R: Files + AllocGlobal>(rt: &R, plan: &Plan) -> Result<Settings, ToolFault>
    requires { IsSome plan.now.settings }
    ensures { IfErr result (IsOfSettings plan.now) }
{
    let octets = read_file(rt, plan.settings.as_ref().unwrap())?;
    match Settings::read(rt.alloc(), octets.as_slice()) {
        Ok(settings) => Ok(settings),
        Err(fault) => Err(ToolFault::Settings(fault)),
    }
}

// The definition in the plan's file.
#[inline(never)]
fn read_definition<R: Files + AllocGlobal>(rt: &R, plan: &Plan) -> Result<Definition, ToolFault>
    requires { IsSome plan.now.definition }
    ensures { IfErr result (IsOfDefinition plan.now) }
{
    let octets = read_file(rt, plan.definition.as_ref().unwrap())?;
    match Definition::read(rt.alloc(), octets.as_slice()) {
        Ok(definition) => Ok(definition),
        Err(fault) => Err(ToolFault::Definition(fault)),
    }
}

/// The job of the checkpoint that the plan goes on from, where it has one.
#[inline(never)]
pub fn read_resumed_job<R: Files + AllocGlobal>(
    rt: &R,
    plan: &Plan,
    settings: &Settings,
) -> Result<Option<Job>, ToolFault>
    ensures found { IfOk result (λ found. is_some found ≡ is_some plan.now.resume) }
    ensures job { IfOk result (λ found. IfSome found (IsResumed settings.now)) }
    ensures refused { IfErr result (IsOfResumed plan.now) }
{
    let Some(name) = &plan.resume else {
        return Ok(None);
    };
    let octets = read_file(rt, name)?;
    match Job::resume(rt.alloc(), settings, octets.as_slice()) {
        Ok(job) => Ok(Some(job)),
        Err(fault) => Err(ToolFault::Checkpoint(fault)),
    }
}

// How rows are written.
fn row_form(binary: bool) -> RowForm
    ensures { result ≡ row_form binary }
{
    if binary {
        RowForm::Binary
    } else {
        RowForm::Text
    }
}

// What the plan's action does, with what that needs.
fn read_task<'p, R: Files + AllocGlobal>(
    rt: &R,
    plan: &'p Plan,
    settings: &Settings,
) -> Result<Task<'p>, ToolFault>
    requires { HasNeeds plan.now.action plan.now }
    ensures task { IfOk result (IsTask plan.now settings.now) }
    ensures refused { IfErr result (λ fault. IsOfDefinition plan.now fault ⊎ IsOfResumed plan.now fault) }
{
    let destination = match plan.action {
        Action::Frames => return Ok(Task::Overview(Overview::Frames)),
        Action::Summary => return Ok(Task::Overview(Overview::Summary)),
        Action::Extract => Destination::Output(PacketForm::Octets),
        Action::Packets if plan.binary => Destination::Output(PacketForm::Binary),
        Action::Packets => Destination::Output(PacketForm::Line),
        Action::Fields => {
            let definition = read_definition(rt, plan)?;
            let form = row_form(plan.binary);
            Destination::Output(PacketForm::Row(definition, plan.apid.unwrap(), form))
        }
        Action::Split => Destination::Folder(plan.dir.as_ref().unwrap()),
    };
    let resumed = read_resumed_job(rt, plan, settings)?;
    Ok(Task::Job(JobInputs {
        destination,
        resumed,
    }))
}

// What the files of the plan say.
#[derive(Drop)]
pub(crate) struct Inputs<'p> {
    pub(crate) settings: Settings,
    pub(crate) task: Task<'p>,
}

// Reads the files of the plan but for the recording.
fn read_inputs<'p, R: Files + AllocGlobal>(rt: &R, plan: &'p Plan) -> Result<Inputs<'p>, ToolFault>
    requires { HasRequired plan.now }
    ensures task { IfOk result (λ i. IsTask plan.now i.settings i.task) }
    ensures refused { IfErr result (λ f. IsOfSettings plan.now f ⊎ IsOfDefinition plan.now f ⊎ IsOfResumed plan.now f) }
{
    let settings = read_settings(rt, plan)?;
    let task = read_task(rt, plan, &settings)?;
    Ok(Inputs { settings, task })
}

/// Checks the standard streams, standard error first, and then reads the files of the plan but for the recording.
#[inline(never)]
#[tactic(auto, using(crate::proofs::ProgramLemmas::errors_come, crate::proofs::ProgramLemmas::streams_come, crate::proofs::ProgramLemmas::definition_comes, crate::proofs::ProgramLemmas::resumed_comes, crate::proofs::ProgramLemmas::settings_come))]
pub(crate) fn prepare_inputs<'p, R: Files + Print + AllocGlobal, E: Write>(
    rt: &R,
    plan: &'p Plan,
    errors: &mut E,
) -> Result<Inputs<'p>, ToolFault>
    requires { HasRequired plan.now }
    ensures task { IfOk result (λ i. IsTask plan.now i.settings i.task) }
    ensures refused { IfErr result (MayCome plan.now) }
{
    check_standard_error(rt, plan)?;
    check_streams(rt, plan, errors)?;
    read_inputs(rt, plan)
}
