//! The explanation of a fault.

ghost use Rattle.std.specs.Prelude.{◌≡◌, None, false, true, is_some, map, string_bytes, IfErr, IfOk, IfSome, IsSome};
ghost use Rattle.tm_explanations.specs.Blame.{HasPlan, is_explained, is_told};
ghost use Rattle.tm_faults.specs.Explanations.{IsLine};

use crate::asked::Asked;
use crate::files::error_text;
use crate::phrases::{Said, Untold, is_explained, phrase, place_blamed, text_of};
use crate::usage::usage_text;
use std::alloc::Global;
use std::rt::Files;
use tm_arguments::{Plan, plan};
use tm_faults::{Explanation, NoMemory, RunFault, ToolFault, UsageFault};
use tm_file_identity::Place;

/// A run that ended: its system, its plan, and the number of the system's first error.
#[derive(Drop)]
pub(crate) struct EndedRun<'r, R> {
    pub(crate) rt: &'r R,
    pub(crate) plan: Plan,
    pub(crate) number: Option<i32>,
}

impl<R: Files + AllocGlobal> EndedRun<'_, R> {
    // Why a fault of this run came, and what to do.
    fn text(&self, fault: &ToolFault) -> Said
        ensures { is_told fault.now (is_some self.now.number) ≡ true → IfErr result (λ e. e ≡ Untold.NoMemory) }
    {
        let alloc = self.rt.alloc();
        let can_resume = self.octets_at(Place::Resumed).is_ok();
        let place = place_blamed(&self.plan, fault, can_resume);
        let phrase = phrase(alloc, &self.plan, place)?;
        let file = phrase.as_str();
        match (fault, &self.plan.dir) {
            (ToolFault::Settings(fault), _) => self.settings_text(file, fault),
            (ToolFault::Definition(fault), _) => self.definition_text(file, *fault),
            (ToolFault::Checkpoint(fault), _) => self.checkpoint_text(file, *fault),
            (ToolFault::File(name), _) if name.as_slice().is_empty() => {
                Ok(format!(in alloc; "{file}: an empty name; name a file")?)
            }
            (ToolFault::File(name), _) => self.file_text(place, text_of(name.as_slice())),
            (ToolFault::Run(RunFault::ShortRecording), _) => self.shorter_text(file),
            (ToolFault::Run(RunFault::Write), Some(dir)) => self.folder_text(file, dir),
            (ToolFault::Run(RunFault::Write), None) => self.file_text(place, ""),
            _ => error_text(alloc, place, file, self.number.ok_or(Untold::Unknown)?),
        }
    }
}

// Why a fault of a run by these words came, and what to do. What prints help has no plan.
fn run_text<R: Files + AllocGlobal>(
    rt: &R,
    words: Vec<String>,
    fault: &ToolFault,
    number: Option<i32>,
) -> Said
    ensures { HasPlan (map string_bytes words.items) → is_told fault.now (is_some number) ≡ true
        → IfErr result (λ e. e ≡ Untold.NoMemory) }
{
    match (plan(rt.alloc(), words), number) {
        (Ok(plan), _) => EndedRun { rt, plan, number }.text(fault),
        (Err(UsageFault::NoMemory), _) => Err(Untold::NoMemory),
        (Err(_fault), Some(number)) => error_text(rt.alloc(), None, "standard output", number),
        (Err(_fault), None) => Err(Untold::Unknown),
    }
}

/// The line of a text, where there is one.
pub(crate) fn line_of(alloc: Global, text: Said) -> Result<Option<Explanation>, NoMemory>
    ensures line { IfOk result (λ found. IfSome found IsLine) }
    ensures told { IfErr text (λ e. e ≡ Untold.NoMemory) → IfOk result IsSome }
{
    match text {
        Ok(text) => Ok(Some(Explanation::new(alloc, text.as_bytes())?)),
        Err(Untold::Unknown) => Ok(None),
        Err(Untold::NoMemory) => Err(NoMemory),
    }
}

/// Why a run by these words ended in a fault, and what to do: one line, if that can be told. The number is that of the
/// system's first error. Regular files that the words name are looked at again, and none is changed. A pipe or a device
/// is not: it may wait for ever. `NoMemory` comes where there is no room for the line.
pub fn explain<R: Files + AllocGlobal>(
    rt: &R,
    _: Asked,
    words: Vec<String>,
    fault: &ToolFault,
    number: Option<i32>,
) -> Result<Option<Explanation>, NoMemory>
    ensures line { IfOk result (λ found. IfSome found IsLine) }
    ensures silent { is_explained fault.now ≡ false → IfOk result (λ found. found ≡ None) }
    ensures told { HasPlan (map string_bytes words.items) → is_told fault.now (is_some number) ≡ true
        → IfOk result IsSome }
{
    if !is_explained(fault) {
        return Ok(None);
    }
    let text = match fault {
        ToolFault::Usage(UsageFault::Usage(text)) => usage_text(rt.alloc(), text.as_slice()),
        _ => run_text(rt, words, fault, number),
    };
    line_of(rt.alloc(), text)
}
