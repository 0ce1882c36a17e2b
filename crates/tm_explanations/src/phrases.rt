//! Which faults are explained, what is blamed for one, and what a line calls that.

ghost use Rattle.std.specs.Prelude.{◌≡◌, IfErr};
ghost use Rattle.tm_explanations.specs.Blame.{is_explained, place_blamed, place_named};

use std::alloc::{AllocError, Global};
use tm_arguments::Plan;
use tm_bits::Octets;
use tm_faults::{CheckpointFault, DefinitionFault, RunFault, SettingsFault, ToolFault, UsageFault};
use tm_file_identity::Place;
use tm_files::{TEMPORARY_ENDING, find_place, name_at};

/// Why nothing is said.
#[derive(Clone, Copy)]
pub(crate) enum Untold {
    /// It can't be told why the fault came.
    Unknown,
    /// Memory ran out.
    NoMemory,
}

impl From<AllocError> for Untold {
    ghost use Rattle.tm_explanations.specs.declared.phrases.Untold.TheVariants.{NoMemory};

    ghost from_gives = { λ _ e. e ≡ NoMemory };

    fn from(_: AllocError) -> Untold {
        Untold::NoMemory
    }
}

/// What is said of a fault.
pub(crate) type Said = Result<String, Untold>;

/// Octets as text; an empty one where they are not UTF-8.
pub(crate) fn text_of(octets: &[u8]) -> &str {
    std::str::from_utf8(octets).unwrap_or("")
}

/// There may be more to say of the fault than its line does.
pub(crate) fn is_explained(fault: &ToolFault) -> bool
    ensures { result ≡ is_explained fault.now }
{
    match fault {
        ToolFault::Usage(fault) => matches!(fault, UsageFault::Usage(_)),
        ToolFault::Settings(fault) => !matches!(fault, SettingsFault::NoMemory),
        ToolFault::Definition(
            DefinitionFault::Csv | DefinitionFault::Bits { .. } | DefinitionFault::Offset { .. },
        ) => true,
        ToolFault::Checkpoint(CheckpointFault::Version | CheckpointFault::Settings) => true,
        ToolFault::File(_) => true,
        ToolFault::Run(fault) => !matches!(fault, RunFault::TooMany | RunFault::NoMemory),
        _ => false,
    }
}

// What the file of this name is for: the first that a run opens. The checkpoint to go on from, if it can be read, is last.
fn place_named(plan: &Plan, name: &Octets, can_resume: bool) -> Option<Place>
    ensures { result ≡ place_named plan.now name.now can_resume }
{
    let resumed = if can_resume {
        Place::Checkpoint
    } else {
        Place::Resumed
    };
    let places = [
        Place::Settings,
        Place::Definition,
        resumed,
        Place::Recording,
        Place::Report,
        Place::Checkpoint,
        Place::Resumed,
    ];
    find_place(plan, name, &places)
}

/// What is blamed for a fault. The checkpoint to go on from can be read, or not. The folder for packets has no place.
pub(crate) fn place_blamed(plan: &Plan, fault: &ToolFault, can_resume: bool) -> Option<Place>
    ensures { result ≡ place_blamed plan.now fault.now can_resume }
{
    match fault {
        ToolFault::Settings(_) => Some(Place::Settings),
        ToolFault::Definition(_) => Some(Place::Definition),
        ToolFault::Checkpoint(_) => Some(Place::Resumed),
        ToolFault::File(name) => place_named(plan, name, can_resume),
        ToolFault::Run(RunFault::Read | RunFault::ShortRecording) => Some(Place::Recording),
        ToolFault::Run(RunFault::Report) => Some(Place::Report),
        ToolFault::Run(RunFault::Write) if plan.dir.is_none() => Some(Place::Output),
        _ => None,
    }
}

/// What a line calls what a plan has at a place: what it is for, and its name. Without a place it is the folder.
pub(crate) fn phrase(alloc: Global, plan: &Plan, place: Option<Place>) -> Said
    ensures { IfErr result (λ e. e ≡ Untold.NoMemory) }
{
    let (name, ending) = match place {
        Some(Place::TemporaryCheckpoint) => (plan.checkpoint.as_ref(), TEMPORARY_ENDING),
        Some(place) => (name_at(plan, place), ""),
        None => (plan.dir.as_ref(), ""),
    };
    let word = match place {
        None => "the folder",
        Some(Place::Settings) => "the settings",
        Some(Place::Definition) => "the definition",
        Some(Place::Resumed) => "the checkpoint to go on from",
        Some(Place::Recording) if name.is_none() => "standard input",
        Some(Place::Recording) => "the recording",
        Some(Place::Report) => "the report",
        Some(Place::Checkpoint) => "the checkpoint",
        Some(Place::TemporaryCheckpoint) => "the file beside the checkpoint",
        Some(Place::Output) => "standard output",
        Some(Place::Errors | Place::Faults) => "standard error",
    };
    Ok(match name.map_or("", |name| text_of(name.as_slice())) {
        "" => String::from_str(alloc, word)?,
        name => format!(in alloc; "{word} {name}{ending}")?,
    })
}
