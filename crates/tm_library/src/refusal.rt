//! Why a call gives nothing.

ghost use Rattle.std.specs.Prelude.{◌≡◌};
ghost use Rattle.tm_library.specs.Refusals.{checkpoint_refusal, definition_refusal, run_refusal, settings_refusal};

use tm_faults::DefinitionFault;
use tm_tool::{CheckpointFault, RunFault, SettingsFault};

/// What a call reads beside the recording.
#[derive(Clone, Copy, Debug, PartialEq, Eq)]
pub enum Input {
    /// The text of the settings.
    Settings,
    /// The text that defines the fields.
    Definition,
    /// The checkpoint.
    Checkpoint,
}

/// Why a call gives nothing.
#[derive(Debug, Drop)]
pub enum Refusal {
    /// This input has over 1,048,576 octets.
    TooLong(Input),
    /// The settings' octets are no settings.
    Settings(SettingsFault),
    /// The text of the definition is none.
    Definition(DefinitionFault),
    /// The checkpoint's octets are no checkpoint of a job with these settings.
    Checkpoint(CheckpointFault),
    /// There are more records than the greatest number, 2^32 - 1.
    TooMany,
    /// Memory ran out.
    NoMemory,
}

impl From<SettingsFault> for Refusal {
    ghost from_gives = { λ fault refusal. refusal ≡ settings_refusal fault };

    fn from(fault: SettingsFault) -> Self {
        match fault {
            SettingsFault::NoMemory => Refusal::NoMemory,
            fault => Refusal::Settings(fault),
        }
    }
}

impl From<DefinitionFault> for Refusal {
    ghost from_gives = { λ fault refusal. refusal ≡ definition_refusal fault };

    fn from(fault: DefinitionFault) -> Self {
        match fault {
            DefinitionFault::NoMemory => Refusal::NoMemory,
            fault => Refusal::Definition(fault),
        }
    }
}

impl From<CheckpointFault> for Refusal {
    ghost from_gives = { λ fault refusal. refusal ≡ checkpoint_refusal fault };

    fn from(fault: CheckpointFault) -> Self {
        match fault {
            CheckpointFault::NoMemory => Refusal::NoMemory,
            fault => Refusal::Checkpoint(fault),
        }
    }
}

/// A run reads octets in memory from their beginning on, and writes into rooms. So it fails only at too many records, or where memory runs out.
impl From<RunFault> for Refusal {
    ghost from_gives = { λ fault refusal. refusal ≡ run_refusal fault };

    fn from(fault: RunFault) -> Self {
        match fault {
            RunFault::TooMany => Refusal::TooMany,
            RunFault::NoMemory
            | RunFault::Write
            | RunFault::Report
            | RunFault::Read
            | RunFault::ShortRecording => Refusal::NoMemory,
        }
    }
}
