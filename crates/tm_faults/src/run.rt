//! Why a run ends before its end, and why octets are no checkpoint of one.

ghost use Rattle.std.specs.Prelude.{◌≡◌};

use std::alloc::{AllocError, AllocFailed};
use thiserror::Error;

/// Why a run ended before its end.
#[derive(Clone, Copy, Debug, Error, PartialEq, Eq)]
pub enum RunFault {
    /// A read of the recording failed.
    #[error("read failed")]
    Read,
    /// A write or a flush of the output failed.
    #[error("write failed")]
    Write,
    /// A write or a flush of the report failed.
    #[error("report failed")]
    Report,
    /// The recording ended before the records that were done in it.
    #[error("recording is shorter than the checkpoint")]
    ShortRecording,
    /// A whole record followed the greatest number of records, 2^32 - 1.
    #[error("too many records")]
    TooMany,
    /// Memory ran out.
    #[error("out of memory")]
    NoMemory,
}

impl From<AllocError> for RunFault {
    ghost use Rattle.tm_faults.specs.declared.run.RunFault.TheVariants.{NoMemory};

    ghost from_gives = { λ _ e. e ≡ NoMemory };

    fn from(_: AllocError) -> Self {
        RunFault::NoMemory
    }
}

/// Why octets are no checkpoint of a job with the settings.
#[derive(Clone, Copy, Debug, Error, PartialEq, Eq)]
pub enum CheckpointFault {
    /// There are fewer than the fewest of any checkpoint, 33, or of one of their version.
    #[error("short")]
    Short,
    /// They don't begin with the letters TMXC.
    #[error("magic")]
    Magic,
    /// The fifth octet is none of 1, 2 and 3.
    #[error("version")]
    Version,
    /// The last two aren't the error control of those before.
    #[error("check")]
    Check,
    /// They were written with other settings.
    #[error("settings")]
    Settings,
    /// The state of the channels, or the sequence counts, can't be read.
    #[error("state")]
    State,
    /// Octets are left over.
    #[error("trailing")]
    Trailing,
    /// Memory ran out.
    #[error("out of memory")]
    NoMemory,
}

/// Memory ran out.
#[derive(Clone, Copy, Debug, PartialEq, Eq)]
pub struct NoMemory;

impl From<AllocError> for NoMemory {
    fn from(_: AllocError) -> NoMemory {
        NoMemory
    }
}

impl<T: Drop> From<AllocFailed<T>> for NoMemory {
    fn from(_: AllocFailed<T>) -> NoMemory {
        NoMemory
    }
}
