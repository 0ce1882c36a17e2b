//! Why the program ends before its end.

use crate::{CheckpointFault, DefinitionFault, RunFault, SettingsFault};
use tm_bits::Octets;

/// Why the arguments are no plan.
#[derive(Debug, Drop)]
pub enum UsageFault {
    /// The arguments are none that the command takes; this text says what is wrong.
    Usage(Octets),
    /// The arguments stop a run after some records, and name no file for its checkpoint.
    StopAfter,
    /// The arguments ask for this text: help, or the version.
    Help(Octets),
    /// Memory ran out.
    NoMemory,
}

/// Why the program ends before its end.
#[derive(Debug, Drop)]
pub enum ToolFault {
    /// The words of the command line are no plan.
    Usage(UsageFault),
    /// The settings' file is no settings.
    Settings(SettingsFault),
    /// The definition's file is no definition.
    Definition(DefinitionFault),
    /// The checkpoint's file is no checkpoint of a job with the settings.
    Checkpoint(CheckpointFault),
    /// The file of this name can't be opened, made, read or written; or it is to be written, and is another file of the run.
    File(Octets),
    /// The file of this name is over 1,048,576 octets.
    TooLong(Octets),
    /// Standard error is a file that is read, whatever the run writes there. So no line is printed.
    Errors,
    /// The run ended before its end. It also says that memory ran out, where no other fault does.
    Run(RunFault),
}
