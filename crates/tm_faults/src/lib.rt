//! The faults that end the program: why, in which words, and with which line and status. What explains one to a person is a line, too.
#![tactic(auto)]

mod definition;
mod explanation;
mod lines;
mod program;
mod run;
mod settings;

pub use definition::{Column, DefinitionFault};
pub use explanation::Explanation;
pub use lines::{fault_line, status};
pub use program::{ToolFault, UsageFault};
pub use run::{CheckpointFault, NoMemory, RunFault};
pub use settings::{Key, SettingsFault};
