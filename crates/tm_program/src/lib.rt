//! What the program does: the order of its steps, from the arguments of the command line to the checkpoint of the run.
#![tactic(auto)]

mod checkpoint_file;
mod folder;
mod inputs;
mod outcome;
mod steps;
mod task;

pub use outcome::{Found, ProgramOutcome};
pub use steps::run;
pub use tm_faults::{NoMemory, ToolFault, UsageFault, fault_line, status};
pub use tm_tool::{Listed, Octets, RunFault, Summed, Totals};
