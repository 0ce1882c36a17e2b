//! Why a run ended, and what to do: the line for a person after the line of a fault.
//!
//! It is worked out afterwards from the arguments, the fault, and the first error of the system, and from what the
//! files say when they are looked at again. The line of the fault and the status rest on none of this. The table of
//! docs/FORMATS.md has the texts of all, with a word in capitals for each value: a trial compares the two.
#![tactic(auto)]

mod asked;
mod definition;
mod explanation;
mod files;
mod losses;
mod phrases;
mod settings;
mod usage;

pub use asked::{Asked, ask};
pub use explanation::explain;
pub use losses::{DoneRun, explain_losses};
pub use tm_faults::{Explanation, NoMemory};
pub use usage::explain_words;
