//! The arguments of the command line, as `clap` reads them, and what they ask for.
#![tactic(auto)]

mod arguments;
mod command;
pub mod laws;
mod request;
mod table;

pub use arguments::plan;
pub use request::{Action, Plan};
pub use tm_faults::UsageFault;
