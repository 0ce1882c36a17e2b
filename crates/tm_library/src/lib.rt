//! A run over the octets that follow a checkpoint: all that is read and written is in memory.
#![tactic(auto)]

mod chunk;
mod inputs;
pub mod laws;
mod listing;
mod refusal;
mod request;
mod running;
mod summary;

pub use inputs::{check_length, read_definition, read_settings};
pub use refusal::{Input, Refusal};
pub use request::{Answer, Request, Wanted, run_chunk};
pub use summary::summarize_recording;
