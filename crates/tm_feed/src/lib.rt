//! A job that is fed with the octets of a recording, and gives events.
#![tactic(auto)]

mod choice;
mod ending;
mod event;
mod job;
pub mod laws;
mod line;
mod sink;
mod taking;

pub use choice::{NoApplication, RowsFault};
pub use event::Event;
pub use job::{EndProgress, Fed, FedJob, StopReason};
pub use line::event_line;
