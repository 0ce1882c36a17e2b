//! The packets and the lost parts of channels (CCSDS 132.0-B-3, section 4.1 and packet extraction).
#![tactic(auto)]

mod channel;
mod checkpoint;
mod fault;
pub mod laws;
mod packets;
mod reassembly;
mod tail;

pub use fault::{NoMemory, StateFault, StepFault};
pub use reassembly::Reassembly;
pub use tm_frame::Channels;
pub use tm_items::{Item, Reason, Sink, Span};
