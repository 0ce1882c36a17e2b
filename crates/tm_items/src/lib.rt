//! What is reported of records, and who takes it.
#![tactic(auto)]

mod items;
mod packets;
mod sink;

pub use items::{Item, Reason};
pub use packets::{packet_length, whole_packet};
pub use sink::{Sink, Span};
