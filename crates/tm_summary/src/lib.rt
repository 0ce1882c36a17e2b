//! The numbers of a summary, counted frame by frame, item by item and note by note, and its lines.
#![tactic(auto)]

mod application;
mod channel;
mod counting;
mod counts;
pub mod laws;
mod lines;
mod writing;

pub use application::ApplicationCounts;
pub use channel::{ChannelCounts, Loss};
pub use counting::Counting;
pub use counts::Counts;
pub use writing::write_summary;
