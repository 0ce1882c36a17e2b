//! What C holds of a job: its pointer, which owns it.
#![tactic(auto)]

mod handle;
mod lends;
mod loose;

pub use handle::Handle;
pub use loose::Loose;
