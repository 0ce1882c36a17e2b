//! Calls that are refused memory: all of it is held, and given back block by block.
#![tactic(auto)]

mod held;
mod turns;

pub use held::{Held, NOTHING_HELD};
pub use turns::{Answer, Turns, try_twice};
