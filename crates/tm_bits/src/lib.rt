//! Octets, as lists, as bits, as numbers and as printed text.
//!
//! Frames, packet headers and packet fields are all read as slices of the bits of octets, the most
//! significant bit of each octet first. This crate holds the definitions (`specs/`) and the lemmas
//! (`proofs/`) that they share. Its code reads and appends numbers in octets, as checkpoints have them,
//! and prints octets that may be anything.
#![tactic(auto)]

mod escape;
mod numbers;
mod octets;

pub use escape::push_escaped;
pub use numbers::{push, push_two, two_at};
pub use octets::Octets;
