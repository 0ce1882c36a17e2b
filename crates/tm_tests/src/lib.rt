//! Devices over memory, and the tests that cross crates: worked recordings with what is known of them.
#![tactic(auto)]

mod memory;

pub use memory::{MemoryDrain, MemoryShelf, MemorySource, Put};

#[cfg(test)]
mod altered;
#[cfg(test)]
mod bench;
#[cfg(test)]
mod binary_forms;
#[cfg(test)]
mod bounds;
#[cfg(test)]
mod calls;
#[cfg(test)]
mod checkpoints;
#[cfg(test)]
mod cut_texts;
#[cfg(test)]
mod failing;
#[cfg(test)]
mod fault_texts;
#[cfg(test)]
mod field_rows;
#[cfg(test)]
mod fields;
#[cfg(test)]
mod frames;
#[cfg(test)]
mod packets;
#[cfg(test)]
mod reassembly;
#[cfg(test)]
mod refused;
#[cfg(test)]
mod refused_runs;
#[cfg(test)]
mod refusing;
#[cfg(test)]
mod runs;
#[cfg(test)]
mod settings;
#[cfg(test)]
mod stops;
#[cfg(test)]
mod summaries;
