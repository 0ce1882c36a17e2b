//! Field definitions, read from CSV, and what packets give under them: a head and a row for each packet, as CSV.
//!
//! The format of definitions and rows is the project's own. A definition says which bits of a packet are which field. Bits are
//! counted from the first bit of the packet on, its header's 48 bits included. The most significant bit comes first, as CCSDS
//! 133.0-B-2 numbers the bits of a packet (section 4.1).
#![tactic(auto)]

mod binary;
mod cells;
mod columns;
mod definition;
mod faults;
mod field;
mod lead;
mod line;
mod numbers;
mod raw;
mod reading;
mod rows;
mod table;
mod values;
mod words;

pub use columns::{Columns, Standing, value_at};
pub use definition::Definition;
pub use faults::RowFault;
pub use field::{DataType, Field};
pub use lead::Lead;
pub use numbers::number_at;
pub use rows::{BinaryRows, RowForm, RowWriter, Rows};
pub use tm_bits::Octets;
pub use tm_faults::{Column, DefinitionFault, NoMemory};
