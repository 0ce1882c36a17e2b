//! Space packets (CCSDS 133.0-B-2): their headers (section 4.1.3), and what the sequence counts and flags of a list of headers
//! tell. That is gaps, and groups that are whole, broken, or still open.
#![tactic(auto)]

mod header;
pub mod laws;
mod notes;
mod pair;
mod place;
mod step;
mod table;
mod tracker;

pub use header::{Flags, Header, PacketFault, packet_version, read_header, write_header};
pub use notes::{Note, Notes, Why};
pub use pair::Pair;
pub use tracker::{NoMemory, PairEntry, RawEntry, Tracker, TrackerFault, Unclosed};
