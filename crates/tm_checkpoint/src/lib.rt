//! The checkpoint of a job: how it is written in octets, and what octets say.
//!
//! The form is the project's own. It has three versions: the last one is written, and all are read.
#![tactic(auto)]

mod checkpoint;
pub mod laws;
mod told;
mod version;

pub use checkpoint::{read_checkpoint, write_checkpoint};
pub use told::{OtherSetting, find_other_setting, records_told};
pub use version::{Version, VersionForm};
