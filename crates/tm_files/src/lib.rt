//! The files that a plan names: which clash, what is checked before they are opened, and how they are opened and read.
#![tactic(auto)]

mod checks;
mod decisions;
mod files;
mod identities;
mod names;
mod opening;
mod report;

pub use checks::{check_file_names, check_folder, check_standard_error, check_streams};
pub use decisions::{
    Recording, ReportTarget, Stream, choose_recording, choose_report, stream_fault, writes_errors,
    writes_output,
};
pub use files::{
    Replaced, Replacement, TEMPORARY_ENDING, abandon_replacement, append, begin_replacement,
    create, file_fault, finish_replacement, open, read_file,
};
pub use identities::{INPUT_NAME, identify_files};
pub use names::{
    Checked, Clash, check_errors, check_names, find_clash, find_place, is_named, name_at,
};
pub use opening::{make_drain, open_recording, open_report, source_of_input};
pub use report::Report;
