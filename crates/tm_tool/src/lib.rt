//! The runs over a recording, and their checkpoints.
#![tactic(auto)]

mod checkpoint;
mod commands;
mod extractor;
mod job;
pub mod laws;
mod listing;
mod listing_run;
mod nowhere;
mod record_loop;
mod recording;
mod summary;

pub use job::{CountedRun, Done, Job, run, run_and_count, split, split_and_count};
pub use listing::{Listed, list_frames, list_recording};
pub use listing_run::list_with_job;
pub use summary::{Summed, sum_up, summarize};
pub use tm_bits::Octets;
pub use tm_devices::{
    Buffered, BufferedSource, DeviceFailed, Drain, Reading, Seeking, Shelf, Source, Writing,
};
pub use tm_faults::{CheckpointFault, NoMemory, RunFault};
pub use tm_output::{Command, Ending, Totals};
pub use tm_settings::{Key, Settings, SettingsFault};
