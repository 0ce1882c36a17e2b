//! Where octets come from and where they go to: devices that may fail, std's readers and writers as such, and a system whose first error is
//! kept.
#![tactic(auto)]

mod device;
mod room;
mod standard;
mod transfer;
mod watched;

pub use device::{BufferedSource, DeviceFailed, Drain, Shelf, Source};
pub use room::Room;
pub use standard::{Buffered, Reading, Seeking, Writing};
pub use transfer::{fill, may_wait_for, write_all};
pub use watched::{Watched, WatchedFile, WatchedReader};
