//! The files of `split`: one for each application.
#![tactic(auto)]

mod files;
mod open_files;
mod refusals;
mod shelf;

pub use files::{ShelfFault, name_in};
pub use refusals::RefusedPut;
pub use shelf::FileShelf;
