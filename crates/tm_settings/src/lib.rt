//! The settings of a recording, read from a TOML document.
#![tactic(auto)]

mod advice;
mod limits;
mod settings;
mod values;

pub use advice::{nearest_key, wanted_value};
pub use limits::{Limits, number_limits};
pub use settings::Settings;
pub use tm_faults::{Key, SettingsFault};
