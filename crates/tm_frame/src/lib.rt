//! TM transfer frames (CCSDS 132.0-B-3, section 4.1): how a record is laid out, and the error control of octets. A record reads
//! as a good frame or as the first fault that applies. `Rules` say which channels are chosen, and how long a packet may be.
#![tactic(auto)]

mod channels;
mod checks;
mod control;
mod fault;
mod frame;
mod header;
mod layout;
mod rules;
mod table;

pub use channels::Channels;
pub use control::{error_control, error_control_by_table};
pub use fault::FrameFault;
pub use frame::{Frame, Kind, read, read_good};
pub use layout::{Layout, LayoutFault, LayoutParts, Presence};
pub use rules::Rules;
pub use table::table_entry;
