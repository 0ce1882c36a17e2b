//! What a run writes: lines, and where they and the packets go.
#![tactic(auto)]

mod command;
mod front;
mod outlet;
mod output;
mod totals;

pub use command::{Command, Ending};
pub use outlet::{
    BinaryPackets, Outlet, PacketLines, PacketOctets, PacketRows, PacketShelf, PacketText,
    PacketTexts,
};
pub use output::{Output, header_in};
pub use tm_lines::Packet;
pub use totals::Totals;
