//! The printed lines. Each is made in a buffer of its own, and takes no memory of the heap.
#![tactic(auto)]

mod buffer;
mod lines;
mod packet;

pub use buffer::LineBuffer;
pub use lines::{
    format_bad, format_drop, format_frame, format_gap, format_master_gap, format_note,
    format_packet, format_packet_at, format_short, format_short_packet, format_short_packet_at,
    format_vca,
};
pub use packet::{DroppedPart, Packet, PacketPlace};
