//! A whole packet, as an outlet takes it.

use tm_items::Reason;
use tm_packet::Header;

/// A dropped part of a channel. `first` and `place` are the record in which it begins and its place in that record's data field.
#[derive(Clone, Copy)]
pub struct DroppedPart {
    pub first: u32,
    pub place: u16,
    pub octets: u32,
    pub reason: Reason,
}

/// Where a packet was found: as in `Packet`.
#[derive(Clone, Copy)]
pub struct PacketPlace {
    pub seen: u32,
    pub channel: u8,
    pub first: u32,
    pub place: u16,
}

/// A whole packet of a channel. `seen` is the record that completes it, `first` and `place` are the record in which it begins and its place in that
/// record's data field.
#[derive(Drop)]
pub struct Packet<'p> {
    pub seen: u32,
    pub channel: u8,
    pub first: u32,
    pub place: u16,
    pub header: Header,
    pub octets: &'p [u8],
}
