//! What the settings say of records, channels and packets.

ghost use Rattle.tm_frame.specs.Rules as value;

use crate::Layout;
use crate::channels::Channels;
use std::marker::Model;

/// How a record is laid out, which channels are chosen, and how many octets a packet may have at most, 7 to 65,542.
#[derive(Clone, Copy)]
pub struct Rules {
    pub layout: Layout,
    pub channels: Channels,
    pub max_packet: u32,
}

impl Model for Rules {
    ghost Value = { value.Rules };

    ghost view = { λ r. record { layout = r.layout; channels = r.channels; max_packet = r.max_packet } };

    ghost inverse = { λ v. record { layout = v.layout; channels = v.channels; max_packet = v.max_packet } };
}
