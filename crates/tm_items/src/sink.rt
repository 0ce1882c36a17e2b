//! Who takes items.

ghost use Rattle.std.specs.Prelude.{◌≡◌, ◌+◌, ◌<◌, ◌^◌, IfErr, IfOk, OnOk, length};
ghost use Rattle.tm_items.specs.Item as value;
ghost use Rattle.tm_items.specs.Sinks.{item_of, ItemFits, RefusesOne, TakesAll};
ghost use Rattle.tm_items.specs.Fronts.{front_items, front_length};

use crate::items::Item;
use crate::packets::whole_packet;

/// Octets of a channel in the data field of one record.
#[derive(Clone, Copy, Debug)]
pub struct Span<'a> {
    /// The record, counted from 0.
    pub seen: u32,
    /// The channel, at most 7.
    pub channel: u8,
    /// Where they begin in the data field.
    pub place: u16,
    /// The octets.
    pub octets: &'a [u8],
}

/// Takes items one by one.
pub trait Sink {
    /// Why an item is refused.
    type Fault;

    /// What the relations below know of the sink.
    ghost Known: { Type 0 };

    ghost known: { Self → Self.Known };

    /// The sink may take the item, and this is known of it then.
    ghost takes: { Self.Known → value.Item → Self.Known → Type 0 };

    /// The sink may refuse the item with this fault, and this is known of it then.
    ghost refuses: { Self.Known → value.Item → Self.Fault → Self.Known → Type 0 };

    /// Takes an item, or refuses it. Its channel is at most 7, and a packet's octets are one whole packet of version 0.
    fn take(&mut self, item: Item<'_>) -> Result<(), Self::Fault>
        requires fits { ItemFits (item_of item) }
        ensures accepted { OnOk result (takes (known self.old) (item_of item.entry) (known self.new)) }
        ensures refused { IfErr result (λ fault. refuses (known self.old) (item_of item.entry) fault (known self.new)) };

    /// Takes the packets that lie whole at the front of a span, as if one by one, and answers how many octets they have. They end
    /// where no packet of version 0 and at most `limit` octets lies whole.
    fn take_front(&mut self, limit: usize, span: Span<'_>) -> Result<usize, Self::Fault>
        requires channel { span.channel < 8 }
        requires places { span.place + length span.octets.now < 2 ^ 16 }
        ensures length { IfOk result (λ many. many ≡ front_length limit span.entry.octets.now) }
        ensures accepted { OnOk result (TakesAll takes (known self.old) (front_items limit span.entry) (known self.new)) }
        ensures refused { IfErr result (λ fault.
            RefusesOne takes refuses (known self.old) (front_items limit span.entry) fault (known self.new)) }
    {
        let mut at = 0;
        loop {
            let rest = &span.octets[at..];
            let Some(header) = whole_packet(limit, rest) else {
                return Ok(at);
            };
            let length = header.length() as usize;
            let packet = Item::Packet {
                seen: span.seen,
                channel: span.channel,
                first: span.seen,
                place: span.place + at as u16,
                octets: &rest[..length],
            };
            if let Err(fault) = self.take(packet) {
                return Err(fault);
            }
            at += length;
        }
    }
}
