//! The front of a span, packet by packet.

ghost use Rattle.std.specs.Prelude.{◌≡◌, ◌+◌, ◌^◌, ◌<◌, ◌≤◌, [], drop, length, None, IfSome};
ghost use Rattle.tm_items.specs.Fronts.{front_packets};
ghost use Rattle.tm_output.specs.code.Quiet.{IsFirstPacket};

use crate::Packet;
use tm_items::{Span, whole_packet};

/// A span from an octet on.
#[inline(always)]
pub(crate) fn span_from(span: Span<'_>, at: usize) -> Span<'_>
    requires inside { at ≤ length span.octets.now }
    requires places { span.place + length span.octets.now < 2 ^ 16 }
    ensures rest { result ≡ record span.entry { place = span.entry.place + at; octets = result.octets } }
    ensures octets { result.octets.now ≡ drop at span.entry.octets.now }
{
    Span {
        place: span.place + at as u16,
        octets: &span.octets[at..],
        ..span
    }
}

/// The packet at the front of a span, if one of at most `limit` octets lies whole there.
#[inline(always)]
pub(crate) fn first_packet(limit: usize, span: Span<'_>) -> Option<Packet<'_>>
    ensures some { IfSome result (IsFirstPacket limit span.entry) }
    ensures none { result ≡ None → front_packets limit span.entry.octets.now ≡ [] }
{
    match whole_packet(limit, span.octets) {
        Some(header) => Some(Packet {
            seen: span.seen,
            channel: span.channel,
            first: span.seen,
            place: span.place,
            header,
            octets: &span.octets[..header.length() as usize],
        }),
        None => None,
    }
}
