//! The packets that begin in one data field.

ghost use Rattle.std.specs.Prelude.{◌≡◌, ◌+◌, ◌^◌, ◌<◌, ◌≤◌, ◌==◌, true, false, length, take, drop, None, Some, ◌++◌, IfOk, IfErr, IfSome, OnOk};
ghost use Rattle.tm_items.specs.OnePacket as one_packet;
ghost use Rattle.tm_reassembly.specs.code.DataFields.{IsDataField, IsFieldOf, member_with};
ghost use Rattle.tm_reassembly.specs.code.Field.{HasNoWholePacket, IsLeft, IsMeasured, begun_parts, field_parts, unfinished, items_from, left_in, part_items, GivesParts};
ghost use Rattle.tm_reassembly.specs.code.Slots.{member_at};
ghost use Rattle.tm_reassembly.specs.Parts as model;
ghost use Rattle.tm_reassembly.specs.Parts.{begins_packet, unread_reason, lead_part};
ghost use Rattle.tm_frame.specs.Rules.{IsLimit};
ghost use Rattle.tm_items.specs.Giving.{Gives};
ghost use Rattle.tm_reassembly.specs.code.Fits.{PlaceFits};

use tm_items::{Item, Reason, Sink, Span, packet_length};
use tm_packet::packet_version;

/// Where items are given: at this record, at a closed end the number of records, and of this channel.
#[derive(Clone, Copy)]
pub struct Site {
    pub seen: u32,
    pub channel: u8,
}

/// A data field, and the place of the first packet that starts in it, if one does.
#[derive(Clone, Copy)]
pub struct DataField<'f> {
    pub place: Option<u16>,
    pub octets: &'f [u8],
}

/// Whether octets begin with version 0.
#[tactic(auto, using(tm_items::proofs::Headers::version_first))]
pub fn is_packet(octets: &[u8]) -> bool
    requires { 0 < length octets.now }
    ensures { result ≡ one_packet.is_packet octets.now }
{
    packet_version(octets[0]) == 0
}

/// Whether a packet of `length` octets is long at a frame that ends `end` octets after its start. It is if it has more
/// octets than the limit, and its whole header is there.
pub fn is_long(limit: usize, length: usize, end: usize) -> bool
    ensures { result ≡ model.is_long limit length end }
{
    end >= 6 && limit < length
}

/// Whether a frame agrees by its place with a packet of `length` octets. The frame's field begins at this offset of the packet.
/// It agrees if it has no place and the packet reaches the end of the field, or if the packet ends at its place.
pub fn agrees_at(length: usize, offset: usize, field_length: usize, place: Option<u16>) -> bool
    requires room { offset + field_length < 2 ^ 64 }
    requires place { PlaceFits place field_length }
    ensures { result ≡ model.agrees_at length offset field_length place }
{
    match place {
        None => offset + field_length <= length,
        Some(start) => length == offset + start as usize,
    }
}

/// How many octets the packet has that begins here, and is read.
///
/// # Errors
///
/// Why what begins here isn't read: it is of another version, or a packet that is long where these octets end.
pub fn measure(limit: usize, octets: &[u8]) -> Result<usize, Reason>
    requires { 0 < length octets.now }
    ensures ok { IfOk result (IsMeasured limit octets.now) }
    ensures unread { IfErr result (λ reason. (begins_packet limit octets.now ≡ false) × (reason ≡ unread_reason octets.now)) }
{
    if !is_packet(octets) {
        return Err(Reason::Version);
    }
    let length = packet_length(octets);
    if is_long(limit, length, octets.len()) {
        return Err(Reason::Length);
    }
    Ok(length)
}

/// How many octets the packet has that begins with a tail and goes on with a field, as `packet_length` says.
pub fn packet_length_over(tail: &[u8], field: &[u8]) -> usize
    requires some { 0 < length tail.now }
    requires packet { one_packet.is_packet tail.now ≡ true }
    ensures value { result ≡ one_packet.packet_length (tail.now ++ field.now) }
    ensures most { result ≤ 65542 }
{
    if tail.len() >= 6 {
        packet_length(tail)
    } else if tail.len() + field.len() < 6 {
        7
    } else {
        packet_length(&join_header(tail, field))
    }
}

// The first six octets of a tail and a field.
#[tactic(auto, using(crate::proofs::Tails::join_six))]
fn join_header(tail: &[u8], field: &[u8]) -> [u8; 6]
    requires short { length tail.now ≤ 6 }
    requires enough { 6 ≤ length tail.now + length field.now }
    ensures { result ≡ take 6 (tail.now ++ field.now) }
{
    let mut header = [0; 6];
    let (front, back) = header.split_at_mut(tail.len());
    front.copy_from_slice(tail);
    back.copy_from_slice(&field[..6 - tail.len()]);
    header
}

/// Gives octets before which no packet starts, if there are any: they are lost.
pub fn give_lead<S: Sink>(
    site: Site,
    reason: Reason,
    lead: &[u8],
    sink: &mut S,
) -> Result<(), S::Fault>
    requires channel { site.channel < 8 }
    requires most { length lead.now ≤ 2042 }
    ensures given { GivesParts S.Sink sink.old sink.new site.channel
        (lead_part (member_at site.seen None lead.now) reason lead.now) result }
{
    match lead {
        [] => Ok(()),
        [_, ..] => {
            let dropped = Item::Dropped {
                seen: site.seen,
                channel: site.channel,
                first: site.seen,
                place: 0,
                octets: lead.len() as u32,
                reason,
            };
            match sink.take(dropped) {
                Ok(()) => Ok(()),
                Err(fault) => Err(fault),
            }
        }
    }
}

// Gives what of a field stands after its last whole packet: its unread part, if it has one. Answers as `read_field` does.
fn give_unread<S: Sink>(
    limit: usize,
    site: Site,
    field: &[u8],
    offset: usize,
    sink: &mut S,
) -> Result<usize, S::Fault>
    requires field { IsFieldOf site.channel (Some offset) field.now }
    requires limit { IsLimit limit }
    requires none { HasNoWholePacket limit (drop offset field.now) }
    ensures given { Gives S.Sink sink.old sink.new (items_from limit site.seen site.channel field.now offset) result }
    ensures left { IfOk result (λ left. IsLeft limit field.now left (unfinished limit 0 (drop offset field.now))) }
{
    let left = &field[offset..];
    if left.is_empty() {
        return Ok(offset);
    }
    let Err(reason) = measure(limit, left) else {
        return Ok(offset);
    };
    let unread = Item::Dropped {
        seen: site.seen,
        channel: site.channel,
        first: site.seen,
        place: offset as u16,
        octets: left.len() as u32,
        reason,
    };
    match sink.take(unread) {
        Ok(()) => Ok(field.len()),
        Err(fault) => Err(fault),
    }
}

/// Gives the packets that lie whole in a field from `place` on, and its unread part. Answers where its unfinished packet begins,
/// with fewer octets than a packet may have.
pub fn read_field<S: Sink>(
    limit: usize,
    site: Site,
    field: &[u8],
    place: usize,
    sink: &mut S,
) -> Result<usize, S::Fault>
    requires field { IsFieldOf site.channel (Some place) field.now }
    requires limit { IsLimit limit }
    ensures given { GivesParts S.Sink sink.old sink.new site.channel
        (field_parts limit site.seen (length field.now) place field.now) result }
    ensures left { IfOk result (λ left. IsLeft limit field.now left (unfinished limit place field.now)) }
{
    let span = Span {
        seen: site.seen,
        channel: site.channel,
        place: place as u16,
        octets: &field[place..],
    };
    match sink.take_front(limit, span) {
        Ok(many) => {
            let end = place + many;
            give_unread(limit, site, field, end, sink)
        }
        Err(fault) => Err(fault),
    }
}

/// Gives what a field has where no packet is open. What stands before its place is lost for this reason. Then come its packets and
/// its unread part. Answers where its unfinished packet begins, as `read_field` does.
pub fn give_field<S: Sink>(
    limit: usize,
    site: Site,
    reason: Reason,
    field: DataField<'_>,
    sink: &mut S,
) -> Result<usize, S::Fault>
    requires field { IsDataField site.channel field }
    requires limit { IsLimit limit }
    ensures given { GivesParts S.Sink sink.old sink.new site.channel
        (begun_parts limit reason (member_with site.seen field.entry)) result }
    ensures left { IfOk result (λ left. IsLeft limit field.entry.octets.now left
        (left_in limit field.entry.place field.entry.octets.now)) }
{
    match field.place {
        None => match give_lead(site, reason, field.octets, sink) {
            Ok(()) => Ok(field.octets.len()),
            Err(fault) => Err(fault),
        },
        Some(place) => {
            let start = place as usize;
            if let Err(fault) = give_lead(site, reason, &field.octets[..start], sink) {
                return Err(fault);
            }
            match read_field(limit, site, field.octets, start, sink) {
                Ok(left) => Ok(left),
                Err(fault) => Err(fault),
            }
        }
    }
}
