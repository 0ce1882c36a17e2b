//! The values of a packet in octets, numbers with the least significant octet first.

ghost use Rattle.std.specs.Prelude.{◌≡◌, ◌+◌, ◌*◌, ◌/◌, ◌^◌, ◌<◌, ◌≤◌, ◌++◌, true, length, take};
ghost use Rattle.byteorder.specs.Endian.{little_bytes};
ghost use Rattle.tm_fields.specs.Binary.{extended, value_length, value_octets, row_lead, number_length};
ghost use Rattle.tm_fields.specs.Numbers.{bits_in, octets_at};
ghost use Rattle.tm_fields.specs.Reading.{end_of, greatest_end, is_sound};

use crate::field::{DataType, Field, number_length};
use crate::lead::Lead;
use crate::numbers::number_from;
use crate::values::aligned_octets;

// A number in two's complement, with its sign extended: the bit of the sign is taken away twice.
fn extend_sign(bits: u32, number: u64) -> u64
    requires some { 1 ≤ bits }
    requires few { bits ≤ 64 }
    requires bound { number < 2 ^ bits }
    ensures { result ≡ extended bits number }
{
    let sign = number >> (bits - 1);
    number.wrapping_sub(sign << (bits - 1) << 1)
}

// Writes a number of `bits` bits to a place, the least significant octet first, and answers the place after it. Where they fit, all
// eight octets of a `u64` are written, since a known number of them is copied without a call. So the row's octets after that place
// aren't kept.
#[inline(always)]
fn write_number(row: &mut [u8], place: usize, bits: u32, number: u64) -> usize
    requires room { place + number_length bits ≤ length row.old }
    ensures after { result ≡ place + number_length bits }
    ensures put { take result row.new ≡ take place row.old ++ little_bytes (number_length bits) number }
{
    let octets = number.to_le_bytes();
    let many = number_length(bits) as usize;
    if 8 <= row.len() - place {
        row[place..place + 8].copy_from_slice(&octets);
    } else {
        row[place..place + many].copy_from_slice(&octets[..many]);
    }
    place + many
}

// Writes `count` octets of a packet from a bit on to a place, and answers the place after them. The row's octets after that aren't
// kept.
#[tactic(auto, using(std::proofs::lemmas::Grind::common_steps, crate::proofs::NumberLemmas::octets_at_length, crate::proofs::NumberLemmas::octets_next))]
fn write_octets(row: &mut [u8], place: usize, packet: &[u8], at: u32, count: u32) -> usize
    requires within { at + 8 * count ≤ bits_in packet.now }
    requires small { at + 8 * count ≤ greatest_end }
    requires room { place + count ≤ length row.old }
    ensures after { result ≡ place + count }
    ensures put { take result row.new ≡ take place row.old ++ octets_at packet.now at count }
{
    if at % 8 == 0 {
        let end = place + count as usize;
        row[place..end].copy_from_slice(aligned_octets(packet, at, count));
        return end;
    }
    let mut end = place;
    for i in 0..count {
        end = write_number(row, end, 8, number_from(packet, at + 8 * i, 8));
    }
    end
}

/// Writes a field's octets to a place of a row, and answers the place after them. The row's octets after that aren't kept.
pub(crate) fn write_value_octets(
    row: &mut [u8],
    place: usize,
    field: &Field,
    packet: &[u8],
) -> usize
    requires sound { is_sound field.now ≡ true }
    requires within { end_of field.now ≤ bits_in packet.now }
    requires room { place + value_length field.now ≤ length row.old }
    ensures after { result ≡ place + value_length field.now }
    ensures put { take result row.new ≡ take place row.old ++ value_octets packet.now field.now }
{
    let (at, bits) = (field.begin, field.length);
    match field.data_type {
        DataType::Uint | DataType::Float => {
            write_number(row, place, bits, number_from(packet, at, bits))
        }
        DataType::Int => {
            let number = extend_sign(bits, number_from(packet, at, bits));
            write_number(row, place, bits, number)
        }
        DataType::Str => write_octets(row, place, packet, at, bits / 8),
        DataType::Fill => place,
    }
}

/// The octets that a row begins with.
pub(crate) fn row_lead(lead: Lead) -> [u8; 16]
    ensures { result ≡ row_lead lead }
{
    let [r0, r1, r2, r3] = lead.seen.to_le_bytes();
    let [a0, a1] = lead.application.to_le_bytes();
    let [c0, c1] = lead.count.to_le_bytes();
    let channel = lead.channel;
    [r0, r1, r2, r3, a0, a1, c0, c1, channel, 0, 0, 0, 0, 0, 0, 0]
}
