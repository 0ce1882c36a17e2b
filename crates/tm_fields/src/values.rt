//! The texts of a packet's values.

ghost use Rattle.std.specs.Prelude.{◌≡◌, ◌+◌, ◌*◌, ◌^◌, ◌<◌, ◌≤◌, ◌%◌, ◌++◌, ◌∷◌, [], ℕ, List, true, codes, length, IfOk, OnOk, decimal};
ghost use Rattle.csv.specs.Writing.{default_writer, fields_text};
ghost use Rattle.tm_fields.specs.code.Line.{HasValues};
ghost use Rattle.tm_fields.specs.Numbers.{bits_in, octets_at};
ghost use Rattle.tm_fields.specs.Reading.{end_of, greatest_end, is_sound};
ghost use Rattle.tm_fields.specs.Rows.{named, printed, signed};

use crate::cells::Cells;
use crate::field::{DataType, Field};
use crate::line::write_value;
use crate::numbers::number_from;
use crate::raw::push_raw;
use csv::Writer;
use itoa::write_digits;
use std::alloc::{AllocError, Global};
use std::io::Write;
use tm_bits::push_escaped;

/// Two to the power of a number of bits.
pub(crate) fn power(bits: u32) -> u128
    requires { bits ≤ 64 }
    ensures { result ≡ 2 ^ bits }
{
    1 << bits
}

// A comma and twenty digits have this many octets.
const NUMBER_ROOM: usize = 21;

// Writes a comma and a number at the end of a row. They are made in an array, so the row grows once.
#[tactic(auto, using(std::proofs::lemmas::Grind::common_steps, crate::proofs::PlainLemmas::number_rules))]
fn push_uint(row: &mut Vec<u8>, number: u64) -> Result<(), AllocError>
    ensures { OnOk result (row.new.items ≡ row.old.items ++ fields_text default_writer (decimal number ∷ [])) }
{
    let mut room = [0; NUMBER_ROOM];
    let begin = write_digits(number, &mut room, NUMBER_ROOM) - 1;
    room[begin] = b',';
    row.extend_from_slice(&room[begin..])
}

// Writes a comma, a minus sign and a number at the end of a row.
#[tactic(auto, using(std::proofs::lemmas::Grind::common_steps, crate::proofs::PlainLemmas::negative_rules))]
fn push_negative(row: &mut Vec<u8>, number: u64) -> Result<(), AllocError>
    ensures { OnOk result (row.new.items
        ≡ row.old.items ++ fields_text default_writer ((codes "-" ++ decimal number) ∷ [])) }
{
    let mut room = [0; NUMBER_ROOM + 1];
    let sign = write_digits(number, &mut room, NUMBER_ROOM + 1) - 1;
    room[sign] = b'-';
    let begin = sign - 1;
    room[begin] = b',';
    row.extend_from_slice(&room[begin..])
}

// Writes a comma and a number of `bits` bits in two's complement at the end of a row.
fn push_int(row: &mut Vec<u8>, bits: u32, number: u64) -> Result<(), AllocError>
    requires some { 1 ≤ bits }
    requires few { bits ≤ 64 }
    requires bound { number < 2 ^ bits }
    ensures { OnOk result (row.new.items ≡ row.old.items ++ fields_text default_writer (signed bits number ∷ [])) }
{
    if u128::from(number) < power(bits - 1) {
        push_uint(row, number)
    } else {
        let distance = power(bits) - u128::from(number);
        push_negative(row, distance as u64)
    }
}

// `count` octets from a bit on, of a field that doesn't begin on an octet's border.
#[tactic(auto, using(std::proofs::lemmas::Grind::common_steps, crate::proofs::NumberLemmas::octets_next))]
fn unaligned_octets(
    alloc: Global,
    packet: &[u8],
    at: u32,
    count: u32,
) -> Result<Vec<u8>, AllocError>
    requires within { at + 8 * count ≤ bits_in packet.now }
    requires small { at + 8 * count ≤ greatest_end }
    ensures { IfOk result (λ octets. octets.items ≡ octets_at packet.now at count) }
{
    let mut octets = Vec::new(alloc);
    for i in 0..count {
        octets.push(number_from(packet, at + 8 * i, 8) as u8)?;
    }
    Ok(octets)
}

/// `count` octets of a packet from a bit on, which is the first of an octet.
#[tactic(auto, using(crate::proofs::NumberLemmas::octets_at_border))]
pub(crate) fn aligned_octets(packet: &[u8], at: u32, count: u32) -> &[u8]
    requires border { at % 8 ≡ 0 }
    requires within { at + 8 * count ≤ bits_in packet.now }
    ensures { result.now ≡ octets_at packet.now at count }
{
    let first = at as usize / 8;
    &packet[first..first + count as usize]
}

/// Writes a comma and a field's value at the end of a row, if the field has a column.
pub(crate) fn push_field_value(
    row: &mut Vec<u8>,
    cells: &mut Cells,
    field: &Field,
    packet: &[u8],
) -> Result<(), AllocError>
    requires sound { is_sound field.now ≡ true }
    requires within { end_of field.now ≤ bits_in packet.now }
    ensures { OnOk result (row.new.items ≡ row.old.items ++ fields_text default_writer (printed packet.now field.now)) }
{
    let (at, bits) = (field.begin, field.length);
    match field.data_type {
        DataType::Uint => push_uint(row, number_from(packet, at, bits)),
        DataType::Int => push_int(row, bits, number_from(packet, at, bits)),
        DataType::Float if at % 8 == 0 => push_raw(row, aligned_octets(packet, at, bits / 8)),
        DataType::Float => push_raw(
            row,
            unaligned_octets(cells.alloc(), packet, at, bits / 8)?.as_slice(),
        ),
        DataType::Str if at % 8 == 0 => cells.push_text(row, aligned_octets(packet, at, bits / 8)),
        DataType::Str => {
            let octets = unaligned_octets(cells.alloc(), packet, at, bits / 8)?;
            cells.push_text(row, octets.as_slice())
        }
        DataType::Fill => Ok(()),
    }
}

/// Writes a field's name in a line, if it has a column.
pub(crate) fn write_field_name<W: Write + Drop>(
    writer: &mut Writer<W>,
    field: &Field,
) -> Result<(), AllocError>
    ensures { OnOk result ((lines : List ℕ) (values : List (List ℕ)) → HasValues W.contents writer.old lines values
        → HasValues W.contents writer.new lines (values ++ named field.now)) }
{
    if field.data_type.has_column() {
        write_value(writer, field.name.as_slice())?;
    }
    Ok(())
}
