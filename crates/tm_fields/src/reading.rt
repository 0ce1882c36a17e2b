//! One record of a definition.

ghost use Rattle.std.specs.Prelude.{◌≡◌, ◌≢◌, ◌+◌, ◌<◌, ◌≤◌, ◌&&◌, ◌++◌, ◌∷◌, [], Ok, Err, List, true, not, length, IfOk, IfErr, OnOk};
ghost use Rattle.csv.specs.Records.{fields_of};
ghost use Rattle.tm_fields.specs.Reading.{begin_named, begin_of, defined_field_of, greatest_end, has_length, is_shown, is_sound, is_earlier_name, last_end, length_of, field_name_of, offset_text, type_of};
ghost use Rattle.tm_fields.specs.code.Reading.{AreNames};
ghost use Rattle.tm_fields.specs.declared.field.Field.{Field};

use crate::columns::{Columns, value_at};
use crate::field::{DataType, Field, GREATEST_END};
use crate::words::{data_type_named, is_array_text, number_in};
use csv::ByteRecord;
use std::alloc::{AllocFailed, Global};
use std::collections::BTreeSet;
use tm_bits::Octets;
use tm_faults::DefinitionFault;

// The type in a row.
fn read_type(row: u32, text: &[u8]) -> Result<DataType, DefinitionFault>
    ensures { result ≡ type_of row text.now }
{
    match data_type_named(text) {
        Some(data_type) => Ok(data_type),
        None if is_array_text(text) => Err(DefinitionFault::Array { row }),
        None => Err(DefinitionFault::Kind { row }),
    }
}

// The length in a row, in bits.
fn read_length(row: u32, data_type: DataType, text: &[u8]) -> Result<u32, DefinitionFault>
    ensures value { result ≡ length_of row data_type text.now }
    ensures sound { IfOk result (λ n. has_length data_type n ≡ true) }
{
    match number_in(text) {
        Some(length) if data_type.may_have(length) => Ok(length),
        _ => Err(DefinitionFault::Bits { row }),
    }
}

// A row's value in the column of offsets, empty where there is no such column.
fn offset_at<'a>(row: &'a ByteRecord, columns: &Columns) -> &'a [u8]
    ensures { result.now ≡ offset_text columns.now.bit_offset (fields_of row.now) }
{
    match columns.bit_offset {
        Some(at) => value_at(row, at),
        None => &[],
    }
}

// Where a field begins, if the one before it ends at `before`.
fn named_begin(before: u32, text: &[u8]) -> Option<u32>
    ensures { result ≡ begin_named before text.now }
{
    if text.is_empty() {
        Some(before)
    } else {
        number_in(text)
    }
}

// Where the field of a row begins.
fn read_begin(row: u32, before: u32, length: u32, text: &[u8]) -> Result<u32, DefinitionFault>
    ensures value { result ≡ begin_of row before length text.now }
    ensures sound { IfOk result (λ begin. begin + length ≤ greatest_end) }
{
    match named_begin(before, text) {
        Some(begin) if u64::from(begin) + u64::from(length) <= u64::from(GREATEST_END) => Ok(begin),
        _ => Err(DefinitionFault::Offset { row }),
    }
}

// Adds the name of one more field, if it has a column, to those of earlier fields. `false` if an earlier field has it.
fn add_name<'a>(
    names: &mut BTreeSet<&'a [u8]>,
    data_type: DataType,
    name: &'a [u8],
) -> Result<bool, AllocFailed<&'a [u8]>>
    ensures new { (fields : List Field) → AreNames fields names.old
        → IfOk result (λ new. new ≡ not (is_shown data_type && is_earlier_name name.now fields)) }
    ensures names { (fields : List Field) (f : Field) → AreNames fields names.old → f.data_type ≡ data_type
        → f.name ≡ name.now → OnOk result (AreNames (fields ++ (f ∷ [])) names.new) }
{
    if data_type.has_column() {
        names.insert(name)
    } else {
        Ok(true)
    }
}

// The name in a row.
fn read_name<'a>(
    alloc: Global,
    row: u32,
    data_type: DataType,
    name: &'a [u8],
    names: &mut BTreeSet<&'a [u8]>,
) -> Result<Octets, DefinitionFault>
    ensures ok { (fields : List Field) → AreNames fields names.old
        → IfOk result (λ octets. field_name_of row data_type name.now fields ≡ Ok octets) }
    ensures refused { (fields : List Field) → AreNames fields names.old
        → IfErr result (λ f. f ≢ DefinitionFault.NoMemory → field_name_of row data_type name.now fields ≡ Err f) }
    ensures names { (fields : List Field) (f : Field) → AreNames fields names.old → f.data_type ≡ data_type
        → IfOk result (λ octets. f.name ≡ octets → AreNames (fields ++ (f ∷ [])) names.new) }
{
    if name.is_empty() {
        return Err(DefinitionFault::Name { row });
    }
    match add_name(names, data_type, name) {
        Ok(true) => {}
        Ok(false) => return Err(DefinitionFault::Name { row }),
        Err(_) => return Err(DefinitionFault::NoMemory),
    }
    match Vec::from_slice(alloc, name) {
        Ok(octets) => Ok(Octets::new(octets)),
        Err(_) => Err(DefinitionFault::NoMemory),
    }
}

/// The field of a record that comes after these fields, which have these names. The last of them ends at `before`.
pub(crate) fn read_field<'a>(
    alloc: Global,
    columns: &Columns,
    values: &'a ByteRecord,
    fields: &[Field],
    names: &mut BTreeSet<&'a [u8]>,
    before: u32,
) -> Result<Field, DefinitionFault>
    requires few { length fields.now < 1000 }
    requires names { AreNames fields.now names.old }
    requires before { before ≡ last_end 48 fields.now }
    ensures ok { IfOk result (λ f. defined_field_of columns.now fields.now (fields_of values.now) ≡ Ok f) }
    ensures refused { IfErr result (λ f. f ≢ DefinitionFault.NoMemory
        → defined_field_of columns.now fields.now (fields_of values.now) ≡ Err f) }
    ensures sound { IfOk result (λ f. is_sound f ≡ true) }
    ensures names { IfOk result (λ f. AreNames (fields.now ++ (f ∷ [])) names.new) }
{
    let row = fields.len() as u32 + 1;
    let data_type = read_type(row, value_at(values, columns.data_type))?;
    let length = read_length(row, data_type, value_at(values, columns.bit_length))?;
    let begin = read_begin(row, before, length, offset_at(values, columns))?;
    let name = read_name(alloc, row, data_type, value_at(values, columns.name), names)?;
    Ok(Field {
        name,
        data_type,
        begin,
        length,
    })
}
