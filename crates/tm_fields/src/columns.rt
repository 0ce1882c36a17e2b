//! The columns of a definition, by its headings.

ghost use Rattle.std.specs.Prelude.{◌≡◌};
ghost use Rattle.csv.specs.Records.{fields_of};
ghost use Rattle.tm_faults.specs.Columns.{column_word};
ghost use Rattle.tm_fields.specs.Columns.{at_most_one, columns_of, only, standing};
ghost use Rattle.tm_fields.specs.code.Reading.{met};
ghost use Rattle.tm_fields.specs.Values.{value};

use crate::words::{is_text, trim};
use csv::ByteRecord;
use tm_faults::{Column, DefinitionFault};

/// Where a heading stands among those of a definition.
#[derive(Clone, Copy)]
pub enum Standing {
    /// In no column.
    Nowhere,
    /// In this column alone, counted from 0.
    At(usize),
    /// In more than one column.
    Often,
}

/// The places of the columns that are read, counted from 0.
#[derive(Clone, Copy)]
pub struct Columns {
    /// That of the names.
    pub name: usize,
    /// That of the data types.
    pub data_type: usize,
    /// That of the lengths in bits.
    pub bit_length: usize,
    /// That of the offsets in bits, if there is one.
    pub bit_offset: Option<usize>,
}

/// A record's value in a column, trimmed; empty where there is none.
pub fn value_at(row: &ByteRecord, at: usize) -> &[u8]
    ensures { result.now ≡ value (fields_of row.now) at }
{
    match row.get(at) {
        Some(octets) => trim(octets),
        None => &[],
    }
}

// What is known of a heading that stands at one more place.
fn once_more(found: Standing, at: usize) -> Standing
    ensures { result ≡ met found at }
{
    match found {
        Standing::Nowhere => Standing::At(at),
        _ => Standing::Often,
    }
}

// Where this heading stands.
#[tactic(auto, using(crate::proofs::Places::standing_first))]
fn find_heading(headings: &ByteRecord, word: &[u8]) -> Standing
    ensures { result ≡ standing word.now (fields_of headings.now) }
{
    let mut found = Standing::Nowhere;
    for at in 0..headings.len() {
        if is_text(value_at(headings, at), word) {
            found = once_more(found, at);
        }
    }
    found
}

// The place of a column that has to stand at one place.
fn find_one(headings: &ByteRecord, column: Column) -> Result<usize, DefinitionFault>
    ensures { result ≡ only column (standing (column_word column) (fields_of headings.now)) }
{
    match find_heading(headings, column.word().as_bytes()) {
        Standing::At(at) => Ok(at),
        _ => Err(DefinitionFault::Column(column)),
    }
}

// The place of a column that may be left out.
fn find_at_most_one(headings: &ByteRecord, column: Column) -> Result<Option<usize>, DefinitionFault>
    ensures { result ≡ at_most_one column (standing (column_word column) (fields_of headings.now)) }
{
    match find_heading(headings, column.word().as_bytes()) {
        Standing::Nowhere => Ok(None),
        Standing::At(at) => Ok(Some(at)),
        Standing::Often => Err(DefinitionFault::Column(column)),
    }
}

/// The places of the columns under these headings.
pub(crate) fn find_columns(headings: &ByteRecord) -> Result<Columns, DefinitionFault>
    ensures { result ≡ columns_of (fields_of headings.now) }
{
    let name = find_one(headings, Column::Name)?;
    let data_type = find_one(headings, Column::DataType)?;
    let bit_length = find_one(headings, Column::BitLength)?;
    let bit_offset = find_at_most_one(headings, Column::BitOffset)?;
    Ok(Columns {
        name,
        data_type,
        bit_length,
        bit_offset,
    })
}
