//! Why a file is no definition of fields.

use crate::explanation::EndedRun;
use crate::phrases::{Said, Untold, text_of};
use csv::{ByteRecord, ByteRecordsIntoIter, ErrorKind, ReaderBuilder};
use std::alloc::Global;
use std::rt::Files;
use tm_fields::{Column, DefinitionFault, value_at};
use tm_file_identity::Place;

// The records of a text, the heading first.
fn records_in(alloc: Global, text: &[u8]) -> ByteRecordsIntoIter<&[u8]> {
    ReaderBuilder::new()
        .has_headers(false)
        .from_reader(alloc, text)
        .into_byte_records()
}

// Which record has another number of values than the heading.
fn lengths_text(alloc: Global, file: &str, text: &[u8]) -> Said {
    for (row, record) in records_in(alloc, text).enumerate() {
        if let Err(error) = record
            && let ErrorKind::UnequalLengths {
                expected_len,
                len,
                ..
            } = error.kind()
        {
            return Ok(format!(in alloc;
                "{file}: row {row} has {len} values, and the heading {expected_len}; \
                give each line as many, and quote a value with a comma"
            )?);
        }
    }
    Err(Untold::Unknown)
}

// The record of a row of a text; the heading is row 0.
fn record_at(alloc: Global, text: &[u8], row: u32) -> Result<ByteRecord, Untold> {
    let record = records_in(alloc, text).nth(row as usize);
    record.ok_or(Untold::Unknown)?.map_err(|_| Untold::Unknown)
}

// The value of a record in a column; empty where there is none, or it is no text.
fn value_of<'r>(heading: &ByteRecord, record: &'r ByteRecord, column: Column) -> &'r str {
    let word = column.word().as_bytes();
    let at = (0..heading.len()).find(|at| value_at(heading, *at) == word);
    at.map_or("", |at| text_of(value_at(record, at)))
}

// What the value of a column may be in the row of a field of this type.
fn values_of(column: Column, data_type: &str) -> &'static str {
    match (column, data_type) {
        (Column::BitOffset, _) => "at most 524336 less the length",
        (_, "uint" | "int") => "1 to 64",
        (_, "float") => "16, 32 or 64",
        (_, "str") => "a multiple of 8 from 8 to 524336",
        _ => "1 to 524336",
    }
}

impl<R: Files + AllocGlobal> EndedRun<'_, R> {
    /// Why the file of the definition is refused: by the numbers of values, or the length or offset of a field.
    pub(crate) fn definition_text(&self, file: &str, fault: DefinitionFault) -> Said {
        let alloc = self.rt.alloc();
        let octets = self.octets_at(Place::Definition)?;
        let text = octets.as_slice();
        let (row, column) = match fault {
            DefinitionFault::Bits { row } => (row, Column::BitLength),
            DefinitionFault::Offset { row } => (row, Column::BitOffset),
            _ => return lengths_text(alloc, file, text),
        };
        let (heading, record) = (record_at(alloc, text, 0)?, record_at(alloc, text, row)?);
        let name = value_of(&heading, &record, Column::Name);
        let data_type = value_of(&heading, &record, Column::DataType);
        let (key, value) = (column.word(), value_of(&heading, &record, column));
        let values = values_of(column, data_type);
        Ok(format!(in alloc;
            "{file}, field {name} of type {data_type}: {key} is {value}; it has to be {values}, in one to nine digits"
        )?)
    }
}
