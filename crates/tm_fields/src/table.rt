//! Tables of comma-separated values.

ghost use Rattle.std.specs.Prelude.{◌≡◌, ◌≢◌, ◌≤◌, [], ◌∷◌, ◌++◌, true, false, length, map, IfOk, IfErr, OnOk, IsErrOf};
ghost use Rattle.csv.specs.Reading.{error_kind};
ghost use Rattle.csv.specs.Records.{fields_of};
ghost use Rattle.tm_fields.specs.Table.{same_lengths, table};
ghost use Rattle.tm_fields.specs.code.Reading.{fault_of_kind, kept};

use csv::{ByteRecord, Error, ErrorKind, ReaderBuilder};
use std::alloc::{AllocError, Global};
use tm_faults::DefinitionFault;

// A text in memory gives no error of its own, so what isn't of lengths is of memory.
fn fault_of(error: Error) -> DefinitionFault
    ensures { result ≡ fault_of_kind (error_kind error) }
{
    match error.into_kind() {
        ErrorKind::UnequalLengths { .. } => DefinitionFault::Csv,
        _ => DefinitionFault::NoMemory,
    }
}

// As many records as can count: the heading, 1000 fields, and one that is too many.
const MOST_ROWS: usize = 1002;

// Keeps a further record, if it can count.
#[tactic(auto, using(std::proofs::lemmas::Grind::common_steps, crate::proofs::Kept::kept_short, crate::proofs::Kept::kept_full))]
fn keep(rows: &mut Vec<ByteRecord>, row: ByteRecord) -> Result<(), AllocError>
    requires few { length rows.old.items ≤ 1002 }
    ensures kept { OnOk result (map fields_of rows.new.items ≡ kept (map fields_of rows.old.items ++ (fields_of row ∷ []))) }
    ensures few { length rows.new.items ≤ 1002 }
{
    if rows.len() < MOST_ROWS {
        rows.push(row)?;
    }
    Ok(())
}

/// The records of a text that can count, the heading first. The text is read to its end.
pub(crate) fn read_table(alloc: Global, text: &[u8]) -> Result<Vec<ByteRecord>, DefinitionFault>
    ensures rows { IfOk result (λ rows. map fields_of rows.items ≡ kept (table text.now)) }
    ensures same { IfOk result (λ rows. same_lengths (table text.now) ≡ true) }
    ensures csv { IsErrOf result DefinitionFault.Csv → same_lengths (table text.now) ≡ false }
    ensures only { IfErr result (λ f. f ≢ DefinitionFault.NoMemory → f ≡ DefinitionFault.Csv) }
{
    let reader = ReaderBuilder::new()
        .has_headers(false)
        .from_reader(alloc, text);
    let mut rows = Vec::new(alloc);
    for row in reader.into_byte_records() {
        match row {
            Ok(row) => keep(&mut rows, row)?,
            Err(error) => return Err(fault_of(error)),
        }
    }
    Ok(rows)
}
