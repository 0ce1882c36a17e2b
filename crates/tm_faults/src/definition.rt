//! The columns of a definition of fields, and why a text is no definition.

ghost use Rattle.std.specs.Prelude.{◌≡◌};

use std::alloc::AllocError;

/// A column that a definition has.
#[derive(Clone, Copy, Debug, PartialEq, Eq)]
pub enum Column {
    /// The fields' names.
    Name,
    /// The fields' types.
    DataType,
    /// The fields' lengths, in bits.
    BitLength,
    /// Where the fields begin, in bits: it may be left out.
    BitOffset,
}

impl Column {
    ghost use Rattle.tm_faults.specs.Columns.{column_word};

    /// The column's heading.
    pub fn word(self) -> &'static str
        ensures { result.now ≡ column_word self }
    {
        match self {
            Column::Name => "name",
            Column::DataType => "data_type",
            Column::BitLength => "bit_length",
            Column::BitOffset => "bit_offset",
        }
    }
}

/// Why a text is no definition. Rows are the records after the heading, counted from 1.
#[derive(Clone, Copy, Debug, PartialEq, Eq)]
pub enum DefinitionFault {
    /// Two records have different numbers of values.
    Csv,
    /// The column has no heading, or more than one.
    Column(Column),
    /// The row's `data_type` is no type.
    Kind { row: u32 },
    /// The row's `data_type` is a type with brackets after it.
    Array { row: u32 },
    /// The row's `bit_length` is no length that its type may have.
    Bits { row: u32 },
    /// The row's `bit_offset` is no offset, or the field ends after the longest packet.
    Offset { row: u32 },
    /// The row's `name` is empty, or the name of an earlier field.
    Name { row: u32 },
    /// There are more than 1000 rows.
    TooMany,
    /// Memory ran out.
    NoMemory,
}

impl From<AllocError> for DefinitionFault {
    ghost use Rattle.tm_faults.specs.declared.definition.DefinitionFault.TheVariants.{NoMemory};

    ghost from_gives = { λ _ e. e ≡ NoMemory };

    fn from(_: AllocError) -> Self {
        DefinitionFault::NoMemory
    }
}
