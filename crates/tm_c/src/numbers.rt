//! The numbers that stand for refusals, as `include/tmx.h` has them.

ghost use Rattle.std.specs.Prelude.{◌≡◌};
ghost use Rattle.tm_c.specs.Numbers.{
  about_key,
  about_row,
  checkpoint_number,
  column_number,
  definition_numbers,
  input_number,
  key_number,
  refusal_numbers,
  settings_numbers,
  with_status,
};

use crate::structs::Numbers;
use tm_fields::{Column, DefinitionFault};
use tm_library::{Input, Refusal};
use tm_tool::{CheckpointFault, Key, SettingsFault};

/// A status and a fault, which is about nothing more.
pub fn with_status(status: u32, fault: u32) -> Numbers
    ensures { result ≡ with_status status fault }
{
    Numbers {
        status,
        fault,
        key: 0,
        column: 0,
        row: 0,
    }
}

// Keys are numbered in the order of the docs.
fn key_number(key: Key) -> u32
    ensures { result ≡ key_number key }
{
    match key {
        Key::Spacecraft => 1,
        Key::FrameLength => 2,
        Key::SkipBefore => 3,
        Key::SkipAfter => 4,
        Key::Secondary => 5,
        Key::Ocf => 6,
        Key::ErrorControl => 7,
        Key::Channels => 8,
        Key::MaxPacket => 9,
    }
}

// A fault of the settings that is about a key.
fn about_key(fault: u32, key: Key) -> Numbers
    ensures { result ≡ about_key fault key }
{
    let mut numbers = with_status(3, fault);
    numbers.key = key_number(key);
    numbers
}

fn settings_numbers(fault: &SettingsFault) -> Numbers
    ensures { result ≡ settings_numbers fault.now }
{
    match fault {
        SettingsFault::Toml => with_status(3, 1),
        SettingsFault::Unknown(_) => with_status(3, 2),
        SettingsFault::Missing(key) => about_key(3, *key),
        SettingsFault::Kind(key) => about_key(4, *key),
        SettingsFault::Range(key) => about_key(5, *key),
        SettingsFault::NoMemory => with_status(6, 0),
    }
}

fn checkpoint_number(fault: CheckpointFault) -> u32
    ensures { result ≡ checkpoint_number fault }
{
    match fault {
        CheckpointFault::Short => 1,
        CheckpointFault::Magic => 2,
        CheckpointFault::Version => 3,
        CheckpointFault::Check => 4,
        CheckpointFault::Settings => 5,
        CheckpointFault::State => 6,
        CheckpointFault::Trailing => 7,
        CheckpointFault::NoMemory => 8,
    }
}

// Columns are numbered in the order of the docs.
fn column_number(column: Column) -> u32
    ensures { result ≡ column_number column }
{
    match column {
        Column::Name => 1,
        Column::DataType => 2,
        Column::BitLength => 3,
        Column::BitOffset => 4,
    }
}

// A fault of a definition that is about a row.
fn about_row(fault: u32, row: u32) -> Numbers
    ensures { result ≡ about_row fault row }
{
    let mut numbers = with_status(7, fault);
    numbers.row = row;
    numbers
}

fn definition_numbers(fault: DefinitionFault) -> Numbers
    ensures { result ≡ definition_numbers fault }
{
    match fault {
        DefinitionFault::Csv => with_status(7, 1),
        DefinitionFault::Column(column) => {
            let mut numbers = with_status(7, 2);
            numbers.column = column_number(column);
            numbers
        }
        DefinitionFault::Kind { row } => about_row(3, row),
        DefinitionFault::Array { row } => about_row(4, row),
        DefinitionFault::Bits { row } => about_row(5, row),
        DefinitionFault::Offset { row } => about_row(6, row),
        DefinitionFault::Name { row } => about_row(7, row),
        DefinitionFault::TooMany => with_status(7, 8),
        DefinitionFault::NoMemory => with_status(6, 0),
    }
}

// What a call reads beside the recording is numbered in the order of reading.
fn input_number(input: Input) -> u32
    ensures { result ≡ input_number input }
{
    match input {
        Input::Settings => 1,
        Input::Definition => 2,
        Input::Checkpoint => 3,
    }
}

/// The numbers of a refusal.
pub fn refusal_numbers(refusal: &Refusal) -> Numbers
    ensures { result ≡ refusal_numbers refusal.now }
{
    match refusal {
        Refusal::TooLong(input) => with_status(10, input_number(*input)),
        Refusal::Settings(fault) => settings_numbers(fault),
        Refusal::Definition(fault) => definition_numbers(*fault),
        Refusal::Checkpoint(fault) => with_status(4, checkpoint_number(*fault)),
        Refusal::TooMany => with_status(5, 0),
        Refusal::NoMemory => with_status(6, 0),
    }
}
