//! The line and the status of a fault.

ghost use Rattle.std.specs.Prelude.{◌≡◌, IfOk};
ghost use Rattle.tm_faults.specs.FaultLines.{checkpoint_text, column_line, definition_text, escaped_line, key_line, fault_line_of, row_line, run_text, settings_text, status_of, usage_text};

use crate::{
    CheckpointFault, Column, DefinitionFault, Key, NoMemory, RunFault, SettingsFault, ToolFault,
    UsageFault,
};
use std::alloc::Global;
use tm_bits::push_escaped;

// A copy of a text.
fn copy_of(alloc: Global, text: &str) -> Result<Vec<u8>, NoMemory>
    ensures { IfOk result (λ v. v.items ≡ text.now) }
{
    Ok(Vec::from_slice(alloc, text.as_bytes())?)
}

// A line with foreign octets in it.
fn line_around(alloc: Global, before: &str, octets: &[u8], after: &str) -> Result<Vec<u8>, NoMemory>
    ensures { IfOk result (λ v. v.items ≡ escaped_line before.now octets.now after.now) }
{
    let mut line = copy_of(alloc, before)?;
    push_escaped(&mut line, octets)?;
    line.extend_from_slice(after.as_bytes())?;
    Ok(line)
}

fn usage_line(alloc: Global, fault: &UsageFault) -> Result<Vec<u8>, NoMemory>
    ensures { IfOk result (λ v. v.items ≡ usage_text fault.now) }
{
    match fault {
        UsageFault::Usage(text) => Ok(Vec::from_slice(alloc, text.as_slice())?),
        UsageFault::StopAfter => copy_of(alloc, "tmx: --stop-after needs --checkpoint\n"),
        UsageFault::Help(text) => Ok(Vec::from_slice(alloc, text.as_slice())?),
        UsageFault::NoMemory => copy_of(alloc, "tmx: out of memory\n"),
    }
}

fn line_with_key(alloc: Global, what: &str, key: Key) -> Result<Vec<u8>, NoMemory>
    ensures { IfOk result (λ v. v.items ≡ key_line what.now key) }
{
    let word = key.word();
    Ok(format!(in alloc; "tmx: settings: {what} {word}\n")?.into_bytes())
}

fn settings_line(alloc: Global, fault: &SettingsFault) -> Result<Vec<u8>, NoMemory>
    ensures { IfOk result (λ v. v.items ≡ settings_text fault.now) }
{
    match fault {
        SettingsFault::Toml => copy_of(alloc, "tmx: settings: toml\n"),
        SettingsFault::Unknown(key) => {
            line_around(alloc, "tmx: settings: unknown ", key.as_slice(), "\n")
        }
        SettingsFault::Missing(key) => line_with_key(alloc, "missing", *key),
        SettingsFault::Kind(key) => line_with_key(alloc, "kind", *key),
        SettingsFault::Range(key) => line_with_key(alloc, "range", *key),
        SettingsFault::NoMemory => copy_of(alloc, "tmx: out of memory\n"),
    }
}

fn line_with_column(alloc: Global, column: Column) -> Result<Vec<u8>, NoMemory>
    ensures { IfOk result (λ v. v.items ≡ column_line column) }
{
    let word = column.word();
    Ok(format!(in alloc; "tmx: definition: column {word}\n")?.into_bytes())
}

fn line_with_row(alloc: Global, what: &str, row: u32) -> Result<Vec<u8>, NoMemory>
    ensures { IfOk result (λ v. v.items ≡ row_line what.now row) }
{
    Ok(format!(in alloc; "tmx: definition: {what} row {row}\n")?.into_bytes())
}

fn definition_line(alloc: Global, fault: DefinitionFault) -> Result<Vec<u8>, NoMemory>
    ensures { IfOk result (λ v. v.items ≡ definition_text fault) }
{
    match fault {
        DefinitionFault::Csv => copy_of(alloc, "tmx: definition: csv\n"),
        DefinitionFault::Column(column) => line_with_column(alloc, column),
        DefinitionFault::Kind { row } => line_with_row(alloc, "kind", row),
        DefinitionFault::Array { row } => line_with_row(alloc, "array", row),
        DefinitionFault::Bits { row } => line_with_row(alloc, "bits", row),
        DefinitionFault::Offset { row } => line_with_row(alloc, "offset", row),
        DefinitionFault::Name { row } => line_with_row(alloc, "name", row),
        DefinitionFault::TooMany => copy_of(alloc, "tmx: definition: too many\n"),
        DefinitionFault::NoMemory => copy_of(alloc, "tmx: out of memory\n"),
    }
}

fn checkpoint_line(fault: CheckpointFault) -> &'static str
    ensures { result.now ≡ checkpoint_text fault }
{
    match fault {
        CheckpointFault::Short => "tmx: checkpoint: short\n",
        CheckpointFault::Magic => "tmx: checkpoint: magic\n",
        CheckpointFault::Version => "tmx: checkpoint: version\n",
        CheckpointFault::Check => "tmx: checkpoint: check\n",
        CheckpointFault::Settings => "tmx: checkpoint: settings\n",
        CheckpointFault::State => "tmx: checkpoint: state\n",
        CheckpointFault::Trailing => "tmx: checkpoint: trailing\n",
        CheckpointFault::NoMemory => "tmx: out of memory\n",
    }
}

fn run_line(fault: RunFault) -> &'static str
    ensures { result.now ≡ run_text fault }
{
    match fault {
        RunFault::Read => "tmx: read failed\n",
        RunFault::Write => "tmx: write failed\n",
        RunFault::Report => "tmx: report failed\n",
        RunFault::ShortRecording => "tmx: recording is shorter than the checkpoint\n",
        RunFault::TooMany => "tmx: too many records\n",
        RunFault::NoMemory => "tmx: out of memory\n",
    }
}

/// The line of a fault, as it is printed. That of a usage fault is the text that it carries. There is none where standard error must not be
/// written.
pub fn fault_line(alloc: Global, fault: &ToolFault) -> Result<Vec<u8>, NoMemory>
    ensures { IfOk result (λ v. v.items ≡ fault_line_of fault.now) }
{
    match fault {
        ToolFault::Usage(fault) => usage_line(alloc, fault),
        ToolFault::Settings(fault) => settings_line(alloc, fault),
        ToolFault::Definition(fault) => definition_line(alloc, *fault),
        ToolFault::Checkpoint(fault) => copy_of(alloc, checkpoint_line(*fault)),
        ToolFault::File(name) => line_around(alloc, "tmx: ", name.as_slice(), ": failed\n"),
        ToolFault::TooLong(name) => line_around(alloc, "tmx: ", name.as_slice(), ": too long\n"),
        ToolFault::Errors => Ok(Vec::new(alloc)),
        ToolFault::Run(fault) => copy_of(alloc, run_line(*fault)),
    }
}

/// The status with which a fault ends the program. It is 0 for help, and 1 where a device failed or there are too many records.
/// It is 2 for wrong arguments and files and for a recording that is too short, and 3 where memory ran out.
pub fn status(fault: &ToolFault) -> u8
    ensures { result ≡ status_of fault.now }
{
    match fault {
        ToolFault::Usage(UsageFault::Help(_)) => 0,
        ToolFault::Usage(UsageFault::NoMemory)
        | ToolFault::Settings(SettingsFault::NoMemory)
        | ToolFault::Definition(DefinitionFault::NoMemory)
        | ToolFault::Checkpoint(CheckpointFault::NoMemory)
        | ToolFault::Run(RunFault::NoMemory) => 3,
        ToolFault::File(_)
        | ToolFault::Errors
        | ToolFault::Run(RunFault::Read | RunFault::Write | RunFault::Report | RunFault::TooMany) =>
            1,
        ToolFault::Usage(UsageFault::Usage(_) | UsageFault::StopAfter)
        | ToolFault::Definition(_)
        | ToolFault::Settings(_)
        | ToolFault::Checkpoint(_)
        | ToolFault::TooLong(_)
        | ToolFault::Run(RunFault::ShortRecording) => 2,
    }
}
