//! Faults with their lines and statuses.

use std::alloc::{AllocError, Global};
use std::test::Fail;
use tm_fields::{Column, DefinitionFault};
use tm_program::{Octets, RunFault, ToolFault, UsageFault, fault_line, status};
use tm_settings::{Key, SettingsFault};
use tm_tool::CheckpointFault;

// The octets of a text.
fn octets_of(alloc: Global, text: &str) -> Result<Octets, AllocError> {
    Ok(Octets::new(Vec::from_slice(alloc, text.as_bytes())?))
}

// The fault has this line and this status.
fn is_told(alloc: Global, fault: &ToolFault, line: &str, code: u8) -> bool {
    match fault_line(alloc, fault) {
        Ok(found) => found.as_slice() == line.as_bytes() && status(fault) == code,
        Err(_) => false,
    }
}

#[test]
fn lines_and_statuses(rt: HostRuntime) {
    // guards: fault-lines-and-exit-statuses
    let table = [
        (
            ToolFault::Usage(UsageFault::StopAfter),
            "tmx: --stop-after needs --checkpoint\n",
            2,
        ),
        (
            ToolFault::Settings(SettingsFault::Range(Key::FrameLength)),
            "tmx: settings: range frame_length\n",
            2,
        ),
        (
            ToolFault::Settings(SettingsFault::Range(Key::MaxPacket)),
            "tmx: settings: range max_packet\n",
            2,
        ),
        (
            ToolFault::Settings(SettingsFault::Kind(Key::MaxPacket)),
            "tmx: settings: kind max_packet\n",
            2,
        ),
        (ToolFault::Errors, "", 1),
        (
            ToolFault::Settings(SettingsFault::Toml),
            "tmx: settings: toml\n",
            2,
        ),
        (ToolFault::Run(RunFault::Read), "tmx: read failed\n", 1),
        (ToolFault::Run(RunFault::Write), "tmx: write failed\n", 1),
        (ToolFault::Run(RunFault::Report), "tmx: report failed\n", 1),
        (
            ToolFault::Run(RunFault::ShortRecording),
            "tmx: recording is shorter than the checkpoint\n",
            2,
        ),
        (
            ToolFault::Run(RunFault::TooMany),
            "tmx: too many records\n",
            1,
        ),
        (
            ToolFault::Run(RunFault::NoMemory),
            "tmx: out of memory\n",
            3,
        ),
    ];
    for (fault, line, code) in &table {
        assert!(rt; is_told(rt.alloc(), fault, line, *code), "{line}");
    }
}

// What the octets of a fault are.
#[derive(Clone, Copy)]
enum Text {
    Help,
    Usage,
    UnknownKey,
    FileName,
    LongFileName,
}

// The fault with these octets.
fn fault_with(text: Text, octets: Octets) -> ToolFault {
    match text {
        Text::Help => ToolFault::Usage(UsageFault::Help(octets)),
        Text::Usage => ToolFault::Usage(UsageFault::Usage(octets)),
        Text::UnknownKey => ToolFault::Settings(SettingsFault::Unknown(octets)),
        Text::FileName => ToolFault::File(octets),
        Text::LongFileName => ToolFault::TooLong(octets),
    }
}

#[test]
fn lines_with_octets(rt: HostRuntime) -> Result<(), Fail> {
    // guards: fault-lines-and-exit-statuses
    let alloc = rt.alloc();
    let table = [
        (Text::Help, "help\n", "help\n", 0),
        (Text::Usage, "usage\n", "usage\n", 2),
        (
            Text::UnknownKey,
            "colour",
            "tmx: settings: unknown colour\n",
            2,
        ),
        (
            Text::FileName,
            "a\\b \u{e9}\n",
            "tmx: a\\x5cb \\xc3\\xa9\\x0a: failed\n",
            1,
        ),
        (Text::LongFileName, "s.toml", "tmx: s.toml: too long\n", 2),
    ];
    for (text, octets, line, code) in table {
        let fault = fault_with(text, octets_of(alloc, octets)?);
        assert!(rt; is_told(alloc, &fault, line, code), "{line}");
    }
    Ok(())
}

#[test]
fn lines_of_definitions(rt: HostRuntime) -> Result<(), Fail> {
    // guards: fault-lines-and-exit-statuses
    let table = [
        (DefinitionFault::Csv, "csv"),
        (
            DefinitionFault::Column(Column::DataType),
            "column data_type",
        ),
        (DefinitionFault::Kind { row: 1 }, "kind row 1"),
        (DefinitionFault::Array { row: 20 }, "array row 20"),
        (DefinitionFault::Bits { row: 1000 }, "bits row 1000"),
        (DefinitionFault::Offset { row: 3 }, "offset row 3"),
        (DefinitionFault::Name { row: 4 }, "name row 4"),
        (DefinitionFault::TooMany, "too many"),
    ];
    for (fault, words) in table {
        let line = format!(in rt.alloc(); "tmx: definition: {words}\n")?;
        assert!(rt;
            is_told(rt.alloc(), &ToolFault::Definition(fault), &line, 2),
            "{words}"
        );
    }
    let no_memory = ToolFault::Definition(DefinitionFault::NoMemory);
    assert_eq!(rt; status(&no_memory), 3);
    Ok(())
}

#[test]
fn lines_of_checkpoints(rt: HostRuntime) -> Result<(), Fail> {
    // guards: fault-lines-and-exit-statuses
    let table = [
        (CheckpointFault::Short, "short"),
        (CheckpointFault::Magic, "magic"),
        (CheckpointFault::Version, "version"),
        (CheckpointFault::Check, "check"),
        (CheckpointFault::Settings, "settings"),
        (CheckpointFault::State, "state"),
        (CheckpointFault::Trailing, "trailing"),
    ];
    for (fault, word) in table {
        let line = format!(in rt.alloc(); "tmx: checkpoint: {word}\n")?;
        assert!(rt;
            is_told(rt.alloc(), &ToolFault::Checkpoint(fault), &line, 2),
            "{word}"
        );
    }
    let no_memory = ToolFault::Checkpoint(CheckpointFault::NoMemory);
    assert_eq!(rt; status(&no_memory), 3);
    Ok(())
}
