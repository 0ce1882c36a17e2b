//! Files that are not read, and files that can't be made.

use crate::arguments::owned_strings;
use std::fs::{self, File};
use std::io::{self, Write};
use std::test::Fail;
use tm_program::{ProgramOutcome, RunFault, ToolFault, fault_line, run};
use tm_settings::{Key, SettingsFault};

// Does what these arguments ask for, and forgets the report.
fn run_with(
    rt: &HostRuntime,
    arguments: &[&str],
) -> Result<Result<ProgramOutcome, ToolFault>, Fail> {
    let alloc = rt.alloc();
    let arguments = owned_strings(alloc, arguments).ok_or("words")?;
    Ok(run(rt, arguments, Vec::new(alloc)))
}

#[test]
fn files_that_are_not_read(rt: HostRuntime) -> Result<(), Fail> {
    // guards: faults-name-the-file-as-it-was-given
    let table = [
        ("no such file", "tmx: no such file: failed\n"),
        ("/", "tmx: /: failed\n"),
        ("/dev/zero", "tmx: /dev/zero: too long\n"),
        ("/dev/null", "tmx: settings: missing spacecraft\n"),
    ];
    for (name, line) in table {
        let Err(fault) = run_with(&rt, &["frames", "--settings", name])? else {
            return Err(Fail::from("it was read"));
        };
        let Ok(found) = fault_line(rt.alloc(), &fault) else {
            return Err(Fail::from("no memory"));
        };
        assert_eq!(rt; found.as_slice(), line.as_bytes());
    }
    Ok(())
}

const SETTINGS: &str = "spacecraft = 42\nframe_length = 24\nerror_control = false\n";

// One record, which has two packets.
const RECORDING: &[u8] =
    b"\x02\xa0\x00\x00\x18\x00\x00\x64\xc0\x00\x00\x00\x55\x00\x64\xc0\x01\x00\x04\x55\x55\x55\x55\x55";

// Makes a file with these octets.
fn make(rt: &HostRuntime, name: &str, octets: &[u8]) -> io::Result<()> {
    let mut file = File::create(rt, name)?;
    file.write_all(octets)
}

#[test]
fn split_without_folder(rt: HostRuntime) -> Result<(), Fail> {
    // guards: each-fault-traces-to-a-word-or-a-file
    let made = make(&rt, "split.toml", SETTINGS.as_bytes()).is_ok()
        && make(&rt, "split.frames", RECORDING).is_ok();
    let arguments = [
        "split",
        "--settings=split.toml",
        "--dir=no such folder",
        "split.frames",
    ];
    let found = run_with(&rt, &arguments);
    let removed = fs::remove_file(&rt, "split.toml").is_ok()
        && fs::remove_file(&rt, "split.frames").is_ok();
    assert!(rt; made && removed);
    assert!(rt; matches!(found?, Err(ToolFault::Run(RunFault::Write))));
    Ok(())
}
