//! `tmx`: reads recordings of TM transfer frames (CCSDS 132.0-B-3).
#![tactic(auto)]

use std::cell::Cell;
use std::env;
use std::io::{ErrorKind, IsTerminal, Write};
use std::process::ExitCode;
use std::rt::Env;
use tm_devices::Watched;
use tm_explanations::{Asked, DoneRun, Explanation, ask, explain, explain_losses, explain_words};
use tm_program::{
    Found, Octets, ProgramOutcome, RunFault, ToolFault, Totals, UsageFault, fault_line, run, status,
};

const NOT_TEXT: &str =
    "error: the arguments are not UTF-8\n\nFor more information, try '--help'.\n";

// The arguments after the program's name.
fn all_arguments(rt: &HostRuntime) -> Result<Vec<String>, ToolFault> {
    let alloc = rt.alloc();
    match env::args(rt) {
        Ok(args) => args
            .skip(1)
            .collect(alloc)
            .map_err(|_| ToolFault::Run(RunFault::NoMemory)),
        Err(error) if error.kind() == ErrorKind::OutOfMemory => Err(ToolFault::Run(
            RunFault::NoMemory,
        )),
        Err(_) => match Vec::from_slice(alloc, NOT_TEXT.as_bytes()) {
            Ok(text) => Err(ToolFault::Usage(UsageFault::Usage(Octets::new(text)))),
            Err(_) => Err(ToolFault::Run(RunFault::NoMemory)),
        },
    }
}

// The words of the command line. `help` in front of the others is `--help` after them.
fn all_words(rt: &HostRuntime) -> Result<Vec<String>, ToolFault> {
    let mut words = all_arguments(rt)?;
    if words.is_empty() || words[0].as_str() != "help" {
        return Ok(words);
    }
    drop(words.remove(0));
    let Ok(option) = String::from_str(rt.alloc(), "--help") else {
        return Err(ToolFault::Run(RunFault::NoMemory));
    };
    match words.push(option) {
        Ok(()) => Ok(words),
        Err(_) => Err(ToolFault::Run(RunFault::NoMemory)),
    }
}

// Whether a second line is wanted on standard error. A value of `TMX_EXPLAIN` that is longer than an octet is as none.
fn ask_for_explanation(rt: &HostRuntime) -> Option<Asked> {
    let mut value = [0u8; 1];
    let length = match rt.var("TMX_EXPLAIN", &mut value) {
        Ok(length) => length,
        Err(_) => 0,
    };
    ask(&value[..length], rt.stderr().is_terminal())
}

// What is said after the line of a fault, where it is wanted: why it came, and what to do. The number is that of the system's first error.
fn explanation(rt: &HostRuntime, fault: &ToolFault, number: Option<i32>) -> Option<Explanation> {
    let wanted = ask_for_explanation(rt)?;
    let found = match all_words(rt) {
        Ok(words) => explain(rt, wanted, words, fault, number),
        Err(fault) if matches!(&fault, ToolFault::Usage(_)) => explain_words(rt, wanted),
        Err(_fault) => return None,
    };
    match found {
        Ok(line) => line,
        Err(_) => None,
    }
}

// Prints the line of a fault on standard error, and after it, where that is wanted, why the fault came.
fn refuse(rt: &HostRuntime, fault: &ToolFault, number: Option<i32>) -> ExitCode {
    let mut errors = rt.stderr();
    let code = match fault_line(rt.alloc(), fault) {
        Ok(line) => {
            let _ = errors.write_all(line.as_slice());
            ExitCode::from(status(fault))
        }
        Err(_) => {
            let _ = errors.write_all(b"tmx: out of memory\n");
            ExitCode::from(3)
        }
    };
    if let Some(line) = explanation(rt, fault, number) {
        let _ = errors.write_all(line.as_slice());
    }
    code
}

// What is known of a run that is done. A summary has told all by its lines.
fn done_run(outcome: ProgramOutcome) -> DoneRun {
    let mut totals = Totals::none();
    let (records, is_told) = match outcome.found {
        Found::Frames(listed) => {
            totals.good = u64::from(listed.good);
            totals.bad = u64::from(listed.records.saturating_sub(listed.good));
            (listed.records, false)
        }
        Found::Summary(summed) => {
            totals.good = u64::from(summed.has_good_frame);
            totals.has_losses = true;
            (summed.records, true)
        }
        Found::Packets {
            records,
            totals: found,
        } => {
            totals = found;
            if outcome.has_all_channels {
                totals.absent = [false; 8];
            }
            (records, outcome.reports_to_errors)
        }
    };
    DoneRun {
        records,
        totals,
        is_told,
    }
}

// Says, where a second line is wanted, what a run that is done has lost.
fn remark(rt: &HostRuntime, outcome: ProgramOutcome) {
    if let Some(wanted) = ask_for_explanation(rt)
        && let Ok(words) = all_words(rt)
        && let Ok(Some(line)) = explain_losses(rt, wanted, words, &done_run(outcome))
    {
        let _ = rt.stderr().write_all(line.as_slice());
    }
}

// Prints a help text on standard output.
fn help(rt: &HostRuntime, fault: &ToolFault) -> ExitCode {
    let Ok(text) = fault_line(rt.alloc(), fault) else {
        return refuse(rt, &ToolFault::Run(RunFault::NoMemory), None);
    };
    match rt.stdout().write_all(text.as_slice()) {
        Ok(()) => ExitCode::from(status(fault)),
        Err(error) => refuse(rt, &ToolFault::Run(RunFault::Write), error.raw_os_error()),
    }
}

fn main(rt: HostRuntime) -> ExitCode {
    let first = Cell::new(None);
    let done = match all_words(&rt) {
        Ok(words) => run(&Watched::new(&rt, &first), words, rt.stderr()),
        Err(fault) => Err(fault),
    };
    match done {
        Ok(outcome) => {
            remark(&rt, outcome);
            ExitCode::from(outcome.status())
        }
        Err(fault) if matches!(&fault, ToolFault::Usage(UsageFault::Help(_))) => help(&rt, &fault),
        Err(fault) => refuse(&rt, &fault, first.get()),
    }
}
