//! The texts that faults are printed as: those of the lines that the program prints of them.

use std::alloc::Global;
use std::fmt::Display;
use std::string::ToString;
use tm_tool::{CheckpointFault, RunFault};

// What is printed of a fault is this text.
fn is_printed<F: Display>(alloc: Global, fault: &F, text: &str) -> bool {
    match fault.to_string(alloc) {
        Ok(printed) => printed.as_str() == text,
        Err(_) => false,
    }
}

#[test]
fn run_faults(rt: HostRuntime) {
    // guards: what-is-only-tested
    let texts = [
        (RunFault::Read, "read failed"),
        (RunFault::Write, "write failed"),
        (RunFault::Report, "report failed"),
        (
            RunFault::ShortRecording,
            "recording is shorter than the checkpoint",
        ),
        (RunFault::TooMany, "too many records"),
        (RunFault::NoMemory, "out of memory"),
    ];
    for (fault, text) in texts {
        assert!(rt; is_printed(rt.alloc(), &fault, text));
    }
}

#[test]
fn checkpoint_faults(rt: HostRuntime) {
    // guards: what-is-only-tested
    let texts = [
        (CheckpointFault::Short, "short"),
        (CheckpointFault::Magic, "magic"),
        (CheckpointFault::Version, "version"),
        (CheckpointFault::Check, "check"),
        (CheckpointFault::Settings, "settings"),
        (CheckpointFault::State, "state"),
        (CheckpointFault::Trailing, "trailing"),
        (CheckpointFault::NoMemory, "out of memory"),
    ];
    for (fault, text) in texts {
        assert!(rt; is_printed(rt.alloc(), &fault, text));
    }
}
