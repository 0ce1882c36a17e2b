//! Lines of faults that are refused memory, one request after the other.

use std::alloc::Global;
use std::process::Abort;
use std::rt::Files;
use std::test::Fail;
use tm_memory::{Answer, NOTHING_HELD, Turns, try_twice};
use tm_program::{Octets, RunFault, ToolFault, fault_line};
use tm_settings::{Key, SettingsFault};

// A name with octets that are printed as others.
fn foreign(alloc: Global) -> Option<Octets> {
    match Vec::from_slice(alloc, "a\\b \u{e9}\n".as_bytes()) {
        Ok(octets) => Some(Octets::new(octets)),
        Err(_) => None,
    }
}

// Asks for the line of a fault in turn.
fn lines_in_turn<R: Files + AllocGlobal + Abort>(rt: &R, fault: &ToolFault, wanted: &str) -> bool {
    let mut turns = Turns::new(rt).expect(rt, NOTHING_HELD);
    for _ in 0..turns.most() {
        let answer = match fault_line(rt.alloc(), fault) {
            Ok(line) => Answer::right_if(line.as_slice() == wanted.as_bytes()),
            Err(_) => Answer::Refused,
        };
        if !turns.take(answer) {
            break;
        }
    }
    turns.has_passed()
}

#[test]
fn refused_lines(rt: HostRuntime) -> Result<(), Fail> {
    // guards: fault-lines-and-exit-statuses
    let alloc = rt.alloc();
    let name = try_twice(|| foreign(alloc)).ok_or("a name")?;
    let table = [
        (
            ToolFault::File(name),
            "tmx: a\\x5cb \\xc3\\xa9\\x0a: failed\n",
        ),
        (
            ToolFault::Settings(SettingsFault::Range(Key::FrameLength)),
            "tmx: settings: range frame_length\n",
        ),
        (ToolFault::Run(RunFault::NoMemory), "tmx: out of memory\n"),
    ];
    for (fault, wanted) in &table {
        assert!(rt; lines_in_turn(&rt, fault, wanted));
    }
    Ok(())
}
