//! A run as another program calls it.

use std::alloc::Global;
use tm_tool::{Command, Done, Ending, Job, Reading, Settings, Writing, run};

const SETTINGS: &[u8] = b"spacecraft = 42\nframe_length = 24\nerror_control = false\n";

// A frame with a packet of 7 octets and one of 11.
const RECORDING: &[u8] =
    b"\x02\xA0\x00\x00\x18\x00\x00\x64\xC0\x00\x00\x00\x55\x00\x64\xC0\x01\x00\x04\x55\x55\x55\x55\x55";

// The records that are done, whether a job is kept, and how many octets of packets there are. The program takes the answer apart: it has
// these two parts and no other.
fn parts_of_done(alloc: Global) -> Option<(u32, bool, usize)> {
    let settings = Settings::read(alloc, SETTINGS).ok()?;
    let job = Job::new(alloc, &settings).ok()?;
    let (mut packets, mut lines) = (Vec::new(alloc), Vec::new(alloc));
    let answer = run(
        alloc,
        job,
        Command::Extract,
        &mut Reading::new(RECORDING),
        &mut Writing::new(&mut packets),
        &mut Writing::new(&mut lines),
        Ending::Keep,
    );
    let Done { records, kept } = answer.ok()?;
    Some((records, kept.is_some(), packets.len()))
}

#[test]
fn done_has_two_parts(rt: HostRuntime) {
    // guards: run-writes-exactly-its-records-pieces
    assert!(rt; parts_of_done(rt.alloc()) == Some((1, true, 18)));
}
