//! Packets and rows in octets: with devices that fail, and stopped.

use crate::bench::{Bench, By, Device};
use crate::runs::{TWO_CHANNELS, octets_of};
use crate::stops::{Going, goes_in_steps};
use std::alloc::Global;
use std::process::Abort;
use tm_fields::Definition;
use tm_tool::{Command, RunFault};

const DEFINITION: &[u8] = b"name,data_type,bit_length\nA,uint,8\n";

// The four packets of the two channels. Each comes after 16 octets: the record that completes it, the record in which it begins and its place
// there, its channel, and how many octets it has.
const PACKETS: &str = "02000000 01000000 0000 01 00 16000000 0064C000000F 55*16 \
    02000000 02000000 0400 01 00 0E000000 0064C0010007 55*8 \
    03000000 00000000 0000 00 00 1A000000 0064C0000013 55*20 \
    03000000 03000000 0800 00 00 0A000000 0064C0010003 55*4";

// A row of each: its record, application and count, its channel and seven zeros, and the octet after the header.
const ROWS: &str = "02000000 6400 0000 01 00*7 55 02000000 6400 0100 01 00*7 55 \
    03000000 6400 0000 00 00*7 55 03000000 6400 0100 00 00*7 55";

// Devices over the two channels that move five octets per call, where a call of one fails: the answer, if what was written is a prefix of these
// octets.
fn answer_at(
    alloc: Global,
    command: Command<'_>,
    octets: &[u8],
    device: Device,
    call: u64,
) -> Option<(Result<u32, RunFault>, usize)> {
    let mut bench = Bench::new(alloc, TWO_CHANNELS.settings, TWO_CHANNELS.recording, 5)?;
    bench.begin(device, call);
    let answer = bench.close(alloc, By::Run(command));
    let written = bench.out.octets.as_slice();
    if octets.starts_with(written) && bench.report.octets.is_empty() {
        Some((answer, written.len()))
    } else {
        None
    }
}

// Each write fails in turn: never less is written than where an earlier one fails. Where none fails all octets are.
fn writes_fail(alloc: Global, command: Command<'_>, octets: &[u8]) -> Option<bool> {
    let mut before = 0;
    for call in 1..=200u64 {
        let (answer, written) = answer_at(alloc, command, octets, Device::Out, call)?;
        if answer == Ok(4) {
            return Some(call > 10 && written == octets.len());
        }
        if answer != Err(RunFault::Write) || written < before {
            return Some(false);
        }
        before = written;
    }
    Some(false)
}

// Each read fails in turn: just the packets or rows of the records that were read are written. A record takes five reads, and the third one
// completes two packets, half of all octets.
fn reads_fail(alloc: Global, command: Command<'_>, octets: &[u8]) -> Option<bool> {
    for call in 1..=20u64 {
        let wanted = if call <= 15 { 0 } else { octets.len() / 2 };
        let (answer, written) = answer_at(alloc, command, octets, Device::Recording, call)?;
        if answer != Err(RunFault::Read) || written != wanted {
            return Some(false);
        }
    }
    let (answer, written) = answer_at(alloc, command, octets, Device::Recording, 200)?;
    Some(answer == Ok(4) && written == octets.len())
}

fn each_call_failing(rt: &impl Abort, alloc: Global, command: Command<'_>, octets: &str) {
    let octets = octets_of(alloc, octets).expect(rt, "octets");
    assert!(rt; writes_fail(alloc, command, &octets) == Some(true));
    assert!(rt; reads_fail(alloc, command, &octets) == Some(true));
}

#[test]
fn each_call_failing_by_binary_packets(rt: HostRuntime) {
    // guards: what-belongs-to-an-outlet
    each_call_failing(&rt, rt.alloc(), Command::BinaryPackets, PACKETS);
}

#[test]
fn each_call_failing_by_binary_fields(rt: HostRuntime) {
    // guards: what-belongs-to-an-outlet
    let alloc = rt.alloc();
    let definition = Definition::read(alloc, DEFINITION).expect(&rt, "the definition");
    each_call_failing(&rt, alloc, Command::BinaryFields(&definition, 100), ROWS);
}

// A job that is stopped after each record gives in all just these octets.
#[test]
fn binary_forms_in_steps(rt: HostRuntime) {
    // guards: a-resumed-job-gives-what-one-run-gives
    let alloc = rt.alloc();
    let definition = Definition::read(alloc, DEFINITION).expect(&rt, "the definition");
    let table = [
        (Command::BinaryPackets, PACKETS),
        (Command::BinaryFields(&definition, 100), ROWS),
    ];
    for (command, octets) in table {
        let octets = octets_of(alloc, octets).expect(&rt, "octets");
        for going in [Going::Kept, Going::Resumed(3)] {
            let right = goes_in_steps(alloc, &TWO_CHANNELS, By::Run(command), going, &octets);
            assert!(rt; right == Some(true));
        }
    }
}
