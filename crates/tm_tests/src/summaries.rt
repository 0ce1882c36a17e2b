//! Summaries of the worked recordings, by devices over memory, also by ones that fail.

use crate::bench::{Bench, By, Device};
use crate::runs::{POINTER_DROP_AND_SEQUENCE_GAP, Row, rows};
use std::alloc::Global;
use tm_tool::{Command, Ending, Job, RunFault, run_and_count, sum_up};

// All was read, just the lines of the row's summary were written, and its records were told.
fn is_summed(alloc: Global, bench: &mut Bench, row: &Row) -> bool {
    let answer = bench.summarize(alloc);
    answer == Ok(row.records)
        && bench.failed() == [0, 0, 0]
        && bench.has_given(row.summary.as_bytes(), b"")
}

// The summary of a row's recording is the row's.
fn row_is_summed(alloc: Global, row: &Row) -> Option<bool> {
    let mut bench = Bench::new(alloc, row.settings, row.recording, 65_536)?;
    Some(is_summed(alloc, &mut bench, row))
}

#[test]
fn summaries_of_worked_rows(rt: HostRuntime) {
    // guards: each-number-is-a-count-over-whole-lists
    let alloc = rt.alloc();
    for row in rows() {
        assert!(rt; row_is_summed(alloc, row) == Some(true), "{}", row.name);
    }
}

// How many lines begin with this.
fn count_lines(text: &str, word: &str) -> u64 {
    text.lines().filter(|line| line.starts_with(word)).count() as u64
}

// A line of the report tells a loss.
fn is_lost(line: &str) -> bool {
    !line.starts_with("vca ") && !line.starts_with("group ") && !line.starts_with("short ")
}

// A run and a summary tell of losses what the lines of the row's report do.
fn row_is_told(alloc: Global, row: &Row) -> Option<bool> {
    let mut bench = Bench::new(alloc, row.settings, row.recording, 65_536)?;
    let job = Job::new(alloc, &bench.settings).ok()?;
    let Bench {
        source,
        out,
        report,
        ..
    } = &mut bench;
    let counted = run_and_count(
        alloc,
        job,
        Command::Packets,
        source,
        out,
        report,
        Ending::Close,
    );
    let totals = counted.ok()?.totals;
    bench.begin(Device::Recording, 0);
    let Bench {
        settings,
        source,
        out,
        ..
    } = &mut bench;
    let summed = sum_up(alloc, settings, source, out).ok()?;
    let lost = row.report.lines().any(is_lost);
    Some(
        totals.has_losses == lost
            && summed.has_losses == lost
            && summed.has_good_frame == (totals.good > 0)
            && totals.bad == count_lines(row.report, "bad ")
            && totals.packets == count_lines(row.lines, "packet "),
    )
}

#[test]
fn losses_of_worked_rows(rt: HostRuntime) {
    // guards: each-number-is-a-count-over-whole-lists
    let alloc = rt.alloc();
    for row in rows() {
        assert!(rt; row_is_told(alloc, row) == Some(true), "{}", row.name);
    }
}

// The call of this number of the device fails. Nothing was written before all was read, and then a prefix of the lines.
fn stops(alloc: Global, bench: &mut Bench, row: &Row, device: Device, call: u64) -> bool {
    bench.begin(device, call);
    let (fault, most) = match device {
        Device::Recording => (RunFault::Read, 0),
        Device::Out | Device::Report => (RunFault::Write, row.summary.len()),
    };
    bench.summarize(alloc) == Err(fault)
        && bench.out.octets.len() <= most
        && row
            .summary
            .as_bytes()
            .starts_with(bench.out.octets.as_slice())
}

// How many calls of the device there are where none fails.
fn calls_of(alloc: Global, bench: &mut Bench, device: Device) -> u64 {
    bench.begin(device, 0);
    match bench.summarize(alloc) {
        Ok(_) if device == Device::Recording => bench.source.calls,
        Ok(_) => bench.out.calls,
        Err(_) => 0,
    }
}

#[test]
fn summaries_of_devices_that_fail(rt: HostRuntime) {
    // guards: summarize-writes-the-recordings-summary
    let alloc = rt.alloc();
    let row = &POINTER_DROP_AND_SEQUENCE_GAP;
    let bench = Bench::new(alloc, row.settings, row.recording, 7);
    let mut bench = bench.expect(&rt, "devices");
    for device in [Device::Recording, Device::Out] {
        let calls = calls_of(alloc, &mut bench, device);
        assert!(rt; calls > 5);
        for call in 1..calls.saturating_add(1) {
            assert!(rt; stops(alloc, &mut bench, row, device, call), "{call}");
        }
    }
    bench.begin(Device::Out, 0);
    assert!(rt; is_summed(alloc, &mut bench, row));
}
