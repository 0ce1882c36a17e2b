//! Devices that fail. All calls of a run are known, in their order, with the octets that each of them moves. So is what was read
//! and written before any one of them fails. Each piece before the call is whole, in the output and in the report, and nothing
//! after it was begun.

use crate::bench::{Bench, By, Device};
use crate::calls::{Call, calls_of, calls_until};
use crate::runs::{
    POINTER_DROP_AND_SEQUENCE_GAP, Row, SPLIT_WITH_IDLE, TWO_PACKETS, octets_of, rows,
};
use std::alloc::Global;
use std::process::Abort;
use tm_fields::Definition;
use tm_tool::{Command, RunFault};

const DEFINITION: &[u8] = b"name,data_type,bit_length\nA,uint,8\n";

const HEAD: &[u8] = b"tm_record,tm_channel,tm_apid,tm_count,A\n";

// A run about which all is known.
#[derive(Drop)]
struct KnownRun<'a> {
    records: u32,
    by: By<'a>,
    out: Vec<u8>,
    report: &'a [u8],
    calls: Vec<Call>,
}

// The lines of the frames, as they are listed where no call fails: one for each record, and one for a rest.
fn frame_lines(alloc: Global, row: &Row) -> Option<Vec<u8>> {
    let mut bench = Bench::new(alloc, row.settings, row.recording, 65_536)?;
    match bench.close(alloc, By::Frames) {
        Ok(_) => bench.out.octets.to_vec(alloc).ok(),
        Err(_) => None,
    }
}

// What is written to the output where no call fails.
fn out_of(alloc: Global, row: &Row, by: By<'_>) -> Option<Vec<u8>> {
    match by {
        By::Frames => frame_lines(alloc, row),
        By::Run(Command::Packets) => row.lines.as_bytes().to_vec(alloc).ok(),
        By::Run(Command::Fields(_, _)) => {
            let mut out = HEAD.to_vec(alloc).ok()?;
            out.extend_from_slice(row.rows.as_bytes()).ok()?;
            Some(out)
        }
        By::Run(Command::Extract) | By::Split => octets_of(alloc, row.octets),
        // The rows don't say it.
        By::Run(Command::BinaryPackets | Command::BinaryFields(_, _)) => None,
    }
}

// The first octets.
fn prefix(octets: &[u8], n: usize) -> &[u8] {
    octets.get(..n).unwrap_or(&[])
}

impl<'a> KnownRun<'a> {
    fn new(alloc: Global, bench: &Bench, row: &'a Row, by: By<'a>) -> Option<Self> {
        let out = out_of(alloc, row, by)?;
        let calls = calls_of(alloc, bench, row, by, &out).ok()?;
        let report = match by {
            By::Frames => "",
            By::Run(_) | By::Split => row.report,
        };
        Some(KnownRun {
            records: row.records,
            by,
            out,
            report: report.as_bytes(),
            calls,
        })
    }

    // The first of these calls.
    fn before(&self, index: usize) -> &[Call] {
        self.calls.get(..index).unwrap_or(&[])
    }

    // The call of a device fails that would follow these, if there is one. The run answers this, that many calls of each device failed, and it read and
    // wrote just what these calls move.
    fn gives(
        &self,
        alloc: Global,
        bench: &mut Bench,
        calls: &[Call],
        device: Device,
        (answer, failed): (Result<u32, RunFault>, [u64; 3]),
    ) -> bool {
        let (count, _) = calls_until(calls, device);
        bench.begin(device, count.saturating_add(1));
        let (_, read) = calls_until(calls, Device::Recording);
        let (_, written) = calls_until(calls, Device::Out);
        let (_, reported) = calls_until(calls, Device::Report);
        bench.close(alloc, self.by) == answer
            && bench.failed() == failed
            && bench.source.at == read
            && bench.has_given(prefix(&self.out, written), prefix(self.report, reported))
    }

    // The call fails, and the run ends there.
    fn stops_at(&self, alloc: Global, bench: &mut Bench, index: usize, device: Device) -> bool {
        let (fault, failed) = match device {
            Device::Recording => (RunFault::Read, [1, 0, 0]),
            Device::Out => (RunFault::Write, [0, 1, 0]),
            Device::Report => (RunFault::Report, [0, 0, 1]),
        };
        self.gives(
            alloc,
            bench,
            self.before(index),
            device,
            (Err(fault), failed),
        )
    }

    // After the last call of a device no call is left that could fail: the run gives all that is known of the row.
    fn is_done(&self, alloc: Global, bench: &mut Bench, device: Device) -> bool {
        let all = self.calls.as_slice();
        self.gives(alloc, bench, all, device, (Ok(self.records), [0, 0, 0]))
            && bench.has_given(&self.out, self.report)
    }

    // The first call whose failure does other than what is known, if there is one.
    fn first_wrong(&self, alloc: Global, bench: &mut Bench) -> Option<usize> {
        for (index, call) in self.calls.iter().enumerate() {
            if !self.stops_at(alloc, bench, index, call.device) {
                return Some(index);
            }
        }
        if self.is_done(alloc, bench, Device::Recording)
            && self.is_done(alloc, bench, Device::Out)
            && self.is_done(alloc, bench, Device::Report)
        {
            None
        } else {
            Some(self.calls.len())
        }
    }
}

// Each call of each device fails in turn, and does what is known.
fn row_fails(alloc: Global, row: &Row, by: By<'_>, per_call: usize) -> Option<bool> {
    let mut bench = Bench::new(alloc, row.settings, row.recording, per_call)?;
    let plan = KnownRun::new(alloc, &bench, row, by)?;
    Some(plan.first_wrong(alloc, &mut bench).is_none())
}

// In runs over all rows. The devices move seven octets per call; with the greatest packet's recording, of 69,632 octets, they move 1,500.
fn each_call_failing(rt: &impl Abort, alloc: Global, by: By<'_>) {
    for row in rows() {
        let per_call = if row.records > 10 { 1500 } else { 7 };
        assert!(rt;
            row_fails(alloc, row, by, per_call) == Some(true),
            "{}",
            row.name
        );
    }
}

#[test]
fn each_call_failing_by_frames(rt: HostRuntime) {
    // guards: list_frames-lists-the-whole-recording
    each_call_failing(&rt, rt.alloc(), By::Frames);
}

#[test]
fn each_call_failing_by_extract(rt: HostRuntime) {
    // guards: output-writes-the-piece-of-each-item-it-takes
    each_call_failing(&rt, rt.alloc(), By::Run(Command::Extract));
}

#[test]
fn each_call_failing_by_packets(rt: HostRuntime) {
    // guards: what-a-run-reads-and-when-it-flushes
    each_call_failing(&rt, rt.alloc(), By::Run(Command::Packets));
}

#[test]
fn each_call_failing_by_fields(rt: HostRuntime) {
    // guards: what-a-run-reads-and-when-it-flushes
    let definition = Definition::read(rt.alloc(), DEFINITION).expect(&rt, "the definition");
    each_call_failing(&rt, rt.alloc(), By::Run(Command::Fields(&definition, 100)));
}

#[test]
fn each_call_failing_by_split(rt: HostRuntime) {
    // guards: what-a-run-reads-and-when-it-flushes
    each_call_failing(&rt, rt.alloc(), By::Split);
}

// The devices move one octet per call, so what is written is cut at each of its octets.
#[test]
fn each_octet_failing(rt: HostRuntime) {
    // guards: the-contracts-that-devices-keep
    let row = &POINTER_DROP_AND_SEQUENCE_GAP;
    for by in [By::Run(Command::Extract), By::Run(Command::Packets)] {
        assert!(rt; row_fails(rt.alloc(), row, by, 1) == Some(true));
    }
}

// No call fails. The source may wait or not.
fn row_is_done(alloc: Global, row: &Row, by: By<'_>, per_call: usize, waits: bool) -> Option<bool> {
    let mut bench = Bench::new(alloc, row.settings, row.recording, per_call)?;
    bench.source.waits = waits;
    let plan = KnownRun::new(alloc, &bench, row, by)?;
    Some(
        plan.is_done(alloc, &mut bench, Device::Out)
            && plan.is_done(alloc, &mut bench, Device::Report),
    )
}

// In runs over all rows, octet by octet, and in few calls of a source that never waits: then nothing is flushed before the end.
fn none_failing(rt: &impl Abort, alloc: Global, by: By<'_>) {
    for row in rows() {
        let by_octets = row_is_done(alloc, row, by, 1, true);
        let at_once = row_is_done(alloc, row, by, 65_536, false);
        assert!(rt;
            by_octets == Some(true) && at_once == Some(true),
            "{}",
            row.name
        );
    }
}

// All rows by all commands.
#[test]
fn worked_rows(rt: HostRuntime) {
    // guards: step-gives-exactly-the-items-of-its-record
    // guards: exactly-the-whole-packets-are-given
    // guards: each-item-is-given-once-at-the-record-that-completes-it
    let definition = Definition::read(rt.alloc(), DEFINITION).expect(&rt, "the definition");
    let commands = [
        By::Frames,
        By::Run(Command::Extract),
        By::Run(Command::Packets),
        By::Run(Command::Fields(&definition, 100)),
        By::Split,
    ];
    for by in commands {
        none_failing(&rt, rt.alloc(), by);
    }
}

// A run by `packets` with five octets per call, where a device's call fails, answers this, and has written just this.
fn end_of_run(
    alloc: Global,
    row: &Row,
    device: Device,
    call: u64,
    fault: RunFault,
    written: &str,
) -> Option<bool> {
    let mut bench = Bench::new(alloc, row.settings, row.recording, 5)?;
    bench.begin(device, call);
    let answer = bench.close(alloc, By::Run(Command::Packets));
    Some(answer == Err(fault) && bench.out.octets.as_slice() == written.as_bytes())
}

#[test]
fn failing_devices(rt: HostRuntime) {
    // guards: the-contracts-that-devices-keep
    let line =
        "packet record=0 channel=0 from=0 at=0 type=tm secondary=no apid=100 flags=unsegmented count=0 octets=10\n";
    let table = [
        (&TWO_PACKETS, Device::Out, 3, RunFault::Write, "packet rec"),
        (&TWO_PACKETS, Device::Recording, 1, RunFault::Read, ""),
        (
            &POINTER_DROP_AND_SEQUENCE_GAP,
            Device::Report,
            1,
            RunFault::Report,
            line,
        ),
    ];
    for (row, device, call, fault, written) in table {
        assert!(rt; end_of_run(rt.alloc(), row, device, call, fault, written) == Some(true));
    }
}

// What is put of two packets where the second put is refused and leaves this many octets: how many, if they are the first.
fn answer_of_two_puts(alloc: Global, leaves: usize) -> Option<(Result<u32, RunFault>, usize)> {
    let row = &SPLIT_WITH_IDLE;
    let mut bench = Bench::new(alloc, row.settings, row.recording, 65_536)?;
    bench.begin(Device::Out, 2);
    bench.shelf.leaves = leaves;
    let answer = bench.close(alloc, By::Split);
    let octets = octets_of(alloc, row.octets)?;
    let put = 7usize.saturating_add(leaves);
    if bench.has_given(prefix(&octets, put), b"") {
        Some((answer, put))
    } else {
        None
    }
}

// The packet before is whole, and the report has nothing of the second.
#[test]
fn refused_put_that_leaves_octets(rt: HostRuntime) {
    // guards: what-belongs-to-an-outlet
    for (leaves, put) in [(0, 7), (5, 12), (10, 17)] {
        let wanted = Some((Err(RunFault::Write), put));
        assert!(rt;
            answer_of_two_puts(rt.alloc(), leaves) == wanted,
            "{leaves} octets"
        );
    }
}
