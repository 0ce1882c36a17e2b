//! Rows of fields, from recordings.

use crate::bench::{Bench, By, Device};
use crate::fields::{HEAD, TEXT};
use std::alloc::Global;
use tm_fields::Definition;
use tm_tool::{Command, RunFault};

pub(crate) const SETTINGS: &str = "spacecraft = 42\nframe_length = 22\nerror_control = false\n";

/// One packet of application 100, of 16 octets.
pub(crate) const RECORDING: &str = "02A000001800 0064C0000009 07FFF0612C623F800000";

/// The fields of `TEXT`, and one of a bit more.
pub(crate) const AND_ONE_BIT: &str =
    "name, data_type, bit_length\nVERSION, uint, 8\nLEVEL, int, 12\nPAD, fill, 4\nLABEL, str, 24\nRATE, float, 32\nEXTRA, uint, 1\n";

pub(crate) const HEAD_AND_ROW: &str =
    "tm_record,tm_channel,tm_apid,tm_count,VERSION,LEVEL,LABEL,RATE\n0,0,100,0,7,-1,\"a,b\",0x3f800000\n";

const HEAD_AND_ONE_BIT: &str =
    "tm_record,tm_channel,tm_apid,tm_count,VERSION,LEVEL,LABEL,RATE,EXTRA\n";

const SHORT: &str = "shortpacket record=0 channel=0 from=0 at=0 needed=129 found=128\n";

// Runs a job by `fields`, with devices that write 5 octets per call, where a call of one fails: the answer, and the devices then.
fn run_rows(
    alloc: Global,
    definition: &str,
    application: u16,
    recording: &str,
    device: Device,
    call: u64,
) -> Option<(Result<u32, RunFault>, Bench)> {
    let definition = Definition::read(alloc, definition.as_bytes()).ok()?;
    let mut bench = Bench::new(alloc, SETTINGS, recording, 5)?;
    bench.begin(device, call);
    let answer = bench.close(alloc, By::Run(Command::Fields(&definition, application)));
    Some((answer, bench))
}

#[test]
fn worked_rows_by_fields(rt: HostRuntime) {
    // guards: head-row-and-rows-give-the-head-and-the-rows
    let table = [
        (TEXT, 100, RECORDING, 1, HEAD_AND_ROW, ""),
        (AND_ONE_BIT, 100, RECORDING, 1, HEAD_AND_ONE_BIT, SHORT),
        (TEXT, 101, RECORDING, 1, HEAD, ""),
        (TEXT, 100, "", 0, HEAD, ""),
    ];
    for (definition, application, recording, records, rows, lines) in table {
        let ran = run_rows(
            rt.alloc(),
            definition,
            application,
            recording,
            Device::Out,
            0,
        );
        let (answer, bench) = ran.expect(&rt, "a run");
        assert!(rt; answer == Ok(records) && bench.has_given(rows.as_bytes(), lines.as_bytes()));
    }
}

// The packet after its lead: record 0, begun in record 0 at place 0, channel 0, 16 octets.
const LED_PACKET: &[u8] =
    b"\x00\x00\x00\x00\x00\x00\x00\x00\x00\x00\x00\x00\x10\x00\x00\x00\x00\x64\xC0\x00\x00\x09\x07\xFF\xF0a,b\x3F\x80\x00\x00";

// Its row: record 0, application 100, count 0, channel 0, and then 7, -1, `a,b` and 1.0.
pub(crate) const ROW_OCTETS: &[u8] =
    b"\x00\x00\x00\x00\x64\x00\x00\x00\x00\x00\x00\x00\x00\x00\x00\x00\x07\xFF\xFFa,b\x00\x00\x80\x3F";

#[test]
fn binary_forms(rt: HostRuntime) {
    // guards: head-row-and-rows-give-the-head-and-the-rows
    // guards: what-belongs-to-an-outlet
    let alloc = rt.alloc();
    let definition = Definition::read(alloc, TEXT.as_bytes()).expect(&rt, "the definition");
    assert!(rt; definition.row_length() == 26);
    let table = [
        (Command::BinaryPackets, LED_PACKET),
        (Command::BinaryFields(&definition, 100), ROW_OCTETS),
        (Command::BinaryFields(&definition, 101), b""),
    ];
    for (command, octets) in table {
        let mut bench = Bench::new(alloc, SETTINGS, RECORDING, 5).expect(&rt, "memory");
        let answer = bench.close(alloc, By::Run(command));
        assert!(rt; answer == Ok(1) && bench.has_given(octets, b""));
    }
}

// How a run is answered whose write of this number fails, if what was written is a prefix of the head and the row.
fn answer_at(alloc: Global, fails_at: u64) -> Option<Result<u32, RunFault>> {
    let (answer, bench) = run_rows(alloc, TEXT, 100, RECORDING, Device::Out, fails_at)?;
    let written = bench.out.octets.as_slice();
    let is_whole = written == HEAD_AND_ROW.as_bytes();
    if HEAD_AND_ROW.as_bytes().starts_with(written) && (is_whole || answer.is_err()) {
        Some(answer)
    } else {
        None
    }
}

// Each write fails in turn, up to the run in which none does. There are 13 writes for the head and a flush, 7 for the row and a
// flush, since the source may wait, and the flush at the end. Likewise one write of the report, and the first read, before which
// the head is written.
#[test]
fn each_write_of_rows_failing(rt: HostRuntime) {
    // guards: what-a-run-reads-and-when-it-flushes
    let alloc = rt.alloc();
    for fails_at in 1..=23u64 {
        assert!(rt; answer_at(alloc, fails_at) == Some(Err(RunFault::Write)));
    }
    assert!(rt; answer_at(alloc, 24) == Some(Ok(1)));
    let ran = run_rows(alloc, AND_ONE_BIT, 100, RECORDING, Device::Report, 2);
    let (answer, bench) = ran.expect(&rt, "a run");
    assert!(rt; answer == Err(RunFault::Report));
    assert!(rt; bench.has_given(HEAD_AND_ONE_BIT.as_bytes(), b"short"));
    let ran = run_rows(alloc, TEXT, 100, RECORDING, Device::Recording, 1);
    let (answer, bench) = ran.expect(&rt, "a run");
    assert!(rt; answer == Err(RunFault::Read) && bench.has_given(HEAD.as_bytes(), b""));
}
