//! Jobs that are stopped and go on: the outputs joined are those for one run.

use crate::bench::{Bench, By, records_of};
use crate::checkpoints::{CHECKPOINT, LIMITED, VERSION_1, VERSION_2};
use crate::runs::{
    BASE, FRAME_GAP, LONG_SPLIT_HEADER, Row, SHORT_REST, TWO_CHANNELS, octets_of, rows,
};
use std::alloc::Global;
use tm_fields::Definition;
use tm_frame::error_control;
use tm_tool::{Command, Ending, Job, RunFault, Settings};

/// How a stopped job goes on.
#[derive(Clone, Copy, PartialEq, Eq)]
pub(crate) enum Going {
    /// The job that the run kept goes on itself.
    Kept,
    /// It is written as a checkpoint of this version, and resumed from that.
    Resumed(u8),
}

// A checkpoint of version 3 in another version. An older one has no count of the master channel, version 1 no limit on packets either, and
// the check is another one.
fn in_version(alloc: Global, checkpoint: &[u8], version: u8) -> Option<Vec<u8>> {
    if version == 3 {
        return checkpoint.to_vec(alloc).ok();
    }
    let settings = checkpoint.get(5..if version == 1 { 17 } else { 20 })?;
    let records = checkpoint.get(20..24)?;
    let channels = if *checkpoint.get(24)? == 1 { 26 } else { 25 };
    let state = checkpoint.get(channels..checkpoint.len().saturating_sub(2))?;
    let mut older = b"TMXC".to_vec(alloc).ok()?;
    for part in [[version].as_slice(), settings, records, state] {
        older.extend_from_slice(part).ok()?;
    }
    let check = error_control(&older).to_be_bytes();
    older.extend_from_slice(&check).ok()?;
    Some(older)
}

// The job with which a stopped one goes on.
fn next_job(alloc: Global, settings: &Settings, job: Job, going: Going) -> Option<Job> {
    let Going::Resumed(version) = going else {
        return Some(job);
    };
    let octets = in_version(alloc, &job.checkpoint(alloc).ok()?, version)?;
    Job::resume(alloc, settings, &octets).ok()
}

const EXTRACT: By<'static> = By::Run(Command::Extract);

// Runs a job over the recording up to a record: the job that goes on after it.
fn run_and_reload(
    alloc: Global,
    bench: &mut Bench,
    job: Job,
    by: By<'_>,
    ending: Ending,
    going: Going,
) -> Option<Job> {
    bench.source.at = 0;
    let kept = bench.run(alloc, job, by, ending).ok()?.kept?;
    next_job(alloc, &bench.settings, kept, going)
}

// Runs a job to the end of the recording: how many records are done, where no job is kept.
fn run_to_the_close(alloc: Global, bench: &mut Bench, job: Job, by: By<'_>) -> Option<u32> {
    bench.source.at = 0;
    let done = bench.run(alloc, job, by, Ending::Close).ok()?;
    match done.kept {
        Some(_) => None,
        None => Some(done.records),
    }
}

/// A job is stopped after each record and goes on, and then closes the recording: it gives just these octets, and the row's report.
pub(crate) fn goes_in_steps(
    alloc: Global,
    row: &Row,
    by: By<'_>,
    going: Going,
    octets: &[u8],
) -> Option<bool> {
    let mut bench = Bench::new(alloc, row.settings, row.recording, 65_536)?;
    let mut job = Job::new(alloc, &bench.settings).ok()?;
    for records in 1..=row.records {
        job = run_and_reload(alloc, &mut bench, job, by, Ending::StopAfter(1), going)?;
        if job.records() != records {
            return Some(false);
        }
    }
    let records = run_to_the_close(alloc, &mut bench, job, by)?;
    Some(records == row.records && bench.has_given(octets, row.report.as_bytes()))
}

// By `extract` and by `packets`, both as the job goes on itself and from checkpoints.
fn row_goes_in_steps(alloc: Global, row: &Row, going: Going) -> Option<bool> {
    let octets = octets_of(alloc, row.octets)?;
    let lines = row.lines.as_bytes();
    let packets = By::Run(Command::Packets);
    Some(
        goes_in_steps(alloc, row, EXTRACT, going, &octets)?
            && goes_in_steps(alloc, row, packets, going, lines)?,
    )
}

#[test]
fn worked_rows_in_steps(rt: HostRuntime) {
    // guards: step-gives-exactly-the-items-of-its-record
    // guards: each-item-is-given-once-at-the-record-that-completes-it
    // guards: what-more-records-leave-as-it-is
    // guards: the-notes-are-those-of-the-whole-list-of-headers
    // guards: a-resumed-job-gives-what-one-run-gives
    let alloc = rt.alloc();
    for row in rows() {
        let kept = row_goes_in_steps(alloc, row, Going::Kept);
        let resumed = row_goes_in_steps(alloc, row, Going::Resumed(3));
        assert!(rt; kept == Some(true) && resumed == Some(true), "{}", row.name);
    }
}

#[test]
fn rows_of_fields_in_steps(rt: HostRuntime) {
    // guards: run-writes-exactly-its-records-pieces
    // guards: a-resumed-job-gives-what-one-run-gives
    let alloc = rt.alloc();
    let text = b"name,data_type,bit_length\nA,uint,8\n";
    let definition = Definition::read(alloc, text).expect(&rt, "the definition");
    let by = By::Run(Command::Fields(&definition, 100));
    let rows =
        b"tm_record,tm_channel,tm_apid,tm_count,A\n2,1,100,0,85\n2,1,100,1,85\n3,0,100,0,85\n3,0,100,1,85\n";
    for going in [Going::Kept, Going::Resumed(3)] {
        assert!(rt; goes_in_steps(alloc, &TWO_CHANNELS, by, going, rows) == Some(true));
    }
}

// The octets of all puts, one after the other, are those that `extract` writes.
#[test]
fn worked_rows_split_in_steps(rt: HostRuntime) {
    // guards: a-resumed-job-gives-what-one-run-gives
    let alloc = rt.alloc();
    for row in rows() {
        let octets = octets_of(alloc, row.octets).expect(&rt, "octets");
        let split = goes_in_steps(alloc, row, By::Split, Going::Resumed(3), &octets);
        assert!(rt; split == Some(true), "{} by split", row.name);
    }
}

// The checkpoint of a new job after this many records.
fn checkpoint_behind(alloc: Global, bench: &mut Bench, records: u32) -> Option<Vec<u8>> {
    let job = Job::new(alloc, &bench.settings).ok()?;
    let ending = Ending::StopAfter(records);
    let kept = run_and_reload(alloc, bench, job, EXTRACT, ending, Going::Kept)?;
    kept.checkpoint(alloc).ok()
}

// Goes on from a checkpoint to the end of the recording. Then just these octets, in hexadecimal, were given by all, and this report.
fn goes_on(
    alloc: Global,
    bench: &mut Bench,
    checkpoint: &[u8],
    octets: &str,
    report: &str,
) -> Option<bool> {
    let job = Job::resume(alloc, &bench.settings, checkpoint).ok()?;
    run_to_the_close(alloc, bench, job, EXTRACT)?;
    let octets = octets_of(alloc, octets)?;
    Some(bench.has_given(&octets, report.as_bytes()))
}

// Stops once, after this many records, and goes on from the checkpoint. Where the outputs joined are those of the row, answers the checkpoint.
fn stopped_once(alloc: Global, row: &Row, records: u32) -> Option<Vec<u8>> {
    let mut bench = Bench::new(alloc, row.settings, row.recording, 65_536)?;
    let checkpoint = checkpoint_behind(alloc, &mut bench, records)?;
    match goes_on(alloc, &mut bench, &checkpoint, row.octets, row.report) {
        Some(true) => Some(checkpoint),
        _ => None,
    }
}

// Three records are done, and a packet of 14 octets is begun.
const GAP: &str = "544D5843 03 002A 0018 0000 0000 00 00 00 FF 010006 00000003 01 00 \
    02 00 00000002 000A 00000008 0064C00300075555 00 00 00 00 00 00 00 0001 0064 0002 FFFF 613D";

const GAP_2: &str = "544D5843 02 002A 0018 0000 0000 00 00 00 FF 010006 00000003 \
    02 00 00000002 000A 00000008 0064C00300075555 00 00 00 00 00 00 00 0001 0064 0002 FFFF 3C22";

const GAP_1: &str = "544D5843 01 002A 0018 0000 0000 00 00 00 FF 00000003 \
    02 00 00000002 000A 00000008 0064C00300075555 00 00 00 00 00 00 00 0001 0064 0002 FFFF 3FDA";

#[test]
fn known_checkpoints(rt: HostRuntime) {
    // guards: a-checkpoint-is-read-again-as-the-same-work
    let alloc = rt.alloc();
    let table = [(&FRAME_GAP, 3, GAP), (&LONG_SPLIT_HEADER, 1, LIMITED)];
    for (row, records, text) in table {
        let known = octets_of(alloc, text);
        assert!(rt;
            known.is_some() && stopped_once(alloc, row, records) == known,
            "{text}"
        );
    }
}

// Devices over a row's recording give just these octets after a checkpoint, both in hexadecimal, and this report.
fn goes_on_from(
    alloc: Global,
    checkpoint: &str,
    row: &Row,
    octets: &str,
    report: &str,
) -> Option<bool> {
    let mut bench = Bench::new(alloc, row.settings, row.recording, 65_536)?;
    let checkpoint = octets_of(alloc, checkpoint)?;
    goes_on(alloc, &mut bench, &checkpoint, octets, report)
}

// A job goes on from each version of a checkpoint after three records. The older ones don't tell the last count of the master
// channel, so the report lacks its gap.
#[test]
fn older_checkpoints(rt: HostRuntime) {
    // guards: what-a-forgotten-master-count-costs
    // guards: each-stop-in-an-older-version-costs-at-most-one-line
    let gap = FRAME_GAP.report;
    let older = gap.strip_prefix("mastergap record=3 expected=1 found=2 missing=1\n");
    let older = older.unwrap_or("");
    let last = "0064C0040005555555555555";
    for (checkpoint, report) in [(GAP, gap), (GAP_2, older), (GAP_1, older)] {
        let right = goes_on_from(rt.alloc(), checkpoint, &FRAME_GAP, last, report);
        assert!(rt; right == Some(true), "{checkpoint}");
    }
}

// A job is stopped after each record, each time in the next of these versions, and closes the recording: it gives the row's octets, and this
// report.
fn goes_in_versions(
    alloc: Global,
    row: &Row,
    by: By<'_>,
    versions: &[u8],
    report: &str,
) -> Option<bool> {
    let mut bench = Bench::new(alloc, row.settings, row.recording, 65_536)?;
    let mut job = Job::new(alloc, &bench.settings).ok()?;
    for version in versions {
        let going = Going::Resumed(*version);
        job = run_and_reload(alloc, &mut bench, job, by, Ending::StopAfter(1), going)?;
    }
    run_to_the_close(alloc, &mut bench, job, by)?;
    let octets = octets_of(alloc, row.octets)?;
    Some(bench.has_given(&octets, report.as_bytes()))
}

// The checkpoint of version 3 is this one in another version, in hexadecimal.
fn is_in_version(alloc: Global, version: u8, text: &str) -> Option<bool> {
    let octets = in_version(alloc, &octets_of(alloc, GAP)?, version)?;
    Some(octets == octets_of(alloc, text)?)
}

// Stopped after each of the first three records, each time in another version: the only gap of the master channel is that of the
// fourth. Its line is lost if and only if the last stop is in an older version: its frame is the first good one after that.
#[test]
fn stopped_in_several_versions(rt: HostRuntime) {
    // guards: what-a-forgotten-master-count-costs
    // guards: each-stop-in-an-older-version-costs-at-most-one-line
    let alloc = rt.alloc();
    let gap = FRAME_GAP.report;
    let older = gap.strip_prefix("mastergap record=3 expected=1 found=2 missing=1\n");
    let older = older.unwrap_or("");
    let table = [
        ([1, 3, 2], older),
        ([3, 3, 1], older),
        ([1, 2, 3], gap),
        ([2, 1, 3], gap),
    ];
    for (versions, report) in table {
        let run = goes_in_versions(alloc, &FRAME_GAP, EXTRACT, &versions, report);
        let split = goes_in_versions(alloc, &FRAME_GAP, By::Split, &versions, report);
        assert!(rt; run == Some(true) && split == Some(true), "{versions:?}");
    }
    for (version, text) in [(3, GAP), (2, GAP_2), (1, GAP_1)] {
        assert!(rt;
            is_in_version(alloc, version, text) == Some(true),
            "version {version}"
        );
    }
}

// How many octets of the recording of 96 a run reads that is stopped after two of its four records.
fn octets_read(alloc: Global) -> Option<usize> {
    let mut bench = Bench::new(alloc, BASE, TWO_CHANNELS.recording, 65_536)?;
    let job = Job::new(alloc, &bench.settings).ok()?;
    let answer = records_of(bench.run(alloc, job, EXTRACT, Ending::StopAfter(2)));
    if answer == Ok(2) && bench.source.octets.len() == 96 {
        Some(bench.source.at)
    } else {
        None
    }
}

// Stopped after two records, a run has left the other two unread: 48 octets. `reads_no_further_without_memory` has the rest.
#[test]
fn reads_no_further(rt: HostRuntime) {
    // guards: what-a-run-reads-and-when-it-flushes
    assert!(rt; octets_read(rt.alloc()) == Some(48));
}

// The job that is kept at the recording's end, where ten octets are left.
fn job_before_a_rest(alloc: Global) -> Option<Job> {
    let mut bench = Bench::new(alloc, BASE, SHORT_REST.recording, 65_536)?;
    let job = Job::new(alloc, &bench.settings).ok()?;
    let going = Going::Resumed(3);
    let job = run_and_reload(alloc, &mut bench, job, EXTRACT, Ending::Keep, going)?;
    if job.records() == 2 && bench.has_given(b"", b"") {
        Some(job)
    } else {
        None
    }
}

// It goes on when the recording is longer.
fn rest_is_kept(alloc: Global) -> Option<bool> {
    let job = job_before_a_rest(alloc)?;
    let mut bench = Bench::new(alloc, BASE, TWO_CHANNELS.recording, 65_536)?;
    run_to_the_close(alloc, &mut bench, job, EXTRACT)?;
    let octets = octets_of(alloc, TWO_CHANNELS.octets)?;
    Some(bench.has_given(&octets, b""))
}

#[test]
fn short_rest_kept(rt: HostRuntime) {
    // guards: what-a-run-reads-and-when-it-flushes
    assert!(rt; rest_is_kept(rt.alloc()) == Some(true));
}

// How a job with three records done is answered where the recording has two, if it writes nothing.
fn answer_of_two_records(alloc: Global) -> Option<Result<u32, RunFault>> {
    let mut bench = Bench::new(alloc, BASE, SHORT_REST.recording, 65_536)?;
    let checkpoint = octets_of(alloc, CHECKPOINT)?;
    let job = Job::resume(alloc, &bench.settings, &checkpoint).ok()?;
    let answer = records_of(bench.run(alloc, job, EXTRACT, Ending::Close));
    if bench.has_given(b"", b"") {
        Some(answer)
    } else {
        None
    }
}

// Stopped once after each number of records, and after each record. The checkpoint after three is known, and is read in each version. A
// recording of two records is then too short.
#[test]
fn stop_and_resume(rt: HostRuntime) {
    // guards: a-checkpoint-is-read-again-as-the-same-work
    // guards: run-stops-at-one-place-in-both-outputs
    let alloc = rt.alloc();
    let known = octets_of(alloc, CHECKPOINT);
    for records in 1..=4u32 {
        let checkpoint = stopped_once(alloc, &TWO_CHANNELS, records);
        assert!(rt; checkpoint.is_some(), "after {records} records");
        assert!(rt; records != 3 || checkpoint == known);
    }
    let joined = "0064C00000135555555555555555555555555555555555555555 0064C001000355555555";
    for (text, length) in [(CHECKPOINT, 74), (VERSION_2, 72), (VERSION_1, 69)] {
        let octets = octets_of(alloc, text).expect(&rt, "octets");
        let right = goes_on_from(alloc, text, &TWO_CHANNELS, joined, "");
        assert!(rt; octets.len() == length && right == Some(true), "{text}");
    }
    let wanted = Some(Err(RunFault::ShortRecording));
    assert!(rt; answer_of_two_records(alloc) == wanted);
}
