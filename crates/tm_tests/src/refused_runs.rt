//! Checkpoints, listings and runs that are refused memory, one request after the other: what was written by then ends with a whole line or
//! packet. And runs that take none.

use crate::bench::{Bench, By, records_of};
use crate::checkpoints::{CHECKPOINT, LIMITED, VERSION_1, VERSION_2};
use crate::field_rows::HEAD_AND_ROW;
use crate::fields::TEXT;
use crate::refused::{Tried, passes};
use crate::runs::{
    BASE, FIELDS, FRAME_GAP, LONG_AT_ONCE, LONG_SPLIT_HEADER, POINTER_DROP_AND_SEQUENCE_GAP, Row,
    TWELVE, TWO_CHANNELS, octets_of, settings_of,
};
use std::alloc::Global;
use std::process::Abort;
use std::rt::Files;
use tm_fields::Definition;
use tm_memory::{Answer, Held, NOTHING_HELD, try_twice};
use tm_tool::{CheckpointFault, Command, Ending, Job, RunFault, Settings, Shelf, split};

// A checkpoint, and the job that was resumed from it. It is written again.
#[derive(Drop)]
struct CheckpointWriting {
    octets: Vec<u8>,
    job: Job,
}

impl CheckpointWriting {
    fn new(alloc: Global) -> Option<CheckpointWriting> {
        let settings = settings_of(alloc, BASE)?;
        let octets = octets_of(alloc, CHECKPOINT)?;
        let job = Job::resume(alloc, &settings, &octets).ok()?;
        Some(CheckpointWriting { octets, job })
    }
}

impl Tried for CheckpointWriting {
    fn once(&mut self, alloc: Global) -> Answer {
        match self.job.checkpoint(alloc) {
            Ok(again) => {
                Answer::right_if(again.len() == 74 && again.as_slice() == self.octets.as_slice())
            }
            Err(_) => Answer::Refused,
        }
    }
}

#[test]
fn checkpoint_of_a_job(rt: HostRuntime) {
    // guards: a-jobs-checkpoint-is-written-and-read
    let mut written = try_twice(|| CheckpointWriting::new(rt.alloc())).expect(&rt, "a checkpoint");
    assert!(rt; passes(&rt, &mut written));
}

// A checkpoint, from which a job of this many records is resumed.
#[derive(Drop)]
struct Resumed {
    settings: Settings,
    octets: Vec<u8>,
    records: u32,
}

impl Resumed {
    fn new(alloc: Global, text: &str, settings: &str, records: u32) -> Option<Resumed> {
        Some(Resumed {
            settings: settings_of(alloc, settings)?,
            octets: octets_of(alloc, text)?,
            records,
        })
    }
}

impl Tried for Resumed {
    fn once(&mut self, alloc: Global) -> Answer {
        match Job::resume(alloc, &self.settings, &self.octets) {
            Ok(job) => Answer::right_if(job.records() == self.records),
            Err(fault) => Answer::refused_if(fault == CheckpointFault::NoMemory),
        }
    }
}

#[test]
fn resumed_job(rt: HostRuntime) {
    // guards: a-jobs-checkpoint-is-written-and-read
    let table = [
        (CHECKPOINT, BASE, 3),
        (VERSION_2, BASE, 3),
        (VERSION_1, BASE, 3),
        (LIMITED, TWELVE, 1),
    ];
    for (text, settings, records) in table {
        let resumed = try_twice(|| Resumed::new(rt.alloc(), text, settings, records));
        let mut resumed = resumed.expect(&rt, "a checkpoint");
        assert!(rt; passes(&rt, &mut resumed), "{text}");
    }
}

// The first packets of these lines have this many octets.
fn are_packets(octets: usize, lines: &str) -> bool {
    let mut end = 0usize;
    for word in lines.split_whitespace() {
        if let Some(number) = word.strip_prefix("octets=") {
            if end == octets {
                return true;
            }
            end = end.saturating_add(number.parse::<usize>().unwrap_or(0));
        }
    }
    end == octets
}

// What was written is the front of what is to be written, and ends with a whole line.
fn is_prefix_of_lines(written: &[u8], all: &[u8]) -> bool {
    all.starts_with(written) && (written.is_empty() || written.ends_with(b"\n"))
}

// A shelf that puts all octets into one room, whatever their application.
#[derive(Drop)]
struct SmallShelf {
    octets: Vec<u8>,
    refused: u64,
}

// There was no room.
#[derive(Clone, Copy, Debug, PartialEq, Eq)]
struct ShelfIsFull;

impl Shelf for SmallShelf {
    type Fault = ShelfIsFull;

    ghost refusals = { λ s. s.refused };

    #[tactic(auto, using(crate::proofs::Stored::put_none))]
    fn put(&mut self, _application: u16, octets: &[u8]) -> Result<(), ShelfIsFull> {
        match self.octets.extend_from_slice(octets) {
            Ok(()) => Ok(()),
            Err(_) => {
                self.refused = self.refused.saturating_add(1);
                Err(ShelfIsFull)
            }
        }
    }
}

// What is done in turn.
#[derive(Clone, Copy, PartialEq, Eq)]
enum Task {
    Frames,
    Summary,
    Extract,
    Packets,
    Fields,
    Split,
}

const LINES: &[u8] =
    b"frame record=0 channel=0 master=0 count=0 kind=packets place=0 secondary=0 ocf=no order=0 segment=3 octets=18\n\
    frame record=1 channel=0 master=1 count=1 kind=packets place=8 secondary=0 ocf=no order=0 segment=3 octets=18\n";

// What is to be written of a row.
fn out_of(alloc: Global, row: &Row, task: Task) -> Option<Vec<u8>> {
    match task {
        Task::Frames => LINES.to_vec(alloc).ok(),
        Task::Summary => row.summary.as_bytes().to_vec(alloc).ok(),
        Task::Extract | Task::Split => octets_of(alloc, row.octets),
        Task::Packets => row.lines.as_bytes().to_vec(alloc).ok(),
        Task::Fields => HEAD_AND_ROW.as_bytes().to_vec(alloc).ok(),
    }
}

// There is room for all that is written.
fn has_room(bench: &mut Bench) -> bool {
    bench.out.octets.try_reserve_exact(4096).is_ok()
        && bench.report.octets.try_reserve_exact(4096).is_ok()
}

// The devices of a run, with room for all that is written, and the job with which the next run begins.
#[derive(Drop)]
struct RunDevices {
    definition: Definition,
    bench: Bench,
    room: SmallShelf,
    job: Option<Job>,
}

impl RunDevices {
    fn new(alloc: Global, row: &Row) -> Option<RunDevices> {
        let octets = Vec::with_capacity(alloc, 4096).ok()?;
        let definition = Definition::read(alloc, TEXT.as_bytes()).ok()?;
        let mut bench = Bench::new(alloc, row.settings, row.recording, 65_536)?;
        if !has_room(&mut bench) {
            return None;
        }
        let job = Job::new(alloc, &bench.settings).ok();
        Some(RunDevices {
            definition,
            bench,
            room: SmallShelf { octets, refused: 0 },
            job,
        })
    }

    // Forgets what the run before read and wrote.
    fn rewind(&mut self) {
        self.bench.source.at = 0;
        self.bench.out.octets.clear();
        self.bench.report.octets.clear();
        self.room.octets.clear();
    }

    // A job, of the memory that the job of the run before left.
    fn next_job(&mut self, alloc: Global) -> Option<Job> {
        match self.job.take() {
            Some(job) => Some(job),
            None => Job::new(alloc, &self.bench.settings).ok(),
        }
    }

    // Runs a job once. Frames are listed, and recordings summed up, without it.
    fn run(&mut self, alloc: Global, job: Job, task: Task) -> Result<u32, RunFault> {
        let RunDevices {
            definition,
            bench,
            room,
            ..
        } = self;
        let ending = Ending::Close;
        records_of(match task {
            Task::Frames | Task::Summary => bench.run(alloc, job, By::Frames, ending),
            Task::Extract => bench.run(alloc, job, By::Run(Command::Extract), ending),
            Task::Packets => bench.run(alloc, job, By::Run(Command::Packets), ending),
            Task::Fields => {
                let command = Command::Fields(definition, 100);
                bench.run(alloc, job, By::Run(command), ending)
            }
            Task::Split => {
                let source = &mut bench.source;
                split(alloc, job, source, room, &mut bench.report, ending)
            }
        })
    }

    // Runs a job once, or does without one what needs none. None where no job could be made.
    fn answer(&mut self, alloc: Global, task: Task) -> Option<Result<u32, RunFault>> {
        self.rewind();
        match task {
            Task::Frames => Some(self.bench.list(alloc)),
            Task::Summary => Some(self.bench.summarize(alloc)),
            Task::Extract | Task::Packets | Task::Fields | Task::Split => {
                let job = self.next_job(alloc)?;
                Some(self.run(alloc, job, task))
            }
        }
    }
}

// Devices, and what each of their runs has to give.
#[derive(Drop)]
struct Running {
    devices: RunDevices,
    task: Task,
    records: u32,
    out: Vec<u8>,
    lines: &'static str,
    report: &'static str,
}

impl Running {
    fn new(alloc: Global, row: &Row, task: Task) -> Option<Running> {
        let devices = RunDevices::new(alloc, row)?;
        let out = out_of(alloc, row, task)?;
        Some(Running {
            devices,
            task,
            records: row.records,
            out,
            lines: row.lines,
            report: match task {
                Task::Frames | Task::Summary => "",
                Task::Extract | Task::Packets | Task::Fields | Task::Split => row.report,
            },
        })
    }

    // What was written.
    fn written(&self) -> &[u8] {
        match self.task {
            Task::Split => self.devices.room.octets.as_slice(),
            _ => self.devices.bench.out.octets.as_slice(),
        }
    }

    // All that is to be written was.
    fn is_whole(&self) -> bool {
        self.written() == self.out.as_slice()
            && self.devices.bench.report.octets.as_slice() == self.report.as_bytes()
    }

    // What was written is the front of what is to be written, and ends with a whole line or packet.
    fn is_whole_prefix(&self) -> bool {
        let written = self.written();
        let is_front = match self.task {
            Task::Extract | Task::Split => {
                self.out.starts_with(written) && are_packets(written.len(), self.lines)
            }
            _ => is_prefix_of_lines(written, &self.out),
        };
        is_front && is_prefix_of_lines(&self.devices.bench.report.octets, self.report.as_bytes())
    }
}

impl Tried for Running {
    fn once(&mut self, alloc: Global) -> Answer {
        match self.devices.answer(alloc, self.task) {
            None => Answer::NotMade,
            Some(Ok(records)) => Answer::right_if(records == self.records && self.is_whole()),
            Some(Err(fault)) => {
                Answer::refused_if(fault == RunFault::NoMemory && self.is_whole_prefix())
            }
        }
    }
}

// All turns of a row's run pass.
fn passes_row<R: Files + AllocGlobal + Abort>(rt: &R, row: &Row, task: Task) -> bool {
    match try_twice(|| Running::new(rt.alloc(), row, task)) {
        Some(mut running) => passes(rt, &mut running),
        None => false,
    }
}

#[test]
fn listed_frames(rt: HostRuntime) {
    // guards: list_frames-lists-the-whole-recording
    assert!(rt; passes_row(&rt, &POINTER_DROP_AND_SEQUENCE_GAP, Task::Frames));
}

#[test]
fn summed_recording(rt: HostRuntime) {
    // guards: summarize-writes-the-recordings-summary
    assert!(rt; passes_row(&rt, &POINTER_DROP_AND_SEQUENCE_GAP, Task::Summary));
}

// Recordings with reports: in two of them packets are too long, and in one a frame is missing.
fn reported_rows() -> [&'static Row; 4] {
    [
        &POINTER_DROP_AND_SEQUENCE_GAP,
        &LONG_AT_ONCE,
        &LONG_SPLIT_HEADER,
        &FRAME_GAP,
    ]
}

#[test]
fn run_by_extract(rt: HostRuntime) {
    // guards: run-stops-at-one-place-in-both-outputs
    for row in reported_rows() {
        assert!(rt; passes_row(&rt, row, Task::Extract), "{}", row.name);
    }
}

#[test]
fn run_by_packets(rt: HostRuntime) {
    // guards: run-stops-at-one-place-in-both-outputs
    for row in reported_rows() {
        assert!(rt; passes_row(&rt, row, Task::Packets), "{}", row.name);
    }
}

#[test]
fn run_by_fields(rt: HostRuntime) {
    // guards: run-stops-at-one-place-in-both-outputs
    assert!(rt; passes_row(&rt, &FIELDS, Task::Fields));
}

#[test]
fn split_recordings(rt: HostRuntime) {
    // guards: split-gives-each-application-its-packets
    for row in reported_rows() {
        assert!(rt; passes_row(&rt, row, Task::Split), "{}", row.name);
    }
}

// Devices for the two channels, whose packets have 72 octets and give no line in the report, with the job for the run.
fn two_channels(alloc: Global, task: Task) -> Option<Running> {
    let running = Running::new(alloc, &TWO_CHANNELS, task)?;
    let is_known = task == Task::Packets || running.out.len() == 72;
    if is_known && running.devices.job.is_some() {
        Some(running)
    } else {
        None
    }
}

// What a run answers while all memory is held: there is none even for one octet.
fn in_held_memory<R: Files + AllocGlobal + Abort>(rt: &R, running: &mut Running) -> Answer {
    let _held = Held::new(rt).expect(rt, NOTHING_HELD);
    let alloc = rt.alloc();
    if octets_of(alloc, "55").is_some() {
        return Answer::NotMade;
    }
    running.once(alloc)
}

// A run whose report has no line takes no memory after its job: with none left it closes the recording and gives all.
#[test]
fn reads_no_further_without_memory(rt: HostRuntime) {
    // guards: the-parts-of-the-state
    for task in [Task::Extract, Task::Packets, Task::Split] {
        let running = try_twice(|| two_channels(rt.alloc(), task));
        let mut running = running.expect(&rt, "devices");
        let answer = in_held_memory(&rt, &mut running);
        assert_eq!(rt; answer, Answer::Right);
    }
}
