//! Devices over memory, what is done with a recording by them, and what they read and wrote then.

use crate::runs::{octets_of, settings_of};
use crate::{MemoryDrain, MemoryShelf, MemorySource};
use std::alloc::Global;
use tm_tool::{Command, Done, Ending, Job, RunFault, Settings, list_frames, run, split, summarize};

/// A device of a run: what is read, where the packets go, and the report.
#[derive(Clone, Copy, PartialEq, Eq)]
pub(crate) enum Device {
    Recording,
    Out,
    Report,
}

/// What is done with a recording.
#[derive(Clone, Copy)]
pub(crate) enum By<'a> {
    Frames,
    Run(Command<'a>),
    Split,
}

/// A recording, and where the packets and the report go.
#[derive(Drop)]
pub(crate) struct Bench {
    pub(crate) settings: Settings,
    pub(crate) source: MemorySource,
    pub(crate) out: MemoryDrain,
    pub(crate) shelf: MemoryShelf,
    pub(crate) report: MemoryDrain,
}

// Forgets what was written, and has the call of this number fail, counted from 1; none for 0.
fn begin_drain(drain: &mut MemoryDrain, fails_at: u64) {
    drain.octets.clear();
    drain.calls = 0;
    drain.fails_at = fails_at;
    drain.failed = 0;
    drain.passed = 0;
}

// What is left of octets after the puts of a shelf. Each put has the application of its own header.
fn behind_puts<'o>(shelf: &MemoryShelf, octets: &'o [u8]) -> Option<&'o [u8]> {
    let mut rest = octets;
    for put in &shelf.puts {
        let application = put.application.to_be_bytes();
        if !matches!(put.octets.as_slice(), [high, low, ..] if [*high & 0x07, *low] == application)
        {
            return None;
        }
        rest = rest.strip_prefix(put.octets.as_slice())?;
    }
    Some(rest)
}

impl Bench {
    /// Devices that move at most this many octets per call, over a recording in hexadecimal.
    pub(crate) fn new(
        alloc: Global,
        settings: &str,
        recording: &str,
        per_call: usize,
    ) -> Option<Bench> {
        let settings = settings_of(alloc, settings)?;
        let recording = octets_of(alloc, recording)?;
        let most = per_call.max(1);
        Some(Bench {
            settings,
            source: MemorySource::new(recording, most, 0),
            out: MemoryDrain::new(Vec::new(alloc), most, 0),
            shelf: MemoryShelf::new(alloc, 0),
            report: MemoryDrain::new(Vec::new(alloc), most, 0),
        })
    }

    /// Begins anew. The call of this number of a device fails, counted from 1; none for 0.
    pub(crate) fn begin(&mut self, device: Device, call: u64) {
        let (reads, writes, reports) = match device {
            Device::Recording => (call, 0, 0),
            Device::Out => (0, call, 0),
            Device::Report => (0, 0, call),
        };
        self.source.at = 0;
        self.source.calls = 0;
        self.source.fails_at = reads;
        self.source.failed = 0;
        begin_drain(&mut self.out, writes);
        begin_drain(&mut self.report, reports);
        self.shelf.puts.clear();
        self.shelf.calls = 0;
        self.shelf.refuses_at = writes;
        self.shelf.refused = 0;
        self.shelf.leaves = 0;
    }

    /// Lists the frames from where the devices are.
    pub(crate) fn list(&mut self, alloc: Global) -> Result<u32, RunFault> {
        list_frames(alloc, &self.settings, &mut self.source, &mut self.out)
    }

    /// Sums up the recording from where the devices are.
    pub(crate) fn summarize(&mut self, alloc: Global) -> Result<u32, RunFault> {
        summarize(alloc, &self.settings, &mut self.source, &mut self.out)
    }

    /// Runs a job from where the devices are. Frames are listed without it.
    pub(crate) fn run(
        &mut self,
        alloc: Global,
        job: Job,
        by: By<'_>,
        ending: Ending,
    ) -> Result<Done, RunFault> {
        let Bench {
            source,
            out,
            shelf,
            report,
            ..
        } = self;
        match by {
            By::Frames => match self.list(alloc) {
                Ok(records) => Ok(Done {
                    records,
                    kept: None,
                }),
                Err(fault) => Err(fault),
            },
            By::Run(command) => run(alloc, job, command, source, out, report, ending),
            By::Split => split(alloc, job, source, shelf, report, ending),
        }
    }

    /// Runs a new job to the end of the recording: how many records are done.
    pub(crate) fn close(&mut self, alloc: Global, by: By<'_>) -> Result<u32, RunFault> {
        match Job::new(alloc, &self.settings) {
            Ok(job) => records_of(self.run(alloc, job, by, Ending::Close)),
            Err(_) => Err(RunFault::NoMemory),
        }
    }

    /// How many calls of the devices failed.
    pub(crate) fn failed(&self) -> [u64; 3] {
        let written = self.out.failed.saturating_add(self.shelf.refused);
        [self.source.failed, written, self.report.failed]
    }

    /// Just these octets were written or put, and just this report.
    pub(crate) fn has_given(&self, octets: &[u8], report: &[u8]) -> bool {
        match octets.strip_prefix(self.out.octets.as_slice()) {
            Some(rest) => {
                matches!(behind_puts(&self.shelf, rest), Some([]))
                    && self.report.octets.as_slice() == report
            }
            None => false,
        }
    }
}

/// How many records are done.
pub(crate) fn records_of(answer: Result<Done, RunFault>) -> Result<u32, RunFault> {
    match answer {
        Ok(done) => Ok(done.records),
        Err(fault) => Err(fault),
    }
}
