//! A run over a chunk, into two rooms.

ghost use Rattle.std.specs.Prelude.{◌≡◌, ◌*◌, ◌+◌, length, option_map, IfOk, IfErr};
ghost use Rattle.tm_output.specs.Outputs.{outs, reports};
ghost use Rattle.tm_output.specs.Records.{records};
ghost use Rattle.tm_tool.specs.RecordingPieces.{worked};
ghost use Rattle.tm_tool.specs.Runs.{kept_of};
ghost use Rattle.tm_library.specs.Chunks.{Holds, chunk_pieces, chunk_ending, size_of, totals_by};
ghost use Rattle.tm_library.specs.Refusals.{IsRunRefused};

use crate::Refusal;
use crate::chunk::Chunk;
use std::alloc::Global;
use tm_devices::Room;
use tm_tool::{Command, Ending, Job, Totals, run_and_count};

/// The last chunk closes the recording.
pub fn chunk_ending(last: bool) -> Ending
    ensures { result ≡ chunk_ending last }
{
    if last { Ending::Close } else { Ending::Keep }
}

/// What a run gave: how many octets for each room, the job that is kept, and what it gave and lost, in numbers.
#[derive(Drop)]
pub struct Given {
    pub records: u32,
    pub kept: Option<Job>,
    pub out: usize,
    pub report: usize,
    pub totals: Totals,
}

/// Runs over a chunk that follows what the job has done.
pub fn run_into_rooms(
    alloc: Global,
    job: Job,
    command: Command<'_>,
    chunk: Chunk<'_>,
    out: &mut [u8],
    report: &mut [u8],
) -> Result<Given, Refusal>
    requires { chunk.done ≡ job.work.state.records * size_of job.work }

    // Just the pieces of the chunk stand in the rooms, where these are large enough.
    ensures out { IfOk result (λ given. Holds out.new given.out
        (outs (chunk_pieces command.entry chunk.entry.last job chunk.entry.octets.now))) }
    ensures report { IfOk result (λ given. Holds report.new given.report
        (reports (chunk_pieces command.entry chunk.entry.last job chunk.entry.octets.now))) }
    ensures records { IfOk result (λ given. given.records
        ≡ job.work.state.records + length (records (size_of job.work) chunk.entry.octets.now)) }
    ensures kept { IfOk result (λ given. option_map (λ j. j.work) given.kept
        ≡ kept_of (chunk_ending chunk.entry.last) (worked job.work (records (size_of job.work) chunk.entry.octets.now))) }
    ensures totals { IfOk result (λ given. given.totals ≡ totals_by command.entry chunk.entry.last job chunk.entry.octets.now) }

    // Else there are too many records, or memory ran out.
    ensures refused { IfErr result (IsRunRefused job chunk.entry.octets.now) }
{
    let ending = chunk_ending(chunk.last);
    let mut recording = chunk;
    let (mut more_out, mut more_report) = (Vec::new(alloc), Vec::new(alloc));
    let mut out = Room::new(out, &mut more_out);
    let mut report = Room::new(report, &mut more_report);
    match run_and_count(
        alloc,
        job,
        command,
        &mut recording,
        &mut out,
        &mut report,
        ending,
    ) {
        Ok(done) => Ok(Given {
            records: done.records,
            kept: done.kept,
            out: out.length(),
            report: report.length(),
            totals: done.totals,
        }),
        Err(fault) => Err(fault.into()),
    }
}
