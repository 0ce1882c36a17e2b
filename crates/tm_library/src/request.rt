//! A whole call: what is read, and what is answered.

ghost use Rattle.std.specs.Prelude.{◌≡◌, ◌≤◌, ◌<◌, ◌+◌, length, option_map, IfOk, IfErr};
ghost use Rattle.tm_checkpoint.specs.Works.{JobState};
ghost use Rattle.tm_output.specs.Outputs.{outs, reports};
ghost use Rattle.tm_output.specs.Records.{records};
ghost use Rattle.tm_tool.specs.RecordingPieces.{worked};
ghost use Rattle.tm_tool.specs.Runs.{kept_of};
ghost use Rattle.tm_library.specs.Chunks.{Begins, Holds, IsAnswer, chunk_ending, chunk_totals, given_pieces, kept_octets, row_length_of, size_of, used_octets};
ghost use Rattle.tm_library.specs.Refusals.{IsChunkRefused, IsRunRefused};

use crate::Refusal;
use crate::chunk::Chunk;
use crate::inputs::read_job;
use crate::listing::list_into_room;
use crate::running::{Given, run_into_rooms};
use std::alloc::Global;
use tm_frame::Layout;
use tm_tool::{Command, Job, Settings};

/// What to give of the records.
#[derive(Clone, Copy)]
pub enum Wanted<'a> {
    /// What a command gives of the packets, and the report.
    Packets(Command<'a>),
    /// A line for each frame, and no report.
    Frames,
}

/// What a call reads beside the settings.
#[derive(Clone, Copy)]
pub struct Request<'a, 'w> {
    /// The checkpoint that the call before wrote; none for a new job.
    pub checkpoint: &'a [u8],
    /// The octets of the recording that follow the records that are done.
    pub octets: &'a [u8],
    /// What to give of them.
    pub wanted: Wanted<'w>,
    /// The recording ends after these octets.
    pub last: bool,
}

/// What a call gave. A room that is large enough has the octets that belong there in front; another may hold anything.
#[derive(Clone, Copy, Debug, PartialEq, Eq)]
pub struct Answer {
    /// The number of records that are done in all.
    pub records: u32,
    /// How many octets belong to `out`.
    pub out: usize,
    /// How many belong to the report.
    pub report: usize,
    /// How many octets the checkpoint for the next call has: none after the last chunk.
    pub checkpoint: usize,
    /// How many of the octets were used: those of whole records, or all if the recording ends after them.
    pub used: usize,
    /// The records of the call had a good frame of a chosen channel.
    pub has_good_frame: bool,
    /// Their report has a line that tells a loss: any but `vca`, `group` and `short`. For a summary: its numbers tell one.
    pub has_losses: bool,
    /// How many octets each row of the definition has in the binary form; 0 where no definition is wanted.
    pub row_length: u32,
}

// Writes the checkpoint of a job into a room, if it is large enough, and answers how many octets it has.
fn keep(alloc: Global, job: Option<Job>, room: &mut [u8]) -> Result<usize, Refusal>
    ensures octets { IfOk result (λ n. Holds room.new n (kept_octets (option_map (λ j. j.work) job))) }
    ensures length { length room.new ≡ length room.old }
    ensures refused { IfErr result (λ refusal. refusal ≡ Refusal.NoMemory) }
{
    let Some(job) = job else {
        return Ok(0);
    };
    let Ok(octets) = job.checkpoint(alloc) else {
        return Err(Refusal::NoMemory);
    };
    if octets.len() <= room.len() {
        room[..octets.len()].copy_from_slice(octets.as_slice());
    }
    Ok(octets.len())
}

// How many of `octets` are used, where a record has this size.
fn used_octets(last: bool, size: usize, octets: usize) -> usize
    requires { 0 < size }
    ensures value { result ≡ used_octets last size octets }
    ensures most { result ≤ octets }
{
    if last { octets } else { octets / size * size }
}

// How many octets each row in the binary form has by the definition that is wanted: 0 where none is.
fn row_length(wanted: Wanted<'_>) -> u32
    ensures { result ≡ row_length_of wanted.entry }
{
    match wanted {
        Wanted::Packets(Command::Fields(definition, _)) => definition.row_length(),
        Wanted::Packets(Command::BinaryFields(definition, _)) => definition.row_length(),
        Wanted::Packets(Command::Extract | Command::Packets | Command::BinaryPackets) => 0,
        Wanted::Frames => 0,
    }
}

// Gives what is wanted of a chunk that follows what the job has done.
#[tactic(auto, using(tm_output::proofs::LinePieces::lines_out, crate::proofs::ChunkLemmas::reports_none))]
fn give(
    alloc: Global,
    layout: &Layout,
    job: Job,
    request: Request<'_, '_>,
    out: &mut [u8],
    report: &mut [u8],
) -> Result<Given, Refusal>
    requires { layout.now ≡ job.work.rules.layout }
    ensures out { IfOk result (λ given. Holds out.new given.out
        (outs (given_pieces request.entry.wanted request.entry.last job request.entry.octets.now))) }
    ensures report { IfOk result (λ given. Holds report.new given.report
        (reports (given_pieces request.entry.wanted request.entry.last job request.entry.octets.now))) }
    ensures records { IfOk result (λ given. given.records
        ≡ job.work.state.records + length (records (size_of job.work) request.entry.octets.now)) }
    ensures kept { IfOk result (λ given. option_map (λ j. j.work) given.kept
        ≡ kept_of (chunk_ending request.entry.last) (worked job.work (records (size_of job.work) request.entry.octets.now))) }
    ensures totals { IfOk result (λ given. given.totals
        ≡ chunk_totals request.entry.wanted request.entry.last job request.entry.octets.now) }
    ensures refused { IfErr result (IsRunRefused job request.entry.octets.now) }
{
    let size = layout.record_length();
    let chunk = Chunk {
        done: u64::from(job.records()) * size as u64,
        octets: request.octets,
        last: request.last,
    };
    match request.wanted {
        Wanted::Packets(command) => run_into_rooms(alloc, job, command, chunk, out, report),
        Wanted::Frames => list_into_room(alloc, job, chunk, out),
    }
}

/// Runs over a chunk of a recording: the whole records that follow those that the checkpoint has done, or all octets down to the recording's
/// end. Nothing is kept but the octets of the checkpoint that is written.
///
/// # Errors
///
/// What is wrong first with the checkpoint; `TooMany` where there are more than 2^32 - 1 records; `NoMemory`. A room that is too small is no
/// error: its length tells it, and the call can be made again.
pub fn run_chunk(
    alloc: Global,
    settings: &Settings,
    request: Request<'_, '_>,
    out: &mut [u8],
    report: &mut [u8],
    checkpoint: &mut [u8],
) -> Result<Answer, Refusal>
    // With Ok the job is the one that its octets say, and the rooms hold just what the chunk's octets give from that job on.
    ensures answer { IfOk result (λ answer. (job : JobState) × Begins settings.now request.entry.checkpoint.now job
        × IsAnswer request.entry.wanted request.entry.last job request.entry.octets.now answer
        out.new report.new checkpoint.new) }
    ensures used { IfOk result (λ answer. answer.used ≤ length request.entry.octets.now) }

    // Else this is why.
    ensures refused { IfErr result (IsChunkRefused settings.now request.entry.checkpoint.now request.entry.octets.now) }

    // The rooms stay where they are.
    ensures rooms { (length out.new ≡ length out.old) × (length report.new ≡ length report.old)
        × (length checkpoint.new ≡ length checkpoint.old) }
{
    let job = read_job(alloc, settings, request.checkpoint)?;
    let layout = settings.layout();
    let size = layout.record_length();
    let given = match give(alloc, &layout, job, request, out, report) {
        Ok(given) => given,
        Err(refusal) => return Err(refusal),
    };
    Ok(Answer {
        records: given.records,
        out: given.out,
        report: given.report,
        checkpoint: keep(alloc, given.kept, checkpoint)?,
        used: used_octets(request.last, size, request.octets.len()),
        has_good_frame: given.totals.good > 0,
        has_losses: given.totals.has_losses,
        row_length: row_length(request.wanted),
    })
}
