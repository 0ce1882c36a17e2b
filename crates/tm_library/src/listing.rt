//! The frames of a chunk, into a room.

ghost use Rattle.std.specs.Prelude.{◌≡◌, ◌+◌, ◌*◌, length, option_map, IfOk, IfErr};
ghost use Rattle.std.specs.List.{concat};
ghost use Rattle.tm_output.specs.declared.command.Command.TheVariants.{Extract};
ghost use Rattle.tm_output.specs.Records.{records};
ghost use Rattle.tm_tool.specs.RecordingPieces.{worked};
ghost use Rattle.tm_tool.specs.Runs.{kept_of};
ghost use Rattle.tm_library.specs.Chunks.{Holds, chunk_ending, frame_lines, size_of, totals_by};
ghost use Rattle.tm_library.specs.Refusals.{IsRunRefused};

use crate::Refusal;
use crate::chunk::Chunk;
use crate::running::{Given, chunk_ending};
use std::alloc::Global;
use tm_devices::Room;
use tm_tool::{Job, list_with_job};

/// Lists the frames of a chunk that follows what the job has done. The job that is kept is the one that a run over the chunk keeps.
pub fn list_into_room(
    alloc: Global,
    job: Job,
    chunk: Chunk<'_>,
    out: &mut [u8],
) -> Result<Given, Refusal>
    requires { chunk.done ≡ job.work.state.records * size_of job.work }

    // Just the lines of the chunk stand in the room, where it is large enough.
    ensures out { IfOk result (λ given. Holds out.new given.out
        (concat (frame_lines chunk.entry.last job chunk.entry.octets.now))) }
    ensures report { IfOk result (λ given. given.report ≡ 0) }
    ensures records { IfOk result (λ given. given.records
        ≡ job.work.state.records + length (records (size_of job.work) chunk.entry.octets.now)) }
    ensures kept { IfOk result (λ given. option_map (λ j. j.work) given.kept
        ≡ kept_of (chunk_ending chunk.entry.last) (worked job.work (records (size_of job.work) chunk.entry.octets.now))) }
    ensures totals { IfOk result (λ given. given.totals ≡ totals_by Extract chunk.entry.last job chunk.entry.octets.now) }

    // Else there are too many records, or memory ran out.
    ensures refused { IfErr result (IsRunRefused job chunk.entry.octets.now) }
{
    let ending = chunk_ending(chunk.last);
    let mut recording = chunk;
    let mut more = Vec::new(alloc);
    let mut room = Room::new(out, &mut more);
    match list_with_job(job, &mut recording, &mut room, ending) {
        Ok(done) => Ok(Given {
            records: done.records,
            kept: done.kept,
            out: room.length(),
            report: 0,
            totals: done.totals,
        }),
        Err(fault) => Err(fault.into()),
    }
}
