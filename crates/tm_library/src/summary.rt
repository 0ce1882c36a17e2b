//! The summary of a whole recording, into a room.

ghost use Rattle.std.specs.Prelude.{◌≡◌, [], length, IfOk, IfErr};
ghost use Rattle.tm_library.specs.Chunks.{IsSummary};
ghost use Rattle.tm_library.specs.Refusals.{IsChunkRefused};

use crate::chunk::Chunk;
use crate::{Answer, Refusal};
use std::alloc::Global;
use tm_devices::Room;
use tm_tool::{Settings, Summed, sum_up};

// What a summary answers: there is no report, no checkpoint and no definition, and all octets are used.
fn whole_answer(summed: Summed, out: usize, octets: &[u8]) -> Answer
    ensures records { result.records ≡ summed.records }
    ensures out { result.out ≡ out }
    ensures others { (result.report ≡ 0) × (result.checkpoint ≡ 0) × (result.row_length ≡ 0) }
    ensures used { result.used ≡ length octets.now }
    ensures told { (result.has_good_frame ≡ summed.has_good_frame) × (result.has_losses ≡ summed.has_losses) }
{
    Answer {
        records: summed.records,
        out,
        report: 0,
        checkpoint: 0,
        used: octets.len(),
        has_good_frame: summed.has_good_frame,
        has_losses: summed.has_losses,
        row_length: 0,
    }
}

/// Writes the lines of the summary of a whole recording into a room. What a summary counts stands in no checkpoint, so it takes one call.
///
/// # Errors
///
/// `TooMany` where there are more than 2^32 - 1 records; `NoMemory`. A room that is too small is no
/// error: its length tells it, and the call can be made again.
pub fn summarize_recording(
    alloc: Global,
    settings: &Settings,
    octets: &[u8],
    out: &mut [u8],
) -> Result<Answer, Refusal>
    // With Ok the room holds just the summary of the recording.
    ensures answer { IfOk result (λ answer. IsSummary settings.now octets.now answer out.new) }

    // Else this is why.
    ensures refused { IfErr result (IsChunkRefused settings.now [] octets.now) }

    // The room stays where it is.
    ensures room { length out.new ≡ length out.old }
{
    prove!(0 < settings.layout().record_length());
    let mut recording = Chunk {
        done: 0,
        octets,
        last: true,
    };
    let mut more = Vec::new(alloc);
    let mut room = Room::new(out, &mut more);
    match sum_up(alloc, settings, &mut recording, &mut room) {
        Ok(summed) => Ok(whole_answer(summed, room.length(), octets)),
        Err(fault) => Err(fault.into()),
    }
}
