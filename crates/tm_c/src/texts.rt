//! Lines as texts of C: without a line feed, and with a 0 at the end.

ghost use Rattle.std.specs.Prelude.{◌≡◌, IfOk};
ghost use Rattle.tm_feed.specs.EventLines.{line_or_none};
ghost use Rattle.tm_c.specs.Texts.{IsText, TellsReason, long_line, refusal_line};

use std::alloc::Global;
use tm_faults::{NoMemory, RunFault, ToolFault, fault_line};
use tm_feed::{Event, event_line};
use tm_library::{Input, Refusal};

/// Writes a line into a room, cut where the room ends. Answers how long the whole text is, its 0 not counted.
pub fn write_text(line: &[u8], room: &mut [u8]) -> usize
    ensures { IsText line.now room.new result }
{
    let length = line.len().saturating_sub(1);
    if let Some(last) = room.len().checked_sub(1) {
        let shown = length.min(last);
        room[..shown].copy_from_slice(&line[..shown]);
        room[shown] = 0;
    }
    length
}

fn long_line(input: Input) -> &'static str
    ensures { result.now ≡ long_line input }
{
    match input {
        Input::Settings => "tmx: settings: too long\n",
        Input::Definition => "tmx: definition: too long\n",
        Input::Checkpoint => "tmx: checkpoint: too long\n",
    }
}

// The line of a refusal.
fn refusal_line(alloc: Global, refusal: Refusal) -> Result<Vec<u8>, NoMemory>
    ensures { IfOk result (λ line. line.items ≡ refusal_line refusal) }
{
    let fault = match refusal {
        Refusal::TooLong(input) => {
            return Ok(Vec::from_slice(alloc, long_line(input).as_bytes())?);
        }
        Refusal::Settings(fault) => ToolFault::Settings(fault),
        Refusal::Definition(fault) => ToolFault::Definition(fault),
        Refusal::Checkpoint(fault) => ToolFault::Checkpoint(fault),
        Refusal::TooMany => ToolFault::Run(RunFault::TooMany),
        Refusal::NoMemory => ToolFault::Run(RunFault::NoMemory),
    };
    fault_line(alloc, &fault)
}

/// Writes the line of a refusal into a room. If memory runs out meanwhile, the line says that.
pub fn write_reason(alloc: Global, refusal: Refusal, room: &mut [u8])
    ensures { TellsReason refusal room.new }
{
    match refusal_line(alloc, refusal) {
        Ok(line) => write_text(line.as_slice(), room),
        Err(_) => write_text(b"tmx: out of memory\n", room),
    };
}

/// Writes the line of an event into a room, cut where the room ends. Answers how long it is: 0 of an event that is none.
#[unsafe(no_mangle)]
pub extern "C" fn event_text(event: &Event, room: &mut [u8]) -> usize
    ensures { IsText (line_or_none event.now) room.new result }
{
    match event_line(event) {
        Some(line) => write_text(line.as_slice(), room),
        None => write_text(&[], room),
    }
}
