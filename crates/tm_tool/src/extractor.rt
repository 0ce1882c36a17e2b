//! What a job has from record to record, and a run borrows.

ghost use Rattle.std.specs.Prelude.{◌≡◌, false, IfOk};
ghost use Rattle.tm_checkpoint.specs.Works.{IsGoing, work_of};
ghost use Rattle.tm_tool.specs.code.Extractors.{IsReady};

use std::alloc::{AllocError, Global};
use tm_packet::Tracker;
use tm_reassembly::Reassembly;

/// The channels, the sequence counts, a buffer of one record, and memory for the lines of an item, with the allocator of these.
#[derive(Drop)]
pub(crate) struct Extractor {
    pub(crate) alloc: Global,
    pub(crate) reassembly: Reassembly,
    pub(crate) tracker: Tracker,
    pub(crate) buffer: Vec<u8>,
    pub(crate) lines: Vec<u8>,
}

impl Extractor {
    /// Makes the buffer that goes with these. The lines take no memory before the first note.
    pub(crate) fn new(
        alloc: Global,
        reassembly: Reassembly,
        tracker: Tracker,
    ) -> Result<Extractor, AllocError>
        requires { IsGoing reassembly }
        ensures work { IfOk result (λ e. work_of e.reassembly e.tracker ≡ work_of reassembly tracker) }
        ensures ready { IfOk result IsReady }
    {
        let buffer = vec![in alloc; 0u8; reassembly.layout().record_length()]?;
        Ok(Extractor {
            alloc,
            reassembly,
            tracker,
            buffer,
            lines: Vec::new(alloc),
        })
    }
}
