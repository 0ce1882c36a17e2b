//! The loop over the records of a recording, whatever takes them.

ghost use Rattle.std.specs.Prelude.{◌≡◌, ◌<◌, ◌+◌, ◌∷◌, [], ℕ, true, false, List, length, None, IfOk, IfErr, IfSome, OnOk};
ghost use Rattle.tm_faults.specs.declared.run.RunFault.{RunFault};
ghost use Rattle.tm_tool.specs.Endings.{WantsFurther};
ghost use Rattle.tm_tool.specs.code.Next.{EndsNext, ReadsNext};
ghost use Rattle.tm_tool.specs.code.RecordLoop.{Enough, HasPassed, HasStepped, NextStopped, PassesRecords, PassingStopped, Refusing, StillTakes, Taking, TakingStopped, ThenRefuses};

use crate::{BufferedSource, Ending, RunFault};
use tm_devices::{fill, may_wait_for};

/// Takes the records of a recording, one by one.
pub(crate) trait RecordHandler {
    /// What goes on from record to record.
    type Progress;

    /// What is known of both: how far they have got, and what was written.
    ghost Known: { Type 0 };

    /// What no call changes.
    ghost Fixed: { Type 0 };

    ghost known: { Self.Progress → Self → Self.Known };

    ghost fixed: { Self.Progress → Self → Self.Fixed };

    /// The length of a record, in octets.
    ghost size: { Self.Fixed → ℕ };

    /// The number of records that are done.
    ghost count: { Self.Known → ℕ };

    /// A further record may be taken.
    ghost ready: { Self.Progress → Type 0 };

    /// What records that are taken, one after the other, make of what is known.
    ghost takes: { Self.Fixed → Taking Self.Known };

    /// And a record that is refused with a fault.
    ghost refuses: { Self.Fixed → Refusing Self.Known };

    /// All that was written was flushed.
    ghost flushed: { Self → Type 0 };

    /// The number of records that are done.
    fn records(&self, progress: &Self::Progress) -> u32
        ensures { result ≡ count (known progress.now self.now) };

    /// Takes a record.
    fn handle_record(
        &mut self,
        progress: &mut Self::Progress,
        octets: &[u8],
    ) -> Result<(), RunFault>
        requires exact { length octets.now ≡ size (fixed progress.old self.old) }
        requires ready { ready progress.old }
        ensures same { fixed progress.new self.new ≡ fixed progress.old self.old }
        ensures ready { OnOk result (ready progress.new) }
        ensures counted { OnOk result (count (known progress.new self.new) ≡ count (known progress.old self.old) + 1) }
        ensures taken { OnOk result (takes (fixed progress.old self.old) (known progress.old self.old) (octets.now ∷ [])
            (known progress.new self.new)) }
        ensures refused { IfErr result (refuses (fixed progress.old self.old) (known progress.old self.old) octets.now
            (known progress.new self.new)) };

    /// Flushes all that was written. If that fails, the record that was taken last counts as refused.
    fn flush_all(&mut self, progress: &Self::Progress) -> Result<(), RunFault>
        ensures same { fixed progress.now self.new ≡ fixed progress.now self.old }
        ensures counted { OnOk result (count (known progress.now self.new) ≡ count (known progress.now self.old)) }
        ensures flushed { OnOk result (flushed self.new) }
        ensures taken { OnOk result (StillTakes (takes (fixed progress.now self.old)) (known progress.now self.old)
            (known progress.now self.new)) }
        ensures refused { IfErr result (ThenRefuses (takes (fixed progress.now self.old))
            (refuses (fixed progress.now self.old)) (known progress.now self.old) (known progress.now self.new)) };
}

// Passes over the records that are done in one step, where the recording can do so, and answers whether it did.
fn pass_at_once<R: BufferedSource>(
    count: u32,
    size: usize,
    recording: &mut R,
) -> Result<bool, RunFault>
    requires some { 0 < size }
    ensures passed { IfOk result (λ passed. passed ≡ true → HasPassed size count (R.left recording.old) (R.left recording.new)
        × (R.failures recording.new ≡ R.failures recording.old)) }
    ensures left { IfOk result (λ passed. passed ≡ false → (R.left recording.new ≡ R.left recording.old)
        × (R.failures recording.new ≡ R.failures recording.old)) }
    ensures failed { IfErr result (PassingStopped size count (R.left recording.old) (R.left recording.new)
        (R.failures recording.old) (R.failures recording.new)) }
{
    if count == 0 {
        return Ok(true);
    }
    let Some(octets) = u64::from(count).checked_mul(size as u64) else {
        return Ok(false);
    };
    match recording.pass_over(octets) {
        Ok(passed) => Ok(passed),
        Err(_) => Err(RunFault::Read),
    }
}

// Passes over the records that are done: in one step where the recording can do so, else it reads them one by one.
fn skip_records<R: BufferedSource>(
    count: u32,
    buffer: &mut [u8],
    recording: &mut R,
) -> Result<(), RunFault>
    requires some { 0 < length buffer.old }
    ensures { PassesRecords (length buffer.old) count (R.left recording.old) (R.left recording.new) (R.failures recording.old)
        (R.failures recording.new) result }
{
    if pass_at_once(count, buffer.len(), recording)? {
        return Ok(());
    }
    for _passed in 0..count {
        let Ok(octets) = fill(recording, buffer) else {
            return Err(RunFault::Read);
        };
        if octets < buffer.len() {
            return Err(RunFault::ShortRecording);
        }
    }
    Ok(())
}

// Whether to read on: `done` records were done at the start, `records` are now.
fn wants_more(ending: Ending, done: u32, records: u32) -> bool
    ensures wanted { result ≡ true → WantsFurther ending done records }
    ensures enough { result ≡ false → Enough ending done records }
{
    match ending {
        Ending::Close | Ending::Keep => true,
        Ending::StopAfter(more) => u64::from(records) < u64::from(done) + u64::from(more),
    }
}

// Takes the next record: where it is at hand as it stands there, else through this buffer. What was written is flushed where the recording may
// wait for the record after it. Answers how many octets are left where it is no whole one.
fn handle_next<R: BufferedSource, K: RecordHandler>(
    progress: &mut K::Progress,
    buffer: &mut [u8],
    recording: &mut R,
    handler: &mut K,
) -> Result<Option<usize>, RunFault>
    requires exact { length buffer.old ≡ K.size (K.fixed progress.old handler.old) }
    requires ready { K.ready progress.old }
    ensures same { K.fixed progress.new handler.new ≡ K.fixed progress.old handler.old }
    ensures exact { length buffer.new ≡ length buffer.old }
    ensures ready { OnOk result (K.ready progress.new) }
    ensures counted { IfOk result (λ found. found ≡ None → K.count (K.known progress.new handler.new) ≡ K.count (K.known progress.old handler.old) + 1) }
    ensures took { IfOk result (λ found. found ≡ None → ReadsNext (length buffer.old) (R.left recording.old) (R.left recording.new) (λ one.
        K.takes (K.fixed progress.old handler.old) (K.known progress.old handler.old) (one ∷ []) (K.known progress.new handler.new))) }
    ensures flushed { IfOk result (λ found. found ≡ None → R.waits recording.new ≡ true
        → length (R.at_hand recording.new) < length buffer.new → K.flushed handler.new) }
    ensures ended { IfOk result (λ found. IfSome found (λ count. (progress.new ≡ progress.old) × (handler.new ≡ handler.old)
        × EndsNext (length buffer.old) (R.left recording.old) (R.left recording.new) count)) }
    ensures counts { OnOk result (R.failures recording.new ≡ R.failures recording.old) }
    ensures stopped { IfErr result (NextStopped (K.refuses (K.fixed progress.old handler.old)) (length buffer.old) (R.left recording.old)
        (R.left recording.new) (R.failures recording.old) (R.failures recording.new) (K.known progress.old handler.old) (K.known progress.new handler.new)) }
{
    let size = buffer.len();
    if size <= recording.at_hand().len() {
        let taken = handler.handle_record(progress, &recording.at_hand()[..size]);
        recording.consume(size);
        if let Err(fault) = taken {
            return Err(fault);
        }
    } else {
        let Ok(octets) = fill(recording, buffer) else {
            return Err(RunFault::Read);
        };
        if octets < size {
            return Ok(Some(octets));
        }
        if let Err(fault) = handler.handle_record(progress, buffer) {
            return Err(fault);
        }
    }
    if !may_wait_for(recording, size) {
        return Ok(None);
    }
    match handler.flush_all(progress) {
        Ok(()) => Ok(None),
        Err(fault) => Err(fault),
    }
}

/// Takes the records that the ending wants, one at a time through this buffer, after those that are done. Answers how many octets are
/// left then, of a record that is no whole one.
pub(crate) fn handle_records<R: BufferedSource, K: RecordHandler>(
    progress: &mut K::Progress,
    buffer: &mut [u8],
    recording: &mut R,
    handler: &mut K,
    ending: Ending,
) -> Result<usize, RunFault>
    requires exact { length buffer.old ≡ K.size (K.fixed progress.old handler.old) }
    requires some { 0 < length buffer.old }
    requires ready { K.ready progress.old }
    ensures same { K.fixed progress.new handler.new ≡ K.fixed progress.old handler.old }
    ensures exact { length buffer.new ≡ length buffer.old }
    ensures ready { OnOk result (K.ready progress.new) }
    ensures short { IfOk result (λ octets. octets < length buffer.old) }
    ensures stepped { IfOk result (HasStepped (K.takes (K.fixed progress.old handler.old)) (length buffer.old) (K.count (K.known progress.old handler.old)) ending
        (R.left recording.old) (R.left recording.new) (K.known progress.old handler.old) (K.known progress.new handler.new) (K.count (K.known progress.new handler.new))) }
    ensures counts { OnOk result (R.failures recording.new ≡ R.failures recording.old) }
    ensures stopped { IfErr result (TakingStopped (K.takes (K.fixed progress.old handler.old)) (length buffer.old) (K.count (K.known progress.old handler.old))
        (K.refuses (K.fixed progress.old handler.old)) K.count ending (R.left recording.old) (R.left recording.new)
        (R.failures recording.old) (R.failures recording.new) (K.known progress.old handler.old) (K.known progress.new handler.new)) }
{
    let done = handler.records(progress);
    if let Err(fault) = skip_records(done, buffer, recording) {
        return Err(fault);
    }
    loop {
        if !wants_more(ending, done, handler.records(progress)) {
            return Ok(0);
        }
        match handle_next(progress, buffer, recording, handler) {
            Ok(None) => {}
            Ok(Some(octets)) => return Ok(octets),
            Err(fault) => return Err(fault),
        }
    }
}
