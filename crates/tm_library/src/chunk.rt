//! The octets that follow the records that are done, as a recording.

ghost use Rattle.std.specs.Prelude.{◌≡◌, ◌==◌, ◌≤◌, true, false, Some, [], ◌++◌, replicate, if◌then◌else◌, IfOk};
ghost use Rattle.tm_devices.specs.Devices.{CountsFailures, PassesOver};

use tm_tool::{BufferedSource, DeviceFailed};

/// The recording that a run over a chunk reads: the octets that are done stand as zeros, and a run passes over them and reads none. After them
/// come the octets of the chunk.
#[derive(Clone, Copy)]
pub struct Chunk<'a> {
    /// How many octets are done and not passed over yet.
    pub done: u64,
    /// The octets after them.
    pub octets: &'a [u8],
    /// The recording ends after them.
    pub last: bool,
}

impl BufferedSource for Chunk<'_> {
    ghost failures = { λ _. 0 };

    ghost left = { λ s. Some (replicate s.done 0 ++ s.octets.now) };

    ghost at_hand = { λ s. if s.done == 0 then s.octets.now else [] };

    ghost waits = { λ _. false };

    fn may_wait(&self) -> bool {
        false
    }

    fn read(&mut self, buffer: &mut [u8]) -> Result<usize, DeviceFailed> {
        if self.done == 0 {
            let n = self.octets.len().min(buffer.len());
            buffer[..n].copy_from_slice(&self.octets[..n]);
            self.octets = &self.octets[n..];
            return Ok(n);
        }
        let Some(first) = buffer.first_mut() else {
            return Ok(0);
        };
        *first = 0;
        self.done -= 1;
        Ok(1)
    }

    fn at_hand(&self) -> &[u8] {
        if self.done == 0 { self.octets } else { &[] }
    }

    fn consume(&mut self, octets: usize) {
        if self.done == 0 {
            self.octets = &self.octets[octets..];
        }
    }

    // All that is done is passed over by this call.
    fn pass_over(&mut self, octets: u64) -> Result<bool, DeviceFailed>
        ensures octets { PassesOver (Some (replicate self.old.done 0 ++ self.old.octets.now))
            (Some (replicate self.new.done 0 ++ self.new.octets.now)) octets result }
        ensures counts { CountsFailures 0 0 result }
        ensures passed { IfOk result (λ did. octets ≤ self.old.done → did ≡ true) }
    {
        if self.done < octets {
            return Ok(false);
        }
        self.done -= octets;
        Ok(true)
    }
}
