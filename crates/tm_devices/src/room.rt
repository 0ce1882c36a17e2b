//! A drain into memory that the caller gives.

ghost use Rattle.std.specs.Prelude.{◌≡◌, ◌≤◌, ◌<◌, ◌+◌, [], ◌++◌, Some, length, take};

use crate::{DeviceFailed, Drain};

/// A drain into a room. What doesn't fit goes into memory, so in the end it is known how much is enough. A write fails only where memory runs
/// out.
#[derive(Drop)]
pub struct Room<'a> {
    /// The room.
    pub octets: &'a mut [u8],
    /// How many of its octets are written.
    pub filled: usize,
    /// What doesn't fit.
    pub overflow: &'a mut Vec<u8>,
    /// How many writes have failed.
    pub failed: u64,
    ghost within: { filled ≤ length octets.now },
    ghost full: { 0 < length overflow.now.items → filled ≡ length octets.now },
}

impl<'a> Room<'a> {
    /// A room over these octets, in which nothing is written yet. What doesn't fit goes into `overflow`, which holds nothing before.
    pub fn new(octets: &'a mut [u8], overflow: &'a mut Vec<u8>) -> Room<'a>
        requires { overflow.old.items ≡ [] }
        ensures octets { result.octets.now ≡ octets.old }
        ensures filled { result.filled ≡ 0 }
        ensures overflow { result.overflow.now.items ≡ [] }
        ensures failed { result.failed ≡ 0 }

        // Both are written in place.
        ensures same_octets { result.octets.ghost_name ≡ octets.entry.ghost_name }
        ensures same_overflow { result.overflow.ghost_name ≡ overflow.entry.ghost_name }
    {
        Room {
            octets,
            filled: 0,
            overflow,
            failed: 0,
        }
    }

    /// How many octets were written.
    pub fn length(&self) -> usize
        ensures { result ≡ self.now.filled + length self.now.overflow.now.items }
    {
        self.filled + self.overflow.len()
    }
}

impl Drain for Room<'_> {
    ghost failures = { λ s. s.failed };

    ghost written = { λ s. Some (take s.filled s.octets.now ++ s.overflow.now.items) };

    ghost flushed = { λ s. Some (take s.filled s.octets.now ++ s.overflow.now.items) };

    // Which room it is.
    ghost fixed = { λ s. s.octets.ghost_name };

    fn write(&mut self, octets: &[u8]) -> Result<usize, DeviceFailed> {
        let n = octets.len().min(self.octets.len() - self.filled);
        if 0 < n || octets.is_empty() {
            self.octets[self.filled..self.filled + n].copy_from_slice(&octets[..n]);
            self.filled += n;
            return Ok(n);
        }
        match self.overflow.extend_from_slice(octets) {
            Ok(()) => Ok(octets.len()),
            Err(_) => {
                self.failed = self.failed.saturating_add(1);
                Err(DeviceFailed)
            }
        }
    }

    fn flush(&mut self) -> Result<(), DeviceFailed> {
        Ok(())
    }
}
