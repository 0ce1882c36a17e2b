//! Devices and a shelf over memory, which tell their octets. Each moves at most a given number of octets per call, and
//! one of its calls fails, if that is asked for.

ghost use Rattle.std.specs.Prelude.{◌≡◌, ◌<◌, ◌≤◌, [], Some, take, drop, true, false, vec_len};
ghost use Rattle.tm_devices.specs.Devices.{Puts, PutsPrefix};
ghost use Rattle.tm_tests.specs.Stored.{stored};

use std::alloc::Global;
use tm_tool::{DeviceFailed, Drain, Shelf, Source};

/// A source over octets in memory.
#[derive(Drop)]
pub struct MemorySource {
    pub octets: Vec<u8>,
    pub at: usize,
    /// The most octets per call, at least one.
    pub per_call: usize,
    pub calls: u64,
    /// The call that fails, counted from 1; 0 for none.
    pub fails_at: u64,
    pub failed: u64,
    /// A read may wait.
    pub waits: bool,
    ghost within: { at ≤ vec_len octets },
    ghost some: { 0 < per_call },
}

impl MemorySource {
    pub fn new(octets: Vec<u8>, per_call: usize, fails_at: u64) -> Self
        requires { 0 < per_call }
        ensures octets { result.octets.items ≡ octets.items }
        ensures start { result.at ≡ 0 }
        ensures most { result.per_call ≡ per_call }
        ensures fails_at { result.fails_at ≡ fails_at }
        ensures calls { result.calls ≡ 0 }
        ensures failed { result.failed ≡ 0 }
        ensures waits { result.waits ≡ true }
    {
        MemorySource {
            octets,
            at: 0,
            per_call,
            calls: 0,
            fails_at,
            failed: 0,
            waits: true,
        }
    }
}

impl Source for MemorySource {
    ghost failures = { λ s. s.failed };

    ghost left = { λ s. Some (drop s.at s.octets.items) };

    ghost waits = { λ s. s.waits };

    fn read(&mut self, buffer: &mut [u8]) -> Result<usize, DeviceFailed> {
        self.calls = self.calls.saturating_add(1);
        if self.calls == self.fails_at {
            self.failed = self.failed.saturating_add(1);
            return Err(DeviceFailed);
        }
        let rest = self.octets.len() - self.at;
        let n = rest.min(self.per_call).min(buffer.len());
        buffer[..n].copy_from_slice(&self.octets[self.at..self.at + n]);
        self.at += n;
        Ok(n)
    }

    fn may_wait(&self) -> bool {
        self.waits
    }
}

/// A drain into memory.
#[derive(Drop)]
pub struct MemoryDrain {
    pub octets: Vec<u8>,
    /// The most octets per call, at least one.
    pub per_call: usize,
    pub calls: u64,
    /// The call that fails, counted from 1; 0 for none.
    pub fails_at: u64,
    pub failed: u64,
    /// How many of the octets were there at the last flush.
    pub passed: usize,
    ghost some: { 0 < per_call },
}

impl MemoryDrain {
    pub fn new(octets: Vec<u8>, per_call: usize, fails_at: u64) -> Self
        requires { 0 < per_call }
        ensures octets { result.octets.items ≡ octets.items }
        ensures most { result.per_call ≡ per_call }
        ensures fails_at { result.fails_at ≡ fails_at }
        ensures calls { result.calls ≡ 0 }
        ensures failed { result.failed ≡ 0 }
        ensures passed { result.passed ≡ 0 }
    {
        MemoryDrain {
            octets,
            per_call,
            calls: 0,
            fails_at,
            failed: 0,
            passed: 0,
        }
    }
}

impl Drain for MemoryDrain {
    ghost failures = { λ s. s.failed };

    ghost written = { λ s. Some s.octets.items };

    ghost flushed = { λ s. Some (take s.passed s.octets.items) };

    fn write(&mut self, octets: &[u8]) -> Result<usize, DeviceFailed> {
        self.calls = self.calls.saturating_add(1);
        let n = octets.len().min(self.per_call);
        if self.calls == self.fails_at || self.octets.extend_from_slice(&octets[..n]).is_err() {
            self.failed = self.failed.saturating_add(1);
            return Err(DeviceFailed);
        }
        Ok(n)
    }

    fn flush(&mut self) -> Result<(), DeviceFailed> {
        self.calls = self.calls.saturating_add(1);
        if self.calls == self.fails_at {
            self.failed = self.failed.saturating_add(1);
            return Err(DeviceFailed);
        }
        self.passed = self.octets.len();
        Ok(())
    }
}

/// Octets that were put for an application.
#[derive(Drop)]
pub struct Put {
    pub application: u16,
    pub octets: Vec<u8>,
}

/// A put was refused.
#[derive(Clone, Copy, Debug, PartialEq, Eq)]
pub struct PutRefused;

/// A shelf in memory.
#[derive(Drop)]
pub struct MemoryShelf {
    pub alloc: Global,
    pub puts: Vec<Put>,
    pub calls: u64,
    /// The call that is refused, counted from 1; 0 for none.
    pub refuses_at: u64,
    pub refused: u64,
    /// How many octets of a put that is refused stand on the shelf, if it has more.
    pub leaves: usize,
}

impl MemoryShelf {
    pub fn new(alloc: Global, refuses_at: u64) -> Self
        ensures empty { result.puts.items ≡ [] }
        ensures refuses_at { result.refuses_at ≡ refuses_at }
        ensures calls { result.calls ≡ 0 }
        ensures none { result.refused ≡ 0 }
    {
        MemoryShelf {
            alloc,
            puts: Vec::new(alloc),
            calls: 0,
            refuses_at,
            refused: 0,
            leaves: 0,
        }
    }

    // Keeps octets of an application after the others, if there is memory for it: whether it did.
    #[tactic(auto, using(crate::proofs::Stored::stored_one))]
    fn keep(&mut self, application: u16, octets: &[u8]) -> bool
        ensures kept { result ≡ true → Puts (Some (stored self.old.puts.items))
            (Some (stored self.new.puts.items)) application octets.now }
        ensures lost { result ≡ false → self.new.puts.items ≡ self.old.puts.items }
        ensures refused { self.new.refused ≡ self.old.refused }
    {
        let Ok(octets) = octets.to_vec(self.alloc) else {
            return false;
        };
        let put = Put {
            application,
            octets,
        };
        self.puts.push(put).is_ok()
    }

    // Keeps the first octets of a put that is refused: those that are to be left.
    #[tactic(auto, using(crate::proofs::Stored::put_none, crate::proofs::Stored::put_front))]
    fn leave(&mut self, application: u16, octets: &[u8])
        ensures left { PutsPrefix (Some (stored self.old.puts.items)) (Some (stored self.new.puts.items)) application octets.now }
        ensures refused { self.new.refused ≡ self.old.refused }
    {
        let leaves = self.leaves;
        if leaves == 0 || octets.len() <= leaves {
            return;
        }
        if !self.keep(application, &octets[..leaves]) {
            return;
        }
    }
}

impl Shelf for MemoryShelf {
    type Fault = PutRefused;

    ghost refusals = { λ s. s.refused };

    ghost kept = { λ s. Some (stored s.puts.items) };

    #[tactic(auto, using(crate::proofs::Stored::put_none))]
    fn put(&mut self, application: u16, octets: &[u8]) -> Result<(), PutRefused> {
        self.calls = self.calls.saturating_add(1);
        if self.calls == self.refuses_at {
            self.leave(application, octets);
            self.refused = self.refused.saturating_add(1);
            return Err(PutRefused);
        }
        if self.keep(application, octets) {
            return Ok(());
        }
        self.refused = self.refused.saturating_add(1);
        Err(PutRefused)
    }
}
