//! Where octets come from, and where they go to.

ghost use Rattle.std.specs.Prelude.{◌≡◌, ◌≤◌, ℕ, Bool, true, List, [], drop, length, take, Option, None, IfOk, OnOk, OnErr};
ghost use Rattle.std.specs.Io.KnownBytes.{Consumes, Keeps, ReadConsumes, WriteAppends};
ghost use Rattle.tm_devices.specs.Devices.{CountsFailures, PassesOver, Puts, PutsPrefix, PutsNone, TakesSome};

/// A call of a device failed.
#[derive(Clone, Copy, Debug, PartialEq, Eq)]
pub struct DeviceFailed;

/// Where octets come from. A source reads, and need not do more.
pub trait Source {
    /// How many calls have failed, up to 2^64 - 1.
    ghost failures: { Self → ℕ };

    /// The octets that are left, of a device that tells them.
    ghost left: { Self → Option (List ℕ) } = { λ _. None };

    /// A read may wait until octets come.
    ghost waits: { Self → Bool } = { λ _. true };

    /// Reads the next octets into the beginning of the buffer, and answers how many. It answers 0 for a
    /// buffer that isn't empty only at the end. A failed call reads nothing.
    fn read(&mut self, buffer: &mut [u8]) -> Result<usize, DeviceFailed>
        ensures bound { IfOk result (λ n. n ≤ length buffer.new) }
        ensures octets { ReadConsumes (left self.old) (left self.new) result buffer.new }
        ensures counts { CountsFailures (failures self.old) (failures self.new) result };

    /// Passes over this many octets in one step, if there are as many and the device can, and answers whether it did. If it did not, or the
    /// call failed, none was passed over, and the octets are read.
    fn pass_over(&mut self, _octets: u64) -> Result<bool, DeviceFailed>
        ensures octets { PassesOver (left self.old) (left self.new) _octets result }
        ensures counts { CountsFailures (failures self.old) (failures self.new) result }
    {
        Ok(false)
    }

    /// Whether a read may wait until octets come. Before such a read all that was written is flushed. A source that never waits, as a
    /// regular file, may say so.
    fn may_wait(&self) -> bool
        ensures { waits self.now ≡ true → result ≡ true }
    {
        true
    }
}

/// Where octets come from, which shows those at hand. The loops over recordings ask for this. Each `Source` is one that has none at hand.
pub trait BufferedSource {
    /// How many calls have failed, up to 2^64 - 1.
    ghost failures: { Self → ℕ };

    /// The octets that are left, of a device that tells them.
    ghost left: { Self → Option (List ℕ) } = { λ _. None };

    /// The octets at hand: the next ones, as far as the device holds them already.
    ghost at_hand: { Self → List ℕ } = { λ _. [] };

    /// A read may wait until octets come.
    ghost waits: { Self → Bool } = { λ _. true };

    /// Whether a read may wait, as a source says it.
    fn may_wait(&self) -> bool
        ensures { waits self.now ≡ true → result ≡ true }
    {
        true
    }

    /// Reads as a source does.
    fn read(&mut self, buffer: &mut [u8]) -> Result<usize, DeviceFailed>
        ensures bound { IfOk result (λ n. n ≤ length buffer.new) }
        ensures octets { ReadConsumes (left self.old) (left self.new) result buffer.new }
        ensures counts { CountsFailures (failures self.old) (failures self.new) result };

    /// The octets at hand.
    fn at_hand(&self) -> &[u8]
        ensures { result.now ≡ at_hand self.now };

    /// Takes this many of the octets at hand. It never fails.
    fn consume(&mut self, octets: usize)
        requires { octets ≤ length (at_hand self.old) }
        ensures octets { Consumes (left self.old) (left self.new) (take octets (at_hand self.old)) }
        ensures rest { at_hand self.new ≡ drop octets (at_hand self.old) }
        ensures counts { failures self.new ≡ failures self.old };

    /// Passes over octets as a source does.
    fn pass_over(&mut self, _octets: u64) -> Result<bool, DeviceFailed>
        ensures octets { PassesOver (left self.old) (left self.new) _octets result }
        ensures counts { CountsFailures (failures self.old) (failures self.new) result }
    {
        Ok(false)
    }
}

impl<S: Source> BufferedSource for S {
    ghost failures = { λ s. S.failures s };

    ghost left = { λ s. S.left s };

    ghost waits = { λ s. S.waits s };

    fn may_wait(&self) -> bool {
        Source::may_wait(self)
    }

    fn read(&mut self, buffer: &mut [u8]) -> Result<usize, DeviceFailed> {
        Source::read(self, buffer)
    }

    fn at_hand(&self) -> &[u8] {
        &[]
    }

    fn consume(&mut self, _octets: usize) {}

    fn pass_over(&mut self, octets: u64) -> Result<bool, DeviceFailed> {
        Source::pass_over(self, octets)
    }
}

/// Where octets go to.
pub trait Drain {
    /// How many calls have failed, up to 2^64 - 1.
    ghost failures: { Self → ℕ };

    /// The octets that were written, of a device that tells them.
    ghost written: { Self → Option (List ℕ) } = { λ _. None };

    /// The octets that a flush has passed on, of a device that tells them.
    ghost flushed: { Self → Option (List ℕ) } = { λ _. None };

    /// A number that no call changes, of a drain that tells one, as the name of what it writes into.
    ghost fixed: { Self → ℕ } = { λ _. 0 };

    /// Writes some of the octets, from the first on, and answers how many: at least one if there is
    /// one. A failed call writes nothing.
    fn write(&mut self, octets: &[u8]) -> Result<usize, DeviceFailed>
        ensures same { fixed self.new ≡ fixed self.old }
        ensures bound { IfOk result (λ n. TakesSome n (length octets.now)) }
        ensures octets { WriteAppends (written self.old) (written self.new) result octets.now }
        ensures counts { CountsFailures (failures self.old) (failures self.new) result };

    /// Passes on all that was written.
    fn flush(&mut self) -> Result<(), DeviceFailed>
        ensures same { fixed self.new ≡ fixed self.old }
        ensures octets { Keeps (written self.old) (written self.new) }
        ensures passed { OnOk result (Keeps (flushed self.new) (written self.new)) }
        ensures counts { CountsFailures (failures self.old) (failures self.new) result };
}

/// Where the packets of applications go, to a place for each.
pub trait Shelf {
    /// Why a put is refused.
    type Fault: Drop;

    /// How many puts were refused, up to 2^64 - 1.
    ghost refusals: { Self → ℕ };

    /// For each application the octets that were put there, of a shelf that tells it; none where nothing was put.
    ghost kept: { Self → Option (ℕ → List ℕ) } = { λ _. None };

    /// Puts octets after those of the application. A put that is refused may have put some of them, not all, from the first on.
    /// Nothing is changed for other applications.
    fn put(&mut self, application: u16, octets: &[u8]) -> Result<(), Self::Fault>
        ensures whole { OnOk result (Puts (kept self.old) (kept self.new) application octets.now) }
        ensures prefix { OnErr result (PutsPrefix (kept self.old) (kept self.new) application octets.now) }
        ensures counts { CountsFailures (refusals self.old) (refusals self.new) result };

    /// Writes out what the shelf holds in memory. A run asks for it before its source may wait. What can't be written then shows at the next put,
    /// or where the shelf's user ends it. A shelf that holds nothing need not do anything.
    fn write_out(&mut self)
        ensures kept { PutsNone (kept self.old) (kept self.new) }
        ensures refusals { refusals self.new ≡ refusals self.old }
    {}
}
