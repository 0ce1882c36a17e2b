//! Whole slices from a source and into a drain.

ghost use Rattle.std.specs.Prelude.{ℕ, List, [], ◌≡◌, ◌≢◌, ◌<◌, ◌≤◌, true, length, take, IfOk, OnOk, OnErr};
ghost use Rattle.std.specs.Io.KnownBytes.{Appends, Consumes, IsAtEnd};
ghost use Rattle.tm_devices.specs.Devices.{AppendsPrefix, CountsFailures};

use crate::{BufferedSource, DeviceFailed, Drain};

// Writes octets by as many writes as it takes. It stands apart, since most are taken by one.
#[inline(never)]
fn write_rest<W: Drain>(out: &mut W, octets: &[u8]) -> Result<(), DeviceFailed>
    ensures same { W.fixed out.new ≡ W.fixed out.old }
    ensures whole { OnOk result (Appends (W.written out.old) (W.written out.new) octets.now) }
    ensures prefix { OnErr result (AppendsPrefix (W.written out.old) (W.written out.new) octets.now) }
    ensures some { OnErr result (octets.now ≢ []) }
    ensures counts { CountsFailures (W.failures out.old) (W.failures out.new) result }
{
    let mut rest = octets;
    while !rest.is_empty() {
        let n = out.write(rest)?;
        rest = &rest[n..];
    }
    Ok(())
}

/// Writes all the octets, by as many writes as it takes.
#[inline(always)]
pub fn write_all<W: Drain>(out: &mut W, octets: &[u8]) -> Result<(), DeviceFailed>
    ensures same { W.fixed out.new ≡ W.fixed out.old }
    ensures whole { OnOk result (Appends (W.written out.old) (W.written out.new) octets.now) }
    ensures prefix { OnErr result (AppendsPrefix (W.written out.old) (W.written out.new) octets.now) }
    ensures some { OnErr result (octets.now ≢ []) }
    ensures counts { CountsFailures (W.failures out.old) (W.failures out.new) result }
{
    if octets.is_empty() {
        return Ok(());
    }
    let n = out.write(octets)?;
    if n == octets.len() {
        return Ok(());
    }
    write_rest(out, &octets[n..])
}

/// Whether the next `octets` octets are not all at hand, and the source may wait for them.
pub fn may_wait_for<R: BufferedSource>(source: &R, octets: usize) -> bool
    ensures short { result ≡ true → length (R.at_hand source.now) < octets }
    ensures asked { R.waits source.now ≡ true → length (R.at_hand source.now) < octets → result ≡ true }
{
    source.may_wait() && source.at_hand().len() < octets
}

/// Fills the buffer, or answers how many octets there were before the end.
pub fn fill<R: BufferedSource>(source: &mut R, buffer: &mut [u8]) -> Result<usize, DeviceFailed>
    ensures bound { IfOk result (λ n. n ≤ length buffer.new) }
    ensures octets { IfOk result (λ n. Consumes (R.left source.old) (R.left source.new) (take n buffer.new)) }
    ensures end { IfOk result (λ n. n < length buffer.new → IsAtEnd (R.left source.new)) }
    ensures part { OnErr result ((part : List ℕ) × Consumes (R.left source.old) (R.left source.new) part
        × (length part < length buffer.new)) }
    ensures counts { CountsFailures (R.failures source.old) (R.failures source.new) result }
{
    let mut filled = 0;
    while filled < buffer.len() {
        let n = source.read(&mut buffer[filled..])?;
        if n == 0 {
            break;
        }
        filled += n;
    }
    Ok(filled)
}
