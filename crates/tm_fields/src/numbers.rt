//! Numbers at places that count bits.

ghost use Rattle.std.specs.Prelude.{◌≡◌, ◌<◌, ◌≤◌, ◌+◌, ◌*◌, ◌/◌, ◌%◌, ◌^◌, length};
ghost use Rattle.tm_bits.specs.Bits.{bits_of, number, part};
ghost use Rattle.tm_fields.specs.Numbers.{bits_in, number_within};

use byteorder::{BigEndian, ByteOrder};

// The number that at most nine octets spell.
#[tactic(auto, using(std::proofs::lemmas::Grind::common_steps, crate::proofs::NumberLemmas::none_spelled, crate::proofs::NumberLemmas::one_more_spelled, crate::proofs::NumberLemmas::power_most))]
fn big_endian(octets: &[u8]) -> u128
    requires few { length octets.now ≤ 9 }
    ensures value { result ≡ number (bits_of octets.now) }
    ensures bound { result < 256 ^ length octets.now }
{
    let mut all = 0u128;
    for octet in octets {
        all = 256 * all + u128::from(*octet);
    }
    all
}

// The `count` bits of a word that stand before its last `behind` bits.
#[tactic(auto, using(crate::proofs::NumberLemmas::masked, crate::proofs::NumberLemmas::masked_below))]
fn cut_bits(word: u64, behind: u32, count: u32) -> u64
    requires some { 1 ≤ count }
    requires within { behind + count ≤ 64 }
    ensures value { result ≡ word / 2 ^ behind % 2 ^ count }
    ensures bound { result < 2 ^ count }
{
    (word >> behind) & (u64::MAX >> (64 - count))
}

// The number in `bits` bits: the octets that hold them are put together, the bits after them are shifted away, and those before are
// masked.
fn number_across_octets(octets: &[u8], at: u32, count: u32) -> u64
    requires few { count ≤ 64 }
    requires within { at + count ≤ bits_in octets.now }
    ensures value { result ≡ part octets.now at (at + count) }
    ensures bound { result < 2 ^ count }
{
    let end = u64::from(at) + u64::from(count);
    let first = at as usize / 8;
    let last = end.div_ceil(8) as usize;
    let all = big_endian(&octets[first..last]);
    let behind = 8 * last as u64 - end;
    ((all >> behind) % (1 << count)) as u64
}

/// The number in at most 64 bits. It is cut out of a word of eight octets, where one has all of them.
pub(crate) fn number_from(octets: &[u8], at: u32, count: u32) -> u64
    requires some { 1 ≤ count }
    requires few { count ≤ 64 }
    requires within { at + count ≤ bits_in octets.now }
    ensures value { result ≡ part octets.now at (at + count) }
    ensures bound { result < 2 ^ count }
{
    let end = at as usize + count as usize;
    let last = octets.len().min(at as usize / 8 + 8);
    if last < 8 || end > 8 * last {
        return number_across_octets(octets, at, count);
    }
    let word = BigEndian::read_u64(&octets[last - 8..]);
    cut_bits(word, (8 * last - end) as u32, count)
}

/// The number in `bits` bits from the bit `offset` on, the most significant first: bit 0 is the most significant bit of the
/// first octet. `None` if and only if `bits` is 0 or over 64, or the last of them would lie after the octets.
pub fn number_at(octets: &[u8], offset: u32, bits: u32) -> Option<u64>
    ensures { result ≡ number_within octets.now offset bits }
{
    let end = u64::from(offset) + u64::from(bits);
    if bits == 0 || bits > 64 || end.div_ceil(8) > octets.len() as u64 {
        return None;
    }
    Some(number_from(octets, offset, bits))
}
