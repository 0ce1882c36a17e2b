//! Numbers in octets, the most significant octet first.

ghost use Rattle.std.specs.Prelude.{◌≡◌, ◌+◌, ◌≤◌, ◌++◌, length, vec_len, vec_capacity};
ghost use Rattle.tm_bits.specs.Bits.{two_octets, two_at};

/// The number in the two octets at a place.
pub fn two_at(octets: &[u8], at: usize) -> u16
    requires { at + 2 ≤ length octets.now }
    ensures { result ≡ two_at octets.now at }
{
    u16::from_be_bytes([octets[at], octets[at + 1]])
}

/// Appends a number in two octets, for which there is room.
pub fn push_two(out: &mut Vec<u8>, number: u16)
    requires { vec_len out.old + 2 ≤ vec_capacity out.old }
    ensures items { out.new.items ≡ out.old.items ++ two_octets number }
    ensures len { vec_len out.new ≡ vec_len out.old + 2 }
    ensures room { vec_capacity out.old ≤ vec_capacity out.new }
{
    push(out, &number.to_be_bytes());
}

/// Appends octets, for which there is room.
pub fn push(out: &mut Vec<u8>, octets: &[u8])
    requires { vec_len out.old + length octets.now ≤ vec_capacity out.old }
    ensures items { out.new.items ≡ out.old.items ++ octets.now }
    ensures len { vec_len out.new ≡ vec_len out.old + length octets.now }
    ensures room { vec_capacity out.old ≤ vec_capacity out.new }
{
    match out.extend_from_slice(octets) {
        Ok(()) => {}
        Err(_) => unreachable!(),
    }
}
