//! Octets as printed text.

ghost use Rattle.std.specs.Prelude.{◌≡◌, ◌+◌, ◌<◌, ◌≤◌, ◌++◌, ◌∷◌, [], false, length, take, OnOk, OnErr, vec_len, vec_capacity};
ghost use Rattle.hex.specs.Hex.{encode_lower};
ghost use Rattle.tm_bits.specs.Escape.{escaped, is_plain, octet_text};

use std::alloc::AllocError;

// The octet stands for itself.
fn is_plain_octet(octet: u8) -> bool
    ensures { result ≡ is_plain octet }
{
    0x20 <= octet && octet <= 0x7E && octet != b'\\'
}

// An octet that isn't plain, as it is printed.
fn escape_of(octet: u8) -> [u8; 4]
    requires { is_plain octet ≡ false }
    ensures { result ≡ octet_text octet }
{
    let mut escape = *b"\\x00";
    let _ = hex::encode_to_slice([octet], &mut escape[2..]);
    escape
}

// Writes an octet at the end of a text.
#[tactic(auto, using(std::proofs::lemmas::Grind::common_steps))]
fn push_octet(text: &mut Vec<u8>, octet: u8) -> Result<(), AllocError>
    ensures appended { OnOk result (text.new.items ≡ text.old.items ++ octet_text octet) }
    ensures room { vec_capacity text.old ≤ vec_capacity text.new }
    ensures full { OnErr result (vec_capacity text.old < vec_len text.old + length (octet_text octet)) }
    ensures prefix { OnErr result (take (vec_len text.old) text.new.items ≡ text.old.items) }
{
    if is_plain_octet(octet) {
        text.push(octet)?;
    } else {
        text.extend_from_slice(&escape_of(octet))?;
    }
    Ok(())
}

/// Writes octets at the end of a text as they are printed. Octets from `20` to `7E`, other than a backslash, stand for
/// themselves. Each other one is `\x` and two lower-case hexadecimal digits.
///
/// # Errors
///
/// `AllocError` where the vector's capacity is too small for all octets and can't be made larger. A part of the text may then be
/// written.
pub fn push_escaped(text: &mut Vec<u8>, octets: &[u8]) -> Result<(), AllocError>
    ensures appended { OnOk result (text.new.items ≡ text.old.items ++ escaped octets.now) }
    ensures full { OnErr result (vec_capacity text.old < vec_len text.old + length (escaped octets.now)) }
    ensures prefix { OnErr result (take (vec_len text.old) text.new.items ≡ text.old.items) }
{
    for octet in octets {
        push_octet(text, *octet)?;
    }
    Ok(())
}
