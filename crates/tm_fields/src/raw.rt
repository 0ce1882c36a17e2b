//! Octets as raw digits.

ghost use Rattle.std.specs.Prelude.{◌≡◌, ◌≤◌, ◌++◌, ◌∷◌, [], length, OnOk};
ghost use Rattle.csv.specs.Writing.{default_writer, fields_text};
ghost use Rattle.tm_fields.specs.Rows.{raw};

use std::alloc::AllocError;

/// Writes a comma and at most eight octets at the end of a row as raw digits: `0x` and two lower-case hexadecimal digits for each.
#[tactic(auto, using(std::proofs::lemmas::Grind::common_steps, crate::proofs::PlainLemmas::raw_made))]
pub(crate) fn push_raw(row: &mut Vec<u8>, octets: &[u8]) -> Result<(), AllocError>
    requires few { length octets.now ≤ 8 }
    ensures { OnOk result (row.new.items ≡ row.old.items ++ fields_text default_writer (raw octets.now ∷ [])) }
{
    let mut room = *b",0x0000000000000000";
    let end = 3 + 2 * octets.len();
    let _ = hex::encode_to_slice(octets, &mut room[3..end]);
    row.extend_from_slice(&room[..end])
}
