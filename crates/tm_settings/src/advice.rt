//! What to write for a key: the key that is nearest to a text, and what the value of a key has to be.

ghost use Rattle.std.specs.Prelude.{◌≡◌, ◌<◌, ◌≤◌, None, IfOk, IfSome};
ghost use Rattle.std.specs.List.{All};
ghost use Rattle.tm_faults.specs.Keys.{all_keys};
ghost use Rattle.tm_settings.specs.Advice.{edits_limit, edits_to, wanted_of};

use crate::limits::{Limits, number_limits};
use std::alloc::{AllocError, Global};
use strsim::levenshtein;
use tm_faults::Key;

// How many edits lead from a text to the name of a key.
fn edits_to(alloc: Global, text: &str, key: Key) -> Result<usize, AllocError>
    ensures { IfOk result (λ edits. edits ≡ edits_to text.now key) }
{
    levenshtein(alloc, text, key.word())
}

// The nearest of some keys to a text, if fewer edits than the limit lead to one.
fn nearest_of(
    alloc: Global,
    text: &str,
    limit: usize,
    keys: &[Key],
) -> Result<Option<Key>, AllocError>
    ensures near { IfOk result (λ found. IfSome found (λ key. edits_to text.now key < limit)) }
    ensures nearest { IfOk result (λ found. IfSome found
        (λ key. All (λ other. edits_to text.now key ≤ edits_to text.now other) keys.now)) }
    ensures none { IfOk result (λ found. found ≡ None → All (λ other. limit ≤ edits_to text.now other) keys.now) }
{
    let mut nearest = None;
    let mut least = limit;
    for key in keys {
        let edits = edits_to(alloc, text, *key)?;
        if edits < least {
            nearest = Some(*key);
            least = edits;
        }
    }
    Ok(nearest)
}

/// The key of the settings that is nearest to a text, if fewer than four edits of a character lead to one, and fewer than the text has
/// octets.
///
/// # Errors
///
/// `AllocError` where there is no room to count the edits.
pub fn nearest_key(alloc: Global, text: &str) -> Result<Option<Key>, AllocError>
    ensures near { IfOk result (λ found. IfSome found (λ key. edits_to text.now key < edits_limit text.now)) }
    ensures nearest { IfOk result (λ found. IfSome found
        (λ key. All (λ other. edits_to text.now key ≤ edits_to text.now other) all_keys)) }
    ensures none { IfOk result (λ found. found ≡ None → All (λ other. edits_limit text.now ≤ edits_to text.now other) all_keys) }
{
    nearest_of(alloc, text, text.len().min(4), &Key::ALL)
}

/// What the value of a key has to be: for a number its limits, by which it is read.
///
/// # Errors
///
/// `AllocError` where there is no room for the text.
pub fn wanted_value(alloc: Global, key: Key) -> Result<Vec<u8>, AllocError>
    ensures { IfOk result (λ text. text.items ≡ wanted_of key) }
{
    let text = match (key, number_limits(key)) {
        (_, Some(Limits { least, most })) => {
            return Ok(format!(in alloc; "an integer from {least} to {most}")?.into_bytes());
        }
        (Key::Channels, None) => "an array of distinct integers from 0 to 7, at least one",
        (Key::ErrorControl, None) => "true or false",
        (_, None) => "\"flag\", \"always\" or \"never\"",
    };
    Vec::from_slice(alloc, text.as_bytes())
}
