//! The line of an explanation.

ghost use Rattle.std.specs.Prelude.{◌≡◌, ◌++◌, ℕ, List, IfOk, OnOk};
ghost use Rattle.std.specs.List.{flat_map};
ghost use Rattle.std.specs.Str.{chars};
ghost use Rattle.tm_faults.specs.Explanations.{IsLine, line_of, shown, shown_text};

use crate::NoMemory;
use std::alloc::{AllocError, Global};
use std::marker::Model;
use tm_bits::push_escaped;

// Appends a character as it is shown.
fn push_shown(line: &mut Vec<u8>, character: char) -> Result<(), AllocError>
    ensures { OnOk result (line.new.items ≡ line.old.items ++ shown character) }
{
    let mut room = [0u8; 4];
    let octets = character.encode_utf8(&mut room).as_bytes();
    if character.is_alphanumeric() {
        line.extend_from_slice(octets)
    } else {
        push_escaped(line, octets)
    }
}

// Appends the characters of a text as they are shown.
fn push_characters(line: &mut Vec<u8>, text: &str) -> Result<(), AllocError>
    ensures { OnOk result (line.new.items ≡ line.old.items ++ flat_map shown (chars text.now)) }
{
    for character in text.chars() {
        push_shown(line, character)?;
    }
    Ok(())
}

// Appends octets as they are shown.
fn push_text(line: &mut Vec<u8>, octets: &[u8]) -> Result<(), AllocError>
    ensures { OnOk result (line.new.items ≡ line.old.items ++ shown_text octets.now) }
{
    match std::str::from_utf8(octets) {
        Ok(text) => push_characters(line, text),
        Err(_) => push_escaped(line, octets),
    }
}

/// The line for a person after the line of a fault: two spaces, a text, and the end of the line. Letters and digits of all scripts stand for
/// themselves, and all else is printed as `push_escaped` prints it. So it is one line of visible characters and spaces, whatever the text holds.
#[derive(Drop)]
pub struct Explanation {
    line: Vec<u8>,
}

impl Model for Explanation {
    ghost Value = { List ℕ };

    ghost view = { λ e. e.line.items };

    ghost invariant = { λ e. IsLine e.line.items };
}

impl Explanation {
    /// The line of a text.
    ///
    /// # Errors
    ///
    /// `NoMemory` where there is no room for the line.
    pub fn new(alloc: Global, text: &[u8]) -> Result<Explanation, NoMemory>
        ensures { IfOk result (λ e. e ≡ line_of text.now) }
    {
        let mut line = Vec::from_slice(alloc, b"  ")?;
        push_text(&mut line, text)?;
        line.extend_from_slice(b"\n")?;
        Ok(Explanation { line })
    }

    /// The octets of the line.
    pub fn as_slice(&self) -> &[u8]
        ensures { result.now ≡ self.now }
    {
        self.line.as_slice()
    }
}
