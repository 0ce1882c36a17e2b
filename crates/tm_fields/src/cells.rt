//! Values as CSV's default settings write them in a row.

ghost use Rattle.std.specs.Prelude.{◌≡◌, ◌++◌, ◌∷◌, [], ℕ, Some, List, OnOk, true, false};
ghost use Rattle.csv.specs.Writing.{default_writer, fields_text, needs_quotes};
ghost use Rattle.tm_bits.specs.Escape.{escaped};
ghost use Rattle.tm_fields.specs.code.Line.{HasPassedOn};

use crate::line::{begin, begin_again, end, pass, write_value};
use csv::Writer;
use std::alloc::{AllocError, Global};
use std::marker::Model;
use tm_bits::push_escaped;

// After lines of more octets than this the next line begins a new text.
const ENOUGH: usize = 32768;

// Writes a line of an empty value and this one, and passes it on.
fn write_line(writer: &mut Writer<Vec<u8>>, value: &[u8]) -> Result<(), AllocError>
    ensures { OnOk result ((lines : List ℕ) → HasPassedOn (λ v. Some v.items) writer.old lines
        → HasPassedOn (λ v. Some v.items) writer.new (lines ++ (fields_text default_writer (value.now ∷ []) ++ 10 ∷ []))) }
{
    write_value(writer, b"")?;
    write_value(writer, value)?;
    end(writer)?;
    pass(writer)
}

// The printed text of octets needs no quotes: it has no comma and no quotation mark, and no text printed so has a line's end.
#[tactic(auto, using(crate::proofs::PlainLemmas::escaped_plain))]
fn is_plain(octets: &[u8]) -> bool
    ensures { result ≡ true → needs_quotes default_writer (escaped octets.now) ≡ false }
{
    !octets.contains(&b',') && !octets.contains(&b'"')
}

// Writes a comma and the printed text of octets at the end of a row. The text needs no quotes, so CSV writes it as it is.
#[tactic(auto, using(crate::proofs::PlainLemmas::text_made))]
fn push_plain(row: &mut Vec<u8>, octets: &[u8]) -> Result<(), AllocError>
    requires { needs_quotes default_writer (escaped octets.now) ≡ false }
    ensures { OnOk result (row.new.items ≡ row.old.items ++ fields_text default_writer (escaped octets.now ∷ [])) }
{
    row.push(b',')?;
    push_escaped(row, octets)
}

/// Puts texts into rows as CSV writes them. What they are made in is kept from text to text.
#[derive(Drop)]
pub(crate) struct Cells {
    alloc: Global,
    // All lines since it was made are in the text underneath.
    writer: Writer<Vec<u8>>,
    // An escaped text is made here.
    text: Vec<u8>,
}

impl Model for Cells {
    ghost Value = { List ℕ };

    ghost view = { λ c. c.text.items };

    ghost invariant = { λ c. (lines : List ℕ) × HasPassedOn (λ v. Some v.items) c.writer lines };
}

impl Cells {
    /// No text was put.
    pub(crate) fn new(alloc: Global) -> Cells {
        Cells {
            alloc,
            writer: begin(alloc),
            text: Vec::new(alloc),
        }
    }

    /// The allocator.
    pub(crate) fn alloc(&self) -> Global {
        self.alloc
    }

    // Writes a comma and what is in `text` at the end of a row.
    fn push(&mut self, row: &mut Vec<u8>) -> Result<(), AllocError>
        ensures { OnOk result (row.new.items ≡ row.old.items ++ fields_text default_writer (self.old ∷ [])) }
    {
        if self.writer.get_ref().len() > ENOUGH {
            begin_again(self.alloc, &mut self.writer);
        }
        let before = self.writer.get_ref().len();
        if write_line(&mut self.writer, self.text.as_slice()).is_err() {
            // The beginning of a line is dropped.
            begin_again(self.alloc, &mut self.writer);
            return Err(AllocError);
        }
        // The comma stands after the empty value.
        let lines = self.writer.get_ref().as_slice();
        row.extend_from_slice(&lines[before..lines.len() - 1])
    }

    /// Writes a comma and octets as an escaped text at the end of a row.
    pub(crate) fn push_text(&mut self, row: &mut Vec<u8>, octets: &[u8]) -> Result<(), AllocError>
        ensures { OnOk result (row.new.items ≡ row.old.items ++ fields_text default_writer (escaped octets.now ∷ [])) }
    {
        if is_plain(octets) {
            return push_plain(row, octets);
        }
        self.text.clear();
        push_escaped(&mut self.text, octets)?;
        self.push(row)
    }
}
