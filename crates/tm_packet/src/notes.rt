//! What a header's count and flags tell of the packets of its channel and application.

ghost use Rattle.std.specs.Prelude.{◌≡◌, ◌≤◌, ◌<◌, List, [], ◌∷◌, ◌++◌, take, length, slice_get};

use crate::Flags;
use std::marker::Model;

/// Why a group is broken.
#[derive(Clone, Copy, Debug, PartialEq, Eq)]
pub enum Why {
    /// A count was missed.
    Gap,
    /// Another group began.
    First,
    /// An unsegmented packet came.
    Unsegmented,
    /// The packets ended.
    Close,
}

/// A note of a header.
#[derive(Clone, Copy, Debug, PartialEq, Eq)]
pub enum Note {
    /// The count is not the one expected, which is the one before plus 1 modulo 16384; `missing` counts are between them, modulo
    /// 16384.
    Gap {
        expected: u16,
        found: u16,
        missing: u16,
    },
    /// A group, by its first and last count, that had no last packet.
    Broken {
        first: u16,
        last: u16,
        why: Why,
    },
    /// A whole group, by its first and last count.
    Whole {
        first: u16,
        last: u16,
    },
    /// A continuation or last packet that is in no group.
    Stray {
        count: u16,
        flags: Flags,
    },
}

/// The notes of one header, at most three: a gap, then a group broken, then a group whole or a stray.
#[derive(Drop)]
pub struct Notes {
    notes: [Note; 3],
    count: usize,
}

impl Model for Notes {
    ghost use Rattle.std.specs.Prelude.{List, take, length, ◌≤◌, ◌≡◌};
    ghost use Rattle.tm_packet.specs.declared.notes.Note.{Note};

    ghost Value = { List Note };

    ghost view = { λ n. take n.count n.notes };

    ghost invariant = { λ n. (n.count ≤ 3) × (length n.notes ≡ 3) };
}

impl Notes {
    // No notes.
    pub(crate) fn none() -> Notes
        ensures { result ≡ [] }
    {
        let unused = Note::Whole { first: 0, last: 0 };
        Notes {
            notes: [unused; 3],
            count: 0,
        }
    }

    // Adds a note.
    pub(crate) fn push(&mut self, note: Note)
        requires { length self.old < 3 }
        ensures { self.new ≡ self.old ++ note ∷ [] }
    {
        let Notes { notes, count } = self;
        notes[*count] = note;
        *count += 1;
    }

    /// The number of notes.
    pub fn len(&self) -> usize
        ensures value { result ≡ length self.now }
        ensures most { result ≤ 3 }
    {
        self.count
    }

    /// The note at a place, `None` exactly from `len()` on.
    pub fn get(&self, i: usize) -> Option<Note>
        ensures { result ≡ slice_get self.now i }
    {
        if i < self.count {
            Some(self.notes[i])
        } else {
            None
        }
    }
}
