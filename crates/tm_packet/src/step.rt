//! One header after what is kept of its pair.

ghost use Rattle.std.specs.Prelude.{◌≡◌, ◌+◌, ◌%◌, ◌<◌, ◌==◌, not, Option, Some, None, List, [], ◌∷◌, ◌++◌, length, if◌then◌else◌};
ghost use Rattle.tm_packet.specs.Sequence.{stray};
ghost use Rattle.tm_packet.specs.code.Single.{single_notes, single_after, notes_without_gap, notes_behind_gap, first_kept};
ghost use Rattle.tm_packet.specs.Valid.{EntryFits, IsEntry};

use crate::tracker::PairEntry;
use crate::{Flags, Header, Note, Notes, Why};

/// What is kept of a pair after one more header.
pub fn kept_after(entry: Option<PairEntry>, header: &Header) -> PairEntry
    requires { EntryFits entry }
    ensures value { result ≡ single_after entry header.now }
    ensures fits { IsEntry result }
{
    let count = header.count();
    let first = match header.flags() {
        Flags::First => Some(count),
        Flags::Continuation => first_kept(entry, count),
        Flags::Last => None,
        Flags::Unsegmented => None,
    };
    PairEntry { count, first }
}

// The first count of the group that a continuation goes on with.
fn first_kept(entry: Option<PairEntry>, count: u16) -> Option<u16>
    requires { EntryFits entry }
    ensures { result ≡ first_kept entry count }
{
    match entry {
        Some(last) => {
            if count == (last.count + 1) % 16384 {
                last.first
            } else {
                None
            }
        }
        None => None,
    }
}

/// One more header has no notes, as most have none.
pub fn gives_none(entry: Option<PairEntry>, header: &Header) -> bool
    requires { EntryFits entry }
    ensures { result ≡ (length (single_notes entry header.now) == 0) }
{
    let flags = header.flags();
    let Some(last) = entry else {
        return matches!(flags, Flags::First | Flags::Unsegmented);
    };
    if header.count() != (last.count + 1) % 16384 {
        return false;
    }
    match last.first {
        Some(_) => matches!(flags, Flags::Continuation),
        None => matches!(flags, Flags::First | Flags::Unsegmented),
    }
}

/// The notes of one more header.
pub fn notes_after(entry: Option<PairEntry>, header: &Header) -> Notes
    requires { EntryFits entry }
    ensures { result ≡ single_notes entry header.now }
{
    let count = header.count();
    let flags = header.flags();
    match entry {
        None => strays(flags, count),
        Some(last) => {
            let expected = (last.count + 1) % 16384;
            if count == expected {
                notes_without_gap(&last, flags, count)
            } else {
                notes_behind_gap(&last, expected, flags, count)
            }
        }
    }
}

// Adds the stray note of a member in no group, if it is one.
fn add_stray(notes: &mut Notes, flags: Flags, count: u16)
    requires { length notes.old < 3 }
    ensures { notes.new ≡ notes.old ++ stray flags count }
{
    if matches!(flags, Flags::Continuation | Flags::Last) {
        notes.push(Note::Stray { count, flags });
    }
}

// The notes of a member in no group.
fn strays(flags: Flags, count: u16) -> Notes
    ensures { result ≡ stray flags count }
{
    let mut alone = Notes::none();
    add_stray(&mut alone, flags, count);
    alone
}

fn notes_without_gap(last: &PairEntry, flags: Flags, count: u16) -> Notes
    ensures { result ≡ notes_without_gap last.now flags count }
{
    let Some(first) = last.first else {
        return strays(flags, count);
    };
    let mut notes = Notes::none();
    match flags {
        Flags::Continuation => {}
        Flags::First => notes.push(Note::Broken {
            first,
            last: last.count,
            why: Why::First,
        }),
        Flags::Last => notes.push(Note::Whole { first, last: count }),
        Flags::Unsegmented => notes.push(Note::Broken {
            first,
            last: last.count,
            why: Why::Unsegmented,
        }),
    }
    notes
}

fn notes_behind_gap(last: &PairEntry, expected: u16, flags: Flags, count: u16) -> Notes
    requires expected { expected < 16384 }
    requires count { count < 16384 }
    ensures { result ≡ notes_behind_gap last.now expected flags count }
{
    let mut notes = Notes::none();
    notes.push(Note::Gap {
        expected,
        found: count,
        missing: (count + 16384 - expected) % 16384,
    });
    if let Some(first) = last.first {
        notes.push(Note::Broken {
            first,
            last: last.count,
            why: Why::Gap,
        });
    }
    add_stray(&mut notes, flags, count);
    notes
}
