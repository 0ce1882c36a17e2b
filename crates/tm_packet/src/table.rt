//! What is kept of all pairs: places for the keys up to the greatest that had an entry. A walk ends after them, and marks let it pass over
//! places without an entry.

ghost use Rattle.std.specs.Prelude.{◌≡◌, ◌+◌, ◌<◌, ◌≤◌, Decides, IfOk, IfSome, Some, None, true, false, [], ◌∷◌, drop, length, slice_set};

use crate::place::PairPlace;
use crate::tracker::PairEntry;
use std::alloc::{AllocError, Global};
use std::marker::Model;

// How many keys there are.
const KEYS: usize = 16384;

// How many keys have a mark together.
const BLOCK: usize = 64;

/// The entries of all pairs, at their keys.
#[derive(Drop)]
pub struct PairTable {
    // The places of the first keys. All others have no entry.
    places: Vec<PairPlace>,
    // For each block of keys whether an entry may stand there.
    marks: [bool; 256],
}

impl Model for PairTable {
    ghost use Rattle.std.specs.Prelude.{◌≤◌, vec_capacity};
    ghost use Rattle.tm_packet.specs.Merge.{Entries};
    ghost use Rattle.tm_packet.specs.code.Blocks.{IsTable, entries_of};

    ghost Value = { Entries };

    ghost view = { λ t. entries_of t.places.items };

    ghost invariant = { λ t. IsTable t.marks t.places.items × (16384 ≤ vec_capacity t.places) };
}

impl PairTable {
    ghost use Rattle.tm_packet.specs.Merge.{entry_at, no_entries};
    ghost use Rattle.tm_packet.specs.Spelling.{entries_from};
    ghost use Rattle.tm_packet.specs.Valid.{IsEntry};

    /// Without an entry. The places of all 16,384 keys are reserved at once, and none is made.
    #[tactic(auto, using(crate::proofs::TableLemmas::no_places, crate::proofs::TableLemmas::tables))]
    pub fn new(alloc: Global) -> Result<PairTable, AllocError>
        ensures { IfOk result (λ table. table ≡ no_entries) }
    {
        Ok(PairTable {
            places: Vec::with_capacity(alloc, KEYS)?,
            marks: [false; 256],
        })
    }

    /// The entry of a key, if there is one.
    #[inline(always)]
    #[tactic(auto, using(crate::proofs::TableLemmas::placed))]
    pub fn entry(&self, key: usize) -> Option<PairEntry>
        requires { key < 16384 }
        ensures value { result ≡ entry_at self.now key }
        ensures inside { key < length self.now }
    {
        if key < self.places.len() {
            self.places[key].entry()
        } else {
            None
        }
    }

    /// Puts an entry in the place of another if that stands there, and answers whether it does.
    #[inline(always)]
    #[tactic(auto, using(crate::proofs::TableLemmas::tables, crate::proofs::TableLemmas::placed))]
    pub fn exchange(&mut self, key: usize, before: PairEntry, entry: PairEntry) -> bool
        requires key { key < 16384 }
        requires before { IsEntry before }
        requires entry { IsEntry entry }
        ensures stood { Decides result (entry_at self.old key ≡ Some before) }
        ensures changed { result ≡ true → self.new ≡ slice_set self.old key (Some entry) }
        ensures left { result ≡ false → self.new ≡ self.old }
    {
        if self.places.len() <= key {
            return false;
        }
        if !self.places[key].is(before) {
            return false;
        }
        self.places[key] = PairPlace::of(entry);
        true
    }

    /// Puts an entry at its key.
    #[tactic(auto, using(crate::proofs::TableLemmas::tables, crate::proofs::TableLemmas::placed))]
    pub fn put(&mut self, key: usize, entry: PairEntry)
        requires key { key < 16384 }
        requires entry { IsEntry entry }
        ensures { self.new ≡ slice_set self.old key (Some entry) }
    {
        if self.places.len() <= key {
            make_places(&mut self.places, key + 1);
        }
        self.marks[key / BLOCK] = true;
        self.places[key] = PairPlace::of(entry);
    }

    /// The first entry from a key on, with its key. Blocks without a mark are passed over, and so is what lies after the last place.
    #[tactic(auto, using(crate::proofs::TableLemmas::passed))]
    pub fn next_entry(&self, at: usize) -> Option<(usize, PairEntry)>
        ensures none { result ≡ None → entries_from at (drop at self.now) ≡ [] }
        ensures found { IfSome result (λ found. entries_from at (drop at self.now)
            ≡ record { key = found.0; last = found.1 } ∷ entries_from (found.0 + 1) (drop (found.0 + 1) self.now)) }
        ensures after { IfSome result (λ found. at ≤ found.0) }
        ensures below { IfSome result (λ found. found.0 < 16384) }
    {
        let mut from = at;
        for block in at / BLOCK..self.places.len().div_ceil(BLOCK) {
            let end = BLOCK * (block + 1);
            if self.marks[block] {
                let found = self.next_entry_until(from, end);
                if found.is_some() {
                    return found;
                }
            }
            from = end;
        }
        None
    }

    // The first entry from a key on and before another, with its key.
    fn next_entry_until(&self, at: usize, end: usize) -> Option<(usize, PairEntry)>
        requires end { end ≤ 16384 }
        requires at { at ≤ end }
        ensures none { result ≡ None → entries_from at (drop at self.now) ≡ entries_from end (drop end self.now) }
        ensures found { IfSome result (λ found. entries_from at (drop at self.now)
            ≡ record { key = found.0; last = found.1 } ∷ entries_from (found.0 + 1) (drop (found.0 + 1) self.now)) }
        ensures after { IfSome result (λ found. at ≤ found.0) }
        ensures below { IfSome result (λ found. found.0 < 16384) }
    {
        for key in at..end {
            if let Some(last) = self.entry(key) {
                return Some((key, last));
            }
        }
        None
    }
}

ghost use Rattle.std.specs.Prelude.{vec_capacity};
ghost use Rattle.tm_packet.specs.code.Blocks.{entries_of};

// Makes places up to this many, for which there is room.
#[cold]
#[inline(never)]
#[tactic(auto, using(crate::proofs::TableLemmas::more_places))]
fn make_places(places: &mut Vec<PairPlace>, many: usize)
    requires more { length places.old.items ≤ many }
    requires most { many ≤ 16384 }
    requires room { 16384 ≤ vec_capacity places.old }
    ensures many { length places.new.items ≡ many }
    ensures room { 16384 ≤ vec_capacity places.new }
    ensures entries { entries_of places.new.items ≡ entries_of places.old.items }
{
    match places.resize(many, PairPlace::empty()) {
        Ok(()) => {}
        Err(_) => unreachable!(),
    }
}
