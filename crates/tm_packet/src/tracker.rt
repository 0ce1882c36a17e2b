//! The tracker of sequence counts and groups, and its spelling in octets.

ghost use Rattle.std.specs.Prelude.{◌≡◌, ◌≢◌, ◌+◌, ◌%◌, ◌*◌, ◌<◌, ◌≤◌, ◌⊎◌, IfOk, IfErr, IfSome, OnOk, OnErr, IsOk, Ok, Err, Some, None, Decides, true, false, [], ◌∷◌, ◌++◌, length, drop, slice_set, vec_len, vec_capacity};

use crate::step::{gives_none, kept_after, notes_after};
use crate::table::PairTable;
use crate::{Flags, Header, Note, Notes, Pair, Why};
use std::alloc::Global;
use std::marker::Model;
use tm_bits::{push_two, two_at};

/// Memory ran out.
#[derive(Clone, Copy, Debug, PartialEq, Eq)]
pub struct NoMemory;

/// What is kept of a channel and application: the last count, and the first count of the group that is open, if there is one.
#[derive(Clone, Copy, Debug, PartialEq, Eq)]
pub struct PairEntry {
    pub count: u16,
    pub first: Option<u16>,
}

/// A group that is open: the key of its pair, `2048 * channel + application`, and the note that it is broken by the end.
#[derive(Clone, Copy, Debug, PartialEq, Eq)]
pub struct Unclosed {
    pub key: u16,
    pub note: Note,
}

/// Why octets are no spelling of a tracker.
#[derive(Clone, Copy, Debug, PartialEq, Eq)]
pub enum TrackerFault {
    /// There are fewer than two octets, or fewer than six for each entry after them.
    Short,
    /// A key is not greater than the one before.
    Order,
    /// A key is over 16383 or that of idle packets, a last count is over 16383, or a first count is over 16383 and not FFFF.
    Value,
    /// Memory ran out.
    NoMemory,
}

/// The three numbers of an entry, as they are spelled: contracts speak of them, and no call takes or gives them.
#[derive(Clone, Copy, Debug)]
pub struct RawEntry {
    /// The number of the channel and application.
    pub key: u16,
    /// The last count.
    pub count: u16,
    /// The first count of the open group, or 65535 where there is none.
    pub first: u16,
}

/// What is kept of each channel and application, at the key of the pair.
#[derive(Drop)]
pub struct Tracker {
    table: PairTable,
}

impl Model for Tracker {
    ghost use Rattle.tm_packet.specs.Merge.{Entries};

    ghost Value = { Entries };

    ghost use Rattle.tm_packet.specs.Valid.{AreValidEntries};

    ghost view = { λ t. t.table };

    ghost invariant = { λ t. AreValidEntries t.table };
}

impl Tracker {
    ghost use Rattle.tm_packet.specs.Merge.{no_entries};
    ghost use Rattle.tm_packet.specs.Merge as sequence;
    ghost use Rattle.tm_packet.specs.Valid.{AreValidEntries};
    ghost use Rattle.tm_packet.specs.Spelling.{entries_spelling, spelled, entries_from, entries_decoding_of, fault_after, raws, state_of, has_values, first_count_of};
    ghost use Rattle.tm_packet.specs.declared.tracker.TrackerFault.TheVariants as fault;

    /// A tracker that has taken no header. The places of all 16,384 keys are reserved at once.
    ///
    /// # Errors
    ///
    /// `NoMemory` where they can't be had.
    pub fn new(alloc: Global) -> Result<Tracker, NoMemory>
        ensures { IfOk result (λ tracker. tracker ≡ no_entries) }
    {
        match PairTable::new(alloc) {
            Ok(table) => Ok(Tracker { table }),
            Err(_) => Err(NoMemory),
        }
    }

    /// Takes the next header of a channel, and answers its notes. An idle packet has none and changes nothing. Time is constant, and
    /// no memory is taken.
    #[tactic(auto, using(crate::proofs::Merging::one_header))]
    pub fn take(&mut self, channel: u8, header: Header) -> Notes
        requires { channel < 8 }
        ensures notes { sequence.notes self.old (record { channel = channel; header = header } ∷ []) ≡ result ∷ [] }
        ensures left { self.new ≡ sequence.entries_after self.old (record { channel = channel; header = header } ∷ []) }
    {
        if header.is_idle() {
            return Notes::none();
        }
        let key = key_of(channel, &header);
        let entry = self.table.entry(key);
        self.table.put(key, kept_after(entry, &header));
        notes_after(entry, &header)
    }

    /// Takes the next header of a channel if it has no notes, and answers whether it has none. A header that has notes is left to `take`.
    #[tactic(auto, using(crate::proofs::Merging::one_header))]
    pub fn add_without_notes(&mut self, channel: u8, header: &Header) -> bool
        requires { channel < 8 }
        ensures none { Decides result
            (sequence.notes self.old (record { channel = channel; header = header.now } ∷ []) ≡ [] ∷ []) }
        ensures recorded { result ≡ true → self.new
            ≡ sequence.entries_after self.old (record { channel = channel; header = header.now } ∷ []) }
        ensures left { result ≡ false → self.new ≡ self.old }
    {
        if header.is_idle() {
            return true;
        }
        // Most packets follow the one before, and no group is open.
        let key = key_of(channel, header);
        let (before, after) = entries_around(header.count());
        if matches!(header.flags(), Flags::Unsegmented) && self.table.exchange(key, before, after) {
            return true;
        }
        self.add_other_without_notes(channel, *header)
    }

    // Takes a header that may begin a pair or stand in a group, if it has no notes, and answers whether it has none.
    #[inline(never)]
    #[tactic(auto, using(crate::proofs::Merging::one_header))]
    fn add_other_without_notes(&mut self, channel: u8, header: Header) -> bool
        requires channel { channel < 8 }
        requires packet { sequence.is_idle header ≡ false }
        ensures none { Decides result (sequence.notes self.old (record { channel = channel; header = header } ∷ []) ≡ [] ∷ []) }
        ensures recorded { result ≡ true → self.new
            ≡ sequence.entries_after self.old (record { channel = channel; header = header } ∷ []) }
        ensures left { result ≡ false → self.new ≡ self.old }
    {
        let key = key_of(channel, &header);
        let entry = self.table.entry(key);
        let Some(last) = entry else {
            return self.begin_without_notes(channel, header);
        };
        if !gives_none(entry, &header) {
            return false;
        }
        self.table.exchange(key, last, kept_after(entry, &header))
    }

    // Takes the first header of a pair if it has no notes, and answers whether it has none.
    #[cold]
    #[inline(never)]
    #[tactic(auto, using(crate::proofs::Merging::one_header))]
    fn begin_without_notes(&mut self, channel: u8, header: Header) -> bool
        requires channel { channel < 8 }
        requires packet { sequence.is_idle header ≡ false }
        requires first { sequence.entry_at self.old (key_of (record { channel = channel; header = header })) ≡ None }
        ensures none { Decides result (sequence.notes self.old (record { channel = channel; header = header } ∷ []) ≡ [] ∷ []) }
        ensures recorded { result ≡ true → self.new
            ≡ sequence.entries_after self.old (record { channel = channel; header = header } ∷ []) }
        ensures left { result ≡ false → self.new ≡ self.old }
    {
        if !gives_none(None, &header) {
            return false;
        }
        self.table
            .put(key_of(channel, &header), kept_after(None, &header));
        true
    }

    /// The least key from `at` on whose group is open, with the note that the end breaks it. No memory is taken.
    #[tactic(auto, using(crate::proofs::TableLemmas::open_next))]
    pub fn next_unclosed(&self, at: u16) -> Option<Unclosed>
        ensures value { result ≡ sequence.next_unclosed_of self.now at }
        ensures below { IfSome result (λ unclosed. unclosed.key < 16384) }
    {
        let mut from = usize::from(at);
        while let Some((key, last)) = self.table.next_entry(from) {
            if let Some(first) = last.first {
                let note = Note::Broken {
                    first,
                    last: last.count,
                    why: Why::Close,
                };
                return Some(Unclosed {
                    key: key as u16,
                    note,
                });
            }
            from = key + 1;
        }
        None
    }

    /// Appends the spelling. First comes the number of entries in two octets. Then comes each entry, by rising key: key, last
    /// count, and first count of the open group or FFFF. Each has two octets, the most significant first.
    ///
    /// # Errors
    ///
    /// `NoMemory` where the vector's capacity is too small for it and can't be made larger; the octets are then as they were.
    #[tactic(auto, using(crate::proofs::SpellingLemmas::lengths))]
    pub fn encode(&self, out: &mut Vec<u8>) -> Result<(), NoMemory>
        ensures appended { OnOk result (out.new.items ≡ out.old.items ++ entries_spelling self.now) }
        ensures unchanged { OnErr result (out.new.items ≡ out.old.items) }
        ensures full { OnErr result (vec_capacity out.old < vec_len out.old + length (entries_spelling self.now)) }
        ensures valid { AreValidEntries self.now }
    {
        let count = self.count();
        match out.try_reserve(2 + 6 * count) {
            Ok(()) => {}
            Err(_) => return Err(NoMemory),
        }
        push_two(out, count as u16);
        self.push_entries(out);
        Ok(())
    }

    /// Reads the spelling at the beginning of these octets: the tracker, and the number of octets that were read.
    ///
    /// # Errors
    ///
    /// `Short` where octets are missing; else, at the first entry that is wrong, `Value` or `Order`; else `NoMemory` where memory
    /// for all 16,384 pairs can't be had.
    pub fn decode(alloc: Global, octets: &[u8]) -> Result<(Tracker, usize), TrackerFault>
        ensures ok { IfOk result (λ read. entries_decoding_of octets.now ≡ Ok (record { entries = read.0; octets = read.1 })) }
        ensures refused { IfErr result (λ found. (entries_decoding_of octets.now ≡ Err found)
            ⊎ ((found ≡ fault.NoMemory) × IsOk (entries_decoding_of octets.now))) }
    {
        let Some(count) = entry_count(octets) else {
            return Err(TrackerFault::Short);
        };
        if let Some(fault) = entry_fault(octets, count) {
            return Err(fault);
        }
        let Ok(mut tracker) = Tracker::new(alloc) else {
            return Err(TrackerFault::NoMemory);
        };
        tracker.set_entries(octets, count);
        Ok((tracker, 2 + 6 * count))
    }

    // Puts the entries in their places. The first entry of a key counts: hence from the last to the first.
    #[tactic(auto, using(crate::proofs::DecodingLemmas::entries_set))]
    fn set_entries(&mut self, octets: &[u8], count: usize)
        requires room { 2 + 6 * count ≤ length octets.now }
        requires faultless { fault_after None (raws count (drop 2 octets.now)) ≡ None }
        requires empty { self.old ≡ no_entries }
        ensures { self.new ≡ state_of (raws count (drop 2 octets.now)) }
    {
        for at in (0..count).rev() {
            self.set_entry(&raw_entry_at(octets, 2 + 6 * at));
        }
    }

    // Puts an entry in its place.
    fn set_entry(&mut self, raw: &RawEntry)
        requires { has_values raw.now ≡ true }
        ensures { self.new ≡ slice_set self.old raw.now.key (Some (record {
          count = raw.now.count;
          first = first_count_of raw.now.first;
        })) }
    {
        let first = match raw.first {
            0xFFFF => None,
            first => Some(first),
        };
        let entry = PairEntry {
            count: raw.count,
            first,
        };
        self.table.put(usize::from(raw.key), entry);
    }

    // The number of entries.
    fn count(&self) -> usize
        ensures value { result ≡ length (entries_from 0 self.now) }
        ensures most { result ≤ 16384 }
        ensures valid { AreValidEntries self.now }
    {
        let mut count = 0;
        let mut at = 0;
        while let Some((key, _)) = self.table.next_entry(at) {
            count += 1;
            at = key + 1;
        }
        count
    }

    // Appends the entries, for which there is room.
    fn push_entries(&self, out: &mut Vec<u8>)
        requires { vec_len out.old + 6 * length (entries_from 0 self.now) ≤ vec_capacity out.old }
        ensures { out.new.items ≡ out.old.items ++ spelled (entries_from 0 self.now) }
    {
        let mut at = 0;
        while let Some((key, last)) = self.table.next_entry(at) {
            push_entry(out, key as u16, &last);
            at = key + 1;
        }
    }
}

ghost use Rattle.tm_packet.specs.Merge.{key_of};
ghost use Rattle.tm_packet.specs.Spelling.{entry_octets, entry_count_of, fault_after, raws, raw_of, has_values, rises};

// Appends an entry, for which there is room.
fn push_entry(out: &mut Vec<u8>, key: u16, last: &PairEntry)
    requires { vec_len out.old + 6 ≤ vec_capacity out.old }
    ensures items { out.new.items ≡ out.old.items ++ entry_octets (record { key = key; last = last.now }) }
    ensures len { vec_len out.new ≡ vec_len out.old + 6 }
    ensures room { vec_capacity out.old ≤ vec_capacity out.new }
{
    push_two(out, key);
    push_two(out, last.count);
    match last.first {
        Some(first) => push_two(out, first),
        None => push_two(out, 0xFFFF),
    }
}

// The entry that a packet of this count leaves where no group is open, and the one that the packet before it has left.
fn entries_around(count: u16) -> (PairEntry, PairEntry)
    requires { count < 16384 }
    ensures before { result.0 ≡ record { count = (count + 16383) % 16384; first = None } }
    ensures after { result.1 ≡ record { count = count; first = None } }
{
    let before = PairEntry {
        count: (count + 16383) % 16384,
        first: None,
    };
    (before, PairEntry { count, first: None })
}

// The key of a header's pair.
fn key_of(channel: u8, header: &Header) -> usize
    requires { channel < 8 }
    ensures value { result ≡ key_of (record { channel = channel; header = header.now }) }
    ensures below { result < 16384 }
{
    let pair = Pair {
        channel,
        application: header.application(),
    };
    pair.key()
}

// The number of entries that the octets begin with, where they are all there.
fn entry_count(octets: &[u8]) -> Option<usize>
    ensures { result ≡ entry_count_of octets.now }
{
    if octets.len() < 2 {
        return None;
    }
    let count = usize::from(two_at(octets, 0));
    if octets.len() < 2 + 6 * count {
        return None;
    }
    Some(count)
}

// What is wrong first in the entries.
#[tactic(auto, using(crate::proofs::DecodingLemmas::fault_more))]
fn entry_fault(octets: &[u8], count: usize) -> Option<TrackerFault>
    requires { 2 + 6 * count ≤ length octets.now }
    ensures { result ≡ fault_after None (raws count (drop 2 octets.now)) }
{
    let mut before = None;
    for at in 0..count {
        let raw = raw_entry_at(octets, 2 + 6 * at);
        if !has_values(&raw) {
            return Some(TrackerFault::Value);
        }
        if !rises(before, raw.key) {
            return Some(TrackerFault::Order);
        }
        before = Some(raw.key);
    }
    None
}

// The numbers can be those of an entry.
fn has_values(raw: &RawEntry) -> bool
    ensures { result ≡ has_values raw.now }
{
    raw.key < 16384
        && raw.key % 2048 != 2047
        && raw.count < 16384
        && (raw.first < 16384 || raw.first == 0xFFFF)
}

// The key is greater than the one before, if there is one.
fn rises(before: Option<u16>, key: u16) -> bool
    ensures { result ≡ rises before key }
{
    match before {
        Some(before) => before < key,
        None => true,
    }
}

// The three numbers of the entry at a place.
fn raw_entry_at(octets: &[u8], at: usize) -> RawEntry
    requires { at + 6 ≤ length octets.now }
    ensures { result ≡ raw_of (drop at octets.now) }
{
    RawEntry {
        key: two_at(octets, at),
        count: two_at(octets, at + 2),
        first: two_at(octets, at + 4),
    }
}
