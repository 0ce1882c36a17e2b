//! What is kept of a pair, in 32 bits.

ghost use Rattle.std.specs.Prelude.{◌≡◌, Decides, Some, None};
ghost use Rattle.tm_packet.specs.Valid.{IsEntry};

use crate::tracker::PairEntry;
use std::marker::Model;

// Where there is no count.
const NONE: u16 = 0xFFFF;

/// The place of a pair's entry, which is read and written at once.
#[derive(Clone, Copy)]
pub struct PairPlace {
    // The first count of the open group, then the last count. Each is FFFF where there is none.
    counts: u32,
}

impl Model for PairPlace {
    ghost use Rattle.std.specs.Prelude.{Option};
    ghost use Rattle.tm_packet.specs.declared.tracker.PairEntry.{PairEntry};
    ghost use Rattle.tm_packet.specs.code.Places.{entry_in, counts_of, ArePlaced};

    ghost Value = { Option PairEntry };

    ghost view = { λ p. entry_in p.counts };

    ghost invariant = { λ p. ArePlaced p.counts };

    ghost inverse = { λ e. record { counts = counts_of e } };

    ghost inverse_ok = { λ p h i. record { counts = h i } };
}

impl PairPlace {
    /// A place without an entry.
    pub fn empty() -> PairPlace
        ensures { result ≡ None }
    {
        PairPlace { counts: u32::MAX }
    }

    /// The place of a pair's entry.
    #[tactic(auto, using(crate::proofs::PlaceLemmas::placed))]
    pub fn of(entry: PairEntry) -> PairPlace
        requires { IsEntry entry }
        ensures { result ≡ Some entry }
    {
        let first = entry.first.unwrap_or(NONE);
        PairPlace {
            counts: u32::from(first) * 0x10000 + u32::from(entry.count),
        }
    }

    /// The entry is this one.
    #[tactic(auto, using(crate::proofs::PlaceLemmas::told))]
    pub fn is(self, entry: PairEntry) -> bool
        requires { IsEntry entry }
        ensures { Decides result (self ≡ Some entry) }
    {
        self.counts == PairPlace::of(entry).counts
    }

    /// The entry, if there is one.
    pub fn entry(self) -> Option<PairEntry>
        ensures { result ≡ self }
    {
        let count = (self.counts % 0x10000) as u16;
        if count == NONE {
            return None;
        }
        let first = match (self.counts / 0x10000) as u16 {
            NONE => None,
            first => Some(first),
        };
        Some(PairEntry { count, first })
    }
}
