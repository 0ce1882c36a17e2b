//! What is counted of a channel and application.

ghost use Rattle.std.specs.Prelude.{◌≡◌, []};
ghost use Rattle.tm_summary.specs.Adding.{note_more, whole_more};
ghost use Rattle.tm_summary.specs.SummaryNumbers.{application_of};

use tm_packet::Note;

/// What is counted for a channel and application: its whole packets and their octets, and the records that completed the first
/// and the last of them. Also the gaps of its sequence counts and what is missing there, its whole and its broken groups, and its
/// strays.
#[derive(Clone, Copy, Debug, PartialEq, Eq)]
pub struct ApplicationCounts {
    pub packets: u64,
    pub octets: u64,
    pub first: u32,
    pub last: u32,
    pub gaps: u64,
    pub missing: u64,
    pub groups: u64,
    pub broken: u64,
    pub strays: u64,
}

impl ApplicationCounts {
    // A channel and application for which nothing came.
    #[tactic(auto, unfolding(crate::specs::SummaryNumbers::in_all))]
    pub(crate) fn none() -> ApplicationCounts
        ensures { result ≡ application_of [] [] }
    {
        ApplicationCounts {
            packets: 0,
            octets: 0,
            first: 0,
            last: 0,
            gaps: 0,
            missing: 0,
            groups: 0,
            broken: 0,
            strays: 0,
        }
    }

    // One whole packet more, of this length, which this record completed.
    pub(crate) fn add_packet(&mut self, seen: u32, octets: u64)
        ensures { self.new ≡ whole_more self.old seen octets }
    {
        if self.packets == 0 {
            self.first = seen;
        }
        self.last = seen;
        self.packets = self.packets.saturating_add(1);
        self.octets = self.octets.saturating_add(octets);
    }

    // A note more.
    pub(crate) fn add_note(&mut self, note: Note)
        ensures { self.new ≡ note_more self.old note }
    {
        match note {
            Note::Gap { missing, .. } => {
                self.gaps = self.gaps.saturating_add(1);
                self.missing = self.missing.saturating_add(u64::from(missing));
            }
            Note::Broken { .. } => self.broken = self.broken.saturating_add(1),
            Note::Whole { .. } => self.groups = self.groups.saturating_add(1),
            Note::Stray { .. } => self.strays = self.strays.saturating_add(1),
        }
    }
}
