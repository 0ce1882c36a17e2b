//! A sink that counts.

ghost use Rattle.std.specs.Prelude.{◌≡◌, ◌<◌, ◌||◌};
ghost use Rattle.tm_packet.specs.Merge as sequence;
ghost use Rattle.tm_items.specs.Item as value;
ghost use Rattle.tm_items.specs.OnePacket.{IsOnePacket};
ghost use Rattle.tm_items.specs.Sinks.{item_of, ItemFits};
ghost use Rattle.tm_output.specs.Pieces.{HasLine, noted};
ghost use Rattle.tm_summary.specs.Tallies.{RefusesTally, SameReferences, TakesTally, with_given, noted_numbers, with_open};
ghost use Rattle.tm_summary.specs.Kinds.{is_bad};

use crate::counts::Counts;
use tm_faults::RunFault;
use tm_items::{Item, Sink};
use tm_output::header_in;
use tm_packet::{Notes, Pair, Tracker};

/// Counts the items that it takes, and the notes of their packets. It remembers whether one of them was a bad frame.
#[derive(Drop)]
pub struct Counting<'a> {
    pub tracker: &'a mut Tracker,
    pub counts: &'a mut Counts,
    pub bad: bool,
}

// Counts notes on a channel and application. It stands apart, since of most packets there are none.
#[inline(never)]
fn add_notes(counts: &mut Counts, key: u16, notes: &Notes)
    requires { key < 16384 }
    ensures { counts.new ≡ noted_numbers counts.old key notes.now }
{
    for i in 0..notes.len() {
        if let Some(note) = notes.get(i) {
            counts.add_note(key, note);
        }
    }
}

// The item is a bad frame.
fn is_bad(item: Item<'_>) -> bool
    ensures { result ≡ is_bad (item_of item.entry) }
{
    matches!(item, Item::Bad { .. })
}

impl Counting<'_> {
    // Counts a packet and its notes.
    #[inline(always)]
    #[tactic(auto, unfolding(tm_output::specs::Pieces::noted))]
    fn add_packet(&mut self, seen: u32, channel: u8, octets: &[u8])
        requires channel { channel < 8 }
        requires packet { IsOnePacket octets.now }
        ensures same { SameReferences self.old self.new }
        ensures noted { self.new.tracker.now ≡ noted self.old.tracker.now (value.Packet seen channel 0 0 octets.now) }
        ensures counted { self.new.counts.now
            ≡ with_given self.old.tracker.now self.old.counts.now (value.Packet seen channel 0 0 octets.now) }
        ensures bad { self.new.bad ≡ self.old.bad }
    {
        let header = header_in(octets);
        let application = header.application();
        let length = octets.len() as u64;
        self.counts.add_packet(seen, channel, application, length);
        if self.tracker.add_without_notes(channel, &header) {
            return;
        }
        let notes = self.tracker.take(channel, header);
        let pair = Pair {
            channel,
            application,
        };
        add_notes(self.counts, pair.key() as u16, &notes);
    }

    // Counts an item that is no packet.
    fn add_line(&mut self, item: Item<'_>)
        requires fits { ItemFits (item_of item) }
        requires line { HasLine (item_of item) }
        ensures same { SameReferences self.old self.new }
        ensures noted { self.new.tracker.now ≡ noted self.old.tracker.now (item_of item.entry) }
        ensures counted { self.new.counts.now ≡ with_given self.old.tracker.now self.old.counts.now (item_of item.entry) }
        ensures bad { self.new.bad ≡ is_bad (item_of item.entry) || self.old.bad }
    {
        self.bad = is_bad(item) || self.bad;
        self.counts.add_item(item);
    }

    /// Counts the groups that are open at a closed end as broken.
    pub fn add_open(&mut self)
        ensures same { SameReferences self.old self.new }
        ensures counted { self.new.counts.now ≡ with_open self.old.counts.now (sequence.unclosed 0 self.old.tracker.now) }
    {
        let mut at = 0;
        while let Some(unclosed) = self.tracker.next_unclosed(at) {
            self.counts.add_note(unclosed.key, unclosed.note);
            at = unclosed.key + 1;
        }
    }
}

impl Sink for Counting<'_> {
    ghost use Rattle.tm_summary.specs.declared.counting.Counting.{Counting};

    type Fault = RunFault;

    ghost Known = { Counting };

    ghost known = { λ s. s };

    ghost takes = { TakesTally };

    ghost refuses = { RefusesTally };

    #[inline(always)]
    fn take(&mut self, item: Item<'_>) -> Result<(), RunFault> {
        match item {
            Item::Packet {
                seen,
                channel,
                octets,
                ..
            } => self.add_packet(seen, channel, octets),
            Item::Bad { .. }
            | Item::MasterGap { .. }
            | Item::Gap { .. }
            | Item::Vca { .. }
            | Item::Dropped { .. }
            | Item::Short { .. } => self.add_line(item),
        }
        Ok(())
    }
}
