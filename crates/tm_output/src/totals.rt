//! What a run gave and lost, in numbers.

ghost use Rattle.std.specs.Prelude.{◌≡◌, false};
ghost use Rattle.tm_items.specs.Sinks.{item_of};
ghost use Rattle.tm_output.specs.Totals.{no_totals, with_record, with_line, with_loss, totals_with_packet};

use tm_items::Item;

/// What a run gave and lost, in numbers. A number that would be over 2^64 - 1 stays there, but for that of packets, which is modulo 2^64.
#[derive(Clone, Copy, Debug, PartialEq, Eq)]
pub struct Totals {
    /// The good frames of chosen channels.
    pub good: u64,
    /// The bad frames.
    pub bad: u64,
    /// The frames that are missing at the gaps of the master channel.
    pub missing: u64,
    /// The octets of dropped parts.
    pub dropped: u64,
    /// The packets that were given: of rows, those that have one.
    pub packets: u64,
    /// The packets that are too short for their row.
    pub short: u64,
    /// The report has a line that tells a loss: any but `vca`, `group` and `short`.
    pub has_losses: bool,
    /// For each channel, whether it is chosen and no good frame of it came by now, in earlier runs of the job either.
    pub absent: [bool; 8],
}

impl Totals {
    /// Nothing yet.
    pub fn none() -> Totals
        ensures { result ≡ no_totals }
    {
        Totals {
            good: 0,
            bad: 0,
            missing: 0,
            dropped: 0,
            packets: 0,
            short: 0,
            has_losses: false,
            absent: [false; 8],
        }
    }

    /// Counts a record: whether it is a good frame of a chosen channel. It has no branch, since each record comes here.
    #[inline(always)]
    pub fn add_record(&mut self, chosen: bool)
        ensures { self.new ≡ with_record self.old chosen }
    {
        let (good, over) = self.good.overflowing_add(u64::from(chosen));
        self.good = good.wrapping_sub(u64::from(over));
    }

    // Counts a line that tells a loss.
    pub(crate) fn add_loss(&mut self)
        ensures { self.new ≡ with_loss self.old }
    {
        self.has_losses = true;
    }

    // Counts a packet that the report says nothing of.
    #[inline(always)]
    pub(crate) fn add_quiet(&mut self, given: bool)
        ensures { self.new ≡ totals_with_packet self.old given false false }
    {
        if given {
            self.packets = self.packets.wrapping_add(1);
        }
    }

    // Counts a packet: whether it is given, whether it is too short, and whether its notes tell a loss.
    pub(crate) fn add_packet(&mut self, given: bool, short: bool, lost: bool)
        ensures { self.new ≡ totals_with_packet self.old given short lost }
    {
        self.packets = self.packets.wrapping_add(u64::from(given));
        self.short = self.short.saturating_add(u64::from(short));
        self.has_losses = self.has_losses || lost || short;
    }

    // Counts an item that is no packet.
    #[tactic(auto, unfolding(crate::specs::Totals::with_line))]
    pub(crate) fn add_line(&mut self, item: Item<'_>)
        ensures { self.new ≡ with_line self.old (item_of item.entry) }
    {
        match item {
            Item::Bad { .. } => self.bad = self.bad.saturating_add(1),
            Item::MasterGap { missing, .. } => {
                self.missing = self.missing.saturating_add(u64::from(missing));
            }
            Item::Dropped { octets, .. } => {
                self.dropped = self.dropped.saturating_add(u64::from(octets));
            }
            Item::Gap { .. } => {}
            Item::Vca { .. } | Item::Short { .. } | Item::Packet { .. } => return,
        }
        self.has_losses = true;
    }
}
