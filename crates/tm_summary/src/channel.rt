//! What is counted of a channel.

ghost use Rattle.std.specs.Prelude.{◌≡◌, ◌<◌, []};
ghost use Rattle.tm_summary.specs.Adding.{drop_more, frame_more, gap_more, loss_more, packet_more};
ghost use Rattle.tm_summary.specs.SummaryNumbers.{channel_counts};

use tm_frame::Kind;
use tm_items::Reason;

/// What is lost of a channel for one reason: how many parts, and their octets.
#[derive(Clone, Copy, Debug, PartialEq, Eq)]
pub struct Loss {
    pub parts: u64,
    pub octets: u64,
}

impl Loss {
    // One part more, of this length.
    fn add(&mut self, octets: u32)
        ensures { self.new ≡ loss_more self.old octets }
    {
        self.parts = self.parts.saturating_add(1);
        self.octets = self.octets.saturating_add(u64::from(octets));
    }
}

/// What is counted for a channel: its good frames, the idle-only and VCA frames among them, the gaps of its counts and what is
/// missing there. Also its whole packets and their octets, its dropped parts and their octets, and what is lost for each reason,
/// in the order of `Reason`. The octets of its joined data fields leave out those of VCA and idle-only frames.
#[derive(Clone, Copy, Debug, PartialEq, Eq)]
pub struct ChannelCounts {
    pub frames: u64,
    pub idle: u64,
    pub vca: u64,
    pub gaps: u64,
    pub missing: u64,
    pub packets: u64,
    pub octets: u64,
    pub dropped: u64,
    pub lost: u64,
    pub data_octets: u64,
    pub losses: [Loss; 7],
}

impl ChannelCounts {
    // A channel for which nothing came.
    #[tactic(auto, unfolding(crate::specs::SummaryNumbers::in_all, crate::specs::SummaryNumbers::for_numbers))]
    pub(crate) fn none() -> ChannelCounts
        ensures { result ≡ channel_counts [] [] }
    {
        let none = Loss {
            parts: 0,
            octets: 0,
        };
        ChannelCounts {
            frames: 0,
            idle: 0,
            vca: 0,
            gaps: 0,
            missing: 0,
            packets: 0,
            octets: 0,
            dropped: 0,
            lost: 0,
            data_octets: 0,
            losses: [none; 7],
        }
    }

    // One good frame more, by what its data field holds and how long that is.
    pub(crate) fn add_frame(&mut self, kind: Kind, octets: u64)
        ensures { self.new ≡ frame_more self.old kind octets }
    {
        self.frames = self.frames.saturating_add(1);
        match kind {
            Kind::Idle => self.idle = self.idle.saturating_add(1),
            Kind::Vca => self.vca = self.vca.saturating_add(1),
            Kind::Packets(_) | Kind::NoStart => {
                self.data_octets = self.data_octets.saturating_add(octets);
            }
        }
    }

    // One gap more, by how many frames are missing.
    pub(crate) fn add_gap(&mut self, missing: u8)
        ensures { self.new ≡ gap_more self.old missing }
    {
        self.gaps = self.gaps.saturating_add(1);
        self.missing = self.missing.saturating_add(u64::from(missing));
    }

    // One whole packet more, of this length.
    pub(crate) fn add_packet(&mut self, octets: u64)
        ensures { self.new ≡ packet_more self.old octets }
    {
        self.packets = self.packets.saturating_add(1);
        self.octets = self.octets.saturating_add(octets);
    }

    // One dropped part more, of this length.
    pub(crate) fn add_drop(&mut self, octets: u32, reason: Reason)
        ensures { self.new ≡ drop_more self.old octets reason }
    {
        self.dropped = self.dropped.saturating_add(1);
        self.lost = self.lost.saturating_add(u64::from(octets));
        self.losses[reason as usize].add(octets);
    }
}
