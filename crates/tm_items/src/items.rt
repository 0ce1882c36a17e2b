//! What is reported of records.

ghost use Rattle.std.specs.Prelude.{◌≡◌};
ghost use Rattle.tm_items.specs.Reasons.{reason_word};

use tm_frame::FrameFault;

/// Why octets of a channel are dropped.
#[derive(Clone, Copy, Debug, PartialEq, Eq)]
pub enum Reason {
    /// A first header pointer disagrees with the packet that is open.
    Pointer,
    /// The counts of the channel's frames have a gap.
    Gap,
    /// A VCA frame comes between.
    Vca,
    /// The recording ends.
    Close,
    /// No packet is open to which the octets could belong.
    NoStart,
    /// The packet is not of version 0.
    Version,
    /// The packet has more octets than the limit.
    Length,
}

impl Reason {
    /// All reasons, in the order of the losses in a summary.
    pub const ALL: [Reason; 7] = [
        Reason::Pointer,
        Reason::Gap,
        Reason::Vca,
        Reason::Close,
        Reason::NoStart,
        Reason::Version,
        Reason::Length,
    ];

    /// The word that names the reason.
    pub fn word(self) -> &'static str
        ensures { result.now ≡ reason_word self }
    {
        match self {
            Reason::Pointer => "pointer",
            Reason::Gap => "gap",
            Reason::Vca => "vca",
            Reason::Close => "end",
            Reason::NoStart => "no-start",
            Reason::Version => "version",
            Reason::Length => "length",
        }
    }
}

/// What is reported of records. `seen` is the record at which the item is given, at a closed end the number of records. A packet or
/// part begins in the record `first`, at `place` in its data field. Records and places are counted from 0.
#[derive(Clone, Copy, Debug, PartialEq, Eq)]
pub enum Item<'a> {
    /// A record that is no good frame, and its fault.
    Bad {
        seen: u32,
        fault: FrameFault,
    },
    /// The master channel frame counts of the good frames, of whatever channel, have a gap before this record. It has the count
    /// that was expected and the one that was found, and how many are missing, modulo 256 (CCSDS 132.0-B-3, 4.1.2.5).
    MasterGap {
        seen: u32,
        expected: u8,
        found: u8,
        missing: u8,
    },
    /// The counts of the channel's frames have a gap before this record. It has the virtual channel frame count that was expected
    /// and the one that was found, and how many are missing, modulo 256 (CCSDS 132.0-B-3, 4.1.2.6).
    Gap {
        seen: u32,
        channel: u8,
        expected: u8,
        found: u8,
        missing: u8,
    },
    /// A frame that holds a VCA_SDU, which is not delivered.
    Vca {
        seen: u32,
        channel: u8,
    },
    /// Octets of the channel that are lost.
    Dropped {
        seen: u32,
        channel: u8,
        first: u32,
        place: u16,
        octets: u32,
        reason: Reason,
    },
    /// A whole packet, 7 octets up to the limit.
    Packet {
        seen: u32,
        channel: u8,
        first: u32,
        place: u16,
        octets: &'a [u8],
    },
    /// Octets that are left at the end, fewer than a record.
    Short {
        seen: u32,
        octets: u32,
    },
}
