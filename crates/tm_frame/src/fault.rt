//! The faults of a frame.

ghost use Rattle.std.specs.Prelude.{◌≡◌};

/// Why a frame is bad: the first of these conditions that applies.
#[derive(Clone, Copy, Debug, PartialEq, Eq)]
pub enum FrameFault {
    /// Error control is on and doesn't hold.
    Crc,
    /// The version is not 0.
    Version,
    /// The spacecraft identifier is not the layout's.
    Spacecraft,
    /// The secondary header flag is not what the layout says.
    SecondaryFlag,
    /// The operational control field flag is not what the layout says.
    OcfFlag,
    /// There is a secondary header, and its version is not 0.
    SecondaryVersion,
    /// No octet is left for the data field.
    Layout,
    /// The first header pointer names no place in the data field, and has no meaning of its own.
    Pointer,
}

impl FrameFault {
    ghost use Rattle.tm_frame.specs.FaultWords.{fault_word, fault_number};

    /// All faults, in the order in which they are looked for.
    pub const ALL: [FrameFault; 8] = [
        FrameFault::Crc,
        FrameFault::Version,
        FrameFault::Spacecraft,
        FrameFault::SecondaryFlag,
        FrameFault::OcfFlag,
        FrameFault::SecondaryVersion,
        FrameFault::Layout,
        FrameFault::Pointer,
    ];

    /// The fault's word, as it is printed.
    pub fn word(self) -> &'static str
        ensures { result.now ≡ fault_word self }
    {
        match self {
            FrameFault::Crc => "crc",
            FrameFault::Version => "version",
            FrameFault::Spacecraft => "spacecraft",
            FrameFault::SecondaryFlag => "secondary-flag",
            FrameFault::OcfFlag => "ocf-flag",
            FrameFault::SecondaryVersion => "secondary-version",
            FrameFault::Layout => "layout",
            FrameFault::Pointer => "pointer",
        }
    }

    /// The fault's number, from 1, in the order in which faults are looked for.
    pub fn number(self) -> u8
        ensures { result ≡ fault_number self }
    {
        self as u8 + 1
    }
}
