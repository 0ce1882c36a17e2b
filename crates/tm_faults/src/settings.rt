//! The keys of the settings, and why a text is no settings.

ghost use Rattle.std.specs.Prelude.{◌≡◌};

use tm_bits::Octets;

/// A key of the settings, in the order in which their faults are looked for.
#[derive(Clone, Copy, Debug, PartialEq, Eq)]
pub enum Key {
    Spacecraft,
    FrameLength,
    SkipBefore,
    SkipAfter,
    Secondary,
    Ocf,
    ErrorControl,
    Channels,
    MaxPacket,
}

impl Key {
    ghost use Rattle.tm_faults.specs.Keys.{key_name};

    /// All keys.
    pub const ALL: [Key; 9] = [
        Key::Spacecraft,
        Key::FrameLength,
        Key::SkipBefore,
        Key::SkipAfter,
        Key::Secondary,
        Key::Ocf,
        Key::ErrorControl,
        Key::Channels,
        Key::MaxPacket,
    ];

    /// The key as it is written.
    pub fn word(self) -> &'static str
        ensures { result.now ≡ key_name self }
    {
        match self {
            Key::Spacecraft => "spacecraft",
            Key::FrameLength => "frame_length",
            Key::SkipBefore => "skip_before",
            Key::SkipAfter => "skip_after",
            Key::Secondary => "secondary",
            Key::Ocf => "ocf",
            Key::ErrorControl => "error_control",
            Key::Channels => "channels",
            Key::MaxPacket => "max_packet",
        }
    }
}

/// Why a text is no settings.
#[derive(Debug, Drop)]
pub enum SettingsFault {
    /// The text is not UTF-8, or is no TOML document.
    Toml,
    /// It has keys that name no setting. This is the least of them by its octets.
    Unknown(Octets),
    /// This key has to be there.
    Missing(Key),
    /// The value of this key is of another kind.
    Kind(Key),
    /// The value of this key isn't one that it may have.
    Range(Key),
    /// Memory ran out.
    NoMemory,
}
