//! The limits of the numbers of the settings.

ghost use Rattle.std.specs.Prelude.{◌≡◌};
ghost use Rattle.tm_settings.specs.Limits.{limits_of};

use tm_faults::Key;

/// The least and the greatest that a number may be.
#[derive(Clone, Copy, Debug, PartialEq, Eq)]
pub struct Limits {
    pub least: u32,
    pub most: u32,
}

pub(crate) const SPACECRAFT: Limits = Limits {
    least: 0,
    most: 1023,
};

pub(crate) const FRAME_LENGTH: Limits = Limits {
    least: 9,
    most: 2048,
};

pub(crate) const SKIP: Limits = Limits {
    least: 0,
    most: 1024,
};

pub(crate) const MAX_PACKET: Limits = Limits {
    least: 7,
    most: 65542,
};

/// The limits of a key whose value is a number.
pub fn number_limits(key: Key) -> Option<Limits>
    ensures { result ≡ limits_of key }
{
    match key {
        Key::Spacecraft => Some(SPACECRAFT),
        Key::FrameLength => Some(FRAME_LENGTH),
        Key::SkipBefore | Key::SkipAfter => Some(SKIP),
        Key::MaxPacket => Some(MAX_PACKET),
        Key::Secondary | Key::Ocf | Key::ErrorControl | Key::Channels => None,
    }
}
