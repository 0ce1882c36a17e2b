//! The versions of the form of checkpoints.

ghost use Rattle.std.specs.Prelude.{◌≡◌};

/// A version of the form in which checkpoints are written. The last one is written, and all are read.
#[derive(Clone, Copy, Debug, PartialEq, Eq)]
pub enum Version {
    One,
    Two,
    Three,
}

/// What the form of a version has.
#[derive(Clone, Copy, Debug, PartialEq, Eq)]
pub struct VersionForm {
    /// The octet that names the version.
    pub octet: u8,
    /// The number of octets of the settings.
    pub settings: usize,
    /// The fewest octets that a checkpoint has.
    pub least: usize,
    /// Whether the state has the last master channel frame count.
    pub with_master: bool,
}

impl Version {
    ghost use Rattle.tm_checkpoint.specs.Checkpoints.{form_of, version_named};

    /// The version that an octet names.
    pub fn of(octet: u8) -> Option<Version>
        ensures { result ≡ version_named octet }
    {
        match octet {
            1 => Some(Version::One),
            2 => Some(Version::Two),
            3 => Some(Version::Three),
            _ => None,
        }
    }

    /// What its form has.
    pub fn form(self) -> VersionForm
        ensures { result ≡ form_of self }
    {
        match self {
            Version::One => VersionForm {
                octet: 1,
                settings: 12,
                least: 33,
                with_master: false,
            },
            Version::Two => VersionForm {
                octet: 2,
                settings: 15,
                least: 36,
                with_master: false,
            },
            Version::Three => VersionForm {
                octet: 3,
                settings: 15,
                least: 37,
                with_master: true,
            },
        }
    }
}
