//! Channels and applications.

ghost use Rattle.std.specs.Prelude.{◌≡◌, ◌/◌, ◌%◌, ◌<◌};
ghost use Rattle.tm_packet.specs.Merge.{pair_key};

/// A channel, at most 7, and an application, at most 2047: packets of one pair are counted together.
#[derive(Clone, Copy, Debug, PartialEq, Eq)]
pub struct Pair {
    pub channel: u8,
    pub application: u16,
}

impl Pair {
    /// The key of the pair, by which pairs are told apart and ordered: `2048 * channel + application`.
    pub fn key(self) -> usize
        requires channel { self.channel < 8 }
        requires application { self.application < 2048 }
        ensures value { result ≡ pair_key self.channel self.application }
        ensures below { result < 16384 }
    {
        2048 * usize::from(self.channel) + usize::from(self.application)
    }

    /// The pair of a key.
    pub fn of_key(key: u16) -> Pair
        requires { key < 16384 }
        ensures { result ≡ record { channel = key / 2048; application = key % 2048 } }
    {
        Pair {
            channel: (key / 2048) as u8,
            application: key % 2048,
        }
    }
}
