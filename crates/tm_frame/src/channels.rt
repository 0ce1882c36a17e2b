//! Sets of virtual channels.

ghost use Rattle.std.specs.Prelude.{◌≡◌, ◌≤◌, Bool, List, length, if◌then◌else◌};
ghost use Rattle.tm_frame.specs.Channels.{is_chosen, all_channels, channels_of, mask_of};

use std::marker::Model;

/// A set of the eight virtual channels of a spacecraft (CCSDS 132.0-B-3, 4.1.2.3).
#[derive(Clone, Copy, Debug, PartialEq, Eq)]
pub struct Channels {
    chosen: [bool; 8],
}

impl Model for Channels {
    ghost Value = { List Bool };

    ghost view = { λ c. c.chosen };

    ghost inverse = { λ v. record { chosen = v } };
}

impl Channels {
    /// All eight channels.
    pub fn all() -> Channels
        ensures { result ≡ all_channels }
    {
        Channels { chosen: [true; 8] }
    }

    /// The channels of these numbers: `None` if and only if there are none, one is over 7, or one comes twice.
    #[tactic(auto, using(crate::proofs::ChannelSets::marks_start, crate::proofs::ChannelSets::marks_more, crate::proofs::ChannelSets::marks_over, crate::proofs::ChannelSets::marks_twice, crate::proofs::ChannelSets::marks_done))]
    pub fn of(numbers: &[u8]) -> Option<Channels>
        ensures { result ≡ channels_of numbers.now }
    {
        if numbers.is_empty() {
            return None;
        }
        let mut chosen = [false; 8];
        for i in 0..numbers.len() {
            let number = numbers[i];
            if number > 7 {
                return None;
            }
            if chosen[number as usize] {
                return None;
            }
            chosen[number as usize] = true;
        }
        Some(Channels { chosen })
    }

    /// Whether a channel is in the set.
    pub fn has(&self, channel: u8) -> bool
        ensures { result ≡ is_chosen self.now channel }
    {
        match self.chosen.get(channel as usize) {
            Some(chosen) => *chosen,
            None => false,
        }
    }

    /// The set as a number: channel c has the bit of value `2^c`.
    pub fn mask(&self) -> u8
        ensures value { result ≡ mask_of self.now }
        ensures eight { length self.now ≡ 8 }
    {
        let [a, b, c, d, e, f, g, h] = self.chosen;
        bit(a, 1)
            + bit(b, 2)
            + bit(c, 4)
            + bit(d, 8)
            + bit(e, 16)
            + bit(f, 32)
            + bit(g, 64)
            + bit(h, 128)
    }
}

// The value of a bit that is set, else 0.
fn bit(set: bool, value: u8) -> u8
    ensures value { result ≡ (if set then value else 0) }
    ensures most { result ≤ value }
{
    if set { value } else { 0 }
}
