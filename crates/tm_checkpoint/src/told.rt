//! What a checkpoint tells a person: how many records are done, and which setting is another.

ghost use Rattle.std.specs.Prelude.{◌≡◌, ◌≤◌, find, length, option_map, IfSome};
ghost use Rattle.tm_faults.specs.Keys.{all_keys};
ghost use Rattle.tm_checkpoint.specs.Told.{is_other, number_in, number_told, records_told, setting_number};

use crate::checkpoint::settings_octets;
use crate::version::Version;
use tm_bits::two_at;
use tm_settings::{Key, Settings};

/// A setting that a checkpoint has otherwise: its key, its number there, and that of the settings.
#[derive(Clone, Copy, Debug, PartialEq, Eq)]
pub struct OtherSetting {
    pub key: Key,
    pub there: u32,
    pub here: u32,
}

// The number of a key in the octets of settings.
fn number_in(octets: &[u8], key: Key) -> u32
    requires { 15 ≤ length octets.now }
    ensures { result ≡ number_in octets.now key }
{
    match key {
        Key::Spacecraft => u32::from(two_at(octets, 0)),
        Key::FrameLength => u32::from(two_at(octets, 2)),
        Key::SkipBefore => u32::from(two_at(octets, 4)),
        Key::SkipAfter => u32::from(two_at(octets, 6)),
        Key::Secondary => u32::from(octets[8]),
        Key::Ocf => u32::from(octets[9]),
        Key::ErrorControl => u32::from(octets[10]),
        Key::Channels => u32::from(octets[11]),
        Key::MaxPacket => 65536 * u32::from(octets[12]) + u32::from(two_at(octets, 13)),
    }
}

// The number of a key of settings, by the octets that a checkpoint would have of them.
#[tactic(auto, using(crate::proofs::ToldLemmas::told_again))]
fn setting_number(settings: &Settings, key: Key) -> u32
    ensures { result ≡ setting_number settings.now key }
{
    let octets = settings_octets(
        settings.layout(),
        settings.channels(),
        settings.max_packet(),
    );
    number_in(&octets, key)
}

// The number of a key in a checkpoint.
fn number_told(octets: &[u8], key: Key) -> u32
    requires { 20 ≤ length octets.now }
    ensures { result ≡ number_told octets.now key }
{
    if key == Key::MaxPacket && octets[4] == 1 {
        return 65542;
    }
    number_in(&octets[5..], key)
}

// The checkpoint has another number for a key than the settings.
fn is_other(settings: &Settings, octets: &[u8], key: Key) -> bool
    requires { 20 ≤ length octets.now }
    ensures { result ≡ is_other settings.now octets.now key }
{
    number_told(octets, key) != setting_number(settings, key)
}

// The first of some keys for which the checkpoint has another number.
fn first_other(settings: &Settings, octets: &[u8], keys: &[Key]) -> Option<Key>
    requires { 20 ≤ length octets.now }
    ensures { result ≡ find (is_other settings.now octets.now) keys.now }
{
    for key in keys {
        if is_other(settings, octets, *key) {
            return Some(*key);
        }
    }
    None
}

/// The first setting that a checkpoint has otherwise. There is none in octets that are too short for any checkpoint.
pub fn find_other_setting(settings: &Settings, octets: &[u8]) -> Option<OtherSetting>
    ensures key { 33 ≤ length octets.now
        → option_map (λ other. other.key) result ≡ find (is_other settings.now octets.now) all_keys }
    ensures numbers { IfSome result (λ other. (other.there ≡ number_told octets.now other.key)
        × (other.here ≡ setting_number settings.now other.key)) }
{
    if octets.len() < 33 {
        return None;
    }
    let key = first_other(settings, octets, &Key::ALL)?;
    Some(OtherSetting {
        key,
        there: number_told(octets, key),
        here: setting_number(settings, key),
    })
}

/// How many records are done. Octets that are too short for any checkpoint, or of no version, tell none.
pub fn records_told(octets: &[u8]) -> Option<u32>
    ensures { 33 ≤ length octets.now → result ≡ records_told octets.now }
{
    if octets.len() < 33 {
        return None;
    }
    let at = 5 + Version::of(octets[4])?.form().settings;
    Some(u32::from_be_bytes([octets[at], octets[at + 1], octets[at + 2], octets[at + 3]]))
}
