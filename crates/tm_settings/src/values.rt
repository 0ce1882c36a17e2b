//! The values of the settings, one by one.

ghost use Rattle.std.specs.Prelude.{◌≡◌, ◌≢◌, Err, Ok, option_map, map, IfOk, IfErr};
ghost use Rattle.toml.specs.View.{view, items_view, table_view};
ghost use Rattle.tm_frame.specs.Channels.{all_channels};
ghost use Rattle.tm_frame.specs.Rules.{IsLimit};
ghost use Rattle.tm_settings.specs.Settings.{channel_number, channels_at, integers, integer_between, integer_of, optional, presence_named, presence_of, required, truth_of, value_at};

use crate::limits::{Limits, MAX_PACKET, SKIP};
use std::alloc::{AllocError, Global};
use tm_faults::{Key, SettingsFault};
use tm_frame::{Channels, Presence};
use toml::{Table, Value};

// What a document has at a key.
fn value_at(table: &Table, key: Key) -> Option<&Value>
    ensures { option_map (λ v. view v.now) result ≡ value_at key (table_view table.now) }
{
    table.get(key.word())
}

// ---- numbers

// A number in its range.
fn number_in(limits: Limits, number: i64) -> Option<u32>
    ensures value { result ≡ integer_between limits.least limits.most number }
{
    match u32::try_from(number) {
        Ok(n) if limits.least <= n && n <= limits.most => Some(n),
        _ => None,
    }
}

fn read_number(key: Key, limits: Limits, value: &Value) -> Result<u32, SettingsFault>
    ensures { result ≡ integer_of key limits.least limits.most (view value.now) }
{
    match value.as_integer() {
        Some(number) => match number_in(limits, number) {
            Some(n) => Ok(n),
            None => Err(SettingsFault::Range(key)),
        },
        None => Err(SettingsFault::Kind(key)),
    }
}

/// A number that has to be there.
pub fn integer_at(table: &Table, key: Key, limits: Limits) -> Result<u32, SettingsFault>
    ensures { result ≡ required key (integer_of key limits.least limits.most) (value_at key (table_view table.now)) }
{
    match value_at(table, key) {
        Some(value) => read_number(key, limits, value),
        None => Err(SettingsFault::Missing(key)),
    }
}

// A number, or the default where it is absent.
fn number_or(table: &Table, key: Key, limits: Limits, default: u32) -> Result<u32, SettingsFault>
    ensures { result ≡ optional default (integer_of key limits.least limits.most) (value_at key (table_view table.now)) }
{
    match value_at(table, key) {
        Some(value) => read_number(key, limits, value),
        None => Ok(default),
    }
}

/// A number of skipped octets, 0 where it is absent.
pub fn skip_at(table: &Table, key: Key) -> Result<u32, SettingsFault>
    ensures { result ≡ optional 0 (integer_of key 0 1024) (value_at key (table_view table.now)) }
{
    number_or(table, key, SKIP, 0)
}

/// The most octets that a packet may have, 7 to 65,542, the greatest where the key is absent.
pub fn limit_at(table: &Table, key: Key) -> Result<u32, SettingsFault>
    ensures value { result ≡ optional 65542 (integer_of key 7 65542) (value_at key (table_view table.now)) }
    ensures range { IfOk result IsLimit }
{
    number_or(table, key, MAX_PACKET, 65542)
}

// ---- booleans and words

/// A boolean that has to be there.
pub fn truth_at(table: &Table, key: Key) -> Result<bool, SettingsFault>
    ensures { result ≡ required key (truth_of key) (value_at key (table_view table.now)) }
{
    match value_at(table, key) {
        Some(value) => match value.as_bool() {
            Some(truth) => Ok(truth),
            None => Err(SettingsFault::Kind(key)),
        },
        None => Err(SettingsFault::Missing(key)),
    }
}

// The presence of this name.
fn presence_named(word: &str) -> Option<Presence>
    ensures { result ≡ presence_named word.now }
{
    if word == "flag" {
        Some(Presence::Flag)
    } else if word == "always" {
        Some(Presence::Always)
    } else if word == "never" {
        Some(Presence::Never)
    } else {
        None
    }
}

fn read_presence(key: Key, value: &Value) -> Result<Presence, SettingsFault>
    ensures { result ≡ presence_of key (view value.now) }
{
    match value.as_str() {
        Some(word) => match presence_named(word) {
            Some(presence) => Ok(presence),
            None => Err(SettingsFault::Range(key)),
        },
        None => Err(SettingsFault::Kind(key)),
    }
}

/// A presence; the frame's flag decides where the key is absent.
pub fn presence_at(table: &Table, key: Key) -> Result<Presence, SettingsFault>
    ensures { result ≡ optional Presence.Flag (presence_of key) (value_at key (table_view table.now)) }
{
    match value_at(table, key) {
        Some(value) => read_presence(key, value),
        None => Ok(Presence::Flag),
    }
}

// ---- channels

// The channel of a number, or 8.
fn channel_number(number: i64) -> u8
    ensures { result ≡ channel_number number }
{
    match u8::try_from(number) {
        Ok(n) if n <= 7 => n,
        _ => 8,
    }
}

// The channels of an array, where its elements are integers.
fn channel_numbers(alloc: Global, array: &[Value]) -> Result<Option<Vec<u8>>, AllocError>
    ensures { IfOk result (λ found. option_map (λ v. v.items) found
        ≡ option_map (map channel_number) (integers (items_view array.now))) }
{
    let mut numbers = Vec::new(alloc);
    for value in array {
        let Some(number) = value.as_integer() else {
            return Ok(None);
        };
        numbers.push(channel_number(number))?;
    }
    Ok(Some(numbers))
}

fn read_channels(alloc: Global, key: Key, value: &Value) -> Result<Channels, SettingsFault>
    ensures ok { IfOk result (λ c. channels_at key (view value.now) ≡ Ok c) }
    ensures refused { IfErr result (λ f. f ≢ SettingsFault.NoMemory → channels_at key (view value.now) ≡ Err f) }
{
    let Some(array) = value.as_array() else {
        return Err(SettingsFault::Kind(key));
    };
    match channel_numbers(alloc, array.as_slice()) {
        Ok(Some(numbers)) => match Channels::of(numbers.as_slice()) {
            Some(channels) => Ok(channels),
            None => Err(SettingsFault::Range(key)),
        },
        Ok(None) => Err(SettingsFault::Kind(key)),
        Err(_) => Err(SettingsFault::NoMemory),
    }
}

/// The chosen channels, all eight where the key is absent.
pub fn channels_at(alloc: Global, table: &Table, key: Key) -> Result<Channels, SettingsFault>
    ensures ok { IfOk result (λ c. optional all_channels (channels_at key) (value_at key (table_view table.now)) ≡ Ok c) }
    ensures refused { IfErr result (λ f. f ≢ SettingsFault.NoMemory
        → optional all_channels (channels_at key) (value_at key (table_view table.now)) ≡ Err f) }
{
    match value_at(table, key) {
        Some(value) => read_channels(alloc, key, value),
        None => Ok(Channels::all()),
    }
}
