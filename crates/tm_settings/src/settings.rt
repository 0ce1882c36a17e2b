//! The settings of a recording.

ghost use Rattle.std.specs.Prelude.{◌≡◌, ◌≢◌, Err, Ok, Some, option_map, option_copied, string_bytes, find, not, IfOk, IfErr, IsUtf8};
ghost use Rattle.std.specs.BTreeMap.{keys, IsOrdered};
ghost use Rattle.std.specs.String.{string_cmp};
ghost use Rattle.toml.specs.Parse.{parse_document};
ghost use Rattle.toml.specs.View.{table_view};
ghost use Rattle.tm_frame.specs.Layout.{IsInRange};
ghost use Rattle.tm_frame.specs.Rules.{IsLimit};
ghost use Rattle.tm_faults.specs.Keys.{is_name};
ghost use Rattle.tm_settings.specs.Settings.{choices_from, layout_from, least, settings_from, unknown_keys};

use crate::limits::{FRAME_LENGTH, SPACECRAFT};
use crate::values::{channels_at, integer_at, limit_at, presence_at, skip_at, truth_at};
use std::alloc::Global;
use std::marker::Model;
use tm_bits::Octets;
use tm_faults::{Key, SettingsFault};
use tm_frame::{Channels, Layout, LayoutParts};
use toml::Table;

/// The settings of a recording.
#[derive(Debug, Drop)]
pub struct Settings {
    layout: Layout,
    channels: Channels,
    max_packet: u32,
}

impl Model for Settings {
    ghost use Rattle.tm_frame.specs.Rules.{Rules, IsLimit};

    ghost Value = { Rules };

    ghost view = { λ s. record {
      layout = s.layout;
      channels = s.channels;
      max_packet = s.max_packet;
    } };

    ghost invariant = { λ s. IsLimit s.max_packet };
}

// The text is the name of a setting.
fn is_setting(name: &str) -> bool
    ensures { result ≡ is_name name.now }
{
    Key::ALL.iter().any(|key| name == key.word())
}

// The first key that names no setting, in the order of the keys.
fn first_unknown(table: &Table) -> Option<&String>
    ensures found { option_copied result ≡ find (λ k. not (is_name (string_bytes k))) (keys table.now) }
    ensures ordered { IsOrdered string_cmp table.now }
{
    table.keys().find(|key| !is_setting(key.as_str()))
}

// The least key that names no setting.
fn unknown_key(table: &Table) -> Option<&String>
    ensures { option_map (λ k. string_bytes k.now) result ≡ least (unknown_keys (table_view table.now)) }
{
    first_unknown(table)
}

// The layout of parts in range.
fn layout_of(parts: LayoutParts) -> Layout
    requires { IsInRange parts }
    ensures { result ≡ parts }
{
    match Layout::new(parts) {
        Ok(layout) => layout,
        Err(_) => unreachable!(),
    }
}

// The layout that a document says.
fn read_layout(table: &Table) -> Result<Layout, SettingsFault>
    ensures { result ≡ layout_from (table_view table.now) }
{
    let spacecraft = integer_at(table, Key::Spacecraft, SPACECRAFT)?;
    let frame_length = integer_at(table, Key::FrameLength, FRAME_LENGTH)?;
    let skip_before = skip_at(table, Key::SkipBefore)?;
    let skip_after = skip_at(table, Key::SkipAfter)?;
    let secondary = presence_at(table, Key::Secondary)?;
    let ocf = presence_at(table, Key::Ocf)?;
    let error_control = truth_at(table, Key::ErrorControl)?;
    Ok(layout_of(LayoutParts {
        frame_length,
        skip_before,
        skip_after,
        spacecraft,
        secondary,
        ocf,
        error_control,
    }))
}

// The settings of a document whose keys are all known.
fn read_choices(alloc: Global, table: &Table) -> Result<Settings, SettingsFault>
    ensures ok { IfOk result (λ s. choices_from (table_view table.now) ≡ Ok s) }
    ensures refused { IfErr result (λ f. f ≢ SettingsFault.NoMemory → choices_from (table_view table.now) ≡ Err f) }
{
    let layout = read_layout(table)?;
    let channels = channels_at(alloc, table, Key::Channels)?;
    let max_packet = limit_at(table, Key::MaxPacket)?;
    Ok(Settings {
        layout,
        channels,
        max_packet,
    })
}

// The settings of a document.
fn read_table(alloc: Global, table: &Table) -> Result<Settings, SettingsFault>
    ensures ok { IfOk result (λ s. settings_from (Some (table_view table.now)) ≡ Ok s) }
    ensures refused { IfErr result (λ f. f ≢ SettingsFault.NoMemory → settings_from (Some (table_view table.now)) ≡ Err f) }
{
    match unknown_key(table) {
        Some(key) => match Vec::from_slice(alloc, key.as_bytes()) {
            Ok(octets) => Err(SettingsFault::Unknown(Octets::new(octets))),
            Err(_) => Err(SettingsFault::NoMemory),
        },
        None => read_choices(alloc, table),
    }
}

impl Settings {
    /// The settings that a text says: a TOML document with these keys. `spacecraft` is 0 to 1023, `frame_length` 9 to 2048,
    /// `skip_before` and `skip_after` 0 to 1024, and `max_packet` 7 to 65542. `secondary` and `ocf` are `"flag"`, `"always"` or
    /// `"never"`, `error_control` is a boolean, and `channels` distinct numbers 0 to 7, at least one. `spacecraft`,
    /// `frame_length` and `error_control` have to be there.
    pub fn read(alloc: Global, text: &[u8]) -> Result<Settings, SettingsFault>
        // Settings and refusals are those that the document says, by `toml`'s own definition of one.
        ensures ok { IfOk result (λ s. IsUtf8 text.now × (settings_from (parse_document text.now) ≡ Ok s)) }
        ensures refused { IfErr result (λ f. f ≢ SettingsFault.NoMemory → IsUtf8 text.now
            → settings_from (parse_document text.now) ≡ Err f) }

        // Octets that are no text are no document, which takes no memory to tell.
        ensures not_text { ¬ (IsUtf8 text.now) → result ≡ Err SettingsFault.Toml }
        ensures memory { result ≡ Err SettingsFault.NoMemory → IsUtf8 text.now }
    {
        let Ok(text) = std::str::from_utf8(text) else {
            return Err(SettingsFault::Toml);
        };
        match toml::table_from_str(alloc, text) {
            Ok(table) => read_table(alloc, &table),
            Err(error) => {
                if error.is_memory() {
                    Err(SettingsFault::NoMemory)
                } else {
                    Err(SettingsFault::Toml)
                }
            }
        }
    }

    /// How a record is laid out.
    pub fn layout(&self) -> Layout
        ensures { result ≡ self.now.layout }
    {
        self.layout
    }

    /// The channels whose packets are wanted.
    pub fn channels(&self) -> Channels
        ensures { result ≡ self.now.channels }
    {
        self.channels
    }

    /// The most octets that a packet may have, 7 to 65,542.
    pub fn max_packet(&self) -> u32
        ensures value { result ≡ self.now.max_packet }
        ensures range { IsLimit result }
    {
        self.max_packet
    }
}
