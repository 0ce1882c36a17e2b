//! Why a file is no settings, or no checkpoint of a job with them.

ghost use Rattle.std.specs.Prelude.{◌≡◌, true, IfErr};
ghost use Rattle.tm_explanations.specs.Blame.{is_of_value};

use crate::explanation::EndedRun;
use crate::phrases::{Said, Untold, phrase, text_of};
use std::alloc::{AllocError, Global};
use std::rt::Files;
use tm_checkpoint::{OtherSetting, find_other_setting, records_told};
use tm_faults::CheckpointFault;
use tm_file_identity::Place;
use tm_settings::{Key, Settings, SettingsFault, nearest_key, wanted_value};

// Where the file of the settings, which has these octets, is no TOML document, and why. The place is as an editor
// counts: the line from 1, and in it the character from 1.
fn toml_text(alloc: Global, file: &str, octets: &[u8]) -> Said {
    let (at, why) = match std::str::from_utf8(octets) {
        Ok(text) => {
            let error = toml::table_from_str(alloc, text)
                .err()
                .ok_or(Untold::Unknown)?;
            let span = error.span().ok_or(Untold::Unknown)?;
            (span.start, String::from_str(alloc, error.message())?)
        }
        Err(error) => (error.valid_up_to(), String::from_str(alloc, "not UTF-8")?),
    };
    let before = text_of(&octets[..at]);
    let begun = before.rsplit_once("\n").map_or(before, |(_, begun)| begun);
    let line = before.split("\n").count();
    let column = begun.chars().count().saturating_add(1);
    Ok(format!(in alloc;
        "{file}, line {line}, column {column}: {why}; write lines key = value, each key once"
    )?)
}

// The key for which another word was written. By its letters a word of the field is near none, or near another key.
fn key_text(alloc: Global, file: &str, word: &str) -> Said {
    let near = match word {
        "scid" => Some(Key::Spacecraft),
        "vcid" => Some(Key::Channels),
        "fecf" | "crc" => Some(Key::ErrorControl),
        "asm" => Some(Key::SkipBefore),
        "rs" => Some(Key::SkipAfter),
        _ => nearest_key(alloc, word)?,
    };
    let key = near.ok_or(Untold::Unknown)?.word();
    Ok(format!(in alloc; "{file}: the key may be meant for {key}; correct it, or take it out")?)
}

// The value of a key, as the settings have it, by its number. That of the channels has a bit for each.
fn value_text(alloc: Global, key: Key, number: u32) -> Result<String, AllocError> {
    match (key, number) {
        (Key::Secondary | Key::Ocf, 0) => String::from_str(alloc, "\"flag\""),
        (Key::Secondary | Key::Ocf, 1) => String::from_str(alloc, "\"always\""),
        (Key::Secondary | Key::Ocf, _) => String::from_str(alloc, "\"never\""),
        (Key::ErrorControl, number) => format!(in alloc; "{}", number == 1),
        (Key::Channels, mask) => {
            let channels = (0..8u32).filter(|channel| mask >> *channel & 1 == 1);
            format!(in alloc; "{:?}", channels.collect::<Vec<u32>>(alloc)?)
        }
        (_, number) => format!(in alloc; "{number}"),
    }
}

impl<R: Files + AllocGlobal> EndedRun<'_, R> {
    /// Why the file of the settings is refused.
    pub(crate) fn settings_text(&self, file: &str, fault: &SettingsFault) -> Said
        ensures { is_of_value fault.now ≡ true → IfErr result (λ e. e ≡ Untold.NoMemory) }
    {
        let alloc = self.rt.alloc();
        match fault {
            SettingsFault::Toml => toml_text(alloc, file, &self.octets_at(Place::Settings)?),
            SettingsFault::Unknown(word) => key_text(alloc, file, text_of(word.as_slice())),
            SettingsFault::Missing(key) | SettingsFault::Kind(key) | SettingsFault::Range(key) => {
                let values = wanted_value(alloc, *key)?;
                let (key, values) = (key.word(), text_of(values.as_slice()));
                Ok(format!(in alloc; "{file}: the value of {key} has to be {values}")?)
            }
            SettingsFault::NoMemory => Err(Untold::NoMemory),
        }
    }

    // The setting that isn't as in a checkpoint of these octets.
    fn other_setting(&self, octets: &[u8]) -> Result<OtherSetting, Untold> {
        let text = self.octets_at(Place::Settings)?;
        match Settings::read(self.rt.alloc(), text.as_slice()) {
            Ok(settings) => find_other_setting(&settings, octets).ok_or(Untold::Unknown),
            Err(_) => Err(Untold::Unknown),
        }
    }

    // Which setting differs, and how.
    fn other_setting_text(&self, file: &str, octets: &[u8]) -> Said {
        let alloc = self.rt.alloc();
        let other = self.other_setting(octets)?;
        let there = value_text(alloc, other.key, other.there)?;
        let here = value_text(alloc, other.key, other.here)?;
        let settings = phrase(alloc, &self.plan, Some(Place::Settings))?;
        let key = other.key.word();
        Ok(format!(in alloc;
            "{file}: {key} is {there} there, and {here} in {settings}; take the settings that it was written with"
        )?)
    }

    /// Why the file of the checkpoint is refused: by its version, or by its settings.
    pub(crate) fn checkpoint_text(&self, file: &str, fault: CheckpointFault) -> Said {
        let alloc = self.rt.alloc();
        let octets = self.octets_at(Place::Resumed)?;
        if fault == CheckpointFault::Settings {
            return self.other_setting_text(file, octets.as_slice());
        }
        let version = octets.get(4).ok_or(Untold::Unknown)?;
        Ok(format!(in alloc;
            "{file}: version {version}, and 1 to 3 are read; take a newer tmx, or begin anew"
        )?)
    }

    /// How many records are done in the checkpoint: the recording has fewer.
    pub(crate) fn shorter_text(&self, file: &str) -> Said {
        let alloc = self.rt.alloc();
        let checkpoint = phrase(alloc, &self.plan, Some(Place::Resumed))?;
        let octets = self.octets_at(Place::Resumed)?;
        let done = records_told(octets.as_slice()).ok_or(Untold::Unknown)?;
        Ok(format!(in alloc;
            "{file}: fewer than the {done} records that are done in {checkpoint}; \
            give the recording of the checkpoint, from its beginning"
        )?)
    }
}
