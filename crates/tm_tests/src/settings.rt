//! Settings that are read, and settings that are refused.

use crate::runs::{BASE, settings_of};
use std::alloc::{AllocError, Global};
use tm_frame::{Layout, LayoutFault, LayoutParts, Presence};
use tm_tool::{Settings, SettingsFault};

fn base() -> LayoutParts {
    LayoutParts {
        frame_length: 24,
        skip_before: 0,
        skip_after: 0,
        spacecraft: 42,
        secondary: Presence::Flag,
        ocf: Presence::Flag,
        error_control: false,
    }
}

// The text is read as settings of this layout, with records of this many octets and packets of at most that many.
fn is_read(alloc: Global, text: &str, parts: LayoutParts, record: usize, limit: u32) -> bool {
    match settings_of(alloc, text) {
        Some(settings) => {
            settings.layout().parts() == parts
                && settings.layout().record_length() == record
                && settings.max_packet() == limit
        }
        None => false,
    }
}

#[test]
fn read_with_defaults_and_without(rt: HostRuntime) {
    // guards: settingsread-gives-the-settings-or-the-refusal
    assert!(rt; is_read(rt.alloc(), BASE, base(), 24, 65_542));
    let text =
        "spacecraft = 42\nframe_length = 24\nerror_control = false\nskip_before = 4\nskip_after = 1024\nsecondary = \"always\"\nocf = \"never\"\nchannels = [7, 0]\nmax_packet = 7\n";
    let parts = LayoutParts {
        skip_before: 4,
        skip_after: 1024,
        secondary: Presence::Always,
        ocf: Presence::Never,
        ..base()
    };
    assert!(rt; is_read(rt.alloc(), text, parts, 1052, 7));
}

// The fault's name, and the key that it names.
fn words_of(alloc: Global, fault: SettingsFault) -> Result<String, AllocError> {
    let (what, key) = match fault {
        SettingsFault::Toml => ("toml", None),
        SettingsFault::Unknown(key) => {
            let key = std::str::from_utf8(key.as_slice()).unwrap_or("");
            return format!(in alloc; "unknown {key}");
        }
        SettingsFault::Missing(key) => ("missing ", Some(key)),
        SettingsFault::Kind(key) => ("kind ", Some(key)),
        SettingsFault::Range(key) => ("range ", Some(key)),
        SettingsFault::NoMemory => ("no memory", None),
    };
    let key = match key {
        Some(key) => key.word(),
        None => "",
    };
    format!(in alloc; "{what}{key}")
}

// The settings of a text are refused in these words.
fn is_refused(alloc: Global, text: &str, words: &str) -> bool {
    match Settings::read(alloc, text.as_bytes()) {
        Ok(_) => false,
        Err(fault) => match words_of(alloc, fault) {
            Ok(found) => found.as_str() == words,
            Err(_) => false,
        },
    }
}

#[test]
fn settings_faults(rt: HostRuntime) {
    // guards: settingsread-gives-the-settings-or-the-refusal
    let parts = LayoutParts {
        frame_length: 8,
        spacecraft: 1024,
        ..base()
    };
    assert!(rt; Layout::new(parts) == Err(LayoutFault::FrameLength));
    let table = [
        (
            "spacecraft = 42\nframe_length = 2049\nerror_control = false\n",
            "range frame_length",
        ),
        (
            "spacecraft = 42\nframe_length = \"24\"\nerror_control = false\n",
            "kind frame_length",
        ),
        (
            "spacecraft = 42\nframe_length = 24\n",
            "missing error_control",
        ),
        (
            "spacecraft = 42\nframe_length = 24\nerror_control = false\ncolour = 1\n",
            "unknown colour",
        ),
        ("zoom = 1\ncolour = 1\n", "unknown colour"),
        (
            "spacecraft = 42\nframe_length = 24\nerror_control = false\nchannels = [0, 0]\n",
            "range channels",
        ),
        (
            "spacecraft = 42\nframe_length = 24\nerror_control = false\nchannels = []\n",
            "range channels",
        ),
        (
            "spacecraft = 42\nframe_length = 24\nerror_control = false\nchannels = [9, \"a\"]\n",
            "kind channels",
        ),
        (
            "spacecraft = 42\nframe_length = 24\nerror_control = false\nocf = \"Flag\"\n",
            "range ocf",
        ),
        (
            "spacecraft = 42\nframe_length = 24\nerror_control = false\nmax_packet = 6\n",
            "range max_packet",
        ),
        (
            "spacecraft = 42\nframe_length = 24\nerror_control = false\nmax_packet = 65543\n",
            "range max_packet",
        ),
        (
            "spacecraft = 42\nframe_length = 24\nerror_control = false\nmax_packet = \"12\"\n",
            "kind max_packet",
        ),
        (
            "spacecraft = 42\nframe_length = 24\nerror_control = false\nmax_packet = 6\nchannels = []\n",
            "range channels",
        ),
        ("spacecraft = -1\nframe_length = 8\n", "range spacecraft"),
        ("frame_length = 8\n", "missing spacecraft"),
        ("spacecraft =", "toml"),
    ];
    for (text, fault) in table {
        assert!(rt;
            is_refused(rt.alloc(), text, fault),
            "{text} isn't refused by {fault}"
        );
    }
}
