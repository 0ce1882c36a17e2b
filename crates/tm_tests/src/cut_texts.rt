//! Settings and definitions of fields that are cut off after each of their octets.

use crate::fields::{TEXT, bits_of};
use std::alloc::Global;
use tm_fields::{Column, DefinitionFault};
use tm_frame::{LayoutParts, Presence};
use tm_reassembly::Channels;
use tm_tool::{Key, Settings, SettingsFault};

// What a table says of a text's front of this many octets. A row has the greatest length that it is for, and begins where the one
// before ends.
fn answer_at<A: Copy>(table: &[(usize, A)], len: usize) -> Option<A> {
    for &(last, answer) in table {
        if len <= last {
            return Some(answer);
        }
    }
    None
}

// What settings are read as, or how they are refused.
#[derive(Clone, Copy, PartialEq, Eq)]
enum CutAnswer {
    Read(LayoutParts, Channels, u32),
    Toml,
    Missing(Key),
    Range(Key),
    // None of the texts here is refused in another way.
    Other,
}

fn settings_answer(alloc: Global, text: &[u8]) -> CutAnswer {
    match Settings::read(alloc, text) {
        Ok(settings) => CutAnswer::Read(
            settings.layout().parts(),
            settings.channels(),
            settings.max_packet(),
        ),
        Err(SettingsFault::Toml) => CutAnswer::Toml,
        Err(SettingsFault::Missing(key)) => CutAnswer::Missing(key),
        Err(SettingsFault::Range(key)) => CutAnswer::Range(key),
        Err(_) => CutAnswer::Other,
    }
}

// Spacecraft 42, and all that isn't named here absent.
fn read(frame_length: u32, skip_before: u32, error_control: bool, max_packet: u32) -> CutAnswer {
    let parts = LayoutParts {
        frame_length,
        skip_before,
        skip_after: 0,
        spacecraft: 42,
        secondary: Presence::Flag,
        ocf: Presence::Flag,
        error_control,
    };
    CutAnswer::Read(parts, Channels::all(), max_packet)
}

// A line is whole from the first digit of its number on, or from the end of its boolean. A text that is cut before that is no document.
#[test]
fn settings_with_error_control(rt: HostRuntime) {
    // guards: settingsread-gives-the-settings-or-the-refusal
    let text = "spacecraft = 42\nframe_length = 9\nerror_control = true\n";
    let table = [
        (0, CutAnswer::Missing(Key::Spacecraft)),
        (13, CutAnswer::Toml),
        (16, CutAnswer::Missing(Key::FrameLength)),
        (31, CutAnswer::Toml),
        (33, CutAnswer::Missing(Key::ErrorControl)),
        (52, CutAnswer::Toml),
        (54, read(9, 0, true, 65_542)),
    ];
    for len in 0..=text.len() {
        let answer = settings_answer(rt.alloc(), &text.as_bytes()[..len]);
        let wanted = answer_at(&table, len);
        assert!(rt; Some(answer) == wanted, "the first {len} octets");
    }
}

#[test]
fn settings_with_skipped_octets_and_a_limit(rt: HostRuntime) {
    // guards: settingsread-gives-the-settings-or-the-refusal
    let text =
        "spacecraft = 42\nframe_length = 24\nerror_control = false\nskip_before = 4\nmax_packet = 12\n";
    let table = [
        (0, CutAnswer::Missing(Key::Spacecraft)),
        (13, CutAnswer::Toml),
        (16, CutAnswer::Missing(Key::FrameLength)),
        (31, CutAnswer::Toml),
        // A frame length of 2.
        (32, CutAnswer::Range(Key::FrameLength)),
        (34, CutAnswer::Missing(Key::ErrorControl)),
        (54, CutAnswer::Toml),
        (56, read(24, 0, false, 65_542)),
        (70, CutAnswer::Toml),
        (72, read(24, 4, false, 65_542)),
        (85, CutAnswer::Toml),
        // Packets of one octet.
        (86, CutAnswer::Range(Key::MaxPacket)),
        (88, read(24, 4, false, 12)),
    ];
    for len in 0..=text.len() {
        let answer = settings_answer(rt.alloc(), &text.as_bytes()[..len]);
        let wanted = answer_at(&table, len);
        assert!(rt; Some(answer) == wanted, "the first {len} octets");
    }
}

// The heading alone is a definition without fields. After its second comma a line has three values, and it is a field as soon as its digits
// are a length of its type.
#[test]
fn definition_of_fields(rt: HostRuntime) {
    // guards: definitionread-gives-the-fields-or-the-refusal
    let table = [
        (3, Err(DefinitionFault::Column(Column::Name))),
        (14, Err(DefinitionFault::Column(Column::DataType))),
        (26, Err(DefinitionFault::Column(Column::BitLength))),
        (28, Ok(0)),
        (41, Err(DefinitionFault::Csv)),
        (43, Err(DefinitionFault::Bits { row: 1 })),
        (45, Ok(56)),
        (55, Err(DefinitionFault::Csv)),
        (57, Err(DefinitionFault::Bits { row: 2 })),
        // An `int` of one bit, and then of 12.
        (58, Ok(57)),
        (60, Ok(68)),
        (69, Err(DefinitionFault::Csv)),
        (71, Err(DefinitionFault::Bits { row: 3 })),
        (73, Ok(72)),
        (83, Err(DefinitionFault::Csv)),
        // No length, and then 2.
        (86, Err(DefinitionFault::Bits { row: 4 })),
        (88, Ok(96)),
        (99, Err(DefinitionFault::Csv)),
        // No length, and then 3.
        (102, Err(DefinitionFault::Bits { row: 5 })),
        (104, Ok(128)),
    ];
    for len in 0..=TEXT.len() {
        let answer = bits_of(rt.alloc(), &TEXT.as_bytes()[..len]);
        let wanted = answer_at(&table, len);
        assert!(rt; Some(answer) == wanted, "the first {len} octets");
    }
}
