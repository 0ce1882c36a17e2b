//! Checkpoints and frames with one bit changed, and checkpoints that are cut off: each is refused.

use crate::checkpoints::{CHECKPOINT, LIMITED, VERSION_1, VERSION_2};
use crate::frames::list_through;
use crate::runs::{BASE, TWELVE, octets_of, settings_of};
use std::alloc::{AllocError, Global};
use tm_frame::FrameFault;
use tm_tool::{CheckpointFault, Job, Reading, Settings, Writing};

// Changes a bit, the first being the most significant of the first octet.
fn change(octets: &mut [u8], bit: usize) {
    if let Some(octet) = octets.get_mut(bit / 8) {
        *octet ^= 0x80 >> (bit % 8);
    }
}

// Checkpoints of all versions, with their settings, and the number of octets below which they are too short.
const CHECKPOINTS: [(&str, &str, usize); 4] = [
    (CHECKPOINT, BASE, 37),
    (LIMITED, TWELVE, 37),
    (VERSION_2, BASE, 36),
    (VERSION_1, BASE, 33),
];

// How a checkpoint is refused whose octet of this number was changed, and is this one now.
fn fault_at(at: usize, octet: Option<&u8>) -> CheckpointFault {
    match (at, octet) {
        (0..=3, _) => CheckpointFault::Magic,
        // Another version that is read.
        (4, Some(1..=3)) => CheckpointFault::Check,
        (4, _) => CheckpointFault::Version,
        _ => CheckpointFault::Check,
    }
}

// The octets are refused so.
fn is_refused(alloc: Global, settings: &Settings, octets: &[u8], wanted: CheckpointFault) -> bool {
    match Job::resume(alloc, settings, octets) {
        Ok(_) => false,
        Err(fault) => fault == wanted,
    }
}

// Each change of one bit is refused as it should be.
fn changes_are_found(alloc: Global, text: &str, settings: &str) -> Option<bool> {
    let settings = settings_of(alloc, settings)?;
    let mut octets = octets_of(alloc, text)?;
    for bit in 0..octets.len().saturating_mul(8) {
        change(&mut octets, bit);
        let wanted = fault_at(bit / 8, octets.get(bit / 8));
        if !is_refused(alloc, &settings, &octets, wanted) {
            return Some(false);
        }
        change(&mut octets, bit);
    }
    Some(true)
}

// The error control finds each change of one bit, in itself too.
#[test]
fn checkpoints_with_a_bit_changed(rt: HostRuntime) {
    // guards: read_checkpoint-reads-versions-1-2-and-3
    for (text, settings, _) in CHECKPOINTS {
        let found = changes_are_found(rt.alloc(), text, settings);
        assert!(rt; found == Some(true), "{text}");
    }
}

// Each front is refused, as too short below this many octets.
fn prefixes_are_refused(alloc: Global, text: &str, settings: &str, least: usize) -> Option<bool> {
    let settings = settings_of(alloc, settings)?;
    let octets = octets_of(alloc, text)?;
    for len in 0..octets.len() {
        let fault = if len < least {
            CheckpointFault::Short
        } else {
            CheckpointFault::Check
        };
        if !is_refused(alloc, &settings, &octets[..len], fault) {
            return Some(false);
        }
    }
    Some(true)
}

// The last two octets of a part are nowhere the error control of those before.
#[test]
fn checkpoints_cut_off(rt: HostRuntime) {
    // guards: read_checkpoint-reads-versions-1-2-and-3
    for (text, settings, least) in CHECKPOINTS {
        let refused = prefixes_are_refused(rt.alloc(), text, settings, least);
        assert!(rt; refused == Some(true), "{text}");
    }
}

const CONTROLLED: &str = "spacecraft = 42\nframe_length = 9\nerror_control = true\n";

// A good frame under these settings.
const FRAME: [u8; 9] = [0x02, 0xA0, 0x00, 0x00, 0x1F, 0xFE, 0x55, 0x25, 0xC9];

// Error control is looked at before anything else, so nothing that such a frame says is its fault.
#[test]
fn frames_with_a_bit_changed(rt: HostRuntime) {
    // guards: read-gives-the-good-frame-or-its-first-fault
    let settings = settings_of(rt.alloc(), CONTROLLED).expect(&rt, "the settings");
    let layout = settings.layout();
    for bit in 0..72 {
        let mut frame = FRAME;
        change(&mut frame, bit);
        assert!(rt; frame.len() == layout.record_length());
        let answer = tm_frame::read(&layout, &frame).err();
        assert!(rt; answer == Some(FrameFault::Crc), "bit {bit}");
    }
}

// The frame with each of its bits changed in turn, a record for each.
fn changed_frames(alloc: Global) -> Result<Vec<u8>, AllocError> {
    let mut recording = Vec::new(alloc);
    for bit in 0..72 {
        let mut frame = FRAME;
        change(&mut frame, bit);
        recording.extend_from_slice(&frame)?;
    }
    Ok(recording)
}

// The lines of this many bad frames.
fn bad_lines(alloc: Global, records: u32) -> Result<String, AllocError> {
    let mut lines = String::new(alloc);
    for record in 0..records {
        let line = format!(in alloc; "bad record={record} fault=crc\n")?;
        lines.push_str(&line)?;
    }
    Ok(lines)
}

#[test]
fn list_of_frames_with_a_bit_changed(rt: HostRuntime) {
    // guards: read-gives-the-good-frame-or-its-first-fault
    // guards: each-item-is-given-once-at-the-record-that-completes-it
    let alloc = rt.alloc();
    let recording = changed_frames(alloc).expect(&rt, "frames");
    let wanted = bad_lines(alloc, 72).expect(&rt, "lines");
    let mut lines = Vec::new(alloc);
    let mut source = Reading::new(recording.as_slice());
    let answer = list_through(
        alloc,
        CONTROLLED,
        &mut source,
        &mut Writing::new(&mut lines),
    );
    assert!(rt; answer == Some(Ok(72)));
    assert!(rt; lines.as_slice() == wanted.as_bytes());
}
