//! Checkpoints: written and read again, and refused where an octet was altered.

use crate::runs::{BASE, TWELVE, octets_of, settings_of};
use std::alloc::Global;
use tm_frame::error_control;
use tm_tool::{CheckpointFault, Job};

/// Three records of two channels are done. The last count of the master channel is 2, a packet of 26 octets is begun on channel
/// 0, and one of count 1 was the last on channel 1.
pub(crate) const CHECKPOINT: &str =
    "544D5843 03 002A 0018 0000 0000 00 00 00 FF 010006 00000003 01 02 \
    02 00 00000000 0000 00000012 0064C0000013555555555555555555555555 01 01 00 00 00 00 00 00 0001 0864 0001 FFFF 074F";

/// Likewise in version 2, which has no count of the master channel, and in version 1, which has no limit on packets either.
pub(crate) const VERSION_2: &str = "544D5843 02 002A 0018 0000 0000 00 00 00 FF 010006 00000003 \
    02 00 00000000 0000 00000012 0064C0000013555555555555555555555555 01 01 00 00 00 00 00 00 0001 0864 0001 FFFF 74E5";

pub(crate) const VERSION_1: &str = "544D5843 01 002A 0018 0000 0000 00 00 00 FF 00000003 \
    02 00 00000000 0000 00000012 0064C0000013555555555555555555555555 01 01 00 00 00 00 00 00 0001 0864 0001 FFFF 7DE1";

/// Where no packet has more than twelve octets, one record is done, and of a packet three octets are held: its length isn't known yet.
pub(crate) const LIMITED: &str =
    "544D5843 03 002A 0018 0000 0000 00 00 00 FF 00000C 00000001 01 00 \
    02 00 00000000 000F 00000003 0064C0 00 00 00 00 00 00 00 0001 0064 0001 FFFF FC32";

// Before any record.
const NEW: &str =
    "544D5843 03 002A 0018 0000 0000 00 00 00 FF 010006 00000000 00 00 00 00 00 00 00 00 00 0000 BBAD";

// What `resume` answers with the settings of a text: how many records are done.
fn records_of(
    alloc: Global,
    settings: &str,
    octets: &[u8],
) -> Option<Result<u32, CheckpointFault>> {
    let settings = settings_of(alloc, settings)?;
    match Job::resume(alloc, &settings, octets) {
        Ok(job) => Some(Ok(job.records())),
        Err(fault) => Some(Err(fault)),
    }
}

// The octets of a checkpoint are read, and written again as they were.
fn is_written_again(alloc: Global, text: &str) -> Option<bool> {
    let settings = settings_of(alloc, BASE)?;
    let octets = octets_of(alloc, text)?;
    let job = Job::resume(alloc, &settings, &octets).ok()?;
    let again = job.checkpoint(alloc).ok()?;
    Some(again == octets)
}

#[test]
fn written_again(rt: HostRuntime) {
    // guards: a-checkpoint-is-read-again-as-the-same-work
    assert!(rt; is_written_again(rt.alloc(), CHECKPOINT) == Some(true));
}

// Each version is read, and refused where packets are limited otherwise.
#[test]
fn three_versions(rt: HostRuntime) {
    // guards: read_checkpoint-reads-versions-1-2-and-3
    let alloc = rt.alloc();
    for (text, len) in [(CHECKPOINT, 74), (VERSION_2, 72), (VERSION_1, 69)] {
        let octets = octets_of(alloc, text).expect(&rt, "octets");
        assert!(rt; octets.len() == len);
        assert!(rt; records_of(alloc, BASE, &octets) == Some(Ok(3)));
        let refused = records_of(alloc, TWELVE, &octets);
        assert!(rt; refused == Some(Err(CheckpointFault::Settings)));
    }
}

// The checkpoint of a new job.
fn new_checkpoint(alloc: Global) -> Option<Vec<u8>> {
    let settings = settings_of(alloc, BASE)?;
    let job = Job::new(alloc, &settings).ok()?;
    job.checkpoint(alloc).ok()
}

#[test]
fn before_any_record(rt: HostRuntime) {
    // guards: a-jobs-checkpoint-is-written-and-read
    let alloc = rt.alloc();
    let octets = new_checkpoint(alloc).expect(&rt, "a checkpoint");
    assert!(rt; octets.len() == 37);
    assert!(rt; octets_of(alloc, NEW).is_some_and(|wanted| wanted == octets));
    assert!(rt; records_of(alloc, BASE, &octets) == Some(Ok(0)));
}

// The checkpoint with other octets between a front and a back.
fn alter(alloc: Global, prefix: usize, other: &[u8], back: (usize, usize)) -> Option<Vec<u8>> {
    let octets = octets_of(alloc, CHECKPOINT)?;
    let mut altered = Vec::new(alloc);
    for part in [octets.get(..prefix)?, other, octets.get(back.0..back.1)?] {
        altered.extend_from_slice(part).ok()?;
    }
    Some(altered)
}

// How these octets are refused, with a right check after them where it is asked for.
fn refusal(alloc: Global, octets: Option<Vec<u8>>, is_checked: bool) -> Option<CheckpointFault> {
    let mut octets = octets?;
    if is_checked {
        let check = error_control(&octets).to_be_bytes();
        octets.extend_from_slice(&check).ok()?;
    }
    records_of(alloc, BASE, &octets)?.err()
}

// How the checkpoint is refused with settings of longer frames.
fn refusal_with_longer_frames(alloc: Global) -> Option<CheckpointFault> {
    let longer = "spacecraft = 42\nframe_length = 25\nerror_control = false\n";
    records_of(alloc, longer, &octets_of(alloc, CHECKPOINT)?)?.err()
}

#[test]
fn altered_checkpoint(rt: HostRuntime) {
    // guards: read_checkpoint-reads-versions-1-2-and-3
    let alloc = rt.alloc();
    let table = [
        // It is cut off.
        (32, [].as_slice(), (74, 74), false, CheckpointFault::Short),
        // An octet is another one.
        (0, &[0x55], (1, 74), false, CheckpointFault::Magic),
        (4, &[0x07], (5, 74), false, CheckpointFault::Version),
        (4, &[0x01], (5, 74), false, CheckpointFault::Check),
        (4, &[0x02], (5, 74), false, CheckpointFault::Check),
        (73, &[0x00], (74, 74), false, CheckpointFault::Check),
        // Likewise, and the check is made right again.
        (26, &[0x03], (27, 72), true, CheckpointFault::State),
        // An octet 0 is put before a right check.
        (72, &[0x00], (72, 72), true, CheckpointFault::Trailing),
    ];
    for (prefix, other, back, is_checked, fault) in table {
        let octets = alter(alloc, prefix, other, back);
        let answer = refusal(alloc, octets, is_checked);
        assert!(rt; answer == Some(fault), "octets {other:?} behind {prefix}");
    }
    let answer = refusal_with_longer_frames(alloc);
    assert!(rt; answer == Some(CheckpointFault::Settings));
}
