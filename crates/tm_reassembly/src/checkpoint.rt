//! The block of a channel in a checkpoint.

ghost use Rattle.std.specs.Prelude.{◌≡◌, ◌+◌, ◌<◌, ◌≤◌, ◌++◌, None, Some, Ok, Err, true, length, slice_index, vec_len, vec_capacity, IfOk, IfErr};
ghost use Rattle.tm_reassembly.specs.Checkpoint.{four_octets, four_at, is_unfinished, master_octets, tail_block, flagged, channel_block};
ghost use Rattle.tm_bits.specs.Bits.{two_at};
ghost use Rattle.tm_reassembly.specs.code.Blocks.{Appends, IsBlock, IsMaster, master_read_in};
ghost use Rattle.tm_frame.specs.Rules.{chooses};
ghost use Rattle.tm_reassembly.specs.Valid.{IsCount};
ghost use Rattle.tm_reassembly.specs.declared.fault.StateFault.TheVariants as found;

use crate::fault::StateFault;
use crate::packets::measure;
use tm_bits::{push, two_at};
use tm_frame::Rules;

/// The form of a state's spelling: with the last master channel count, or the older one without it.
#[derive(Clone, Copy, PartialEq, Eq)]
pub enum Form {
    WithMaster,
    WithoutMaster,
}

/// What is spelled of a channel: the last count, if there is one, and the tail, whose octets are borrowed from the checkpoint.
#[derive(Clone, Copy)]
pub struct Block<'a> {
    pub count: Option<u8>,
    pub first: u32,
    pub place: u16,
    pub tail: &'a [u8],
}

impl<'a> Block<'a> {
    /// No count, and no tail.
    pub const NONE: Block<'static> = Block {
        count: None,
        first: 0,
        place: 0,
        tail: &[],
    };
}

/// Appends a number in four octets, for which there is room.
pub fn push_four(out: &mut Vec<u8>, number: u32)
    requires { vec_len out.old + 4 ≤ vec_capacity out.old }
    ensures { Appends out.old out.new (four_octets number) 4 }
{
    push(out, &number.to_be_bytes());
}

/// The number in the four octets at a place.
pub fn four_at(octets: &[u8], at: usize) -> u32
    requires { at + 4 ≤ length octets.now }
    ensures { result ≡ four_at octets.now at }
{
    u32::from_be_bytes([octets[at], octets[at + 1], octets[at + 2], octets[at + 3]])
}

// Octets begin a packet that is read, and don't hold it whole.
fn is_unfinished(limit: usize, octets: &[u8]) -> bool
    requires { 0 < length octets.now }
    ensures { result ≡ is_unfinished limit octets.now }
{
    match measure(limit, octets) {
        Ok(length) => octets.len() < length,
        Err(_) => false,
    }
}

/// How many octets spell the last master channel count.
pub fn master_length(master: Option<u8>) -> usize
    ensures value { result ≡ length (master_octets master) }
    ensures most { result ≤ 2 }
{
    match master {
        None => 1,
        Some(_) => 2,
    }
}

/// Appends the last master channel count, for which there is room: 0 where there is none, else 1 and the count.
pub fn push_master(out: &mut Vec<u8>, master: Option<u8>)
    requires { vec_len out.old + length (master_octets master) ≤ vec_capacity out.old }
    ensures { Appends out.old out.new (master_octets master) (length (master_octets master)) }
{
    match master {
        None => push(out, &[0]),
        Some(count) => push(out, &[1, count]),
    }
}

/// Reads the last master channel count at the front of octets, where the form has one: the count, if there is one, and how many octets spell it.
///
/// # Errors
///
/// `Short` where octets are missing; `Flag` where the first is over 1.
#[tactic(auto, unfolding(crate::specs::Checkpoint::master_read))]
pub fn read_master(form: Form, octets: &[u8]) -> Result<(Option<u8>, usize), StateFault>
    ensures ok { IfOk result (IsMaster form octets.now) }
    ensures refused { IfErr result (λ fault. master_read_in form octets.now ≡ Err fault) }
{
    if form == Form::WithoutMaster {
        return Ok((None, 0));
    }
    match octets {
        [] => Err(StateFault::Short),
        [0, ..] => Ok((None, 1)),
        [1, count, ..] => Ok((Some(*count), 2)),
        [1] => Err(StateFault::Short),
        _ => Err(StateFault::Flag),
    }
}

/// Reads the block of a channel at the front of octets: what it says, and how many octets it has.
///
/// # Errors
///
/// The first fault of the block.
#[tactic(auto, unfolding(crate::specs::Checkpoint::block_read))]
pub fn read_block<'a>(
    rules: &Rules,
    channel: u8,
    records: u32,
    octets: &'a [u8],
) -> Result<(Block<'a>, usize), StateFault>
    ensures ok { IfOk result (IsBlock (channel_block rules.now channel records) rules.now octets.now) }
    ensures refused { IfErr result (λ fault. channel_block rules.now channel records octets.now ≡ Err fault) }
{
    if octets.is_empty() {
        return Err(StateFault::Short);
    }
    let flag = octets[0];
    if flag == 0 {
        return Ok((Block::NONE, 1));
    }
    if !rules.channels.has(channel) || flag > 2 {
        return Err(StateFault::Flag);
    }
    if flag == 1 {
        if octets.len() < 2 {
            return Err(StateFault::Short);
        }
        let block = Block {
            count: Some(octets[1]),
            ..Block::NONE
        };
        return Ok((block, 2));
    }
    if octets.len() < 12 {
        return Err(StateFault::Short);
    }
    read_tail(rules, records, octets)
}

// Reads the block of a channel with a tail, whose fixed parts are there.
fn read_tail<'a>(
    rules: &Rules,
    records: u32,
    octets: &'a [u8],
) -> Result<(Block<'a>, usize), StateFault>
    requires { 12 ≤ length octets.now }
    ensures ok { IfOk result (IsBlock (tail_block rules.now.max_packet rules.now.layout records) rules.now octets.now) }
    ensures refused { IfErr result (λ fault. tail_block rules.now.max_packet rules.now.layout records octets.now ≡ Err fault) }
{
    let first = four_at(octets, 2);
    let place = two_at(octets, 6);
    let length = four_at(octets, 8) as usize;
    let limit = rules.max_packet as usize;
    if first >= records || rules.layout.parts().frame_length < u32::from(place) + 7 {
        return Err(StateFault::Place);
    }
    if length == 0 || length >= limit {
        return Err(StateFault::Tail);
    }
    if octets.len() < 12 + length {
        return Err(StateFault::Short);
    }
    let tail = &octets[12..12 + length];
    if !is_unfinished(limit, tail) {
        return Err(StateFault::Tail);
    }
    let block = Block {
        count: Some(octets[1]),
        first,
        place,
        tail,
    };
    Ok((block, 12 + length))
}
