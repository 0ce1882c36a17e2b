//! The headers of a frame.

ghost use Rattle.std.specs.Prelude.{◌≡◌, ◌≤◌, ◌<◌, ◌/◌, ◌%◌, ◌^◌, ◌-◌, length};
ghost use Rattle.tm_bits.specs.Bits.{part};
ghost use Rattle.tm_frame.specs.Frame.{field_end, field_start, kind_from};
ghost use Rattle.tm_frame.specs.Header.{secondary_length_of, secondary_version_of};
ghost use Rattle.tm_frame.specs.code.Headers.{frame_header_of};

use crate::{Kind, LayoutParts};
use byteorder::{BigEndian, ByteOrder};

// The first header pointer of a frame in which no packet starts.
const NO_START: u16 = 2047;

// The first header pointer of a frame that holds idle data alone.
const IDLE: u16 = 2046;

/// The parts of a frame's primary header. The synchronization flag and the first header pointer say what the data field holds.
#[derive(Clone, Copy)]
pub struct FrameHeader {
    pub version: u8,
    pub spacecraft: u16,
    pub channel: u8,
    pub ocf: bool,
    pub master_count: u8,
    pub count: u8,
    pub secondary: bool,
    pub order: bool,
    pub segment: u8,
    pub kind: Kind,
}

impl FrameHeader {
    /// The primary header of a frame.
    #[tactic(auto, using(crate::proofs::HeaderLemmas::part_read))]
    pub fn read(frame: &[u8]) -> FrameHeader
        requires { 6 ≤ length frame.now }
        ensures { result ≡ frame_header_of frame.now }
    {
        let word = BigEndian::read_u48(frame);
        FrameHeader {
            version: part(word, 0, 2) as u8,
            spacecraft: part(word, 2, 12),
            channel: part(word, 12, 15) as u8,
            ocf: part(word, 15, 16) == 1,
            master_count: part(word, 16, 24) as u8,
            count: part(word, 24, 32) as u8,
            secondary: part(word, 32, 33) == 1,
            order: part(word, 34, 35) == 1,
            segment: part(word, 35, 37) as u8,
            kind: kind_from(part(word, 33, 34) == 1, part(word, 37, 48)),
        }
    }
}

// What the data field holds.
fn kind_from(synchronization: bool, pointer: u16) -> Kind
    ensures { result ≡ kind_from synchronization pointer }
{
    if synchronization {
        Kind::Vca
    } else if pointer == NO_START {
        Kind::NoStart
    } else if pointer == IDLE {
        Kind::Idle
    } else {
        Kind::Packets(pointer)
    }
}

// The number in the bits of a word of 48 bits from `from` up to `to`, the most significant bit being bit 0.
#[tactic(auto, using(crate::proofs::HeaderLemmas::masked))]
fn part(word: u64, from: u32, to: u32) -> u16
    requires ordered { from ≤ to }
    requires short { to - from ≤ 16 }
    requires inside { to ≤ 48 }
    ensures value { result ≡ word / 2 ^ (48 - to) % 2 ^ (to - from) }
    ensures below { result < 2 ^ (to - from) }
{
    let ones = (1u64 << (to - from)) - 1;
    ((word >> (48 - to)) & ones) as u16
}

/// The version of the secondary header, in the octet after the primary header.
#[tactic(auto, using(crate::proofs::HeaderLemmas::version_read))]
pub fn secondary_version(frame: &[u8]) -> u8
    requires { 9 ≤ length frame.now }
    ensures { result ≡ secondary_version_of frame.now }
{
    frame[6] >> 6
}

/// The octets of the secondary header, 0 without one.
pub fn secondary_length(frame: &[u8], header: &FrameHeader) -> u8
    requires long { 9 ≤ length frame.now }
    requires header { header.now ≡ frame_header_of frame.now }
    ensures value { result ≡ secondary_length_of frame.now }
    ensures most { result ≤ 64 }
{
    if header.secondary {
        secondary_length_code(frame) + 1
    } else {
        0
    }
}

// The length field of the secondary header, the low six bits of its first octet.
#[tactic(auto, using(crate::proofs::HeaderLemmas::length_read))]
fn secondary_length_code(frame: &[u8]) -> u8
    requires { 9 ≤ length frame.now }
    ensures value { result ≡ part frame.now 50 56 }
    ensures below { result < 64 }
{
    frame[6] & 0x3F
}

/// Where the data field begins, after the headers.
pub fn field_start(frame: &[u8], header: &FrameHeader) -> usize
    requires long { 9 ≤ length frame.now }
    requires header { header.now ≡ frame_header_of frame.now }
    ensures { result ≡ field_start frame.now }
{
    6 + secondary_length(frame, header) as usize
}

/// Where the data field ends, before the trailers.
pub fn field_end(parts: &LayoutParts, frame: &[u8], header: &FrameHeader) -> usize
    requires long { 9 ≤ length frame.now }
    requires header { header.now ≡ frame_header_of frame.now }
    ensures { result ≡ field_end parts.now frame.now }
{
    let ocf = if header.ocf { 4 } else { 0 };
    let control = if parts.error_control { 2 } else { 0 };
    frame.len() - (ocf + control)
}
