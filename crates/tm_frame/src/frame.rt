//! A good frame.

ghost use Rattle.std.specs.Prelude.{◌≡◌, ◌≤◌, ◌<◌, IsOk, Ok, length};
ghost use Rattle.tm_frame.specs.Fault.{fault_of, frame_reading_of};
ghost use Rattle.tm_frame.specs.Frame.{IsPlaceBelow, data_field_of, frame_of, good_frame};
ghost use Rattle.tm_frame.specs.code.Headers.{frame_header_of};
ghost use Rattle.tm_frame.specs.Layout.{IsInRange, record_length_of};

use crate::checks::data_field;
use crate::header::{FrameHeader, field_end, field_start, secondary_length};
use crate::{FrameFault, Layout, LayoutParts};
use std::marker::Model;

/// What the data field of a good frame holds (CCSDS 132.0-B-3, 4.1.2.7).
#[derive(Clone, Copy, Debug, PartialEq, Eq)]
pub enum Kind {
    /// Packets: the first that starts in the field starts at this place, counted from 0.
    Packets(u16),
    /// Octets of a packet that began in an earlier frame; none starts here.
    NoStart,
    /// Idle data alone.
    Idle,
    /// A VCA_SDU.
    Vca,
}

/// A good frame. Its data field is borrowed from the record.
#[derive(Debug, Drop)]
pub struct Frame<'r> {
    field: &'r [u8],
    channel: u8,
    master_count: u8,
    count: u8,
    kind: Kind,
    secondary_length: u8,
    has_ocf: bool,
    order_flag: bool,
    segment: u8,
}

impl<'r> Model for Frame<'r> {
    ghost use Rattle.tm_frame.specs.Frame.{GoodFrame, IsSoundFrame};

    ghost Value = { GoodFrame };

    ghost use Rattle.tm_frame.specs.code.Frames.{good_frame_in};

    ghost view = { good_frame_in };

    ghost invariant = { λ a. IsSoundFrame (good_frame_in a) };
}

impl<'r> Frame<'r> {
    /// The data field, 1 to 2042 octets, borrowed from the record.
    pub fn field(&self) -> &'r [u8]
        ensures value { result.now ≡ self.now.field }
        ensures some { 0 < length result.now }
        ensures most { length result.now ≤ 2042 }
    {
        self.field
    }

    /// The virtual channel, 0 to 7.
    pub fn channel(&self) -> u8
        ensures value { result ≡ self.now.channel }
        ensures below { result < 8 }
    {
        self.channel
    }

    /// The master channel frame count.
    pub fn master_count(&self) -> u8
        ensures { result ≡ self.now.master_count }
    {
        self.master_count
    }

    /// The virtual channel frame count.
    pub fn count(&self) -> u8
        ensures { result ≡ self.now.count }
    {
        self.count
    }

    /// What the data field holds. The place of a first packet is inside the field.
    pub fn kind(&self) -> Kind
        ensures value { result ≡ self.now.kind }
        ensures inside { IsPlaceBelow (length self.now.field) result }
    {
        self.kind
    }

    /// The octets of the secondary header, 0 without one.
    pub fn secondary_length(&self) -> u8
        ensures { result ≡ self.now.secondary_length }
    {
        self.secondary_length
    }

    /// Whether the frame has an operational control field.
    pub fn has_ocf(&self) -> bool
        ensures { result ≡ self.now.has_ocf }
    {
        self.has_ocf
    }

    /// The packet order flag.
    pub fn order_flag(&self) -> bool
        ensures { result ≡ self.now.order_flag }
    {
        self.order_flag
    }

    /// The segment length identifier, 0 to 3.
    pub fn segment(&self) -> u8
        ensures value { result ≡ self.now.segment }
        ensures below { result < 4 }
    {
        self.segment
    }
}

// The frame of a record, without the octets that are skipped.
fn frame_in<'r>(parts: &LayoutParts, octets: &'r [u8]) -> &'r [u8]
    requires range { IsInRange parts.now }
    requires exact { length octets.now ≡ record_length_of parts.now }
    ensures frame { result.now ≡ frame_of parts.now octets.now }
    ensures long { length result.now ≡ parts.now.frame_length }
{
    let start = parts.skip_before as usize;
    &octets[start..start + parts.frame_length as usize]
}

/// Reads the octets of one record: the good frame, or the first fault that applies. Nothing of a bad frame is given.
#[inline(always)]
pub fn read<'r>(layout: &Layout, octets: &'r [u8]) -> Result<Frame<'r>, FrameFault>
    requires { length octets.now ≡ record_length_of layout.now }
    ensures { result ≡ frame_reading_of layout.now octets.now }
{
    let parts = layout.parts();
    let frame = frame_in(&parts, octets);
    let header = FrameHeader::read(frame);
    match data_field(&parts, frame, &header) {
        Ok(field) => Ok(good_frame(&parts, frame, &header, field)),
        Err(fault) => Err(fault),
    }
}

/// The frame of a record that is known to hold a good one, as `read` gives it. No fault is looked for again.
#[tactic(auto, using(crate::proofs::FaultLemmas::begins_before_end, crate::proofs::FaultLemmas::fault_free))]
pub fn read_good<'r>(layout: &Layout, octets: &'r [u8]) -> Frame<'r>
    requires exact { length octets.now ≡ record_length_of layout.now }
    requires good { IsOk (frame_reading_of layout.now octets.now) }
    ensures { frame_reading_of layout.now octets.now ≡ Ok result }
{
    let parts = layout.parts();
    let frame = frame_in(&parts, octets);
    let header = FrameHeader::read(frame);
    let field = &frame[field_start(frame, &header)..field_end(&parts, frame, &header)];
    good_frame(&parts, frame, &header, field)
}

// The frame, in which no fault was found, with this data field.
#[tactic(auto, using(crate::proofs::FaultLemmas::sound))]
fn good_frame<'r>(
    parts: &LayoutParts,
    frame: &'r [u8],
    header: &FrameHeader,
    field: &'r [u8],
) -> Frame<'r>
    requires long { 9 ≤ length frame.now }
    requires header { header.now ≡ frame_header_of frame.now }
    requires field { field.now ≡ data_field_of parts.now frame.now }
    requires most { length frame.now ≤ 2048 }
    requires good { fault_of parts.now frame.now ≡ None }
    ensures { result ≡ good_frame parts.now frame.now }
{
    Frame {
        field,
        channel: header.channel,
        master_count: header.master_count,
        count: header.count,
        kind: header.kind,
        secondary_length: secondary_length(frame, header),
        has_ocf: header.ocf,
        order_flag: header.order,
        segment: header.segment,
    }
}
