//! How a record is laid out.

ghost use Rattle.std.specs.Prelude.{◌≡◌, ◌≤◌, MatchOption};
ghost use Rattle.tm_frame.specs.Layout.{layout_fault, record_length_of};

use std::marker::Model;

/// What a layout says of a part of a frame that may be missing.
#[derive(Clone, Copy, Debug, PartialEq, Eq)]
pub enum Presence {
    /// The frame's flag decides.
    Flag,
    /// Each frame has the part; a frame whose flag disagrees is bad.
    Always,
    /// No frame has the part; a frame whose flag disagrees is bad.
    Never,
}

/// The parts of a layout. A record is `skip_before` octets, the frame, and `skip_after` octets; skipped octets are
/// never looked at.
#[derive(Clone, Copy, Debug, PartialEq, Eq)]
pub struct LayoutParts {
    /// Octets of a frame, 9 to 2048.
    pub frame_length: u32,
    /// Octets before the frame, 0 to 1024.
    pub skip_before: u32,
    /// Octets after the frame, 0 to 1024.
    pub skip_after: u32,
    /// The spacecraft identifier of the good frames, 0 to 1023 (CCSDS 132.0-B-3, 4.1.2.2).
    pub spacecraft: u32,
    /// The secondary header (CCSDS 132.0-B-3, 4.1.3).
    pub secondary: Presence,
    /// The operational control field (CCSDS 132.0-B-3, 4.1.5).
    pub ocf: Presence,
    /// Whether frames end with an error control field (CCSDS 132.0-B-3, 4.1.6).
    pub error_control: bool,
}

/// The first part of a layout that is out of range.
#[derive(Clone, Copy, Debug, PartialEq, Eq)]
pub enum LayoutFault {
    FrameLength,
    SkipBefore,
    SkipAfter,
    Spacecraft,
}

/// A layout whose parts are in range.
#[derive(Clone, Copy, Debug, PartialEq, Eq)]
pub struct Layout {
    parts: LayoutParts,
}

impl Model for Layout {
    ghost use Rattle.tm_frame.specs.declared.layout.LayoutParts.{LayoutParts};
    ghost use Rattle.tm_frame.specs.Layout.{IsInRange};

    ghost Value = { LayoutParts };

    ghost view = { λ a. a.parts };

    ghost invariant = { λ a. IsInRange a.parts };

    ghost inverse = { λ p. record { parts = p } };
}

impl Layout {
    ghost use Rattle.tm_frame.specs.Layout.{IsInRange};

    /// The layout of these parts, or the first of frame length, skips and spacecraft that is out of
    /// range.
    pub fn new(parts: LayoutParts) -> Result<Layout, LayoutFault>
        ensures { MatchOption (layout_fault parts) (result ≡ Ok parts) (λ fault. result ≡ Err fault) }
    {
        if parts.frame_length < 9 || parts.frame_length > 2048 {
            return Err(LayoutFault::FrameLength);
        }
        if parts.skip_before > 1024 {
            return Err(LayoutFault::SkipBefore);
        }
        if parts.skip_after > 1024 {
            return Err(LayoutFault::SkipAfter);
        }
        if parts.spacecraft > 1023 {
            return Err(LayoutFault::Spacecraft);
        }
        Ok(Layout { parts })
    }

    /// The parts that the layout was made of.
    pub fn parts(&self) -> LayoutParts
        ensures value { result ≡ self.now }
        ensures in_range { IsInRange result }
    {
        self.parts
    }

    /// The octets of one record, skipped ones included.
    pub fn record_length(&self) -> usize
        ensures value { result ≡ record_length_of self.now }
        ensures some { 9 ≤ result }
        ensures most { result ≤ 4096 }
    {
        let LayoutParts {
            frame_length,
            skip_before,
            skip_after,
            ..
        } = self.parts;
        (skip_before + frame_length + skip_after) as usize
    }
}
