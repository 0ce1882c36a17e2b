//! A line for each frame of a recording.

ghost use Rattle.std.specs.Prelude.{◌≡◌, ◌≤◌, ◌<◌, ◌∷◌, [], length, is_ok, IfOk, OnOk, OnErr};
ghost use Rattle.std.specs.Io.KnownBytes.{Appends, Keeps};
ghost use Rattle.tm_frame.specs.Layout.{record_length_of};
ghost use Rattle.tm_tool.specs.Courses.{HasEnded};
ghost use Rattle.tm_faults.specs.declared.run.RunFault.TheVariants.{Write};
ghost use Rattle.tm_output.specs.declared.command.Ending.TheVariants.{Close};
ghost use Rattle.tm_tool.specs.Listing.{IsListed, IsListing, IsListingStop, end_lines, is_good_record, listing_course, reading_line, record_line};
ghost use Rattle.tm_tool.specs.Overviews.{Shows, source_and_drain};
ghost use Rattle.tm_output.specs.Outputs.{Stopped, Took, line_piece, line_pieces, octets_buffering};
ghost use Rattle.tm_output.specs.Seen.{out_alone};
ghost use Rattle.tm_tool.specs.code.Listed.{Lists, counts_good, drain_devices, listing_names};

use crate::record_loop::{RecordHandler, handle_records};
use crate::{BufferedSource, DeviceFailed, Drain, Ending, RunFault, Settings};
use std::alloc::Global;
use tm_devices::write_all;
use tm_frame::{Frame, FrameFault, Layout, read};
use tm_lines::{LineBuffer, format_bad, format_frame, format_short};

/// Makes the line of a record by its reading. Answers whether it is a good frame.
#[inline(always)]
pub(crate) fn make_reading_line(
    line: &mut LineBuffer,
    seen: u32,
    reading: &Result<Frame<'_>, FrameFault>,
) -> bool
    ensures line { line.new ≡ reading_line seen reading.now }
    ensures good { result ≡ is_ok reading.now }
{
    match reading {
        Ok(frame) => {
            format_frame(line, seen, frame);
            true
        }
        Err(fault) => {
            format_bad(line, seen, *fault);
            false
        }
    }
}

// Makes the line of a record. Answers whether it is a good frame.
#[inline(always)]
#[tactic(auto, unfolding(crate::specs::Listing::is_good_record, crate::specs::Listing::record_line))]
fn make_record_line(line: &mut LineBuffer, layout: &Layout, seen: u32, octets: &[u8]) -> bool
    requires { length octets.now ≡ record_length_of layout.now }
    ensures line { line.new ≡ record_line layout.now seen octets.now }
    ensures good { result ≡ is_good_record layout.now octets.now }
{
    make_reading_line(line, seen, &read(layout, octets))
}

// Writes the line of a record, of any channel. Answers whether it is a good frame. Where a write failed, a prefix of the line is written.
#[inline(always)]
fn write_record_line<W: Drain>(
    line: &mut LineBuffer,
    layout: &Layout,
    seen: u32,
    octets: &[u8],
    out: &mut W,
) -> Result<bool, DeviceFailed>
    requires { length octets.now ≡ record_length_of layout.now }
    ensures good { IfOk result (λ good. good ≡ is_good_record layout.now octets.now) }
    ensures same { W.fixed out.new ≡ W.fixed out.old }
    ensures took { OnOk result (Took Appends (out_alone W.Drain out.old) (out_alone W.Drain out.new)
        (line_piece (record_line layout.now seen octets.now) ∷ [])) }
    ensures stopped { OnErr result (Stopped Appends octets_buffering (out_alone W.Drain out.old) (out_alone W.Drain out.new)
        (line_piece (record_line layout.now seen octets.now) ∷ []) Write) }
{
    let good = make_record_line(line, layout, seen, octets);
    write_all(out, line.as_slice())?;
    Ok(good)
}

/// Writes the line of octets that are left where the ending closes the recording, and flushes.
pub(crate) fn write_end_line<W: Drain>(
    line: &mut LineBuffer,
    seen: u32,
    octets: usize,
    out: &mut W,
    ending: Ending,
) -> Result<(), DeviceFailed>
    ensures same { W.fixed out.new ≡ W.fixed out.old }
    ensures took { OnOk result (Took Appends (out_alone W.Drain out.old) (out_alone W.Drain out.new)
        (line_pieces (end_lines ending seen octets))) }
    ensures flushed { OnOk result (Keeps (W.flushed out.new) (W.written out.new)) }
    ensures stopped { OnErr result (Stopped Appends octets_buffering (out_alone W.Drain out.old) (out_alone W.Drain out.new)
        (line_pieces (end_lines ending seen octets)) Write) }
{
    if let Ending::Close = ending {
        if octets > 0 {
            format_short(line, seen, octets);
            write_all(out, line.as_slice())?;
        }
    }
    out.flush()
}

/// The numbers of a listing.
#[derive(Clone, Copy, Debug, PartialEq, Eq)]
pub struct Listed {
    /// The number of records.
    pub records: u32,
    /// The number of good frames among them, of any channel.
    pub good: u32,
}

// Lists records, of any channel.
#[derive(Drop)]
struct Listing<'a, W> {
    layout: Layout,
    line: LineBuffer,
    out: &'a mut W,
}

impl<W: Drain> RecordHandler for Listing<'_, W> {
    ghost use Rattle.tm_tool.specs.code.Listed.{ListingNames, ListingState, ListsRecords, RefusesLine};

    type Progress = Listed;

    ghost Known = { ListingState };

    ghost Fixed = { ListingNames };

    ghost known = { λ listed listing. record { listed = listed; view = out_alone W.Drain listing.out.now } };

    ghost fixed = { λ _. listing_names W.Drain };

    ghost size = { λ f. record_length_of f.layout };

    ghost count = { λ known. known.listed.records };

    ghost ready = { λ listed. listed.good ≤ listed.records };

    ghost takes = { λ f. ListsRecords f.layout };

    ghost refuses = { λ f. RefusesLine f.layout };

    ghost flushed = { λ listing. Keeps (W.flushed listing.out.now) (W.written listing.out.now) };

    fn records(&self, progress: &Listed) -> u32 {
        progress.records
    }

    #[inline(always)]
    fn handle_record(&mut self, progress: &mut Listed, octets: &[u8]) -> Result<(), RunFault> {
        let seen = progress.records;
        if seen == u32::MAX {
            return Err(RunFault::TooMany);
        }
        match write_record_line(&mut self.line, &self.layout, seen, octets, self.out) {
            Ok(good) => {
                progress.records += 1;
                progress.good += u32::from(good);
                Ok(())
            }
            Err(_) => Err(RunFault::Write),
        }
    }

    fn flush_all(&mut self, _progress: &Listed) -> Result<(), RunFault> {
        match self.out.flush() {
            Ok(()) => Ok(()),
            Err(_) => Err(RunFault::Write),
        }
    }
}

// Lists all records, one at a time, through this buffer where they are not at hand.
fn list_records<R: BufferedSource, W: Drain>(
    buffer: &mut [u8],
    recording: &mut R,
    listing: &mut Listing<'_, W>,
) -> Result<Listed, RunFault>
    requires exact { length buffer.old ≡ record_length_of listing.old.layout }
    requires some { 0 < length buffer.old }
    ensures same { listing_names W.Drain listing.new ≡ listing_names W.Drain listing.old }
    ensures runs { HasEnded Appends octets_buffering (listing_course listing.old.layout 0 Close)
        (drain_devices R.BufferedSource W.Drain recording.old listing.old.out.now)
        (drain_devices R.BufferedSource W.Drain recording.new listing.new.out.now)
        (counts_good listing.old.layout) result }
    ensures flushed { OnOk result (Keeps (W.flushed listing.new.out.now) (W.written listing.new.out.now)) }
{
    let ending = Ending::Close;
    let mut listed = Listed {
        records: 0,
        good: 0,
    };
    let rest = match handle_records(&mut listed, buffer, recording, listing, ending) {
        Ok(rest) => rest,
        Err(fault) => return Err(fault),
    };
    match write_end_line(&mut listing.line, listed.records, rest, listing.out, ending) {
        Ok(()) => Ok(listed),
        Err(_) => Err(RunFault::Write),
    }
}

// Lists all records, through a buffer of its own.
fn list_all<R: BufferedSource, W: Drain>(
    alloc: Global,
    layout: Layout,
    recording: &mut R,
    out: &mut W,
) -> Result<Listed, RunFault>
    ensures same { W.fixed out.new ≡ W.fixed out.old }
    ensures runs { Lists layout (drain_devices R.BufferedSource W.Drain recording.old out.old)
        (drain_devices R.BufferedSource W.Drain recording.new out.new) result }
    ensures flushed { OnOk result (Keeps (W.flushed out.new) (W.written out.new)) }
{
    let mut record = vec![in alloc; 0u8; layout.record_length()]?;
    let mut listing = Listing {
        layout,
        line: LineBuffer::new(),
        out,
    };
    list_records(record.as_mut_slice(), recording, &mut listing)
}

/// Writes a line for each record of the recording, of any channel, and one for octets that are left,
/// and flushes. It answers the number of records, and how many of them are good frames. One record is read at a time.
///
/// # Errors
///
/// `Read` or `Write` where a call of that device failed. `TooMany` where a whole record follows 2^32 - 1. `NoMemory` where memory for
/// one record can't be had, and nothing was read or written then.
pub fn list_recording<R: BufferedSource, W: Drain>(
    alloc: Global,
    settings: &Settings,
    recording: &mut R,
    out: &mut W,
) -> Result<Listed, RunFault>
    // With Ok just the lines of what was read were written. After a fault they were written up to one place.
    ensures { Shows (IsListing settings.now.layout) (IsListingStop settings.now.layout)
        (source_and_drain R.BufferedSource W.Drain recording.old out.old)
        (source_and_drain R.BufferedSource W.Drain recording.new out.new) result }
{
    list_all(alloc, settings.layout(), recording, out)
}

/// Lists a recording as `list_recording` does, and answers the number of records.
///
/// # Errors
///
/// As `list_recording`.
pub fn list_frames<R: BufferedSource, W: Drain>(
    alloc: Global,
    settings: &Settings,
    recording: &mut R,
    out: &mut W,
) -> Result<u32, RunFault>
    ensures { Shows (IsListed settings.now.layout) (IsListingStop settings.now.layout)
        (source_and_drain R.BufferedSource W.Drain recording.old out.old)
        (source_and_drain R.BufferedSource W.Drain recording.new out.new) result }
{
    match list_recording(alloc, settings, recording, out) {
        Ok(listed) => Ok(listed.records),
        Err(fault) => Err(fault),
    }
}
