//! The lines of a summary, written one after the other.

ghost use Rattle.std.specs.Prelude.{◌≡◌, ◌<◌, ◌∷◌, ◌++◌, [], ℕ, List, length, nat_lt};
ghost use Rattle.std.specs.Io.KnownBytes.{Appends};
ghost use Rattle.tm_output.specs.Outputs.{Written, line_piece, line_pieces, octets_buffering};
ghost use Rattle.tm_output.specs.Seen.{out_alone};
ghost use Rattle.tm_summary.specs.Lines.{application_lines, channel_line, channel_lines, channel_lines_of, fault_line, fault_lines, line_if, line_of_key, loss_line, loss_lines, master_line, recording_line, summary_lines};

use crate::application::ApplicationCounts;
use crate::channel::{ChannelCounts, Loss};
use crate::counts::Counts;
use crate::lines::{
    format_application, format_channel, format_fault, format_loss, format_master, format_recording,
};
use tm_devices::{Drain, write_all};
use tm_faults::RunFault;
use tm_frame::{Channels, FrameFault};
use tm_items::Reason;
use tm_lines::LineBuffer;
use tm_packet::Pair;

// Writes a line.
fn write_line<W: Drain>(line: &[u8], out: &mut W) -> Result<(), RunFault>
    ensures same { W.fixed out.new ≡ W.fixed out.old }
    ensures written { Written Appends octets_buffering (out_alone W.Drain out.old) (out_alone W.Drain out.new)
        (line_piece line.now ∷ []) result }
{
    match write_all(out, line) {
        Ok(()) => Ok(()),
        Err(_) => Err(RunFault::Write),
    }
}

// Writes the line of the records.
fn write_recording<W: Drain>(records: u32, counts: &Counts, out: &mut W) -> Result<(), RunFault>
    ensures same { W.fixed out.new ≡ W.fixed out.old }
    ensures written { Written Appends octets_buffering (out_alone W.Drain out.old) (out_alone W.Drain out.new)
        (line_piece (recording_line records counts.now.good counts.now.bad counts.now.rest) ∷ []) result }
{
    let mut line = LineBuffer::new();
    format_recording(&mut line, records, counts.good, counts.bad, counts.rest);
    write_line(line.as_slice(), out)
}

// Writes the line of a fault, with how many records have it, if any has it.
fn write_fault<W: Drain>(fault: FrameFault, records: u64, out: &mut W) -> Result<(), RunFault>
    ensures same { W.fixed out.new ≡ W.fixed out.old }
    ensures written { Written Appends octets_buffering (out_alone W.Drain out.old) (out_alone W.Drain out.new)
        (line_pieces (line_if (nat_lt 0 records) (fault_line fault records))) result }
{
    if records == 0 {
        return Ok(());
    }
    let mut line = LineBuffer::new();
    format_fault(&mut line, fault, records);
    write_line(line.as_slice(), out)
}

// Writes the lines of the faults that came.
fn write_faults<W: Drain>(faults: &[u64; 8], out: &mut W) -> Result<(), RunFault>
    ensures same { W.fixed out.new ≡ W.fixed out.old }
    ensures written { Written Appends octets_buffering (out_alone W.Drain out.old) (out_alone W.Drain out.new)
        (line_pieces (fault_lines faults.now)) result }
{
    for place in 0..8 {
        if let Err(fault) = write_fault(FrameFault::ALL[place], faults[place], out) {
            return Err(fault);
        }
    }
    Ok(())
}

// Writes the line of the master channel.
fn write_master<W: Drain>(gaps: u64, missing: u64, out: &mut W) -> Result<(), RunFault>
    ensures same { W.fixed out.new ≡ W.fixed out.old }
    ensures written { Written Appends octets_buffering (out_alone W.Drain out.old) (out_alone W.Drain out.new)
        (line_piece (master_line gaps missing) ∷ []) result }
{
    let mut line = LineBuffer::new();
    format_master(&mut line, gaps, missing);
    write_line(line.as_slice(), out)
}

// Writes the line of what is lost of a channel for a reason, if there is something.
fn write_loss<W: Drain>(
    channel: u8,
    reason: Reason,
    loss: Loss,
    out: &mut W,
) -> Result<(), RunFault>
    ensures same { W.fixed out.new ≡ W.fixed out.old }
    ensures written { Written Appends octets_buffering (out_alone W.Drain out.old) (out_alone W.Drain out.new)
        (line_pieces (line_if (nat_lt 0 loss.parts) (loss_line channel reason loss))) result }
{
    if loss.parts == 0 {
        return Ok(());
    }
    let mut line = LineBuffer::new();
    format_loss(&mut line, channel, reason, loss);
    write_line(line.as_slice(), out)
}

// Writes the lines of what is lost of a channel, for each reason that came.
fn write_losses<W: Drain>(channel: u8, losses: &[Loss; 7], out: &mut W) -> Result<(), RunFault>
    ensures same { W.fixed out.new ≡ W.fixed out.old }
    ensures written { Written Appends octets_buffering (out_alone W.Drain out.old) (out_alone W.Drain out.new)
        (line_pieces (loss_lines channel losses.now)) result }
{
    for place in 0..7 {
        if let Err(fault) = write_loss(channel, Reason::ALL[place], losses[place], out) {
            return Err(fault);
        }
    }
    Ok(())
}

// Writes the line of a channel.
fn write_counts<W: Drain>(channel: u8, counts: &ChannelCounts, out: &mut W) -> Result<(), RunFault>
    ensures same { W.fixed out.new ≡ W.fixed out.old }
    ensures written { Written Appends octets_buffering (out_alone W.Drain out.old) (out_alone W.Drain out.new)
        (line_piece (channel_line channel counts.now) ∷ []) result }
{
    let mut line = LineBuffer::new();
    format_channel(&mut line, channel, counts);
    write_line(line.as_slice(), out)
}

// Writes the lines of a channel, if it is chosen and had a good frame.
fn write_channel<W: Drain>(
    chosen: &Channels,
    channel: u8,
    counts: &ChannelCounts,
    out: &mut W,
) -> Result<(), RunFault>
    ensures same { W.fixed out.new ≡ W.fixed out.old }
    ensures written { Written Appends octets_buffering (out_alone W.Drain out.old) (out_alone W.Drain out.new)
        (line_pieces (channel_lines_of chosen.now channel counts.now)) result }
{
    if !chosen.has(channel) || counts.frames == 0 {
        return Ok(());
    }
    if let Err(fault) = write_counts(channel, counts, out) {
        return Err(fault);
    }
    match write_losses(channel, &counts.losses, out) {
        Ok(()) => Ok(()),
        Err(fault) => Err(fault),
    }
}

// Writes the lines of the channels.
fn write_channels<W: Drain>(
    chosen: &Channels,
    channels: &[ChannelCounts; 8],
    out: &mut W,
) -> Result<(), RunFault>
    ensures same { W.fixed out.new ≡ W.fixed out.old }
    ensures written { Written Appends octets_buffering (out_alone W.Drain out.old) (out_alone W.Drain out.new)
        (line_pieces (channel_lines chosen.now channels.now)) result }
{
    for channel in 0..8 {
        if let Err(fault) = write_channel(chosen, channel as u8, &channels[channel], out) {
            return Err(fault);
        }
    }
    Ok(())
}

// Writes the line of a channel and application, if it had a whole packet.
fn write_application<W: Drain>(
    key: u16,
    counts: &ApplicationCounts,
    out: &mut W,
) -> Result<(), RunFault>
    requires { key < 16384 }
    ensures same { W.fixed out.new ≡ W.fixed out.old }
    ensures written { Written Appends octets_buffering (out_alone W.Drain out.old) (out_alone W.Drain out.new)
        (line_pieces (line_if (nat_lt 0 counts.now.packets) (line_of_key key counts.now))) result }
{
    if counts.packets == 0 {
        return Ok(());
    }
    let mut line = LineBuffer::new();
    let pair = Pair::of_key(key);
    format_application(&mut line, pair.channel, pair.application, counts);
    write_line(line.as_slice(), out)
}

// Writes the lines of the channels and applications.
fn write_applications<W: Drain>(
    applications: &[ApplicationCounts],
    out: &mut W,
) -> Result<(), RunFault>
    requires { length applications.now ≡ 16384 }
    ensures same { W.fixed out.new ≡ W.fixed out.old }
    ensures written { Written Appends octets_buffering (out_alone W.Drain out.old) (out_alone W.Drain out.new)
        (line_pieces (application_lines applications.now)) result }
{
    for key in 0..16384 {
        if let Err(fault) = write_application(key as u16, &applications[key], out) {
            return Err(fault);
        }
    }
    Ok(())
}

/// Writes the lines of the numbers, for these chosen channels and this number of records. Each is made whole before any of it is written,
/// and takes no memory.
pub fn write_summary<W: Drain>(
    chosen: &Channels,
    records: u32,
    counts: &Counts,
    out: &mut W,
) -> Result<(), RunFault>
    ensures same { W.fixed out.new ≡ W.fixed out.old }
    ensures written { Written Appends octets_buffering (out_alone W.Drain out.old) (out_alone W.Drain out.new)
        (line_pieces (summary_lines chosen.now records counts.now)) result }
{
    if let Err(fault) = write_recording(records, counts, out) {
        return Err(fault);
    }
    if let Err(fault) = write_faults(&counts.faults, out) {
        return Err(fault);
    }
    if let Err(fault) = write_master(counts.master_gaps, counts.master_missing, out) {
        return Err(fault);
    }
    if let Err(fault) = write_channels(chosen, &counts.channels, out) {
        return Err(fault);
    }
    match write_applications(counts.applications.as_slice(), out) {
        Ok(()) => Ok(()),
        Err(fault) => Err(fault),
    }
}
