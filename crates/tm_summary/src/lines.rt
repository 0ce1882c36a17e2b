//! The lines of a summary. Each is made in a buffer of its own, and takes no memory of the heap.

ghost use Rattle.std.specs.Prelude.{◌≡◌};
ghost use Rattle.tm_summary.specs.Lines.{application_line, channel_line, fault_line, loss_line, master_line, recording_line};

use crate::application::ApplicationCounts;
use crate::channel::{ChannelCounts, Loss};
use tm_frame::FrameFault;
use tm_items::Reason;
use tm_lines::LineBuffer;

/// The line of the whole records, the good and the bad ones, and the octets that are left.
pub fn format_recording(line: &mut LineBuffer, records: u32, good: u64, bad: u64, rest: u64)
    ensures { line.new ≡ recording_line records good bad rest }
{
    line.start();
    line.prepend_long_number(rest);
    line.prepend_text(b" rest=");
    line.prepend_long_number(bad);
    line.prepend_text(b" bad=");
    line.prepend_long_number(good);
    line.prepend_text(b" good=");
    line.prepend_number(records);
    line.prepend_text(b"recording records=");
}

/// The line of a fault, and of how many records have it.
#[tactic(auto, using(tm_lines::proofs::BufferLemmas::short_fault_word))]
pub fn format_fault(line: &mut LineBuffer, fault: FrameFault, records: u64)
    ensures { line.new ≡ fault_line fault records }
{
    line.start();
    line.prepend_long_number(records);
    line.prepend_text(b" records=");
    line.prepend_word(fault.word());
    line.prepend_text(b"fault word=");
}

/// The line of the master channel.
pub fn format_master(line: &mut LineBuffer, gaps: u64, missing: u64)
    ensures { line.new ≡ master_line gaps missing }
{
    line.start();
    line.prepend_long_number(missing);
    line.prepend_text(b" missing=");
    line.prepend_long_number(gaps);
    line.prepend_text(b"master gaps=");
}

/// The line of a channel.
pub fn format_channel(line: &mut LineBuffer, channel: u8, counts: &ChannelCounts)
    ensures { line.new ≡ channel_line channel counts.now }
{
    line.start();
    line.prepend_long_number(counts.data_octets);
    line.prepend_text(b" data=");
    line.prepend_long_number(counts.lost);
    line.prepend_text(b" lost=");
    line.prepend_long_number(counts.dropped);
    line.prepend_text(b" dropped=");
    line.prepend_long_number(counts.octets);
    line.prepend_text(b" octets=");
    line.prepend_long_number(counts.packets);
    line.prepend_text(b" packets=");
    line.prepend_long_number(counts.missing);
    line.prepend_text(b" missing=");
    line.prepend_long_number(counts.gaps);
    line.prepend_text(b" gaps=");
    line.prepend_long_number(counts.vca);
    line.prepend_text(b" vca=");
    line.prepend_long_number(counts.idle);
    line.prepend_text(b" idle=");
    line.prepend_long_number(counts.frames);
    line.prepend_text(b" frames=");
    line.prepend_number(u32::from(channel));
    line.prepend_text(b"channel channel=");
}

/// The line of what is lost of a channel for a reason.
#[tactic(auto, using(tm_lines::proofs::BufferLemmas::short_reason_word))]
pub fn format_loss(line: &mut LineBuffer, channel: u8, reason: Reason, loss: Loss)
    ensures { line.new ≡ loss_line channel reason loss }
{
    let Loss { parts, octets } = loss;
    line.start();
    line.prepend_long_number(octets);
    line.prepend_text(b" octets=");
    line.prepend_long_number(parts);
    line.prepend_text(b" parts=");
    line.prepend_word(reason.word());
    line.prepend_text(b" reason=");
    line.prepend_number(u32::from(channel));
    line.prepend_text(b"loss channel=");
}

/// The line of a channel and application.
pub fn format_application(line: &mut LineBuffer, channel: u8, apid: u16, counts: &ApplicationCounts)
    ensures { line.new ≡ application_line channel apid counts.now }
{
    line.start();
    line.prepend_long_number(counts.strays);
    line.prepend_text(b" strays=");
    line.prepend_long_number(counts.broken);
    line.prepend_text(b" broken=");
    line.prepend_long_number(counts.groups);
    line.prepend_text(b" groups=");
    line.prepend_long_number(counts.missing);
    line.prepend_text(b" missing=");
    line.prepend_long_number(counts.gaps);
    line.prepend_text(b" gaps=");
    line.prepend_number(counts.last);
    line.prepend_text(b" last=");
    line.prepend_number(counts.first);
    line.prepend_text(b" first=");
    line.prepend_long_number(counts.octets);
    line.prepend_text(b" octets=");
    line.prepend_long_number(counts.packets);
    line.prepend_text(b" packets=");
    line.prepend_number(u32::from(apid));
    line.prepend_text(b" apid=");
    line.prepend_number(u32::from(channel));
    line.prepend_text(b"application channel=");
}
