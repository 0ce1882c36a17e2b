//! The calls of a run's devices, in their order, with the octets that each of them moves.

use crate::bench::{Bench, By, Device};
use crate::runs::Row;
use std::alloc::{AllocError, Global};
use tm_tool::Command;

/// A call of a device, and how many octets it moves: none where it finds the end, or flushes.
#[derive(Clone, Copy)]
pub(crate) struct Call {
    pub(crate) device: Device,
    pub(crate) octets: usize,
}

/// How many of these calls are the device's, and how many octets they move.
pub(crate) fn calls_until(calls: &[Call], device: Device) -> (u64, usize) {
    let mut count = 0u64;
    let mut octets = 0usize;
    for call in calls {
        if call.device == device {
            count = count.saturating_add(1);
            octets = octets.saturating_add(call.octets);
        }
    }
    (count, octets)
}

// The first line of a text with its end, and the text after it.
fn cut_line(text: &[u8]) -> (&[u8], &[u8]) {
    for (index, octet) in text.iter().enumerate() {
        if *octet == b'\n' {
            return text.split_at_checked(index + 1).unwrap_or((text, &[]));
        }
    }
    (text, &[])
}

// The decimal number with which a line ends.
fn last_number(line: &[u8]) -> usize {
    let mut number = 0usize;
    for octet in line {
        match char::from(*octet).to_digit(10) {
            Some(digit) => number = number.saturating_mul(10).saturating_add(digit as usize),
            None if *octet == b'\n' => {}
            None => number = 0,
        }
    }
    number
}

// The calls of a run, up to where it has been followed.
#[derive(Drop)]
struct Calls<'l> {
    list: Vec<Call>,
    // A packet goes out as octets, and not as a line; they go by one put; and packets have rows of fields, idle ones none.
    has_octets: bool,
    has_puts: bool,
    has_rows: bool,
    // The octets of packets that lie end to end go out at once. While such packets are followed they have this many octets so far.
    has_spans: bool,
    span: Option<usize>,
    // At most this many octets are read per call, and written.
    per_call: usize,
    // The octets of a record, and of the rest after all records.
    record: usize,
    rest: usize,
    // The devices that are flushed: before each read but the first, where the source may wait, and at the end.
    outputs: [Option<Device>; 2],
    waits: bool,
    has_read: bool,
    // The lines of the packets and of the report that are still to come.
    packets: &'l [u8],
    lines: &'static [u8],
}

impl Calls<'_> {
    // A call that moves this many octets.
    fn push(&mut self, device: Device, octets: usize) -> Result<(), AllocError> {
        self.list.push(Call { device, octets })?;
        Ok(())
    }

    // The calls that it takes to move this many octets. A put moves them all.
    fn push_all(&mut self, device: Device, octets: usize) -> Result<(), AllocError> {
        let most = if device == Device::Out && self.has_puts {
            octets.max(1)
        } else {
            self.per_call.max(1)
        };
        for _ in 0..octets / most {
            self.push(device, most)?;
        }
        match octets % most {
            0 => Ok(()),
            rest => self.push(device, rest),
        }
    }

    // Flushes the outputs.
    fn flush(&mut self) -> Result<(), AllocError> {
        for output in self.outputs {
            if let Some(device) = output {
                self.push(device, 0)?;
            }
        }
        Ok(())
    }

    // The same after a record, where the source may wait for the next one.
    fn flush_before_waiting(&mut self) -> Result<(), AllocError> {
        if self.waits && self.has_read {
            self.flush()?;
        }
        self.has_read = true;
        Ok(())
    }

    // Reads a record.
    fn read(&mut self) -> Result<(), AllocError> {
        self.flush_before_waiting()?;
        self.push_all(Device::Recording, self.record)
    }

    // Reads the rest, and finds the end.
    fn end(&mut self) -> Result<(), AllocError> {
        self.flush_before_waiting()?;
        self.push_all(Device::Recording, self.rest)?;
        self.push(Device::Recording, 0)
    }

    // The next lines of the report, written as one.
    fn report(&mut self, count: u32) -> Result<(), AllocError> {
        let mut octets = 0usize;
        for _ in 0..count {
            let (line, rest) = cut_line(self.lines);
            octets = octets.saturating_add(line.len());
            self.lines = rest;
        }
        self.push_all(Device::Report, octets)
    }

    // The next packet, its octets or its line, and then its lines of the report.
    fn give(&mut self, notes: u32) -> Result<(), AllocError> {
        let (line, rest) = cut_line(self.packets);
        self.packets = rest;
        let octets = if self.has_octets {
            last_number(line)
        } else {
            line.len()
        };
        if let Some(span) = self.span {
            self.span = Some(span.saturating_add(octets));
            return Ok(());
        }
        self.push_all(Device::Out, octets)?;
        self.report(notes)
    }

    // Packets that lie end to end begin here.
    fn begin_span(&mut self) {
        self.span = if self.has_spans { Some(0) } else { None };
    }

    // They end here.
    fn end_span(&mut self) -> Result<(), AllocError> {
        match self.span.take() {
            Some(octets) => self.push_all(Device::Out, octets),
            None => Ok(()),
        }
    }

    // Follows an order, as a row has it. An idle packet has no row of fields.
    fn follow(&mut self, order: &str) -> Result<(), AllocError> {
        for letter in order.chars() {
            match letter {
                '/' => self.read()?,
                '.' => self.end()?,
                '-' => self.report(1)?,
                '(' => self.begin_span(),
                ')' => self.end_span()?,
                'i' if self.has_rows => {}
                _ => self.give(letter.to_digit(10).unwrap_or(0))?,
            }
        }
        Ok(())
    }

    // Follows a listing: a line for each record, and one for a rest.
    fn follow_frames(&mut self, records: u32) -> Result<(), AllocError> {
        for _ in 0..records {
            self.read()?;
            self.give(0)?;
        }
        self.end()?;
        if self.rest > 0 {
            self.give(0)?;
        }
        Ok(())
    }

    // Follows a run over a row's recording. The head of its rows is flushed where the source may wait, and at the end all outputs are.
    fn follow_run(&mut self, row: &Row, by: By<'_>) -> Result<(), AllocError> {
        if self.has_rows {
            self.give(0)?;
            if self.waits {
                self.push(Device::Out, 0)?;
            }
        }
        match by {
            By::Frames => self.follow_frames(row.records)?,
            By::Run(_) | By::Split => self.follow(row.order)?,
        }
        self.flush()
    }
}

/// All calls of a run over a row's recording, which gives this output.
pub(crate) fn calls_of(
    alloc: Global,
    bench: &Bench,
    row: &Row,
    by: By<'_>,
    out: &[u8],
) -> Result<Vec<Call>, AllocError> {
    let record = bench.settings.layout().record_length();
    let has_octets = matches!(by, By::Run(Command::Extract) | By::Split);
    let mut calls = Calls {
        list: Vec::new(alloc),
        has_octets,
        has_puts: matches!(by, By::Split),
        has_rows: matches!(by, By::Run(Command::Fields(_, _))),
        has_spans: matches!(by, By::Run(Command::Extract)),
        span: None,
        per_call: bench.source.per_call,
        record,
        rest: bench.source.octets.len() % record,
        outputs: [
            match by {
                By::Split => None,
                By::Frames | By::Run(_) => Some(Device::Out),
            },
            match by {
                By::Frames => None,
                By::Run(_) | By::Split => Some(Device::Report),
            },
        ],
        waits: bench.source.waits,
        has_read: false,
        packets: if has_octets {
            row.lines.as_bytes()
        } else {
            out
        },
        lines: row.report.as_bytes(),
    };
    calls.follow_run(row, by)?;
    Ok(calls.list)
}
