//! Readers and writers of std as devices.

ghost use Rattle.std.specs.Prelude.{◌≡◌, true, None, IfOk};
ghost use Rattle.std.specs.Io.Buffered.{reader_buffer};
ghost use Rattle.tm_devices.specs.Devices.{AreAhead, CountsFailures, HasMoved, PassesOver};

use crate::{BufferedSource, DeviceFailed, Drain, Source};
use std::io::{self, BufRead, BufReader, Read, Seek, SeekFrom, Write};

/// A reader of std. Each error of it is a failure.
#[derive(Drop)]
pub struct Reading<R> {
    reader: R,
    failed: u64,
}

impl<R: Read> Reading<R> {
    /// A source over the reader, with no failure yet.
    pub fn new(reader: R) -> Self
        ensures left { ⟦<Reading<R> as Source>⟧.left result ≡ R.remaining reader }
        ensures failures { ⟦<Reading<R> as Source>⟧.failures result ≡ 0 }
        ensures reader { result.reader ≡ reader }
    {
        Reading { reader, failed: 0 }
    }
}

impl<R: Read> Source for Reading<R> {
    ghost failures = { λ s. s.failed };

    ghost left = { λ s. R.remaining s.reader };

    fn read(&mut self, buffer: &mut [u8]) -> Result<usize, DeviceFailed> {
        match self.reader.read(buffer) {
            Ok(n) => Ok(n),
            Err(_) => {
                self.failed = self.failed.saturating_add(1);
                Err(DeviceFailed)
            }
        }
    }
}

/// A reader of std with a buffer, which shows what it holds. Each error of it is a failure.
#[derive(Drop)]
pub struct Buffered<R> {
    reading: Reading<BufReader<R>>,
}

impl<R: Read> Buffered<R> {
    /// A source over the buffer, with no failure yet.
    pub fn new(reader: BufReader<R>) -> Self
        ensures left { ⟦<Buffered<R> as BufferedSource>⟧.left result ≡ ⟦<BufReader<R> as Read>⟧.remaining reader }
        ensures failures { ⟦<Buffered<R> as BufferedSource>⟧.failures result ≡ 0 }
        ensures reader { result.reading.reader ≡ reader }
    {
        Buffered {
            reading: Reading::new(reader),
        }
    }
}

impl<R: Read> BufferedSource for Buffered<R> {
    ghost failures = { λ s. s.reading.failed };

    ghost left = { λ s. ⟦<BufReader<R> as Read>⟧.remaining s.reading.reader };

    ghost at_hand = { λ s. reader_buffer s.reading.reader };

    fn read(&mut self, buffer: &mut [u8]) -> Result<usize, DeviceFailed> {
        Source::read(&mut self.reading, buffer)
    }

    fn at_hand(&self) -> &[u8] {
        self.reading.reader.buffer()
    }

    fn consume(&mut self, octets: usize) {
        self.reading.reader.consume(octets);
    }
}

/// A reader of std that can seek, as a file can, with a buffer: octets are passed over by a seek.
#[derive(Drop)]
pub struct Seeking<R> {
    buffered: Buffered<R>,
    waits: bool,
}

impl<R: Read + Seek> Seeking<R> {
    /// A source over the buffer, with no failure yet. Nothing is read of it. A regular file never waits; a named pipe does.
    pub fn new(reader: BufReader<R>, waits: bool) -> Self
        ensures failures { ⟦<Seeking<R> as BufferedSource>⟧.failures result ≡ 0 }
        ensures reader { result.buffered.reading.reader ≡ reader }
        ensures waits { ⟦<Seeking<R> as BufferedSource>⟧.waits result ≡ waits }
    {
        Seeking {
            buffered: Buffered::new(reader),
            waits,
        }
    }
}

// Moves a reader on by `octets`, if as many are ahead, and answers whether they are. If it can't be moved, as a pipe, there are none.
fn seek_forward<R: Seek>(reader: &mut R, octets: u64) -> io::Result<bool>
    ensures moved { IfOk result (HasMoved (R.stream_position reader.old) (R.stream_position reader.new) octets) }
    ensures within { IfOk result (λ did. did ≡ true
        → AreAhead (R.stream_position reader.old) (R.stream_bytes reader.old) octets) }
{
    let Ok(at) = reader.stream_position() else {
        return Ok(false);
    };
    let Ok(end) = reader.seek(SeekFrom::End(0)) else {
        return Ok(false);
    };
    match at.checked_add(octets) {
        Some(to) if to <= end => {
            reader.seek(SeekFrom::Start(to))?;
            Ok(true)
        }
        _ => {
            reader.seek(SeekFrom::Start(at))?;
            Ok(false)
        }
    }
}

impl<R: Read + Seek> BufferedSource for Seeking<R> {
    ghost failures = { λ s. s.buffered.reading.failed };

    ghost at_hand = { λ s. reader_buffer s.buffered.reading.reader };

    ghost waits = { λ s. s.waits };

    fn may_wait(&self) -> bool {
        self.waits
    }

    fn read(&mut self, buffer: &mut [u8]) -> Result<usize, DeviceFailed> {
        self.buffered.read(buffer)
    }

    fn at_hand(&self) -> &[u8] {
        self.buffered.at_hand()
    }

    fn consume(&mut self, octets: usize) {
        self.buffered.consume(octets);
    }

    fn pass_over(&mut self, octets: u64) -> Result<bool, DeviceFailed>
        ensures octets { PassesOver None None octets result }
        ensures counts { CountsFailures self.old.buffered.reading.failed self.new.buffered.reading.failed result }
        ensures moved { IfOk result (HasMoved (⟦<BufReader<R> as Seek>⟧.stream_position self.old.buffered.reading.reader)
            (⟦<BufReader<R> as Seek>⟧.stream_position self.new.buffered.reading.reader) octets) }
        ensures within { IfOk result (λ did. did ≡ true
            → AreAhead (⟦<BufReader<R> as Seek>⟧.stream_position self.old.buffered.reading.reader)
            (⟦<BufReader<R> as Seek>⟧.stream_bytes self.old.buffered.reading.reader) octets) }
    {
        match seek_forward(&mut self.buffered.reading.reader, octets) {
            Ok(did) => Ok(did),
            Err(_) => {
                self.buffered.reading.failed = self.buffered.reading.failed.saturating_add(1);
                Err(DeviceFailed)
            }
        }
    }
}

/// A writer of std. Each error of it, and a write of nothing, is a failure.
#[derive(Drop)]
pub struct Writing<W> {
    writer: W,
    failed: u64,
}

impl<W: Write> Writing<W> {
    /// A drain into the writer, with no failure yet.
    pub fn new(writer: W) -> Self
        ensures written { ⟦<Writing<W> as Drain>⟧.written result ≡ W.contents writer }
        ensures failures { ⟦<Writing<W> as Drain>⟧.failures result ≡ 0 }
    {
        Writing { writer, failed: 0 }
    }
}

impl<W: Write> Drain for Writing<W> {
    ghost failures = { λ s. s.failed };

    ghost written = { λ s. W.contents s.writer };

    fn write(&mut self, octets: &[u8]) -> Result<usize, DeviceFailed> {
        if let Ok(n) = self.writer.write(octets) {
            if 0 < n || octets.is_empty() {
                return Ok(n);
            }
        }
        self.failed = self.failed.saturating_add(1);
        Err(DeviceFailed)
    }

    fn flush(&mut self) -> Result<(), DeviceFailed> {
        match self.writer.flush() {
            Ok(()) => Ok(()),
            Err(_) => {
                self.failed = self.failed.saturating_add(1);
                Err(DeviceFailed)
            }
        }
    }
}
