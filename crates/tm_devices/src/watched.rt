//! The system of a run, with its first error kept.

ghost use Rattle.std.specs.Prelude.{◌+◌, ◌≡◌, IfOk, string_len};

use std::alloc::{Alloc, Allocator};
use std::cell::Cell;
use std::fmt::Display;
use std::fs::{Metadata, OpenFile, OpenOptions, Permissions};
use std::io::{
    self, BufRead, ErrorKind, Input, Lines, PipeReader, PipeWriter, Print, Read, Seek, SeekFrom,
    Write,
};
use std::os::fd::BorrowedFd;
use std::os::unix::net::SocketAddr;
use std::path::PathBuf;
use std::rt::Files;

// The first error of the system, by its number.
type FirstError = Cell<Option<i32>>;

// Keeps the error of a result, if it is the first. A call that was interrupted is made again.
fn watch<T>(first: &FirstError, done: io::Result<T>) -> io::Result<T>
    ensures { result ≡ done }
{
    if let Err(error) = &done
        && first.get().is_none()
        && error.kind() != ErrorKind::Interrupted
    {
        first.set(error.raw_os_error());
    }
    done
}

/// A system whose calls are passed on as they are. The first error of one that opens, reads, writes or renames is kept.
#[derive(Drop)]
pub struct Watched<'s, R> {
    system: &'s R,
    first: &'s FirstError,
}

/// A file of such a system.
#[derive(Drop)]
pub struct WatchedFile<'s, F> {
    file: F,
    first: &'s FirstError,
}

/// Standard input of such a system.
#[derive(Drop)]
pub struct WatchedReader<'s, B> {
    reader: B,
    first: &'s FirstError,
}

impl<'s, R> Watched<'s, R> {
    /// The system, whose first error goes into the cell.
    pub fn new(system: &'s R, first: &'s Cell<Option<i32>>) -> Self {
        Watched { system, first }
    }
}

impl<'s, R: Alloc> Alloc for Watched<'s, R> {
    type A = R::A;

    fn alloc(&self) -> R::A {
        self.system.alloc()
    }
}

impl<'s, R: Files> Files for Watched<'s, R> {
    type File = WatchedFile<'s, R::File>;

    type Dir = R::Dir;

    fn open_file(&self, how: &OpenOptions, path: &str) -> io::Result<WatchedFile<'s, R::File>> {
        let first = self.first;
        match watch(first, self.system.open_file(how, path)) {
            Ok(file) => Ok(WatchedFile { file, first }),
            Err(error) => Err(error),
        }
    }

    fn open_dir(&self, path: &str) -> io::Result<R::Dir> {
        self.system.open_dir(path)
    }

    fn metadata(&self, path: &str) -> io::Result<Metadata> {
        self.system.metadata(path)
    }

    fn symlink_metadata(&self, path: &str) -> io::Result<Metadata> {
        self.system.symlink_metadata(path)
    }

    fn copy(&self, from: &str, to: &str) -> io::Result<u64> {
        self.system.copy(from, to)
    }

    fn rename(&self, from: &str, to: &str) -> io::Result<()> {
        watch(self.first, self.system.rename(from, to))
    }

    fn remove_file(&self, path: &str) -> io::Result<()> {
        self.system.remove_file(path)
    }

    fn create_dir(&self, path: &str) -> io::Result<()> {
        self.system.create_dir(path)
    }

    fn remove_dir(&self, path: &str) -> io::Result<()> {
        self.system.remove_dir(path)
    }

    fn remove_dir_all<B: Allocator>(&self, alloc: B, path: &str) -> io::Result<()> {
        self.system.remove_dir_all(alloc, path)
    }

    fn canonicalize<B: Allocator>(&self, alloc: B, path: &str) -> io::Result<PathBuf<B>> {
        self.system.canonicalize(alloc, path)
    }

    fn read_link<B: Allocator>(&self, alloc: B, path: &str) -> io::Result<PathBuf<B>> {
        self.system.read_link(alloc, path)
    }

    fn hard_link(&self, original: &str, link: &str) -> io::Result<()> {
        self.system.hard_link(original, link)
    }

    fn set_permissions(&self, path: &str, permissions: Permissions) -> io::Result<()> {
        self.system.set_permissions(path, permissions)
    }

    fn symlink(&self, original: &str, link: &str) -> io::Result<()> {
        self.system.symlink(original, link)
    }

    fn pipe(&self) -> io::Result<(PipeReader, PipeWriter)> {
        self.system.pipe()
    }

    fn chown(&self, path: &str, user: Option<u32>, group: Option<u32>) -> io::Result<()> {
        self.system.chown(path, user, group)
    }

    fn lchown(&self, path: &str, user: Option<u32>, group: Option<u32>) -> io::Result<()> {
        self.system.lchown(path, user, group)
    }

    fn create_dir_with_mode(&self, path: &str, mode: u32) -> io::Result<()> {
        self.system.create_dir_with_mode(path, mode)
    }

    fn bind_unix(&self, socket: BorrowedFd<'_>, address: &SocketAddr) -> io::Result<()> {
        self.system.bind_unix(socket, address)
    }
}

impl<'s, F: Read> Read for WatchedFile<'s, F> {
    fn read(&mut self, octets: &mut [u8]) -> io::Result<usize> {
        watch(self.first, self.file.read(octets))
    }
}

impl<'s, F: Write> Write for WatchedFile<'s, F> {
    fn write(&mut self, octets: &[u8]) -> io::Result<usize> {
        watch(self.first, self.file.write(octets))
    }

    fn flush(&mut self) -> io::Result<()> {
        watch(self.first, self.file.flush())
    }
}

// A pipe can't be moved, which is no fault: so an error of this is not kept.
impl<'s, F: Seek> Seek for WatchedFile<'s, F> {
    fn seek(&mut self, to: SeekFrom) -> io::Result<u64> {
        self.file.seek(to)
    }
}

impl<'s, F: OpenFile> OpenFile for WatchedFile<'s, F> {
    fn metadata(&self) -> io::Result<Metadata> {
        self.file.metadata()
    }

    fn set_len(&self, size: u64) -> io::Result<()> {
        watch(self.first, self.file.set_len(size))
    }

    fn sync_all(&self) -> io::Result<()> {
        watch(self.first, self.file.sync_all())
    }

    fn sync_data(&self) -> io::Result<()> {
        watch(self.first, self.file.sync_data())
    }
}

impl<'s, R: Input> Input for Watched<'s, R> {
    type Reader = WatchedReader<'s, R::Reader>;

    fn read_line<A: Allocator + Clone>(&self, text: &mut String<A>) -> io::Result<usize>
        ensures ok { IfOk result (λ n. string_len text.new ≡ string_len text.old + n) }
    {
        self.system.read_line(text)
    }

    fn lines<A: Allocator>(&self, alloc: A) -> Lines<WatchedReader<'s, R::Reader>, A> {
        self.reader().lines(alloc)
    }

    fn reader(&self) -> WatchedReader<'s, R::Reader> {
        WatchedReader {
            reader: self.system.reader(),
            first: self.first,
        }
    }
}

impl<'s, B: Read> Read for WatchedReader<'s, B> {
    fn read(&mut self, octets: &mut [u8]) -> io::Result<usize> {
        watch(self.first, self.reader.read(octets))
    }
}

impl<'s, B: BufRead> BufRead for WatchedReader<'s, B> {
    fn fill_buf(&mut self) -> io::Result<&[u8]> {
        self.reader.fill_buf()
    }

    fn consume(&mut self, octets: usize) {
        self.reader.consume(octets);
    }
}

impl<'s, R: Print> Print for Watched<'s, R> {
    fn print<D: Display + Drop>(&self, value: D) -> io::Result<()> {
        watch(self.first, self.system.print(value))
    }

    fn println<D: Display + Drop>(&self, value: D) -> io::Result<()> {
        watch(self.first, self.system.println(value))
    }

    fn write_all(&self, octets: &[u8]) -> io::Result<()> {
        watch(self.first, self.system.write_all(octets))
    }

    // An empty write asks whether the stream is open, and fails a device that is full: so its error is not kept.
    fn write_some(&self, octets: &[u8]) -> io::Result<usize> {
        let done = self.system.write_some(octets);
        if octets.is_empty() {
            done
        } else {
            watch(self.first, done)
        }
    }
}
