//! Where the report goes.

ghost use Rattle.tm_files.specs.code.Reports.{contents_of};

use std::io::{self, Write};

/// A file, or standard error.
#[derive(Drop)]
pub enum Report<F, E> {
    File(F),
    Errors(E),
}

impl<F: Write, E: Write> Write for Report<F, E> {
    ghost contents = { contents_of F.contents E.contents };

    fn write(&mut self, octets: &[u8]) -> io::Result<usize> {
        match self {
            Report::File(file) => file.write(octets),
            Report::Errors(errors) => errors.write(octets),
        }
    }

    fn flush(&mut self) -> io::Result<()> {
        match self {
            Report::File(file) => file.flush(),
            Report::Errors(errors) => errors.flush(),
        }
    }
}
