//! Files that are opened by their names, and files that are read whole.

ghost use Rattle.std.specs.Prelude.{◌≡◌, ◌<◌, ◌≤◌, [], length, vec_len, IfOk, IfErr, IfSome, IsErr, MatchOption};
ghost use Rattle.tm_files.specs.Names.{temporary_checkpoint};
ghost use Rattle.tm_files.specs.code.Files.{IsFaultOf, IsFileFault, IsNoMemory, most_octets};
ghost use Rattle.tm_files.specs.code.Replacements.{replaced_name, replaced_octets, replacement_name};

use std::alloc::Global;
use std::fs::{self, File, OpenFile, OpenOptions};
use std::io::{self, ErrorKind, Read, Write};
use std::rt::Files;
use tm_bits::Octets;
use tm_faults::{RunFault, ToolFault};

/// How the name of the file ends in which a checkpoint is written before it takes its name.
pub const TEMPORARY_ENDING: &str = ".new";

// The octets that a file may have at the most.
const MOST_OCTETS: usize = 1_048_576;

// Reads to the end, and answers no octets where there are more than a file may have.
fn read_short<R: Read + Drop>(alloc: Global, reader: R) -> io::Result<Option<Vec<u8>>>
    ensures whole { IfOk result (λ found. IfSome (R.remaining reader) (λ all.
        MatchOption found (most_octets < length all) (λ octets. octets.items ≡ all))) }
    ensures short { IfOk result (λ found. IfSome found (λ octets. vec_len octets ≤ most_octets)) }
{
    let mut octets = Vec::new(alloc);
    reader
        .take(MOST_OCTETS as u64 + 1)
        .read_to_end(&mut octets)?;
    if octets.len() > MOST_OCTETS {
        Ok(None)
    } else {
        Ok(Some(octets))
    }
}

// A copy of a file's name, unless memory runs out.
fn copy_of(alloc: Global, name: &Octets) -> Option<Octets>
    ensures { IfSome result (λ copy. copy ≡ name.now) }
{
    match Vec::from_slice(alloc, name.as_slice()) {
        Ok(octets) => Some(Octets::new(octets)),
        Err(_) => None,
    }
}

/// The fault of a file that can't be opened, made or read.
pub fn file_fault(alloc: Global, name: &Octets) -> ToolFault
    ensures { IsFileFault name.now result }
{
    match copy_of(alloc, name) {
        Some(name) => ToolFault::File(name),
        None => ToolFault::Run(RunFault::NoMemory),
    }
}

/// The name of the file in which a checkpoint is written before it takes its name.
pub(crate) fn temporary_name(alloc: Global, name: &[u8]) -> Result<Vec<u8>, ToolFault>
    ensures name { IfOk result (λ found. found.items ≡ temporary_checkpoint name.now) }
    ensures refused { IfErr result IsNoMemory }
{
    let Ok(mut octets) = Vec::from_slice(alloc, name) else {
        return Err(ToolFault::Run(RunFault::NoMemory));
    };
    match octets.extend_from_slice(TEMPORARY_ENDING.as_bytes()) {
        Ok(()) => Ok(octets),
        Err(_) => Err(ToolFault::Run(RunFault::NoMemory)),
    }
}

// The path that a file's name is.
fn path_of<'n>(alloc: Global, name: &'n Octets) -> Result<&'n str, ToolFault>
    ensures path { IfOk result (λ path. path.now ≡ name.now) }
    ensures refused { IfErr result (IsFileFault name.now) }
{
    match std::str::from_utf8(name.as_slice()) {
        Ok(path) => Ok(path),
        Err(_) => Err(file_fault(alloc, name)),
    }
}

/// Opens a file for reading. A fault names the file as it was given.
pub fn open<R: Files + AllocGlobal>(rt: &R, name: &Octets) -> Result<R::File, ToolFault>
    ensures { IfErr result (IsFileFault name.now) }
{
    match File::open(rt, path_of(rt.alloc(), name)?) {
        Ok(file) => Ok(file),
        Err(_) => Err(file_fault(rt.alloc(), name)),
    }
}

/// Opens a file for writing, made where it is not there, and empty from then on. A fault names the file as it was given.
pub fn create<R: Files + AllocGlobal>(rt: &R, name: &Octets) -> Result<R::File, ToolFault>
    ensures { IfErr result (IsFileFault name.now) }
{
    match File::create(rt, path_of(rt.alloc(), name)?) {
        Ok(file) => Ok(file),
        Err(_) => Err(file_fault(rt.alloc(), name)),
    }
}

/// Opens a file for appending, made where it is not there. A fault names the file as it was given.
pub fn append<R: Files + AllocGlobal>(rt: &R, name: &Octets) -> Result<R::File, ToolFault>
    ensures { IfErr result (IsFileFault name.now) }
{
    let path = path_of(rt.alloc(), name)?;
    match OpenOptions::new().append(true).create(true).open(rt, path) {
        Ok(file) => Ok(file),
        Err(_) => Err(file_fault(rt.alloc(), name)),
    }
}

/// The file `NAME.new` beside a file, made and empty. It takes the other's name once it is written. Until then the other stays as it is.
#[derive(Drop)]
pub struct Replacement<'n, F> {
    name: &'n Octets,
    path: &'n str,
    temporary: String,
    file: F,
}

/// The octets of a file were replaced by these. Only `finish_replacement` says so, once it is done.
#[derive(Drop)]
pub struct Replaced<'n> {
    name: &'n Octets,
    octets: Vec<u8>,
}

// Whether this is the name of something else than a regular file, as a folder or a device: no file may take its place.
fn is_no_file<R: Files>(rt: &R, path: &str) -> bool {
    match fs::metadata(rt, path) {
        Ok(metadata) => !metadata.is_file(),
        Err(_) => false,
    }
}

/// Makes the file `NAME.new` beside a file, or empties it. An empty name is refused, and a folder, a pipe or a device in place of the file. A
/// fault names the file as it was given.
pub fn begin_replacement<'n, R: Files + AllocGlobal>(
    rt: &R,
    name: &'n Octets,
) -> Result<Replacement<'n, R::File>, ToolFault>
    ensures name { IfOk result (λ replacement. replacement_name replacement ≡ name.now) }
    ensures unnamed { name.now ≡ [] → IsErr result }
    ensures refused { IfErr result (IsFileFault name.now) }
{
    let alloc = rt.alloc();
    let path = path_of(alloc, name)?;
    let Ok(temporary) = String::from_utf8(temporary_name(alloc, path.as_bytes())?) else {
        return Err(file_fault(alloc, name));
    };
    if path.is_empty() || is_no_file(rt, path) {
        return Err(file_fault(alloc, name));
    }
    match File::create(rt, temporary.as_str()) {
        Ok(file) => Ok(Replacement {
            name,
            path,
            temporary,
            file,
        }),
        Err(_) => Err(file_fault(alloc, name)),
    }
}

// Writes octets to a file, as far as to its device.
fn write_through<F: OpenFile + Write>(file: &mut F, octets: &[u8]) -> io::Result<()> {
    file.write_all(octets)?;
    file.flush()?;
    file.sync_all()
}

/// Writes these octets, and gives the file the other's name. If that fails, the file is removed, and the other stays as it was. A fault names
/// the other file as it was given.
pub fn finish_replacement<'n, R: Files + AllocGlobal>(
    rt: &R,
    replacement: Replacement<'n, R::File>,
    octets: Vec<u8>,
) -> Result<Replaced<'n>, ToolFault>
    ensures name { IfOk result (λ replaced. replaced_name replaced ≡ replacement_name replacement.entry) }
    ensures octets { IfOk result (λ replaced. replaced_octets replaced ≡ octets.items) }
    ensures refused { IfErr result (IsFileFault (replacement_name replacement.entry)) }
{
    let Replacement {
        name,
        path,
        temporary,
        mut file,
    } = replacement;
    let done = match write_through(&mut file, octets.as_slice()) {
        Ok(()) => fs::rename(rt, temporary.as_str(), path),
        Err(error) => Err(error),
    };
    if done.is_ok() {
        return Ok(Replaced { name, octets });
    }
    let _ = fs::remove_file(rt, temporary.as_str());
    Err(file_fault(rt.alloc(), name))
}

/// Removes the file again: there is nothing to write to it.
pub fn abandon_replacement<R: Files>(rt: &R, replacement: Replacement<'_, R::File>) {
    let _ = fs::remove_file(rt, replacement.temporary.as_str());
}

/// The octets of a file, at most 1,048,576. A fault names the file as it was given.
pub fn read_file<R: Files + AllocGlobal>(rt: &R, name: &Octets) -> Result<Vec<u8>, ToolFault>
    ensures named { IfErr result (IsFaultOf name.now) }
    ensures short { IfOk result (λ octets. vec_len octets ≤ most_octets) }
{
    let alloc = rt.alloc();
    let file = open(rt, name)?;
    match read_short(alloc, file) {
        Ok(Some(octets)) => Ok(octets),
        Ok(None) => match copy_of(alloc, name) {
            Some(name) => Err(ToolFault::TooLong(name)),
            None => Err(ToolFault::Run(RunFault::NoMemory)),
        },
        Err(error) if error.kind() == ErrorKind::OutOfMemory => {
            Err(ToolFault::Run(RunFault::NoMemory))
        }
        Err(_) => Err(file_fault(alloc, name)),
    }
}
