//! Why a file can't be opened, made, read or written, or holds no good frame.

ghost use Rattle.std.specs.Prelude.{◌≡◌, true, is_some, IfErr};

use crate::explanation::EndedRun;
use crate::phrases::{Said, Untold, phrase, text_of};
use std::alloc::{AllocError, Global};
use std::fs::{self, File, OpenOptions};
use std::io::{self, ErrorKind, Read};
use std::rt::Files;
use tm_arguments::Plan;
use tm_bits::Octets;
use tm_file_identity::{Place, identity_of};
use tm_files::{INPUT_NAME, find_clash, identify_files, name_at, read_file};

// The system's numbers of three errors: a file isn't open, there is no such device, and a file is a folder.
const CLOSED: i32 = 9;

const DEVICE: i32 = 19;

const FOLDER: i32 = 21;

// The file of this path is a regular one.
fn is_regular<R: Files>(rt: &R, path: &str) -> bool {
    fs::metadata(rt, path).is_ok_and(|metadata| metadata.is_file())
}

// It is a folder.
fn is_folder<R: Files>(rt: &R, path: &str) -> bool {
    fs::metadata(rt, path).is_ok_and(|metadata| metadata.is_dir())
}

// It is a pipe or a device.
fn is_device<R: Files>(rt: &R, path: &str) -> bool {
    fs::metadata(rt, path).is_ok_and(|metadata| !metadata.is_file() && !metadata.is_dir())
}

// The system refuses by this error to write to the file of this path. A pipe or a device isn't asked.
fn is_refused<R: Files>(rt: &R, path: &str, number: i32) -> bool {
    if !is_regular(rt, path) && !is_folder(rt, path) {
        return false;
    }
    let opened = OpenOptions::new().append(true).open(rt, path);
    opened.is_err_and(|error| error.raw_os_error() == Some(number))
}

// What a line calls a file of packets.
fn packets_phrase(alloc: Global, name: &str) -> Result<String, AllocError> {
    format!(in alloc; "a file of packets {name}")
}

// What is missing: a file that is read, or the folder of another.
fn missing(place: Option<Place>, file: &str) -> &'static str {
    match (place, file) {
        (_, "the recording -") => "no such file; leave RECORDING out to read standard input",
        (Some(Place::Settings | Place::Definition | Place::Resumed | Place::Recording), _) => {
            "no such file; see that the name and the folder are right"
        }
        _ => "no such folder; make it, or name another",
    }
}

/// Why a call failed, by the system's error: it was for the file or the stream at a place, which a line calls so.
pub(crate) fn error_text(alloc: Global, place: Option<Place>, file: &str, number: i32) -> Said
    ensures { IfErr result (λ e. e ≡ Untold.NoMemory) }
{
    let error = io::Error::from_raw_os_error(number);
    let what = match error.kind() {
        _ if number == CLOSED => "closed; open it, or name a file",
        _ if number == DEVICE => "a pipe or a device; name a file",
        ErrorKind::BrokenPipe => "the program that reads it has ended; see why",
        ErrorKind::NotFound => missing(place, file),
        ErrorKind::IsADirectory if place.is_some() => "a folder; name a file",
        ErrorKind::PermissionDenied => "no permission; see with ls -l who may do it",
        _ => return Ok(format!(in alloc; "{file}: {error}; mend this, or name another")?),
    };
    Ok(format!(in alloc; "{file}: {what}")?)
}

impl<R: Files + AllocGlobal> EndedRun<'_, R> {
    /// The octets of the file at a place as they are now, if it is a regular one, isn't too long, and can be read.
    pub(crate) fn octets_at(&self, place: Place) -> Result<Vec<u8>, Untold> {
        match name_at(&self.plan, place) {
            Some(name) if is_regular(self.rt, text_of(name.as_slice())) => {
                read_file(self.rt, name).map_err(|_| Untold::Unknown)
            }
            _ => Err(Untold::Unknown),
        }
    }

    // By places, which file would be written over which. In `split` the first may be a file of packets, of this name: it has no place.
    fn clashing_places(&self, name: &str) -> Result<(Option<Place>, Place), Untold> {
        let (alloc, plan) = (self.rt.alloc(), &self.plan);
        let Ok(identities) = identify_files(self.rt, plan) else {
            return Err(Untold::NoMemory);
        };
        match find_clash(alloc, plan, &identities) {
            Ok(Some(clash)) => Ok((Some(clash.written), clash.over)),
            Ok(None) if plan.dir.is_some() => {
                let packets = identity_of(self.rt, name)?;
                let same = identities.find(&packets, &Place::OTHERS_OF_PACKETS);
                Ok((None, same.ok_or(Untold::Unknown)?))
            }
            Ok(None) => Err(Untold::Unknown),
            Err(_) => Err(Untold::NoMemory),
        }
    }

    // Which file would be written over which.
    fn clash_text(&self, name: &str) -> Said {
        let (alloc, plan) = (self.rt.alloc(), &self.plan);
        let (written, over) = self.clashing_places(name)?;
        let over = phrase(alloc, plan, Some(over))?;
        let file = match written {
            Some(_) => phrase(alloc, plan, written)?,
            None => packets_phrase(alloc, name)?,
        };
        Ok(format!(in alloc; "{file} would be written over {over}; name another file")?)
    }

    /// Why the file of this name failed, or standard output, as what is at a place. Without an error of the system it
    /// would be written over another file, is a folder, a pipe or a device, or is closed.
    pub(crate) fn file_text(&self, place: Option<Place>, name: &str) -> Said
        ensures { is_some self.now.number ≡ true → IfErr result (λ e. e ≡ Untold.NoMemory) }
    {
        let number = match self.number {
            Some(number) => number,
            None => match self.clash_text(name) {
                Err(Untold::Unknown) if is_folder(self.rt, name) => FOLDER,
                Err(Untold::Unknown) if place == Some(Place::Output) => CLOSED,
                Err(Untold::Unknown) if is_device(self.rt, name) => DEVICE,
                text => return text,
            },
        };
        let place = match place {
            Some(Place::Checkpoint) if self.number.is_some() => Some(Place::TemporaryCheckpoint),
            place => place,
        };
        let (alloc, file) = (self.rt.alloc(), phrase(self.rt.alloc(), &self.plan, place)?);
        error_text(alloc, place, file.as_str(), number)
    }

    /// Why packets can't be written to a folder: it is none, or the system refuses one of the 2048 files in it, or all.
    pub(crate) fn folder_text(&self, file: &str, folder: &Octets) -> Said
        ensures { is_some self.now.number ≡ true → IfErr result (λ e. e ≡ Untold.NoMemory) }
    {
        let (alloc, folder) = (self.rt.alloc(), text_of(folder.as_slice()));
        let Some(number) = self.number else {
            let what = match fs::metadata(self.rt, folder) {
                Ok(metadata) if metadata.is_dir() => return Err(Untold::Unknown),
                Ok(_) => "not a folder; name one that is there",
                Err(_) => missing(None, file),
            };
            return Ok(format!(in alloc; "{file}: {what}")?);
        };
        for application in 0..2048 {
            let name = tm_split_files::name_in(alloc, folder, application)?;
            if is_refused(self.rt, name.as_str(), number) {
                let file = packets_phrase(alloc, name.as_str())?;
                return error_text(alloc, None, file.as_str(), number);
            }
        }
        error_text(alloc, None, file, number)
    }
}

/// By what the recording of a plan is packed, as its first octets say, if it is a regular file.
pub(crate) fn packed_text<R: Files + AllocGlobal>(rt: &R, plan: &Plan) -> Said {
    let path = match &plan.recording {
        Some(name) => text_of(name.as_slice()),
        None => INPUT_NAME,
    };
    let mut octets = [0u8; 4];
    if is_regular(rt, path)
        && let Ok(mut recording) = File::open(rt, path)
    {
        let _ = recording.read_exact(&mut octets);
    }
    let packer = match octets {
        [0x1F, 0x8B, 0x08, _] => "gzip",
        [0x28, 0xB5, 0x2F, 0xFD] => "zstd",
        _ => return Err(Untold::Unknown),
    };
    let alloc = rt.alloc();
    let file = phrase(alloc, plan, Some(Place::Recording))?;
    Ok(format!(in alloc; "{file}: packed by {packer}; unpack it first")?)
}
