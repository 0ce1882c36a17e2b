//! The files of a folder, and what is held of each before it is written.

ghost use Rattle.std.specs.Io.KnownBytes.{Appends};
ghost use Rattle.std.specs.Prelude.{◌≡◌, ◌≢◌, ◌<◌, ◌+◌, ◌++◌, ◌∷◌, ◌⊎◌, ℕ, [], None, Some, true, false, length, vec_len, slice_get, string_bytes, replicate, Err, IfErr, IfOk, IfSome, OnErr, OnOk};
ghost use Rattle.tm_split_files.specs.code.Buffers.{AreEmpty, AreKept, AreKeptOrEmpty, AreLeft, IsDrained, IsExtended, IsKeptOrEmpty};
ghost use Rattle.tm_split_files.specs.ShelfFaults.{is_out_of_memory};
ghost use Rattle.tm_split_files.specs.Names.{file_in};
ghost use Rattle.tm_split_files.specs.code.Files.{IsClear};
ghost use Rattle.tm_split_files.specs.code.OpenFiles.{IsAppended};

use crate::open_files::{MOST_OPEN, OpenFile, keep_open, place_of};
use std::alloc::{AllocError, Global};
use std::fs::OpenOptions;
use std::io::{self, Write};
use std::rt::Files;
use tm_file_identity::{FileIdentities, FileIdentity, identity_of, identity_of_file, is_any};

// The applications that there can be.
const APPLICATIONS: usize = 2048;

// All that is held is written once it has this many octets.
const MOST_HELD: usize = 8_388_608;

// This many octets of one application are written at once, while they are still in the processor's cache.
const MANY_OF_ONE: usize = 65_536;

/// Why octets don't reach their file.
#[derive(Clone, Copy, Debug, PartialEq, Eq)]
pub enum ShelfFault {
    /// A file can't be made or written.
    NotWritten,
    /// The file is another file of the run.
    Clashes,
    /// Memory ran out.
    NoMemory,
}

/// The name of an application's file in a folder.
pub fn name_in(alloc: Global, dir: &str, application: usize) -> Result<String, AllocError>
    ensures { IfOk result (λ name. string_bytes name ≡ file_in dir.now application) }
{
    format!(in alloc; "{dir}/apid-{application:04}.pkt")
}

// Remembers the identity of a file that was made, after those of the others. It is refused only if memory runs out.
fn remember(made: &mut Vec<FileIdentity>, identity: FileIdentity) -> Result<(), ShelfFault>
    ensures made { OnOk result (made.new.items ≡ made.old.items ++ (identity ∷ [])) }
    ensures count { OnOk result (vec_len made.new ≡ vec_len made.old + 1) }
    ensures unmade { OnErr result (made.new.items ≡ made.old.items) }
    ensures out_of_memory { IfErr result (λ fault. is_out_of_memory fault ≡ true) }
{
    match made.push(identity) {
        Ok(()) => Ok(()),
        Err(_) => Err(ShelfFault::NoMemory),
    }
}

// Holds these octets too where that takes no memory, and gives those that are not held: none or all.
fn hold_in_room<'a>(held: &mut Vec<u8>, octets: &'a [u8]) -> &'a [u8]
    ensures { held.new.items ++ result.now ≡ held.old.items ++ octets.now }
{
    let room = held.capacity().saturating_sub(held.len());
    if octets.len() <= room && held.extend_from_slice(octets).is_ok() {
        return &[];
    }
    octets
}

// Writes what is held to a file, and then these octets, by one call where there is room. None is held any more.
fn write_behind_held<W: Write>(
    file: &mut W,
    held: &mut Vec<u8>,
    octets: &[u8],
) -> Result<(), ShelfFault>
    ensures whole { OnOk result (Appends (W.contents file.old) (W.contents file.new) (held.old.items ++ octets.now)) }
    ensures none { held.new.items ≡ [] }
    ensures refused { IfErr result (λ fault. fault ≡ ShelfFault.NotWritten) }
{
    let left = hold_in_room(held, octets);
    let written = match file.write_all(held.as_slice()) {
        Ok(()) => file.write_all(left),
        Err(error) => Err(error),
    };
    held.clear();
    match written {
        Ok(()) => Ok(()),
        Err(_) => Err(ShelfFault::NotWritten),
    }
}

/// The folder of the files `apid-NNNN.pkt`, and how they are made and written there.
#[derive(Drop)]
pub struct Folder<'a, R> {
    pub rt: &'a R,
    pub alloc: Global,
    pub dir: &'a str,
    /// Files that are there are appended to.
    pub goes_on: bool,
    /// What the names of the run's other files stand for.
    pub identities: &'a FileIdentities,
}

impl<R: Files + AllocGlobal> Folder<'_, R> {
    // The name of an application's file. It is refused only if memory runs out.
    fn name_of(&self, application: usize) -> Result<String, ShelfFault>
        ensures name { IfOk result (λ name. string_bytes name ≡ file_in self.now.dir.now application) }
        ensures out_of_memory { IfErr result (λ fault. is_out_of_memory fault ≡ true) }
    {
        match name_in(self.alloc, self.dir, application) {
            Ok(name) => Ok(name),
            Err(_) => Err(ShelfFault::NoMemory),
        }
    }

    // What the name of a file stands for, unless that is another file of the run, or one of those that were made.
    fn clear(&self, name: &str, made: &[FileIdentity]) -> Result<FileIdentity, ShelfFault>
        ensures clear { IfOk result (IsClear self.now.identities.now made.now) }
        ensures refused { IfErr result (λ fault. fault ≢ ShelfFault.NotWritten) }
    {
        let Ok(identity) = identity_of(self.rt, name) else {
            return Err(ShelfFault::NoMemory);
        };
        if self.identities.has(&identity) || is_any(&identity, made) {
            return Err(ShelfFault::Clashes);
        }
        Ok(identity)
    }

    // Opens the file of this name by these options. If it can't be opened while others are, those are closed and it is
    // tried once more.
    fn open_or_make_room(
        &self,
        options: &OpenOptions,
        name: &str,
        opened: &mut Vec<OpenFile<R::File>>,
    ) -> io::Result<R::File> {
        match options.open(self.rt, name) {
            Err(_) if !opened.is_empty() => {
                opened.clear();
                options.open(self.rt, name)
            }
            tried => tried,
        }
    }

    // Opens the file of this name, which is empty from then on unless the run goes on. It has to be clear.
    fn make(
        &self,
        name: &str,
        made: &[FileIdentity],
        identity: &FileIdentity,
        opened: &mut Vec<OpenFile<R::File>>,
    ) -> io::Result<R::File>
        requires { IsClear self.now.identities.now made.now identity.now }
    {
        let mut options = OpenOptions::new();
        if self.goes_on {
            options.append(true).create(true);
        } else {
            options.write(true).create(true).truncate(true);
        }
        self.open_or_make_room(&options, name, opened)
    }

    // Makes the file of an application, and remembers its identity. It stands apart, since most files were begun.
    #[inline(never)]
    fn begin(
        &self,
        application: usize,
        made: &mut Vec<FileIdentity>,
        opened: &mut Vec<OpenFile<R::File>>,
    ) -> Result<(), ShelfFault>
        ensures made { OnOk result (vec_len made.new ≡ vec_len made.old + 1) }
        ensures unmade { OnErr result (made.new.items ≡ made.old.items) }
    {
        let name = self.name_of(application)?;
        let identity = self.clear(name.as_str(), made.as_slice())?;
        let Ok(file) = self.make(name.as_str(), made.as_slice(), &identity, opened) else {
            return Err(ShelfFault::NotWritten);
        };
        remember(made, identity_of_file(self.alloc, &file))
    }

    // Likewise, unless it was begun.
    #[inline(always)]
    fn begin_once(
        &self,
        application: usize,
        begun: &mut bool,
        made: &mut Vec<FileIdentity>,
        opened: &mut Vec<OpenFile<R::File>>,
    ) -> Result<(), ShelfFault>
        ensures begun { OnOk result (begun.new ≡ true) }
        ensures made { OnOk result (begun.old ≡ false → vec_len made.new ≡ vec_len made.old + 1) }
        ensures before { begun.old ≡ true → made.new.items ≡ made.old.items }
        ensures unmade { OnErr result ((begun.new ≡ begun.old) × (made.new.items ≡ made.old.items)) }
    {
        if !*begun {
            self.begin(application, made, opened)?;
            *begun = true;
        }
        Ok(())
    }

    // Opens the file of an application, to append to it.
    fn open(
        &self,
        application: usize,
        opened: &mut Vec<OpenFile<R::File>>,
    ) -> Result<R::File, ShelfFault> {
        let name = self.name_of(application)?;
        match self.open_or_make_room(OpenOptions::new().append(true), name.as_str(), opened) {
            Ok(file) => Ok(file),
            Err(_) => Err(ShelfFault::NotWritten),
        }
    }

    // Appends what is held of an application to its file, and then these octets. None is held any more. It stands apart,
    // since most octets are held.
    #[inline(never)]
    fn write_one(
        &self,
        application: usize,
        held: &mut Vec<u8>,
        octets: &[u8],
        opened: &mut Vec<OpenFile<R::File>>,
    ) -> Result<(), ShelfFault>
        ensures written { OnOk result (held.new.items ≡ []) }
        ensures appended { OnOk result (IsAppended R.File.contents opened.old.items opened.new.items application
            (held.old.items ++ octets.now)) }
        ensures kept { IfErr result (λ fault. is_out_of_memory fault ≡ true → held.new.items ≡ held.old.items) }
        ensures left { IsKeptOrEmpty held.old.items held.new.items }
    {
        if let Some(place) = place_of(application, opened.as_slice()) {
            return write_behind_held(&mut opened[place].file, held, octets);
        }
        let mut file = self.open(application, opened)?;
        let written = write_behind_held(&mut file, held, octets);
        keep_open(opened, application, file);
        written
    }

    // Writes what is held of an application, if anything is.
    fn write_if_held(
        &self,
        application: usize,
        held: &mut Vec<u8>,
        opened: &mut Vec<OpenFile<R::File>>,
    ) -> Result<(), ShelfFault>
        ensures written { OnOk result (held.new.items ≡ []) }
        ensures left { IsKeptOrEmpty held.old.items held.new.items }
    {
        if held.is_empty() {
            return Ok(());
        }
        self.write_one(application, held, &[], opened)
    }

    // Holds octets of an application after those that are held of it, or writes all of these where they are many.
    #[inline(always)]
    fn add(
        &self,
        application: usize,
        held: &mut Vec<u8>,
        octets: &[u8],
        opened: &mut Vec<OpenFile<R::File>>,
    ) -> Result<(), ShelfFault>
        ensures held { OnOk result ((held.new.items ≡ held.old.items ++ octets.now) ⊎ (held.new.items ≡ [])) }
        ensures kept { IfErr result (λ fault. is_out_of_memory fault ≡ true → held.new.items ≡ held.old.items) }
        ensures left { OnErr result (IsKeptOrEmpty held.old.items held.new.items) }
    {
        if held.len().saturating_add(octets.len()) >= MANY_OF_ONE {
            return self.write_one(application, held, octets, opened);
        }
        match held.extend_from_slice(octets) {
            Ok(()) => Ok(()),
            Err(_) => Err(ShelfFault::NoMemory),
        }
    }

    // Writes what is held of all applications. Where a file can't be written the others still are.
    #[tactic(auto, using(crate::proofs::BufferLemmas::none_so_far, crate::proofs::BufferLemmas::left_so_far))]
    fn write_all_held(
        &self,
        held: &mut [Vec<u8>],
        opened: &mut Vec<OpenFile<R::File>>,
    ) -> Result<(), ShelfFault>
        requires { length held.now ≡ 2048 }
        ensures written { OnOk result (AreEmpty held.new) }
        ensures left { AreKeptOrEmpty held.old held.new }
    {
        let mut done = Ok(());
        for application in 0..APPLICATIONS {
            if let Err(fault) = self.write_if_held(application, &mut held[application], opened) {
                done = Err(fault);
            }
        }
        done
    }
}

// An empty buffer for each application.
#[tactic(auto, using(crate::proofs::BufferLemmas::none_of_next))]
fn empty_buffers(alloc: Global) -> Result<Vec<Vec<u8>>, AllocError>
    ensures count { IfOk result (λ held. vec_len held ≡ 2048) }
    ensures none { IfOk result (λ held. AreEmpty held.items) }
{
    let mut held = Vec::with_capacity(alloc, APPLICATIONS)?;
    for application in 0..APPLICATIONS {
        held.push(Vec::new(alloc))?;
    }
    Ok(held)
}

/// The files of a folder, with what is not written yet. Octets are held in memory and written from time to time.
#[derive(Drop)]
pub struct HeldFiles<'a, R: Files> {
    folder: Folder<'a, R>,
    // For each application what is not written yet, and whether its file was begun.
    held: Vec<Vec<u8>>,
    begun: Vec<bool>,
    // The identities of the files that were made.
    made: Vec<FileIdentity>,
    // The files that stay open.
    opened: Vec<OpenFile<R::File>>,
    octets: usize,
    // Why a file was not written out, until a call has told it.
    unwritten: Option<ShelfFault>,
    ghost all_held: { vec_len held ≡ 2048 },
    ghost all_begun: { vec_len begun ≡ 2048 },
}

impl<'a, R: Files + AllocGlobal> HeldFiles<'a, R> {
    /// Files in this folder, none begun.
    pub fn new(folder: Folder<'a, R>) -> Result<Self, AllocError>
        ensures folder { IfOk result (λ s. s.folder ≡ folder.entry) }
        ensures counts { IfOk result (λ s. (s.octets ≡ 0) × (s.unwritten ≡ None)) }
        ensures begun { IfOk result (λ s. (s.begun.items ≡ replicate 2048 false) × (vec_len s.made ≡ 0)) }
        ensures held { IfOk result (λ s. AreEmpty s.held.items) }
    {
        let alloc = folder.alloc;
        let begun = vec![in alloc; false; APPLICATIONS]?;
        let held = empty_buffers(alloc)?;
        Ok(HeldFiles {
            folder,
            held,
            begun,
            made: Vec::new(alloc),
            opened: Vec::with_capacity(alloc, MOST_OPEN)?,
            octets: 0,
            unwritten: None,
        })
    }

    /// The name of the files' folder.
    pub fn dir(&self) -> &'a str
        ensures { result ≡ self.now.folder.dir }
    {
        self.folder.dir
    }

    /// Writes all that is held. If a file can't be written, the others still are. A fault that is to be told is told first.
    #[inline(never)]
    pub fn write_held(&mut self) -> Result<(), ShelfFault>
        ensures held { OnOk result (AreEmpty self.new.held.items) }
        ensures told { IfSome self.old.unwritten (λ fault. result ≡ Err fault) }
        ensures none { self.new.unwritten ≡ None }
        ensures left { AreKeptOrEmpty self.old.held.items self.new.held.items }
        ensures octets { self.new.octets ≡ 0 }
        ensures begun { self.new.begun ≡ self.old.begun }
        ensures made { self.new.made ≡ self.old.made }
        ensures same { self.new.folder ≡ self.old.folder }
    {
        self.octets = 0;
        let unwritten = self.unwritten.take();
        let held = self.held.as_mut_slice();
        let written = self.folder.write_all_held(held, &mut self.opened);
        match unwritten {
            Some(fault) => Err(fault),
            None => written,
        }
    }

    /// The next call of `hold` or `write_held` tells this fault.
    pub fn tell_later(&mut self, fault: ShelfFault)
        ensures told { self.new.unwritten ≡ Some fault }
        ensures same { (self.new.folder ≡ self.old.folder) × (self.new.held ≡ self.old.held) × (self.new.begun ≡ self.old.begun)
            × (self.new.made ≡ self.old.made) × (self.new.octets ≡ self.old.octets) }
    {
        self.unwritten = Some(fault);
    }

    // Makes the file of an application, unless it was made, and holds octets of it or writes them.
    #[inline(always)]
    fn begin_and_add(&mut self, application: usize, octets: &[u8]) -> Result<(), ShelfFault>
        requires { application < 2048 }
        ensures begun { OnOk result (slice_get self.new.begun.items application ≡ Some true) }
        ensures others { (other : ℕ) → other ≢ application
            → slice_get self.new.begun.items other ≡ slice_get self.old.begun.items other }
        ensures made { OnOk result (slice_get self.old.begun.items application ≡ Some false
            → vec_len self.new.made ≡ vec_len self.old.made + 1) }
        ensures held { OnOk result (IsExtended self.old.held.items self.new.held.items application octets.now
            ⊎ IsDrained self.old.held.items self.new.held.items application) }
        ensures kept { IfErr result (λ fault. is_out_of_memory fault ≡ true → AreKept self.old.held.items self.new.held.items) }
        ensures left { OnErr result (AreKeptOrEmpty self.old.held.items self.new.held.items) }
        ensures same { (self.new.folder ≡ self.old.folder) × (self.new.octets ≡ self.old.octets)
            × (self.new.unwritten ≡ self.old.unwritten) }
    {
        let begun = &mut self.begun[application];
        let opened = &mut self.opened;
        self.folder
            .begin_once(application, begun, &mut self.made, opened)?;
        let held = &mut self.held[application];
        self.folder.add(application, held, octets, &mut self.opened)
    }

    /// Holds octets of an application, or writes them. Its file is made at the first. All that is held is written where much
    /// came since it last was.
    #[inline(always)]
    pub fn hold(&mut self, application: usize, octets: &[u8]) -> Result<(), ShelfFault>
        ensures begun { OnOk result (slice_get self.new.begun.items application ≡ Some true) }
        ensures others { (other : ℕ) → other ≢ application
            → slice_get self.new.begun.items other ≡ slice_get self.old.begun.items other }
        ensures held { OnOk result (((IsExtended self.old.held.items self.new.held.items application octets.now
            ⊎ IsDrained self.old.held.items self.new.held.items application)
            × (self.new.octets ≡ self.old.octets + length octets.now)) ⊎ AreEmpty self.new.held.items) }
        ensures made { OnOk result (slice_get self.old.begun.items application ≡ Some false
            → vec_len self.new.made ≡ vec_len self.old.made + 1) }
        ensures left { OnErr result (AreLeft self.old.held.items self.new.held.items application octets.now) }
        ensures kept { IfErr result (λ fault. is_out_of_memory fault ≡ true → AreKept self.old.held.items self.new.held.items
            ⊎ (self.new.octets ≡ 0)) }
        ensures few { OnOk result (self.new.octets < 8388608) }
        ensures told { IfSome self.old.unwritten (λ fault. application < 2048 → result ≡ Err fault) }
        ensures same { self.new.folder ≡ self.old.folder }
    {
        if application >= APPLICATIONS {
            return Err(ShelfFault::NotWritten);
        }
        if let Some(fault) = self.unwritten {
            self.unwritten = None;
            return Err(fault);
        }
        self.begin_and_add(application, octets)?;
        self.octets = self.octets.saturating_add(octets.len());
        if self.octets < MOST_HELD {
            return Ok(());
        }
        self.write_held()
    }
}
