//! What the name of a file stands for.

ghost use Rattle.std.specs.Prelude.{◌≡◌, ℕ, List, IfOk};
ghost use Rattle.std.specs.List.{list_any};
ghost use Rattle.tm_file_identity.specs.FileIdentity.{IsOther, is_node, is_same};

use crate::links::{end_of_links, folder_of};
use std::alloc::{AllocError, Global};
use std::fs::{self, Metadata, OpenFile};
use std::os::unix::fs::MetadataExt;
use std::rt::Files;

/// A file or a folder that is there: the number of its device, and its own number on that.
#[derive(Clone, Copy)]
pub struct Node {
    pub device: u64,
    pub number: u64,
}

impl Node {
    // Both are of one file or folder.
    fn is_node(self, other: Node) -> bool
        ensures { result ≡ is_node self other }
    {
        self.device == other.device && self.number == other.number
    }
}

/// What a name stands for.
#[derive(Clone, Copy)]
pub enum FileKind {
    /// A regular file that is there, whatever other names it has.
    File,
    /// No file yet: one of this name would be made in a folder.
    Unmade,
    /// What no run destroys by writing to it, such as a device, a pipe or a folder; or what can't be told.
    Other,
}

/// The identity of the file that a name stands for.
#[derive(Drop)]
pub struct FileIdentity {
    kind: FileKind,
    // That of the file; for one that is not there yet, its folder's.
    node: Node,
    // The name in that folder.
    name: String,
}

impl FileIdentity {
    /// The identity of nothing, which is never the same as another.
    pub fn other(alloc: Global) -> FileIdentity
        ensures { IsOther result }
    {
        FileIdentity {
            kind: FileKind::Other,
            node: Node {
                device: 0,
                number: 0,
            },
            name: String::new(alloc),
        }
    }

    /// Both are the same file, or would be.
    pub fn is_same(&self, other: &FileIdentity) -> bool
        ensures { result ≡ is_same self.now other.now }
    {
        match (self.kind, other.kind) {
            (FileKind::File, FileKind::File) => self.node.is_node(other.node),
            (FileKind::Unmade, FileKind::Unmade) => {
                self.node.is_node(other.node) && self.name.as_bytes() == other.name.as_bytes()
            }
            _ => false,
        }
    }
}

/// Whether the identity is one of these.
pub fn is_any(identity: &FileIdentity, others: &[FileIdentity]) -> bool
    ensures { result ≡ list_any (is_same identity.now) others.now }
{
    others.iter().any(|other| identity.is_same(other))
}

// Tells the device of a file and the number that it has there: the system's, and for proofs any whatever.
trait Numbered {
    // The file is on this device.
    ghost device: { Self → ℕ → Type 0 };

    // It has this number there.
    ghost number: { Self → ℕ → Type 0 };

    // The device's own number.
    fn device(&self) -> u64
        ensures { device self.now result };

    fn number(&self) -> u64
        ensures { number self.now result };
}

// What the system says of a file has no place in a contract: so it may be on any device, under any number.
impl Numbered for Metadata {
    ghost device = { λ _ _. Unit {0} };

    ghost number = { λ _ _. Unit {0} };

    fn device(&self) -> u64 {
        self.dev()
    }

    fn number(&self) -> u64 {
        self.ino()
    }
}

// The device of a file, and its number there.
fn node_of<F: Numbered>(file: &F) -> Node
    ensures device { F.device file.now result.device }
    ensures number { F.number file.now result.number }
{
    Node {
        device: file.device(),
        number: file.number(),
    }
}

// The identity of a file that is not there.
fn identity_of_missing<R: Files + AllocGlobal>(
    rt: &R,
    name: &str,
) -> Result<FileIdentity, AllocError> {
    let path = end_of_links(rt, rt.alloc(), name)?;
    let (Some(folder), Some(last)) = (folder_of(&path), path.file_name()) else {
        return Ok(FileIdentity::other(rt.alloc()));
    };
    match fs::metadata(rt, folder) {
        Ok(metadata) => Ok(FileIdentity {
            kind: FileKind::Unmade,
            node: node_of(&metadata),
            name: String::from_str(rt.alloc(), last)?,
        }),
        Err(_) => Ok(FileIdentity::other(rt.alloc())),
    }
}

// The identity of a file that is there.
fn identity_of_metadata(alloc: Global, metadata: &Metadata) -> FileIdentity {
    if !metadata.is_file() {
        return FileIdentity::other(alloc);
    }
    FileIdentity {
        kind: FileKind::File,
        node: node_of(metadata),
        name: String::new(alloc),
    }
}

/// What a name stands for now, over all links in it. No contract can say what the system finds for a name.
pub fn identity_of<R: Files + AllocGlobal>(rt: &R, name: &str) -> Result<FileIdentity, AllocError> {
    match fs::metadata(rt, name) {
        Ok(metadata) => Ok(identity_of_metadata(rt.alloc(), &metadata)),
        Err(_) => identity_of_missing(rt, name),
    }
}

/// The identity of a file that is open.
pub fn identity_of_file<F: OpenFile>(alloc: Global, file: &F) -> FileIdentity {
    match file.metadata() {
        Ok(metadata) => identity_of_metadata(alloc, &metadata),
        Err(_) => FileIdentity::other(alloc),
    }
}

/// Says what names stand for: the system's files, and in proofs anything.
pub trait Namespace {
    ghost use Rattle.tm_file_identity.specs.declared.identity.FileIdentity.{FileIdentity};

    /// The name may stand for this file.
    ghost stands_for: { Self → List ℕ → FileIdentity → Type 0 };

    /// What a name stands for now.
    fn find(&self, name: &str) -> Result<FileIdentity, AllocError>
        ensures { IfOk result (stands_for self.now name.now) };
}

// What the system says of a name has no place in a contract: so the names of files may stand for any file.
impl<R: Files + AllocGlobal> Namespace for R {
    ghost stands_for = { λ _ _ _. Unit {0} };

    fn find(&self, name: &str) -> Result<FileIdentity, AllocError> {
        identity_of(self, name)
    }
}
