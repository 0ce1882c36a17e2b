//! Where the links at the end of a path lead to.

ghost use Rattle.std.specs.IoError.{error_kind};
ghost use Rattle.std.specs.Path.{path_buf_bytes, path_bytes};
ghost use Rattle.std.specs.Prelude.{◌≡◌, ◌≢◌, ℕ, List, Ok, Some, None, option_map, IfErr, IfOk, IsErr, MatchOption};
ghost use Rattle.tm_file_identity.specs.Links.{IsEnd, folder_of, folder_named, path_behind};

use std::alloc::{AllocError, Global};
use std::io::{self, ErrorKind};
use std::path::{Path, PathBuf};
use std::rt::Files;

// At most this many links are followed, as the system does.
const MOST_LINKS: usize = 40;

// Tells where links lead: the system's, and for proofs any links whatever.
pub(crate) trait Links {
    // The link of this path has this target.
    ghost leads: { Self → List ℕ → List ℕ → Type 0 };

    // No link of this path is known.
    ghost ends: { Self → List ℕ → Type 0 };

    // The target of the link of this path, where there is one.
    fn target(&self, alloc: Global, path: &PathBuf) -> Result<Option<PathBuf>, AllocError>
        ensures { IfOk result (λ found. MatchOption found (ends self.now (path_buf_bytes path.now))
            (λ target. leads self.now (path_buf_bytes path.now) (path_buf_bytes target))) };
}

// The target that the system answered for a path. Its error says that no link is there, unless memory ran out.
fn target_of(answer: io::Result<PathBuf>) -> Result<Option<PathBuf>, AllocError>
    ensures link { IfOk answer (λ target. result ≡ Ok (Some target)) }
    ensures none { IfErr answer (λ error. error_kind error ≢ ErrorKind.OutOfMemory → result ≡ Ok None) }
    ensures refused { IfErr answer (λ error. error_kind error ≡ ErrorKind.OutOfMemory → IsErr result) }
{
    match answer {
        Ok(target) => Ok(Some(target)),
        Err(error) if error.kind() == ErrorKind::OutOfMemory => Err(AllocError),
        Err(_) => Ok(None),
    }
}

// What the system says of a link has no place in a contract: so its links may lead anywhere.
impl<R: Files + AllocGlobal> Links for R {
    ghost leads = { λ _ _ _. Unit {0} };

    ghost ends = { λ _ _. Unit {0} };

    fn target(&self, alloc: Global, path: &PathBuf) -> Result<Option<PathBuf>, AllocError> {
        target_of(self.read_link(alloc, path.as_str()))
    }
}

// The folder of this name. An empty name is that of the process's folder.
fn folder_named<'p>(name: Path<'p>) -> Path<'p>
    ensures { path_bytes result ≡ folder_named (path_bytes name.entry) }
{
    if name.as_str().is_empty() {
        Path::new(".")
    } else {
        name
    }
}

// The folder in which a path's file is.
pub(crate) fn folder_of<'p>(path: &'p PathBuf) -> Option<Path<'p>>
    ensures { option_map path_bytes result ≡ folder_of (path_buf_bytes path.now) }
{
    match path.parent() {
        Some(name) => Some(folder_named(name)),
        None => None,
    }
}

// What the link of this path leads to, which has this target; none where the path has no folder.
fn path_behind(
    alloc: Global,
    path: &PathBuf,
    target: &PathBuf,
) -> Result<Option<PathBuf>, AllocError>
    ensures { IfOk result (λ found. option_map path_buf_bytes found
        ≡ path_behind (path_buf_bytes path.now) (path_buf_bytes target.now)) }
{
    match folder_of(path) {
        Some(folder) => Ok(Some(folder.join(alloc, target.as_path())?)),
        None => Ok(None),
    }
}

// The path that the links at the end of a path lead to, whether a file is there or not.
pub(crate) fn end_of_links<L: Links>(
    links: &L,
    alloc: Global,
    name: &str,
) -> Result<PathBuf, AllocError>
    ensures { IfOk result (λ end. IsEnd (L.leads links.now) (L.ends links.now) name.now (path_buf_bytes end)) }
{
    let mut path = PathBuf::from_str(alloc, name)?;
    for followed in 0..MOST_LINKS {
        let Some(target) = links.target(alloc, &path)? else {
            return Ok(path);
        };
        let Some(next) = path_behind(alloc, &path, &target)? else {
            return Ok(path);
        };
        path = next;
    }
    Ok(path)
}
