//! Files that stay open between writes.

ghost use Rattle.std.specs.Prelude.{◌≡◌, ◌<◌, ◌≤◌, ◌+◌, ◌⊎◌, ◌++◌, ◌∷◌, [], min, vec_capacity, vec_len};
ghost use Rattle.tm_split_files.specs.code.OpenFiles.{place_among};

/// So many files stay open: a quarter of the 1,024 that a process may have by default.
pub const MOST_OPEN: usize = 256;

/// A file that is open to be appended to.
#[derive(Drop)]
pub struct OpenFile<F> {
    /// The application whose file it is.
    pub application: usize,
    pub file: F,
}

/// Where the file of an application is among these, if it is open.
pub fn place_of<F>(application: usize, opened: &[OpenFile<F>]) -> Option<usize>
    ensures { result ≡ place_among application opened.now }
{
    opened
        .iter()
        .position(|other| other.application == application)
}

/// Keeps the file of an application open behind these, or closes it where they are enough.
pub fn keep_open<F: Drop>(opened: &mut Vec<OpenFile<F>>, application: usize, file: F)
    ensures kept { (opened.new.items ≡ opened.old.items ++ (record { application = application; file = file } ∷ []))
        ⊎ (opened.new.items ≡ opened.old.items) }
    ensures few { vec_len opened.old ≤ 256 → vec_len opened.new ≤ 256 }
    ensures room { vec_len opened.old < min 256 (vec_capacity opened.old) → vec_len opened.new ≡ vec_len opened.old + 1 }
{
    if opened.len() < MOST_OPEN {
        let _ = opened.push(OpenFile { application, file });
    }
}
