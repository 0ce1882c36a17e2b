//! What a run that ended has found, and the status that says so.

ghost use Rattle.std.specs.Prelude.{◌≡◌, ◌||◌, nat_lt, false};
ghost use Rattle.tm_program.specs.Statuses.{done_status, found_good_frame, found_losses};

use tm_files::Replaced;
use tm_tool::{CountedRun, Listed, Summed, Totals};

/// What a run that is done has found of its recording.
#[derive(Clone, Copy, Debug, PartialEq, Eq)]
pub enum Found {
    /// A list of frames: its records, and how many are good frames.
    Frames(Listed),
    /// A summary: what its numbers tell at once.
    Summary(Summed),
    /// A job: the records that it took, and what it gave and lost.
    Packets { records: u32, totals: Totals },
}

/// What came of a run that is done.
#[derive(Clone, Copy, Debug, PartialEq, Eq)]
pub struct ProgramOutcome {
    /// What it found.
    pub found: Found,
    /// The status says what was lost.
    pub strict: bool,
    /// The report went to standard error.
    pub reports_to_errors: bool,
    /// The settings choose all channels.
    pub has_all_channels: bool,
}

impl ProgramOutcome {
    // It had a good frame, of a chosen channel if it is no list.
    fn has_good_frame(self) -> bool
        ensures { result ≡ found_good_frame self.found }
    {
        match self.found {
            Found::Frames(listed) => listed.good > 0,
            Found::Summary(summed) => summed.has_good_frame,
            Found::Packets { totals, .. } => totals.good > 0,
        }
    }

    // Something was lost. A list tells it by its lines alone.
    fn has_losses(self) -> bool
        ensures { result ≡ found_losses self.found }
    {
        match self.found {
            Found::Frames(_) => false,
            Found::Summary(summed) => summed.has_losses,
            Found::Packets { totals, .. } => totals.has_losses,
        }
    }

    /// The status of the run: 0, or if it is to say what was lost, 5 without a good frame of a chosen channel, and else 4 with losses.
    pub fn status(self) -> u8
        ensures { result ≡ done_status self.strict (found_good_frame self.found) (found_losses self.found) }
    {
        if self.strict && !self.has_good_frame() {
            5
        } else if self.strict && self.has_losses() {
            4
        } else {
            0
        }
    }
}

/// What the run of a plan did. A job says what it has done, and which file took its checkpoint, where the plan has one.
#[derive(Drop)]
pub(crate) struct Finished<'p> {
    pub(crate) done: Option<CountedRun>,
    pub(crate) replaced: Option<Replaced<'p>>,
    pub(crate) found: Found,
}

impl Finished<'_> {
    /// What the run has found.
    pub(crate) fn into_found(self) -> Found
        ensures { result ≡ self.entry.found }
    {
        self.found
    }
}
