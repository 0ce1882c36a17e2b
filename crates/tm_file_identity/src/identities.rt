//! The files of a run, and which of them clash.

ghost use Rattle.std.specs.Prelude.{◌≡◌, Some, find, is_some};
ghost use Rattle.tm_file_identity.specs.FileIdentities.{clash_at, has, identity_at, is_at, others_of, others_of_packets};

use crate::identity::FileIdentity;
use Place::{
    Checkpoint, Definition, Errors, Faults, Output, Recording, Report, Resumed, Settings,
    TemporaryCheckpoint,
};
use std::alloc::Global;
use std::array;

/// What a file or a stream is to a run.
#[derive(Clone, Copy, Debug, PartialEq, Eq)]
pub enum Place {
    Recording,
    Settings,
    Definition,
    /// Standard output and standard error, where the run writes to them.
    Output,
    Errors,
    /// The checkpoint to go on from.
    Resumed,
    Report,
    Checkpoint,
    /// The file beside the checkpoint, which takes its name.
    TemporaryCheckpoint,
    /// Standard error in any case: the line of a fault goes there.
    Faults,
}

impl Place {
    /// All places, in the order of their numbers.
    pub const ALL: [Place; 10] = [
        Recording,
        Settings,
        Definition,
        Output,
        Errors,
        Resumed,
        Report,
        Checkpoint,
        TemporaryCheckpoint,
        Faults,
    ];

    /// The places of the files over which no file of packets must be written: all that the run reads or writes.
    pub const OTHERS_OF_PACKETS: [Place; 9] = [
        Recording,
        Settings,
        Definition,
        Output,
        Errors,
        Resumed,
        Report,
        Checkpoint,
        TemporaryCheckpoint,
    ];

    // Those of a stream: what is read.
    const OTHERS_OF_STREAM: [Place; 4] = [Recording, Settings, Definition, Resumed];

    // Those of the checkpoint. It may be the one to go on from, which is read whole before; that it is not the report is said of the report.
    const OTHERS_OF_CHECKPOINT: [Place; 5] = [Recording, Settings, Definition, Output, Errors];

    const OTHERS_OF_TEMPORARY: [Place; 8] = [
        Recording, Settings, Definition, Output, Errors, Resumed, Report, Checkpoint,
    ];

    const OTHERS_OF_REPORT: [Place; 7] = [
        Recording, Settings, Definition, Output, Errors, Resumed, Checkpoint,
    ];

    /// The places of the files over which the file at this place must not be written, in the order in which they are told.
    pub fn others(self) -> &'static [Place]
        ensures { result.now ≡ others_of self }
    {
        match self {
            Checkpoint => &Place::OTHERS_OF_CHECKPOINT,
            TemporaryCheckpoint => &Place::OTHERS_OF_TEMPORARY,
            Report => &Place::OTHERS_OF_REPORT,
            Output | Faults => &Place::OTHERS_OF_STREAM,
            Recording | Settings | Definition | Resumed | Errors => &[],
        }
    }
}

/// What the names of a run's files stand for: `FileIdentity::other` where the run has no such file.
#[derive(Drop)]
pub struct FileIdentities {
    /// One for each place, in the order of `Place::ALL`.
    pub identities: [FileIdentity; 10],
}

impl FileIdentities {
    ghost use Rattle.std.specs.Prelude.{set, IsSomeAnd};
    ghost use Rattle.tm_file_identity.specs.FileIdentity.{IsOther};
    ghost use Rattle.tm_file_identity.specs.FileIdentities.{place_number};

    /// Those of a run without files.
    pub fn none(alloc: Global) -> FileIdentities
        ensures { (place : Place) → IsSomeAnd (identity_at result place) IsOther }
    {
        FileIdentities {
            identities: array::from_fn(|_| FileIdentity::other(alloc)),
        }
    }

    /// Sets the identity of the file at a place.
    pub fn set(&mut self, place: Place, identity: FileIdentity)
        ensures { self.new.identities ≡ set self.old.identities (place_number place) identity }
    {
        self.identities[place as usize] = identity;
    }

    /// The identity of the file at a place.
    pub fn at(&self, place: Place) -> &FileIdentity
        ensures { identity_at self.now place ≡ Some result.now }
    {
        &self.identities[place as usize]
    }

    /// The first of some places whose file has this identity.
    pub fn find(&self, identity: &FileIdentity, places: &[Place]) -> Option<Place>
        ensures { result ≡ find (is_at self.now identity.now) places.now }
    {
        places
            .iter()
            .copied()
            .find(|place| identity.is_same(self.at(*place)))
    }

    /// The place of the first file over which the file at a place would be written, by what their names stand for.
    pub fn find_clash(&self, place: Place) -> Option<Place>
        ensures { result ≡ clash_at self.now place }
    {
        self.find(self.at(place), place.others())
    }

    /// Whether the identity is that of one of the run's files, so that no file of packets may have it.
    pub fn has(&self, identity: &FileIdentity) -> bool
        ensures { result ≡ has self.now identity.now }
    {
        self.find(identity, &Place::OTHERS_OF_PACKETS).is_some()
    }
}
