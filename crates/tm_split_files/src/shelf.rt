//! A file for each application.

ghost use Rattle.std.specs.Prelude.{◌≡◌, ◌≢◌, ◌<◌, ◌+◌, ◌⊎◌, ℕ, None, Some, true, false, length, slice_get, replicate, Err, IfErr, IfOk, IfSome, MatchResult, OnErr, OnOk};
ghost use Rattle.tm_devices.specs.Devices.{CountsFailures, Puts, PutsPrefix, PutsNone};
ghost use Rattle.tm_split_files.specs.ShelfFaults.{is_out_of_memory};
ghost use Rattle.tm_split_files.specs.Shelves.{HoldsNone, HoldsSame, IsAdded, IsEmptied, IsKeptOrEmptied, IsRefused};

use crate::files::{Folder, HeldFiles, ShelfFault};
use crate::refusals::{Refusals, RefusedPut};
use std::alloc::AllocError;
use std::marker::Model;
use std::rt::Files;
use tm_devices::Shelf;
use tm_file_identity::FileIdentities;

/// The files `apid-NNNN.pkt` of a folder. A file is made at its application's first packet, or appended to where the run resumes
/// a job. Octets are held in memory and written from time to time, and files stay open between writes.
#[derive(Drop)]
pub struct FileShelf<'a, R: Files> {
    files: HeldFiles<'a, R>,
    refusals: Refusals,
}

impl<'a, R: Files> Model for FileShelf<'a, R> {
    ghost use Rattle.std.specs.Prelude.{vec_len};
    ghost use Rattle.tm_split_files.specs.Shelves.{ShelfState, buffer_octets};

    ghost Value = { ShelfState };

    ghost view = { λ s. record {
      folder = s.files.folder.dir.now;
      goes_on = s.files.folder.goes_on;
      begun = s.files.begun.items;
      made = vec_len s.files.made;
      held = buffer_octets s.files.held.items;
      octets = s.files.octets;
      refused = s.refusals.count;
      last_refused = s.refusals.last;
      unwritten = s.files.unwritten;
      identities = s.files.folder.identities.now;
    } };
}

impl<'a, R: Files + AllocGlobal> FileShelf<'a, R> {
    /// Files in this folder, none begun. Files that are there are appended to if the run resumes a job, and begin empty
    /// otherwise. A file is not begun if it is another of the run's files, or one that was made by another name.
    #[tactic(auto, using(crate::proofs::ShelfLemmas::none_seen))]
    pub fn new(
        rt: &'a R,
        dir: &'a str,
        goes_on: bool,
        identities: &'a FileIdentities,
    ) -> Result<Self, AllocError>
        ensures folder { IfOk result (λ s. (s.folder ≡ dir.entry.now) × (s.goes_on ≡ goes_on)
            × (s.identities ≡ identities.entry.now)) }
        ensures counts { IfOk result (λ s. (s.octets ≡ 0) × (s.refused ≡ 0) × (s.last_refused ≡ None) × (s.unwritten ≡ None)) }
        ensures begun { IfOk result (λ s. (s.begun ≡ replicate 2048 false) × (s.made ≡ 0)) }
        ensures held { IfOk result (λ s. HoldsNone s.held) }
    {
        let files = HeldFiles::new(Folder {
            rt,
            alloc: rt.alloc(),
            dir,
            goes_on,
            identities,
        })?;
        Ok(FileShelf {
            files,
            refusals: Refusals::none(),
        })
    }

    /// The last put that was refused, if there is one.
    pub fn last_refused(&self) -> Option<RefusedPut>
        ensures { result ≡ self.now.last_refused }
    {
        self.refusals.last
    }

    /// The name of the files' folder.
    pub fn dir(&self) -> &'a str
        ensures { result.now ≡ self.now.folder }
    {
        self.files.dir()
    }

    /// Writes all that is held. If a file can't be written, the others still are. A fault of `write_out` that no put has told is told first.
    #[tactic(auto, using(crate::proofs::ShelfLemmas::none_of_call, crate::proofs::ShelfLemmas::kept_seen))]
    pub fn write_held(&mut self) -> Result<(), ShelfFault>
        ensures held { OnOk result (HoldsNone self.new.held) }
        ensures told { IfSome self.old.unwritten (λ fault. result ≡ Err fault) }
        ensures left { (application : ℕ) → IsKeptOrEmptied self.old.held self.new.held application }
        ensures same { self.new ≡ record self.old { held = self.new.held; octets = 0; unwritten = None } }
    {
        self.files.write_held()
    }
}

impl<R: Files + AllocGlobal> Shelf for FileShelf<'_, R> {
    type Fault = ShelfFault;

    ghost refusals = { λ s. s.refused };

    // `whole` and `prefix` say nothing, since files show no contents. The clauses after them speak of what is held before it is written.
    #[inline(always)]
    #[tactic(auto, using(crate::proofs::ShelfLemmas::after_a_put))]
    fn put(&mut self, application: u16, octets: &[u8]) -> Result<(), ShelfFault>
        ensures whole { OnOk result (Puts None None application octets.now) }
        ensures prefix { OnErr result (PutsPrefix None None application octets.now) }
        ensures counts { CountsFailures self.old.refused self.new.refused result }
        ensures last { MatchResult result (λ _. self.new.last_refused ≡ self.old.last_refused)
            (λ fault. self.new.last_refused ≡ Some (record { application = application; fault = fault })) }
        ensures begun { OnOk result (slice_get self.new.begun application ≡ Some true) }
        ensures others { (other : ℕ) → other ≢ application → slice_get self.new.begun other ≡ slice_get self.old.begun other }
        ensures held { OnOk result (((IsAdded self.old.held self.new.held application octets.now
            ⊎ IsEmptied self.old.held self.new.held application)
            × (self.new.octets ≡ self.old.octets + length octets.now)) ⊎ HoldsNone self.new.held) }
        ensures made { OnOk result (slice_get self.old.begun application ≡ Some false → self.new.made ≡ self.old.made + 1) }
        ensures left { OnErr result (IsRefused self.old.held self.new.held application octets.now) }
        ensures kept { IfErr result (λ fault. is_out_of_memory fault ≡ true → HoldsSame self.old.held self.new.held
            ⊎ (self.new.octets ≡ 0)) }
        ensures few { OnOk result (self.new.octets < 8388608) }
        ensures told { IfSome self.old.unwritten (λ fault. application < 2048 → result ≡ Err fault) }
        ensures same { (self.new.folder ≡ self.old.folder) × (self.new.goes_on ≡ self.old.goes_on)
            × (self.new.identities ≡ self.old.identities) }
    {
        let put = self.files.hold(usize::from(application), octets);
        self.refusals.add(usize::from(application), put);
        put
    }

    // Where a file can't be written, the next put or `write_held` tells it.
    fn write_out(&mut self)
        ensures kept { PutsNone None None }
        ensures refusals { self.new.refused ≡ self.old.refused }
        ensures held { self.new.unwritten ≡ None → HoldsNone self.new.held }
        ensures told { IfSome self.old.unwritten (λ fault. self.new.unwritten ≡ Some fault) }
        ensures left { (application : ℕ) → IsKeptOrEmptied self.old.held self.new.held application }
        ensures same { self.new ≡ record self.old { held = self.new.held; octets = 0; unwritten = self.new.unwritten } }
    {
        if let Err(fault) = self.write_held() {
            self.files.tell_later(fault);
        }
    }
}
