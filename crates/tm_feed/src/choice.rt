//! Which packets and which rows a job gives.

ghost use Rattle.std.specs.Prelude.{◌≡◌, ◌+◌, ◌-◌, ◌++◌, None, length, replicate, OnOk, OnErr};

use std::alloc::{AllocError, Global};
use std::marker::Model;
use tm_fields::{Definition, Lead, RowFault};

/// There is no application of a number: they have numbers up to 2047.
#[derive(Clone, Copy, Debug, PartialEq, Eq)]
pub struct NoApplication;

/// Why a job takes no definition.
#[derive(Clone, Copy, Debug, PartialEq, Eq)]
pub enum RowsFault {
    /// There is no application of the number: they have numbers up to 2047.
    NoApplication,
    /// There is no memory for it.
    NoMemory,
}

/// What came of a packet's row.
#[derive(Clone, Copy)]
pub(crate) enum Made {
    /// Its application has no definition.
    Nothing,
    /// The row was made, and has so many octets.
    Row(u32),
    /// The packet has fewer than so many bits, which are needed.
    Short(u32),
}

ghost use Rattle.std.specs.Prelude.{IfOk};
ghost use Rattle.tm_feed.specs.Jobs.{all_given, without_rows};
ghost use Rattle.tm_feed.specs.Only.{AreTheseGiven, IsNoApplication};

// The packets of all applications are given.
#[tactic(auto, unfolding(crate::specs::Jobs::all_given))]
fn all_given() -> [bool; 2048]
    ensures { result ≡ all_given }
{
    [true; 2048]
}

// The packets of these applications are given, and of no others.
fn only_these(applications: &[u16]) -> Result<[bool; 2048], NoApplication>
    ensures given { IfOk result (AreTheseGiven applications.now) }
    ensures refused { OnErr result (IsNoApplication applications.now) }
{
    let mut only = [false; 2048];
    for i in 0..applications.len() {
        let application = usize::from(applications[i]);
        if application > 2047 {
            return Err(NoApplication);
        }
        only[application] = true;
    }
    Ok(only)
}

// Adds places without a definition, until there are so many at least.
fn add_places(rows: &mut Vec<Option<Definition>>, count: usize) -> Result<(), AllocError>
    ensures added { OnOk result (rows.new.items
        ≡ rows.old.items ++ replicate (count - length rows.old.items) None) }
    ensures refused { OnErr result (rows.new.items ≡ rows.old.items) }
{
    let missing = count.saturating_sub(rows.len());
    rows.reserve(missing)?;
    for _added in 0..missing {
        match rows.push(None) {
            Ok(()) => {}
            Err(_) => unreachable!(),
        }
    }
    Ok(())
}

/// Which packets and which rows a job gives.
#[derive(Drop)]
pub(crate) struct Choice {
    // For each application whether its packets are given.
    only: [bool; 2048],
    // The definitions, each at the place of its application.
    rows: Vec<Option<Definition>>,
    // How many octets the longest row has of all definitions that were taken.
    longest: u32,
    // The last row, with memory for the longest.
    row: Vec<u8>,
}

impl Model for Choice {
    ghost use Rattle.std.specs.Prelude.{◌≤◌, vec_capacity};
    ghost use Rattle.tm_feed.specs.Choosing.{FitRows};
    ghost use Rattle.tm_feed.specs.code.Choices.{ChoiceState};

    ghost Value = { ChoiceState };

    ghost view = { λ c. record {
      chosen = record { only = c.only; rows = c.rows.items; longest = c.longest };
      row = c.row.items;
    } };

    ghost invariant = { λ c. FitRows (record { only = c.only; rows = c.rows.items; longest = c.longest })
        × (c.longest ≤ vec_capacity c.row) };
}

impl Choice {
    ghost use Rattle.std.specs.Prelude.{◌<◌, ◌≤◌, false, Err, IfErr};
    ghost use Rattle.tm_feed.specs.Choosing.{AreRowsOf, FitRows, row_length_for};
    ghost use Rattle.tm_feed.specs.Feeding.{fields_for, gives};
    ghost use Rattle.tm_feed.specs.code.Choices.{IsRowMade};

    /// The packets of all applications, and no rows.
    pub(crate) fn all(alloc: Global) -> Choice
        ensures { result.chosen ≡ without_rows all_given }
    {
        Choice {
            only: all_given(),
            rows: Vec::new(alloc),
            longest: 0,
            row: Vec::new(alloc),
        }
    }

    /// From now on the packets of these applications alone.
    pub(crate) fn give_only(&mut self, applications: &[u16]) -> Result<(), NoApplication>
        ensures given { OnOk result (AreTheseGiven applications.now self.new.chosen.only
            × (self.new.chosen ≡ record self.old.chosen { only = self.new.chosen.only })) }
        ensures refused { OnErr result (IsNoApplication applications.now × (self.new.chosen ≡ self.old.chosen)) }
    {
        self.only = only_these(applications)?;
        Ok(())
    }

    /// From now on rows of the packets of this application.
    #[tactic(auto, using(crate::proofs::ChoiceLemmas::placed, crate::proofs::ChoiceLemmas::fits_more))]
    pub(crate) fn give_rows(
        &mut self,
        application: u16,
        definition: Definition,
    ) -> Result<(), RowsFault>
        ensures given { OnOk result (AreRowsOf application definition self.old.chosen self.new.chosen) }
        ensures refused { OnErr result (self.new.chosen ≡ self.old.chosen) }
        ensures number { IfErr result (λ fault. fault ≡ RowsFault.NoApplication → 2047 < application) }
        ensures over { 2047 < application → result ≡ Err RowsFault.NoApplication }
    {
        let place = usize::from(application);
        if place > 2047 {
            return Err(RowsFault::NoApplication);
        }
        let length = definition.row_length();
        self.row.clear();
        if self.row.reserve(length as usize).is_err() {
            return Err(RowsFault::NoMemory);
        }
        if add_places(&mut self.rows, place + 1).is_err() {
            return Err(RowsFault::NoMemory);
        }
        self.rows[place] = Some(definition);
        self.longest = self.longest.max(length);
        Ok(())
    }

    /// The packets of the application are given.
    #[inline(always)]
    pub(crate) fn gives(&self, application: u16) -> bool
        ensures { result ≡ gives self.now.chosen.only application }
    {
        match self.only.get(usize::from(application)) {
            Some(given) => *given,
            None => false,
        }
    }

    /// There may be a definition of the application.
    #[inline(always)]
    #[tactic(auto, using(crate::proofs::ChoiceLemmas::none_past))]
    pub(crate) fn has_place(&self, application: u16) -> bool
        ensures { result ≡ false → fields_for self.now.chosen application ≡ None }
    {
        usize::from(application) < self.rows.len()
    }

    /// How many octets the longest row has, 0 without definitions.
    pub(crate) fn longest(&self) -> u32
        ensures value { result ≡ self.now.chosen.longest }
        ensures fits { FitRows self.now.chosen }
    {
        self.longest
    }

    /// How many octets the rows of an application have, 0 without a definition.
    pub(crate) fn row_length(&self, application: u16) -> u32
        ensures { result ≡ row_length_for self.now.chosen application }
    {
        match self.rows.get(usize::from(application)) {
            Some(Some(definition)) => definition.row_length(),
            _ => 0,
        }
    }

    /// Makes the row of a packet. It takes no memory.
    #[tactic(auto, using(crate::proofs::ChoiceLemmas::made_length))]
    pub(crate) fn make_row(&mut self, lead: Lead, packet: &[u8]) -> Made
        ensures same { self.new.chosen ≡ self.old.chosen }
        ensures made { IsRowMade (fields_for self.old.chosen lead.application) lead packet.now result self.new.row }
    {
        let Some(Some(definition)) = self.rows.get(usize::from(lead.application)) else {
            return Made::Nothing;
        };
        match definition.write_binary_row(&mut self.row, lead, packet) {
            Ok(()) => Made::Row(definition.row_length()),
            Err(RowFault::ShortPacket { .. }) => Made::Short(definition.bits_needed()),
            Err(RowFault::NoMemory) => unreachable!(),
        }
    }

    /// The row that was made last.
    pub(crate) fn row(&self) -> &[u8]
        ensures { result.now ≡ self.now.row }
    {
        self.row.as_slice()
    }
}
