//! Which files of a plan clash, by their names and by what these stand for. `Place::others` has the rule.

ghost use Rattle.std.specs.Prelude.{◌≡◌, ◌⊎◌, None, Some, IfErr, IfOk, IsSome, OnOk, find, option_map};
ghost use Rattle.tm_file_identity.specs.FileIdentities.{clash_at};
ghost use Rattle.tm_files.specs.code.Clashes.{clash_of, clash_over, fault_of_clash, output_clash};
ghost use Rattle.tm_files.specs.Names.{AreClear, is_named, name_at, temporary_checkpoint};
ghost use Rattle.tm_files.specs.code.Files.{HasFault, IsNoMemory, IsRunFault};

use crate::decisions::{Stream, stream_fault, writes_output};
use crate::files::{file_fault, temporary_name};
use std::alloc::Global;
use tm_arguments::Plan;
use tm_bits::Octets;
use tm_faults::ToolFault;
use tm_file_identity::{FileIdentities, Place};

/// The names of a plan were checked. Only `check_names` says so, and `open_report` asks for it: so no report is opened
/// before.
#[derive(Clone, Copy)]
pub struct Checked(());

/// The name that the plan has for a place. The file beside the checkpoint, and the streams, have none of their own.
pub fn name_at(plan: &Plan, place: Place) -> Option<&Octets>
    ensures { option_map (λ name. name.now) result ≡ name_at plan.now place }
{
    match place {
        Place::Recording => plan.recording.as_ref(),
        Place::Settings => plan.settings.as_ref(),
        Place::Definition => plan.definition.as_ref(),
        Place::Resumed => plan.resume.as_ref(),
        Place::Report => plan.report.as_ref(),
        Place::Checkpoint => plan.checkpoint.as_ref(),
        Place::TemporaryCheckpoint | Place::Output | Place::Errors | Place::Faults => None,
    }
}

/// The plan has this name for the place.
pub fn is_named(plan: &Plan, place: Place, name: &Octets) -> bool
    ensures { result ≡ is_named plan.now name.now place }
{
    name_at(plan, place).is_some_and(|found| found.as_slice() == name.as_slice())
}

/// The first of some places for which the plan has this name.
pub fn find_place(plan: &Plan, name: &Octets, places: &[Place]) -> Option<Place>
    ensures { result ≡ find (is_named plan.now name.now) places.now }
{
    places
        .iter()
        .copied()
        .find(|place| is_named(plan, *place, name))
}

/// The name of the file in which the plan's checkpoint is written before it takes its name.
pub(crate) fn temporary_checkpoint(alloc: Global, plan: &Plan) -> Result<Option<Octets>, ToolFault>
    ensures name { IfOk result (λ found. found ≡ option_map temporary_checkpoint plan.now.checkpoint) }
    ensures refused { IfErr result IsNoMemory }
{
    match &plan.checkpoint {
        Some(name) => Ok(Some(Octets::new(temporary_name(alloc, name.as_slice())?))),
        None => Ok(None),
    }
}

/// The file at a place would be written over the one at another.
#[derive(Clone, Copy, Debug, PartialEq, Eq)]
pub struct Clash {
    pub written: Place,
    pub over: Place,
}

// The clash of the file at a place, which has this name if the plan has one there: by the name, or by what it stands for.
fn find_over(
    plan: &Plan,
    identities: &FileIdentities,
    written: Place,
    name: Option<&Octets>,
) -> Option<Clash>
    ensures { result ≡ clash_over plan.now identities.now written (option_map (λ n. n.now) name.entry) }
{
    let over = find_place(plan, name?, written.others()).or(identities.find_clash(written))?;
    Some(Clash { written, over })
}

// The clash of standard output, where the plan writes to it.
fn find_output_clash(plan: &Plan, identities: &FileIdentities) -> Option<Clash>
    ensures { result ≡ output_clash plan.now identities.now }
{
    let written = Place::Output;
    if !writes_output(plan) {
        return None;
    }
    let over = identities.find_clash(written)?;
    Some(Clash { written, over })
}

/// The first clash of the plan's files. The checkpoint is looked at first, then the file beside it, the report, and standard output. Two names
/// are one file if they are spelled alike, or have the same identity.
pub fn find_clash(
    alloc: Global,
    plan: &Plan,
    identities: &FileIdentities,
) -> Result<Option<Clash>, ToolFault>
    ensures clash { IfOk result (λ found. found ≡ clash_of plan.now identities.now) }
    ensures refused { IfErr result IsNoMemory }
{
    let beside = temporary_checkpoint(alloc, plan)?;
    let of_checkpoint = find_over(
        plan,
        identities,
        Place::Checkpoint,
        plan.checkpoint.as_ref(),
    );
    let of_beside = find_over(
        plan,
        identities,
        Place::TemporaryCheckpoint,
        beside.as_ref(),
    );
    let of_report = find_over(plan, identities, Place::Report, plan.report.as_ref());
    let of_output = find_output_clash(plan, identities);
    Ok(of_checkpoint.or(of_beside).or(of_report).or(of_output))
}

// The fault of a clash: it names the file that would be written, and only standard output has no name.
#[tactic(auto, using(crate::proofs::FaultLemmas::fault_there, crate::proofs::FaultLemmas::fault_exactly))]
fn clash_fault(alloc: Global, plan: &Plan, clash: Clash) -> ToolFault
    ensures fault { IsNoMemory result ⊎ (result ≡ fault_of_clash plan.now clash) }
    ensures refused { HasFault plan.now.report result ⊎ HasFault plan.now.checkpoint result ⊎ IsRunFault result }
{
    let name = match clash.written {
        Place::Output => None,
        Place::Report => plan.report.as_ref(),
        _ => plan.checkpoint.as_ref(),
    };
    match name {
        Some(name) => file_fault(alloc, name),
        None => stream_fault(Stream::Output),
    }
}

/// Standard error must not be a file that is read, whatever the plan writes there: the line of a fault would be written to that file.
pub fn check_errors(identities: &FileIdentities) -> Result<(), ToolFault>
    ensures clear { OnOk result (clash_at identities.now Place.Faults ≡ None) }
    ensures clash { IfErr result (λ fault. (fault ≡ ToolFault.Errors) × IsSome (clash_at identities.now Place.Faults)) }
{
    match identities.find_clash(Place::Faults) {
        Some(_) => Err(ToolFault::Errors),
        None => Ok(()),
    }
}

/// No file that the run writes may be one that it reads, or another that it writes. What `find_clash` finds first is refused.
#[tactic(auto, using(crate::proofs::FaultLemmas::no_memory_run, crate::proofs::ClashLemmas::are_clear))]
pub fn check_names(
    alloc: Global,
    plan: &Plan,
    identities: &FileIdentities,
) -> Result<Checked, ToolFault>
    ensures ok { OnOk result (AreClear plan.now) }
    ensures refused { IfErr result (λ fault. HasFault plan.now.report fault ⊎ HasFault plan.now.checkpoint fault
        ⊎ IsRunFault fault) }
    ensures clear { OnOk result (clash_of plan.now identities.now ≡ None) }
    ensures clash { IfErr result (λ fault. IsNoMemory fault
        ⊎ (option_map (fault_of_clash plan.now) (clash_of plan.now identities.now) ≡ Some fault)) }
{
    match find_clash(alloc, plan, identities)? {
        Some(clash) => Err(clash_fault(alloc, plan, clash)),
        None => Ok(Checked(())),
    }
}
