//! The plan of the arguments.

ghost use Rattle.std.specs.Prelude.{◌≡◌, ◌≢◌, ◌⊎◌, true, false, Err, Some, [], map, IfOk, IfErr, option_and_then, string_bytes};
ghost use Rattle.clap.specs.Words.{HasKind, first_of, found_of, kind_of, one_of, rows_of, subcommand_rows_of};
ghost use Rattle.tm_arguments.specs.Refusals.{IsOfKind, IsOfOneKind};
ghost use Rattle.tm_arguments.specs.CommandLine.{HasRequired, HasStop, action_named, has_flag, number_spelled, faults_of, is_accepted, lacks_checkpoint, matches_of, plan_in, plan_of};

use crate::command::tmx_command;
use crate::request::{Action, Plan};
use clap::error::ErrorKind;
use clap::{ArgMatches, Error};
use std::alloc::{AllocError, Global};
use tm_bits::Octets;
use tm_faults::UsageFault;

// A copy of a text.
fn copy_of(alloc: Global, text: &str) -> Result<Octets, AllocError>
    ensures { IfOk result (λ o. o ≡ text.now) }
{
    Ok(Octets::new(Vec::from_slice(alloc, text.as_bytes())?))
}

// A copy of the value of an argument.
#[tactic(auto, using(crate::proofs::Getters::value_read))]
fn value_of(alloc: Global, matches: &ArgMatches<'_>, id: &str) -> Result<Option<Octets>, AllocError>
    ensures { IfOk result (λ o. o ≡ first_of id.now (rows_of (found_of matches.now))) }
{
    match matches.get_str(id) {
        Some(text) => Ok(Some(copy_of(alloc, text)?)),
        None => Ok(None),
    }
}

// The number of sixteen bits that the value of an argument spells.
fn short_number_of(matches: &ArgMatches<'_>, id: &str) -> Option<u16>
    ensures { result ≡ option_and_then (number_spelled 16) (one_of id.now (rows_of (found_of matches.now))) }
{
    matches.get_one::<u16>(id)
}

// The number of thirty-two bits that the value of an argument spells.
fn number_of(matches: &ArgMatches<'_>, id: &str) -> Option<u32>
    ensures { result ≡ option_and_then (number_spelled 32) (one_of id.now (rows_of (found_of matches.now))) }
{
    matches.get_one::<u32>(id)
}

// The flag is among the matches. The contract of `get_flag` leaves open what it answers for other texts than `true` and `false`.
fn has_flag(matches: &ArgMatches<'_>, id: &str) -> bool
    ensures { result ≡ has_flag id.now (rows_of (found_of matches.now)) }
{
    matches.get_one::<bool>(id).unwrap_or(false)
}

// The action of this name.
fn action_named(name: &str) -> Option<Action>
    ensures { result ≡ action_named name.now }
{
    match name {
        "frames" => Some(Action::Frames),
        "packets" => Some(Action::Packets),
        "extract" => Some(Action::Extract),
        "split" => Some(Action::Split),
        "fields" => Some(Action::Fields),
        "summary" => Some(Action::Summary),
        _ => None,
    }
}

// The plan of a subcommand and its matches.
fn plan_of_subcommand(
    alloc: Global,
    name: &str,
    matches: &ArgMatches<'_>,
) -> Result<Option<Plan>, AllocError>
    ensures { IfOk result (λ p. p ≡ plan_in (name.now, rows_of (found_of matches.now))) }
{
    let Some(action) = action_named(name) else {
        return Ok(None);
    };
    let recording = value_of(alloc, matches, "recording")?;
    let settings = value_of(alloc, matches, "settings")?;
    let report = value_of(alloc, matches, "report")?;
    let checkpoint = value_of(alloc, matches, "checkpoint")?;
    let stop_after = number_of(matches, "stop-after");
    let resume = value_of(alloc, matches, "resume")?;
    let dir = value_of(alloc, matches, "dir")?;
    let definition = value_of(alloc, matches, "definition")?;
    let apid = short_number_of(matches, "apid");
    let binary = has_flag(matches, "binary");
    let strict = has_flag(matches, "strict");
    Ok(Some(Plan {
        action,
        recording,
        settings,
        report,
        checkpoint,
        stop_after,
        resume,
        dir,
        definition,
        apid,
        binary,
        strict,
    }))
}

// The plan of the matches.
fn plan_of_matches(alloc: Global, matches: &ArgMatches<'_>) -> Result<Option<Plan>, AllocError>
    ensures { IfOk result (λ p. p ≡ option_and_then plan_in (subcommand_rows_of matches.now)) }
{
    match matches.subcommand() {
        Some((name, inner)) => plan_of_subcommand(alloc, name, inner),
        None => Ok(None),
    }
}

// The text of an error, unless memory runs out.
fn fault_of_error(alloc: Global, error: &Error) -> UsageFault
    ensures memory { kind_of error.now ≡ ErrorKind.OutOfMemory → result ≡ UsageFault.NoMemory }
    ensures kind { IsOfKind (kind_of error.now) result }
{
    if error.kind() == ErrorKind::OutOfMemory {
        return UsageFault::NoMemory;
    }
    let Ok(text) = format!(in alloc; "{error}") else {
        return UsageFault::NoMemory;
    };
    let octets = Octets::new(text.into_bytes());
    if error.use_stderr() {
        UsageFault::Usage(octets)
    } else {
        UsageFault::Help(octets)
    }
}

// The matches of the arguments.
fn find_matches<'a>(alloc: Global, arguments: &'a [String]) -> Result<ArgMatches<'a>, Error>
    ensures rows { IfOk result (λ m. subcommand_rows_of m ≡ matches_of (map string_bytes arguments.entry.now)) }
    ensures whole { IfOk result (λ _. faults_of (map string_bytes arguments.entry.now) ≡ []) }
    ensures accepted { IfErr result (λ e. is_accepted (map string_bytes arguments.entry.now) ≡ true
        → kind_of e ≡ ErrorKind.OutOfMemory) }
    ensures kinds { IfErr result (HasKind (faults_of (map string_bytes arguments.entry.now))) }
{
    tmx_command(alloc)?.try_get_matches_from(arguments)
}

// The plan that `clap`'s matches of the arguments say.
fn matched_plan(alloc: Global, arguments: Vec<String>) -> Result<Plan, UsageFault>
    ensures ok { IfOk result (λ p. plan_of (map string_bytes arguments.items) ≡ Some p) }
    ensures required { IfOk result HasRequired }
    ensures whole { IfOk result (λ _. faults_of (map string_bytes arguments.items) ≡ []) }
    ensures stop { IfOk result (HasStop (map string_bytes arguments.items)) }
    ensures kinds { IfErr result (IsOfOneKind (faults_of (map string_bytes arguments.items))) }
    ensures accepted { IfErr result (λ f. is_accepted (map string_bytes arguments.items) ≡ true → f ≡ UsageFault.NoMemory) }
{
    let matches = match find_matches(alloc, arguments.as_slice()) {
        Ok(matches) => matches,
        Err(error) => {
            let fault = fault_of_error(alloc, &error);
            drop(error);
            return Err(fault);
        }
    };
    let plan = plan_of_matches(alloc, &matches);
    drop(matches);
    match plan {
        Ok(Some(plan)) => Ok(plan),
        Ok(None) => unreachable!(),
        Err(_) => Err(UsageFault::NoMemory),
    }
}

// The plan stops a run, and names no file for its checkpoint.
fn lacks_checkpoint(plan: &Plan) -> bool
    ensures { result ≡ lacks_checkpoint plan.now }
{
    plan.stop_after.is_some() && plan.checkpoint.is_none()
}

/// What the arguments after the program's name ask for. `frames` takes `--settings FILE [RECORDING]`, and `summary` takes
/// `[--strict]` besides. `packets` and `extract` take `[--report FILE] [--checkpoint FILE] [--stop-after N] [--resume FILE]` as
/// well. `packets` takes `[--binary]` besides these, `split` takes `--dir DIR`, and `fields` takes `--definition FILE --apid N
/// [--binary]`. The N of `--stop-after` is from
/// 1 to 4294967295, that of `--apid` from 0 to 2047. `--stop-after` without `--checkpoint` is `StopAfter`. Other arguments are
/// `Usage`, `--help` is `Help`, each with a text to print.
pub fn plan(alloc: Global, arguments: Vec<String>) -> Result<Plan, UsageFault>
    // A plan is what `clap`'s matches of the arguments say, with what its action needs, and comes only for arguments in
    // which `clap` finds nothing wrong. It stops after a number of records only where it has a file for the checkpoint.
    ensures ok { IfOk result (λ p. plan_of (map string_bytes arguments.items) ≡ Some p) }
    ensures required { IfOk result HasRequired }
    ensures whole { IfOk result (λ _. faults_of (map string_bytes arguments.items) ≡ []) }
    ensures stop { IfOk result (HasStop (map string_bytes arguments.items)) }
    ensures checked { IfOk result (λ p. lacks_checkpoint p ≡ false) }

    // `StopAfter` comes only where `clap`'s matches of the arguments say a plan that stops and has no such file.
    ensures stop_after { result ≡ Err UsageFault.StopAfter → (faults_of (map string_bytes arguments.items) ≡ [])
        × ((p : Plan) × (plan_of (map string_bytes arguments.items) ≡ Some p) × (lacks_checkpoint p ≡ true)) }

    // All else that is refused goes by `clap`'s kind of error: `Help` where the arguments ask for it, and else `Usage`.
    ensures kinds { IfErr result (λ f. (f ≡ UsageFault.StopAfter)
        ⊎ IsOfOneKind (faults_of (map string_bytes arguments.items)) f) }

    // Arguments that the command takes, by `clap`'s own definition, are refused only if memory runs out.
    ensures accepted { IfErr result (λ f. is_accepted (map string_bytes arguments.items) ≡ true
        → (f ≡ UsageFault.NoMemory) ⊎ (f ≡ UsageFault.StopAfter)) }
{
    let plan = matched_plan(alloc, arguments)?;
    if lacks_checkpoint(&plan) {
        drop(plan);
        return Err(UsageFault::StopAfter);
    }
    Ok(plan)
}
