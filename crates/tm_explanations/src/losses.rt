//! What a run that is done has lost, in a line.

ghost use Rattle.std.specs.Prelude.{◌≡◌, IfOk, IfSome, string_bytes};
ghost use Rattle.tm_explanations.specs.Losses.{counts_text};
ghost use Rattle.tm_faults.specs.Explanations.{IsLine};

use crate::asked::Asked;
use crate::explanation::line_of;
use crate::files::packed_text;
use crate::phrases::{Said, Untold};
use std::alloc::{AllocError, Global};
use std::rt::Files;
use tm_arguments::{Action, Plan, UsageFault, plan};
use tm_faults::{Explanation, NoMemory};
use tm_output::Totals;

/// What is known of a run that is done.
#[derive(Clone, Copy)]
pub struct DoneRun {
    /// The records that it took.
    pub records: u32,
    /// What it gave and lost. Channels are absent only if the settings choose some.
    pub totals: Totals,
    /// What was lost stands on standard error already.
    pub is_told: bool,
}

// How many records there were, and what was lost.
fn counts_text(alloc: Global, records: u32, totals: &Totals) -> Result<String, AllocError>
    ensures { IfOk result (λ text. string_bytes text ≡ counts_text records totals.now) }
{
    let (good, bad, missing, dropped) = (totals.good, totals.bad, totals.missing, totals.dropped);
    format!(in alloc;
        "{records} records, {good} good, {bad} bad, {missing} frames missing, {dropped} octets dropped"
    )
}

// Adds why `fields` gave no row, if it is so.
fn push_rows(alloc: Global, text: &mut String, plan: &Plan, totals: &Totals) -> Result<(), Untold> {
    let (Action::Fields, Some(apid), 0) = (plan.action, plan.apid, totals.packets) else {
        return Ok(());
    };
    let part = match totals.short {
        0 => format!(in alloc; "; no packet of application {apid}"),
        short => format!(in alloc; "; all {short} packets of application {apid} are too short"),
    };
    Ok(text.push_str(part?.as_str())?)
}

// Adds which channels had no good frame.
fn push_channels(alloc: Global, text: &mut String, absent: &[bool; 8]) -> Result<(), AllocError> {
    let mut begin = "; no good frame of channel";
    for channel in 0..8usize {
        if absent[channel] {
            text.push_str(format!(in alloc; "{begin} {channel}")?.as_str())?;
            begin = ",";
        }
    }
    Ok(())
}

// What was lost, and what to do. Each part begins with a semicolon.
fn losses_text(alloc: Global, plan: &Plan, run: &DoneRun) -> Said {
    let totals = &run.totals;
    let mut text = String::new(alloc);
    if totals.bad < u64::from(run.records) {
        push_rows(alloc, &mut text, plan, totals)?;
        push_channels(alloc, &mut text, &totals.absent)?;
    }
    if totals.has_losses && !run.is_told || !totals.has_losses && totals.good == 0 {
        text.push_str("; ")?;
        text.push_str(counts_text(alloc, run.records, totals)?.as_str())?;
    }
    let said = text.strip_prefix("; ").ok_or(Untold::Unknown)?;
    let or_else = match totals.bad > u64::from(run.records) / 2 {
        true => ", or python3 -m tmx probe",
        false => "",
    };
    Ok(format!(in alloc; "{said}: see tmx summary{or_else}")?)
}

// The same of a run of this plan. A recording without a good frame may be packed.
fn done_text<R: Files + AllocGlobal>(rt: &R, plan: &Plan, run: &DoneRun) -> Said {
    if run.totals.good == 0 && run.records > 0 {
        match packed_text(rt, plan) {
            Err(Untold::Unknown) => {}
            said => return said,
        }
    }
    losses_text(rt.alloc(), plan, run)
}

/// What a run by these words that is done has lost, and what to do: one line, if something was, or if nothing was given. `NoMemory`
/// comes where there is no room for the line.
pub fn explain_losses<R: Files + AllocGlobal>(
    rt: &R,
    _: Asked,
    words: Vec<String>,
    run: &DoneRun,
) -> Result<Option<Explanation>, NoMemory>
    ensures { IfOk result (λ found. IfSome found IsLine) }
{
    let alloc = rt.alloc();
    let text = match plan(alloc, words) {
        Ok(plan) => done_text(rt, &plan, run),
        Err(UsageFault::NoMemory) => Err(Untold::NoMemory),
        Err(_fault) => Err(Untold::Unknown),
    };
    line_of(alloc, text)
}
