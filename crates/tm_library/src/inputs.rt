//! What a call reads before its chunk: the settings, the definition and the checkpoint. Each has at most 1,048,576 octets.

ghost use Rattle.std.specs.Prelude.{◌≡◌, ◌≢◌, ◌<◌, ◌≤◌, Ok, Err, ℕ, List, length, IfOk, IfErr, OnOk};
ghost use Rattle.tm_library.specs.Chunks.{AreFields, AreSettings, Begins, input_limit, job_in};
ghost use Rattle.tm_library.specs.Refusals.{IsChunkRefused, IsDefinitionRefused, IsSettingsRefused, IsTooLong};

use crate::refusal::{Input, Refusal};
use std::alloc::Global;
use tm_fields::Definition;
use tm_tool::{CheckpointFault, Job, Settings};

const MOST_OCTETS: usize = 1048576;

/// The octets are few enough for this input.
///
/// # Errors
///
/// `TooLong` where they are over 1,048,576.
pub fn check_length(input: Input, octets: &[u8]) -> Result<(), Refusal>
    ensures short { OnOk result (length octets.now ≤ input_limit) }
    ensures long { IfErr result (λ refusal. (refusal ≡ Refusal.TooLong input) × (input_limit < length octets.now)) }
{
    if octets.len() > MOST_OCTETS {
        return Err(Refusal::TooLong(input));
    }
    Ok(())
}

/// The settings that a text says.
///
/// # Errors
///
/// `TooLong` where it has over 1,048,576 octets; else what is wrong first with it; else `NoMemory` where memory runs out.
pub fn read_settings(alloc: Global, octets: &[u8]) -> Result<Settings, Refusal>
    ensures ok { IfOk result (AreSettings octets.now) }
    ensures refused { IfErr result (IsSettingsRefused octets.now) }
{
    check_length(Input::Settings, octets)?;
    Ok(Settings::read(alloc, octets)?)
}

/// The fields that a text defines.
///
/// # Errors
///
/// As those of `read_settings`.
pub fn read_definition(alloc: Global, octets: &[u8]) -> Result<Definition, Refusal>
    ensures ok { IfOk result (AreFields octets.now) }
    ensures refused { IfErr result (IsDefinitionRefused octets.now) }
{
    check_length(Input::Definition, octets)?;
    Ok(Definition::read(alloc, octets)?)
}

// The job that octets say, or a new one where there are none.
fn job_from(alloc: Global, settings: &Settings, octets: &[u8]) -> Result<Job, CheckpointFault>
    ensures ok { IfOk result (λ job. job_in settings.now octets.now ≡ Ok job) }
    ensures refused { IfErr result (λ found. found ≢ CheckpointFault.NoMemory → job_in settings.now octets.now ≡ Err found) }
{
    if !octets.is_empty() {
        return Job::resume(alloc, settings, octets);
    }
    match Job::new(alloc, settings) {
        Ok(job) => Ok(job),
        Err(_) => Err(CheckpointFault::NoMemory),
    }
}

/// The job that a checkpoint says, or a new one where the checkpoint has no octets.
pub(crate) fn read_job(alloc: Global, settings: &Settings, octets: &[u8]) -> Result<Job, Refusal>
    ensures ok { IfOk result (Begins settings.now octets.now) }
    ensures refused { (chunk : List ℕ) → IfErr result (IsChunkRefused settings.now octets.now chunk) }
{
    check_length(Input::Checkpoint, octets)?;
    Ok(job_from(alloc, settings, octets)?)
}
