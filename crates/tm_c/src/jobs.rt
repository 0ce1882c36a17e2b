//! The calls on a job that C keeps by a handle.

ghost use Rattle.std.specs.Prelude.{◌≡◌, ◌≤◌, [], None, IfOk, IfErr, OnOk};
ghost use Rattle.tm_c.specs.Answers.{refused_with};
ghost use Rattle.tm_c.specs.Numbers.{with_status};
ghost use Rattle.tm_c.specs.Texts.{IsText};
ghost use Rattle.tm_library.specs.Refusals.{IsDefinitionRefused};
ghost use Rattle.tm_c.specs.Jobs.{AreFieldsTaken, AreJobFields, AreMost, TakesFields, row_length_in, IsBegun, IsBeginRefused, IsDoneWith, IsJobEnded, IsJobFed, IsJobKept, IsJobLimited, IsKept, IsLimited, IsMade, IsMakeRefused, IsOpened, IsTold, no_job_status, no_progress, opened_with, progress_of, record_length_in, records_of, stop_status};

use crate::export::refused_with;
use crate::numbers::{refusal_numbers, with_status};
use crate::structs::{TmxAnswer, TmxOpening, TmxProgress};
use crate::texts::{write_reason, write_text};
use std::alloc::Global;
use std::mem::replace;
use tm_feed::{Event, Fed, FedJob, StopReason};
use tm_handle::Handle;
use tm_library::{Input, Refusal, check_length, read_definition, read_settings};
use tm_tool::Settings;

// The status of a call without a job.
const NO_JOB: u32 = 13;

// A new job, or where `resume` isn't 0 the one that the checkpoint says.
fn begin_job(
    alloc: Global,
    settings: &Settings,
    resume: u32,
    checkpoint: &[u8],
) -> Result<FedJob, Refusal>
    ensures ok { IfOk result (IsBegun settings.now resume checkpoint.now) }
    ensures refused { IfErr result (IsBeginRefused settings.now resume checkpoint.now) }
{
    if resume == 0 {
        return match FedJob::new(alloc, settings) {
            Ok(job) => Ok(job),
            Err(_) => Err(Refusal::NoMemory),
        };
    }
    check_length(Input::Checkpoint, checkpoint)?;
    Ok(FedJob::resume(alloc, settings, checkpoint)?)
}

// The job that is asked for, in a box.
fn make_job(alloc: Global, opening: &TmxOpening<'_>) -> Result<Box<FedJob>, Refusal>
    ensures ok { IfOk result (λ job. IsMade opening.now job.value) }
    ensures refused { IfErr result (IsMakeRefused opening.now) }
{
    let settings = read_settings(alloc, opening.settings)?;
    let job = begin_job(alloc, &settings, opening.resume, opening.checkpoint)?;
    match Box::new(alloc, job) {
        Ok(job) => Ok(job),
        Err(_) => Err(Refusal::NoMemory),
    }
}

// The answer to a job that was opened has the records that are done.
fn opened_with(records: u32) -> TmxAnswer
    ensures { result ≡ opened_with records }
{
    let mut answer = refused_with(with_status(0, 0));
    answer.records = records;
    answer
}

// Tells why there is no job, in numbers and in a line.
fn tell(alloc: Global, refusal: Refusal, line: &mut [u8]) -> TmxAnswer
    ensures { IsTold refusal line.new result }
{
    let answer = refused_with(refusal_numbers(&refusal));
    write_reason(alloc, refusal, line);
    answer
}

/// Opens a job. The one that the handle had is freed, unless the call is refused. Then the room says why, as the program does.
#[unsafe(no_mangle)]
pub extern "C" fn job_open(
    alloc: Global,
    handle: &mut Handle,
    opening: &TmxOpening<'_>,
    line: &mut [u8],
    answer: &mut TmxAnswer,
) -> u32
    ensures opened { IsOpened opening.now handle.old.job handle.new.job line.new answer.new }
    ensures status { result ≡ answer.new.status }
{
    *answer = match make_job(alloc, opening) {
        Ok(job) => {
            let records = job.records();
            *handle = Handle::of(job);
            write_text(&[], line);
            opened_with(records)
        }
        Err(refusal) => tell(alloc, refusal, line),
    };
    answer.status
}

// Has a job give packets of these applications alone.
fn limit_job(job: &mut FedJob, applications: &[u16]) -> u32
    ensures { IsJobLimited applications.now job.old job.new result }
{
    match job.give_only(applications) {
        Ok(()) => 0,
        Err(_) => 8,
    }
}

/// Has the job give packets of these applications alone from now on.
#[unsafe(no_mangle)]
pub extern "C" fn job_only(alloc: Global, handle: &mut Handle, applications: &[u16]) -> u32
    ensures limited { IsLimited applications.now handle.old.job handle.new.job result }
    ensures place { handle.new.at ≡ handle.old.at }
{
    match replace(handle, Handle::empty(alloc)).into_loose() {
        Some(mut loose) => {
            let status = limit_job(loose.as_mut(), applications);
            *handle = Handle::of_loose(loose);
            status
        }
        None => NO_JOB,
    }
}

// Has a job give rows of the fields that a text defines.
fn give_fields(
    alloc: Global,
    job: &mut FedJob,
    application: u16,
    definition: &[u8],
) -> Result<(), Refusal>
    ensures taken { OnOk result (TakesFields application definition.now job.old job.new) }
    ensures refused { IfErr result (λ refusal. IsDefinitionRefused definition.now refusal × (job.new ≡ job.old)) }
{
    let fields = read_definition(alloc, definition)?;
    match job.give_rows(application, fields) {
        Ok(()) => Ok(()),
        Err(_) => Err(Refusal::NoMemory),
    }
}

// The same, with the reason in a line where there is one.
fn fields_job(
    alloc: Global,
    job: &mut FedJob,
    application: u16,
    definition: &[u8],
    line: &mut [u8],
) -> TmxAnswer
    ensures { AreJobFields application definition.now line.new job.old job.new result }
{
    if application > 2047 {
        write_text(&[], line);
        return refused_with(with_status(8, 0));
    }
    match give_fields(alloc, job, application, definition) {
        Ok(()) => {
            write_text(&[], line);
            refused_with(with_status(0, 0))
        }
        Err(refusal) => tell(alloc, refusal, line),
    }
}

// There is no job that could give rows.
fn no_fields(line: &mut [u8]) -> TmxAnswer
    ensures answer { result ≡ refused_with (with_status no_job_status 0) }
    ensures line { IsText [] line.new 0 }
{
    write_text(&[], line);
    refused_with(with_status(NO_JOB, 0))
}

/// Has the job give rows of the fields that a text defines, for the packets of an application, unless the call is refused. Then the room
/// says why, as the program does.
#[unsafe(no_mangle)]
pub extern "C" fn job_fields(
    alloc: Global,
    handle: &mut Handle,
    application: u16,
    definition: &[u8],
    line: &mut [u8],
    answer: &mut TmxAnswer,
) -> u32
    ensures taken { AreFieldsTaken application definition.now line.new handle.old.job handle.new.job answer.new }
    ensures place { handle.new.at ≡ handle.old.at }
    ensures status { result ≡ answer.new.status }
{
    match replace(handle, Handle::empty(alloc)).into_loose() {
        Some(mut loose) => {
            *answer = fields_job(alloc, loose.as_mut(), application, definition, line);
            *handle = Handle::of_loose(loose);
        }
        None => *answer = no_fields(line),
    }
    answer.status
}

/// How many octets the rows of an application have, 0 without a definition.
#[unsafe(no_mangle)]
pub extern "C" fn job_row_length(alloc: Global, handle: &mut Handle, application: u16) -> u32
    ensures length { result ≡ row_length_in handle.old.job application }
    ensures job { handle.new.job ≡ handle.old.job }
    ensures place { handle.new.at ≡ handle.old.at }
{
    match replace(handle, Handle::empty(alloc)).into_loose() {
        Some(mut loose) => {
            let length = loose.as_mut().row_length(application);
            *handle = Handle::of_loose(loose);
            length
        }
        None => 0,
    }
}

/// How much a record gives at most: rooms so large always go on.
#[unsafe(no_mangle)]
pub extern "C" fn job_most(
    alloc: Global,
    handle: &mut Handle,
    events: &mut usize,
    octets: &mut usize,
) -> u32
    ensures most { AreMost handle.old.job events.new octets.new result }
    ensures job { handle.new.job ≡ handle.old.job }
    ensures place { handle.new.at ≡ handle.old.at }
{
    match replace(handle, Handle::empty(alloc)).into_loose() {
        Some(mut loose) => {
            (*events, *octets) = loose.as_mut().most();
            *handle = Handle::of_loose(loose);
            0
        }
        None => {
            (*events, *octets) = (0, 0);
            NO_JOB
        }
    }
}

fn stop_status(stop: StopReason) -> u32
    ensures { result ≡ stop_status stop }
{
    match stop {
        StopReason::Done => 0,
        StopReason::Room => 11,
        StopReason::TooSmall => 1,
        StopReason::TooMany => 5,
        StopReason::Closed => 12,
    }
}

fn progress_of(fed: Fed, records: u32) -> TmxProgress
    ensures { result ≡ progress_of fed records }
{
    TmxProgress {
        status: stop_status(fed.stop),
        records,
        used: fed.used,
        events: fed.events,
        octets: fed.octets,
    }
}

fn no_progress() -> TmxProgress
    ensures { result ≡ no_progress }
{
    TmxProgress {
        status: NO_JOB,
        records: 0,
        used: 0,
        events: 0,
        octets: 0,
    }
}

// Feeds a job.
fn feed_job(
    job: &mut FedJob,
    octets: &[u8],
    events: &mut [Event],
    packets: &mut [u8],
) -> TmxProgress
    ensures { IsJobFed octets.now events.new packets.new job.old job.new result }
{
    let fed = job.feed(octets, events, packets);
    progress_of(fed, job.records())
}

/// Feeds the job with the octets that follow those which it took.
#[unsafe(no_mangle)]
pub extern "C" fn job_feed(
    alloc: Global,
    handle: &mut Handle,
    octets: &[u8],
    events: &mut [Event],
    packets: &mut [u8],
    progress: &mut TmxProgress,
) -> u32
    ensures fed { IsDoneWith (IsJobFed octets.now events.new packets.new) handle.old.job handle.new.job progress.new }

    // The pointer stays as it is, so C may hold it by value.
    ensures place { handle.new.at ≡ handle.old.at }
    ensures status { result ≡ progress.new.status }
{
    match replace(handle, Handle::empty(alloc)).into_loose() {
        Some(mut loose) => {
            *progress = feed_job(loose.as_mut(), octets, events, packets);
            *handle = Handle::of_loose(loose);
        }
        None => *progress = no_progress(),
    }
    progress.status
}

// Tells the end of a job.
fn end_job(job: &mut FedJob, events: &mut [Event]) -> TmxProgress
    ensures { IsJobEnded events.new job.old job.new result }
{
    let (given, stop) = job.end(events);
    let fed = Fed {
        used: 0,
        events: given,
        octets: 0,
        stop,
    };
    progress_of(fed, job.records())
}

/// Tells the end of the recording: what is left, and then the groups that are open.
#[unsafe(no_mangle)]
pub extern "C" fn job_end(
    alloc: Global,
    handle: &mut Handle,
    events: &mut [Event],
    progress: &mut TmxProgress,
) -> u32
    ensures ended { IsDoneWith (IsJobEnded events.new) handle.old.job handle.new.job progress.new }
    ensures place { handle.new.at ≡ handle.old.at }
    ensures status { result ≡ progress.new.status }
{
    match replace(handle, Handle::empty(alloc)).into_loose() {
        Some(mut loose) => {
            *progress = end_job(loose.as_mut(), events);
            *handle = Handle::of_loose(loose);
        }
        None => *progress = no_progress(),
    }
    progress.status
}

// Writes the checkpoint of a job into a room, if it is large enough, and tells how many octets it has.
fn keep_job(alloc: Global, job: &FedJob, room: &mut [u8], length: &mut usize) -> u32
    ensures { IsJobKept job.now room.new length.new result }
{
    let Ok(octets) = job.checkpoint(alloc) else {
        *length = 0;
        return 6;
    };
    *length = octets.len();
    if octets.len() > room.len() {
        return 1;
    }
    room[..octets.len()].copy_from_slice(octets.as_slice());
    0
}

/// Writes the checkpoint of the job into a room, if it is large enough, and tells how many octets it has.
#[unsafe(no_mangle)]
pub extern "C" fn job_checkpoint(
    alloc: Global,
    handle: &mut Handle,
    room: &mut [u8],
    length: &mut usize,
) -> u32
    ensures kept { IsKept handle.old.job room.new length.new result }
    ensures job { handle.new.job ≡ handle.old.job }
    ensures place { handle.new.at ≡ handle.old.at }
{
    match replace(handle, Handle::empty(alloc)).into_loose() {
        Some(mut loose) => {
            let status = keep_job(alloc, loose.as_mut(), room, length);
            *handle = Handle::of_loose(loose);
            status
        }
        None => {
            *length = 0;
            NO_JOB
        }
    }
}

/// How many records of the job are done.
#[unsafe(no_mangle)]
pub extern "C" fn job_records(alloc: Global, handle: &mut Handle) -> u32
    ensures records { result ≡ records_of handle.old.job }
    ensures job { handle.new.job ≡ handle.old.job }
    ensures place { handle.new.at ≡ handle.old.at }
{
    match replace(handle, Handle::empty(alloc)).into_loose() {
        Some(mut loose) => {
            let records = loose.as_mut().records();
            *handle = Handle::of_loose(loose);
            records
        }
        None => 0,
    }
}

/// How many octets each record of the job has.
#[unsafe(no_mangle)]
pub extern "C" fn job_record_length(alloc: Global, handle: &mut Handle) -> u32
    ensures length { result ≡ record_length_in handle.old.job }
    ensures job { handle.new.job ≡ handle.old.job }
    ensures place { handle.new.at ≡ handle.old.at }
{
    match replace(handle, Handle::empty(alloc)).into_loose() {
        Some(mut loose) => {
            let length = loose.as_mut().record_length() as u32;
            *handle = Handle::of_loose(loose);
            length
        }
        None => 0,
    }
}

/// Frees the job.
#[unsafe(no_mangle)]
pub extern "C" fn job_close(alloc: Global, handle: &mut Handle)
    ensures { handle.new.job ≡ None }
{
    *handle = Handle::empty(alloc);
}
