//! The call, and what crosses the border with it.

ghost use Rattle.std.specs.Prelude.{◌≡◌, ◌≢◌, ◌⊎◌, ◌<◌, ◌≤◌, ◌==◌, Some, None, [], true, false, nat_le, not};
ghost use Rattle.tm_fields.specs.declared.rows.RowForm.TheVariants.{Text, Binary};
ghost use Rattle.tm_output.specs.declared.command.Command.TheVariants as command;
ghost use Rattle.tm_library.specs.declared.request.Wanted.TheVariants.{Frames, Packets};
ghost use Rattle.tm_c.specs.Answers.{AreRowsGiven, IsFieldsAnswer, IsGiven, IsGivenBy, IsSummarizedBy, IsSummaryAnswer, done_with, fit, form_by_number, refused_with, rows_in, strict_status};
ghost use Rattle.tm_c.specs.Numbers.{with_status};

use crate::numbers::{refusal_numbers, with_status};
use crate::structs::{Numbers, TmxAnswer, TmxRequest};
use std::alloc::Global;
use tm_fields::{Definition, RowForm};
use tm_library::{
    Answer, Request, Wanted, read_definition, read_settings, run_chunk, summarize_recording,
};
use tm_tool::{Command, Settings};

/// A call that was refused has nothing but the reason.
pub fn refused_with(numbers: Numbers) -> TmxAnswer
    ensures { result ≡ refused_with numbers }
{
    TmxAnswer {
        status: numbers.status,
        fault: numbers.fault,
        key: numbers.key,
        column: numbers.column,
        row: numbers.row,
        records: 0,
        out_length: 0,
        report_length: 0,
        checkpoint_length: 0,
        used: 0,
        strict: 0,
        row_length: 0,
    }
}

// What `tmx --strict` ends with.
fn strict_status(answer: Answer) -> u32
    ensures { result ≡ strict_status answer }
{
    if !answer.has_good_frame {
        return 5;
    }
    if answer.has_losses { 4 } else { 0 }
}

// The status is 1 where a room is too small.
fn done_with(answer: Answer, fits: bool) -> TmxAnswer
    ensures { result ≡ done_with answer fits }
{
    TmxAnswer {
        status: if fits { 0 } else { 1 },
        fault: 0,
        key: 0,
        column: 0,
        row: 0,
        records: answer.records,
        out_length: answer.out,
        report_length: answer.report,
        checkpoint_length: answer.checkpoint,
        used: answer.used,
        strict: strict_status(answer),
        row_length: answer.row_length,
    }
}

// No octets follow those of the chunk.
fn is_last(request: &TmxRequest<'_>) -> bool
    ensures { result ≡ not (request.now.last == 0) }
{
    request.last != 0
}

// The call has a whole recording: it goes on from no checkpoint, and no octets follow.
fn is_whole(request: &TmxRequest<'_>) -> bool
    ensures whole { result ≡ true → (request.now.last ≢ 0) × (request.now.checkpoint.now ≡ []) }
    ensures part { result ≡ false → (request.now.last ≡ 0) ⊎ (request.now.checkpoint.now ≢ []) }
{
    is_last(request) && request.checkpoint.is_empty()
}

// What is wanted by a command's number, where it takes no definition and the recording may come in chunks.
fn wanted_of(number: u32) -> Option<Wanted<'static>>
    ensures extract { number ≡ 0 → result ≡ Some (Packets command.Extract) }
    ensures packets { number ≡ 1 → result ≡ Some (Packets command.Packets) }
    ensures frames { number ≡ 3 → result ≡ Some Frames }
    ensures binary_packets { number ≡ 5 → result ≡ Some (Packets command.BinaryPackets) }
    ensures others { number ≢ 0 → number ≢ 1 → number ≢ 3 → number ≢ 5 → result ≡ None }
{
    match number {
        0 => Some(Wanted::Packets(Command::Extract)),
        1 => Some(Wanted::Packets(Command::Packets)),
        3 => Some(Wanted::Frames),
        5 => Some(Wanted::Packets(Command::BinaryPackets)),
        _ => None,
    }
}

// There may be an application of this number.
fn is_application(number: u32) -> bool
    ensures { result ≡ nat_le number 2047 }
{
    number <= 2047
}

// Each room is large enough.
fn fits(answer: Answer, out: &[u8], report: &[u8], checkpoint: &[u8]) -> bool
    ensures { result ≡ fit answer out.now report.now checkpoint.now }
{
    answer.out <= out.len()
        && answer.report <= report.len()
        && answer.checkpoint <= checkpoint.len()
}

// Gives what is wanted of a chunk by these settings.
fn answer_chunk(
    alloc: Global,
    settings: &Settings,
    chunk: Request<'_, '_>,
    out: &mut [u8],
    report: &mut [u8],
    checkpoint: &mut [u8],
) -> TmxAnswer
    ensures { IsGivenBy settings.now chunk.entry out.new report.new checkpoint.new result }
{
    match run_chunk(alloc, settings, chunk, out, report, checkpoint) {
        Ok(answer) => done_with(answer, fits(answer, out, report, checkpoint)),
        Err(refusal) => refused_with(refusal_numbers(&refusal)),
    }
}

// Gives what is wanted.
fn answer_wanted(
    alloc: Global,
    wanted: Wanted<'_>,
    request: &TmxRequest<'_>,
    out: &mut [u8],
    report: &mut [u8],
    checkpoint: &mut [u8],
) -> TmxAnswer
    ensures { IsGiven wanted.entry request.now out.new report.new checkpoint.new result }
{
    match read_settings(alloc, request.settings) {
        Ok(settings) => {
            let chunk = Request {
                checkpoint: request.checkpoint,
                octets: request.octets,
                wanted,
                last: is_last(request),
            };
            answer_chunk(alloc, &settings, chunk, out, report, checkpoint)
        }
        Err(refusal) => refused_with(refusal_numbers(&refusal)),
    }
}

// The form of the rows that a command of this number gives.
fn form_by_number(number: u32) -> RowForm
    ensures { result ≡ form_by_number number }
{
    if number == 6 {
        RowForm::Binary
    } else {
        RowForm::Text
    }
}

// What gives the rows of an application in a form.
fn rows_in(form: RowForm, definition: &Definition, application: u16) -> Command<'_>
    ensures { result ≡ rows_in form definition.entry application }
{
    match form {
        RowForm::Text => Command::Fields(definition, application),
        RowForm::Binary => Command::BinaryFields(definition, application),
    }
}

// Gives the rows of the application by these settings.
fn answer_rows(
    alloc: Global,
    settings: &Settings,
    request: &TmxRequest<'_>,
    out: &mut [u8],
    report: &mut [u8],
    checkpoint: &mut [u8],
) -> TmxAnswer
    requires { request.now.application ≤ 2047 }
    ensures { AreRowsGiven (form_by_number request.now.command) settings.now request.now out.new report.new checkpoint.new result }
{
    match read_definition(alloc, request.definition) {
        Ok(definition) => {
            let form = form_by_number(request.command);
            let rows = rows_in(form, &definition, request.application as u16);
            let wanted = Wanted::Packets(rows);
            let chunk = Request {
                checkpoint: request.checkpoint,
                octets: request.octets,
                wanted,
                last: is_last(request),
            };
            answer_chunk(alloc, settings, chunk, out, report, checkpoint)
        }
        Err(refusal) => refused_with(refusal_numbers(&refusal)),
    }
}

// Gives the rows of the application, if there may be one of its number.
fn answer_fields(
    alloc: Global,
    request: &TmxRequest<'_>,
    out: &mut [u8],
    report: &mut [u8],
    checkpoint: &mut [u8],
) -> TmxAnswer
    ensures { IsFieldsAnswer (form_by_number request.now.command) request.now out.new report.new checkpoint.new result }
{
    if !is_application(request.application) {
        return refused_with(with_status(8, 0));
    }
    match read_settings(alloc, request.settings) {
        Ok(settings) => answer_rows(alloc, &settings, request, out, report, checkpoint),
        Err(refusal) => refused_with(refusal_numbers(&refusal)),
    }
}

// Gives the summary by these settings.
fn answer_whole(
    alloc: Global,
    settings: &Settings,
    request: &TmxRequest<'_>,
    out: &mut [u8],
) -> TmxAnswer
    ensures { IsSummarizedBy settings.now request.now out.new result }
{
    match summarize_recording(alloc, settings, request.octets, out) {
        Ok(answer) => done_with(answer, answer.out <= out.len()),
        Err(refusal) => refused_with(refusal_numbers(&refusal)),
    }
}

// Gives the summary of a whole recording, and leaves no checkpoint.
fn answer_summary(alloc: Global, request: &TmxRequest<'_>, out: &mut [u8]) -> TmxAnswer
    ensures { IsSummaryAnswer request.now out.new result }
{
    if !is_whole(request) {
        return refused_with(with_status(9, 0));
    }
    match read_settings(alloc, request.settings) {
        Ok(settings) => answer_whole(alloc, &settings, request, out),
        Err(refusal) => refused_with(refusal_numbers(&refusal)),
    }
}

// The whole call.
fn answer_request(
    alloc: Global,
    request: &TmxRequest<'_>,
    out: &mut [u8],
    report: &mut [u8],
    checkpoint: &mut [u8],
) -> TmxAnswer
    ensures extract { request.now.command ≡ 0
        → IsGiven (Packets command.Extract) request.now out.new report.new checkpoint.new result }
    ensures packets { request.now.command ≡ 1
        → IsGiven (Packets command.Packets) request.now out.new report.new checkpoint.new result }
    ensures fields { request.now.command ≡ 2 → IsFieldsAnswer Text request.now out.new report.new checkpoint.new result }
    ensures frames { request.now.command ≡ 3 → IsGiven Frames request.now out.new report.new checkpoint.new result }
    ensures summary { request.now.command ≡ 4 → IsSummaryAnswer request.now out.new result }
    ensures binary_packets { request.now.command ≡ 5
        → IsGiven (Packets command.BinaryPackets) request.now out.new report.new checkpoint.new result }
    ensures binary_fields { request.now.command ≡ 6
        → IsFieldsAnswer Binary request.now out.new report.new checkpoint.new result }
    ensures others { 6 < request.now.command → result ≡ refused_with (with_status 2 0) }
{
    if let Some(wanted) = wanted_of(request.command) {
        return answer_wanted(alloc, wanted, request, out, report, checkpoint);
    }
    match request.command {
        2 | 6 => answer_fields(alloc, request, out, report, checkpoint),
        4 => answer_summary(alloc, request, out),
        _ => refused_with(with_status(2, 0)),
    }
}

/// Runs over the octets of a recording that follow a checkpoint. `include/tmx.h` says it for callers.
#[unsafe(no_mangle)]
pub extern "C" fn tmx_run(
    alloc: Global,
    request: &TmxRequest<'_>,
    out: &mut [u8],
    report: &mut [u8],
    checkpoint: &mut [u8],
    answer: &mut TmxAnswer,
) -> u32
    ensures extract { request.now.command ≡ 0
        → IsGiven (Packets command.Extract) request.now out.new report.new checkpoint.new answer.new }
    ensures packets { request.now.command ≡ 1
        → IsGiven (Packets command.Packets) request.now out.new report.new checkpoint.new answer.new }
    ensures fields { request.now.command ≡ 2
        → IsFieldsAnswer Text request.now out.new report.new checkpoint.new answer.new }
    ensures frames { request.now.command ≡ 3
        → IsGiven Frames request.now out.new report.new checkpoint.new answer.new }
    ensures summary { request.now.command ≡ 4 → IsSummaryAnswer request.now out.new answer.new }
    ensures binary_packets { request.now.command ≡ 5
        → IsGiven (Packets command.BinaryPackets) request.now out.new report.new checkpoint.new answer.new }
    ensures binary_fields { request.now.command ≡ 6
        → IsFieldsAnswer Binary request.now out.new report.new checkpoint.new answer.new }

    // There are no further commands.
    ensures others { 6 < request.now.command → answer.new ≡ refused_with (with_status 2 0) }
    ensures status { result ≡ answer.new.status }
{
    *answer = answer_request(alloc, request, out, report, checkpoint);
    answer.status
}
