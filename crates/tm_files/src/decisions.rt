//! What a plan decides of files and streams, before any is opened. The steps carry it out.

ghost use Rattle.std.specs.Prelude.{◌≡◌};
ghost use Rattle.tm_files.specs.code.Decisions.{is_job, IsReportTarget, IsRecording, stream_fault_of, writes_errors, writes_output};

use tm_arguments::{Action, Plan};
use tm_bits::Octets;
use tm_faults::{RunFault, ToolFault};

/// Where the recording comes from.
pub enum Recording<'p> {
    /// Standard input.
    Input,
    /// The file of this name.
    File(&'p Octets),
}

/// How the report is opened.
pub enum ReportTarget<'p> {
    /// The file of this name begins empty.
    New(&'p Octets),
    /// The file of this name is appended to.
    Append(&'p Octets),
    /// It goes to standard error.
    Errors,
}

/// A standard stream that is written.
#[derive(Clone, Copy)]
pub enum Stream {
    Output,
    Errors,
}

/// Where the plan's recording comes from: standard input if and only if no file is named.
pub fn choose_recording(plan: &Plan) -> Recording<'_>
    ensures { IsRecording plan.now result }
{
    match &plan.recording {
        Some(name) => Recording::File(name),
        None => Recording::Input,
    }
}

/// How the plan's report is opened: a file that is named is appended to if and only if a job is resumed.
pub fn choose_report(plan: &Plan) -> ReportTarget<'_>
    ensures { IsReportTarget plan.now result }
{
    match (&plan.report, &plan.resume) {
        (Some(name), None) => ReportTarget::New(name),
        (Some(name), Some(_)) => ReportTarget::Append(name),
        (None, _) => ReportTarget::Errors,
    }
}

/// The plan writes to standard output.
pub fn writes_output(plan: &Plan) -> bool
    ensures { result ≡ writes_output plan.now.action }
{
    match plan.action {
        Action::Split => false,
        _ => true,
    }
}

// The action is that of a job, which has a report: neither a list of frames nor a summary.
fn is_job(action: Action) -> bool
    ensures { result ≡ is_job action }
{
    !matches!(action, Action::Frames | Action::Summary)
}

/// The plan writes its report to standard error.
pub fn writes_errors(plan: &Plan) -> bool
    ensures { result ≡ writes_errors plan.now.action plan.now.report }
{
    plan.report.is_none() && is_job(plan.action)
}

/// The fault of a stream that can't be written.
pub fn stream_fault(stream: Stream) -> ToolFault
    ensures { result ≡ stream_fault_of stream }
{
    match stream {
        Stream::Output => ToolFault::Run(RunFault::Write),
        Stream::Errors => ToolFault::Run(RunFault::Report),
    }
}
