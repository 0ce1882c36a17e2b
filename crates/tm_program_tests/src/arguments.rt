//! Command lines with their plans and texts.

use std::alloc::Global;
use tm_arguments::{Action, Plan, plan};
use tm_program::{Octets, UsageFault};

/// Words, in just as much memory as they need: so the next ones find place where these were.
pub(crate) fn owned_strings(alloc: Global, arguments: &[&str]) -> Option<Vec<String>> {
    let mut all = Vec::with_capacity(alloc, arguments.len()).ok()?;
    for word in arguments {
        let text = String::from_str(alloc, word).ok()?;
        if all.push(text).is_err() {
            return None;
        }
    }
    Some(all)
}

// What the arguments ask for, or why they are none.
fn plan_of(alloc: Global, arguments: &[&str]) -> Result<Plan, UsageFault> {
    match owned_strings(alloc, arguments) {
        Some(arguments) => plan(alloc, arguments),
        None => Err(UsageFault::NoMemory),
    }
}

/// There is a value, and it is this text.
pub(crate) fn is_named(value: &Option<Octets>, text: &str) -> bool {
    match value {
        Some(octets) => octets.as_slice() == text.as_bytes(),
        None => false,
    }
}

fn is_listed(plan: &Plan, action: Action) -> bool {
    plan.action == action
        && is_named(&plan.settings, "s")
        && is_named(&plan.recording, "r")
        && plan.report.is_none()
}

fn is_extract(plan: &Plan) -> bool {
    plan.action == Action::Extract && is_named(&plan.report, "r") && is_named(&plan.recording, "x")
}

fn is_packets(plan: &Plan) -> bool {
    plan.action == Action::Packets && plan.report.is_none() && plan.recording.is_none()
}

fn has_checkpoints(plan: &Plan) -> bool {
    is_named(&plan.checkpoint, "c")
        && is_named(&plan.resume, "b")
        && plan.stop_after == Some(4_294_967_295)
}

fn is_split(plan: &Plan) -> bool {
    plan.action == Action::Split && is_named(&plan.dir, "d")
}

fn is_fields(plan: &Plan) -> bool {
    plan.action == Action::Fields && is_named(&plan.definition, "d") && plan.apid == Some(2047)
}

#[test]
fn command_words(rt: HostRuntime) {
    // guards: plan-gives-the-plan-that-the-words-ask-for
    for (word, action) in [("frames", Action::Frames), ("summary", Action::Summary)] {
        let listed = plan_of(rt.alloc(), &[word, "--settings", "s", "r"]);
        assert!(rt; listed.is_ok_and(|plan| is_listed(&plan, action)), "{word}");
    }
    let arguments = ["extract", "--settings", "s", "--report", "r", "x"];
    let extract = plan_of(rt.alloc(), &arguments);
    assert!(rt; extract.is_ok_and(|plan| is_extract(&plan)));
    let packets = plan_of(rt.alloc(), &["packets", "--settings", "s"]);
    assert!(rt; packets.is_ok_and(|plan| is_packets(&plan)));
}

#[test]
fn words_of_checkpoints(rt: HostRuntime) {
    // guards: plan-gives-the-plan-that-the-words-ask-for
    let arguments = [
        "packets",
        "--settings=s",
        "--checkpoint=c",
        "--stop-after=4294967295",
        "--resume=b",
    ];
    let packets = plan_of(rt.alloc(), &arguments);
    assert!(rt; packets.is_ok_and(|plan| has_checkpoints(&plan)));
}

#[test]
fn words_of_split_and_fields(rt: HostRuntime) {
    // guards: plan-gives-the-plan-that-the-words-ask-for
    let arguments = ["split", "--settings", "s", "--dir", "d"];
    let split = plan_of(rt.alloc(), &arguments);
    assert!(rt; split.is_ok_and(|plan| is_split(&plan)));
    let arguments = [
        "fields",
        "--settings",
        "s",
        "--definition",
        "d",
        "--apid",
        "2047",
        "x",
    ];
    let fields = plan_of(rt.alloc(), &arguments);
    assert!(rt; fields.is_ok_and(|plan| is_fields(&plan)));
}

#[test]
fn words_with_and_without_strict(rt: HostRuntime) {
    // guards: plan-gives-the-plan-that-the-words-ask-for
    let table = [
        ["packets", "--settings=s"].as_slice(),
        &["extract", "--settings=s"],
        &["split", "--settings=s", "--dir=d"],
        &["fields", "--settings=s", "--definition=d", "--apid=0"],
        &["summary", "--settings=s"],
    ];
    for arguments in table {
        let without = plan_of(rt.alloc(), arguments);
        assert!(rt; without.is_ok_and(|plan| !plan.strict), "{arguments:?}");
        let mut words = Vec::from_slice(rt.alloc(), arguments).expect(&rt, "memory");
        words.push("--strict").expect(&rt, "memory");
        let with = plan_of(rt.alloc(), words.as_slice());
        assert!(rt; with.is_ok_and(|plan| plan.strict), "{arguments:?}");
    }
}

#[test]
fn stop_without_checkpoint(rt: HostRuntime) {
    // guards: plan-gives-the-plan-that-the-words-ask-for
    let arguments = ["extract", "--settings", "s", "--stop-after", "3"];
    let found = plan_of(rt.alloc(), &arguments);
    assert!(rt; matches!(&found, Err(UsageFault::StopAfter)));
}

// What the arguments are refused with as wrong ones, if they are.
fn usage_of(alloc: Global, arguments: &[&str]) -> Option<Octets> {
    match plan_of(alloc, arguments) {
        Err(UsageFault::Usage(text)) => Some(text),
        _ => None,
    }
}

// The help that the arguments ask for, if they do.
fn help_of(alloc: Global, arguments: &[&str]) -> Option<Octets> {
    match plan_of(alloc, arguments) {
        Err(UsageFault::Help(text)) => Some(text),
        _ => None,
    }
}

#[test]
fn wrong_words(rt: HostRuntime) {
    // guards: plan-gives-the-plan-that-the-words-ask-for
    let table = [
        ["split", "--settings=s"].as_slice(),
        &["frames", "--settings=s", "--report=r"],
        &["frames", "--settings=s", "--checkpoint=c"],
        &["fields", "--settings=s", "--apid=200"],
        &["packets", "--version"],
        &["frames", "--settings=s", "--strict"],
        &["packets", "--settings=s", "--strict=true"],
        &["packets", "--settings=s", "--strict", "--strict"],
    ];
    for arguments in table {
        assert!(rt; usage_of(rt.alloc(), arguments).is_some());
    }
}

#[test]
fn numbers_that_are_no_stop(rt: HostRuntime) {
    // guards: plan-gives-the-plan-that-the-words-ask-for
    for number in ["0", "4294967296", "-1", "x"] {
        let arguments = [
            "split",
            "--settings=s",
            "--dir=d",
            "--checkpoint=c",
            "--stop-after",
            number,
        ];
        assert!(rt; usage_of(rt.alloc(), &arguments).is_some());
    }
}

#[test]
fn numbers_that_are_no_application(rt: HostRuntime) {
    // guards: plan-gives-the-plan-that-the-words-ask-for
    for number in ["2048", "-1", "x"] {
        let arguments = ["fields", "--settings=s", "--definition=d", "--apid", number];
        assert!(rt; usage_of(rt.alloc(), &arguments).is_some());
    }
}

pub(crate) const USAGE: &str =
    "error: unexpected argument 'b' found\n\nUsage: tmx frames --settings <FILE> [RECORDING]\n\nFor more information, try '--help'.\n";

const HELP: &str =
    "Reads recordings of TM transfer frames (CCSDS 132.0-B-3)\n\nUsage: tmx <COMMAND>\n\nCommands:\n  frames   Lists the frames: one line for each record of the recording\n  packets  Lists the packets of the chosen channels: one line for each\n  extract  Extracts the packets of the chosen channels: their octets, with nothing between them\n  split    Extracts the packets of the chosen channels to a file for each application\n  fields   Reads the fields of an application's packets: a row of CSV for each packet\n  summary  Sums up the recording: what came of each channel and application, and what was lost\n\nOptions:\n  -h, --help     Print help\n  -V, --version  Print version\n\ntmx COMMAND --help says what a command takes, and has an example.\n\nPages, in the folder docs:\n  tmx.1       the manual page: man -l docs/tmx.1\n  FORMATS.md  settings, lines, definitions, faults and statuses\n  FRAMES.md   how frames are read\n  RUNS.md     which packets are whole, and what is lost\n  PACKETS.md  headers of packets, counts and groups\n  RECIPES.md  how other tools take over\n  PYTHON.md   the package for Python, with tmx-watch, tmx-report, tmx-probe, tmx-cut, tmx-map and tmx-follow\n";

const HELP_OF_FRAMES: &str =
    "Lists the frames: one line for each record of the recording\n\nUsage: tmx frames --settings <FILE> [RECORDING]\n\nArguments:\n  [RECORDING]  The recording; standard input if it is left out\n\nOptions:\n      --settings <FILE>  The settings of the recording: a TOML file\n  -h, --help             Print help\n\nExample:\n  tmx frames --settings s.toml pass.rec\n";

const HELP_OF_PACKETS: &str =
    "Lists the packets of the chosen channels: one line for each\n\nUsage: tmx packets [OPTIONS] --settings <FILE> [RECORDING]\n\nArguments:\n  [RECORDING]  The recording; standard input if it is left out\n\nOptions:\n      --settings <FILE>    The settings of the recording: a TOML file\n      --binary             Octets in place of lines or rows, at a terminal too\n      --report <FILE>      The report of what is bad or lost, and of whole groups; standard error if it is left out; - is a file of this name\n      --checkpoint <FILE>  The checkpoint written after the run; if left out the recording is closed\n      --stop-after <N>     Further records to stop after, 1 to 4294967295; needs --checkpoint; all if left out\n      --resume <FILE>      The checkpoint to go on from; the recording's beginning if it is left out\n      --strict             Status 5 without a good frame of a chosen channel, else 4 if anything is bad or lost (VCA frames and octets left at the end aside)\n  -h, --help               Print help\n\nExample:\n  tmx packets --settings s.toml --report report.txt pass.rec\n";

const HELP_OF_EXTRACT: &str =
    "Extracts the packets of the chosen channels: their octets, with nothing between them\n\nUsage: tmx extract [OPTIONS] --settings <FILE> [RECORDING]\n\nArguments:\n  [RECORDING]  The recording; standard input if it is left out\n\nOptions:\n      --settings <FILE>    The settings of the recording: a TOML file\n      --report <FILE>      The report of what is bad or lost, and of whole groups; standard error if it is left out; - is a file of this name\n      --checkpoint <FILE>  The checkpoint written after the run; if left out the recording is closed\n      --stop-after <N>     Further records to stop after, 1 to 4294967295; needs --checkpoint; all if left out\n      --resume <FILE>      The checkpoint to go on from; the recording's beginning if it is left out\n      --strict             Status 5 without a good frame of a chosen channel, else 4 if anything is bad or lost (VCA frames and octets left at the end aside)\n  -h, --help               Print help\n\nExample:\n  zcat pass.rec.gz | tmx extract --settings s.toml --report report.txt > pass.pkt\n";

const HELP_OF_SPLIT: &str =
    "Extracts the packets of the chosen channels to a file for each application\n\nUsage: tmx split [OPTIONS] --settings <FILE> --dir <DIR> [RECORDING]\n\nArguments:\n  [RECORDING]  The recording; standard input if it is left out\n\nOptions:\n      --settings <FILE>    The settings of the recording: a TOML file\n      --dir <DIR>          The folder for the files, which has to be there; other files of an earlier run stay in it\n      --report <FILE>      The report of what is bad or lost, and of whole groups; standard error if it is left out; - is a file of this name\n      --checkpoint <FILE>  The checkpoint written after the run; if left out the recording is closed\n      --stop-after <N>     Further records to stop after, 1 to 4294967295; needs --checkpoint; all if left out\n      --resume <FILE>      The checkpoint to go on from; the recording's beginning if it is left out\n      --strict             Status 5 without a good frame of a chosen channel, else 4 if anything is bad or lost (VCA frames and octets left at the end aside)\n  -h, --help               Print help\n\nExample:\n  tmx split --settings s.toml --dir packets --report report.txt pass.rec\n";

const HELP_OF_FIELDS: &str =
    "Reads the fields of an application's packets: a row of CSV for each packet\n\nUsage: tmx fields [OPTIONS] --settings <FILE> --definition <FILE> --apid <N> [RECORDING]\n\nArguments:\n  [RECORDING]  The recording; standard input if it is left out\n\nOptions:\n      --settings <FILE>    The settings of the recording: a TOML file\n      --definition <FILE>  The definition of the fields: a CSV file\n      --apid <N>           The application whose packets are read: a number from 0 to 2047\n      --binary             Octets in place of lines or rows, at a terminal too\n      --report <FILE>      The report of what is bad or lost, and of whole groups; standard error if it is left out; - is a file of this name\n      --checkpoint <FILE>  The checkpoint written after the run; if left out the recording is closed\n      --stop-after <N>     Further records to stop after, 1 to 4294967295; needs --checkpoint; all if left out\n      --resume <FILE>      The checkpoint to go on from; the recording's beginning if it is left out\n      --strict             Status 5 without a good frame of a chosen channel, else 4 if anything is bad or lost (VCA frames and octets left at the end aside)\n  -h, --help               Print help\n\nExample:\n  tmx fields --settings s.toml --definition fields.csv --apid 101 pass.rec > rows.csv\n";

const HELP_OF_SUMMARY: &str =
    "Sums up the recording: what came of each channel and application, and what was lost\n\nUsage: tmx summary [OPTIONS] --settings <FILE> [RECORDING]\n\nArguments:\n  [RECORDING]  The recording; standard input if it is left out\n\nOptions:\n      --settings <FILE>  The settings of the recording: a TOML file\n      --strict           Status 5 without a good frame of a chosen channel, else 4 if anything is bad or lost (VCA frames and octets left at the end aside)\n  -h, --help             Print help\n\nExample:\n  tmx summary --settings s.toml pass.rec\n";

// Words that ask for a text, and the text.
const HELPS: [(&[&str], &str); 9] = [
    (&["--version"], "tmx 0.1.0\nlogic dac8208d650f15bf\n"),
    (&["-V"], "tmx 0.1.0\nlogic dac8208d650f15bf\n"),
    (&["--help"], HELP),
    (&["frames", "--help"], HELP_OF_FRAMES),
    (&["packets", "--help"], HELP_OF_PACKETS),
    (&["extract", "--help"], HELP_OF_EXTRACT),
    (&["split", "--help"], HELP_OF_SPLIT),
    (&["fields", "--help"], HELP_OF_FIELDS),
    (&["summary", "--help"], HELP_OF_SUMMARY),
];

#[test]
fn texts_of_usage_and_help(rt: HostRuntime) {
    // guards: when-plan-refuses-words
    let alloc = rt.alloc();
    let text = usage_of(alloc, &["frames", "--settings", "s", "a", "b"]);
    assert!(rt; is_named(&text, USAGE));
    for (arguments, help) in HELPS {
        assert!(rt; is_named(&help_of(alloc, arguments), help), "{help}");
    }
}
