//! The arguments that each subcommand takes, and what help says of them.

/// The version of the program, and on a second line the sum of the logic that proved it: what `--version` prints.
pub(crate) const VERSION: &str = "0.1.0\nlogic dac8208d650f15bf";

/// What help says after all commands.
pub(crate) const PAGES: &str =
    "tmx COMMAND --help says what a command takes, and has an example.\n\nPages, in the folder docs:\n  tmx.1       the manual page: man -l docs/tmx.1\n  FORMATS.md  settings, lines, definitions, faults and statuses\n  FRAMES.md   how frames are read\n  RUNS.md     which packets are whole, and what is lost\n  PACKETS.md  headers of packets, counts and groups\n  RECIPES.md  how other tools take over\n  PYTHON.md   the package for Python, with tmx-watch, tmx-report, tmx-probe, tmx-cut, tmx-map and tmx-follow";

/// What an argument is. Help calls its value as the text says.
#[derive(Clone, Copy)]
pub(crate) enum ArgumentForm {
    /// `VALUE`, with nothing before it.
    Bare(&'static str),
    /// `--NAME VALUE`, of any text.
    Text(&'static str),
    /// `--NAME N`, of a number from the first to the second.
    Number(i64, i64),
    /// `--NAME`, without a value.
    Flag,
}

/// An argument that a subcommand takes.
#[derive(Clone, Copy)]
pub(crate) struct Argument {
    pub(crate) name: &'static str,
    pub(crate) help: &'static str,
    pub(crate) required: bool,
    pub(crate) form: ArgumentForm,
}

/// A subcommand.
#[derive(Clone, Copy)]
pub(crate) struct Subcommand {
    pub(crate) name: &'static str,
    pub(crate) about: &'static str,
    pub(crate) arguments: &'static [Argument],
    pub(crate) example: &'static str,
}

const SETTINGS: Argument = Argument {
    name: "settings",
    help: "The settings of the recording: a TOML file",
    required: true,
    form: ArgumentForm::Text("FILE"),
};

const RECORDING: Argument = Argument {
    name: "recording",
    help: "The recording; standard input if it is left out",
    required: false,
    form: ArgumentForm::Bare("RECORDING"),
};

const REPORT: Argument = Argument {
    name: "report",
    help: "The report of what is bad or lost, and of whole groups; standard error if it is left out; - is a file of this name",
    required: false,
    form: ArgumentForm::Text("FILE"),
};

const CHECKPOINT: Argument = Argument {
    name: "checkpoint",
    help: "The checkpoint written after the run; if left out the recording is closed",
    required: false,
    form: ArgumentForm::Text("FILE"),
};

const STOP_AFTER: Argument = Argument {
    name: "stop-after",
    help: "Further records to stop after, 1 to 4294967295; needs --checkpoint; all if left out",
    required: false,
    form: ArgumentForm::Number(1, 4_294_967_295),
};

const RESUME: Argument = Argument {
    name: "resume",
    help: "The checkpoint to go on from; the recording's beginning if it is left out",
    required: false,
    form: ArgumentForm::Text("FILE"),
};

const STRICT: Argument = Argument {
    name: "strict",
    help: "Status 5 without a good frame of a chosen channel, else 4 if anything is bad or lost (VCA frames and octets left at the end aside)",
    required: false,
    form: ArgumentForm::Flag,
};

const BINARY: Argument = Argument {
    name: "binary",
    help: "Octets in place of lines or rows, at a terminal too",
    required: false,
    form: ArgumentForm::Flag,
};

const DIR: Argument = Argument {
    name: "dir",
    help: "The folder for the files, which has to be there; other files of an earlier run stay in it",
    required: true,
    form: ArgumentForm::Text("DIR"),
};

const DEFINITION: Argument = Argument {
    name: "definition",
    help: "The definition of the fields: a CSV file",
    required: true,
    form: ArgumentForm::Text("FILE"),
};

const APID: Argument = Argument {
    name: "apid",
    help: "The application whose packets are read: a number from 0 to 2047",
    required: true,
    form: ArgumentForm::Number(0, 2047),
};

const FRAMES_ARGUMENTS: [Argument; 2] = [SETTINGS, RECORDING];

const PACKETS_ARGUMENTS: [Argument; 8] = [
    SETTINGS, BINARY, REPORT, CHECKPOINT, STOP_AFTER, RESUME, STRICT, RECORDING,
];

const EXTRACT_ARGUMENTS: [Argument; 7] = [
    SETTINGS, REPORT, CHECKPOINT, STOP_AFTER, RESUME, STRICT, RECORDING,
];

const SPLIT_ARGUMENTS: [Argument; 8] = [
    SETTINGS, DIR, REPORT, CHECKPOINT, STOP_AFTER, RESUME, STRICT, RECORDING,
];

const FIELDS_ARGUMENTS: [Argument; 10] = [
    SETTINGS, DEFINITION, APID, BINARY, REPORT, CHECKPOINT, STOP_AFTER, RESUME, STRICT, RECORDING,
];

const SUMMARY_ARGUMENTS: [Argument; 3] = [SETTINGS, STRICT, RECORDING];

pub(crate) const SUBCOMMANDS: [Subcommand; 6] = [
    Subcommand {
        name: "frames",
        about: "Lists the frames: one line for each record of the recording",
        arguments: &FRAMES_ARGUMENTS,
        example: "Example:\n  tmx frames --settings s.toml pass.rec",
    },
    Subcommand {
        name: "packets",
        about: "Lists the packets of the chosen channels: one line for each",
        arguments: &PACKETS_ARGUMENTS,
        example: "Example:\n  tmx packets --settings s.toml --report report.txt pass.rec",
    },
    Subcommand {
        name: "extract",
        about: "Extracts the packets of the chosen channels: their octets, with nothing between them",
        arguments: &EXTRACT_ARGUMENTS,
        example: "Example:\n  zcat pass.rec.gz | tmx extract --settings s.toml --report report.txt > pass.pkt",
    },
    Subcommand {
        name: "split",
        about: "Extracts the packets of the chosen channels to a file for each application",
        arguments: &SPLIT_ARGUMENTS,
        example: "Example:\n  tmx split --settings s.toml --dir packets --report report.txt pass.rec",
    },
    Subcommand {
        name: "fields",
        about: "Reads the fields of an application's packets: a row of CSV for each packet",
        arguments: &FIELDS_ARGUMENTS,
        example: "Example:\n  tmx fields --settings s.toml --definition fields.csv --apid 101 pass.rec > rows.csv",
    },
    Subcommand {
        name: "summary",
        about: "Sums up the recording: what came of each channel and application, and what was lost",
        arguments: &SUMMARY_ARGUMENTS,
        example: "Example:\n  tmx summary --settings s.toml pass.rec",
    },
];
