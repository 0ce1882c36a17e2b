//! What a run does: each command with what it needs.

ghost use Rattle.std.specs.Prelude.{◌≡◌};
ghost use Rattle.tm_output.specs.Pieces.{text_of};
ghost use Rattle.tm_program.specs.code.Tasks.{form_texts};

use tm_fields::{Definition, RowForm};
use tm_tool::{Command, Job, Octets};

/// What a run does with its recording.
#[derive(Drop)]
pub(crate) enum Task<'p> {
    /// It tells of it on standard output.
    Overview(Overview),
    /// It gives its packets.
    Job(JobInputs<'p>),
}

/// What is told of a recording without a job.
#[derive(Clone, Copy)]
pub(crate) enum Overview {
    /// A list of its frames.
    Frames,
    /// A summary.
    Summary,
}

/// What a job starts from, and where its packets go.
#[derive(Drop)]
pub(crate) struct JobInputs<'p> {
    pub(crate) destination: Destination<'p>,
    /// The job of the checkpoint to go on from.
    pub(crate) resumed: Option<Job>,
}

/// Where packets go.
#[derive(Drop)]
pub(crate) enum Destination<'p> {
    /// To standard output.
    Output(PacketForm),
    /// To files in the folder of this name.
    Folder(&'p Octets),
}

/// How a packet is given on standard output.
#[derive(Drop)]
pub(crate) enum PacketForm {
    /// By its octets.
    Octets,
    /// By a line.
    Line,
    /// By its octets, after those that tell where it was found.
    Binary,
    /// By a row of the definition's fields, if it is of this application.
    Row(Definition, u16, RowForm),
}

impl PacketForm {
    /// The command of a run that gives packets so.
    pub(crate) fn command(&self) -> Command<'_>
        ensures { text_of result ≡ form_texts self.now }
    {
        match self {
            PacketForm::Octets => Command::Extract,
            PacketForm::Line => Command::Packets,
            PacketForm::Binary => Command::BinaryPackets,
            PacketForm::Row(definition, apid, RowForm::Text) => Command::Fields(definition, *apid),
            PacketForm::Row(definition, apid, RowForm::Binary) => {
                Command::BinaryFields(definition, *apid)
            }
        }
    }
}
