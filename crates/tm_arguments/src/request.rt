//! What the arguments of the command line ask for.

use tm_bits::Octets;

/// What to do.
#[derive(Clone, Copy, Debug, PartialEq, Eq)]
pub enum Action {
    /// List the frames.
    Frames,
    /// List the packets.
    Packets,
    /// Give the packets' octets.
    Extract,
    /// Give the packets' octets, to a file for each application.
    Split,
    /// Read the fields of an application's packets.
    Fields,
    /// Sum up what came and what was lost.
    Summary,
}

/// What the arguments ask for. Texts are the octets of their UTF-8.
#[derive(Debug, Drop)]
pub struct Plan {
    pub action: Action,
    /// The recording's file; standard input where it is absent.
    pub recording: Option<Octets>,
    /// The settings' file, which each action needs.
    pub settings: Option<Octets>,
    /// The report's file; standard error where it is absent.
    pub report: Option<Octets>,
    /// The file for the checkpoint after the run; the recording is taken to its end where it is absent.
    pub checkpoint: Option<Octets>,
    /// The number of records after which to stop, which is there only where `checkpoint` is.
    pub stop_after: Option<u32>,
    /// The file of the checkpoint to go on from; the recording's beginning where it is absent.
    pub resume: Option<Octets>,
    /// The folder for the files of applications, which splitting needs.
    pub dir: Option<Octets>,
    /// The definition's file, which reading fields needs.
    pub definition: Option<Octets>,
    /// The application whose packets' fields are read, which reading fields needs.
    pub apid: Option<u16>,
    /// Whether packets or rows are given in octets, and not as text.
    pub binary: bool,
    /// Whether the status of a run that is done says what was lost.
    pub strict: bool,
}
