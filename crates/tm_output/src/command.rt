//! What a run gives, and where it ends.

use tm_fields::Definition;

/// What of the packets is written to the output.
#[derive(Clone, Copy)]
pub enum Command<'a> {
    /// Their octets.
    Extract,
    /// A line for each.
    Packets,
    /// After a head, a row for each packet of this application that has all bits of the definition's fields.
    Fields(&'a Definition, u16),
    /// For each 16 octets, and then its own. First come the record that completes it and the one in which it begins, in four octets
    /// each, and its place there in two. Then come its channel, a zero, and in four octets how many it has. Numbers have the least
    /// significant octet first.
    BinaryPackets,
    /// The rows of `Fields` in octets, as `RowForm::Binary` has them, and no head.
    BinaryFields(&'a Definition, u16),
}

/// Where a run ends.
#[derive(Clone, Copy, Debug, PartialEq, Eq)]
pub enum Ending {
    /// At the end of the recording, which is closed there: what is held and what is open then is reported.
    Close,
    /// At the end of a recording that may grow: a rest of less than a record is left to the job's next run.
    Keep,
    /// After this many further records, or as `Keep` at the end if there are fewer.
    StopAfter(u32),
}
