//! Refusals.

/// Memory ran out.
#[derive(Clone, Copy, Debug, PartialEq, Eq)]
pub struct NoMemory;

/// Why a step, or a closed end, is refused.
#[derive(Clone, Copy, Debug, PartialEq, Eq)]
pub enum StepFault<F> {
    /// The sink refused an item, with this fault.
    Sink(F),
    /// An earlier step was refused by its sink.
    Failed,
    /// The greatest number of records, 2^32 - 1, is done.
    TooMany,
}

/// Why octets are no spelling of a reassembly's state.
#[derive(Clone, Copy, Debug, PartialEq, Eq)]
pub enum StateFault {
    /// Octets are missing.
    Short,
    /// The flag of the master channel's count is over 1; or a channel's flag is none of 0, 1 and 2, or not 0 where the channel isn't chosen.
    Flag,
    /// A tail has no octets, or at least as many as a packet may have. Or it isn't the beginning of a packet of version 0 that is
    /// longer than the tail, and no longer than a packet may be.
    Tail,
    /// A tail begins in a record that isn't done, or where no packet can start.
    Place,
    /// Memory ran out.
    NoMemory,
}
