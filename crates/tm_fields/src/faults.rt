//! Why a packet gives no row.

ghost use Rattle.std.specs.Prelude.{◌≡◌};

use std::alloc::AllocError;

/// Why a packet gives no row.
#[derive(Clone, Copy, Debug, PartialEq, Eq)]
pub enum RowFault {
    /// The packet has fewer bits than the definition needs.
    ShortPacket {
        /// The bits that are needed.
        needed: u64,
        /// The bits that the packet has.
        found: u64,
    },
    /// Memory ran out.
    NoMemory,
}

impl From<AllocError> for RowFault {
    ghost use Rattle.tm_fields.specs.declared.faults.RowFault.TheVariants.{NoMemory};

    ghost from_gives = { λ _ e. e ≡ NoMemory };

    fn from(_: AllocError) -> Self {
        RowFault::NoMemory
    }
}
