//! Where octets go that are not kept.

use crate::{DeviceFailed, Drain};

/// A drain that keeps nothing.
#[derive(Drop)]
pub(crate) struct Nowhere;

impl Drain for Nowhere {
    ghost failures = { λ _. 0 };

    fn write(&mut self, octets: &[u8]) -> Result<usize, DeviceFailed> {
        Ok(octets.len())
    }

    fn flush(&mut self) -> Result<(), DeviceFailed> {
        Ok(())
    }
}
