//! Mutable access to what was in a box.

ghost use Rattle.std.specs.Prelude.{◌≡◌};
ghost use Rattle.std.specs.Borrow.{sem};
ghost use Rattle.tm_handle.specs.LooseBox.{loose_follows};

use crate::loose::Loose;
use std::alloc::Allocator;

impl<T, A: Allocator> Loose<T, A> {
    /// The value. The pointer stays as it is.
    pub fn as_mut(&mut self) -> &mut T
        ensures* writes_back { sem 𝓛 (loose_follows T.row A.row A.Allocator self.entry result) }
        ensures value { result.now ≡ self.old.value }
    {
        let at = self.at;
        unsafe { &mut *at }
    }
}
