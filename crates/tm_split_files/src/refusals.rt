//! The puts that were refused.

ghost use Rattle.std.specs.Prelude.{◌≡◌, None, Some, MatchResult};
ghost use Rattle.tm_devices.specs.Devices.{CountsFailures};

use crate::files::ShelfFault;

/// A put that was refused.
#[derive(Clone, Copy)]
pub struct RefusedPut {
    /// The application whose octets were put.
    pub application: usize,
    /// Why they don't reach their file.
    pub fault: ShelfFault,
}

/// How many puts were refused, and the last of them.
#[derive(Drop)]
pub struct Refusals {
    /// How many, up to the greatest count.
    pub count: u64,
    /// The last one, if there is one.
    pub last: Option<RefusedPut>,
}

impl Refusals {
    /// None so far.
    pub fn none() -> Self
        ensures { result ≡ record { count = 0; last = None } }
    {
        Refusals {
            count: 0,
            last: None,
        }
    }

    /// Counts a put, and remembers it, if it was refused.
    pub fn add(&mut self, application: usize, put: Result<(), ShelfFault>)
        ensures counts { CountsFailures self.old.count self.new.count put }
        ensures last { MatchResult put (λ _. self.new.last ≡ self.old.last)
            (λ fault. self.new.last ≡ Some (record { application = application; fault = fault })) }
    {
        let Err(fault) = put else {
            return;
        };
        self.last = Some(RefusedPut { application, fault });
        self.count = self.count.saturating_add(1);
    }
}
