//! A pointer to a job, or null.

ghost use Rattle.std.specs.Prelude.{◌≡◌, Option, Some, None, MatchOption};
ghost use denote.RawPtr.{null_ptr};
ghost use Rattle.std.specs.Coded.{coded_option};
ghost use Rattle.tm_feed.specs.contracts.job.FedJob.{the_row};
ghost use Rattle.tm_feed.specs.States.{FeedState};
ghost use Rattle.tm_handle.specs.Owned.{owned};

use crate::loose::Loose;
use std::alloc::Global;
use std::marker::Model;
use std::ptr::null_mut;
use tm_feed::FedJob;

/// In C this is a pointer to a struct that only this library knows, or null.
#[repr(C)]
pub struct Handle {
    pub at: *mut u8,
    alloc: Global,
    pub ghost job: { Option FeedState } by { coded_option the_row.coded },
}

impl Model for Handle {
    ghost also_owns = { λ h. owned h.alloc h.at h.job };
}

impl Handle {
    /// A handle of no job, which is null.
    pub fn empty(alloc: Global) -> Handle
        ensures { (result.job ≡ None) × (result.at ≡ null_ptr) }
    {
        Handle {
            at: null_mut(),
            alloc,
        }
    }

    /// A handle of the job whose box was taken apart.
    pub fn of_loose(loose: Loose<FedJob, Global>) -> Handle
        ensures { (result.job ≡ Some loose.value) × (result.at ≡ loose.at) }
    {
        let Loose { at, alloc } = loose;
        Handle {
            at: at as *mut u8,
            alloc,
        }
    }

    /// The job, which stays where it is.
    pub fn into_loose(self) -> Option<Loose<FedJob, Global>>
        ensures { MatchOption result ((self.job ≡ None) × (self.at ≡ null_ptr))
            (λ loose. (self.job ≡ Some loose.value) × (self.at ≡ loose.at)) }
    {
        let Handle { at, alloc } = self;
        if at.is_null() {
            None
        } else {
            Some(Loose {
                at: at as *mut FedJob,
                alloc,
            })
        }
    }

    /// A handle of the job in the box.
    pub fn of(job: Box<FedJob>) -> Handle
        ensures { result.job ≡ Some job.value }
    {
        Handle::of_loose(Loose::of(job))
    }

    /// The job, in a box.
    pub fn into_box(self) -> Option<Box<FedJob>>
        ensures { MatchOption result (self.job ≡ None) (λ job. self.job ≡ Some job.value) }
    {
        match self.into_loose() {
            Some(loose) => Some(loose.into_box()),
            None => None,
        }
    }
}

impl Drop for Handle {
    fn drop(self) {
        drop(self.into_box());
    }
}
