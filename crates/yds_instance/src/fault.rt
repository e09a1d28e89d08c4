ghost use Rattle.std.specs.Prelude.{◌≡◌};
ghost use Rattle.yds_instance.specs.declared.fault.AddFault.TheVariants.{Memory};

use std::alloc::{AllocError, AllocFailed};
use thiserror::Error;

/// Why a job couldn't be added to an instance, which is then unchanged.
#[derive(Clone, Copy, Debug, PartialEq, Eq, Error)]
pub enum AddFault {
    /// The name stands already, at the job with this number.
    #[error("the name stands already, at job {0}")]
    Duplicate(u32),
    /// The name is new, and the instance has the greatest number of jobs, `MAX_JOBS`.
    #[error("too many jobs")]
    Full,
    /// Out of memory.
    #[error("out of memory")]
    Memory,
}

impl From<AllocError> for AddFault {
    ghost from_gives = { λ _ fault. fault ≡ Memory };

    fn from(_error: AllocError) -> AddFault {
        AddFault::Memory
    }
}

impl<T: Drop> From<AllocFailed<T>> for AddFault {
    ghost from_gives = { λ _ fault. fault ≡ Memory };

    fn from(_error: AllocFailed<T>) -> AddFault {
        AddFault::Memory
    }
}
