use grd_base::OutOfMemory;
use std::alloc::{AllocError, AllocFailed};
use thiserror::Error;

/// Why a search gave up.
#[derive(Clone, Copy, Debug, PartialEq, Eq, Error)]
pub enum SearchFault {
    /// More states count for the question than the limit allows.
    #[error("too many states")]
    TooManyStates,
    #[error("out of memory")]
    OutOfMemory,
}

impl From<OutOfMemory> for SearchFault {
    ghost use Rattle.std.specs.Prelude.{◌≡◌};
    ghost use Rattle.search_core.specs.declared.faults.SearchFault.TheVariants.{OutOfMemory};

    ghost from_gives = { λ _ fault. fault ≡ OutOfMemory };

    fn from(_error: OutOfMemory) -> SearchFault {
        SearchFault::OutOfMemory
    }
}

impl From<AllocError> for SearchFault {
    ghost use Rattle.std.specs.Prelude.{◌≡◌};
    ghost use Rattle.search_core.specs.declared.faults.SearchFault.TheVariants.{OutOfMemory};

    ghost from_gives = { λ _ fault. fault ≡ OutOfMemory };

    fn from(_error: AllocError) -> SearchFault {
        SearchFault::OutOfMemory
    }
}

impl<T: Drop> From<AllocFailed<T>> for SearchFault {
    ghost use Rattle.std.specs.Prelude.{◌≡◌};
    ghost use Rattle.search_core.specs.declared.faults.SearchFault.TheVariants.{OutOfMemory};

    ghost from_gives = { λ _ fault. fault ≡ OutOfMemory };

    fn from(_error: AllocFailed<T>) -> SearchFault {
        SearchFault::OutOfMemory
    }
}
