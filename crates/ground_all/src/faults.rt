use grd_base::OutOfMemory;
use std::alloc::{AllocError, AllocFailed};
use thiserror::Error;

/// Why a typed domain and problem are not grounded.
#[derive(Clone, Copy, Debug, PartialEq, Eq, Error)]
pub enum GroundFault {
    /// How many fluent atoms and complements there are, where that is more than 3,072.
    #[error("{0} atoms, limit 3072")]
    TooManyAtoms(u128),
    /// How many typed instances the actions have, where that is more than 1,048,576.
    #[error("{0} actions, limit 1048576")]
    TooManyActions(u128),
    #[error("out of memory")]
    OutOfMemory,
}

impl From<OutOfMemory> for GroundFault {
    ghost use Rattle.std.specs.Prelude.{◌≡◌};
    ghost use Rattle.ground_all.specs.declared.faults.GroundFault.TheVariants.{OutOfMemory};

    ghost from_gives = { λ _ fault. fault ≡ OutOfMemory };

    fn from(_error: OutOfMemory) -> GroundFault {
        GroundFault::OutOfMemory
    }
}

impl From<AllocError> for GroundFault {
    ghost use Rattle.std.specs.Prelude.{◌≡◌};
    ghost use Rattle.ground_all.specs.declared.faults.GroundFault.TheVariants.{OutOfMemory};

    ghost from_gives = { λ _ fault. fault ≡ OutOfMemory };

    fn from(_error: AllocError) -> GroundFault {
        GroundFault::OutOfMemory
    }
}

impl<T: Drop> From<AllocFailed<T>> for GroundFault {
    ghost use Rattle.std.specs.Prelude.{◌≡◌};
    ghost use Rattle.ground_all.specs.declared.faults.GroundFault.TheVariants.{OutOfMemory};

    ghost from_gives = { λ _ fault. fault ≡ OutOfMemory };

    fn from(_error: AllocFailed<T>) -> GroundFault {
        GroundFault::OutOfMemory
    }
}
