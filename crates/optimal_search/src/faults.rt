ghost use Rattle.std.specs.Prelude.{◌≡◌, ◌↔◌};
ghost use Rattle.grd_base.specs.declared.ids.GoalId.{GoalId};

use grd_base::{GoalId, OutOfMemory};
use search_core::SearchFault;
use std::alloc::{AllocError, AllocFailed};
use thiserror::Error;

/// Why there is no answer over the goals of a task.
#[derive(Clone, Copy, Debug, PartialEq, Eq, Error)]
pub enum GoalSearchFault {
    /// More states count for this goal than the limit allows.
    #[error("too many states")]
    TooManyStates(GoalId),
    #[error("out of memory")]
    OutOfMemory,
}

impl GoalSearchFault {
    /// What a search about this goal was refused for.
    pub fn of(fault: SearchFault, goal: GoalId) -> GoalSearchFault
        ensures { (g : GoalId) → (result ≡ GoalSearchFault.TooManyStates g)
            ↔ ((fault ≡ SearchFault.TooManyStates) × (g ≡ goal)) }
    {
        match fault {
            SearchFault::TooManyStates => GoalSearchFault::TooManyStates(goal),
            SearchFault::OutOfMemory => GoalSearchFault::OutOfMemory,
        }
    }
}

impl From<AllocError> for GoalSearchFault {
    ghost use Rattle.std.specs.Prelude.{◌≡◌};
    ghost use Rattle.optimal_search.specs.declared.faults.GoalSearchFault.TheVariants.{OutOfMemory};

    ghost from_gives = { λ _ fault. fault ≡ OutOfMemory };

    fn from(_error: AllocError) -> GoalSearchFault {
        GoalSearchFault::OutOfMemory
    }
}

impl<T: Drop> From<AllocFailed<T>> for GoalSearchFault {
    ghost use Rattle.std.specs.Prelude.{◌≡◌};
    ghost use Rattle.optimal_search.specs.declared.faults.GoalSearchFault.TheVariants.{OutOfMemory};

    ghost from_gives = { λ _ fault. fault ≡ OutOfMemory };

    fn from(_error: AllocFailed<T>) -> GoalSearchFault {
        GoalSearchFault::OutOfMemory
    }
}

impl From<OutOfMemory> for GoalSearchFault {
    ghost use Rattle.std.specs.Prelude.{◌≡◌};
    ghost use Rattle.optimal_search.specs.declared.faults.GoalSearchFault.TheVariants.{OutOfMemory};

    ghost from_gives = { λ _ fault. fault ≡ OutOfMemory };

    fn from(_error: OutOfMemory) -> GoalSearchFault {
        GoalSearchFault::OutOfMemory
    }
}
