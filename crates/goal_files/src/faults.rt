use std::alloc::{AllocError, AllocFailed};
use thiserror::Error;

/// Why a goals file gives no goals. Lines are counted from 1, skipped ones among them.
#[derive(Clone, Copy, Debug, PartialEq, Eq, Error)]
pub enum GoalFault {
    /// The line is no list of atoms.
    #[error("line {0}: shape")]
    Shape(u32),
    /// An atom of the line is none of the domain's.
    #[error("line {0}: unknown atom")]
    UnknownAtom(u32),
    /// Every line is skipped.
    #[error("no goal")]
    NoGoal,
    /// There are so many goals, more than may be.
    #[error("{0} goals")]
    TooManyGoals(u32),
    #[error("out of memory")]
    OutOfMemory,
}

impl From<AllocError> for GoalFault {
    ghost use Rattle.std.specs.Prelude.{◌≡◌};
    ghost use Rattle.goal_files.specs.declared.faults.GoalFault.TheVariants.{OutOfMemory};

    ghost from_gives = { λ _ fault. fault ≡ OutOfMemory };

    fn from(_error: AllocError) -> GoalFault {
        GoalFault::OutOfMemory
    }
}

impl<T: Drop> From<AllocFailed<T>> for GoalFault {
    ghost use Rattle.std.specs.Prelude.{◌≡◌};
    ghost use Rattle.goal_files.specs.declared.faults.GoalFault.TheVariants.{OutOfMemory};

    ghost from_gives = { λ _ fault. fault ≡ OutOfMemory };

    fn from(_error: AllocFailed<T>) -> GoalFault {
        GoalFault::OutOfMemory
    }
}

/// Why an observations file gives no observations. Lines are counted from 1, skipped ones among them.
#[derive(Clone, Copy, Debug, PartialEq, Eq, Error)]
pub enum ObsFault {
    /// The line is no list of names.
    #[error("line {0}: shape")]
    Shape(u32),
    /// The line's action is none of the task's.
    #[error("line {0}: unknown action")]
    UnknownAction(u32),
    /// There are so many observations, more than may be.
    #[error("{0} observations")]
    TooManyObservations(u32),
    #[error("out of memory")]
    OutOfMemory,
}

impl From<AllocError> for ObsFault {
    ghost use Rattle.std.specs.Prelude.{◌≡◌};
    ghost use Rattle.goal_files.specs.declared.faults.ObsFault.TheVariants.{OutOfMemory};

    ghost from_gives = { λ _ fault. fault ≡ OutOfMemory };

    fn from(_error: AllocError) -> ObsFault {
        ObsFault::OutOfMemory
    }
}

impl<T: Drop> From<AllocFailed<T>> for ObsFault {
    ghost use Rattle.std.specs.Prelude.{◌≡◌};
    ghost use Rattle.goal_files.specs.declared.faults.ObsFault.TheVariants.{OutOfMemory};

    ghost from_gives = { λ _ fault. fault ≡ OutOfMemory };

    fn from(_error: AllocFailed<T>) -> ObsFault {
        ObsFault::OutOfMemory
    }
}
