use std::alloc::{AllocError, AllocFailed};
use thiserror::Error;

/// Why a text has no tokens. A place is a byte number, counted from 0.
#[derive(Clone, Copy, Debug, PartialEq, Eq, Error)]
pub enum LexFault {
    /// A byte outside comments that is neither space nor printable ASCII.
    #[error("byte {0}: bad byte")]
    BadByte(u32),
    #[error("out of memory")]
    OutOfMemory,
}

/// Why tokens are not one list. A place is that of a token's first byte, counted from 0.
#[derive(Clone, Copy, Debug, PartialEq, Eq, Error)]
pub enum TreeFault {
    /// There is no token.
    #[error("empty")]
    Nothing,
    /// An opening bracket that would make a list of depth 65.
    #[error("byte {0}: too deep")]
    TooDeep(u32),
    /// A closing bracket where no list is open.
    #[error("byte {0}: unopened")]
    Unopened(u32),
    /// A word or an opening bracket outside the first list.
    #[error("byte {0}: trailing")]
    Trailing(u32),
    /// The innermost opening bracket whose list does not end.
    #[error("byte {0}: unclosed")]
    Unclosed(u32),
    #[error("out of memory")]
    OutOfMemory,
}

impl<T: Drop> From<AllocFailed<T>> for LexFault {
    ghost use Rattle.std.specs.Prelude.{◌≡◌};
    ghost use Rattle.pddl_lexer.specs.declared.faults.LexFault.TheVariants.{OutOfMemory};

    ghost from_gives = { λ _ fault. fault ≡ OutOfMemory };

    fn from(_error: AllocFailed<T>) -> LexFault {
        LexFault::OutOfMemory
    }
}

impl From<AllocError> for TreeFault {
    ghost use Rattle.std.specs.Prelude.{◌≡◌};
    ghost use Rattle.pddl_lexer.specs.declared.faults.TreeFault.TheVariants.{OutOfMemory};

    ghost from_gives = { λ _ fault. fault ≡ OutOfMemory };

    fn from(_error: AllocError) -> TreeFault {
        TreeFault::OutOfMemory
    }
}

impl<T: Drop> From<AllocFailed<T>> for TreeFault {
    ghost use Rattle.std.specs.Prelude.{◌≡◌};
    ghost use Rattle.pddl_lexer.specs.declared.faults.TreeFault.TheVariants.{OutOfMemory};

    ghost from_gives = { λ _ fault. fault ≡ OutOfMemory };

    fn from(_error: AllocFailed<T>) -> TreeFault {
        TreeFault::OutOfMemory
    }
}
