use crate::command::OptionName;
use std::alloc::{AllocError, AllocFailed};
use thiserror::Error;

/// Why words are refused. A number is the place of a word behind the program's name, from 1.
#[derive(Clone, Copy, Debug, PartialEq, Eq)]
pub enum UsageFault {
    /// There is no word.
    NoCommand,
    /// The first word is no command.
    UnknownCommand,
    /// The word is no item of the command, or no value.
    BadItem(u64),
    /// The word is an option that is given before, with a word behind it, or an item of such an option
    /// in one word.
    Repeated(u64),
    /// An option that the command must have is not given.
    Missing(OptionName),
    /// What an option is given is no number of its range.
    BadNumber(OptionName),
}

/// Why words give no job.
#[derive(Clone, Copy, Debug, PartialEq, Eq, Error)]
pub enum WordsFault {
    #[error("usage")]
    Usage(UsageFault),
    #[error("out of memory")]
    OutOfMemory,
}

impl From<AllocError> for WordsFault {
    ghost use Rattle.std.specs.Prelude.{◌≡◌};
    ghost use Rattle.command_words.specs.declared.faults.WordsFault.TheVariants.{OutOfMemory};

    ghost from_gives = { λ _ fault. fault ≡ OutOfMemory };

    fn from(_error: AllocError) -> WordsFault {
        WordsFault::OutOfMemory
    }
}

impl<T: Drop> From<AllocFailed<T>> for WordsFault {
    ghost use Rattle.std.specs.Prelude.{◌≡◌};
    ghost use Rattle.command_words.specs.declared.faults.WordsFault.TheVariants.{OutOfMemory};

    ghost from_gives = { λ _ fault. fault ≡ OutOfMemory };

    fn from(_error: AllocFailed<T>) -> WordsFault {
        WordsFault::OutOfMemory
    }
}
