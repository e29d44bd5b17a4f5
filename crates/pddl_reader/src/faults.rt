use pddl_lexer::{LexFault, TreeFault};
use std::alloc::{AllocError, AllocFailed};
use thiserror::Error;

/// Why a text spells no domain or problem. A place is a byte number, counted from 0.
#[derive(Clone, Copy, Debug, PartialEq, Eq, Error)]
pub enum PddlFault {
    /// A byte outside comments that is neither space nor printable ASCII.
    #[error("byte {0}: bad byte")]
    Lex(u32),
    /// The text is not one list. The fault is never want of memory.
    #[error("{0}")]
    Tree(TreeFault),
    /// An item that has no place in the form, or a list that lacks a needed item.
    #[error("byte {0}: shape")]
    Shape(u32),
    /// A part of PDDL that is refused by name: the place of its list or word.
    #[error("byte {0}: unsupported {1}")]
    Unsupported(u32, Feature),
    /// The second section of a kind, at its bracket, or the second part of a kind in an action, at
    /// its keyword.
    #[error("byte {0}: doubled section")]
    DoubledSection(u32),
    #[error("out of memory")]
    OutOfMemory,
}

/// A part of PDDL that is refused.
#[derive(Clone, Copy, Debug, PartialEq, Eq, Error)]
pub enum Feature {
    /// A keyword in `:requirements` other than those that are accepted.
    #[error("requirement")]
    Requirement,
    #[error("functions")]
    Functions,
    #[error("derived predicate")]
    Derived,
    #[error("durative action")]
    Durative,
    #[error("constraints")]
    Constraints,
    #[error("metric")]
    Metric,
    /// `either` as the type of a type, a constant or an object.
    #[error("either")]
    EitherOfNames,
    #[error("disjunction")]
    Disjunction,
    #[error("implication")]
    Implication,
    #[error("quantifier")]
    Quantifier,
    #[error("conditional effect")]
    Conditional,
    #[error("preference")]
    Preference,
    #[error("numeric effect")]
    NumericEffect,
    #[error("numeric condition")]
    NumericCondition,
    #[error("equality")]
    Equality,
    #[error("negative initial atom")]
    NegativeInit,
}

impl From<LexFault> for PddlFault {
    ghost use Rattle.std.specs.Prelude.{◌≡◌};
    ghost use Rattle.pddl_reader.specs.Faults.{fault_of_lex};

    ghost from_gives = { λ fault made. made ≡ fault_of_lex fault };

    fn from(fault: LexFault) -> PddlFault {
        match fault {
            LexFault::BadByte(at) => PddlFault::Lex(at),
            LexFault::OutOfMemory => PddlFault::OutOfMemory,
        }
    }
}

impl From<TreeFault> for PddlFault {
    ghost use Rattle.std.specs.Prelude.{◌≡◌};
    ghost use Rattle.pddl_reader.specs.Faults.{fault_of_tree};

    ghost from_gives = { λ fault made. made ≡ fault_of_tree fault };

    fn from(fault: TreeFault) -> PddlFault {
        match fault {
            TreeFault::OutOfMemory => PddlFault::OutOfMemory,
            fault => PddlFault::Tree(fault),
        }
    }
}

impl From<AllocError> for PddlFault {
    ghost use Rattle.std.specs.Prelude.{◌≡◌};
    ghost use Rattle.pddl_reader.specs.declared.faults.PddlFault.TheVariants.{OutOfMemory};

    ghost from_gives = { λ _ fault. fault ≡ OutOfMemory };

    fn from(_error: AllocError) -> PddlFault {
        PddlFault::OutOfMemory
    }
}

impl<T: Drop> From<AllocFailed<T>> for PddlFault {
    ghost use Rattle.std.specs.Prelude.{◌≡◌};
    ghost use Rattle.pddl_reader.specs.declared.faults.PddlFault.TheVariants.{OutOfMemory};

    ghost from_gives = { λ _ fault. fault ≡ OutOfMemory };

    fn from(_error: AllocFailed<T>) -> PddlFault {
        PddlFault::OutOfMemory
    }
}
