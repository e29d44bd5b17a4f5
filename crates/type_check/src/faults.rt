use grd_base::{FileRole, OutOfMemory};
use std::alloc::{AllocError, AllocFailed};
use thiserror::Error;

/// The rules of typing that a domain or a problem can break.
#[derive(Clone, Copy, Debug, PartialEq, Eq, Error)]
pub enum TypeKind {
    #[error("unknown type")]
    UnknownType,
    /// A type lies below itself, or `object` below another.
    #[error("type cycle")]
    TypeCycle,
    /// The name is declared before.
    #[error("doubled")]
    Doubled,
    #[error("unknown predicate")]
    UnknownPredicate,
    /// A literal has not as many terms as its predicate has parameters, or an equality not two.
    #[error("wrong count")]
    WrongCount,
    /// A type of the term is, and lies below, none of the parameter's types.
    #[error("wrong type")]
    WrongType,
    /// A name in a literal is no constant and, in the problem, no object.
    #[error("unknown name")]
    UnknownName,
    #[error("unbound variable")]
    UnboundVariable,
    /// The problem is for a domain of another name.
    #[error("other domain")]
    OtherDomain,
    /// More than 1,024 constants and objects.
    #[error("too many objects")]
    TooManyObjects,
    /// More than 8.
    #[error("too many parameters")]
    TooManyParameters,
    /// More than 64 in the precondition and the effect of an action.
    #[error("too many literals")]
    TooManyLiterals,
}

/// The first rule that is broken.
#[derive(Clone, Copy, Debug, PartialEq, Eq, Error)]
#[error("byte {at}: {kind}")]
pub struct TypeFault {
    pub kind: TypeKind,
    /// The domain's file or the problem's.
    pub file: FileRole,
    /// The place in the file of the name in question, counted from 0.
    pub at: u32,
}

/// Why a domain and a problem make nothing.
#[derive(Clone, Copy, Debug, PartialEq, Eq, Error)]
pub enum CheckTypeFault {
    #[error("{0}")]
    Typing(TypeFault),
    #[error("out of memory")]
    OutOfMemory,
}

impl From<OutOfMemory> for CheckTypeFault {
    ghost use Rattle.std.specs.Prelude.{◌≡◌};
    ghost use Rattle.type_check.specs.declared.faults.CheckTypeFault.TheVariants.{OutOfMemory};

    ghost from_gives = { λ _ fault. fault ≡ OutOfMemory };

    fn from(_error: OutOfMemory) -> CheckTypeFault {
        CheckTypeFault::OutOfMemory
    }
}

impl From<AllocError> for CheckTypeFault {
    ghost use Rattle.std.specs.Prelude.{◌≡◌};
    ghost use Rattle.type_check.specs.declared.faults.CheckTypeFault.TheVariants.{OutOfMemory};

    ghost from_gives = { λ _ fault. fault ≡ OutOfMemory };

    fn from(_error: AllocError) -> CheckTypeFault {
        CheckTypeFault::OutOfMemory
    }
}

impl<T: Drop> From<AllocFailed<T>> for CheckTypeFault {
    ghost use Rattle.std.specs.Prelude.{◌≡◌};
    ghost use Rattle.type_check.specs.declared.faults.CheckTypeFault.TheVariants.{OutOfMemory};

    ghost from_gives = { λ _ fault. fault ≡ OutOfMemory };

    fn from(_error: AllocFailed<T>) -> CheckTypeFault {
        CheckTypeFault::OutOfMemory
    }
}
