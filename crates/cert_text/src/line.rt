use grd_base::Bound;
use std::alloc::{AllocError, AllocFailed};
use thiserror::Error;

/// A line of a certificate, with its numbers in the order in which they stand in the text. Goals count
/// from 1.
#[derive(Debug, PartialEq, Eq, Drop)]
pub enum CertLine {
    /// The first line of version 1.
    Head,
    /// The first line of version 2.
    HeadTwo,
    /// The numbers of fluent atoms, actions, goals and observations, and the budget.
    Counts(u32, u32, u32, u32, u32),
    /// A goal with its cost.
    GoalCost(u32, Option<u32>),
    /// A sequence of actions.
    Plan(Vec<u32>),
    Table,
    /// A row by cuts, with its state.
    Cuts(Bound, Vec<u32>),
    /// One set of the row by cuts above.
    Set(Vec<u32>),
    /// A row by steps, with its state.
    Steps(Bound, Vec<u32>),
    End,
    /// A goal, and whether it is recognised.
    Verdict(u32, bool),
    /// A length and two goals.
    Wcd(Option<(u32, u32, u32)>),
    Prefix(Vec<u32>),
    /// A live row: its depth, its goals and its state.
    Live(u32, Vec<u32>, Vec<u32>),
    /// How many actions are removed, and the wcd without them.
    Design(u32, Option<u32>),
    Remove(Vec<u32>),
    /// A named table: its number, its goal and the removed actions.
    Named(u32, u32, Vec<u32>),
    /// A tree: how many actions a set may have, and the least length.
    Tree(u32, u32),
    /// A node that shows a prefix of two goals.
    Branch(u32, u32),
    /// A node that shows a table of its own for the goal.
    Leaf(u32),
    /// A node that shows the named table of this number for the goal.
    LeafUse(u32, u32),
    Done,
}

/// Why a reader of lines stops. Lines count from 1.
#[derive(Clone, Copy, Debug, PartialEq, Eq, Error)]
pub enum LineFault {
    /// The line is of no kind.
    #[error("line {0}: bad line")]
    BadLine(u64),
    /// The line holds a number over 4294967295.
    #[error("line {0}: bad number")]
    BadNumber(u64),
    /// There are more bytes than this limit.
    #[error("longer than {0} bytes")]
    TooLong(u64),
    #[error("out of memory")]
    OutOfMemory,
}

/// The text ends within this line.
#[derive(Clone, Copy, Debug, PartialEq, Eq, Error)]
#[error("line {line}: truncated")]
pub struct Truncated {
    pub line: u64,
}

/// Why the bytes of a line give none.
#[derive(Clone, Copy, Debug, PartialEq, Eq, Error)]
pub(crate) enum BadText {
    #[error("of no kind")]
    OfNoKind,
    #[error("a number over the range")]
    OverRange,
    #[error("out of memory")]
    OutOfMemory,
}

impl From<AllocError> for BadText {
    ghost use Rattle.std.specs.Prelude.{◌≡◌};
    ghost use Rattle.cert_text.specs.declared.line.BadText.TheVariants.{OutOfMemory};

    ghost from_gives = { λ _ fault. fault ≡ OutOfMemory };

    fn from(_error: AllocError) -> BadText {
        BadText::OutOfMemory
    }
}

impl<T: Drop> From<AllocFailed<T>> for BadText {
    ghost use Rattle.std.specs.Prelude.{◌≡◌};
    ghost use Rattle.cert_text.specs.declared.line.BadText.TheVariants.{OutOfMemory};

    ghost from_gives = { λ _ fault. fault ≡ OutOfMemory };

    fn from(_error: AllocFailed<T>) -> BadText {
        BadText::OutOfMemory
    }
}
