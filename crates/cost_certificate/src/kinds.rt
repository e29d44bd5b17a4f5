use thiserror::Error;

/// What a certificate can fail, with its printed words.
#[derive(Clone, Copy, Debug, PartialEq, Eq, Error)]
pub enum CheckKind {
    /// The line is of no kind, or of one that may not stand there.
    #[error("bad line")]
    BadLine,
    /// A list that has to rise does not, or a number is out of its range or not the one that has to
    /// stand there.
    #[error("bad number")]
    BadNumber,
    /// The goal holds in a row's state.
    #[error("row goal holds")]
    RowGoalHolds,
    /// A set lacks an atom of its row's state.
    #[error("cut misses state")]
    CutMissesState,
    /// The goal holds in a set.
    #[error("cut holds goal")]
    CutHoldsGoal,
    /// The cut of a set shares an action with that of an earlier set of its row.
    #[error("cuts meet")]
    CutsMeet,
    /// A row has no empty cut and too few cuts for its bound.
    #[error("too few cuts")]
    TooFewCuts,
    /// Some successor of a row's state has no row that is as high as the bound needs.
    #[error("row successor")]
    RowSuccessor,
    /// A plan does not run, uses a removed action, misses its goal, does not begin with its prefix, or
    /// does not embed the observations.
    #[error("plan broken")]
    PlanBroken,
    /// A plan is not as long as its cost, or a prefix not as long as is claimed.
    #[error("plan length")]
    PlanLength,
    /// Some successor of a live row's state has no live row.
    #[error("live successor")]
    LiveSuccessor,
    /// A live row would need one that is deeper than is claimed.
    #[error("live too deep")]
    LiveTooDeep,
    /// The prefix of a branch is shorter than its tree demands.
    #[error("tree branch")]
    TreeBranch,
    /// A leaf uses no named table, one of another goal, or one that removes an action which the leaf keeps.
    #[error("use missing")]
    UseMissing,
    /// The table of a leaf has no row for the start that is high enough.
    #[error("tree leaf")]
    TreeLeaf,
    /// What is claimed is not shown.
    #[error("claim missing")]
    ClaimMissing,
    /// The file ends too early.
    #[error("truncated")]
    Truncated,
    /// The file goes on behind its last line.
    #[error("trailing")]
    Trailing,
}

/// The first fault of a table.
#[derive(Clone, Copy, Debug, PartialEq, Eq)]
pub struct TableFault {
    pub kind: CheckKind,
    /// The row's place in the table, from 0.
    pub row: u64,
    /// The set's place in the row, from 0; 0 where the kind is not placed at a set.
    pub set: u64,
}
