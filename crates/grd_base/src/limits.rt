/// A bound on a number of steps.
#[derive(Clone, Copy, Debug, PartialEq, Eq, PartialOrd, Ord, Hash)]
pub enum Bound {
    /// A number of steps: of a floor, at least so many are needed; of a row, so many do not suffice.
    Steps(u32),
    /// No number of steps suffices. It counts as at least every number.
    Never,
}

/// How much a search may count.
#[derive(Clone, Copy, Debug, PartialEq, Eq)]
pub struct Limits {
    /// The most states that the questions about one goal may count, each question by itself.
    pub states: u32,
    /// The most sets of removed actions that one tree of a design may count.
    pub sets: u32,
}
