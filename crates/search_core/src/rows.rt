use grd_base::{ActionId, Bound};

/// A state with a bound on the number of steps from it to a done one. A row with a mark is refuted
/// by the floor, every other row by the rows of its successors.
#[derive(Drop)]
pub struct KeptRow<T, M> {
    pub state: T,
    /// At `Steps(n)` more than n steps lead to a done state, one more than a floor's `Steps(n)` says: no path
    /// of at most n does. At `Never` no path does.
    pub bound: Bound,
    /// What shows a bound above the row's, or `Never` for `Never`.
    pub mark: Option<M>,
}

/// Whether a done state lies within the asked number of steps.
#[derive(Drop)]
pub enum WithinAnswer<T, M> {
    /// One does: the actions of a path to it.
    Yes(Vec<ActionId>),
    /// None does.
    No(Vec<KeptRow<T, M>>),
    /// No number of steps leads to one.
    Never(Vec<KeptRow<T, M>>),
}

/// A path of least length to a done state, or that none is reached. The rows rule out every shorter
/// path.
#[derive(Drop)]
pub enum LeastAnswer<T, M> {
    /// The actions of the path.
    Found(Vec<ActionId>, Vec<KeptRow<T, M>>),
    /// No number of steps leads to a done state.
    Never(Vec<KeptRow<T, M>>),
}
