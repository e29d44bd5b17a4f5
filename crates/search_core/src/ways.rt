use grd_base::ActionId;

/// How a state is reached.
#[derive(Clone, Copy, Debug)]
pub(crate) struct Way {
    /// The length of a path to it.
    pub depth: u32,
    /// The place of the state before it on that path, among the states that were found.
    pub parent: usize,
    /// The action between the two.
    pub action: ActionId,
}

/// A found state that is expanded.
#[derive(Clone, Copy, Debug)]
pub(crate) struct Head {
    /// Its place among the states that were found.
    pub place: usize,
    /// The length of the path to it.
    pub depth: u32,
}
