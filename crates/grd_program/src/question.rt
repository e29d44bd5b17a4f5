/// What is asked about a world.
#[derive(Clone, Copy, Debug, PartialEq, Eq)]
pub(crate) enum Question {
    /// The cost of each goal, with an optimal plan.
    Costs,
    /// The costs, and how long two goals can't be told apart.
    Wcd,
}
