/// What a file of the command line is for.
#[derive(Clone, Copy, Debug, PartialEq, Eq)]
pub enum FileRole {
    /// The planning domain: predicates and action schemas.
    Domain,
    /// The planning problem: objects and the initial state.
    Problem,
    /// The candidate goals, one a line.
    Goals,
    /// The observed actions, one a line.
    Observations,
    /// The certificate of a solved design.
    Certificate,
    /// The actions that an agent takes, one a line, as they come.
    Steps,
}
