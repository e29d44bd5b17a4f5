/// What a typed list has: names, as in types, constants and objects, or variables.
#[derive(Clone, Copy)]
pub(crate) enum Listed {
    Names,
    Variables,
}

/// Where a condition or an atom may stand.
#[derive(Clone, Copy)]
pub(crate) enum Part {
    Precondition,
    Effect,
    /// The section `:init`.
    Start,
}

/// What a text is read as.
#[derive(Clone, Copy)]
pub(crate) enum Document {
    Domain,
    Problem,
}

/// The kinds of sections.
#[derive(Clone, Copy, PartialEq, Eq)]
pub(crate) enum SectionKind {
    Requirements,
    Types,
    Constants,
    Predicates,
    Action,
    /// The section `:domain` of a problem.
    Domain,
    Objects,
    Init,
    Goal,
}

/// The kinds of parts of an action.
#[derive(Clone, Copy, PartialEq, Eq)]
pub(crate) enum ActionPart {
    Parameters,
    Precondition,
    Effect,
}
