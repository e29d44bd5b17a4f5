ghost use Rattle.std.specs.Prelude.{◌≡◌, ◌<◌, [], ◌∷◌, ◌++◌, length, MatchBool, IfOk, OnOk};
ghost use Rattle.search_core.specs.Entries.{IsHeld, IsFresh};
ghost use Rattle.search_core.specs.Progress.{HaveEarlierParents, AreLinked, IsWayOn};
ghost use Rattle.search_core.specs.Spaces.{Successors};

use crate::space::Space;
use crate::ways::Way;
use grd_base::{ActionId, Bound, OutOfMemory};
use indexmap::IndexMap;
use std::alloc::Global;
use std::hash::Hash;

/// What is known of a state that was found.
#[derive(Drop)]
pub(crate) struct Found<M> {
    /// How it was first reached.
    pub way: Way,
    /// What the floor answered for it.
    pub bound: Bound,
    /// Kept where the bound rules out a path through the state. A state without one is expanded.
    pub mark: Option<M>,
}

/// The states that were found, each once, in the order in which they were first reached. The first
/// is the start.
#[derive(Drop)]
pub(crate) struct Progress<T: Eq + Hash, M> {
    pub found: IndexMap<T, Found<M>>,
    /// How many of them have no mark.
    pub kept: u32,
}

/// Whether the state was found.
pub(crate) fn is_found<S: Space, M>(progress: &Progress<S::State, M>, state: &S::State) -> bool
    ensures { MatchBool result
        (IsHeld progress.now.found.entries state.now)
        (IsFresh progress.now.found.entries state.now) }
{
    progress.found.contains_key(state)
}

/// Adds a state that was not found.
pub(crate) fn add<S: Space, M: Drop>(
    progress: &mut Progress<S::State, M>,
    state: S::State,
    found: Found<M>,
) -> Result<(), OutOfMemory>
    requires { IsFresh progress.old.found.entries state }
    ensures added { OnOk result
        (progress.new.found.entries ≡ progress.old.found.entries ++ (state, found) ∷ []) }
    ensures kept { progress.new.kept ≡ progress.old.kept }
{
    progress.found.insert(state, found)?;
    Ok(())
}

/// The actions on the way from the start to the state at a place, and a last one.
pub(crate) fn path_through<T: Eq + Hash, M>(
    alloc: Global,
    found: &IndexMap<T, Found<M>>,
    place: usize,
    last: ActionId,
) -> Result<Vec<ActionId>, OutOfMemory>
    requires place { place < length found.now.entries }
    requires earlier { HaveEarlierParents found.now.entries }
    ensures { IfOk result (λ path. (next : Successors T) (start : T)
        → AreLinked next start found.now.entries
        → IsWayOn next start found.now.entries place last path.items) }
{
    let mut path = vec![in alloc; last]?;
    let mut at = place;
    while at > 0 {
        let way = found[at].way;
        path.push(way.action)?;
        at = way.parent;
    }
    path.reverse();
    Ok(path)
}
