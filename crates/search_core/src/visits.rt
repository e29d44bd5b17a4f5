ghost use Rattle.std.specs.Prelude.{◌≡◌, false, ◌+◌, ◌<◌, ◌≤◌, ◌↔◌, [], length, IsTrue, IfOk, OnOk, IfSome, IfNone};
ghost use Rattle.search_core.specs.Progress.{IsCut, IsAdded, IsHeldBy};
ghost use Rattle.search_core.specs.Visits.{IsUnderWay, MayAdd, AreTooMany, IsHead, IsStepFrom, AreStepsFrom, AreHeldBy, GoesOn, IsAskedPath, IsExploringAt, IsExplored};

use crate::faults::SearchFault;
use crate::found::{Found, Progress, add, is_found, path_through};
use crate::space::{Floor, Space};
use crate::ways::{Head, Way};
use grd_base::{ActionId, Bound};
use std::alloc::Global;

/// What is asked: a path of at most `r` steps from the start to a done state.
#[derive(Drop)]
pub(crate) struct Question<'a, S, F, T> {
    pub space: &'a S,
    pub floor: &'a F,
    pub start: T,
    pub r: u32,
    /// How many states without a mark may be found.
    pub limit: u32,
}

/// Whether the bound of a state at this depth rules out a path of at most r steps through it.
fn is_cut(depth: u32, bound: Bound, r: u32) -> bool
    ensures { IsTrue result ↔ IsCut depth bound r }
{
    match bound {
        Bound::Steps(number) => u64::from(depth) + u64::from(number) > u64::from(r),
        Bound::Never => true,
    }
}

/// Adds a state that was not found, with what the floor answers for it.
fn admit<S: Space, F: Floor<S>>(
    alloc: Global,
    question: &Question<S, F, S::State>,
    progress: &mut Progress<S::State, F::Mark>,
    state: S::State,
    way: Way,
) -> Result<(), SearchFault>
    requires progress { IsUnderWay S.next S.is_done S.level F.shows question.now progress.old }
    requires new { MayAdd S.next S.is_done question.now progress.old state way }
    ensures progress { OnOk result
        (IsUnderWay S.next S.is_done S.level F.shows question.now progress.new) }
    ensures more { OnOk result (progress.old.kept ≤ progress.new.kept) }
    ensures added { OnOk result
        (IsAdded progress.old.found.entries progress.new.found.entries state way) }
    ensures many { result ≡ Err SearchFault.TooManyStates → AreTooMany S.next S.level question.now }
{
    let (bound, mark) = question.floor.at_least(alloc, question.space, &state)?;
    if is_cut(way.depth, bound, question.r) {
        let found = Found {
            way,
            bound,
            mark: Some(mark),
        };
        add::<S, F::Mark>(progress, state, found)?;
        return Ok(());
    }
    if progress.kept >= question.limit {
        return Err(SearchFault::TooManyStates);
    }
    let found = Found {
        way,
        bound,
        mark: None,
    };
    add::<S, F::Mark>(progress, state, found)?;
    progress.kept += 1;
    Ok(())
}

/// Follows a step from the head. A path to a done state ends the search; any other state is added,
/// unless it was found.
fn visit<S: Space, F: Floor<S>>(
    alloc: Global,
    question: &Question<S, F, S::State>,
    progress: &mut Progress<S::State, F::Mark>,
    head: Head,
    step: (ActionId, S::State),
) -> Result<Option<Vec<ActionId>>, SearchFault>
    requires progress { IsUnderWay S.next S.is_done S.level F.shows question.now progress.old }
    requires head { IsHead progress.old.found.entries head.place head.depth }
    requires step { IsStepFrom (S.next question.now.space.now)
        progress.old.found.entries head.place step }
    ensures path { IfOk result (λ found. IfSome found
        (λ path. IsAskedPath S.next S.is_done question.now path.items)) }
    ensures on { IfOk result (λ found. IfNone found
        (GoesOn S.next S.is_done S.level F.shows question.now progress.old progress.new head
        × IsHeldBy progress.new.found.entries step.1 (head.depth + 1))) }
    ensures many { result ≡ Err SearchFault.TooManyStates → AreTooMany S.next S.level question.now }
{
    let (action, state) = step;
    if is_found::<S, F::Mark>(progress, &state) {
        return Ok(None);
    }
    if head.depth < question.r && question.space.done(&state) {
        let path = path_through(alloc, &progress.found, head.place, action)?;
        return Ok(Some(path));
    }
    let way = Way {
        depth: head.depth + 1,
        parent: head.place,
        action,
    };
    admit(alloc, question, progress, state, way)?;
    Ok(None)
}

/// Follows these steps, which are all from the head, up to one that ends the search.
fn expand<S: Space, F: Floor<S>>(
    alloc: Global,
    question: &Question<S, F, S::State>,
    progress: &mut Progress<S::State, F::Mark>,
    head: Head,
    steps: &[(ActionId, S::State)],
) -> Result<Option<Vec<ActionId>>, SearchFault>
    requires progress { IsUnderWay S.next S.is_done S.level F.shows question.now progress.old }
    requires head { IsHead progress.old.found.entries head.place head.depth }
    requires steps { AreStepsFrom (S.next question.now.space.now)
        progress.old.found.entries head.place steps.now }
    ensures path { IfOk result (λ found. IfSome found
        (λ path. IsAskedPath S.next S.is_done question.now path.items)) }
    ensures on { IfOk result (λ found. IfNone found
        (GoesOn S.next S.is_done S.level F.shows question.now progress.old progress.new head
        × AreHeldBy progress.new.found.entries (head.depth + 1) steps.now)) }
    ensures many { result ≡ Err SearchFault.TooManyStates → AreTooMany S.next S.level question.now }
{
    for step in steps {
        if let Some(path) = visit(alloc, question, progress, head, *step)? {
            return Ok(Some(path));
        }
    }
    Ok(None)
}

/// Expands the found state at a place, unless it has a mark.
fn expand_at<S: Space, F: Floor<S>>(
    alloc: Global,
    question: &Question<S, F, S::State>,
    progress: &mut Progress<S::State, F::Mark>,
    place: usize,
) -> Result<Option<Vec<ActionId>>, SearchFault>
    requires place { place < length progress.old.found.entries }
    requires exploring { IsExploringAt S.next S.is_done S.level F.shows question.now progress.old place }
    ensures path { IfOk result (λ found. IfSome found
        (λ path. IsAskedPath S.next S.is_done question.now path.items)) }
    ensures on { IfOk result (λ found. IfNone found
        (IsExploringAt S.next S.is_done S.level F.shows question.now progress.new (place + 1))) }
    ensures many { result ≡ Err SearchFault.TooManyStates → AreTooMany S.next S.level question.now }
{
    let (state, found) = progress.found.get_index(place).unwrap();
    if found.mark.is_some() {
        return Ok(None);
    }
    let head = Head {
        place,
        depth: found.way.depth,
    };
    let steps = question.space.successors(alloc, state)?;
    expand(alloc, question, progress, head, steps.as_slice())
}

/// Expands the found states in their order, up to one with a step that ends the search.
fn explore<S: Space, F: Floor<S>>(
    alloc: Global,
    question: &Question<S, F, S::State>,
    progress: &mut Progress<S::State, F::Mark>,
) -> Result<Option<Vec<ActionId>>, SearchFault>
    requires progress { IsUnderWay S.next S.is_done S.level F.shows question.now progress.old }
    requires start { length progress.old.found.entries ≡ 1 }
    ensures path { IfOk result (λ found. IfSome found
        (λ path. IsAskedPath S.next S.is_done question.now path.items)) }
    ensures whole { IfOk result (λ found. IfNone found
        (IsExplored S.next S.is_done S.level F.shows question.now progress.new)) }
    ensures many { result ≡ Err SearchFault.TooManyStates → AreTooMany S.next S.level question.now }
{
    let mut place = 0;
    while place < progress.found.len() {
        if let Some(path) = expand_at(alloc, question, progress, place)? {
            return Ok(Some(path));
        }
        place += 1;
    }
    Ok(None)
}

/// Finds the start, and explores from there.
pub(crate) fn search<S: Space, F: Floor<S>>(
    alloc: Global,
    question: &Question<S, F, S::State>,
    progress: &mut Progress<S::State, F::Mark>,
) -> Result<Option<Vec<ActionId>>, SearchFault>
    requires open { S.is_done question.now.space.now question.now.start ≡ false }
    requires fresh { (progress.old.found.entries ≡ []) × (progress.old.kept ≡ 0) }
    ensures path { IfOk result (λ found. IfSome found
        (λ path. IsAskedPath S.next S.is_done question.now path.items)) }
    ensures whole { IfOk result (λ found. IfNone found
        (IsExplored S.next S.is_done S.level F.shows question.now progress.new)) }
    ensures many { result ≡ Err SearchFault.TooManyStates → AreTooMany S.next S.level question.now }
{
    // No step led to the start.
    let unread = Way {
        depth: 0,
        parent: 0,
        action: ActionId(0),
    };
    admit(alloc, question, progress, question.start, unread)?;
    explore(alloc, question, progress)
}
