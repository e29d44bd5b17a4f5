ghost use Rattle.std.specs.Prelude.{◌≡◌, ◌<◌, ◌≤◌, ◌+◌, false, length, slice_get, IfOk, OnOk, IfSome, IfNone, All, Some, Err};
ghost use Rattle.search_core.specs.Entries.{IsHeldAt};
ghost use Rattle.search_core.specs.Nodes.{IsHeldBy, IsTicket, AreQueued, AreHeldBy};
ghost use Rattle.search_core.specs.Turns.{IsNext, NoneWaits, IsUnderWay, IsTaken, IsAtWork, GoesOn, IsFoundAt, IsEmptied, AreTooMany, IsStepOf, AreStepsOf, IsLighter};

use crate::faults::SearchFault;
use crate::nodes::{Question, Reach, enter, lower, mark, place_of};
use crate::space::{Floor, Space};
use crate::ways::{Head, Way};
use grd_base::{ActionId, OutOfMemory};
use std::alloc::Global;
use std::hash::Hash;

/// Takes a state that waits out of the queue, with the least sum of depth and bound.
fn next_waiting<T: Eq + Hash, M>(reach: &mut Reach<T, M>) -> Option<usize>
    requires issued { All (IsTicket reach.old.found.entries) reach.old.queue }
    requires queued { AreQueued reach.old.found.entries reach.old.queue }
    ensures found { reach.new.found.entries ≡ reach.old.found.entries }
    ensures kept { reach.new.kept ≡ reach.old.kept }
    ensures next { IfSome result (IsNext reach.new.found.entries reach.new.queue) }
    ensures none { IfNone result (NoneWaits reach.new.found.entries) }
{
    while let Some(ticket) = reach.queue.pop() {
        if reach.found[ticket.place.0].waits {
            return Some(ticket.place.0);
        }
    }
    None
}

/// Marks a state that was taken out of the queue as expanded. One that was not before counts.
fn take<S: Space, F: Floor<S>>(
    question: &Question<S, F, S::State>,
    reach: &mut Reach<S::State, F::Mark>,
    place: usize,
    state: S::State,
) -> Result<Head, SearchFault>
    requires taken { IsTaken S.next S.is_done S.level F.shows question.now reach.old place }
    requires state { IsHeldAt reach.old.found.entries state place }
    requires not_done { S.is_done question.now.space.now state ≡ false }
    ensures head { IfOk result (λ head.
        IsAtWork S.next S.is_done S.level F.shows question.now reach.new head state) }
    ensures lighter { OnOk result (IsLighter question.now.limit reach.new reach.old) }
    ensures many { result ≡ Err SearchFault.TooManyStates
        → AreTooMany S.next S.is_done S.level question.now }
{
    if reach.found[place].expanded {
        let depth = mark(reach, place);
        return Ok(Head { place, depth });
    }
    if reach.kept >= question.limit {
        return Err(SearchFault::TooManyStates);
    }
    reach.kept += 1;
    let depth = mark(reach, place);
    Ok(Head { place, depth })
}

/// Follows a step from the head: its state is added, or takes this way over where it is shorter.
fn visit<S: Space, F: Floor<S>>(
    alloc: Global,
    question: &Question<S, F, S::State>,
    reach: &mut Reach<S::State, F::Mark>,
    head: Head,
    state: S::State,
    step: (ActionId, S::State),
) -> Result<(), OutOfMemory>
    requires at_work { IsAtWork S.next S.is_done S.level F.shows question.now reach.old head state }
    requires step { IsStepOf (S.next question.now.space.now) state step }
    ensures on { OnOk result
        (GoesOn S.next S.is_done S.level F.shows question.now reach.old reach.new head state) }
    ensures held { OnOk result (IsHeldBy reach.new.found.entries step.1 (head.depth + 1)) }
{
    let (action, reached) = step;
    let way = Way {
        depth: head.depth + 1,
        parent: head.place,
        action,
    };
    if let Some(place) = place_of::<S, F::Mark>(&reach.found, &reached) {
        lower(reach, place, way)?;
        return Ok(());
    }
    enter(alloc, question, reach, reached, way)?;
    Ok(())
}

/// Follows these steps, which are all from the head.
fn expand<S: Space, F: Floor<S>>(
    alloc: Global,
    question: &Question<S, F, S::State>,
    reach: &mut Reach<S::State, F::Mark>,
    head: Head,
    state: S::State,
    steps: Vec<(ActionId, S::State)>,
) -> Result<(), OutOfMemory>
    requires at_work { IsAtWork S.next S.is_done S.level F.shows question.now reach.old head state }
    requires steps { AreStepsOf (S.next question.now.space.now) state steps.items }
    ensures on { OnOk result
        (GoesOn S.next S.is_done S.level F.shows question.now reach.old reach.new head state) }
    ensures held { OnOk result (AreHeldBy reach.new.found.entries (head.depth + 1) steps.items) }
{
    for step in steps {
        visit(alloc, question, reach, head, state, step)?;
    }
    Ok(())
}

/// Expands a state that was taken out of the queue and is not done.
fn turn<S: Space, F: Floor<S>>(
    alloc: Global,
    question: &Question<S, F, S::State>,
    reach: &mut Reach<S::State, F::Mark>,
    place: usize,
    state: S::State,
) -> Result<(), SearchFault>
    requires taken { IsTaken S.next S.is_done S.level F.shows question.now reach.old place }
    requires state { IsHeldAt reach.old.found.entries state place }
    requires not_done { S.is_done question.now.space.now state ≡ false }
    ensures on { OnOk result (IsUnderWay S.next S.is_done S.level F.shows question.now reach.new) }
    ensures lighter { OnOk result (IsLighter question.now.limit reach.new reach.old) }
    ensures many { result ≡ Err SearchFault.TooManyStates
        → AreTooMany S.next S.is_done S.level question.now }
{
    let head = take(question, reach, place, state)?;
    let steps = question.space.successors(alloc, &state)?;
    expand(alloc, question, reach, head, state, steps)?;
    Ok(())
}

/// Expands the states that wait, those of least sum of depth and bound first, up to a done one. The
/// answer is its place, or none where no state waits any more.
pub(crate) fn search<S: Space, F: Floor<S>>(
    alloc: Global,
    question: &Question<S, F, S::State>,
    reach: &mut Reach<S::State, F::Mark>,
) -> Result<Option<usize>, SearchFault>
    requires { IsUnderWay S.next S.is_done S.level F.shows question.now reach.old }
    ensures found { IfOk result (λ end. IfSome end
        (IsFoundAt S.next S.is_done S.level F.shows question.now reach.new)) }
    ensures none { IfOk result (λ end. IfNone end
        (IsEmptied S.next S.is_done S.level F.shows question.now reach.new)) }
    ensures many { result ≡ Err SearchFault.TooManyStates
        → AreTooMany S.next S.is_done S.level question.now }
{
    while let Some(place) = next_waiting(reach) {
        let (state, _) = reach.found.get_index(place).unwrap();
        let state = *state;
        if question.space.done(&state) {
            return Ok(Some(place));
        }
        turn(alloc, question, reach, place, state)?;
    }
    Ok(None)
}
