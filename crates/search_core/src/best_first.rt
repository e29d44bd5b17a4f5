ghost use Rattle.std.specs.Prelude.{◌≡◌, IfOk, Err};
ghost use Rattle.std.specs.List.{filter_map};
ghost use Rattle.grd_base.specs.Counts.{MoreThan};
ghost use Rattle.search_core.specs.Tables.{AreRefuted, AreCounted};
ghost use Rattle.search_core.specs.LeastAnswers.{CountsForLeast, IsLeastAnswer, HasLeastRow, least_rows};
ghost use Rattle.search_core.specs.LeastRows.{bound_below, mark_kept, row_of};
ghost use Rattle.search_core.specs.Turns.{IsUnderWay, IsFoundAt, IsEmptied, IsAnswered, AreTooMany};

use crate::faults::SearchFault;
use crate::nodes::{Node, Question, Reach, enter, path_to};
use crate::queue::Queue;
use crate::rows::{KeptRow, LeastAnswer};
use crate::space::{Floor, Space};
use crate::turns::search;
use crate::ways::Way;
use grd_base::{ActionId, Bound, OutOfMemory};
use indexmap::IndexMap;
use std::alloc::Global;
use std::hash::Hash;

/// The bound of a state's row, by the length of a least path.
fn row_bound(length: Option<u32>, bound: Bound, depth: u32) -> Option<Bound>
    ensures { result ≡ bound_below length bound depth }
{
    let Some(length) = length else {
        return Some(Bound::Never);
    };
    match bound {
        Bound::Never => Some(Bound::Never),
        Bound::Steps(_) if depth < length => Some(Bound::Steps(length - 1 - depth)),
        Bound::Steps(_) => None,
    }
}

/// The mark of a state's row.
fn row_mark<M: Drop>(waits: bool, expanded: bool, mark: M) -> Option<M>
    ensures { result ≡ mark_kept waits expanded mark }
{
    if expanded && !waits {
        return None;
    }
    Some(mark)
}

/// The row of a state that was found, if it is near enough.
fn row<T: Copy, M: Drop>(length: Option<u32>, entry: (T, Node<M>)) -> Option<KeptRow<T, M>>
    ensures { result ≡ row_of length entry }
{
    let (state, node) = entry;
    let bound = row_bound(length, node.bound, node.way.depth)?;
    Some(KeptRow {
        state,
        bound,
        mark: row_mark(node.waits, node.expanded, node.mark),
    })
}

/// The rows that rule out a path shorter than `length`, or every path.
fn rows_below<T: Copy + Eq + Hash, M: Drop>(
    alloc: Global,
    found: IndexMap<T, Node<M>>,
    length: Option<u32>,
) -> Result<Vec<KeptRow<T, M>>, OutOfMemory>
    ensures { IfOk result (λ rows. rows.items ≡ filter_map (row_of length) found.entries) }
{
    let mut rows = Vec::with_capacity(alloc, found.len())?;
    for entry in found {
        if let Some(row) = row(length, entry) {
            rows.push(row)?;
        }
    }
    Ok(rows)
}

/// The answer by a done state that was taken out of the queue.
fn found_at<S: Space, F: Floor<S>>(
    alloc: Global,
    question: &Question<S, F, S::State>,
    reach: Reach<S::State, F::Mark>,
    place: usize,
) -> Result<LeastAnswer<S::State, F::Mark>, OutOfMemory>
    requires { IsFoundAt S.next S.is_done S.level F.shows question.now reach place }
    ensures { IfOk result (IsAnswered S.next S.is_done S.level F.shows question.now) }
{
    let length = reach.found[place].way.depth;
    let path = path_to(alloc, &reach.found, place)?;
    let rows = rows_below(alloc, reach.found, Some(length))?;
    Ok(LeastAnswer::Found(path, rows))
}

/// The answer where no state waits any more.
fn none_left<S: Space, F: Floor<S>>(
    alloc: Global,
    question: &Question<S, F, S::State>,
    reach: Reach<S::State, F::Mark>,
) -> Result<LeastAnswer<S::State, F::Mark>, OutOfMemory>
    requires { IsEmptied S.next S.is_done S.level F.shows question.now reach }
    ensures { IfOk result (IsAnswered S.next S.is_done S.level F.shows question.now) }
{
    let rows = rows_below(alloc, reach.found, None)?;
    Ok(LeastAnswer::Never(rows))
}

/// Finds the start.
fn begin<S: Space, F: Floor<S>>(
    alloc: Global,
    question: &Question<S, F, S::State>,
) -> Result<Reach<S::State, F::Mark>, OutOfMemory>
    ensures { IfOk result (IsUnderWay S.next S.is_done S.level F.shows question.now) }
{
    let mut reach = Reach {
        found: IndexMap::new(alloc),
        kept: 0,
        queue: Queue::new(alloc),
    };
    // No step led to the start.
    let unread = Way {
        depth: 0,
        parent: 0,
        action: ActionId(0),
    };
    enter(alloc, question, &mut reach, question.start, unread)?;
    Ok(reach)
}

/// The answer to a question.
fn answer<S: Space, F: Floor<S>>(
    alloc: Global,
    question: &Question<S, F, S::State>,
) -> Result<LeastAnswer<S::State, F::Mark>, SearchFault>
    ensures answered { IfOk result (IsAnswered S.next S.is_done S.level F.shows question.now) }
    ensures many { result ≡ Err SearchFault.TooManyStates
        → AreTooMany S.next S.is_done S.level question.now }
{
    let mut reach = begin(alloc, question)?;
    if let Some(place) = search(alloc, question, &mut reach)? {
        let answer = found_at(alloc, question, reach, place)?;
        return Ok(answer);
    }
    let answer = none_left(alloc, question, reach)?;
    Ok(answer)
}

/// A path of least length from `from` to a done state, or that none is reached, with rows that rule out
/// a shorter one. Best first by distance so far plus bound; a state that is reached by fewer steps is
/// expanded again. At most `limit` states are expanded.
pub fn least<S: Space, F: Floor<S>>(
    alloc: Global,
    space: &S,
    floor: &F,
    from: S::State,
    limit: u32,
) -> Result<LeastAnswer<S::State, F::Mark>, SearchFault>
    ensures right { IfOk result
        (IsLeastAnswer (S.next space.now) (S.is_done space.now) from limit) }
    ensures refuted { IfOk result
        (λ answer. AreRefuted (S.next space.now) (S.is_done space.now)
        (F.shows floor.now space.now) (least_rows answer)) }
    ensures start { IfOk result (HasLeastRow from) }
    ensures counted { IfOk result
        (λ answer. AreCounted (S.next space.now)
        (CountsForLeast (S.next space.now) (S.is_done space.now) (S.level space.now) from)
        from limit (least_rows answer)) }
    ensures many { result ≡ Err SearchFault.TooManyStates
        → MoreThan limit
        (CountsForLeast (S.next space.now) (S.is_done space.now) (S.level space.now) from) }
{
    let question = Question {
        space,
        floor,
        start: from,
        limit,
    };
    answer(alloc, &question)
}
