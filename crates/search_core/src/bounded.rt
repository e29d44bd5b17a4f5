ghost use Rattle.std.specs.Prelude.{◌≡◌, IfOk};
ghost use Rattle.std.specs.List.{filter_map, list_any};
ghost use Rattle.search_core.specs.Answers.{IsTrueAnswer, HasStartRow, HasReason, rows_of};
ghost use Rattle.grd_base.specs.Counts.{MoreThan};
ghost use Rattle.search_core.specs.Spaces.{Counts};
ghost use Rattle.search_core.specs.Tables.{AreRefuted, AreCounted};
ghost use Rattle.search_core.specs.Visits.{IsExplored, IsAnswered, AreTooMany, bound_for, row_for, is_number, has_number_mark};

use crate::faults::SearchFault;
use crate::found::{Found, Progress};
use crate::rows::{KeptRow, WithinAnswer};
use crate::space::{Floor, Space};
use crate::visits::{Question, search};
use grd_base::{Bound, OutOfMemory};
use indexmap::IndexMap;
use std::alloc::Global;
use std::hash::Hash;

/// Whether a mark is kept that shows a number.
fn shows_number<M>(found: &Found<M>) -> bool
    ensures { result ≡ is_number found.now.bound found.now.mark }
{
    match found.bound {
        Bound::Steps(_) => found.mark.is_some(),
        Bound::Never => false,
    }
}

/// Whether some state has a mark that shows a number.
fn some_number<T: Eq + Hash, M>(found: &IndexMap<T, Found<M>>) -> bool
    ensures { result ≡ list_any has_number_mark found.now.entries }
{
    found.iter().any(|(_, found)| shows_number(found))
}

/// How many steps are left of `most` at this depth, if that many are; `Never` where `most` is none.
fn bound_for(depth: u32, most: Option<u32>) -> Option<Bound>
    ensures { result ≡ bound_for most depth }
{
    match most {
        Some(r) if depth > r => None,
        Some(r) => Some(Bound::Steps(r - depth)),
        None => Some(Bound::Never),
    }
}

/// The row of a state for at most `most` steps, where it is at most so deep; for any number of steps where
/// `most` is none.
fn row_for<T: Copy, M: Drop>(entry: (T, Found<M>), most: Option<u32>) -> Option<KeptRow<T, M>>
    ensures { result ≡ row_for most entry }
{
    let (state, found) = entry;
    let bound = bound_for(found.way.depth, most)?;
    Some(KeptRow {
        state,
        bound,
        mark: found.mark,
    })
}

/// The rows for at most `most` steps, or for any number of steps.
fn rows_for<T: Copy + Eq + Hash, M: Drop>(
    alloc: Global,
    found: IndexMap<T, Found<M>>,
    most: Option<u32>,
) -> Result<Vec<KeptRow<T, M>>, OutOfMemory>
    ensures { IfOk result (λ rows. rows.items ≡ filter_map (row_for most) found.entries) }
{
    let mut rows = Vec::with_capacity(alloc, found.len())?;
    for entry in found {
        if let Some(row) = row_for(entry, most) {
            rows.push(row)?;
        }
    }
    Ok(rows)
}

/// The answer by the states that were found, where no path was.
fn refute<S: Space, F: Floor<S>>(
    alloc: Global,
    question: &Question<S, F, S::State>,
    progress: Progress<S::State, F::Mark>,
) -> Result<WithinAnswer<S::State, F::Mark>, OutOfMemory>
    requires { IsExplored S.next S.is_done S.level F.shows question.now progress }
    ensures { IfOk result (IsAnswered S.next S.is_done S.level F.shows question.now) }
{
    if some_number(&progress.found) {
        let rows = rows_for(alloc, progress.found, Some(question.r))?;
        return Ok(WithinAnswer::No(rows));
    }
    let rows = rows_for(alloc, progress.found, None)?;
    Ok(WithinAnswer::Never(rows))
}

/// The answer to a question.
fn answer<S: Space, F: Floor<S>>(
    alloc: Global,
    question: &Question<S, F, S::State>,
) -> Result<WithinAnswer<S::State, F::Mark>, SearchFault>
    ensures answered { IfOk result (IsAnswered S.next S.is_done S.level F.shows question.now) }
    ensures many { result ≡ Err SearchFault.TooManyStates → AreTooMany S.next S.level question.now }
{
    if question.space.done(&question.start) {
        return Ok(WithinAnswer::Yes(Vec::new(alloc)));
    }
    let mut progress = Progress {
        found: IndexMap::new(alloc),
        kept: 0,
    };
    if let Some(path) = search(alloc, question, &mut progress)? {
        return Ok(WithinAnswer::Yes(path));
    }
    let answer = refute(alloc, question, progress)?;
    Ok(answer)
}

/// Whether a done state lies within `r` steps of `from`: a path to one, or rows that refute it. At
/// most `limit` states are expanded.
pub fn within<S: Space, F: Floor<S>>(
    alloc: Global,
    space: &S,
    floor: &F,
    from: S::State,
    r: u32,
    limit: u32,
) -> Result<WithinAnswer<S::State, F::Mark>, SearchFault>
    ensures right { IfOk result
        (IsTrueAnswer (S.next space.now) (S.is_done space.now) from r limit) }
    ensures refuted { IfOk result
        (λ answer. AreRefuted (S.next space.now) (S.is_done space.now)
        (F.shows floor.now space.now) (rows_of answer)) }
    ensures start { IfOk result (HasStartRow from r) }
    ensures counted { IfOk result
        (λ answer. AreCounted (S.next space.now)
        (Counts (S.next space.now) (S.level space.now) from r) from limit (rows_of answer)) }
    ensures reason { IfOk result
        (HasReason (S.next space.now) (F.shows floor.now space.now) from r limit) }
    ensures many { result ≡ Err SearchFault.TooManyStates
        → MoreThan limit (Counts (S.next space.now) (S.level space.now) from r) }
{
    let question = Question {
        space,
        floor,
        start: from,
        r,
        limit,
    };
    answer(alloc, &question)
}
