ghost use Rattle.std.specs.Prelude.{◌≡◌, ◌↔◌, ◌+◌, ◌*◌, ◌<◌, ◌≤◌, ℕ, List, length, All, Any, Contains, IsTrue, IfOk, IfSome, Some, slice_get};
ghost use Rattle.grd_base.specs.Bits.{members};
ghost use Rattle.strips_model.specs.Plans.{State};
ghost use Rattle.design_certificate.specs.Live.{PlainLiveRow};
ghost use Rattle.design_certificate.specs.Index.{HasAll, IsLast, AreChained, IsIndexed};

use crate::live::LiveRow;
use grd_base::{Bits, GoalId, OutOfMemory, whole};
use indexmap::IndexMap;
use std::alloc::Global;
use std::marker::Model;
use strips_model::state_of;

/// A state that is reached with so many actions.
#[derive(Clone, Copy, PartialEq, Eq, Hash)]
pub(crate) struct StateAt<const W: usize> {
    state: Bits<W>,
    depth: u32,
}

/// Whether the goal is in the list.
pub(crate) fn has_goal(goals: &[GoalId], goal: GoalId) -> bool
    ensures { IsTrue result ↔ Contains goals.now goal }
{
    goals.contains(&goal)
}

/// Whether each of the goals is in the list.
fn has_goals_of(goals: &[GoalId], wanted: &[GoalId]) -> bool
    ensures { IsTrue result ↔ All (Contains goals.now) wanted.now }
{
    for goal in wanted {
        if !has_goal(goals, *goal) {
            return false;
        }
    }
    true
}

/// Whether the row has all of the goals.
fn has_all(row: &LiveRow, wanted: &[GoalId]) -> bool
    ensures { IsTrue result ↔ All (Contains row.now.goals) wanted.now }
{
    has_goals_of(row.goals.as_slice(), wanted)
}

/// Whether one of the rows that are chained to the last one has all of the goals.
fn chain_has(
    rows: &[LiveRow],
    earlier: &[Option<usize>],
    last: Option<usize>,
    wanted: &[GoalId],
) -> bool
    requires chained { AreChained rows.now (length rows.now) earlier.now }
    requires last { IfSome last (λ i. i < length rows.now) }
    ensures { (s : State) (d : ℕ) → IsLast rows.now (length rows.now) s d last
        → (IsTrue result ↔ Any (HasAll wanted.now s d) rows.now) }
{
    let mut next = last;
    while let Some(place) = next {
        if has_all(&rows[place], wanted) {
            return true;
        }
        next = earlier[place];
    }
    false
}

/// Puts one more row into the index, behind those that are in it.
fn note_row<const W: usize>(
    last: &mut IndexMap<StateAt<W>, usize>,
    earlier: &mut Vec<Option<usize>>,
    row: &LiveRow,
) -> Result<(), OutOfMemory>
    requires width { W ≤ 64 }
    requires state { All (λ a. a.0 < 64 * W) row.now.state }
    ensures { IfOk result (λ _. (rows : List PlainLiveRow) (n : ℕ) → slice_get rows n ≡ Some row.now
        → IsIndexed rows n last.old.entries earlier.old.items → IsIndexed rows (n + 1) last.new.entries earlier.new.items) }
{
    let state = state_of::<W>(row.state.as_slice());
    whole(&state);
    let _distinct = last.len();
    let depth = row.depth;
    let before = last.insert(StateAt { state, depth }, earlier.len())?;
    earlier.push(before)?;
    Ok(())
}

/// Live rows, with an index that finds those of a state and depth without looking at the others.
#[derive(Drop)]
pub(crate) struct LiveIndex<'r, const W: usize> {
    rows: &'r [LiveRow],
    /// The place of the last row of a state and depth.
    last: IndexMap<StateAt<W>, usize>,
    /// For each row the place of the last one before it that has its state and depth.
    earlier: Vec<Option<usize>>,
}

impl<'r, const W: usize> Model for LiveIndex<'r, W> {
    ghost use Rattle.std.specs.Prelude.{List, length, ◌≤◌};
    ghost use Rattle.design_certificate.specs.Live.{PlainLiveRow};
    ghost use Rattle.design_certificate.specs.Index.{IsIndexed};

    ghost Value = { List PlainLiveRow };

    ghost view = { λ x. x.rows.now };

    // The width is what it takes to let the states go.
    ghost invariant = { λ x. IsIndexed x.rows.now (length x.rows.now) x.last.entries x.earlier.items × (W ≤ 64) };
}

impl<'r, const W: usize> LiveIndex<'r, W> {
    /// The index of the rows.
    pub(crate) fn of(alloc: Global, rows: &'r [LiveRow]) -> Result<LiveIndex<'r, W>, OutOfMemory>
        requires width { W ≤ 64 }
        requires states { All (λ row. All (λ a. a.0 < 64 * W) row.state) rows.now }
        ensures { IfOk result (λ index. index ≡ rows.now) }
    {
        let mut last = IndexMap::new(alloc);
        let mut earlier = Vec::new(alloc);
        for row in rows {
            note_row(&mut last, &mut earlier, row)?;
        }
        Ok(LiveIndex {
            rows,
            last,
            earlier,
        })
    }

    /// Whether some row of the state and depth has all of the goals.
    pub(crate) fn has(&self, s: &Bits<W>, depth: u32, wanted: &[GoalId]) -> bool
        requires { W ≤ 64 }
        ensures { IsTrue result ↔ Any (HasAll wanted.now (members s.now) depth) self.now }
    {
        whole(s);
        let _distinct = self.last.len();
        let last = self.last.get(&StateAt { state: *s, depth }).copied();
        chain_has(self.rows, self.earlier.as_slice(), last, wanted)
    }
}
