ghost use Rattle.std.specs.Prelude.{◌≡◌, ◌↔◌, ◌*◌, ◌<◌, ◌≤◌, ◌≢◌, false, List, length, All, Contains, IsTrue, IfOk, IfSome, IfNone, Some};
ghost use Rattle.grd_base.specs.declared.ids.GoalId.{GoalId};
ghost use Rattle.grd_base.specs.declared.limits.Bound.TheVariants.{Steps};
ghost use Rattle.grd_base.specs.Bits.{members};
ghost use Rattle.strips_model.specs.Plans.{State, step_without};
ghost use Rattle.strips_model.specs.Moves.{allowed_of};
ghost use Rattle.cost_certificate.specs.Tables.{HasRow};
ghost use Rattle.design_certificate.specs.Live.{StaysLive, IsFollowed};
ghost use Rattle.design_certificate.specs.Followers.{live_of};

use crate::index::LiveIndex;
use crate::leaf::cost_of;
use crate::live::LiveRow;
use cost_certificate::{BestBounds, Table};
use grd_base::{ActionId, Bits, Bound, GoalId, OutOfMemory};
use std::alloc::Global;
use strips_model::{Moves, advance};

/// What tells whether a live row is followed: the numbers of the goals, the length, the tables and the
/// live rows.
#[derive(Drop)]
pub(crate) struct Followers<'l, const W: usize> {
    pub costs: &'l [Option<u32>],
    pub length: u32,
    pub tables: Vec<(GoalId, BestBounds<'l, W>)>,
    pub index: LiveIndex<'l, W>,
}

/// The best bounds of each table.
pub(crate) fn bounds_of<'l, const W: usize>(
    alloc: Global,
    tables: &'l [(GoalId, Table)],
) -> Result<Vec<(GoalId, BestBounds<'l, W>)>, OutOfMemory>
    requires width { W ≤ 64 }
    requires states { All (λ x. All (λ row. All (λ a. a.0 < 64 * W) row.state) x.1) tables.now }
    ensures { IfOk result (λ bounds. bounds.items ≡ tables.now) }
{
    let mut bounds = Vec::new(alloc);
    for table in tables {
        bounds.push((table.0, BestBounds::of(alloc, table.1.rows.as_slice())?))?;
    }
    Ok(bounds)
}

/// Whether the table is of another goal or has no such row.
fn is_open_in<const W: usize>(
    goal: GoalId,
    bounds: &BestBounds<W>,
    wanted: GoalId,
    s: &Bits<W>,
    left: u32,
) -> bool
    requires { W ≤ 64 }
    ensures { IsTrue result ↔ (goal ≡ wanted → HasRow bounds.now (members s.now) (Steps left) → ⊥) }
{
    goal != wanted || !bounds.has(s, Bound::Steps(left))
}

/// Whether no table of the goal has such a row.
fn is_open<const W: usize>(
    tables: &[(GoalId, BestBounds<W>)],
    goal: GoalId,
    s: &Bits<W>,
    left: u32,
) -> bool
    requires { W ≤ 64 }
    ensures { IsTrue result ↔ All (λ x. x.0 ≡ goal → HasRow x.1 (members s.now) (Steps left) → ⊥) tables.now }
{
    for table in tables {
        if !is_open_in(table.0, &table.1, goal, s, left) {
            return false;
        }
    }
    true
}

/// Whether the goal of the row is not refuted at the successor.
fn stays_live<const W: usize>(
    costs: &[Option<u32>],
    tables: &[(GoalId, BestBounds<W>)],
    row: &LiveRow,
    s: &Bits<W>,
    goal: GoalId,
) -> bool
    requires width { W ≤ 64 }
    requires there { Contains row.now.goals goal }
    ensures { IsTrue result ↔ StaysLive costs.now tables.now row.now (members s.now) goal }
{
    let Some(cost) = cost_of(costs, goal) else {
        return false;
    };
    if cost <= row.depth {
        return false;
    }
    is_open(tables, goal, s, cost - row.depth - 1)
}

/// The goals of the row that stay live at the successor.
fn live_goals<const W: usize>(
    alloc: Global,
    costs: &[Option<u32>],
    tables: &[(GoalId, BestBounds<W>)],
    row: &LiveRow,
    s: &Bits<W>,
) -> Result<Vec<GoalId>, OutOfMemory>
    requires { W ≤ 64 }
    ensures { IfOk result (λ goals. (g : GoalId) → Contains goals.items g ↔ StaysLive costs.now tables.now row.now (members s.now) g) }
{
    let mut goals = Vec::new(alloc);
    for goal in &row.goals {
        if stays_live(costs, tables, row, s, *goal) {
            goals.push(*goal)?;
        }
    }
    Ok(goals)
}

/// Whether two of the goals differ.
fn are_two(goals: &[GoalId]) -> bool
    ensures two { IsTrue result → (g : GoalId) × (h : GoalId) × (g ≢ h) × Contains goals.now g × Contains goals.now h }
    ensures one { result ≡ false → (g h : GoalId) → Contains goals.now g → Contains goals.now h → g ≡ h }
{
    for goal in goals {
        if *goal != goals[0] {
            return true;
        }
    }
    false
}

/// Whether the row is followed at the successor.
fn is_followed<const W: usize>(
    alloc: Global,
    followers: &Followers<W>,
    row: &LiveRow,
    s: &Bits<W>,
) -> Result<bool, OutOfMemory>
    requires { W ≤ 64 }
    ensures { IfOk result (λ is. IsTrue is ↔ IsFollowed followers.now.costs.now followers.now.length (live_of followers.now) row.now (members s.now)) }
{
    let goals = live_goals(alloc, followers.costs, followers.tables.as_slice(), row, s)?;
    let found = goals.as_slice();
    if !are_two(found) {
        return Ok(true);
    }
    if followers.length <= row.depth {
        return Ok(false);
    }
    Ok(followers.index.has(s, row.depth + 1, found))
}

/// Whether the row is followed at the successor by the allowed action, where it applies.
pub(crate) fn step_followed<const W: usize>(
    alloc: Global,
    moves: &Moves,
    followers: &Followers<W>,
    row: &LiveRow,
    s: &Bits<W>,
    a: ActionId,
) -> Result<bool, OutOfMemory>
    requires width { W ≤ 64 }
    requires atoms { moves.now.task.atoms ≤ 64 * W }
    requires action { Contains (allowed_of moves.now.task moves.now.removed) a }
    ensures { IfOk result (λ is. IsTrue is ↔ ((u : State) → step_without moves.now.task moves.now.removed (members s.now) a ≡ Some u
        → IsFollowed followers.now.costs.now followers.now.length (live_of followers.now) row.now u)) }
{
    match advance(moves.task(), s, a) {
        Some(next) => is_followed(alloc, followers, row, &next),
        None => Ok(true),
    }
}
