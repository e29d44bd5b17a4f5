ghost use Rattle.std.specs.Prelude.{◌≡◌, ◌↔◌, ◌*◌, ◌<◌, ◌≤◌, ◌^◌, ℕ, List, length, All, Any, Contains, IsTrue, IfOk, IfSome, IfNone, map};
ghost use Rattle.grd_base.specs.declared.ids.GoalId.{GoalId};
ghost use Rattle.cost_certificate.specs.Tables.{IsValidTable};
ghost use Rattle.cost_certificate.specs.Faults.{IsFirstBad, IsFaultOf};
ghost use Rattle.design_certificate.specs.Live.{Begins, HasNumber, given_from};
ghost use Rattle.design_certificate.specs.Ranges.{IsTableOver, IsLiveRowOver};

use crate::branch::has_number;
use crate::index::has_goal;
use crate::leaf::same_atoms;
use crate::live::LiveRow;
use cost_certificate::{Table, TableFault, valid_table};
use grd_base::{ActionSet, GoalId, OutOfMemory};
use std::alloc::Global;
use strips_model::{Task, known_task};

/// What the tables fail first.
pub(crate) fn fault_of_tables(
    alloc: Global,
    task: &Task,
    removed: &ActionSet,
    tables: &[(GoalId, Table)],
) -> Result<Option<TableFault>, OutOfMemory>
    requires { All (IsTableOver task.now) tables.now }
    ensures fault { IfOk result (λ found. IfSome found (λ fault. (place : ℕ) × IsFirstBad (λ x. IsValidTable task.now x.0 removed.now x.1)
        (λ x. (set : ℕ) × IsFaultOf task.now x.0 removed.now x.1 fault.kind fault.row set) tables.now place)) }
    ensures valid { IfOk result (λ found. IfNone found (All (λ x. IsValidTable task.now x.0 removed.now x.1) tables.now)) }
{
    for (i, table) in tables.iter().enumerate() {
        if let Some(fault) = valid_table(alloc, task, table.0, removed, &table.1)? {
            return Ok(Some(fault));
        }
    }
    Ok(None)
}

/// Whether each of the goals has a number.
fn are_numbered(costs: &[Option<u32>], goals: &[GoalId]) -> bool
    ensures { IsTrue result ↔ All (HasNumber costs.now) goals.now }
{
    for goal in goals {
        if !has_number(costs, *goal) {
            return false;
        }
    }
    true
}

/// Whether the row is not too deep and its goals have numbers.
fn has_numbers(costs: &[Option<u32>], length: u32, row: &LiveRow) -> bool
    ensures { IsTrue result ↔ ((row.now.depth ≤ length) × All (HasNumber costs.now) row.now.goals) }
{
    if length < row.depth {
        return false;
    }
    are_numbered(costs, row.goals.as_slice())
}

/// The place of the first row that is too deep or has a goal without a number.
pub(crate) fn misnumbered_row(costs: &[Option<u32>], length: u32, rows: &[LiveRow]) -> Option<usize>
    ensures lacks { IfSome result (IsFirstBad (λ r. (r.depth ≤ length) × All (HasNumber costs.now) r.goals)
        (λ r. (r.depth ≤ length) × All (HasNumber costs.now) r.goals → ⊥) rows.now) }
    ensures has { IfNone result (All (λ r. (r.depth ≤ length) × All (HasNumber costs.now) r.goals) rows.now) }
{
    for (i, row) in rows.iter().enumerate() {
        if !has_numbers(costs, length, row) {
            return Some(i);
        }
    }
    None
}

/// Whether each goal with a number is in the list.
fn has_given(costs: &[Option<u32>], goals: &[GoalId]) -> bool
    requires { length costs.now ≤ 32 }
    ensures { IsTrue result ↔ ((g : GoalId) → HasNumber costs.now g → Contains goals.now g) }
{
    for k in 0..costs.len() {
        let goal = GoalId(k as u32);
        if has_number(costs, goal) && !has_goal(goals, goal) {
            return false;
        }
    }
    true
}

/// Whether the row begins.
fn begins(task: &Task, costs: &[Option<u32>], row: &LiveRow) -> bool
    requires costs { length costs.now ≤ 32 }
    requires row { IsLiveRowOver task.now row.now }
    ensures { IsTrue result ↔ Begins task.now costs.now row.now }
{
    known_task(task);
    if row.depth != 0 || !same_atoms(row.state.as_slice(), task.init.as_slice()) {
        return false;
    }
    has_given(costs, row.goals.as_slice())
}

/// Whether some row begins.
pub(crate) fn has_begin(task: &Task, costs: &[Option<u32>], rows: &[LiveRow]) -> bool
    requires costs { length costs.now ≤ 32 }
    requires rows { All (IsLiveRowOver task.now) rows.now }
    ensures { IsTrue result ↔ Any (Begins task.now costs.now) rows.now }
{
    for row in rows {
        if begins(task, costs, row) {
            return true;
        }
    }
    false
}
