ghost use Rattle.std.specs.Prelude.{◌≡◌, ◌↔◌, ◌*◌, ◌<◌, length, All, Any, IsTrue, IfOk, IfSome, IfNone};
ghost use Rattle.grd_base.specs.Rising.{IsRisingBy};
ghost use Rattle.strips_model.specs.Plans.{set_of, start_of};
ghost use Rattle.cost_certificate.specs.Tables.{IsAtMost, HasRow, IsRowOver, IsValidTable};
ghost use Rattle.cost_certificate.specs.declared.kinds.CheckKind.TheVariants.{BadNumber};
ghost use Rattle.design_certificate.specs.Designs.{Gives, AreAmong};
ghost use Rattle.design_certificate.specs.Live.{HasNumber};
ghost use Rattle.design_certificate.specs.Trees.{PlainNamed, RefuteCost, IsUsable, IsValidLeaf};
ghost use Rattle.design_certificate.specs.Nodes.{plain_table};
ghost use Rattle.design_certificate.specs.Ranges.{IsNamedOver, IsLeafTableOver};
ghost use Rattle.design_certificate.specs.TreeFaults.{FailsOr, FailsOwn, FailsNamed, FailsTable};

use crate::node::{LeafTable, NamedTable};
use cost_certificate::{CheckKind, Row, Table, is_enough, valid_table};
use grd_base::{ActionId, ActionSet, AtomId, Bound, GoalId, OutOfMemory};
use std::alloc::Global;
use strips_model::{Task, known_task};

/// The cost of the goal, if it has one.
pub(crate) fn cost_of(costs: &[Option<u32>], goal: GoalId) -> Option<u32>
    ensures some { IfSome result (λ c. Gives costs.now goal c) }
    ensures none { IfNone result (HasNumber costs.now goal → ⊥) }
{
    match costs.get(goal.0 as usize) {
        Some(cost) => *cost,
        None => None,
    }
}

/// Whether two rising lists have the same atoms.
pub(crate) fn same_atoms(xs: &[AtomId], ys: &[AtomId]) -> bool
    requires first { IsRisingBy (λ a. a.0) xs.now }
    requires second { IsRisingBy (λ a. a.0) ys.now }
    ensures { IsTrue result ↔ (set_of xs.now ≡ set_of ys.now) }
{
    xs == ys
}

/// Whether the row is one for the start that is high enough.
fn is_start_row(task: &Task, row: &Row, need: Bound) -> bool
    requires { IsRowOver task.now row.now }
    ensures { IsTrue result ↔ ((set_of row.now.state ≡ start_of task.now) × IsAtMost need row.now.bound) }
{
    known_task(task);
    same_atoms(row.state.as_slice(), task.init.as_slice()) && is_enough(row.bound, need)
}

/// Whether some row is one for the start that is high enough.
fn has_start_row(task: &Task, rows: &[Row], need: Bound) -> bool
    requires { All (IsRowOver task.now) rows.now }
    ensures { IsTrue result ↔ HasRow rows.now (start_of task.now) need }
{
    for row in rows {
        if is_start_row(task, row, need) {
            return true;
        }
    }
    false
}

/// Whether the rows refute all plans of the goal that are no longer than it costs.
fn refutes_cost(task: &Task, costs: &[Option<u32>], goal: GoalId, table: &Table) -> bool
    requires { All (IsRowOver task.now) table.now }
    ensures { IsTrue result ↔ RefuteCost task.now costs.now goal table.now }
{
    match cost_of(costs, goal) {
        Some(cost) => has_start_row(task, table.rows.as_slice(), Bound::Steps(cost)),
        None => false,
    }
}

/// Whether each action of the list is in the set.
fn are_among(fewer: &[ActionId], more: &ActionSet) -> bool
    ensures { IsTrue result ↔ AreAmong fewer.now more.now }
{
    for a in fewer {
        if !more.contains(*a) {
            return false;
        }
    }
    true
}

/// The named table with this number, if it may be used.
fn usable<'n>(
    named: &'n [NamedTable],
    removed: &ActionSet,
    goal: GoalId,
    number: u32,
) -> Option<&'n NamedTable>
    ensures some { IfSome result (λ x. IsUsable named.now removed.now goal number x.now) }
    ensures none { IfNone result ((x : PlainNamed) → IsUsable named.now removed.now goal number x → ⊥) }
{
    if number == 0 {
        return None;
    }
    let Some(table) = named.get(number as usize - 1) else {
        return None;
    };
    if table.goal == goal && are_among(table.removed.as_slice(), removed) {
        return Some(table);
    }
    None
}

/// What a leaf's own table fails first.
fn fault_of_own(
    alloc: Global,
    task: &Task,
    costs: &[Option<u32>],
    removed: &ActionSet,
    goal: GoalId,
    table: &Table,
) -> Result<Option<CheckKind>, OutOfMemory>
    requires goal { goal.0 < length task.now.goals }
    requires rows { All (IsRowOver task.now) table.now }
    ensures valid { IfOk result (λ found. IfNone found
        (IsValidTable task.now goal removed.now table.now × RefuteCost task.now costs.now goal table.now)) }
    ensures fault { IfOk result (λ found. IfSome found (λ kind. FailsOwn task.now costs.now kind removed.now goal table.now)) }
{
    if let Some(fault) = valid_table(alloc, task, goal, removed, table)? {
        return Ok(Some(fault.kind));
    }
    if refutes_cost(task, costs, goal, table) {
        return Ok(None);
    }
    Ok(Some(CheckKind::TreeLeaf))
}

/// What a leaf fails first that uses a named table.
fn fault_of_use(
    task: &Task,
    costs: &[Option<u32>],
    named: &[NamedTable],
    removed: &ActionSet,
    goal: GoalId,
    number: u32,
) -> Option<CheckKind>
    requires named { All (IsNamedOver task.now) named.now }
    ensures valid { IfNone result ((x : PlainNamed) × IsUsable named.now removed.now goal number x × RefuteCost task.now costs.now goal x.rows) }
    ensures fault { IfSome result (λ kind. FailsNamed task.now costs.now named.now kind removed.now goal number) }
{
    let Some(found) = usable(named, removed, goal, number) else {
        return Some(CheckKind::UseMissing);
    };
    if refutes_cost(task, costs, goal, &found.table) {
        return None;
    }
    Some(CheckKind::TreeLeaf)
}

/// What a leaf fails first.
pub(crate) fn fault_of_leaf(
    alloc: Global,
    task: &Task,
    costs: &[Option<u32>],
    named: &[NamedTable],
    removed: &ActionSet,
    goal: GoalId,
    table: &LeafTable,
) -> Result<Option<CheckKind>, OutOfMemory>
    requires goal { goal.0 < length task.now.goals }
    requires table { IsLeafTableOver task.now (plain_table table.now) }
    requires named { All (IsNamedOver task.now) named.now }
    ensures valid { IfOk result (λ found. IfNone found
        (IsValidLeaf task.now costs.now named.now removed.now goal (plain_table table.now))) }
    ensures fault { IfOk result (λ found. IfSome found
        (λ kind. FailsOr kind BadNumber (HasNumber costs.now goal)
        (FailsTable task.now costs.now named.now kind removed.now goal (plain_table table.now)))) }
{
    if cost_of(costs, goal).is_none() {
        return Ok(Some(CheckKind::BadNumber));
    }
    match table {
        LeafTable::Own(own) => fault_of_own(alloc, task, costs, removed, goal, own),
        LeafTable::Named(number) => Ok(fault_of_use(task, costs, named, removed, goal, *number)),
    }
}
