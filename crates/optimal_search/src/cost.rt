ghost use Rattle.std.specs.Prelude.{◌≡◌, ℕ, ◌*◌, ◌<◌, ◌≤◌, [], length, All, Some, IfOk, slice_get};
ghost use Rattle.grd_base.specs.Counts.{MoreThan};
ghost use Rattle.strips_model.specs.Reached.{IsNear, IsNearWithout};
ghost use Rattle.cost_certificate.specs.Found.{PlainCost};
ghost use Rattle.optimal_search.specs.Costs.{IsRightCost};
ghost use Rattle.optimal_search.specs.Oracles.{AreRight};
ghost use Rattle.optimal_search.specs.Plans.{IsLeastPlan};
ghost use Rattle.optimal_search.specs.Rows.{table_for};

use crate::faults::GoalSearchFault;
use crate::rows::table_of;
use crate::space::{SpaceFloor, TaskSpace};
use cost_certificate::{CostFound, Table};
use cut_bounds::CutMark;
use grd_base::{ActionId, ActionSet, Bits, GoalId, Limits, OutOfMemory, by_width, whole};
use search_core::{KeptRow, LeastAnswer, SearchFault, least};
use std::alloc::Global;
use strips_model::{Task, fits, known_task, start};
use succ_table::SuccTable;

/// How far the goal is from the start of the task, by the space of the two.
pub(crate) fn least_plan<const W: usize>(
    alloc: Global,
    space: &TaskSpace<W>,
    states: u32,
) -> Result<LeastAnswer<Bits<W>, CutMark>, SearchFault>
    ensures least { IfOk result
        (IsLeastPlan space.now.task space.now.goal space.now.removed states) }
    ensures many { result ≡ Err SearchFault.TooManyStates
        → MoreThan states (IsNearWithout space.now.task space.now.goal space.now.removed) }
{
    let task = space.task();
    known_task(task);
    let first = start(task);
    whole(&first);
    least(alloc, space, &SpaceFloor, first, states)
}

/// The table of a path's rows; an empty path needs none.
fn table_below<const W: usize>(
    alloc: Global,
    space: &TaskSpace<W>,
    plan: &[ActionId],
    rows: &[KeptRow<Bits<W>, CutMark>],
) -> Result<Table, OutOfMemory>
    requires width { W ≤ 64 }
    requires right { AreRight space.now.task space.now.goal space.now.removed rows.now }
    ensures { IfOk result (λ table. table ≡ table_for space.now.task space.now.removed plan.now rows.now) }
{
    if plan.is_empty() {
        return Ok(Table {
            rows: Vec::new(alloc),
        });
    }
    table_of(alloc, space, rows)
}

/// The cost that was found, with the path as a plan and the rows as a table.
fn shown_cost<const W: usize>(
    alloc: Global,
    space: &TaskSpace<W>,
    states: u32,
    found: LeastAnswer<Bits<W>, CutMark>,
) -> Result<CostFound, OutOfMemory>
    requires width { W ≤ 64 }
    requires states { states ≤ 1000000 }
    requires removed { space.now.removed ≡ [] }
    requires least { IsLeastPlan space.now.task space.now.goal [] states found }
    ensures right { IfOk result (IsRightCost space.now.task space.now.goal states) }
    ensures in_range { IfOk result (λ found. All (λ a. a.0 < length space.now.task.actions) found.plan) }
{
    known_task(space.task());
    match found {
        LeastAnswer::Found(plan, rows) => {
            let table = table_below(alloc, space, plan.as_slice(), rows.as_slice())?;
            Ok(CostFound {
                cost: Some(plan.len() as u32),
                plan,
                table,
            })
        }
        LeastAnswer::Never(rows) => {
            let table = table_of(alloc, space, rows.as_slice())?;
            Ok(CostFound {
                cost: None,
                plan: Vec::new(alloc),
                table,
            })
        }
    }
}

/// The cost of the space's goal, with an optimal plan and a table.
fn cost_in<const W: usize>(
    alloc: Global,
    space: &TaskSpace<W>,
    states: u32,
) -> Result<CostFound, SearchFault>
    requires width { W ≤ 64 }
    requires states { states ≤ 1000000 }
    requires removed { space.now.removed ≡ [] }
    ensures right { IfOk result (IsRightCost space.now.task space.now.goal states) }
    ensures in_range { IfOk result (λ found. All (λ a. a.0 < length space.now.task.actions) found.plan) }
    ensures many { result ≡ Err SearchFault.TooManyStates
        → MoreThan states (IsNear space.now.task space.now.goal) }
{
    let found = least_plan(alloc, space, states)?;
    let shown = shown_cost(alloc, space, states, found)?;
    Ok(shown)
}

/// The cost of a goal, with an optimal plan and a table.
fn cost_for<const W: usize>(
    alloc: Global,
    table: &SuccTable,
    goal: GoalId,
    removed: &ActionSet,
    states: u32,
) -> Result<CostFound, SearchFault>
    requires width { W ≤ 64 }
    requires atoms { table.now.atoms ≤ 64 * W }
    requires goal { goal.0 < length table.now.goals }
    requires removed { removed.now ≡ [] }
    requires states { states ≤ 1000000 }
    ensures right { IfOk result (IsRightCost table.now goal states) }
    ensures in_range { IfOk result (λ found. All (λ a. a.0 < length table.now.actions) found.plan) }
    ensures many { result ≡ Err SearchFault.TooManyStates → MoreThan states (IsNear table.now goal) }
{
    let space = TaskSpace::<W>::with_table(alloc, table, goal, removed)?;
    cost_in(alloc, &space, states)
}

/// The same, with the goal in its fault.
fn cost_of<const W: usize>(
    alloc: Global,
    table: &SuccTable,
    goal: GoalId,
    removed: &ActionSet,
    states: u32,
) -> Result<CostFound, GoalSearchFault>
    requires width { W ≤ 64 }
    requires atoms { table.now.atoms ≤ 64 * W }
    requires goal { goal.0 < length table.now.goals }
    requires removed { removed.now ≡ [] }
    requires states { states ≤ 1000000 }
    ensures right { IfOk result (IsRightCost table.now goal states) }
    ensures in_range { IfOk result (λ found. All (λ a. a.0 < length table.now.actions) found.plan) }
    ensures many { (g : GoalId) → result ≡ Err (GoalSearchFault.TooManyStates g)
        → (g.0 < length table.now.goals) × MoreThan states (IsNear table.now g) }
{
    match cost_for::<W>(alloc, table, goal, removed, states) {
        Ok(found) => Ok(found),
        Err(fault) => Err(GoalSearchFault::of(fault, goal)),
    }
}

/// What is found of each goal, by states of W words and one table of the task's actions.
fn all_costs<const W: usize>(
    alloc: Global,
    task: &Task,
    states: u32,
) -> Result<Vec<CostFound>, GoalSearchFault>
    requires width { W ≤ 64 }
    requires atoms { task.now.atoms ≤ 64 * W }
    requires states { states ≤ 1000000 }
    ensures each_goal { IfOk result (λ found. length found.items ≡ length task.now.goals) }
    ensures right { IfOk result (λ found. (k : ℕ) (x : PlainCost) → slice_get found.items k ≡ Some x
        → IsRightCost task.now (record { 0 = k }) states x) }
    ensures in_range { IfOk result
        (λ found. All (λ x. All (λ a. a.0 < length task.now.actions) x.plan) found.items) }
    ensures many { (g : GoalId) → result ≡ Err (GoalSearchFault.TooManyStates g)
        → (g.0 < length task.now.goals) × MoreThan states (IsNear task.now g) }
{
    let removed = ActionSet::new(alloc);
    let table = SuccTable::build(alloc, task)?;
    let mut found = Vec::new(alloc);
    for i in 0..task.goals.len() {
        found.push(cost_of::<W>(alloc, &table, GoalId(i as u32), &removed, states)?)?;
    }
    Ok(found)
}

/// The cost of each goal, in the order of the goals, with an optimal plan and a table that refutes less.
pub fn costs(alloc: Global, task: &Task, limits: Limits) -> Result<Vec<CostFound>, GoalSearchFault>
    requires { (limits.states ≤ 1000000) × (limits.sets ≤ 1000000) }
    ensures each_goal { IfOk result (λ found. length found.items ≡ length task.now.goals) }
    ensures right { IfOk result (λ found. (k : ℕ) (x : PlainCost) → slice_get found.items k ≡ Some x
        → IsRightCost task.now (record { 0 = k }) limits.states x) }
    ensures in_range { IfOk result
        (λ found. All (λ x. All (λ a. a.0 < length task.now.actions) x.plan) found.items) }
    ensures many { (g : GoalId) → result ≡ Err (GoalSearchFault.TooManyStates g)
        → (g.0 < length task.now.goals) × MoreThan limits.states (IsNear task.now g) }
{
    fits(task);
    by_width!(task.atoms, all_costs(alloc, task, limits.states))
}
