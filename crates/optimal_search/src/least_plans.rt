ghost use Rattle.std.specs.Prelude.{◌≡◌, ℕ, ◌*◌, ◌<◌, ◌≤◌, [], length, map, All, IfOk, IfSome};
ghost use Rattle.std.specs.Option.{option_map};
ghost use Rattle.grd_base.specs.Counts.{MoreThan};
ghost use Rattle.strips_model.specs.Common.{IsRight, AreRight};
ghost use Rattle.strips_model.specs.Reached.{IsNear};

use crate::cost::least_plan;
use crate::faults::GoalSearchFault;
use crate::space::TaskSpace;
use grd_base::{ActionId, ActionSet, GoalId, Limits, by_width};
use search_core::{LeastAnswer, SearchFault};
use std::alloc::Global;
use strips_model::{Task, fits, known_task};
use succ_table::SuccTable;

/// An optimal plan of the space's goal, or none where it has no plan.
fn plan_in<const W: usize>(
    alloc: Global,
    space: &TaskSpace<W>,
    states: u32,
) -> Result<Option<Vec<ActionId>>, SearchFault>
    requires { space.now.removed ≡ [] }
    ensures right { IfOk result
        (λ plan. IsRight space.now.task space.now.goal [] (option_map (λ p. p.items) plan)) }
    ensures in_range { IfOk result
        (λ plan. IfSome plan (λ p. All (λ a. a.0 < length space.now.task.actions) p.items)) }
    ensures many { result ≡ Err SearchFault.TooManyStates
        → MoreThan states (IsNear space.now.task space.now.goal) }
{
    known_task(space.task());
    match least_plan(alloc, space, states)? {
        LeastAnswer::Found(plan, _) => Ok(Some(plan)),
        LeastAnswer::Never(_) => Ok(None),
    }
}

/// An optimal plan of a goal of the table's task, or none where it has no plan.
fn plan_of<const W: usize>(
    alloc: Global,
    table: &SuccTable,
    goal: GoalId,
    removed: &ActionSet,
    states: u32,
) -> Result<Option<Vec<ActionId>>, GoalSearchFault>
    requires width { W ≤ 64 }
    requires atoms { table.now.atoms ≤ 64 * W }
    requires goal { goal.0 < length table.now.goals }
    requires removed { removed.now ≡ [] }
    ensures right { IfOk result (λ plan. IsRight table.now goal [] (option_map (λ p. p.items) plan)) }
    ensures in_range { IfOk result
        (λ plan. IfSome plan (λ p. All (λ a. a.0 < length table.now.actions) p.items)) }
    ensures many { (g : GoalId) → result ≡ Err (GoalSearchFault.TooManyStates g)
        → (g.0 < length table.now.goals) × MoreThan states (IsNear table.now g) }
{
    let space = TaskSpace::<W>::with_table(alloc, table, goal, removed)?;
    match plan_in(alloc, &space, states) {
        Ok(plan) => Ok(plan),
        Err(fault) => Err(GoalSearchFault::of(fault, goal)),
    }
}

/// The plans of each goal, by states of W words and one table of the task's actions.
fn all_plans<const W: usize>(
    alloc: Global,
    task: &Task,
    states: u32,
) -> Result<Vec<Option<Vec<ActionId>>>, GoalSearchFault>
    requires width { W ≤ 64 }
    requires atoms { task.now.atoms ≤ 64 * W }
    ensures right { IfOk result
        (λ plans. AreRight task.now [] (map (option_map (λ p. p.items)) plans.items)) }
    ensures in_range { IfOk result
        (λ plans. All (λ x. IfSome x (λ p. All (λ a. a.0 < length task.now.actions) p.items)) plans.items) }
    ensures many { (g : GoalId) → result ≡ Err (GoalSearchFault.TooManyStates g)
        → (g.0 < length task.now.goals) × MoreThan states (IsNear task.now g) }
{
    let removed = ActionSet::new(alloc);
    let table = SuccTable::build(alloc, task)?;
    let mut plans = Vec::new(alloc);
    for i in 0..task.goals.len() {
        plans.push(plan_of::<W>(alloc, &table, GoalId(i as u32), &removed, states)?)?;
    }
    Ok(plans)
}

/// An optimal plan of each goal, in the order of the goals, or none where it has no plan. What `costs` finds, without
/// the tables, whose sets take longer to make than the plans to find.
pub fn plans(
    alloc: Global,
    task: &Task,
    limits: Limits,
) -> Result<Vec<Option<Vec<ActionId>>>, GoalSearchFault>
    requires { (limits.states ≤ 1000000) × (limits.sets ≤ 1000000) }
    ensures right { IfOk result
        (λ plans. AreRight task.now [] (map (option_map (λ p. p.items)) plans.items)) }
    ensures in_range { IfOk result
        (λ plans. All (λ x. IfSome x (λ p. All (λ a. a.0 < length task.now.actions) p.items)) plans.items) }
    ensures many { (g : GoalId) → result ≡ Err (GoalSearchFault.TooManyStates g)
        → (g.0 < length task.now.goals) × MoreThan limits.states (IsNear task.now g) }
{
    fits(task);
    by_width!(task.atoms, all_plans(alloc, task, limits.states))
}
