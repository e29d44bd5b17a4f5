ghost use Rattle.std.specs.Prelude.{◌≡◌, ℕ, ◌<◌, ◌≤◌, List, length, All, Some, IfOk, slice_get};
ghost use Rattle.cost_certificate.specs.declared.found.Verdict.{Verdict};
ghost use Rattle.cost_certificate.specs.Rows.{PlainRow};
ghost use Rattle.cost_certificate.specs.Tables.{IsRowOver};
ghost use Rattle.strips_model.specs.Observed.{observed_task};

use crate::samples::{FORK_OF_THREE, goal, task};
use cost_certificate::{Table, Verdict, valid_table};
use grd_base::{ActionId, ActionSet, GoalId, Limits};
use observation_compile::observed;
use optimal_search::{GoalSearchFault, costs};
use recognise::recognise;
use std::alloc::Global;
use std::test::Fail;
use strips_model::Task;

const A: ActionId = ActionId(0);

const B: ActionId = ActionId(1);

const L: ActionId = ActionId(2);

const R: ActionId = ActionId(3);

// A search may count so many states.
fn up_to(states: u32) -> Limits
    ensures states { result.states ≡ states }
    ensures sets { result.sets ≡ 0 }
{
    Limits { states, sets: 0 }
}

// The verdicts on the goals of the task, where each may count so many states.
fn verdicts(
    alloc: Global,
    task: &Task,
    observations: &[ActionId],
    states: u32,
) -> Result<Vec<Verdict>, GoalSearchFault>
    requires atoms { task.now.atoms ≤ 64 }
    requires actions { length task.now.actions ≤ 32 }
    requires observations { length observations.now ≤ 32 }
    requires states { states ≤ 1000000 }
    ensures over { IfOk result (λ found. (k : ℕ) (table : List PlainRow)
        → slice_get found.items k ≡ Some (Verdict.No table)
        → All (IsRowOver (observed_task task.now observations.now)) table) }
{
    let found = costs(alloc, task, up_to(10))?;
    recognise(alloc, task, found.as_slice(), observations, up_to(states))
}

// A verdict: Yes with a plan, No with a table that has no rows, or No with a valid table that has some.
#[derive(Clone, Copy)]
enum Plain {
    Plan(&'static [ActionId]),
    NoRows,
    Rows,
}

use Plain::{NoRows, Plan, Rows};

// Whether the plan is the wanted one.
fn is_plan(plan: &[ActionId], wanted: Plain) -> bool {
    match wanted {
        Plan(wanted) => plan == wanted,
        _ => false,
    }
}

// Whether the table is valid for the goal in the observed task, and has rows or none, as is wanted.
fn is_table(
    alloc: Global,
    task: &Task,
    observations: &[ActionId],
    goal: GoalId,
    table: &Table,
    wanted: Plain,
) -> Result<bool, Fail>
    requires atoms { task.now.atoms ≤ 64 }
    requires actions { length task.now.actions ≤ 32 }
    requires goal { goal.0 < length task.now.goals }
    requires observations { length observations.now ≤ 32 }
    requires rows { All (IsRowOver (observed_task task.now observations.now)) table.now }
{
    let made = observed(alloc, task, observations)?;
    let none = ActionSet::new(alloc);
    let fault = valid_table(alloc, &made, goal, &none, table)?;
    let as_wanted = match wanted {
        Plan(_) => false,
        NoRows => table.rows.is_empty(),
        Rows => !table.rows.is_empty(),
    };
    Ok(fault.is_none() && as_wanted)
}

// Whether each goal has a verdict, and this one the wanted one.
fn is(
    alloc: Global,
    task: &Task,
    observations: &[ActionId],
    found: &[Verdict],
    goal: GoalId,
    wanted: Plain,
) -> Result<bool, Fail>
    requires atoms { task.now.atoms ≤ 64 }
    requires actions { length task.now.actions ≤ 32 }
    requires goal { goal.0 < length task.now.goals }
    requires observations { length observations.now ≤ 32 }
    requires over { (k : ℕ) (table : List PlainRow) → slice_get found.now k ≡ Some (Verdict.No table)
        → All (IsRowOver (observed_task task.now observations.now)) table }
{
    if found.len() != task.goals.len() {
        return Ok(false);
    }
    match found.get(goal.0 as usize) {
        Some(Verdict::Yes(plan)) => Ok(is_plan(plan, wanted)),
        Some(Verdict::No(table)) => is_table(alloc, task, observations, goal, table, wanted),
        None => Ok(false),
    }
}

// Whether the verdict on the goal of fork is the wanted one.
fn has_verdict(
    alloc: Global,
    observations: &[ActionId],
    number: u32,
    wanted: Plain,
) -> Result<bool, Fail> {
    let task = task(alloc, &FORK_OF_THREE)?;
    let goal = goal(&task, number)?;
    if observations.len() > 32 {
        return Err("few observations")?;
    }
    match verdicts(alloc, &task, observations, 10) {
        Ok(found) => is(alloc, &task, observations, &found, goal, wanted),
        Err(_) => Ok(false),
    }
}

// The first step lies on the plans of both goals, and the step to the left on no plan to the right. The
// last step is never before the first, and no step is taken twice. A goal that is never reached is not
// recognised.
#[test]
fn goals_whose_plans_embed_the_observations_are_recognised(rt: HostRuntime) -> Result<(), Fail> {
    let rows: [(&[ActionId], [Plain; 3]); 5] = [
        (&[], [Plan(&[A, B, L]), Plan(&[A, B, R]), NoRows]),
        (&[A], [Plan(&[A, B, L]), Plan(&[A, B, R]), NoRows]),
        (&[L], [Plan(&[A, B, L]), Rows, NoRows]),
        (&[R, A], [Rows, Rows, NoRows]),
        (&[A, A], [Rows, Rows, NoRows]),
    ];
    for (observations, [left, right, never]) in rows {
        for (goal, wanted) in [(0, left), (1, right), (2, never)] {
            let has = has_verdict(rt.alloc(), observations, goal, wanted)?;
            assert!(rt; has, "goal {goal} of {observations:?}");
        }
    }
    Ok(())
}

fn fault(
    alloc: Global,
    observations: &[ActionId],
    states: u32,
) -> Result<Option<GoalSearchFault>, Fail> {
    let task = task(alloc, &FORK_OF_THREE)?;
    if observations.len() > 32 || states > 1000000 {
        return Err("few observations and states")?;
    }
    Ok(verdicts(alloc, &task, observations, states).err())
}

#[test]
fn first_goal_that_meets_the_limit_is_told(rt: HostRuntime) -> Result<(), Fail> {
    for (states, wanted) in [
        (1, Some(GoalSearchFault::TooManyStates(GoalId(0)))),
        (10, None),
    ] {
        assert_eq!(rt; fault(rt.alloc(), &[L], states)?, wanted, "{states}");
    }
    Ok(())
}
