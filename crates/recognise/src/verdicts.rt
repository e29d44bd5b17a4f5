ghost use Rattle.std.specs.Prelude.{◌≡◌, ℕ, ◌*◌, ◌^◌, ◌<◌, ◌≤◌, [], length, map, All, Some, IfOk, slice_get};
ghost use Rattle.grd_base.specs.Bits.{members};
ghost use Rattle.grd_base.specs.Counts.{MoreThan};
ghost use Rattle.strips_model.specs.Plans.{start_of, IsCost, IsOver};
ghost use Rattle.strips_model.specs.Reached.{IsNearObserved};
ghost use Rattle.cost_certificate.specs.declared.found.Verdict.{Verdict};
ghost use Rattle.cost_certificate.specs.Found.{PlainCost};
ghost use Rattle.strips_model.specs.Observed.{observed_task, read_as};
ghost use Rattle.cost_certificate.specs.Verdicts.{plain_verdict, IsRightVerdict};

use cost_certificate::{CostFound, Table, Verdict};
use grd_base::{ActionId, ActionSet, Bits, GoalId, Limits, OutOfMemory, by_width};
use observation_compile::{observed, plans_embed};
use optimal_search::{GoalSearchFault, Oracle};
use search_core::SearchFault;
use std::alloc::Global;
use strips_model::{Task, fits, known_task, start};
use succ_table::SuccTable;

/// The path of the observed task as actions of the task: each copy is read as its observation.
fn read(
    alloc: Global,
    task: &Task,
    observations: &[ActionId],
    path: &[ActionId],
) -> Result<Vec<ActionId>, OutOfMemory>
    ensures { IfOk result (λ plan. plan.items ≡ map (read_as task.now observations.now) path.now) }
{
    let count = task.actions.len();
    let mut plan = Vec::with_capacity(alloc, path.len())?;
    for a in path {
        let number = a.0 as usize;
        if number < count {
            plan.push(*a)?;
        } else {
            plan.push(*observations.get(number - count).unwrap_or(a))?;
        }
    }
    Ok(plan)
}

/// The verdict on the goal of an oracle of the observed task, which costs so much in the task.
fn ask<const W: usize>(
    alloc: Global,
    task: &Task,
    observations: &[ActionId],
    oracle: &mut Oracle<W>,
    first: &Bits<W>,
    cost: u32,
) -> Result<Verdict, SearchFault>
    requires made { oracle.old.task ≡ observed_task task.now observations.now }
    requires removed { oracle.old.removed ≡ [] }
    requires first { members first.now ≡ start_of oracle.old.task }
    requires over { IsOver oracle.old.task (members first.now) }
    requires cost { IsCost task.now oracle.old.goal [] (Some cost) }
    ensures right { IfOk result (λ verdict. IsRightVerdict task.now observations.now oracle.old.goal (Some cost) (plain_verdict verdict)) }
    ensures many { result ≡ Err SearchFault.TooManyStates
        → MoreThan oracle.old.limit (IsNearObserved task.now observations.now oracle.old.goal) }
{
    known_task(task);
    plans_embed();
    match oracle.within(alloc, first, cost)? {
        Some(path) => Ok(Verdict::Yes(read(alloc, task, observations, path.as_slice())?)),
        None => Ok(Verdict::No(oracle.table(alloc)?)),
    }
}

/// The verdict on a goal of this cost.
fn verdict_for<const W: usize>(
    alloc: Global,
    task: &Task,
    observations: &[ActionId],
    made: &SuccTable,
    goal: GoalId,
    cost: u32,
    limits: Limits,
) -> Result<Verdict, SearchFault>
    requires width { W ≤ 64 }
    requires atoms { made.now.atoms ≤ 64 * W }
    requires made { made.now ≡ observed_task task.now observations.now }
    requires goal { goal.0 < length made.now.goals }
    requires cost { IsCost task.now goal [] (Some cost) }
    requires limits { (limits.states ≤ 1000000) × (limits.sets ≤ 1000000) }
    ensures right { IfOk result (λ verdict. IsRightVerdict task.now observations.now goal (Some cost) (plain_verdict verdict)) }
    ensures many { result ≡ Err SearchFault.TooManyStates
        → MoreThan limits.states (IsNearObserved task.now observations.now goal) }
{
    let task_made = made.task();
    known_task(task_made);
    let first = start::<W>(task_made);
    let removed = ActionSet::new(alloc);
    let mut oracle = Oracle::with_table(alloc, made, goal, &removed, limits)?;
    ask(alloc, task, observations, &mut oracle, &first, cost)
}

/// The same, with the goal in its fault.
fn verdict_of<const W: usize>(
    alloc: Global,
    task: &Task,
    observations: &[ActionId],
    made: &SuccTable,
    goal: GoalId,
    cost: u32,
    limits: Limits,
) -> Result<Verdict, GoalSearchFault>
    requires width { W ≤ 64 }
    requires atoms { made.now.atoms ≤ 64 * W }
    requires made { made.now ≡ observed_task task.now observations.now }
    requires goal { goal.0 < length task.now.goals }
    requires cost { IsCost task.now goal [] (Some cost) }
    requires limits { (limits.states ≤ 1000000) × (limits.sets ≤ 1000000) }
    ensures right { IfOk result (λ verdict. IsRightVerdict task.now observations.now goal (Some cost) (plain_verdict verdict)) }
    ensures many { (g : GoalId) → result ≡ Err (GoalSearchFault.TooManyStates g)
        → (g ≡ goal) × MoreThan limits.states (IsNearObserved task.now observations.now g) }
{
    match verdict_for::<W>(alloc, task, observations, made, goal, cost, limits) {
        Ok(verdict) => Ok(verdict),
        Err(fault) => Err(GoalSearchFault::of(fault, goal)),
    }
}

/// The verdict on each goal, by states of W words and one table of the observed task's actions.
fn all_verdicts<const W: usize>(
    alloc: Global,
    task: &Task,
    costs: &[CostFound],
    observations: &[ActionId],
    made: &Task,
    limits: Limits,
) -> Result<Vec<Verdict>, GoalSearchFault>
    requires width { W ≤ 64 }
    requires atoms { made.now.atoms ≤ 64 * W }
    requires made { made.now ≡ observed_task task.now observations.now }
    requires each_goal { length costs.now ≡ length task.now.goals }
    requires right { (k : ℕ) (x : PlainCost) → slice_get costs.now k ≡ Some x
        → IsCost task.now (record { 0 = k }) [] x.cost }
    requires limits { (limits.states ≤ 1000000) × (limits.sets ≤ 1000000) }
    ensures each_goal { IfOk result (λ verdicts. length verdicts.items ≡ length task.now.goals) }
    ensures right { IfOk result (λ verdicts. (k : ℕ) (x : PlainCost) (verdict : Verdict)
        → slice_get costs.now k ≡ Some x → slice_get verdicts.items k ≡ Some verdict
        → IsRightVerdict task.now observations.now (record { 0 = k }) x.cost (plain_verdict verdict)) }
    ensures many { (g : GoalId) → result ≡ Err (GoalSearchFault.TooManyStates g)
        → (g.0 < length task.now.goals) × MoreThan limits.states (IsNearObserved task.now observations.now g) }
{
    known_task(task);
    let table = SuccTable::build(alloc, made)?;
    let mut verdicts = Vec::with_capacity(alloc, costs.len())?;
    for (i, found) in costs.iter().enumerate() {
        let verdict = match found.cost {
            Some(cost) => {
                verdict_of::<W>(
                    alloc,
                    task,
                    observations,
                    &table,
                    GoalId(i as u32),
                    cost,
                    limits,
                )?
            }
            None => Verdict::No(Table {
                rows: Vec::new(alloc),
            }),
        };
        verdicts.push(verdict)?;
    }
    Ok(verdicts)
}

/// Whether each goal is recognised, in the order of the goals: whether an optimal plan of it embeds the
/// observations. The limit counts near states of the observed task, for each goal with a cost.
pub fn recognise(
    alloc: Global,
    task: &Task,
    costs: &[CostFound],
    observations: &[ActionId],
    limits: Limits,
) -> Result<Vec<Verdict>, GoalSearchFault>
    requires few_observations { length observations.now ≤ 1024 }
    requires few_atoms { task.now.atoms ≤ 3072 }
    requires few_actions { length task.now.actions ≤ 2 ^ 20 }
    requires each_goal { length costs.now ≡ length task.now.goals }
    requires right { (k : ℕ) (x : PlainCost) → slice_get costs.now k ≡ Some x
        → IsCost task.now (record { 0 = k }) [] x.cost }
    requires limits { (limits.states ≤ 1000000) × (limits.sets ≤ 1000000) }
    ensures each_goal { IfOk result (λ verdicts. length verdicts.items ≡ length task.now.goals) }
    ensures right { IfOk result (λ verdicts. (k : ℕ) (x : PlainCost) (verdict : Verdict)
        → slice_get costs.now k ≡ Some x → slice_get verdicts.items k ≡ Some verdict
        → IsRightVerdict task.now observations.now (record { 0 = k }) x.cost (plain_verdict verdict)) }
    ensures many { (g : GoalId) → result ≡ Err (GoalSearchFault.TooManyStates g)
        → (g.0 < length task.now.goals) × MoreThan limits.states (IsNearObserved task.now observations.now g) }
{
    let made = observed(alloc, task, observations)?;
    fits(&made);
    by_width!(
        made.atoms,
        all_verdicts(alloc, task, costs, observations, &made, limits)
    )
}
