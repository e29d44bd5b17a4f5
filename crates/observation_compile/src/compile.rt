ghost use Rattle.std.specs.Prelude.{◌≡◌, ◌<◌, ◌≤◌, ◌^◌, ◌+◌, ◌++◌, ◌∷◌, [], length, map, Option, Some, None, IfOk, slice_get};
ghost use Rattle.std.specs.Option.{unwrap_or};
ghost use Rattle.strips_model.specs.Observed.{atom_before, with_more, copy_of, no_action, copies_of, goal_with, observed_task};

use grd_base::{ActionId, AtomId, OutOfMemory};
use std::alloc::Global;
use strips_model::{Action, Condition, Task};

/// The atoms, with one more behind them or without.
fn with_more(
    alloc: Global,
    atoms: &[AtomId],
    more: Option<AtomId>,
) -> Result<Vec<AtomId>, OutOfMemory>
    ensures { IfOk result (λ all. all.items ≡ with_more atoms.now more) }
{
    let mut all = Vec::from_slice(alloc, atoms)?;
    if let Some(atom) = more {
        all.push(atom)?;
    }
    Ok(all)
}

/// The action with one atom more to need and one more to add, or without.
fn copy(
    alloc: Global,
    action: &Action,
    needs: Option<AtomId>,
    adds: Option<AtomId>,
) -> Result<Action, OutOfMemory>
    ensures { IfOk result (λ copy. copy ≡ (record {
      pre = with_more action.now.pre needs;
      add = with_more action.now.add adds;
      del = action.now.del;
      blocked = action.now.blocked;
    })) }
{
    Ok(Action {
        pre: with_more(alloc, action.pre.as_slice(), needs)?,
        add: with_more(alloc, action.add.as_slice(), adds)?,
        del: Vec::from_slice(alloc, action.del.as_slice())?,
        blocked: action.blocked,
    })
}

/// The atom of the observation before the k-th of those numbered from 0, if there is one.
fn atom_before(task: &Task, k: u32) -> Option<AtomId>
    requires { task.now.atoms + k ≤ 4096 }
    ensures { result ≡ atom_before task.now k }
{
    if k == 0 {
        return None;
    }
    Some(AtomId(task.atoms + k - 1))
}

/// The copy for the k-th observation.
fn copy_for(
    alloc: Global,
    task: &Task,
    k: u32,
    observation: ActionId,
) -> Result<Action, OutOfMemory>
    requires { task.now.atoms + k < 4096 }
    ensures { IfOk result
        (λ copy. copy ≡ copy_of task.now k (unwrap_or (slice_get task.now.actions observation.0) no_action)) }
{
    let needs = atom_before(task, k);
    let adds = Some(AtomId(task.atoms + k));
    match task.actions.get(observation.0 as usize) {
        Some(action) => copy(alloc, action, needs, adds),
        None => {
            let none = Action {
                pre: Vec::new(alloc),
                add: Vec::new(alloc),
                del: Vec::new(alloc),
                blocked: true,
            };
            copy(alloc, &none, needs, adds)
        }
    }
}

/// The actions of the task as they are, and behind them the copies for the observations.
fn actions(
    alloc: Global,
    task: &Task,
    observations: &[ActionId],
) -> Result<Vec<Action>, OutOfMemory>
    requires { task.now.atoms + length observations.now ≤ 4096 }
    ensures { IfOk result
        (λ actions. actions.items ≡ task.now.actions ++ copies_of task.now 0 observations.now) }
{
    let mut actions = Vec::with_capacity(alloc, task.actions.len())?;
    for action in &task.actions {
        actions.push(copy(alloc, action, None, None)?)?;
    }
    add_copies(alloc, task, observations, &mut actions)?;
    Ok(actions)
}

/// Adds the copies for the observations.
fn add_copies(
    alloc: Global,
    task: &Task,
    observations: &[ActionId],
    actions: &mut Vec<Action>,
) -> Result<(), OutOfMemory>
    requires { task.now.atoms + length observations.now ≤ 4096 }
    ensures { IfOk result
        (λ _. actions.new.items ≡ actions.old.items ++ copies_of task.now 0 observations.now) }
{
    for (k, observation) in observations.iter().enumerate() {
        actions.push(copy_for(alloc, task, k as u32, *observation)?)?;
    }
    Ok(())
}

/// The goals of the task, each of which needs the atom of the last of so many observations as well.
fn goals(alloc: Global, task: &Task, count: u32) -> Result<Vec<Condition>, OutOfMemory>
    requires { task.now.atoms + count ≤ 4096 }
    ensures { IfOk result (λ goals. goals.items ≡ map (goal_with task.now count) task.now.goals) }
{
    let last = atom_before(task, count);
    let mut goals = Vec::with_capacity(alloc, task.goals.len())?;
    for goal in &task.goals {
        goals.push(Condition {
            atoms: with_more(alloc, goal.atoms.as_slice(), last)?,
            blocked: goal.blocked,
        })?;
    }
    Ok(goals)
}

/// The observed task.
pub fn observed(alloc: Global, task: &Task, observations: &[ActionId]) -> Result<Task, OutOfMemory>
    requires few_observations { length observations.now ≤ 1024 }
    requires few_atoms { task.now.atoms ≤ 3072 }
    requires few_actions { length task.now.actions ≤ 2 ^ 20 }
    ensures { IfOk result (λ made. made ≡ observed_task task.now observations.now) }
{
    let count = observations.len() as u32;
    Ok(Task {
        atoms: task.atoms + count,
        init: Vec::from_slice(alloc, task.init.as_slice())?,
        actions: actions(alloc, task, observations)?,
        goals: goals(alloc, task, count)?,
    })
}
