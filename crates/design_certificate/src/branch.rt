ghost use Rattle.std.specs.Prelude.{◌≡◌, ◌↔◌, ◌*◌, ◌<◌, ◌≤◌, length, All, IsTrue, IfSome, IfNone};
ghost use Rattle.strips_model.specs.Agents.{BeginsWith};
ghost use Rattle.cost_certificate.specs.declared.kinds.CheckKind.TheVariants.{PlanBroken, PlanLength, BadNumber, TreeBranch};
ghost use Rattle.strips_model.specs.Plans.{IsPlan};
ghost use Rattle.design_certificate.specs.Designs.{Gives};
ghost use Rattle.design_certificate.specs.Live.{HasNumber};
ghost use Rattle.design_certificate.specs.Witnesses.{IsPlanAsLong, IsShownWitness};
ghost use Rattle.design_certificate.specs.Ranges.{IsWitnessOver};
ghost use Rattle.design_certificate.specs.TreeFaults.{FailsPlan, FailsBranch, HasGoals};

use crate::leaf::cost_of;
use cost_certificate::CheckKind;
use grd_base::{ActionId, ActionSet, GoalId, by_width};
use strips_model::{Task, Witness, fits, holds, run_plan};

/// Whether the plan begins with the sequence.
fn begins_with(plan: &[ActionId], prefix: &[ActionId]) -> bool
    ensures { IsTrue result ↔ BeginsWith plan.now prefix.now }
{
    plan.starts_with(prefix)
}

/// Whether the plan leads to the goal without the removed actions.
fn is_plan<const W: usize>(
    task: &Task,
    removed: &ActionSet,
    goal: GoalId,
    plan: &[ActionId],
) -> bool
    requires width { W ≤ 64 }
    requires atoms { task.now.atoms ≤ 64 * W }
    requires goal { goal.0 < length task.now.goals }
    requires actions { All (λ a. a.0 < length task.now.actions) plan.now }
    ensures { IsTrue result ↔ IsPlan task.now goal removed.now plan.now }
{
    match run_plan::<W>(task, removed, plan) {
        Some(s) => holds(task, &s, goal),
        None => false,
    }
}

/// Whether the plan leads to the goal, by states of the width that the task needs.
fn leads_there(task: &Task, removed: &ActionSet, goal: GoalId, plan: &[ActionId]) -> bool
    requires goal { goal.0 < length task.now.goals }
    requires actions { All (λ a. a.0 < length task.now.actions) plan.now }
    ensures { IsTrue result ↔ IsPlan task.now goal removed.now plan.now }
{
    fits(task);
    by_width!(task.atoms, is_plan(task, removed, goal, plan))
}

/// What a plan of a witness fails first.
fn fault_of_plan(
    task: &Task,
    costs: &[Option<u32>],
    removed: &ActionSet,
    prefix: &[ActionId],
    goal: GoalId,
    plan: &[ActionId],
) -> Option<CheckKind>
    requires goal { goal.0 < length task.now.goals }
    requires actions { All (λ a. a.0 < length task.now.actions) plan.now }
    ensures fault { IfSome result (λ kind. FailsPlan task.now costs.now kind removed.now prefix.now goal plan.now ⊥) }
    ensures shown { IfNone result (IsPlanAsLong task.now costs.now removed.now goal plan.now) }
    ensures begins { IfNone result (BeginsWith plan.now prefix.now) }
{
    if !leads_there(task, removed, goal, plan) || !begins_with(plan, prefix) {
        return Some(CheckKind::PlanBroken);
    }
    match cost_of(costs, goal) {
        Some(cost) if cost as usize == plan.len() => None,
        _ => Some(CheckKind::PlanLength),
    }
}

/// Whether the goal has a number.
pub(crate) fn has_number(costs: &[Option<u32>], goal: GoalId) -> bool
    ensures { IsTrue result ↔ HasNumber costs.now goal }
{
    match cost_of(costs, goal) {
        Some(_) => true,
        None => false,
    }
}

/// Whether the first goal is below the second and both have numbers.
fn has_goals(costs: &[Option<u32>], witness: &Witness) -> bool
    ensures { IsTrue result ↔ HasGoals costs.now witness.now }
{
    witness.goals.0.0 < witness.goals.1.0
        && has_number(costs, witness.goals.0)
        && has_number(costs, witness.goals.1)
}

/// What a branch fails first for itself.
pub(crate) fn fault_of_branch(
    task: &Task,
    costs: &[Option<u32>],
    least: u32,
    removed: &ActionSet,
    witness: &Witness,
) -> Option<CheckKind>
    requires witness { IsWitnessOver task.now witness.now }
    ensures fault { IfSome result (λ kind. FailsBranch task.now costs.now kind least removed.now witness.now ⊥) }
    ensures shown { IfNone result (IsShownWitness task.now costs.now removed.now witness.now) }
    ensures long { IfNone result (least ≤ length witness.now.prefix) }
{
    if !has_goals(costs, witness) {
        return Some(CheckKind::BadNumber);
    }
    let prefix = witness.prefix.as_slice();
    if prefix.len() < least as usize {
        return Some(CheckKind::TreeBranch);
    }
    let first = witness.plans.0.as_slice();
    if let Some(kind) = fault_of_plan(task, costs, removed, prefix, witness.goals.0, first) {
        return Some(kind);
    }
    let second = witness.plans.1.as_slice();
    fault_of_plan(task, costs, removed, prefix, witness.goals.1, second)
}
