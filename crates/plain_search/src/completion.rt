ghost use Rattle.std.specs.Prelude.{◌≡◌, ℕ, ◌+◌, ◌*◌, ◌<◌, ◌≤◌, [], length, IfOk, IfSome, IfNone};
ghost use Rattle.grd_base.specs.Bits.{members};
ghost use Rattle.strips_model.specs.Plans.{State, IsOptimal};
ghost use Rattle.strips_model.specs.Agents.{BeginsWith};
ghost use Rattle.plain_search.specs.Walks.{visits, IsWay};
ghost use Rattle.plain_search.specs.Live.{AreDeep, IsAt, IsVisited, LeadsTo, EndsAt, IsLive, IsLiveFrom, IsLiveDeeper, IsNext};

use crate::layers::Layers;
use crate::live::next_place;
use crate::moves::Moves;
use grd_base::{ActionId, Bits, GoalId, OutOfMemory};
use std::alloc::Global;
use strips_model::Task;

/// The place that the action leads to, if it is one step deeper and the goal is live there.
fn live_place<const W: usize>(
    task: &Task,
    layers: &Layers<W>,
    live: &[Bits<1>],
    from: &Bits<W>,
    depth: usize,
    goal: GoalId,
    a: ActionId,
) -> Option<usize>
    requires width { W ≤ 64 }
    requires atoms { task.now.atoms ≤ 64 * W }
    requires action { a.0 < length task.now.actions }
    requires goal { goal.0 < 64 }
    requires deep { AreDeep task.now (visits layers.now.visited) layers.now.depths.items }
    requires from { IsVisited
        (visits layers.now.visited) layers.now.depths.items (members from.now) depth }
    requires known { IsLiveDeeper task.now
        (visits layers.now.visited) layers.now.depths.items depth live.now }
    ensures found { IfSome result (λ place.
        (to : LeadsTo task.now
        (visits layers.now.visited) layers.now.depths.items (members from.now) depth a place)
        × IsLive task.now to.state (depth + 1) goal) }
    ensures none { IfNone result ((place : ℕ)
        (to : LeadsTo task.now
        (visits layers.now.visited) layers.now.depths.items (members from.now) depth a place)
        → IsLive task.now to.state (depth + 1) goal → ⊥) }
{
    let Some(place) = next_place(task, layers, from, depth, a) else {
        return None;
    };
    if live[place].contains(goal.0) {
        Some(place)
    } else {
        None
    }
}

/// The first action that leads from the place to a deeper one where the goal is live, with that place.
fn live_step<const W: usize>(
    moves: &Moves,
    layers: &Layers<W>,
    live: &[Bits<1>],
    place: usize,
    goal: GoalId,
) -> Option<(ActionId, usize)>
    requires width { W ≤ 64 }
    requires atoms { moves.now.atoms ≤ 64 * W }
    requires goal { goal.0 < 64 }
    requires deep { AreDeep moves.now (visits layers.now.visited) layers.now.depths.items }
    requires known { IsLiveFrom moves.now
        (visits layers.now.visited) layers.now.depths.items place live.now }
    ensures found { IfSome result
        (λ next. IsNext moves.now
        (visits layers.now.visited) layers.now.depths.items goal place next.0 next.1) }
    ensures none { IfNone result ((s : State) (d : ℕ)
        → IsAt (visits layers.now.visited) layers.now.depths.items place s d
        → IsLive moves.now s d goal → EndsAt moves.now s d goal) }
{
    let from = layers.visited.state(place)?;
    let depth = layers.depths[place];
    let task = moves.task();
    let unblocked = moves.unblocked();
    for a in unblocked {
        if let Some(next) = live_place(task, layers, live, &from, depth, goal, *a) {
            return Some((*a, next));
        }
    }
    None
}

/// An optimal plan of a goal that is live at the place: the prefix, which is the way to the place,
/// and then a step at a time to where the goal ends.
pub(crate) fn complete<const W: usize>(
    alloc: Global,
    moves: &Moves,
    layers: &Layers<W>,
    live: &[Bits<1>],
    prefix: &[ActionId],
    place: usize,
    goal: GoalId,
) -> Result<Vec<ActionId>, OutOfMemory>
    requires width { W ≤ 64 }
    requires atoms { moves.now.atoms ≤ 64 * W }
    requires goal { goal.0 < 64 }
    requires deep { AreDeep moves.now (visits layers.now.visited) layers.now.depths.items }
    requires known { IsLiveFrom moves.now
        (visits layers.now.visited) layers.now.depths.items place live.now }
    requires way { IsWay (visits layers.now.visited) place prefix.now }
    requires live { (s : State) × (d : ℕ)
        × IsAt (visits layers.now.visited) layers.now.depths.items place s d
        × IsLive moves.now s d goal }
    ensures least { IfOk result (λ plan. IsOptimal moves.now goal [] plan.items) }
    ensures begins { IfOk result (λ plan. BeginsWith plan.items prefix.now) }
{
    let mut plan = Vec::from_slice(alloc, prefix)?;
    let mut at = place;
    while let Some((a, next)) = live_step(moves, layers, live, at, goal) {
        plan.push(a)?;
        at = next;
    }
    Ok(plan)
}
