ghost use Rattle.std.specs.Prelude.{◌≡◌, ℕ, ◌+◌, ◌*◌, ◌<◌, ◌≤◌, [], length, map, count_by, is_some, All, IfSome, IfOk};
ghost use Rattle.std.specs.Option.{option_map};
ghost use Rattle.strips_model.specs.Plans.{IsCost};
ghost use Rattle.strips_model.specs.Common.{AreRight, IsRightWcd, IsWcd, IsWitness};
ghost use Rattle.grd_base.specs.Counts.{MoreThan};
ghost use Rattle.strips_model.specs.Reached.{IsReachedFor};
ghost use Rattle.plain_search.specs.Walks.{visits};
ghost use Rattle.plain_search.specs.Layers.{IsLayered};
ghost use Rattle.plain_search.specs.Live.{AreCosts, AreDeep, AreFewFrom, IsDearest, IsLiveFrom, ShareAt};

use crate::completion::complete;
use crate::layers::{Layers, layers_within};
use crate::live::{Shared, last_shared};
use crate::moves::Moves;
use crate::visited::WalkFault;
use grd_base::{ActionId, Bits, GoalId, OutOfMemory, by_width};
use optimal_search::GoalSearchFault;
use std::alloc::{AllocError, Global};
use strips_model::{Task, Witness, fits};

/// The length of the plan, if there is one.
fn cost_of(plan: &Option<Vec<ActionId>>) -> Option<usize>
    ensures { result ≡ option_map (λ plan. length plan.items) plan.now }
{
    plan.as_ref().map(|plan| plan.as_slice().len())
}

/// The cost of each goal, or none where no plan was found.
fn costs_of(
    alloc: Global,
    found: &[Option<Vec<ActionId>>],
) -> Result<Vec<Option<usize>>, AllocError>
    ensures { IfOk result
        (λ costs. costs.items
        ≡ map (λ plan. option_map (λ plan. length plan.items) plan) found.now) }
{
    found.iter().map(|plan| cost_of(plan)).collect(alloc)
}

/// How many goals have a plan.
fn count_planned(costs: &[Option<usize>]) -> usize
    ensures { result ≡ count_by (λ cost. is_some cost) costs.now }
{
    costs.iter().filter(|cost| cost.is_some()).count()
}

/// What costs most among the goals before this one, and this one.
fn dearer(
    costs: &[Option<usize>],
    goal: GoalId,
    most: Option<(GoalId, usize)>,
) -> Option<(GoalId, usize)>
    requires goal { goal.0 < length costs.now }
    requires most { IsDearest costs.now goal.0 most }
    ensures { IsDearest costs.now (goal.0 + 1) result }
{
    let Some(cost) = costs[goal.0 as usize] else {
        return most;
    };
    match most {
        Some((_, high)) if cost <= high => most,
        _ => Some((goal, cost)),
    }
}

/// A goal that costs most, with its cost.
fn dearest(task: &Task, costs: &[Option<usize>]) -> Option<(GoalId, usize)>
    requires { length costs.now ≡ length task.now.goals }
    ensures { IsDearest costs.now (length costs.now) result }
{
    let mut most = None;
    for i in 0..task.goals.len() {
        most = dearer(costs, GoalId(i as u32), most);
    }
    most
}

/// Visits the states within as many steps as the goal costs.
fn layers_for<const W: usize>(
    alloc: Global,
    moves: &Moves,
    goal: GoalId,
    cost: usize,
    limit: u32,
) -> Result<Layers<W>, GoalSearchFault>
    requires width { W ≤ 64 }
    requires atoms { moves.now.atoms ≤ 64 * W }
    requires goal { goal.0 < length moves.now.goals }
    requires cost { IsCost moves.now goal [] (Some cost) }
    requires limit { 1 ≤ limit }
    ensures layered { IfOk result (λ l. IsLayered moves.now cost (visits l.visited) l.depths.items) }
    ensures many { (g : GoalId) → result ≡ Err (GoalSearchFault.TooManyStates g)
        → (g.0 < length moves.now.goals) × MoreThan limit (IsReachedFor moves.now g) }
{
    match layers_within(alloc, moves, cost, limit) {
        Ok(layers) => Ok(layers),
        Err(WalkFault::TooManyStates) => Err(GoalSearchFault::TooManyStates(goal)),
        Err(WalkFault::OutOfMemory) => Err(GoalSearchFault::OutOfMemory),
    }
}

/// The way to the place that two goals share, with an optimal plan of each that begins with it.
fn witness_at<const W: usize>(
    alloc: Global,
    moves: &Moves,
    layers: &Layers<W>,
    live: &[Bits<1>],
    shared: Shared,
) -> Result<Witness, OutOfMemory>
    requires width { W ≤ 64 }
    requires atoms { moves.now.atoms ≤ 64 * W }
    requires deep { AreDeep moves.now (visits layers.now.visited) layers.now.depths.items }
    requires known { IsLiveFrom moves.now
        (visits layers.now.visited) layers.now.depths.items shared.place live.now }
    requires two { ShareAt moves.now (visits layers.now.visited) layers.now.depths.items
        shared.place shared.first shared.second }
    requires last { AreFewFrom moves.now
        (visits layers.now.visited) layers.now.depths.items (shared.place + 1) }
    ensures witness { IfOk result (λ w. IsWitness moves.now [] w) }
    ensures greatest { IfOk result (λ w. IsWcd moves.now [] (Some (length w.prefix))) }
{
    let Ok(prefix) = layers.visited.way_to(alloc, shared.place) else {
        return Err(OutOfMemory);
    };
    let first = complete(
        alloc,
        moves,
        layers,
        live,
        prefix.as_slice(),
        shared.place,
        shared.first,
    )?;
    let second = complete(
        alloc,
        moves,
        layers,
        live,
        prefix.as_slice(),
        shared.place,
        shared.second,
    )?;
    Ok(Witness {
        prefix,
        goals: (shared.first, shared.second),
        plans: (first, second),
    })
}

/// The answer by the layers that are as deep as each goal costs.
fn wcd_in<const W: usize>(
    alloc: Global,
    moves: &Moves,
    costs: &[Option<usize>],
    layers: &Layers<W>,
) -> Result<Option<Witness>, OutOfMemory>
    requires width { W ≤ 64 }
    requires atoms { moves.now.atoms ≤ 64 * W }
    requires costs { AreCosts moves.now costs.now }
    requires deep { AreDeep moves.now (visits layers.now.visited) layers.now.depths.items }
    ensures { IfOk result (IsRightWcd moves.now []) }
{
    let mut live = vec![in alloc; Bits::<1>::new(); layers.visited.len()]?;
    let Some(shared) = last_shared(moves, costs, layers, &mut live) else {
        return Ok(None);
    };
    let witness = witness_at(alloc, moves, layers, &live, shared)?;
    Ok(Some(witness))
}

/// The answer of `wcd`, by states of W words.
fn longest_common<const W: usize>(
    alloc: Global,
    task: &Task,
    found: &[Option<Vec<ActionId>>],
    limit: u32,
) -> Result<Option<Witness>, GoalSearchFault>
    requires width { W ≤ 64 }
    requires atoms { task.now.atoms ≤ 64 * W }
    requires limit { 1 ≤ limit }
    requires right { AreRight task.now [] (map (option_map (λ plan. plan.items)) found.now) }
    ensures right { IfOk result (IsRightWcd task.now []) }
    ensures in_range { IfOk result
        (λ answer. IfSome answer
        (λ w. All (λ a. a.0 < length task.now.actions) w.prefix × All
        (λ a. a.0 < length task.now.actions) w.plans.0 × All
        (λ a. a.0 < length task.now.actions) w.plans.1)) }
    ensures goals { IfOk result
        (λ answer. IfSome answer
        (λ w. (w.goals.0.0 < length task.now.goals) × (w.goals.1.0 < length task.now.goals))) }
    ensures many { (g : GoalId) → result ≡ Err (GoalSearchFault.TooManyStates g)
        → (g.0 < length task.now.goals) × MoreThan limit (IsReachedFor task.now g) }
{
    let costs = costs_of(alloc, found)?;
    if count_planned(&costs) < 2 {
        return Ok(None);
    }
    let Some((goal, cost)) = dearest(task, &costs) else {
        return Ok(None);
    };
    let moves = Moves::of(alloc, task)?;
    let layers = layers_for::<W>(alloc, &moves, goal, cost, limit)?;
    let answer = wcd_in(alloc, &moves, &costs, &layers)?;
    Ok(answer)
}

/// A longest sequence with which optimal plans of two different goals begin, with two such plans, or
/// none where fewer than two goals have plans. `found` has an optimal plan of each goal that has one.
/// At most `limit` states are kept.
pub fn wcd(
    alloc: Global,
    task: &Task,
    found: &[Option<Vec<ActionId>>],
    limit: u32,
) -> Result<Option<Witness>, GoalSearchFault>
    requires limit { 1 ≤ limit }
    requires right { AreRight task.now [] (map (option_map (λ plan. plan.items)) found.now) }
    ensures right { IfOk result (IsRightWcd task.now []) }
    ensures in_range { IfOk result
        (λ answer. IfSome answer
        (λ w. All (λ a. a.0 < length task.now.actions) w.prefix × All
        (λ a. a.0 < length task.now.actions) w.plans.0 × All
        (λ a. a.0 < length task.now.actions) w.plans.1)) }
    ensures goals { IfOk result
        (λ answer. IfSome answer
        (λ w. (w.goals.0.0 < length task.now.goals) × (w.goals.1.0 < length task.now.goals))) }
    ensures many { (g : GoalId) → result ≡ Err (GoalSearchFault.TooManyStates g)
        → (g.0 < length task.now.goals) × MoreThan limit (IsReachedFor task.now g) }
{
    fits(task);
    by_width!(task.atoms, longest_common(alloc, task, found, limit))
}
