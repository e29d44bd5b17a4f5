ghost use Rattle.std.specs.Prelude.{◌≡◌, ℕ, false, ◌+◌, ◌*◌, ◌<◌, ◌≤◌, ◌↔◌, length, IsTrue, IfSome, IfNone};
ghost use Rattle.grd_base.specs.Bits.{members};
ghost use Rattle.grd_base.specs.declared.ids.GoalId.{GoalId};
ghost use Rattle.plain_search.specs.Walks.{visits};
ghost use Rattle.plain_search.specs.Live.{AreCosts, AreDeep, IsVisited, LeadsTo, EndsAt, AreLive, IsLiveFrom, IsLiveDeeper, Gathers, AreFewFrom, ShareAt};

use crate::layers::Layers;
use crate::moves::Moves;
use grd_base::{ActionId, Bits, GoalId};
use strips_model::{Task, advance, holds};

/// The place of the state that the action leads to, if that state is one step deeper.
pub(crate) fn next_place<const W: usize>(
    task: &Task,
    layers: &Layers<W>,
    from: &Bits<W>,
    depth: usize,
    a: ActionId,
) -> Option<usize>
    requires width { W ≤ 64 }
    requires atoms { task.now.atoms ≤ 64 * W }
    requires action { a.0 < length task.now.actions }
    requires deep { AreDeep task.now (visits layers.now.visited) layers.now.depths.items }
    requires from { IsVisited
        (visits layers.now.visited) layers.now.depths.items (members from.now) depth }
    ensures found { IfSome result
        (LeadsTo task.now
        (visits layers.now.visited) layers.now.depths.items (members from.now) depth a) }
    ensures none { IfNone result ((place : ℕ)
        → LeadsTo task.now
        (visits layers.now.visited) layers.now.depths.items (members from.now) depth a place → ⊥) }
{
    let next = advance(task, from, a)?;
    let place = layers.visited.place_of(&next)?;
    // One step leads at most one step deeper.
    if layers.depths[place] > depth {
        Some(place)
    } else {
        None
    }
}

/// Whether the goal costs so many steps, and holds in the state.
fn ends<const W: usize>(
    task: &Task,
    costs: &[Option<usize>],
    from: &Bits<W>,
    depth: usize,
    goal: GoalId,
) -> bool
    requires width { W ≤ 64 }
    requires atoms { task.now.atoms ≤ 64 * W }
    requires costs { AreCosts task.now costs.now }
    requires goal { goal.0 < length task.now.goals }
    ensures { IsTrue result ↔ EndsAt task.now (members from.now) depth goal }
{
    costs[goal.0 as usize] == Some(depth) && holds(task, from, goal)
}

/// The goals that cost so many steps, and hold in the state.
fn ending<const W: usize>(
    task: &Task,
    costs: &[Option<usize>],
    from: &Bits<W>,
    depth: usize,
) -> Bits<1>
    requires width { W ≤ 64 }
    requires atoms { task.now.atoms ≤ 64 * W }
    requires costs { AreCosts task.now costs.now }
    ensures { (g : GoalId) → IsTrue (members result g.0)
        ↔ EndsAt task.now (members from.now) depth g }
{
    let mut here = Bits::new();
    for g in 0..task.goals.len() as u32 {
        if ends(task, costs, from, depth, GoalId(g)) {
            here.insert(g);
        }
    }
    here
}

/// Puts in the goals that are live after a step by the action.
fn add_live<const W: usize>(
    task: &Task,
    layers: &Layers<W>,
    live: &[Bits<1>],
    from: &Bits<W>,
    depth: usize,
    here: &mut Bits<1>,
    a: ActionId,
)
    requires width { W ≤ 64 }
    requires atoms { task.now.atoms ≤ 64 * W }
    requires action { a.0 < length task.now.actions }
    requires deep { AreDeep task.now (visits layers.now.visited) layers.now.depths.items }
    requires from { IsVisited
        (visits layers.now.visited) layers.now.depths.items (members from.now) depth }
    requires known { IsLiveDeeper task.now
        (visits layers.now.visited) layers.now.depths.items depth live.now }
    requires gathers { Gathers task.now (visits layers.now.visited) layers.now.depths.items
        (members from.now) depth a.0 (members here.old) }
    ensures { Gathers task.now (visits layers.now.visited) layers.now.depths.items
        (members from.now) depth (a.0 + 1) (members here.new) }
{
    if let Some(next) = next_place(task, layers, from, depth, a) {
        here.union_in(&live[next]);
    }
}

/// The goals that are live in the state: those with an optimal plan that goes through it at this
/// depth. It takes them from the goals that are live one step deeper.
fn live_in<const W: usize>(
    moves: &Moves,
    costs: &[Option<usize>],
    layers: &Layers<W>,
    live: &[Bits<1>],
    from: &Bits<W>,
    depth: usize,
) -> Bits<1>
    requires width { W ≤ 64 }
    requires atoms { moves.now.atoms ≤ 64 * W }
    requires costs { AreCosts moves.now costs.now }
    requires deep { AreDeep moves.now (visits layers.now.visited) layers.now.depths.items }
    requires from { IsVisited
        (visits layers.now.visited) layers.now.depths.items (members from.now) depth }
    requires known { IsLiveDeeper moves.now
        (visits layers.now.visited) layers.now.depths.items depth live.now }
    ensures { AreLive moves.now (members from.now) depth (members result) }
{
    let task = moves.task();
    let unblocked = moves.unblocked();
    let mut here = ending(task, costs, from, depth);
    for a in unblocked {
        add_live(task, layers, live, from, depth, &mut here, *a);
    }
    here
}

/// The least member from a number on, and below a bound.
fn least_member(set: &Bits<1>, from: u32, bound: u32) -> Option<u32>
    requires { bound ≤ 64 }
    ensures found { IfSome result (λ n. (from ≤ n) × (n < bound) × IsTrue (members set.now n)) }
    ensures least { IfSome result (λ n. (k : ℕ) → from ≤ k → k < n → members set.now k ≡ false) }
    ensures none { IfNone result ((k : ℕ) → from ≤ k → k < bound → members set.now k ≡ false) }
{
    for n in from..bound {
        if set.contains(n) {
            return Some(n);
        }
    }
    None
}

/// The two least members below a bound, as goals.
fn two_goals(set: &Bits<1>, bound: u32) -> Option<(GoalId, GoalId)>
    requires { bound ≤ 64 }
    ensures two { IfSome result
        (λ pair. (pair.0.0 < pair.1.0) × (pair.1.0 < bound)
        × IsTrue (members set.now pair.0.0) × IsTrue (members set.now pair.1.0)) }
    ensures few { IfNone result ((m n : ℕ) → m < n → n < bound
        → IsTrue (members set.now m) → IsTrue (members set.now n) → ⊥) }
{
    let first = least_member(set, 0, bound)?;
    let second = least_member(set, first + 1, bound)?;
    Some((GoalId(first), GoalId(second)))
}

/// Notes the goals that are live at the place, and finds two of them.
fn settle<const W: usize>(
    moves: &Moves,
    costs: &[Option<usize>],
    layers: &Layers<W>,
    live: &mut [Bits<1>],
    place: usize,
) -> Option<(GoalId, GoalId)>
    requires width { W ≤ 64 }
    requires atoms { moves.now.atoms ≤ 64 * W }
    requires costs { AreCosts moves.now costs.now }
    requires deep { AreDeep moves.now (visits layers.now.visited) layers.now.depths.items }
    requires place { place < length live.old }
    requires known { IsLiveFrom moves.now
        (visits layers.now.visited) layers.now.depths.items (place + 1) live.old }
    requires few { AreFewFrom moves.now
        (visits layers.now.visited) layers.now.depths.items (place + 1) }
    ensures known { IsLiveFrom moves.now
        (visits layers.now.visited) layers.now.depths.items place live.new }
    ensures two { IfSome result
        (λ pair. ShareAt moves.now
        (visits layers.now.visited) layers.now.depths.items place pair.0 pair.1) }
    ensures few { IfNone result (AreFewFrom moves.now
        (visits layers.now.visited) layers.now.depths.items place) }
{
    let task = moves.task();
    let from = layers.visited.state(place)?;
    let here = live_in(moves, costs, layers, live, &from, layers.depths[place]);
    live[place] = here;
    two_goals(&here, task.goals.len() as u32)
}

/// Two goals that are live at one place.
#[derive(Clone, Copy, Debug)]
pub(crate) struct Shared {
    pub place: usize,
    pub first: GoalId,
    pub second: GoalId,
}

/// The last place at which two goals are live, with the two least of them. It goes back from the
/// last place and stops there, with the live goals of the places so far noted.
pub(crate) fn last_shared<const W: usize>(
    moves: &Moves,
    costs: &[Option<usize>],
    layers: &Layers<W>,
    live: &mut [Bits<1>],
) -> Option<Shared>
    requires width { W ≤ 64 }
    requires atoms { moves.now.atoms ≤ 64 * W }
    requires costs { AreCosts moves.now costs.now }
    requires deep { AreDeep moves.now (visits layers.now.visited) layers.now.depths.items }
    requires each_place { length live.old ≡ length layers.now.visited }
    ensures known { IfSome result
        (λ shared. IsLiveFrom moves.now
        (visits layers.now.visited) layers.now.depths.items shared.place live.new) }
    ensures two { IfSome result
        (λ shared. ShareAt moves.now (visits layers.now.visited) layers.now.depths.items
        shared.place shared.first shared.second) }
    ensures last { IfSome result
        (λ shared. AreFewFrom moves.now
        (visits layers.now.visited) layers.now.depths.items (shared.place + 1)) }
    ensures none { IfNone result (AreFewFrom moves.now
        (visits layers.now.visited) layers.now.depths.items 0) }
{
    let mut place = live.len();
    while place > 0 {
        place -= 1;
        if let Some((first, second)) = settle(moves, costs, layers, live, place) {
            return Some(Shared {
                place,
                first,
                second,
            });
        }
    }
    None
}
