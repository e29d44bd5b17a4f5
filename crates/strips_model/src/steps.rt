ghost use Rattle.std.specs.Prelude.{◌≡◌, ◌*◌, ◌<◌, ◌≤◌, All, IsTrue, length, ◌↔◌, ◌+◌};
ghost use Rattle.std.specs.Option.{option_map};
ghost use Rattle.grd_base.specs.Bits.{members};
ghost use Rattle.grd_base.specs.Sets.{union, minus};
ghost use Rattle.strips_model.specs.Agents.{Embeds};
ghost use Rattle.strips_model.specs.Plans.{set_of, has_all, start_of, is_step, step, goal_holds, after};

use crate::task::Task;
use grd_base::{ActionId, ActionSet, AtomId, Bits, GoalId};

/// Whether each atom of the list is in the state.
pub fn contains_all<const W: usize>(s: &Bits<W>, atoms: &[AtomId]) -> bool
    requires width { W ≤ 64 }
    requires atoms { All (λ a. a.0 < 64 * W) atoms.now }
    ensures { result ≡ has_all (members s.now) atoms.now }
{
    for a in atoms {
        if !s.contains(a.0) {
            return false;
        }
    }
    true
}

/// Makes the atoms true.
pub(crate) fn insert_all<const W: usize>(s: &mut Bits<W>, atoms: &[AtomId])
    requires width { W ≤ 64 }
    requires atoms { All (λ a. a.0 < 64 * W) atoms.now }
    ensures { members s.new ≡ union (members s.old) (set_of atoms.now) }
{
    for a in atoms {
        s.insert(a.0);
    }
}

/// Makes the atoms false.
fn remove_all<const W: usize>(s: &mut Bits<W>, atoms: &[AtomId])
    requires width { W ≤ 64 }
    requires atoms { All (λ a. a.0 < 64 * W) atoms.now }
    ensures { members s.new ≡ minus (members s.old) (set_of atoms.now) }
{
    for a in atoms {
        s.remove(a.0);
    }
}

/// The initial state, in a bit set that is wide enough for the task. No call here takes memory.
pub fn start<const W: usize>(task: &Task) -> Bits<W>
    requires width { W ≤ 64 }
    requires atoms { task.now.atoms ≤ 64 * W }
    ensures { members result ≡ start_of task.now }
{
    let mut s = Bits::new();
    insert_all(&mut s, task.init.as_slice());
    s
}

/// Whether the action applies in the state: it is not blocked, and its precondition holds.
#[tactic(auto, unfolding(crate::specs::Plans::is_step))]
pub fn applies<const W: usize>(task: &Task, s: &Bits<W>, a: ActionId) -> bool
    requires width { W ≤ 64 }
    requires atoms { task.now.atoms ≤ 64 * W }
    requires action { a.0 < length task.now.actions }
    ensures { result ≡ is_step task.now (members s.now) a }
{
    let action = &task.actions[a.0 as usize];
    !action.blocked && contains_all(s, action.pre.as_slice())
}

/// Makes the step of the action: it deletes, and then it adds.
#[tactic(auto, unfolding(crate::specs::Plans::is_step, crate::specs::Plans::step))]
pub fn apply_in<const W: usize>(task: &Task, s: &mut Bits<W>, a: ActionId)
    requires width { W ≤ 64 }
    requires atoms { task.now.atoms ≤ 64 * W }
    requires action { a.0 < length task.now.actions }
    requires applies { IsTrue (is_step task.now (members s.old) a) }
    ensures { step task.now (members s.old) a ≡ Some (members s.new) }
{
    let action = &task.actions[a.0 as usize];
    remove_all(s, action.del.as_slice());
    insert_all(s, action.add.as_slice());
}

/// The state after the step of the action, where it applies.
pub fn advance<const W: usize>(task: &Task, s: &Bits<W>, a: ActionId) -> Option<Bits<W>>
    requires width { W ≤ 64 }
    requires atoms { task.now.atoms ≤ 64 * W }
    requires action { a.0 < length task.now.actions }
    ensures { option_map members result ≡ step task.now (members s.now) a }
{
    if !applies(task, s, a) {
        return None;
    }
    let mut next = *s;
    apply_in(task, &mut next, a);
    Some(next)
}

/// Whether the goal holds in the state: it is not blocked, and its atoms are true.
pub fn holds<const W: usize>(task: &Task, s: &Bits<W>, g: GoalId) -> bool
    requires width { W ≤ 64 }
    requires atoms { task.now.atoms ≤ 64 * W }
    requires goal { g.0 < length task.now.goals }
    ensures { result ≡ goal_holds task.now g (members s.now) }
{
    let goal = &task.goals[g.0 as usize];
    !goal.blocked && contains_all(s, goal.atoms.as_slice())
}

/// The state after the sequence from the start, or none where some action is removed or does not
/// apply in its turn.
pub fn run_plan<const W: usize>(
    task: &Task,
    removed: &ActionSet,
    plan: &[ActionId],
) -> Option<Bits<W>>
    requires width { W ≤ 64 }
    requires atoms { task.now.atoms ≤ 64 * W }
    requires actions { All (λ a. a.0 < length task.now.actions) plan.now }
    ensures { option_map members result ≡ after task.now removed.now (start_of task.now) plan.now }
{
    let mut s = start(task);
    for a in plan {
        if removed.contains(*a) {
            return None;
        }
        if !applies(task, &s, *a) {
            return None;
        }
        apply_in(task, &mut s, *a);
    }
    Some(s)
}

/// Whether the observations occur in the plan in their order, each at a place of its own.
pub fn embeds(observations: &[ActionId], plan: &[ActionId]) -> bool
    ensures { IsTrue result ↔ Embeds observations.now plan.now }
{
    let mut found = 0;
    for a in plan {
        if found == observations.len() {
            return true;
        }
        if observations[found] == *a {
            found += 1;
        }
    }
    found == observations.len()
}
