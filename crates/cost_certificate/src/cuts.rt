ghost use Rattle.std.specs.Prelude.{◌≡◌, ◌↔◌, ◌*◌, ◌<◌, ◌≤◌, ◌||◌, ◌==◌, ◌⊎◌, List, [], false, length, IsTrue, IfOk, Any, Contains, slice_get};
ghost use Rattle.std.specs.Option.{option_map_or};
ghost use Rattle.grd_base.specs.declared.ids.ActionId.{ActionId};
ghost use Rattle.grd_base.specs.Bits.{members};
ghost use Rattle.strips_model.specs.Cuts.{leads_out};
ghost use Rattle.strips_model.specs.Values.{PlainTask};
ghost use Rattle.cost_certificate.specs.Seen.{IsCutList, IsSeen};

use grd_base::{ActionId, Bits, OutOfMemory};
use indexmap::IndexSet;
use std::alloc::Global;
use strips_model::{Moves, Task, applies, contains_all};

/// The cuts of the sets that were looked at so far.
#[derive(Drop)]
pub(crate) struct Seen {
    /// The actions of all of them.
    pub(crate) actions: IndexSet<ActionId>,
    /// Whether one of them is empty.
    pub(crate) has_empty: bool,
}

impl Seen {
    /// Those of no sets.
    pub(crate) fn new(alloc: Global) -> Seen
        ensures { (t : PlainTask) (removed : List ActionId) → IsSeen t removed [] result }
    {
        Seen {
            actions: IndexSet::new(alloc),
            has_empty: false,
        }
    }

    /// Whether the action was seen.
    fn has(&self, a: ActionId) -> bool
        ensures { IsTrue result ↔ Contains self.now.actions.keys a }
    {
        self.actions.contains(&a)
    }

    /// Whether one of the actions was seen.
    pub(crate) fn has_some(&self, actions: &[ActionId]) -> bool
        ensures { IsTrue result ↔ Any (λ a. Contains self.now.actions.keys a) actions.now }
    {
        actions.iter().any(|a| self.has(*a))
    }

    /// Takes the actions of one more cut for seen.
    pub(crate) fn add(&mut self, actions: &[ActionId]) -> Result<(), OutOfMemory>
        ensures actions { IfOk result (λ _. (a : ActionId) → Contains self.new.actions.keys a
            ↔ (Contains self.old.actions.keys a ⊎ Contains actions.now a)) }
        ensures empty { IfOk result
            (λ _. self.new.has_empty ≡ (self.old.has_empty || (length actions.now == 0))) }
    {
        for a in actions {
            self.actions.insert(*a)?;
        }
        if actions.is_empty() {
            self.has_empty = true;
        }
        Ok(())
    }
}

/// Whether the action leads out of the set: it applies there, and adds something that is not in it.
#[tactic(auto, unfolding(strips_model::specs::Plans::is_step))]
fn leads_out<const W: usize>(task: &Task, set: &Bits<W>, a: ActionId) -> bool
    requires width { W ≤ 64 }
    requires atoms { task.now.atoms ≤ 64 * W }
    requires action { a.0 < length task.now.actions }
    ensures { result ≡ option_map_or (leads_out (members set.now)) (slice_get task.now.actions a.0) false }
{
    let action = &task.actions[a.0 as usize];
    applies(task, set, a) && !contains_all(set, action.add.as_slice())
}

/// The actions of the set's cut, rising.
pub(crate) fn cut_of<const W: usize>(
    alloc: Global,
    moves: &Moves,
    set: &Bits<W>,
) -> Result<Vec<ActionId>, OutOfMemory>
    requires width { W ≤ 64 }
    requires atoms { moves.now.task.atoms ≤ 64 * W }
    ensures { IfOk result
        (λ actions. IsCutList moves.now.task moves.now.removed (members set.now) actions.items) }
{
    let task = moves.task();
    let allowed = moves.allowed();
    let mut actions = Vec::new(alloc);
    for a in allowed {
        if leads_out(task, set, *a) {
            actions.push(*a)?;
        }
    }
    Ok(actions)
}
