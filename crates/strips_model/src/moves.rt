ghost use Rattle.std.specs.Prelude.{◌≡◌, IfOk};
ghost use Rattle.strips_model.specs.Moves.{allowed_of};

use crate::task::Task;
use grd_base::{ActionId, ActionSet, OutOfMemory};
use std::alloc::Global;
use std::marker::Model;

/// A task and actions that may not be used, with the numbers of the allowed actions: a state is expanded
/// over these alone.
#[derive(Drop)]
pub struct Moves<'t> {
    task: &'t Task,
    removed: &'t ActionSet,
    allowed: Vec<ActionId>,
}

impl<'t> Model for Moves<'t> {
    ghost use Rattle.std.specs.Prelude.{◌≡◌};
    ghost use Rattle.strips_model.specs.Moves.{PlainMoves, allowed_of};

    ghost Value = { PlainMoves };

    ghost view = { λ m. record { task = m.task.now; removed = m.removed.now } };

    ghost invariant = { λ m. m.allowed.items ≡ allowed_of m.task.now m.removed.now };
}

impl<'t> Moves<'t> {
    /// The task without the removed actions, with its allowed actions gathered.
    pub fn of(
        alloc: Global,
        task: &'t Task,
        removed: &'t ActionSet,
    ) -> Result<Moves<'t>, OutOfMemory>
        ensures { IfOk result (λ moves. moves ≡ (record { task = task.now; removed = removed.now })) }
    {
        let allowed = gather(alloc, task, removed)?;
        Ok(Moves {
            task,
            removed,
            allowed,
        })
    }

    /// The task.
    pub fn task(&self) -> &'t Task
        ensures { result.now ≡ self.now.task }
    {
        self.task
    }

    /// The numbers of the actions that are neither blocked nor removed, rising.
    pub fn allowed(&self) -> &[ActionId]
        ensures { result.now ≡ allowed_of self.now.task self.now.removed }
    {
        self.allowed.as_slice()
    }
}

/// The numbers of the allowed actions.
fn gather(alloc: Global, task: &Task, removed: &ActionSet) -> Result<Vec<ActionId>, OutOfMemory>
    ensures { IfOk result (λ numbers. numbers.items ≡ allowed_of task.now removed.now) }
{
    let mut numbers = Vec::new(alloc);
    for (i, action) in task.actions.iter().enumerate() {
        let a = ActionId(i as u32);
        if !action.blocked && !removed.contains(a) {
            numbers.push(a)?;
        }
    }
    Ok(numbers)
}
