ghost use Rattle.std.specs.Prelude.{◌≡◌, IfOk};
ghost use Rattle.plain_search.specs.Moves.{unblocked_of};

use grd_base::ActionId;
use std::alloc::{AllocError, Global};
use std::marker::Model;
use strips_model::Task;

/// A task with the numbers of its unblocked actions: a state is expanded over these alone.
#[derive(Drop)]
pub(crate) struct Moves<'t> {
    task: &'t Task,
    unblocked: Vec<ActionId>,
}

impl<'t> Model for Moves<'t> {
    ghost use Rattle.std.specs.Prelude.{◌≡◌};
    ghost use Rattle.strips_model.specs.Values.{PlainTask};
    ghost use Rattle.plain_search.specs.Moves.{unblocked_of};

    ghost Value = { PlainTask };

    ghost view = { λ m. m.task.now };

    ghost invariant = { λ m. m.unblocked.items ≡ unblocked_of m.task.now };
}

impl<'t> Moves<'t> {
    /// The task, with its unblocked actions gathered.
    pub(crate) fn of(alloc: Global, task: &'t Task) -> Result<Moves<'t>, AllocError>
        ensures { IfOk result (λ moves. moves ≡ task.now) }
    {
        let unblocked = unblocked_of(alloc, task)?;
        Ok(Moves { task, unblocked })
    }

    /// The task.
    pub(crate) fn task(&self) -> &'t Task
        ensures { result.now ≡ self.now }
    {
        self.task
    }

    /// The numbers of the unblocked actions, rising.
    pub(crate) fn unblocked(&self) -> &[ActionId]
        ensures { result.now ≡ unblocked_of self.now }
    {
        self.unblocked.as_slice()
    }
}

/// The numbers of the actions that are not blocked.
fn unblocked_of(alloc: Global, task: &Task) -> Result<Vec<ActionId>, AllocError>
    ensures { IfOk result (λ numbers. numbers.items ≡ unblocked_of task.now) }
{
    let mut numbers = Vec::new(alloc);
    for (i, action) in task.actions.iter().enumerate() {
        if !action.blocked {
            numbers.push(ActionId(i as u32))?;
        }
    }
    Ok(numbers)
}
