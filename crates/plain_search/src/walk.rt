ghost use Rattle.std.specs.Prelude.{◌≡◌, ◌*◌, ◌≤◌, IfOk};
ghost use Rattle.plain_search.specs.Walks.{visits};
ghost use Rattle.plain_search.specs.Depths.{IsBegun};

use crate::visited::{Step, Visited, WalkFault};
use grd_base::ActionId;
use std::alloc::Global;
use strips_model::{Task, start};

/// Visits the start alone.
pub(crate) fn begin<const W: usize>(
    alloc: Global,
    task: &Task,
    limit: u32,
) -> Result<Visited<W>, WalkFault>
    requires width { W ≤ 64 }
    requires atoms { task.now.atoms ≤ 64 * W }
    requires limit { 1 ≤ limit }
    ensures begun { IfOk result (λ visited. IsBegun task.now (visits visited)) }
    ensures many { result ≡ Err WalkFault.TooManyStates → ⊥ }
{
    let mut visited = Visited::new(alloc);
    // No step led to the start.
    let unread = Step {
        parent: 0,
        action: ActionId(0),
    };
    visited.note(start(task), unread, limit)?;
    Ok(visited)
}
