ghost use Rattle.std.specs.Prelude.{◌≡◌, ◌+◌, ◌<◌, ◌*◌, ◌≤◌, IfOk, OnOk, length};
ghost use Rattle.grd_base.specs.Bits.{members};
ghost use Rattle.grd_base.specs.Counts.{MoreThan};
ghost use Rattle.plain_search.specs.Walks.{visits};
ghost use Rattle.plain_search.specs.Layers.{IsWithin, IsLayered};
ghost use Rattle.plain_search.specs.Depths.{Deepens, IsDeepened};

use crate::moves::Moves;
use crate::visited::{Step, Visited, WalkFault};
use crate::walk::begin;
use grd_base::{ActionId, Bits};
use std::alloc::Global;
use strips_model::{Task, advance};

/// The states within some number of steps from the start, in the order of their depths.
#[derive(Drop)]
pub(crate) struct Layers<const W: usize> {
    pub visited: Visited<W>,
    /// The depth of each visited state: the least number of steps that lead to it.
    pub depths: Vec<usize>,
}

/// Follows an action from the state at the head. The state that it leads to is visited, and where it
/// is new its depth is `deeper`, one more than that of the head.
fn deepen<const W: usize>(
    task: &Task,
    layers: &mut Layers<W>,
    head: usize,
    from: &Bits<W>,
    deeper: usize,
    a: ActionId,
    limit: u32,
) -> Result<(), WalkFault>
    requires width { W ≤ 64 }
    requires atoms { task.now.atoms ≤ 64 * W }
    requires action { a.0 < length task.now.actions }
    requires deepens { Deepens task.now limit head a.0 (members from.now) deeper
        (visits layers.old.visited) layers.old.depths.items }
    ensures followed { OnOk result (Deepens task.now limit head (a.0 + 1) (members from.now) deeper
        (visits layers.new.visited) layers.new.depths.items) }
    ensures many { result ≡ Err WalkFault.TooManyStates → MoreThan limit (IsWithin task.now deeper) }
{
    let Some(next) = advance(task, from, a) else {
        return Ok(());
    };
    let step = Step {
        parent: head,
        action: a,
    };
    layers.visited.note(next, step, limit)?;
    // Where the state was visited before, no depth is added.
    layers.depths.resize(layers.visited.len(), deeper)?;
    Ok(())
}

/// Follows the unblocked actions from the state at the head. The depth of a new state is `deeper`, one more
/// than that of the head.
fn expand<const W: usize>(
    moves: &Moves,
    layers: &mut Layers<W>,
    head: usize,
    from: &Bits<W>,
    deeper: usize,
    limit: u32,
) -> Result<(), WalkFault>
    requires width { W ≤ 64 }
    requires atoms { moves.now.atoms ≤ 64 * W }
    requires deepens { Deepens moves.now limit head 0 (members from.now) deeper
        (visits layers.old.visited) layers.old.depths.items }
    ensures expanded { OnOk result (IsDeepened moves.now limit deeper (head + 1)
        (visits layers.new.visited) layers.new.depths.items) }
    ensures many { result ≡ Err WalkFault.TooManyStates → MoreThan limit (IsWithin moves.now deeper) }
{
    let task = moves.task();
    let unblocked = moves.unblocked();
    for a in unblocked {
        deepen(task, layers, head, from, deeper, *a, limit)?;
    }
    Ok(())
}

/// Visits the states within `steps` steps from the start.
pub(crate) fn layers_within<const W: usize>(
    alloc: Global,
    moves: &Moves,
    steps: usize,
    limit: u32,
) -> Result<Layers<W>, WalkFault>
    requires width { W ≤ 64 }
    requires atoms { moves.now.atoms ≤ 64 * W }
    requires limit { 1 ≤ limit }
    ensures layered { IfOk result (λ l. IsLayered moves.now steps (visits l.visited) l.depths.items) }
    ensures many { result ≡ Err WalkFault.TooManyStates → MoreThan limit (IsWithin moves.now steps) }
{
    let mut layers = Layers {
        visited: begin(alloc, moves.task(), limit)?,
        depths: vec![in alloc; 0]?,
    };
    let mut head = 0;
    while let Some(from) = layers.visited.state(head) {
        let depth = layers.depths[head];
        if depth >= steps {
            // The later states are at least as deep.
            return Ok(layers);
        }
        expand(moves, &mut layers, head, &from, depth + 1, limit)?;
        head += 1;
    }
    Ok(layers)
}
