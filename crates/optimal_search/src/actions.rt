ghost use Rattle.std.specs.Prelude.{◌≡◌, ◌*◌, ◌≤◌, IfOk};
ghost use Rattle.grd_base.specs.Bits.{members};
ghost use Rattle.succ_table.specs.Applicable.{applicable_of};
ghost use Rattle.optimal_search.specs.Space.{task_in};

use grd_base::{ActionId, ActionSet, Bits, OutOfMemory};
use std::alloc::Global;
use succ_table::SuccTable;

/// A table of the actions of a task: one's own, or one that is lent, so that several spaces of the task can
/// use it.
#[derive(Drop)]
pub(crate) enum TaskActions<'t> {
    Own(SuccTable<'t>),
    Lent(&'t SuccTable<'t>),
}

impl<'t> TaskActions<'t> {
    /// The actions that apply in the state and are not removed, rising.
    pub(crate) fn applicable<const W: usize>(
        &self,
        alloc: Global,
        s: &Bits<W>,
        removed: &ActionSet,
    ) -> Result<Vec<ActionId>, OutOfMemory>
        requires width { W ≤ 64 }
        requires atoms { (task_in self.now).atoms ≤ 64 * W }
        ensures { IfOk result
            (λ found. found.items ≡ applicable_of (task_in self.now) removed.now (members s.now)) }
    {
        match self {
            TaskActions::Own(table) => table.applicable(alloc, s, removed),
            TaskActions::Lent(table) => table.applicable(alloc, s, removed),
        }
    }
}
