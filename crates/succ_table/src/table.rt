ghost use Rattle.std.specs.Prelude.{◌≡◌, ◌*◌, ◌<◌, ◌≤◌, ◌++◌, length, filter, All, IfOk};
ghost use Rattle.grd_base.specs.Bits.{members};
ghost use Rattle.succ_table.specs.Applicable.{applicable_of, is_open};

use crate::needs::{count_needs, rarest};
use grd_base::{ActionId, ActionSet, AtomId, Bits, OutOfMemory};
use std::alloc::Global;
use std::marker::Model;
use strips_model::{AtomIndex, Task, applies};

/// A task with its actions by the atoms that they need: each stands with the one of its atoms that the
/// fewest actions need.
#[derive(Drop)]
pub struct SuccTable<'t> {
    task: &'t Task,
    free: Vec<ActionId>,
    by_atom: AtomIndex,
}

impl<'t> Model for SuccTable<'t> {
    ghost use Rattle.std.specs.Prelude.{length};
    ghost use Rattle.strips_model.specs.Values.{PlainTask};
    ghost use Rattle.succ_table.specs.Filed.{AreFiled};

    ghost Value = { PlainTask };

    ghost view = { λ table. table.task.now };

    ghost invariant = { λ table. AreFiled table.task.now (length table.task.now.actions) table.free.items table.by_atom };
}

impl<'t> SuccTable<'t> {
    /// The table of the task.
    pub fn build(alloc: Global, task: &'t Task) -> Result<SuccTable<'t>, OutOfMemory>
        ensures { IfOk result (λ table. table ≡ task.now) }
    {
        let counts = count_needs(alloc, task)?;
        let mut free = Vec::new(alloc);
        let mut by_atom = AtomIndex::new(alloc, task.atoms)?;
        for (i, action) in task.actions.iter().enumerate() {
            if !action.blocked {
                let a = ActionId(i as u32);
                match rarest(counts.as_slice(), action.pre.as_slice()) {
                    Some(atom) => by_atom.add(atom, a)?,
                    None => free.push(a)?,
                }
            }
        }
        Ok(SuccTable {
            task,
            free,
            by_atom,
        })
    }

    /// The task whose table it is.
    pub fn task(&self) -> &'t Task
        ensures { result.now ≡ self.now }
    {
        self.task
    }

    /// The actions that apply in the state and are not removed, rising.
    pub fn applicable<const W: usize>(
        &self,
        alloc: Global,
        s: &Bits<W>,
        removed: &ActionSet,
    ) -> Result<Vec<ActionId>, OutOfMemory>
        requires width { W ≤ 64 }
        requires atoms { self.now.atoms ≤ 64 * W }
        ensures { IfOk result
            (λ found. found.items ≡ applicable_of self.now removed.now (members s.now)) }
    {
        let task = self.task;
        let mut found = Vec::new(alloc);
        add_open(task, s, removed, self.free.as_slice(), &mut found)?;
        for n in 0..task.atoms {
            if s.contains(n) {
                add_open(task, s, removed, self.by_atom.at(AtomId(n)), &mut found)?;
            }
        }
        found.sort()?;
        found.dedup();
        Ok(found)
    }
}

/// Adds those of the actions that apply in the state and are not removed.
fn add_open<const W: usize>(
    task: &Task,
    s: &Bits<W>,
    removed: &ActionSet,
    actions: &[ActionId],
    found: &mut Vec<ActionId>,
) -> Result<(), OutOfMemory>
    requires width { W ≤ 64 }
    requires atoms { task.now.atoms ≤ 64 * W }
    requires actions { All (λ a. a.0 < length task.now.actions) actions.now }
    ensures { IfOk result (λ _. found.new.items
        ≡ found.old.items ++ filter (is_open task.now removed.now (members s.now)) actions.now) }
{
    for a in actions {
        if applies(task, s, *a) && !removed.contains(*a) {
            found.push(*a)?;
        }
    }
    Ok(())
}
