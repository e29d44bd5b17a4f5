ghost use Rattle.std.specs.Prelude.{◌≤◌};

use crate::samples::{FORK_THAT_KEEPS, state, task};
use grd_base::{ActionId, ActionSet};
use std::alloc::Global;
use std::test::Fail;
use strips_model::Task;
use succ_table::SuccTable;

// The actions that apply where these atoms alone are true and are not removed.
fn applicable_of(
    alloc: Global,
    task: &Task,
    removed: &[ActionId],
    atoms: &[u32],
) -> Result<Vec<ActionId>, Fail>
    requires { task.now.atoms ≤ 64 }
{
    let s = state(task.atoms, atoms)?;
    let removed = ActionSet::from_list(alloc, removed)?;
    let table = SuccTable::build(alloc, task)?;
    Ok(table.applicable(alloc, &s, &removed)?)
}

// The same of fork.
fn applicable(alloc: Global, removed: &[ActionId], atoms: &[u32]) -> Result<Vec<ActionId>, Fail> {
    let task = task(alloc, &FORK_THAT_KEEPS)?;
    applicable_of(alloc, &task, removed, atoms)
}

const A: ActionId = ActionId(0);

const L: ActionId = ActionId(2);

const R: ActionId = ActionId(3);

const FREE: ActionId = ActionId(4);

const BOTH: ActionId = ActionId(5);

#[test]
fn table_answers_what_applies(rt: HostRuntime) -> Result<(), Fail> {
    let rows: [(&[u32], &[ActionId], &[ActionId]); 4] = [
        (&[0], &[], &[A, FREE]),
        (&[0, 2], &[], &[A, L, R, FREE, BOTH]),
        (&[0, 2], &[L], &[A, R, FREE, BOTH]),
        (&[], &[], &[FREE]),
    ];
    for (atoms, removed, wanted) in rows {
        let found = applicable(rt.alloc(), removed, atoms)?;
        assert!(rt;
            found.as_slice() == wanted,
            "{atoms:?} without {removed:?}: {found:?}"
        );
    }
    Ok(())
}
