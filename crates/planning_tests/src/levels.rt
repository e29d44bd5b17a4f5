ghost use Rattle.std.specs.Prelude.{◌≤◌};

use crate::samples::{FORK_OF_FOUR, goal, state, task};
use grd_base::{ActionId, ActionSet, AtomId, Bound};
use level_bounds::LevelFloor;
use std::alloc::Global;
use std::test::Fail;
use strips_model::{Family, Task, start};

// The level of the goal at the state that has these atoms alone, without the removed actions.
fn level_of(
    alloc: Global,
    task: &Task,
    number: u32,
    removed: &[ActionId],
    atoms: &[u32],
) -> Result<Bound, Fail>
    requires { task.now.atoms ≤ 64 }
{
    let goal = goal(task, number)?;
    let s = state(task.atoms, atoms)?;
    let removed = ActionSet::from_list(alloc, removed)?;
    let floor = LevelFloor::new(alloc, task, goal, &removed)?;
    Ok(floor.bound_at(alloc, task, &s)?)
}

// The same of fork.
fn level(alloc: Global, number: u32, removed: &[ActionId], atoms: &[u32]) -> Result<Bound, Fail> {
    let task = task(alloc, &FORK_OF_FOUR)?;
    level_of(alloc, &task, number, removed, atoms)
}

// The sets that show the level of the goal at the start, without the removed actions.
fn family_of(alloc: Global, task: &Task, number: u32, removed: &[ActionId]) -> Result<Family, Fail>
    requires { task.now.atoms ≤ 64 }
{
    let goal = goal(task, number)?;
    let removed = ActionSet::from_list(alloc, removed)?;
    let floor = LevelFloor::new(alloc, task, goal, &removed)?;
    Ok(floor.family_at(alloc, task, &start::<1>(task))?)
}

// Whether these are the sets, one after the other.
fn are(family: &Family, wanted: &[&[AtomId]]) -> bool {
    let mut right = family.sets.len() == wanted.len();
    for (set, atoms) in family.sets.iter().zip(wanted) {
        right = right && set.as_slice() == *atoms;
    }
    right
}

// Whether these are the sets of fork.
fn has_sets(
    alloc: Global,
    number: u32,
    removed: &[ActionId],
    wanted: &[&[AtomId]],
) -> Result<bool, Fail> {
    let task = task(alloc, &FORK_OF_FOUR)?;
    let family = family_of(alloc, &task, number, removed)?;
    Ok(are(&family, wanted))
}

const B: ActionId = ActionId(1);

const AT0: AtomId = AtomId(0);

const AT1: AtomId = AtomId(1);

const AT2: AtomId = AtomId(2);

// Both ends are reached in one round, whatever plans do. Without its middle neither is.
#[test]
fn levels_of_fork(rt: HostRuntime) -> Result<(), Fail> {
    let rows: [(u32, &[ActionId], &[u32], Bound); 5] = [
        (0, &[], &[0], Bound::Steps(3)),
        (0, &[], &[2], Bound::Steps(1)),
        (2, &[], &[0], Bound::Steps(0)),
        (3, &[], &[0], Bound::Steps(3)),
        (0, &[B], &[0], Bound::Never),
    ];
    for (goal, removed, atoms, wanted) in rows {
        assert_eq!(rt;
            level(rt.alloc(), goal, removed, atoms)?,
            wanted,
            "goal {goal}"
        );
    }
    Ok(())
}

#[test]
fn sets_show_the_levels_of_fork(rt: HostRuntime) -> Result<(), Fail> {
    let rows: [(&[ActionId], &[&[AtomId]]); 2] = [
        (&[], &[&[AT0], &[AT0, AT1], &[AT0, AT1, AT2]]),
        (&[B], &[&[AT0, AT1]]),
    ];
    for (removed, wanted) in rows {
        assert!(rt; has_sets(rt.alloc(), 0, removed, wanted)?, "{removed:?}");
    }
    Ok(())
}
