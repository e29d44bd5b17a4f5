use crate::samples::{FORK, task};
use grd_base::{ActionId, AtomId};
use observation_compile::{observed, plans_embed};
use std::alloc::Global;
use std::test::Fail;
use strips_model::{Action, Task};

const A: ActionId = ActionId(0);

const L: ActionId = ActionId(2);

// Fork, observed.
fn made(alloc: Global, observations: &[ActionId]) -> Result<Task, Fail> {
    if observations.len() > 32 {
        return Err("few observations")?;
    }
    let task = task(alloc, &FORK)?;
    Ok(observed(alloc, &task, observations)?)
}

// How many atoms, actions and goals there are.
fn counts(alloc: Global, observations: &[ActionId]) -> Result<(u32, usize, usize), Fail> {
    let made = made(alloc, observations)?;
    Ok((made.atoms, made.actions.len(), made.goals.len()))
}

// What an action needs, adds and deletes.
type Lists = (&'static [AtomId], &'static [AtomId], &'static [AtomId]);

// Whether the action has these lists and is blocked or not.
fn is(action: &Action, lists: Lists, blocked: bool) -> bool {
    action.blocked == blocked
        && action.pre.as_slice() == lists.0
        && action.add.as_slice() == lists.1
        && action.del.as_slice() == lists.2
}

// The same of the action with this number.
fn has_action(
    alloc: Global,
    observations: &[ActionId],
    number: usize,
    lists: Lists,
    blocked: bool,
) -> Result<bool, Fail> {
    let made = made(alloc, observations)?;
    match made.actions.get(number) {
        Some(action) => Ok(is(action, lists, blocked)),
        None => Ok(false),
    }
}

// Whether the goal with this number has these atoms.
fn has_goal(
    alloc: Global,
    observations: &[ActionId],
    number: usize,
    atoms: &[AtomId],
) -> Result<bool, Fail> {
    let made = made(alloc, observations)?;
    match made.goals.get(number) {
        Some(goal) => Ok(goal.atoms.as_slice() == atoms),
        None => Ok(false),
    }
}

// Whether these atoms are true at the start.
fn has_start(alloc: Global, observations: &[ActionId], atoms: &[AtomId]) -> Result<bool, Fail> {
    let made = made(alloc, observations)?;
    Ok(made.init.as_slice() == atoms)
}

#[test]
fn each_observation_has_an_atom_and_an_action(rt: HostRuntime) -> Result<(), Fail> {
    let rows: [(&[ActionId], (u32, usize, usize)); 3] = [
        (&[], (5, 4, 2)),
        (&[A, L], (7, 6, 2)),
        (&[ActionId(9)], (6, 5, 2)),
    ];
    for (observations, wanted) in rows {
        assert_eq!(rt;
            counts(rt.alloc(), observations)?,
            wanted,
            "{observations:?}"
        );
    }
    Ok(())
}

#[test]
fn no_observation_stands_at_the_start(rt: HostRuntime) -> Result<(), Fail> {
    assert!(rt; has_start(rt.alloc(), &[A, L], &[AtomId(0)])?);
    plans_embed();
    Ok(())
}

// The copy of no action is blocked.
#[test]
fn copies_need_and_add_the_atoms_of_observations(rt: HostRuntime) -> Result<(), Fail> {
    let rows: [(&[ActionId], usize, Lists, bool); 4] = [
        (
            &[A, L],
            0,
            (&[AtomId(0)], &[AtomId(1)], &[AtomId(0)]),
            false,
        ),
        (
            &[A, L],
            4,
            (&[AtomId(0)], &[AtomId(1), AtomId(5)], &[AtomId(0)]),
            false,
        ),
        (
            &[A, L],
            5,
            (
                &[AtomId(2), AtomId(5)],
                &[AtomId(3), AtomId(6)],
                &[AtomId(2)],
            ),
            false,
        ),
        (&[ActionId(9)], 4, (&[], &[AtomId(5)], &[]), true),
    ];
    for (observations, number, lists, blocked) in rows {
        let has = has_action(rt.alloc(), observations, number, lists, blocked)?;
        assert!(rt; has, "action {number} of {observations:?}");
    }
    Ok(())
}

#[test]
fn goals_need_the_last_observation(rt: HostRuntime) -> Result<(), Fail> {
    let rows: [(&[ActionId], usize, &[AtomId]); 3] = [
        (&[A, L], 0, &[AtomId(3), AtomId(6)]),
        (&[A, L], 1, &[AtomId(4), AtomId(6)]),
        (&[], 0, &[AtomId(3)]),
    ];
    for (observations, number, wanted) in rows {
        let has = has_goal(rt.alloc(), observations, number, wanted)?;
        assert!(rt; has, "goal {number} of {observations:?}");
    }
    Ok(())
}
