ghost use Rattle.std.specs.Prelude.{◌<◌, ◌≤◌, All, IfOk, length};

use crate::samples::{FORK, KEEP, Sample, atoms, goal, state, task};
use grd_base::{ActionId, ActionSet, AtomId, Bits, members_below};
use std::alloc::Global;
use std::test::Fail;
use strips_model::{
    AtomIndex, Moves, Task, advance, applies, apply_in, atoms_of, embeds, holds, run_plan, state_of,
};

const A: ActionId = ActionId(0);

const B: ActionId = ActionId(1);

const L: ActionId = ActionId(2);

const R: ActionId = ActionId(3);

// The action, which the task has.
fn known(task: &Task, a: ActionId) -> Result<ActionId, Fail>
    ensures { IfOk result (λ a. a.0 < length task.now.actions) }
{
    if a.0 as usize >= task.actions.len() {
        return Err("a number of an action")?;
    }
    Ok(a)
}

// The actions, which the task has.
fn all_known(alloc: Global, task: &Task, list: &[ActionId]) -> Result<Vec<ActionId>, Fail>
    ensures { IfOk result (λ plan. All (λ a. a.0 < length task.now.actions) plan.items) }
{
    let mut plan = Vec::new(alloc);
    for a in list {
        plan.push(known(task, *a)?)?;
    }
    Ok(plan)
}

// Whether the state has just these of the atoms below 64.
fn has_just<const W: usize>(s: &Bits<W>, numbers: &[u32]) -> bool
    requires { (1 ≤ W) × (W ≤ 64) }
{
    for n in 0..64 {
        if s.contains(n) != numbers.contains(&n) {
            return false;
        }
    }
    true
}

// Whether the state, where there is one, has just these atoms.
fn is<const W: usize>(found: Option<Bits<W>>, wanted: Option<&[u32]>) -> bool
    requires { (1 ≤ W) × (W ≤ 64) }
{
    match (found, wanted) {
        (Some(s), Some(numbers)) => has_just(&s, numbers),
        (None, None) => true,
        _ => false,
    }
}

// The state after the action where these atoms alone are true.
fn step(sample_task: &Task, numbers: &[u32], a: ActionId) -> Result<Option<Bits<1>>, Fail>
    requires { sample_task.now.atoms ≤ 64 }
{
    let a = known(sample_task, a)?;
    let mut s = state(sample_task.atoms, numbers)?;
    if !applies(sample_task, &s, a) {
        return Ok(None);
    }
    apply_in(sample_task, &mut s, a);
    Ok(Some(s))
}

// The same by one call.
fn step_at_once(sample_task: &Task, numbers: &[u32], a: ActionId) -> Result<Option<Bits<1>>, Fail>
    requires { sample_task.now.atoms ≤ 64 }
{
    let a = known(sample_task, a)?;
    let s = state(sample_task.atoms, numbers)?;
    Ok(advance(sample_task, &s, a))
}

// Whether the steps, by two calls and by one, lead to the state of these atoms.
fn leads_in(
    sample_task: &Task,
    numbers: &[u32],
    a: ActionId,
    wanted: Option<&[u32]>,
) -> Result<(bool, bool), Fail>
    requires { sample_task.now.atoms ≤ 64 }
{
    let by_two = step(sample_task, numbers, a)?;
    let by_one = step_at_once(sample_task, numbers, a)?;
    Ok((is(by_two, wanted), is(by_one, wanted)))
}

fn leads_to(
    alloc: Global,
    sample: &Sample,
    numbers: &[u32],
    a: ActionId,
    wanted: Option<&[u32]>,
) -> Result<(bool, bool), Fail> {
    let task = task(alloc, sample)?;
    leads_in(&task, numbers, a, wanted)
}

// Keep adds the atom that it deletes.
#[test]
fn a_step_applies_deletes_and_adds(rt: HostRuntime) -> Result<(), Fail> {
    let rows: [(&Sample, &[u32], ActionId, Option<&[u32]>); 6] = [
        (&FORK, &[0], A, Some(&[1])),
        (&FORK, &[0], L, None),
        (&FORK, &[2, 4], L, Some(&[3, 4])),
        (&FORK, &[2, 4], A, None),
        (&KEEP, &[0], A, Some(&[0, 1])),
        (&KEEP, &[0], B, None),
    ];
    for (sample, numbers, a, wanted) in rows {
        let led = leads_to(rt.alloc(), sample, numbers, a, wanted)?;
        assert_eq!(rt; led, (true, true), "{a:?} from {numbers:?}");
    }
    Ok(())
}

// The state to which the plan leads from the start without the removed actions.
fn end_of<const W: usize>(
    alloc: Global,
    task: &Task,
    removed: &[ActionId],
    plan: &[ActionId],
) -> Result<Option<Bits<W>>, Fail>
    requires width { (1 ≤ W) × (W ≤ 64) }
    requires atoms { task.now.atoms ≤ 64 }
{
    let removed = ActionSet::from_list(alloc, removed)?;
    let plan = all_known(alloc, task, plan)?;
    Ok(run_plan::<W>(task, &removed, &plan))
}

// Whether it is the state of these atoms.
fn ends_at<const W: usize>(
    alloc: Global,
    sample: &Sample,
    removed: &[ActionId],
    plan: &[ActionId],
    wanted: Option<&[u32]>,
) -> Result<bool, Fail>
    requires { (1 ≤ W) × (W ≤ 64) }
{
    let task = task(alloc, sample)?;
    let end = end_of::<W>(alloc, &task, removed, plan)?;
    Ok(is(end, wanted))
}

#[test]
fn plans_are_run_from_the_start(rt: HostRuntime) -> Result<(), Fail> {
    let rows: [(&Sample, &[ActionId], &[ActionId], Option<&[u32]>); 6] = [
        (&FORK, &[], &[], Some(&[0])),
        (&FORK, &[], &[A, B, L], Some(&[3])),
        (&FORK, &[], &[L], None),
        (&FORK, &[B], &[A, B, L], None),
        (&KEEP, &[], &[A], Some(&[0, 1])),
        (&KEEP, &[], &[B], None),
    ];
    for (sample, removed, plan, wanted) in rows {
        let narrow = ends_at::<1>(rt.alloc(), sample, removed, plan, wanted)?;
        let wide = ends_at::<2>(rt.alloc(), sample, removed, plan, wanted)?;
        assert!(rt; narrow && wide, "{plan:?} without {removed:?}");
    }
    Ok(())
}

// Whether the goal holds where these atoms alone are true.
fn holds_in(sample_task: &Task, numbers: &[u32], number: u32) -> Result<bool, Fail>
    requires { sample_task.now.atoms ≤ 64 }
{
    let goal = goal(sample_task, number)?;
    let s = state(sample_task.atoms, numbers)?;
    Ok(holds(sample_task, &s, goal))
}

fn goal_holds(alloc: Global, sample: &Sample, numbers: &[u32], number: u32) -> Result<bool, Fail> {
    let task = task(alloc, sample)?;
    holds_in(&task, numbers, number)
}

#[test]
fn a_blocked_goal_never_holds(rt: HostRuntime) -> Result<(), Fail> {
    let rows: [(&Sample, &[u32], u32, bool); 5] = [
        (&FORK, &[3], 0, true),
        (&FORK, &[3], 1, false),
        (&KEEP, &[0], 0, false),
        (&KEEP, &[0, 1], 0, true),
        (&KEEP, &[0, 1], 1, false),
    ];
    for (sample, numbers, goal, wanted) in rows {
        let found = goal_holds(rt.alloc(), sample, numbers, goal)?;
        assert_eq!(rt; found, wanted, "goal {goal} at {numbers:?}");
    }
    Ok(())
}

// Whether the task of the moves has so many atoms, and these are its allowed actions.
fn allows(
    alloc: Global,
    task: &Task,
    removed: &[ActionId],
    atoms: u32,
    wanted: &[ActionId],
) -> Result<bool, Fail> {
    let removed = ActionSet::from_list(alloc, removed)?;
    let moves = Moves::of(alloc, task, &removed)?;
    Ok(moves.task().atoms == atoms && moves.allowed() == wanted)
}

fn has_moves(
    alloc: Global,
    sample: &Sample,
    removed: &[ActionId],
    atoms: u32,
    wanted: &[ActionId],
) -> Result<bool, Fail> {
    let task = task(alloc, sample)?;
    allows(alloc, &task, removed, atoms, wanted)
}

#[test]
fn only_allowed_actions_are_moves(rt: HostRuntime) -> Result<(), Fail> {
    let rows: [(&Sample, &[ActionId], u32, &[ActionId]); 2] = [
        (&FORK, &[B], 5, &[A, L, R]),
        (&KEEP, &[], 2, &[A]),
    ];
    for (sample, removed, atoms, wanted) in rows {
        assert!(rt;
            has_moves(rt.alloc(), sample, removed, atoms, wanted)?,
            "{atoms}"
        );
    }
    Ok(())
}

// The atoms of the state of the list.
fn listed(alloc: Global, numbers: &[u32]) -> Result<Vec<AtomId>, Fail> {
    let list = atoms(alloc, 64, numbers)?;
    let s = state_of::<1>(&list);
    members_below(&s);
    Ok(atoms_of(alloc, &s, 64)?)
}

#[test]
fn a_state_is_read_from_a_list_and_listed(rt: HostRuntime) -> Result<(), Fail> {
    let rows: [(&[u32], &[AtomId]); 2] = [(&[2, 4], &[AtomId(2), AtomId(4)]), (&[], &[])];
    for (numbers, wanted) in rows {
        let found = listed(rt.alloc(), numbers)?;
        assert!(rt; found.as_slice() == wanted, "{found:?}");
    }
    Ok(())
}

#[test]
fn one_step_serves_one_observation(rt: HostRuntime) {
    let rows: [(&[ActionId], &[ActionId], bool); 5] = [
        (&[A, L], &[A, B, L], true),
        (&[A, A], &[A, B, L], false),
        (&[L, A], &[A, B, L], false),
        (&[], &[A, B, L], true),
        (&[A, B, L], &[A], false),
    ];
    for (observations, plan, wanted) in rows {
        assert_eq!(rt;
            embeds(observations, plan),
            wanted,
            "{observations:?} in {plan:?}"
        );
    }
}

// The actions of the atom, of three, in an index where the second has L and A.
fn indexed(alloc: Global, atom: u32) -> Result<Vec<ActionId>, Fail> {
    let mut index = AtomIndex::new(alloc, 3)?;
    index.add(AtomId(1), L)?;
    index.add(AtomId(1), A)?;
    if atom >= 3 {
        return Err("a number of an atom")?;
    }
    Ok(Vec::from_slice(alloc, index.at(AtomId(atom)))?)
}

#[test]
fn index_lists_the_actions_of_an_atom(rt: HostRuntime) -> Result<(), Fail> {
    let rows: [(u32, &[ActionId]); 3] = [(0, &[]), (1, &[L, A]), (2, &[])];
    for (atom, wanted) in rows {
        let found = indexed(rt.alloc(), atom)?;
        assert!(rt; found.as_slice() == wanted, "{atom}: {found:?}");
    }
    Ok(())
}
