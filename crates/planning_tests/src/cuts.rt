ghost use Rattle.std.specs.Prelude.{◌≤◌};

use crate::samples::{FORK_WITH_DEAD_ENDS, Sample, TWO_AT_ONCE, goal, state, task};
use cut_bounds::CutFloor;
use grd_base::{ActionSet, AtomId, Bits, Bound};
use level_bounds::LevelFloor;
use std::alloc::Global;
use std::test::Fail;
use strips_model::{Family, Task};

// The bound from cuts of the goal with this number at the state, and the sets that prove it.
fn cuts_of(alloc: Global, task: &Task, number: u32, s: &Bits<1>) -> Result<(Bound, Family), Fail>
    requires { task.now.atoms ≤ 64 }
{
    let goal = goal(task, number)?;
    let floor = CutFloor::new(alloc, task, goal, &ActionSet::new(alloc))?;
    let (bound, mark) = floor.cuts_at(alloc, task, s)?;
    let family = floor.family_at(alloc, task, s, &mark)?;
    Ok((bound, family))
}

// The level of the goal with this number at the state.
fn level_of(alloc: Global, task: &Task, number: u32, s: &Bits<1>) -> Result<Bound, Fail>
    requires { task.now.atoms ≤ 64 }
{
    let goal = goal(task, number)?;
    let floor = LevelFloor::new(alloc, task, goal, &ActionSet::new(alloc))?;
    Ok(floor.bound_at(alloc, task, s)?)
}

// Whether these are the sets, one after the other.
fn are(family: &Family, wanted: &[&[AtomId]]) -> bool {
    let mut right = family.sets.len() == wanted.len();
    for (set, atoms) in family.sets.iter().zip(wanted) {
        right = right && set.as_slice() == *atoms;
    }
    right
}

// The level and the bound from cuts at the state that has these atoms alone, and whether the sets are these.
fn answers(
    alloc: Global,
    sample: &Sample,
    number: u32,
    atoms: &[u32],
    wanted: &[&[AtomId]],
) -> Result<(Bound, Bound, bool), Fail> {
    let task = task(alloc, sample)?;
    let s = state(task.atoms, atoms)?;
    let level = level_of(alloc, &task, number, &s)?;
    let (bound, family) = cuts_of(alloc, &task, number, &s)?;
    Ok((level, bound, are(&family, wanted)))
}

const P: AtomId = AtomId(0);

const Q: AtomId = AtomId(1);

const R: AtomId = AtomId(2);

// The atoms of a state, its level, its bound from cuts and the sets that prove it.
const ROWS: [(&[u32], Bound, Bound, &[&[AtomId]]); 4] = [
    (&[0], Bound::Steps(1), Bound::Steps(2), &[&[P, Q], &[P, R]]),
    (&[0, 1], Bound::Steps(1), Bound::Steps(1), &[&[P, Q]]),
    (&[0, 1, 2], Bound::Steps(0), Bound::Steps(0), &[]),
    (&[1], Bound::Never, Bound::Never, &[&[Q]]),
];

// Both atoms of the goal are reached in one round, and each needs an action of its own. Without the atom that
// both actions need the goal is never reached.
#[test]
fn cuts_count_what_levels_do_not(rt: HostRuntime) -> Result<(), Fail> {
    for (atoms, level, bound, sets) in ROWS {
        assert_eq!(rt;
            answers(rt.alloc(), &TWO_AT_ONCE, 0, atoms, sets)?,
            (level, bound, true),
            "{atoms:?}"
        );
    }
    Ok(())
}

// What is reached without the step to the right end, without the one to the left end, and without the second and
// the first step.
const AROUND: &[&[AtomId]] = &[
    &[
        AtomId(0),
        AtomId(1),
        AtomId(2),
        AtomId(3),
        AtomId(6),
        AtomId(7),
    ],
    &[
        AtomId(0),
        AtomId(1),
        AtomId(2),
        AtomId(4),
        AtomId(6),
        AtomId(7),
    ],
    &[AtomId(0), AtomId(1), AtomId(6), AtomId(7)],
    &[AtomId(0), AtomId(6), AtomId(7)],
];

// Both ends of fork are reached in three rounds and are two atoms, but each way to both takes four actions.
#[test]
fn landmark_cuts_count_every_step_that_is_needed(rt: HostRuntime) -> Result<(), Fail> {
    assert_eq!(rt;
        answers(rt.alloc(), &FORK_WITH_DEAD_ENDS, 2, &[0], AROUND)?,
        (Bound::Steps(3), Bound::Steps(4), true)
    );
    Ok(())
}
