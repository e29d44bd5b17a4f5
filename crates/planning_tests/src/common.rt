ghost use Rattle.std.specs.Prelude.{◌≤◌};

use crate::samples::{FORK_OF_EQUALS, FORK_OF_ONE, FORK_OF_TWO, LATE_FORK, Sample, TWO_WAYS, task};
use grd_base::{ActionId, GoalId, Limits};
use optimal_search::{GoalSearchFault, plans};
use plain_search::wcd;
use std::alloc::Global;
use std::test::Fail;
use strips_model::{Task, Witness};

const A: ActionId = ActionId(0);

const B: ActionId = ActionId(1);

const L: ActionId = ActionId(2);

const R: ActionId = ActionId(3);

const ON: ActionId = ActionId(3);

const OFF: ActionId = ActionId(4);

fn answer(alloc: Global, task: &Task, limit: u32) -> Result<Option<Witness>, GoalSearchFault>
    requires { (1 ≤ limit) × (limit ≤ 1000000) }
{
    let limits = Limits {
        states: limit,
        sets: 0,
    };
    let found = plans(alloc, task, limits)?;
    wcd(alloc, task, found.as_slice(), limit)
}

// The answer for the sample, where so many states may be kept.
fn common(
    alloc: Global,
    sample: &Sample,
    limit: u32,
) -> Result<Result<Option<Witness>, GoalSearchFault>, Fail> {
    if limit == 0 || limit > 1000000 {
        return Err("a limit")?;
    }
    let task = task(alloc, sample)?;
    Ok(answer(alloc, &task, limit))
}

// A sequence, and two goals with a plan of each.
type Plain = (
    &'static [ActionId],
    (u32, &'static [ActionId]),
    (u32, &'static [ActionId]),
);

fn is(witness: &Witness, wanted: Plain) -> bool {
    let (prefix, first, second) = wanted;
    witness.prefix.as_slice() == prefix
        && witness.goals == (GoalId(first.0), GoalId(second.0))
        && witness.plans.0.as_slice() == first.1
        && witness.plans.1.as_slice() == second.1
}

fn has_common(alloc: Global, sample: &Sample, wanted: Option<Plain>) -> Result<bool, Fail> {
    match (common(alloc, sample, 5)?, wanted) {
        (Ok(Some(witness)), Some(wanted)) => Ok(is(&witness, wanted)),
        (Ok(None), None) => Ok(true),
        _ => Ok(false),
    }
}

// Fork's goals are told apart at its branch, equal goals never, and later goals may share more than the
// first. One goal with a plan shares with none. In the last task the shortest plan that is found for the
// first goal is by the other way.
#[test]
fn longest_sequences_are_common_to_two_goals(rt: HostRuntime) -> Result<(), Fail> {
    let rows: [(&Sample, Option<Plain>); 5] = [
        (
            &FORK_OF_TWO,
            Some((&[A, B], (0, &[A, B, L]), (1, &[A, B, R]))),
        ),
        (
            &FORK_OF_EQUALS,
            Some((&[A, B, L], (0, &[A, B, L]), (1, &[A, B, L]))),
        ),
        (&LATE_FORK, Some((&[B], (1, &[B, L]), (2, &[B, R])))),
        (&FORK_OF_ONE, None),
        (&TWO_WAYS, Some((&[B], (0, &[B, ON]), (1, &[B, OFF])))),
    ];
    for (i, (sample, wanted)) in rows.into_iter().enumerate() {
        assert!(rt; has_common(rt.alloc(), sample, wanted)?, "row {i}");
    }
    Ok(())
}

fn fault(alloc: Global, sample: &Sample, limit: u32) -> Result<Option<GoalSearchFault>, Fail> {
    Ok(common(alloc, sample, limit)?.err())
}

// Five states are within three steps, and the first goal is one that costs most.
#[test]
fn too_many_states_are_told_of_the_dearest_goal(rt: HostRuntime) -> Result<(), Fail> {
    for (limit, wanted) in [
        (5, None),
        (4, Some(GoalSearchFault::TooManyStates(GoalId(0)))),
    ] {
        assert_eq!(rt; fault(rt.alloc(), &FORK_OF_TWO, limit)?, wanted, "{limit}");
    }
    Ok(())
}
