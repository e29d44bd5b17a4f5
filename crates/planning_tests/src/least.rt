use crate::search::{DEAD_ENDS, Graph, NEVER, Row, S0, S1, S2, S3, StepFloor, TWO_WAYS, have};
use grd_base::{ActionId, Bound, OutOfMemory};
use search_core::{Floor, LeastAnswer, SearchFault, Space, least};
use std::alloc::Global;

// Two ways lead from 0 to 4: by 1 in four steps, and by 5 and 6 in five. They join at 2.
#[derive(Drop)]
struct Detour;

impl Space for Detour {
    type State = u32;

    ghost use Rattle.std.specs.Prelude.{◌≡◌, Some};
    ghost use Rattle.std.specs.declared.cmp.Ordering.TheVariants.{Equal};
    ghost use Rattle.std.proofs.Common.{sym};
    ghost use Rattle.std.proofs.lemmas.Cmp.{ranked};
    ghost use Rattle.planning_tests.specs.Detour.{detour, steps_from, is_end};

    ghost next = { λ _ s. steps_from detour s };

    ghost is_done = { λ _ s. is_end s };

    ghost level = { λ _ _. Some 0 };

    ghost same = { λ x y e. ranked x y Equal (sym e) };

    fn done(&self, s: &u32) -> bool {
        *s == 4
    }

    fn successors(&self, alloc: Global, s: &u32) -> Result<Vec<(ActionId, u32)>, OutOfMemory> {
        let from = *s;
        let steps: [(u32, u32); 7] = [(0, 1), (1, 2), (2, 3), (3, 4), (0, 5), (5, 6), (6, 2)];
        let next = steps
            .iter()
            .filter_map(|step| {
                if step.0 == from {
                    Some((ActionId(step.1), step.1))
                } else {
                    None
                }
            })
            .collect(alloc)?;
        Ok(next)
    }
}

// 3 at the state 1, which the shorter way leads by, and no step elsewhere.
#[derive(Drop)]
struct HighOnTheShortWay;

impl Floor<Detour> for HighOnTheShortWay {
    type Mark = ();

    type Why = ();

    ghost use Rattle.std.specs.Prelude.{◌≡◌};
    ghost use Rattle.grd_base.specs.declared.limits.Bound.TheVariants.{Steps};
    ghost use Rattle.planning_tests.specs.Detour.{number_at, detour_admissible};

    ghost shows = { λ _ _ s _ bound. bound ≡ Steps (number_at s) };

    ghost proves = { λ _ _ s _ bound. bound ≡ Steps (number_at s) };

    ghost admissible = { λ _ _ s _ bound is. detour_admissible s bound is };

    fn at_least(
        &self,
        _alloc: Global,
        _space: &Detour,
        s: &u32,
    ) -> Result<(Bound, ()), OutOfMemory> {
        if *s == 1 {
            return Ok((Bound::Steps(3), ()));
        }
        Ok((Bound::Steps(0), ()))
    }

    fn why(
        &self,
        _alloc: Global,
        _space: &Detour,
        _s: &u32,
        _mark: &(),
    ) -> Result<(), OutOfMemory> {
        Ok(())
    }
}

// The question of `least`, through the bounds of any floor of any space.
fn ask<S: Space, F: Floor<S>>(
    alloc: Global,
    space: &S,
    floor: &F,
    from: S::State,
    limit: u32,
) -> Result<LeastAnswer<S::State, F::Mark>, SearchFault> {
    least(alloc, space, floor, from, limit)
}

// What is answered.
#[derive(Clone, Copy)]
enum Answer {
    Found(&'static [ActionId], &'static [Row]),
    Never(&'static [Row]),
    TooMany,
}

use Answer::{Found, Never, TooMany};

fn is(found: Result<LeastAnswer<u32, ()>, SearchFault>, wanted: Answer) -> bool {
    match (found, wanted) {
        (Ok(LeastAnswer::Found(path, rows)), Found(wanted, wanted_rows)) => {
            path.as_slice() == wanted && have(&rows, wanted_rows)
        }
        (Ok(LeastAnswer::Never(rows)), Never(wanted)) => have(&rows, wanted),
        (Err(fault), TooMany) => fault == SearchFault::TooManyStates,
        _ => false,
    }
}

const SHORT_WAY: Answer = Found(
    &[ActionId(1), ActionId(2), ActionId(3), ActionId(4)],
    &[
        (0, S3, false),
        (1, S2, false),
        (5, S2, false),
        (6, S1, false),
        (2, S1, false),
        (3, S0, false),
    ],
);

// 2 and 3 are first reached by the longer way, and expanded again by the shorter. Six states count, and these
// are not counted twice.
#[test]
fn a_shorter_way_opens_states_again(rt: HostRuntime) {
    let rows: [(u32, u32, Answer); 4] = [
        (0, 7, SHORT_WAY),
        (0, 6, SHORT_WAY),
        (0, 5, TooMany),
        (4, 0, Found(&[], &[])),
    ];
    for (from, limit, wanted) in rows {
        let answer = ask(rt.alloc(), &Detour, &HighOnTheShortWay, from, limit);
        assert!(rt; is(answer, wanted), "from {from} with {limit}");
    }
}

// What is answered from 0, where each state but a done one is at least one step from it.
fn answers(alloc: Global, steps: &[(u32, u32)], goal: u32, limit: u32, wanted: Answer) -> bool {
    let graph = Graph { steps, goal };
    is(ask(alloc, &graph, &StepFloor, 0, limit), wanted)
}

// In the last row 1 and 2 wait alike, and 2 was found last. 1 waits to the end, and has its mark.
#[test]
fn states_without_an_end_and_states_that_wait_are_marked(rt: HostRuntime) {
    let rows: [(&[(u32, u32)], u32, u32, Answer); 5] = [
        (
            DEAD_ENDS,
            3,
            3,
            Found(
                &[ActionId(1), ActionId(2), ActionId(3)],
                &[
                    (0, S2, false),
                    (1, S1, false),
                    (10, NEVER, true),
                    (2, S0, false),
                    (11, NEVER, true),
                    (12, NEVER, true),
                ],
            ),
        ),
        (DEAD_ENDS, 3, 2, TooMany),
        (
            DEAD_ENDS,
            9,
            3,
            Never(&[
                (0, NEVER, false),
                (1, NEVER, false),
                (10, NEVER, true),
                (2, NEVER, false),
                (11, NEVER, true),
                (3, NEVER, true),
                (12, NEVER, true),
            ]),
        ),
        (DEAD_ENDS, 9, 2, TooMany),
        (
            TWO_WAYS,
            3,
            2,
            Found(
                &[ActionId(2), ActionId(3)],
                &[(0, S1, false), (1, S0, true), (2, S0, false)],
            ),
        ),
    ];
    for (steps, goal, limit, wanted) in rows {
        let right = answers(rt.alloc(), steps, goal, limit, wanted);
        assert!(rt; right, "{goal} with {limit}");
    }
}
