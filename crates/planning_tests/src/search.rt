use grd_base::{ActionId, Bound, OutOfMemory};
use search_core::{Floor, KeptRow, SearchFault, Space, WithinAnswer, within};
use std::alloc::Global;

// Numbers, with steps between them by a list. The action of a step has the number that it leads to.
#[derive(Drop)]
pub(crate) struct Graph<'a> {
    pub steps: &'a [(u32, u32)],
    pub goal: u32,
}

impl<'a> Space for Graph<'a> {
    type State = u32;

    ghost use Rattle.std.specs.Prelude.{◌≡◌, ◌==◌, Some, None, if◌then◌else◌};
    ghost use Rattle.std.specs.List.{filter_map};
    ghost use Rattle.std.specs.declared.cmp.Ordering.TheVariants.{Equal};
    ghost use Rattle.std.proofs.Common.{sym};
    ghost use Rattle.std.proofs.lemmas.Cmp.{ranked};

    ghost next = { λ graph s. filter_map (λ step. if step.0 == s then Some (record { 0 = step.1 }, step.1) else None) graph.steps.now };

    ghost is_done = { λ graph s. s == graph.goal };

    ghost level = { λ _ _. Some 0 };

    ghost same = { λ x y e. ranked x y Equal (sym e) };

    fn done(&self, s: &u32) -> bool {
        *s == self.goal
    }

    fn successors(&self, alloc: Global, s: &u32) -> Result<Vec<(ActionId, u32)>, OutOfMemory> {
        let from = *s;
        let next = self
            .steps
            .iter()
            .filter_map(|step| {
                if step.0 == from {
                    Some((ActionId(step.1), step.1))
                } else {
                    None
                }
            })
            .collect(alloc)?;
        Ok(next)
    }
}

// A space whose levels are all 0.
pub(crate) trait Flat: Space {
    ghost use Rattle.std.specs.Prelude.{◌≡◌, Some};

    ghost flat: { (space : Self) (s : Self.State) → Self.level space s ≡ Some 0 };
}

impl<'a> Flat for Graph<'a> {
    ghost use Rattle.std.specs.Prelude.{refl};

    ghost flat = { λ _ _. refl };
}

// At least no step.
#[derive(Drop)]
struct ZeroFloor;

impl<S: Flat> Floor<S> for ZeroFloor {
    type Mark = ();

    type Why = ();

    ghost use Rattle.std.specs.Prelude.{◌≡◌};
    ghost use Rattle.grd_base.specs.declared.limits.Bound.TheVariants.{Steps};
    ghost use Rattle.planning_tests.specs.Floors.{zero_admissible};

    ghost shows = { λ _ _ _ _ bound. bound ≡ Steps 0 };

    ghost proves = { λ _ _ _ _ bound. bound ≡ Steps 0 };

    ghost admissible = { λ _ space s _ bound is. zero_admissible (S.next space) (S.is_done space) (S.level space s) s bound (S.flat space s) is };

    fn at_least(
        &self,
        _alloc: Global,
        _space: &S,
        _s: &S::State,
    ) -> Result<(Bound, ()), OutOfMemory> {
        Ok((Bound::Steps(0), ()))
    }

    fn why(
        &self,
        _alloc: Global,
        _space: &S,
        _s: &S::State,
        _mark: &(),
    ) -> Result<(), OutOfMemory> {
        Ok(())
    }
}

// No step from a done state, at least one from any other, and none from one without successors.
#[derive(Drop)]
pub(crate) struct StepFloor;

impl<S: Flat> Floor<S> for StepFloor {
    type Mark = ();

    type Why = ();

    ghost use Rattle.std.specs.Prelude.{◌≡◌, length};
    ghost use Rattle.planning_tests.specs.Floors.{one_step, step_admissible};

    ghost shows = { λ _ space s _ bound. bound ≡ one_step (S.is_done space s) (length (S.next space s)) };

    ghost proves = { λ _ space s _ bound. bound ≡ one_step (S.is_done space s) (length (S.next space s)) };

    ghost admissible = { λ _ space s _ bound is. step_admissible (S.next space) (S.is_done space) (S.level space s) s bound (S.flat space s) is };

    fn at_least(&self, alloc: Global, space: &S, s: &S::State) -> Result<(Bound, ()), OutOfMemory> {
        if space.done(s) {
            return Ok((Bound::Steps(0), ()));
        }
        let steps = space.successors(alloc, s)?;
        if steps.len() == 0 {
            return Ok((Bound::Never, ()));
        }
        Ok((Bound::Steps(1), ()))
    }

    fn why(
        &self,
        _alloc: Global,
        _space: &S,
        _s: &S::State,
        _mark: &(),
    ) -> Result<(), OutOfMemory> {
        Ok(())
    }
}

// The question of `within` from 0, through the bounds of any floor of graphs.
fn ask<'a, F: Floor<Graph<'a>>>(
    alloc: Global,
    graph: &Graph<'a>,
    floor: &F,
    r: u32,
    limit: u32,
) -> Result<WithinAnswer<u32, F::Mark>, SearchFault> {
    within(alloc, graph, floor, 0, r, limit)
}

// A mark's proof, through the bounds of any floor.
fn proof_of<S: Space, F: Floor<S>>(
    alloc: Global,
    space: &S,
    floor: &F,
    s: &S::State,
) -> Result<F::Why, OutOfMemory> {
    let (_bound, mark) = floor.at_least(alloc, space, s)?;
    floor.why(alloc, space, s, &mark)
}

// A row by its state, its bound and whether it has a mark.
pub(crate) type Row = (u32, Bound, bool);

// What is answered.
#[derive(Clone, Copy)]
enum Answer {
    Yes(&'static [ActionId]),
    No(&'static [Row]),
    Never(&'static [Row]),
    TooMany,
}

use Answer::{Never, No, TooMany, Yes};

pub(crate) fn have(rows: &[KeptRow<u32, ()>], wanted: &[Row]) -> bool {
    rows.len() == wanted.len()
        && rows.iter().zip(wanted).all(|(row, wanted)| (row.state, row.bound, row.mark.is_some())
            == *wanted)
}

fn is(found: Result<WithinAnswer<u32, ()>, SearchFault>, wanted: Answer) -> bool {
    match (found, wanted) {
        (Ok(WithinAnswer::Yes(path)), Yes(wanted)) => path.as_slice() == wanted,
        (Ok(WithinAnswer::No(rows)), No(wanted)) => have(&rows, wanted),
        (Ok(WithinAnswer::Never(rows)), Never(wanted)) => have(&rows, wanted),
        (Err(fault), TooMany) => fault == SearchFault::TooManyStates,
        _ => false,
    }
}

// Which floor a search has.
#[derive(Clone, Copy, Debug)]
enum By {
    Zero,
    Step,
}

// Whether the goal lies within r steps of 0 by these steps, where so many states may count.
fn answers(
    alloc: Global,
    steps: &[(u32, u32)],
    goal: u32,
    by: By,
    r: u32,
    limit: u32,
    wanted: Answer,
) -> bool {
    let graph = Graph { steps, goal };
    match by {
        By::Zero => is(ask(alloc, &graph, &ZeroFloor, r, limit), wanted),
        By::Step => is(ask(alloc, &graph, &StepFloor, r, limit), wanted),
    }
}

const RING: &[(u32, u32)] = &[(0, 1), (1, 2), (2, 3), (3, 4), (4, 5), (5, 0)];

// From each of 0, 1 and 2 a step leads on, and one to a state without successors.
pub(crate) const DEAD_ENDS: &[(u32, u32)] = &[(0, 1), (0, 10), (1, 2), (1, 11), (2, 3), (2, 12)];

// Both ways from 0 to 3 have two steps.
pub(crate) const TWO_WAYS: &[(u32, u32)] = &[(0, 1), (0, 2), (1, 3), (2, 3), (3, 4)];

// 2 is a step away from 0, and again by way of 1.
const SHORT_CUT: &[(u32, u32)] = &[(0, 1), (0, 2), (1, 2), (2, 0), (2, 3)];

pub(crate) const S0: Bound = Bound::Steps(0);

pub(crate) const S1: Bound = Bound::Steps(1);

pub(crate) const S2: Bound = Bound::Steps(2);

pub(crate) const S3: Bound = Bound::Steps(3);

pub(crate) const NEVER: Bound = Bound::Never;

// A state on two ways is kept once, and one that is reached again keeps its depth.
#[test]
fn states_are_kept_once_in_their_order(rt: HostRuntime) {
    let rows: [(&[(u32, u32)], u32, u32, u32, Answer); 9] = [
        (RING, 0, 0, 0, Yes(&[])),
        (
            RING,
            4,
            4,
            4,
            Yes(&[ActionId(1), ActionId(2), ActionId(3), ActionId(4)]),
        ),
        (
            RING,
            4,
            3,
            4,
            No(&[
                (0, S3, false),
                (1, S2, false),
                (2, S1, false),
                (3, S0, false),
            ]),
        ),
        (RING, 4, 3, 3, TooMany),
        (
            RING,
            9,
            9,
            6,
            Never(&[
                (0, NEVER, false),
                (1, NEVER, false),
                (2, NEVER, false),
                (3, NEVER, false),
                (4, NEVER, false),
                (5, NEVER, false),
            ]),
        ),
        (RING, 9, 9, 5, TooMany),
        (
            TWO_WAYS,
            4,
            3,
            4,
            Yes(&[ActionId(1), ActionId(3), ActionId(4)]),
        ),
        (
            TWO_WAYS,
            4,
            2,
            4,
            No(&[
                (0, S2, false),
                (1, S1, false),
                (2, S1, false),
                (3, S0, false),
            ]),
        ),
        (
            SHORT_CUT,
            4,
            1,
            3,
            No(&[(0, S1, false), (1, S0, false), (2, S0, false)]),
        ),
    ];
    for (steps, goal, r, limit, wanted) in rows {
        let right = answers(rt.alloc(), steps, goal, By::Zero, r, limit, wanted);
        assert!(rt; right, "{goal} within {r} and {limit}");
    }
}

#[test]
fn dead_ends_are_marked(rt: HostRuntime) {
    let rows: [(u32, u32, u32, Answer); 4] = [
        (3, 3, 3, Yes(&[ActionId(1), ActionId(2), ActionId(3)])),
        (
            3,
            2,
            2,
            No(&[
                (0, S2, false),
                (1, S1, false),
                (10, S1, true),
                (2, S0, true),
                (11, S0, true),
            ]),
        ),
        (3, 2, 1, TooMany),
        (
            9,
            9,
            3,
            Never(&[
                (0, NEVER, false),
                (1, NEVER, false),
                (10, NEVER, true),
                (2, NEVER, false),
                (11, NEVER, true),
                (3, NEVER, true),
                (12, NEVER, true),
            ]),
        ),
    ];
    for (goal, r, limit, wanted) in rows {
        let right = answers(rt.alloc(), DEAD_ENDS, goal, By::Step, r, limit, wanted);
        assert!(rt; right, "{goal} within {r} and {limit}");
    }
}

fn has_proof(alloc: Global, steps: &[(u32, u32)], goal: u32, by: By) -> bool {
    let graph = Graph { steps, goal };
    match by {
        By::Zero => proof_of(alloc, &graph, &ZeroFloor, &0).is_ok(),
        By::Step => proof_of(alloc, &graph, &StepFloor, &0).is_ok(),
    }
}

#[test]
fn marks_have_their_proofs(rt: HostRuntime) {
    for (steps, goal, by) in [(DEAD_ENDS, 9, By::Step), (TWO_WAYS, 4, By::Zero)] {
        assert!(rt; has_proof(rt.alloc(), steps, goal, by), "{by:?}");
    }
}
