ghost use Rattle.std.specs.Prelude.{◌≡◌, ℕ, ◌*◌, ◌<◌, ◌≤◌, IfOk, false, length};
ghost use Rattle.grd_base.specs.Bits.{members};

use crate::samples::{
    FORK_WITH_DEAD_ENDS, FORK_WITH_FAR_GOAL, FORK_WITH_NEAR_GOAL, Sample, goal, task,
};
use cost_certificate::{Row, TableFault, Why, valid_table};
use grd_base::{ActionId, ActionSet, Bits, GoalId, Limits};
use optimal_search::{CostFound, GoalSearchFault, Oracle, costs};
use search_core::SearchFault;
use std::alloc::Global;
use std::test::Fail;
use strips_model::Task;

const A: ActionId = ActionId(0);

const B: ActionId = ActionId(1);

const L: ActionId = ActionId(2);

const R: ActionId = ActionId(3);

// A search may count so many states.
fn up_to(states: u32) -> Result<Limits, Fail>
    ensures { IfOk result (λ limits. (limits.states ≤ 1000000) × (limits.sets ≤ 1000000)) }
{
    if states > 1000000 {
        return Err("a limit")?;
    }
    Ok(Limits { states, sets: 0 })
}

// What is found of the goals, where each may count so many states.
fn found(
    alloc: Global,
    sample: &Sample,
    states: u32,
) -> Result<Result<Vec<CostFound>, GoalSearchFault>, Fail> {
    let limits = up_to(states)?;
    let task = task(alloc, sample)?;
    Ok(costs(alloc, &task, limits))
}

// What is found of one of three goals: its cost, its plan and how many rows its table has.
type Plain = (Option<u32>, &'static [ActionId], usize);

fn are(found: &[CostFound], wanted: &[Plain]) -> bool {
    found.len() == wanted.len()
        && found.iter().zip(wanted).all(|(one, wanted)| {
            one.cost == wanted.0
                && one.plan.as_slice() == wanted.1
                && one.table.rows.len() == wanted.2
        })
}

fn has_costs(alloc: Global, sample: &Sample, states: u32, wanted: &[Plain]) -> Result<bool, Fail> {
    match found(alloc, sample, states)? {
        Ok(found) => Ok(are(&found, wanted)),
        Err(_) => Ok(false),
    }
}

// Seven states are reached. For each of the two atoms four of them are near, and for both at once three;
// for atom 5 none is. A table has a row for each state that was found before the goal was reached: for one of
// the two atoms those of the three on the way are by steps, those of the other three by cuts.
#[test]
fn costs_have_plans_and_tables(rt: HostRuntime) -> Result<(), Fail> {
    let rows: [(&Sample, u32, &[Plain]); 2] = [
        (
            &FORK_WITH_DEAD_ENDS,
            4,
            &[
                (Some(3), &[A, B, L], 6),
                (Some(3), &[A, B, R], 6),
                (None, &[], 7),
            ],
        ),
        (
            &FORK_WITH_FAR_GOAL,
            3,
            &[(Some(0), &[], 0), (None, &[], 1), (None, &[], 7)],
        ),
    ];
    for (sample, states, wanted) in rows {
        assert!(rt; has_costs(rt.alloc(), sample, states, wanted)?, "{states}");
    }
    Ok(())
}

fn fault(alloc: Global, sample: &Sample, states: u32) -> Result<Option<GoalSearchFault>, Fail> {
    Ok(found(alloc, sample, states)?.err())
}

#[test]
fn goal_that_meets_the_limit_is_told(rt: HostRuntime) -> Result<(), Fail> {
    for (sample, goal) in [
        (&FORK_WITH_DEAD_ENDS, 0),
        (&FORK_WITH_NEAR_GOAL, 1),
        (&FORK_WITH_FAR_GOAL, 2),
    ] {
        let wanted = Some(GoalSearchFault::TooManyStates(GoalId(goal)));
        assert_eq!(rt; fault(rt.alloc(), sample, 2)?, wanted, "goal {goal}");
    }
    Ok(())
}

// What an oracle is asked.
#[derive(Clone, Copy)]
enum Question {
    // What the goal costs.
    Cost,
    // How many steps lead to the goal from where this atom alone is true, where so many suffice.
    Steps(u32, u32),
}

use Question::{Cost, Steps};

// What it answers to a question.
type Answer = Result<Option<usize>, SearchFault>;

fn cost<const W: usize>(alloc: Global, oracle: &mut Oracle<W>) -> Answer
    ensures task { oracle.new.task ≡ oracle.old.task }
    ensures count { oracle.new.task.atoms ≡ oracle.old.task.atoms }
{
    let cost = oracle.cost(alloc)?;
    Ok(cost.map(|cost| cost as usize))
}

// The state in which this atom alone is true, where there is one.
fn only<const W: usize>(below: u32, atom: u32) -> Bits<W>
    requires width { W ≤ 64 }
    requires atoms { below ≤ 64 * W }
    ensures { (n : ℕ) → below ≤ n → members result n ≡ false }
{
    let mut s = Bits::new();
    if atom < below {
        s.insert(atom);
    }
    s
}

fn steps<const W: usize>(
    alloc: Global,
    oracle: &mut Oracle<W>,
    below: u32,
    atom: u32,
    most: u32,
) -> Answer
    requires width { W ≤ 64 }
    requires atoms { below ≤ 64 * W }
    requires count { oracle.old.task.atoms ≡ below }
    ensures task { oracle.new.task ≡ oracle.old.task }
    ensures count { oracle.new.task.atoms ≡ oracle.old.task.atoms }
{
    let s = only::<W>(below, atom);
    let path = oracle.within(alloc, &s, most)?;
    Ok(path.map(|path| path.len()))
}

fn answer<const W: usize>(
    alloc: Global,
    oracle: &mut Oracle<W>,
    below: u32,
    question: Question,
) -> Answer
    requires width { W ≤ 64 }
    requires atoms { below ≤ 64 * W }
    requires count { oracle.old.task.atoms ≡ below }
    ensures task { oracle.new.task ≡ oracle.old.task }
    ensures count { oracle.new.task.atoms ≡ oracle.old.task.atoms }
{
    match question {
        Cost => cost(alloc, oracle),
        Steps(atom, most) => steps(alloc, oracle, below, atom, most),
    }
}

// Whether the question has this answer.
fn is_answered<const W: usize>(
    alloc: Global,
    oracle: &mut Oracle<W>,
    below: u32,
    question: Question,
    wanted: Answer,
) -> bool
    requires width { W ≤ 64 }
    requires atoms { below ≤ 64 * W }
    requires count { oracle.old.task.atoms ≡ below }
    ensures task { oracle.new.task ≡ oracle.old.task }
    ensures count { oracle.new.task.atoms ≡ oracle.old.task.atoms }
{
    answer(alloc, oracle, below, question) == wanted
}

// Whether the questions, one after the other, have these answers.
fn right<const W: usize>(
    alloc: Global,
    oracle: &mut Oracle<W>,
    below: u32,
    questions: &[(Question, Answer)],
) -> bool
    requires width { W ≤ 64 }
    requires atoms { below ≤ 64 * W }
    requires count { oracle.old.task.atoms ≡ below }
    ensures { oracle.new.task ≡ oracle.old.task }
{
    let mut right = true;
    for (question, wanted) in questions {
        right = is_answered(alloc, oracle, below, *question, *wanted) && right;
    }
    right
}

// What is asked of an oracle: the goal, the removed actions, how many states a question may count, and
// questions with their answers.
#[derive(Clone, Copy)]
struct Asked {
    goal: u32,
    removed: &'static [ActionId],
    states: u32,
    questions: &'static [(Question, Answer)],
}

// Whether the questions are answered so, how many rows are kept, how many of these by steps, and their first
// fault.
type Kept = (bool, usize, usize, Option<TableFault>);

// How many rows are by steps.
fn by_steps(rows: &[Row]) -> usize {
    rows.iter()
        .filter(|row| matches!(row.why, Why::Steps))
        .count()
}

// What an oracle keeps that was asked.
fn kept_by<const W: usize>(
    alloc: Global,
    task: &Task,
    goal: GoalId,
    removed: &ActionSet,
    asked: &Asked,
) -> Result<Kept, Fail>
    requires width { (1 ≤ W) × (W ≤ 64) }
    requires atoms { task.now.atoms ≤ 64 }
    requires goal { goal.0 < length task.now.goals }
{
    let limits = up_to(asked.states)?;
    let mut oracle = Oracle::<W>::new(alloc, task, goal, removed, limits)?;
    let right = right(alloc, &mut oracle, task.atoms, asked.questions);
    let table = oracle.table(alloc)?;
    let fault = valid_table(alloc, task, goal, removed, &table)?;
    Ok((right, table.rows.len(), by_steps(&table.rows), fault))
}

// The same of fork with dead ends.
fn kept<const W: usize>(alloc: Global, asked: &Asked) -> Result<Kept, Fail>
    requires { (1 ≤ W) × (W ≤ 64) }
{
    let task = task(alloc, &FORK_WITH_DEAD_ENDS)?;
    let goal = goal(&task, asked.goal)?;
    let removed = ActionSet::from_list(alloc, asked.removed)?;
    kept_by::<W>(alloc, &task, goal, &removed, asked)
}

// Without B no state is near. For both atoms at once three are, and as many count within four steps. Within three
// steps none is expanded: from the start four actions are needed, each a cut of its own, and from atom 1 three. So
// these two states have rows, both by cuts.
#[test]
fn oracle_keeps_a_valid_table(rt: HostRuntime) -> Result<(), Fail> {
    let rows: [(Asked, usize, usize); 4] = [
        (
            Asked {
                goal: 0,
                removed: &[],
                states: 4,
                questions: &[(Cost, Ok(Some(3))), (Cost, Ok(Some(3)))],
            },
            6,
            3,
        ),
        (
            Asked {
                goal: 1,
                removed: &[B],
                states: 0,
                questions: &[(Cost, Ok(None))],
            },
            1,
            0,
        ),
        (
            Asked {
                goal: 0,
                removed: &[],
                states: 4,
                questions: &[
                    (Steps(0, 2), Ok(None)),
                    (Steps(0, 2), Ok(None)),
                    (Steps(1, 1), Ok(None)),
                    (Steps(0, 3), Ok(Some(3))),
                    (Steps(2, 7), Ok(Some(1))),
                    (Steps(3, 0), Ok(Some(0))),
                    (Steps(4, u32::MAX), Ok(None)),
                ],
            },
            3,
            0,
        ),
        (
            Asked {
                goal: 2,
                removed: &[],
                states: 2,
                questions: &[
                    (Cost, Err(SearchFault::TooManyStates)),
                    (Steps(0, 4), Err(SearchFault::TooManyStates)),
                    (Steps(0, 3), Ok(None)),
                    (Steps(1, 2), Ok(None)),
                ],
            },
            2,
            0,
        ),
    ];
    for (asked, count, by_steps) in rows {
        let wanted = (true, count, by_steps, None);
        assert_eq!(rt; kept::<1>(rt.alloc(), &asked)?, wanted);
        assert_eq!(rt; kept::<2>(rt.alloc(), &asked)?, wanted);
    }
    Ok(())
}
