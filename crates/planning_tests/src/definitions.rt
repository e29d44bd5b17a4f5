// What is defined over all plans of a task, by a slow calculation over all sequences straight from the
// words of the definitions: useful actions, best designs, and the worst-case distinctiveness of agents with
// slack and under hidden actions.
use std::alloc::Global;
use std::test::Fail;

// The action that needs and deletes one atom, and adds another.
macro_rules! from_to {
    ($from:literal, $to:literal) => {
        (1 << $from, 1 << $to, 1 << $from)
    };
}

/// A task: the atoms that each action needs, adds and deletes, the initial atoms and those of two goals, as
/// bits.
#[derive(Clone, Copy)]
struct Bare {
    actions: &'static [(u32, u32, u32)],
    start: u32,
    goals: [u32; 2],
}

// From atom 0 to 2 by a and b, and from there by l to 3 and by r to 4; and from 0 by x and y over 5 to 6,
// and from there by l2 to 3.
const TWO: Bare = Bare {
    actions: &[
        from_to!(0, 1),
        from_to!(1, 2),
        from_to!(2, 3),
        from_to!(2, 4),
        from_to!(0, 5),
        from_to!(5, 6),
        from_to!(6, 3),
    ],
    start: 1,
    goals: [8, 16],
};

// The same with another action from 2 to 3.
const THREE: Bare = Bare {
    actions: &[
        from_to!(0, 1),
        from_to!(1, 2),
        from_to!(2, 3),
        from_to!(2, 4),
        from_to!(0, 5),
        from_to!(5, 6),
        from_to!(6, 3),
        from_to!(2, 3),
    ],
    ..TWO
};

// The same with an action back from 5 to 0.
const BACK: Bare = Bare {
    actions: &[
        from_to!(0, 1),
        from_to!(1, 2),
        from_to!(2, 3),
        from_to!(2, 4),
        from_to!(0, 5),
        from_to!(5, 6),
        from_to!(6, 3),
        from_to!(5, 0),
    ],
    ..TWO
};

// a1 makes 1 and 3 of 0, a2 makes 2 and 3 of 0, and s makes 4 of 3. The goals are 1 with 4, and 2 with 4.
const MASK: Bare = Bare {
    actions: &[(1, 10, 1), (1, 12, 1), (8, 16, 8)],
    start: 1,
    goals: [18, 20],
};

/// Some actions, four bits for each, the first lowest, and how many they are.
#[derive(Clone, Copy)]
struct Sequence {
    word: u32,
    length: u32,
}

/// A sequence, and the state to which it leads.
#[derive(Clone, Copy)]
struct Run {
    sequence: Sequence,
    state: u32,
}

const EMPTY: Sequence = Sequence { word: 0, length: 0 };

/// More than the length of any sequence here.
const FAR: u32 = 7;

fn with_action(sequence: Sequence, a: u32) -> Sequence {
    Sequence {
        word: sequence.word | (a % 16) << (sequence.length % FAR * 4),
        length: sequence.length.saturating_add(1),
    }
}

fn has(set: u32, a: u32) -> bool {
    set >> (a % 16) & 1 == 1
}

fn action_at(sequence: Sequence, at: u32) -> u32 {
    sequence.word >> (at % FAR * 4) & 15
}

/// Adds the runs with one action more that is not removed.
fn extend(runs: &mut Vec<Run>, task: Bare, removed: u32, run: Run) -> Result<(), Fail> {
    for (place, (pre, add, del)) in task.actions.iter().enumerate() {
        let a = (place % 16) as u32;
        if !has(removed, a) && run.state & *pre == *pre {
            runs.push(Run {
                sequence: with_action(run.sequence, a),
                state: run.state & !*del | *add,
            })?;
        }
    }
    Ok(())
}

/// All runs of at most five actions without the removed ones.
fn all_runs(alloc: Global, task: Bare, removed: u32) -> Result<Vec<Run>, Fail> {
    let mut runs = vec![in alloc;
        Run {
            sequence: EMPTY,
            state: task.start
        },
    ]?;
    for at in 0..1_000 {
        if at < runs.len() && runs[at].sequence.length < 5 {
            let run = runs[at];
            extend(&mut runs, task, removed, run)?;
        }
    }
    Ok(runs)
}

fn is_plan(run: &Run, goal: u32, most: u32) -> bool {
    run.state & goal == goal && run.sequence.length <= most
}

/// The least length of a plan, or FAR.
fn cost(runs: &[Run], goal: u32) -> u32 {
    let mut least = FAR;
    for run in runs {
        if is_plan(run, goal, least) {
            least = run.sequence.length;
        }
    }
    least
}

/// What is seen of the first actions of a sequence.
fn seen(sequence: Sequence, count: u32, hidden: u32) -> Sequence {
    let mut seen = EMPTY;
    for at in 0..count {
        let a = action_at(sequence, at);
        if !has(hidden, a) {
            seen = with_action(seen, a);
        }
    }
    seen
}

/// The greatest length of what is seen alike of a beginning of each.
fn shared(first: Sequence, second: Sequence, hidden: u32) -> u32 {
    let mut most = 0;
    for i in 0..first.length.saturating_add(1) {
        for j in 0..second.length.saturating_add(1) {
            let (one, other) = (seen(first, i, hidden), seen(second, j, hidden));
            if one.word == other.word && one.length == other.length {
                most = most.max(one.length);
            }
        }
    }
    most
}

/// The greatest length of what two agents share that take so many actions more than their goals cost, or
/// FAR where a goal has no plan.
fn longest(runs: &[Run], task: Bare, slack: u32, hidden: u32) -> u32 {
    let costs = [cost(runs, task.goals[0]), cost(runs, task.goals[1])];
    if costs[0] == FAR || costs[1] == FAR {
        return FAR;
    }
    let mut most = 0;
    for first in runs {
        if is_plan(first, task.goals[0], costs[0].saturating_add(slack)) {
            for second in runs {
                if is_plan(second, task.goals[1], costs[1].saturating_add(slack)) {
                    most = most.max(shared(first.sequence, second.sequence, hidden));
                }
            }
        }
    }
    most
}

/// The actions of the optimal plans of both goals, as bits.
fn useful(runs: &[Run], task: Bare) -> u32 {
    let mut actions = 0;
    for goal in task.goals {
        let least = cost(runs, goal);
        for run in runs {
            if is_plan(run, goal, least) {
                for at in 0..run.sequence.length {
                    actions |= 1u32 << action_at(run.sequence, at) % 16;
                }
            }
        }
    }
    actions
}

/// Of all sets of at most so many actions that keep the costs one with the least worst-case
/// distinctiveness, and then the fewest members: these numbers, and the set.
fn best(alloc: Global, task: Bare, budget: u32) -> Result<(u32, u32, u32), Fail> {
    let runs = all_runs(alloc, task, 0)?;
    let mut best = (FAR, FAR, 0);
    for removed in 0..256u32 {
        let members = removed.count_ones();
        if members <= budget {
            let left = all_runs(alloc, task, removed)?;
            let keeps = cost(left.as_slice(), task.goals[0]) == cost(runs.as_slice(), task.goals[0])
                && cost(left.as_slice(), task.goals[1]) == cost(runs.as_slice(), task.goals[1]);
            let wcd = longest(left.as_slice(), task, 0, 0);
            if keeps && (wcd < best.0 || wcd == best.0 && members < best.1) {
                best = (wcd, members, removed);
            }
        }
    }
    Ok(best)
}

fn sets_of_useful_actions(alloc: Global, task: Bare) -> Result<u32, Fail> {
    let runs = all_runs(alloc, task, 0)?;
    Ok(useful(runs.as_slice(), task).count_ones().saturating_add(1))
}

// Each action of two is useful, so there are eight sets of at most one.
#[test]
fn useful_actions_are_those_of_optimal_plans(rt: HostRuntime) -> Result<(), Fail> {
    for (task, wanted) in [(TWO, 8), (BACK, 8)] {
        assert_eq!(rt; sets_of_useful_actions(rt.alloc(), task)?, wanted);
    }
    Ok(())
}

// Without l the plans of two differ at once. In three that takes l and l3, and one of them alone lowers
// nothing.
#[test]
fn best_designs_leave_the_least(rt: HostRuntime) -> Result<(), Fail> {
    for (task, budget, wanted) in [
        (TWO, 0, (2, 0, 0)),
        (TWO, 1, (0, 1, 1 << 2)),
        (THREE, 1, (2, 0, 0)),
        (THREE, 2, (0, 2, 1 << 2 | 1 << 7)),
    ] {
        assert_eq!(rt; best(rt.alloc(), task, budget)?, wanted, "budget {budget}");
    }
    Ok(())
}

fn shared_of_all(alloc: Global, task: Bare, slack: u32, hidden: u32) -> Result<u32, Fail> {
    let runs = all_runs(alloc, task, 0)?;
    Ok(longest(runs.as_slice(), task, slack, hidden))
}

// With two actions more than a goal costs an agent may go towards l2 and back. Where a1 and a2 are hidden, s
// is seen of both.
#[test]
fn slack_and_hidden_actions_let_agents_share_more(rt: HostRuntime) -> Result<(), Fail> {
    for (task, slack, hidden, wanted) in [
        (BACK, 0, 0, 2),
        (BACK, 1, 0, 2),
        (BACK, 2, 0, 4),
        (MASK, 0, 0, 0),
        (MASK, 0, 3, 1),
    ] {
        assert_eq!(rt;
            shared_of_all(rt.alloc(), task, slack, hidden)?,
            wanted,
            "{slack} {hidden}"
        );
    }
    Ok(())
}
