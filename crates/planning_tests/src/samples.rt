//! Sample tasks, as plain data.

ghost use Rattle.std.specs.Prelude.{◌≡◌, ℕ, ◌<◌, ◌≤◌, All, IfOk, length, false};
ghost use Rattle.grd_base.specs.Bits.{members};
ghost use Rattle.strips_model.specs.Values.{AreAtoms, IsActionBelow};

use grd_base::{ActionId, ActionSet, AtomId, Bits, GoalId};
use std::alloc::Global;
use std::test::Fail;
use strips_model::{Action, Condition, Task, atoms_of};

/// An action by the numbers of its atoms.
#[derive(Clone, Copy)]
pub(crate) struct Step {
    pub(crate) pre: &'static [u32],
    pub(crate) add: &'static [u32],
    pub(crate) del: &'static [u32],
    pub(crate) blocked: bool,
}

/// A goal by the numbers of its atoms.
#[derive(Clone, Copy)]
pub(crate) struct Target {
    pub(crate) atoms: &'static [u32],
    pub(crate) blocked: bool,
}

/// A task by numbers: at most 64 atoms, 32 actions and 32 goals.
#[derive(Clone, Copy)]
pub(crate) struct Sample {
    pub(crate) atoms: u32,
    pub(crate) init: &'static [u32],
    pub(crate) actions: &'static [Step],
    pub(crate) goals: &'static [Target],
}

// The action from one place to another: it needs and deletes the one atom, and adds the other.
macro_rules! from_to {
    ($from:literal, $to:literal) => {
        Step {
            pre: &[$from],
            add: &[$to],
            del: &[$from],
            blocked: false,
        }
    };
}

// The action that needs the atoms and adds another.
macro_rules! needing {
    ($pre:expr, $to:literal, $blocked:literal) => {
        Step {
            pre: &$pre,
            add: &[$to],
            del: &[],
            blocked: $blocked,
        }
    };
}

// The action that needs atom 0, deletes it, and adds 0 and 1.
macro_rules! keeping {
    ($blocked:literal) => {
        Step {
            pre: &[0],
            add: &[0, 1],
            del: &[0],
            blocked: $blocked,
        }
    };
}

// The goal of these atoms.
macro_rules! all_of {
    ($atoms:expr) => {
        Target {
            atoms: &$atoms,
            blocked: false,
        }
    };
}

/// From atom 0 by action 0 to 1, and by 1 to 2, and from there by 2 to 3 or by 3 to 4. The goals are the
/// two ends.
pub(crate) const FORK: Sample = Sample {
    atoms: 5,
    init: &[0],
    actions: &[
        from_to!(0, 1),
        from_to!(1, 2),
        from_to!(2, 3),
        from_to!(2, 4),
    ],
    goals: &[all_of!([3]), all_of!([4])],
};

/// Fork with another way to its left end, that shares no action with the others: from atom 0 by action 4 to 5,
/// by 5 to 6, and by 6 to 3.
pub(crate) const TWO: Sample = Sample {
    atoms: 7,
    actions: &[
        from_to!(0, 1),
        from_to!(1, 2),
        from_to!(2, 3),
        from_to!(2, 4),
        from_to!(0, 5),
        from_to!(5, 6),
        from_to!(6, 3),
    ],
    ..FORK
};

/// Fork with four goals: its ends, its start, and both ends at once.
pub(crate) const FORK_OF_FOUR: Sample = Sample {
    goals: &[all_of!([3]), all_of!([4]), all_of!([0]), all_of!([3, 4])],
    ..FORK
};

/// Fork with three goals: its ends, and atom 5, to which nothing leads.
pub(crate) const FORK_OF_THREE: Sample = Sample {
    atoms: 6,
    goals: &[all_of!([3]), all_of!([4]), all_of!([5])],
    ..FORK
};

/// Fork with its ends, and with atom 5, to which nothing leads.
pub(crate) const FORK_OF_TWO: Sample = Sample { atoms: 6, ..FORK };

/// Fork with its left end twice.
pub(crate) const FORK_OF_EQUALS: Sample = Sample {
    goals: &[all_of!([3]), all_of!([3])],
    ..FORK_OF_TWO
};

/// Fork with its left end, and a goal to which nothing leads.
pub(crate) const FORK_OF_ONE: Sample = Sample {
    goals: &[all_of!([3]), all_of!([5])],
    ..FORK_OF_TWO
};

/// Fork with two dead ends: from atom 0 by action 4 to 6 or by 5 to 7. Nothing leads to atom 5. The goals
/// are the ends, and both at once: the level of that goal is a number at atoms 0, 1 and 2 alone, and no
/// plan reaches it.
pub(crate) const FORK_WITH_DEAD_ENDS: Sample = Sample {
    atoms: 8,
    init: &[0],
    actions: &[
        from_to!(0, 1),
        from_to!(1, 2),
        from_to!(2, 3),
        from_to!(2, 4),
        from_to!(0, 6),
        from_to!(0, 7),
    ],
    goals: &[all_of!([3]), all_of!([4]), all_of!([3, 4])],
};

/// The same with the start and atom 5 in the place of the ends.
pub(crate) const FORK_WITH_FAR_GOAL: Sample = Sample {
    goals: &[all_of!([0]), all_of!([5]), all_of!([3, 4])],
    ..FORK_WITH_DEAD_ENDS
};

/// The same with atom 1 in the place of the left end.
pub(crate) const FORK_WITH_NEAR_GOAL: Sample = Sample {
    goals: &[all_of!([1]), all_of!([4]), all_of!([3, 4])],
    ..FORK_WITH_DEAD_ENDS
};

/// From atom 0 by action 0 to 1, and by action 1 to 2; from there by action 2 to 3 and by action 3 to 4.
/// Its goals are the atoms 1, 3 and 4.
pub(crate) const LATE_FORK: Sample = Sample {
    atoms: 5,
    init: &[0],
    actions: &[
        from_to!(0, 1),
        from_to!(0, 2),
        from_to!(2, 3),
        from_to!(2, 4),
    ],
    goals: &[all_of!([1]), all_of!([3]), all_of!([4])],
};

/// From atom 0 by action 0 to 1 and by action 1 to 2; from 1 by action 2, and from 2 by action 3, to 3;
/// from 2 by action 4 to 4. Its goals are the atoms 3 and 4.
pub(crate) const TWO_WAYS: Sample = Sample {
    atoms: 5,
    init: &[0],
    actions: &[
        from_to!(0, 1),
        from_to!(0, 2),
        from_to!(1, 3),
        from_to!(2, 3),
        from_to!(2, 4),
    ],
    goals: &[all_of!([3]), all_of!([4])],
};

/// Fork with three goals: its left end, its start and its left end at once, and one with static atoms
/// alone, of which one is false.
pub(crate) const FORK_WITH_SHUT_GOAL: Sample = Sample {
    goals: &[
        all_of!([3]),
        all_of!([0, 3]),
        Target {
            atoms: &[],
            blocked: true,
        },
    ],
    ..FORK
};

/// A goal of two atoms, each added by an action of its own from the start.
pub(crate) const TWO_AT_ONCE: Sample = Sample {
    atoms: 3,
    init: &[0],
    actions: &[needing!([0], 1, false), needing!([0], 2, false)],
    goals: &[Target {
        atoms: &[1, 2],
        blocked: false,
    }],
};

/// Keep: its action needs atom 0, deletes it, and adds 0 and 1, which are its goal. Action 1 and goal 1
/// are the same, but blocked.
pub(crate) const KEEP: Sample = Sample {
    atoms: 2,
    init: &[0],
    actions: &[keeping!(false), keeping!(true)],
    goals: &[
        all_of!([0, 1]),
        Target {
            atoms: &[0, 1],
            blocked: true,
        },
    ],
};

/// From atom 0 by action 0 to 1 and by 1 to 2, and from there by 2 to 3 or by 3 to 4. Action 4 needs
/// nothing, 5 needs atoms 0 and 2, and 6 is blocked. Nothing is deleted, and there is no goal.
pub(crate) const FORK_THAT_KEEPS: Sample = Sample {
    atoms: 5,
    init: &[0],
    actions: &[
        needing!([0], 1, false),
        needing!([1], 2, false),
        needing!([2], 3, false),
        needing!([2], 4, false),
        needing!([], 1, false),
        needing!([0, 2], 4, false),
        needing!([0], 2, true),
    ],
    goals: &[],
};

/// The state that has these atoms alone.
pub(crate) fn state(below: u32, numbers: &[u32]) -> Result<Bits<1>, Fail>
    ensures below { IfOk result (λ _. below ≤ 64) }
    ensures over { IfOk result (λ s. (n : ℕ) → below ≤ n → members s n ≡ false) }
{
    if below > 64 {
        return Err("atoms of one word")?;
    }
    let mut s = Bits::new();
    for n in numbers {
        if *n >= below {
            return Err("a number of an atom")?;
        }
        s.insert(*n);
    }
    Ok(s)
}

/// The atoms of these numbers, rising.
pub(crate) fn atoms(alloc: Global, below: u32, numbers: &[u32]) -> Result<Vec<AtomId>, Fail>
    ensures { IfOk result (λ atoms. AreAtoms below atoms.items) }
{
    let s = state(below, numbers)?;
    Ok(atoms_of(alloc, &s, below)?)
}

fn action(alloc: Global, below: u32, step: &Step) -> Result<Action, Fail>
    ensures { IfOk result (IsActionBelow below) }
{
    Ok(Action {
        pre: atoms(alloc, below, step.pre)?,
        add: atoms(alloc, below, step.add)?,
        del: atoms(alloc, below, step.del)?,
        blocked: step.blocked,
    })
}

fn actions(alloc: Global, below: u32, steps: &[Step]) -> Result<Vec<Action>, Fail>
    ensures below { IfOk result (λ actions. All (IsActionBelow below) actions.items) }
    ensures each { IfOk result (λ actions. length actions.items ≡ length steps.now) }
{
    let mut actions = Vec::new(alloc);
    for step in steps {
        actions.push(action(alloc, below, step)?)?;
    }
    Ok(actions)
}

fn goals(alloc: Global, below: u32, targets: &[Target]) -> Result<Vec<Condition>, Fail>
    ensures below { IfOk result (λ goals. All (λ g. AreAtoms below g.atoms) goals.items) }
    ensures each { IfOk result (λ goals. length goals.items ≡ length targets.now) }
{
    let mut goals = Vec::new(alloc);
    for target in targets {
        goals.push(Condition {
            atoms: atoms(alloc, below, target.atoms)?,
            blocked: target.blocked,
        })?;
    }
    Ok(goals)
}

/// The task of the sample.
pub(crate) fn task(alloc: Global, sample: &Sample) -> Result<Task, Fail>
    ensures atoms { IfOk result (λ task. task.atoms ≤ 64) }
    ensures actions { IfOk result (λ task. length task.actions ≤ 32) }
{
    let below = sample.atoms;
    if below > 64 || sample.actions.len() > 32 || sample.goals.len() > 32 {
        return Err("a small sample")?;
    }
    Ok(Task {
        atoms: below,
        init: atoms(alloc, below, sample.init)?,
        actions: actions(alloc, below, sample.actions)?,
        goals: goals(alloc, below, sample.goals)?,
    })
}

/// The goal of this number, which the task has.
pub(crate) fn goal(task: &Task, number: u32) -> Result<GoalId, Fail>
    ensures { IfOk result (λ goal. goal.0 < length task.now.goals) }
{
    if number as usize >= task.goals.len() {
        return Err("a number of a goal")?;
    }
    Ok(GoalId(number))
}

/// The actions of these numbers, which the task has.
pub(crate) fn actions_of(alloc: Global, task: &Task, numbers: &[u32]) -> Result<Vec<ActionId>, Fail>
    ensures { IfOk result (λ plan. All (λ a. a.0 < length task.now.actions) plan.items) }
{
    let mut plan = Vec::new(alloc);
    for n in numbers {
        if *n as usize >= task.actions.len() {
            return Err("a number of an action")?;
        }
        plan.push(ActionId(*n))?;
    }
    Ok(plan)
}

/// The set of the actions of these numbers.
pub(crate) fn set_of(alloc: Global, numbers: &[u32]) -> Result<ActionSet, Fail> {
    let mut set = ActionSet::new(alloc);
    for n in numbers {
        set = set.with(alloc, ActionId(*n))?;
    }
    Ok(set)
}
