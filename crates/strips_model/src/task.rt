ghost use Rattle.std.specs.Prelude.{◌*◌, ◌≤◌};
ghost use Rattle.strips_model.specs.Values.{IsTask};

use grd_base::AtomId;
use std::marker::Model;

/// A ground action. In a task each list rises and names atoms of the task.
#[derive(Debug, Drop)]
pub struct Action {
    /// The atoms that have to be true for the action to apply.
    pub pre: Vec<AtomId>,
    /// The atoms that are true afterwards, those that are deleted as well among them.
    pub add: Vec<AtomId>,
    /// The atoms that are false afterwards, but for those that are added.
    pub del: Vec<AtomId>,
    /// Whether a static precondition is false. A blocked action never applies.
    pub blocked: bool,
}

impl Model for Action {
    ghost use Rattle.strips_model.specs.Values.{GroundAction};

    ghost Value = { GroundAction };

    ghost view = { λ a. record { pre = a.pre.items; add = a.add.items; del = a.del.items; blocked = a.blocked } };
}

/// A goal. In a task its list rises and names atoms of the task.
#[derive(Debug, Drop)]
pub struct Condition {
    /// The atoms that have to be true.
    pub atoms: Vec<AtomId>,
    /// Whether a static atom of the goal is false. A blocked goal never holds.
    pub blocked: bool,
}

impl Model for Condition {
    ghost use Rattle.strips_model.specs.Values.{Goal};

    ghost Value = { Goal };

    ghost view = { λ c. record { atoms = c.atoms.items; blocked = c.blocked } };
}

/// A task: at most 4,096 atoms, 2,097,152 actions and 32 goals, whose lists rise and name atoms
/// of the task.
#[derive(Debug, Drop)]
pub struct Task {
    /// How many atoms there are. They are numbered from 0.
    pub atoms: u32,
    /// The atoms that are true at the start, rising.
    pub init: Vec<AtomId>,
    /// The actions: an action's number is its place here, from 0.
    pub actions: Vec<Action>,
    /// The goals: a goal's number is its place here, from 0.
    pub goals: Vec<Condition>,
}

impl Model for Task {
    ghost use Rattle.strips_model.specs.Values.{PlainTask, IsTask};

    ghost Value = { PlainTask };

    ghost view = { λ t. record { atoms = t.atoms; init = t.init.items; actions = t.actions.items; goals = t.goals.items } };

    ghost invariant = { λ t. IsTask (record { atoms = t.atoms; init = t.init.items; actions = t.actions.items; goals = t.goals.items }) };
}

/// The widest bit sets hold the atoms of any task.
pub fn fits(task: &Task)
    ensures { task.now.atoms ≤ 64 * 64 }
{
    let _atoms = task.atoms;
}

/// What holds of every task holds of this one.
pub fn known_task(task: &Task)
    ensures { IsTask task.now }
{
    let _atoms = task.atoms;
}
