ghost use Rattle.std.specs.Prelude.{◌≡◌, ◌*◌, ◌<◌, ◌≤◌, length, IfOk};
ghost use Rattle.grd_base.specs.declared.limits.Bound.{Bound};
ghost use Rattle.grd_base.specs.Bits.{members};
ghost use Rattle.strips_model.specs.Plans.{IsOver};
ghost use Rattle.strips_model.specs.Values.{AreAtoms};
ghost use Rattle.cut_bounds.specs.CutMarks.{IsCutMark, sets_around};

use crate::actions::TaskActions;
use cut_bounds::{CutFloor, CutMark};
use grd_base::{ActionId, ActionSet, Bits, Bound, GoalId, OutOfMemory, packed, whole};
use search_core::{Floor, Space};
use std::alloc::Global;
use std::marker::Model;
use strips_model::{Family, Task, apply_in, holds, known_task};
use succ_table::SuccTable;

/// The space of a task, a goal and removed actions: its states are those of the task, its steps are by
/// actions that are not removed, its done states are those in which the goal holds, and its levels are
/// those of the goal.
#[derive(Drop)]
pub struct TaskSpace<'t, const W: usize> {
    task: &'t Task,
    goal: GoalId,
    removed: &'t ActionSet,
    actions: TaskActions<'t>,
    floor: CutFloor,
}

impl<'t, const W: usize> Model for TaskSpace<'t, W> {
    ghost use Rattle.optimal_search.specs.Space.{PlainSpace, IsSpaceOf, task_in};

    ghost Value = { PlainSpace };

    ghost view = { λ space. record { task = space.task.now; goal = space.goal; removed = space.removed.now } };

    ghost invariant = { λ space. IsSpaceOf W space.task.now space.goal space.removed.now (task_in space.actions) space.floor };
}

impl<'t, const W: usize> TaskSpace<'t, W> {
    /// The space, with the table of the task and the floor of the goal.
    pub fn new(
        alloc: Global,
        task: &'t Task,
        goal: GoalId,
        removed: &'t ActionSet,
    ) -> Result<TaskSpace<'t, W>, OutOfMemory>
        requires width { W ≤ 64 }
        requires atoms { task.now.atoms ≤ 64 * W }
        requires goal { goal.0 < length task.now.goals }
        ensures task { IfOk result (λ space. space.task ≡ task.now) }
        ensures goal { IfOk result (λ space. space.goal ≡ goal) }
        ensures removed { IfOk result (λ space. space.removed ≡ removed.now) }
    {
        let actions = TaskActions::Own(SuccTable::build(alloc, task)?);
        let floor = CutFloor::new(alloc, task, goal, removed)?;
        Ok(TaskSpace {
            task,
            goal,
            removed,
            actions,
            floor,
        })
    }

    /// The space of the task of a table that is lent, with the floor of the goal.
    pub fn with_table(
        alloc: Global,
        table: &'t SuccTable<'t>,
        goal: GoalId,
        removed: &'t ActionSet,
    ) -> Result<TaskSpace<'t, W>, OutOfMemory>
        requires width { W ≤ 64 }
        requires atoms { table.now.atoms ≤ 64 * W }
        requires goal { goal.0 < length table.now.goals }
        ensures task { IfOk result (λ space. space.task ≡ table.now) }
        ensures goal { IfOk result (λ space. space.goal ≡ goal) }
        ensures removed { IfOk result (λ space. space.removed ≡ removed.now) }
    {
        let task = table.task();
        let floor = CutFloor::new(alloc, task, goal, removed)?;
        Ok(TaskSpace {
            task,
            goal,
            removed,
            actions: TaskActions::Lent(table),
            floor,
        })
    }

    /// The task, whose atoms fit into a state.
    pub fn task(&self) -> &'t Task
        ensures same { result.now ≡ self.now.task }
        ensures width { W ≤ 64 }
        ensures atoms { self.now.task.atoms ≤ 64 * W }
    {
        self.task
    }

    /// For each list of the mark the atoms that are reached around it, from a state of the task.
    pub(crate) fn family_at(
        &self,
        alloc: Global,
        s: &Bits<W>,
        mark: &CutMark,
    ) -> Result<Family, OutOfMemory>
        requires over { IsOver self.now.task (members s.now) }
        requires shows { (bound : Bound) × IsCutMark self.now.task self.now.goal self.now.removed (members s.now) mark.now bound }
        ensures { IfOk result
            (λ family. family ≡ sets_around self.now.task self.now.removed (members s.now) mark.now) }
    {
        self.floor.family_at(alloc, self.task, s, mark)
    }
}

impl<'t, const W: usize> Space for TaskSpace<'t, W> {
    type State = Bits<W>;

    ghost use Rattle.optimal_search.specs.Space.{successors_of, holds_in, level_in};
    ghost use Rattle.optimal_search.specs.Floors.{bits_same};

    ghost next = { λ space s. successors_of space.task space.removed s };

    ghost is_done = { λ space s. holds_in space.task space.goal s };

    ghost level = { λ space s. level_in space.task space.goal space.removed s };

    ghost same = { bits_same };

    fn done(&self, s: &Bits<W>) -> bool {
        holds(self.task, s, self.goal)
    }

    fn successors(
        &self,
        alloc: Global,
        s: &Bits<W>,
    ) -> Result<Vec<(ActionId, Bits<W>)>, OutOfMemory> {
        packed::<W>();
        let found = self.actions.applicable(alloc, s, self.removed)?;
        let mut steps = Vec::with_capacity(alloc, found.len())?;
        for a in &found {
            let mut next = *s;
            apply_in(self.task, &mut next, *a);
            whole(&next);
            steps.push((*a, next))?;
        }
        Ok(steps)
    }
}

/// The floor of a space: lists of actions, one of each on every way to its goal. It asks the floor that the
/// space keeps.
#[derive(Drop)]
pub struct SpaceFloor;

impl<'t, const W: usize> Floor<TaskSpace<'t, W>> for SpaceFloor {
    type Mark = CutMark;

    type Why = Family;

    ghost use Rattle.optimal_search.specs.Floors.{ShowsBound, ProvesBound, bound_admissible};

    ghost shows = { λ _ space s mark bound. ShowsBound space.task space.goal space.removed s mark bound };

    ghost proves = { λ _ space s family bound. ProvesBound space.task space.goal space.removed s family bound };

    ghost admissible = { λ _ space s mark bound is. bound_admissible _ _ _ s mark bound is };

    fn at_least(
        &self,
        alloc: Global,
        space: &TaskSpace<'t, W>,
        s: &Bits<W>,
    ) -> Result<(Bound, CutMark), OutOfMemory> {
        known_task(space.task);
        whole(s);
        space.floor.cuts_at(alloc, space.task, s)
    }

    fn why(
        &self,
        alloc: Global,
        space: &TaskSpace<'t, W>,
        s: &Bits<W>,
        mark: &CutMark,
    ) -> Result<Family, OutOfMemory> {
        known_task(space.task);
        space.floor.family_at(alloc, space.task, s, mark)
    }
}
