ghost use Rattle.std.specs.Prelude.{◌≡◌, ◌*◌, ◌<◌, ◌≤◌, ◌++◌, false, List, length, All, IsTrue, IfOk};
ghost use Rattle.grd_base.specs.declared.ids.ActionId.{ActionId};
ghost use Rattle.grd_base.specs.Bits.{members};
ghost use Rattle.strips_model.specs.Values.{AreAtoms};
ghost use Rattle.strips_model.specs.Plans.{Reaches, IsOver};
ghost use Rattle.strips_model.specs.Cuts.{IsFamily};
ghost use Rattle.strips_model.specs.Levels.{IsLevel, grown, after_rounds, missing};
ghost use Rattle.level_bounds.specs.Floors.{IsFloorOf, level_of, MeetsBound, ShowsLevel};
ghost use Rattle.level_bounds.specs.Waves.{AreReady};

use crate::wave::{Wave, add_needing_state, file, grow, needing, others};
use grd_base::{ActionId, ActionSet, Bits, Bound, GoalId, OutOfMemory, members_below};
use std::alloc::Global;
use std::marker::Model;
use strips_model::{AtomIndex, Family, Task, atoms_of, holds, known_task};

/// Levels of a goal of a task without the removed actions. Each call asks for the task that it was made for.
#[derive(Drop)]
pub struct LevelFloor {
    goal: GoalId,
    removed: ActionSet,
    free: Vec<ActionId>,
    needed_by: AtomIndex,
}

impl Model for LevelFloor {
    ghost use Rattle.level_bounds.specs.Floors.{PlainFloor};

    ghost Value = { PlainFloor };

    ghost view = { λ floor. record { goal = floor.goal; removed = floor.removed; free = floor.free.items; needed_by = floor.needed_by } };
}

impl LevelFloor {
    /// The floor of the goal, with the actions of the task by the atoms that they need.
    pub fn new(
        alloc: Global,
        task: &Task,
        goal: GoalId,
        removed: &ActionSet,
    ) -> Result<LevelFloor, OutOfMemory>
        requires goal { goal.0 < length task.now.goals }
        ensures made { IfOk result (IsFloorOf task.now) }
        ensures goal { IfOk result (λ floor. floor.goal ≡ goal) }
        ensures removed { IfOk result (λ floor. floor.removed ≡ removed.now) }
    {
        let mut free = Vec::new(alloc);
        let mut needed_by = AtomIndex::new(alloc, task.atoms)?;
        for (i, action) in task.actions.iter().enumerate() {
            let a = ActionId(i as u32);
            if !action.blocked && !removed.contains(a) {
                file(&mut free, &mut needed_by, a, action.pre.as_slice())?;
            }
        }
        let removed = removed.try_clone(alloc)?;
        Ok(LevelFloor {
            goal,
            removed,
            free,
            needed_by,
        })
    }

    /// The goal.
    pub fn goal(&self) -> GoalId
        ensures { result ≡ self.now.goal }
    {
        self.goal
    }

    /// The actions that may not be used.
    pub fn removed(&self) -> &ActionSet
        ensures { result.now ≡ self.now.removed }
    {
        &self.removed
    }

    /// The actions that need nothing.
    pub fn free(&self) -> &[ActionId]
        ensures { result.now ≡ self.now.free }
    {
        self.free.as_slice()
    }

    /// The actions by the atoms that they need.
    pub fn needed_by(&self) -> &AtomIndex
        ensures { result.now ≡ self.now.needed_by }
    {
        &self.needed_by
    }

    /// The level of the goal at the state, and `Never` where it has none.
    pub fn bound_at<const W: usize>(
        &self,
        alloc: Global,
        task: &Task,
        s: &Bits<W>,
    ) -> Result<Bound, OutOfMemory>
        requires made { IsFloorOf task.now self.now }
        requires width { W ≤ 64 }
        requires atoms { task.now.atoms ≤ 64 * W }
        ensures level { IfOk result
            (λ bound. IsLevel task.now self.now.goal self.now.removed (members s.now) (level_of bound)) }
        ensures steps { IfOk result (λ bound. (p : List ActionId)
            → Reaches task.now self.now.goal self.now.removed (members s.now) p → MeetsBound bound (length p)) }
    {
        let mut wave = self.first(alloc, task, s)?;
        let mut rounds = 0;
        while !holds(task, &wave.reached, self.goal) {
            if !self.advance(alloc, task, &mut wave)? {
                return Ok(Bound::Never);
            }
            rounds += 1;
        }
        Ok(Bound::Steps(rounds))
    }

    /// Sets that show the level of the goal at the state: those that are reached in the rounds before the
    /// goal holds; where it never does, the one that is reached in the end.
    pub fn family_at<const W: usize>(
        &self,
        alloc: Global,
        task: &Task,
        s: &Bits<W>,
    ) -> Result<Family, OutOfMemory>
        requires made { IsFloorOf task.now self.now }
        requires width { W ≤ 64 }
        requires atoms { task.now.atoms ≤ 64 * W }
        ensures family { IfOk result
            (λ family. IsFamily task.now self.now.goal self.now.removed (members s.now) family) }
        ensures level { IfOk result
            (λ family. ShowsLevel task.now self.now.goal self.now.removed (members s.now) family) }
        ensures atoms { IfOk result (λ family. IsOver task.now (members s.now)
            → All (AreAtoms task.now.atoms) family) }
    {
        known_task(task);
        let mut wave = self.first(alloc, task, s)?;
        let mut sets = Vec::new(alloc);
        while !holds(task, &wave.reached, self.goal) {
            members_below(&wave.reached);
            let set = atoms_of(alloc, &wave.reached, 64 * W as u32)?;
            if !self.advance(alloc, task, &mut wave)? {
                return Ok(Family {
                    sets: vec![in alloc; set]?,
                });
            }
            sets.push(set)?;
        }
        Ok(Family { sets })
    }

    /// The atoms that are reached from the state, where nothing is deleted, without the removed actions and
    /// those of the list.
    pub fn reached_around<const W: usize>(
        &self,
        alloc: Global,
        task: &Task,
        s: &Bits<W>,
        list: &ActionSet,
    ) -> Result<Bits<W>, OutOfMemory>
        requires made { IsFloorOf task.now self.now }
        requires width { W ≤ 64 }
        requires atoms { task.now.atoms ≤ 64 * W }
        ensures { IfOk result (λ reached. members reached
            ≡ after_rounds task.now (list.now ++ self.now.removed) (members s.now) task.now.atoms) }
    {
        known_task(task);
        let mut wave = self.first(alloc, task, s)?;
        wave.candidates = others(alloc, wave.candidates.as_slice(), list)?;
        while self.advance_around(alloc, task, &mut wave, list)? {}
        Ok(wave.reached)
    }

    /// One round without the actions of the list. Answers whether it reached an atom.
    fn advance_around<const W: usize>(
        &self,
        alloc: Global,
        task: &Task,
        wave: &mut Wave<W>,
        list: &ActionSet,
    ) -> Result<bool, OutOfMemory>
        requires made { IsFloorOf task.now self.now }
        requires width { W ≤ 64 }
        requires atoms { task.now.atoms ≤ 64 * W }
        requires ready { AreReady task.now (list.now ++ self.now.removed) (members wave.old.reached) wave.old.candidates.items }
        ensures round { IfOk result (λ _. members wave.new.reached
            ≡ grown task.now (list.now ++ self.now.removed) (members wave.old.reached)) }
        ensures ready { IfOk result
            (λ _. AreReady task.now (list.now ++ self.now.removed) (members wave.new.reached) wave.new.candidates.items) }
        ensures more { IfOk result (λ more. IsTrue more
            → missing (members wave.new.reached) task.now.atoms < missing (members wave.old.reached) task.now.atoms) }
        ensures closed { IfOk result
            (λ more. more ≡ false → members wave.new.reached ≡ members wave.old.reached) }
    {
        let growth = grow(alloc, task, wave)?;
        let more = !growth.fresh.is_empty();
        let needing = needing(alloc, &self.needed_by, growth.fresh.as_slice())?;
        wave.candidates = others(alloc, needing.as_slice(), list)?;
        wave.reached = growth.reached;
        Ok(more)
    }

    /// The state before the first round.
    pub fn first<const W: usize>(
        &self,
        alloc: Global,
        task: &Task,
        s: &Bits<W>,
    ) -> Result<Wave<W>, OutOfMemory>
        requires made { IsFloorOf task.now self.now }
        requires width { W ≤ 64 }
        requires atoms { task.now.atoms ≤ 64 * W }
        ensures reached { IfOk result (λ wave. wave.reached ≡ s.now) }
        ensures ready { IfOk result
            (λ wave. AreReady task.now self.now.removed (members s.now) wave.candidates.items) }
    {
        let mut candidates = Vec::from_slice(alloc, self.free.as_slice())?;
        add_needing_state(&mut candidates, &self.needed_by, s, task.atoms)?;
        Ok(Wave {
            reached: *s,
            candidates,
        })
    }

    /// One round. Answers whether it reached an atom.
    pub fn advance<const W: usize>(
        &self,
        alloc: Global,
        task: &Task,
        wave: &mut Wave<W>,
    ) -> Result<bool, OutOfMemory>
        requires made { IsFloorOf task.now self.now }
        requires width { W ≤ 64 }
        requires atoms { task.now.atoms ≤ 64 * W }
        requires ready { AreReady task.now self.now.removed (members wave.old.reached) wave.old.candidates.items }
        ensures round { IfOk result (λ _. members wave.new.reached
            ≡ grown task.now self.now.removed (members wave.old.reached)) }
        ensures ready { IfOk result
            (λ _. AreReady task.now self.now.removed (members wave.new.reached) wave.new.candidates.items) }
        ensures more { IfOk result (λ more. IsTrue more
            → missing (members wave.new.reached) task.now.atoms < missing (members wave.old.reached) task.now.atoms) }
        ensures closed { IfOk result
            (λ more. more ≡ false → members wave.new.reached ≡ members wave.old.reached) }
    {
        let growth = grow(alloc, task, wave)?;
        let more = !growth.fresh.is_empty();
        wave.candidates = needing(alloc, &self.needed_by, growth.fresh.as_slice())?;
        wave.reached = growth.reached;
        Ok(more)
    }
}
