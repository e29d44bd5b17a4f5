ghost use Rattle.std.specs.Prelude.{◌≡◌, ℕ, ◌*◌, ◌<◌, ◌≤◌, Option, Some, List, [], ◌∷◌, length, All, IfOk, IfSome, Contains, ◌↔◌, false};
ghost use Rattle.grd_base.specs.declared.ids.ActionId.{ActionId};
ghost use Rattle.grd_base.specs.declared.limits.Bound.{Bound};
ghost use Rattle.grd_base.specs.declared.limits.Bound.TheVariants.{Steps};
ghost use Rattle.grd_base.specs.Bits.{members};
ghost use Rattle.strips_model.specs.Values.{AreAtoms};
ghost use Rattle.strips_model.specs.Plans.{Reaches, IsOver};
ghost use Rattle.strips_model.specs.Cuts.{IsFamily};
ghost use Rattle.strips_model.specs.Levels.{IsLevel};
ghost use Rattle.level_bounds.specs.Floors.{IsFloorOf, MeetsBound};
ghost use Rattle.cut_bounds.specs.CutMarks.{IsCutMark, IsAtLeast, IsAtLeastLevel, AddsOneAtMost, lacking, sets_around, IsEnough};
ghost use Rattle.cut_bounds.specs.CutFloors.{IsCutFloorOf, AreAdders};

use crate::around::family_around;
use crate::goals::{goal_lists, lacks_more};
use crate::landmarks::landmark_lists;
use crate::mark::CutMark;
use crate::rounds::{level_mark, never};
use grd_base::{ActionId, ActionSet, Bits, Bound, GoalId, OutOfMemory};
use level_bounds::{LevelFloor, file};
use std::alloc::Global;
use std::marker::Model;
use strips_model::{AtomIndex, Family, Task, known_task};

/// The level up to which landmark cuts are looked for.
const FEW_ROUNDS: u32 = 30;

/// Cuts before a goal of a task without the removed actions. Each call asks for the task that it was made for.
#[derive(Drop)]
pub struct CutFloor {
    level: LevelFloor,
    adders: AtomIndex,
    needs: Vec<usize>,
}

impl Model for CutFloor {
    ghost use Rattle.cut_bounds.specs.CutFloors.{PlainCutFloor};

    ghost Value = { PlainCutFloor };

    ghost view = { λ floor. record { goal = floor.level.goal; removed = floor.level.removed; level = floor.level; adders = floor.adders; needs = floor.needs.items } };
}

/// The actions of the task that are neither blocked nor removed, by the atoms that they add.
fn adders_of(alloc: Global, task: &Task, removed: &ActionSet) -> Result<AtomIndex, OutOfMemory>
    ensures { IfOk result (AreAdders task.now removed.now (length task.now.actions)) }
{
    let mut idle = Vec::new(alloc);
    let mut adders = AtomIndex::new(alloc, task.atoms)?;
    for (i, action) in task.actions.iter().enumerate() {
        let a = ActionId(i as u32);
        if !action.blocked && !removed.contains(a) {
            file(&mut idle, &mut adders, a, action.add.as_slice())?;
        }
    }
    Ok(adders)
}

/// The lists of the goal's atoms where they are more than the level, else the mark of the level. They are made
/// only where the state lacks so many atoms.
fn more_cuts<const W: usize>(
    alloc: Global,
    task: &Task,
    level: &LevelFloor,
    adders: &AtomIndex,
    s: &Bits<W>,
    rounds: u32,
    mark: CutMark,
) -> Result<(Bound, CutMark), OutOfMemory>
    requires width { W ≤ 64 }
    requires wide { task.now.atoms ≤ 64 * W }
    requires made { IsFloorOf task.now level.now }
    requires adders { AreAdders task.now level.now.removed (length task.now.actions) adders.now }
    requires shows { IsCutMark task.now level.now.goal level.now.removed (members s.now) mark (Steps rounds) }
    requires level { IsLevel task.now level.now.goal level.now.removed (members s.now) (Some rounds) }
    ensures shows { IfOk result
        (λ found. IsCutMark task.now level.now.goal level.now.removed (members s.now) found.1 found.0) }
    ensures level { IfOk result (λ found. IsAtLeastLevel found.0 (Some rounds)) }
    ensures lacking { IfOk result
        (λ found. AddsOneAtMost task.now level.now.removed (lacking task.now level.now.goal (members s.now))
        → IsAtLeast found.0 (length (lacking task.now level.now.goal (members s.now)))) }
{
    if !lacks_more(task, level.goal(), s, rounds) {
        return Ok((Bound::Steps(rounds), mark));
    }
    let lists = goal_lists(alloc, task, level, adders, s)?;
    let count = lists.lists.len() as u32;
    if count <= rounds {
        return Ok((Bound::Steps(rounds), mark));
    }
    Ok((Bound::Steps(count), CutMark { lists: lists.lists }))
}

/// The better of the mark of the level and of the lists of the goal's atoms.
fn layered_cuts<const W: usize>(
    alloc: Global,
    task: &Task,
    level: &LevelFloor,
    adders: &AtomIndex,
    s: &Bits<W>,
) -> Result<(Bound, CutMark), OutOfMemory>
    requires width { W ≤ 64 }
    requires wide { task.now.atoms ≤ 64 * W }
    requires made { IsFloorOf task.now level.now }
    requires adders { AreAdders task.now level.now.removed (length task.now.actions) adders.now }
    ensures shows { IfOk result
        (λ found. IsCutMark task.now level.now.goal level.now.removed (members s.now) found.1 found.0) }
    ensures level { IfOk result (λ found. (rounds : Option ℕ)
        → IsLevel task.now level.now.goal level.now.removed (members s.now) rounds → IsAtLeastLevel found.0 rounds) }
    ensures lacking { IfOk result
        (λ found. AddsOneAtMost task.now level.now.removed (lacking task.now level.now.goal (members s.now))
        → IsAtLeast found.0 (length (lacking task.now level.now.goal (members s.now)))) }
{
    let (bound, mark) = level_mark(alloc, task, level, s)?;
    match bound {
        Bound::Never => Ok((Bound::Never, mark)),
        Bound::Steps(rounds) => {
            let found = more_cuts(alloc, task, level, adders, s, rounds, mark)?;
            Ok(found)
        }
    }
}

/// The landmark cuts, where they are no fewer than the level and the atoms of the goal that the state lacks. They
/// are looked for only where the level is low: each takes a pass back, which on long chains is long.
fn landmark_cuts<const W: usize>(
    alloc: Global,
    task: &Task,
    level: &LevelFloor,
    adders: &AtomIndex,
    needs: &[usize],
    s: &Bits<W>,
    rounds: u32,
) -> Result<Option<(Bound, CutMark)>, OutOfMemory>
    requires width { W ≤ 64 }
    requires wide { task.now.atoms ≤ 64 * W }
    requires made { IsFloorOf task.now level.now }
    requires adders { AreAdders task.now level.now.removed (length task.now.actions) adders.now }
    requires needs { length needs.now ≡ length task.now.actions }
    requires level { IsLevel task.now level.now.goal level.now.removed (members s.now) (Some rounds) }
    ensures shows { IfOk result (λ better. IfSome better
        (λ found. IsCutMark task.now level.now.goal level.now.removed (members s.now) found.1 found.0)) }
    ensures level { IfOk result (λ better. IfSome better (λ found. (rounds : Option ℕ)
        → IsLevel task.now level.now.goal level.now.removed (members s.now) rounds → IsAtLeastLevel found.0 rounds)) }
    ensures lacking { IfOk result (λ better. IfSome better
        (λ found. IsAtLeast found.0 (length (lacking task.now level.now.goal (members s.now))))) }
{
    if rounds > FEW_ROUNDS {
        return Ok(None);
    }
    let lists = landmark_lists(alloc, task, level, adders, needs, s)?;
    let Ok(count) = u32::try_from(lists.lists.len()) else {
        return Ok(None);
    };
    if count < rounds {
        return Ok(None);
    }
    if lacks_more(task, level.goal(), s, count) {
        return Ok(None);
    }
    Ok(Some((Bound::Steps(count), CutMark { lists: lists.lists })))
}

/// How many atoms each action needs.
fn needs_of(alloc: Global, task: &Task) -> Result<Vec<usize>, OutOfMemory>
    ensures { IfOk result (λ needs. length needs.items ≡ length task.now.actions) }
{
    let mut needs = Vec::with_capacity(alloc, task.actions.len())?;
    for action in &task.actions {
        needs.push(action.pre.len())?;
    }
    Ok(needs)
}

impl CutFloor {
    /// The floor of the goal, with the actions of the task by the atoms that they need and that they add.
    pub fn new(
        alloc: Global,
        task: &Task,
        goal: GoalId,
        removed: &ActionSet,
    ) -> Result<CutFloor, OutOfMemory>
        requires goal { goal.0 < length task.now.goals }
        ensures made { IfOk result (IsCutFloorOf task.now) }
        ensures goal { IfOk result (λ floor. floor.goal ≡ goal) }
        ensures removed { IfOk result (λ floor. floor.removed ≡ removed.now) }
    {
        let level = LevelFloor::new(alloc, task, goal, removed)?;
        let adders = adders_of(alloc, task, removed)?;
        let needs = needs_of(alloc, task)?;
        Ok(CutFloor {
            level,
            adders,
            needs,
        })
    }

    /// A bound on the steps from the state to the goal, and lists of actions that show it.
    pub fn cuts_at<const W: usize>(
        &self,
        alloc: Global,
        task: &Task,
        s: &Bits<W>,
    ) -> Result<(Bound, CutMark), OutOfMemory>
        requires made { IsCutFloorOf task.now self.now }
        requires width { W ≤ 64 }
        requires atoms { task.now.atoms ≤ 64 * W }
        ensures shows { IfOk result
            (λ found. IsCutMark task.now self.now.goal self.now.removed (members s.now) found.1 found.0) }
        ensures level { IfOk result (λ found. (level : Option ℕ)
            → IsLevel task.now self.now.goal self.now.removed (members s.now) level → IsAtLeastLevel found.0 level) }
        ensures lacking { IfOk result
            (λ found. AddsOneAtMost task.now self.now.removed (lacking task.now self.now.goal (members s.now))
            → IsAtLeast found.0 (length (lacking task.now self.now.goal (members s.now)))) }
        ensures steps { IfOk result (λ found. (p : List ActionId)
            → Reaches task.now self.now.goal self.now.removed (members s.now) p → MeetsBound found.0 (length p)) }
    {
        known_task(task);
        let (level, adders) = (&self.level, &self.adders);
        let rounds = match level.bound_at(alloc, task, s)? {
            Bound::Never => return Ok((Bound::Never, never(alloc)?)),
            Bound::Steps(rounds) => rounds,
        };
        let needs = self.needs.as_slice();
        let better = landmark_cuts(alloc, task, level, adders, needs, s, rounds)?;
        match better {
            Some(found) => Ok(found),
            None => {
                let found = layered_cuts(alloc, task, level, adders, s)?;
                Ok(found)
            }
        }
    }

    /// For each list of the mark the atoms that are reached around it: sets that prove the bound.
    pub fn family_at<const W: usize>(
        &self,
        alloc: Global,
        task: &Task,
        s: &Bits<W>,
        mark: &CutMark,
    ) -> Result<Family, OutOfMemory>
        requires made { IsCutFloorOf task.now self.now }
        requires width { W ≤ 64 }
        requires atoms { task.now.atoms ≤ 64 * W }
        requires shows { (bound : Bound) × IsCutMark task.now self.now.goal self.now.removed (members s.now) mark.now bound }
        ensures family { IfOk result
            (λ family. IsFamily task.now self.now.goal self.now.removed (members s.now) family) }
        ensures enough { IfOk result (λ family. (bound : Bound)
            → IsCutMark task.now self.now.goal self.now.removed (members s.now) mark.now bound
            → IsEnough task.now self.now.removed family bound) }
        ensures around { IfOk result (λ family. IsOver task.now (members s.now)
            → family ≡ sets_around task.now self.now.removed (members s.now) mark.now) }
        ensures atoms { IfOk result (λ family. IsOver task.now (members s.now)
            → All (AreAtoms task.now.atoms) family) }
    {
        let family = family_around(alloc, task, &self.level, s, mark.lists.as_slice())?;
        Ok(family)
    }
}
