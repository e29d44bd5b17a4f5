ghost use Rattle.std.specs.Prelude.{◌≡◌, ◌*◌, ◌+◌, ◌<◌, ◌≤◌, length, All, IfOk, IfSome, IsTrue};
ghost use Rattle.grd_base.specs.Bits.{members};
ghost use Rattle.grd_base.specs.Sets.{IsSubset};
ghost use Rattle.strips_model.specs.Plans.{set_of};
ghost use Rattle.level_bounds.specs.Floors.{IsFloorOf};
ghost use Rattle.cut_bounds.specs.CutFloors.{AreAdders};
ghost use Rattle.cut_bounds.specs.Costs.{AreCosts, IsGrowing};
ghost use Rattle.cut_bounds.specs.Zones.{AreLists};

use crate::costs::{Costs, costs_from, dearest};
use crate::goals::{atoms_of_goal, no_lists};
use crate::lists::Lists;
use crate::zones::try_zone;
use grd_base::{ActionId, AtomId, Bits, OutOfMemory};
use level_bounds::LevelFloor;
use std::alloc::Global;
use strips_model::{AtomIndex, Task, known_task};

/// Atoms, as bits and as a list.
#[derive(Drop)]
struct Zone<const W: usize> {
    bits: Bits<W>,
    atoms: Vec<AtomId>,
}

impl<const W: usize> Zone<W> {
    /// Adds the atom, where the state lacks it. Answers whether it does.
    fn add(&mut self, task: &Task, s: &Bits<W>, atom: AtomId) -> Result<bool, OutOfMemory>
        requires width { W ≤ 64 }
        requires wide { task.now.atoms ≤ 64 * W }
        requires atom { atom.0 < task.now.atoms }
        requires growing { IsGrowing task.now (members s.now) (members self.old.bits) self.old.atoms.items }
        ensures growing { IfOk result
            (λ _. IsGrowing task.now (members s.now) (members self.new.bits) self.new.atoms.items) }
        ensures keeps { IfOk result (λ _. IsSubset (set_of self.old.atoms.items) (set_of self.new.atoms.items)) }
        ensures added { IfOk result (λ lacks. IsTrue lacks → IsTrue (set_of self.new.atoms.items atom.0)) }
    {
        if s.contains(atom.0) {
            return Ok(false);
        }
        if !self.bits.contains(atom.0) {
            self.bits.insert(atom.0);
            self.atoms.push(atom)?;
        }
        Ok(true)
    }

    /// Adds for each of the actions that is flagged the dearest atom that it needs. Answers whether each has
    /// one that the state lacks.
    fn widen(
        &mut self,
        task: &Task,
        actions: &[ActionId],
        costs: &Costs,
        used: &[bool],
        s: &Bits<W>,
    ) -> Result<bool, OutOfMemory>
        requires width { W ≤ 64 }
        requires wide { task.now.atoms ≤ 64 * W }
        requires actions { All (λ a. a.0 < length task.now.actions) actions.now }
        requires costs { AreCosts task.now costs.now.atoms.items costs.now.actions.items costs.now.fallen.items }
        requires used { length used.now ≡ length task.now.actions }
        requires growing { IsGrowing task.now (members s.now) (members self.old.bits) self.old.atoms.items }
        ensures growing { IfOk result
            (λ _. IsGrowing task.now (members s.now) (members self.new.bits) self.new.atoms.items) }
        ensures keeps { IfOk result (λ _. IsSubset (set_of self.old.atoms.items) (set_of self.new.atoms.items)) }
    {
        known_task(task);
        for a in actions {
            if used[a.0 as usize] {
                let action = &task.actions[a.0 as usize];
                let Some(atom) = dearest(costs.atoms.as_slice(), action.pre.as_slice()) else {
                    return Ok(false);
                };
                if !self.add(task, s, atom)? {
                    return Ok(false);
                }
            }
        }
        Ok(true)
    }
}

/// The atoms from which the atom costs nothing more, by the actions that are flagged: the atom, and for each
/// flagged action that adds one of them the dearest that it needs. None where the state has one of them.
fn zone_before<const W: usize>(
    alloc: Global,
    task: &Task,
    level: &LevelFloor,
    adders: &AtomIndex,
    costs: &Costs,
    used: &[bool],
    s: &Bits<W>,
    atom: AtomId,
) -> Result<Option<Zone<W>>, OutOfMemory>
    requires width { W ≤ 64 }
    requires wide { task.now.atoms ≤ 64 * W }
    requires adders { AreAdders task.now level.now.removed (length task.now.actions) adders.now }
    requires costs { AreCosts task.now costs.now.atoms.items costs.now.actions.items costs.now.fallen.items }
    requires used { length used.now ≡ length task.now.actions }
    requires atom { atom.0 < task.now.atoms }
    ensures { IfOk result (λ found. IfSome found
        (λ zone. IsGrowing task.now (members s.now) (members zone.bits) zone.atoms.items × IsTrue (set_of zone.atoms.items atom.0))) }
{
    let mut zone = Zone {
        bits: Bits::new(),
        atoms: Vec::new(alloc),
    };
    if !zone.add(task, s, atom)? {
        return Ok(None);
    }
    for i in 0..task.atoms as usize {
        if i >= zone.atoms.len() {
            break;
        }
        let next = zone.atoms[i];
        if !zone.widen(task, adders.at(next), costs, used, s)? {
            return Ok(None);
        }
    }
    Ok(Some(zone))
}

/// The actions of the last list cost nothing from now on.
fn take_last(
    task: &Task,
    level: &LevelFloor,
    costs: &mut Costs,
    lists: &Lists,
) -> Result<(), OutOfMemory>
    requires made { IsFloorOf task.now level.now }
    requires costs { AreCosts task.now costs.old.atoms.items costs.old.actions.items costs.old.fallen.items }
    requires used { length lists.now.used.items ≡ length task.now.actions }
    ensures { IfOk result
        (λ _. AreCosts task.now costs.new.atoms.items costs.new.actions.items costs.new.fallen.items) }
{
    let count = lists.lists.len();
    if count > 0 {
        let list = lists.lists[count - 1].as_slice();
        costs.take(task, level, list, lists.used.as_slice())?;
    }
    Ok(())
}

/// Puts one list more, where a zone before the goal's dearest atom gives one. Answers whether it did.
fn put_next<const W: usize>(
    alloc: Global,
    task: &Task,
    level: &LevelFloor,
    adders: &AtomIndex,
    s: &Bits<W>,
    costs: &Costs,
    lists: &mut Lists,
) -> Result<bool, OutOfMemory>
    requires width { W ≤ 64 }
    requires wide { task.now.atoms ≤ 64 * W }
    requires made { IsFloorOf task.now level.now }
    requires adders { AreAdders task.now level.now.removed (length task.now.actions) adders.now }
    requires costs { AreCosts task.now costs.now.atoms.items costs.now.actions.items costs.now.fallen.items }
    requires lists { AreLists task.now level.now.goal level.now.removed (members s.now) lists.old.lists.items lists.old.used.items }
    ensures lists { IfOk result
        (λ _. AreLists task.now level.now.goal level.now.removed (members s.now) lists.new.lists.items lists.new.used.items) }
{
    known_task(task);
    let goal = atoms_of_goal(task, level.goal());
    let Some(atom) = dearest(costs.atoms.as_slice(), goal) else {
        return Ok(false);
    };
    let used = lists.used.as_slice();
    let Some(zone) = zone_before(alloc, task, level, adders, costs, used, s, atom)? else {
        return Ok(false);
    };
    let put = try_zone(
        alloc,
        task,
        level,
        adders,
        s,
        &zone.bits,
        zone.atoms.as_slice(),
        lists,
    )?;
    Ok(put)
}

/// Lists of landmarks: one after another of the actions that lead into a zone before the goal's dearest atom,
/// where the actions of the lists so far cost nothing.
pub(crate) fn landmark_lists<const W: usize>(
    alloc: Global,
    task: &Task,
    level: &LevelFloor,
    adders: &AtomIndex,
    needs: &[usize],
    s: &Bits<W>,
) -> Result<Lists, OutOfMemory>
    requires width { W ≤ 64 }
    requires wide { task.now.atoms ≤ 64 * W }
    requires made { IsFloorOf task.now level.now }
    requires adders { AreAdders task.now level.now.removed (length task.now.actions) adders.now }
    requires needs { length needs.now ≡ length task.now.actions }
    ensures lists { IfOk result
        (λ lists. AreLists task.now level.now.goal level.now.removed (members s.now) lists.lists.items lists.used.items) }
{
    known_task(task);
    let mut lists = no_lists(alloc, task)?;
    let mut costs = costs_from(alloc, task, level, needs, s)?;
    for _i in 0..task.actions.len() {
        if !put_next(alloc, task, level, adders, s, &costs, &mut lists)? {
            break;
        }
        take_last(task, level, &mut costs, &lists)?;
    }
    Ok(lists)
}
