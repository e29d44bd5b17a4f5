ghost use Rattle.std.specs.Prelude.{◌≡◌, ◌↔◌, ◌*◌, ◌<◌, ◌≤◌, ◌++◌, ◌||◌, ◌⊎◌, List, length, filter, All, IfOk, Contains, IsTrue};
ghost use Rattle.grd_base.specs.declared.ids.ActionId.{ActionId};
ghost use Rattle.grd_base.specs.Bits.{members};
ghost use Rattle.grd_base.specs.Rising.{has_id};
ghost use Rattle.strips_model.specs.Plans.{has_all, set_of};
ghost use Rattle.strips_model.specs.Cuts.{cut};
ghost use Rattle.level_bounds.specs.Floors.{IsFloorOf};
ghost use Rattle.cut_bounds.specs.CutFloors.{AreAdders};
ghost use Rattle.cut_bounds.specs.Zones.{outside, comes_from_outside, IsEnteringBy, IsZoneFor, AreLists, IsTried};

use crate::lists::Lists;
use grd_base::{ActionId, ActionSet, AtomId, Bits, OutOfMemory};
use level_bounds::LevelFloor;
use std::alloc::Global;
use strips_model::{AtomIndex, Task, known_task};

/// Whether no atom of the list is in the zone.
fn is_outside<const W: usize>(zone: &Bits<W>, atoms: &[AtomId]) -> bool
    requires width { W ≤ 64 }
    requires atoms { All (λ a. a.0 < 64 * W) atoms.now }
    ensures { result ≡ has_all (outside (members zone.now)) atoms.now }
{
    for a in atoms {
        if zone.contains(a.0) {
            return false;
        }
    }
    true
}

/// Whether the action needs nothing of the zone.
fn comes_from_outside<const W: usize>(task: &Task, zone: &Bits<W>, a: ActionId) -> bool
    requires width { W ≤ 64 }
    requires atoms { task.now.atoms ≤ 64 * W }
    requires action { a.0 < length task.now.actions }
    ensures { result ≡ comes_from_outside task.now (members zone.now) a }
{
    let action = &task.actions[a.0 as usize];
    is_outside(zone, action.pre.as_slice())
}

/// Adds those of the actions that need nothing of the zone.
fn add_entering<const W: usize>(
    found: &mut Vec<ActionId>,
    task: &Task,
    zone: &Bits<W>,
    actions: &[ActionId],
) -> Result<(), OutOfMemory>
    requires width { W ≤ 64 }
    requires atoms { task.now.atoms ≤ 64 * W }
    requires actions { All (λ a. a.0 < length task.now.actions) actions.now }
    ensures { IfOk result (λ _. found.new.items
        ≡ found.old.items ++ filter (comes_from_outside task.now (members zone.now)) actions.now) }
{
    for a in actions {
        if comes_from_outside(task, zone, *a) {
            found.push(*a)?;
        }
    }
    Ok(())
}

/// The actions that add an atom of the zone and need none, perhaps with repeats.
fn entering<const W: usize>(
    alloc: Global,
    task: &Task,
    level: &LevelFloor,
    adders: &AtomIndex,
    zone: &Bits<W>,
    atoms: &[AtomId],
) -> Result<Vec<ActionId>, OutOfMemory>
    requires width { W ≤ 64 }
    requires wide { task.now.atoms ≤ 64 * W }
    requires adders { AreAdders task.now level.now.removed (length task.now.actions) adders.now }
    requires atoms { All (λ a. a.0 < task.now.atoms) atoms.now }
    ensures { IfOk result (λ found. (a : ActionId) → Contains found.items a
        ↔ IsEnteringBy task.now adders.now (members zone.now) (set_of atoms.now) a) }
{
    let mut found = Vec::new(alloc);
    for n in atoms {
        add_entering(&mut found, task, zone, adders.at(*n))?;
    }
    Ok(found)
}

/// The cut of all that is outside the zone.
fn cut_into<const W: usize>(
    alloc: Global,
    task: &Task,
    level: &LevelFloor,
    adders: &AtomIndex,
    zone: &Bits<W>,
    atoms: &[AtomId],
) -> Result<ActionSet, OutOfMemory>
    requires width { W ≤ 64 }
    requires wide { task.now.atoms ≤ 64 * W }
    requires adders { AreAdders task.now level.now.removed (length task.now.actions) adders.now }
    requires atoms { All (λ a. a.0 < task.now.atoms) atoms.now }
    requires same { members zone.now ≡ set_of atoms.now }
    ensures cut { IfOk result (λ list. (a : ActionId)
        → has_id list a ≡ cut task.now level.now.removed (outside (set_of atoms.now)) a) }
    ensures below { IfOk result (λ list. All (λ a. a.0 < length task.now.actions) list) }
{
    let found = entering(alloc, task, level, adders, zone, atoms)?;
    let list = ActionSet::from_list(alloc, found.as_slice())?;
    Ok(list)
}

/// Puts the cut of all that is outside the zone behind the lists, where it has an action and shares none with
/// them. Answers whether it did.
pub(crate) fn try_zone<const W: usize>(
    alloc: Global,
    task: &Task,
    level: &LevelFloor,
    adders: &AtomIndex,
    s: &Bits<W>,
    zone: &Bits<W>,
    atoms: &[AtomId],
    lists: &mut Lists,
) -> Result<bool, OutOfMemory>
    requires width { W ≤ 64 }
    requires wide { task.now.atoms ≤ 64 * W }
    requires adders { AreAdders task.now level.now.removed (length task.now.actions) adders.now }
    requires atoms { All (λ a. a.0 < task.now.atoms) atoms.now }
    requires same { members zone.now ≡ set_of atoms.now }
    requires zone { IsZoneFor task.now level.now.goal (members s.now) (set_of atoms.now) }
    requires lists { AreLists task.now level.now.goal level.now.removed (members s.now) lists.old.lists.items lists.old.used.items }
    ensures lists { IfOk result
        (λ _. AreLists task.now level.now.goal level.now.removed (members s.now) lists.new.lists.items lists.new.used.items) }
    ensures tried { IfOk result (λ put. IsTried task.now level.now.removed (set_of atoms.now)
        lists.old.lists.items lists.old.used.items lists.new.lists.items lists.new.used.items put) }
{
    let list = cut_into(alloc, task, level, adders, zone, atoms)?;
    let put = lists.put(list)?;
    Ok(put)
}
