ghost use Rattle.std.specs.Prelude.{◌≡◌, ◌*◌, ◌<◌, ◌≤◌, [], ◌∷◌, false, length, IfOk, IsTrue};
ghost use Rattle.grd_base.specs.Bits.{members};
ghost use Rattle.strips_model.specs.Plans.{set_of};
ghost use Rattle.level_bounds.specs.Floors.{IsFloorOf};
ghost use Rattle.cut_bounds.specs.CutMarks.{goal_atoms, lacking};
ghost use Rattle.cut_bounds.specs.CutFloors.{AreAdders};
ghost use Rattle.cut_bounds.specs.Zones.{AreNoLists, AreLists, IsTried, IsCovering};

use crate::lists::Lists;
use crate::zones::try_zone;
use grd_base::{AtomId, Bits, GoalId, OutOfMemory};
use level_bounds::LevelFloor;
use std::alloc::Global;
use strips_model::{AtomIndex, Task, known_task};

/// Tries the zone of one atom of the goal that the state lacks. Answers whether its list was put.
fn try_atom<const W: usize>(
    alloc: Global,
    task: &Task,
    level: &LevelFloor,
    adders: &AtomIndex,
    s: &Bits<W>,
    atom: AtomId,
    lists: &mut Lists,
) -> Result<bool, OutOfMemory>
    requires width { W ≤ 64 }
    requires wide { task.now.atoms ≤ 64 * W }
    requires adders { AreAdders task.now level.now.removed (length task.now.actions) adders.now }
    requires atom { atom.0 < task.now.atoms }
    requires of_goal { IsTrue (set_of (goal_atoms task.now level.now.goal) atom.0) }
    requires lacks { members s.now atom.0 ≡ false }
    requires lists { AreLists task.now level.now.goal level.now.removed (members s.now) lists.old.lists.items lists.old.used.items }
    ensures lists { IfOk result
        (λ _. AreLists task.now level.now.goal level.now.removed (members s.now) lists.new.lists.items lists.new.used.items) }
    ensures tried { IfOk result (λ put. IsTried task.now level.now.removed (set_of (atom ∷ []))
        lists.old.lists.items lists.old.used.items lists.new.lists.items lists.new.used.items put) }
{
    let mut zone = Bits::new();
    zone.insert(atom.0);
    let atoms = [atom];
    try_zone(alloc, task, level, adders, s, &zone, &atoms, lists)
}

/// The atoms of the goal.
pub(crate) fn atoms_of_goal<'t>(task: &'t Task, goal: GoalId) -> &'t [AtomId]
    requires { goal.0 < length task.now.goals }
    ensures { result.now ≡ goal_atoms task.now goal }
{
    task.goals[goal.0 as usize].atoms.as_slice()
}

/// Whether the state lacks more than so many atoms of the goal.
pub(crate) fn lacks_more<const W: usize>(task: &Task, goal: GoalId, s: &Bits<W>, few: u32) -> bool
    requires width { W ≤ 64 }
    requires wide { task.now.atoms ≤ 64 * W }
    requires goal { goal.0 < length task.now.goals }
    ensures { result ≡ false → length (lacking task.now goal (members s.now)) ≤ few }
{
    known_task(task);
    let atoms = atoms_of_goal(task, goal);
    let mut count: usize = 0;
    for atom in atoms {
        if !s.contains(atom.0) {
            count += 1;
        }
    }
    count > few as usize
}

/// Tries the zones of the atoms of the goal that the state lacks, one after the other.
fn put_goal<const W: usize>(
    alloc: Global,
    task: &Task,
    level: &LevelFloor,
    adders: &AtomIndex,
    s: &Bits<W>,
    atoms: &[AtomId],
    lists: &mut Lists,
) -> Result<(), OutOfMemory>
    requires width { W ≤ 64 }
    requires wide { task.now.atoms ≤ 64 * W }
    requires atoms { atoms.now ≡ goal_atoms task.now level.now.goal }
    requires adders { AreAdders task.now level.now.removed (length task.now.actions) adders.now }
    requires none { AreNoLists task.now lists.old.lists.items lists.old.used.items }
    ensures lists { IfOk result
        (λ _. AreLists task.now level.now.goal level.now.removed (members s.now) lists.new.lists.items lists.new.used.items) }
    ensures covers { IfOk result
        (λ _. IsCovering task.now level.now.goal level.now.removed (members s.now) (length lists.new.lists.items)) }
    ensures few { IfOk result (λ _. length lists.new.lists.items ≤ 4096) }
{
    known_task(task);
    for atom in atoms {
        if !s.contains(atom.0) {
            try_atom(alloc, task, level, adders, s, *atom, lists)?;
        }
    }
    Ok(())
}

/// Lists for the atoms of the goal that the state lacks.
pub(crate) fn goal_lists<const W: usize>(
    alloc: Global,
    task: &Task,
    level: &LevelFloor,
    adders: &AtomIndex,
    s: &Bits<W>,
) -> Result<Lists, OutOfMemory>
    requires width { W ≤ 64 }
    requires wide { task.now.atoms ≤ 64 * W }
    requires made { IsFloorOf task.now level.now }
    requires adders { AreAdders task.now level.now.removed (length task.now.actions) adders.now }
    ensures lists { IfOk result
        (λ lists. AreLists task.now level.now.goal level.now.removed (members s.now) lists.lists.items lists.used.items) }
    ensures covers { IfOk result
        (λ lists. IsCovering task.now level.now.goal level.now.removed (members s.now) (length lists.lists.items)) }
    ensures few { IfOk result (λ lists. length lists.lists.items ≤ 4096) }
{
    let mut lists = no_lists(alloc, task)?;
    let atoms = atoms_of_goal(task, level.goal());
    put_goal(alloc, task, level, adders, s, atoms, &mut lists)?;
    Ok(lists)
}

/// No lists yet.
pub(crate) fn no_lists(alloc: Global, task: &Task) -> Result<Lists, OutOfMemory>
    ensures { IfOk result (λ lists. AreNoLists task.now lists.lists.items lists.used.items) }
{
    let used = vec![in alloc; false; task.actions.len()]?;
    Ok(Lists {
        lists: Vec::new(alloc),
        used,
    })
}
