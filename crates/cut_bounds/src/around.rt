ghost use Rattle.std.specs.Prelude.{◌≡◌, ◌↔◌, ◌*◌, ◌<◌, ◌≤◌, ◌++◌, [], ◌∷◌, List, length, All, IfOk, Contains, false, map};
ghost use Rattle.grd_base.specs.declared.ids.AtomId.{AtomId};
ghost use Rattle.grd_base.specs.declared.ids.ActionId.{ActionId};
ghost use Rattle.grd_base.specs.declared.limits.Bound.{Bound};
ghost use Rattle.grd_base.specs.Bits.{members};
ghost use Rattle.strips_model.specs.Values.{AreAtoms};
ghost use Rattle.strips_model.specs.Plans.{IsOver, goal_holds};
ghost use Rattle.strips_model.specs.Cuts.{IsFamily};
ghost use Rattle.level_bounds.specs.Floors.{IsFloorOf};
ghost use Rattle.cut_bounds.specs.CutMarks.{IsCutMark, IsEnough, reached_around, sets_around};
ghost use Rattle.cut_bounds.specs.Around.{IsAround};

use grd_base::{ActionId, ActionSet, AtomId, Bits, OutOfMemory, members_below};
use level_bounds::LevelFloor;
use std::alloc::Global;
use strips_model::{Family, Task, atoms_of, known_task};

/// The atoms that are reached around the list.
fn around<const W: usize>(
    alloc: Global,
    task: &Task,
    level: &LevelFloor,
    s: &Bits<W>,
    list: &ActionSet,
) -> Result<Vec<AtomId>, OutOfMemory>
    requires made { IsFloorOf task.now level.now }
    requires width { W ≤ 64 }
    requires atoms { task.now.atoms ≤ 64 * W }
    requires needed { goal_holds task.now level.now.goal (reached_around task.now level.now.removed list.now (members s.now)) ≡ false }
    ensures { IfOk result
        (λ set. IsAround task.now level.now.goal level.now.removed (members s.now) list.now set.items) }
{
    known_task(task);
    let reached = level.reached_around(alloc, task, s, list)?;
    members_below(&reached);
    let set = atoms_of(alloc, &reached, 64 * W as u32)?;
    Ok(set)
}

/// For each list the atoms that are reached around it.
pub(crate) fn family_around<const W: usize>(
    alloc: Global,
    task: &Task,
    level: &LevelFloor,
    s: &Bits<W>,
    lists: &[ActionSet],
) -> Result<Family, OutOfMemory>
    requires made { IsFloorOf task.now level.now }
    requires width { W ≤ 64 }
    requires atoms { task.now.atoms ≤ 64 * W }
    requires shows { (bound : Bound) × IsCutMark task.now level.now.goal level.now.removed (members s.now) lists.now bound }
    ensures family { IfOk result
        (λ family. IsFamily task.now level.now.goal level.now.removed (members s.now) family) }
    ensures enough { IfOk result (λ family. (bound : Bound)
        → IsCutMark task.now level.now.goal level.now.removed (members s.now) lists.now bound
        → IsEnough task.now level.now.removed family bound) }
    ensures around { IfOk result (λ family. IsOver task.now (members s.now)
        → family ≡ sets_around task.now level.now.removed (members s.now) lists.now) }
    ensures atoms { IfOk result (λ family. IsOver task.now (members s.now)
        → All (AreAtoms task.now.atoms) family) }
{
    let mut sets = Vec::new(alloc);
    for list in lists {
        let set = around(alloc, task, level, s, list)?;
        sets.push(set)?;
    }
    Ok(Family { sets })
}
