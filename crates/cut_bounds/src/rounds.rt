ghost use Rattle.std.specs.Prelude.{◌≡◌, ◌*◌, ◌<◌, ◌≤◌, [], ◌∷◌, length, filter, All, IfOk};
ghost use Rattle.grd_base.specs.declared.ids.ActionId.{ActionId};
ghost use Rattle.grd_base.specs.Bits.{members};
ghost use Rattle.grd_base.specs.Rising.{has_id};
ghost use Rattle.strips_model.specs.Cuts.{cut};
ghost use Rattle.strips_model.specs.Levels.{IsLevel};
ghost use Rattle.level_bounds.specs.Floors.{IsFloorOf, level_of};
ghost use Rattle.level_bounds.specs.Waves.{AreReady};
ghost use Rattle.cut_bounds.specs.CutMarks.{IsCutMark, leads};

use crate::mark::CutMark;
use grd_base::{ActionId, ActionSet, Bits, Bound, OutOfMemory};
use level_bounds::{LevelFloor, Wave};
use std::alloc::Global;
use strips_model::{Task, applies, contains_all, holds, known_task};

/// Whether the action leads out of the set: it applies there, and adds something that is not in it.
#[tactic(auto, unfolding(strips_model::specs::Plans::is_step))]
fn leads_out<const W: usize>(task: &Task, set: &Bits<W>, a: ActionId) -> bool
    requires width { W ≤ 64 }
    requires atoms { task.now.atoms ≤ 64 * W }
    requires action { a.0 < length task.now.actions }
    ensures { result ≡ leads task.now (members set.now) a }
{
    let action = &task.actions[a.0 as usize];
    applies(task, set, a) && !contains_all(set, action.add.as_slice())
}

/// Those of the actions that lead out of the set.
fn leading<const W: usize>(
    alloc: Global,
    task: &Task,
    set: &Bits<W>,
    actions: &[ActionId],
) -> Result<Vec<ActionId>, OutOfMemory>
    requires width { W ≤ 64 }
    requires atoms { task.now.atoms ≤ 64 * W }
    requires actions { All (λ a. a.0 < length task.now.actions) actions.now }
    ensures { IfOk result (λ found. found.items ≡ filter (leads task.now (members set.now)) actions.now) }
{
    let mut found = Vec::new(alloc);
    for a in actions {
        if leads_out(task, set, *a) {
            found.push(*a)?;
        }
    }
    Ok(found)
}

/// The cut of what is reached.
fn cut_of<const W: usize>(
    alloc: Global,
    task: &Task,
    level: &LevelFloor,
    wave: &Wave<W>,
) -> Result<ActionSet, OutOfMemory>
    requires width { W ≤ 64 }
    requires atoms { task.now.atoms ≤ 64 * W }
    requires ready { AreReady task.now level.now.removed (members wave.now.reached) wave.now.candidates.items }
    ensures { IfOk result (λ list. (a : ActionId)
        → has_id list a ≡ cut task.now level.now.removed (members wave.now.reached) a) }
{
    let found = leading(alloc, task, &wave.reached, wave.candidates.as_slice())?;
    let list = ActionSet::from_list(alloc, found.as_slice())?;
    Ok(list)
}

/// One empty list, which shows `Never`.
pub(crate) fn never(alloc: Global) -> Result<CutMark, OutOfMemory>
    ensures { IfOk result (λ mark. mark ≡ [] ∷ []) }
{
    Ok(CutMark {
        lists: vec![in alloc; ActionSet::new(alloc)]?,
    })
}

/// The level of the goal at the state, and the cuts of what is reached before each round that leads to it;
/// `Never` where there is no level.
pub(crate) fn level_mark<const W: usize>(
    alloc: Global,
    task: &Task,
    level: &LevelFloor,
    s: &Bits<W>,
) -> Result<(Bound, CutMark), OutOfMemory>
    requires made { IsFloorOf task.now level.now }
    requires width { W ≤ 64 }
    requires atoms { task.now.atoms ≤ 64 * W }
    ensures shows { IfOk result
        (λ found. IsCutMark task.now level.now.goal level.now.removed (members s.now) found.1 found.0) }
    ensures level { IfOk result
        (λ found. IsLevel task.now level.now.goal level.now.removed (members s.now) (level_of found.0)) }
{
    known_task(task);
    let mut wave = level.first(alloc, task, s)?;
    let mut lists = Vec::new(alloc);
    while !holds(task, &wave.reached, level.goal()) {
        let list = cut_of(alloc, task, level, &wave)?;
        if !level.advance(alloc, task, &mut wave)? {
            return Ok((Bound::Never, never(alloc)?));
        }
        lists.push(list)?;
    }
    Ok((Bound::Steps(lists.len() as u32), CutMark { lists }))
}
