ghost use Rattle.std.specs.Prelude.{◌≡◌, ◌↔◌, ℕ, ◌*◌, ◌<◌, ◌≤◌, ◌||◌, ◌&&◌, not, [], length, All, IsTrue, IfOk, filter, Contains, ◌⊎◌};
ghost use Rattle.grd_base.specs.declared.ids.ActionId.{ActionId};
ghost use Rattle.grd_base.specs.Bits.{members};
ghost use Rattle.grd_base.specs.Sets.{union};
ghost use Rattle.strips_model.specs.Plans.{set_of};
ghost use Rattle.strips_model.specs.Index.{listed};
ghost use Rattle.level_bounds.specs.Waves.{IsGrowth, is_other};

use grd_base::{ActionId, ActionSet, AtomId, Bits, OutOfMemory};
use std::alloc::Global;
use strips_model::{AtomIndex, Task, applies};

/// The atoms that are reached after some rounds, and the actions that may reach more.
#[derive(Drop)]
pub struct Wave<const W: usize> {
    /// The atoms that are reached.
    pub reached: Bits<W>,
    /// The actions that may reach more, in any order, with repeats or not.
    pub candidates: Vec<ActionId>,
}

/// The atoms that are reached after one round more, and those that were not reached before.
#[derive(Drop)]
pub(crate) struct Growth<const W: usize> {
    pub(crate) reached: Bits<W>,
    pub(crate) fresh: Vec<AtomId>,
}

/// Files the action with each atom of the list, or apart where there is none.
pub fn file(
    free: &mut Vec<ActionId>,
    needed_by: &mut AtomIndex,
    a: ActionId,
    atoms: &[AtomId],
) -> Result<(), OutOfMemory>
    requires atoms { All (λ p. p.0 < length needed_by.old) atoms.now }
    ensures count { length needed_by.new ≡ length needed_by.old }
    ensures apart { IfOk result (λ _. (b : ActionId) → Contains free.new.items b
        ↔ (Contains free.old.items b ⊎ ((b ≡ a) × (atoms.now ≡ [])))) }
    ensures filed { IfOk result (λ _. (n : ℕ) (b : ActionId) → Contains (listed needed_by.new n) b
        ↔ (Contains (listed needed_by.old n) b ⊎ ((b ≡ a) × IsTrue (set_of atoms.now n)))) }
{
    if atoms.is_empty() {
        free.push(a)?;
    }
    for p in atoms {
        needed_by.add(*p, a)?;
    }
    Ok(())
}

/// Adds the actions that are filed with an atom of the state.
pub(crate) fn add_needing_state<const W: usize>(
    candidates: &mut Vec<ActionId>,
    needed_by: &AtomIndex,
    s: &Bits<W>,
    atoms: u32,
) -> Result<(), OutOfMemory>
    requires width { W ≤ 64 }
    requires atoms { atoms ≤ 64 * W }
    requires count { length needed_by.now ≡ atoms }
    ensures { IfOk result (λ _. (a : ActionId) → Contains candidates.new.items a
        ↔ (Contains candidates.old.items a ⊎ ((n : ℕ) × IsTrue (members s.now n) × Contains (listed needed_by.now n) a))) }
{
    for n in 0..atoms {
        if s.contains(n) {
            candidates.extend_from_slice(needed_by.at(AtomId(n)))?;
        }
    }
    Ok(())
}

/// The actions that are filed with an atom of the list.
pub(crate) fn needing(
    alloc: Global,
    needed_by: &AtomIndex,
    atoms: &[AtomId],
) -> Result<Vec<ActionId>, OutOfMemory>
    requires atoms { All (λ p. p.0 < length needed_by.now) atoms.now }
    ensures { IfOk result (λ found. (a : ActionId) → Contains found.items a
        ↔ ((n : ℕ) × IsTrue (set_of atoms.now n) × Contains (listed needed_by.now n) a)) }
{
    let mut found = Vec::new(alloc);
    for p in atoms {
        found.extend_from_slice(needed_by.at(*p))?;
    }
    Ok(found)
}

/// The candidates that are not in the list.
pub(crate) fn others(
    alloc: Global,
    candidates: &[ActionId],
    list: &ActionSet,
) -> Result<Vec<ActionId>, OutOfMemory>
    ensures { IfOk result (λ kept. kept.items ≡ filter (is_other list.now) candidates.now) }
{
    let mut kept = Vec::with_capacity(alloc, candidates.len())?;
    for a in candidates {
        if !list.contains(*a) {
            kept.push(*a)?;
        }
    }
    Ok(kept)
}

/// Joins the atoms on, and notes those that are new.
fn join_in<const W: usize>(growth: &mut Growth<W>, atoms: &[AtomId]) -> Result<(), OutOfMemory>
    requires width { W ≤ 64 }
    requires atoms { All (λ a. a.0 < 64 * W) atoms.now }
    ensures reached { IfOk result
        (λ _. members growth.new.reached ≡ union (members growth.old.reached) (set_of atoms.now)) }
    ensures fresh { IfOk result (λ _. (n : ℕ) → set_of growth.new.fresh.items n
        ≡ (set_of growth.old.fresh.items n || (set_of atoms.now n && not (members growth.old.reached n)))) }
{
    for a in atoms {
        if !growth.reached.contains(a.0) {
            growth.reached.insert(a.0);
            growth.fresh.push(*a)?;
        }
    }
    Ok(())
}

/// What is reached when the candidates that apply act at once.
#[tactic(auto, unfolding(strips_model::specs::Plans::is_step))]
pub(crate) fn grow<const W: usize>(
    alloc: Global,
    task: &Task,
    wave: &Wave<W>,
) -> Result<Growth<W>, OutOfMemory>
    requires width { W ≤ 64 }
    requires atoms { task.now.atoms ≤ 64 * W }
    requires actions { All (λ a. a.0 < length task.now.actions) wave.now.candidates.items }
    ensures growth { IfOk result (λ growth. IsGrowth task.now (members wave.now.reached) wave.now.candidates.items
        (members growth.reached) growth.fresh.items) }
    ensures below { IfOk result (λ growth. All (λ a. a.0 < task.now.atoms) growth.fresh.items) }
{
    let mut growth = Growth {
        reached: wave.reached,
        fresh: Vec::new(alloc),
    };
    for a in &wave.candidates {
        if applies(task, &wave.reached, *a) {
            join_in(&mut growth, task.actions[a.0 as usize].add.as_slice())?;
        }
    }
    Ok(growth)
}
