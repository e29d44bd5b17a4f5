ghost use Rattle.std.specs.Prelude.{◌≡◌, ℕ, ◌+◌, ◌≤◌, ◌^◌, ◌++◌, length, Contains, IfOk, OnOk, MatchOption, Some, slice_get};
ghost use Rattle.grd_base.specs.Rising.{IsRisingBy};
ghost use Rattle.grd_base.specs.Sets.{minus};
ghost use Rattle.grd_base.specs.declared.ids.AtomId.{AtomId};
ghost use Rattle.strips_model.specs.Plans.{set_of};
ghost use Rattle.strips_model.specs.Worlds.{places_of};
ghost use Rattle.type_check.specs.Values.{PlainTyped};
ghost use Rattle.ground_all.specs.Found.{watched_numbers, IsCounted};

use crate::starts::place_in;
use grd_base::{AtomId, OutOfMemory};
use std::alloc::Global;

/// The watched ones of so many fluent atoms, rising, by the watched predicates and the first number of each.
pub(crate) fn watched_atoms(
    alloc: Global,
    watched: &[bool],
    starts: &[u32],
    fluents: u32,
) -> Result<Vec<AtomId>, OutOfMemory>
    requires { (t : PlainTyped) × IsCounted t watched.now starts.now fluents }
    ensures { IfOk result (λ numbers. (t : PlainTyped) → IsCounted t watched.now starts.now fluents
        → numbers.items ≡ watched_numbers t) }
{
    let mut numbers = Vec::new(alloc);
    for number in 0..fluents {
        let (predicate, _) = place_in(starts, number);
        if watched[predicate] {
            numbers.push(AtomId(number))?;
        }
    }
    Ok(numbers)
}

/// The complement of an atom, where it is watched: the complements stand behind so many fluent atoms, in the
/// order of the watched ones.
fn complement_of(watched: &[AtomId], fluents: u32, atom: AtomId) -> Option<AtomId>
    requires rise { IsRisingBy (λ (a : AtomId). a.0) watched.now }
    requires few { fluents + length watched.now ≤ 2 ^ 32 }
    ensures { MatchOption result
        (Contains watched.now atom → ⊥)
        (λ complement. (place : ℕ) × (slice_get watched.now place ≡ Some atom) × (complement.0 ≡ fluents + place)) }
{
    match watched.binary_search(&atom) {
        Ok(place) => Some(AtomId(fluents + place as u32)),
        Err(_) => None,
    }
}

/// Adds the complements of those atoms of the list that are watched and none of the others.
pub(crate) fn add_complements(
    watched: &[AtomId],
    fluents: u32,
    list: &[AtomId],
    others: &[AtomId],
    into: &mut Vec<AtomId>,
) -> Result<(), OutOfMemory>
    requires watched { IsRisingBy (λ (a : AtomId). a.0) watched.now }
    requires list { IsRisingBy (λ (a : AtomId). a.0) list.now }
    requires few { fluents + length watched.now ≤ 2 ^ 32 }
    ensures { OnOk result (into.new.items ≡ into.old.items
        ++ places_of (λ a. minus (set_of list.now) (set_of others.now) a.0) fluents watched.now) }
{
    for atom in list {
        if let Some(complement) = complement_of(watched, fluents, *atom) {
            if !others.contains(atom) {
                into.push(complement)?;
            }
        }
    }
    Ok(())
}
