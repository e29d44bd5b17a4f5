ghost use Rattle.std.specs.Prelude.{◌≡◌, ◌<◌, ◌≤◌, ◌^◌, ◌==◌, ◌||◌, ◌&&◌, not, false, length, map, sum, EachIndex, IfOk, IfErr, if◌then◌else◌};
ghost use Rattle.std.specs.List.{list_any, slice_index_or};
ghost use Rattle.ground_all.specs.Tuples.{tuples};
ghost use Rattle.ground_all.specs.Grounding.{task_atoms};
ghost use Rattle.ground_all.specs.Sound.{ArePlaces, IsSound};
ghost use Rattle.ground_all.specs.Found.{fluent_marks, watched_marks, atom_blocks, watched_blocks, name_blocks, HasFewAtoms, HasFewActions, AreCounts, IsCountFault};

use crate::faults::GroundFault;
use crate::tuples::count;
use grd_base::OutOfMemory;
use std::alloc::Global;
use type_check::{Typed, TypedLiteral, TypedPredicate};

/// The most atoms of a task, fluent ones and complements.
const MOST_ATOMS: u128 = 3072;

/// The most typed instances of actions.
const MOST_ACTIONS: u128 = 1_048_576;

/// What is counted in a typed domain and problem: for each predicate whether it is fluent, whether it is watched
/// and how many fluent atoms it has, and for each action how many typed instances it has.
#[derive(Drop)]
pub(crate) struct Counts {
    pub(crate) fluent: Vec<bool>,
    pub(crate) watched: Vec<bool>,
    pub(crate) atoms: Vec<u128>,
    pub(crate) actions: Vec<u128>,
}

/// The counts, where they are within the limits.
pub(crate) fn few_counts(alloc: Global, typed: &Typed) -> Result<Counts, GroundFault>
    requires { IsSound typed.now }
    ensures counts { IfOk result (λ c. AreCounts typed.now c.fluent.items c.watched.items c.atoms.items c.actions.items) }
    ensures fault { IfErr result (IsCountFault typed.now) }
{
    let fluent = fluent_predicates(alloc, typed)?;
    let watched = watched_predicates(alloc, typed)?;
    let atoms = few_atoms(alloc, typed, &fluent, &watched)?;
    let actions = few_actions(alloc, typed)?;
    Ok(Counts {
        fluent,
        watched,
        atoms,
        actions,
    })
}

/// How many fluent atoms each predicate has, where these are few together with their complements.
fn few_atoms(
    alloc: Global,
    typed: &Typed,
    fluent: &[bool],
    watched: &[bool],
) -> Result<Vec<u128>, GroundFault>
    requires sound { IsSound typed.now }
    requires fluent { fluent.now ≡ fluent_marks typed.now }
    requires watched { watched.now ≡ watched_marks typed.now }
    ensures counts { IfOk result (λ counts. HasFewAtoms typed.now counts.items) }
    ensures fault { IfErr result (IsCountFault typed.now) }
{
    let counts = atom_counts(alloc, typed, fluent)?;
    let complements = complement_counts(alloc, typed, &counts, watched)?;
    let atoms = total(&counts) + total(&complements);
    if atoms > MOST_ATOMS {
        return Err(GroundFault::TooManyAtoms(atoms));
    }
    Ok(counts)
}

/// How many typed instances each action has, where these are few, as the atoms are.
fn few_actions(alloc: Global, typed: &Typed) -> Result<Vec<u128>, GroundFault>
    requires sound { IsSound typed.now }
    requires few { length (task_atoms typed.now) ≤ 3072 }
    ensures counts { IfOk result (λ counts. HasFewActions typed.now counts.items) }
    ensures fault { IfErr result (IsCountFault typed.now) }
{
    let counts = action_counts(alloc, typed)?;
    let actions = total(&counts);
    if actions > MOST_ACTIONS {
        return Err(GroundFault::TooManyActions(actions));
    }
    Ok(counts)
}

/// Which predicates occur in an effect.
pub(crate) fn fluent_predicates(alloc: Global, typed: &Typed) -> Result<Vec<bool>, OutOfMemory>
    requires { IsSound typed.now }
    ensures { IfOk result (λ marks. marks.items ≡ fluent_marks typed.now) }
{
    let mut marks = vec![in alloc; false; typed.predicates.len()]?;
    for schema in &typed.schemas {
        mark(&mut marks, &schema.effect);
    }
    Ok(marks)
}

/// Marks the predicates of an effect's literals.
fn mark(marks: &mut [bool], effect: &[TypedLiteral])
    ensures { EachIndex marks.old (λ q. slice_index_or marks.new q false
        ≡ (slice_index_or marks.old q false || list_any (λ l. l.predicate == q) effect.now)) }
{
    for literal in effect {
        let predicate = literal.predicate as usize;
        if predicate < marks.len() {
            marks[predicate] = true;
        }
    }
}

/// Which predicates occur in a negative precondition.
pub(crate) fn watched_predicates(alloc: Global, typed: &Typed) -> Result<Vec<bool>, OutOfMemory>
    requires { IsSound typed.now }
    ensures { IfOk result (λ marks. marks.items ≡ watched_marks typed.now) }
{
    let mut marks = vec![in alloc; false; typed.predicates.len()]?;
    for schema in &typed.schemas {
        mark_negative(&mut marks, &schema.pre);
    }
    Ok(marks)
}

/// Marks the predicates of a precondition's negative literals.
fn mark_negative(marks: &mut [bool], pre: &[TypedLiteral])
    ensures { EachIndex marks.old (λ q. slice_index_or marks.new q false
        ≡ (slice_index_or marks.old q false || list_any (λ l. not l.positive && l.predicate == q) pre.now)) }
{
    for literal in pre {
        let predicate = literal.predicate as usize;
        if !literal.positive && predicate < marks.len() {
            marks[predicate] = true;
        }
    }
}

/// How many fluent atoms each predicate has: none, where it is static.
pub(crate) fn atom_counts(
    alloc: Global,
    typed: &Typed,
    fluent: &[bool],
) -> Result<Vec<u128>, OutOfMemory>
    requires sound { IsSound typed.now }
    requires fluent { fluent.now ≡ fluent_marks typed.now }
    ensures { IfOk result (λ counts. counts.items ≡ map length (atom_blocks typed.now)) }
{
    let mut counts = Vec::with_capacity(alloc, typed.predicates.len())?;
    for (predicate, fluent) in typed.predicates.iter().zip(fluent) {
        counts.push(atom_count(predicate, *fluent))?;
    }
    Ok(counts)
}

/// How many fluent atoms a predicate has.
fn atom_count(predicate: &TypedPredicate, fluent: bool) -> u128
    requires { ArePlaces predicate.now.places }
    ensures { result ≡ (if fluent then length (tuples predicate.now.places) else 0) }
{
    if fluent { count(&predicate.places) } else { 0 }
}

/// How many complements each predicate has: as many as fluent atoms where it is watched, and else none.
fn complement_counts(
    alloc: Global,
    typed: &Typed,
    atoms: &[u128],
    watched: &[bool],
) -> Result<Vec<u128>, OutOfMemory>
    requires atoms { atoms.now ≡ map length (atom_blocks typed.now) }
    requires watched { watched.now ≡ watched_marks typed.now }
    ensures { IfOk result (λ counts. counts.items ≡ map length (watched_blocks typed.now)) }
{
    let mut counts = Vec::with_capacity(alloc, typed.predicates.len())?;
    for (count, watched) in atoms.iter().zip(watched) {
        counts.push(if *watched { *count } else { 0 })?;
    }
    Ok(counts)
}

/// How many typed instances each action has.
pub(crate) fn action_counts(alloc: Global, typed: &Typed) -> Result<Vec<u128>, OutOfMemory>
    requires { IsSound typed.now }
    ensures { IfOk result (λ counts. counts.items ≡ map length (name_blocks typed.now)) }
{
    let mut counts = Vec::with_capacity(alloc, typed.schemas.len())?;
    for schema in &typed.schemas {
        counts.push(count(&schema.places))?;
    }
    Ok(counts)
}

/// The sum of counts.
pub(crate) fn total(counts: &[u128]) -> u128
    requires { sum counts.now < 2 ^ 128 }
    ensures { result ≡ sum counts.now }
{
    counts.iter().sum()
}
