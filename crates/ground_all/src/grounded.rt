ghost use Rattle.std.specs.Prelude.{◌≡◌, ◌⊎◌, ℕ, ◌+◌, ◌<◌, ◌≤◌, ◌^◌, List, ◌++◌, length, take, drop, Ok, Err, IfOk, IsOk, Some, slice_get};
ghost use Rattle.type_check.specs.Values.{PlainGroundAtom, PlainGroundName};
ghost use Rattle.type_check.specs.Typing.{IsTypedTask};
ghost use Rattle.type_check.specs.Ground.{IsTypedName, atom_text, action_text};
ghost use Rattle.ground_all.specs.Grounding.{fluent_atoms, TaskAtom, task_atoms, task_atom_text, instances, ground_task};
ghost use Rattle.ground_all.specs.Sound.{IsSound};
ghost use Rattle.ground_all.specs.Names.{IsTextAt, IsWritten};
ghost use Rattle.ground_all.specs.Found.{AreCounts, IsBaseOf, IsAtomAt, IsActionAt};

use crate::atoms::Atoms;
use crate::complements::watched_atoms;
use crate::counts::{Counts, few_counts, total};
use crate::faults::GroundFault;
use crate::names::{bracketed_len, write, write_bracketed};
use crate::starts::{place_in, starts};
use crate::tasks;
use crate::tuples::{fill, number_of};
use grd_base::{ActionId, AtomId, OutOfMemory};
use std::alloc::Global;
use std::marker::Model;
use strips_model::Task;
use type_check::{Goal, GroundName, Typed, TypedPredicate, TypedSchema};

/// A task with the names of its atoms and actions.
#[derive(Drop)]
pub struct Grounded<'t> {
    typed: &'t Typed,
    goals: &'t [Goal],
    task: Task,
    fluents: u32,
    watched: Vec<AtomId>,
    atom_starts: Vec<u32>,
    action_starts: Vec<u32>,
}

impl<'t> Model for Grounded<'t> {
    ghost use Rattle.ground_all.specs.Grounding.{PlainGrounded};
    ghost use Rattle.ground_all.specs.Found.{IsGrounded};

    ghost Value = { PlainGrounded };

    ghost view = { λ g. record { typed = g.typed.now; goals = g.goals.now } };

    ghost invariant = { λ g. IsGrounded g.typed.now g.goals.now g.task g.fluents g.watched.items g.atom_starts.items g.action_starts.items };
}

/// Grounds a typed domain and problem with goals. The atoms of the task, fluent ones and complements, and the
/// typed instances are counted before anything is made: too many atoms come before too many actions.
pub fn ground<'t>(
    alloc: Global,
    typed: &'t Typed,
    goals: &'t [Goal],
) -> Result<Grounded<'t>, GroundFault>
    requires typed { IsTypedTask typed.now }
    requires few_goals { length goals.now ≤ 32 }
    ensures typed { IfOk result (λ world. world.typed ≡ typed.now) }
    ensures goals { IfOk result (λ world. world.goals ≡ goals.now) }
    ensures atoms { (n : ℕ) → result ≡ Err (GroundFault.TooManyAtoms n)
        → (n ≡ length (task_atoms typed.now)) × (3072 < n) }
    ensures actions { (n : ℕ) → result ≡ Err (GroundFault.TooManyActions n)
        → (length (task_atoms typed.now) ≤ 3072) × (n ≡ length (instances typed.now)) × (2 ^ 20 < n) }
    ensures atoms_exactly { 3072 < length (task_atoms typed.now)
        → (result ≡ Err (GroundFault.TooManyAtoms (length (task_atoms typed.now)))) ⊎ (result ≡ Err GroundFault.OutOfMemory) }
    ensures actions_exactly { length (task_atoms typed.now) ≤ 3072 → 2 ^ 20 < length (instances typed.now)
        → (result ≡ Err (GroundFault.TooManyActions (length (instances typed.now)))) ⊎ (result ≡ Err GroundFault.OutOfMemory) }
    ensures makes { length (task_atoms typed.now) ≤ 3072 → length (instances typed.now) ≤ 2 ^ 20
        → IsOk result ⊎ (result ≡ Err GroundFault.OutOfMemory) }
{
    let counts = few_counts(alloc, typed)?;
    Ok(world(alloc, typed, goals, counts)?)
}

/// The world with these counts.
fn world<'t>(
    alloc: Global,
    typed: &'t Typed,
    goals: &'t [Goal],
    counts: Counts,
) -> Result<Grounded<'t>, OutOfMemory>
    requires typed { IsTypedTask typed.now }
    requires few_goals { length goals.now ≤ 32 }
    requires counts { AreCounts typed.now counts.fluent.items counts.watched.items counts.atoms.items counts.actions.items }
    ensures typed { IfOk result (λ world. world.typed ≡ typed.now) }
    ensures goals { IfOk result (λ world. world.goals ≡ goals.now) }
{
    let Counts {
        fluent,
        watched,
        atoms,
        actions,
    } = counts;
    let fluents = total(&atoms) as u32;
    let atom_starts = starts(alloc, &atoms)?;
    let action_starts = starts(alloc, &actions)?;
    let complemented = watched_atoms(alloc, &watched, &atom_starts, fluents)?;
    let index = Atoms::new(
        alloc,
        typed,
        fluent,
        starts(alloc, &atoms)?,
        fluents,
        watched_atoms(alloc, &watched, &atom_starts, fluents)?,
    )?;
    let task = tasks::task(alloc, &index, goals)?;
    Ok(Grounded {
        typed,
        goals,
        task,
        fluents,
        watched: complemented,
        atom_starts,
        action_starts,
    })
}

impl<'t> Grounded<'t> {
    /// The task. Atoms and actions have the numbers of their places in the lists of the task's atoms, which are
    /// the fluent atoms and then the complements, and of typed instances.
    pub fn task(&self) -> &Task
        ensures task { result.now ≡ ground_task self.now.typed self.now.goals }
        ensures atoms { result.now.atoms ≡ length (task_atoms self.now.typed) }
        ensures actions { length result.now.actions ≡ length (instances self.now.typed) }
    {
        &self.task
    }

    /// The number of a ground action.
    pub fn action_id(&self, name: &GroundName) -> ActionId
        requires { IsTypedName self.now.typed name.now }
        ensures { slice_get (instances self.now.typed) result.0 ≡ Some name.now }
    {
        let typed = self.typed;
        let schema = name.schema as usize;
        let number = number_of(&typed.schemas[schema].places, &name.objects).unwrap();
        ActionId(self.action_starts[schema] + number as u32)
    }

    /// The length of the atom's text in bytes.
    pub fn atom_name_len(&self, a: AtomId) -> usize
        requires { a.0 < length (task_atoms self.now.typed) }
        ensures { (atom : TaskAtom) → slice_get (task_atoms self.now.typed) a.0 ≡ Some atom
            → result ≡ length (task_atom_text self.now.typed atom) }
    {
        let (fluent, is_complement) = self.base_of(a);
        let len = self.fluent_name_len(fluent);
        if is_complement { 5 + len + 1 } else { len }
    }

    /// The length of the action's text in bytes.
    pub fn action_name_len(&self, a: ActionId) -> usize
        requires { a.0 < length (instances self.now.typed) }
        ensures { (name : PlainGroundName) → slice_get (instances self.now.typed) a.0 ≡ Some name
            → result ≡ length (action_text self.now.typed name) }
    {
        let mut objects = [0; 8];
        let (schema, count) = self.action_at(a, &mut objects);
        bracketed_len(self.typed, schema.name.text.as_str(), &objects[..count])
    }

    /// Writes the atom as `(name object object)`, and a complement as `(not (name object object))`, to the front,
    /// and answers how long that is.
    pub fn atom_name(&self, a: AtomId, into: &mut [u8]) -> usize
        requires one { a.0 < length (task_atoms self.now.typed) }
        requires room { (atom : TaskAtom) → slice_get (task_atoms self.now.typed) a.0 ≡ Some atom
            → length (task_atom_text self.now.typed atom) ≤ length into.old }
        ensures length { result ≤ length into.new }
        ensures text { IsTextAt (task_atom_text self.now.typed) (task_atoms self.now.typed) a.0 (take result into.new) }
        ensures rest { drop result into.new ≡ drop result into.old }
    {
        let (fluent, is_complement) = self.base_of(a);
        if is_complement {
            self.write_complement(fluent, into)
        } else {
            self.write_fluent(fluent, into)
        }
    }

    /// Writes the action as `(name object object)` to the front, and answers how long that is.
    pub fn action_name(&self, a: ActionId, into: &mut [u8]) -> usize
        requires one { a.0 < length (instances self.now.typed) }
        requires room { (name : PlainGroundName) → slice_get (instances self.now.typed) a.0 ≡ Some name
            → length (action_text self.now.typed name) ≤ length into.old }
        ensures length { result ≤ length into.new }
        ensures text { IsTextAt (action_text self.now.typed) (instances self.now.typed) a.0 (take result into.new) }
        ensures rest { drop result into.new ≡ drop result into.old }
    {
        let mut objects = [0; 8];
        let (schema, count) = self.action_at(a, &mut objects);
        write_bracketed(
            self.typed,
            schema.name.text.as_str(),
            &objects[..count],
            into,
        )
    }

    /// The fluent atom of an atom, and whether this is its complement.
    fn base_of(&self, a: AtomId) -> (AtomId, bool)
        requires { a.0 < length (task_atoms self.now.typed) }
        ensures base { IsBaseOf self.now.typed a.0 result.0 result.1 }
        ensures sound { IsSound self.now.typed }
    {
        if a.0 < self.fluents {
            (a, false)
        } else {
            (self.watched[(a.0 - self.fluents) as usize], true)
        }
    }

    /// The length of a fluent atom's text in bytes.
    fn fluent_name_len(&self, a: AtomId) -> usize
        requires { a.0 < length (fluent_atoms self.now.typed) }
        ensures text { (atom : PlainGroundAtom) → slice_get (fluent_atoms self.now.typed) a.0 ≡ Some atom
            → result ≡ length (atom_text self.now.typed atom) }
        ensures short { result ≤ 2 ^ 24 }
    {
        let mut objects = [0; 8];
        let (predicate, count) = self.atom_at(a, &mut objects);
        bracketed_len(self.typed, predicate.name.text.as_str(), &objects[..count])
    }

    /// Writes a fluent atom to the front, and answers how long that is.
    fn write_fluent(&self, a: AtomId, into: &mut [u8]) -> usize
        requires { (atom : PlainGroundAtom) × (slice_get (fluent_atoms self.now.typed) a.0 ≡ Some atom)
            × (length (atom_text self.now.typed atom) ≤ length into.old) }
        ensures { (atom : PlainGroundAtom) → slice_get (fluent_atoms self.now.typed) a.0 ≡ Some atom
            → IsWritten (atom_text self.now.typed atom) into.old into.new result }
    {
        let mut objects = [0; 8];
        let (predicate, count) = self.atom_at(a, &mut objects);
        write_bracketed(
            self.typed,
            predicate.name.text.as_str(),
            &objects[..count],
            into,
        )
    }

    /// Writes the complement of a fluent atom to the front, and answers how long that is.
    fn write_complement(&self, a: AtomId, into: &mut [u8]) -> usize
        requires { (atom : PlainGroundAtom) × (slice_get (fluent_atoms self.now.typed) a.0 ≡ Some atom)
            × (length (task_atom_text self.now.typed (TaskAtom.Complement atom)) ≤ length into.old) }
        ensures { (atom : PlainGroundAtom) → slice_get (fluent_atoms self.now.typed) a.0 ≡ Some atom
            → IsWritten (task_atom_text self.now.typed (TaskAtom.Complement atom)) into.old into.new result }
    {
        let at = write(b"(not ", into, 0);
        let end = at + self.write_fluent(a, &mut into[at..]);
        write(b")", into, end)
    }

    /// Writes the objects of an atom to the front, and answers its predicate and how many they are.
    fn atom_at(&self, a: AtomId, objects: &mut [u32; 8]) -> (&TypedPredicate, usize)
        requires { a.0 < length (fluent_atoms self.now.typed) }
        ensures atom { IsAtomAt self.now.typed a.0 result.0.now (take result.1 objects.new) }
        ensures few { result.1 ≤ 8 }
    {
        let typed = self.typed;
        let (predicate, place) = place_in(&self.atom_starts, a.0);
        let predicate = &typed.predicates[predicate];
        let count = predicate.places.len();
        fill(&predicate.places, place, &mut objects[..count]);
        (predicate, count)
    }

    /// Writes the objects of an action to the front, and answers its schema and how many they are.
    fn action_at(&self, a: ActionId, objects: &mut [u32; 8]) -> (&TypedSchema, usize)
        requires { a.0 < length (instances self.now.typed) }
        ensures action { IsActionAt self.now.typed a.0 result.0.now (take result.1 objects.new) }
        ensures few { result.1 ≤ 8 }
    {
        let typed = self.typed;
        let (schema, place) = place_in(&self.action_starts, a.0);
        let schema = &typed.schemas[schema];
        let count = schema.places.len();
        fill(&schema.places, place, &mut objects[..count]);
        (schema, count)
    }
}
