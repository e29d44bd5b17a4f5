ghost use Rattle.std.specs.Prelude.{◌≡◌, ◌≢◌, ◌≤◌, ◌↔◌, ◌++◌, length, Contains, IfOk, OnOk, MatchOption};
ghost use Rattle.grd_base.specs.Rising.{IsRisingBy};
ghost use Rattle.grd_base.specs.Sets.{minus};
ghost use Rattle.grd_base.specs.declared.ids.AtomId.{AtomId};
ghost use Rattle.strips_model.specs.Plans.{set_of};
ghost use Rattle.strips_model.specs.Worlds.{complements};
ghost use Rattle.ground_all.specs.Grounding.{fluent_atoms, task_atoms, is_one_twice};
ghost use Rattle.ground_all.specs.Sound.{IsSound};
ghost use Rattle.ground_all.specs.Found.{fluent_marks, atom_starts, start_numbers, watched_numbers, IsStanding, IsKeyOf};
ghost use Rattle.type_check.specs.Values.{PlainGroundAtom};
ghost use Rattle.type_check.specs.Ground.{IsTypedAtom};
ghost use Rattle.ground_all.specs.declared.atoms.StaticAtom.{StaticAtom};

use crate::complements;
use crate::tuples::number_of;
use grd_base::{AtomId, OutOfMemory};
use indexmap::IndexSet;
use std::alloc::Global;
use std::marker::Model;
use type_check::{GroundAtom, Typed};

/// How an atom stands in a world.
#[derive(Clone, Copy, Debug, PartialEq, Eq)]
pub(crate) enum Standing {
    /// It is fluent, with this number.
    Fluent(AtomId),
    /// It is static and true at the start.
    True,
    /// It is static and false at the start.
    False,
}

/// An atom by its number among the tuples of its predicate.
#[derive(Clone, Copy, PartialEq, Eq, Hash)]
struct StaticAtom {
    predicate: u32,
    number: u128,
}

/// The atoms of a typed domain and problem.
#[derive(Drop)]
pub(crate) struct Atoms<'t> {
    typed: &'t Typed,
    fluent: Vec<bool>,
    starts: Vec<u32>,
    initial: IndexSet<StaticAtom>,
    fluents: u32,
    watched: Vec<AtomId>,
}

impl<'t> Model for Atoms<'t> {
    ghost use Rattle.type_check.specs.Values.{PlainTyped};
    ghost use Rattle.ground_all.specs.Found.{AreKept};

    ghost Value = { PlainTyped };

    ghost view = { λ a. a.typed.now };

    ghost invariant = { λ a. AreKept a.typed.now a.fluent.items a.starts.items a.initial.keys a.fluents a.watched.items };
}

impl<'t> Atoms<'t> {
    /// The atoms, with these predicates fluent and with the first numbers of each. So many atoms are fluent, and
    /// these of them are watched.
    pub(crate) fn new(
        alloc: Global,
        typed: &'t Typed,
        fluent: Vec<bool>,
        starts: Vec<u32>,
        fluents: u32,
        watched: Vec<AtomId>,
    ) -> Result<Atoms<'t>, OutOfMemory>
        requires sound { IsSound typed.now }
        requires fluent { fluent.items ≡ fluent_marks typed.now }
        requires starts { starts.items ≡ atom_starts typed.now }
        requires fluents { fluents ≡ length (fluent_atoms typed.now) }
        requires watched { watched.items ≡ watched_numbers typed.now }
        requires few { length (task_atoms typed.now) ≤ 3072 }
        ensures { IfOk result (λ atoms. atoms ≡ typed.now) }
    {
        let initial = initial_atoms(alloc, typed)?;
        Ok(Atoms {
            typed,
            fluent,
            starts,
            initial,
            fluents,
            watched,
        })
    }

    /// The typed domain and problem.
    pub(crate) fn typed(&self) -> &'t Typed
        ensures typed { result.now ≡ self.now }
        ensures sound { IsSound self.now }
        ensures few { length (task_atoms self.now) ≤ 3072 }
    {
        self.typed
    }

    /// How many atoms the task has, fluent ones and complements.
    pub(crate) fn count(&self) -> u32
        ensures { result ≡ length (task_atoms self.now) }
    {
        self.fluents + self.watched.len() as u32
    }

    /// The watched fluent atoms, rising.
    pub(crate) fn watched(&self) -> &[AtomId]
        ensures { result.now ≡ watched_numbers self.now }
    {
        &self.watched
    }

    /// Adds the complements of those atoms of the list that are watched and none of the others.
    pub(crate) fn add_complements(
        &self,
        list: &[AtomId],
        others: &[AtomId],
        into: &mut Vec<AtomId>,
    ) -> Result<(), OutOfMemory>
        requires { IsRisingBy (λ (a : AtomId). a.0) list.now }
        ensures { OnOk result (into.new.items ≡ into.old.items
            ++ complements (start_numbers self.now) (minus (set_of list.now) (set_of others.now))) }
    {
        complements::add_complements(&self.watched, self.fluents, list, others, into)
    }

    /// How the atom stands.
    pub(crate) fn find(&self, atom: &GroundAtom) -> Standing
        ensures standing { IsStanding self.now atom.now result }
        ensures sound { IsSound self.now }
    {
        let typed = self.typed;
        if atom.predicate as usize != typed.predicates.len() {
            return self.find_declared(atom);
        }
        if is_one_twice(&atom.objects) {
            Standing::True
        } else {
            Standing::False
        }
    }

    /// How an atom stands that is no equality.
    fn find_declared(&self, atom: &GroundAtom) -> Standing
        requires { atom.now.predicate ≢ length self.now.predicates }
        ensures { IsStanding self.now atom.now result }
    {
        let Some(key) = key_of(self.typed, atom) else {
            return Standing::False;
        };
        let predicate = atom.predicate as usize;
        if self.fluent[predicate] {
            return Standing::Fluent(AtomId(self.starts[predicate] + key.number as u32));
        }
        if self.initial.contains(&key) {
            Standing::True
        } else {
            Standing::False
        }
    }
}

/// Whether these are one object, twice.
fn is_one_twice(objects: &[u32]) -> bool
    ensures { result ≡ is_one_twice objects.now }
{
    objects.len() == 2 && objects[0] == objects[1]
}

/// The key of an atom, where its objects fit its predicate.
fn key_of(typed: &Typed, atom: &GroundAtom) -> Option<StaticAtom>
    requires { IsSound typed.now }
    ensures { MatchOption result (IsTypedAtom typed.now atom.now → ⊥) (IsKeyOf typed.now atom.now) }
{
    let predicate = typed.predicates.get(atom.predicate as usize)?;
    let number = number_of(&predicate.places, &atom.objects)?;
    Some(StaticAtom {
        predicate: atom.predicate,
        number,
    })
}

/// The keys of the atoms that are true at the start.
fn initial_atoms(alloc: Global, typed: &Typed) -> Result<IndexSet<StaticAtom>, OutOfMemory>
    requires { IsSound typed.now }
    ensures { IfOk result (λ keys. (key : StaticAtom) →
        Contains keys.keys key ↔ ((a : PlainGroundAtom) × Contains typed.now.init a × IsKeyOf typed.now a key)) }
{
    let mut keys = IndexSet::new(alloc);
    for atom in &typed.init {
        if let Some(key) = key_of(typed, atom) {
            keys.insert(key)?;
        }
    }
    Ok(keys)
}
