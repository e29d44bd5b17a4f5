ghost use Rattle.std.specs.Prelude.{◌≡◌, [], OnOk, IfOk};
ghost use Rattle.goal_files.specs.LineReading.{with_atom};

use indexmap::IndexSet;
use std::alloc::{AllocError, Global};
use std::marker::Model;
use type_check::{Goal, GroundAtom};

/// An atom that can be looked up.
#[derive(PartialEq, Eq, Hash, Drop)]
struct AtomKey {
    predicate: u32,
    objects: Vec<u32>,
}

/// Different ground atoms, in the order in which they were added.
#[derive(Drop)]
pub(crate) struct AtomSet {
    atoms: IndexSet<AtomKey>,
}

impl Model for AtomSet {
    ghost use Rattle.std.specs.Prelude.{List, map};
    ghost use Rattle.type_check.specs.Values.{PlainGroundAtom};
    ghost use Rattle.goal_files.specs.LineReading.{key_atom};

    ghost Value = { List PlainGroundAtom };

    ghost view = { λ s. map key_atom s.atoms.keys };
}

impl AtomSet {
    /// No atoms.
    pub(crate) fn new(alloc: Global) -> AtomSet
        ensures { result ≡ [] }
    {
        AtomSet {
            atoms: IndexSet::new(alloc),
        }
    }

    /// Adds an atom, where it is not there.
    pub(crate) fn add(&mut self, atom: GroundAtom) -> Result<(), AllocError>
        ensures { OnOk result (self.new ≡ with_atom self.old atom) }
    {
        let GroundAtom { predicate, objects } = atom;
        self.atoms.insert(AtomKey { predicate, objects })?;
        Ok(())
    }

    /// The goal of these atoms.
    pub(crate) fn into_goal(self, alloc: Global) -> Result<Goal, AllocError>
        ensures { IfOk result (λ goal. goal ≡ self) }
    {
        let mut atoms = Vec::new(alloc);
        for AtomKey { predicate, objects } in self.atoms {
            atoms.push(GroundAtom { predicate, objects })?;
        }
        Ok(Goal { atoms })
    }
}
