ghost use Rattle.std.specs.Prelude.{◌≡◌, ◌≤◌, ◌^◌, ℕ, [], ◌∷◌, ◌++◌, Some, slice_get, length, Contains, MatchOption, OnOk};

use indexmap::IndexSet;
use std::alloc::{AllocError, Global};
use std::marker::Model;

/// Different names by their numbers, in the order in which they were added.
#[derive(Drop)]
pub(crate) struct Names<'a> {
    names: IndexSet<&'a str>,
}

impl<'a> Model for Names<'a> {
    ghost use Rattle.std.specs.Prelude.{ℕ, List, map};

    ghost Value = { List (List ℕ) };

    ghost view = { λ n. map (λ k. k.now) n.names.keys };
}

impl<'a> Names<'a> {
    /// No names.
    pub(crate) fn new(alloc: Global) -> Names<'a>
        ensures { result ≡ [] }
    {
        Names {
            names: IndexSet::new(alloc),
        }
    }

    /// Adds a name that is not there.
    pub(crate) fn add(&mut self, name: &'a str) -> Result<(), AllocError>
        requires { Contains self.old name.now → ⊥ }
        ensures { OnOk result (self.new ≡ self.old ++ name.now ∷ []) }
    {
        self.names.insert(name)?;
        Ok(())
    }

    /// The number of the name, counted from 0.
    pub(crate) fn number_of(&self, name: &str) -> Option<u32>
        requires { length self.now ≤ 2 ^ 32 }
        ensures { MatchOption result
            ((number : ℕ) → slice_get self.now number ≡ Some name.now → ⊥)
            (λ number. slice_get self.now number ≡ Some name.now) }
    {
        let number = self.names.get_index_of(name)?;
        Some(number as u32)
    }
}
