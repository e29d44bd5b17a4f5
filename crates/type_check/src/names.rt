ghost use Rattle.std.specs.Prelude.{◌≡◌, ◌≤◌, ◌^◌, [], length, Contains, IfOk, OnErr, IfSome, IfNone};
ghost use Rattle.type_check.specs.Types.{place_in};
ghost use Rattle.type_check.specs.Tables.{AddsTo};

use grd_base::OutOfMemory;
use indexmap::IndexSet;
use std::alloc::Global;
use std::marker::Model;

/// Different names, in the order in which they were added.
#[derive(Drop)]
pub(crate) struct Names<'a> {
    names: IndexSet<&'a str>,
}

impl<'a> Model for Names<'a> {
    ghost use Rattle.std.specs.Prelude.{◌≢◌, ℕ, List, map, AllPairs};

    ghost Value = { List (List ℕ) };

    ghost view = { λ n. map (λ k. k.now) n.names.keys };

    ghost invariant = { λ n. AllPairs (λ a b. a ≢ b) (map (λ k. k.now) n.names.keys) };
}

impl<'a> Names<'a> {
    /// No names.
    pub(crate) fn new(alloc: Global) -> Names<'a>
        ensures { result ≡ [] }
    {
        Names {
            names: IndexSet::new(alloc),
        }
    }

    /// How many names there are.
    pub(crate) fn len(&self) -> usize
        ensures { result ≡ length self.now }
    {
        self.names.len()
    }

    /// Adds a name that is not there, and answers whether it was new.
    pub(crate) fn add(&mut self, name: &'a str) -> Result<bool, OutOfMemory>
        ensures added { IfOk result (AddsTo self.old self.new name.now) }
        ensures refused { OnErr result (self.new ≡ self.old) }
    {
        Ok(self.names.insert(name)?)
    }

    /// The place of the name, counted from 0.
    pub(crate) fn place_of(&self, name: &str) -> Option<u32>
        requires { length self.now ≤ 2 ^ 32 }
        ensures found { IfSome result (λ place. Contains self.now name.now) }
        ensures place { IfSome result (λ place. place ≡ place_in self.now name.now) }
        ensures none { IfNone result (Contains self.now name.now → ⊥) }
    {
        let place = self.names.get_index_of(name)?;
        Some(place as u32)
    }
}
