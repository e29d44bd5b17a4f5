ghost use Rattle.std.specs.Prelude.{◌≡◌, ◌<◌, ◌≤◌, ◌^◌, [], length, IfOk, OnOk, OnErr, slice_get};
ghost use Rattle.std.specs.Option.{option_copied};
ghost use Rattle.state_store.specs.Store.{AreDistinct, IsNumbered};

use grd_base::{Bits, OutOfMemory, whole};
use indexmap::IndexSet;
use std::alloc::Global;
use std::marker::Model;

/// Distinct states, numbered from 0 in the order of their insertion.
#[derive(Drop)]
pub struct StateStore<const W: usize> {
    states: IndexSet<Bits<W>>,
}

impl<const W: usize> Model for StateStore<W> {
    ghost use Rattle.std.specs.Prelude.{List};
    ghost use Rattle.grd_base.specs.declared.bits.Bits.{Bits};
    ghost use Rattle.state_store.specs.Store.{IsStore};

    ghost Value = { List (Bits W) };

    ghost view = { λ s. s.states.keys };

    ghost invariant = { λ s. IsStore s.states.keys };
}

impl<const W: usize> StateStore<W> {
    /// No states. It takes no memory, and keeps the allocator.
    pub fn new(alloc: Global) -> StateStore<W>
        requires { W ≤ 64 }
        ensures { result ≡ [] }
    {
        StateStore {
            states: IndexSet::new(alloc),
        }
    }

    /// The number of a state, by a look-up of its hash. A new state is inserted last.
    pub fn number_of(&mut self, s: Bits<W>) -> Result<u32, OutOfMemory>
        requires { length self.old < 2 ^ 32 }
        ensures place { IfOk result (λ n. slice_get self.new n ≡ Some s.entry) }
        ensures numbered { IfOk result (IsNumbered self.old self.new s.entry) }
        ensures distinct { AreDistinct self.new }
        ensures refused { OnErr result (self.new ≡ self.old) }
    {
        whole(&s);
        let (n, _) = self.states.insert_full(s)?;
        Ok(n as u32)
    }

    /// The state of this number, or none where there are not so many states. It takes no memory.
    pub fn get(&self, n: u32) -> Option<&Bits<W>>
        ensures at { option_copied result ≡ slice_get self.now n }
        ensures distinct { AreDistinct self.now }
    {
        self.states.get_index(n as usize)
    }
}
