ghost use Rattle.std.specs.Prelude.{◌≡◌, ◌<◌, ◌≤◌, [], length, slice_get, IfOk, OnOk, IfSome, IfNone};
ghost use Rattle.std.specs.Option.{option_map};
ghost use Rattle.grd_base.specs.Bits.{members};
ghost use Rattle.plain_search.specs.Walks.{visit_of, visits, HasState, IsNoted, HasWays, IsWay};

use grd_base::{ActionId, Bits, whole};
use indexmap::IndexMap;
use std::alloc::{AllocError, AllocFailed, Global};
use std::marker::Model;
use thiserror::Error;

/// Why a walk gave up.
#[derive(Clone, Copy, Debug, PartialEq, Eq, Error)]
pub(crate) enum WalkFault {
    /// More states were reached than may be kept.
    #[error("too many states")]
    TooManyStates,
    #[error("out of memory")]
    OutOfMemory,
}

impl From<AllocError> for WalkFault {
    ghost use Rattle.std.specs.Prelude.{◌≡◌};
    ghost use Rattle.plain_search.specs.declared.visited.WalkFault.TheVariants.{OutOfMemory};

    ghost from_gives = { λ _ fault. fault ≡ OutOfMemory };

    fn from(_error: AllocError) -> WalkFault {
        WalkFault::OutOfMemory
    }
}

impl<T: Drop> From<AllocFailed<T>> for WalkFault {
    ghost use Rattle.std.specs.Prelude.{◌≡◌};
    ghost use Rattle.plain_search.specs.declared.visited.WalkFault.TheVariants.{OutOfMemory};

    ghost from_gives = { λ _ fault. fault ≡ OutOfMemory };

    fn from(_error: AllocFailed<T>) -> WalkFault {
        WalkFault::OutOfMemory
    }
}

/// How a state was first reached.
#[derive(Clone, Copy, Debug)]
pub(crate) struct Step {
    /// The place of the state before it, among the visited states.
    pub parent: usize,
    /// The action between the two.
    pub action: ActionId,
}

/// The visited states, each once, in the order of their visits.
#[derive(Drop)]
pub(crate) struct Visited<const W: usize> {
    steps: IndexMap<Bits<W>, Step>,
}

impl<const W: usize> Model for Visited<W> {
    ghost use Rattle.std.specs.Prelude.{List, ◌≤◌};
    ghost use Rattle.grd_base.specs.declared.bits.Bits.{Bits};
    ghost use Rattle.plain_search.specs.declared.visited.Step.{Step};
    ghost use Rattle.plain_search.specs.Walks.{AreWhole};

    ghost Value = { List (Bits W × Step) };

    ghost view = { λ v. v.steps.entries };

    // The width is what it takes to let the states go.
    ghost invariant = { λ v. AreWhole v.steps.entries × (W ≤ 64) };
}

impl<const W: usize> Visited<W> {
    /// No state.
    pub(crate) fn new(alloc: Global) -> Visited<W>
        requires { W ≤ 64 }
        ensures { result ≡ [] }
    {
        Visited {
            steps: IndexMap::new(alloc),
        }
    }

    /// How many states are visited.
    pub(crate) fn len(&self) -> usize
        ensures { result ≡ length self.now }
    {
        self.steps.len()
    }

    /// The state at a place.
    pub(crate) fn state(&self, place: usize) -> Option<Bits<W>>
        requires { W ≤ 64 }
        ensures { option_map members result ≡ option_map (λ v. v.state)
            (slice_get (visits self.now) place) }
    {
        let (state, _) = self.steps.get_index(place)?;
        Some(*state)
    }

    /// Visits a state, unless it is visited.
    pub(crate) fn note(&mut self, state: Bits<W>, step: Step, limit: u32) -> Result<(), WalkFault>
        requires width { W ≤ 64 }
        requires few { length self.old ≤ limit }
        ensures noted { OnOk result
            (IsNoted (visits self.old) (visits self.new) (visit_of (state.entry, step))) }
        ensures few { OnOk result (length self.new ≤ limit) }
        ensures many { result ≡ Err WalkFault.TooManyStates → (length self.old ≡ limit) ×
            (HasState (visits self.old) (members state.entry) → ⊥) }
    {
        whole(&state);
        if self.steps.contains_key(&state) {
            return Ok(());
        }
        if self.steps.len() >= limit as usize {
            return Err(WalkFault::TooManyStates);
        }
        self.steps.insert(state, step)?;
        Ok(())
    }

    /// The place of a state, if it is visited.
    pub(crate) fn place_of(&self, state: &Bits<W>) -> Option<usize>
        requires { W ≤ 64 }
        ensures found { IfSome result (λ place. option_map (λ v. v.state)
            (slice_get (visits self.now) place) ≡ Some (members state.now)) }
        ensures none { IfNone result (HasState (visits self.now) (members state.now) → ⊥) }
    {
        whole(state);
        self.steps.get_index_of(state)
    }

    /// The actions on the way from the first state to the one at a place.
    pub(crate) fn way_to(&self, alloc: Global, place: usize) -> Result<Vec<ActionId>, WalkFault>
        requires width { W ≤ 64 }
        requires place { place < length self.now }
        requires ways { HasWays (visits self.now) }
        ensures way { IfOk result (λ way. IsWay (visits self.now) place way.items) }
        ensures many { result ≡ Err WalkFault.TooManyStates → ⊥ }
    {
        let mut way = Vec::new(alloc);
        let mut at = place;
        while at > 0 {
            let step = self.steps[at];
            way.push(step.action)?;
            at = step.parent;
        }
        way.reverse();
        Ok(way)
    }
}
