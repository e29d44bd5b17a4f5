ghost use Rattle.std.specs.Prelude.{◌≡◌, ℕ, List, Option, Bool, IfOk};
ghost use Rattle.std.specs.declared.cmp.Ordering.TheVariants.{Equal};
ghost use Rattle.grd_base.specs.declared.ids.ActionId.{ActionId};
ghost use Rattle.grd_base.specs.declared.limits.Bound.{Bound};
ghost use Rattle.search_core.specs.Spaces.{Successors, IsAdmissible};

use grd_base::{ActionId, Bound, OutOfMemory};
use std::alloc::Global;
use std::hash::Hash;

/// States with labelled steps between them. Some states are done.
pub trait Space {
    /// A state. Its `Hash` finds it among the states of a search.
    type State: Copy + Ord + Hash;

    // The successors of a state, each with the action of its step.
    ghost next: { Self → Successors Self.State };

    // Whether a state is done.
    ghost is_done: { Self → Self.State → Bool };

    // A number that each floor's bound for the state is at least, or none, which counts as above
    // every number.
    ghost level: { Self → Self.State → Option ℕ };

    /// Whether the state is done.
    fn done(&self, s: &Self::State) -> bool
        ensures { result ≡ is_done self.now s.now };

    /// All steps from the state, in the order of its successors.
    fn successors(
        &self,
        alloc: Global,
        s: &Self::State,
    ) -> Result<Vec<(ActionId, Self::State)>, OutOfMemory>
        ensures { IfOk result (λ steps. steps.items ≡ next self.now s.now) };

    // States that compare equal are the same state.
    ghost same: { (x y : Self.State) → Self.State.Ord.cmp x y ≡ Equal → x ≡ y };
}

/// Bounds on the number of steps from a state of a space to a done one, each with a mark that shows
/// it.
pub trait Floor<S: Space> {
    /// What shows a bound, as a search keeps it.
    type Mark: Drop;

    /// What proves a bound, made of a mark once it is asked for.
    type Why;

    // That a mark shows a bound for a state.
    ghost shows: { Self → S → S.State → Self.Mark → Bound → Type 0 };

    // That a `Why` proves a bound for a state.
    ghost proves: { Self → S → S.State → Self.Why → Bound → Type 0 };

    /// A bound for the state, with a mark that shows it: at `Steps(n)` at least n steps lead to a done
    /// state, at `Never` none do. Two calls for one state may answer different bounds.
    fn at_least(
        &self,
        alloc: Global,
        space: &S,
        s: &S::State,
    ) -> Result<(Bound, Self::Mark), OutOfMemory>
        ensures { IfOk result (λ p. shows self.now space.now s.now p.1 p.0) };

    /// What proves, for the state, every bound that the mark shows for it.
    fn why(
        &self,
        alloc: Global,
        space: &S,
        s: &S::State,
        mark: &Self::Mark,
    ) -> Result<Self::Why, OutOfMemory>
        requires { (b : Bound) × shows self.now space.now s.now mark.now b }
        ensures { IfOk result (λ w. (b : Bound) → shows self.now space.now s.now mark.now b
            → proves self.now space.now s.now w b) };

    // A bound that a mark shows is at least the level, and at most the least number of steps to a
    // done state.
    ghost admissible: { (f : Self) (space : S) (s : S.State) (m : Self.Mark) (b : Bound)
        → shows f space s m b → IsAdmissible (S.next space) (S.is_done space) (S.level space s) s b };
}
