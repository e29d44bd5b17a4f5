ghost use Rattle.std.specs.Prelude.{◌≡◌, ◌⊎◌, ◌≤◌, [], All, Any, Contains, IfOk, IfSome};
ghost use Rattle.grd_base.specs.declared.bits.Bits.{Bits};
ghost use Rattle.grd_base.specs.declared.limits.Bound.{Bound};
ghost use Rattle.grd_base.specs.declared.limits.Bound.TheVariants.{Steps};
ghost use Rattle.search_core.specs.declared.rows.KeptRow.{KeptRow};
ghost use Rattle.optimal_search.specs.Kept.{rows_in, bare_row, HasBound, AreFrom};

use cost_certificate::is_enough;
use grd_base::{Bits, Bound, OutOfMemory};
use indexmap::IndexMap;
use search_core::KeptRow;
use std::alloc::Global;

/// A bound that was proved for a state.
#[derive(Drop)]
pub(crate) struct Proved<M> {
    pub(crate) bound: Bound,
    /// What shows it, if a floor does; else the bounds of the state's successors do.
    pub(crate) mark: Option<M>,
}

/// States, each with the best bound that was proved for it.
#[derive(Drop)]
pub(crate) struct Kept<const W: usize, M> {
    pub(crate) proved: IndexMap<Bits<W>, Proved<M>>,
}

impl<const W: usize, M: Drop> Kept<W, M> {
    /// No states.
    pub(crate) fn new(alloc: Global) -> Kept<W, M>
        requires { W ≤ 64 }
        ensures { rows_in result.proved.entries ≡ [] }
    {
        Kept {
            proved: IndexMap::new(alloc),
        }
    }

    /// The bound of a state, if it has one. It takes no memory.
    pub(crate) fn bound_of(&self, s: &Bits<W>) -> Option<Bound>
        requires width { W ≤ 64 }
        ensures { IfSome result (λ bound. HasBound (rows_in self.now.proved.entries) s.now bound) }
    {
        match self.proved.get(s) {
            Some(known) => Some(known.bound),
            None => None,
        }
    }

    /// Enters a state that is not there yet, with a bound that holds for every state that is not done.
    fn enter(&mut self, s: &Bits<W>) -> Result<(), OutOfMemory>
        requires width { W ≤ 64 }
        ensures made { (row : KeptRow (Bits W) M) → Contains (rows_in self.new.proved.entries) row
            → Contains (rows_in self.old.proved.entries) row ⊎ (bare_row s.now ≡ row) }
        ensures grows { (t : Bits W) (bound : Bound) → HasBound (rows_in self.old.proved.entries) t bound
            → HasBound (rows_in self.new.proved.entries) t bound }
        ensures entered { IfOk result (λ _. HasBound (rows_in self.new.proved.entries) s.now (Steps 0)) }
    {
        if self.proved.get_index_of(s).is_some() {
            return Ok(());
        }
        let bare = Proved {
            bound: Bound::Steps(0),
            mark: None,
        };
        self.proved.insert(*s, bare)?;
        Ok(())
    }

    /// Enters the states of the rows that are not there yet.
    fn enter_all(&mut self, rows: &[KeptRow<Bits<W>, M>]) -> Result<(), OutOfMemory>
        requires width { W ≤ 64 }
        ensures made { (row : KeptRow (Bits W) M) → Contains (rows_in self.new.proved.entries) row
            → Contains (rows_in self.old.proved.entries) row ⊎ Any (λ kept. bare_row kept.state ≡ row) rows.now }
        ensures grows { (s : Bits W) (bound : Bound) → HasBound (rows_in self.old.proved.entries) s bound
            → HasBound (rows_in self.new.proved.entries) s bound }
        ensures entered { IfOk result (λ _. All (λ row. HasBound (rows_in self.new.proved.entries) row.state (Steps 0)) rows.now) }
    {
        for row in rows {
            self.enter(&row.state)?;
        }
        Ok(())
    }

    /// Takes the row in place of its state's, where its bound is better.
    fn raise(&mut self, row: KeptRow<Bits<W>, M>)
        requires width { W ≤ 64 }
        requires entered { HasBound (rows_in self.old.proved.entries) row.state (Steps 0) }
        ensures made { (other : KeptRow (Bits W) M) → Contains (rows_in self.new.proved.entries) other
            → Contains (rows_in self.old.proved.entries) other ⊎ (row ≡ other) }
        ensures grows { (s : Bits W) (bound : Bound) → HasBound (rows_in self.old.proved.entries) s bound
            → HasBound (rows_in self.new.proved.entries) s bound }
        ensures held { HasBound (rows_in self.new.proved.entries) row.state row.bound }
    {
        if let Some(place) = self.proved.get_index_of(&row.state) {
            let known = &mut self.proved[place];
            if !is_enough(known.bound, row.bound) {
                known.bound = row.bound;
                known.mark = row.mark;
            }
        }
    }

    /// Takes each row in place of its state's, where its bound is better.
    fn raise_all(&mut self, rows: Vec<KeptRow<Bits<W>, M>>)
        requires width { W ≤ 64 }
        requires entered { All (λ row. HasBound (rows_in self.old.proved.entries) row.state (Steps 0)) rows.items }
        ensures made { (row : KeptRow (Bits W) M) → Contains (rows_in self.new.proved.entries) row
            → Contains (rows_in self.old.proved.entries) row ⊎ Contains rows.items row }
        ensures grows { (s : Bits W) (bound : Bound) → HasBound (rows_in self.old.proved.entries) s bound
            → HasBound (rows_in self.new.proved.entries) s bound }
        ensures held { All (λ row. HasBound (rows_in self.new.proved.entries) row.state row.bound) rows.items }
    {
        for row in rows {
            self.raise(row);
        }
    }

    /// Keeps the rows of a search, where each is the best for its state. Where memory is wanting each state
    /// keeps a bound that holds.
    pub(crate) fn keep(&mut self, rows: Vec<KeptRow<Bits<W>, M>>) -> Result<(), OutOfMemory>
        requires width { W ≤ 64 }
        ensures made { AreFrom (rows_in self.old.proved.entries) rows.items (rows_in self.new.proved.entries) }
        ensures grows { (s : Bits W) (bound : Bound) → HasBound (rows_in self.old.proved.entries) s bound
            → HasBound (rows_in self.new.proved.entries) s bound }
        ensures held { IfOk result (λ _. (s : Bits W) (bound : Bound) → HasBound rows.items s bound
            → HasBound (rows_in self.new.proved.entries) s bound) }
    {
        self.enter_all(&rows)?;
        self.raise_all(rows);
        Ok(())
    }
}
