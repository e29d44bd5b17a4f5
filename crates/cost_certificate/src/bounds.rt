ghost use Rattle.std.specs.Prelude.{◌≡◌, ◌↔◌, ◌*◌, ◌<◌, ◌≤◌, List, [], ◌∷◌, ◌++◌, length, All, IsTrue, IfOk, IfSome, IfNone, Any, Contains};
ghost use Rattle.grd_base.specs.Bits.{members};
ghost use Rattle.strips_model.specs.Plans.{State, step_without};
ghost use Rattle.strips_model.specs.Moves.{allowed_of};
ghost use Rattle.cost_certificate.specs.Rows.{PlainRow};
ghost use Rattle.cost_certificate.specs.Tables.{HasRow, IsAtMost, IsRowOver, RowsHold, StepsHold, SuccessorsHave};
ghost use Rattle.cost_certificate.specs.Faults.{IsFirstBad};
ghost use Rattle.cost_certificate.specs.Seen.{AreBest};

use crate::order::is_enough;
use crate::rows::{Row, Why};
use grd_base::{ActionId, Bits, Bound, OutOfMemory, whole};
use indexmap::IndexMap;
use std::alloc::Global;
use std::marker::Model;
use strips_model::{Moves, advance, state_of};

/// Whether the state has a bound that is at least as high as is needed.
fn has_bound<const W: usize>(bounds: &IndexMap<Bits<W>, Bound>, s: &Bits<W>, need: Bound) -> bool
    requires { W ≤ 64 }
    ensures { IsTrue result ↔ Any (λ e. (e.0 ≡ s.now) × IsAtMost need e.1) bounds.now.entries }
{
    // The keys are distinct, so there is no other entry of the state.
    let _distinct = bounds.len();
    match bounds.get(s) {
        Some(bound) => is_enough(*bound, need),
        None => false,
    }
}

/// Keeps a row's bound, where no row of its state before has one that is at least as high.
fn note_row<const W: usize>(
    bounds: &mut IndexMap<Bits<W>, Bound>,
    row: &Row,
) -> Result<(), OutOfMemory>
    requires width { W ≤ 64 }
    requires state { All (λ a. a.0 < 64 * W) row.now.state }
    ensures { IfOk result (λ _. (before : List PlainRow) → AreBest before bounds.old.entries
        → AreBest (before ++ row.now ∷ []) bounds.new.entries) }
{
    let s = state_of::<W>(row.state.as_slice());
    whole(&s);
    if has_bound(bounds, &s, row.bound) {
        return Ok(());
    }
    bounds.insert(s, row.bound)?;
    Ok(())
}

/// The best bound of each state that has a row.
pub(crate) fn best_bounds<const W: usize>(
    alloc: Global,
    rows: &[Row],
) -> Result<IndexMap<Bits<W>, Bound>, OutOfMemory>
    requires width { W ≤ 64 }
    requires states { All (λ row. All (λ a. a.0 < 64 * W) row.state) rows.now }
    ensures { IfOk result (λ bounds. AreBest rows.now bounds.entries) }
{
    let mut bounds = IndexMap::new(alloc);
    for row in rows {
        note_row(&mut bounds, row)?;
    }
    Ok(bounds)
}

/// The rows of a table with the best bound of each state, which finds whether a state has a row without
/// looking at the rows.
#[derive(Drop)]
pub struct BestBounds<'r, const W: usize> {
    rows: &'r [Row],
    best: IndexMap<Bits<W>, Bound>,
}

impl<'r, const W: usize> Model for BestBounds<'r, W> {
    ghost use Rattle.std.specs.Prelude.{List, ◌≤◌};
    ghost use Rattle.cost_certificate.specs.Rows.{PlainRow};
    ghost use Rattle.cost_certificate.specs.Seen.{AreBest};

    ghost Value = { List PlainRow };

    ghost view = { λ b. b.rows.now };

    // The width is what it takes to let the states go.
    ghost invariant = { λ b. AreBest b.rows.now b.best.entries × (W ≤ 64) };
}

impl<'r, const W: usize> BestBounds<'r, W> {
    /// The rows with the best bound of each state.
    pub fn of(alloc: Global, rows: &'r [Row]) -> Result<BestBounds<'r, W>, OutOfMemory>
        requires width { W ≤ 64 }
        requires states { All (λ row. All (λ a. a.0 < 64 * W) row.state) rows.now }
        ensures { IfOk result (λ bounds. bounds ≡ rows.now) }
    {
        let best = best_bounds(alloc, rows)?;
        Ok(BestBounds { rows, best })
    }

    /// Whether the state has a row that is at least so high.
    pub fn has(&self, s: &Bits<W>, need: Bound) -> bool
        requires { W ≤ 64 }
        ensures { IsTrue result ↔ HasRow self.now (members s.now) need }
    {
        whole(s);
        has_bound(&self.best, s, need)
    }
}

/// Whether the step by the allowed action, where it applies, leads to a state with a row that is at
/// least so high.
fn successor_has<const W: usize>(
    moves: &Moves,
    bounds: &IndexMap<Bits<W>, Bound>,
    s: &Bits<W>,
    a: ActionId,
    need: Bound,
) -> bool
    requires width { W ≤ 64 }
    requires atoms { moves.now.task.atoms ≤ 64 * W }
    requires action { Contains (allowed_of moves.now.task moves.now.removed) a }
    ensures { (rows : List PlainRow) → AreBest rows bounds.now.entries
        → (IsTrue result ↔ ((u : State) → step_without moves.now.task moves.now.removed (members s.now) a ≡ Some u
        → HasRow rows u need)) }
{
    match advance(moves.task(), s, a) {
        Some(next) => {
            whole(&next);
            has_bound(bounds, &next, need)
        }
        None => true,
    }
}

/// Whether each successor of the state has a row that is at least so high.
fn successors_have<const W: usize>(
    moves: &Moves,
    bounds: &IndexMap<Bits<W>, Bound>,
    s: &Bits<W>,
    need: Bound,
) -> bool
    requires width { W ≤ 64 }
    requires atoms { moves.now.task.atoms ≤ 64 * W }
    ensures { (rows : List PlainRow) → AreBest rows bounds.now.entries
        → (IsTrue result ↔ SuccessorsHave moves.now.task moves.now.removed rows (members s.now) need) }
{
    let allowed = moves.allowed();
    for a in allowed {
        if !successor_has(moves, bounds, s, *a, need) {
            return false;
        }
    }
    true
}

/// Whether the successors of the state have what the bound needs by steps.
fn steps_hold<const W: usize>(
    moves: &Moves,
    bounds: &IndexMap<Bits<W>, Bound>,
    s: &Bits<W>,
    bound: Bound,
) -> bool
    requires width { W ≤ 64 }
    requires atoms { moves.now.task.atoms ≤ 64 * W }
    ensures { (rows : List PlainRow) → AreBest rows bounds.now.entries
        → (IsTrue result ↔ StepsHold moves.now.task moves.now.removed rows (members s.now) bound) }
{
    match bound {
        Bound::Steps(0) => true,
        Bound::Steps(r) => successors_have(moves, bounds, s, Bound::Steps(r - 1)),
        Bound::Never => successors_have(moves, bounds, s, Bound::Never),
    }
}

/// Whether a row by steps has what it needs of the other rows.
fn is_supported<const W: usize>(moves: &Moves, bounds: &IndexMap<Bits<W>, Bound>, row: &Row) -> bool
    requires width { W ≤ 64 }
    requires atoms { moves.now.task.atoms ≤ 64 * W }
    requires row { IsRowOver moves.now.task row.now }
    ensures { (rows : List PlainRow) → AreBest rows bounds.now.entries
        → (IsTrue result ↔ RowsHold moves.now.task moves.now.removed rows row.now row.now.why) }
{
    match &row.why {
        Why::Cuts(_) => true,
        Why::Steps => {
            let s = state_of::<W>(row.state.as_slice());
            steps_hold(moves, bounds, &s, row.bound)
        }
    }
}

/// The place of the first row that lacks what it needs of the others.
pub(crate) fn unsupported_row<const W: usize>(
    moves: &Moves,
    bounds: &IndexMap<Bits<W>, Bound>,
    rows: &[Row],
) -> Option<usize>
    requires width { W ≤ 64 }
    requires atoms { moves.now.task.atoms ≤ 64 * W }
    requires rows { All (IsRowOver moves.now.task) rows.now }
    requires best { AreBest rows.now bounds.now.entries }
    ensures lacks { IfSome result (IsFirstBad (λ r. RowsHold moves.now.task moves.now.removed rows.now r r.why)
        (λ r. RowsHold moves.now.task moves.now.removed rows.now r r.why → ⊥) rows.now) }
    ensures has { IfNone result (All (λ r. RowsHold moves.now.task moves.now.removed rows.now r r.why) rows.now) }
{
    for (i, row) in rows.iter().enumerate() {
        if !is_supported(moves, bounds, row) {
            return Some(i);
        }
    }
    None
}
