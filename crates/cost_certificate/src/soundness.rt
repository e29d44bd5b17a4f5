ghost use Rattle.std.specs.Prelude.{◌≡◌, ◌↔◌, ◌*◌, ◌<◌, ◌≤◌, List, length, All, IsTrue, IfOk, IfSome, IfNone};
ghost use Rattle.grd_base.specs.declared.ids.AtomId.{AtomId};
ghost use Rattle.grd_base.specs.declared.ids.ActionId.{ActionId};
ghost use Rattle.grd_base.specs.Bits.{members};
ghost use Rattle.strips_model.specs.Values.{PlainTask, AreAtoms};
ghost use Rattle.strips_model.specs.Cuts.{IsFamily};
ghost use Rattle.cost_certificate.specs.Tables.{HasEmptyCut, CutsSuffice, IsRowOver, IsSoundRow};
ghost use Rattle.cost_certificate.specs.Faults.{FailsRow, FailsSets, IsFirstBad};
ghost use Rattle.cost_certificate.specs.Seen.{FailsBehind, JoinsFamily};

use crate::cuts::{Seen, cut_of};
use crate::kinds::{CheckKind, TableFault};
use crate::rows::{Row, Why};
use grd_base::{AtomId, Bits, Bound, GoalId, OutOfMemory};
use std::alloc::Global;
use strips_model::{Family, Moves, holds, state_of};

/// What a row fails for itself.
#[derive(Clone, Copy)]
pub(crate) struct RowFault {
    kind: CheckKind,
    /// The set's place in the row, from 0.
    set: usize,
}

/// What one more set of a row fails, or nothing where it joins the family of those before it.
fn fault_of_set<const W: usize>(
    alloc: Global,
    moves: &Moves,
    goal: GoalId,
    s: &Bits<W>,
    set: &[AtomId],
    seen: &mut Seen,
) -> Result<Option<CheckKind>, OutOfMemory>
    requires width { W ≤ 64 }
    requires atoms { moves.now.task.atoms ≤ 64 * W }
    requires goal { goal.0 < length moves.now.task.goals }
    requires set { AreAtoms moves.now.task.atoms set.now }
    ensures fails { IfOk result (λ found. IfSome found
        (λ kind. FailsBehind moves.now.task goal moves.now.removed (members s.now) seen.old set.now kind)) }
    ensures joins { IfOk result (λ found. IfNone found
        (JoinsFamily moves.now.task goal moves.now.removed (members s.now) seen.old seen.new set.now)) }
{
    let u = state_of::<W>(set);
    if !s.is_subset(&u) {
        return Ok(Some(CheckKind::CutMissesState));
    }
    if holds(moves.task(), &u, goal) {
        return Ok(Some(CheckKind::CutHoldsGoal));
    }
    let actions = cut_of(alloc, moves, &u)?;
    if seen.has_some(&actions) {
        return Ok(Some(CheckKind::CutsMeet));
    }
    seen.add(&actions)?;
    Ok(None)
}

/// Whether so many cuts suffice for the bound.
fn suffices(bound: Bound, cuts: usize, has_empty: bool) -> bool
    ensures { (t : PlainTask) (removed : List ActionId) (sets : List (List AtomId)) → length sets ≡ cuts
        → (IsTrue has_empty ↔ HasEmptyCut t removed sets) → (IsTrue result ↔ CutsSuffice t removed sets bound) }
{
    match bound {
        Bound::Steps(r) => has_empty || (r as usize) < cuts,
        Bound::Never => has_empty,
    }
}

/// What the sets of a row fail: the first set that does not join the family of those before it, or that
/// they are too few.
fn fault_of_sets<const W: usize>(
    alloc: Global,
    moves: &Moves,
    goal: GoalId,
    s: &Bits<W>,
    family: &Family,
    bound: Bound,
) -> Result<Option<RowFault>, OutOfMemory>
    requires width { W ≤ 64 }
    requires atoms { moves.now.task.atoms ≤ 64 * W }
    requires goal { goal.0 < length moves.now.task.goals }
    requires sets { All (AreAtoms moves.now.task.atoms) family.now }
    ensures fails { IfOk result (λ found. IfSome found
        (λ fault. FailsSets moves.now.task goal moves.now.removed (members s.now) bound family.now fault.kind fault.set)) }
    ensures holds { IfOk result (λ found. IfNone found
        (IsFamily moves.now.task goal moves.now.removed (members s.now) family.now
        × CutsSuffice moves.now.task moves.now.removed family.now bound)) }
{
    let mut seen = Seen::new(alloc);
    for (i, set) in family.sets.iter().enumerate() {
        if let Some(kind) = fault_of_set(alloc, moves, goal, s, set.as_slice(), &mut seen)? {
            return Ok(Some(RowFault { kind, set: i }));
        }
    }
    if suffices(bound, family.sets.len(), seen.has_empty) {
        return Ok(None);
    }
    Ok(Some(RowFault {
        kind: CheckKind::TooFewCuts,
        set: 0,
    }))
}

/// What a row fails for itself.
fn fault_of_row<const W: usize>(
    alloc: Global,
    moves: &Moves,
    goal: GoalId,
    row: &Row,
) -> Result<Option<RowFault>, OutOfMemory>
    requires width { W ≤ 64 }
    requires atoms { moves.now.task.atoms ≤ 64 * W }
    requires goal { goal.0 < length moves.now.task.goals }
    requires row { IsRowOver moves.now.task row.now }
    ensures fails { IfOk result (λ found. IfSome found
        (λ fault. FailsRow moves.now.task goal moves.now.removed row.now fault.kind fault.set)) }
    ensures sound { IfOk result (λ found. IfNone found
        (IsSoundRow moves.now.task goal moves.now.removed row.now)) }
{
    let s = state_of::<W>(row.state.as_slice());
    if holds(moves.task(), &s, goal) {
        return Ok(Some(RowFault {
            kind: CheckKind::RowGoalHolds,
            set: 0,
        }));
    }
    match &row.why {
        Why::Cuts(family) => fault_of_sets(alloc, moves, goal, &s, family, row.bound),
        Why::Steps => Ok(None),
    }
}

/// The first fault of a row for itself.
pub(crate) fn unsound_row<const W: usize>(
    alloc: Global,
    moves: &Moves,
    goal: GoalId,
    rows: &[Row],
) -> Result<Option<TableFault>, OutOfMemory>
    requires width { W ≤ 64 }
    requires atoms { moves.now.task.atoms ≤ 64 * W }
    requires goal { goal.0 < length moves.now.task.goals }
    requires rows { All (IsRowOver moves.now.task) rows.now }
    ensures fails { IfOk result (λ found. IfSome found
        (λ fault. IsFirstBad (IsSoundRow moves.now.task goal moves.now.removed)
        (λ r. FailsRow moves.now.task goal moves.now.removed r fault.kind fault.set) rows.now fault.row)) }
    ensures sound { IfOk result (λ found. IfNone found
        (All (IsSoundRow moves.now.task goal moves.now.removed) rows.now)) }
{
    for (i, row) in rows.iter().enumerate() {
        if let Some(fault) = fault_of_row::<W>(alloc, moves, goal, row)? {
            return Ok(Some(TableFault {
                kind: fault.kind,
                row: i as u64,
                set: fault.set as u64,
            }));
        }
    }
    Ok(None)
}
