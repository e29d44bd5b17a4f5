ghost use Rattle.std.specs.Prelude.{◌≡◌, ◌↔◌, ◌⊎◌, ◌*◌, ◌<◌, ◌≤◌, length, All, IsTrue, IsErr, IfOk, IfSome, IfNone, map};
ghost use Rattle.grd_base.specs.declared.ids.GoalId.{GoalId};
ghost use Rattle.cost_certificate.specs.Rows.{PlainRow};
ghost use Rattle.design_certificate.specs.Live.{given_from, IsValidLive};
ghost use Rattle.design_certificate.specs.Ranges.{AreLiveRowsOver, IsTableOver, IsLiveRowOver};
ghost use Rattle.cost_certificate.specs.Faults.{IsFirstBad};
ghost use Rattle.design_certificate.specs.LiveFaults.{IsFollowedOn, IsLeft, FailsLive, IsLiveFault};
ghost use Rattle.design_certificate.specs.declared.live.LiveFault.{LiveFault};

use crate::branch::has_number;
use crate::live::{LiveFault, LiveRow, LiveRows};
use crate::numbers::{fault_of_tables, has_begin, misnumbered_row};
use crate::rows::unfollowed_row;
use cost_certificate::{CheckKind, Table, tables_fail_once};
use grd_base::{ActionSet, GoalId, OutOfMemory, by_width};
use std::alloc::Global;
use strips_model::{Moves, Task, fits, known_task};

/// Whether the tables are one for each goal with a number, in their order.
fn have_goals(costs: &[Option<u32>], tables: &[(GoalId, Table)]) -> bool
    requires { length costs.now ≤ 32 }
    ensures { IsTrue result ↔ (map (λ x. x.0) tables.now ≡ given_from 0 costs.now) }
{
    let mut at = 0;
    for k in 0..costs.len() {
        let goal = GoalId(k as u32);
        if has_number(costs, goal) {
            if at == tables.len() {
                return false;
            }
            if tables[at].0 != goal {
                return false;
            }
            at += 1;
        }
    }
    at == tables.len()
}

/// The first row that is not followed, with its kind, by states of the width that the task needs.
fn left_row(
    alloc: Global,
    task: &Task,
    costs: &[Option<u32>],
    removed: &ActionSet,
    most: u32,
    tables: &[(GoalId, Table)],
    rows: &[LiveRow],
) -> Result<Option<LiveFault>, OutOfMemory>
    requires tables { All (IsTableOver task.now) tables.now }
    requires rows { All (IsLiveRowOver task.now) rows.now }
    ensures lacks { IfOk result (λ found. IfSome found (λ fault. IsFirstBad
        (IsFollowedOn task.now costs.now removed.now most (record { tables = tables.now; rows = rows.now }))
        (IsLeft task.now costs.now removed.now most (record { tables = tables.now; rows = rows.now }) fault.kind) rows.now fault.row)) }
    ensures has { IfOk result (λ found. IfNone found
        (All (IsFollowedOn task.now costs.now removed.now most (record { tables = tables.now; rows = rows.now })) rows.now)) }
{
    fits(task);
    let moves = Moves::of(alloc, task, removed)?;
    by_width!(
        task.atoms,
        unfollowed_row(alloc, &moves, costs, most, tables, rows)
    )
}

/// The first fault of live rows with their tables.
fn fault_of_rows(
    alloc: Global,
    task: &Task,
    costs: &[Option<u32>],
    removed: &ActionSet,
    most: u32,
    tables: &[(GoalId, Table)],
    rows: &[LiveRow],
) -> Result<Option<LiveFault>, OutOfMemory>
    requires costs { length costs.now ≤ 32 }
    requires tables { All (IsTableOver task.now) tables.now }
    requires rows { All (IsLiveRowOver task.now) rows.now }
    ensures valid { IfOk result (λ found. IfNone found
        (IsValidLive task.now costs.now removed.now most (record { tables = tables.now; rows = rows.now }))) }
    ensures fault { IfOk result (λ found. IfSome found (λ fault.
        FailsLive task.now costs.now removed.now most (record { tables = tables.now; rows = rows.now }) fault.kind fault.row)) }
{
    if !have_goals(costs, tables) {
        return Ok(Some(LiveFault {
            kind: CheckKind::BadLine,
            row: 0,
        }));
    }
    if let Some(fault) = fault_of_tables(alloc, task, removed, tables)? {
        return Ok(Some(LiveFault {
            kind: fault.kind,
            row: fault.row,
        }));
    }
    if let Some(row) = misnumbered_row(costs, most, rows) {
        return Ok(Some(LiveFault {
            kind: CheckKind::BadNumber,
            row: row as u64,
        }));
    }
    if let Some(fault) = left_row(alloc, task, costs, removed, most, tables, rows)? {
        return Ok(Some(fault));
    }
    if has_begin(task, costs, rows) {
        return Ok(None);
    }
    Ok(Some(LiveFault {
        kind: CheckKind::ClaimMissing,
        row: 0,
    }))
}

/// The first fault of live rows.
fn fault_of_live(
    alloc: Global,
    task: &Task,
    costs: &[Option<u32>],
    removed: &ActionSet,
    most: u32,
    live: &LiveRows,
) -> Result<Option<LiveFault>, OutOfMemory>
    requires costs { length costs.now ≤ length task.now.goals }
    requires live { AreLiveRowsOver task.now live.now }
    ensures valid { IfOk result (λ found. IfNone found (IsValidLive task.now costs.now removed.now most live.now)) }
    ensures fault { IfOk result (λ found. IfSome found (IsLiveFault task.now costs.now removed.now most live.now)) }
{
    known_task(task);
    let tables = live.tables.as_slice();
    let rows = live.rows.as_slice();
    fault_of_rows(alloc, task, costs, removed, most, tables, rows)
}

/// The first fault of live rows, or none where they are valid. They are tested in about the time that it
/// takes to test their tables and to make the successors of their rows.
pub fn valid_live(
    alloc: Global,
    task: &Task,
    costs: &[Option<u32>],
    removed: &ActionSet,
    most: u32,
    live: &LiveRows,
) -> Result<Option<LiveFault>, OutOfMemory>
    requires costs { length costs.now ≤ length task.now.goals }
    requires live { AreLiveRowsOver task.now live.now }
    ensures valid { IfOk result (λ found. IfNone found (IsValidLive task.now costs.now removed.now most live.now)) }
    ensures fault { IfOk result (λ found. IfSome found (IsLiveFault task.now costs.now removed.now most live.now)) }
    ensures valid_exactly { IsValidLive task.now costs.now removed.now most live.now → (result ≡ Ok None) ⊎ IsErr result }
    ensures fault_exactly { (fault : LiveFault) → IsLiveFault task.now costs.now removed.now most live.now fault
        → (result ≡ Ok (Some fault)) ⊎ IsErr result }
{
    tables_fail_once();
    fault_of_live(alloc, task, costs, removed, most, live)
}
