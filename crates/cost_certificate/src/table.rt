ghost use Rattle.std.specs.Prelude.{◌≡◌, ◌⊎◌, ◌*◌, ◌<◌, ◌≤◌, length, All, IsErr, IfOk, IfSome, IfNone};
ghost use Rattle.cost_certificate.specs.Tables.{IsRowOver, IsValidTable};
ghost use Rattle.cost_certificate.specs.Faults.{IsTableFault};
ghost use Rattle.cost_certificate.specs.declared.kinds.TableFault.{TableFault};

use crate::bounds::{best_bounds, unsupported_row};
use crate::kinds::{CheckKind, TableFault};
use crate::rows::{Row, Table};
use crate::soundness::unsound_row;
use grd_base::{ActionSet, GoalId, OutOfMemory, by_width};
use std::alloc::Global;
use strips_model::{Moves, Task, fits};

/// The first fault of the rows, by states of W words.
fn first_fault<const W: usize>(
    alloc: Global,
    moves: &Moves,
    goal: GoalId,
    rows: &[Row],
) -> Result<Option<TableFault>, OutOfMemory>
    requires width { W ≤ 64 }
    requires atoms { moves.now.task.atoms ≤ 64 * W }
    requires goal { goal.0 < length moves.now.task.goals }
    requires rows { All (IsRowOver moves.now.task) rows.now }
    ensures valid { IfOk result (λ found. IfNone found
        (IsValidTable moves.now.task goal moves.now.removed rows.now)) }
    ensures fault { IfOk result (λ found. IfSome found
        (IsTableFault moves.now.task goal moves.now.removed rows.now)) }
{
    if let Some(fault) = unsound_row::<W>(alloc, moves, goal, rows)? {
        return Ok(Some(fault));
    }
    let bounds = best_bounds::<W>(alloc, rows)?;
    let Some(row) = unsupported_row(moves, &bounds, rows) else {
        return Ok(None);
    };
    Ok(Some(TableFault {
        kind: CheckKind::RowSuccessor,
        row: row as u64,
        set: 0,
    }))
}

/// The first fault of a table, by states of the width that its task needs.
fn fault_of_table(
    alloc: Global,
    task: &Task,
    goal: GoalId,
    removed: &ActionSet,
    table: &Table,
) -> Result<Option<TableFault>, OutOfMemory>
    requires goal { goal.0 < length task.now.goals }
    requires rows { All (IsRowOver task.now) table.now }
    ensures valid { IfOk result (λ found. IfNone found (IsValidTable task.now goal removed.now table.now)) }
    ensures fault { IfOk result (λ found. IfSome found (IsTableFault task.now goal removed.now table.now)) }
{
    fits(task);
    let moves = Moves::of(alloc, task, removed)?;
    let rows = table.rows.as_slice();
    by_width!(task.atoms, first_fault(alloc, &moves, goal, rows))
}

/// The first fault of a table for the goal without the removed actions, or none where the table is
/// valid. A table is tested in about the time that it takes to make the successors of its rows by
/// steps and the cuts of its sets.
pub fn valid_table(
    alloc: Global,
    task: &Task,
    goal: GoalId,
    removed: &ActionSet,
    table: &Table,
) -> Result<Option<TableFault>, OutOfMemory>
    requires goal { goal.0 < length task.now.goals }
    requires rows { All (IsRowOver task.now) table.now }
    ensures valid { IfOk result (λ found. IfNone found (IsValidTable task.now goal removed.now table.now)) }
    ensures fault { IfOk result (λ found. IfSome found (IsTableFault task.now goal removed.now table.now)) }
    ensures valid_exactly { IsValidTable task.now goal removed.now table.now → (result ≡ Ok None) ⊎ IsErr result }
    ensures fault_exactly { (fault : TableFault) → IsTableFault task.now goal removed.now table.now fault
        → (result ≡ Ok (Some fault)) ⊎ IsErr result }
{
    fault_of_table(alloc, task, goal, removed, table)
}
