ghost use Rattle.std.specs.Prelude.{◌≡◌, ◌*◌, ◌<◌, ◌≤◌, map, All, IfOk, IfSome};
ghost use Rattle.grd_base.specs.declared.limits.Bound.{Bound};
ghost use Rattle.grd_base.specs.Bits.{members};
ghost use Rattle.strips_model.specs.Plans.{IsOver};
ghost use Rattle.cut_bounds.specs.CutMarks.{IsCutMark};
ghost use Rattle.optimal_search.specs.Rows.{why_of, row_of};
ghost use Rattle.optimal_search.specs.Oracles.{AreRight};

use crate::space::TaskSpace;
use cost_certificate::{Row, Table, Why};
use cut_bounds::CutMark;
use grd_base::{Bits, Bound, OutOfMemory};
use search_core::KeptRow;
use std::alloc::Global;
use strips_model::{atoms_of, known_task};

/// What refutes a row of a state of the task: what is reached around the lists of its mark, or its
/// successors.
fn why_at<const W: usize>(
    alloc: Global,
    space: &TaskSpace<W>,
    s: &Bits<W>,
    mark: &Option<CutMark>,
) -> Result<Why, OutOfMemory>
    requires over { IsOver space.now.task (members s.now) }
    requires shows { IfSome mark.now
        (λ lists. (bound : Bound) × IsCutMark space.now.task space.now.goal space.now.removed (members s.now) lists bound) }
    ensures { IfOk result (λ why. why ≡ why_of space.now.task space.now.removed (members s.now) mark.now) }
{
    match mark {
        Some(mark) => Ok(Why::Cuts(space.family_at(alloc, s, mark)?)),
        None => Ok(Why::Steps),
    }
}

/// The row of a state of the task.
pub(crate) fn row_at<const W: usize>(
    alloc: Global,
    space: &TaskSpace<W>,
    s: &Bits<W>,
    bound: Bound,
    mark: &Option<CutMark>,
) -> Result<Row, OutOfMemory>
    requires over { IsOver space.now.task (members s.now) }
    requires shows { IfSome mark.now
        (λ lists. (bound : Bound) × IsCutMark space.now.task space.now.goal space.now.removed (members s.now) lists bound) }
    ensures { IfOk result (λ row. row ≡ row_of space.now.task space.now.removed (record {
      state = s.now;
      bound = bound;
      mark = mark.now;
    })) }
{
    let state = atoms_of(alloc, s, space.task().atoms)?;
    let why = why_at(alloc, space, s, mark)?;
    Ok(Row { state, bound, why })
}

/// The table of the rows of a search.
pub(crate) fn table_of<const W: usize>(
    alloc: Global,
    space: &TaskSpace<W>,
    rows: &[KeptRow<Bits<W>, CutMark>],
) -> Result<Table, OutOfMemory>
    requires width { W ≤ 64 }
    requires right { AreRight space.now.task space.now.goal space.now.removed rows.now }
    ensures { IfOk result (λ table. table ≡ map (row_of space.now.task space.now.removed) rows.now) }
{
    let mut table = Vec::with_capacity(alloc, rows.len())?;
    for row in rows {
        table.push(row_at(alloc, space, &row.state, row.bound, &row.mark)?)?;
    }
    Ok(Table { rows: table })
}
