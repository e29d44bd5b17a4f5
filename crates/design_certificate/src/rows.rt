ghost use Rattle.std.specs.Prelude.{◌≡◌, ◌↔◌, ◌⊎◌, ◌*◌, ◌<◌, ◌≤◌, length, All, IsTrue, IfOk, IfSome, IfNone};
ghost use Rattle.cost_certificate.specs.Faults.{IsFirstBad};
ghost use Rattle.design_certificate.specs.LiveFaults.{IsFollowedOn, IsLeft};
ghost use Rattle.design_certificate.specs.Followers.{live_of};
ghost use Rattle.cost_certificate.specs.declared.kinds.CheckKind.TheVariants.{LiveSuccessor, LiveTooDeep};

use crate::followed::{Followers, bounds_of, step_followed};
use crate::index::LiveIndex;
use crate::live::{LiveFault, LiveRow};
use cost_certificate::{CheckKind, Table};
use grd_base::{GoalId, OutOfMemory};
use std::alloc::Global;
use strips_model::{Moves, state_of};

/// Whether the row is followed at each successor.
fn is_followed_on<const W: usize>(
    alloc: Global,
    moves: &Moves,
    followers: &Followers<W>,
    row: &LiveRow,
) -> Result<bool, OutOfMemory>
    requires width { W ≤ 64 }
    requires atoms { moves.now.task.atoms ≤ 64 * W }
    requires state { All (λ a. a.0 < 64 * W) row.now.state }
    ensures { IfOk result (λ is. IsTrue is
        ↔ IsFollowedOn moves.now.task followers.now.costs.now moves.now.removed followers.now.length (live_of followers.now) row.now) }
{
    let s = state_of::<W>(row.state.as_slice());
    let allowed = moves.allowed();
    for a in allowed {
        if !step_followed(alloc, moves, followers, row, &s, *a)? {
            return Ok(false);
        }
    }
    Ok(true)
}

/// How the row is left, where it is not followed.
fn kind_of_left(length: u32, row: &LiveRow) -> CheckKind
    ensures { ((result ≡ LiveSuccessor) × (row.now.depth < length)) ⊎ ((result ≡ LiveTooDeep) × (length ≤ row.now.depth)) }
{
    if row.depth < length {
        return CheckKind::LiveSuccessor;
    }
    CheckKind::LiveTooDeep
}

/// The first of the rows that is not followed, with its kind.
fn first_left<const W: usize>(
    alloc: Global,
    moves: &Moves,
    followers: &Followers<W>,
    rows: &[LiveRow],
) -> Result<Option<LiveFault>, OutOfMemory>
    requires width { W ≤ 64 }
    requires atoms { moves.now.task.atoms ≤ 64 * W }
    requires states { All (λ row. All (λ a. a.0 < 64 * W) row.state) rows.now }
    ensures lacks { IfOk result (λ found. IfSome found (λ fault. IsFirstBad
        (IsFollowedOn moves.now.task followers.now.costs.now moves.now.removed followers.now.length (live_of followers.now))
        (IsLeft moves.now.task followers.now.costs.now moves.now.removed followers.now.length (live_of followers.now) fault.kind)
        rows.now fault.row)) }
    ensures has { IfOk result (λ found. IfNone found
        (All (IsFollowedOn moves.now.task followers.now.costs.now moves.now.removed followers.now.length (live_of followers.now)) rows.now)) }
{
    for (i, row) in rows.iter().enumerate() {
        if !is_followed_on(alloc, moves, followers, row)? {
            let kind = kind_of_left(followers.length, row);
            return Ok(Some(LiveFault {
                kind,
                row: i as u64,
            }));
        }
    }
    Ok(None)
}

/// The first row that is not followed, with its kind.
pub(crate) fn unfollowed_row<const W: usize>(
    alloc: Global,
    moves: &Moves,
    costs: &[Option<u32>],
    length: u32,
    tables: &[(GoalId, Table)],
    rows: &[LiveRow],
) -> Result<Option<LiveFault>, OutOfMemory>
    requires width { W ≤ 64 }
    requires atoms { moves.now.task.atoms ≤ 64 * W }
    requires states { All (λ x. All (λ row. All (λ a. a.0 < 64 * W) row.state) x.1) tables.now }
    requires live { All (λ row. All (λ a. a.0 < 64 * W) row.state) rows.now }
    ensures lacks { IfOk result (λ found. IfSome found (λ fault. IsFirstBad
        (IsFollowedOn moves.now.task costs.now moves.now.removed length (record { tables = tables.now; rows = rows.now }))
        (IsLeft moves.now.task costs.now moves.now.removed length (record { tables = tables.now; rows = rows.now }) fault.kind)
        rows.now fault.row)) }
    ensures has { IfOk result (λ found. IfNone found
        (All (IsFollowedOn moves.now.task costs.now moves.now.removed length (record { tables = tables.now; rows = rows.now })) rows.now)) }
{
    let tables = bounds_of::<W>(alloc, tables)?;
    let index = LiveIndex::of(alloc, rows)?;
    let followers = Followers {
        costs,
        length,
        tables,
        index,
    };
    first_left(alloc, moves, &followers, rows)
}
