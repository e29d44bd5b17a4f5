ghost use Rattle.std.specs.Prelude.{◌≡◌, ◌<◌, ◌≤◌, [], ◌∷◌, length, All, IfOk};
ghost use Rattle.grd_base.specs.Rising.{IsRisingBy};
ghost use Rattle.design_certificate.specs.Ranges.{AreLiveRowsOver, IsLiveRowOver, IsTableOver};

use crate::samples::{FORK, atoms, goal, set_of, task};
use crate::tables::{PlainRow, table};
use cost_certificate::{CheckKind, Table};
use design_certificate::{LiveFault, LiveRow, LiveRows, live_rows_show_wcd, valid_live};
use grd_base::{Bound, GoalId};
use std::alloc::Global;
use std::test::Fail;
use strips_model::Task;

// A goal with the rows of its table.
type PlainTable = (u32, &'static [PlainRow]);

// A live row by its depth, the atoms of its state, and its goals.
type PlainLive = (u32, &'static [u32], &'static [u32]);

fn two_goals(alloc: Global, first: GoalId, second: GoalId) -> Result<Vec<GoalId>, Fail>
    ensures rise { IfOk result (λ goals. IsRisingBy (λ g. g.0) goals.items) }
    ensures those { IfOk result (λ goals. goals.items ≡ first ∷ second ∷ []) }
{
    if first.0 >= second.0 {
        return Err("two goals, rising")?;
    }
    Ok(vec![in alloc; first, second]?)
}

// At most two goals, rising.
fn goals(alloc: Global, task: &Task, numbers: &[u32]) -> Result<Vec<GoalId>, Fail>
    ensures rise { IfOk result (λ goals. IsRisingBy (λ g. g.0) goals.items) }
    ensures below { IfOk result (λ goals. All (λ g. g.0 < length task.now.goals) goals.items) }
{
    match numbers {
        [] => Ok(Vec::new(alloc)),
        [g] => Ok(vec![in alloc; goal(task, *g)?]?),
        [g, h] => two_goals(alloc, goal(task, *g)?, goal(task, *h)?),
        _ => Err("at most two goals")?,
    }
}

fn live_row(alloc: Global, task: &Task, plain: PlainLive) -> Result<LiveRow, Fail>
    ensures { IfOk result (IsLiveRowOver task.now) }
{
    let (depth, state, numbers) = plain;
    Ok(LiveRow {
        state: atoms(alloc, task.atoms, state)?,
        depth,
        goals: goals(alloc, task, numbers)?,
    })
}

fn goal_table(alloc: Global, task: &Task, plain: PlainTable) -> Result<(GoalId, Table), Fail>
    ensures { IfOk result (IsTableOver task.now) }
{
    let (number, rows) = plain;
    Ok((goal(task, number)?, table(alloc, task, rows)?))
}

fn tables(alloc: Global, task: &Task, plain: &[PlainTable]) -> Result<Vec<(GoalId, Table)>, Fail>
    ensures { IfOk result (λ tables. All (IsTableOver task.now) tables.items) }
{
    let mut tables = Vec::new(alloc);
    for one in plain {
        tables.push(goal_table(alloc, task, *one)?)?;
    }
    Ok(tables)
}

fn live_rows(alloc: Global, task: &Task, plain: &[PlainLive]) -> Result<Vec<LiveRow>, Fail>
    ensures { IfOk result (λ rows. All (IsLiveRowOver task.now) rows.items) }
{
    let mut rows = Vec::new(alloc);
    for one in plain {
        rows.push(live_row(alloc, task, *one)?)?;
    }
    Ok(rows)
}

// The numbers of the goals, the removed actions, the length, the tables and the live rows.
type Plain = (
    &'static [Option<u32>],
    &'static [u32],
    u32,
    &'static [PlainTable],
    &'static [PlainLive],
);

// The first fault of live rows of fork.
fn fault(alloc: Global, plain: Plain) -> Result<Option<LiveFault>, Fail> {
    let (numbers, removed, most, tables_of, rows_of) = plain;
    let task = task(alloc, &FORK)?;
    if numbers.len() > task.goals.len() {
        return Err("a number for each goal")?;
    }
    let live = LiveRows {
        tables: tables(alloc, &task, tables_of)?,
        rows: live_rows(alloc, &task, rows_of)?,
    };
    let removed = set_of(alloc, removed)?;
    Ok(valid_live(alloc, &task, numbers, &removed, most, &live)?)
}

const NEVER: Bound = Bound::Never;

// Who went right never gets left, and the other way round.
const WENT_RIGHT: PlainRow = (&[4], NEVER, Some(&[&[4]]));

const WENT_LEFT: PlainRow = (&[3], NEVER, Some(&[&[3]]));

const LEFT: PlainTable = (0, &[WENT_RIGHT]);

const RIGHT: PlainTable = (1, &[WENT_LEFT]);

const BOTH: &[PlainTable] = &[LEFT, RIGHT];

const COSTS: &[Option<u32>] = &[Some(3), Some(3)];

const AT_0: PlainLive = (0, &[0], &[0, 1]);

const AT_1: PlainLive = (1, &[1], &[0, 1]);

const AT_2: PlainLive = (2, &[2], &[0, 1]);

const LEFT_AT_2: PlainLive = (2, &[2], &[0]);

const ROWS: &[PlainLive] = &[AT_0, AT_1, AT_2];

const GREATER: &[Option<u32>] = &[Some(4), Some(5)];

const ONE: &[Option<u32>] = &[None, Some(3)];

// Deeper rows than needed may be allowed, the last row of a state need not be the one with the goals, greater
// numbers may be given, without the second action nothing leads on from atom 1, and one goal is shared with none.
const VALID: &[Plain] = &[
    (COSTS, &[], 2, BOTH, ROWS),
    (COSTS, &[], 3, BOTH, ROWS),
    (COSTS, &[], 2, BOTH, &[AT_2, LEFT_AT_2, AT_1, AT_0]),
    (GREATER, &[], 2, BOTH, ROWS),
    (COSTS, &[1], 1, BOTH, &[AT_0, AT_1]),
    (ONE, &[], 0, &[RIGHT], &[(0, &[0], &[1])]),
];

#[test]
fn live_rows_of_fork_are_valid(rt: HostRuntime) -> Result<(), Fail> {
    for row in VALID {
        assert_eq!(rt; fault(rt.alloc(), *row)?, None, "{}", row.2);
    }
    Ok(())
}

// Tables of fork's goals, and the kind and the place of their first fault together with the live rows.
type TableFault = (&'static [PlainTable], CheckKind, u64);

const ROW_LEFT: PlainTable = (0, &[WENT_RIGHT, WENT_LEFT]);

const SET_OF_1: PlainTable = (0, &[(&[4], NEVER, Some(&[&[1]]))]);

const SET_OF_BOTH: PlainTable = (0, &[(&[4], NEVER, Some(&[&[3, 4]]))]);

const SET_TWICE: PlainTable = (1, &[WENT_LEFT, (&[0], NEVER, Some(&[&[0], &[0]]))]);

const ONE_CUT: PlainTable = (0, &[(&[0], Bound::Steps(1), Some(&[&[0]]))]);

const NO_NEXT: PlainTable = (1, &[WENT_LEFT, (&[0], Bound::Steps(1), None)]);

const TABLE_FAULTS: &[TableFault] = &[
    (&[RIGHT, LEFT], CheckKind::BadLine, 0),
    (&[LEFT], CheckKind::BadLine, 0),
    (&[LEFT, RIGHT, RIGHT], CheckKind::BadLine, 0),
    (&[ROW_LEFT, RIGHT], CheckKind::RowGoalHolds, 1),
    (&[SET_OF_1, RIGHT], CheckKind::CutMissesState, 0),
    (&[SET_OF_BOTH, RIGHT], CheckKind::CutHoldsGoal, 0),
    (&[LEFT, SET_TWICE], CheckKind::CutsMeet, 1),
    (&[ONE_CUT, RIGHT], CheckKind::TooFewCuts, 0),
    (&[LEFT, NO_NEXT], CheckKind::RowSuccessor, 1),
    (&[LEFT, (1, &[])], CheckKind::LiveTooDeep, 2),
];

// The goals of the tables come first, and then the tables with their rows.
#[test]
fn each_fault_of_tables_of_live_rows_has_its_place(rt: HostRuntime) -> Result<(), Fail> {
    for (tables, kind, row) in TABLE_FAULTS {
        let wanted = Some(LiveFault {
            kind: *kind,
            row: *row,
        });
        let found = fault(rt.alloc(), (COSTS, &[], 2, tables, ROWS))?;
        assert_eq!(rt; found, wanted, "{kind}");
    }
    Ok(())
}

// The numbers of the goals, the length, live rows of fork, and the kind and the place of their first fault.
type RowFault = (
    &'static [Option<u32>],
    u32,
    &'static [PlainTable],
    &'static [PlainLive],
    CheckKind,
    u64,
);

const LATE: PlainLive = (1, &[2], &[0, 1]);

const DEEP: PlainLive = (3, &[2], &[0, 1]);

const LEFT_AT_0: PlainLive = (0, &[0], &[0]);

const ROW_FAULTS: &[RowFault] = &[
    (COSTS, 2, BOTH, &[AT_0, AT_1, DEEP], CheckKind::BadNumber, 2),
    (COSTS, 1, BOTH, ROWS, CheckKind::BadNumber, 2),
    (ONE, 2, &[RIGHT], ROWS, CheckKind::BadNumber, 0),
    (COSTS, 2, BOTH, &[AT_0, AT_1], CheckKind::LiveSuccessor, 1),
    (
        COSTS,
        2,
        BOTH,
        &[AT_0, AT_1, LEFT_AT_2],
        CheckKind::LiveSuccessor,
        1,
    ),
    (
        COSTS,
        2,
        BOTH,
        &[AT_0, AT_1, LATE],
        CheckKind::LiveSuccessor,
        1,
    ),
    (COSTS, 2, BOTH, &[AT_0], CheckKind::LiveSuccessor, 0),
    (COSTS, 1, BOTH, &[AT_0, AT_1], CheckKind::LiveTooDeep, 1),
    (COSTS, 2, BOTH, &[AT_1, AT_2], CheckKind::ClaimMissing, 0),
    (
        COSTS,
        2,
        BOTH,
        &[LEFT_AT_0, AT_1, AT_2],
        CheckKind::ClaimMissing,
        0,
    ),
];

// What rows have for themselves comes before how they are followed, and that before where they begin.
#[test]
fn each_fault_of_live_rows_has_its_place(rt: HostRuntime) -> Result<(), Fail> {
    for (costs, most, tables, live, kind, row) in ROW_FAULTS {
        let wanted = Some(LiveFault {
            kind: *kind,
            row: *row,
        });
        let found = fault(rt.alloc(), (costs, &[], *most, tables, live))?;
        assert_eq!(rt; found, wanted, "{kind}");
    }
    live_rows_show_wcd();
    Ok(())
}
