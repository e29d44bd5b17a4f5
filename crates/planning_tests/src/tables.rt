ghost use Rattle.std.specs.Prelude.{All, IfOk};
ghost use Rattle.strips_model.specs.Values.{AreAtoms};
ghost use Rattle.cost_certificate.specs.Tables.{AreSets, IsRowOver};

use crate::samples::{FORK_WITH_SHUT_GOAL, atoms, goal, task};
use cost_certificate::{CheckKind, Row, Table, TableFault, Why, rows_refute, valid_table};
use grd_base::{ActionSet, Bound};
use std::alloc::Global;
use std::test::Fail;
use strips_model::{Family, Task};

/// The sets of a row by cuts; none of a row by steps.
pub(crate) type Sets = Option<&'static [&'static [u32]]>;

/// A row by the atoms of its state, its bound and its sets.
pub(crate) type PlainRow = (&'static [u32], Bound, Sets);

fn family(alloc: Global, below: u32, sets: &[&[u32]]) -> Result<Family, Fail>
    ensures { IfOk result (λ family. All (AreAtoms below) family) }
{
    let mut family = Vec::new(alloc);
    for set in sets {
        family.push(atoms(alloc, below, set)?)?;
    }
    Ok(Family { sets: family })
}

fn why(alloc: Global, below: u32, sets: Sets) -> Result<Why, Fail>
    ensures { IfOk result (AreSets below) }
{
    match sets {
        Some(sets) => Ok(Why::Cuts(family(alloc, below, sets)?)),
        None => Ok(Why::Steps),
    }
}

fn row(alloc: Global, task: &Task, plain: PlainRow) -> Result<Row, Fail>
    ensures { IfOk result (IsRowOver task.now) }
{
    let (state, bound, sets) = plain;
    Ok(Row {
        state: atoms(alloc, task.atoms, state)?,
        bound,
        why: why(alloc, task.atoms, sets)?,
    })
}

/// The table of these rows.
pub(crate) fn table(alloc: Global, task: &Task, plain: &[PlainRow]) -> Result<Table, Fail>
    ensures { IfOk result (λ table. All (IsRowOver task.now) table) }
{
    let mut rows = Vec::new(alloc);
    for one in plain {
        rows.push(row(alloc, task, *one)?)?;
    }
    Ok(Table { rows })
}

// The first fault of the table for the goal.
fn fault_of(
    alloc: Global,
    task: &Task,
    number: u32,
    rows: &[PlainRow],
) -> Result<Option<TableFault>, Fail> {
    let goal = goal(task, number)?;
    let table = table(alloc, task, rows)?;
    let none = ActionSet::new(alloc);
    Ok(valid_table(alloc, task, goal, &none, &table)?)
}

// The same of fork.
fn fault(alloc: Global, number: u32, rows: &[PlainRow]) -> Result<Option<TableFault>, Fail> {
    let task = task(alloc, &FORK_WITH_SHUT_GOAL)?;
    fault_of(alloc, &task, number, rows)
}

const LEFT: u32 = 0;

const BOTH: u32 = 1;

const SHUT: u32 = 2;

const TWO: Bound = Bound::Steps(2);

// A sound row of the left goal.
const SOUND: PlainRow = (&[0], TWO, Some(&[&[0], &[0, 1], &[0, 1, 2]]));

fn at(kind: CheckKind, row: u64, set: u64) -> Option<TableFault> {
    Some(TableFault { kind, row, set })
}

#[test]
fn each_fault_of_cuts_has_its_place(rt: HostRuntime) -> Result<(), Fail> {
    let rows: [(PlainRow, Option<TableFault>); 6] = [
        (SOUND, None),
        (
            (&[3], TWO, Some(&[&[0], &[0, 1], &[0, 1, 2]])),
            at(CheckKind::RowGoalHolds, 1, 0),
        ),
        (
            (&[0], TWO, Some(&[&[1], &[0, 1], &[0, 1, 2]])),
            at(CheckKind::CutMissesState, 1, 0),
        ),
        (
            (&[0], TWO, Some(&[&[0], &[0], &[0, 1, 2]])),
            at(CheckKind::CutsMeet, 1, 1),
        ),
        (
            (&[0], TWO, Some(&[&[0], &[0, 1], &[0, 1, 2, 3]])),
            at(CheckKind::CutHoldsGoal, 1, 2),
        ),
        (
            (&[0], Bound::Steps(3), Some(&[&[0], &[0, 1], &[0, 1, 2]])),
            at(CheckKind::TooFewCuts, 1, 0),
        ),
    ];
    for (second, wanted) in rows {
        assert_eq!(rt;
            fault(rt.alloc(), LEFT, &[SOUND, second])?,
            wanted,
            "{wanted:?}"
        );
    }
    Ok(())
}

// The best row of a state counts. A blocked goal is refuted by all atoms.
#[test]
fn rows_by_steps_need_those_of_their_successors(rt: HostRuntime) -> Result<(), Fail> {
    let start: PlainRow = (&[0], Bound::Never, None);
    let next: PlainRow = (&[1], Bound::Never, Some(&[&[1, 2, 3, 4]]));
    let at_0: PlainRow = (&[0], TWO, None);
    let high: PlainRow = (&[1], Bound::Steps(1), None);
    let low: PlainRow = (&[1], Bound::Steps(0), None);
    let last: PlainRow = (&[2], Bound::Steps(0), None);
    let all: PlainRow = (&[0], Bound::Never, Some(&[&[0, 1, 2, 3, 4]]));
    let rows: [(u32, &[PlainRow], Option<TableFault>); 5] = [
        (BOTH, &[start, next], None),
        (BOTH, &[start], at(CheckKind::RowSuccessor, 0, 0)),
        (LEFT, &[at_0, high, low, last], None),
        (LEFT, &[last, low, at_0], at(CheckKind::RowSuccessor, 2, 0)),
        (SHUT, &[all], None),
    ];
    for (goal, table, wanted) in rows {
        assert_eq!(rt; fault(rt.alloc(), goal, table)?, wanted, "goal {goal}");
    }
    rows_refute();
    Ok(())
}

// The kinds of faults, and the words of each.
const KINDS: &[(CheckKind, &str)] = &[
    (CheckKind::BadLine, "bad line"),
    (CheckKind::BadNumber, "bad number"),
    (CheckKind::RowGoalHolds, "row goal holds"),
    (CheckKind::CutMissesState, "cut misses state"),
    (CheckKind::CutHoldsGoal, "cut holds goal"),
    (CheckKind::CutsMeet, "cuts meet"),
    (CheckKind::TooFewCuts, "too few cuts"),
    (CheckKind::RowSuccessor, "row successor"),
    (CheckKind::PlanBroken, "plan broken"),
    (CheckKind::PlanLength, "plan length"),
    (CheckKind::LiveSuccessor, "live successor"),
    (CheckKind::LiveTooDeep, "live too deep"),
    (CheckKind::TreeBranch, "tree branch"),
    (CheckKind::UseMissing, "use missing"),
    (CheckKind::TreeLeaf, "tree leaf"),
    (CheckKind::ClaimMissing, "claim missing"),
    (CheckKind::Truncated, "truncated"),
    (CheckKind::Trailing, "trailing"),
];

fn has_words(alloc: Global, kind: CheckKind, words: &str) -> Result<bool, Fail> {
    let printed = format!(in alloc; "{kind}")?;
    Ok(printed.as_str() == words)
}

#[test]
fn kinds_have_their_words(rt: HostRuntime) -> Result<(), Fail> {
    for (kind, words) in KINDS {
        assert!(rt; has_words(rt.alloc(), *kind, words)?, "{words}");
    }
    Ok(())
}
