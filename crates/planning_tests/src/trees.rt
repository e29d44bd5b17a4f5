ghost use Rattle.std.specs.Prelude.{◌<◌, ◌≤◌, length, All, IfOk, map};
ghost use Rattle.cost_certificate.specs.Tables.{IsRowOver};
ghost use Rattle.design_certificate.specs.Nodes.{plain_node, plain_table, children_of};
ghost use Rattle.design_certificate.specs.Ranges.{IsWitnessOver, IsNamedOver, IsLeafTableOver, IsNodeOver, AreNodesOver};

use crate::samples::{FORK, Sample, TWO, actions_of, goal, set_of, task};
use crate::tables::{PlainRow, table};
use cost_certificate::CheckKind;
use design_certificate::{LeafTable, NamedTable, Node, trees_hide, valid_tree};
use grd_base::Bound;
use std::alloc::Global;
use std::test::Fail;
use strips_model::{Task, Witness};

// The table of a leaf.
#[derive(Clone, Copy)]
enum PlainLeafTable {
    Own(&'static [PlainRow]),
    Named(u32),
}

// A leaf by its goal and its table.
type PlainLeaf = (u32, PlainLeafTable);

// A sequence, and two goals with a plan of each.
type Plans = (&'static [u32], (u32, &'static [u32]), (u32, &'static [u32]));

// A branch with leaves for its children.
type PlainBranch = (Plans, &'static [PlainLeaf]);

// A table by its goal, its removed actions and its rows.
type PlainNamed = (u32, &'static [u32], &'static [PlainRow]);

fn witness(alloc: Global, task: &Task, plain: Plans) -> Result<Witness, Fail>
    ensures { IfOk result (IsWitnessOver task.now) }
{
    let (prefix, first, second) = plain;
    Ok(Witness {
        prefix: actions_of(alloc, task, prefix)?,
        goals: (goal(task, first.0)?, goal(task, second.0)?),
        plans: (
            actions_of(alloc, task, first.1)?,
            actions_of(alloc, task, second.1)?,
        ),
    })
}

fn leaf_table(alloc: Global, task: &Task, plain: PlainLeafTable) -> Result<LeafTable, Fail>
    ensures { IfOk result (λ table. IsLeafTableOver task.now (plain_table table)) }
{
    match plain {
        PlainLeafTable::Own(rows) => Ok(LeafTable::Own(table(alloc, task, rows)?)),
        PlainLeafTable::Named(number) => Ok(LeafTable::Named(number)),
    }
}

fn leaf(alloc: Global, task: &Task, plain: PlainLeaf) -> Result<Node, Fail>
    ensures { IfOk result (λ node. IsNodeOver task.now (plain_node node)) }
{
    let (number, rows) = plain;
    Ok(Node::Leaf {
        goal: goal(task, number)?,
        table: leaf_table(alloc, task, rows)?,
    })
}

fn leaves(alloc: Global, task: &Task, plain: &[PlainLeaf]) -> Result<Vec<Node>, Fail>
    ensures { IfOk result (λ nodes. AreNodesOver task.now (children_of (map plain_node nodes.items))) }
{
    let mut nodes = Vec::new(alloc);
    for one in plain {
        nodes.push(leaf(alloc, task, *one)?)?;
    }
    Ok(nodes)
}

fn branch(alloc: Global, task: &Task, plain: PlainBranch) -> Result<Node, Fail>
    ensures { IfOk result (λ node. IsNodeOver task.now (plain_node node)) }
{
    let (plans, children) = plain;
    Ok(Node::Branch {
        witness: witness(alloc, task, plans)?,
        children: leaves(alloc, task, children)?,
    })
}

fn named_table(alloc: Global, task: &Task, plain: PlainNamed) -> Result<NamedTable, Fail>
    ensures { IfOk result (IsNamedOver task.now) }
{
    let (number, removed, rows) = plain;
    Ok(NamedTable {
        goal: goal(task, number)?,
        removed: set_of(alloc, removed)?,
        table: table(alloc, task, rows)?,
    })
}

fn named_tables(alloc: Global, task: &Task, plain: &[PlainNamed]) -> Result<Vec<NamedTable>, Fail>
    ensures { IfOk result (λ named. All (IsNamedOver task.now) named.items) }
{
    let mut named = Vec::new(alloc);
    for one in plain {
        named.push(named_table(alloc, task, *one)?)?;
    }
    Ok(named)
}

// The members, the length and a branch.
type Plain = (u32, u32, PlainBranch);

// The first fault of a tree of the sample, with these costs and named tables.
fn fault(
    alloc: Global,
    sample: &Sample,
    costs: &[Option<u32>],
    tables: &[PlainNamed],
    plain: Plain,
) -> Result<Option<CheckKind>, Fail> {
    let (members, least, root) = plain;
    let task = task(alloc, sample)?;
    let named = named_tables(alloc, &task, tables)?;
    let node = branch(alloc, &task, root)?;
    let named = named.as_slice();
    Ok(valid_tree(alloc, &task, costs, named, members, least, &node)?)
}

const COSTS: &[Option<u32>] = &[Some(3), Some(3)];

const NEVER: Bound = Bound::Never;

// Both plans of fork.
const PLANS: Plans = (&[0, 1], (0, &[0, 1, 2]), (1, &[0, 1, 3]));

const SHORT: Plans = (&[0], (0, &[0, 1, 2]), (1, &[0, 1, 3]));

// Without each of fork's actions one of its goals is not reached.
const NO_FIRST: &[PlainRow] = &[(&[0], NEVER, Some(&[&[0]]))];

const NO_SECOND: &[PlainRow] = &[(&[0], NEVER, Some(&[&[0, 1]]))];

const NO_LEFT: &[PlainRow] = &[(&[0], NEVER, Some(&[&[0, 1, 2, 4]]))];

const NO_RIGHT: &[PlainRow] = &[(&[0], NEVER, Some(&[&[0, 1, 2, 3]]))];

const FIRST: PlainLeaf = (0, PlainLeafTable::Own(NO_FIRST));

const SECOND: PlainLeaf = (0, PlainLeafTable::Own(NO_SECOND));

const LEFT: PlainLeaf = (0, PlainLeafTable::Own(NO_LEFT));

const RIGHT: PlainLeaf = (1, PlainLeafTable::Own(NO_RIGHT));

const LEAVES: &[PlainLeaf] = &[FIRST, SECOND, LEFT, RIGHT];

const SWAPPED: Plans = (&[0, 1], (1, &[0, 1, 3]), (0, &[0, 1, 2]));

const LONG: Plans = (&[0, 1, 2], (0, &[0, 1, 2]), (1, &[0, 1, 3]));

// As many steps as the left goal costs, less one.
const TOO_LOW: &[PlainRow] = &[(&[0], Bound::Steps(2), Some(&[&[0], &[0, 1], &[0, 1, 2]]))];

const LOW: PlainLeaf = (0, PlainLeafTable::Own(TOO_LOW));

const EMPTY: PlainLeaf = (0, PlainLeafTable::Own(&[]));

// A tree with its first fault.
type TreeFault = (Plain, Option<CheckKind>);

const TREES_OF_FORK: &[TreeFault] = &[
    ((1, 2, (PLANS, LEAVES)), None),
    ((1, 0, (SHORT, LEAVES)), None),
    ((0, 2, (PLANS, &[])), None),
    ((0, 2, (PLANS, LEAVES)), Some(CheckKind::BadLine)),
    (
        (1, 2, (PLANS, &[FIRST, SECOND, LEFT])),
        Some(CheckKind::BadLine),
    ),
    (
        (1, 2, (PLANS, &[FIRST, SECOND, LEFT, RIGHT, RIGHT])),
        Some(CheckKind::BadLine),
    ),
    ((1, 2, (PLANS, &[])), Some(CheckKind::BadLine)),
    (
        (1, 2, (PLANS, &[SECOND, FIRST, LEFT, RIGHT])),
        Some(CheckKind::TooFewCuts),
    ),
    (
        (1, 2, (PLANS, &[LOW, SECOND, LEFT, RIGHT])),
        Some(CheckKind::TreeLeaf),
    ),
    (
        (1, 2, (PLANS, &[EMPTY, SECOND, LEFT, RIGHT])),
        Some(CheckKind::TreeLeaf),
    ),
    ((1, 2, (SHORT, LEAVES)), Some(CheckKind::TreeBranch)),
    ((1, 3, (PLANS, LEAVES)), Some(CheckKind::TreeBranch)),
    ((1, 2, (SWAPPED, LEAVES)), Some(CheckKind::BadNumber)),
    ((1, 2, (LONG, LEAVES)), Some(CheckKind::PlanBroken)),
];

// No removed action leaves less than two common steps without raising a cost.
#[test]
fn tree_of_fork_is_tested(rt: HostRuntime) -> Result<(), Fail> {
    for (plain, wanted) in TREES_OF_FORK {
        let found = fault(rt.alloc(), &FORK, COSTS, &[], *plain)?;
        assert_eq!(rt; found, *wanted, "{wanted:?}");
    }
    trees_hide();
    Ok(())
}

// Fork's tables with their names, one that is too low, and one that removes more than any leaf.
const TABLES: &[PlainNamed] = &[
    (0, &[0], NO_FIRST),
    (0, &[1], NO_SECOND),
    (0, &[2], NO_LEFT),
    (1, &[3], NO_RIGHT),
    (0, &[], TOO_LOW),
    (0, &[0, 1], NO_FIRST),
];

const BY_2: PlainLeaf = (0, PlainLeafTable::Named(2));

const BY_3: PlainLeaf = (0, PlainLeafTable::Named(3));

const BY_4: PlainLeaf = (1, PlainLeafTable::Named(4));

// The first leaf of fork's tree, by the goal and the number of its table, with the first fault of the tree.
type UseFault = ((u32, u32), Option<CheckKind>);

const USES: &[UseFault] = &[
    ((0, 1), None),
    ((0, 2), Some(CheckKind::UseMissing)),
    ((1, 1), Some(CheckKind::UseMissing)),
    ((0, 5), Some(CheckKind::TreeLeaf)),
    ((0, 6), Some(CheckKind::UseMissing)),
    ((0, 7), Some(CheckKind::UseMissing)),
    ((0, 0), Some(CheckKind::UseMissing)),
];

// The first fault of fork's tree with named tables, of which the first leaf uses this one.
fn fault_of_use(alloc: Global, number: u32, first: u32) -> Result<Option<CheckKind>, Fail> {
    let task = task(alloc, &FORK)?;
    let tables = named_tables(alloc, &task, TABLES)?;
    let plain = [(number, PlainLeafTable::Named(first)), BY_2, BY_3, BY_4];
    let node = Node::Branch {
        witness: witness(alloc, &task, PLANS)?,
        children: leaves(alloc, &task, &plain)?,
    };
    let named = tables.as_slice();
    Ok(valid_tree(alloc, &task, COSTS, named, 1, 2, &node)?)
}

// A leaf may use the tables of its goal whose removed actions are its own.
#[test]
fn named_tables_are_used(rt: HostRuntime) -> Result<(), Fail> {
    for ((number, first), wanted) in USES {
        let found = fault_of_use(rt.alloc(), *number, *first)?;
        assert_eq!(rt; found, *wanted, "table {first}");
    }
    Ok(())
}

const NOTHING: Plans = (&[], (0, &[4, 5, 6]), (1, &[0, 1, 3]));

const APART: Plans = (&[0], (0, &[4, 5, 6]), (1, &[0, 1, 3]));

const BROKEN: Plans = (&[0], (0, &[0, 1]), (1, &[0, 1, 3]));

const LOWER: &[Option<u32>] = &[Some(2), Some(3)];

const ONE: &[Option<u32>] = &[Some(3), None];

// The costs, and a tree with its first fault.
type CostsFault = (&'static [Option<u32>], Plain, Option<CheckKind>);

const TREES_OF_TWO: &[CostsFault] = &[
    (COSTS, (0, 1, (PLANS, &[])), None),
    (COSTS, (0, 0, (NOTHING, &[])), None),
    (COSTS, (0, 1, (NOTHING, &[])), Some(CheckKind::TreeBranch)),
    (COSTS, (0, 1, (APART, &[])), Some(CheckKind::PlanBroken)),
    (COSTS, (0, 1, (BROKEN, &[])), Some(CheckKind::PlanBroken)),
    (LOWER, (0, 1, (PLANS, &[])), Some(CheckKind::PlanLength)),
    (ONE, (0, 1, (PLANS, &[])), Some(CheckKind::BadNumber)),
    (COSTS, (0, 1, (PLANS, &[LEFT])), Some(CheckKind::BadLine)),
    (COSTS, (1, 1, (PLANS, &[])), Some(CheckKind::BadLine)),
];

// The second tree of the design that removes the third action of the larger fork: with no action removed,
// one step at least is common to both goals.
#[test]
fn tree_of_two_ways_is_tested(rt: HostRuntime) -> Result<(), Fail> {
    for (costs, plain, wanted) in TREES_OF_TWO {
        let found = fault(rt.alloc(), &TWO, costs, &[], *plain)?;
        assert_eq!(rt; found, *wanted, "{wanted:?}");
    }
    Ok(())
}
