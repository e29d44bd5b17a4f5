ghost use Rattle.std.specs.Prelude.{◌≡◌, ◌⊎◌, ◌<◌, ◌≤◌, [], length, All, IsErr, IfOk, IfSome, IfNone, map, take, drop};
ghost use Rattle.cost_certificate.specs.declared.kinds.CheckKind.{CheckKind};
ghost use Rattle.design_certificate.specs.Trees.{IsValidNode, IsValidTree, AreValidChildren};
ghost use Rattle.design_certificate.specs.Nodes.{plain_node, children_of};
ghost use Rattle.design_certificate.specs.Ranges.{IsNamedOver, IsNodeOver, AreNodesOver};
ghost use Rattle.design_certificate.specs.TreeFaults.{FailsNode, FailsChildren, IsTreeFault};

use crate::branch::fault_of_branch;
use crate::choices::{with_action, with_choices};
use crate::leaf::fault_of_leaf;
use crate::node::{NamedTable, Node};
use cost_certificate::{CheckKind, tables_fail_once};
use grd_base::{ActionId, ActionSet, OutOfMemory};
use std::alloc::Global;
use strips_model::Task;

/// What the children of a branch fail first. The actions from the place on are its choices; those
/// before are its kept ones.
#[cycle(node_fault)]
fn fault_of_children(
    alloc: Global,
    task: &Task,
    costs: &[Option<u32>],
    named: &[NamedTable],
    members: u32,
    least: u32,
    removed: &ActionSet,
    seen: &[ActionId],
    from: usize,
    children: &[Node],
) -> Result<Option<CheckKind>, OutOfMemory>
    requires named { All (IsNamedOver task.now) named.now }
    requires from { from ≤ length seen.now }
    requires children { AreNodesOver task.now (children_of (map plain_node children.now)) }
    ensures valid { IfOk result (λ found. IfNone found
        (AreValidChildren task.now costs.now named.now members least removed.now (take from seen.now) (drop from seen.now)
        (children_of (map plain_node children.now)))) }
    ensures fault { IfOk result (λ found. IfSome found (λ kind. FailsChildren task.now costs.now named.now members least kind
        removed.now (take from seen.now) (drop from seen.now) (children_of (map plain_node children.now)))) }
{
    let mut at = from;
    for child in children {
        if at == seen.len() {
            return Ok(Some(CheckKind::BadLine));
        }
        let more = with_action(alloc, removed, seen[at])?;
        let kept = &seen[..at];
        if let Some(kind) = fault_of_node(
            alloc, task, costs, named, members, least, &more, kept, child,
        )? {
            return Ok(Some(kind));
        }
        at += 1;
    }
    if at == seen.len() {
        return Ok(None);
    }
    Ok(Some(CheckKind::BadLine))
}

/// What a node fails first.
#[cycle(node_fault)]
fn fault_of_node(
    alloc: Global,
    task: &Task,
    costs: &[Option<u32>],
    named: &[NamedTable],
    members: u32,
    least: u32,
    removed: &ActionSet,
    kept: &[ActionId],
    node: &Node,
) -> Result<Option<CheckKind>, OutOfMemory>
    requires named { All (IsNamedOver task.now) named.now }
    requires node { IsNodeOver task.now (plain_node node.now) }
    ensures valid { IfOk result (λ found. IfNone found
        (IsValidNode task.now costs.now named.now members least removed.now kept.now (plain_node node.now))) }
    ensures fault { IfOk result (λ found. IfSome found (λ kind. FailsNode task.now costs.now named.now members least kind
        removed.now kept.now (plain_node node.now))) }
{
    match node {
        Node::Leaf { goal, table } => fault_of_leaf(
            alloc, task, costs, named, removed, *goal, table,
        ),
        Node::Branch { witness, children } => {
            if let Some(kind) = fault_of_branch(task, costs, least, removed, witness) {
                return Ok(Some(kind));
            }
            let seen = with_choices(alloc, members, removed, kept, witness)?;
            fault_of_children(
                alloc,
                task,
                costs,
                named,
                members,
                least,
                removed,
                seen.as_slice(),
                kept.len(),
                children.as_slice(),
            )
        }
    }
}

/// The first fault of a tree.
fn fault_of_tree(
    alloc: Global,
    task: &Task,
    costs: &[Option<u32>],
    named: &[NamedTable],
    members: u32,
    least: u32,
    node: &Node,
) -> Result<Option<CheckKind>, OutOfMemory>
    requires named { All (IsNamedOver task.now) named.now }
    requires node { IsNodeOver task.now (plain_node node.now) }
    ensures valid { IfOk result (λ found. IfNone found (IsValidTree task.now costs.now named.now members least (plain_node node.now))) }
    ensures fault { IfOk result (λ found. IfSome found (λ kind. IsTreeFault task.now costs.now named.now members least kind (plain_node node.now))) }
{
    let nothing = ActionSet::new(alloc);
    let none = [];
    fault_of_node(
        alloc, task, costs, named, members, least, &nothing, &none, node,
    )
}

/// The first fault of a tree, or none where it is valid.
pub fn valid_tree(
    alloc: Global,
    task: &Task,
    costs: &[Option<u32>],
    named: &[NamedTable],
    members: u32,
    least: u32,
    node: &Node,
) -> Result<Option<CheckKind>, OutOfMemory>
    requires named { All (IsNamedOver task.now) named.now }
    requires node { IsNodeOver task.now (plain_node node.now) }
    ensures valid { IfOk result (λ found. IfNone found (IsValidTree task.now costs.now named.now members least (plain_node node.now))) }
    ensures fault { IfOk result (λ found. IfSome found (λ kind. IsTreeFault task.now costs.now named.now members least kind (plain_node node.now))) }
    ensures valid_exactly { IsValidTree task.now costs.now named.now members least (plain_node node.now) → (result ≡ Ok None) ⊎ IsErr result }
    ensures fault_exactly { (kind : CheckKind) → IsTreeFault task.now costs.now named.now members least kind (plain_node node.now)
        → (result ≡ Ok (Some kind)) ⊎ IsErr result }
{
    tables_fail_once();
    fault_of_tree(alloc, task, costs, named, members, least, node)
}
