use cost_certificate::Table;
use grd_base::{ActionSet, GoalId};
use std::marker::Model;
use strips_model::Witness;

/// A table that several leaves may use.
#[derive(Drop)]
pub struct NamedTable {
    pub goal: GoalId,
    pub removed: ActionSet,
    pub table: Table,
}

impl Model for NamedTable {
    ghost use Rattle.design_certificate.specs.Trees.{PlainNamed};

    ghost Value = { PlainNamed };

    ghost view = { λ n. record { goal = n.goal; removed = n.removed; rows = n.table } };
}

/// The table of a leaf.
#[derive(Debug, Drop)]
pub enum LeafTable {
    Own(Table),
    /// The number of a named table, from 1.
    Named(u32),
}

/// A node of a tree.
#[derive(Drop)]
#[cycle(tree)]
pub enum Node {
    Leaf {
        goal: GoalId,
        table: LeafTable,
    },
    Branch {
        witness: Witness,
        children: Vec<Node>,
    },
}
