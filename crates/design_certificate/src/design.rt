use crate::live::LiveRows;
use crate::node::{NamedTable, Node};
use cost_certificate::{CostFound, Verdict};
use grd_base::{ActionId, ActionSet};
use strips_model::Witness;

/// A design with what shows that it is best.
#[derive(Drop)]
pub struct DesignPart {
    /// The removed actions.
    pub removed: ActionSet,
    /// For each goal with a cost, in order, a plan of that length without the removed actions; empty
    /// where none is removed.
    pub plans: Vec<Vec<ActionId>>,
    /// The worst-case distinctiveness without the removed actions; none where none is removed.
    pub wcd: Option<(Witness, LiveRows)>,
    /// The tables that leaves of the trees use by their numbers.
    pub named: Vec<NamedTable>,
    /// Shows that no set of the budget leaves less; none where nothing is left.
    pub first: Option<Node>,
    /// Shows that each set with fewer members leaves more; none where no action is removed.
    pub second: Option<Node>,
}

/// All that a certificate shows of a task, with the observations and the budget that it is for.
#[derive(Drop)]
pub struct Certificate {
    /// 1 where each leaf has a table of its own, 2 where each uses a named one.
    pub version: u32,
    /// What is found of each goal, in order.
    pub costs: Vec<CostFound>,
    /// For each goal, in order, whether it is recognised.
    pub verdicts: Vec<Verdict>,
    /// The worst-case distinctiveness; none where fewer than two goals have costs.
    pub wcd: Option<(Witness, LiveRows)>,
    pub design: DesignPart,
}
