use crate::rows::Table;
use grd_base::ActionId;
use std::marker::Model;

/// What is found of a goal.
#[derive(Debug, Drop)]
pub struct CostFound {
    /// The least length of a plan, or none where there is no plan.
    pub cost: Option<u32>,
    /// A plan of that length; empty where there is none.
    pub plan: Vec<ActionId>,
    /// Shows that no plan is shorter, or that there is none; empty for a cost of 0.
    pub table: Table,
}

impl Model for CostFound {
    ghost use Rattle.cost_certificate.specs.Found.{PlainCost};

    ghost Value = { PlainCost };

    ghost view = { λ f. record { cost = f.cost; plan = f.plan.items; table = f.table } };
}

/// Whether a goal is recognised.
#[derive(Debug, Drop)]
pub enum Verdict {
    /// It is: an optimal plan that embeds the observations.
    Yes(Vec<ActionId>),
    /// It is not: a table of the observed task which shows that no plan there is as short as the cost;
    /// empty where the goal has no plan.
    No(Table),
}
