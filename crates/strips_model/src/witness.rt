use grd_base::{ActionId, GoalId};
use std::marker::Model;

/// A sequence, two goals and a plan of each, which may show that the sequence is common to the two.
#[derive(Debug, Drop)]
pub struct Witness {
    /// The sequence of actions.
    pub prefix: Vec<ActionId>,
    /// The two goals.
    pub goals: (GoalId, GoalId),
    /// A plan of each of the two.
    pub plans: (Vec<ActionId>, Vec<ActionId>),
}

impl Model for Witness {
    ghost use Rattle.strips_model.specs.Values.{PlainWitness};

    ghost Value = { PlainWitness };

    ghost view = { λ w. record { prefix = w.prefix.items; goals = w.goals; plans = (w.plans.0.items, w.plans.1.items) } };
}
