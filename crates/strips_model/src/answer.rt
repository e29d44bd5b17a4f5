use crate::witness::Witness;
use grd_base::{ActionId, ActionSet};
use std::marker::Model;

/// What is answered of a goal.
#[derive(Debug, Drop)]
pub struct GoalAnswer {
    /// The least length of a plan, or none where there is no plan.
    pub cost: Option<u32>,
    /// Where the goal is recognised, an optimal plan that embeds the observations.
    pub yes: Option<Vec<ActionId>>,
}

impl Model for GoalAnswer {
    ghost use Rattle.std.specs.Option.{option_map};
    ghost use Rattle.strips_model.specs.Answers.{PlainGoalAnswer};

    ghost Value = { PlainGoalAnswer };

    ghost view = { λ a. record { cost = a.cost; yes = option_map (λ plan. plan.items) a.yes } };
}

/// The actions to remove.
#[derive(Drop)]
pub struct Design {
    pub removed: ActionSet,
    /// The worst-case distinctiveness that is left without them, or none where fewer than two goals have
    /// plans.
    pub wcd: Option<u32>,
}

impl Model for Design {
    ghost use Rattle.strips_model.specs.Answers.{PlainDesign};

    ghost Value = { PlainDesign };

    ghost view = { λ d. record { removed = d.removed; wcd = d.wcd } };
}

/// All that is answered of a task with observations and a budget.
#[derive(Drop)]
pub struct Answer {
    /// One for each goal, in the order of the goals.
    pub goals: Vec<GoalAnswer>,
    /// A longest common sequence of two goals, or none where fewer than two have plans.
    pub wcd: Option<Witness>,
    pub design: Design,
}

impl Model for Answer {
    ghost use Rattle.strips_model.specs.Answers.{PlainAnswer};

    ghost Value = { PlainAnswer };

    ghost view = { λ a. record { goals = a.goals.items; wcd = a.wcd; design = a.design } };
}
