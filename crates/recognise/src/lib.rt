//! Whether goals are recognised: whether an optimal plan embeds the observations.
//!
//! `recognise`, which takes the costs of the goals, answers Yes exactly where some optimal plan of a goal
//! embeds the observations, with such a plan, and else No; for a goal with a cost with a valid table of the
//! observed task, which refutes as many steps as the goal costs. Too many states is answered only for a goal
//! with a cost for which more states of the observed task than the limit are near, and else only want of
//! memory.
//!
//! | file | what it does |
//! |---|---|
//! | `verdicts.rt` | asks an oracle of the observed task for each goal, within as many steps as it costs |
//!
//! The contract speaks in the terms of `cost_certificate`, `Verdicts.antt` there, and of `strips_model`.

#![tactic(auto)]

mod verdicts;

pub use cost_certificate::Verdict;
pub use verdicts::recognise;
