//! Costs of goals by search, each with a table that refutes less, and oracles for one goal.
//!
//! `costs` answers for each goal the least length of a plan, or none exactly where there is none, with an
//! optimal plan and a valid table that refutes fewer steps, or any number of them; its rows by steps are of
//! different near states, at most as many as the limit. `plans` answers the plans alone. An `Oracle` for a goal and removed actions answers
//! the cost, and whether a path of at most r steps leads from a state to the goal, with such a path or else
//! a row; its rows are a valid table after every call, also after a refusal. Too many states is answered
//! only where more states than the limit are near for the question, and else only want of memory.
//!
//! | file | what it does |
//! |---|---|
//! | `actions.rt` | a table of actions, one's own or lent |
//! | `space.rt` | makes a task, a goal and removed actions a space, with the cuts of `cut_bounds` as its floor |
//! | `rows.rt` | turns the rows of a search into rows of a table |
//! | `cost.rt` | finds the cost of each goal by these |
//! | `least_plans.rt` | finds a plan of each goal, without tables |
//! | `kept.rt` | keeps states, each with the best bound that was proved for it |
//! | `oracle.rt` | answers questions one by one, over what is kept |
//! | `faults.rt` | why there is no answer |
//!
//! The definitions that contracts cite are in `specs/`: `Costs.antt`, `Oracles.antt`, and `Space.antt` and
//! `Floors.antt` for the space and its floor.

#![tactic(auto)]

mod actions;
mod cost;
mod faults;
mod kept;
mod least_plans;
mod oracle;
mod rows;
mod space;

pub use cost::costs;
pub use cost_certificate::CostFound;
pub use faults::GoalSearchFault;
pub use least_plans::plans;
pub use oracle::Oracle;
pub use space::{SpaceFloor, TaskSpace};
