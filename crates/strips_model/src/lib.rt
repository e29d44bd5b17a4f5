//! Planning tasks over numbered atoms and ground actions: their states, steps, goals and plans.
//!
//! Over states as plain sets of atoms, the start, whether an action applies, its step, whether a goal holds,
//! the state after a sequence, and whether a plan embeds observations are their definitions; none of these
//! calls takes memory. `Moves` has the actions that are neither blocked nor removed, `atoms_of` the rising
//! list of a state, and an `AtomIndex` lists of actions by atoms. The law `known_task` says what holds of
//! every task.
//!
//! | file | what it has |
//! |---|---|
//! | `task.rt` | tasks, with their actions and goals |
//! | `steps.rt` | the start, steps, goals, plans and observations |
//! | `lists.rt` | states as lists of atoms |
//! | `moves.rt` | a task and removed actions, with the allowed actions |
//! | `index.rt` | lists of actions by atoms |
//! | `family.rt` | sets of atoms whose cuts are counted |
//! | `witness.rt` | a sequence with two goals and a plan of each |
//! | `worlds.rt` | the law that a world and its task have the same plans |
//! | `answer.rt` | all that is answered of a task, which no call makes yet |
//!
//! The definitions that contracts cite, here and in the crates above, are in `specs/`: `Values.antt`;
//! `Agents.antt` and `Answers.antt`, which speak of any relation of plans; `Plans.antt` and `Common.antt`, the
//! same for a task; `Observed.antt`, `Levels.antt`, `Reached.antt`, `Cuts.antt`, and then `Moves.antt`,
//! `StateLists.antt`, `Index.antt`, `Worlds.antt`, `WorldPlans.antt`.

#![tactic(auto)]

mod answer;
mod family;
mod index;
mod lists;
mod moves;
mod steps;
mod task;
mod witness;
mod worlds;

pub use answer::{Answer, Design, GoalAnswer};
pub use family::Family;
pub use index::AtomIndex;
pub use lists::{atoms_of, state_of};
pub use moves::Moves;
pub use steps::{advance, applies, apply_in, contains_all, embeds, holds, run_plan, start};
pub use task::{Action, Condition, Task, fits, known_task};
pub use witness::Witness;
pub use worlds::known_plans;
