//! How long two goals can't be told apart, by plain walks through the states.
//!
//! `wcd`, which takes an optimal plan of each goal that has one, answers two goals with a longest common
//! sequence and an optimal plan of each that begins with it, or none exactly where fewer than two goals have
//! plans. Too many states is answered only for a goal for which more states than the limit are reached, and
//! else only want of memory.
//!
//! | file | what it does |
//! |---|---|
//! | `moves.rt` | gathers the unblocked actions once: every state is expanded over these alone |
//! | `visited.rt` | keeps the visited states, each once, with the way to it |
//! | `walk.rt` | begins a walk |
//! | `layers.rt` | visits all states within as many steps as the goal that costs most |
//! | `live.rt` | goes back through them to the last with two goals that an optimal plan still leads to |
//! | `completion.rt` | completes the way to that state to an optimal plan of each of the two |
//! | `common.rt` | puts these together |
//!
//! The contracts cite no definition of this crate.

#![tactic(auto)]

mod common;
mod completion;
mod layers;
mod live;
mod moves;
mod visited;
mod walk;

pub use common::wcd;
