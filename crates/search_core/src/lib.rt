//! Searches over any space, for a path to a done state or rows that refute one.
//!
//! `within` answers a path of at most r and at most `limit` steps to a done state, exactly where one lies
//! within r steps; else No, or Never only where none is reached at all, with rows that refute it. `least`
//! answers a path to a done state that no other is shorter than, or Never exactly where none is reached,
//! with rows that refute every shorter path. The rows are of reached states; of those without a mark there
//! are at most `limit`, their states differ, and each counts: some path to it, with its level, makes at most
//! r or, for `least`, at most the length of every path to a done state. Too many states is answered only
//! where more than `limit` states count, and else only want of memory. How this works stands in
//! `docs/architecture.md`.
//!
//! | file | what it has |
//! |---|---|
//! | `space.rt` | the traits of spaces and of floors |
//! | `rows.rt` | the answers and their rows |
//! | `ways.rt` | how a state is reached, and which is expanded |
//! | `found.rt` | the states that a bounded search found, in a hashed map in the order of their finding |
//! | `visits.rt` | follows steps and expands states, in the order of their finding |
//! | `bounded.rt` | makes the rows, and `within` |
//! | `queue.rt` | the states that wait, those of least distance plus bound first |
//! | `nodes.rt` | the states that a best-first search found, with the shortest ways that are known |
//! | `turns.rt` | takes states out of the queue and expands them, again where a shorter way leads to them |
//! | `best_first.rt` | makes the rows, and `least` |
//! | `faults.rt` | why a search gave up |
//!
//! The definitions that contracts cite are in `specs/`: `Spaces.antt`, `Tables.antt`, `Answers.antt`,
//! `LeastAnswers.antt`.

#![tactic(auto)]

mod best_first;
mod bounded;
mod faults;
mod found;
mod nodes;
mod queue;
mod rows;
mod space;
mod turns;
mod visits;
mod ways;

pub use best_first::least;
pub use bounded::within;
pub use faults::SearchFault;
pub use rows::{KeptRow, LeastAnswer, WithinAnswer};
pub use space::{Floor, Space};
