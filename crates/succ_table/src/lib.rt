//! The actions that apply in a state, found through the atoms that they need.
//!
//! But for want of memory, `applicable` of a table of a task answers, rising, exactly the actions that apply
//! in a state and are not removed.
//!
//! | file | what it does |
//! |---|---|
//! | `needs.rt` | counts how many actions need each atom, and finds the one that the fewest need |
//! | `table.rt` | keeps each action with that atom of its precondition, and finds those that apply |
//!
//! The definition that the contract cites is in `specs/Applicable.antt`.

#![tactic(auto)]

mod needs;
mod table;

pub use table::SuccTable;
