//! Tables that show how far states are from a goal, and the test of a table.
//!
//! But for want of memory, `valid_table` answers that a table is valid for a task, a goal and removed
//! actions exactly where it is, and else its first fault, by kind, row and set. The rows of a valid table
//! mean what they say: no sequence of at most so many actions leads from the row's state to the goal without
//! the removed actions, and none at all for `Never`. This law is `rows_refute`; `tables_fail_once` says that a
//! valid table has no first fault, and no table has two. `BestBounds` finds the rows of a state.
//!
//! | file | what it has |
//! |---|---|
//! | `rows.rt` | rows and tables |
//! | `found.rt` | what is found of a goal, and verdicts: types that the crates above fill |
//! | `kinds.rt` | what a certificate can fail, and the fault of a table |
//! | `order.rt` | compares bounds |
//! | `cuts.rt` | gathers the cuts of the sets of a row |
//! | `soundness.rt` | looks at each row for itself, over these cuts |
//! | `bounds.rt` | the best bound of each state in a hashed map, and over it what rows by steps need of others |
//! | `table.rt` | the test of a table |
//! | `laws.rt` | the laws of valid tables and of first faults |
//!
//! The definitions that contracts cite are in `specs/`: `Rows.antt`, `Tables.antt`, `Faults.antt`,
//! `Found.antt`, `Verdicts.antt`.

#![tactic(auto)]

mod bounds;
mod cuts;
mod found;
mod kinds;
mod laws;
mod order;
mod rows;
mod soundness;
mod table;

pub use bounds::BestBounds;
pub use found::{CostFound, Verdict};
pub use kinds::{CheckKind, TableFault};
pub use laws::{rows_refute, tables_fail_once};
pub use order::is_enough;
pub use rows::{Row, Table, Why};
pub use table::valid_table;
