//! Live rows and trees: what shows how long two goals can't be told apart, and that a design is best.
//!
//! But for want of memory, `valid_live` and `valid_tree` answer that live rows, or a tree, are valid exactly where
//! they are, and else what they fail first. The laws say what valid parts mean: valid live rows bound every
//! sequence that two goals share (`live_rows_bound`, `live_rows_show_wcd`), a valid tree shows that each set of
//! so many removed actions that keeps the costs leaves two goals alike for so long (`trees_hide`), and the parts
//! of a certificate show that its design is best (`parts_show`).
//!
//! | file | what it has |
//! |---|---|
//! | `live.rt` | live rows |
//! | `live_rows.rt` | tests live rows |
//! | `numbers.rt`, `rows.rt`, `followed.rt` | tests their tables and numbers, how each row is followed, and what stays live at a successor |
//! | `index.rt` | finds live rows by their state and depth |
//! | `node.rt` | trees, and tables that several leaves use |
//! | `tree.rt` | tests a tree |
//! | `branch.rt`, `choices.rt`, `leaf.rt` | tests the witness of a branch, gathers its actions, and tests a leaf |
//! | `design.rt` | the parts of a certificate on its design, and the whole |
//! | `laws.rt` | what valid parts mean, as laws |
//!
//! The definitions that contracts cite are in `specs/`, in the order of `specs/Promise.antt`.

#![tactic(auto)]

mod branch;
mod choices;
mod design;
mod followed;
mod index;
mod laws;
mod leaf;
mod live;
mod live_rows;
mod node;
mod numbers;
mod rows;
mod tree;

pub use design::{Certificate, DesignPart};
pub use laws::{
    costs_are_kept, design_is_best, hidden_steps_bound_wcd, live_rows_bound, live_rows_show_wcd,
    nothing_is_best, parts_show, trees_hide,
};
pub use live::{LiveFault, LiveRow, LiveRows};
pub use live_rows::valid_live;
pub use node::{LeafTable, NamedTable, Node};
pub use tree::valid_tree;
