//! Bounds on the steps to a goal from levels, where nothing is deleted, and sets of atoms that show them.
//!
//! But for want of memory, `bound_at` answers the level of a goal at a state without the removed actions,
//! and `Never` exactly where it has none; no sequence to the goal is shorter. `family_at` answers sets of
//! atoms that contain the state and leave the goal open, with pairwise disjoint cuts: as many as the level,
//! none with an empty cut, or one with an empty cut where there is no level. For a state of the task it is
//! one family, which the definitions compute.
//!
//! The rounds can be made one by one: `first` and `advance` of a floor, over a `Wave`.
//!
//! | file | what it does |
//! |---|---|
//! | `wave.rt` | makes one round over the actions that may add more |
//! | `floor.rt` | makes rounds until the goal holds or nothing is added, for a bound or for its sets |
//!
//! The definitions that contracts cite are in `specs/Floors.antt`.

#![tactic(auto)]

mod floor;
mod wave;

pub use floor::LevelFloor;
pub use wave::{Wave, file};
