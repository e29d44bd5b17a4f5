//! What all crates share: numbers of atoms, actions and goals, bounds, bit sets and action sets.
//!
//! A `Bits<W>` is a set of numbers below `64 * W`. Its calls are the empty set, adding, taking out,
//! membership, inclusion, union, difference and emptiness, and two bit sets with the same members, or that
//! compare equal, are the same value; each set of numbers below `64 * W` is that of one. An `ActionSet` is a
//! rising list of distinct actions.
//!
//! | file | what it has |
//! |---|---|
//! | `ids.rt` | the numbers of atoms, actions and goals |
//! | `limits.rt` | bounds on numbers of steps, and limits of searches |
//! | `bits.rt` | bit sets, with their laws |
//! | `by_width.rt` | the macro that calls a function with the least width that holds the atoms of a task |
//! | `action_set.rt` | sets of actions |
//! | `roles.rt` | what a file is for |
//! | `memory.rt` | want of memory |
//!
//! The definitions that contracts cite are in `specs/`: `Sets.antt`, `Bits.antt`, `Rising.antt`, and
//! `Counts.antt` for the crates above.

#![tactic(auto)]

mod action_set;
mod bits;
mod by_width;
mod ids;
mod limits;
mod memory;
mod roles;

pub use action_set::ActionSet;
pub use bits::{Bits, is_same, members_below, packed, same_members, same_order, same_whole, whole};
pub use ids::{ActionId, AtomId, GoalId};
pub use limits::{Bound, Limits};
pub use memory::OutOfMemory;
pub use roles::FileRole;
