//! Numbered states: each state once, in the order of insertion.
//!
//! A `StateStore` is a list of states, no two of which have the same members. `number_of` answers the place
//! of a state in it, from 0: a known state leaves the list as it is, and a new one goes to its end. Where
//! memory is refused, the list stays as it was. `get` answers the state of a number, or none exactly where
//! there are not so many states, and takes no memory. The caller keeps the list below 2^32 states.
//!
//! | file | what it has |
//! |---|---|
//! | `store.rt` | the store, a hashed set in that order: a number, or its state, is one look-up |
//!
//! The definitions that contracts cite are in `specs/Store.antt`.

#![tactic(auto)]

mod store;

pub use store::StateStore;
