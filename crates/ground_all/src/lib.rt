//! Grounds a typed domain and problem: all typed instances of the actions, by their numbers and names.
//!
//! But for want of memory, `ground` answers the world of a typed domain and problem with goals, whose `task`
//! has the fluent atoms with the complements of the watched ones behind them, and all typed instances, each by
//! its place in their list; or too many atoms, fluent ones and complements together, else too many actions,
//! exactly where there are more than 3,072, or 1,048,576, and with their number. `action_id` is the number of a
//! ground action, and `atom_name` and `action_name` write the text of a number, which is that of no other; none
//! of these takes memory. The law `known_world` says that the task has the plans of the world, in which an
//! action may need atoms to be false.
//!
//! | file | what it does |
//! |---|---|
//! | `tuples.rt` | numbers the tuples of objects that fit some places, and back, digit by digit |
//! | `counts.rt` | counts the tuples of each predicate and each action, and refuses too many |
//! | `starts.rt` | tells which number is the first of each |
//! | `atoms.rt` | looks an atom up: a fluent one has a number, a static one, or an equality, is true or false |
//! | `complements.rt` | numbers the watched atoms, and the complements of a list of atoms |
//! | `literals.rt` | makes the atoms of literals, and gathers their numbers |
//! | `tasks.rt` | makes the task |
//! | `names.rt` | writes names in brackets |
//! | `grounded.rt` | puts these together |
//! | `laws.rt` | the law that the world and its task have the same plans |
//! | `faults.rt` | why a typed domain and problem are not grounded |
//!
//! The definitions that contracts cite are in `specs/`: `Tuples.antt`, `Grounding.antt`, `Names.antt`.

#![tactic(auto)]

mod atoms;
mod complements;
mod counts;
mod faults;
mod grounded;
mod laws;
mod literals;
mod names;
mod starts;
mod tasks;
mod tuples;

pub use faults::GroundFault;
pub use grounded::{Grounded, ground};
pub use laws::known_world;
