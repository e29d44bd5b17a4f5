//! Reads the goals and the observations of a planning task from their files.
//!
//! But for want of memory, `read_goals` and `read_observations` answer the goals, or the observations, of a
//! text of at most 2^20 bytes over typed files exactly where it spells 1 to 32 goals of ground atoms, or at
//! most 1,024 ground actions, and else what is at fault, exactly where that is: the first line at fault, by
//! its number; that there is no goal; or that there are too many.
//!
//! | file | what it does |
//! |---|---|
//! | `goals.rt` | reads the goals |
//! | `observations.rt` | reads the observations |
//! | `text_lines.rt` | keeps the lines that are not skipped |
//! | `pieces.rt` | cuts a line into blanks, brackets and runs of names |
//! | `atoms.rt` | reads atoms from these |
//! | `index.rt` | finds a predicate, an action or objects by name, and tests that the objects fit |
//! | `names.rt` | names by their numbers, for that index |
//! | `atom_set.rt` | keeps each atom of a goal once |
//! | `faults.rt` | what can be at fault in a file |
//! | `laws.rt` | that the texts of ground actions and atoms read back |
//!
//! The definitions that contracts cite are in `specs/`: `Lines.antt`, `Ground.antt`, `SpelledLines.antt`,
//! `Goals.antt`, `Observations.antt`.

#![tactic(auto)]

mod atom_set;
mod atoms;
mod faults;
mod goals;
mod index;
mod laws;
mod names;
mod observations;
mod pieces;
mod text_lines;

pub use faults::{GoalFault, ObsFault};
pub use goals::read_goals;
pub use laws::names_read_back;
pub use observations::read_observations;
