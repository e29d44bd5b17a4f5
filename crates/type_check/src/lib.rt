//! Checks the types of a domain and a problem, and gives their names numbers.
//!
//! But for want of memory, `check` answers a domain and a problem with numbers in the place of names,
//! exactly where every rule of typing holds of the two, and it is the one value that they make; else the
//! fault of the first rule that is broken, by its kind, file and place.
//!
//! | file | what it does |
//! |---|---|
//! | `typing.rt` | makes the whole of what the rules leave |
//! | `rules.rt` | goes through the rules in the order in which faults are found |
//! | `types.rt` | numbers the types, and tests which lies below which |
//! | `entries.rt` | tables of the declared types with their parents |
//! | `chains.rt` | walks through chains of parents |
//! | `declared.rt` | checks declared names and their types |
//! | `predicates.rt`, `actions.rt`, `problem.rt` | check what these three declare |
//! | `equality.rt` | the equality as a predicate behind the declared ones |
//! | `literals.rt` | checks a literal and gives it its numbers in one pass |
//! | `names.rt` | an index of names |
//! | `files.rt` | a domain and a problem that are well typed |
//! | `objects.rt` | their objects, with the numbers of their types |
//! | `places.rt` | the objects that fit each parameter |
//! | `typed.rt`, `faults.rt` | the values that are made, and the rules that can be broken |
//!
//! The definitions that contracts cite are in `specs/`: `Types.antt`, `Checks.antt`, `Rules.antt`,
//! `Values.antt`, `Numbered.antt`, `Typing.antt`, and `Ground.antt` for the crates above.

#![tactic(auto)]

mod actions;
mod chains;
mod declared;
mod entries;
mod equality;
mod faults;
mod files;
mod literals;
mod names;
mod objects;
mod places;
mod predicates;
mod problem;
mod rules;
mod typed;
mod types;
mod typing;

pub use faults::{CheckTypeFault, TypeFault, TypeKind};
pub use typed::{
    Goal, GroundAtom, GroundName, Typed, TypedLiteral, TypedObject, TypedPredicate, TypedSchema,
    TypedTerm,
};
pub use typing::check;
