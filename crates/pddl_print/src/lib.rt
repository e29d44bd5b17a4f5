//! Writes a domain and a problem as their canonical text.
//!
//! But for want of memory, `print_domain` and `print_problem` answer exactly the canonical text of a value
//! that some text spells. It spells a value that differs from this one in places alone, and no other; so
//! where it has at most 2^20 bytes, it is read as that value.
//!
//! | file | what it does |
//! |---|---|
//! | `print.rt` | the two calls |
//! | `sections.rt` | writes the lines of a domain and of a problem |
//! | `requirements.rt` | writes the line of the requirements |
//! | `literals.rt` | writes conditions and atoms |
//! | `typed.rt` | writes names with their types |
//!
//! The definitions that contracts cite are in `specs/`: `Canonical.antt`, `Spells.antt`.

#![tactic(auto)]

mod literals;
mod print;
mod requirements;
mod sections;
mod typed;

pub use print::{print_domain, print_problem};
