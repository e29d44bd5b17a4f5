//! Reads the domain and the problem of a planning task from PDDL text.
//!
//! But for want of memory, `read_domain` and `read_problem` answer the domain, or the problem, of a text of
//! at most 2^20 bytes exactly where it spells one, of typed STRIPS and with the place of each name, and else
//! what is at fault, exactly where that is. The readers go through the items in text order, and the first
//! one at fault ends them.
//!
//! | file | what it does |
//! |---|---|
//! | `read.rt` | takes the tree of a text and hands it to the document |
//! | `document.rt` | reads the name and the sections, and keeps what each gives |
//! | `sections.rt` | reads the content of a section |
//! | `actions.rt` | reads the parts of an action |
//! | `conditions.rt` | reads conditions, literals and atoms |
//! | `typed.rt` | reads typed lists |
//! | `words.rt` | reads a word |
//! | `lists.rt` | takes the first item of a list |
//! | `classes.rt` | tells the classes of words, and the parts of PDDL that are refused by name |
//! | `kinds.rt` | the kinds of lists, parts, documents and sections |
//! | `values.rt` | domains and problems |
//! | `faults.rt` | what can be at fault in a text |
//!
//! The definitions that contracts cite are in `specs/`: `Forms.antt`, `Values.antt`, `Classes.antt`,
//! `Typed.antt`, `Conditions.antt`, `Sections.antt`, `Spelling.antt`, `Faults.antt`, and `Places.antt` for
//! the crates above.

#![tactic(auto)]

mod actions;
mod classes;
mod conditions;
mod document;
mod faults;
mod kinds;
mod lists;
mod read;
mod sections;
mod typed;
mod values;
mod words;

pub use faults::{Feature, PddlFault};
pub use pddl_lexer::TreeFault;
pub use read::{read_domain, read_problem};
pub use values::{Domain, Literal, Name, Predicate, Problem, Schema, Term, TypedName, Types};
