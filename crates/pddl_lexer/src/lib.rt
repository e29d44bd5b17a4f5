//! Splits PDDL text into words and brackets, and builds the tree of the brackets.
//!
//! But for want of memory, `tokens` answers all brackets and words of a text of at most 2^20 bytes, each
//! with its span, and `BadByte` exactly where that byte is the first outside comments that is neither space
//! nor printable ASCII. `tree` answers a tree that, laid flat, gives the tokens back, exactly where they are
//! one list of depth at most 64, and else the fault of the first token that breaks a rule, or the innermost
//! bracket left open.
//!
//! | file | what it does |
//! |---|---|
//! | `token.rt` | cuts the text into brackets and words with their spans |
//! | `trees.rt` | makes the tree of the brackets |
//! | `faults.rt` | why there are no tokens, or no tree |
//!
//! The definitions that contracts cite are in `specs/`: `Pieces.antt`, `Tokens.antt`, `Brackets.antt`,
//! `Trees.antt`.

#![tactic(auto)]

mod faults;
mod token;
mod trees;

pub use faults::{LexFault, TreeFault};
pub use token::{Token, TokenKind, tokens};
pub use trees::{Item, TreeList, tree};
