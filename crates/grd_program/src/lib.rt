//! The whole program as one call, over any shelf of files and any two sinks.
//!
//! The one promise is that of [`run`]: what it writes to the output and to the error stream, why it
//! ends as it does, and where it has to succeed. The clauses stand on `run` itself; their words are
//! defined in `specs/Runs.antt`, and below it in `specs/Causes.antt` and `specs/Errors.antt`.
//!
//! - `program.rt`: makes the whole text, writes it, and writes the line of what went wrong.
//! - `answer.rt`: the text that answers the words: reads, grounds, searches and reports.
//! - `files.rt`: the domain, the problem and the goals from their files.
//! - `typed.rt`: the domain and the problem with their types checked.
//! - `show.rt`: the canonical text of the domain and of the problem.
//! - `question.rt`: what is asked about a world.
//! - `status.rt`: how a run ends, with its exit status.
//! - `errors.rt`: the line of each status on the error stream.
#![tactic(auto)]

mod answer;
mod errors;
mod files;
mod program;
mod question;
mod show;
mod status;
mod typed;

pub use errors::error_line;
pub use program::run;
pub use status::{LimitFault, Refusal, Status, Target};
