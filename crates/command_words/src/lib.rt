//! The words of the command line of `grd`: which job they ask for, or what in them is at fault.
//!
//! The one promise is that of [`read_words`]: it answers the job exactly where the words ask for
//! one, and else what is at fault in them, exactly; only want of memory comes between. What words
//! ask for, and what is at fault in them, is defined in `specs/Commands.antt`, which also has the
//! table of the commands and their options.
//!
//! - `command.rt`: the commands and the options, with the table that code reads.
//! - `job.rt`: what the words ask for.
//! - `faults.rt`: why words give no job.
//! - `words.rt`: reads the words.
//! - `specs/Commands.antt`: what the contract of `read_words` says.
//! - `specs/Words.antt`: what the functions below it promise one another.
#![tactic(auto)]

mod command;
mod faults;
mod job;
mod words;

pub use command::{Command, OptionName};
pub use faults::{UsageFault, WordsFault};
pub use job::Job;
pub use words::read_words;
