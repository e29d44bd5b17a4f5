//! Tests of the crates that read, check, ground and print texts, and of the devices, over their public calls.
//!
//! The crate holds no code but tests. They show what no clause says: that calls which may be refused memory
//! succeed with ample memory, worked examples whose values are known from elsewhere, and the texts of faults.
//! Each test is a loop over rows of data with one call of a helper, so that its proof is cheap.
//!
//! - `samples.rt`: texts of domains and problems that several files use.
//! - `parts.rt`: the parts of the lines that tests compare.
//! - `devices.rt`: shelves and sinks.
//! - `lexer.rt`: the tokens of texts, and the trees of their brackets.
//! - `reader.rt`: domains and problems, and what is at fault in one.
//! - `printer.rt`: canonical texts.
//! - `typing.rt`: typed tasks, and the first rule that is broken.
//! - `equalities.rt`: how negative preconditions and equalities are typed.
//! - `typed.rt`: the typed task of two texts.
//! - `goals.rt`: goals and observations.
//! - `grounding.rt`: grounded worlds, and the names of their atoms and actions.
//! - `certificates.rt`: the lines of certificates.
#![tactic(auto)]

#[cfg(test)]
mod certificates;
#[cfg(test)]
mod devices;
#[cfg(test)]
mod equalities;
#[cfg(test)]
mod goals;
#[cfg(test)]
mod grounding;
#[cfg(test)]
mod lexer;
#[cfg(test)]
mod parts;
#[cfg(test)]
mod printer;
#[cfg(test)]
mod reader;
#[cfg(test)]
mod samples;
#[cfg(test)]
mod typed;
#[cfg(test)]
mod typing;
