//! Tests of the program as a whole, as one call over shelves and sinks in memory.
//!
//! The crate holds no code but tests. They show what no clause says: that runs with ample memory
//! succeed, the printed bytes of worked examples, and the numbers of small random tasks against a
//! slow calculation straight from the definitions. Each test is a loop over rows of data with one
//! call of a helper, so that its proof is cheap.
//!
//! - `chains.rt`: chains of as many atoms as states of each width hold.
//! - `runs.rt`: runs words over files in memory, and compares how the run ended.
//! - `samples.rt`: the texts of the tasks.
//! - `reports.rt`: the reports and the canonical texts.
//! - `refusals.rt`: which fault of the files is told.
//! - `limits.rt`: the limits of sizes and of states.
//! - `devices.rt`: files and outputs that fail.
//! - `word_tests.rt`: which fault of the words is told, and in which forms they are taken.
//! - `slow_tests.rt`: random tasks against the slow calculation.
#![tactic(auto)]

#[cfg(test)]
mod chains;
#[cfg(test)]
mod devices;
#[cfg(test)]
mod limits;
#[cfg(test)]
mod refusals;
#[cfg(test)]
mod reports;
#[cfg(test)]
mod runs;
#[cfg(test)]
mod samples;
#[cfg(test)]
mod slow_tests;
#[cfg(test)]
mod word_tests;
