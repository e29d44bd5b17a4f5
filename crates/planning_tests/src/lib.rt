//! Tests of the crates that plan, and of the sets that they share, over their public calls.
//!
//! The crate holds no code but tests. They show what no clause says: that calls which may be refused memory
//! succeed with ample memory, worked examples whose values are known from elsewhere, and generic calls at a
//! concrete type. Each test is a loop over rows of data with one call of a helper, so that its proof is cheap.
//!
//! - `samples.rt`: the tasks that the crates are asked about.
//! - `sets.rt`: sets of numbers, and of actions.
//! - `tasks.rt`: steps, plans, goals and moves of tasks.
//! - `successors.rt`: the actions that apply in a state.
//! - `levels.rt`: the levels of goals, and the sets that show them.
//! - `observed.rt`: observed tasks.
//! - `search.rt`: the search within a number of steps, over any space with any floor.
//! - `least.rt`: the search for a least path, over any space with any floor.
//! - `numbering.rt`: the numbers of states.
//! - `tables.rt`: the test of tables of rows.
//! - `live_rows.rt`: the test of live rows.
//! - `trees.rt`: the test of trees.
//! - `costs.rt`: the costs of goals, and oracles.
//! - `verdicts.rt`: which goals are recognised.
//! - `common.rt`: the longest common sequences.
//! - `definitions.rt`: what is defined over all plans and answered by no call yet, by a slow calculation.
#![tactic(auto)]

#[cfg(test)]
mod common;
#[cfg(test)]
mod costs;
#[cfg(test)]
mod cuts;
#[cfg(test)]
mod definitions;
#[cfg(test)]
mod least;
#[cfg(test)]
mod levels;
#[cfg(test)]
mod live_rows;
#[cfg(test)]
mod numbering;
#[cfg(test)]
mod observed;
#[cfg(test)]
mod samples;
#[cfg(test)]
mod search;
#[cfg(test)]
mod sets;
#[cfg(test)]
mod successors;
#[cfg(test)]
mod tables;
#[cfg(test)]
mod tasks;
#[cfg(test)]
mod trees;
#[cfg(test)]
mod verdicts;
