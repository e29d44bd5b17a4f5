//! Bounds on the steps to a goal from lists of actions, each of which every way to the goal takes.
//!
//! But for want of memory, `cuts_at` of a floor that was made for a task answers a bound for a state and a
//! mark that shows it: lists of actions, pairwise disjoint, without any one of which the goal is not reached
//! even where nothing is deleted. The bound is at least the level, `Never` where there is none, and at least
//! the number of atoms of the goal that the state lacks where no action adds two of them; no sequence to the
//! goal is shorter. `family_at` answers for each list of a mark the atoms that are reached around it: a family
//! that proves the bound. The law `marks_hold` says what a mark shows.
//!
//! | file | what it does |
//! |---|---|
//! | `mark.rt` | the lists of a mark |
//! | `rounds.rt` | makes rounds until the goal holds, and lists the cut before each |
//! | `zones.rt` | lists the actions that lead into a zone of atoms |
//! | `lists.rt` | puts lists one after another that share no action |
//! | `costs.rt` | finds what atoms cost by the max heuristic |
//! | `landmarks.rt` | puts the lists of landmark cuts |
//! | `goals.rt` | tries the atoms of the goal that the state lacks, each as a zone |
//! | `around.rt` | makes the sets of the lists of a mark |
//! | `floor.rt` | answers the best of the three marks, and its family |
//! | `laws.rt` | what a mark shows, as laws |
//!
//! The definitions that contracts cite are in `specs/CutMarks.antt` and `specs/CutFloors.antt`.

#![tactic(auto)]

mod around;
mod costs;
mod floor;
mod goals;
mod landmarks;
mod laws;
mod lists;
mod mark;
mod rounds;
mod zones;

pub use floor::CutFloor;
pub use laws::marks_hold;
pub use mark::CutMark;
