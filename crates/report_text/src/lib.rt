//! The texts of the reports: the cost of each goal with an optimal plan, and how long two goals
//! can't be told apart.
//!
//! The one promise is that of [`wcd_report`] and of [`cost_report`], which begins it: where there is
//! memory, the bytes are exactly the text that `specs/Reports.antt` defines for what was found, with
//! the names that the grounded world gives its actions and with goals counted from 1.
//!
//! - `report.rt`: writes the reports, line by line.
//! - `specs/Reports.antt`: the text of each line, and of the whole.
#![tactic(auto)]

mod report;

pub use report::{cost_report, number_of, wcd_report};
