//! The task whose plans are the plans of a task that embed observations.
//!
//! But for want of memory, `observed` answers exactly the observed task. The law `plans_embed` says that the
//! plans of a goal there are, with each copy read as its observation, the plans of the goal in the task that
//! embed the observations; so a goal with a cost is recognised exactly where it costs as much there. The
//! task has at most 3,072 atoms and 1,048,576 actions, and there are at most 1,024 observations.
//!
//! | file | what it does |
//! |---|---|
//! | `compile.rt` | makes the observed task |
//! | `laws.rt` | has the law of its plans |
//!
//! The contracts speak in the terms of `strips_model`: `Observed.antt` and `Plans.antt` there.

#![tactic(auto)]

mod compile;
mod laws;

pub use compile::observed;
pub use laws::plans_embed;
