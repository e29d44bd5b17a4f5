use cost_certificate::{CheckKind, Table};
use grd_base::{AtomId, GoalId};
use std::marker::Model;

/// A state that is reached with so many actions, and the goals that may be live there.
#[derive(Debug, Drop)]
pub struct LiveRow {
    /// The atoms of the state, rising.
    pub state: Vec<AtomId>,
    pub depth: u32,
    /// The goals, rising.
    pub goals: Vec<GoalId>,
}

impl Model for LiveRow {
    ghost use Rattle.design_certificate.specs.Live.{PlainLiveRow};

    ghost Value = { PlainLiveRow };

    ghost view = { λ r. record { state = r.state.items; depth = r.depth; goals = r.goals.items } };
}

/// Live rows with a table for each goal.
#[derive(Debug, Drop)]
pub struct LiveRows {
    pub tables: Vec<(GoalId, Table)>,
    pub rows: Vec<LiveRow>,
}

impl Model for LiveRows {
    ghost use Rattle.design_certificate.specs.Live.{PlainLiveRows};

    ghost Value = { PlainLiveRows };

    ghost view = { λ l. record { tables = l.tables.items; rows = l.rows.items } };
}

/// The first fault of live rows.
#[derive(Clone, Copy, Debug, PartialEq, Eq)]
pub struct LiveFault {
    pub kind: CheckKind,
    /// The place among the live rows, or of a row in one of the tables, from 0; 0 where the kind is not
    /// placed at a row.
    pub row: u64,
}
