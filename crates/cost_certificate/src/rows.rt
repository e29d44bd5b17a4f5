use grd_base::{AtomId, Bound};
use std::marker::Model;
use strips_model::Family;

/// Why a row holds.
#[derive(Debug, Drop)]
pub enum Why {
    /// A plan takes an action of each cut of these sets.
    Cuts(Family),
    /// Each successor of the state has a row of the table that is high enough; for 0 steps none is needed.
    Steps,
}

/// A state with a bound: no sequence of at most that many actions leads from it to the goal; for
/// `Never` no sequence at all does.
#[derive(Debug, Drop)]
pub struct Row {
    /// The atoms of the state, rising.
    pub state: Vec<AtomId>,
    pub bound: Bound,
    pub why: Why,
}

impl Model for Row {
    ghost use Rattle.cost_certificate.specs.Rows.{PlainRow};

    ghost Value = { PlainRow };

    ghost view = { λ r. record { state = r.state.items; bound = r.bound; why = r.why } };
}

/// Rows for one task, one goal and one set of removed actions.
#[derive(Debug, Drop)]
pub struct Table {
    pub rows: Vec<Row>,
}

impl Model for Table {
    ghost use Rattle.std.specs.Prelude.{List};
    ghost use Rattle.cost_certificate.specs.Rows.{PlainRow};

    ghost Value = { List PlainRow };

    ghost view = { λ t. t.rows.items };
}
