use grd_base::AtomId;
use std::marker::Model;

/// Sets of atoms that show how far a state is from a goal: where each contains the state and leaves
/// the goal open, and their cuts are pairwise disjoint, each plan takes an action of each cut.
#[derive(Debug, Drop)]
pub struct Family {
    /// The sets. Each rises.
    pub sets: Vec<Vec<AtomId>>,
}

impl Model for Family {
    ghost use Rattle.std.specs.Prelude.{List, map};
    ghost use Rattle.grd_base.specs.declared.ids.AtomId.{AtomId};

    ghost Value = { List (List AtomId) };

    ghost view = { λ f. map (λ set. set.items) f.sets.items };
}
