use grd_base::ActionSet;
use std::marker::Model;

/// Lists of actions: on every way to the goal each list has an action, and no two share one.
#[derive(Drop)]
pub struct CutMark {
    pub(crate) lists: Vec<ActionSet>,
}

impl Model for CutMark {
    ghost use Rattle.std.specs.Prelude.{List};
    ghost use Rattle.grd_base.specs.declared.ids.ActionId.{ActionId};

    ghost Value = { List (List ActionId) };

    ghost view = { λ mark. mark.lists.items };
}
