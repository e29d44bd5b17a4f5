ghost use Rattle.std.specs.Prelude.{◌↔◌, List};
ghost use Rattle.grd_base.specs.declared.ids.ActionId.{ActionId};
ghost use Rattle.grd_base.specs.declared.ids.GoalId.{GoalId};
ghost use Rattle.strips_model.specs.Values.{IsWorld};
ghost use Rattle.strips_model.specs.Plans.{start_of, after, IsPlan};
ghost use Rattle.strips_model.specs.WorldPlans.{world_end, IsWorldPlan, IsSameEnd};
ghost use Rattle.type_check.specs.Values.{PlainTyped, PlainGroundAtom};
ghost use Rattle.type_check.specs.Typing.{IsTypedTask};
ghost use Rattle.ground_all.specs.Grounding.{ground_world, ground_task};

/// The world of a typed domain and problem with goals meets what holds of every world. A sequence can be taken from its
/// start exactly where it can in the grounded task, and leads in both to states with the same fluent atoms; so the two
/// have the same plans.
pub fn known_world()
    ensures world { (t : PlainTyped) (goals : List (List PlainGroundAtom)) → IsTypedTask t → IsWorld (ground_world t goals) }
    ensures ends { (t : PlainTyped) (goals : List (List PlainGroundAtom)) → IsTypedTask t → (removed p : List ActionId)
        → IsSameEnd (ground_world t goals) (world_end (ground_world t goals) removed p)
        (after (ground_task t goals) removed (start_of (ground_task t goals)) p) }
    ensures plans { (t : PlainTyped) (goals : List (List PlainGroundAtom)) → IsTypedTask t → (g : GoalId) (removed p : List ActionId)
        → IsWorldPlan (ground_world t goals) g removed p ↔ IsPlan (ground_task t goals) g removed p }
{}
