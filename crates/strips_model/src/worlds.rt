ghost use Rattle.std.specs.Prelude.{◌↔◌, List};
ghost use Rattle.grd_base.specs.declared.ids.ActionId.{ActionId};
ghost use Rattle.grd_base.specs.declared.ids.GoalId.{GoalId};
ghost use Rattle.strips_model.specs.Values.{PlainWorld, IsWorld};
ghost use Rattle.strips_model.specs.Plans.{start_of, after, IsPlan};
ghost use Rattle.strips_model.specs.Worlds.{task_of_world};
ghost use Rattle.strips_model.specs.WorldPlans.{world_end, IsWorldPlan, IsSameEnd};

/// A sequence can be taken from the start of a world exactly where it can in the world's task, and leads in
/// both to states with the same fluent atoms; so the two have the same plans.
pub fn known_plans()
    ensures ends { (w : PlainWorld) → IsWorld w → (removed p : List ActionId)
        → IsSameEnd w (world_end w removed p) (after (task_of_world w) removed (start_of (task_of_world w)) p) }
    ensures plans { (w : PlainWorld) → IsWorld w → (g : GoalId) (removed p : List ActionId)
        → IsWorldPlan w g removed p ↔ IsPlan (task_of_world w) g removed p }
{}
