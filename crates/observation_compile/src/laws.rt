ghost use Rattle.std.specs.Prelude.{◌≡◌, ◌↔◌, ℕ, List, [], map, Some};
ghost use Rattle.grd_base.specs.declared.ids.ActionId.{ActionId};
ghost use Rattle.grd_base.specs.declared.ids.GoalId.{GoalId};
ghost use Rattle.strips_model.specs.Values.{PlainTask, IsTask};
ghost use Rattle.strips_model.specs.Agents.{Embeds};
ghost use Rattle.strips_model.specs.Plans.{IsPlan, IsCost, IsRecognised};
ghost use Rattle.strips_model.specs.Observed.{observed_task, read_as};

/// The plans of a goal in the observed task are, with each copy read as its observation, the plans of the
/// goal that embed the observations. So a goal with a cost is recognised exactly where it costs as much
/// in the observed task.
pub fn plans_embed()
    ensures sound { (t : PlainTask) (os : List ActionId) (g : GoalId) (p : List ActionId) → IsTask t
        → IsPlan (observed_task t os) g [] p
        → IsPlan t g [] (map (read_as t os) p) × Embeds os (map (read_as t os) p) }
    ensures complete { (t : PlainTask) (os : List ActionId) (g : GoalId) (p : List ActionId) → IsTask t
        → IsPlan t g [] p → Embeds os p
        → (q : List ActionId) × IsPlan (observed_task t os) g [] q × (map (read_as t os) q ≡ p) }
    ensures recognised { (t : PlainTask) (os : List ActionId) (g : GoalId) (c : ℕ) → IsTask t
        → IsCost t g [] (Some c)
        → (IsRecognised t g os ↔ IsCost (observed_task t os) g [] (Some c)) }
{}
