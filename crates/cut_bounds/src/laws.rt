ghost use Rattle.std.specs.Prelude.{◌≡◌, ◌<◌, ◌+◌, ◌++◌, ℕ, List, [], ◌∷◌, length, map, All, Option, None};
ghost use Rattle.grd_base.specs.declared.ids.AtomId.{AtomId};
ghost use Rattle.grd_base.specs.declared.ids.ActionId.{ActionId};
ghost use Rattle.grd_base.specs.declared.ids.GoalId.{GoalId};
ghost use Rattle.grd_base.specs.declared.limits.Bound.{Bound};
ghost use Rattle.grd_base.specs.declared.limits.Bound.TheVariants.{Steps, Never};
ghost use Rattle.strips_model.specs.Values.{PlainTask, IsTask};
ghost use Rattle.strips_model.specs.Plans.{State, IsOver, Reaches, set_of};
ghost use Rattle.strips_model.specs.Cuts.{cut, IsFamily, IsEmptyCut};
ghost use Rattle.strips_model.specs.Levels.{IsLevel};
ghost use Rattle.level_bounds.specs.Floors.{MeetsBound};
ghost use Rattle.cut_bounds.specs.CutMarks.{IsCutMark, IsZone, AddsOneAtMost, lacking, listed_cut, all_but, reached_around};
/// What a mark shows: no way to the goal is shorter than its bound, and what is reached around its lists
/// is a family.
pub fn marks_hold()
    ensures steps { (t : PlainTask) (g : GoalId) (removed : List ActionId) (s : State) (lists : List (List ActionId)) (bound : Bound)
        → IsTask t → IsCutMark t g removed s lists bound
        → (p : List ActionId) → Reaches t g removed s p → MeetsBound bound (length p) }
    ensures never { (t : PlainTask) (g : GoalId) (removed : List ActionId) (s : State) (lists : List (List ActionId))
        → IsTask t → IsCutMark t g removed s lists Never → IsLevel t g removed s None }
    ensures family { (t : PlainTask) (g : GoalId) (removed : List ActionId) (s : State) (lists : List (List ActionId)) (bound : Bound) (around : List ActionId → List AtomId)
        → IsTask t → ((list : List ActionId) → set_of (around list) ≡ reached_around t removed list s) → IsCutMark t g removed s lists bound
        → IsFamily t g removed s (map around lists) }
    ensures empty { (t : PlainTask) (g : GoalId) (removed : List ActionId) (s : State) (lists : List (List ActionId)) (around : List ActionId → List AtomId)
        → IsTask t → ((list : List ActionId) → set_of (around list) ≡ reached_around t removed list s) → IsCutMark t g removed s lists Never
        → All (λ u. IsEmptyCut (cut t removed (set_of u))) (map around lists) }
    ensures lacking { (t : PlainTask) (g : GoalId) (removed : List ActionId) (s : State)
        → IsTask t → AddsOneAtMost t removed (lacking t g s)
        → All (λ a. IsEmptyCut (cut t removed (all_but a)) → ⊥) (lacking t g s)
        → IsCutMark t g removed s (map (λ a. listed_cut t removed (all_but a)) (lacking t g s)) (Steps (length (lacking t g s))) }
    ensures cuts { (t : PlainTask) (g : GoalId) (removed : List ActionId) (s : State) (sets : List (List AtomId))
        → IsFamily t g removed s sets → All (λ u. IsEmptyCut (cut t removed (set_of u)) → ⊥) sets
        → IsCutMark t g removed s (map (λ u. listed_cut t removed (set_of u)) sets) (Steps (length sets)) }
    ensures zone { (t : PlainTask) (g : GoalId) (removed : List ActionId) (s : State) (lists : List (List ActionId)) (zone reached : State) (list : List ActionId) (n : ℕ)
        → IsZone t g removed s lists zone reached list → IsCutMark t g removed s lists (Steps n) → 0 < length list
        → IsCutMark t g removed s (lists ++ list ∷ []) (Steps (n + 1)) }
    ensures shut { (t : PlainTask) (g : GoalId) (removed : List ActionId) (s : State) (lists : List (List ActionId)) (zone reached : State)
        → IsZone t g removed s lists zone reached [] → IsCutMark t g removed s ([] ∷ []) Never }
{}
