ghost use Rattle.std.specs.Prelude.{◌≡◌, ◌≢◌, ℕ, ◌+◌, ◌<◌, ◌≤◌, List, [], length, Option, Some, None, All};
ghost use Rattle.std.specs.Option.{option_map};
ghost use Rattle.grd_base.specs.declared.ids.ActionId.{ActionId};
ghost use Rattle.grd_base.specs.declared.ids.GoalId.{GoalId};
ghost use Rattle.grd_base.specs.Rising.{IsRising};
ghost use Rattle.strips_model.specs.Values.{PlainTask, PlainWitness};
ghost use Rattle.strips_model.specs.Plans.{IsPlan};
ghost use Rattle.strips_model.specs.Common.{IsCommon, IsWcd, IsRightWcd, KeepsCosts, IsBest};
ghost use Rattle.design_certificate.specs.Designs.{AreCosts, Gives, AreAmong, AreOutside, HidesFor};
ghost use Rattle.design_certificate.specs.Witnesses.{IsShownWitness};
ghost use Rattle.design_certificate.specs.Live.{PlainLiveRows, BeginsShort, IsValidLive};
ghost use Rattle.design_certificate.specs.Shown.{AreShown, ShowsWcd, ShowsDesign};
ghost use Rattle.design_certificate.specs.Parts.{PlainDesign, IsShownDesign};
ghost use Rattle.design_certificate.specs.Trees.{PlainNamed, PlainNode, IsValidNamed, IsValidNode, IsValidTree};

use cost_certificate::rows_refute;

/// Valid live rows mean what they say: no sequence is longer with which plans of two different goals
/// begin that are no longer than the goals' numbers. Where the numbers are the costs without the removed
/// actions, no sequence that is common to two goals is longer; and these are the costs of the task where
/// the removed actions keep them.
pub fn live_rows_bound()
    ensures numbers { (t : PlainTask) (numbers : List (Option ℕ)) (removed : List ActionId) (len : ℕ) (live : PlainLiveRows)
        → IsValidLive t numbers removed len live
        → (i j : GoalId) (b c : ℕ) (q : List ActionId) → i ≢ j → Gives numbers i b → Gives numbers j c
        → BeginsShort t i removed b q → BeginsShort t j removed c q → length q ≤ len }
    ensures costs { (t : PlainTask) (costs : List (Option ℕ)) (removed : List ActionId) (len : ℕ) (live : PlainLiveRows)
        → AreCosts t [] costs → KeepsCosts t removed → IsValidLive t costs removed len live
        → (i j : GoalId) (q : List ActionId) → IsCommon t removed i j q → length q ≤ len }
{
    rows_refute();
}

/// A shown witness and valid live rows of its length show the worst-case distinctiveness.
pub fn live_rows_show_wcd()
    ensures { (t : PlainTask) (costs : List (Option ℕ)) (removed : List ActionId) (w : PlainWitness) (live : PlainLiveRows)
        → AreCosts t [] costs → KeepsCosts t removed → IsShownWitness t costs removed w
        → IsValidLive t costs removed (length w.prefix) live → IsRightWcd t removed (Some w) }
{
    rows_refute();
}

/// A valid tree means what it says: each set of at most so many actions that keeps the costs leaves a
/// common sequence of at least its length. At a node this holds of each such set that has all of the
/// node's removed actions and none of its kept ones.
pub fn trees_hide()
    ensures tree { (t : PlainTask) (costs : List (Option ℕ)) (named : List PlainNamed) (m len : ℕ) (tree : PlainNode)
        → AreCosts t [] costs → All (IsValidNamed t costs) named → IsValidTree t costs named m len tree
        → (set : List ActionId) → length set ≤ m → KeepsCosts t set → HidesFor t set len }
    ensures node { (t : PlainTask) (costs : List (Option ℕ)) (named : List PlainNamed) (m len : ℕ) (removed kept : List ActionId) (node : PlainNode)
        → AreCosts t [] costs → All (IsValidNamed t costs) named → IsRising removed → IsValidNode t costs named m len removed kept node
        → (set : List ActionId) → length set ≤ m → KeepsCosts t set → AreAmong removed set → AreOutside kept set → HidesFor t set len }
{
    rows_refute();
}

/// Where two goals can't be told apart for some number of steps, the worst-case distinctiveness is a
/// number, and no smaller one.
pub fn hidden_steps_bound_wcd()
    ensures number { (t : PlainTask) (removed : List ActionId) (n w : ℕ) → HidesFor t removed n → IsWcd t removed (Some w) → n ≤ w }
    ensures some { (t : PlainTask) (removed : List ActionId) (n : ℕ) → HidesFor t removed n → IsWcd t removed None → ⊥ }
{}

/// A set keeps the costs where each goal with a cost has a plan of that length without its actions.
pub fn costs_are_kept()
    ensures { (t : PlainTask) (costs : List (Option ℕ)) (removed : List ActionId) → AreCosts t [] costs
        → ((g : GoalId) (c : ℕ) → Gives costs g c → (plan : List ActionId) × IsPlan t g removed plan × (length plan ≡ c))
        → KeepsCosts t removed }
{}

/// A set that keeps the costs is a best design where a valid tree shows that no set of the budget leaves
/// less than it does, and another that each set with fewer members leaves more. Neither is needed where
/// there is nothing to show.
pub fn design_is_best()
    ensures { (t : PlainTask) (costs : List (Option ℕ)) (named : List PlainNamed) (budget w : ℕ) (removed : List ActionId)
        → AreCosts t [] costs → All (IsValidNamed t costs) named
        → length removed ≤ budget → KeepsCosts t removed → IsWcd t removed (Some w)
        → (0 < w → (first : PlainNode) × IsValidTree t costs named budget w first)
        → ((n : ℕ) → length removed ≡ n + 1 → (second : PlainNode) × IsValidTree t costs named n (w + 1) second)
        → IsBest t budget removed }
{
    rows_refute();
}

/// Where fewer than two goals have plans, to remove nothing is best.
pub fn nothing_is_best()
    ensures { (t : PlainTask) (budget : ℕ) → IsWcd t [] None → IsBest t budget [] }
{}

/// The parts of a certificate mean what they claim: shown costs are the costs; what shows the worst-case
/// distinctiveness without a set that keeps the costs shows it; and a shown design is best, and leaves
/// what it claims.
pub fn parts_show()
    ensures costs { (t : PlainTask) (costs : List (Option ℕ)) → AreShown t costs → AreCosts t [] costs }
    ensures wcd { (t : PlainTask) (costs : List (Option ℕ)) (removed : List ActionId) (x : Option (PlainWitness × PlainLiveRows))
        → AreCosts t [] costs → KeepsCosts t removed → ShowsWcd t costs removed x → IsRightWcd t removed (option_map (λ y. y.0) x) }
    ensures design { (t : PlainTask) (costs : List (Option ℕ)) (named : List PlainNamed) (budget : ℕ) (removed : List ActionId) (w : ℕ)
        → AreCosts t [] costs → All (IsValidNamed t costs) named → ShowsDesign t costs named budget removed w
        → IsBest t budget removed × IsWcd t removed (Some w) }
    ensures part { (t : PlainTask) (costs : List (Option ℕ)) (whole : Option (PlainWitness × PlainLiveRows)) (budget : ℕ) (d : PlainDesign) (w : Option ℕ)
        → AreShown t costs → ShowsWcd t costs [] whole → IsShownDesign t costs budget whole d w
        → IsBest t budget d.removed × IsWcd t d.removed w }
{
    rows_refute();
}
