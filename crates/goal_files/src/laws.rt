ghost use Rattle.std.specs.Prelude.{◌≡◌, List, [], ◌∷◌, map, All};
ghost use Rattle.type_check.specs.Values.{PlainTyped, PlainGroundAtom, PlainGroundName};
ghost use Rattle.type_check.specs.Typing.{IsTypedTask};
ghost use Rattle.type_check.specs.Ground.{IsTypedAtom, IsTypedName, atom_text, action_text};
ghost use Rattle.goal_files.specs.SpelledLines.{SpellLines, as_lines};
ghost use Rattle.goal_files.specs.Goals.{SpellsGoal};
ghost use Rattle.goal_files.specs.Observations.{SpellsAction};

/// What is printed of a ground action or atom reads back. As a line of an observations file, the text of a
/// ground action spells this action and no other, and such texts, one a line, are a file that spells their
/// actions. As a line of a goals file, the text of a ground atom spells the goal of this atom and no other.
pub fn names_read_back()
    ensures action { (t : PlainTyped) (n : PlainGroundName) → IsTypedTask t → IsTypedName t n
        → SpellsAction t (action_text t n) n }
    ensures one_action { (t : PlainTyped) (n other : PlainGroundName) → IsTypedTask t → IsTypedName t n
        → SpellsAction t (action_text t n) other → other ≡ n }
    ensures observations { (t : PlainTyped) (names : List PlainGroundName) → IsTypedTask t → All (IsTypedName t) names
        → SpellLines (SpellsAction t) (as_lines (map (action_text t) names)) names }
    ensures atom { (t : PlainTyped) (a : PlainGroundAtom) → IsTypedTask t → IsTypedAtom t a
        → SpellsGoal t (atom_text t a) (a ∷ []) }
    ensures one_atom { (t : PlainTyped) (a : PlainGroundAtom) (other : List PlainGroundAtom) → IsTypedTask t → IsTypedAtom t a
        → SpellsGoal t (atom_text t a) other → other ≡ a ∷ [] }
{}
