ghost use Rattle.std.specs.Prelude.{◌≡◌, ◌⊎◌, ◌^◌, ◌≤◌, List, length, map, string_bytes, Ok, Err, IfOk, IfErr, IsOkAnd, MatchOption};
ghost use Rattle.pddl_reader.specs.Sections.{Pairwise};
ghost use Rattle.type_check.specs.Values.{PlainGroundAtom};
ghost use Rattle.type_check.specs.Typing.{IsTypedTask};
ghost use Rattle.goal_files.specs.Ground.{IsAtomOf};
ghost use Rattle.goal_files.specs.SpelledLines.{SpellLines};
ghost use Rattle.goal_files.specs.Goals.{SpellsGoal, SpellsGoals, IsGoalFault};
ghost use Rattle.goal_files.specs.LineReading.{SpellEach, StopsBy, IsGoalOf, IsGoalLineFault};

use crate::atom_set::AtomSet;
use crate::atoms::read_atoms;
use crate::faults::GoalFault;
use crate::index::Index;
use crate::text_lines::{Line, kept_lines};
use std::alloc::{AllocError, Global};
use type_check::{Goal, Typed};

/// The most goals that a file may have.
const MOST_GOALS: usize = 32;

/// The goal of atoms, where each fits.
fn goal_of(
    alloc: Global,
    index: &Index<'_>,
    atoms: &[Vec<String>],
) -> Result<Option<Goal>, AllocError>
    ensures { let spelled = map (λ names. map string_bytes names.items) atoms.now in
        IfOk result (λ found. MatchOption found
        ((ground_atoms : List PlainGroundAtom) → Pairwise (IsAtomOf index.now) spelled ground_atoms → ⊥)
        (IsGoalOf index.now spelled)) }
{
    let mut goal = AtomSet::new(alloc);
    for names in atoms {
        match index.atom(alloc, names)? {
            Some(atom) => goal.add(atom)?,
            None => return Ok(None),
        }
    }
    Ok(Some(goal.into_goal(alloc)?))
}

/// The goal of a line.
fn read_goal(alloc: Global, index: &Index<'_>, line: &Line<'_>) -> Result<Goal, GoalFault>
    ensures spelled { IfOk result (SpellsGoal index.now line.now.bytes) }
    ensures fault { IfErr result (IsGoalLineFault index.now line.now) }
{
    let Some(atoms) = read_atoms(alloc, line.bytes)? else {
        return Err(GoalFault::Shape(line.number));
    };
    match goal_of(alloc, index, &atoms)? {
        Some(goal) => Ok(goal),
        None => Err(GoalFault::UnknownAtom(line.number)),
    }
}

/// The goals of lines, however many there are.
fn read_each(alloc: Global, index: &Index<'_>, lines: &[Line<'_>]) -> Result<Vec<Goal>, GoalFault>
    ensures spelled { IfOk result (λ goals. SpellEach (SpellsGoal index.now) lines.now goals.items) }
    ensures fault { IfErr result
        (StopsBy (SpellsGoal index.now) (IsGoalLineFault index.now) lines.now) }
{
    let mut goals = Vec::new(alloc);
    for line in lines {
        goals.push(read_goal(alloc, index, line)?)?;
    }
    Ok(goals)
}

/// The goals that a text spells, however many there are.
fn read_all(alloc: Global, typed: &Typed, text: &[u8]) -> Result<Vec<Goal>, GoalFault>
    requires typed { IsTypedTask typed.now }
    requires short { length text.now ≤ 2 ^ 20 }
    ensures spelled { IfOk result (λ goals. SpellLines (SpellsGoal typed.now) text.now goals.items) }
    ensures fault { IfErr result
        (λ f. (f ≡ GoalFault.OutOfMemory) ⊎ IsGoalFault typed.now text.now f) }
{
    let index = Index::of(alloc, typed)?;
    let lines = kept_lines(alloc, text)?;
    read_each(alloc, &index, &lines)
}

/// The goals that a text spells, where there are 1 to 32.
fn some_goals(alloc: Global, typed: &Typed, text: &[u8]) -> Result<Vec<Goal>, GoalFault>
    requires typed { IsTypedTask typed.now }
    requires short { length text.now ≤ 2 ^ 20 }
    ensures spelled { IfOk result (λ goals. SpellsGoals typed.now text.now goals.items) }
    ensures fault { IfErr result
        (λ f. (f ≡ GoalFault.OutOfMemory) ⊎ IsGoalFault typed.now text.now f) }
{
    let goals = read_all(alloc, typed, text)?;
    let count = goals.len();
    if count == 0 {
        return Err(GoalFault::NoGoal);
    }
    if count > MOST_GOALS {
        return Err(GoalFault::TooManyGoals(count as u32));
    }
    Ok(goals)
}

/// The goals that a text spells over a typed domain and problem, in the order of its lines. The first
/// line that is at fault decides; then that there is no goal, or more than 32.
pub fn read_goals(alloc: Global, typed: &Typed, text: &[u8]) -> Result<Vec<Goal>, GoalFault>
    requires typed { IsTypedTask typed.now }
    requires short { length text.now ≤ 2 ^ 20 }
    ensures spelled { IfOk result (λ goals. SpellsGoals typed.now text.now goals.items) }
    ensures fault { (f : GoalFault) → result ≡ Err f
        → (f ≡ GoalFault.OutOfMemory) ⊎ IsGoalFault typed.now text.now f }
    ensures spelled_exactly { (goals : List (List PlainGroundAtom)) → SpellsGoals typed.now text.now goals
        → IsOkAnd result (λ found. found.items ≡ goals) ⊎ (result ≡ Err GoalFault.OutOfMemory) }
    ensures fault_exactly { (f : GoalFault) → IsGoalFault typed.now text.now f
        → (result ≡ Err f) ⊎ (result ≡ Err GoalFault.OutOfMemory) }
{
    some_goals(alloc, typed, text)
}
