ghost use Rattle.std.specs.Prelude.{◌≡◌, ◌⊎◌, ◌^◌, ◌≤◌, List, [], ◌∷◌, length, map, string_bytes, Ok, Err, IfOk, IfErr, IsOkAnd, MatchOption};
ghost use Rattle.type_check.specs.Values.{PlainGroundName};
ghost use Rattle.type_check.specs.Typing.{IsTypedTask};
ghost use Rattle.goal_files.specs.Lines.{IsGoalLine};
ghost use Rattle.goal_files.specs.SpelledLines.{SpellLines};
ghost use Rattle.goal_files.specs.Observations.{SpellsAction, SpellsObservations, HasNoList, IsObsFault};
ghost use Rattle.goal_files.specs.LineReading.{SpellEach, StopsBy, IsObsLineFault};

use crate::atoms::read_atoms;
use crate::faults::ObsFault;
use crate::index::Index;
use crate::text_lines::{Line, kept_lines};
use std::alloc::{AllocError, Global};
use type_check::{GroundName, Typed};

/// The most observations that a file may have.
const MOST_OBSERVATIONS: usize = 1024;

/// The names of the one list that a line spells.
fn read_names(alloc: Global, line: &[u8]) -> Result<Option<Vec<String>>, AllocError>
    ensures { IfOk result (λ found. MatchOption found
        (HasNoList line.now)
        (λ names. IsGoalLine line.now (map string_bytes names.items ∷ []))) }
{
    let Some(mut lists) = read_atoms(alloc, line)? else {
        return Ok(None);
    };
    let names = lists.pop();
    if lists.is_empty() {
        Ok(names)
    } else {
        Ok(None)
    }
}

/// The ground action of a line.
fn read_observation(
    alloc: Global,
    index: &Index<'_>,
    line: &Line<'_>,
) -> Result<GroundName, ObsFault>
    ensures spelled { IfOk result (SpellsAction index.now line.now.bytes) }
    ensures fault { IfErr result (IsObsLineFault index.now line.now) }
{
    let Some(names) = read_names(alloc, line.bytes)? else {
        return Err(ObsFault::Shape(line.number));
    };
    match index.action(alloc, &names)? {
        Some(action) => Ok(action),
        None => Err(ObsFault::UnknownAction(line.number)),
    }
}

/// The observations of lines, however many there are.
fn read_each(
    alloc: Global,
    index: &Index<'_>,
    lines: &[Line<'_>],
) -> Result<Vec<GroundName>, ObsFault>
    ensures spelled { IfOk result (λ names. SpellEach (SpellsAction index.now) lines.now names.items) }
    ensures fault { IfErr result
        (StopsBy (SpellsAction index.now) (IsObsLineFault index.now) lines.now) }
{
    let mut observations = Vec::new(alloc);
    for line in lines {
        observations.push(read_observation(alloc, index, line)?)?;
    }
    Ok(observations)
}

/// The observations that a text spells, however many there are.
fn read_all(alloc: Global, typed: &Typed, text: &[u8]) -> Result<Vec<GroundName>, ObsFault>
    requires typed { IsTypedTask typed.now }
    requires short { length text.now ≤ 2 ^ 20 }
    ensures spelled { IfOk result (λ names. SpellLines (SpellsAction typed.now) text.now names.items) }
    ensures fault { IfErr result
        (λ f. (f ≡ ObsFault.OutOfMemory) ⊎ IsObsFault typed.now text.now f) }
{
    let index = Index::of(alloc, typed)?;
    let lines = kept_lines(alloc, text)?;
    read_each(alloc, &index, &lines)
}

/// The observations that a text spells, where there are at most 1,024.
fn few_observations(alloc: Global, typed: &Typed, text: &[u8]) -> Result<Vec<GroundName>, ObsFault>
    requires typed { IsTypedTask typed.now }
    requires short { length text.now ≤ 2 ^ 20 }
    ensures spelled { IfOk result (λ names. SpellsObservations typed.now text.now names.items) }
    ensures fault { IfErr result
        (λ f. (f ≡ ObsFault.OutOfMemory) ⊎ IsObsFault typed.now text.now f) }
{
    let observations = read_all(alloc, typed, text)?;
    let count = observations.len();
    if count > MOST_OBSERVATIONS {
        return Err(ObsFault::TooManyObservations(count as u32));
    }
    Ok(observations)
}

/// The observations that a text spells over a typed domain and problem, in the order of its lines. The
/// first line that is at fault decides; then that there are more than 1,024.
pub fn read_observations(
    alloc: Global,
    typed: &Typed,
    text: &[u8],
) -> Result<Vec<GroundName>, ObsFault>
    requires typed { IsTypedTask typed.now }
    requires short { length text.now ≤ 2 ^ 20 }
    ensures spelled { IfOk result (λ names. SpellsObservations typed.now text.now names.items) }
    ensures fault { (f : ObsFault) → result ≡ Err f
        → (f ≡ ObsFault.OutOfMemory) ⊎ IsObsFault typed.now text.now f }
    ensures spelled_exactly { (names : List PlainGroundName) → SpellsObservations typed.now text.now names
        → IsOkAnd result (λ found. found.items ≡ names) ⊎ (result ≡ Err ObsFault.OutOfMemory) }
    ensures fault_exactly { (f : ObsFault) → IsObsFault typed.now text.now f
        → (result ≡ Err f) ⊎ (result ≡ Err ObsFault.OutOfMemory) }
{
    few_observations(alloc, typed, text)
}
