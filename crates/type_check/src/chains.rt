// Chains of parents, where each type goes by its number.
ghost use Rattle.std.specs.Prelude.{◌≡◌, ◌<◌, ◌≤◌, ◌^◌, ◌↔◌, ℕ, IsTrue, IfOk, length, map};
ghost use Rattle.std.specs.Option.{option_and_then};
ghost use Rattle.type_check.specs.Chains.{AreWithin, LeadsTo, MeetsMark, AreSteps, AreReturning, parent_at};

use grd_base::OutOfMemory;
use std::alloc::Global;

/// Whether the chain of parents from a type leads to the other.
pub(crate) fn leads_to(parents: &[Option<u32>], from: u32, to: u32) -> bool
    requires known { from < length parents.now }
    requires within { AreWithin parents.now }
    ensures { IsTrue result ↔ LeadsTo parents.now from to }
{
    let mut at = from;
    for _ in 0..parents.len() {
        if at == to {
            return true;
        }
        match parents[at as usize] {
            Some(parent) => at = parent,
            None => return false,
        }
    }
    false
}

// Where chains stand after two times as many steps.
fn twice(alloc: Global, steps: &[Option<u32>]) -> Result<Vec<Option<u32>>, OutOfMemory>
    requires within { AreWithin steps.now }
    ensures { IfOk result (λ twice.
        twice.items ≡ map (option_and_then (parent_at steps.now)) steps.now) }
{
    let mut twice = Vec::with_capacity(alloc, steps.len())?;
    for step in steps {
        twice.push(match step {
            Some(at) => steps[*at as usize],
            None => None,
        })?;
    }
    Ok(twice)
}

// Where chains stand after more steps than there are types.
fn far(alloc: Global, parents: &[Option<u32>]) -> Result<Vec<Option<u32>>, OutOfMemory>
    requires within { AreWithin parents.now }
    ensures { IfOk result (λ far. AreSteps parents.now (2 ^ 32) far.items) }
{
    let mut steps = twice(alloc, parents)?;
    for _ in 1..32u32 {
        steps = twice(alloc, steps.as_slice())?;
    }
    Ok(steps)
}

/// For each type whether its chain of parents returns to it.
pub(crate) fn returning(alloc: Global, parents: &[Option<u32>]) -> Result<Vec<bool>, OutOfMemory>
    requires within { AreWithin parents.now }
    requires few { length parents.now ≤ 2 ^ 32 }
    ensures { IfOk result (λ returning. AreReturning parents.now returning.items) }
{
    let far = far(alloc, parents)?;
    let mut returning = vec![in alloc; false; parents.len()]?;
    for step in &far {
        let Some(at) = step else {
            continue;
        };
        returning[*at as usize] = true;
    }
    Ok(returning)
}

/// Whether the chain of parents from a type meets one that is marked.
pub(crate) fn meets(parents: &[Option<u32>], marks: &[bool], from: u32) -> bool
    requires known { from < length parents.now }
    requires within { AreWithin parents.now }
    requires each { length marks.now ≡ length parents.now }
    ensures { IsTrue result ↔ MeetsMark parents.now marks.now from }
{
    let mut at = from;
    for _ in 0..parents.len() {
        if marks[at as usize] {
            return true;
        }
        match parents[at as usize] {
            Some(parent) => at = parent,
            None => return false,
        }
    }
    false
}

/// Marks the types of a chain that meets one that is marked, up to that one.
pub(crate) fn mark_up(parents: &[Option<u32>], marks: &mut [bool], from: u32)
    requires known { from < length parents.now }
    requires within { AreWithin parents.now }
    requires each { length marks.old ≡ length parents.now }
    requires meets { MeetsMark parents.now marks.old from }
    ensures each { length marks.new ≡ length parents.now }
    ensures same { (j : ℕ) → MeetsMark parents.now marks.new j ↔ MeetsMark parents.now marks.old j }
{
    let mut at = from;
    for _ in 0..parents.len() {
        if marks[at as usize] {
            return;
        }
        marks[at as usize] = true;
        match parents[at as usize] {
            Some(parent) => at = parent,
            None => return,
        }
    }
}
