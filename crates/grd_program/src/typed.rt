ghost use Rattle.std.specs.Prelude.{ℕ, ◌≡◌, ◌≤◌, List, Bool, IfOk, IfErr, OnOk};
ghost use Rattle.type_check.specs.Values.{PlainTyped};
ghost use Rattle.type_check.specs.Typing.{IsShortDomain, IsShortProblem, IsTyped, IsTypedTask};
ghost use Rattle.grd_program.specs.Causes.{IsQuiet, AreTyped, HasTypingCause};
ghost use Rattle.grd_program.specs.Runs.{TakesTyped, HasTypedCause};

use crate::files::{Texts, read_texts};
use crate::status::{Refusal, Status};
use command_words::Job;
use grd_io::Shelf;
use pddl_reader::{Domain, Problem};
use std::alloc::Global;
use type_check::{CheckTypeFault, Typed, check};

/// What a domain and a problem make, where they are well typed.
fn typed_of(alloc: Global, domain: &Domain, problem: &Problem) -> Result<Typed, Status>
    requires short_domain { IsShortDomain domain.now }
    requires short_problem { IsShortProblem problem.now }
    ensures typed { IfOk result (AreTyped domain.now problem.now) }
    ensures only { IfOk result (λ typed. (other : PlainTyped) → IsTyped domain.now problem.now other → other ≡ typed) }
    ensures task { IfOk result IsTypedTask }
    ensures cause { IfErr result (HasTypingCause domain.now problem.now) }
{
    match check(alloc, domain, problem) {
        Ok(typed) => Ok(typed),
        Err(CheckTypeFault::Typing(fault)) => Err(Status::Refused(Refusal::Typing(fault))),
        Err(CheckTypeFault::OutOfMemory) => Err(Status::OutOfMemory),
    }
}

/// Reads the domain and then the problem of a job, and checks their types.
pub(crate) fn read_typed<F: Shelf>(alloc: Global, shelf: &mut F, job: &Job) -> Result<Typed, Status>
    ensures taken { IfOk result (TakesTyped (F.told shelf.old) job.now) }
    ensures task { IfOk result IsTypedTask }
    ensures cause { IfErr result
        (HasTypedCause (F.told shelf.old) (F.faults shelf.old) (F.faults shelf.new) job.now) }
    ensures files_stay { (x : List ℕ) → F.told shelf.new x ≡ F.told shelf.old x }
    ensures later { (x : List ℕ) (w : Bool) → F.faults shelf.old x w ≤ F.faults shelf.new x w }
    ensures quiet { OnOk result (IsQuiet (F.faults shelf.old) (F.faults shelf.new)) }
{
    let Texts { domain, problem } = read_texts(alloc, shelf, job)?;
    typed_of(alloc, &domain, &problem)
}
