ghost use Rattle.std.specs.Prelude.{◌≡◌, ℕ, ◌≤◌, ◌++◌, List, Bool, IfOk, IfErr, OnOk};
ghost use Rattle.pddl_reader.specs.Values.{PlainDomain, PlainProblem};
ghost use Rattle.pddl_print.specs.Canonical.{domain_text, problem_text};
ghost use Rattle.pddl_print.specs.Spells.{IsSpelledDomain, IsSpelledProblem};
ghost use Rattle.grd_program.specs.Causes.{IsQuiet};
ghost use Rattle.grd_program.specs.Runs.{TakesTexts, IsShowText, HasTextsCause};

use crate::files::read_texts;
use crate::status::Status;
use command_words::Job;
use grd_base::OutOfMemory;
use grd_io::Shelf;
use pddl_print::{print_domain, print_problem};
use pddl_reader::{Domain, Problem};
use std::alloc::Global;

/// The canonical text of a job's domain, and behind it that of its problem.
pub(crate) fn show_text<F: Shelf>(
    alloc: Global,
    shelf: &mut F,
    job: &Job,
) -> Result<Vec<u8>, Status>
    ensures text { IfOk result (λ text. IsShowText (F.told shelf.old) job.now text.items) }
    ensures taken { OnOk result ((d : PlainDomain) × (p : PlainProblem)
        × TakesTexts (F.told shelf.old) job.now d p) }
    ensures cause { IfErr result
        (HasTextsCause (F.told shelf.old) (F.faults shelf.old) (F.faults shelf.new) job.now) }
    ensures files_stay { (x : List ℕ) → F.told shelf.new x ≡ F.told shelf.old x }
    ensures later { (x : List ℕ) (w : Bool) → F.faults shelf.old x w ≤ F.faults shelf.new x w }
    ensures quiet { OnOk result (IsQuiet (F.faults shelf.old) (F.faults shelf.new)) }
{
    let texts = read_texts(alloc, shelf, job)?;
    Ok(canonical_text(alloc, &texts.domain, &texts.problem)?)
}

/// The canonical text of a domain, and behind it that of a problem.
fn canonical_text(alloc: Global, domain: &Domain, problem: &Problem) -> Result<Vec<u8>, OutOfMemory>
    requires domain { IsSpelledDomain domain.now }
    requires problem { IsSpelledProblem problem.now }
    ensures { IfOk result
        (λ text. text.items ≡ domain_text domain.now ++ problem_text problem.now) }
{
    let mut text = print_domain(alloc, domain)?;
    push_problem(alloc, &mut text, problem)?;
    Ok(text)
}

/// Writes the canonical text of a problem.
fn push_problem(alloc: Global, text: &mut Vec<u8>, problem: &Problem) -> Result<(), OutOfMemory>
    requires { IsSpelledProblem problem.now }
    ensures { OnOk result (text.new.items ≡ text.old.items ++ problem_text problem.now) }
{
    let problem_text = print_problem(alloc, problem)?;
    text.extend_from_slice(&problem_text)?;
    Ok(())
}
