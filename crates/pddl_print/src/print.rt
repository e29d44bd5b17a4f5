ghost use Rattle.std.specs.Prelude.{◌≡◌, IfOk};
ghost use Rattle.pddl_print.specs.Canonical.{domain_text, problem_text};
ghost use Rattle.pddl_print.specs.Spells.{IsSpelledDomain, IsSpelledProblem, SpellsDomain, SpellsProblem};

use crate::sections::{put_domain, put_problem};
use grd_base::OutOfMemory;
use pddl_reader::{Domain, Problem};
use std::alloc::Global;

/// The canonical text of a domain. Where it has at most 2^20 bytes, reading it gives the value again,
/// with the places that its names have there.
pub fn print_domain(alloc: Global, domain: &Domain) -> Result<Vec<u8>, OutOfMemory>
    requires { IsSpelledDomain domain.now }
    ensures text { IfOk result (λ text. text.items ≡ domain_text domain.now) }
    ensures spells { IfOk result (λ text. SpellsDomain text.items domain.now) }
{
    let mut text = Vec::new(alloc);
    put_domain(&mut text, domain)?;
    Ok(text)
}

/// The canonical text of a problem. Where it has at most 2^20 bytes, reading it gives the value again,
/// with the places that its names have there.
pub fn print_problem(alloc: Global, problem: &Problem) -> Result<Vec<u8>, OutOfMemory>
    requires { IsSpelledProblem problem.now }
    ensures text { IfOk result (λ text. text.items ≡ problem_text problem.now) }
    ensures spells { IfOk result (λ text. SpellsProblem text.items problem.now) }
{
    let mut text = Vec::new(alloc);
    put_problem(&mut text, problem)?;
    Ok(text)
}
