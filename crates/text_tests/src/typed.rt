ghost use Rattle.std.specs.Prelude.{IfOk};
ghost use Rattle.type_check.specs.Typing.{IsShortDomain, IsShortProblem, IsTypedTask};

use pddl_reader::{Domain, Problem, read_domain, read_problem};
use std::alloc::Global;
use std::test::Fail;
use type_check::{CheckTypeFault, Typed, check};

/// The domain of a text.
pub fn domain_of(alloc: Global, text: &str) -> Result<Domain, Fail>
    ensures { IfOk result IsShortDomain }
{
    if text.len() > 1 << 20 {
        return Err("too long".into());
    }
    Ok(read_domain(alloc, text.as_bytes())?)
}

/// The problem of a text.
pub fn problem_of(alloc: Global, text: &str) -> Result<Problem, Fail>
    ensures { IfOk result IsShortProblem }
{
    if text.len() > 1 << 20 {
        return Err("too long".into());
    }
    Ok(read_problem(alloc, text.as_bytes())?)
}

/// What a domain and a problem make.
pub fn checked(alloc: Global, domain: &Domain, problem: &Problem) -> Result<Typed, CheckTypeFault>
    requires short_domain { IsShortDomain domain.now }
    requires short_problem { IsShortProblem problem.now }
    ensures { IfOk result IsTypedTask }
{
    check(alloc, domain, problem)
}

/// The typed task of a domain and a problem.
pub fn typed_task(alloc: Global, domain: &str, problem: &str) -> Result<Typed, Fail>
    ensures { IfOk result IsTypedTask }
{
    let domain = domain_of(alloc, domain)?;
    let problem = problem_of(alloc, problem)?;
    Ok(checked(alloc, &domain, &problem)?)
}
