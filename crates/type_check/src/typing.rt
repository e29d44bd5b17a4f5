ghost use Rattle.std.specs.Prelude.{◌≡◌, ◌⊎◌, map, Ok, Err, IfOk, IfErr, IsOk};
ghost use Rattle.pddl_reader.specs.Sections.{Pairwise};
ghost use Rattle.type_check.specs.Values.{PlainTyped};
ghost use Rattle.type_check.specs.Rules.{checks_of, IsWellTyped, IsTypeFault};
ghost use Rattle.type_check.specs.Typing.{IsShortDomain, IsShortProblem, IsTypedPredicate, IsTypedSchema, IsTyped, ground_atom};
ghost use Rattle.type_check.specs.Tables.{HasFault, checked_schema};

use crate::faults::{CheckTypeFault, TypeFault};
use crate::files::Files;
use crate::objects::{copied, typed_objects};
use crate::places::places;
use crate::rules::{Checked, Literals, check_rules};
use crate::typed::{Typed, TypedPredicate, TypedSchema};
use grd_base::OutOfMemory;
use pddl_reader::{Domain, Predicate, Problem, Schema};
use std::alloc::Global;

/// The predicate with its places.
fn typed_predicate(
    alloc: Global,
    files: &Files<'_>,
    predicate: &Predicate,
) -> Result<TypedPredicate, OutOfMemory>
    ensures { IfOk result (IsTypedPredicate files.now.domain files.now.problem predicate.now) }
{
    let name = copied(alloc, &predicate.name)?;
    let places = places(alloc, files, &predicate.parameters)?;
    Ok(TypedPredicate { name, places })
}

/// The predicates with their places.
fn typed_predicates(
    alloc: Global,
    files: &Files<'_>,
    predicates: &[Predicate],
) -> Result<Vec<TypedPredicate>, OutOfMemory>
    ensures { IfOk result (λ typed.
        Pairwise (IsTypedPredicate files.now.domain files.now.problem) predicates.now typed.items) }
{
    let mut typed = Vec::new(alloc);
    for predicate in predicates {
        typed.push(typed_predicate(alloc, files, predicate)?)?;
    }
    Ok(typed)
}

/// The action with its places and its literals.
#[tactic(auto, unfolding(crate::specs::Tables::checked_schema))]
fn typed_schema(
    alloc: Global,
    files: &Files<'_>,
    action: &Schema,
    literals: Literals,
) -> Result<TypedSchema, OutOfMemory>
    requires { literals ≡ checked_schema files.now.domain action.now }
    ensures { IfOk result (IsTypedSchema files.now.domain files.now.problem action.now) }
{
    let name = copied(alloc, &action.name)?;
    let places = places(alloc, files, &action.parameters)?;
    let Literals { pre, effect } = literals;
    Ok(TypedSchema {
        name,
        places,
        pre,
        effect,
    })
}

/// The actions with their places and their literals.
fn typed_schemas(
    alloc: Global,
    files: &Files<'_>,
    actions: &[Schema],
    literals: Vec<Literals>,
) -> Result<Vec<TypedSchema>, OutOfMemory>
    requires { literals.items ≡ map (checked_schema files.now.domain) actions.now }
    ensures { IfOk result (λ schemas.
        Pairwise (IsTypedSchema files.now.domain files.now.problem) actions.now schemas.items) }
{
    let mut schemas = Vec::new(alloc);
    for (action, literals) in actions.iter().zip(literals) {
        schemas.push(typed_schema(alloc, files, action, literals)?)?;
    }
    Ok(schemas)
}

/// What a domain and a problem make that meet every rule.
fn typed<'a>(
    alloc: Global,
    domain: &'a Domain,
    problem: &'a Problem,
    checked: Checked<'a>,
) -> Result<Typed, OutOfMemory>
    requires well_typed { IsWellTyped domain.now problem.now }
    requires types { checked.types ≡ domain.now }
    requires actions { checked.actions.items ≡ map (checked_schema domain.now) domain.now.actions }
    requires init { checked.init.items ≡ map (ground_atom domain.now problem.now) problem.now.init }
    ensures { IfOk result (IsTyped domain.now problem.now) }
{
    let Checked {
        types,
        actions,
        init,
    } = checked;
    let files = Files {
        domain,
        problem,
        types,
    };
    let objects = typed_objects(alloc, &files)?;
    let predicates = typed_predicates(alloc, &files, &domain.predicates)?;
    let schemas = typed_schemas(alloc, &files, &domain.actions, actions)?;
    Ok(Typed {
        objects,
        predicates,
        schemas,
        init,
    })
}

/// What a domain and a problem make, where they meet every rule.
fn made(alloc: Global, domain: &Domain, problem: &Problem) -> Result<Typed, CheckTypeFault>
    requires short_domain { IsShortDomain domain.now }
    requires short_problem { IsShortProblem problem.now }
    ensures well_typed { IfOk result (λ t. IsWellTyped domain.now problem.now) }
    ensures typed { IfOk result (λ t. IsTyped domain.now problem.now t) }
    ensures fault { IfErr result (HasFault domain.now (checks_of domain.now problem.now)) }
{
    let checked = check_rules(alloc, domain, problem)?;
    Ok(typed(alloc, domain, problem, checked)?)
}

/// Checks that a domain and a problem are well typed, and gives their names numbers. The fault is
/// that of the first rule that is broken: types, constants, predicates and actions of the domain,
/// each in text order; then the problem's domain, its objects and its initial atoms.
pub fn check(alloc: Global, domain: &Domain, problem: &Problem) -> Result<Typed, CheckTypeFault>
    requires short_domain { IsShortDomain domain.now }
    requires short_problem { IsShortProblem problem.now }
    ensures well_typed { IfOk result (λ t. IsWellTyped domain.now problem.now) }
    ensures typed { IfOk result (λ t. IsTyped domain.now problem.now t) }
    ensures fault { (f : TypeFault) → result ≡ Err (CheckTypeFault.Typing f)
        → IsTypeFault domain.now problem.now f }
    ensures typed_exactly { (t : PlainTyped) → IsWellTyped domain.now problem.now
        → IsTyped domain.now problem.now t
        → (result ≡ Ok t) ⊎ (result ≡ Err CheckTypeFault.OutOfMemory) }
    ensures makes { IsWellTyped domain.now problem.now
        → IsOk result ⊎ (result ≡ Err CheckTypeFault.OutOfMemory) }
    ensures fault_exactly { (f : TypeFault) → IsTypeFault domain.now problem.now f
        → (result ≡ Err (CheckTypeFault.Typing f)) ⊎ (result ≡ Err CheckTypeFault.OutOfMemory) }
{
    made(alloc, domain, problem)
}
