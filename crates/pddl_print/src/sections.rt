ghost use Rattle.std.specs.Prelude.{◌≡◌, ◌++◌, codes, map, OnOk};
ghost use Rattle.std.specs.List.{flat_map};
ghost use Rattle.pddl_print.specs.Canonical.{action_text, condition_text, domain_text, name_text, predicate_text, problem_text, section_text, spaced, typed_text};
ghost use Rattle.pddl_print.specs.Fronts.{action_front, action_rest, domain_front, problem_front, problem_rest};

use crate::literals::{put_condition, put_spaced_literals};
use crate::requirements::put_requirements;
use crate::typed::{put_name, put_separated_typed, put_spaced_typed};
use pddl_reader::{Domain, Literal, Name, Predicate, Problem, Schema, TypedName};
use std::alloc::AllocError;

/// Writes the line of a section of names with their types, where there is one.
fn put_typed_section(
    out: &mut Vec<u8>,
    keyword: &str,
    names: &[TypedName],
) -> Result<(), AllocError>
    ensures { OnOk result (out.new.items
        ≡ out.old.items ++ section_text keyword.now (map typed_text names.now)) }
{
    if names.is_empty() {
        return Ok(());
    }
    out.extend_from_slice(b"(")?;
    out.extend_from_slice(keyword.as_bytes())?;
    put_spaced_typed(out, names)?;
    out.extend_from_slice(b")\n")
}

fn put_predicate(out: &mut Vec<u8>, predicate: &Predicate) -> Result<(), AllocError>
    ensures { OnOk result (out.new.items ≡ out.old.items ++ predicate_text predicate.now) }
{
    out.extend_from_slice(b"(")?;
    put_name(out, &predicate.name)?;
    put_spaced_typed(out, &predicate.parameters)?;
    out.extend_from_slice(b")")
}

/// Writes predicates, each behind a space.
fn put_spaced_predicates(out: &mut Vec<u8>, predicates: &[Predicate]) -> Result<(), AllocError>
    ensures { OnOk result (out.new.items
        ≡ out.old.items ++ spaced (map predicate_text predicates.now)) }
{
    for predicate in predicates {
        out.extend_from_slice(b" ")?;
        put_predicate(out, predicate)?;
    }
    Ok(())
}

/// Writes the line of the predicates, where there is one.
fn put_predicates(out: &mut Vec<u8>, predicates: &[Predicate]) -> Result<(), AllocError>
    ensures { OnOk result (out.new.items
        ≡ out.old.items ++ section_text (codes ":predicates") (map predicate_text predicates.now)) }
{
    if predicates.is_empty() {
        return Ok(());
    }
    out.extend_from_slice(b"(:predicates")?;
    put_spaced_predicates(out, predicates)?;
    out.extend_from_slice(b")\n")
}

/// Writes bytes, a name and bytes behind it.
fn put_between(
    out: &mut Vec<u8>,
    front: &[u8],
    name: &Name,
    behind: &[u8],
) -> Result<(), AllocError>
    ensures { OnOk result (out.new.items
        ≡ out.old.items ++ (front.now ++ name_text name.now ++ behind.now)) }
{
    out.extend_from_slice(front)?;
    put_name(out, name)?;
    out.extend_from_slice(behind)
}

/// Writes bytes and a condition.
fn put_part(out: &mut Vec<u8>, front: &[u8], literals: &[Literal]) -> Result<(), AllocError>
    ensures { OnOk result (out.new.items
        ≡ out.old.items ++ (front.now ++ condition_text literals.now)) }
{
    out.extend_from_slice(front)?;
    put_condition(out, literals)
}

/// Writes the lines of an action up to its parameters.
fn put_action_front(out: &mut Vec<u8>, action: &Schema) -> Result<(), AllocError>
    ensures { OnOk result (out.new.items ≡ out.old.items ++ action_front action.now) }
{
    put_between(out, b"(:action ", &action.name, b"\n:parameters (")?;
    put_separated_typed(out, &action.parameters)
}

/// Writes the lines of an action behind its parameters.
fn put_action_rest(out: &mut Vec<u8>, action: &Schema) -> Result<(), AllocError>
    ensures { OnOk result (out.new.items ≡ out.old.items ++ action_rest action.now) }
{
    put_part(out, b")\n:precondition ", &action.pre)?;
    put_part(out, b"\n:effect ", &action.effect)?;
    out.extend_from_slice(b")\n")
}

/// Writes the lines of an action.
fn put_action(out: &mut Vec<u8>, action: &Schema) -> Result<(), AllocError>
    ensures { OnOk result (out.new.items ≡ out.old.items ++ action_text action.now) }
{
    put_action_front(out, action)?;
    put_action_rest(out, action)
}

fn put_actions(out: &mut Vec<u8>, actions: &[Schema]) -> Result<(), AllocError>
    ensures { OnOk result (out.new.items ≡ out.old.items ++ flat_map action_text actions.now) }
{
    for action in actions {
        put_action(out, action)?;
    }
    Ok(())
}

/// Writes a domain up to its constants.
fn put_domain_front(out: &mut Vec<u8>, domain: &Domain) -> Result<(), AllocError>
    ensures { OnOk result (out.new.items ≡ out.old.items ++ domain_front domain.now) }
{
    put_between(out, b"(define (domain ", &domain.name, b")\n")?;
    put_requirements(out, &domain.actions)?;
    put_typed_section(out, ":types", &domain.types)?;
    put_typed_section(out, ":constants", &domain.constants)
}

/// Writes a domain.
pub(crate) fn put_domain(out: &mut Vec<u8>, domain: &Domain) -> Result<(), AllocError>
    ensures { OnOk result (out.new.items ≡ out.old.items ++ domain_text domain.now) }
{
    put_domain_front(out, domain)?;
    put_predicates(out, &domain.predicates)?;
    put_actions(out, &domain.actions)?;
    out.extend_from_slice(b")\n")
}

/// Writes a problem up to its objects.
fn put_problem_front(out: &mut Vec<u8>, problem: &Problem) -> Result<(), AllocError>
    ensures { OnOk result (out.new.items ≡ out.old.items ++ problem_front problem.now) }
{
    put_between(out, b"(define (problem ", &problem.name, b")\n(:domain ")?;
    put_between(out, b"", &problem.domain, b")\n")?;
    put_typed_section(out, ":objects", &problem.objects)
}

/// Writes a problem behind its objects.
fn put_problem_rest(out: &mut Vec<u8>, problem: &Problem) -> Result<(), AllocError>
    ensures { OnOk result (out.new.items ≡ out.old.items ++ problem_rest problem.now) }
{
    out.extend_from_slice(b"(:init")?;
    put_spaced_literals(out, &problem.init)?;
    out.extend_from_slice(b")\n(:goal (and)))\n")
}

/// Writes a problem.
pub(crate) fn put_problem(out: &mut Vec<u8>, problem: &Problem) -> Result<(), AllocError>
    ensures { OnOk result (out.new.items ≡ out.old.items ++ problem_text problem.now) }
{
    put_problem_front(out, problem)?;
    put_problem_rest(out, problem)
}
