ghost use Rattle.std.specs.Prelude.{◌≡◌, ◌++◌, [], codes, if◌then◌else◌, OnOk};
ghost use Rattle.std.specs.List.{list_any};
ghost use Rattle.pddl_print.specs.Canonical.{has_precondition, is_negated_atom, is_of_equality, requirements, section_text};

use pddl_reader::{Literal, Schema};
use std::alloc::AllocError;

#[tactic(auto, using(crate::proofs::Required::is_sign))]
fn is_of_equality(literal: &Literal) -> bool
    ensures { result ≡ is_of_equality literal.now }
{
    literal.predicate.text.as_str() == "="
}

fn is_negated_atom(literal: &Literal) -> bool
    ensures { result ≡ is_negated_atom literal.now }
{
    !literal.positive && !is_of_equality(literal)
}

fn has_equality(literals: &[Literal]) -> bool
    ensures { result ≡ list_any is_of_equality literals.now }
{
    literals.iter().any(|literal| is_of_equality(literal))
}

fn has_negated_atom(literals: &[Literal]) -> bool
    ensures { result ≡ list_any is_negated_atom literals.now }
{
    literals.iter().any(|literal| is_negated_atom(literal))
}

fn asks_equality(actions: &[Schema]) -> bool
    ensures { result ≡ has_precondition is_of_equality actions.now }
{
    actions.iter().any(|action| has_equality(&action.pre))
}

fn asks_negated_atom(actions: &[Schema]) -> bool
    ensures { result ≡ has_precondition is_negated_atom actions.now }
{
    actions.iter().any(|action| has_negated_atom(&action.pre))
}

/// Writes bytes where they are asked for.
fn put_where(out: &mut Vec<u8>, asked: bool, bytes: &[u8]) -> Result<(), AllocError>
    ensures { OnOk result (out.new.items
        ≡ out.old.items ++ (if asked then bytes.now else [])) }
{
    if asked {
        out.extend_from_slice(bytes)?;
    }
    Ok(())
}

/// Writes the line of the requirements of a domain with these actions.
pub(crate) fn put_requirements(out: &mut Vec<u8>, actions: &[Schema]) -> Result<(), AllocError>
    ensures { OnOk result (out.new.items
        ≡ out.old.items ++ section_text (codes ":requirements") (requirements actions.now)) }
{
    out.extend_from_slice(b"(:requirements :strips :typing")?;
    put_where(out, asks_negated_atom(actions), b" :negative-preconditions")?;
    put_where(out, asks_equality(actions), b" :equality")?;
    out.extend_from_slice(b")\n")
}
