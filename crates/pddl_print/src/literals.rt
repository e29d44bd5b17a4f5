ghost use Rattle.std.specs.Prelude.{◌≡◌, ◌++◌, map, OnOk};
ghost use Rattle.pddl_reader.specs.Terms.{plain_term};
ghost use Rattle.pddl_print.specs.Canonical.{atom_text, condition_text, literal_text, spaced, term_text};

use crate::typed::put_name;
use pddl_reader::{Literal, Term};
use std::alloc::AllocError;

fn put_term(out: &mut Vec<u8>, term: &Term) -> Result<(), AllocError>
    ensures { OnOk result (out.new.items ≡ out.old.items ++ term_text (plain_term term.now)) }
{
    match term {
        Term::Variable(name) => put_name(out, name),
        Term::Constant(name) => put_name(out, name),
    }
}

/// Writes terms, each behind a space.
fn put_spaced_terms(out: &mut Vec<u8>, terms: &[Term]) -> Result<(), AllocError>
    ensures { OnOk result (out.new.items
        ≡ out.old.items ++ spaced (map term_text (map plain_term terms.now))) }
{
    for term in terms {
        out.extend_from_slice(b" ")?;
        put_term(out, term)?;
    }
    Ok(())
}

/// Writes the atom of a literal.
fn put_atom(out: &mut Vec<u8>, literal: &Literal) -> Result<(), AllocError>
    ensures { OnOk result (out.new.items ≡ out.old.items ++ atom_text literal.now) }
{
    out.extend_from_slice(b"(")?;
    put_name(out, &literal.predicate)?;
    put_spaced_terms(out, &literal.terms)?;
    out.extend_from_slice(b")")
}

fn put_literal(out: &mut Vec<u8>, literal: &Literal) -> Result<(), AllocError>
    ensures { OnOk result (out.new.items ≡ out.old.items ++ literal_text literal.now) }
{
    if literal.positive {
        return put_atom(out, literal);
    }
    out.extend_from_slice(b"(not ")?;
    put_atom(out, literal)?;
    out.extend_from_slice(b")")
}

/// Writes literals, each behind a space.
pub(crate) fn put_spaced_literals(out: &mut Vec<u8>, literals: &[Literal]) -> Result<(), AllocError>
    ensures { OnOk result (out.new.items ≡ out.old.items ++ spaced (map literal_text literals.now)) }
{
    for literal in literals {
        out.extend_from_slice(b" ")?;
        put_literal(out, literal)?;
    }
    Ok(())
}

/// Writes literals behind `and`.
pub(crate) fn put_condition(out: &mut Vec<u8>, literals: &[Literal]) -> Result<(), AllocError>
    ensures { OnOk result (out.new.items ≡ out.old.items ++ condition_text literals.now) }
{
    out.extend_from_slice(b"(and")?;
    put_spaced_literals(out, literals)?;
    out.extend_from_slice(b")")
}
