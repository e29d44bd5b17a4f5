ghost use Rattle.std.specs.Prelude.{◌≡◌, not, ◌&&◌, length, All, IfOk};
ghost use Rattle.strips_model.specs.Worlds.{has_atom, numbers_of, is_blocked, is_barred};
ghost use Rattle.type_check.specs.Values.{is_same_atom};
ghost use Rattle.ground_all.specs.Grounding.{fluent_atoms, object_of, ground_literal, positives, negatives, is_true_at_start};
ghost use Rattle.ground_all.specs.Sound.{IsTermOf, IsLiteralOf};
ghost use Rattle.ground_all.specs.Found.{start_world};

use crate::atoms::{Atoms, Standing};
use grd_base::{AtomId, OutOfMemory};
use std::alloc::Global;
use type_check::{GroundAtom, TypedLiteral, TypedTerm};

/// The object of a term, where the parameters have these.
fn object_of(term: TypedTerm, objects: &[u32]) -> u32
    requires { IsTermOf (length objects.now) term }
    ensures { result ≡ object_of objects.now term }
{
    match term {
        TypedTerm::Parameter(n) => objects[n as usize],
        TypedTerm::Object(object) => object,
    }
}

/// The atom of a literal.
fn ground_literal(
    alloc: Global,
    literal: &TypedLiteral,
    objects: &[u32],
) -> Result<GroundAtom, OutOfMemory>
    requires { IsLiteralOf (length objects.now) literal.now }
    ensures { IfOk result (λ atom. atom ≡ ground_literal objects.now literal.now) }
{
    let mut grounded = Vec::with_capacity(alloc, literal.terms.len())?;
    for term in &literal.terms {
        grounded.push(object_of(*term, objects))?;
    }
    Ok(GroundAtom {
        predicate: literal.predicate,
        objects: grounded,
    })
}

/// The atoms of the positive literals.
pub(crate) fn positive_atoms(
    alloc: Global,
    literals: &[TypedLiteral],
    objects: &[u32],
) -> Result<Vec<GroundAtom>, OutOfMemory>
    requires { All (IsLiteralOf (length objects.now)) literals.now }
    ensures { IfOk result (λ atoms. atoms.items ≡ positives objects.now literals.now) }
{
    let mut atoms = Vec::new(alloc);
    for literal in literals {
        if literal.positive {
            atoms.push(ground_literal(alloc, literal, objects)?)?;
        }
    }
    Ok(atoms)
}

/// The atoms of the negative literals.
pub(crate) fn negative_atoms(
    alloc: Global,
    literals: &[TypedLiteral],
    objects: &[u32],
) -> Result<Vec<GroundAtom>, OutOfMemory>
    requires { All (IsLiteralOf (length objects.now)) literals.now }
    ensures { IfOk result (λ atoms. atoms.items ≡ negatives objects.now literals.now) }
{
    let mut atoms = Vec::new(alloc);
    for literal in literals {
        if !literal.positive {
            atoms.push(ground_literal(alloc, literal, objects)?)?;
        }
    }
    Ok(atoms)
}

/// The numbers of the fluent ones among the atoms, rising.
pub(crate) fn numbers_of(
    alloc: Global,
    atoms: &Atoms<'_>,
    list: &[GroundAtom],
) -> Result<Vec<AtomId>, OutOfMemory>
    ensures { IfOk result (λ numbers.
        numbers.items ≡ numbers_of is_same_atom (start_world atoms.now) list.now) }
{
    let mut numbers = Vec::new(alloc);
    for atom in list {
        if let Standing::Fluent(number) = atoms.find(atom) {
            numbers.push(number)?;
        }
    }
    numbers.sort_unstable();
    numbers.dedup();
    Ok(numbers)
}

/// Whether a static one among the atoms is false at the start.
pub(crate) fn is_blocked(atoms: &Atoms<'_>, list: &[GroundAtom]) -> bool
    ensures { result ≡ is_blocked is_same_atom (start_world atoms.now) list.now }
{
    list.iter().any(|atom| is_false(atoms, atom))
}

/// Whether a static one among the atoms is true at the start.
pub(crate) fn is_barred(atoms: &Atoms<'_>, list: &[GroundAtom]) -> bool
    ensures { result ≡ is_barred is_same_atom (start_world atoms.now) list.now }
{
    list.iter().any(|atom| is_true(atoms, atom))
}

/// Whether the atom is static, and false at the start.
fn is_false(atoms: &Atoms<'_>, atom: &GroundAtom) -> bool
    ensures { result ≡ (not (has_atom is_same_atom (fluent_atoms atoms.now) atom.now)
        && not (is_true_at_start atoms.now atom.now)) }
{
    matches!(atoms.find(atom), Standing::False)
}

/// Whether the atom is static, and true at the start.
fn is_true(atoms: &Atoms<'_>, atom: &GroundAtom) -> bool
    ensures { result ≡ (not (has_atom is_same_atom (fluent_atoms atoms.now) atom.now)
        && is_true_at_start atoms.now atom.now) }
{
    matches!(atoms.find(atom), Standing::True)
}
