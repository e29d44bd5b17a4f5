ghost use Rattle.std.specs.Prelude.{◌≡◌, ◌+◌, ◌≤◌, ◌^◌, [], ◌∷◌, ◌++◌, length, map, All, IfOk, IfErr, OnOk};
ghost use Rattle.std.specs.Str.{bytes_eq};
ghost use Rattle.type_check.specs.Checks.{Passes};
ghost use Rattle.type_check.specs.Rules.{all_objects, is_for_domain, count_checks, problem_checks};
ghost use Rattle.type_check.specs.Typing.{ground_atom};
ghost use Rattle.type_check.specs.Tables.{HasFault, HaveKnownTypes};

use crate::declared::{Declared, fault};
use crate::faults::{CheckTypeFault, TypeKind};
use crate::literals::Scope;
use crate::predicates::Predicates;
use crate::typed::GroundAtom;
use crate::types::Types;
use grd_base::FileRole;
use pddl_reader::{Domain, Name, Problem};
use std::alloc::Global;

const MOST_OBJECTS: usize = 1024;

fn is_same(name: &Name, other: &Name) -> bool
    ensures { result ≡ bytes_eq name.now.text other.now.text }
{
    name.text == other.text
}

/// Sees that the problem is for the domain.
fn check_domain(domain: &Domain, problem: &Problem) -> Result<(), CheckTypeFault>
    ensures passed { OnOk result (Passes domain.now (is_for_domain domain.now problem.now)) }
    ensures fault { IfErr result
        (HasFault domain.now (is_for_domain domain.now problem.now ∷ [])) }
{
    if !is_same(&problem.domain, &domain.name) {
        return Err(fault(TypeKind::OtherDomain, FileRole::Problem, &problem.domain));
    }
    Ok(())
}

/// Sees that there are at most 1,024 constants and objects.
fn check_count(domain: &Domain, problem: &Problem) -> Result<(), CheckTypeFault>
    ensures passed { OnOk result
        (All (Passes domain.now) (count_checks domain.now problem.now)) }
    ensures fault { IfErr result (HasFault domain.now (count_checks domain.now problem.now)) }
{
    let kind = TypeKind::TooManyObjects;
    if let Some(constant) = domain.constants.get(MOST_OBJECTS) {
        return Err(fault(kind, FileRole::Domain, &constant.name));
    }
    match problem.objects.get(MOST_OBJECTS - domain.constants.len()) {
        Some(object) => Err(fault(kind, FileRole::Problem, &object.name)),
        None => Ok(()),
    }
}

/// The initial atoms by numbers, where the rules of the problem hold.
pub(crate) fn checked_problem<'a>(
    alloc: Global,
    types: &Types,
    predicates: &Predicates,
    constants: Declared<'a>,
    domain: &Domain,
    problem: &'a Problem,
) -> Result<Vec<GroundAtom>, CheckTypeFault>
    requires types { types.now ≡ domain.now }
    requires predicates { predicates.now ≡ types.now.predicates }
    requires constants { constants ≡ domain.now.constants }
    requires known { HaveKnownTypes domain.now constants }
    requires few { length domain.now.constants + length problem.now.objects ≤ 2 ^ 32 }
    ensures ground { IfOk result
        (λ atoms. atoms.items ≡ map (ground_atom domain.now problem.now) problem.now.init) }
    ensures passed { OnOk result
        (All (Passes domain.now) (problem_checks domain.now problem.now)) }
    ensures fault { IfErr result (HasFault domain.now (problem_checks domain.now problem.now)) }
{
    check_domain(domain, problem)?;
    let objects = constants.followed_by(types, FileRole::Problem, &problem.objects)?;
    check_count(domain, problem)?;
    let no_parameters = Declared::new(alloc);
    let scope = Scope {
        file: FileRole::Problem,
        types,
        predicates,
        parameters: &no_parameters,
        objects: &objects,
    };
    scope.ground_atoms(alloc, &problem.init)
}
