ghost use Rattle.std.specs.Prelude.{◌≡◌, map, All, IfOk, IfErr, OnOk};
ghost use Rattle.type_check.specs.Checks.{Passes};
ghost use Rattle.type_check.specs.Rules.{domain_checks, checks_of, IsWellTyped};
ghost use Rattle.type_check.specs.Typing.{IsShortDomain, IsShortProblem, ground_atom};
ghost use Rattle.type_check.specs.Tables.{HasFault, HaveKnownTypes, checked_schema};
ghost use Rattle.type_check.specs.Parts.{front_rules};

use crate::actions::checked_actions;
use crate::declared::Declared;
use crate::faults::CheckTypeFault;
use crate::predicates::Predicates;
use crate::problem::checked_problem;
use crate::typed::{GroundAtom, TypedLiteral};
use crate::types::Types;
use grd_base::FileRole;
use pddl_reader::{Domain, Problem};
use std::alloc::Global;
use std::marker::Model;

/// The literals of an action by their numbers.
#[derive(Drop)]
pub(crate) struct Literals {
    pub(crate) pre: Vec<TypedLiteral>,
    pub(crate) effect: Vec<TypedLiteral>,
}

impl Model for Literals {
    ghost use Rattle.type_check.specs.Tables.{PlainLiterals};

    ghost Value = { PlainLiterals };

    ghost view = { λ s. record { pre = s.pre.items; effect = s.effect.items } };
}

/// What the rules leave of a domain and a problem that meet them all.
#[derive(Drop)]
pub(crate) struct Checked<'a> {
    pub(crate) types: Types<'a>,
    /// The literals of each action.
    pub(crate) actions: Vec<Literals>,
    pub(crate) init: Vec<GroundAtom>,
}

/// What a domain declares in front of its actions, where the rules of that hold.
#[derive(Drop)]
pub(crate) struct DomainNames<'a> {
    types: Types<'a>,
    constants: Declared<'a>,
    predicates: Predicates<'a>,
}

/// What the rules leave of a domain that meets them all.
#[derive(Drop)]
pub(crate) struct CheckedDomain<'a> {
    names: DomainNames<'a>,
    /// The literals of each action.
    actions: Vec<Literals>,
}

// Checks the rules of types, constants and predicates, in this order.
fn domain_names<'a>(alloc: Global, domain: &'a Domain) -> Result<DomainNames<'a>, CheckTypeFault>
    requires { IsShortDomain domain.now }
    ensures types { IfOk result (λ c. c.types ≡ domain.now) }
    ensures constants { IfOk result (λ c. c.constants ≡ domain.now.constants) }
    ensures known { IfOk result (λ c. HaveKnownTypes domain.now c.constants) }
    ensures predicates { IfOk result (λ c. c.predicates ≡ domain.now.predicates) }
    ensures passed { OnOk result (All (Passes domain.now) (front_rules domain.now)) }
    ensures fault { IfErr result (HasFault domain.now (front_rules domain.now)) }
{
    let types = Types::of(alloc, domain)?;
    let constants = Declared::new(alloc).followed_by(&types, FileRole::Domain, &domain.constants)?;
    let predicates = Predicates::of(alloc, &types, &domain.predicates)?;
    Ok(DomainNames {
        types,
        constants,
        predicates,
    })
}

// Checks the rules of the domain, in the order in which faults are found.
fn checked_domain<'a>(
    alloc: Global,
    domain: &'a Domain,
) -> Result<CheckedDomain<'a>, CheckTypeFault>
    requires { IsShortDomain domain.now }
    ensures types { IfOk result (λ c. c.names.types ≡ domain.now) }
    ensures constants { IfOk result (λ c. c.names.constants ≡ domain.now.constants) }
    ensures known { IfOk result (λ c. HaveKnownTypes domain.now c.names.constants) }
    ensures predicates { IfOk result (λ c. c.names.predicates ≡ domain.now.predicates) }
    ensures actions { IfOk result (λ c. c.actions.items ≡ map (checked_schema domain.now) domain.now.actions) }
    ensures passed { OnOk result (All (Passes domain.now) (domain_checks domain.now)) }
    ensures fault { IfErr result (HasFault domain.now (domain_checks domain.now)) }
{
    let names = domain_names(alloc, domain)?;
    let types = &names.types;
    let actions = checked_actions(
        alloc,
        types,
        &names.predicates,
        &names.constants,
        &domain.actions,
    )?;
    Ok(CheckedDomain { names, actions })
}

/// Checks every rule, in the order in which faults are found.
pub(crate) fn check_rules<'a>(
    alloc: Global,
    domain: &'a Domain,
    problem: &'a Problem,
) -> Result<Checked<'a>, CheckTypeFault>
    requires short_domain { IsShortDomain domain.now }
    requires short_problem { IsShortProblem problem.now }
    ensures passed { IfOk result (λ c. IsWellTyped domain.now problem.now) }
    ensures types { IfOk result (λ c. c.types ≡ domain.now) }
    ensures actions { IfOk result (λ c. c.actions.items ≡ map (checked_schema domain.now) domain.now.actions) }
    ensures init { IfOk result (λ c. c.init.items ≡ map (ground_atom domain.now problem.now) problem.now.init) }
    ensures fault { IfErr result (HasFault domain.now (checks_of domain.now problem.now)) }
{
    let checked = checked_domain(alloc, domain)?;
    let CheckedDomain { names, actions } = checked;
    let DomainNames {
        types,
        constants,
        predicates,
    } = names;
    let init = checked_problem(alloc, &types, &predicates, constants, domain, problem)?;
    Ok(Checked {
        types,
        actions,
        init,
    })
}
