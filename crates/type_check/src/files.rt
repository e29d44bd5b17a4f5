use crate::types::Types;
use pddl_reader::{Domain, Problem};
use std::marker::Model;

/// A domain and a problem that are well typed, with the types of the domain.
#[derive(Drop)]
pub(crate) struct Files<'a> {
    pub(crate) domain: &'a Domain,
    pub(crate) problem: &'a Problem,
    pub(crate) types: Types<'a>,
}

impl<'a> Model for Files<'a> {
    ghost use Rattle.std.specs.Prelude.{◌≡◌};
    ghost use Rattle.type_check.specs.Rules.{IsWellTyped};
    ghost use Rattle.type_check.specs.Tables.{PlainFiles};

    ghost Value = { PlainFiles };

    ghost view = { λ f. record { domain = f.domain.now; problem = f.problem.now } };

    ghost invariant = { λ f. (f.types ≡ f.domain.now) × IsWellTyped f.domain.now f.problem.now };
}
