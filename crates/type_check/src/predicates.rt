ghost use Rattle.std.specs.Prelude.{◌≡◌, ◌<◌, ◌≤◌, ◌^◌, List, [], ◌∷◌, ◌++◌, Some, length, map, All, Contains, IfOk, IfErr, OnOk, IfSome, IfNone, OnSome};
ghost use Rattle.pddl_reader.specs.Values.{PlainPredicate, PlainDomain};
ghost use Rattle.type_check.specs.Types.{place_in};
ghost use Rattle.type_check.specs.Checks.{Passes, fault_at};
ghost use Rattle.type_check.specs.Rules.{few_parameters, predicate_names, find_predicate, equality};
ghost use Rattle.type_check.specs.Tables.{HasFault};
ghost use Rattle.type_check.specs.Parts.{predicate_rules, predicates_rules};

use crate::declared::{Declared, add_new, fault};
use crate::equality::{EQUALITY, equality_of_objects};
use crate::faults::{CheckTypeFault, TypeKind};
use crate::names::Names;
use crate::types::Types;
use grd_base::FileRole;
use pddl_reader::{Name, Predicate, TypedName};
use std::alloc::Global;
use std::marker::Model;

const MOST_PARAMETERS: usize = 8;

/// Sees that what has the name has at most 8 parameters.
pub(crate) fn check_few(parameters: &[TypedName], name: &Name) -> Result<(), CheckTypeFault>
    ensures few { OnOk result (length parameters.now ≤ 8) }
    ensures fault { (d : PlainDomain) → IfErr result
        (HasFault d (few_parameters parameters.now name.now ∷ [])) }
{
    if parameters.len() > MOST_PARAMETERS {
        return Err(fault(TypeKind::TooManyParameters, FileRole::Domain, name));
    }
    Ok(())
}

/// Adds the name of a predicate whose rules hold.
fn add_predicate<'a>(
    alloc: Global,
    types: &Types,
    names: &mut Names<'a>,
    predicate: &'a Predicate,
) -> Result<(), CheckTypeFault>
    ensures added { OnOk result (names.new ≡ names.old ++ predicate.now.name.text ∷ []) }
    ensures passed { (before : List PlainPredicate) → names.old ≡ predicate_names before
        → OnOk result (All (Passes types.now) (predicate_rules types.now before predicate.now)) }
    ensures fault { (before : List PlainPredicate) → names.old ≡ predicate_names before
        → IfErr result (HasFault types.now (predicate_rules types.now before predicate.now)) }
{
    add_new(FileRole::Domain, names, &predicate.name)?;
    check_few(&predicate.parameters, &predicate.name)?;
    Declared::new(alloc).followed_by(types, FileRole::Domain, &predicate.parameters)?;
    Ok(())
}

/// The predicates of a domain, by their names, and the equality behind them.
#[derive(Drop)]
pub(crate) struct Predicates<'a> {
    names: Names<'a>,
    predicates: &'a [Predicate],
    equals: Predicate,
}

impl<'a> Model for Predicates<'a> {
    ghost use Rattle.std.specs.Prelude.{◌≡◌, ◌<◌, ◌^◌, List, length};
    ghost use Rattle.pddl_reader.specs.Values.{PlainPredicate};
    ghost use Rattle.type_check.specs.Rules.{predicate_names, equality};

    ghost Value = { List PlainPredicate };

    ghost view = { λ s. s.predicates.now };

    ghost invariant = { λ s. (s.names ≡ predicate_names s.predicates.now)
        × (length s.predicates.now < 2 ^ 32)
        × (s.equals ≡ equality) };
}

impl<'a> Predicates<'a> {
    /// The predicates, where their rules hold.
    #[tactic(auto, unfolding(crate::specs::Parts::predicates_rules))]
    pub(crate) fn of(
        alloc: Global,
        types: &Types,
        predicates: &'a [Predicate],
    ) -> Result<Predicates<'a>, CheckTypeFault>
        requires few { length predicates.now < 2 ^ 32 }
        ensures predicates { IfOk result (λ s. s ≡ predicates.now) }
        ensures passed { OnOk result
            (All (Passes types.now) (predicates_rules types.now predicates.now)) }
        ensures fault { IfErr result
            (HasFault types.now (predicates_rules types.now predicates.now)) }
    {
        let mut names = Names::new(alloc);
        for predicate in predicates {
            add_predicate(alloc, types, &mut names, predicate)?;
        }
        Ok(Predicates {
            names,
            predicates,
            equals: equality_of_objects(alloc)?,
        })
    }

    // The place of the declared predicate with the name, counted from 0, and the predicate.
    fn declared(&self, name: &str) -> Option<(u32, &'a Predicate)>
        ensures place { IfSome result (λ f. f.0 ≡ place_in (predicate_names self.now) name.now) }
        ensures found { IfSome result (λ f. find_predicate self.now name.now ≡ Some f.1.now) }
        ensures known { OnSome result (Contains (predicate_names self.now) name.now) }
        ensures none { IfNone result (Contains (predicate_names self.now) name.now → ⊥) }
    {
        let place = self.names.place_of(name)?;
        Some((place, &self.predicates[place as usize]))
    }

    /// The place of the predicate with the name, counted from 0, and the predicate: a declared one, or
    /// the equality, which stands behind them.
    pub(crate) fn find(&self, name: &str) -> Option<(u32, &Predicate)>
        ensures place { IfSome result (λ f. f.0 ≡ place_in (predicate_names self.now) name.now) }
        ensures found { IfSome result
            (λ f. find_predicate (self.now ++ equality ∷ []) name.now ≡ Some f.1.now) }
        ensures known { OnSome result
            (Contains (predicate_names (self.now ++ equality ∷ [])) name.now) }
        ensures none { IfNone result
            (Contains (predicate_names (self.now ++ equality ∷ [])) name.now → ⊥) }
    {
        if let Some((place, predicate)) = self.declared(name) {
            return Some((place, predicate));
        }
        if name != EQUALITY {
            return None;
        }
        Some((self.predicates.len() as u32, &self.equals))
    }
}
