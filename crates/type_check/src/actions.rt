ghost use Rattle.std.specs.Prelude.{◌≡◌, ◌+◌, ◌≤◌, ◌^◌, List, [], ◌∷◌, ◌++◌, length, map, All, IfOk, IfErr, OnOk};
ghost use Rattle.pddl_reader.specs.Values.{PlainSchema, PlainDomain};
ghost use Rattle.type_check.specs.Checks.{Passes};
ghost use Rattle.type_check.specs.Rules.{literals_of, few_literals, schema_names};
ghost use Rattle.type_check.specs.Tables.{HasFault, HaveKnownTypes, checked_schema};
ghost use Rattle.type_check.specs.Scopes.{typed_literal_in};
ghost use Rattle.type_check.specs.Parts.{action_rules, actions_rules, literals_rules};

use crate::declared::{Declared, add_new, fault};
use crate::faults::{CheckTypeFault, TypeKind};
use crate::literals::Scope;
use crate::names::Names;
use crate::predicates::{Predicates, check_few};
use crate::rules::Literals;
use crate::types::Types;
use grd_base::FileRole;
use pddl_reader::Schema;
use std::alloc::Global;

const MOST_LITERALS: usize = 64;

/// Sees that the action has at most 64 literals.
fn check_few_literals(action: &Schema) -> Result<(), CheckTypeFault>
    ensures few { OnOk result (length (literals_of action.now) ≤ 64) }
    ensures fault { (d : PlainDomain) → IfErr result (HasFault d (few_literals action.now ∷ [])) }
{
    if action.pre.len() + action.effect.len() > MOST_LITERALS {
        return Err(fault(TypeKind::TooManyLiterals, FileRole::Domain, &action.name));
    }
    Ok(())
}

/// The literals of an action by their numbers, where their rules hold.
fn checked_literals(
    alloc: Global,
    scope: &Scope,
    action: &Schema,
) -> Result<Literals, CheckTypeFault>
    ensures pre { IfOk result (λ ls. ls.pre ≡ map (typed_literal_in scope.now) action.now.pre) }
    ensures effect { IfOk result
        (λ ls. ls.effect ≡ map (typed_literal_in scope.now) action.now.effect) }
    ensures passed { OnOk result
        (All (Passes scope.now.domain) (literals_rules scope.now (literals_of action.now))) }
    ensures fault { IfErr result
        (HasFault scope.now.domain (literals_rules scope.now (literals_of action.now))) }
{
    Ok(Literals {
        pre: scope.typed_literals(alloc, &action.pre)?,
        effect: scope.typed_literals(alloc, &action.effect)?,
    })
}

/// The literals of an action by their numbers, where its rules hold. Its name goes to the names.
fn checked_action<'a>(
    alloc: Global,
    types: &Types,
    predicates: &Predicates,
    constants: &Declared,
    names: &mut Names<'a>,
    action: &'a Schema,
) -> Result<Literals, CheckTypeFault>
    requires predicates { predicates.now ≡ types.now.predicates }
    requires constants { constants.now ≡ types.now.constants }
    requires known { HaveKnownTypes types.now constants.now }
    ensures added { OnOk result (names.new ≡ names.old ++ action.now.name.text ∷ []) }
    ensures checked { IfOk result (λ ls. ls ≡ checked_schema types.now action.now) }
    ensures passed { (before : List PlainSchema) → names.old ≡ schema_names before
        → OnOk result (All (Passes types.now) (action_rules types.now before action.now)) }
    ensures fault { (before : List PlainSchema) → names.old ≡ schema_names before
        → IfErr result (HasFault types.now (action_rules types.now before action.now)) }
{
    add_new(FileRole::Domain, names, &action.name)?;
    check_few(&action.parameters, &action.name)?;
    let parameters = Declared::new(alloc).followed_by(types, FileRole::Domain, &action.parameters)?;
    check_few_literals(action)?;
    let scope = Scope {
        file: FileRole::Domain,
        types,
        predicates,
        parameters: &parameters,
        objects: constants,
    };
    checked_literals(alloc, &scope, action)
}

/// The literals of each action by their numbers, where the rules of actions hold.
#[tactic(auto, unfolding(crate::specs::Parts::actions_rules))]
pub(crate) fn checked_actions(
    alloc: Global,
    types: &Types,
    predicates: &Predicates,
    constants: &Declared,
    actions: &[Schema],
) -> Result<Vec<Literals>, CheckTypeFault>
    requires predicates { predicates.now ≡ types.now.predicates }
    requires constants { constants.now ≡ types.now.constants }
    requires known { HaveKnownTypes types.now constants.now }
    ensures checked { IfOk result
        (λ checked. checked.items ≡ map (checked_schema types.now) actions.now) }
    ensures passed { OnOk result
        (All (Passes types.now) (actions_rules types.now actions.now)) }
    ensures fault { IfErr result
        (HasFault types.now (actions_rules types.now actions.now)) }
{
    let mut names = Names::new(alloc);
    let mut checked = Vec::with_capacity(alloc, actions.len())?;
    for action in actions {
        let literals = checked_action(alloc, types, predicates, constants, &mut names, action)?;
        checked.push(literals)?;
    }
    Ok(checked)
}
