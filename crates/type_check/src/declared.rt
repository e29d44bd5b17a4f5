ghost use Rattle.std.specs.Prelude.{◌≡◌, ◌≤◌, ◌^◌, ◌+◌, [], ◌∷◌, ◌++◌, Some, length, map, All, Contains, IfOk, IfErr, OnOk, IfSome, IfNone, OnSome};
ghost use Rattle.pddl_reader.specs.Values.{PlainDomain};
ghost use Rattle.type_check.specs.Types.{names_of, place_in};
ghost use Rattle.type_check.specs.Checks.{Passes, fault_at};
ghost use Rattle.type_check.specs.Rules.{is_new, are_types, typed_checks, find_name};
ghost use Rattle.type_check.specs.Tables.{HasFault};
ghost use Rattle.type_check.specs.Parts.{names_rules};

use crate::faults::{CheckTypeFault, TypeFault, TypeKind};
use crate::names::Names;
use crate::types::Types;
use grd_base::FileRole;
use pddl_reader::{Name, TypedName};
use std::alloc::{AllocError, Global};
use std::marker::Model;

/// The fault of the kind at the name's place.
pub(crate) fn fault(kind: TypeKind, file: FileRole, name: &Name) -> CheckTypeFault
    ensures { result ≡ CheckTypeFault.Typing (fault_at kind file name.now.at) }
{
    CheckTypeFault::Typing(TypeFault {
        kind,
        file,
        at: name.at,
    })
}

/// Adds a name that is declared for the first time.
pub(crate) fn add_new<'a>(
    file: FileRole,
    names: &mut Names<'a>,
    name: &'a Name,
) -> Result<(), CheckTypeFault>
    ensures added { OnOk result (names.new ≡ names.old ++ name.now.text ∷ []) }
    ensures passed { (d : PlainDomain) → OnOk result (Passes d (is_new file names.old name.now)) }
    ensures fault { (d : PlainDomain) → IfErr result
        (HasFault d (is_new file names.old name.now ∷ [])) }
{
    if !names.add(name.text.as_str())? {
        return Err(fault(TypeKind::Doubled, file, name));
    }
    Ok(())
}

/// Sees that the types are types of the domain.
fn check_types(types: &Types, file: FileRole, names: &[Name]) -> Result<(), CheckTypeFault>
    ensures passed { OnOk result (All (Passes types.now) (are_types file types.now names.now)) }
    ensures fault { IfErr result (HasFault types.now (are_types file types.now names.now)) }
{
    for name in names {
        if types.number_of(name.text.as_str()).is_none() {
            return Err(fault(TypeKind::UnknownType, file, name));
        }
    }
    Ok(())
}

/// Adds a name that is declared for the first time, with types of the domain.
fn declare<'a>(
    types: &Types,
    file: FileRole,
    names: &mut Names<'a>,
    declared: &'a TypedName,
) -> Result<(), CheckTypeFault>
    ensures added { OnOk result (names.new ≡ names.old ++ declared.now.name.text ∷ []) }
    ensures passed { OnOk result
        (All (Passes types.now) (typed_checks file types.now names.old declared.now)) }
    ensures fault { IfErr result
        (HasFault types.now (typed_checks file types.now names.old declared.now)) }
{
    add_new(file, names, &declared.name)?;
    check_types(types, file, declared.types.as_slice())
}

/// Adds names in turn that are declared for the first time, with types of the domain.
#[tactic(auto, unfolding(crate::specs::Parts::names_rules))]
fn declare_each<'a>(
    types: &Types,
    file: FileRole,
    names: &mut Names<'a>,
    list: &'a [TypedName],
) -> Result<(), CheckTypeFault>
    ensures added { OnOk result (names.new ≡ names.old ++ names_of list.now) }
    ensures passed { OnOk result
        (All (Passes types.now) (names_rules file types.now names.old list.now)) }
    ensures fault { IfErr result
        (HasFault types.now (names_rules file types.now names.old list.now)) }
{
    for declared in list {
        declare(types, file, names, declared)?;
    }
    Ok(())
}

/// Adds references to the names.
fn add_references<'a>(
    references: &mut Vec<&'a TypedName>,
    list: &'a [TypedName],
) -> Result<(), AllocError>
    ensures { OnOk result
        (map (λ n. n.now) references.new.items ≡ map (λ n. n.now) references.old.items ++ list.now) }
{
    for declared in list {
        references.push(declared)?;
    }
    Ok(())
}

/// Declared names with their types, which literals speak of: constants and objects, or parameters.
#[derive(Drop)]
pub(crate) struct Declared<'a> {
    names: Names<'a>,
    typed: Vec<&'a TypedName>,
}

impl<'a> Model for Declared<'a> {
    ghost use Rattle.std.specs.Prelude.{◌≡◌, ◌≤◌, ◌^◌, List, length, map};
    ghost use Rattle.pddl_reader.specs.Values.{PlainTypedName};
    ghost use Rattle.type_check.specs.Types.{names_of};

    ghost Value = { List PlainTypedName };

    ghost view = { λ s. map (λ n. n.now) s.typed.items };

    ghost invariant = { λ s. (s.names ≡ names_of (map (λ n. n.now) s.typed.items))
        × (length (map (λ n. n.now) s.typed.items) ≤ 2 ^ 32) };
}

impl<'a> Declared<'a> {
    /// No names.
    pub(crate) fn new(alloc: Global) -> Declared<'a>
        ensures { result ≡ [] }
    {
        Declared {
            names: Names::new(alloc),
            typed: Vec::new(alloc),
        }
    }

    /// The names with those of the list behind them, where each is declared for the first time, with
    /// types of the domain.
    pub(crate) fn followed_by(
        self,
        types: &Types,
        file: FileRole,
        list: &'a [TypedName],
    ) -> Result<Declared<'a>, CheckTypeFault>
        requires few { length self + length list.now ≤ 2 ^ 32 }
        ensures declared { IfOk result (λ s. s ≡ self.entry ++ list.now) }
        ensures passed { OnOk result
            (All (Passes types.now) (names_rules file types.now (names_of self.entry) list.now)) }
        ensures fault { IfErr result
            (HasFault types.now (names_rules file types.now (names_of self.entry) list.now)) }
    {
        let Declared {
            mut names,
            mut typed,
        } = self;
        declare_each(types, file, &mut names, list)?;
        add_references(&mut typed, list)?;
        Ok(Declared { names, typed })
    }

    /// The name's place, counted from 0, and its declaration.
    pub(crate) fn find(&self, name: &str) -> Option<(u32, &'a TypedName)>
        ensures place { IfSome result (λ f. f.0 ≡ place_in (names_of self.now) name.now) }
        ensures found { IfSome result (λ f. find_name self.now name.now ≡ Some f.1.now) }
        ensures known { OnSome result (Contains (names_of self.now) name.now) }
        ensures none { IfNone result (Contains (names_of self.now) name.now → ⊥) }
    {
        let place = self.names.place_of(name)?;
        Some((place, self.typed[place as usize]))
    }
}
