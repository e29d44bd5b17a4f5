ghost use Rattle.std.specs.Prelude.{◌≡◌, ◌↔◌, ◌∷◌, ◌++◌, [], ℕ, List, length, IsTrue, All, Any, Contains, IfOk, IfErr, OnOk, IfSome, IfNone};
ghost use Rattle.grd_base.specs.declared.roles.FileRole.TheVariants.{Domain as OfDomain};
ghost use Rattle.pddl_reader.specs.Values.{PlainTypedName};
ghost use Rattle.type_check.specs.Types.{texts, names_of, type_of, type_names, place_in, FitsTypes, LiesUnder, Returns};
ghost use Rattle.type_check.specs.Checks.{Meets, Acyclic, Passes, fault_at};
ghost use Rattle.type_check.specs.Rules.{type_checks};
ghost use Rattle.type_check.specs.Typing.{IsShortDomain};
ghost use Rattle.type_check.specs.Tables.{HasFault};
ghost use Rattle.type_check.specs.Chains.{type_parents, AreReturning, MeetsMark, AreMarks};
ghost use Rattle.type_check.specs.Parts.{types_rules};

use crate::chains::{leads_to, mark_up, meets, returning};
use crate::entries::{is_entry, numbered, parents_of, type_text};
use crate::faults::{CheckTypeFault, TypeFault, TypeKind};
use crate::names::Names;
use grd_base::{FileRole, OutOfMemory};
use pddl_reader::{Domain, Name, TypedName};
use std::alloc::Global;
use std::marker::Model;

/// The types of a domain by their numbers, each with its parent's.
#[derive(Drop)]
pub(crate) struct Types<'a> {
    domain: &'a Domain,
    names: Names<'a>,
    /// For each type its parent's number.
    parents: Vec<Option<u32>>,
}

impl<'a> Model for Types<'a> {
    ghost use Rattle.pddl_reader.specs.Values.{PlainDomain};
    ghost use Rattle.type_check.specs.Chains.{AreTypes};

    ghost Value = { PlainDomain };

    ghost view = { λ t. t.domain.now };

    ghost invariant = { λ t. AreTypes t.domain.now t.names t.parents.items };
}

// The fault of a declared type.
fn fault_of(kind: TypeKind, n: &TypedName) -> CheckTypeFault
    ensures { result ≡ CheckTypeFault.Typing (fault_at kind OfDomain n.now.name.at) }
{
    CheckTypeFault::Typing(TypeFault {
        kind,
        file: FileRole::Domain,
        at: n.name.at,
    })
}

impl<'a> Types<'a> {
    /// The types, where each is declared once and none lies below itself.
    pub(crate) fn of(alloc: Global, domain: &'a Domain) -> Result<Types<'a>, CheckTypeFault>
        requires { IsShortDomain domain.now }
        ensures types { IfOk result (λ t. t ≡ domain.now) }
        ensures passed { IfOk result (λ t. All (Passes domain.now) (types_rules domain.now)) }
        ensures fault { IfErr result (HasFault domain.now (types_rules domain.now)) }
    {
        let names = numbered(alloc, domain)?;
        let parents = parents_of(alloc, &names, domain)?;
        let types = Types {
            domain,
            names,
            parents,
        };
        types.check_entries(alloc)?;
        Ok(types)
    }

    /// The number of the type, which is that of its name among the types.
    pub(crate) fn number_of(&self, name: &str) -> Option<u32>
        ensures found { IfSome result (λ number. Contains (type_names self.now) name.now) }
        ensures number { IfSome result (λ number. number ≡ place_in (type_names self.now) name.now) }
        ensures none { IfNone result (Contains (type_names self.now) name.now → ⊥) }
    {
        self.names.place_of(name)
    }

    /// Whether each of the types is, or lies below, one of the others. It walks through no part of a
    /// chain of parents twice.
    pub(crate) fn fit(
        &self,
        alloc: Global,
        types: &[Name],
        others: &[Name],
    ) -> Result<bool, OutOfMemory>
        requires known { All (Contains (type_names self.now)) (texts types.now) }
        ensures { IfOk result (λ fit. IsTrue fit ↔ FitsTypes self.now (texts types.now) (texts others.now)) }
    {
        let mut marks = self.marks(alloc, others)?;
        if marks[0] {
            return Ok(true);
        }
        for name in types {
            if !self.meets_mark(&mut marks, name.text.as_str()) {
                return Ok(false);
            }
        }
        Ok(true)
    }

    // Marks the types that have these names.
    fn marks(&self, alloc: Global, names: &[Name]) -> Result<Vec<bool>, OutOfMemory>
        ensures { IfOk result (λ marks. AreMarks self.now names.now marks.items) }
    {
        let mut marks = vec![in alloc; false; self.parents.len()]?;
        for name in names {
            let Some(number) = self.number_of(name.text.as_str()) else {
                continue;
            };
            marks[number as usize] = true;
        }
        Ok(marks)
    }

    // Whether the chain of parents from the type meets one that is marked. It is then marked up to there.
    fn meets_mark(&self, marks: &mut [bool], name: &str) -> bool
        requires known { Contains (type_names self.now) name.now }
        requires each { length marks.old ≡ length (type_parents self.now) }
        ensures met { IsTrue result
            ↔ MeetsMark (type_parents self.now) marks.old (place_in (type_names self.now) name.now) }
        ensures each { length marks.new ≡ length (type_parents self.now) }
        ensures same { (j : ℕ)
            → MeetsMark (type_parents self.now) marks.new j ↔ MeetsMark (type_parents self.now) marks.old j }
    {
        let Some(number) = self.number_of(name) else {
            return false;
        };
        let parents = self.parents.as_slice();
        if !meets(parents, marks, number) {
            return false;
        }
        mark_up(parents, marks, number);
        true
    }

    /// Whether the object's type is, or lies below, one of the types.
    pub(crate) fn object_fits(&self, object: &TypedName, types: &[Name]) -> bool
        requires known { Contains (type_names self.now) (type_of object.now) }
        ensures { IsTrue result ↔ Any (LiesUnder self.now (type_of object.now)) (texts types.now) }
    {
        self.fits_one(type_text(object), types)
    }

    // Whether the type is, or lies below, one of the others.
    fn fits_one(&self, name: &str, others: &[Name]) -> bool
        requires known { Contains (type_names self.now) name.now }
        ensures { IsTrue result ↔ Any (LiesUnder self.now name.now) (texts others.now) }
    {
        for other in others {
            if self.is_under(name, other.text.as_str()) {
                return true;
            }
        }
        false
    }

    // Whether the type is, or lies below, the other.
    #[tactic(auto, unfolding(crate::specs::Types::object_type))]
    fn is_under(&self, name: &str, other: &str) -> bool
        requires known { Contains (type_names self.now) name.now }
        ensures { IsTrue result ↔ LiesUnder self.now name.now other.now }
    {
        if other == "object" {
            return true;
        }
        match (self.number_of(name), self.number_of(other)) {
            (Some(from), Some(to)) => leads_to(self.parents.as_slice(), from, to),
            _ => false,
        }
    }

    // Whether the chain of parents from the type returns to it.
    fn returns(&self, returning: &[bool], name: &str) -> bool
        requires { AreReturning (type_parents self.now) returning.now }
        ensures { IsTrue result ↔ Returns self.now name.now }
    {
        match self.number_of(name) {
            Some(number) => returning[number as usize],
            None => false,
        }
    }

    // Whether a declared type is not `object`, and its chain of parents doesn't return to it.
    #[tactic(auto, unfolding(crate::specs::Types::object_type))]
    fn is_acyclic(&self, returning: &[bool], name: &str) -> bool
        requires { AreReturning (type_parents self.now) returning.now }
        ensures { IsTrue result ↔ Meets self.now (Acyclic name.now) }
    {
        name != "object" && !self.returns(returning, name)
    }

    // Checks a declared type behind those that are seen.
    fn check_entry<'n>(
        &self,
        returning: &[bool],
        seen: &mut Names<'n>,
        n: &'n TypedName,
    ) -> Result<(), CheckTypeFault>
        requires { AreReturning (type_parents self.now) returning.now }
        ensures added { OnOk result (seen.new ≡ seen.old ++ n.now.name.text ∷ []) }
        ensures passed { OnOk result ((before : List PlainTypedName) → seen.old ≡ names_of before
            → All (Passes self.now) (type_checks before n.now)) }
        ensures fault { IfErr result (λ fault. (before : List PlainTypedName) → seen.old ≡ names_of before
            → HasFault self.now (type_checks before n.now) fault) }
    {
        if !seen.add(n.name.text.as_str())? {
            return Err(fault_of(TypeKind::Doubled, n));
        }
        if !self.is_acyclic(returning, n.name.text.as_str()) {
            return Err(fault_of(TypeKind::TypeCycle, n));
        }
        Ok(())
    }

    // Checks the declared types in text order.
    #[tactic(auto, unfolding(crate::specs::Parts::types_rules))]
    fn check_entries(&self, alloc: Global) -> Result<(), CheckTypeFault>
        ensures passed { OnOk result (All (Passes self.now) (types_rules self.now)) }
        ensures fault { IfErr result (HasFault self.now (types_rules self.now)) }
    {
        let returning = returning(alloc, self.parents.as_slice())?;
        let domain = self.domain;
        let mut seen = Names::new(alloc);
        for n in &domain.types {
            if is_entry(n) {
                self.check_entry(&returning, &mut seen, n)?;
            }
        }
        Ok(())
    }
}
