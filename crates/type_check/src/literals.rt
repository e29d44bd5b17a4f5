ghost use Rattle.std.specs.Prelude.{◌≡◌, [], ◌∷◌, Some, length, map, All, Contains, IfOk, IfErr, OnOk};
ghost use Rattle.pddl_reader.specs.Terms.{plain_term};
ghost use Rattle.type_check.specs.Types.{names_of, place_in};
ghost use Rattle.type_check.specs.Checks.{Passes};
ghost use Rattle.type_check.specs.Rules.{predicate_names, find_predicate, known_predicates};
ghost use Rattle.type_check.specs.Tables.{HasFault, HaveKnownTypes};
ghost use Rattle.type_check.specs.Scopes.{named_checks, term_in, terms_in, literal_in, typed_in, typed_literal_in, object_in, atom_in};
ghost use Rattle.type_check.specs.Parts.{literals_rules};

use crate::declared::{Declared, fault};
use crate::faults::{CheckTypeFault, TypeKind};
use crate::predicates::Predicates;
use crate::typed::{GroundAtom, TypedLiteral, TypedTerm};
use crate::types::Types;
use grd_base::FileRole;
use pddl_reader::{Literal, Name, Predicate, Term, TypedName};
use std::alloc::Global;
use std::marker::Model;

/// What stands round a literal: the names that it can use.
#[derive(Drop)]
pub(crate) struct Scope<'s, 'a> {
    pub(crate) file: FileRole,
    pub(crate) types: &'s Types<'a>,
    pub(crate) predicates: &'s Predicates<'a>,
    pub(crate) parameters: &'s Declared<'a>,
    /// The constants, and in a problem the objects behind them.
    pub(crate) objects: &'s Declared<'a>,
}

impl<'s, 'a> Model for Scope<'s, 'a> {
    ghost use Rattle.std.specs.Prelude.{◌≡◌};
    ghost use Rattle.type_check.specs.Tables.{HaveKnownTypes};
    ghost use Rattle.type_check.specs.Scopes.{PlainScope};

    ghost Value = { PlainScope };

    ghost view = { λ s. record {
      file = s.file;
      domain = s.types.now;
      parameters = s.parameters.now;
      objects = s.objects.now;
    } };

    ghost invariant = { λ s. (s.predicates.now ≡ s.types.now.predicates)
        × HaveKnownTypes s.types.now s.parameters.now
        × HaveKnownTypes s.types.now s.objects.now };
}

impl<'s, 'a> Scope<'s, 'a> {
    /// The place of the name among those that are declared, where its types fit.
    #[tactic(auto, unfolding(crate::specs::Scopes::named_checks))]
    fn number_of(
        &self,
        alloc: Global,
        declared: &Declared,
        missing: TypeKind,
        name: &Name,
        place: &TypedName,
    ) -> Result<u32, CheckTypeFault>
        requires { HaveKnownTypes self.now.domain declared.now }
        ensures number { IfOk result (λ k. k ≡ place_in (names_of declared.now) name.now.text) }
        ensures passed { OnOk result (All (Passes self.now.domain)
            (named_checks missing self.now.file declared.now name.now place.now)) }
        ensures fault { IfErr result (HasFault self.now.domain
            (named_checks missing self.now.file declared.now name.now place.now)) }
    {
        let Some((number, found)) = declared.find(name.text.as_str()) else {
            return Err(fault(missing, self.file, name));
        };
        if !self
            .types
            .fit(alloc, found.types.as_slice(), place.types.as_slice())?
        {
            return Err(fault(TypeKind::WrongType, self.file, name));
        }
        Ok(number)
    }

    /// The term by its number.
    #[tactic(auto, unfolding(crate::specs::Scopes::named_checks, crate::specs::Scopes::term_in, crate::specs::Scopes::typed_in))]
    fn typed_term(
        &self,
        alloc: Global,
        term: &Term,
        place: &TypedName,
    ) -> Result<TypedTerm, CheckTypeFault>
        ensures typed { IfOk result (λ t. t ≡ typed_in self.now (plain_term term.now)) }
        ensures passed { OnOk result
            (All (Passes self.now.domain) (term_in self.now (plain_term term.now) place.now)) }
        ensures fault { IfErr result
            (HasFault self.now.domain (term_in self.now (plain_term term.now) place.now)) }
    {
        match term {
            Term::Variable(name) => {
                let missing = TypeKind::UnboundVariable;
                let number = self.number_of(alloc, self.parameters, missing, name, place)?;
                Ok(TypedTerm::Parameter(number))
            }
            Term::Constant(name) => {
                let missing = TypeKind::UnknownName;
                let number = self.number_of(alloc, self.objects, missing, name, place)?;
                Ok(TypedTerm::Object(number))
            }
        }
    }

    #[tactic(auto, unfolding(crate::specs::Scopes::terms_in))]
    fn typed_terms(
        &self,
        alloc: Global,
        terms: &[Term],
        places: &[TypedName],
    ) -> Result<Vec<TypedTerm>, CheckTypeFault>
        requires { length terms.now ≡ length places.now }
        ensures typed { IfOk result
            (λ ts. ts.items ≡ map (typed_in self.now) (map plain_term terms.now)) }
        ensures passed { OnOk result
            (All (Passes self.now.domain) (terms_in self.now (map plain_term terms.now) places.now)) }
        ensures fault { IfErr result
            (HasFault self.now.domain (terms_in self.now (map plain_term terms.now) places.now)) }
    {
        let mut typed = Vec::with_capacity(alloc, terms.len())?;
        for (term, place) in terms.iter().zip(places) {
            typed.push(self.typed_term(alloc, term, place)?)?;
        }
        Ok(typed)
    }

    /// The predicate of the literal, which has as many parameters as the literal has terms, and its
    /// place, counted from 0. That of an equality stands behind the declared ones.
    fn predicate_of(&self, literal: &Literal) -> Result<(u32, &Predicate), CheckTypeFault>
        ensures known { OnOk result (Contains (predicate_names (known_predicates self.now.domain))
            literal.now.predicate.text) }
        ensures place { IfOk result (λ f.
            f.0 ≡ place_in (predicate_names self.now.domain.predicates) literal.now.predicate.text) }
        ensures found { IfOk result (λ f. find_predicate (known_predicates self.now.domain)
            literal.now.predicate.text ≡ Some f.1.now) }
        ensures count { IfOk result (λ f. length literal.now.terms ≡ length f.1.now.parameters) }
        ensures fault { IfErr result (HasFault self.now.domain (literal_in self.now literal.now)) }
    {
        let name = &literal.predicate;
        let Some((place, predicate)) = self.predicates.find(name.text.as_str()) else {
            return Err(fault(TypeKind::UnknownPredicate, self.file, name));
        };
        if literal.terms.len() != predicate.parameters.len() {
            return Err(fault(TypeKind::WrongCount, self.file, name));
        }
        Ok((place, predicate))
    }

    /// The literal by numbers.
    #[tactic(auto, unfolding(crate::specs::Scopes::typed_literal_in, crate::specs::Scopes::typed_in))]
    fn typed_literal(
        &self,
        alloc: Global,
        literal: &Literal,
    ) -> Result<TypedLiteral, CheckTypeFault>
        ensures typed { IfOk result (λ l. l ≡ typed_literal_in self.now literal.now) }
        ensures passed { OnOk result
            (All (Passes self.now.domain) (literal_in self.now literal.now)) }
        ensures fault { IfErr result (HasFault self.now.domain (literal_in self.now literal.now)) }
    {
        let (place, predicate) = self.predicate_of(literal)?;
        Ok(TypedLiteral {
            positive: literal.positive,
            predicate: place,
            terms: self.typed_terms(alloc, &literal.terms, &predicate.parameters)?,
        })
    }

    /// The literals by numbers, in their order.
    #[tactic(auto, unfolding(crate::specs::Parts::literals_rules))]
    pub(crate) fn typed_literals(
        &self,
        alloc: Global,
        literals: &[Literal],
    ) -> Result<Vec<TypedLiteral>, CheckTypeFault>
        ensures typed { IfOk result (λ ls. ls.items ≡ map (typed_literal_in self.now) literals.now) }
        ensures passed { OnOk result
            (All (Passes self.now.domain) (literals_rules self.now literals.now)) }
        ensures fault { IfErr result
            (HasFault self.now.domain (literals_rules self.now literals.now)) }
    {
        let mut typed = Vec::with_capacity(alloc, literals.len())?;
        for literal in literals {
            typed.push(self.typed_literal(alloc, literal)?)?;
        }
        Ok(typed)
    }

    /// The object that the term names, where there are no parameters.
    #[tactic(auto, unfolding(crate::specs::Scopes::object_in, crate::specs::Scopes::typed_in))]
    fn object_of(
        &self,
        alloc: Global,
        term: &Term,
        place: &TypedName,
    ) -> Result<u32, CheckTypeFault>
        requires { self.now.parameters ≡ [] }
        ensures object { IfOk result (λ k. k ≡ object_in self.now (plain_term term.now)) }
        ensures passed { OnOk result
            (All (Passes self.now.domain) (term_in self.now (plain_term term.now) place.now)) }
        ensures fault { IfErr result
            (HasFault self.now.domain (term_in self.now (plain_term term.now) place.now)) }
    {
        match self.typed_term(alloc, term, place)? {
            TypedTerm::Parameter(number) | TypedTerm::Object(number) => Ok(number),
        }
    }

    /// The objects that the terms name, where there are no parameters.
    #[tactic(auto, unfolding(crate::specs::Scopes::terms_in))]
    fn objects_of(
        &self,
        alloc: Global,
        terms: &[Term],
        places: &[TypedName],
    ) -> Result<Vec<u32>, CheckTypeFault>
        requires ground { self.now.parameters ≡ [] }
        requires count { length terms.now ≡ length places.now }
        ensures objects { IfOk result
            (λ os. os.items ≡ map (object_in self.now) (map plain_term terms.now)) }
        ensures passed { OnOk result
            (All (Passes self.now.domain) (terms_in self.now (map plain_term terms.now) places.now)) }
        ensures fault { IfErr result
            (HasFault self.now.domain (terms_in self.now (map plain_term terms.now) places.now)) }
    {
        let mut objects = Vec::with_capacity(alloc, terms.len())?;
        for (term, place) in terms.iter().zip(places) {
            objects.push(self.object_of(alloc, term, place)?)?;
        }
        Ok(objects)
    }

    /// The atom by numbers.
    #[tactic(auto, unfolding(crate::specs::Scopes::atom_in, crate::specs::Scopes::object_in))]
    fn ground_atom(&self, alloc: Global, atom: &Literal) -> Result<GroundAtom, CheckTypeFault>
        requires { self.now.parameters ≡ [] }
        ensures ground { IfOk result (λ a. a ≡ atom_in self.now atom.now) }
        ensures passed { OnOk result (All (Passes self.now.domain) (literal_in self.now atom.now)) }
        ensures fault { IfErr result (HasFault self.now.domain (literal_in self.now atom.now)) }
    {
        let (place, predicate) = self.predicate_of(atom)?;
        Ok(GroundAtom {
            predicate: place,
            objects: self.objects_of(alloc, &atom.terms, &predicate.parameters)?,
        })
    }

    /// The atoms by numbers, in their order.
    #[tactic(auto, unfolding(crate::specs::Parts::literals_rules))]
    pub(crate) fn ground_atoms(
        &self,
        alloc: Global,
        atoms: &[Literal],
    ) -> Result<Vec<GroundAtom>, CheckTypeFault>
        requires { self.now.parameters ≡ [] }
        ensures ground { IfOk result (λ ats. ats.items ≡ map (atom_in self.now) atoms.now) }
        ensures passed { OnOk result
            (All (Passes self.now.domain) (literals_rules self.now atoms.now)) }
        ensures fault { IfErr result
            (HasFault self.now.domain (literals_rules self.now atoms.now)) }
    {
        let mut ground = Vec::with_capacity(alloc, atoms.len())?;
        for atom in atoms {
            ground.push(self.ground_atom(alloc, atom)?)?;
        }
        Ok(ground)
    }
}
