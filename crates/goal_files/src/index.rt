ghost use Rattle.std.specs.Prelude.{◌≡◌, ◌↔◌, ℕ, List, All, Contains, map, string_bytes, IsTrue, IfOk, MatchOption, Some, slice_get};
ghost use Rattle.grd_base.specs.Rising.{IsRisingBy};
ghost use Rattle.type_check.specs.Values.{PlainGroundAtom, PlainGroundName};
ghost use Rattle.type_check.specs.Typing.{IsTypedTask};
ghost use Rattle.goal_files.specs.Ground.{IsNamed, AreArguments, IsAtomOf, IsActionOf};
ghost use Rattle.type_check.specs.Numbered.{AreNumbered, predicate_texts, schema_texts};
ghost use Rattle.goal_files.specs.LineReading.{IsOnlyPredicate, IsOnlySchema};

use crate::names::Names;
use std::alloc::{AllocError, Global};
use std::marker::Model;
use type_check::{GroundAtom, GroundName, Typed, TypedObject, TypedPredicate, TypedSchema};

/// A typed domain and problem whose predicates, schemas and objects are looked up by name.
#[derive(Drop)]
pub(crate) struct Index<'a> {
    typed: &'a Typed,
    predicates: Names<'a>,
    schemas: Names<'a>,
    objects: Names<'a>,
}

impl<'a> Model for Index<'a> {
    ghost use Rattle.type_check.specs.Values.{PlainTyped};
    ghost use Rattle.goal_files.specs.LineReading.{IsIndexed};

    ghost Value = { PlainTyped };

    ghost view = { λ x. x.typed.now };

    ghost invariant = { λ x. IsIndexed x.typed.now x.predicates x.schemas x.objects };
}

impl<'a> Index<'a> {
    /// The typed domain and problem, with an index of its names.
    pub(crate) fn of(alloc: Global, typed: &'a Typed) -> Result<Index<'a>, AllocError>
        requires { IsTypedTask typed.now }
        ensures { IfOk result (λ x. x ≡ typed.now) }
    {
        let predicates = predicate_names(alloc, &typed.predicates)?;
        let schemas = schema_names(alloc, &typed.schemas)?;
        let objects = object_names(alloc, &typed.objects)?;
        Ok(Index {
            typed,
            predicates,
            schemas,
            objects,
        })
    }

    /// The atom of a predicate's and objects' names, where they fit.
    pub(crate) fn atom(
        &self,
        alloc: Global,
        names: &[String],
    ) -> Result<Option<GroundAtom>, AllocError>
        ensures { IfOk result (λ found. MatchOption found
            ((a : PlainGroundAtom) → IsAtomOf self.now (map string_bytes names.now) a → ⊥)
            (IsAtomOf self.now (map string_bytes names.now))) }
    {
        let Some((name, arguments)) = names.split_first() else {
            return Ok(None);
        };
        let Some((predicate, declared)) = self.predicate(name.as_str()) else {
            return Ok(None);
        };
        match self.arguments(alloc, arguments, &declared.places)? {
            Some(objects) => Ok(Some(GroundAtom { predicate, objects })),
            None => Ok(None),
        }
    }

    /// The ground action of a schema's and objects' names, where they fit.
    pub(crate) fn action(
        &self,
        alloc: Global,
        names: &[String],
    ) -> Result<Option<GroundName>, AllocError>
        ensures { IfOk result (λ found. MatchOption found
            ((n : PlainGroundName) → IsActionOf self.now (map string_bytes names.now) n → ⊥)
            (IsActionOf self.now (map string_bytes names.now))) }
    {
        let Some((name, arguments)) = names.split_first() else {
            return Ok(None);
        };
        let Some((schema, declared)) = self.schema(name.as_str()) else {
            return Ok(None);
        };
        match self.arguments(alloc, arguments, &declared.places)? {
            Some(objects) => Ok(Some(GroundName { schema, objects })),
            None => Ok(None),
        }
    }

    /// The predicate of this name, with its number.
    fn predicate(&self, name: &str) -> Option<(u32, &TypedPredicate)>
        ensures { MatchOption result
            ((n : ℕ) → slice_get (predicate_texts self.now) n ≡ Some name.now → ⊥)
            (λ x. IsOnlyPredicate self.now name.now x.0 x.1.now) }
    {
        let number = self.predicates.number_of(name)?;
        let typed = self.typed;
        Some((number, &typed.predicates[number as usize]))
    }

    /// The schema of this name, with its number.
    fn schema(&self, name: &str) -> Option<(u32, &TypedSchema)>
        ensures { MatchOption result
            ((n : ℕ) → slice_get (schema_texts self.now) n ≡ Some name.now → ⊥)
            (λ x. IsOnlySchema self.now name.now x.0 x.1.now) }
    {
        let number = self.schemas.number_of(name)?;
        let typed = self.typed;
        Some((number, &typed.schemas[number as usize]))
    }

    /// The objects of these names, where there is one for each place and fits it.
    fn arguments(
        &self,
        alloc: Global,
        names: &[String],
        places: &[Vec<u32>],
    ) -> Result<Option<Vec<u32>>, AllocError>
        requires { All (λ place. IsRisingBy (λ k. k) place.items) places.now }
        ensures { let texts = map string_bytes names.now in let lists = map (λ place. place.items) places.now in
            IfOk result (λ found. MatchOption found
            ((numbers : List ℕ) → AreArguments self.now texts lists numbers → ⊥)
            (λ numbers. AreArguments self.now texts lists numbers.items)) }
    {
        if names.len() != places.len() {
            return Ok(None);
        }
        let mut numbers = Vec::new(alloc);
        for (name, place) in names.iter().zip(places) {
            match self.argument(name.as_str(), place) {
                Some(number) => numbers.push(number)?,
                None => return Ok(None),
            }
        }
        Ok(Some(numbers))
    }

    /// The object of this name, where it fits the place.
    fn argument(&self, name: &str, place: &[u32]) -> Option<u32>
        requires { IsRisingBy (λ k. k) place.now }
        ensures { MatchOption result
            ((number : ℕ) → IsNamed self.now name.now number → Contains place.now number → ⊥)
            (λ number. IsNamed self.now name.now number × Contains place.now number) }
    {
        let number = self.objects.number_of(name)?;
        if fits(number, place) {
            Some(number)
        } else {
            None
        }
    }
}

/// Whether the object fits the place.
fn fits(number: u32, place: &[u32]) -> bool
    requires { IsRisingBy (λ k. k) place.now }
    ensures { IsTrue result ↔ Contains place.now number }
{
    place.binary_search(&number).is_ok()
}

/// The names of predicates.
fn predicate_names(alloc: Global, predicates: &[TypedPredicate]) -> Result<Names<'_>, AllocError>
    requires { AreNumbered (map (λ q. q.name.text) predicates.now) }
    ensures { IfOk result (λ names. names ≡ map (λ q. q.name.text) predicates.now) }
{
    let mut names = Names::new(alloc);
    for predicate in predicates {
        names.add(predicate.name.text.as_str())?;
    }
    Ok(names)
}

/// The names of schemas.
fn schema_names(alloc: Global, schemas: &[TypedSchema]) -> Result<Names<'_>, AllocError>
    requires { AreNumbered (map (λ s. s.name.text) schemas.now) }
    ensures { IfOk result (λ names. names ≡ map (λ s. s.name.text) schemas.now) }
{
    let mut names = Names::new(alloc);
    for schema in schemas {
        names.add(schema.name.text.as_str())?;
    }
    Ok(names)
}

/// The names of objects.
fn object_names(alloc: Global, objects: &[TypedObject]) -> Result<Names<'_>, AllocError>
    requires { AreNumbered (map (λ o. o.name.text) objects.now) }
    ensures { IfOk result (λ names. names ≡ map (λ o. o.name.text) objects.now) }
{
    let mut names = Names::new(alloc);
    for object in objects {
        names.add(object.name.text.as_str())?;
    }
    Ok(names)
}
