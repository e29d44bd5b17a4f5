use pddl_reader::Name;
use std::marker::Model;

/// A constant or an object.
#[derive(Debug, Drop)]
pub struct TypedObject {
    pub name: Name,
    /// The number of its type. `object` has 0; then come the other declared types in text order, and
    /// then the parents that are not declared, by their first occurrence.
    pub kind: u32,
}

impl Model for TypedObject {
    ghost use Rattle.type_check.specs.Values.{PlainTypedObject};

    ghost Value = { PlainTypedObject };

    ghost view = { λ o. record { name = o.name; kind = o.kind } };
}

/// A predicate with the objects that fit each of its parameters.
#[derive(Debug, Drop)]
pub struct TypedPredicate {
    pub name: Name,
    /// For each parameter the numbers of the objects that fit it, rising.
    pub places: Vec<Vec<u32>>,
}

impl Model for TypedPredicate {
    ghost use Rattle.std.specs.Prelude.{map};
    ghost use Rattle.type_check.specs.Values.{PlainTypedPredicate};

    ghost Value = { PlainTypedPredicate };

    ghost view = { λ q. record { name = q.name; places = map (λ place. place.items) q.places.items } };
}

/// A term of a literal, by its number.
#[derive(Clone, Copy, Debug, PartialEq, Eq)]
pub enum TypedTerm {
    /// A parameter of the action, counted from 0.
    Parameter(u32),
    /// A constant, by its place among the objects.
    Object(u32),
}

/// A literal of an action.
#[derive(Debug, Drop)]
pub struct TypedLiteral {
    pub positive: bool,
    /// The place of the predicate among the predicates. An equality has the number of predicates.
    pub predicate: u32,
    pub terms: Vec<TypedTerm>,
}

impl Model for TypedLiteral {
    ghost use Rattle.type_check.specs.Values.{PlainTypedLiteral};

    ghost Value = { PlainTypedLiteral };

    ghost view = { λ l. record { positive = l.positive; predicate = l.predicate; terms = l.terms.items } };
}

/// An action of the domain. Its literals stand in text order.
#[derive(Debug, Drop)]
pub struct TypedSchema {
    pub name: Name,
    /// For each parameter the numbers of the objects that fit it, rising.
    pub places: Vec<Vec<u32>>,
    pub pre: Vec<TypedLiteral>,
    pub effect: Vec<TypedLiteral>,
}

impl Model for TypedSchema {
    ghost use Rattle.std.specs.Prelude.{map};
    ghost use Rattle.type_check.specs.Values.{PlainTypedSchema};

    ghost Value = { PlainTypedSchema };

    ghost view = { λ s. record {
      name = s.name;
      places = map (λ place. place.items) s.places.items;
      pre = s.pre.items;
      effect = s.effect.items;
    } };
}

/// A predicate with an object for each of its parameters.
#[derive(Debug, Drop)]
pub struct GroundAtom {
    pub predicate: u32,
    pub objects: Vec<u32>,
}

impl Model for GroundAtom {
    ghost use Rattle.type_check.specs.Values.{PlainGroundAtom};

    ghost Value = { PlainGroundAtom };

    ghost view = { λ a. record { predicate = a.predicate; objects = a.objects.items } };
}

/// An action of the domain with an object for each of its parameters.
#[derive(Debug, Drop)]
pub struct GroundName {
    pub schema: u32,
    pub objects: Vec<u32>,
}

impl Model for GroundName {
    ghost use Rattle.type_check.specs.Values.{PlainGroundName};

    ghost Value = { PlainGroundName };

    ghost view = { λ n. record { schema = n.schema; objects = n.objects.items } };
}

/// A goal: a set of atoms.
#[derive(Debug, Drop)]
pub struct Goal {
    /// In the order of the line, each once.
    pub atoms: Vec<GroundAtom>,
}

impl Model for Goal {
    ghost use Rattle.std.specs.Prelude.{List};
    ghost use Rattle.type_check.specs.Values.{PlainGroundAtom};

    ghost Value = { List PlainGroundAtom };

    ghost view = { λ g. g.atoms.items };
}

/// A domain and a problem that are well typed, with numbers in the place of names.
#[derive(Debug, Drop)]
pub struct Typed {
    /// The constants, and then the objects, in text order.
    pub objects: Vec<TypedObject>,
    pub predicates: Vec<TypedPredicate>,
    pub schemas: Vec<TypedSchema>,
    /// The atoms that are true at the start, in text order. Repeats are kept.
    pub init: Vec<GroundAtom>,
}

impl Model for Typed {
    ghost use Rattle.type_check.specs.Values.{PlainTyped};

    ghost Value = { PlainTyped };

    ghost view = { λ t. record {
      objects = t.objects.items;
      predicates = t.predicates.items;
      schemas = t.schemas.items;
      init = t.init.items;
    } };
}
