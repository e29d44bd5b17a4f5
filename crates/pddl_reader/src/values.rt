use std::alloc::{AllocError, Global};
use std::marker::Model;
use std::rc::Rc;

/// A name, folded to lower case.
#[derive(Debug, Drop)]
pub struct Name {
    pub text: String,
    /// The place in the file of the first byte of its word, counted from 0.
    pub at: u32,
}

impl Model for Name {
    ghost use Rattle.std.specs.Prelude.{string_bytes};
    ghost use Rattle.pddl_reader.specs.Forms.{Word};

    ghost Value = { Word };

    ghost view = { λ n. record { text = string_bytes n.text; at = n.at } };
}

/// The types of a name. The names of a typed list before one dash share them, so that a value takes no
/// more memory than a multiple of its text.
#[derive(Drop)]
pub struct Types {
    names: Rc<Vec<Name>>,
}

impl Model for Types {
    ghost use Rattle.std.specs.Prelude.{List};
    ghost use Rattle.pddl_reader.specs.Forms.{Word};

    ghost Value = { List Word };

    ghost view = { λ t. t.names.value.items };
}

impl Types {
    ghost use Rattle.std.specs.Prelude.{◌≡◌, IfOk};

    /// The types of these names.
    pub fn new(alloc: Global, names: Vec<Name>) -> Result<Types, AllocError>
        ensures { IfOk result (λ types. types ≡ names.items) }
    {
        Ok(Types {
            names: Rc::new(alloc, names)?,
        })
    }

    /// The types, in text order.
    pub fn as_slice(&self) -> &[Name]
        ensures { result.now ≡ self.now }
    {
        self.names.as_slice()
    }

    /// One more owner of the types.
    pub(crate) fn share(&self) -> Result<Types, AllocError>
        ensures { IfOk result (λ types. types ≡ self.now) }
    {
        Ok(Types {
            names: self.names.clone()?,
        })
    }
}

/// A name, or a variable with its question mark, and its types. More than one type stands for
/// `either`. Where no type is written, the type is `object`, at the place of the name.
#[derive(Drop)]
pub struct TypedName {
    pub name: Name,
    pub types: Types,
}

impl Model for TypedName {
    ghost use Rattle.pddl_reader.specs.Values.{PlainTypedName};

    ghost Value = { PlainTypedName };

    ghost view = { λ n. record { name = n.name; types = n.types } };
}

/// A term of a literal.
#[derive(Drop)]
pub enum Term {
    /// The name begins with its question mark.
    Variable(Name),
    Constant(Name),
}

/// An atom or an equality, or the negation of one. The predicate of an equality is the sign `=`.
#[derive(Drop)]
pub struct Literal {
    pub positive: bool,
    pub predicate: Name,
    pub terms: Vec<Term>,
}

impl Model for Literal {
    ghost use Rattle.std.specs.Prelude.{map};
    ghost use Rattle.pddl_reader.specs.Values.{PlainLiteral};
    ghost use Rattle.pddl_reader.specs.Terms.{plain_term};

    ghost Value = { PlainLiteral };

    ghost view = { λ l. record { positive = l.positive; predicate = l.predicate; terms = map plain_term l.terms.items } };
}

/// An action of a domain. Its literals stand in text order.
#[derive(Drop)]
pub struct Schema {
    pub name: Name,
    pub parameters: Vec<TypedName>,
    pub pre: Vec<Literal>,
    pub effect: Vec<Literal>,
}

impl Model for Schema {
    ghost use Rattle.pddl_reader.specs.Values.{PlainSchema};

    ghost Value = { PlainSchema };

    ghost view = { λ s. record { name = s.name; parameters = s.parameters.items; pre = s.pre.items; effect = s.effect.items } };
}

/// A predicate of a domain.
#[derive(Drop)]
pub struct Predicate {
    pub name: Name,
    pub parameters: Vec<TypedName>,
}

impl Model for Predicate {
    ghost use Rattle.pddl_reader.specs.Values.{PlainPredicate};

    ghost Value = { PlainPredicate };

    ghost view = { λ p. record { name = p.name; parameters = p.parameters.items } };
}

/// A domain. Its lists stand in text order.
#[derive(Drop)]
pub struct Domain {
    pub name: Name,
    pub types: Vec<TypedName>,
    pub constants: Vec<TypedName>,
    pub predicates: Vec<Predicate>,
    pub actions: Vec<Schema>,
}

impl Model for Domain {
    ghost use Rattle.pddl_reader.specs.Values.{PlainDomain};

    ghost Value = { PlainDomain };

    ghost view = { λ d. record { name = d.name; types = d.types.items; constants = d.constants.items; predicates = d.predicates.items; actions = d.actions.items } };
}

/// A problem. Its lists stand in text order.
#[derive(Drop)]
pub struct Problem {
    pub name: Name,
    /// The name of the domain that the problem is for.
    pub domain: Name,
    pub objects: Vec<TypedName>,
    /// The atoms that are true at the start.
    pub init: Vec<Literal>,
}

impl Model for Problem {
    ghost use Rattle.pddl_reader.specs.Values.{PlainProblem};

    ghost Value = { PlainProblem };

    ghost view = { λ p. record { name = p.name; domain = p.domain; objects = p.objects.items; init = p.init.items } };
}
