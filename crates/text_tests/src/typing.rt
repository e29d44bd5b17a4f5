use crate::parts::{put_name, put_number, put_numbers};
use crate::samples::{PLAIN_PROBLEM, VEHICLES, VEHICLES_PROBLEM};
use crate::typed::{checked, domain_of, problem_of};
use grd_base::FileRole;
use std::alloc::Global;
use std::fmt::Write;
use std::test::Fail;
use type_check::{
    CheckTypeFault, TypeFault, Typed, TypedLiteral, TypedObject, TypedPredicate, TypedSchema,
    TypedTerm,
};

// What is made is written as text: an object with its name's place and its type's number, a
// predicate and an action with its places in square brackets, a parameter with a question mark.
fn put_objects(out: &mut String, objects: &[TypedObject]) -> Result<(), Fail> {
    out.push_str("objects")?;
    for object in objects {
        put_name(out, " ", &object.name)?;
        put_number(out, ":", object.kind)?;
    }
    out.push_str("\n")?;
    Ok(())
}

fn put_places(out: &mut String, places: &[Vec<u32>]) -> Result<(), Fail> {
    for place in places {
        put_numbers(out, " [", place, " ]")?;
    }
    out.push_str("\n")?;
    Ok(())
}

fn put_predicate(out: &mut String, predicate: &TypedPredicate) -> Result<(), Fail> {
    put_name(out, "predicate ", &predicate.name)?;
    put_places(out, &predicate.places)
}

fn put_literal(out: &mut String, literal: &TypedLiteral) -> Result<(), Fail> {
    if !literal.positive {
        out.push_str(" not")?;
    }
    put_number(out, " ", literal.predicate)?;
    for term in &literal.terms {
        match term {
            TypedTerm::Parameter(number) => put_number(out, " ?", *number)?,
            TypedTerm::Object(number) => put_number(out, " ", *number)?,
        }
    }
    out.push_str(";")?;
    Ok(())
}

fn put_literals(out: &mut String, title: &str, literals: &[TypedLiteral]) -> Result<(), Fail> {
    out.push_str(title)?;
    for literal in literals {
        put_literal(out, literal)?;
    }
    out.push_str("\n")?;
    Ok(())
}

fn put_schema(out: &mut String, schema: &TypedSchema) -> Result<(), Fail> {
    put_name(out, "action ", &schema.name)?;
    put_places(out, &schema.places)?;
    put_literals(out, "precondition", &schema.pre)?;
    put_literals(out, "effect", &schema.effect)
}

fn put_typed(out: &mut String, typed: &Typed) -> Result<(), Fail> {
    put_objects(out, &typed.objects)?;
    for predicate in &typed.predicates {
        put_predicate(out, predicate)?;
    }
    for schema in &typed.schemas {
        put_schema(out, schema)?;
    }
    out.push_str("init")?;
    for atom in &typed.init {
        put_number(out, " ", atom.predicate)?;
        put_numbers(out, "", &atom.objects, ";")?;
    }
    Ok(())
}

fn check_texts(
    alloc: Global,
    domain: &str,
    problem: &str,
) -> Result<Result<Typed, CheckTypeFault>, Fail> {
    let domain = domain_of(alloc, domain)?;
    let problem = problem_of(alloc, problem)?;
    Ok(checked(alloc, &domain, &problem))
}

fn put_checked(out: &mut String, made: &Result<Typed, CheckTypeFault>) -> Result<(), Fail> {
    match made {
        Ok(typed) => put_typed(out, typed),
        Err(_) => Ok(out.push_str("a fault")?),
    }
}

/// What a domain and a problem make.
pub fn typed_of(alloc: Global, domain: &str, problem: &str) -> Result<String, Fail> {
    let made = check_texts(alloc, domain, problem)?;
    let mut out = String::new(alloc);
    put_checked(&mut out, &made)?;
    Ok(out)
}

fn put_fault(out: &mut String, fault: &TypeFault) -> Result<(), Fail> {
    let file = match fault.file {
        FileRole::Domain => "domain ",
        FileRole::Problem => "problem ",
        _ => "another file ",
    };
    out.push_str(file)?;
    write!(out, "{fault}")?;
    Ok(())
}

/// The fault of a domain and a problem, where there is one.
fn type_fault(alloc: Global, domain: &str, problem: &str) -> Result<Option<TypeFault>, Fail> {
    match check_texts(alloc, domain, problem)? {
        Ok(_) => Ok(None),
        Err(CheckTypeFault::Typing(fault)) => Ok(Some(fault)),
        Err(CheckTypeFault::OutOfMemory) => Err("out of memory".into()),
    }
}

/// The fault of a domain and a problem, with its file.
pub fn fault_of(alloc: Global, domain: &str, problem: &str) -> Result<String, Fail> {
    let fault = type_fault(alloc, domain, problem)?;
    let mut out = String::new(alloc);
    match fault {
        Some(fault) => put_fault(&mut out, &fault)?,
        None => out.push_str("typed")?,
    }
    Ok(out)
}

/// Domains and problems, and what they make.
const TYPED: &[(&str, &str, &str)] = &[
    (
        VEHICLES,
        VEHICLES_PROBLEM,
        "objects home@113:6 t1@125:1 c1@42:2 r@51:7 m@61:4 o@73:0\n\
predicate at@151 [ 1 2 4 ] [ 0 1 2 4 ]\n\
predicate any@194 [ 0 1 2 3 4 5 ]\n\
predicate quiet@203\n\
action go@220 [ 1 2 ] [ 0 ]\n\
precondition 0 ?0 0; 1 ?0;\n\
effect 0 ?0 ?1; not 0 ?0 0; 2;\n\
action rest@377\n\
precondition\n\
effect\n\
init 1 3; 0 1 0; 2; 0 4 2; 1 3;",
    ),
    (
        "(define (domain d) (:types object a - object object b) (:constants c - b e - a))",
        PLAIN_PROBLEM,
        "objects c@67:2 e@73:1\ninit",
    ),
];

#[test]
fn names_are_numbered(rt: HostRuntime) -> Result<(), Fail> {
    for (domain, problem, want) in TYPED {
        assert_eq!(rt; typed_of(rt.alloc(), domain, problem)?.as_str(), *want);
    }
    Ok(())
}

/// Domains and problems with a fault in what they declare.
const DECLARATION_FAULTS: &[(&str, &str, &str)] = &[
    (
        "(define (domain d) (:types a a))",
        PLAIN_PROBLEM,
        "domain byte 29: doubled",
    ),
    (
        "(define (domain d) (:types a - b b - object a - a))",
        PLAIN_PROBLEM,
        "domain byte 44: doubled",
    ),
    (
        "(define (domain d) (:constants c c))",
        PLAIN_PROBLEM,
        "domain byte 33: doubled",
    ),
    (
        "(define (domain d) (:predicates (p) (p ?x)))",
        PLAIN_PROBLEM,
        "domain byte 37: doubled",
    ),
    (
        "(define (domain d) (:predicates (p ?x ?y ?x)))",
        PLAIN_PROBLEM,
        "domain byte 41: doubled",
    ),
    (
        "(define (domain d) (:action a) (:action a))",
        PLAIN_PROBLEM,
        "domain byte 40: doubled",
    ),
    (
        "(define (domain d) (:action a :parameters (?x ?x)))",
        PLAIN_PROBLEM,
        "domain byte 46: doubled",
    ),
    (
        "(define (domain d))",
        "(define (problem p) (:domain d) (:objects o o) (:init))",
        "problem byte 44: doubled",
    ),
    (
        "(define (domain d) (:constants c))",
        "(define (problem p) (:domain d) (:objects o c) (:init))",
        "problem byte 44: doubled",
    ),
    (
        "(define (domain d) (:types a - a))",
        PLAIN_PROBLEM,
        "domain byte 27: type cycle",
    ),
    (
        "(define (domain d) (:types a - b b - a))",
        PLAIN_PROBLEM,
        "domain byte 27: type cycle",
    ),
    (
        "(define (domain d) (:types x - c a - b b - c c - a))",
        PLAIN_PROBLEM,
        "domain byte 33: type cycle",
    ),
    (
        "(define (domain d) (:types a - b object - a))",
        PLAIN_PROBLEM,
        "domain byte 27: type cycle",
    ),
    (
        "(define (domain d) (:types a - z object - z))",
        PLAIN_PROBLEM,
        "domain byte 33: type cycle",
    ),
    (
        "(define (domain d) (:types a - object object - a))",
        PLAIN_PROBLEM,
        "domain byte 27: type cycle",
    ),
    (
        "(define (domain d) (:constants c - t))",
        PLAIN_PROBLEM,
        "domain byte 35: unknown type",
    ),
    (
        "(define (domain d) (:types a - b) (:constants c - b d - t))",
        PLAIN_PROBLEM,
        "domain byte 56: unknown type",
    ),
    (
        "(define (domain d) (:predicates (p ?x - t)))",
        PLAIN_PROBLEM,
        "domain byte 40: unknown type",
    ),
    (
        "(define (domain d) (:types a) (:predicates (p ?x - (either a t u))))",
        PLAIN_PROBLEM,
        "domain byte 61: unknown type",
    ),
    (
        "(define (domain d) (:action a :parameters (?x - t)))",
        PLAIN_PROBLEM,
        "domain byte 48: unknown type",
    ),
    (
        "(define (domain d) (:types a) (:action a :parameters (?x - (either a object t))))",
        PLAIN_PROBLEM,
        "domain byte 76: unknown type",
    ),
    (
        "(define (domain d))",
        "(define (problem p) (:domain d) (:objects o - t) (:init))",
        "problem byte 46: unknown type",
    ),
    (
        "(define (domain d) (:predicates (p ?a ?b ?c ?d ?e ?f ?g ?h ?i)))",
        PLAIN_PROBLEM,
        "domain byte 33: too many parameters",
    ),
    (
        "(define (domain d) (:action a :parameters (?a ?b ?c ?d ?e ?f ?g ?h ?i)))",
        PLAIN_PROBLEM,
        "domain byte 28: too many parameters",
    ),
];

#[test]
fn faulty_declaration_is_named_with_its_place(rt: HostRuntime) -> Result<(), Fail> {
    for (domain, problem, want) in DECLARATION_FAULTS {
        let found = fault_of(rt.alloc(), domain, problem)?;
        assert_eq!(rt; found.as_str(), *want, "{domain}");
    }
    Ok(())
}

/// Domains and problems with a fault in a literal or in the name of the domain.
const LITERAL_FAULTS: &[(&str, &str, &str)] = &[
    (
        "(define (domain d) (:action a :precondition (p)))",
        PLAIN_PROBLEM,
        "domain byte 45: unknown predicate",
    ),
    (
        "(define (domain d) (:action a :effect (not (p))))",
        PLAIN_PROBLEM,
        "domain byte 44: unknown predicate",
    ),
    (
        "(define (domain d))",
        "(define (problem p) (:domain d) (:init (p)))",
        "problem byte 40: unknown predicate",
    ),
    (
        "(define (domain d) (:predicates (p ?x)) (:action a :precondition (p)))",
        PLAIN_PROBLEM,
        "domain byte 66: wrong count",
    ),
    (
        "(define (domain d) (:predicates (p)) (:action a :effect (and (p) (p ?x))))",
        PLAIN_PROBLEM,
        "domain byte 66: wrong count",
    ),
    (
        "(define (domain d) (:predicates (p ?x)))",
        "(define (problem p) (:domain d) (:init (p)))",
        "problem byte 40: wrong count",
    ),
    (
        "(define (domain d) (:predicates (p ?x)))",
        "(define (problem p) (:domain d) (:objects o) (:init (p o) (p o o)))",
        "problem byte 59: wrong count",
    ),
    (
        "(define (domain d) (:predicates (p ?x)) (:action a :precondition (p ?x)))",
        PLAIN_PROBLEM,
        "domain byte 68: unbound variable",
    ),
    (
        "(define (domain d) (:predicates (p ?x ?y)) (:action a :parameters (?x) :effect (p ?x ?y)))",
        PLAIN_PROBLEM,
        "domain byte 85: unbound variable",
    ),
    (
        "(define (domain d) (:predicates (p ?x)) (:action a :precondition (p o)))",
        "(define (problem p) (:domain d) (:objects o) (:init))",
        "domain byte 68: unknown name",
    ),
    (
        "(define (domain d) (:constants c) (:predicates (p ?x ?y)) (:action a :effect (p c o)))",
        "(define (problem p) (:domain d) (:objects o) (:init))",
        "domain byte 82: unknown name",
    ),
    (
        "(define (domain d) (:predicates (p ?x)))",
        "(define (problem p) (:domain d) (:init (p o)))",
        "problem byte 42: unknown name",
    ),
    (
        "(define (domain d) (:types a b) (:predicates (p ?x - a)) (:action m :parameters (?x - b) :precondition (p ?x)))",
        PLAIN_PROBLEM,
        "domain byte 106: wrong type",
    ),
    (
        "(define (domain d) (:types a b) (:predicates (p ?x - a)) (:action m :parameters (?x - b) :effect (p ?x)))",
        PLAIN_PROBLEM,
        "domain byte 100: wrong type",
    ),
    (
        "(define (domain d) (:types a - object b - a) (:predicates (p ?x - b)) (:action m :parameters (?x - a) :effect (p ?x)))",
        PLAIN_PROBLEM,
        "domain byte 113: wrong type",
    ),
    (
        "(define (domain d) (:types a b) (:predicates (p ?x - a)) (:action m :parameters (?x - (either a b)) :effect (p ?x)))",
        PLAIN_PROBLEM,
        "domain byte 111: wrong type",
    ),
    (
        "(define (domain d) (:types a b c) (:predicates (p ?x - (either a b))) (:action m :parameters (?x - (either b c)) :effect (p ?x)))",
        PLAIN_PROBLEM,
        "domain byte 124: wrong type",
    ),
    (
        "(define (domain d) (:types a b) (:constants c - b) (:predicates (p ?x - a)) (:action m :precondition (p c)))",
        PLAIN_PROBLEM,
        "domain byte 104: wrong type",
    ),
    (
        "(define (domain d) (:types a) (:constants c) (:predicates (p ?x - a)) (:action m :effect (p c)))",
        PLAIN_PROBLEM,
        "domain byte 92: wrong type",
    ),
    (
        "(define (domain d) (:types a b) (:constants c - b) (:predicates (p ?x - a)))",
        "(define (problem p) (:domain d) (:init (p c)))",
        "problem byte 42: wrong type",
    ),
    (
        "(define (domain d) (:types a b) (:predicates (p ?x - a)))",
        "(define (problem p) (:domain d) (:objects o - b) (:init (p o)))",
        "problem byte 59: wrong type",
    ),
    (
        "(define (domain d) (:types a b c) (:predicates (p ?x - (either a b))))",
        "(define (problem p) (:domain d) (:objects o - b n - c) (:init (p o) (p n)))",
        "problem byte 71: wrong type",
    ),
    (
        "(define (domain d))",
        "(define (problem p) (:domain e) (:init))",
        "problem byte 29: other domain",
    ),
];

#[test]
fn faulty_literal_is_named_with_its_place(rt: HostRuntime) -> Result<(), Fail> {
    for (domain, problem, want) in LITERAL_FAULTS {
        let found = fault_of(rt.alloc(), domain, problem)?;
        assert_eq!(rt; found.as_str(), *want, "{domain}");
    }
    Ok(())
}

/// Domains and problems with two faults in what they declare, and the first.
const EARLIER_FAULTS: &[(&str, &str, &str)] = &[
    (
        "(define (domain d) (:constants c - t) (:types a - a))",
        PLAIN_PROBLEM,
        "domain byte 46: type cycle",
    ),
    (
        "(define (domain d) (:types a - a b b))",
        PLAIN_PROBLEM,
        "domain byte 27: type cycle",
    ),
    (
        "(define (domain d) (:types b b a - a))",
        PLAIN_PROBLEM,
        "domain byte 29: doubled",
    ),
    (
        "(define (domain d) (:predicates (p) (p)) (:constants c - t))",
        PLAIN_PROBLEM,
        "domain byte 57: unknown type",
    ),
    (
        "(define (domain d) (:constants a - object a - t))",
        PLAIN_PROBLEM,
        "domain byte 42: doubled",
    ),
    (
        "(define (domain d) (:constants a - t a - object))",
        PLAIN_PROBLEM,
        "domain byte 35: unknown type",
    ),
    (
        "(define (domain d) (:action a :precondition (q)) (:predicates (p) (p)))",
        PLAIN_PROBLEM,
        "domain byte 67: doubled",
    ),
    (
        "(define (domain d) (:predicates (p) (p ?a ?b ?c ?d ?e ?f ?g ?h ?i)))",
        PLAIN_PROBLEM,
        "domain byte 37: doubled",
    ),
    (
        "(define (domain d) (:predicates (p ?a ?a ?c ?d ?e ?f ?g ?h ?i)))",
        PLAIN_PROBLEM,
        "domain byte 33: too many parameters",
    ),
    (
        "(define (domain d) (:predicates (p ?x - t ?x)))",
        PLAIN_PROBLEM,
        "domain byte 40: unknown type",
    ),
    (
        "(define (domain d) (:predicates (p ?x - object ?x - t)))",
        PLAIN_PROBLEM,
        "domain byte 47: doubled",
    ),
    (
        "(define (domain d) (:predicates (p ?x - t) (p)))",
        PLAIN_PROBLEM,
        "domain byte 40: unknown type",
    ),
];

#[test]
fn first_faulty_declaration_is_named(rt: HostRuntime) -> Result<(), Fail> {
    for (domain, problem, want) in EARLIER_FAULTS {
        let found = fault_of(rt.alloc(), domain, problem)?;
        assert_eq!(rt; found.as_str(), *want, "{domain}");
    }
    Ok(())
}

/// Domains and problems with two faults, of which one is in a literal or in the problem, and the first.
const FIRST_FAULTS: &[(&str, &str, &str)] = &[
    (
        "(define (domain d) (:action a :precondition (p)) (:action a))",
        PLAIN_PROBLEM,
        "domain byte 45: unknown predicate",
    ),
    (
        "(define (domain d) (:action a) (:action a :parameters (?a ?b ?c ?d ?e ?f ?g ?h ?i)))",
        PLAIN_PROBLEM,
        "domain byte 40: doubled",
    ),
    (
        "(define (domain d) (:action a :parameters (?a ?a ?c ?d ?e ?f ?g ?h ?i)))",
        PLAIN_PROBLEM,
        "domain byte 28: too many parameters",
    ),
    (
        "(define (domain d) (:action a :parameters (?x - t ?x)))",
        PLAIN_PROBLEM,
        "domain byte 48: unknown type",
    ),
    (
        "(define (domain d) (:action a :parameters (?x - object ?x - t) :precondition (p)))",
        PLAIN_PROBLEM,
        "domain byte 55: doubled",
    ),
    (
        "(define (domain d) (:action a :precondition (p) :parameters (?x - t)))",
        PLAIN_PROBLEM,
        "domain byte 66: unknown type",
    ),
    (
        "(define (domain d) (:action a :effect (q) :precondition (p)))",
        PLAIN_PROBLEM,
        "domain byte 57: unknown predicate",
    ),
    (
        "(define (domain d) (:predicates (p ?x)) (:action a :precondition (q ?x) :effect (p)))",
        PLAIN_PROBLEM,
        "domain byte 66: unknown predicate",
    ),
    (
        "(define (domain d) (:predicates (p ?x)) (:action a :precondition (p ?x ?y)))",
        PLAIN_PROBLEM,
        "domain byte 66: wrong count",
    ),
    (
        "(define (domain d) (:predicates (p ?x)) (:action a :precondition (p c d)))",
        PLAIN_PROBLEM,
        "domain byte 66: wrong count",
    ),
    (
        "(define (domain d) (:predicates (p ?x ?y)) (:action a :precondition (p ?x c)))",
        PLAIN_PROBLEM,
        "domain byte 71: unbound variable",
    ),
    (
        "(define (domain d) (:types a) (:predicates (p ?x - a ?y)) (:action m :parameters (?x) :precondition (p ?x ?y)))",
        PLAIN_PROBLEM,
        "domain byte 103: wrong type",
    ),
    (
        "(define (domain d) (:types a) (:predicates (p ?x ?y - a)) (:action m :parameters (?x) :precondition (p c ?x)))",
        PLAIN_PROBLEM,
        "domain byte 103: unknown name",
    ),
    (
        "(define (domain d))",
        "(define (problem p) (:objects o o) (:domain e) (:init))",
        "problem byte 44: other domain",
    ),
    (
        "(define (domain d))",
        "(define (problem p) (:domain d) (:objects o - object o - t) (:init))",
        "problem byte 53: doubled",
    ),
    (
        "(define (domain d))",
        "(define (problem p) (:domain d) (:objects o - t) (:init (p)))",
        "problem byte 46: unknown type",
    ),
    (
        "(define (domain d))",
        "(define (problem p) (:domain d) (:init (p o)))",
        "problem byte 40: unknown predicate",
    ),
    (
        "(define (domain d) (:predicates (p ?x)))",
        "(define (problem p) (:domain d) (:init (p a b)))",
        "problem byte 40: wrong count",
    ),
    (
        "(define (domain d) (:types a) (:predicates (p ?x - a ?y)))",
        "(define (problem p) (:domain d) (:objects o) (:init (p o c)))",
        "problem byte 55: wrong type",
    ),
    (
        "(define (domain d) (:predicates (p ?x)))",
        "(define (problem p) (:domain d) (:init (p o) (q)))",
        "problem byte 42: unknown name",
    ),
    (
        "(define (domain d) (:action a :precondition (p)))",
        "(define (problem p) (:domain e) (:init))",
        "domain byte 45: unknown predicate",
    ),
    (
        "(define (domain d) (:types a a))",
        "(define (problem p) (:domain d) (:objects o o) (:init))",
        "domain byte 29: doubled",
    ),
    (
        "(define (domain d) (:action a :parameters (?x - t)))",
        "(define (problem p) (:domain d) (:init (p)))",
        "domain byte 48: unknown type",
    ),
];

#[test]
fn first_broken_rule_is_named(rt: HostRuntime) -> Result<(), Fail> {
    for (domain, problem, want) in FIRST_FAULTS {
        let found = fault_of(rt.alloc(), domain, problem)?;
        assert_eq!(rt; found.as_str(), *want, "{domain}");
    }
    Ok(())
}

/// The fault of a domain with an action `a` whose precondition has a literal so many times, and whose effect
/// has so many literals.
fn literals_fault(alloc: Global, literal: &str, pre: u16, effect: u16) -> Result<String, Fail> {
    let mut domain = String::from_str(alloc, "(define (domain d) (:action a :precondition (and")?;
    for _ in 0..pre {
        domain.push_str(literal)?;
    }
    domain.push_str(") :effect (and")?;
    for _ in 0..effect {
        domain.push_str(" (p)")?;
    }
    domain.push_str(")) (:predicates (p)) (:constants c))")?;
    fault_of(alloc, domain.as_str(), PLAIN_PROBLEM)
}

const LITERALS: &[(&str, u16, u16, &str)] = &[
    (" (p)", 64, 0, "typed"),
    (" (p)", 20, 44, "typed"),
    (" (p)", 65, 0, "domain byte 28: too many literals"),
    (" (p)", 1, 64, "domain byte 28: too many literals"),
    (" (not (p))", 20, 44, "typed"),
    (" (not (p))", 1, 64, "domain byte 28: too many literals"),
    (" (= c c)", 20, 44, "typed"),
    (" (= c)", 1, 64, "domain byte 28: too many literals"),
];

#[test]
fn action_has_at_most_64_literals(rt: HostRuntime) -> Result<(), Fail> {
    for (literal, pre, effect, want) in LITERALS {
        let found = literals_fault(rt.alloc(), literal, *pre, *effect)?;
        assert_eq!(rt; found.as_str(), *want, "{pre}{literal}");
    }
    Ok(())
}

/// So many names of six bytes each, a space and a number from 1000 on behind a letter.
fn put_names(out: &mut String, front: &str, count: u16) -> Result<(), Fail> {
    for k in 0..count {
        put_number(out, front, 1000 + k as u32)?;
    }
    Ok(())
}

/// The fault of a domain with so many constants and a problem with so many objects. Where they are not
/// too many, the initial atom is at fault.
fn objects_fault(alloc: Global, constants: u16, objects: u16) -> Result<String, Fail> {
    let mut domain = String::from_str(alloc, "(define (domain d) (:constants")?;
    put_names(&mut domain, " c", constants)?;
    domain.push_str("))")?;
    let front = "(define (problem p) (:domain d) (:init (q)) (:objects";
    let mut problem = String::from_str(alloc, front)?;
    put_names(&mut problem, " o", objects)?;
    problem.push_str("))")?;
    fault_of(alloc, domain.as_str(), problem.as_str())
}

const OBJECTS: &[(u16, u16, &str)] = &[
    (24, 1000, "problem byte 40: unknown predicate"),
    (1024, 0, "problem byte 40: unknown predicate"),
    (0, 1024, "problem byte 40: unknown predicate"),
    (25, 1000, "problem byte 6048: too many objects"),
    (0, 1030, "problem byte 6198: too many objects"),
    (1025, 0, "domain byte 6175: too many objects"),
    (1030, 2, "domain byte 6175: too many objects"),
];

#[test]
fn there_are_at_most_1024_objects(rt: HostRuntime) -> Result<(), Fail> {
    for (constants, objects, want) in OBJECTS {
        let found = objects_fault(rt.alloc(), *constants, *objects)?;
        assert_eq!(rt; found.as_str(), *want, "{constants}");
    }
    Ok(())
}
