// Negative preconditions and equalities, and which rule of typing they break.
use crate::samples::{LAMP, LAMP_PROBLEM, PAIR, PAIR_PROBLEM, PLAIN_PROBLEM};
use crate::typing::{fault_of, typed_of};
use std::test::Fail;

/// Domains and problems, and what they make. The number of an equality is that of the predicates.
const TYPED: &[(&str, &str, &str)] = &[
    (
        LAMP,
        LAMP_PROBLEM,
        "objects\n\
predicate on@36\n\
predicate done@41\n\
action light@57\n\
precondition not 0;\n\
effect 0;\n\
action end@111\n\
precondition 0;\n\
effect 1;\n\
action dark@159\n\
precondition 0;\n\
effect not 0;\n\
init",
    ),
    (
        PAIR,
        PAIR_PROBLEM,
        "objects o1@45:1 o2@48:1\n\
predicate has@47 [ 0 1 ]\n\
action give@69 [ 0 1 ] [ 0 1 ]\n\
precondition 0 ?0; not 1 ?0 ?1;\n\
effect 0 ?1; not 0 ?0;\n\
init 0 0;",
    ),
    (
        "(define (domain d) (:constants c) (:action a :parameters (?x ?y) :precondition (and (= ?y c) (NOT (= C ?x)))))",
        PLAIN_PROBLEM,
        "objects c@31:0\n\
action a@43 [ 0 ] [ 0 ]\n\
precondition 0 ?1 0; not 0 0 ?0;\n\
effect\n\
init",
    ),
];

#[test]
fn negations_and_equalities_are_numbered(rt: HostRuntime) -> Result<(), Fail> {
    for (domain, problem, want) in TYPED {
        assert_eq!(rt;
            typed_of(rt.alloc(), domain, problem)?.as_str(),
            *want,
            "{domain}"
        );
    }
    Ok(())
}

/// Domains and problems, and the first rule that is broken. An equality has two terms, which is asked before
/// these, and terms of any types.
const FAULTS: &[(&str, &str, &str)] = &[
    (
        "(define (domain d) (:action a :parameters (?x) :precondition (= ?x)))",
        PLAIN_PROBLEM,
        "domain byte 62: wrong count",
    ),
    (
        "(define (domain d) (:action a :parameters (?x) :precondition (= ?x ?x ?x)))",
        PLAIN_PROBLEM,
        "domain byte 62: wrong count",
    ),
    (
        "(define (domain d) (:action a :parameters (?x) :precondition (not (= ?x))))",
        PLAIN_PROBLEM,
        "domain byte 67: wrong count",
    ),
    (
        "(define (domain d) (:action a :precondition (= ?y o q)))",
        PLAIN_PROBLEM,
        "domain byte 45: wrong count",
    ),
    (
        "(define (domain d) (:action a :precondition (= ?y)))",
        PLAIN_PROBLEM,
        "domain byte 45: wrong count",
    ),
    (
        "(define (domain d) (:action a :parameters (?x) :precondition (= ?x ?y)))",
        PLAIN_PROBLEM,
        "domain byte 67: unbound variable",
    ),
    (
        "(define (domain d) (:action a :parameters (?x) :precondition (not (= ?y ?x))))",
        PLAIN_PROBLEM,
        "domain byte 69: unbound variable",
    ),
    (
        "(define (domain d) (:action a :parameters (?x) :precondition (= o ?x)))",
        "(define (problem p) (:domain d) (:objects o) (:init))",
        "domain byte 64: unknown name",
    ),
    (
        "(define (domain d) (:constants c) (:action a :precondition (not (= c o))))",
        "(define (problem p) (:domain d) (:objects o) (:init))",
        "domain byte 69: unknown name",
    ),
    (
        "(define (domain d) (:action a :parameters (?x) :precondition (and (= ?x ?x) (= ?y o))))",
        "(define (problem p) (:domain d) (:objects o) (:init))",
        "domain byte 79: unbound variable",
    ),
    (
        "(define (domain d) (:action a :parameters (?x) :precondition (and (= o ?y) (= ?x))))",
        "(define (problem p) (:domain d) (:objects o) (:init))",
        "domain byte 69: unknown name",
    ),
    (
        "(define (domain d) (:types a b) (:constants c - b) (:action m :parameters (?x - a) :precondition (and (= ?x c) (not (= c ?x)))))",
        PLAIN_PROBLEM,
        "typed",
    ),
    (
        "(define (domain d) (:types b - a a c) (:action m :parameters (?x - (either a b) ?y - c) :precondition (not (= ?x ?y))))",
        PLAIN_PROBLEM,
        "typed",
    ),
    (
        "(define (domain d) (:action a :precondition (not (p))))",
        PLAIN_PROBLEM,
        "domain byte 50: unknown predicate",
    ),
    (
        "(define (domain d) (:predicates (p ?x)) (:action a :precondition (not (p))))",
        PLAIN_PROBLEM,
        "domain byte 71: wrong count",
    ),
    (
        "(define (domain d) (:predicates (p ?x)) (:action a :precondition (not (p ?x))))",
        PLAIN_PROBLEM,
        "domain byte 73: unbound variable",
    ),
    (
        "(define (domain d) (:predicates (p ?x)) (:action a :precondition (not (p o))))",
        "(define (problem p) (:domain d) (:objects o) (:init))",
        "domain byte 73: unknown name",
    ),
    (
        "(define (domain d) (:types a b) (:predicates (p ?x - a)) (:action m :parameters (?x - b) :precondition (not (p ?x))))",
        PLAIN_PROBLEM,
        "domain byte 111: wrong type",
    ),
    (
        "(define (domain d) (:predicates (p)) (:action a :effect (q) :precondition (and (not (p)) (= ?x))))",
        PLAIN_PROBLEM,
        "domain byte 90: wrong count",
    ),
    (
        "(define (domain d) (:action a :precondition (and (not (q)) (= ?x))))",
        PLAIN_PROBLEM,
        "domain byte 55: unknown predicate",
    ),
    (
        "(define (domain d) (:predicates (p) (p)) (:action a :precondition (= ?x)))",
        PLAIN_PROBLEM,
        "domain byte 37: doubled",
    ),
];

#[test]
fn faulty_negation_or_equality_is_named_with_its_place(rt: HostRuntime) -> Result<(), Fail> {
    for (domain, problem, want) in FAULTS {
        let found = fault_of(rt.alloc(), domain, problem)?;
        assert_eq!(rt; found.as_str(), *want, "{domain}");
    }
    Ok(())
}
