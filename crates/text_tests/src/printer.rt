use crate::samples::{HAUL, HAUL_PROBLEM, LAMP, LAMP_PROBLEM, PAIR, PAIR_PROBLEM};
use crate::typed::{domain_of, problem_of};
use pddl_print::{print_domain, print_problem};
use std::alloc::Global;
use std::test::Fail;

fn printed_domain(alloc: Global, text: &str) -> Result<Vec<u8>, Fail> {
    let domain = domain_of(alloc, text)?;
    Ok(print_domain(alloc, &domain)?)
}

fn printed_problem(alloc: Global, text: &str) -> Result<Vec<u8>, Fail> {
    let problem = problem_of(alloc, text)?;
    Ok(print_problem(alloc, &problem)?)
}

const CANONICAL_DOMAIN: &str = "(define (domain haul)\n\
(:requirements :strips :typing)\n\
(:types truck - vehicle car - vehicle vehicle - object place - object)\n\
(:constants depot - place home - object)\n\
(:predicates (at ?t - vehicle ?p - object) (done))\n\
(:action drive\n\
:parameters (?t - (either truck car) ?a - place ?b - place)\n\
:precondition (and (at ?t ?a))\n\
:effect (and (not (at ?t ?a)) (at ?t ?b)))\n\
(:action wait\n\
:parameters ()\n\
:precondition (and)\n\
:effect (and))\n\
(:action end\n\
:parameters ()\n\
:precondition (and)\n\
:effect (and (done) (not (at t1 depot))))\n\
)\n";

const CANONICAL_EMPTY_DOMAIN: &str = "(define (domain none)\n\
(:requirements :strips :typing)\n\
)\n";

const CANONICAL_PROBLEM: &str = "(define (problem one)\n\
(:domain haul)\n\
(:objects t1 - truck c1 - object)\n\
(:init (at t1 depot) (done) (at t1 depot))\n\
(:goal (and)))\n";

const CANONICAL_EMPTY_PROBLEM: &str = "(define (problem nil)\n\
(:domain none)\n\
(:init)\n\
(:goal (and)))\n";

const CANONICAL_LAMP: &str = "(define (domain lamp)\n\
(:requirements :strips :typing :negative-preconditions)\n\
(:predicates (on) (done))\n\
(:action light\n\
:parameters ()\n\
:precondition (and (not (on)))\n\
:effect (and (on)))\n\
(:action end\n\
:parameters ()\n\
:precondition (and (on))\n\
:effect (and (done)))\n\
(:action dark\n\
:parameters ()\n\
:precondition (and (on))\n\
:effect (and (not (on))))\n\
)\n";

const CANONICAL_LAMP_PROBLEM: &str = "(define (problem p)\n\
(:domain lamp)\n\
(:init)\n\
(:goal (and)))\n";

const CANONICAL_PAIR: &str = "(define (domain pair)\n\
(:requirements :strips :typing :equality)\n\
(:types t - object)\n\
(:predicates (has ?x - t))\n\
(:action give\n\
:parameters (?a - t ?b - t)\n\
:precondition (and (has ?a) (not (= ?a ?b)))\n\
:effect (and (has ?b) (not (has ?a))))\n\
)\n";

const CANONICAL_PAIR_PROBLEM: &str = "(define (problem p)\n\
(:domain pair)\n\
(:objects o1 - t o2 - t)\n\
(:init (has o1))\n\
(:goal (and)))\n";

/// Its last action asks for what stands first among the requirements.
const CANONICAL_BOTH: &str = "(define (domain both)\n\
(:requirements :strips :typing :negative-preconditions :equality)\n\
(:action a\n\
:parameters (?x - object ?y - object)\n\
:precondition (and (not (= ?x ?y)))\n\
:effect (and (p)))\n\
(:action b\n\
:parameters ()\n\
:precondition (and (q) (not (p c)))\n\
:effect (and))\n\
)\n";

const CANONICAL_EQUALITY: &str = "(define (domain one)\n\
(:requirements :strips :typing :equality)\n\
(:action a\n\
:parameters (?x - object)\n\
:precondition (and (= ?x ?x))\n\
:effect (and))\n\
)\n";

/// Domains, and what is printed of them.
const DOMAINS: &[(&str, &str)] = &[
    (HAUL, CANONICAL_DOMAIN),
    (CANONICAL_DOMAIN, CANONICAL_DOMAIN),
    (
        "(define (domain none) (:types) (:predicates))",
        CANONICAL_EMPTY_DOMAIN,
    ),
    (CANONICAL_EMPTY_DOMAIN, CANONICAL_EMPTY_DOMAIN),
    (LAMP, CANONICAL_LAMP),
    (CANONICAL_LAMP, CANONICAL_LAMP),
    (PAIR, CANONICAL_PAIR),
    (CANONICAL_PAIR, CANONICAL_PAIR),
    (
        "(define (domain both)\n\
(:action a :parameters (?x ?y) :effect (p) :precondition (not (= ?x ?y)))\n\
(:action b :precondition (and (q) (NOT (P C)))))",
        CANONICAL_BOTH,
    ),
    (CANONICAL_BOTH, CANONICAL_BOTH),
    (
        "(define (domain one) (:action a :parameters (?x) :precondition (and (= ?x ?x))))",
        CANONICAL_EQUALITY,
    ),
    (CANONICAL_EQUALITY, CANONICAL_EQUALITY),
];

/// Problems, and what is printed of them.
const PROBLEMS: &[(&str, &str)] = &[
    (HAUL_PROBLEM, CANONICAL_PROBLEM),
    (CANONICAL_PROBLEM, CANONICAL_PROBLEM),
    (
        "(define (problem nil) (:init) (:domain none))",
        CANONICAL_EMPTY_PROBLEM,
    ),
    (CANONICAL_EMPTY_PROBLEM, CANONICAL_EMPTY_PROBLEM),
    (LAMP_PROBLEM, CANONICAL_LAMP_PROBLEM),
    (CANONICAL_LAMP_PROBLEM, CANONICAL_LAMP_PROBLEM),
    (PAIR_PROBLEM, CANONICAL_PAIR_PROBLEM),
    (CANONICAL_PAIR_PROBLEM, CANONICAL_PAIR_PROBLEM),
];

#[test]
fn canonical_texts_are_printed_and_read_again(rt: HostRuntime) -> Result<(), Fail> {
    for (text, canonical) in DOMAINS {
        let printed = printed_domain(rt.alloc(), text)?;
        assert!(rt; printed.as_slice() == canonical.as_bytes(), "{text}");
    }
    for (text, canonical) in PROBLEMS {
        let printed = printed_problem(rt.alloc(), text)?;
        assert!(rt; printed.as_slice() == canonical.as_bytes(), "{text}");
    }
    Ok(())
}
