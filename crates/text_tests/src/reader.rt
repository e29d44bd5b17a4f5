use crate::parts::put_name;
use crate::samples::{
    FORK, FORK_PROBLEM, GRID, GRID_PROBLEM, KEEP, KEEP_PROBLEM, LAMP, PAIR, WORLD, WORLD_PROBLEM,
};
use pddl_reader::{
    Domain, Literal, Predicate, Problem, Schema, Term, TypedName, read_domain, read_problem,
};
use std::alloc::Global;
use std::fmt::Write;
use std::test::Fail;

// What is read is written as text.
fn put_typed_name(out: &mut String, name: &TypedName) -> Result<(), Fail> {
    put_name(out, " ", &name.name)?;
    out.push_str(" -")?;
    for name in name.types.as_slice() {
        put_name(out, " ", name)?;
    }
    out.push_str(";")?;
    Ok(())
}

fn put_typed_names(out: &mut String, title: &str, names: &[TypedName]) -> Result<(), Fail> {
    out.push_str(title)?;
    for name in names {
        put_typed_name(out, name)?;
    }
    out.push_str("\n")?;
    Ok(())
}

fn put_term(out: &mut String, term: &Term) -> Result<(), Fail> {
    match term {
        Term::Variable(name) => {
            out.push_str(" variable")?;
            put_name(out, " ", name)
        }
        Term::Constant(name) => put_name(out, " ", name),
    }
}

fn put_literal(out: &mut String, literal: &Literal) -> Result<(), Fail> {
    if !literal.positive {
        out.push_str(" not")?;
    }
    put_name(out, " ", &literal.predicate)?;
    for term in &literal.terms {
        put_term(out, term)?;
    }
    out.push_str(";")?;
    Ok(())
}

fn put_literals(out: &mut String, title: &str, literals: &[Literal]) -> Result<(), Fail> {
    out.push_str(title)?;
    for literal in literals {
        put_literal(out, literal)?;
    }
    out.push_str("\n")?;
    Ok(())
}

fn put_predicate(out: &mut String, predicate: &Predicate) -> Result<(), Fail> {
    out.push_str("predicate")?;
    put_name(out, " ", &predicate.name)?;
    put_typed_names(out, ":", &predicate.parameters)
}

fn put_action(out: &mut String, action: &Schema) -> Result<(), Fail> {
    out.push_str("action")?;
    put_name(out, " ", &action.name)?;
    put_typed_names(out, ":", &action.parameters)?;
    put_literals(out, "precondition", &action.pre)?;
    put_literals(out, "effect", &action.effect)
}

fn put_domain(out: &mut String, domain: &Domain) -> Result<(), Fail> {
    out.push_str("domain")?;
    put_name(out, " ", &domain.name)?;
    put_typed_names(out, "\ntypes", &domain.types)?;
    put_typed_names(out, "constants", &domain.constants)?;
    for predicate in &domain.predicates {
        put_predicate(out, predicate)?;
    }
    for action in &domain.actions {
        put_action(out, action)?;
    }
    Ok(())
}

fn put_problem(out: &mut String, problem: &Problem) -> Result<(), Fail> {
    out.push_str("problem")?;
    put_name(out, " ", &problem.name)?;
    out.push_str(" of")?;
    put_name(out, " ", &problem.domain)?;
    put_typed_names(out, "\nobjects", &problem.objects)?;
    put_literals(out, "init", &problem.init)
}

/// What a domain's text holds, or its fault.
fn domain_of(alloc: Global, text: &str) -> Result<String, Fail> {
    if text.len() > 1000 {
        return Err("too long".into());
    }
    let mut out = String::new(alloc);
    match read_domain(alloc, text.as_bytes()) {
        Ok(domain) => put_domain(&mut out, &domain)?,
        Err(fault) => write!(out, "{fault}")?,
    }
    Ok(out)
}

/// What a problem's text holds, or its fault.
fn problem_of(alloc: Global, text: &str) -> Result<String, Fail> {
    if text.len() > 1000 {
        return Err("too long".into());
    }
    let mut out = String::new(alloc);
    match read_problem(alloc, text.as_bytes()) {
        Ok(problem) => put_problem(&mut out, &problem)?,
        Err(fault) => write!(out, "{fault}")?,
    }
    Ok(out)
}

/// Sample domains, and what they hold.
const DOMAINS: &[(&str, &str)] = &[
    (
        FORK,
        "domain fork@16\n\
types\n\
constants\n\
predicate at0@36:\n\
predicate at1@42:\n\
predicate at2@48:\n\
predicate atl@54:\n\
predicate atr@60:\n\
action a@75:\n\
precondition at0@107;\n\
effect at1@126; not at0@137;\n\
action b@154:\n\
precondition at1@186;\n\
effect at2@205; not at1@216;\n\
action l@233:\n\
precondition at2@265;\n\
effect atl@284; not at2@295;\n\
action r@312:\n\
precondition at2@344;\n\
effect atr@363; not at2@374;\n",
    ),
    (
        KEEP,
        "domain k@16\n\
types\n\
constants\n\
predicate p@33:\n\
predicate q@37:\n\
action t@50:\n\
precondition p@67;\n\
effect q@84; not p@93; p@98;\n",
    ),
    (
        GRID,
        "domain grid@16\n\
types cell@62 - object@69;\n\
constants\n\
predicate at@91: ?a@94 - cell@99;\n\
predicate connected@106: ?a@116 - cell@121; ?b@126 - cell@131;\n\
action move@147: ?a@165 - cell@170; ?b@175 - cell@180;\n\
precondition at@206 variable ?a@209; connected@214 variable ?a@224 variable ?b@227;\n\
effect not at@251 variable ?a@254; at@260 variable ?b@263;\n",
    ),
    // With the sections, and the parts of an action, in another order than usual.
    (
        WORLD,
        "domain world@32\n\
types town@298 - place@310; road@303 - place@310; place@316 - either@324; either@331 - object@331;\n\
constants home@273 - town@280; far@285 - object@285;\n\
predicate at@188: ?a@191 - object@196; ?b@203 - object@203;\n\
predicate free@208:\n\
action go@48: ?x@123 - town@139; ?y@126 - town@139; ?z@145 - town@158 road@163; ?w@169 - object@169;\n\
precondition\n\
effect not at@75 variable ?x@78 home@81; at@99 variable ?x@102 variable ?y@105;\n\
action rest@224:\n\
precondition\n\
effect\n",
    ),
    (
        LAMP,
        "domain lamp@16\n\
types\n\
constants\n\
predicate on@36:\n\
predicate done@41:\n\
action light@57:\n\
precondition not on@83;\n\
effect on@97;\n\
action end@111:\n\
precondition on@130;\n\
effect done@143;\n\
action dark@159:\n\
precondition on@179;\n\
effect not on@197;\n",
    ),
    (
        PAIR,
        "domain pair@16\n\
types t@30 - object@30;\n\
constants\n\
predicate has@47: ?x@51 - t@56;\n\
action give@69: ?a@87 - t@92; ?b@94 - t@99;\n\
precondition has@122 variable ?a@126; not =@136 variable ?a@138 variable ?b@141;\n\
effect has@161 variable ?b@165; not has@175 variable ?a@179;\n",
    ),
    // With equalities of one and of three terms, and names that are words of conditions elsewhere.
    (
        "(define (domain e) (:predicates (and) (not ?x))\n\
(:action a :precondition (and (= ?X) (= ?x ?x) (NOT (= C ?y c)) (and (not (p ?x)) (= not and))) :effect (not (p x))))",
        "domain e@16\n\
types\n\
constants\n\
predicate and@33:\n\
predicate not@39: ?x@43 - object@43;\n\
action a@57:\n\
precondition =@79 variable ?x@81; =@86 variable ?x@88 variable ?x@91; not =@101 c@103 variable ?y@105 c@108; not p@123 variable ?x@125; =@131 not@133 and@137;\n\
effect not p@158 x@160;\n",
    ),
];

/// Sample problems, and what they hold.
const PROBLEMS: &[(&str, &str)] = &[
    (
        FORK_PROBLEM,
        "problem p@17 of fork@29\n\
objects\n\
init at0@43;\n",
    ),
    (
        KEEP_PROBLEM,
        "problem z@17 of k@29\n\
objects\n\
init p@40;\n",
    ),
    (
        GRID_PROBLEM,
        "problem made@17 of grid@32\n\
objects c1-1@48 - cell@55; c1-2@60 - cell@67;\n\
init at@81 c1-1@84; connected@91 c1-1@101 c1-2@106;\n",
    ),
    (
        WORLD_PROBLEM,
        "problem next@17 of world@123\n\
objects a@84 - town@90; b@86 - town@90; c@95 - object@95;\n\
init free@48; at@55 a@58 home@60; free@67;\n",
    ),
];

/// Texts that are no domain as a whole, and the first fault.
const DOCUMENT_FAULTS: &[(&str, &str)] = &[
    ("", "empty"),
    ("; (define)", "empty"),
    (
        "(((((((((((((((((((((((((((((((((((((((((((((((((((((((((((((((((",
        "byte 64: too deep",
    ),
    ("(define (domain d) \u{7f})", "byte 19: bad byte"),
    (") \u{7f} (", "byte 2: bad byte"),
    ("(defin (domain d)", "byte 0: unclosed"),
    ("(define (domain d)))", "byte 19: unopened"),
    ("(define (domain d)) d", "byte 20: trailing"),
    ("define", "byte 0: trailing"),
    ("()", "byte 0: shape"),
    ("(defin (domain d))", "byte 1: shape"),
    ("((define) (domain d))", "byte 1: shape"),
    ("(define)", "byte 0: shape"),
    ("(define domain)", "byte 8: shape"),
    ("(define ())", "byte 8: shape"),
    ("(define (problem d))", "byte 9: shape"),
    ("(define ((domain) d))", "byte 9: shape"),
    ("(define (domain))", "byte 8: shape"),
    ("(define (domain ?d))", "byte 16: shape"),
    ("(define (domain (d)))", "byte 16: shape"),
    ("(define (domain d e))", "byte 18: shape"),
    ("(define (domain d) :types)", "byte 19: shape"),
    ("(define (domain d) ())", "byte 19: shape"),
    ("(define (domain d) ((:types)))", "byte 20: shape"),
];

#[test]
fn first_fault_of_a_document_is_named_with_its_place(rt: HostRuntime) -> Result<(), Fail> {
    for (text, want) in DOCUMENT_FAULTS {
        assert_eq!(rt; domain_of(rt.alloc(), text)?.as_str(), *want, "{text}");
    }
    Ok(())
}

/// Domains with a fault in a section other than an action, and the first.
const SECTION_FAULTS: &[(&str, &str)] = &[
    (
        "(define (domain d) (:types) (:Types -))",
        "byte 28: doubled section",
    ),
    (
        "(define (domain d) (:constants) (:types) (:constants))",
        "byte 41: doubled section",
    ),
    (
        "(define (domain d) (:predicates) (:predicates))",
        "byte 33: doubled section",
    ),
    (
        "(define (domain d) (:requirements) (:requirements))",
        "byte 35: doubled section",
    ),
    (
        "(define (domain d) (:requirements :strips :ADL))",
        "byte 42: unsupported requirement",
    ),
    (
        "(define (domain d) (:requirements strips :adl))",
        "byte 34: shape",
    ),
    (
        "(define (domain d) (:requirements (:adl)))",
        "byte 34: shape",
    ),
    (
        "(define (domain d) (:functions (f)))",
        "byte 19: unsupported functions",
    ),
    (
        "(define (domain d) (:derived ()))",
        "byte 19: unsupported derived predicate",
    ),
    (
        "(define (domain d) (:axiom))",
        "byte 19: unsupported derived predicate",
    ),
    (
        "(define (domain d) (:durative-action))",
        "byte 19: unsupported durative action",
    ),
    (
        "(define (domain d) (:constraints))",
        "byte 19: unsupported constraints",
    ),
    (
        "(define (domain d) (:length - -))",
        "byte 19: unsupported metric",
    ),
    ("(define (domain d) (:types - t))", "byte 27: shape"),
    ("(define (domain d) (:types a - t - u))", "byte 33: shape"),
    ("(define (domain d) (:types a -))", "byte 19: shape"),
    ("(define (domain d) (:types a ?b))", "byte 29: shape"),
    ("(define (domain d) (:types a - - b))", "byte 31: shape"),
    ("(define (domain d) (:types a - ?b))", "byte 31: shape"),
    ("(define (domain d) (:types (a)))", "byte 27: shape"),
    (
        "(define (domain d) (:types a - (t either)))",
        "byte 31: shape",
    ),
    (
        "(define (domain d) (:types a - (either)))",
        "byte 31: unsupported either",
    ),
    (
        "(define (domain d) (:constants a - t b - (EITHER t u)))",
        "byte 41: unsupported either",
    ),
    ("(define (domain d) (:predicates p))", "byte 32: shape"),
    ("(define (domain d) (:predicates ()))", "byte 32: shape"),
    ("(define (domain d) (:predicates (?p)))", "byte 33: shape"),
    (
        "(define (domain d) (:predicates (= ?x ?y)))",
        "byte 33: shape",
    ),
    ("(define (domain d) (:predicates (p x)))", "byte 35: shape"),
    (
        "(define (domain d) (:predicates (p ?x -)))",
        "byte 32: shape",
    ),
    (
        "(define (domain d) (:predicates (p ?x - ())))",
        "byte 40: shape",
    ),
    (
        "(define (domain d) (:predicates (p ?x - (either))))",
        "byte 40: shape",
    ),
    (
        "(define (domain d) (:predicates (p ?x - (or t))))",
        "byte 41: shape",
    ),
    (
        "(define (domain d) (:predicates (p ?x - ((either) t))))",
        "byte 41: shape",
    ),
    (
        "(define (domain d) (:predicates (p ?x - (either t ?u))))",
        "byte 50: shape",
    ),
];

#[test]
fn first_fault_of_a_section_is_named_with_its_place(rt: HostRuntime) -> Result<(), Fail> {
    for (text, want) in SECTION_FAULTS {
        assert_eq!(rt; domain_of(rt.alloc(), text)?.as_str(), *want, "{text}");
    }
    Ok(())
}

/// Domains with a fault in an action, and the first.
const ACTION_FAULTS: &[(&str, &str)] = &[
    ("(define (domain d) (:action))", "byte 19: shape"),
    ("(define (domain d) (:action :effect))", "byte 28: shape"),
    ("(define (domain d) (:action a (p)))", "byte 30: shape"),
    ("(define (domain d) (:action a :foo ()))", "byte 30: shape"),
    ("(define (domain d) (:action a :effect))", "byte 19: shape"),
    (
        "(define (domain d) (:action a :parameters ?x))",
        "byte 42: shape",
    ),
    (
        "(define (domain d) (:action a :effect () :Effect ?x))",
        "byte 41: doubled section",
    ),
    (
        "(define (domain d) (:action a :parameters () :parameters))",
        "byte 45: doubled section",
    ),
    (
        "(define (domain d) (:action a :precondition p))",
        "byte 44: shape",
    ),
    (
        "(define (domain d) (:action a :precondition ((p))))",
        "byte 45: shape",
    ),
    (
        "(define (domain d) (:action a :precondition (?x)))",
        "byte 45: shape",
    ),
    (
        "(define (domain d) (:action a :precondition (and (p) q)))",
        "byte 53: shape",
    ),
    (
        "(define (domain d) (:action a :precondition (p x :y)))",
        "byte 49: shape",
    ),
    (
        "(define (domain d) (:action a :precondition (p (x))))",
        "byte 47: shape",
    ),
    (
        "(define (domain d) (:action a :effect (not)))",
        "byte 38: shape",
    ),
    (
        "(define (domain d) (:action a :effect (not p)))",
        "byte 43: shape",
    ),
    (
        "(define (domain d) (:action a :effect (not ())))",
        "byte 43: shape",
    ),
    (
        "(define (domain d) (:action a :effect (not (not (p)))))",
        "byte 44: shape",
    ),
    (
        "(define (domain d) (:action a :effect (not (and (p)))))",
        "byte 44: shape",
    ),
    (
        "(define (domain d) (:action a :effect (not (p) (or))))",
        "byte 47: shape",
    ),
    (
        "(define (domain d) (:action a :effect (not (or) (p))))",
        "byte 43: unsupported disjunction",
    ),
    (
        "(define (domain d) (:action a :precondition (OR p (=))))",
        "byte 44: unsupported disjunction",
    ),
    (
        "(define (domain d) (:action a :precondition (imply)))",
        "byte 44: unsupported implication",
    ),
    (
        "(define (domain d) (:action a :precondition (forall)))",
        "byte 44: unsupported quantifier",
    ),
    (
        "(define (domain d) (:action a :precondition (exists)))",
        "byte 44: unsupported quantifier",
    ),
    (
        "(define (domain d) (:action a :effect (and (when))))",
        "byte 43: unsupported conditional effect",
    ),
    (
        "(define (domain d) (:action a :precondition (preference)))",
        "byte 44: unsupported preference",
    ),
    (
        "(define (domain d) (:action a :effect (increase)))",
        "byte 38: unsupported numeric effect",
    ),
    (
        "(define (domain d) (:action a :effect (scale-down)))",
        "byte 38: unsupported numeric effect",
    ),
    (
        "(define (domain d) (:action a :precondition (<= 1)))",
        "byte 44: unsupported numeric condition",
    ),
    (
        "(define (domain d) (:action a :effect (= ?x ?x)))",
        "byte 38: unsupported equality",
    ),
    (
        "(define (domain d) (:action a :effect (not (= ?x ?x))))",
        "byte 43: unsupported equality",
    ),
    (
        "(define (domain d) (:action a :precondition (?x) :effect))",
        "byte 45: shape",
    ),
    (
        "(define (domain d) (:action a :effect (p ())) (:functions))",
        "byte 41: shape",
    ),
    (
        "(define (domain d) (:functions) (:action a :effect (p ())))",
        "byte 19: unsupported functions",
    ),
];

#[test]
fn first_fault_of_an_action_is_named_with_its_place(rt: HostRuntime) -> Result<(), Fail> {
    for (text, want) in ACTION_FAULTS {
        assert_eq!(rt; domain_of(rt.alloc(), text)?.as_str(), *want, "{text}");
    }
    Ok(())
}

/// Domains with a fault in what is negated or in an equality, and the first.
const NEGATION_FAULTS: &[(&str, &str)] = &[
    (
        "(define (domain d) (:action a :precondition (not)))",
        "byte 44: shape",
    ),
    (
        "(define (domain d) (:action a :precondition (not p)))",
        "byte 49: shape",
    ),
    (
        "(define (domain d) (:action a :precondition (not ())))",
        "byte 49: shape",
    ),
    (
        "(define (domain d) (:action a :precondition (not ((p)))))",
        "byte 50: shape",
    ),
    (
        "(define (domain d) (:action a :precondition (not (?x))))",
        "byte 50: shape",
    ),
    (
        "(define (domain d) (:action a :precondition (not (not (p)))))",
        "byte 50: shape",
    ),
    (
        "(define (domain d) (:action a :precondition (not (and (p)))))",
        "byte 50: shape",
    ),
    (
        "(define (domain d) (:action a :precondition (not (OR (p)))))",
        "byte 49: unsupported disjunction",
    ),
    (
        "(define (domain d) (:action a :precondition (not (imply))))",
        "byte 49: unsupported implication",
    ),
    (
        "(define (domain d) (:action a :precondition (not (when))))",
        "byte 49: unsupported conditional effect",
    ),
    (
        "(define (domain d) (:action a :precondition (not (<= 1 2))))",
        "byte 49: unsupported numeric condition",
    ),
    (
        "(define (domain d) (:action a :precondition (not (p) (q))))",
        "byte 53: shape",
    ),
    (
        "(define (domain d) (:action a :precondition (not (p) (or))))",
        "byte 53: shape",
    ),
    (
        "(define (domain d) (:action a :precondition (not (or) (p))))",
        "byte 49: unsupported disjunction",
    ),
    (
        "(define (domain d) (:action a :precondition (not (p ()) (q))))",
        "byte 52: shape",
    ),
    (
        "(define (domain d) (:action a :precondition (not (= ?x ?x) (p))))",
        "byte 59: shape",
    ),
    (
        "(define (domain d) (:action a :precondition (=)))",
        "byte 44: shape",
    ),
    (
        "(define (domain d) (:action a :precondition (not (=))))",
        "byte 49: shape",
    ),
    (
        "(define (domain d) (:action a :precondition (= (f) 3)))",
        "byte 47: shape",
    ),
    (
        "(define (domain d) (:action a :precondition (= ?x :x)))",
        "byte 50: shape",
    ),
    (
        "(define (domain d) (:action a :precondition (= ?x =)))",
        "byte 50: shape",
    ),
    (
        "(define (domain d) (:action a :precondition (and (not (p)) (=) (or))))",
        "byte 59: shape",
    ),
    (
        "(define (domain d) (:action a :precondition (=) :effect (=)))",
        "byte 44: shape",
    ),
    (
        "(define (domain d) (:action a :effect (=) :precondition (=)))",
        "byte 38: unsupported equality",
    ),
    (
        "(define (domain d) (:action a :effect (not (=))))",
        "byte 43: unsupported equality",
    ),
    (
        "(define (domain d) (:action a :effect (and (p) (= ?x ?x))))",
        "byte 47: unsupported equality",
    ),
];

#[test]
fn first_fault_of_a_negation_or_an_equality_is_named_with_its_place(
    rt: HostRuntime,
) -> Result<(), Fail> {
    for (text, want) in NEGATION_FAULTS {
        assert_eq!(rt; domain_of(rt.alloc(), text)?.as_str(), *want, "{text}");
    }
    Ok(())
}

/// Problems with a fault, and the first.
const PROBLEM_FAULTS: &[(&str, &str)] = &[
    ("(define (problem p", "byte 8: unclosed"),
    ("(define (domain p) (:init))", "byte 9: shape"),
    ("(define (problem :p))", "byte 17: shape"),
    ("(define (problem p))", "byte 0: shape"),
    ("(define (problem p) (:domain d))", "byte 0: shape"),
    ("(define (problem p) (:init (p)))", "byte 0: shape"),
    ("(define (problem p) (:foo))", "byte 21: shape"),
    ("(define (problem p) (:types))", "byte 21: shape"),
    ("(define (problem p) (:action a))", "byte 21: shape"),
    (
        "(define (problem p) (:domain d) (:DOMAIN))",
        "byte 32: doubled section",
    ),
    (
        "(define (problem p) (:objects) (:objects))",
        "byte 31: doubled section",
    ),
    (
        "(define (problem p) (:init) (:init))",
        "byte 28: doubled section",
    ),
    (
        "(define (problem p) (:goal ()) (:goal))",
        "byte 31: doubled section",
    ),
    (
        "(define (problem p) (:requirements) (:requirements))",
        "byte 36: doubled section",
    ),
    (
        "(define (problem p) (:requirements :fluents))",
        "byte 35: unsupported requirement",
    ),
    ("(define (problem p) (:domain))", "byte 20: shape"),
    ("(define (problem p) (:domain ?d))", "byte 29: shape"),
    ("(define (problem p) (:domain d (e)))", "byte 31: shape"),
    ("(define (problem p) (:objects ?a))", "byte 30: shape"),
    ("(define (problem p) (:objects a b -))", "byte 20: shape"),
    (
        "(define (problem p) (:objects a b - (either t u)))",
        "byte 36: unsupported either",
    ),
    ("(define (problem p) (:init p))", "byte 27: shape"),
    ("(define (problem p) (:init ()))", "byte 27: shape"),
    ("(define (problem p) (:init (and (p))))", "byte 28: shape"),
    ("(define (problem p) (:init (p ?x)))", "byte 30: shape"),
    ("(define (problem p) (:init (p a (b))))", "byte 32: shape"),
    (
        "(define (problem p) (:init (p) (NOT (p))))",
        "byte 31: unsupported negative initial atom",
    ),
    (
        "(define (problem p) (:init (= (f) 3)))",
        "byte 27: unsupported numeric condition",
    ),
    (
        "(define (problem p) (:init (=)))",
        "byte 27: unsupported numeric condition",
    ),
    (
        "(define (problem p) (:init (not)))",
        "byte 27: unsupported negative initial atom",
    ),
    ("(define (problem p) (:init (p =)))", "byte 30: shape"),
    (
        "(define (problem p) (:init (forall (?x))))",
        "byte 27: unsupported quantifier",
    ),
    ("(define (problem p) (:goal))", "byte 20: shape"),
    ("(define (problem p) (:goal (or) (p)))", "byte 32: shape"),
    (
        "(define (problem p) (:metric minimize (f)))",
        "byte 20: unsupported metric",
    ),
    (
        "(define (problem p) (:constraints))",
        "byte 20: unsupported constraints",
    ),
    (
        "(define (problem p) (:init) (:functions) (:init))",
        "byte 28: unsupported functions",
    ),
];

#[test]
fn domains_are_read_with_the_places_of_their_words(rt: HostRuntime) -> Result<(), Fail> {
    for (text, want) in DOMAINS {
        assert_eq!(rt; domain_of(rt.alloc(), text)?.as_str(), *want, "{text}");
    }
    Ok(())
}

#[test]
fn problems_are_read_with_the_places_of_their_words(rt: HostRuntime) -> Result<(), Fail> {
    for (text, want) in PROBLEMS {
        assert_eq!(rt; problem_of(rt.alloc(), text)?.as_str(), *want, "{text}");
    }
    Ok(())
}

#[test]
fn first_fault_of_a_problem_is_named_with_its_place(rt: HostRuntime) -> Result<(), Fail> {
    for (text, want) in PROBLEM_FAULTS {
        assert_eq!(rt; problem_of(rt.alloc(), text)?.as_str(), *want, "{text}");
    }
    Ok(())
}
