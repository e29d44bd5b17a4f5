// Files that are at fault: which fault is told, and of which file.
use crate::runs::{Failing, NO_FAILURE, ends, expect_failing, expect_run};
use crate::samples::{
    COST, FORK, FORK_START, ILL_TYPED, LARGE, PAIRS, SHOW, TRIPLES, Texts, WCD, fork, many_objects,
    padded, repeated,
};
use std::alloc::Global;
use std::process::Abort;
use std::test::Fail;

/// Goals files over fork that are at fault, and what is told.
const FAULTY_GOALS: &[(&str, &str)] = &[
    ("(atq)", "grd: goals: line 1: unknown atom\n"),
    ("(at0 at1)", "grd: goals: line 1: unknown atom\n"),
    (
        "(atl)\r\n(atr)\r\n(atl), (atq)\r\n(atl",
        "grd: goals: line 3: unknown atom\n",
    ),
    ("\n ; (atl\n(atl", "grd: goals: line 3: shape\n"),
    ("(atl) ; behind an atom", "grd: goals: line 1: shape\n"),
    ("(atl)\n(not (atr))\n(atq)\n", "grd: goals: line 2: shape\n"),
    ("", "grd: goals: no goal\n"),
    (" ,\t\n;(atl)\n", "grd: goals: no goal\n"),
];

#[test]
fn faulty_goals_files_are_told(rt: HostRuntime) -> Result<(), Fail> {
    for (goals, line) in FAULTY_GOALS {
        expect_run(&rt, rt.alloc(), WCD, fork(goals), ends(1, line))?;
    }
    Ok(())
}

#[test]
fn goals_are_at_most_32(rt: HostRuntime) -> Result<(), Fail> {
    let goals = repeated(rt.alloc(), "(atl)\n", 33)?;
    let wanted = ends(1, "grd: goals: 33 goals, limit 32\n");
    expect_run(&rt, rt.alloc(), WCD, fork(goals.as_str()), wanted)
}

/// Words over these files, and a goals file that is at fault, end with the line of a refused file.
fn expect_fault(
    rt: &impl Abort,
    alloc: Global,
    words: &str,
    domain: &str,
    problem: &str,
    line: &str,
) -> Result<(), Fail> {
    let texts = Texts {
        domain,
        problem,
        goals: "",
    };
    expect_run(rt, alloc, words, texts, ends(1, line))
}

/// Both `cost` and `show` over these files end with the line of a refused file.
fn expect_faults(
    rt: &impl Abort,
    alloc: Global,
    domain: &str,
    problem: &str,
    line: &str,
) -> Result<(), Fail> {
    for words in [COST, SHOW] {
        expect_fault(rt, alloc, words, domain, problem, line)?;
    }
    Ok(())
}

/// Domains and problems, of which one is at fault, and what is told.
const FAULTY_FILES: &[(&str, &str, &str)] = &[
    ("", FORK_START, "grd: domain: empty\n"),
    ("(define (domain d)", "", "grd: domain: byte 0: unclosed\n"),
    (
        "(define (domain d) (:action a :effect (increase (total-cost) 1)))",
        FORK_START,
        "grd: domain: byte 38: unsupported numeric effect\n",
    ),
    (
        "(define (domain d) (:predicates (p ?x)) (:action a :parameters (?x) :precondition (not (p ?x)) :effect (= ?x ?x)))",
        FORK_START,
        "grd: domain: byte 103: unsupported equality\n",
    ),
    (
        "(define (domain d) (:action a :precondition (not (not (p)))))",
        FORK_START,
        "grd: domain: byte 50: shape\n",
    ),
    (ILL_TYPED, "; (define", "grd: problem: empty\n"),
    (ILL_TYPED, ")", "grd: problem: byte 0: unopened\n"),
    (
        FORK,
        "(define (problem \u{e9}))",
        "grd: problem: byte 17: bad byte\n",
    ),
    (
        FORK,
        "(define (problem p)) (",
        "grd: problem: byte 21: trailing\n",
    ),
    (
        FORK,
        "(define (problem p) (:domain fork))",
        "grd: problem: byte 0: shape\n",
    ),
    (
        FORK,
        "(define (problem p) (:domain fork) (:init) (:init))",
        "grd: problem: byte 43: doubled section\n",
    ),
];

#[test]
fn faulty_files_are_told_by_their_places(rt: HostRuntime) -> Result<(), Fail> {
    for (domain, problem, line) in FAULTY_FILES {
        expect_faults(&rt, rt.alloc(), domain, problem, line)?;
    }
    Ok(())
}

#[test]
fn brackets_that_are_too_deep_are_told(rt: HostRuntime) -> Result<(), Fail> {
    let deep = padded(rt.alloc(), "", '(', 65)?;
    let line = "grd: domain: byte 64: too deep\n";
    expect_faults(&rt, rt.alloc(), deep.as_str(), "", line)
}

/// A domain, a problem, and what is told of them.
const BROKEN_RULES: &str = "\
(define (domain d) (:constants c - t))|(define (problem p) (:domain d) (:init))|domain: byte 35: unknown type\n\
(define (domain d) (:types a - b b - a))|(define (problem p) (:domain d) (:init))|domain: byte 27: type cycle\n\
(define (domain d) (:predicates (p) (P)))|(define (problem p) (:domain d) (:init))|domain: byte 37: doubled\n\
(define (domain d) (:action a :effect (p)))|(define (problem p) (:domain d) (:init))|domain: byte 39: unknown predicate\n\
(define (domain d) (:predicates (p ?x)))|(define (problem p) (:domain d) (:init (p)))|problem: byte 40: wrong count\n\
(define (domain d) (:types a b) (:predicates (p ?x - a)))|(define (problem p) (:domain d) (:objects o - b) (:init (p o)))|problem: byte 59: wrong type\n\
(define (domain d) (:predicates (p ?x)) (:action a :effect (p o)))|(define (problem p) (:domain d) (:objects o) (:init))|domain: byte 62: unknown name\n\
(define (domain d) (:predicates (p ?x)) (:action a :effect (p ?x)))|(define (problem p) (:domain d) (:init))|domain: byte 62: unbound variable\n\
(define (domain d))|(define (problem p) (:domain e) (:init))|problem: byte 29: other domain\n\
(define (domain d) (:predicates (p ?a ?b ?c ?d ?e ?f ?g ?h ?i)))|(define (problem p) (:domain d) (:init))|domain: byte 33: too many parameters\n\
(define (domain d) (:action a :parameters (?x) :precondition (= ?x)))|(define (problem p) (:domain d) (:init))|domain: byte 62: wrong count\n\
(define (domain d) (:predicates (p)) (:action a :parameters (?x) :precondition (and (not (p)) (not (= ?x ?y)))))|(define (problem p) (:domain d) (:init))|domain: byte 105: unbound variable\n\
(define (domain d) (:action a :precondition (not (p))))|(define (problem p) (:domain d) (:init))|domain: byte 50: unknown predicate\n\
";

/// What is told of a domain and a problem, which stand in one line with bars between them.
fn expect_broken_rule(rt: &impl Abort, alloc: Global, case: &str) -> Result<(), Fail> {
    let (domain, rest) = case.split_once('|').ok_or("a bar")?;
    let (problem, what) = rest.split_once('|').ok_or("a bar")?;
    let line = format!(in alloc; "grd: {what}\n")?;
    expect_fault(rt, alloc, COST, domain, problem, line.as_str())
}

#[test]
fn broken_rules_of_typing_are_told(rt: HostRuntime) -> Result<(), Fail> {
    for case in BROKEN_RULES.lines() {
        expect_broken_rule(&rt, rt.alloc(), case)?;
    }
    Ok(())
}

/// What is told of a domain over 1,025 objects.
fn expect_fault_of_many(
    rt: &impl Abort,
    alloc: Global,
    domain: &str,
    line: &str,
) -> Result<(), Fail> {
    let problem = many_objects(alloc, 1025)?;
    expect_fault(rt, alloc, COST, domain, problem.as_str(), line)
}

/// A domain whose action has 65 literals.
fn many_literals(alloc: Global) -> Result<String, Fail> {
    let literals = repeated(alloc, " (q)", 65)?;
    Ok(format!(in alloc;
        "(define (domain many) (:predicates (q)) (:action a :effect (and{literals})))"
    )?)
}

#[test]
fn too_many_literals_are_told(rt: HostRuntime) -> Result<(), Fail> {
    let domain = many_literals(rt.alloc())?;
    let line = "grd: domain: byte 49: too many literals\n";
    expect_fault_of_many(&rt, rt.alloc(), domain.as_str(), line)
}

#[test]
fn too_many_objects_are_told(rt: HostRuntime) -> Result<(), Fail> {
    let line = "grd: problem: byte 5079: too many objects\n";
    expect_fault_of_many(&rt, rt.alloc(), PAIRS, line)
}

/// The words of `cost` with the least limit.
const NARROW: &str = "cost --domain d --problem p --goals g --max-states 1";

/// What is told first, where the output fails as well and the limit on states is the least.
fn expect_first(
    rt: &impl Abort,
    alloc: Global,
    texts: Texts<'_>,
    code: u8,
    line: &str,
) -> Result<(), Fail> {
    let failing = Failing {
        out: 1,
        ..NO_FAILURE
    };
    expect_failing(rt, alloc, NARROW, texts, failing, ends(code, line))
}

/// Domains, problems and goals, the exit status and what is told. What comes first is told, where all that
/// comes later is at fault too.
const FIRST_FAULTS: &[(&str, &str, &str, u8, &str)] = &[
    ("(", "(", "(", 1, "grd: domain: byte 0: unclosed\n"),
    (ILL_TYPED, "(", "(", 1, "grd: problem: byte 0: unclosed\n"),
    (
        FORK,
        FORK_START,
        "(atl)",
        4,
        "grd: limit: more than 1 states near goal 1\n",
    ),
    (FORK, FORK_START, "(at0)", 6, "grd: output: write failed\n"),
];

#[test]
fn first_of_all_faults_is_told(rt: HostRuntime) -> Result<(), Fail> {
    for (domain, problem, goals, code, line) in FIRST_FAULTS {
        let texts = Texts {
            domain,
            problem,
            goals,
        };
        expect_first(&rt, rt.alloc(), texts, *code, line)?;
    }
    Ok(())
}

/// The same over 102 objects.
const FIRST_FAULTS_OF_MANY: &[(&str, &str, &str)] = &[
    (ILL_TYPED, "(", "grd: domain: byte 38: unknown type\n"),
    (LARGE, "(", "grd: goals: line 1: shape\n"),
    (LARGE, "(p o0 o1)", "grd: 10404 atoms, limit 3072\n"),
    (TRIPLES, "(p)", "grd: 1061208 actions, limit 1048576\n"),
];

#[test]
fn first_of_all_faults_over_many_objects_is_told(rt: HostRuntime) -> Result<(), Fail> {
    let problem = many_objects(rt.alloc(), 102)?;
    for (domain, goals, line) in FIRST_FAULTS_OF_MANY {
        let texts = Texts {
            domain,
            problem: problem.as_str(),
            goals,
        };
        expect_first(&rt, rt.alloc(), texts, 1, line)?;
    }
    Ok(())
}
