// The limits: of the bytes of a file, of the atoms and actions of a world, and of states.
use crate::runs::{NO_FAILURE, Wanted, done, ends, expect_run, run_on};
use crate::samples::{
    COST, FORK, FORK_START, PAIRS, SHOW, TRIPLES, Texts, WATCHED, fork, many_objects, padded,
    switches, traps,
};
use std::alloc::Global;
use std::process::Abort;
use std::test::Fail;

/// `cost` over a domain and so many objects, with a goal that holds at the start, ends as is wanted.
fn expect_world(
    rt: &impl Abort,
    alloc: Global,
    domain: &str,
    count: u32,
    wanted: Wanted<'_>,
) -> Result<(), Fail> {
    let problem = many_objects(alloc, count)?;
    let texts = Texts {
        domain,
        problem: problem.as_str(),
        goals: "(q)",
    };
    expect_run(rt, alloc, COST, texts, wanted)
}

/// Domains, numbers of objects, the exit status, and what is printed and told.
const WORLDS: &[(&str, u32, u8, &str, &str)] = &[
    (PAIRS, 55, 0, "goals 1\ngoal 1 cost 0\n", ""),
    (PAIRS, 56, 1, "", "grd: 3136 atoms, limit 3072\n"),
    (WATCHED, 39, 0, "goals 1\ngoal 1 cost 0\n", ""),
    (WATCHED, 40, 1, "", "grd: 3200 atoms, limit 3072\n"),
    (TRIPLES, 101, 0, "goals 1\ngoal 1 cost 0\n", ""),
    (TRIPLES, 102, 1, "", "grd: 1061208 actions, limit 1048576\n"),
];

#[test]
fn worlds_are_refused_by_their_counts(rt: HostRuntime) -> Result<(), Fail> {
    for (domain, count, code, out, err) in WORLDS {
        let wanted = Wanted {
            code: *code,
            out,
            err,
        };
        expect_world(&rt, rt.alloc(), domain, *count, wanted)?;
    }
    Ok(())
}

/// Words over fork and one goal end as is wanted, where spaces behind the domain and the goal fill up
/// their files to so many bytes.
fn expect_padded(
    rt: &impl Abort,
    alloc: Global,
    words: &str,
    domain_bytes: usize,
    goals_bytes: usize,
    wanted: Wanted<'_>,
) -> Result<(), Fail> {
    let domain = padded(alloc, FORK, ' ', domain_bytes)?;
    let goals = padded(alloc, "(at1)", ' ', goals_bytes)?;
    let texts = Texts {
        domain: domain.as_str(),
        problem: FORK_START,
        goals: goals.as_str(),
    };
    expect_run(rt, alloc, words, texts, wanted)
}

const FORK_SHOWN: &str = "(define (domain fork)
(:requirements :strips :typing)
(:predicates (at0) (at1) (at2) (atl) (atr))
(:action a
:parameters ()
:precondition (and (at0))
:effect (and (at1) (not (at0))))
(:action b
:parameters ()
:precondition (and (at1))
:effect (and (at2) (not (at1))))
(:action l
:parameters ()
:precondition (and (at2))
:effect (and (atl) (not (at2))))
(:action r
:parameters ()
:precondition (and (at2))
:effect (and (atr) (not (at2))))
)
(define (problem p)
(:domain fork)
(:init (at0))
(:goal (and)))
";

const MOST: usize = 1 << 20;

const MORE: usize = (1 << 20) + 1;

const ONE_STEP: &str = "goals 1\ngoal 1 cost 1 (a)\n";

/// Words, the bytes of the domain's and the goals' file, the exit status, and what is printed and told.
const SIZES: &[(&str, usize, usize, u8, &str, &str)] = &[
    (COST, MOST, MOST, 0, ONE_STEP, ""),
    (SHOW, MOST, MOST, 0, FORK_SHOWN, ""),
    (
        COST,
        0,
        MORE,
        1,
        "",
        "grd: goals: longer than 1048576 bytes\n",
    ),
    (
        COST,
        MORE,
        MORE,
        1,
        "",
        "grd: domain: longer than 1048576 bytes\n",
    ),
    (
        SHOW,
        MORE,
        MORE,
        1,
        "",
        "grd: domain: longer than 1048576 bytes\n",
    ),
];

#[test]
fn files_have_at_most_2_to_the_20_bytes(rt: HostRuntime) -> Result<(), Fail> {
    for (words, domain_bytes, goals_bytes, code, out, err) in SIZES {
        let wanted = Wanted {
            code: *code,
            out,
            err,
        };
        expect_padded(&rt, rt.alloc(), words, *domain_bytes, *goals_bytes, wanted)?;
    }
    Ok(())
}

/// A command over fork with a limit on states ends with the code, and tells this.
fn expect_end(
    rt: &impl Abort,
    alloc: Global,
    command: &str,
    goals: &str,
    states: u32,
    code: u8,
    line: &str,
) -> Result<(), Fail> {
    let words = format!(in alloc;
        "{command} --domain d --problem p --goals g --max-states {states}"
    )?;
    let outcome = run_on(alloc, words.as_str(), fork(goals), NO_FAILURE)?;
    assert_eq!(rt;
        (outcome.code, outcome.err.as_str()),
        (code, line),
        "{words} {goals}"
    );
    Ok(())
}

/// Commands, goals over fork, limits on states, the exit status, and what is told.
const STATES: &[(&str, &str, u32, u8, &str)] = &[
    (
        "cost",
        "(atl)",
        1,
        4,
        "grd: limit: more than 1 states near goal 1\n",
    ),
    (
        "cost",
        "(at0)\n(atl)",
        1,
        4,
        "grd: limit: more than 1 states near goal 2\n",
    ),
    ("cost", "(at0)\n(atl)", 5, 0, ""),
    // No state but the first has a level for both atoms.
    ("cost", "(at0), (atl)\n(at0)", 1, 0, ""),
    ("wcd", "(at0)\n(atl)", 5, 0, ""),
    // Five states are within the three steps of its plan, and `cost` finds it with fewer.
    (
        "wcd",
        "(at0)\n(atl)",
        4,
        4,
        "grd: limit: more than 4 states near goal 2\n",
    ),
];

#[test]
fn goal_that_meets_the_limit_is_told(rt: HostRuntime) -> Result<(), Fail> {
    for (command, goals, states, code, line) in STATES {
        expect_end(&rt, rt.alloc(), command, goals, *states, *code, line)?;
    }
    Ok(())
}

// The third goal has no plan, but a level at each state: all states that are reached count.
#[test]
fn limit_that_holds_where_none_is_given_is_told(rt: HostRuntime) -> Result<(), Fail> {
    let domain = switches(rt.alloc())?;
    let texts = Texts {
        domain: domain.as_str(),
        problem: "(define (problem p) (:domain switches) (:init) (:goal (and <hypothesis>)))",
        goals: "(never)\n(p0)(p15)\n(left)(right)\n",
    };
    let wanted = ends(4, "grd: limit: more than 100000 states near goal 3\n");
    expect_run(&rt, rt.alloc(), COST, texts, wanted)
}

// The states from which nothing leads on have no level.
#[test]
fn dead_ends_are_not_counted(rt: HostRuntime) -> Result<(), Fail> {
    let domain = traps(rt.alloc())?;
    let texts = Texts {
        domain: domain.as_str(),
        problem: "(define (problem p) (:domain traps) (:init (at0)) (:goal (and <hypothesis>)))",
        goals: "(atl)",
    };
    let words = "cost --domain d --problem p --goals g --max-states 4";
    let wanted = done("goals 1\ngoal 1 cost 3 (a) (b) (l)\n");
    expect_run(&rt, rt.alloc(), words, texts, wanted)
}
