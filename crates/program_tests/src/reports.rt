// The reports of costs and of common sequences, and the canonical texts.
use crate::runs::{NO_FAILURE, done, expect_run, run_on};
use crate::samples::{
    COST, DOORS, DOORS_START, FORK, FORK_START, GRID, GUARD, GUARD_START, KEEP, KEEP_START, LADDER,
    LADDER_START, LAMP, LAMP_SHOWN, LAMP_START, LOOSE, LOOSE_START, PAIR, PAIR_SHOWN, PAIR_START,
    ROOMS, ROOMS_SHOWN, ROOMS_START, ROOMS_START_SHOWN, SHORT, SHORT_SHOWN, SHORT_START, SHOW,
    TWICE, TWICE_START, Texts, WCD, fork, grid_start, repeated,
};
use std::alloc::Global;
use std::test::Fail;

/// Domains, problems and goals, and their reports.
const COSTS: &[(&str, &str, &str, &str)] = &[
    (
        FORK,
        FORK_START,
        "(atl)",
        "goals 1\ngoal 1 cost 3 (a) (b) (l)\n",
    ),
    (
        FORK,
        FORK_START,
        "(atl)\n(at0), (atl)",
        "goals 2\ngoal 1 cost 3 (a) (b) (l)\ngoal 2 cost none\n",
    ),
    (
        FORK,
        FORK_START,
        "(atr)\n; at the start\n(AT0)\r\n\r\n(at0), (atl)\n(at2)",
        "goals 4\ngoal 1 cost 3 (a) (b) (r)\ngoal 2 cost 0\ngoal 3 cost none\ngoal 4 cost 2 (a) (b)\n",
    ),
    (KEEP, KEEP_START, "(p), (q)", "goals 1\ngoal 1 cost 1 (t)\n"),
    (
        LADDER,
        LADDER_START,
        "(high)",
        "goals 1\ngoal 1 cost 1 (jump)\n",
    ),
    (
        DOORS,
        DOORS_START,
        "(inside)(inside)\n(open) (inside)\n(shut) (inside)",
        "goals 3\ngoal 1 cost 1 (enter)\ngoal 2 cost 1 (enter)\ngoal 3 cost none\n",
    ),
    (
        LOOSE,
        LOOSE_START,
        "(high)\n(high)(middle)",
        "goals 2\ngoal 1 cost 2 (start) (top)\ngoal 2 cost 3 (start) (top) (start)\n",
    ),
    (
        LAMP,
        LAMP_START,
        "(on)\n(done)",
        "goals 2\ngoal 1 cost 1 (light)\ngoal 2 cost 2 (light) (end)\n",
    ),
    (
        PAIR,
        PAIR_START,
        "(has o1)\n(has o2)",
        "goals 2\ngoal 1 cost 0\ngoal 2 cost 1 (give o1 o2)\n",
    ),
    (TWICE, TWICE_START, "(q)", "goals 1\ngoal 1 cost 1 (t)\n"),
    (
        GUARD,
        GUARD_START,
        "(been vault)\n(been hall)\n(been gate)\n(in hall)\n(not gate)\n(alarm vault)",
        "goals 6\ngoal 1 cost none\ngoal 2 cost 2 (go gate hall) (stay hall hall)\ngoal 3 cost none\ngoal 4 cost 1 (go gate hall)\ngoal 5 cost none\ngoal 6 cost 0\n",
    ),
];

#[test]
fn costs_and_plans_are_printed(rt: HostRuntime) -> Result<(), Fail> {
    for (domain, problem, goals, report) in COSTS {
        let texts = Texts {
            domain,
            problem,
            goals,
        };
        expect_run(&rt, rt.alloc(), COST, texts, done(report))?;
    }
    Ok(())
}

#[test]
fn costs_over_a_grid_are_printed(rt: HostRuntime) -> Result<(), Fail> {
    let problem = grid_start(rt.alloc())?;
    for (goals, report) in [
        ("(at c3-2)\n", "goals 1\ngoal 1 cost 1 (move c3-1 c3-2)\n"),
        ("(connected c1-1 c1-2)\n", "goals 1\ngoal 1 cost 0\n"),
        ("(connected c1-1 c1-3)\n", "goals 1\ngoal 1 cost none\n"),
    ] {
        let texts = Texts {
            domain: GRID,
            problem: problem.as_str(),
            goals,
        };
        expect_run(&rt, rt.alloc(), COST, texts, done(report))?;
    }
    Ok(())
}

/// Goals over fork, and their reports.
const COMMON: &[(&str, &str)] = &[
    (
        "(atl)\n(atr)\n",
        "goals 2\ngoal 1 cost 3 (a) (b) (l)\ngoal 2 cost 3 (a) (b) (r)\n\
        wcd 2 goals 1 2\nprefix (a) (b)\nplan 1 (a) (b) (l)\nplan 2 (a) (b) (r)\n",
    ),
    (
        "(atl)\n(atl)\n",
        "goals 2\ngoal 1 cost 3 (a) (b) (l)\ngoal 2 cost 3 (a) (b) (l)\n\
        wcd 3 goals 1 2\nprefix (a) (b) (l)\nplan 1 (a) (b) (l)\nplan 2 (a) (b) (l)\n",
    ),
    (
        "(at0)\n(atl)\n",
        "goals 2\ngoal 1 cost 0\ngoal 2 cost 3 (a) (b) (l)\n\
        wcd 0 goals 1 2\nprefix\nplan 1\nplan 2 (a) (b) (l)\n",
    ),
    (
        "(atl)\n(at0), (atl)\n",
        "goals 2\ngoal 1 cost 3 (a) (b) (l)\ngoal 2 cost none\nwcd none\n",
    ),
    ("(at1)\n", "goals 1\ngoal 1 cost 1 (a)\nwcd none\n"),
    (
        "(at0)\n(atl)\n(atr)\n",
        "goals 3\ngoal 1 cost 0\ngoal 2 cost 3 (a) (b) (l)\ngoal 3 cost 3 (a) (b) (r)\n\
        wcd 2 goals 2 3\nprefix (a) (b)\nplan 2 (a) (b) (l)\nplan 3 (a) (b) (r)\n",
    ),
];

#[test]
fn longest_common_sequences_are_printed(rt: HostRuntime) -> Result<(), Fail> {
    for (goals, report) in COMMON {
        expect_run(&rt, rt.alloc(), WCD, fork(goals), done(report))?;
    }
    Ok(())
}

/// Domains, problems and goals with negative preconditions and equalities, and their reports.
const COMMON_WITH_NEGATIONS: &[(&str, &str, &str, &str)] = &[
    (
        LAMP,
        LAMP_START,
        "(on)\n(done)\n",
        "goals 2\ngoal 1 cost 1 (light)\ngoal 2 cost 2 (light) (end)\n\
        wcd 1 goals 1 2\nprefix (light)\nplan 1 (light)\nplan 2 (light) (end)\n",
    ),
    (
        PAIR,
        PAIR_START,
        "(has o1)\n(has o2)\n",
        "goals 2\ngoal 1 cost 0\ngoal 2 cost 1 (give o1 o2)\n\
        wcd 0 goals 1 2\nprefix\nplan 1\nplan 2 (give o1 o2)\n",
    ),
    (
        GUARD,
        GUARD_START,
        "(been hall)\n(in hall)\n(been vault)\n",
        "goals 3\ngoal 1 cost 2 (go gate hall) (stay hall hall)\ngoal 2 cost 1 (go gate hall)\ngoal 3 cost none\n\
        wcd 1 goals 1 2\nprefix (go gate hall)\nplan 1 (go gate hall) (stay hall hall)\nplan 2 (go gate hall)\n",
    ),
];

#[test]
fn longest_common_sequences_with_negations_are_printed(rt: HostRuntime) -> Result<(), Fail> {
    for (domain, problem, goals, report) in COMMON_WITH_NEGATIONS {
        let texts = Texts {
            domain,
            problem,
            goals,
        };
        expect_run(&rt, rt.alloc(), WCD, texts, done(report))?;
    }
    Ok(())
}

/// The exit status of a run over so many equal goals, and whether its report begins and goes on so.
fn many_goals(alloc: Global, count: usize, begin: &str, part: &str) -> Result<(u8, bool), Fail> {
    let goals = repeated(alloc, "(atl)\n", count)?;
    let outcome = run_on(alloc, WCD, fork(goals.as_str()), NO_FAILURE)?;
    let report = outcome.out.as_str();
    Ok((
        outcome.code,
        report.starts_with(begin) && report.contains(part),
    ))
}

// Which two of the goals are named is not promised.
#[test]
fn goals_may_be_32(rt: HostRuntime) -> Result<(), Fail> {
    let begin = "goals 32\ngoal 1 cost 3 (a) (b) (l)\n";
    let found = many_goals(rt.alloc(), 32, begin, "\nwcd 3 goals ")?;
    assert_eq!(rt; found, (0, true));
    Ok(())
}

#[test]
fn canonical_texts_are_printed(rt: HostRuntime) -> Result<(), Fail> {
    let rooms = format!(in rt.alloc(); "{ROOMS_SHOWN}{ROOMS_START_SHOWN}")?;
    for (domain, problem, shown) in [
        (SHORT, SHORT_START, SHORT_SHOWN),
        (ROOMS, ROOMS_START, rooms.as_str()),
        (ROOMS_SHOWN, ROOMS_START_SHOWN, rooms.as_str()),
        (LAMP, LAMP_START, LAMP_SHOWN),
        (PAIR, PAIR_START, PAIR_SHOWN),
    ] {
        let texts = Texts {
            domain,
            problem,
            goals: "",
        };
        expect_run(&rt, rt.alloc(), SHOW, texts, done(shown))?;
    }
    Ok(())
}
