// Chains of actions, each of which leads from one atom to the next: as many atoms as states of each width hold,
// and one more. In some each action needs besides that the atom to which it leads is false.
use crate::runs::{done, expect_run};
use crate::samples::{COST, Texts};
use std::alloc::Global;
use std::fmt::Write;
use std::process::Abort;
use std::test::Fail;

/// Writes the action that leads to the atom with this number from the one before. It may need besides that the
/// atom is false.
fn push_step(actions: &mut String, number: u32, needs_false: bool) -> Result<(), Fail> {
    let before = number.saturating_sub(1);
    write!(actions, "(:action m{number} :parameters () ")?;
    if needs_false {
        write!(actions, ":precondition (and (not (p{number})) ")?;
        write!(actions, "(p{before})) ")?;
    } else {
        write!(actions, ":precondition (p{before}) ")?;
    }
    write!(actions, ":effect (and (p{number}) ")?;
    write!(actions, "(not (p{before}))))\n")?;
    Ok(())
}

/// The domain of the chain of so many atoms.
fn chain(alloc: Global, atoms: u32, needs_false: bool) -> Result<String, Fail> {
    let mut predicates = String::new(alloc);
    let mut actions = String::new(alloc);
    for number in 0..atoms {
        write!(predicates, "(p{number})")?;
        if number > 0 {
            push_step(&mut actions, number, needs_false)?;
        }
    }
    Ok(format!(in alloc; "(define (domain chain) (:predicates {predicates})\n{actions})")?)
}

/// The first steps of a chain, so many.
fn steps(alloc: Global, count: u32) -> Result<String, Fail> {
    let mut steps = String::new(alloc);
    for number in 1..count.saturating_add(1) {
        write!(steps, " (m{number})")?;
    }
    Ok(steps)
}

/// The cost of reaching an atom of the chain of so many atoms is its number, with the steps that lead there.
fn expect_cost(
    rt: &impl Abort,
    alloc: Global,
    atoms: u32,
    goal: u32,
    needs_false: bool,
) -> Result<(), Fail> {
    let domain = chain(alloc, atoms, needs_false)?;
    let goals = format!(in alloc; "(p{goal})")?;
    let steps = steps(alloc, goal)?;
    let report = format!(in alloc; "goals 1\ngoal 1 cost {goal}{steps}\n")?;
    let texts = Texts {
        domain: domain.as_str(),
        problem: "(define (problem p) (:domain chain) (:init (p0)))",
        goals: goals.as_str(),
    };
    expect_run(rt, alloc, COST, texts, done(report.as_str()))
}

/// How many atoms, and the goal's atom.
const CHAINS: &[(u32, u32)] = &[
    (64, 63),
    (65, 64),
    (64, 1),
    (65, 1),
    (128, 1),
    (129, 1),
    (256, 1),
    (257, 1),
    (512, 1),
    (513, 1),
    (1024, 1),
    (1025, 1),
    (2048, 1),
    (2049, 1),
    (3072, 1),
];

#[test]
fn chains_of_every_width_are_followed(rt: HostRuntime) -> Result<(), Fail> {
    for (atoms, goal) in CHAINS {
        expect_cost(&rt, rt.alloc(), *atoms, *goal, false)?;
    }
    Ok(())
}

/// The same, where all atoms but the first have complements, which take the place of as many atoms more.
const WATCHED_CHAINS: &[(u32, u32)] = &[
    (64, 63),
    (65, 64),
    (64, 1),
    (65, 1),
    (128, 1),
    (129, 1),
    (256, 1),
    (257, 1),
    (512, 1),
    (513, 1),
    (1024, 1),
    (1025, 1),
    (1536, 1),
];

#[test]
fn chains_with_complements_are_followed(rt: HostRuntime) -> Result<(), Fail> {
    for (atoms, goal) in WATCHED_CHAINS {
        expect_cost(&rt, rt.alloc(), *atoms, *goal, true)?;
    }
    Ok(())
}
