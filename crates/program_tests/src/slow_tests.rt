// Random small tasks through `run`, against a slow calculation straight from the definitions.
use crate::runs::{NO_FAILURE, run_on};
use crate::samples::{Texts, WCD};
use std::alloc::Global;
use std::fmt::Write;
use std::process::Abort;
use std::test::Fail;

// The atoms are (p a), (p b), (q a) and (q b), with the bits 0 to 3; a state is its bits. An action's
// literals are (p ?x), (p ?y), (q ?x) and (q ?y), with the bits 0 to 3.
const ATOMS: [&str; 4] = ["(p a)", "(p b)", "(q a)", "(q b)"];

const LITERALS: [&str; 4] = ["(p ?x)", "(p ?y)", "(q ?x)", "(q ?y)"];

/// More steps than states.
const FAR: u32 = 99;

/// What a precondition says of the two parameters.
#[derive(Clone, Copy)]
enum Equality {
    Unsaid,
    Same,
    Different,
}

/// An action by its literals, of which those of absent stand under `not` in the precondition.
#[derive(Clone, Copy)]
struct Schema {
    pre: u32,
    absent: u32,
    equality: Equality,
    add: u32,
    del: u32,
}

/// A task of three actions, a start and two goals.
#[derive(Clone, Copy)]
struct SmallTask {
    actions: [Schema; 3],
    start: u32,
    goals: [u32; 2],
}

/// Four random bits.
fn four_bits(seed: &mut u64) -> u32 {
    *seed = (*seed % (1 << 31) * 1_103_515_245 + 12_345) % (1 << 31);
    (*seed >> 16) as u32 % 16
}

fn random_task(seed: &mut u64) -> SmallTask {
    let mut actions = [Schema {
        pre: 0,
        absent: 0,
        equality: Equality::Unsaid,
        add: 0,
        del: 0,
    }; 3];
    for at in 0..3 {
        actions[at] = Schema {
            pre: four_bits(seed) & four_bits(seed),
            absent: 0,
            equality: Equality::Unsaid,
            add: four_bits(seed) & four_bits(seed),
            del: four_bits(seed) & four_bits(seed),
        };
    }
    SmallTask {
        actions,
        start: four_bits(seed) & four_bits(seed),
        goals: [
            four_bits(seed) & four_bits(seed),
            four_bits(seed) & four_bits(seed),
        ],
    }
}

fn random_equality(seed: &mut u64) -> Equality {
    match four_bits(seed) % 3 {
        0 => Equality::Unsaid,
        1 => Equality::Same,
        _ => Equality::Different,
    }
}

/// A random task with negative preconditions and equalities.
fn random_negative_task(seed: &mut u64) -> SmallTask {
    let task = random_task(seed);
    let start = task.start;
    let goals = task.goals;
    let mut actions = task.actions;
    for at in 0..3 {
        let action = actions[at];
        actions[at] = Schema {
            absent: four_bits(seed) & four_bits(seed),
            equality: random_equality(seed),
            ..action
        };
    }
    SmallTask {
        actions,
        start,
        goals,
    }
}

/// Writes a text between two others, behind a space.
fn push_between(text: &mut String, before: &str, name: &str, behind: &str) -> Result<(), Fail> {
    text.push_str(" ")?;
    text.push_str(before)?;
    text.push_str(name)?;
    text.push_str(behind)?;
    Ok(())
}

/// Writes the texts whose bits are set.
fn put_set(
    text: &mut String,
    names: &[&str; 4],
    bits: u32,
    before: &str,
    behind: &str,
) -> Result<(), Fail> {
    for at in 0..4 {
        if bits >> at as u32 & 1 == 1 {
            push_between(text, before, names[at], behind)?;
        }
    }
    Ok(())
}

/// An equality as it stands in a precondition.
fn equality_text(equality: Equality) -> &'static str {
    match equality {
        Equality::Unsaid => "",
        Equality::Same => " (= ?x ?y)",
        Equality::Different => " (not (= ?x ?y))",
    }
}

fn domain_text(alloc: Global, task: &SmallTask) -> Result<String, Fail> {
    let mut text = format!(in alloc;
        "(define (domain d) (:types t) (:predicates (p ?x - t) (q ?x - t))"
    )?;
    for at in 0..3 {
        let action = task.actions[at];
        write!(
            text,
            "(:action a{at} :parameters (?x ?y - t) :precondition (and"
        )?;
        put_set(&mut text, &LITERALS, action.pre, "", "")?;
        put_set(&mut text, &LITERALS, action.absent, "(not ", ")")?;
        text.push_str(equality_text(action.equality))?;
        text.push_str(") :effect (and")?;
        put_set(&mut text, &LITERALS, action.add, "", "")?;
        put_set(&mut text, &LITERALS, action.del, "(not ", ")")?;
        text.push_str("))")?;
    }
    text.push_str(")")?;
    Ok(text)
}

fn problem_text(alloc: Global, task: &SmallTask) -> Result<String, Fail> {
    let mut text = format!(in alloc; "(define (problem r) (:domain d) (:objects a b - t) (:init")?;
    put_set(&mut text, &ATOMS, task.start, "", "")?;
    text.push_str("))")?;
    Ok(text)
}

fn goals_text(alloc: Global, task: &SmallTask) -> Result<String, Fail> {
    let mut text = String::new(alloc);
    put_set(&mut text, &ATOMS, task.goals[0], "", "")?;
    text.push_str("\n")?;
    put_set(&mut text, &ATOMS, task.goals[1], "", "")?;
    Ok(text)
}

/// The atoms of literals, where x and y have these objects.
fn atoms_of(literals: u32, x: u32, y: u32) -> u32 {
    let mut atoms = 0;
    for literal in 0..4u32 {
        if literals >> literal & 1 == 1 {
            let object = if literal % 2 == 0 { x } else { y };
            atoms |= 1u32 << (literal / 2 * 2 + object % 2);
        }
    }
    atoms
}

/// Whether the equality holds of these objects.
fn is_so(equality: Equality, x: u32, y: u32) -> bool {
    match equality {
        Equality::Unsaid => true,
        Equality::Same => x == y,
        Equality::Different => x != y,
    }
}

/// Whether the action applies in the state, where x and y have these objects.
fn applies(action: Schema, state: u32, x: u32, y: u32) -> bool {
    let pre = atoms_of(action.pre, x, y);
    let absent = atoms_of(action.absent, x, y);
    is_so(action.equality, x, y) && state & pre == pre && state & absent == 0
}

/// The states to which one step leads, as the bits of their numbers.
fn successors(task: &SmallTask, state: u32) -> u32 {
    let mut states = 0;
    for action in task.actions {
        for objects in 0..4u32 {
            let (x, y) = (objects / 2, objects % 2);
            if applies(action, state, x, y) {
                let next = state & !atoms_of(action.del, x, y) | atoms_of(action.add, x, y);
                states |= 1u32 << (next % 16);
            }
        }
    }
    states
}

/// For each state the least number of steps to the goal, or FAR.
fn distances(task: &SmallTask, goal: u32) -> [u32; 16] {
    let mut distances = [FAR; 16];
    for state in 0..16 {
        if state as u32 & goal == goal {
            distances[state] = 0;
        }
    }
    for _ in 0..16 {
        for state in 0..16 {
            let next = successors(task, state as u32);
            for other in 0..16 {
                if next >> other as u32 & 1 == 1 {
                    distances[state] = distances[state].min(distances[other].saturating_add(1));
                }
            }
        }
    }
    distances
}

/// The states to which one step leads from one of these.
fn all_successors(task: &SmallTask, states: u32) -> u32 {
    let mut next = 0;
    for state in 0..16u32 {
        if states >> state & 1 == 1 {
            next |= successors(task, state);
        }
    }
    next
}

/// Those of the states that after so many steps are as near to a goal of these distances as its cost allows.
fn near_states(states: u32, distances: &[u32; 16], start: u32, depth: u32) -> u32 {
    let cost = distances[start as usize % 16];
    let mut near = 0;
    for state in 0..16 {
        if distances[state].saturating_add(depth) == cost {
            near |= 1u32 << state as u32;
        }
    }
    states & near
}

/// The greatest number of steps after which both goals are still as near as their costs allow.
fn slow_wcd(task: &SmallTask, first: &[u32; 16], second: &[u32; 16]) -> u32 {
    let mut reached = 1u32 << (task.start % 16);
    let mut most = 0;
    for depth in 0..17u32 {
        let near = near_states(reached, first, task.start, depth);
        if near_states(near, second, task.start, depth) != 0 {
            most = depth;
        }
        reached = all_successors(task, reached);
    }
    most
}

fn put_cost(report: &mut String, goal: u32, cost: u32) -> Result<(), Fail> {
    if cost < FAR {
        write!(report, "goal {goal} cost {cost}\n")?;
    } else {
        write!(report, "goal {goal} cost none\n")?;
    }
    Ok(())
}

/// The report of `wcd` without the plans.
fn slow_report(alloc: Global, task: &SmallTask) -> Result<String, Fail> {
    let first = distances(task, task.goals[0]);
    let second = distances(task, task.goals[1]);
    let start = task.start as usize % 16;
    let mut report = format!(in alloc; "goals 2\n")?;
    put_cost(&mut report, 1, first[start])?;
    put_cost(&mut report, 2, second[start])?;
    if first[start] < FAR && second[start] < FAR {
        let most = slow_wcd(task, &first, &second);
        write!(report, "wcd {most} goals 1 2\nprefix\nplan 1\nplan 2\n")?;
    } else {
        report.push_str("wcd none\n")?;
    }
    Ok(report)
}

/// The lines of a report without their plans.
fn without_plans(alloc: Global, report: &str) -> Result<String, Fail> {
    let mut lines = String::new(alloc);
    for line in report.lines() {
        let kept = line.split_once(" (").map_or(line, |parts| parts.0);
        lines.push_str(kept)?;
        lines.push_str("\n")?;
    }
    Ok(lines)
}

/// The report of `wcd` by the program, without the plans.
fn found_report(alloc: Global, task: &SmallTask) -> Result<String, Fail> {
    let domain = domain_text(alloc, task)?;
    let problem = problem_text(alloc, task)?;
    let goals = goals_text(alloc, task)?;
    let texts = Texts {
        domain: domain.as_str(),
        problem: problem.as_str(),
        goals: goals.as_str(),
    };
    let outcome = run_on(alloc, WCD, texts, NO_FAILURE)?;
    without_plans(alloc, outcome.out.as_str())
}

/// The program answers the task as the slow calculation does.
fn expect_slow(
    rt: &impl Abort,
    alloc: Global,
    number: u32,
    mut task: SmallTask,
) -> Result<(), Fail> {
    // A goal has an atom.
    task.goals = [task.goals[0].max(1), task.goals[1].max(1)];
    let found = found_report(alloc, &task)?;
    let wanted = slow_report(alloc, &task)?;
    assert_eq!(rt; found.as_str(), wanted.as_str(), "task {number}");
    Ok(())
}

#[test]
fn random_tasks_are_answered_as_the_definitions_say(rt: HostRuntime) -> Result<(), Fail> {
    let mut seed = 1;
    for number in 0..200 {
        expect_slow(&rt, rt.alloc(), number, random_task(&mut seed))?;
    }
    Ok(())
}

#[test]
fn random_tasks_with_negations_are_answered_as_the_definitions_say(
    rt: HostRuntime,
) -> Result<(), Fail> {
    let mut seed = 2;
    for number in 0..200 {
        expect_slow(&rt, rt.alloc(), number, random_negative_task(&mut seed))?;
    }
    Ok(())
}
