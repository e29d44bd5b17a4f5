use crate::parts::put_number;
use crate::samples::{GRID, LAMP, LAMP_PROBLEM, PAIR, PAIR_PROBLEM, SHOP, SHOP_PROBLEM};
use crate::typed::typed_task;
use grd_base::{ActionId, AtomId};
use ground_all::ground;
use std::alloc::Global;
use std::fmt::Write;
use std::test::Fail;

/// How many atoms and actions a world has, and how many of the actions are not blocked; or its fault.
fn sizes(alloc: Global, domain: &str, problem: &str) -> Result<String, Fail> {
    let typed = typed_task(alloc, domain, problem)?;
    let mut out = String::new(alloc);
    match ground(alloc, &typed, &[]) {
        Err(fault) => write!(out, "{fault}")?,
        Ok(world) => {
            let task = world.task();
            let mut free = 0u32;
            for action in &task.actions {
                if !action.blocked {
                    free = free.saturating_add(1);
                }
            }
            put_number(&mut out, "", task.atoms)?;
            out.push_str(" ")?;
            write!(out, "{}", task.actions.len())?;
            put_number(&mut out, " ", free)?;
        }
    }
    Ok(out)
}

/// With negative preconditions on what is fluent and on what is static, and an equality.
const VARIOUS: &str = "(define (domain d) (:types t u)\n\
(:predicates (p ?x - t) (r ?x - u) (s) (h))\n\
(:action a :parameters (?x - t ?y - u) :precondition (and (not (r ?y)) (not (s)))\n\
:effect (and (not (p ?x)) (r ?y)))\n\
(:action b :parameters (?y ?z - u) :precondition (and (not (= ?y ?z)) (not (h)))\n\
:effect (and (not (r ?y)) (r ?z) (not (h)))))";

const VARIOUS_PROBLEM: &str =
    "(define (problem p) (:domain d) (:objects x - t y z - u) (:init (r z)))";

/// Domains and problems, and the sizes of their world.
const WORLDS: &[(&str, &str, &str)] = &[
    (
        "(define (domain d) (:predicates (on))(:action a :effect (on)))",
        "(define (problem p) (:domain d) (:init))",
        "1 1 1",
    ),
    (
        "(define (domain d) (:predicates (on) (off))(:action a :precondition (off) :effect (on)))",
        "(define (problem p) (:domain d) (:init))",
        "1 1 0",
    ),
    (
        "(define (domain d) (:types t u)(:predicates (p ?x - t))(:action a :parameters (?x - t) :effect (p ?x)))",
        "(define (problem p) (:domain d) (:objects o - u)(:init))",
        "0 0 0",
    ),
    (
        "(define (domain d) (:types t u)(:predicates (p ?x - (either t u)))(:action a :parameters (?x - (either t u)) :effect (p ?x)))",
        "(define (problem p) (:domain d) (:objects o - t q - u r)(:init))",
        "2 2 2",
    ),
    (
        "(define (domain d) (:constants k)(:predicates (p ?x ?y) (q ?x))(:action a :parameters (?x) :precondition (q ?x) :effect (and (p k ?x) (not (p ?x k)))))",
        "(define (problem p) (:domain d) (:objects o q)(:init (q o) (q q) (q o)))",
        "9 3 2",
    ),
    (
        "(define (domain d) (:types t)(:predicates (p))(:action a :parameters (?x - t) :effect (p)))",
        "(define (problem p) (:domain d) (:init))",
        "1 0 0",
    ),
    (LAMP, LAMP_PROBLEM, "3 3 3"),
    (PAIR, PAIR_PROBLEM, "2 4 2"),
    (VARIOUS, VARIOUS_PROBLEM, "7 6 4"),
    (
        "(define (domain d) (:predicates (on) (off))(:action a :precondition (not (off)) :effect (on)))",
        "(define (problem p) (:domain d) (:init))",
        "1 1 1",
    ),
    (
        "(define (domain d) (:predicates (on) (off))(:action a :precondition (not (off)) :effect (on)))",
        "(define (problem p) (:domain d) (:init (off)))",
        "1 1 0",
    ),
    // It never applies, but nothing static blocks it.
    (
        "(define (domain d) (:predicates (on))(:action a :precondition (and (on) (not (on))) :effect (on)))",
        "(define (problem p) (:domain d) (:init))",
        "2 1 1",
    ),
    (
        "(define (domain d) (:constants k)(:predicates (p ?x ?y))(:action a :parameters (?x ?y) :precondition (and (not (p ?x k)) (= ?x ?y)) :effect (p ?x k)))",
        "(define (problem p) (:domain d) (:objects o q)(:init))",
        "18 9 3",
    ),
    (
        "(define (domain d) (:constants k)(:predicates (p ?x))(:action a :parameters (?x) :precondition (not (= k ?x)) :effect (p ?x)))",
        "(define (problem p) (:domain d) (:objects o q)(:init))",
        "3 3 2",
    ),
];

#[test]
fn worlds_have_their_sizes(rt: HostRuntime) -> Result<(), Fail> {
    for (domain, problem, want) in WORLDS {
        let found = sizes(rt.alloc(), domain, problem)?;
        assert_eq!(rt; found.as_str(), *want, "{domain}");
    }
    Ok(())
}

/// The sizes of a domain's world with so many objects, and a start without atoms.
fn sizes_at(alloc: Global, domain: &str, count: u32) -> Result<String, Fail> {
    let mut problem = String::from_str(alloc, "(define (problem p) (:domain d) (:objects")?;
    for number in 0..count {
        put_number(&mut problem, " o", number)?;
    }
    problem.push_str(") (:init))")?;
    sizes(alloc, domain, problem.as_str())
}

const PAIRS: &str = "(define (domain d) (:predicates (p ?x ?y))\n\
(:action a :parameters (?x) :effect (p ?x ?x)))";

const TRIPLES: &str = "(define (domain d) (:predicates (p) (q ?x))\n\
(:action a :parameters (?x ?y ?z) :precondition (q ?x) :effect (p)))";

/// Each atom has a complement.
const WATCHED: &str = "(define (domain d) (:predicates (p ?x ?y))\n\
(:action a :parameters (?x) :precondition (not (p ?x ?x)) :effect (p ?x ?x)))";

/// One in two atoms has a complement.
const HALF_WATCHED: &str = "(define (domain d) (:predicates (p ?x ?y) (q ?x ?y))\n\
(:action a :parameters (?x) :precondition (not (q ?x ?x)) :effect (and (p ?x ?x) (q ?x ?x))))";

/// Domains with a number of objects, and the sizes of their world.
const LIMITS: &[(&str, u32, &str)] = &[
    (PAIRS, 55, "3025 55 55"),
    (PAIRS, 56, "3136 atoms, limit 3072"),
    (TRIPLES, 101, "1 1030301 0"),
    (TRIPLES, 102, "1061208 actions, limit 1048576"),
    (WATCHED, 39, "3042 39 39"),
    (WATCHED, 40, "3200 atoms, limit 3072"),
    (HALF_WATCHED, 32, "3072 32 32"),
    (HALF_WATCHED, 33, "3267 atoms, limit 3072"),
];

#[test]
fn counts_are_exact_at_their_limits(rt: HostRuntime) -> Result<(), Fail> {
    for (domain, count, want) in LIMITS {
        assert_eq!(rt; sizes_at(rt.alloc(), domain, *count)?.as_str(), *want);
    }
    Ok(())
}

/// A cell of a board of five rows and columns, which are counted from 1.
fn put_cell(text: &mut String, cell: u32) -> Result<(), Fail> {
    put_number(text, " c", cell / 5 + 1)?;
    put_number(text, "-", cell % 5 + 1)
}

/// The steps from a cell to its neighbours, where there are no walls.
fn put_links(text: &mut String, from: u32) -> Result<(), Fail> {
    for to in 0..25u32 {
        let apart = from.abs_diff(to);
        if apart == 5 || apart == 1 && from / 5 == to / 5 {
            text.push_str(" (connected")?;
            put_cell(text, from)?;
            put_cell(text, to)?;
            text.push_str(")")?;
        }
    }
    Ok(())
}

/// The board without walls, from the middle of its first column.
fn board(alloc: Global) -> Result<String, Fail> {
    let mut text = String::from_str(alloc, "(define (problem made) (:domain grid) (:objects")?;
    for cell in 0..25u32 {
        put_cell(&mut text, cell)?;
    }
    text.push_str(" - cell) (:init (at c3-1)")?;
    for cell in 0..25u32 {
        put_links(&mut text, cell)?;
    }
    text.push_str("))")?;
    Ok(text)
}

#[test]
fn board_has_an_atom_a_cell(rt: HostRuntime) -> Result<(), Fail> {
    let problem = board(rt.alloc())?;
    let found = sizes(rt.alloc(), GRID, problem.as_str())?;
    assert_eq!(rt; found.as_str(), "25 625 80");
    Ok(())
}

fn atom_names(alloc: Global, domain: &str, problem: &str) -> Result<String, Fail> {
    let typed = typed_task(alloc, domain, problem)?;
    let world = ground(alloc, &typed, &[])?;
    let mut out = String::new(alloc);
    let mut text = [b' '; 40];
    for number in 0..world.task().atoms {
        let len = world.atom_name_len(AtomId(number));
        if len > 40 {
            return Err("a long name".into());
        }
        let written = world.atom_name(AtomId(number), &mut text);
        if written != len {
            return Err("another length".into());
        }
        out.push_str(str::from_utf8(&text[..written])?)?;
    }
    Ok(out)
}

fn action_names(alloc: Global, domain: &str, problem: &str) -> Result<String, Fail> {
    let typed = typed_task(alloc, domain, problem)?;
    let world = ground(alloc, &typed, &[])?;
    let mut out = String::new(alloc);
    let mut text = [b' '; 40];
    for number in 0..world.task().actions.len() {
        let a = ActionId(number as u32);
        let len = world.action_name_len(a);
        if len > 40 {
            return Err("a long name".into());
        }
        let written = world.action_name(a, &mut text);
        if written != len {
            return Err("another length".into());
        }
        out.push_str(str::from_utf8(&text[..written])?)?;
    }
    Ok(out)
}

/// Domains and problems, and the names of the atoms and of the actions.
const NAMES: &[(&str, &str, &str, &str)] = &[
    (
        SHOP,
        SHOP_PROBLEM,
        "(open)(in tea door)(in tea shelf)(seen door)(seen shelf)",
        "(go door door)(go door shelf)(go shelf door)(go shelf shelf)(put tea)",
    ),
    (
        LAMP,
        LAMP_PROBLEM,
        "(on)(done)(not (on))",
        "(light)(end)(dark)",
    ),
    (
        PAIR,
        PAIR_PROBLEM,
        "(has o1)(has o2)",
        "(give o1 o1)(give o1 o2)(give o2 o1)(give o2 o2)",
    ),
    (
        VARIOUS,
        VARIOUS_PROBLEM,
        "(p x)(r y)(r z)(h)(not (r y))(not (r z))(not (h))",
        "(a x y)(a x z)(b y y)(b y z)(b z y)(b z z)",
    ),
];

#[test]
fn names_are_written_by_number(rt: HostRuntime) -> Result<(), Fail> {
    for (domain, problem, atoms, actions) in NAMES {
        let found = atom_names(rt.alloc(), domain, problem)?;
        assert_eq!(rt; found.as_str(), *atoms);
        let found = action_names(rt.alloc(), domain, problem)?;
        assert_eq!(rt; found.as_str(), *actions);
    }
    Ok(())
}

/// The numbers of atoms, behind a text.
fn put_atoms(out: &mut String, front: &str, atoms: &[AtomId]) -> Result<(), Fail> {
    out.push_str(front)?;
    for atom in atoms {
        put_number(out, " ", atom.0)?;
    }
    Ok(())
}

/// What holds at the start of a task, and what each of its actions needs, adds and deletes.
fn task_of(alloc: Global, domain: &str, problem: &str) -> Result<String, Fail> {
    let typed = typed_task(alloc, domain, problem)?;
    let world = ground(alloc, &typed, &[])?;
    let task = world.task();
    let mut out = String::new(alloc);
    put_atoms(&mut out, "start", &task.init)?;
    for action in &task.actions {
        let front = if action.blocked {
            "\nblocked needs"
        } else {
            "\nneeds"
        };
        put_atoms(&mut out, front, &action.pre)?;
        put_atoms(&mut out, " adds", &action.add)?;
        put_atoms(&mut out, " deletes", &action.del)?;
    }
    Ok(out)
}

/// Domains and problems, and their tasks.
const TASKS: &[(&str, &str, &str)] = &[
    (
        LAMP,
        LAMP_PROBLEM,
        "start 2\n\
needs 2 adds 0 deletes 2\n\
needs 0 adds 1 deletes\n\
needs 0 adds 2 deletes 0",
    ),
    (
        PAIR,
        PAIR_PROBLEM,
        "start 0\n\
blocked needs 0 adds 0 deletes 0\n\
needs 0 adds 1 deletes 0\n\
needs 1 adds 0 deletes 1\n\
blocked needs 1 adds 1 deletes 1",
    ),
    (
        VARIOUS,
        VARIOUS_PROBLEM,
        "start 2 4 6\n\
needs 4 adds 1 deletes 0 4\n\
needs 5 adds 2 deletes 0 5\n\
blocked needs 6 adds 1 6 deletes 1 3 4\n\
needs 6 adds 2 4 6 deletes 1 3 5\n\
needs 6 adds 1 5 6 deletes 2 3 4\n\
blocked needs 6 adds 2 6 deletes 2 3 5",
    ),
    // What is deleted and added is true, so its complement is not.
    (
        "(define (domain d) (:predicates (q))(:action t :precondition (not (q)) :effect (and (q) (not (q)))))",
        "(define (problem p) (:domain d) (:init))",
        "start 1\n\
needs 1 adds 0 deletes 0 1",
    ),
];

#[test]
fn complements_are_needed_added_and_deleted(rt: HostRuntime) -> Result<(), Fail> {
    for (domain, problem, want) in TASKS {
        let found = task_of(rt.alloc(), domain, problem)?;
        assert_eq!(rt; found.as_str(), *want, "{domain}");
    }
    Ok(())
}
