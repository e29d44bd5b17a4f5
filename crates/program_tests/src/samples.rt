// The texts of the tasks that tests run over, and the words.
use std::alloc::{AllocError, Global};
use std::fmt::Write;
use std::test::Fail;

/// The texts of the three files.
#[derive(Clone, Copy)]
pub(crate) struct Texts<'a> {
    pub(crate) domain: &'a str,
    pub(crate) problem: &'a str,
    pub(crate) goals: &'a str,
}

pub(crate) const COST: &str = "cost --domain d --problem p --goals g";

pub(crate) const WCD: &str = "wcd --domain d --problem p --goals g";

pub(crate) const SHOW: &str = "show --domain d --problem p";

pub(crate) const FORK: &str = "(define (domain fork)
(:predicates (at0) (at1) (at2) (atl) (atr))
(:action a :parameters () :precondition (at0) :effect (and (at1) (not (at0))))
(:action b :parameters () :precondition (at1) :effect (and (at2) (not (at1))))
(:action l :parameters () :precondition (at2) :effect (and (atl) (not (at2))))
(:action r :parameters () :precondition (at2) :effect (and (atr) (not (at2)))))";

pub(crate) const FORK_START: &str =
    "(define (problem p) (:domain fork) (:init (at0)) (:goal (and <HYPOTHESIS>)))";

/// Fork with these goals.
pub(crate) fn fork(goals: &str) -> Texts<'_> {
    Texts {
        domain: FORK,
        problem: FORK_START,
        goals,
    }
}

pub(crate) const KEEP: &str = "; upper case, tabs and carriage returns\r
(DEFINE\t(domain K)\r
(:predicates (p) (q)) ; (r)\r
(:action T :parameters () :precondition (p) :effect (and (q) (not (p)) (p))))";

pub(crate) const KEEP_START: &str =
    "(define (problem z) (:domain k) (:init (P)) (:goal (and <hypothesis>)))";

/// Two steps up, or one jump, whose action comes last.
pub(crate) const LADDER: &str = "(define (domain ladder) (:predicates (low) (middle) (high))
(:action climb :parameters () :precondition (low) :effect (and (middle) (not (low))))
(:action reach :parameters () :precondition (middle) :effect (and (high) (not (middle))))
(:action jump :parameters () :precondition (and (low)) :effect (and (high) (not (low)))))";

pub(crate) const LADDER_START: &str =
    "(define (problem p) (:domain ladder) (:init (low)) (:goal (and <hypothesis>)))";

/// A door that is open and one that is shut, neither of which any action changes.
pub(crate) const DOORS: &str = "(define (domain doors)
(:predicates (open) (shut) (outside) (inside))
(:action break :parameters () :precondition (and (outside) (shut)) :effect (inside))
(:action enter :parameters () :precondition (and (open) (outside))
:effect (and (inside) (not (outside)) (inside))))";

pub(crate) const DOORS_START: &str =
    "(define (problem p) (:domain doors) (:init (outside) (open) (outside))
(:goal (and <hypothesis>)))";

/// Sections and parts in another order, some missing, and conditions that are nested or empty.
pub(crate) const LOOSE: &str = "(define (domain loose) (:requirements :typing :strips)
(:action top :effect (and () (and (high) (not (middle)))) :precondition (and (and (middle)) ()))
(:action rest)
(:action start :effect (middle))
(:predicates (middle) (high)))";

pub(crate) const LOOSE_START: &str =
    "(define (problem p) (:init) (:requirements :strips) (:domain loose))";

/// A lamp that is lit only where it is out.
pub(crate) const LAMP: &str = "(define (domain lamp) (:predicates (on) (done))
(:action light :precondition (not (on)) :effect (on))
(:action end :precondition (on) :effect (done))
(:action dark :precondition (on) :effect (not (on))))";

pub(crate) const LAMP_START: &str = "(define (problem p) (:domain lamp) (:init))";

pub(crate) const LAMP_SHOWN: &str = "(define (domain lamp)
(:requirements :strips :typing :negative-preconditions)
(:predicates (on) (done))
(:action light
:parameters ()
:precondition (and (not (on)))
:effect (and (on)))
(:action end
:parameters ()
:precondition (and (on))
:effect (and (done)))
(:action dark
:parameters ()
:precondition (and (on))
:effect (and (not (on))))
)
(define (problem p)
(:domain lamp)
(:init)
(:goal (and)))
";

/// What one has is given to another.
pub(crate) const PAIR: &str = "(define (domain pair) (:types t) (:predicates (has ?x - t))
(:action give :parameters (?a - t ?b - t)
:precondition (and (has ?a) (not (= ?a ?b)))
:effect (and (has ?b) (not (has ?a)))))";

pub(crate) const PAIR_START: &str =
    "(define (problem p) (:domain pair) (:objects o1 o2 - t) (:init (has o1)))";

pub(crate) const PAIR_SHOWN: &str = "(define (domain pair)
(:requirements :strips :typing :equality)
(:types t - object)
(:predicates (has ?x - t))
(:action give
:parameters (?a - t ?b - t)
:precondition (and (has ?a) (not (= ?a ?b)))
:effect (and (has ?b) (not (has ?a))))
)
(define (problem p)
(:domain pair)
(:objects o1 - t o2 - t)
(:init (has o1))
(:goal (and)))
";

/// The action needs that its atom is false, and both deletes and adds it.
pub(crate) const TWICE: &str = "(define (domain twice) (:predicates (q))
(:action t :precondition (not (q)) :effect (and (q) (not (q)))))";

pub(crate) const TWICE_START: &str = "(define (problem p) (:domain twice) (:init))";

/// A guard who moves on where no alarm is on, and not to the same room; and a predicate whose name is `not`.
pub(crate) const GUARD: &str = "(define (domain guard) (:constants gate vault)
(:predicates (in ?r) (been ?r) (alarm ?r) (not ?r))
(:action stay :parameters (?r ?s) :precondition (and (in ?r) (= ?r ?s) (not (= ?s gate)))
:effect (been ?s))
(:action go :parameters (?r ?s) :precondition (and (in ?r) (not (= ?r ?s)) (not (alarm ?s)))
:effect (and (in ?s) (not (in ?r)))))";

pub(crate) const GUARD_START: &str =
    "(define (problem p) (:domain guard) (:objects hall) (:init (in gate) (alarm vault)))";

pub(crate) const GRID: &str = "(define (domain grid)
(:requirements :strips :typing)
(:types cell - object)
(:predicates (at ?a - cell) (connected ?a - cell ?b - cell))
(:action move
:parameters (?a - cell ?b - cell)
:precondition (and (at ?a) (connected ?a ?b))
:effect (and (not (at ?a)) (at ?b)))
)
";

/// The rows of the grid, and its columns.
const SIDE: u32 = 5;

/// Writes a cell, behind a space.
fn push_cell(text: &mut String, row: u32, column: u32) -> Result<(), Fail> {
    write!(text, " c{row}")?;
    write!(text, "-{column}")?;
    Ok(())
}

/// Writes that a step leads from a cell to another.
fn push_link(text: &mut String, from: (u32, u32), to: (u32, u32)) -> Result<(), Fail> {
    text.push_str(" (connected")?;
    push_cell(text, from.0, from.1)?;
    push_cell(text, to.0, to.1)?;
    text.push_str(")")?;
    Ok(())
}

/// Writes the neighbours of a cell: above, below, left and right.
fn push_neighbours(text: &mut String, row: u32, column: u32) -> Result<(), Fail> {
    for (to_row, to_column) in [
        (row.saturating_sub(1), column),
        (row.saturating_add(1), column),
        (row, column.saturating_sub(1)),
        (row, column.saturating_add(1)),
    ] {
        if 1 <= to_row && to_row <= SIDE && 1 <= to_column && to_column <= SIDE {
            push_link(text, (row, column), (to_row, to_column))?;
        }
    }
    Ok(())
}

/// The problem of the grid, whose cells stand row by row.
pub(crate) fn grid_start(alloc: Global) -> Result<String, Fail> {
    let mut cells = String::new(alloc);
    let mut init = String::from_str(alloc, "(at c3-1)")?;
    for row in 1..SIDE + 1 {
        for column in 1..SIDE + 1 {
            push_cell(&mut cells, row, column)?;
            cells.push_str(" - cell")?;
            push_neighbours(&mut init, row, column)?;
        }
    }
    Ok(format!(in alloc;
        "(define (problem made)\n(:domain grid)\n(:objects{cells})\n(:init {init})\n(:goal (and)))\n"
    )?)
}

/// Types, constants, parameters of two types, and names in upper case.
pub(crate) const ROOMS: &str = "(DEFINE (domain Rooms) (:requirements :typing) ; two kinds of places
(:constants Lobby - hall) (:types room hall - place thing)
(:action Move :parameters (?x - thing ?from ?to - place)
:effect (and (not (at ?x ?from)) (and (at ?x ?to) (at ?x LOBBY))) :precondition (at ?x ?from))
(:predicates (at ?x - (either thing robot) ?p - place) (free)))";

pub(crate) const ROOMS_SHOWN: &str = "(define (domain rooms)
(:requirements :strips :typing)
(:types room - place hall - place thing - object)
(:constants lobby - hall)
(:predicates (at ?x - (either thing robot) ?p - place) (free))
(:action move
:parameters (?x - thing ?from - place ?to - place)
:precondition (and (at ?x ?from))
:effect (and (not (at ?x ?from)) (at ?x ?to) (at ?x lobby)))
)
";

pub(crate) const ROOMS_START: &str =
    "(define (problem P1) (:init (at a lobby) (free) (free)) (:goal (at a r))
(:objects a - thing B r - room) (:domain rooms))";

pub(crate) const ROOMS_START_SHOWN: &str = "(define (problem p1)
(:domain rooms)
(:objects a - thing b - room r - room)
(:init (at a lobby) (free) (free))
(:goal (and)))
";

/// The example whose texts are the shortest that are not canonical.
pub(crate) const SHORT: &str =
    "(DEFINE (domain K) (:predicates (p) (q)) (:action T :precondition (p) :effect (and (q) (not (p)) (p)))) ; end";

pub(crate) const SHORT_START: &str = "(define (problem z) (:domain k) (:init (P)))";

pub(crate) const SHORT_SHOWN: &str = "(define (domain k)
(:requirements :strips :typing)
(:predicates (p) (q))
(:action t
:parameters ()
:precondition (and (p))
:effect (and (q) (not (p)) (p)))
)
(define (problem z)
(:domain k)
(:init (p))
(:goal (and)))
";

/// A domain that is ill typed, and so large that it is refused over 102 objects.
pub(crate) const ILL_TYPED: &str =
    "(define (domain many) (:constants c - t) (:predicates (p ?x ?y) (q))
(:action a :parameters (?x ?y ?z) :effect (p ?x ?y)))";

/// With an atom for each two objects, and an action for each three.
pub(crate) const LARGE: &str = "(define (domain many) (:predicates (p ?x ?y) (q))
(:action a :parameters (?x ?y ?z) :effect (p ?x ?y)))";

/// With an atom for each two objects, and an action for each.
pub(crate) const PAIRS: &str = "(define (domain many) (:predicates (p ?x ?y) (q))
(:action a :parameters (?x) :effect (p ?x ?x)))";

/// With an atom and its complement for each two objects, and an action for each.
pub(crate) const WATCHED: &str = "(define (domain many) (:predicates (p ?x ?y) (q))
(:action a :parameters (?x) :precondition (not (p ?x ?x)) :effect (p ?x ?x)))";

/// With one atom, and an action for each three objects.
pub(crate) const TRIPLES: &str = "(define (domain many) (:predicates (p) (q))
(:action a :parameters (?x ?y ?z) :effect (p)))";

/// A problem with so many objects, from o0 on.
pub(crate) fn many_objects(alloc: Global, count: u32) -> Result<String, Fail> {
    let mut objects = String::new(alloc);
    for i in 0..count {
        write!(objects, " o{i}")?;
    }
    Ok(format!(in alloc; "(define (problem p) (:domain many) (:objects{objects}) (:init (q)))")?)
}

/// The text, so many times.
pub(crate) fn repeated(alloc: Global, text: &str, count: usize) -> Result<String, AllocError> {
    let mut whole = String::new(alloc);
    for _ in 0..count {
        whole.push_str(text)?;
    }
    Ok(whole)
}

/// The text with a character of one byte behind it, again and again, of so many bytes.
pub(crate) fn padded(
    alloc: Global,
    text: &str,
    filler: char,
    bytes: usize,
) -> Result<String, AllocError> {
    let mut padded = String::from_str(alloc, text)?;
    for _ in text.len()..bytes {
        padded.push(filler)?;
    }
    Ok(padded)
}

/// A domain of 16 atoms that can each be made true by itself, and of two more of which each makes the other
/// false: 3 times 2^16 states are reached, and in none of them are both true.
pub(crate) fn switches(alloc: Global) -> Result<String, Fail> {
    let mut predicates = String::new(alloc);
    let mut actions = String::new(alloc);
    for i in 0..16u32 {
        write!(predicates, "(p{i})")?;
        write!(
            actions,
            "(:action a{i} :parameters () :precondition (and) :effect (p{i}))"
        )?;
    }
    Ok(format!(in alloc;
        "(define (domain switches) (:predicates (never) (left) (right) {predicates}) {actions}
(:action l :parameters () :precondition (and) :effect (and (left) (not (right))))
(:action r :parameters () :precondition (and) :effect (and (right) (not (left)))))"
    )?)
}

/// Fork with 20 more actions, each from its start to a place of its own, from which nothing leads on.
pub(crate) fn traps(alloc: Global) -> Result<String, Fail> {
    let mut predicates = String::new(alloc);
    let mut actions = String::new(alloc);
    for i in 1..21u32 {
        write!(predicates, " (e{i})")?;
        write!(
            actions,
            "(:action t{i} :parameters () :precondition (at0) :effect (and (e{i}) (not (at0))))"
        )?;
    }
    Ok(format!(in alloc;
        "(define (domain traps)
(:predicates (at0) (at1) (at2) (atl) (atr){predicates})
(:action a :parameters () :precondition (at0) :effect (and (at1) (not (at0))))
(:action b :parameters () :precondition (at1) :effect (and (at2) (not (at1))))
(:action l :parameters () :precondition (at2) :effect (and (atl) (not (at2))))
(:action r :parameters () :precondition (at2) :effect (and (atr) (not (at2)))){actions})"
    )?)
}
