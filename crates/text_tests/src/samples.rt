// Sample texts of domains and problems.

pub const FORK: &str = "(define (domain fork)\n\
(:predicates (at0) (at1) (at2) (atl) (atr))\n\
(:action a :parameters () :precondition (at0) :effect (and (at1) (not (at0))))\n\
(:action b :parameters () :precondition (at1) :effect (and (at2) (not (at1))))\n\
(:action l :parameters () :precondition (at2) :effect (and (atl) (not (at2))))\n\
(:action r :parameters () :precondition (at2) :effect (and (atr) (not (at2)))))\n";

pub const FORK_PROBLEM: &str =
    "(define (problem p) (:domain fork) (:init (at0)) (:goal (and <HYPOTHESIS>)))";

pub const KEEP: &str =
    "(DEFINE (domain K) (:predicates (p) (q)) (:action T :precondition (p) :effect (and (q) (not (p)) (p)))) ; end";

pub const KEEP_PROBLEM: &str = "(define (problem z) (:domain k) (:init (P)))";

pub const GRID: &str = "(define (domain grid)\n\
(:requirements :strips :typing)\n\
(:types cell - object)\n\
(:predicates (at ?a - cell) (connected ?a - cell ?b - cell))\n\
(:action move\n\
:parameters (?a - cell ?b - cell)\n\
:precondition (and (at ?a) (connected ?a ?b))\n\
:effect (and (not (at ?a)) (at ?b)))\n\
)\n";

pub const GRID_PROBLEM: &str = "(define (problem made)\n\
(:domain grid)\n\
(:objects c1-1 - cell c1-2 - cell)\n\
(:init (at c1-1) (connected c1-1 c1-2))\n\
(:goal (and)))\n";

/// With the sections, and the parts of an action, in another order than usual.
pub const WORLD: &str = "; In capitals.\r\n\
(DEFINE (DOMAIN WORLD)\n\
(:ACTION GO :EFFECT (AND (AND (NOT (AT ?X HOME))) () (AND) (AT ?X ?Y))\n\
:PARAMETERS (?X ?Y - (EITHER TOWN) ?Z - (EITHER TOWN ROAD) ?W))\n\
(:PREDICATES (AT ?A - OBJECT ?B) (FREE))\n\
(:ACTION REST :PRECONDITION () :EFFECT (AND))\n\
(:CONSTANTS HOME - TOWN FAR)\n\
(:TYPES TOWN ROAD - PLACE PLACE - EITHER EITHER)\n\
(:REQUIREMENTS :TYPING :STRIPS :EQUALITY :NEGATIVE-PRECONDITIONS))";

pub const WORLD_PROBLEM: &str = "(DEFINE\t(PROBLEM NEXT)\n\
(:GOAL ANYTHING)\n\
(:INIT (FREE) (AT A HOME) (FREE))\n\
(:OBJECTS A B - TOWN C)\n\
(:REQUIREMENTS)\n\
(:DOMAIN WORLD))";

/// A lamp that is lit only where it is out.
pub const LAMP: &str = "(define (domain lamp) (:predicates (on) (done))\n\
(:action light :precondition (not (on)) :effect (on))\n\
(:action end :precondition (on) :effect (done))\n\
(:action dark :precondition (on) :effect (not (on))))";

pub const LAMP_PROBLEM: &str = "(define (problem p) (:domain lamp) (:init))";

/// What one has is given to another.
pub const PAIR: &str = "(define (domain pair) (:types t) (:predicates (has ?x - t))\n\
(:action give :parameters (?a - t ?b - t)\n\
:precondition (and (has ?a) (not (= ?a ?b)))\n\
:effect (and (has ?b) (not (has ?a)))))";

pub const PAIR_PROBLEM: &str =
    "(define (problem p) (:domain pair) (:objects o1 o2 - t) (:init (has o1)))";

/// A truck lies four types below a place.
pub const VEHICLES: &str = "(define (domain d)\n\
(:types truck car - vehicle vehicle - movable movable - thing thing city - place)\n\
(:constants home - city t1 - truck)\n\
(:predicates (at ?x - movable ?y - (either city thing)) (any ?o) (quiet))\n\
(:action go :parameters (?v - (either truck car) ?to - city)\n\
:precondition (and (at ?v home) (any ?v))\n\
:effect (and (at ?v ?to) (not (at ?v home)) (quiet)))\n\
(:action rest))\n";

pub const VEHICLES_PROBLEM: &str = "(define (problem p) (:domain d)\n\
(:objects c1 - car r - place m - movable o)\n\
(:init (any r) (at t1 home) (quiet) (at m c1) (any r)))\n";

pub const PLAIN_PROBLEM: &str = "(define (problem p) (:domain d) (:init))";

/// All that can be printed.
pub const HAUL: &str = "(Define (domain Haul) ; all that can be printed
    (:action drive :effect (and (not (at ?t ?a)) (and (at ?t ?b)))
      :parameters (?t - (either truck car) ?a ?b - (either place)) :precondition (at ?t ?a))
    (:types truck car - vehicle vehicle place)
    (:predicates (at ?t - vehicle ?p) (DONE))
    (:constants depot - place home)
    (:action wait)
    (:action end :precondition () :effect (and (done) (not (at t1 depot)))))";

pub const HAUL_PROBLEM: &str = "(define (problem One) (:objects T1 - truck c1)
    (:init (at T1 depot) (done) (at t1 depot)) (:goal (and (done))) (:domain haul))";

pub const TRUCKS: &str = "(define (domain d) (:types truck city - place)\n\
(:constants home - city)\n\
(:predicates (at ?x - truck ?y - city) (any ?o) (quiet))\n\
(:action go :parameters (?v - truck ?to - city))\n\
(:action rest))";

pub const TRUCKS_PROBLEM: &str = "(define (problem p) (:domain d)\n\
(:objects t1 t2 - truck c1 - city o - place) (:init))";

pub const SHOP: &str = "(define (domain shop) (:types good place)\n\
(:constants door - place)\n\
(:predicates (open) (in ?g - good ?p - place) (near ?p ?q - place) (seen ?p - place))\n\
(:action go :parameters (?p ?q - place) :precondition (near ?p ?q) :effect (seen ?q))\n\
(:action put :parameters (?g - good) :effect (and (in ?g door) (open))))";

pub const SHOP_PROBLEM: &str = "(define (problem p) (:domain shop)\n\
(:objects tea - good shelf - place) (:init (near door shelf)))";
