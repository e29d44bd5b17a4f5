ghost use Rattle.std.specs.Prelude.{◌≡◌, ◌<◌, ◌↔◌, length, IsTrue, IfOk, OnOk, IfSome, IfNone};
ghost use Rattle.search_core.specs.Entries.{IsHeldAt, IsFresh};
ghost use Rattle.search_core.specs.Nodes.{IsNoDeeper, HaveParents, AreLinked, IsWayAt};
ghost use Rattle.search_core.specs.Spaces.{Successors};
ghost use Rattle.search_core.specs.Turns.{IsEntered, IsWaiting, IsLowered, IsMarked, has_number};

use crate::queue::{Queue, Ticket};
use crate::space::{Floor, Space};
use crate::ways::Way;
use grd_base::{ActionId, Bound, OutOfMemory};
use indexmap::IndexMap;
use std::alloc::Global;
use std::cmp::Reverse;
use std::hash::Hash;

/// What is known of a state that was found.
#[derive(Drop)]
pub(crate) struct Node<M> {
    pub way: Way,
    /// What the floor answered for it.
    pub bound: Bound,
    /// What shows that bound.
    pub mark: M,
    /// Whether it is to be expanded, for the first time or again.
    pub waits: bool,
    /// Whether it was expanded.
    pub expanded: bool,
}

/// The states that were found, each once, and those of them that wait.
#[derive(Drop)]
pub(crate) struct Reach<T: Eq + Hash, M> {
    pub found: IndexMap<T, Node<M>>,
    /// How many of them were expanded.
    pub kept: u32,
    pub queue: Queue,
}

/// What is asked: a path of least length from the start to a done state.
#[derive(Drop)]
pub(crate) struct Question<'a, S, F, T> {
    pub space: &'a S,
    pub floor: &'a F,
    pub start: T,
    /// How many states may be expanded.
    pub limit: u32,
}

/// The place of a state among those that were found.
pub(crate) fn place_of<S: Space, M>(
    found: &IndexMap<S::State, Node<M>>,
    state: &S::State,
) -> Option<usize>
    ensures held { IfSome result (IsHeldAt found.now.entries state.now) }
    ensures fresh { IfNone result (IsFresh found.now.entries state.now) }
{
    found.get_index_of(state)
}

/// Whether a bound is a number.
fn is_number(bound: Bound) -> bool
    ensures { result ≡ has_number bound }
{
    match bound {
        Bound::Steps(_) => true,
        Bound::Never => false,
    }
}

/// Puts a state into the queue, unless its bound is `Never`.
fn wait(queue: &mut Queue, place: usize, depth: u32, bound: Bound) -> Result<(), OutOfMemory>
    ensures { OnOk result (IsWaiting queue.old queue.new place depth bound) }
{
    match bound {
        Bound::Steps(number) => {
            let ticket = Ticket {
                total: u64::from(depth) + u64::from(number),
                bound: number,
                place: Reverse(place),
            };
            queue.push(ticket)
        }
        Bound::Never => Ok(()),
    }
}

/// Adds a state that was not found. It waits, unless the floor shows `Never` for it.
pub(crate) fn enter<S: Space, F: Floor<S>>(
    alloc: Global,
    question: &Question<S, F, S::State>,
    reach: &mut Reach<S::State, F::Mark>,
    state: S::State,
    way: Way,
) -> Result<(), OutOfMemory>
    requires { IsFresh reach.old.found.entries state }
    ensures entered { OnOk result
        (IsEntered (F.shows question.now.floor.now question.now.space.now)
        reach.old.found.entries reach.new.found.entries reach.old.queue reach.new.queue state way) }
    ensures kept { reach.new.kept ≡ reach.old.kept }
{
    let (bound, mark) = question.floor.at_least(alloc, question.space, &state)?;
    let place = reach.found.len();
    let node = Node {
        way,
        bound,
        mark,
        waits: is_number(bound),
        expanded: false,
    };
    reach.found.insert(state, node)?;
    wait(&mut reach.queue, place, way.depth, bound)?;
    Ok(())
}

/// Whether a state at this depth is at most so deep. The depth of one that the floor shows `Never` for
/// does not matter.
fn is_no_deeper(bound: Bound, depth: u32, most: u32) -> bool
    ensures { IsTrue result ↔ IsNoDeeper bound depth most }
{
    match bound {
        Bound::Steps(_) => depth <= most,
        Bound::Never => true,
    }
}

/// Takes over a way to the state at a place, where it is shorter than the one that is known. Then the
/// state waits, again if it was expanded.
pub(crate) fn lower<T: Eq + Hash, M>(
    reach: &mut Reach<T, M>,
    place: usize,
    way: Way,
) -> Result<(), OutOfMemory>
    requires { place < length reach.old.found.entries }
    ensures lowered { OnOk result
        (IsLowered reach.old.found.entries reach.new.found.entries reach.old.queue reach.new.queue place way) }
    ensures kept { reach.new.kept ≡ reach.old.kept }
{
    let node = &mut reach.found[place];
    let bound = node.bound;
    if is_no_deeper(bound, node.way.depth, way.depth) {
        return Ok(());
    }
    node.way = way;
    node.waits = true;
    wait(&mut reach.queue, place, way.depth, bound)?;
    Ok(())
}

/// Marks the state at a place as expanded. It waits no more. The result is its depth.
pub(crate) fn mark<T: Eq + Hash, M>(reach: &mut Reach<T, M>, place: usize) -> u32
    requires { place < length reach.old.found.entries }
    ensures marked { IsMarked reach.old.found.entries reach.new.found.entries place result }
    ensures kept { reach.new.kept ≡ reach.old.kept }
    ensures queue { reach.new.queue ≡ reach.old.queue }
{
    let node = &mut reach.found[place];
    node.waits = false;
    node.expanded = true;
    node.way.depth
}

/// The actions on the way from the start to the state at a place.
pub(crate) fn path_to<T: Eq + Hash, M>(
    alloc: Global,
    found: &IndexMap<T, Node<M>>,
    place: usize,
) -> Result<Vec<ActionId>, OutOfMemory>
    requires place { place < length found.now.entries }
    requires parents { HaveParents found.now.entries }
    ensures { IfOk result (λ path. (next : Successors T) (start : T)
        → AreLinked next start found.now.entries
        → IsWayAt next start found.now.entries place path.items) }
{
    let mut path = Vec::new(alloc);
    let mut way = found[place].way;
    while way.depth > 0 {
        path.push(way.action)?;
        way = found[way.parent].way;
    }
    path.reverse();
    Ok(path)
}
