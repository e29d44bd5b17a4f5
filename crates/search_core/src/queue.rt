ghost use Rattle.std.specs.Prelude.{◌≡◌, ◌≤◌, List, [], ◌∷◌, map, All, OnOk, IfSome, IfNone};
ghost use Rattle.std.specs.List.Sorted.{IsPermutation};

use grd_base::OutOfMemory;
use std::alloc::Global;
use std::cmp::Reverse;
use std::collections::BinaryHeap;

/// A place in the queue. The least comes first: by the total, at the same total the one that the floor
/// says is nearest to a done state, and of these the one that was found last.
#[derive(Clone, Copy, Debug, PartialEq, Eq, PartialOrd, Ord)]
pub(crate) struct Ticket {
    /// The length of the path to the state, plus its bound.
    pub total: u64,
    /// The state's bound.
    pub bound: u32,
    /// The state's place among those that were found.
    pub place: Reverse<usize>,
}

/// The tickets of states that wait, some of them out of date.
#[derive(Drop)]
pub(crate) struct Queue {
    heap: BinaryHeap<Reverse<Ticket>>,
}

impl std::marker::Model for Queue {
    ghost use Rattle.std.specs.Prelude.{List, map};
    ghost use Rattle.std.specs.BinaryHeap.{heap_items, IsHeap};
    ghost use Rattle.search_core.specs.declared.queue.Ticket.{Ticket};
    ghost use Rattle.search_core.specs.Tickets.{by_ticket};

    ghost Value = { List Ticket };

    ghost view = { λ q. map (λ t. t.0) (heap_items q.heap) };

    ghost invariant = { λ q. IsHeap by_ticket (heap_items q.heap) };
}

impl Queue {
    /// A queue with no ticket.
    pub fn new(alloc: Global) -> Queue
        ensures { result ≡ [] }
    {
        Queue {
            heap: BinaryHeap::new(alloc),
        }
    }

    /// Adds a ticket.
    pub fn push(&mut self, ticket: Ticket) -> Result<(), OutOfMemory>
        ensures { OnOk result (IsPermutation (ticket ∷ self.old) self.new) }
    {
        self.heap.push(Reverse(ticket))?;
        Ok(())
    }

    /// Takes a ticket of least total out.
    pub fn pop(&mut self) -> Option<Ticket>
        ensures moved { IfSome result (λ ticket. IsPermutation self.old (ticket ∷ self.new)) }
        ensures least { IfSome result (λ ticket. All (λ other. ticket.total ≤ other.total) self.old) }
        ensures none { IfNone result (self.old ≡ []) }
    {
        let Reverse(ticket) = self.heap.pop()?;
        Some(ticket)
    }
}
