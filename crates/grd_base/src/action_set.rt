ghost use Rattle.std.specs.Prelude.{◌≡◌, ◌↔◌, [], IsTrue, IfOk, Contains, ◌⊎◌};
ghost use Rattle.grd_base.specs.Rising.{IsRising, has_id};

use crate::ids::ActionId;
use crate::memory::OutOfMemory;
use std::alloc::Global;
use std::marker::Model;

/// A set of actions: distinct ids in rising order.
#[derive(Drop)]
pub struct ActionSet {
    ids: Vec<ActionId>,
}

impl Model for ActionSet {
    ghost use Rattle.std.specs.Prelude.{List};
    ghost use Rattle.grd_base.specs.declared.ids.ActionId.{ActionId};
    ghost use Rattle.grd_base.specs.Rising.{IsRising};

    ghost Value = { List ActionId };

    ghost view = { λ a. a.ids.items };

    ghost invariant = { λ a. IsRising a.ids.items };
}

impl ActionSet {
    /// The empty set. It takes no memory, and keeps the allocator.
    pub fn new(alloc: Global) -> ActionSet
        ensures { result ≡ [] }
    {
        ActionSet {
            ids: Vec::new(alloc),
        }
    }

    /// The members, in rising order.
    pub fn as_slice(&self) -> &[ActionId]
        ensures same { result.now ≡ self.now }
        ensures rising { IsRising result.now }
    {
        self.ids.as_slice()
    }

    /// Whether the action is a member, in a time that grows with the set.
    pub fn contains(&self, a: ActionId) -> bool
        ensures test { result ≡ has_id self.now a }
        ensures member { IsTrue result ↔ Contains self.now a }
    {
        self.ids.as_slice().contains(&a)
    }

    /// The set of the actions of a list in any order, with repeats or not.
    pub fn from_list(alloc: Global, list: &[ActionId]) -> Result<ActionSet, OutOfMemory>
        ensures { IfOk result (λ set. (a : _) → Contains set a ↔ Contains list.now a) }
    {
        let mut ids = Vec::from_slice(alloc, list)?;
        ids.sort()?;
        ids.dedup();
        Ok(ActionSet { ids })
    }

    /// A copy of the set.
    pub fn try_clone(&self, alloc: Global) -> Result<ActionSet, OutOfMemory>
        ensures { IfOk result (λ set. set ≡ self.now) }
    {
        let ids = Vec::from_slice(alloc, self.ids.as_slice())?;
        Ok(ActionSet { ids })
    }

    /// The set with one more action, or the same set where it is there already.
    pub fn with(&self, alloc: Global, a: ActionId) -> Result<ActionSet, OutOfMemory>
        ensures { IfOk result (λ set. (b : _) → Contains set b ↔ ((b ≡ a) ⊎ Contains self.now b)) }
    {
        let mut list = Vec::from_slice(alloc, self.ids.as_slice())?;
        list.push(a)?;
        let set = ActionSet::from_list(alloc, list.as_slice())?;
        Ok(set)
    }
}
