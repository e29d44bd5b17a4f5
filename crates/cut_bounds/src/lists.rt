ghost use Rattle.std.specs.Prelude.{◌≡◌, ◌<◌, not, length, All, IfOk};
ghost use Rattle.grd_base.specs.declared.ids.ActionId.{ActionId};
ghost use Rattle.cut_bounds.specs.Zones.{is_flagged, are_fresh, AreFlags, IsPut};

use grd_base::{ActionId, ActionSet, OutOfMemory};

/// Lists that share no action, and which actions they have.
#[derive(Drop)]
pub(crate) struct Lists {
    pub(crate) lists: Vec<ActionSet>,
    /// Whether an action is in a list, by its number.
    pub(crate) used: Vec<bool>,
}

/// Whether the action is not flagged.
fn is_new(used: &[bool], a: ActionId) -> bool
    ensures { result ≡ not (is_flagged used.now a) }
{
    match used.get(a.0 as usize) {
        Some(flag) => !*flag,
        None => true,
    }
}

/// Whether no action of the list is flagged.
fn are_new(used: &[bool], list: &[ActionId]) -> bool
    ensures { result ≡ are_fresh used.now list.now }
{
    for a in list {
        if !is_new(used, *a) {
            return false;
        }
    }
    true
}

/// Flags the actions of the list.
fn flag(used: &mut [bool], list: &[ActionId])
    requires { All (λ a. a.0 < length used.old) list.now }
    ensures { AreFlags used.old list.now used.new }
{
    for a in list {
        used[a.0 as usize] = true;
    }
}

impl Lists {
    /// Puts the list behind the others, where it has an action and shares none with them. Answers whether
    /// it did.
    pub(crate) fn put(&mut self, list: ActionSet) -> Result<bool, OutOfMemory>
        requires { All (λ a. a.0 < length self.old.used.items) list }
        ensures { IfOk result
            (λ put. IsPut self.old.lists.items self.old.used.items list self.new.lists.items self.new.used.items put) }
    {
        if list.as_slice().is_empty() {
            return Ok(false);
        }
        if !are_new(self.used.as_slice(), list.as_slice()) {
            return Ok(false);
        }
        flag(self.used.as_mut_slice(), list.as_slice());
        self.lists.push(list)?;
        Ok(true)
    }
}
