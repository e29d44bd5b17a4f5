ghost use Rattle.std.specs.Prelude.{◌≡◌, ◌≢◌, ◌<◌, ℕ, [], ◌∷◌, ◌++◌, length, IfOk};
ghost use Rattle.strips_model.specs.Index.{listed};

use grd_base::{ActionId, AtomId, OutOfMemory};
use std::alloc::Global;
use std::marker::Model;

/// Lists of actions, one for each atom of a task.
#[derive(Drop)]
pub struct AtomIndex {
    rows: Vec<Vec<ActionId>>,
}

impl Model for AtomIndex {
    ghost use Rattle.std.specs.Prelude.{List, map};
    ghost use Rattle.grd_base.specs.declared.ids.ActionId.{ActionId};

    ghost Value = { List (List ActionId) };

    ghost view = { λ index. map (λ row. row.items) index.rows.items };
}

impl AtomIndex {
    /// An empty list for each of so many atoms.
    pub fn new(alloc: Global, count: u32) -> Result<AtomIndex, OutOfMemory>
        ensures count { IfOk result (λ index. length index ≡ count) }
        ensures empty { IfOk result (λ index. (n : ℕ) → listed index n ≡ []) }
    {
        let mut rows = Vec::with_capacity(alloc, count as usize)?;
        for _ in 0..count {
            rows.push(Vec::new(alloc))?;
        }
        Ok(AtomIndex { rows })
    }

    /// The actions of the atom.
    pub fn at(&self, atom: AtomId) -> &[ActionId]
        requires { atom.0 < length self.now }
        ensures { result.now ≡ listed self.now atom.0 }
    {
        self.rows[atom.0 as usize].as_slice()
    }

    /// Adds the action to those of the atom, as the last.
    pub fn add(&mut self, atom: AtomId, a: ActionId) -> Result<(), OutOfMemory>
        requires { atom.0 < length self.old }
        ensures count { length self.new ≡ length self.old }
        ensures last { IfOk result
            (λ _. listed self.new atom.0 ≡ listed self.old atom.0 ++ a ∷ []) }
        ensures others { IfOk result
            (λ _. (n : ℕ) → n ≢ atom.0 → listed self.new n ≡ listed self.old n) }
    {
        self.rows[atom.0 as usize].push(a)?;
        Ok(())
    }
}
