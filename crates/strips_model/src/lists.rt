ghost use Rattle.std.specs.Prelude.{◌≡◌, ℕ, ◌*◌, ◌<◌, ◌≤◌, All, IfOk, false};
ghost use Rattle.grd_base.specs.Bits.{members};
ghost use Rattle.strips_model.specs.Plans.{set_of};
ghost use Rattle.strips_model.specs.Values.{AreAtoms};

use crate::steps::insert_all;
use grd_base::{AtomId, Bits, OutOfMemory};
use std::alloc::Global;

/// The state whose atoms the list has. It takes no memory.
pub fn state_of<const W: usize>(atoms: &[AtomId]) -> Bits<W>
    requires width { W ≤ 64 }
    requires atoms { All (λ a. a.0 < 64 * W) atoms.now }
    ensures { members result ≡ set_of atoms.now }
{
    let mut s = Bits::new();
    insert_all(&mut s, atoms);
    s
}

/// The atoms of a state, rising. They are numbers below `count`.
pub fn atoms_of<const W: usize>(
    alloc: Global,
    s: &Bits<W>,
    count: u32,
) -> Result<Vec<AtomId>, OutOfMemory>
    requires width { W ≤ 64 }
    requires count { count ≤ 64 * W }
    requires below { (n : ℕ) → count ≤ n → members s.now n ≡ false }
    ensures same { IfOk result (λ atoms. set_of atoms.items ≡ members s.now) }
    ensures atoms { IfOk result (λ atoms. AreAtoms count atoms.items) }
{
    let mut atoms = Vec::new(alloc);
    for n in 0..count {
        if s.contains(n) {
            atoms.push(AtomId(n))?;
        }
    }
    Ok(atoms)
}
