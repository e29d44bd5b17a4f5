ghost use Rattle.std.specs.Prelude.{◌≡◌, ◌<◌, [], length, All, IfOk, IfSome, IfNone, Contains};

use grd_base::{AtomId, OutOfMemory};
use std::alloc::Global;
use strips_model::Task;

/// How many actions need each atom of the task. A count stands still at 2^32 - 1.
pub(crate) fn count_needs(alloc: Global, task: &Task) -> Result<Vec<u32>, OutOfMemory>
    ensures { IfOk result (λ counts. length counts.items ≡ task.now.atoms) }
{
    let mut counts = vec![in alloc; 0; task.atoms as usize]?;
    for action in &task.actions {
        note_needs(&mut counts, action.pre.as_slice());
    }
    Ok(counts)
}

/// Counts each atom of the list once more.
fn note_needs(counts: &mut [u32], atoms: &[AtomId])
    requires { All (λ a. a.0 < length counts.old) atoms.now }
    ensures { length counts.new ≡ length counts.old }
{
    for a in atoms {
        let n = a.0 as usize;
        counts[n] = counts[n].saturating_add(1);
    }
}

/// An atom of the list that no other is needed less often than, or none of an empty list.
pub(crate) fn rarest(counts: &[u32], atoms: &[AtomId]) -> Option<AtomId>
    requires { All (λ a. a.0 < length counts.now) atoms.now }
    ensures among { IfSome result (λ a. Contains atoms.now a) }
    ensures none { IfNone result (atoms.now ≡ []) }
{
    let mut best = None;
    let mut least = u32::MAX;
    for a in atoms {
        let count = counts[a.0 as usize];
        if best.is_none() || count < least {
            best = Some(*a);
            least = count;
        }
    }
    best
}
