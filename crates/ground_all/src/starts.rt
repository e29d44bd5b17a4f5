ghost use Rattle.std.specs.Prelude.{◌≡◌, ℕ, ◌<◌, ◌≤◌, ◌^◌, List, length, sum, IfOk};
ghost use Rattle.ground_all.specs.Found.{starts_of, IsPlaceIn};

use grd_base::OutOfMemory;
use std::alloc::Global;

/// The first numbers of lists of these lengths that stand behind one another.
pub(crate) fn starts(alloc: Global, lengths: &[u128]) -> Result<Vec<u32>, OutOfMemory>
    requires { sum lengths.now < 2 ^ 32 }
    ensures { IfOk result (λ starts. starts.items ≡ starts_of 0 lengths.now) }
{
    let mut starts = Vec::with_capacity(alloc, lengths.len())?;
    let mut start = 0;
    for length in lengths {
        starts.push(start)?;
        start += *length as u32;
    }
    Ok(starts)
}

/// The list in which the item with this number stands, and its place there.
pub(crate) fn place_in(starts: &[u32], number: u32) -> (usize, u32)
    requires { (lengths : List ℕ) × (starts.now ≡ starts_of 0 lengths) × (number < sum lengths) }
    ensures { (lengths : List ℕ) → starts.now ≡ starts_of 0 lengths → number < sum lengths
        → IsPlaceIn lengths number result.0 result.1 }
{
    let list = starts.partition_point(|start| *start <= number) - 1;
    (list, number - starts[list])
}
