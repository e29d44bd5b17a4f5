ghost use Rattle.std.specs.Prelude.{◌≡◌, List, ◌++◌, IfOk};
ghost use Rattle.grd_base.specs.declared.ids.ActionId.{ActionId};
ghost use Rattle.grd_base.specs.Rising.{has_id};
ghost use Rattle.design_certificate.specs.Trees.{choices, firsts_outside, with_id};

use grd_base::{ActionId, ActionSet, OutOfMemory};
use std::alloc::Global;
use strips_model::Witness;

/// Whether the action is in the list.
fn is_in(ids: &[ActionId], a: ActionId) -> bool
    ensures { result ≡ has_id ids.now a }
{
    ids.contains(&a)
}

/// The set with one more action.
pub(crate) fn with_action(
    alloc: Global,
    set: &ActionSet,
    a: ActionId,
) -> Result<ActionSet, OutOfMemory>
    ensures { IfOk result (λ more. more ≡ with_id set.now a) }
{
    let _ids = set.as_slice();
    let more = set.with(alloc, a)?;
    let _more = more.as_slice();
    Ok(more)
}

/// Puts each action of the plan last that is not there yet.
fn add_new(seen: &mut Vec<ActionId>, plan: &[ActionId]) -> Result<(), OutOfMemory>
    ensures { IfOk result (λ _. (more : List ActionId) → seen.new.items ++ firsts_outside seen.new.items more
        ≡ seen.old.items ++ firsts_outside seen.old.items (plan.now ++ more)) }
{
    for a in plan {
        if !is_in(seen.as_slice(), *a) {
            seen.push(*a)?;
        }
    }
    Ok(())
}

/// The kept actions, and behind them those for which a branch has children.
pub(crate) fn with_choices(
    alloc: Global,
    members: u32,
    removed: &ActionSet,
    kept: &[ActionId],
    witness: &Witness,
) -> Result<Vec<ActionId>, OutOfMemory>
    ensures { IfOk result (λ seen. seen.items ≡ kept.now ++ choices members removed.now kept.now witness.now) }
{
    let mut seen = Vec::from_slice(alloc, kept)?;
    if removed.as_slice().len() < members as usize {
        add_new(&mut seen, witness.plans.0.as_slice())?;
        add_new(&mut seen, witness.plans.1.as_slice())?;
    }
    Ok(seen)
}
