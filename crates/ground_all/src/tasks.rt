ghost use Rattle.std.specs.Prelude.{◌≡◌, ◌≤◌, ◌^◌, ◌++◌, length, map, All, IfOk, OnOk};
ghost use Rattle.std.specs.List.{flat_map};
ghost use Rattle.grd_base.specs.Rising.{IsRisingBy};
ghost use Rattle.grd_base.specs.declared.ids.AtomId.{AtomId};
ghost use Rattle.strips_model.specs.Worlds.{world_action_of, goal_of, task_action, task_of_world};
ghost use Rattle.type_check.specs.Values.{PlainTypedSchema, is_same_atom};
ghost use Rattle.ground_all.specs.Tuples.{tuples};
ghost use Rattle.ground_all.specs.Grounding.{instance_of, instances, ground_task};
ghost use Rattle.ground_all.specs.Sound.{ArePlaces, IsLiteralOf};
ghost use Rattle.ground_all.specs.Found.{start_world, start_numbers, instance_action, schema_action};

use crate::atoms::Atoms;
use crate::literals::{is_barred, is_blocked, negative_atoms, numbers_of, positive_atoms};
use crate::tuples::{count, fill};
use grd_base::{AtomId, OutOfMemory};
use std::alloc::Global;
use std::marker::Model;
use strips_model::{Action, Condition, Task};
use type_check::{Goal, TypedSchema};

/// A ground action of the world by numbers: the lists rise.
#[derive(Drop)]
struct WorldAction {
    pre: Vec<AtomId>,
    absent: Vec<AtomId>,
    add: Vec<AtomId>,
    del: Vec<AtomId>,
    blocked: bool,
}

impl Model for WorldAction {
    ghost use Rattle.strips_model.specs.Values.{WorldAction as PlainWorldAction};

    ghost Value = { PlainWorldAction };

    ghost view = { λ a. record { pre = a.pre.items; absent = a.absent.items; add = a.add.items; del = a.del.items; blocked = a.blocked } };
}

/// The ground action of a schema whose parameters have these objects.
fn world_action(
    alloc: Global,
    atoms: &Atoms<'_>,
    schema: &TypedSchema,
    objects: &[u32],
) -> Result<WorldAction, OutOfMemory>
    requires pre { All (IsLiteralOf (length objects.now)) schema.now.pre }
    requires effect { All (IsLiteralOf (length objects.now)) schema.now.effect }
    ensures { IfOk result (λ action. action
        ≡ world_action_of is_same_atom (start_world atoms.now) (instance_of schema.now objects.now)) }
{
    let pre = positive_atoms(alloc, &schema.pre, objects)?;
    let absent = negative_atoms(alloc, &schema.pre, objects)?;
    let add = positive_atoms(alloc, &schema.effect, objects)?;
    let del = negative_atoms(alloc, &schema.effect, objects)?;
    Ok(WorldAction {
        pre: numbers_of(alloc, atoms, &pre)?,
        absent: numbers_of(alloc, atoms, &absent)?,
        add: numbers_of(alloc, atoms, &add)?,
        del: numbers_of(alloc, atoms, &del)?,
        blocked: is_blocked(atoms, &pre) || is_barred(atoms, &absent),
    })
}

/// The action of the task that a ground action makes: with the complements of what must be false, and of what
/// becomes true or false.
fn task_action(alloc: Global, atoms: &Atoms<'_>, action: WorldAction) -> Result<Action, OutOfMemory>
    requires absent { IsRisingBy (λ (a : AtomId). a.0) action.absent }
    requires add { IsRisingBy (λ (a : AtomId). a.0) action.add }
    requires del { IsRisingBy (λ (a : AtomId). a.0) action.del }
    ensures { IfOk result (λ made. made ≡ task_action (start_numbers atoms.now) action) }
{
    let WorldAction {
        mut pre,
        absent,
        mut add,
        mut del,
        blocked,
    } = action;
    let mut lost = Vec::new(alloc);
    atoms.add_complements(&absent, &[], &mut pre)?;
    atoms.add_complements(&del, &add, &mut lost)?;
    atoms.add_complements(&add, &[], &mut del)?;
    add.append(&mut lost)?;
    Ok(Action {
        pre,
        add,
        del,
        blocked,
    })
}

/// The action of the task of a schema whose parameters have these objects.
fn action(
    alloc: Global,
    atoms: &Atoms<'_>,
    schema: &TypedSchema,
    objects: &[u32],
) -> Result<Action, OutOfMemory>
    requires pre { All (IsLiteralOf (length objects.now)) schema.now.pre }
    requires effect { All (IsLiteralOf (length objects.now)) schema.now.effect }
    ensures { IfOk result (λ action. action ≡ schema_action atoms.now schema.now objects.now) }
{
    let action = world_action(alloc, atoms, schema, objects)?;
    task_action(alloc, atoms, action)
}

/// Adds all typed instances of a schema, in the order of their tuples.
fn add_instances(
    alloc: Global,
    atoms: &Atoms<'_>,
    schema: &TypedSchema,
    actions: &mut Vec<Action>,
) -> Result<(), OutOfMemory>
    requires places { ArePlaces schema.now.places }
    requires few { length (tuples schema.now.places) ≤ 2 ^ 20 }
    requires pre { All (IsLiteralOf (length schema.now.places)) schema.now.pre }
    requires effect { All (IsLiteralOf (length schema.now.places)) schema.now.effect }
    ensures { OnOk result (actions.new.items ≡ actions.old.items
        ++ map (schema_action atoms.now schema.now) (tuples schema.now.places)) }
{
    let mut objects = vec![in alloc; 0; schema.places.len()]?;
    for number in 0..count(&schema.places) as u32 {
        fill(&schema.places, number, &mut objects);
        actions.push(action(alloc, atoms, schema, &objects)?)?;
    }
    Ok(())
}

/// All typed instances of the schemas, in text order.
fn instances(
    alloc: Global,
    atoms: &Atoms<'_>,
    schemas: &[TypedSchema],
) -> Result<Vec<Action>, OutOfMemory>
    requires places { All (λ s. ArePlaces s.places) schemas.now }
    requires few { All (λ s. length (tuples s.places) ≤ 2 ^ 20) schemas.now }
    requires pre { All (λ s. All (IsLiteralOf (length s.places)) s.pre) schemas.now }
    requires effect { All (λ s. All (IsLiteralOf (length s.places)) s.effect) schemas.now }
    ensures { IfOk result (λ actions. actions.items
        ≡ map (instance_action atoms.now)
        (flat_map (λ (s : PlainTypedSchema). map (instance_of s) (tuples s.places)) schemas.now)) }
{
    let mut actions = Vec::new(alloc);
    for schema in schemas {
        add_instances(alloc, atoms, schema, &mut actions)?;
    }
    Ok(actions)
}

/// The goals, in their order.
fn conditions(
    alloc: Global,
    atoms: &Atoms<'_>,
    goals: &[Goal],
) -> Result<Vec<Condition>, OutOfMemory>
    ensures { IfOk result (λ conditions. conditions.items
        ≡ map (goal_of is_same_atom (start_world atoms.now)) goals.now) }
{
    let mut conditions = Vec::with_capacity(alloc, goals.len())?;
    for goal in goals {
        conditions.push(Condition {
            atoms: numbers_of(alloc, atoms, &goal.atoms)?,
            blocked: is_blocked(atoms, &goal.atoms),
        })?;
    }
    Ok(conditions)
}

/// The atoms that are true at the start, and the complements of the watched ones that are false.
fn start_atoms(alloc: Global, atoms: &Atoms<'_>) -> Result<Vec<AtomId>, OutOfMemory>
    ensures { IfOk result (λ init. init.items ≡ (task_of_world (start_numbers atoms.now)).init) }
{
    let mut init = numbers_of(alloc, atoms, &atoms.typed().init)?;
    let mut lacking = Vec::new(alloc);
    atoms.add_complements(atoms.watched(), &init, &mut lacking)?;
    init.append(&mut lacking)?;
    Ok(init)
}

/// The task of the world with these goals.
pub(crate) fn task(alloc: Global, atoms: &Atoms<'_>, goals: &[Goal]) -> Result<Task, OutOfMemory>
    requires few_actions { length (instances atoms.now) ≤ 2 ^ 20 }
    requires few_goals { length goals.now ≤ 32 }
    ensures { IfOk result (λ task. task ≡ ground_task atoms.now goals.now) }
{
    let typed = atoms.typed();
    let init = start_atoms(alloc, atoms)?;
    let actions = instances(alloc, atoms, &typed.schemas)?;
    let goals = conditions(alloc, atoms, goals)?;
    Ok(Task {
        atoms: atoms.count(),
        init,
        actions,
        goals,
    })
}
