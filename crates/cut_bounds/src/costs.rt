ghost use Rattle.std.specs.Prelude.{◌≡◌, ◌*◌, ◌<◌, ◌≤◌, length, All, IfOk, IfSome, Contains};
ghost use Rattle.strips_model.specs.Values.{IsActionBelow};
ghost use Rattle.level_bounds.specs.Floors.{IsFloorOf};
ghost use Rattle.cut_bounds.specs.Costs.{AreCosts};

use grd_base::{ActionId, AtomId, Bits, OutOfMemory};
use level_bounds::LevelFloor;
use std::alloc::Global;
use strips_model::{Task, known_task};

/// The cost of what is not reached.
const FAR: u32 = u32::MAX;

/// What atoms and actions cost from a state by the max heuristic, where the actions of some lists cost nothing
/// and all others one.
#[derive(Drop)]
pub(crate) struct Costs {
    /// The least cost of an atom, by its number; `FAR` where it is not reached.
    pub(crate) atoms: Vec<u32>,
    /// The greatest cost of an atom that an action needs, by the action's number; `FAR` where one is not reached.
    pub(crate) actions: Vec<u32>,
    /// The atoms whose cost fell, and whose actions have not been looked at since.
    pub(crate) fallen: Vec<AtomId>,
}

/// The atom of the list that costs most.
pub(crate) fn dearest(costs: &[u32], atoms: &[AtomId]) -> Option<AtomId>
    requires { All (λ a. a.0 < length costs.now) atoms.now }
    ensures { IfSome result (λ a. Contains atoms.now a) }
{
    let mut most: u32 = 0;
    let mut found = None;
    for a in atoms {
        let cost = costs[a.0 as usize];
        if cost >= most {
            most = cost;
            found = Some(*a);
        }
    }
    found
}

/// The greatest cost of the atoms; nothing where there are none.
fn greatest(costs: &[u32], atoms: &[AtomId]) -> u32
    requires { All (λ a. a.0 < length costs.now) atoms.now }
{
    let mut most: u32 = 0;
    for a in atoms {
        let cost = costs[a.0 as usize];
        if cost > most {
            most = cost;
        }
    }
    most
}

impl Costs {
    /// Notes that none of the atoms costs more than that.
    fn lower(&mut self, task: &Task, atoms: &[AtomId], cost: u32) -> Result<(), OutOfMemory>
        requires costs { AreCosts task.now self.old.atoms.items self.old.actions.items self.old.fallen.items }
        requires atoms { All (λ a. a.0 < task.now.atoms) atoms.now }
        ensures costs { IfOk result
            (λ _. AreCosts task.now self.new.atoms.items self.new.actions.items self.new.fallen.items) }
    {
        for atom in atoms {
            if cost < self.atoms[atom.0 as usize] {
                self.atoms[atom.0 as usize] = cost;
                self.fallen.push(*atom)?;
            }
        }
        Ok(())
    }

    /// Notes that the atoms of the state cost nothing.
    fn start<const W: usize>(&mut self, task: &Task, s: &Bits<W>) -> Result<(), OutOfMemory>
        requires width { W ≤ 64 }
        requires wide { task.now.atoms ≤ 64 * W }
        requires costs { AreCosts task.now self.old.atoms.items self.old.actions.items self.old.fallen.items }
        ensures { IfOk result
            (λ _. AreCosts task.now self.new.atoms.items self.new.actions.items self.new.fallen.items) }
    {
        for n in 0..task.atoms {
            if s.contains(n) {
                let atoms = [AtomId(n)];
                self.lower(task, &atoms, 0)?;
            }
        }
        Ok(())
    }

    /// Reaches the actions, which need nothing that costs more than that.
    fn reach(&mut self, task: &Task, actions: &[ActionId], cost: u32) -> Result<(), OutOfMemory>
        requires costs { AreCosts task.now self.old.atoms.items self.old.actions.items self.old.fallen.items }
        requires actions { All (λ a. a.0 < length task.now.actions) actions.now }
        ensures { IfOk result
            (λ _. AreCosts task.now self.new.atoms.items self.new.actions.items self.new.fallen.items) }
    {
        known_task(task);
        for a in actions {
            self.actions[a.0 as usize] = cost;
            let action = &task.actions[a.0 as usize];
            self.lower(task, action.add.as_slice(), cost.saturating_add(1))?;
        }
        Ok(())
    }

    /// Notes that none of the atoms that these actions add costs more than what the actions need. An action that
    /// is none of the task's adds nothing.
    fn free(&mut self, task: &Task, actions: &[ActionId]) -> Result<(), OutOfMemory>
        requires { AreCosts task.now self.old.atoms.items self.old.actions.items self.old.fallen.items }
        ensures { IfOk result
            (λ _. AreCosts task.now self.new.atoms.items self.new.actions.items self.new.fallen.items) }
    {
        known_task(task);
        for a in actions {
            if (a.0 as usize) < task.actions.len() {
                let cost = self.actions[a.0 as usize];
                let action = &task.actions[a.0 as usize];
                self.lower(task, action.add.as_slice(), cost)?;
            }
        }
        Ok(())
    }

    /// Looks again at what the action needs, and at what it adds where that costs less than before.
    fn renew(&mut self, task: &Task, used: &[bool], a: ActionId) -> Result<(), OutOfMemory>
        requires costs { AreCosts task.now self.old.atoms.items self.old.actions.items self.old.fallen.items }
        requires used { length used.now ≡ length task.now.actions }
        requires action { a.0 < length task.now.actions }
        ensures costs { IfOk result
            (λ _. AreCosts task.now self.new.atoms.items self.new.actions.items self.new.fallen.items) }
    {
        known_task(task);
        let action = &task.actions[a.0 as usize];
        let cost = greatest(self.atoms.as_slice(), action.pre.as_slice());
        if cost < self.actions[a.0 as usize] {
            self.actions[a.0 as usize] = cost;
            let after = if used[a.0 as usize] { cost } else { cost + 1 };
            self.lower(task, action.add.as_slice(), after)?;
        }
        Ok(())
    }

    /// Looks again at those of the actions that are reached and may need nothing that costs more than that.
    fn renew_all(
        &mut self,
        task: &Task,
        used: &[bool],
        actions: &[ActionId],
        cost: u32,
    ) -> Result<(), OutOfMemory>
        requires costs { AreCosts task.now self.old.atoms.items self.old.actions.items self.old.fallen.items }
        requires used { length used.now ≡ length task.now.actions }
        requires actions { All (λ a. a.0 < length task.now.actions) actions.now }
        ensures costs { IfOk result
            (λ _. AreCosts task.now self.new.atoms.items self.new.actions.items self.new.fallen.items) }
    {
        for a in actions {
            let known = self.actions[a.0 as usize];
            if cost < known && known < FAR {
                self.renew(task, used, *a)?;
            }
        }
        Ok(())
    }

    /// Looks again at the actions that need an atom whose cost fell, until no more falls.
    fn settle(&mut self, task: &Task, level: &LevelFloor, used: &[bool]) -> Result<(), OutOfMemory>
        requires made { IsFloorOf task.now level.now }
        requires costs { AreCosts task.now self.old.atoms.items self.old.actions.items self.old.fallen.items }
        requires used { length used.now ≡ length task.now.actions }
        ensures { IfOk result
            (λ _. AreCosts task.now self.new.atoms.items self.new.actions.items self.new.fallen.items) }
    {
        // Each fall lowers a cost, so they end long before this range does.
        for _turn in 0..u32::MAX {
            let Some(atom) = self.fallen.pop() else {
                break;
            };
            let cost = self.atoms[atom.0 as usize];
            self.renew_all(task, used, level.needed_by().at(atom), cost)?;
        }
        Ok(())
    }

    /// The actions of the list, which are flagged now, cost nothing from now on.
    pub(crate) fn take(
        &mut self,
        task: &Task,
        level: &LevelFloor,
        list: &[ActionId],
        used: &[bool],
    ) -> Result<(), OutOfMemory>
        requires made { IsFloorOf task.now level.now }
        requires costs { AreCosts task.now self.old.atoms.items self.old.actions.items self.old.fallen.items }
        requires used { length used.now ≡ length task.now.actions }
        ensures { IfOk result
            (λ _. AreCosts task.now self.new.atoms.items self.new.actions.items self.new.fallen.items) }
    {
        self.free(task, list)?;
        self.settle(task, level, used)?;
        Ok(())
    }
}

/// Those of the actions for which this was the last need that was not met. One need of each is met now.
fn met(
    alloc: Global,
    unmet: &mut [usize],
    actions: &[ActionId],
) -> Result<Vec<ActionId>, OutOfMemory>
    requires { All (λ a. a.0 < length unmet.old) actions.now }
    ensures sized { length unmet.new ≡ length unmet.old }
    ensures some { IfOk result (λ found. All (λ a. a.0 < length unmet.old) found.items) }
{
    let mut found = Vec::new(alloc);
    for a in actions {
        let left = unmet[a.0 as usize].saturating_sub(1);
        unmet[a.0 as usize] = left;
        if left == 0 {
            found.push(*a)?;
        }
    }
    Ok(found)
}

/// The costs of a state where each action costs one, by one pass over what is reached, the least cost first.
pub(crate) fn costs_from<const W: usize>(
    alloc: Global,
    task: &Task,
    level: &LevelFloor,
    needs: &[usize],
    s: &Bits<W>,
) -> Result<Costs, OutOfMemory>
    requires width { W ≤ 64 }
    requires wide { task.now.atoms ≤ 64 * W }
    requires made { IsFloorOf task.now level.now }
    requires needs { length needs.now ≡ length task.now.actions }
    ensures { IfOk result (λ costs. AreCosts task.now costs.atoms.items costs.actions.items costs.fallen.items) }
{
    let mut costs = Costs {
        atoms: vec![in alloc; FAR; task.atoms as usize]?,
        actions: vec![in alloc; FAR; task.actions.len()]?,
        fallen: Vec::new(alloc),
    };
    let mut unmet = Vec::from_slice(alloc, needs)?;
    costs.start(task, s)?;
    costs.reach(task, level.free(), 0)?;
    for i in 0..task.atoms as usize {
        if i >= costs.fallen.len() {
            break;
        }
        let atom = costs.fallen[i];
        let cost = costs.atoms[atom.0 as usize];
        let found = met(alloc, unmet.as_mut_slice(), level.needed_by().at(atom))?;
        costs.reach(task, found.as_slice(), cost)?;
    }
    costs.fallen.clear();
    Ok(costs)
}
