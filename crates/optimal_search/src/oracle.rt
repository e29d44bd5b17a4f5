ghost use Rattle.std.specs.Prelude.{◌≡◌, ◌*◌, ◌<◌, ◌≤◌, List, [], length, map, All, IsTrue, IfOk, IfSome, IfNone};
ghost use Rattle.grd_base.specs.declared.ids.ActionId.{ActionId};
ghost use Rattle.grd_base.specs.declared.limits.Bound.{Bound};
ghost use Rattle.grd_base.specs.declared.limits.Bound.TheVariants.{Steps};
ghost use Rattle.grd_base.specs.Bits.{members};
ghost use Rattle.grd_base.specs.Counts.{MoreThan};
ghost use Rattle.strips_model.specs.Plans.{State, Reaches, IsCost, IsOver};
ghost use Rattle.strips_model.specs.Reached.{IsNearWithin, IsNearWithout};
ghost use Rattle.cost_certificate.specs.Tables.{HasRow, IsRowOver, IsValidTable};
ghost use Rattle.optimal_search.specs.Kept.{rows_in};
ghost use Rattle.optimal_search.specs.Oracles.{IsAlike, bound_of_row, Knows, KnowsAllOf, IsSoundOracle, KnowsCost, AreKept, AreRight, known_by};
ghost use Rattle.optimal_search.specs.Rows.{row_of};

use crate::cost::least_plan;
use crate::kept::Kept;
use crate::rows::row_at;
use crate::space::{SpaceFloor, TaskSpace};
use cost_certificate::{Row, Table, is_enough, rows_refute};
use cut_bounds::CutMark;
use grd_base::{ActionId, ActionSet, Bits, Bound, GoalId, Limits, OutOfMemory, whole};
use search_core::{KeptRow, LeastAnswer, SearchFault, WithinAnswer, within};
use std::alloc::Global;
use std::marker::Model;
use strips_model::{Task, known_task};
use succ_table::SuccTable;

/// Answers questions about one task, one goal and one set of removed actions, and keeps the bounds that it
/// proves, each with what shows it: they make a valid table after every call, also after one that was
/// refused.
#[derive(Drop)]
pub struct Oracle<'t, const W: usize> {
    space: TaskSpace<'t, W>,
    limit: u32,
    kept: Kept<W, CutMark>,
}

impl<'t, const W: usize> Model for Oracle<'t, W> {
    ghost use Rattle.std.specs.Prelude.{◌≤◌};
    ghost use Rattle.optimal_search.specs.Kept.{rows_in};
    ghost use Rattle.optimal_search.specs.Oracles.{PlainOracle, AreKept, known_by};

    ghost Value = { PlainOracle };

    ghost view = { λ o. record {
      task = o.space.task;
      goal = o.space.goal;
      removed = o.space.removed;
      limit = o.limit;
      known = known_by o.space.task (rows_in o.kept.proved.entries);
    } };

    ghost invariant = { λ o. AreKept o.space.task o.space.goal o.space.removed (rows_in o.kept.proved.entries) × (o.limit ≤ 1000000) };
}

impl<'t, const W: usize> Oracle<'t, W> {
    /// An oracle that knows nothing. Each question may count `limits.states` states.
    pub fn new(
        alloc: Global,
        task: &'t Task,
        goal: GoalId,
        removed: &'t ActionSet,
        limits: Limits,
    ) -> Result<Oracle<'t, W>, OutOfMemory>
        requires width { W ≤ 64 }
        requires atoms { task.now.atoms ≤ 64 * W }
        requires goal { goal.0 < length task.now.goals }
        requires limits { (limits.states ≤ 1000000) × (limits.sets ≤ 1000000) }
        ensures { IfOk result (λ oracle. oracle ≡ (record {
          task = task.now;
          goal = goal;
          removed = removed.now;
          limit = limits.states;
          known = [];
        })) }
    {
        let space = TaskSpace::new(alloc, task, goal, removed)?;
        Ok(Oracle::over(alloc, space, limits.states))
    }

    /// The same about the task of a table that is lent, so that several oracles can use it.
    pub fn with_table(
        alloc: Global,
        table: &'t SuccTable<'t>,
        goal: GoalId,
        removed: &'t ActionSet,
        limits: Limits,
    ) -> Result<Oracle<'t, W>, OutOfMemory>
        requires width { W ≤ 64 }
        requires atoms { table.now.atoms ≤ 64 * W }
        requires goal { goal.0 < length table.now.goals }
        requires limits { (limits.states ≤ 1000000) × (limits.sets ≤ 1000000) }
        ensures { IfOk result (λ oracle. oracle ≡ (record {
          task = table.now;
          goal = goal;
          removed = removed.now;
          limit = limits.states;
          known = [];
        })) }
    {
        let space = TaskSpace::with_table(alloc, table, goal, removed)?;
        Ok(Oracle::over(alloc, space, limits.states))
    }

    /// An oracle over a space, which knows nothing.
    fn over(alloc: Global, space: TaskSpace<'t, W>, limit: u32) -> Oracle<'t, W>
        requires width { W ≤ 64 }
        requires atoms { space.task.atoms ≤ 64 * W }
        requires goal { space.goal.0 < length space.task.goals }
        requires limit { limit ≤ 1000000 }
        ensures { result ≡ (record {
          task = space.entry.task;
          goal = space.entry.goal;
          removed = space.entry.removed;
          limit = limit;
          known = [];
        }) }
    {
        Oracle {
            space,
            limit,
            kept: Kept::new(alloc),
        }
    }

    /// The least length of a plan without the removed actions, or none where there is no plan. Each call
    /// searches from the start anew.
    pub fn cost(&mut self, alloc: Global) -> Result<Option<u32>, SearchFault>
        ensures cost { IfOk result (IsCost self.old.task self.old.goal self.old.removed) }
        ensures start { IfOk result (KnowsCost self.old.task self.new.known) }
        ensures alike { IsAlike self.old self.new }
        ensures grows { KnowsAllOf self.old.known self.new.known }
        ensures sound { IsSoundOracle self.new }
        ensures many { result ≡ Err SearchFault.TooManyStates
            → MoreThan self.old.limit (IsNearWithout self.old.task self.old.goal self.old.removed) }
    {
        let cost = self.ask_cost(alloc);
        self.known_sound();
        cost
    }

    /// A path of at most `r` steps from the state to one in which the goal holds, without the removed
    /// actions, or none where there is no such path. It is answered from what is known where that suffices.
    pub fn within(
        &mut self,
        alloc: Global,
        s: &Bits<W>,
        r: u32,
    ) -> Result<Option<Vec<ActionId>>, SearchFault>
        requires { IsOver self.old.task (members s.now) }
        ensures path { IfOk result (λ found. IfSome found
            (λ path. Reaches self.old.task self.old.goal self.old.removed (members s.now) path.items
            × (length path.items ≤ r))) }
        ensures bound { IfOk result (λ found. IfNone found (Knows self.new.known (members s.now) (Steps r))) }
        ensures none { IfOk result (λ found. IfNone found ((path : List ActionId)
            → Reaches self.old.task self.old.goal self.old.removed (members s.now) path → r < length path)) }
        ensures alike { IsAlike self.old self.new }
        ensures grows { KnowsAllOf self.old.known self.new.known }
        ensures sound { IsSoundOracle self.new }
        ensures many { result ≡ Err SearchFault.TooManyStates
            → MoreThan self.old.limit (IsNearWithin self.old.task self.old.goal self.old.removed (members s.now) r) }
    {
        let found = self.ask_path(alloc, s, r);
        self.known_sound();
        found
    }

    /// What is known as a table, in the order in which the states were first kept. A row is by cuts where
    /// the floor refuted it, and else by steps.
    pub fn table(&self, alloc: Global) -> Result<Table, OutOfMemory>
        ensures valid { IfOk result (λ table. IsValidTable self.now.task self.now.goal self.now.removed table) }
        ensures rows { IfOk result (λ table. (s : State) (bound : Bound) → Knows self.now.known s bound → HasRow table s bound) }
        ensures exact { IfOk result (λ table. map bound_of_row table ≡ self.now.known) }
        ensures over { IfOk result (λ table. All (IsRowOver self.now.task) table) }
    {
        known_task(self.space.task());
        let rows = rows_of(alloc, &self.space, &self.kept)?;
        Ok(Table { rows })
    }

    /// The cost, by a search whose rows are kept.
    fn ask_cost(&mut self, alloc: Global) -> Result<Option<u32>, SearchFault>
        ensures cost { IfOk result (IsCost self.old.task self.old.goal self.old.removed) }
        ensures start { IfOk result (KnowsCost self.old.task self.new.known) }
        ensures alike { IsAlike self.old self.new }
        ensures grows { KnowsAllOf self.old.known self.new.known }
        ensures many { result ≡ Err SearchFault.TooManyStates
            → MoreThan self.old.limit (IsNearWithout self.old.task self.old.goal self.old.removed) }
    {
        // Reading a field tells how wide the states are.
        let _limit = self.limit;
        let (cost, rows) = self.find_cost(alloc)?;
        self.keep(rows)?;
        Ok(cost)
    }

    /// A path of at most `r` steps, by what is known or by a search whose rows are kept.
    fn ask_path(
        &mut self,
        alloc: Global,
        s: &Bits<W>,
        r: u32,
    ) -> Result<Option<Vec<ActionId>>, SearchFault>
        requires { IsOver self.old.task (members s.now) }
        ensures path { IfOk result (λ found. IfSome found
            (λ path. Reaches self.old.task self.old.goal self.old.removed (members s.now) path.items
            × (length path.items ≤ r))) }
        ensures bound { IfOk result (λ found. IfNone found (Knows self.new.known (members s.now) (Steps r))) }
        ensures alike { IsAlike self.old self.new }
        ensures grows { KnowsAllOf self.old.known self.new.known }
        ensures many { result ≡ Err SearchFault.TooManyStates
            → MoreThan self.old.limit (IsNearWithin self.old.task self.old.goal self.old.removed (members s.now) r) }
    {
        if self.is_known(s, r) {
            return Ok(None);
        }
        let (path, rows) = self.find_path(alloc, s, r)?;
        self.keep(rows)?;
        Ok(path)
    }

    /// The cost, with rows for the start which show that no plan is shorter.
    fn find_cost(
        &self,
        alloc: Global,
    ) -> Result<(Option<u32>, Vec<KeptRow<Bits<W>, CutMark>>), SearchFault>
        ensures cost { IfOk result (λ found. IsCost self.now.task self.now.goal self.now.removed found.0) }
        ensures start { IfOk result (λ found. KnowsCost self.now.task (known_by self.now.task found.1.items) found.0) }
        ensures right { IfOk result (λ found. AreRight self.now.task self.now.goal self.now.removed found.1.items) }
        ensures many { result ≡ Err SearchFault.TooManyStates
            → MoreThan self.now.limit (IsNearWithout self.now.task self.now.goal self.now.removed) }
    {
        known_task(self.space.task());
        match least_plan(alloc, &self.space, self.limit)? {
            LeastAnswer::Found(plan, rows) => Ok((Some(plan.len() as u32), rows)),
            LeastAnswer::Never(rows) => Ok((None, rows)),
        }
    }

    /// A path of at most `r` steps from the state to one in which the goal holds, or rows which show that
    /// there is none.
    fn find_path(
        &self,
        alloc: Global,
        s: &Bits<W>,
        r: u32,
    ) -> Result<(Option<Vec<ActionId>>, Vec<KeptRow<Bits<W>, CutMark>>), SearchFault>
        requires { IsOver self.now.task (members s.now) }
        ensures path { IfOk result (λ found. IfSome found.0
            (λ path. Reaches self.now.task self.now.goal self.now.removed (members s.now) path.items
            × (length path.items ≤ r))) }
        ensures bound { IfOk result (λ found. IfNone found.0 (Knows (known_by self.now.task found.1.items) (members s.now) (Steps r))) }
        ensures right { IfOk result (λ found. AreRight self.now.task self.now.goal self.now.removed found.1.items) }
        ensures many { result ≡ Err SearchFault.TooManyStates
            → MoreThan self.now.limit (IsNearWithin self.now.task self.now.goal self.now.removed (members s.now) r) }
    {
        known_task(self.space.task());
        whole(s);
        match within(alloc, &self.space, &SpaceFloor, *s, r, self.limit)? {
            WithinAnswer::Yes(path) => Ok((Some(path), Vec::new(alloc))),
            WithinAnswer::No(rows) | WithinAnswer::Never(rows) => Ok((None, rows)),
        }
    }

    /// Whether it is known that no path of at most `r` steps leads from the state to one in which the goal
    /// holds.
    fn is_known(&self, s: &Bits<W>, r: u32) -> bool
        requires { IsOver self.now.task (members s.now) }
        ensures { IsTrue result → Knows self.now.known (members s.now) (Steps r) }
    {
        match self.kept.bound_of(s) {
            Some(bound) => is_enough(bound, Bound::Steps(r)),
            None => false,
        }
    }

    /// Keeps the rows of a search. Where memory is wanting, all that was known still is.
    fn keep(&mut self, rows: Vec<KeptRow<Bits<W>, CutMark>>) -> Result<(), OutOfMemory>
        requires { AreRight self.old.task self.old.goal self.old.removed rows.items }
        ensures alike { IsAlike self.old self.new }
        ensures grows { KnowsAllOf self.old.known self.new.known }
        ensures held { IfOk result (λ _. KnowsAllOf (known_by self.old.task rows.entry.items) self.new.known) }
    {
        self.kept.keep(rows)
    }

    /// What is known is so.
    fn known_sound(&self)
        ensures { IsSoundOracle self.now }
    {
        known_task(self.space.task());
        rows_refute();
    }
}

/// The rows of what is kept.
fn rows_of<const W: usize>(
    alloc: Global,
    space: &TaskSpace<W>,
    kept: &Kept<W, CutMark>,
) -> Result<Vec<Row>, OutOfMemory>
    requires width { W ≤ 64 }
    requires right { AreRight space.now.task space.now.goal space.now.removed (rows_in kept.now.proved.entries) }
    ensures { IfOk result (λ rows. rows.items
        ≡ map (row_of space.now.task space.now.removed) (rows_in kept.now.proved.entries)) }
{
    let mut rows = Vec::with_capacity(alloc, kept.proved.len())?;
    for n in 0..kept.proved.len() {
        let (s, proved) = kept.proved.get_index(n).unwrap();
        rows.push(row_at(alloc, space, s, proved.bound, &proved.mark)?)?;
    }
    Ok(rows)
}
