ghost use Rattle.std.specs.Prelude.{◌≡◌, ◌++◌, ◌∷◌, IfOk, OnOk, map, codes, List, ℕ};
ghost use Rattle.cert_text.specs.Lines.{Line, Word, HasItsGoals, bound_word, number_or_none, line_bytes, line_text, numeral, word_text, spaced};
ghost use Rattle.cert_text.specs.Lines.{Number as Numbered, Counts as TheCounts, GoalCost as TheGoalCost, Plan as ThePlan, Cuts as TheCuts, Set as TheSet, Steps as TheSteps, Verdict as TheVerdict, Wcd as TheWcd, Prefix as ThePrefix, Live as TheLive, Design as TheDesign, Remove as TheRemove, Named as TheNamed, Tree as TheTree, Branch as TheBranch, Leaf as TheLeaf, LeafUse as TheLeafUse};
ghost use Rattle.cert_text.specs.Values.{plain};

use crate::line::CertLine;
use crate::pushes::{
    push_key, push_number, push_number_or_none, push_numbers, push_row, push_text,
};
use grd_base::{Bound, OutOfMemory};
use std::alloc::Global;

/// The one spelling of a line, with its line feed.
pub fn line_text(alloc: Global, line: &CertLine) -> Result<Vec<u8>, OutOfMemory>
    requires { HasItsGoals (plain line.now) }
    ensures { IfOk result (λ text. text.items ≡ line_text (plain line.now)) }
{
    let mut text = Vec::new(alloc);
    push_line(&mut text, line)?;
    text.push(b'\n')?;
    Ok(text)
}

#[tactic(auto, using(crate::proofs::Written::chained), unfolding(crate::specs::Lines::line_bytes))]
fn push_counts(
    text: &mut Vec<u8>,
    atoms: u32,
    actions: u32,
    goals: u32,
    observations: u32,
    budget: u32,
) -> Result<(), OutOfMemory>
    ensures { OnOk result (text.new.items ≡ text.old.items ++ line_bytes (TheCounts atoms actions goals observations budget)) }
{
    text.extend_from_slice(b"task")?;
    push_number(text, atoms)?;
    push_number(text, actions)?;
    push_number(text, goals)?;
    push_number(text, observations)?;
    push_number(text, budget)
}

#[tactic(auto, using(crate::proofs::Written::chained), unfolding(crate::specs::Lines::line_bytes))]
fn push_goal_cost(text: &mut Vec<u8>, goal: u32, cost: Option<u32>) -> Result<(), OutOfMemory>
    ensures { OnOk result (text.new.items ≡ text.old.items ++ line_bytes (TheGoalCost goal cost)) }
{
    text.extend_from_slice(b"goal")?;
    push_number(text, goal)?;
    push_key(text, "cost")?;
    push_number_or_none(text, cost)
}

#[tactic(auto, using(crate::proofs::Written::chained, crate::proofs::Written::plan_bytes))]
fn push_plan(text: &mut Vec<u8>, actions: &[u32]) -> Result<(), OutOfMemory>
    ensures { OnOk result (text.new.items ≡ text.old.items ++ line_bytes (ThePlan actions.now)) }
{
    text.extend_from_slice(b"plan")?;
    push_numbers(text, actions)
}

#[tactic(auto, using(crate::proofs::Written::chained, crate::proofs::Written::cuts_bytes))]
fn push_cuts(text: &mut Vec<u8>, bound: Bound, state: &[u32]) -> Result<(), OutOfMemory>
    ensures { OnOk result (text.new.items ≡ text.old.items ++ line_bytes (TheCuts bound state.now)) }
{
    text.extend_from_slice(b"cuts")?;
    push_row(text, bound, state)
}

#[tactic(auto, using(crate::proofs::Written::chained, crate::proofs::Written::set_bytes))]
fn push_set(text: &mut Vec<u8>, atoms: &[u32]) -> Result<(), OutOfMemory>
    ensures { OnOk result (text.new.items ≡ text.old.items ++ line_bytes (TheSet atoms.now)) }
{
    text.extend_from_slice(b"set")?;
    push_numbers(text, atoms)
}

#[tactic(auto, using(crate::proofs::Written::chained, crate::proofs::Written::steps_bytes))]
fn push_steps(text: &mut Vec<u8>, bound: Bound, state: &[u32]) -> Result<(), OutOfMemory>
    ensures { OnOk result (text.new.items ≡ text.old.items ++ line_bytes (TheSteps bound state.now)) }
{
    text.extend_from_slice(b"steps")?;
    push_row(text, bound, state)
}

#[tactic(auto, using(crate::proofs::Written::chained), unfolding(crate::specs::Lines::line_bytes))]
fn push_verdict(text: &mut Vec<u8>, goal: u32, recognised: bool) -> Result<(), OutOfMemory>
    ensures { OnOk result (text.new.items ≡ text.old.items ++ line_bytes (TheVerdict goal recognised)) }
{
    text.extend_from_slice(b"verdict")?;
    push_number(text, goal)?;
    push_key(text, if recognised { "yes" } else { "no" })
}

#[tactic(auto, using(crate::proofs::Written::chained), unfolding(crate::specs::Lines::line_bytes))]
fn push_pair(text: &mut Vec<u8>, pair: (u32, u32, u32)) -> Result<(), OutOfMemory>
    ensures { OnOk result (text.new.items ≡ text.old.items ++ line_bytes (TheWcd (Some pair))) }
{
    text.extend_from_slice(b"wcd")?;
    push_number(text, pair.0)?;
    push_key(text, "goals")?;
    push_number(text, pair.1)?;
    push_number(text, pair.2)
}

#[tactic(auto, using(crate::proofs::Written::chained, crate::proofs::Written::prefix_bytes))]
fn push_prefix(text: &mut Vec<u8>, actions: &[u32]) -> Result<(), OutOfMemory>
    ensures { OnOk result (text.new.items ≡ text.old.items ++ line_bytes (ThePrefix actions.now)) }
{
    text.extend_from_slice(b"prefix")?;
    push_numbers(text, actions)
}

#[tactic(auto, using(crate::proofs::Written::chained, crate::proofs::Written::live_bytes))]
fn push_live(
    text: &mut Vec<u8>,
    depth: u32,
    goals: &[u32],
    state: &[u32],
) -> Result<(), OutOfMemory>
    ensures { OnOk result (text.new.items ≡ text.old.items ++ line_bytes (TheLive depth goals.now state.now)) }
{
    text.extend_from_slice(b"live")?;
    push_number(text, depth)?;
    push_key(text, "goals")?;
    push_numbers(text, goals)?;
    push_key(text, "state")?;
    push_numbers(text, state)
}

#[tactic(auto, using(crate::proofs::Written::chained), unfolding(crate::specs::Lines::line_bytes))]
fn push_design(text: &mut Vec<u8>, count: u32, wcd: Option<u32>) -> Result<(), OutOfMemory>
    ensures { OnOk result (text.new.items ≡ text.old.items ++ line_bytes (TheDesign count wcd)) }
{
    text.extend_from_slice(b"design")?;
    push_number(text, count)?;
    push_key(text, "wcd")?;
    push_number_or_none(text, wcd)
}

#[tactic(auto, using(crate::proofs::Written::chained, crate::proofs::Written::remove_bytes))]
fn push_remove(text: &mut Vec<u8>, actions: &[u32]) -> Result<(), OutOfMemory>
    ensures { OnOk result (text.new.items ≡ text.old.items ++ line_bytes (TheRemove actions.now)) }
{
    text.extend_from_slice(b"remove")?;
    push_numbers(text, actions)
}

#[tactic(auto, using(crate::proofs::Written::chained, crate::proofs::Written::named_bytes))]
fn push_named(
    text: &mut Vec<u8>,
    number: u32,
    goal: u32,
    removed: &[u32],
) -> Result<(), OutOfMemory>
    ensures { OnOk result (text.new.items ≡ text.old.items ++ line_bytes (TheNamed number goal removed.now)) }
{
    text.extend_from_slice(b"named")?;
    push_number(text, number)?;
    push_key(text, "goal")?;
    push_number(text, goal)?;
    push_key(text, "without")?;
    push_numbers(text, removed)
}

#[tactic(auto, using(crate::proofs::Written::chained), unfolding(crate::specs::Lines::line_bytes))]
fn push_tree(text: &mut Vec<u8>, members: u32, least: u32) -> Result<(), OutOfMemory>
    ensures { OnOk result (text.new.items ≡ text.old.items ++ line_bytes (TheTree members least)) }
{
    text.extend_from_slice(b"tree")?;
    push_number(text, members)?;
    push_number(text, least)
}

#[tactic(auto, using(crate::proofs::Written::chained), unfolding(crate::specs::Lines::line_bytes))]
fn push_branch(text: &mut Vec<u8>, first: u32, second: u32) -> Result<(), OutOfMemory>
    ensures { OnOk result (text.new.items ≡ text.old.items ++ line_bytes (TheBranch first second)) }
{
    text.extend_from_slice(b"branch")?;
    push_number(text, first)?;
    push_number(text, second)
}

#[tactic(auto, using(crate::proofs::Written::chained), unfolding(crate::specs::Lines::line_bytes))]
fn push_leaf(text: &mut Vec<u8>, goal: u32) -> Result<(), OutOfMemory>
    ensures { OnOk result (text.new.items ≡ text.old.items ++ line_bytes (TheLeaf goal)) }
{
    text.extend_from_slice(b"leaf")?;
    push_number(text, goal)
}

#[tactic(auto, using(crate::proofs::Written::chained), unfolding(crate::specs::Lines::line_bytes))]
fn push_leaf_use(text: &mut Vec<u8>, goal: u32, table: u32) -> Result<(), OutOfMemory>
    ensures { OnOk result (text.new.items ≡ text.old.items ++ line_bytes (TheLeafUse goal table)) }
{
    text.extend_from_slice(b"leaf")?;
    push_number(text, goal)?;
    push_key(text, "use")?;
    push_number(text, table)
}

/// Writes a line without its line feed.
#[tactic(auto, using(crate::proofs::Written::head_bytes, crate::proofs::Written::head_two_bytes, crate::proofs::Written::table_bytes, crate::proofs::Written::end_bytes, crate::proofs::Written::no_wcd_bytes, crate::proofs::Written::done_bytes))]
fn push_line(text: &mut Vec<u8>, line: &CertLine) -> Result<(), OutOfMemory>
    ensures { OnOk result (text.new.items ≡ text.old.items ++ line_bytes (plain line.now)) }
{
    match line {
        CertLine::Head => push_text(text, "grd certificate 1"),
        CertLine::HeadTwo => push_text(text, "grd certificate 2"),
        CertLine::Counts(atoms, actions, goals, observations, budget) => {
            push_counts(text, *atoms, *actions, *goals, *observations, *budget)
        }
        CertLine::GoalCost(goal, cost) => push_goal_cost(text, *goal, *cost),
        CertLine::Plan(actions) => push_plan(text, actions),
        CertLine::Table => push_text(text, "table"),
        CertLine::Cuts(bound, state) => push_cuts(text, *bound, state),
        CertLine::Set(atoms) => push_set(text, atoms),
        CertLine::Steps(bound, state) => push_steps(text, *bound, state),
        CertLine::End => push_text(text, "end"),
        CertLine::Verdict(goal, recognised) => push_verdict(text, *goal, *recognised),
        CertLine::Wcd(Some(pair)) => push_pair(text, *pair),
        CertLine::Wcd(None) => push_text(text, "wcd none"),
        CertLine::Prefix(actions) => push_prefix(text, actions),
        CertLine::Live(depth, goals, state) => push_live(text, *depth, goals, state),
        CertLine::Design(count, wcd) => push_design(text, *count, *wcd),
        CertLine::Remove(actions) => push_remove(text, actions),
        CertLine::Named(number, goal, removed) => push_named(text, *number, *goal, removed),
        CertLine::Tree(members, least) => push_tree(text, *members, *least),
        CertLine::Branch(first, second) => push_branch(text, *first, *second),
        CertLine::Leaf(goal) => push_leaf(text, *goal),
        CertLine::LeafUse(goal, table) => push_leaf_use(text, *goal, *table),
        CertLine::Done => push_text(text, "done"),
    }
}
