ghost use Rattle.std.specs.Prelude.{◌≡◌, IfOk};
ghost use Rattle.std.specs.Option.{option_map};
ghost use Rattle.cert_text.specs.Values.{plain};
ghost use Rattle.cert_text.specs.Reading.{words_left, ends_with, head_line, counts_line, goal_line, row_of, verdict_line, pair_line, wcd_line, live_line, design_line, named_line, tree_line, branch_line, leaf_line, use_line, line_of};
ghost use Rattle.cert_text.specs.declared.keyword.Keyword.TheVariants as key;

use crate::line::CertLine;
use crate::words::{
    all_numbers, is_word, next_key, next_number, next_number_or, next_word, numbers_up_to,
};
use grd_base::Bound;
use std::alloc::{AllocError, Global};

/// The line, where no word is left.
pub(crate) fn ended(rest: &[u8], line: CertLine) -> Option<CertLine>
    ensures { option_map plain result ≡ ends_with (words_left rest.now) (plain line) }
{
    if rest.is_empty() { Some(line) } else { None }
}

pub(crate) fn read_head(rest: &[u8]) -> Option<CertLine>
    ensures { option_map plain result ≡ head_line (words_left rest.now) }
{
    let rest = next_key(rest, "certificate")?;
    let (version, rest) = next_word(rest)?;
    if is_word(version, "1") {
        ended(rest, CertLine::Head)
    } else if is_word(version, "2") {
        ended(rest, CertLine::HeadTwo)
    } else {
        None
    }
}

pub(crate) fn read_counts(rest: &[u8]) -> Option<CertLine>
    ensures { option_map plain result ≡ counts_line (words_left rest.now) }
{
    let (atoms, rest) = next_number(rest)?;
    let (actions, rest) = next_number(rest)?;
    let (goals, rest) = next_number(rest)?;
    let (observations, rest) = next_number(rest)?;
    let (budget, rest) = next_number(rest)?;
    ended(
        rest,
        CertLine::Counts(atoms, actions, goals, observations, budget),
    )
}

pub(crate) fn read_goal(rest: &[u8]) -> Option<CertLine>
    ensures { option_map plain result ≡ goal_line (words_left rest.now) }
{
    let (goal, rest) = next_number(rest)?;
    let rest = next_key(rest, "cost")?;
    let (cost, rest) = next_number_or(rest, "none")?;
    ended(rest, CertLine::GoalCost(goal, cost))
}

pub(crate) fn read_plan(alloc: Global, rest: &[u8]) -> Result<Option<CertLine>, AllocError>
    ensures { IfOk result (λ found. option_map plain found ≡ line_of key.Plan (words_left rest.now)) }
{
    match all_numbers(alloc, rest)? {
        Some(actions) => Ok(Some(CertLine::Plan(actions))),
        None => Ok(None),
    }
}

/// The bound and the state of a row.
fn read_row(alloc: Global, rest: &[u8]) -> Result<Option<(Bound, Vec<u32>)>, AllocError>
    ensures { IfOk result (λ found. option_map (λ x. (x.0, x.1.items)) found ≡ row_of (words_left rest.now)) }
{
    let Some((number, rest)) = next_number_or(rest, "never") else {
        return Ok(None);
    };
    let Some(rest) = next_key(rest, "state") else {
        return Ok(None);
    };
    let bound = match number {
        Some(number) => Bound::Steps(number),
        None => Bound::Never,
    };
    match all_numbers(alloc, rest)? {
        Some(state) => Ok(Some((bound, state))),
        None => Ok(None),
    }
}

pub(crate) fn read_cuts(alloc: Global, rest: &[u8]) -> Result<Option<CertLine>, AllocError>
    ensures { IfOk result (λ found. option_map plain found ≡ line_of key.Cuts (words_left rest.now)) }
{
    match read_row(alloc, rest)? {
        Some((bound, state)) => Ok(Some(CertLine::Cuts(bound, state))),
        None => Ok(None),
    }
}

pub(crate) fn read_set(alloc: Global, rest: &[u8]) -> Result<Option<CertLine>, AllocError>
    ensures { IfOk result (λ found. option_map plain found ≡ line_of key.Set (words_left rest.now)) }
{
    match all_numbers(alloc, rest)? {
        Some(atoms) => Ok(Some(CertLine::Set(atoms))),
        None => Ok(None),
    }
}

pub(crate) fn read_steps(alloc: Global, rest: &[u8]) -> Result<Option<CertLine>, AllocError>
    ensures { IfOk result (λ found. option_map plain found ≡ line_of key.Steps (words_left rest.now)) }
{
    match read_row(alloc, rest)? {
        Some((bound, state)) => Ok(Some(CertLine::Steps(bound, state))),
        None => Ok(None),
    }
}

pub(crate) fn read_verdict(rest: &[u8]) -> Option<CertLine>
    ensures { option_map plain result ≡ verdict_line (words_left rest.now) }
{
    let (goal, rest) = next_number(rest)?;
    let (answer, rest) = next_word(rest)?;
    if is_word(answer, "yes") {
        ended(rest, CertLine::Verdict(goal, true))
    } else if is_word(answer, "no") {
        ended(rest, CertLine::Verdict(goal, false))
    } else {
        None
    }
}

pub(crate) fn read_wcd(rest: &[u8]) -> Option<CertLine>
    ensures { option_map plain result ≡ wcd_line (words_left rest.now) }
{
    let (wcd, rest) = next_number_or(rest, "none")?;
    match wcd {
        None => ended(rest, CertLine::Wcd(None)),
        Some(length) => read_pair(length, rest),
    }
}

fn read_pair(length: u32, rest: &[u8]) -> Option<CertLine>
    ensures { option_map plain result ≡ pair_line length (words_left rest.now) }
{
    let rest = next_key(rest, "goals")?;
    let (first, rest) = next_number(rest)?;
    let (second, rest) = next_number(rest)?;
    ended(rest, CertLine::Wcd(Some((length, first, second))))
}

pub(crate) fn read_prefix(alloc: Global, rest: &[u8]) -> Result<Option<CertLine>, AllocError>
    ensures { IfOk result (λ found. option_map plain found ≡ line_of key.Prefix (words_left rest.now)) }
{
    match all_numbers(alloc, rest)? {
        Some(actions) => Ok(Some(CertLine::Prefix(actions))),
        None => Ok(None),
    }
}

pub(crate) fn read_live(alloc: Global, rest: &[u8]) -> Result<Option<CertLine>, AllocError>
    ensures { IfOk result (λ found. option_map plain found ≡ live_line (words_left rest.now)) }
{
    let Some((depth, rest)) = next_number(rest) else {
        return Ok(None);
    };
    let Some(rest) = next_key(rest, "goals") else {
        return Ok(None);
    };
    let Some((goals, rest)) = numbers_up_to(alloc, rest, "state")? else {
        return Ok(None);
    };
    let Some(state) = all_numbers(alloc, rest)? else {
        return Ok(None);
    };
    if goals.is_empty() {
        return Ok(None);
    }
    Ok(Some(CertLine::Live(depth, goals, state)))
}

pub(crate) fn read_design(rest: &[u8]) -> Option<CertLine>
    ensures { option_map plain result ≡ design_line (words_left rest.now) }
{
    let (count, rest) = next_number(rest)?;
    let rest = next_key(rest, "wcd")?;
    let (wcd, rest) = next_number_or(rest, "none")?;
    ended(rest, CertLine::Design(count, wcd))
}

pub(crate) fn read_remove(alloc: Global, rest: &[u8]) -> Result<Option<CertLine>, AllocError>
    ensures { IfOk result (λ found. option_map plain found ≡ line_of key.Remove (words_left rest.now)) }
{
    match all_numbers(alloc, rest)? {
        Some(actions) => Ok(Some(CertLine::Remove(actions))),
        None => Ok(None),
    }
}

pub(crate) fn read_named(alloc: Global, rest: &[u8]) -> Result<Option<CertLine>, AllocError>
    ensures { IfOk result (λ found. option_map plain found ≡ named_line (words_left rest.now)) }
{
    let Some((number, rest)) = next_number(rest) else {
        return Ok(None);
    };
    let Some(rest) = next_key(rest, "goal") else {
        return Ok(None);
    };
    let Some((goal, rest)) = next_number(rest) else {
        return Ok(None);
    };
    let Some(rest) = next_key(rest, "without") else {
        return Ok(None);
    };
    match all_numbers(alloc, rest)? {
        Some(removed) => Ok(Some(CertLine::Named(number, goal, removed))),
        None => Ok(None),
    }
}

pub(crate) fn read_tree(rest: &[u8]) -> Option<CertLine>
    ensures { option_map plain result ≡ tree_line (words_left rest.now) }
{
    let (members, rest) = next_number(rest)?;
    let (least, rest) = next_number(rest)?;
    ended(rest, CertLine::Tree(members, least))
}

pub(crate) fn read_branch(rest: &[u8]) -> Option<CertLine>
    ensures { option_map plain result ≡ branch_line (words_left rest.now) }
{
    let (first, rest) = next_number(rest)?;
    let (second, rest) = next_number(rest)?;
    ended(rest, CertLine::Branch(first, second))
}

pub(crate) fn read_leaf(rest: &[u8]) -> Option<CertLine>
    ensures { option_map plain result ≡ leaf_line (words_left rest.now) }
{
    let (goal, rest) = next_number(rest)?;
    match next_word(rest) {
        None => Some(CertLine::Leaf(goal)),
        Some((word, rest)) => read_use(goal, word, rest),
    }
}

/// A leaf with the number of its table, behind this word.
fn read_use(goal: u32, word: &[u8], rest: &[u8]) -> Option<CertLine>
    ensures { option_map plain result ≡ use_line goal word.now (words_left rest.now) }
{
    if !is_word(word, "use") {
        return None;
    }
    let (table, rest) = next_number(rest)?;
    ended(rest, CertLine::LeafUse(goal, table))
}
