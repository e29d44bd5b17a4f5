ghost use Rattle.std.specs.Prelude.{◌≡◌, ◌+◌, ◌<◌, ◌++◌, length, map, All, IfSome, IfOk, OnOk, codes, Some};
ghost use Rattle.std.specs.Option.{option_map};
ghost use Rattle.std.specs.Fmt.{decimal};
ghost use Rattle.ground_all.specs.Grounding.{instances};
ghost use Rattle.report_text.specs.Reports.{action_names, name_of, plan_text, cost_text, cost_line, cost_report, plan_line, witness_lines, wcd_report, IsOver};

use grd_base::{ActionId, GoalId, OutOfMemory};
use ground_all::Grounded;
use std::alloc::Global;
use std::io::Write;
use strips_model::Witness;

/// The report of what was found for each goal: an optimal plan, or that there is no plan. The
/// world gives the texts of the actions.
pub fn cost_report(
    alloc: Global,
    world: &Grounded<'_>,
    answers: &[Option<Vec<ActionId>>],
) -> Result<Vec<u8>, OutOfMemory>
    requires { All
        (λ found. IfSome found (λ plan. All (λ a. a.0 < length (instances world.now.typed)) plan.items))
        answers.now }
    ensures { IfOk result
        (λ text. text.items ≡ cost_report (action_names world.now.typed)
        (map (option_map (λ plan. plan.items)) answers.now)) }
{
    let goals = answers.len();
    let mut report = format!(in alloc; "goals {goals}\n")?.into_bytes();
    for (i, found) in answers.iter().enumerate() {
        push_line(&mut report, world, i as u64 + 1, found)?;
    }
    Ok(report)
}

/// The report of what was found for each goal, and of what two goals have in common.
pub fn wcd_report(
    alloc: Global,
    world: &Grounded<'_>,
    answers: &[Option<Vec<ActionId>>],
    wcd: &Option<Witness>,
) -> Result<Vec<u8>, OutOfMemory>
    requires plans { All
        (λ found. IfSome found (λ plan. All (λ a. a.0 < length (instances world.now.typed)) plan.items))
        answers.now }
    requires witness { IfSome wcd.now (IsOver (length (instances world.now.typed))) }
    ensures { IfOk result
        (λ text. text.items ≡ wcd_report (action_names world.now.typed)
        (map (option_map (λ plan. plan.items)) answers.now) wcd.now) }
{
    let mut report = cost_report(alloc, world, answers)?;
    match wcd {
        Some(witness) => push_witness(&mut report, world, witness)?,
        None => report.extend_from_slice(b"wcd none\n")?,
    }
    Ok(report)
}

/// Writes the lines of a common sequence and its two plans.
fn push_witness(
    report: &mut Vec<u8>,
    world: &Grounded<'_>,
    witness: &Witness,
) -> Result<(), OutOfMemory>
    requires { IsOver (length (instances world.now.typed)) witness.now }
    ensures { OnOk result
        (report.new.items ≡ report.old.items ++ witness_lines
        (action_names world.now.typed) witness.now) }
{
    let first = number_of(witness.goals.0);
    let second = number_of(witness.goals.1);
    push_length(report, witness.prefix.len() as u64, first, second)?;
    report.extend_from_slice(b"prefix")?;
    push_actions(report, world, &witness.prefix)?;
    report.extend_from_slice(b"\n")?;
    push_plan_line(report, world, first, &witness.plans.0)?;
    push_plan_line(report, world, second, &witness.plans.1)
}

/// The number of a goal in texts, which count goals from 1.
pub fn number_of(goal: GoalId) -> u64
    ensures { result ≡ goal.0 + 1 }
{
    u64::from(goal.0) + 1
}

/// Writes the line of the wcd and its two goals.
fn push_length(
    report: &mut Vec<u8>,
    length: u64,
    first: u64,
    second: u64,
) -> Result<(), OutOfMemory>
    ensures { OnOk result
        (report.new.items ≡ report.old.items ++
        (codes "wcd " ++ decimal length ++ codes " goals " ++ decimal first ++ codes " " ++ decimal second ++ codes "\n")) }
{
    write!(report, "wcd {length} goals {first} {second}\n").map_err(|_| OutOfMemory)
}

/// Writes the line of a plan.
fn push_plan_line(
    report: &mut Vec<u8>,
    world: &Grounded<'_>,
    goal: u64,
    plan: &[ActionId],
) -> Result<(), OutOfMemory>
    requires { All (λ a. a.0 < length (instances world.now.typed)) plan.now }
    ensures { OnOk result
        (report.new.items ≡ report.old.items ++ plan_line
        (action_names world.now.typed) goal plan.now) }
{
    report.extend_from_slice(b"plan ")?;
    push_number(report, goal)?;
    push_actions(report, world, plan)?;
    report.extend_from_slice(b"\n")?;
    Ok(())
}

/// Writes the line of a goal.
fn push_line(
    report: &mut Vec<u8>,
    world: &Grounded<'_>,
    goal: u64,
    found: &Option<Vec<ActionId>>,
) -> Result<(), OutOfMemory>
    requires { IfSome found.now (λ plan. All (λ a. a.0 < length (instances world.now.typed)) plan.items) }
    ensures { OnOk result
        (report.new.items ≡ report.old.items ++ cost_line
        (action_names world.now.typed) goal (option_map (λ plan. plan.items) found.now)) }
{
    report.extend_from_slice(b"goal ")?;
    push_number(report, goal)?;
    report.extend_from_slice(b" cost ")?;
    match found {
        Some(plan) => push_plan(report, world, plan)?,
        None => report.extend_from_slice(b"none")?,
    }
    report.extend_from_slice(b"\n")?;
    Ok(())
}

/// Writes a number in decimal. Writing to a vector fails for want of memory alone.
fn push_number(report: &mut Vec<u8>, number: u64) -> Result<(), OutOfMemory>
    ensures { OnOk result (report.new.items ≡ report.old.items ++ decimal number) }
{
    write!(report, "{number}").map_err(|_| OutOfMemory)
}

/// Writes the length of a plan and its actions.
fn push_plan(
    report: &mut Vec<u8>,
    world: &Grounded<'_>,
    plan: &[ActionId],
) -> Result<(), OutOfMemory>
    requires { All (λ a. a.0 < length (instances world.now.typed)) plan.now }
    ensures { OnOk result
        (report.new.items ≡ report.old.items ++ cost_text
        (action_names world.now.typed) (Some plan.now)) }
{
    push_number(report, plan.len() as u64)?;
    push_actions(report, world, plan)
}

/// Writes a space and an action, for each action.
fn push_actions(
    report: &mut Vec<u8>,
    world: &Grounded<'_>,
    plan: &[ActionId],
) -> Result<(), OutOfMemory>
    requires { All (λ a. a.0 < length (instances world.now.typed)) plan.now }
    ensures { OnOk result
        (report.new.items ≡ report.old.items ++ plan_text
        (action_names world.now.typed) plan.now) }
{
    for a in plan {
        push_action(report, world, *a)?;
    }
    Ok(())
}

/// Writes a space and an action.
fn push_action(report: &mut Vec<u8>, world: &Grounded<'_>, a: ActionId) -> Result<(), OutOfMemory>
    requires { a.0 < length (instances world.now.typed) }
    ensures { OnOk result
        (report.new.items ≡ report.old.items ++
        (codes " " ++ name_of (action_names world.now.typed) a)) }
{
    report.push(b' ')?;
    let start = report.len();
    let length = world.action_name_len(a);
    // Where there is room for the text, the sum fits.
    report.reserve(length)?;
    report.resize(start + length, 0)?;
    world.action_name(a, &mut report[start..]);
    Ok(())
}
