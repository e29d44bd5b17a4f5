ghost use Rattle.std.specs.Prelude.{◌≡◌, ◌++◌, IfOk, OnOk, string_bytes, codes};
ghost use Rattle.std.specs.Fmt.{decimal};
ghost use Rattle.grd_program.specs.Errors.{role_text, usage_text, goals_text, feature_text, place_text, tree_text, pddl_text, kind_text, typing_text, count_text, refusal_text, error_text};

use crate::status::{LimitFault, Refusal, Status, Target};
use command_words::UsageFault;
use goal_files::GoalFault;
use grd_base::{FileRole, OutOfMemory};
use ground_all::GroundFault;
use pddl_reader::{Feature, PddlFault, TreeFault};
use report_text::number_of;
use std::alloc::Global;
use std::fmt::Write;
use type_check::{TypeFault, TypeKind};

/// The line of want of memory. It is a constant, so that it takes none.
pub(crate) const OUT_OF_MEMORY: &[u8] = b"grd: out of memory\n";

/// The line of a failed write. It is a constant, so that it takes no memory.
pub(crate) fn write_failed(target: Target) -> &'static [u8]
    ensures { result.now ≡ error_text (Status.WriteFailed target) }
{
    match target {
        Target::Output => b"grd: output: write failed\n",
        Target::Certificate => b"grd: certificate: write failed\n",
    }
}

/// The line that a status writes to the error stream, with its line feed. It is empty for Done.
pub fn error_line(alloc: Global, status: &Status) -> Result<Vec<u8>, OutOfMemory>
    ensures { IfOk result (λ line. line.items ≡ error_text status.now) }
{
    let mut line = String::new(alloc);
    match status {
        Status::Done => {}
        Status::Refused(refusal) => push_refusal(&mut line, refusal)?,
        Status::Usage(fault) => push_usage(&mut line, fault)?,
        Status::Limit(LimitFault::States(goal, states)) => {
            push_limit(&mut line, number_of(*goal), *states)?;
        }
        Status::ReadFailed(role) => push_read_failed(&mut line, role)?,
        Status::WriteFailed(target) => return Ok(Vec::from_slice(alloc, write_failed(*target))?),
        Status::OutOfMemory => return Ok(Vec::from_slice(alloc, OUT_OF_MEMORY)?),
    }
    Ok(line.into_bytes())
}

/// Writes the line of a refused file.
fn push_refusal(line: &mut String, refusal: &Refusal) -> Result<(), OutOfMemory>
    ensures { OnOk result
        (string_bytes line.new ≡ string_bytes line.old ++
        (codes "grd: " ++ refusal_text refusal.now ++ codes "\n")) }
{
    line.push_str("grd: ")?;
    match refusal {
        Refusal::TooLong(role, limit) => push_too_long(line, role, *limit)?,
        Refusal::Pddl(role, fault) => push_pddl(line, role, fault)?,
        Refusal::Typing(fault) => push_typing(line, fault)?,
        Refusal::Goals(fault) => push_goals(line, fault)?,
        Refusal::Count(fault) => push_count(line, fault)?,
    }
    line.push_str("\n")?;
    Ok(())
}

/// Writes what happened to a file.
fn push_role(line: &mut String, role: &FileRole, what: &str) -> Result<(), OutOfMemory>
    ensures { OnOk result
        (string_bytes line.new ≡ string_bytes line.old ++ (role_text role.now ++ what.now)) }
{
    line.push_str(name_of(role))?;
    line.push_str(what)?;
    Ok(())
}

/// Writes that a file is too long.
fn push_too_long(line: &mut String, role: &FileRole, limit: u64) -> Result<(), OutOfMemory>
    ensures { OnOk result
        (string_bytes line.new ≡ string_bytes line.old ++
        (role_text role.now ++ codes ": longer than " ++ decimal limit ++ codes " bytes")) }
{
    let name = name_of(role);
    write!(line, "{name}: longer than {limit} bytes")?;
    Ok(())
}

/// Writes what is at fault in a domain or a problem.
fn push_pddl(line: &mut String, role: &FileRole, fault: &PddlFault) -> Result<(), OutOfMemory>
    ensures { OnOk result
        (string_bytes line.new ≡ string_bytes line.old ++
        (role_text role.now ++ codes ": " ++ pddl_text fault.now)) }
{
    push_role(line, role, ": ")?;
    push_pddl_fault(line, fault)
}

/// Writes what is at fault in a domain or a problem, by its place.
fn push_pddl_fault(line: &mut String, fault: &PddlFault) -> Result<(), OutOfMemory>
    ensures { OnOk result
        (string_bytes line.new ≡ string_bytes line.old ++ pddl_text fault.now) }
{
    match fault {
        PddlFault::Lex(at) => push_place(line, *at, "bad byte")?,
        PddlFault::Tree(fault) => push_tree(line, fault)?,
        PddlFault::Shape(at) => push_place(line, *at, "shape")?,
        PddlFault::Unsupported(at, feature) => push_feature(line, *at, feature)?,
        PddlFault::DoubledSection(at) => push_place(line, *at, "doubled section")?,
        PddlFault::OutOfMemory => {}
    }
    Ok(())
}

/// Writes what is at fault in the brackets of a text.
fn push_tree(line: &mut String, fault: &TreeFault) -> Result<(), OutOfMemory>
    ensures { OnOk result
        (string_bytes line.new ≡ string_bytes line.old ++ tree_text fault.now) }
{
    match fault {
        TreeFault::Nothing => line.push_str("empty")?,
        TreeFault::TooDeep(at) => push_place(line, *at, "too deep")?,
        TreeFault::Unopened(at) => push_place(line, *at, "unopened")?,
        TreeFault::Trailing(at) => push_place(line, *at, "trailing")?,
        TreeFault::Unclosed(at) => push_place(line, *at, "unclosed")?,
        TreeFault::OutOfMemory => {}
    }
    Ok(())
}

/// Writes what is at fault at a place.
fn push_place(line: &mut String, at: u32, what: &str) -> Result<(), OutOfMemory>
    ensures { OnOk result
        (string_bytes line.new ≡ string_bytes line.old ++ place_text at what.now) }
{
    write!(line, "byte {at}: {what}")?;
    Ok(())
}

/// Writes which part of PDDL is refused at a place.
fn push_feature(line: &mut String, at: u32, feature: &Feature) -> Result<(), OutOfMemory>
    ensures { OnOk result
        (string_bytes line.new ≡ string_bytes line.old ++
        place_text at (codes "unsupported " ++ feature_text feature.now)) }
{
    let name = feature_name(feature);
    write!(line, "byte {at}: unsupported {name}")?;
    Ok(())
}

/// What a part of PDDL that is refused is called in messages.
fn feature_name(feature: &Feature) -> &'static str
    ensures { result.now ≡ feature_text feature.now }
{
    match feature {
        Feature::Requirement => "requirement",
        Feature::Functions => "functions",
        Feature::Derived => "derived predicate",
        Feature::Durative => "durative action",
        Feature::Constraints => "constraints",
        Feature::Metric => "metric",
        Feature::EitherOfNames => "either",
        Feature::Disjunction => "disjunction",
        Feature::Implication => "implication",
        Feature::Quantifier => "quantifier",
        Feature::Conditional => "conditional effect",
        Feature::Preference => "preference",
        Feature::NumericEffect => "numeric effect",
        Feature::NumericCondition => "numeric condition",
        Feature::Equality => "equality",
        Feature::NegativeInit => "negative initial atom",
    }
}

/// Writes what is at fault in the typing, by its place.
fn push_typing(line: &mut String, fault: &TypeFault) -> Result<(), OutOfMemory>
    ensures { OnOk result
        (string_bytes line.new ≡ string_bytes line.old ++ typing_text fault.now) }
{
    push_role(line, &fault.file, ": ")?;
    push_place(line, fault.at, kind_name(&fault.kind))
}

/// What a broken rule of typing is called in messages.
fn kind_name(kind: &TypeKind) -> &'static str
    ensures { result.now ≡ kind_text kind.now }
{
    match kind {
        TypeKind::UnknownType => "unknown type",
        TypeKind::TypeCycle => "type cycle",
        TypeKind::Doubled => "doubled",
        TypeKind::UnknownPredicate => "unknown predicate",
        TypeKind::WrongCount => "wrong count",
        TypeKind::WrongType => "wrong type",
        TypeKind::UnknownName => "unknown name",
        TypeKind::UnboundVariable => "unbound variable",
        TypeKind::OtherDomain => "other domain",
        TypeKind::TooManyObjects => "too many objects",
        TypeKind::TooManyParameters => "too many parameters",
        TypeKind::TooManyLiterals => "too many literals",
    }
}

/// Writes what a world has too many of.
fn push_count(line: &mut String, fault: &GroundFault) -> Result<(), OutOfMemory>
    ensures { OnOk result (string_bytes line.new ≡ string_bytes line.old ++ count_text fault.now) }
{
    match fault {
        GroundFault::TooManyAtoms(count) => write!(line, "{count} atoms, limit 3072")?,
        GroundFault::TooManyActions(count) => write!(line, "{count} actions, limit 1048576")?,
        GroundFault::OutOfMemory => {}
    }
    Ok(())
}

/// Writes what is at fault in a goals file.
fn push_goals(line: &mut String, fault: &GoalFault) -> Result<(), OutOfMemory>
    ensures { OnOk result
        (string_bytes line.new ≡ string_bytes line.old ++ (codes "goals: " ++ goals_text fault.now)) }
{
    match fault {
        GoalFault::Shape(number) => write!(line, "goals: line {number}: shape")?,
        GoalFault::UnknownAtom(number) => write!(line, "goals: line {number}: unknown atom")?,
        GoalFault::NoGoal => line.push_str("goals: no goal")?,
        GoalFault::TooManyGoals(number) => write!(line, "goals: {number} goals, limit 32")?,
        GoalFault::OutOfMemory => line.push_str("goals: ")?,
    }
    Ok(())
}

/// Writes the line of faulty words.
fn push_usage(line: &mut String, fault: &UsageFault) -> Result<(), OutOfMemory>
    ensures { OnOk result
        (string_bytes line.new ≡ string_bytes line.old ++
        (codes "grd: usage: " ++ usage_text fault.now ++ codes "\n")) }
{
    line.push_str("grd: usage: ")?;
    push_fault(line, fault)?;
    line.push_str("\n")?;
    Ok(())
}

/// Writes what is at fault in the words.
fn push_fault(line: &mut String, fault: &UsageFault) -> Result<(), OutOfMemory>
    ensures { OnOk result
        (string_bytes line.new ≡ string_bytes line.old ++ usage_text fault.now) }
{
    match fault {
        UsageFault::NoCommand => line.push_str("no command")?,
        UsageFault::UnknownCommand => line.push_str("unknown command")?,
        UsageFault::BadItem(place) => write!(line, "word {place}")?,
        UsageFault::Repeated(place) => write!(line, "repeated word {place}")?,
        UsageFault::Missing(name) => push_option(line, "missing --", name.name())?,
        UsageFault::BadNumber(name) => push_option(line, "number --", name.name())?,
    }
    Ok(())
}

/// Writes what is said of an option.
fn push_option(line: &mut String, what: &str, name: &str) -> Result<(), OutOfMemory>
    ensures { OnOk result
        (string_bytes line.new ≡ string_bytes line.old ++ (what.now ++ name.now)) }
{
    line.push_str(what)?;
    line.push_str(name)?;
    Ok(())
}

/// Writes that a file could not be read.
fn push_read_failed(line: &mut String, role: &FileRole) -> Result<(), OutOfMemory>
    ensures { OnOk result
        (string_bytes line.new ≡ string_bytes line.old ++
        (codes "grd: " ++ role_text role.now ++ codes ": read failed\n")) }
{
    let name = name_of(role);
    write!(line, "grd: {name}: read failed\n")?;
    Ok(())
}

/// Writes which limit was met.
fn push_limit(line: &mut String, goal: u64, states: u32) -> Result<(), OutOfMemory>
    ensures { OnOk result
        (string_bytes line.new ≡ string_bytes line.old ++
        (codes "grd: limit: more than " ++ decimal states ++ codes " states near goal "
        ++ decimal goal ++ codes "\n")) }
{
    write!(
        line,
        "grd: limit: more than {states} states near goal {goal}\n"
    )?;
    Ok(())
}

/// What a file is called in messages.
fn name_of(role: &FileRole) -> &'static str
    ensures { result.now ≡ role_text role.now }
{
    match role {
        FileRole::Domain => "domain",
        FileRole::Problem => "problem",
        FileRole::Goals => "goals",
        FileRole::Observations => "observations",
        FileRole::Certificate => "certificate",
        FileRole::Steps => "steps",
    }
}
