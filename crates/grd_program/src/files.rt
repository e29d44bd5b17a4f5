ghost use Rattle.std.specs.Prelude.{◌≡◌, ℕ, ◌^◌, ◌≤◌, List, length, Bool, IfOk, IfErr, OnOk};
ghost use Rattle.pddl_reader.specs.Spelling.{IsDomainText, IsProblemText};
ghost use Rattle.type_check.specs.Typing.{IsShortDomain, IsShortProblem, IsTypedTask};
ghost use Rattle.grd_io.specs.Bytes.{IsWholeFile};
ghost use Rattle.grd_program.specs.Causes.{HasText, HasReadCause, HasDomainCause, HasProblemCause, HasGoalsCause, SpellsOnlyGoals, IsQuiet};
ghost use Rattle.grd_program.specs.Runs.{SpellsOnly, TakesTexts, HasTextsCause};
ghost use Rattle.pddl_print.specs.Spells.{IsSpelledDomain, IsSpelledProblem};

use crate::status::{Refusal, Status};
use command_words::Job;
use goal_files::{GoalFault, read_goals};
use grd_base::FileRole;
use grd_io::{ReadFault, Shelf, read_whole};
use pddl_reader::{Domain, PddlFault, Problem, read_domain, read_problem};
use std::alloc::Global;
use type_check::{Goal, Typed};

/// The most bytes of an input file.
const FILE_LIMIT: u64 = 1 << 20;

/// The bytes of an input file.
fn text_of<F: Shelf>(
    alloc: Global,
    shelf: &mut F,
    role: FileRole,
    name: &str,
) -> Result<Vec<u8>, Status>
    ensures whole { IfOk result (λ text. IsWholeFile (F.told shelf.old name.now) text.items) }
    ensures short { IfOk result (λ text. length text.items ≤ 2 ^ 20) }
    ensures cause { IfErr result
        (HasReadCause role (F.told shelf.old name.now) (F.faults shelf.old) (F.faults shelf.new) name.now) }
    ensures files_stay { (x : List ℕ) → F.told shelf.new x ≡ F.told shelf.old x }
    ensures later { (x : List ℕ) (w : Bool) → F.faults shelf.old x w ≤ F.faults shelf.new x w }
    ensures quiet { OnOk result (IsQuiet (F.faults shelf.old) (F.faults shelf.new)) }
{
    match read_whole(alloc, shelf, name, FILE_LIMIT) {
        Ok(text) => Ok(text),
        Err(ReadFault::Failed) => Err(Status::ReadFailed(role)),
        Err(ReadFault::TooLong(limit)) => Err(Status::Refused(Refusal::TooLong(role, limit))),
        Err(ReadFault::OutOfMemory) => Err(Status::OutOfMemory),
    }
}

/// How a run ends where a domain or a problem is at fault.
fn pddl_status(role: FileRole, fault: PddlFault) -> Status
    ensures memory { fault ≡ PddlFault.OutOfMemory → result ≡ Status.OutOfMemory }
    ensures refused { (fault ≡ PddlFault.OutOfMemory → ⊥)
        → result ≡ Status.Refused (Refusal.Pddl role fault) }
{
    match fault {
        PddlFault::OutOfMemory => Status::OutOfMemory,
        PddlFault::Lex(_)
        | PddlFault::Tree(_)
        | PddlFault::Shape(_)
        | PddlFault::Unsupported(_, _)
        | PddlFault::DoubledSection(_) => Status::Refused(Refusal::Pddl(role, fault)),
    }
}

/// What the first two files of a job spell.
#[derive(Drop)]
pub(crate) struct Texts {
    pub(crate) domain: Domain,
    pub(crate) problem: Problem,
}

/// Reads the domain and then the problem.
pub(crate) fn read_texts<F: Shelf>(alloc: Global, shelf: &mut F, job: &Job) -> Result<Texts, Status>
    ensures taken { IfOk result (λ t. TakesTexts (F.told shelf.old) job.now t.domain t.problem) }
    ensures is_domain { IfOk result (λ t. IsSpelledDomain t.domain) }
    ensures is_problem { IfOk result (λ t. IsSpelledProblem t.problem) }
    ensures short_domain { IfOk result (λ t. IsShortDomain t.domain) }
    ensures short_problem { IfOk result (λ t. IsShortProblem t.problem) }
    ensures cause { IfErr result
        (HasTextsCause (F.told shelf.old) (F.faults shelf.old) (F.faults shelf.new) job.now) }
    ensures files_stay { (x : List ℕ) → F.told shelf.new x ≡ F.told shelf.old x }
    ensures later { (x : List ℕ) (w : Bool) → F.faults shelf.old x w ≤ F.faults shelf.new x w }
    ensures quiet { OnOk result (IsQuiet (F.faults shelf.old) (F.faults shelf.new)) }
{
    let domain = domain_of(alloc, shelf, &job.domain)?;
    let problem = problem_of(alloc, shelf, &job.problem)?;
    Ok(Texts { domain, problem })
}

/// The domain that a file spells.
fn domain_of<F: Shelf>(alloc: Global, shelf: &mut F, name: &str) -> Result<Domain, Status>
    ensures spelled { IfOk result (λ d. HasText (F.told shelf.old name.now) (SpellsOnly IsDomainText d)) }
    ensures is_spelled { IfOk result IsSpelledDomain }
    ensures short { IfOk result IsShortDomain }
    ensures cause { IfErr result
        (HasDomainCause (F.told shelf.old name.now) (F.faults shelf.old) (F.faults shelf.new) name.now) }
    ensures files_stay { (x : List ℕ) → F.told shelf.new x ≡ F.told shelf.old x }
    ensures later { (x : List ℕ) (w : Bool) → F.faults shelf.old x w ≤ F.faults shelf.new x w }
    ensures quiet { OnOk result (IsQuiet (F.faults shelf.old) (F.faults shelf.new)) }
{
    let text = text_of(alloc, shelf, FileRole::Domain, name)?;
    match read_domain(alloc, &text) {
        Ok(domain) => Ok(domain),
        Err(fault) => Err(pddl_status(FileRole::Domain, fault)),
    }
}

/// The problem that a file spells.
fn problem_of<F: Shelf>(alloc: Global, shelf: &mut F, name: &str) -> Result<Problem, Status>
    ensures spelled { IfOk result (λ p. HasText (F.told shelf.old name.now) (SpellsOnly IsProblemText p)) }
    ensures is_spelled { IfOk result IsSpelledProblem }
    ensures short { IfOk result IsShortProblem }
    ensures cause { IfErr result
        (HasProblemCause (F.told shelf.old name.now) (F.faults shelf.old) (F.faults shelf.new) name.now) }
    ensures files_stay { (x : List ℕ) → F.told shelf.new x ≡ F.told shelf.old x }
    ensures later { (x : List ℕ) (w : Bool) → F.faults shelf.old x w ≤ F.faults shelf.new x w }
    ensures quiet { OnOk result (IsQuiet (F.faults shelf.old) (F.faults shelf.new)) }
{
    let text = text_of(alloc, shelf, FileRole::Problem, name)?;
    match read_problem(alloc, &text) {
        Ok(problem) => Ok(problem),
        Err(fault) => Err(pddl_status(FileRole::Problem, fault)),
    }
}

/// The goals that a file spells over a typed domain and problem.
pub(crate) fn goals_of<F: Shelf>(
    alloc: Global,
    shelf: &mut F,
    name: &str,
    typed: &Typed,
) -> Result<Vec<Goal>, Status>
    requires { IsTypedTask typed.now }
    ensures spelled { IfOk result
        (λ goals. HasText (F.told shelf.old name.now)
        (λ text. SpellsOnlyGoals typed.now text goals.items)) }
    ensures few { IfOk result (λ goals. length goals.items ≤ 32) }
    ensures cause { IfErr result
        (HasGoalsCause (F.told shelf.old name.now) (F.faults shelf.old) (F.faults shelf.new) name.now typed.now) }
    ensures files_stay { (x : List ℕ) → F.told shelf.new x ≡ F.told shelf.old x }
    ensures later { (x : List ℕ) (w : Bool) → F.faults shelf.old x w ≤ F.faults shelf.new x w }
    ensures quiet { OnOk result (IsQuiet (F.faults shelf.old) (F.faults shelf.new)) }
{
    let text = text_of(alloc, shelf, FileRole::Goals, name)?;
    match read_goals(alloc, typed, &text) {
        Ok(goals) => Ok(goals),
        Err(fault) => Err(goals_status(fault)),
    }
}

/// How a run ends where a goals file gives no goals.
fn goals_status(fault: GoalFault) -> Status
    ensures memory { fault ≡ GoalFault.OutOfMemory → result ≡ Status.OutOfMemory }
    ensures refused { (fault ≡ GoalFault.OutOfMemory → ⊥)
        → result ≡ Status.Refused (Refusal.Goals fault) }
{
    match fault {
        GoalFault::OutOfMemory => Status::OutOfMemory,
        GoalFault::Shape(_)
        | GoalFault::UnknownAtom(_)
        | GoalFault::NoGoal
        | GoalFault::TooManyGoals(_) => Status::Refused(Refusal::Goals(fault)),
    }
}
