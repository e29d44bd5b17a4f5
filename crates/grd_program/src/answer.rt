ghost use Rattle.std.specs.Prelude.{◌≡◌, ℕ, ◌^◌, ◌<◌, ◌≤◌, List, [], length, map, All, Bool, IfSome, IfOk, IfErr, OnOk, string_bytes};
ghost use Rattle.std.specs.Option.{option_map};
ghost use Rattle.strips_model.specs.Common.{AreRight};
ghost use Rattle.type_check.specs.Typing.{IsTypedTask};
ghost use Rattle.ground_all.specs.Grounding.{instances, ground_task};
ghost use Rattle.grd_program.specs.Causes.{IsQuiet, HasFew, HasCountCause};
ghost use Rattle.report_text.specs.Reports.{action_names};
ghost use Rattle.grd_program.specs.Runs.{IsWcdReport, IsReportOn, TakesFiles, IsReportText, IsTextOf, IsAnswerText, ReadsOnly, HasWordsCause, HasReadingCause, HasFilesCause, HasCommandCause, HasInputCause, HasSearchCause, HasAnswerCause, HasTakenFiles, HasTaken, HasPassed};

use crate::files::goals_of;
use crate::question::Question;
use crate::show::show_text;
use crate::status::{LimitFault, Refusal, Status};
use crate::typed::read_typed;
use command_words::{Command, Job, WordsFault, read_words};
use grd_base::{ActionId, GoalId, Limits};
use grd_io::Shelf;
use ground_all::{GroundFault, Grounded, ground};
use optimal_search::{GoalSearchFault, plans};
use plain_search::wcd;
use report_text::{cost_report, wcd_report};
use std::alloc::Global;
use type_check::{Goal, Typed};

/// The job for which the words ask.
fn job_of(alloc: Global, words: &[String]) -> Result<Job, Status>
    ensures reads { IfOk result (ReadsOnly (map string_bytes words.now)) }
    ensures cause { IfErr result (HasWordsCause (map string_bytes words.now)) }
{
    match read_words(alloc, words) {
        Ok(job) => Ok(job),
        Err(WordsFault::Usage(fault)) => Err(Status::Usage(fault)),
        Err(WordsFault::OutOfMemory) => Err(Status::OutOfMemory),
    }
}

/// What the files of a job spell.
#[derive(Drop)]
struct Inputs {
    typed: Typed,
    goals: Vec<Goal>,
}

/// Reads the three files in their order.
fn read_inputs<F: Shelf>(alloc: Global, shelf: &mut F, job: &Job) -> Result<Inputs, Status>
    ensures taken { IfOk result
        (λ i. TakesFiles (F.told shelf.old) job.now i.typed i.goals.items) }
    ensures task { IfOk result (λ i. IsTypedTask i.typed) }
    ensures few_goals { IfOk result (λ i. length i.goals.items ≤ 32) }
    ensures cause { IfErr result
        (HasReadingCause (F.told shelf.old) (F.faults shelf.old) (F.faults shelf.new) job.now) }
    ensures files_stay { (x : List ℕ) → F.told shelf.new x ≡ F.told shelf.old x }
    ensures later { (x : List ℕ) (w : Bool) → F.faults shelf.old x w ≤ F.faults shelf.new x w }
    ensures quiet { OnOk result (IsQuiet (F.faults shelf.old) (F.faults shelf.new)) }
{
    let typed = read_typed(alloc, shelf, job)?;
    let goals = goals_of(alloc, shelf, &job.goals, &typed)?;
    Ok(Inputs { typed, goals })
}

/// The grounded world of goals over a typed domain and problem, where it is small enough.
fn world_of<'t>(alloc: Global, typed: &'t Typed, goals: &'t [Goal]) -> Result<Grounded<'t>, Status>
    requires task { IsTypedTask typed.now }
    requires few_goals { length goals.now ≤ 32 }
    ensures typed { IfOk result (λ world. world.typed ≡ typed.now) }
    ensures goals { IfOk result (λ world. world.goals ≡ goals.now) }
    ensures few { OnOk result (HasFew typed.now) }
    ensures cause { IfErr result (HasCountCause typed.now) }
{
    match ground(alloc, typed, goals) {
        Ok(world) => Ok(world),
        Err(GroundFault::OutOfMemory) => Err(Status::OutOfMemory),
        Err(fault) => Err(Status::Refused(Refusal::Count(fault))),
    }
}

/// How a run ends where a search has no answer.
fn search_status(fault: GoalSearchFault, states: u32) -> Status
    ensures many { (g : GoalId) → fault ≡ GoalSearchFault.TooManyStates g
        → result ≡ Status.Limit (LimitFault.States g states) }
    ensures memory { fault ≡ GoalSearchFault.OutOfMemory → result ≡ Status.OutOfMemory }
{
    match fault {
        GoalSearchFault::TooManyStates(goal) => Status::Limit(LimitFault::States(goal, states)),
        GoalSearchFault::OutOfMemory => Status::OutOfMemory,
    }
}

/// The report of `wcd` over a world whose costs were found.
#[tactic(auto, using(crate::proofs::WorldAnswers::wcd_in_world))]
fn wcd_on(
    alloc: Global,
    world: &Grounded<'_>,
    states: u32,
    found: &[Option<Vec<ActionId>>],
) -> Result<Vec<u8>, Status>
    requires task { IsTypedTask world.now.typed }
    requires states { 1 ≤ states }
    requires right { AreRight (ground_task world.now.typed world.now.goals) []
        (map (option_map (λ plan. plan.items)) found.now) }
    requires in_range { All
        (λ x. IfSome x (λ plan. All (λ a. a.0 < length (instances world.now.typed)) plan.items)) found.now }
    ensures report { IfOk result
        (λ text. IsWcdReport world.now.typed world.now.goals
        (map (option_map (λ plan. plan.items)) found.now) text.items) }
    ensures cause { IfErr result
        (HasSearchCause Question.Wcd states (ground_task world.now.typed world.now.goals)) }
{
    let witness = match wcd(alloc, world.task(), found, states) {
        Ok(witness) => witness,
        Err(fault) => return Err(search_status(fault, states)),
    };
    Ok(wcd_report(alloc, world, found, &witness)?)
}

/// The report that answers the question about a world.
#[tactic(auto, using(crate::proofs::NearLemmas::near_counts, crate::proofs::WorldAnswers::right_in_world))]
fn report_of(
    alloc: Global,
    question: Question,
    states: u32,
    world: &Grounded<'_>,
) -> Result<Vec<u8>, Status>
    requires task { IsTypedTask world.now.typed }
    requires some_states { 1 ≤ states }
    requires few_states { states ≤ 1000000 }
    ensures report { IfOk result
        (λ text. IsReportOn question world.now.typed world.now.goals text.items) }
    ensures cause { IfErr result
        (HasSearchCause question states (ground_task world.now.typed world.now.goals)) }
{
    let task = world.task();
    let limits = Limits { states, sets: 0 };
    let found = match plans(alloc, task, limits) {
        Ok(found) => found,
        Err(fault) => return Err(search_status(fault, states)),
    };
    match question {
        Question::Costs => Ok(cost_report(alloc, world, &found)?),
        Question::Wcd => wcd_on(alloc, world, states, &found),
    }
}

/// The report that answers the question about goals over a typed domain and problem.
fn report_on(
    alloc: Global,
    question: Question,
    states: u32,
    typed: &Typed,
    goals: &[Goal],
) -> Result<Vec<u8>, Status>
    requires some_states { 1 ≤ states }
    requires few_states { states ≤ 1000000 }
    requires task { IsTypedTask typed.now }
    requires few_goals { length goals.now ≤ 32 }
    ensures report { IfOk result (λ text. IsReportOn question typed.now goals.now text.items) }
    ensures few { OnOk result (HasFew typed.now) }
    ensures cause { IfErr result (HasAnswerCause question states typed.now goals.now) }
{
    let world = world_of(alloc, typed, goals)?;
    report_of(alloc, question, states, &world)
}

/// The report that answers the question about the files of a job.
#[tactic(auto, using(crate::proofs::FileLemmas::reading_files))]
fn report_of_files<F: Shelf>(
    alloc: Global,
    shelf: &mut F,
    question: Question,
    job: &Job,
) -> Result<Vec<u8>, Status>
    requires some_states { 1 ≤ job.now.limits.states }
    requires few_states { job.now.limits.states ≤ 1000000 }
    ensures text { IfOk result
        (λ text. IsReportText question (F.told shelf.old) job.now text.items) }
    ensures taken { OnOk result (HasTakenFiles (F.told shelf.old) job.now) }
    ensures cause { IfErr result
        (HasFilesCause question (F.told shelf.old) (F.faults shelf.old) (F.faults shelf.new) job.now) }
    ensures files_stay { (x : List ℕ) → F.told shelf.new x ≡ F.told shelf.old x }
    ensures later { (x : List ℕ) (w : Bool) → F.faults shelf.old x w ≤ F.faults shelf.new x w }
    ensures quiet { OnOk result (IsQuiet (F.faults shelf.old) (F.faults shelf.new)) }
{
    let inputs = read_inputs(alloc, shelf, job)?;
    let states = job.limits.states;
    report_on(alloc, question, states, &inputs.typed, &inputs.goals)
}

/// What the command of a job prints.
fn text_of_job<F: Shelf>(alloc: Global, shelf: &mut F, job: &Job) -> Result<Vec<u8>, Status>
    requires some_states { 1 ≤ job.now.limits.states }
    requires few_states { job.now.limits.states ≤ 1000000 }
    ensures text { IfOk result
        (λ text. IsTextOf job.now.command (F.told shelf.old) job.now text.items) }
    ensures taken { OnOk result (HasTaken job.now.command (F.told shelf.old) job.now) }
    ensures cause { IfErr result
        (HasCommandCause job.now.command (F.told shelf.old) (F.faults shelf.old) (F.faults shelf.new) job.now) }
    ensures files_stay { (x : List ℕ) → F.told shelf.new x ≡ F.told shelf.old x }
    ensures later { (x : List ℕ) (w : Bool) → F.faults shelf.old x w ≤ F.faults shelf.new x w }
    ensures quiet { OnOk result (IsQuiet (F.faults shelf.old) (F.faults shelf.new)) }
{
    match job.command {
        Command::Cost => report_of_files(alloc, shelf, Question::Costs, job),
        Command::Wcd => report_of_files(alloc, shelf, Question::Wcd, job),
        Command::Show => show_text(alloc, shelf, job),
    }
}

/// What the command for which the words ask prints, or why it prints nothing.
pub(crate) fn answer<F: Shelf>(
    alloc: Global,
    words: &[String],
    shelf: &mut F,
) -> Result<Vec<u8>, Status>
    ensures text { IfOk result
        (λ text. IsAnswerText (F.told shelf.old) (map string_bytes words.now) text.items) }
    ensures passed { OnOk result
        (HasPassed (F.told shelf.old) (F.faults shelf.old) (F.faults shelf.new)
        (map string_bytes words.now)) }
    ensures cause { IfErr result
        (HasInputCause (F.told shelf.old) (F.faults shelf.old) (F.faults shelf.new)
        (map string_bytes words.now)) }
    ensures files_stay { (x : List ℕ) → F.told shelf.new x ≡ F.told shelf.old x }
    ensures later { (x : List ℕ) (w : Bool) → F.faults shelf.old x w ≤ F.faults shelf.new x w }
{
    let job = job_of(alloc, words)?;
    text_of_job(alloc, shelf, &job)
}
