// The words of the program: which fault of them is told, and in which forms they are taken.
use crate::runs::{done, ends, expect_run, expect_without_files, words_of};
use crate::samples::{COST, fork};
use command_words::{Command, Job, read_words};
use std::alloc::Global;
use std::process::Abort;
use std::test::Fail;

/// Words, and what is told of them.
const FAULTY_WORDS: &str = "\
|no command\n\
solve --domain d|unknown command\n\
--help|unknown command\n\
COST --domain d|unknown command\n\
cost --help|word 2\n\
wcd --|word 2\n\
cost --domain d --version --problem p|word 4\n\
cost stray --domain d|word 2\n\
cost --domain d stray|word 4\n\
cost --DOMAIN d|word 2\n\
cost --budget 1 --domain d|word 2\n\
wcd --budget=1|word 2\n\
cost --domain|word 2\n\
cost --domain=d --problem|word 3\n\
cost --domain  --problem p|word 3\n\
cost --domain= --problem p|word 2\n\
cost --domain -d|word 3\n\
cost --domain --problem p|word 3\n\
cost --goals g --domain=-d|word 4\n\
cost --domain d --domain e|repeated word 4\n\
cost --domain d --domain=e|repeated word 4\n\
cost --domain=d --domain e|repeated word 3\n\
cost --domain=d --domain=e|repeated word 3\n\
cost --domain d --domain -|repeated word 4\n\
cost --domain d --domain=-|word 4\n\
cost --domain d --domain|word 4\n\
cost --domain d --domain e stray|repeated word 4\n\
wcd|missing --domain\n\
cost --domain d|missing --problem\n\
cost --goals g --domain=d|missing --problem\n\
show --domain d|missing --problem\n\
show --domain d --goals g|word 4\n\
wcd --problem p --max-states 0 --domain d|missing --goals\n\
cost --domain d --max-states 0 stray|word 6\n\
";

/// What is told of words, which stand in one line with a bar before it.
fn expect_fault(rt: &impl Abort, alloc: Global, case: &str) -> Result<(), Fail> {
    let (words, fault) = case.split_once('|').ok_or("a bar")?;
    let line = format!(in alloc; "grd: usage: {fault}\n")?;
    expect_without_files(rt, alloc, words, ends(2, line.as_str()))
}

#[test]
fn first_fault_of_the_words_is_told(rt: HostRuntime) -> Result<(), Fail> {
    for case in FAULTY_WORDS.lines() {
        expect_fault(&rt, rt.alloc(), case)?;
    }
    Ok(())
}

/// `cost` with a number, over no files, ends with the line.
fn expect_number(
    rt: &impl Abort,
    alloc: Global,
    number: &str,
    code: u8,
    line: &str,
) -> Result<(), Fail> {
    let words = format!(in alloc; "{COST} --max-states={number}")?;
    expect_without_files(rt, alloc, words.as_str(), ends(code, line))
}

const REFUSED: &str = "grd: usage: number --max-states\n";

const TAKEN: &str = "grd: domain: read failed\n";

/// Limits on states, the exit status, and what is told.
const NUMBERS: &[(&str, u8, &str)] = &[
    ("0", 2, REFUSED),
    ("200001", 2, REFUSED),
    ("00000000001", 2, REFUSED),
    ("12345678901", 2, REFUSED),
    ("18446744073709551617", 2, REFUSED),
    ("1x", 2, REFUSED),
    ("+1", 2, REFUSED),
    ("1_000", 2, REFUSED),
    ("0x1", 2, REFUSED),
    ("1.0", 2, REFUSED),
    ("1", 5, TAKEN),
    ("200000", 5, TAKEN),
    ("0000000001", 5, TAKEN),
    ("0000200000", 5, TAKEN),
];

#[test]
fn numbers_are_1_to_10_digits_in_their_range(rt: HostRuntime) -> Result<(), Fail> {
    for (number, code, line) in NUMBERS {
        expect_number(&rt, rt.alloc(), number, *code, line)?;
    }
    Ok(())
}

/// The words of `cost` in several orders and forms.
const ORDERS: [&str; 3] = [
    "cost --goals g --problem p --domain d",
    "cost --max-states 5 --problem=p --goals g --domain=d",
    "cost --goals=g --domain=d --max-states=200000 --problem=p",
];

#[test]
fn items_are_taken_in_any_order_and_form(rt: HostRuntime) -> Result<(), Fail> {
    for words in ORDERS {
        let wanted = done("goals 1\ngoal 1 cost 1 (a)\n");
        expect_run(&rt, rt.alloc(), words, fork("(at1)"), wanted)?;
    }
    Ok(())
}

#[test]
fn items_in_any_order_and_form_name_files(rt: HostRuntime) -> Result<(), Fail> {
    for words in ORDERS {
        let wanted = ends(5, "grd: domain: read failed\n");
        expect_without_files(&rt, rt.alloc(), words, wanted)?;
    }
    Ok(())
}

/// Whether the job has this command, these names of files and this limit on states.
fn is(job: &Job, wanted: &PlainJob) -> bool {
    job.command == wanted.command
        && job.domain.as_str() == wanted.domain
        && job.problem.as_str() == wanted.problem
        && job.goals.as_str() == wanted.goals
        && job.limits.states == wanted.states
}

/// Whether the words ask for this job.
fn has_job(alloc: Global, words: &str, wanted: &PlainJob) -> Result<bool, Fail> {
    let words = words_of(alloc, words)?;
    let job = read_words(alloc, &words)?;
    Ok(is(&job, wanted))
}

/// A job as plain data.
struct PlainJob {
    command: Command,
    domain: &'static str,
    problem: &'static str,
    goals: &'static str,
    states: u32,
}

/// Words, and the jobs for which they ask.
const JOBS: &[(&str, PlainJob)] = &[
    (
        COST,
        PlainJob {
            command: Command::Cost,
            domain: "d",
            problem: "p",
            goals: "g",
            states: 100_000,
        },
    ),
    (
        "wcd --max-states 0000000005 --problem=p --goals g --domain=d",
        PlainJob {
            command: Command::Wcd,
            domain: "d",
            problem: "p",
            goals: "g",
            states: 5,
        },
    ),
    (
        "show --problem q --domain=e",
        PlainJob {
            command: Command::Show,
            domain: "e",
            problem: "q",
            goals: "",
            states: 100_000,
        },
    ),
];

#[test]
fn jobs_are_read(rt: HostRuntime) -> Result<(), Fail> {
    for (words, wanted) in JOBS {
        assert!(rt; has_job(rt.alloc(), words, wanted)?, "{words}");
    }
    Ok(())
}
