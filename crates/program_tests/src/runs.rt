// Runs words over files in memory, and compares how the run ended and what it wrote.
ghost use Rattle.std.specs.Prelude.{◌≡◌, IfOk, string_bytes};

use crate::samples::Texts;
use grd_io::{MemoryShelf, MemorySink};
use grd_program::run;
use std::alloc::{AllocError, Global};
use std::process::Abort;
use std::str;
use std::test::Fail;

/// The numbers of the calls that fail, from 1. With 0 none does.
#[derive(Clone, Copy)]
pub(crate) struct Failing {
    pub(crate) shelf: u64,
    pub(crate) out: u64,
    pub(crate) err: u64,
}

pub(crate) const NO_FAILURE: Failing = Failing {
    shelf: 0,
    out: 0,
    err: 0,
};

/// How a run is to end: the exit status, and what is written to the output and to the error stream.
#[derive(Clone, Copy)]
pub(crate) struct Wanted<'a> {
    pub(crate) code: u8,
    pub(crate) out: &'a str,
    pub(crate) err: &'a str,
}

/// The whole output is this.
pub(crate) fn done(out: &str) -> Wanted<'_> {
    Wanted {
        code: 0,
        out,
        err: "",
    }
}

/// Nothing is written but this line, and the exit status is the code.
pub(crate) fn ends(code: u8, err: &str) -> Wanted<'_> {
    Wanted { code, out: "", err }
}

/// How a run ended, and what it wrote.
#[derive(Drop)]
pub(crate) struct Outcome {
    pub(crate) code: u8,
    pub(crate) out: String,
    pub(crate) err: String,
}

/// One word more.
fn push_word(alloc: Global, words: &mut Vec<String>, word: &str) -> Result<(), AllocError> {
    let word = String::from_str(alloc, word)?;
    words.push(word)?;
    Ok(())
}

/// The words of a line. Each space ends a word, so that two spaces have an empty word between them.
pub(crate) fn words_of(alloc: Global, line: &str) -> Result<Vec<String>, AllocError> {
    let mut words = Vec::new(alloc);
    for word in line.split_terminator(' ') {
        push_word(alloc, &mut words, word)?;
    }
    Ok(words)
}

/// A file, as a shelf takes it.
fn file(alloc: Global, name: &str, text: &str) -> Result<(String, Vec<u8>), AllocError>
    ensures { IfOk result (λ file. string_bytes file.0 ≡ name.now) }
{
    Ok((
        String::from_str(alloc, name)?,
        Vec::from_slice(alloc, text.as_bytes())?,
    ))
}

/// A shelf with the files d, p and g.
fn shelf_of(alloc: Global, texts: Texts<'_>, failing: u64) -> Result<MemoryShelf, AllocError> {
    let files = vec![in alloc;
        file(alloc, "d", texts.domain)?,
        file(alloc, "p", texts.problem)?,
        file(alloc, "g", texts.goals)?,
    ]?;
    Ok(MemoryShelf::new(alloc, files, vec![in alloc; failing]?))
}

/// What a sink in memory was given.
fn text_in(alloc: Global, sink: &MemorySink) -> Result<String, Fail> {
    Ok(String::from_str(alloc, str::from_utf8(sink.written())?)?)
}

/// Runs words over a shelf.
fn run_over(
    alloc: Global,
    words: &str,
    mut shelf: MemoryShelf,
    failing: Failing,
) -> Result<Outcome, Fail> {
    let words = words_of(alloc, words)?;
    let mut out = MemorySink::new(alloc, vec![in alloc; failing.out]?);
    let mut err = MemorySink::new(alloc, vec![in alloc; failing.err]?);
    let status = run(alloc, &words, &mut shelf, &mut out, &mut err);
    Ok(Outcome {
        code: status.code(),
        out: text_in(alloc, &out)?,
        err: text_in(alloc, &err)?,
    })
}

/// Runs words over the files d, p and g.
pub(crate) fn run_on(
    alloc: Global,
    words: &str,
    texts: Texts<'_>,
    failing: Failing,
) -> Result<Outcome, Fail> {
    let shelf = shelf_of(alloc, texts, failing.shelf)?;
    run_over(alloc, words, shelf, failing)
}

/// The run ended as it is to end. A failure names the case.
fn expect(rt: &impl Abort, case: &str, outcome: &Outcome, wanted: Wanted<'_>) {
    let found = (outcome.code, outcome.out.as_str(), outcome.err.as_str());
    assert_eq!(rt; found, (wanted.code, wanted.out, wanted.err), "{case}");
}

/// Words over the files d, p and g end as is wanted.
pub(crate) fn expect_run(
    rt: &impl Abort,
    alloc: Global,
    words: &str,
    texts: Texts<'_>,
    wanted: Wanted<'_>,
) -> Result<(), Fail> {
    let outcome = run_on(alloc, words, texts, NO_FAILURE)?;
    expect(rt, words, &outcome, wanted);
    Ok(())
}

/// Words over the files d, p and g with calls that fail end as is wanted.
pub(crate) fn expect_failing(
    rt: &impl Abort,
    alloc: Global,
    words: &str,
    texts: Texts<'_>,
    failing: Failing,
    wanted: Wanted<'_>,
) -> Result<(), Fail> {
    let outcome = run_on(alloc, words, texts, failing)?;
    expect(rt, words, &outcome, wanted);
    Ok(())
}

/// Words over no files end as is wanted.
pub(crate) fn expect_without_files(
    rt: &impl Abort,
    alloc: Global,
    words: &str,
    wanted: Wanted<'_>,
) -> Result<(), Fail> {
    let shelf = MemoryShelf::new(alloc, Vec::new(alloc), Vec::new(alloc));
    let outcome = run_over(alloc, words, shelf, NO_FAILURE)?;
    expect(rt, words, &outcome, wanted);
    Ok(())
}
