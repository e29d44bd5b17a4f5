ghost use Rattle.std.specs.Prelude.{◌≡◌, ◌+◌, ◌^◌, ◌<◌, ◌≤◌, ◌++◌, true, false, length, None, Some, Ok, Err, IfOk, IfSome, MatchOption, MatchResult, ◌∷◌, count_by, ◌==◌, ◌⊎◌, ℕ, List, [], Option};
ghost use Rattle.cert_text.specs.Values.{plain_lines};
ghost use Rattle.cert_text.specs.Streams.{Reads, AnswersLines, AnswersFault, GoesOnCounting, IsWithinLine, PlainReader, begun_after, line_feeds, new_reader, reader_at};
ghost use Rattle.cert_text.specs.Found.{FindsLines, FindsWithin};
ghost use Rattle.cert_text.specs.declared.line.LineFault.{LineFault as Fault};
ghost use Rattle.cert_text.specs.declared.line.LineFault.TheVariants.{OutOfMemory as TheMemory};
ghost use Rattle.cert_text.specs.Lines.{Line};

use crate::line::{BadText, CertLine, LineFault, Truncated};
use crate::reading::read_line;
use std::alloc::{AllocError, Global};
use std::marker::Model;

/// Takes the bytes of a certificate, in any pieces, and answers its lines.
#[derive(Drop)]
pub struct CertReader {
    limit: u64,
    fed: u64,
    lines: u64,
    kept: Vec<u8>,
    begun: bool,
    fault: Option<LineFault>,
}

impl Model for CertReader {
    ghost use Rattle.cert_text.specs.Streams.{PlainReader, IsReader};

    ghost Value = { PlainReader };

    ghost view = { λ r. record { limit = r.limit; fed = r.fed; lines = r.lines; kept = r.kept.items; begun = r.begun; fault = r.fault } };

    ghost invariant = { λ r. IsReader (record { limit = r.limit; fed = r.fed; lines = r.lines; kept = r.kept.items; begun = r.begun; fault = r.fault }) };
}

impl CertReader {
    /// A reader before the first byte, of a stream of at most so many bytes.
    pub fn new(alloc: Global, limit: u64) -> CertReader
        ensures { result ≡ new_reader limit }
    {
        CertReader {
            limit,
            fed: 0,
            lines: 0,
            kept: Vec::new(alloc),
            begun: false,
            fault: None,
        }
    }

    /// Takes the next piece, and answers the lines that it completes. Where good lines stand before a fault,
    /// they are answered, and the fault at the next call and from then on.
    pub fn feed(&mut self, piece: &[u8]) -> Result<Vec<CertLine>, LineFault>
        requires { self.old.fed + length piece.now < 2 ^ 64 }
        ensures counts { GoesOnCounting self.old piece.now self.new }
        ensures answer { self.old.fault ≡ None → MatchResult result
            (λ lines. AnswersLines self.old piece.now self.new.fault self.new.kept (plain_lines lines.items))
            (AnswersFault self.old piece.now self.new.fault self.new.kept) }
        ensures again { (fault : Fault) → self.old.fault ≡ Some fault
            → (result ≡ Err fault) × (self.new.fault ≡ Some fault) × (self.new.kept ≡ self.old.kept) }
        ensures exactly { (good : List Line) (fault : Option Fault) (kept : List ℕ) → self.old.fault ≡ None
            → Reads self.old piece.now good fault kept
            → MatchResult result
            (λ lines. (plain_lines lines.items ≡ good) × (self.new.fault ≡ fault) × (self.new.kept ≡ kept))
            (λ answered. (answered ≡ TheMemory) ⊎ ((good ≡ []) × (fault ≡ Some answered))) }
    {
        self.take(piece)
    }

    /// Takes the next piece.
    #[tactic(auto, using(crate::proofs::Streaming::counted))]
    fn take(&mut self, piece: &[u8]) -> Result<Vec<CertLine>, LineFault>
        requires { self.old.fed + length piece.now < 2 ^ 64 }
        ensures counts { GoesOnCounting self.old piece.now self.new }
        ensures answer { self.old.fault ≡ None → MatchResult result
            (λ lines. AnswersLines self.old piece.now self.new.fault self.new.kept (plain_lines lines.items))
            (AnswersFault self.old piece.now self.new.fault self.new.kept) }
        ensures again { (fault : Fault) → self.old.fault ≡ Some fault
            → (result ≡ Err fault) × (self.new.fault ≡ Some fault) × (self.new.kept ≡ self.old.kept) }
    {
        let (fault, result) = next_answer(
            self.fault,
            &mut self.kept,
            self.limit,
            self.fed,
            self.lines,
            piece,
        );
        self.fault = fault;
        self.fed += piece.len() as u64;
        self.lines += count_line_feeds(piece) as u64;
        self.begun = begun_after(self.begun, piece);
        result
    }

    /// The number of lines.
    pub fn finish(self) -> Result<u64, Truncated>
        ensures whole { self.begun ≡ false → result ≡ Ok self.lines }
        ensures truncated { self.begun ≡ true → result ≡ Err (record { line = self.lines + 1 }) }
    {
        if self.begun {
            Err(Truncated {
                line: self.lines + 1,
            })
        } else {
            Ok(self.lines)
        }
    }
}

/// The fault and the answer of a reader for one more piece.
fn next_answer(
    fault: Option<LineFault>,
    kept: &mut Vec<u8>,
    limit: u64,
    fed: u64,
    lines: u64,
    piece: &[u8],
) -> (Option<LineFault>, Result<Vec<CertLine>, LineFault>)
    requires fits { fault ≡ None → fed ≤ limit }
    requires within { IsWithinLine kept.old.items }
    requires counted { lines + length piece.now < 2 ^ 64 }
    ensures answer { let old = reader_at limit fed lines kept.old.items in fault ≡ None → MatchResult result.1
        (λ lines. AnswersLines old piece.now result.0 kept.new.items (plain_lines lines.items))
        (AnswersFault old piece.now result.0 kept.new.items) }
    ensures again { (e : Fault) → fault ≡ Some e
        → (result.1 ≡ Err e) × (result.0 ≡ Some e) × (kept.new.items ≡ kept.old.items) }
    ensures within { IsWithinLine kept.new.items }
    ensures fits { result.0 ≡ None → fed + length piece.now ≤ limit }
{
    match fault {
        Some(fault) => (Some(fault), Err(fault)),
        None => take_piece(kept, limit, fed, lines, piece),
    }
}

/// What a piece gives a reader that is in no fault: its fault, and its answer.
fn take_piece(
    kept: &mut Vec<u8>,
    limit: u64,
    fed: u64,
    lines: u64,
    piece: &[u8],
) -> (Option<LineFault>, Result<Vec<CertLine>, LineFault>)
    requires fits { fed ≤ limit }
    requires within { IsWithinLine kept.old.items }
    requires counted { lines + length piece.now < 2 ^ 64 }
    ensures answer { let old = reader_at limit fed lines kept.old.items in MatchResult result.1
        (λ lines. AnswersLines old piece.now result.0 kept.new.items (plain_lines lines.items))
        (AnswersFault old piece.now result.0 kept.new.items) }
    ensures within { IsWithinLine kept.new.items }
    ensures fits { result.0 ≡ None → fed + length piece.now ≤ limit }
{
    let (fault, result) = match read_within(kept, limit, limit - fed, lines, piece) {
        Ok(found) => match found.fault {
            Some(fault) if found.lines.is_empty() => (Some(fault), Err(fault)),
            fault => (fault, Ok(found.lines)),
        },
        Err(_) => (Some(LineFault::OutOfMemory), Err(LineFault::OutOfMemory)),
    };
    if fault.is_some() {
        kept.clear();
    }
    (fault, result)
}

/// Good lines, and the fault behind them.
#[derive(Drop)]
struct Found {
    lines: Vec<CertLine>,
    fault: Option<LineFault>,
}

/// Reads the lines that a piece completes, up to the limit.
fn read_within(
    kept: &mut Vec<u8>,
    limit: u64,
    room: u64,
    before: u64,
    piece: &[u8],
) -> Result<Found, AllocError>
    requires within { IsWithinLine kept.old.items }
    requires counted { before + length piece.now < 2 ^ 64 }
    ensures { IfOk result (λ found. FindsWithin limit room before kept.old.items piece.now
        (plain_lines found.lines.items) found.fault kept.new.items) }
{
    if (piece.len() as u64) <= room {
        return read_lines(kept, before, piece);
    }
    let mut found = read_lines(kept, before, &piece[..room as usize])?;
    if found.fault.is_none() {
        found.fault = Some(LineFault::TooLong(limit));
    }
    Ok(found)
}

/// Reads the lines of the kept bytes and a text behind them, up to the first that is faulty. Where there
/// is none, the bytes behind the last line feed are kept.
fn read_lines(kept: &mut Vec<u8>, before: u64, text: &[u8]) -> Result<Found, AllocError>
    requires within { IsWithinLine kept.old.items }
    requires counted { before + length text.now < 2 ^ 64 }
    ensures { IfOk result (λ found. FindsLines before (kept.old.items ++ text.now)
        (plain_lines found.lines.items) found.fault kept.new.items) }
{
    let alloc = *kept.allocator();
    let mut lines = Vec::new(alloc);
    let mut rest = text;
    while let Some((front, behind)) = split_line(rest) {
        kept.extend_from_slice(front)?;
        match read_line(alloc, kept) {
            Ok(line) => lines.push(line)?,
            Err(BadText::OutOfMemory) => return Err(AllocError),
            Err(BadText::OfNoKind) => {
                let fault = Some(LineFault::BadLine(before + lines.len() as u64 + 1));
                return Ok(Found { lines, fault });
            }
            Err(BadText::OverRange) => {
                let fault = Some(LineFault::BadNumber(before + lines.len() as u64 + 1));
                return Ok(Found { lines, fault });
            }
        }
        kept.clear();
        rest = behind;
    }
    kept.extend_from_slice(rest)?;
    Ok(Found { lines, fault: None })
}

/// What stands before the first line feed, and behind it.
fn split_line(text: &[u8]) -> Option<(&[u8], &[u8])>
    ensures shorter { IfSome result (λ x. length x.1.now < length text.now) }
    ensures parts { MatchOption result (IsWithinLine text.now)
        (λ x. (text.now ≡ x.0.now ++ 10 ∷ x.1.now) × IsWithinLine x.0.now) }
{
    let at = text.iter().position(|b| *b == b'\n')?;
    Some((&text[..at], &text[at + 1..]))
}

fn count_line_feeds(piece: &[u8]) -> usize
    ensures { result ≡ line_feeds piece.now }
{
    piece.iter().filter(|b| **b == b'\n').count()
}

/// Whether bytes follow the last line feed.
#[tactic(auto, using(crate::proofs::Streaming::begun_after_last))]
fn begun_after(begun: bool, piece: &[u8]) -> bool
    ensures { result ≡ begun_after begun piece.now }
{
    match piece.last() {
        Some(last) => *last != b'\n',
        None => begun,
    }
}
