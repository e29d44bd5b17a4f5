ghost use Rattle.std.specs.Prelude.{◌≡◌, ◌<◌, ◌≤◌, length, All, IfOk, IfSome, string_bytes};
ghost use Rattle.std.specs.List.{prefix_len};
ghost use Rattle.std.specs.Option.{option_map};
ghost use Rattle.std.specs.Str.{str_to_ascii_lowercase};
ghost use Rattle.std.specs.Str.Lines.{strip_carriage_return};
ghost use Rattle.pddl_reader.specs.Classes.{is_name_byte};
ghost use Rattle.goal_files.specs.Lines.{is_blank, is_skipped};
ghost use Rattle.goal_files.specs.Reading.{begins_name, IsAsciiPiece, front_of, past_blanks, piece_marks};

use std::alloc::{AllocError, Global};

/// A piece of a line.
#[derive(Clone, Copy)]
pub(crate) enum Piece<'a> {
    Blank,
    Open,
    Close,
    /// Bytes of names, as many as there are, as they stand in the line.
    Run(&'a [u8]),
}

/// The piece at the front, and what stands behind it. There is none at the end, and none at a byte
/// that is of no piece.
pub(crate) fn split_piece(line: &[u8]) -> Option<(Piece<'_>, &[u8])>
    ensures front { option_map (λ x. (piece_marks x.0, x.1.now)) result ≡ front_of line.now }
    ensures ascii { IfSome result (λ x. IsAsciiPiece x.0) }
{
    let (first, rest) = line.split_first()?;
    if is_blank(*first) {
        Some((Piece::Blank, rest))
    } else if *first == b'(' {
        Some((Piece::Open, rest))
    } else if *first == b')' {
        Some((Piece::Close, rest))
    } else if is_name_byte(*first) {
        let (run, rest) = line.split_at(run_len(line));
        Some((Piece::Run(run), rest))
    } else {
        None
    }
}

/// How many bytes of names stand at the front.
fn run_len(line: &[u8]) -> usize
    ensures value { result ≡ prefix_len is_name_byte line.now }
    ensures within { result ≤ length line.now }
{
    line.iter().take_while(|b| is_name_byte(**b)).count()
}

/// How many blanks stand at the front.
fn blank_len(line: &[u8]) -> usize
    ensures value { result ≡ prefix_len is_blank line.now }
    ensures within { result ≤ length line.now }
{
    line.iter().take_while(|b| is_blank(**b)).count()
}

fn is_blank(b: u8) -> bool
    ensures { result ≡ is_blank b }
{
    matches!(b, b' ' | b'\t' | b',')
}

fn is_name_byte(b: u8) -> bool
    ensures { result ≡ is_name_byte b }
{
    b.is_ascii_alphanumeric() || b == b'-' || b == b'_'
}

/// Whether a run may be a name.
pub(crate) fn begins_name(run: &[u8]) -> bool
    ensures { result ≡ begins_name (str_to_ascii_lowercase run.now) }
{
    match run.first() {
        Some(b) => *b != b'-',
        None => false,
    }
}

/// The bytes as text, folded to lower case.
pub(crate) fn lower_case(alloc: Global, bytes: &[u8]) -> Result<String, AllocError>
    requires { All (λ b. b < 128) bytes.now }
    ensures { IfOk result (λ text. string_bytes text ≡ str_to_ascii_lowercase bytes.now) }
{
    let mut text = String::with_capacity(alloc, bytes.len())?;
    for b in bytes {
        text.push(b.to_ascii_lowercase() as char)?;
    }
    Ok(text)
}

/// Whether a line has blanks alone, or a semicolon behind them.
pub(crate) fn is_skipped(line: &[u8]) -> bool
    ensures { result ≡ is_skipped line.now }
{
    match skip_blanks(line).first() {
        Some(b) => *b == b';',
        None => true,
    }
}

/// What stands behind the blanks at the front.
fn skip_blanks(line: &[u8]) -> &[u8]
    ensures { result.now ≡ past_blanks line.now }
{
    &line[blank_len(line)..]
}

/// The part of a text before a line feed, without the carriage return at its end.
pub(crate) fn strip_carriage_return(part: &[u8]) -> &[u8]
    ensures { result.now ≡ strip_carriage_return part.now }
{
    match part {
        [front @ .., b'\r'] => front,
        _ => part,
    }
}
