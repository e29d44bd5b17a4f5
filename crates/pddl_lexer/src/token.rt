ghost use Rattle.std.specs.Prelude.{◌≡◌, ℕ, ◌^◌, ◌<◌, ◌≤◌, ◌==◌, ◌⊎◌, not, length, slice_index, List, IfOk, IsOkAnd, if◌then◌else◌};
ghost use Rattle.std.specs.List.{prefix_len};
ghost use Rattle.pddl_lexer.specs.Pieces.{is_space, is_bracket, is_word_byte};
ghost use Rattle.pddl_lexer.specs.Tokens.{AreTokens, AreSpans, IsFirstBad, kind_of};

use crate::faults::LexFault;
use std::alloc::Global;

/// What a token is: a bracket or a word.
#[derive(Clone, Copy, Debug, PartialEq, Eq)]
pub enum TokenKind {
    Open,
    Close,
    Word,
}

/// A bracket or a word of a text. Places are byte numbers, counted from 0.
#[derive(Clone, Copy, Debug, PartialEq, Eq)]
pub struct Token {
    pub kind: TokenKind,
    /// The place of the first byte.
    pub from: u32,
    /// The place behind the last byte.
    pub to: u32,
}

fn is_space(b: u8) -> bool
    ensures { result ≡ is_space b }
{
    matches!(b, b'\t' | b'\n' | b'\r' | b' ')
}

fn is_bracket(b: u8) -> bool
    ensures { result ≡ is_bracket b }
{
    b == b'(' || b == b')'
}

/// Whether the byte is one of a word.
fn is_word_byte(b: u8) -> bool
    ensures { result ≡ is_word_byte b }
{
    b.is_ascii_graphic() && !is_bracket(b) && b != b';'
}

/// The kind of a token that begins with the byte.
fn kind_of(b: u8) -> TokenKind
    ensures { result ≡ kind_of b }
{
    match b {
        b'(' => TokenKind::Open,
        b')' => TokenKind::Close,
        _ => TokenKind::Word,
    }
}

/// How many bytes stand before the end of the line.
fn comment_len(text: &[u8]) -> usize
    ensures value { result ≡ prefix_len (λ b. not (b == 10)) text.now }
    ensures within { result ≤ length text.now }
{
    text.iter().take_while(|b| **b != b'\n').count()
}

fn run_len(text: &[u8]) -> usize
    ensures value { result ≡ prefix_len is_word_byte text.now }
    ensures within { result ≤ length text.now }
{
    text.iter().take_while(|b| is_word_byte(**b)).count()
}

/// The length of the token at the front, 0 where none begins.
fn token_len(text: &[u8]) -> usize
    requires { 0 < length text.now }
    ensures value { result
        ≡ (if is_bracket (slice_index text.now 0) then 1 else prefix_len is_word_byte text.now) }
    ensures within { result ≤ length text.now }
{
    if is_bracket(text[0]) {
        1
    } else {
        run_len(text)
    }
}

/// The brackets and words of the text, in their order.
pub fn tokens(alloc: Global, text: &[u8]) -> Result<Vec<Token>, LexFault>
    requires { length text.now ≤ 2 ^ 20 }
    ensures found { IfOk result (λ v. AreTokens text.now v.items) }
    ensures rising { IfOk result (λ v. AreSpans 0 (length text.now) v.items) }
    ensures bad { (place : ℕ) → result ≡ Err (LexFault.BadByte place) → IsFirstBad text.now place }

    // Only want of memory stands between a text and its tokens, or its fault.
    ensures only { (tokens : List Token) → AreTokens text.now tokens
        → (result ≡ Err LexFault.OutOfMemory) ⊎ IsOkAnd result (λ v. v.items ≡ tokens) }
    ensures only_bad { (place : ℕ) → IsFirstBad text.now place
        → (result ≡ Err LexFault.OutOfMemory) ⊎ (result ≡ Err (LexFault.BadByte place)) }
{
    let mut found = Vec::new(alloc);
    let mut at = 0;
    while at < text.len() {
        let b = text[at];
        let rest = &text[at..];
        if is_space(b) {
            at += 1;
        } else if b == b';' {
            at += comment_len(rest);
        } else {
            let len = token_len(rest);
            if len == 0 {
                return Err(LexFault::BadByte(at as u32));
            }
            found.push(Token {
                kind: kind_of(b),
                from: at as u32,
                to: (at + len) as u32,
            })?;
            at += len;
        }
    }
    Ok(found)
}
