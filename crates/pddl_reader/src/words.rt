ghost use Rattle.std.specs.Prelude.{◌≡◌, ◌-◌, ◌<◌, [], Ok, IfOk, IfErr, All, take, drop, string_bytes};
ghost use Rattle.std.specs.Str.{bytes_eq, str_to_ascii_lowercase};
ghost use Rattle.pddl_reader.specs.Forms.{place_of, word_of, form_at};
ghost use Rattle.pddl_reader.specs.Items.{IsTokenOver, IsItemOver, IsFaultOf};
ghost use Rattle.pddl_reader.specs.Reading.{name_at};

use crate::classes;
use crate::faults::PddlFault;
use crate::values::Name;
use pddl_lexer::{Item, Token};
use std::alloc::{AllocError, Global};

/// The place of an item: of a word's first byte, or of a list's opening bracket.
pub(crate) fn place(item: &Item) -> u32
    ensures { result ≡ place_of (form_at [] item.now) }
{
    match item {
        Item::Word(token) => token.from,
        Item::List(list) => list.at,
    }
}

/// The bytes of a token, as they stand in the text.
pub(crate) fn bytes_of(text: &[u8], token: Token) -> &[u8]
    requires { IsTokenOver text.now token }
    ensures value { result.now ≡ take (token.to - token.from) (drop token.from text.now) }
    ensures ascii { All (λ b. b < 128) result.now }
{
    &text[token.from as usize..token.to as usize]
}

/// Whether the token is the word, which has no capital letter.
pub(crate) fn is_word(text: &[u8], token: Token, word: &str) -> bool
    requires { IsTokenOver text.now token }
    ensures { result ≡ bytes_eq word.now (word_of text.now token).text }
{
    classes::is(bytes_of(text, token), word)
}

/// The text in lower case.
fn folded(alloc: Global, text: &[u8]) -> Result<String, AllocError>
    requires { All (λ b. b < 128) text.now }
    ensures { IfOk result (λ s. string_bytes s ≡ str_to_ascii_lowercase text.now) }
{
    let mut folded = String::new(alloc);
    for b in text {
        folded.push(char::from(b.to_ascii_lowercase()))?;
    }
    Ok(folded)
}

/// The token in lower case, with its place.
pub(crate) fn word(alloc: Global, text: &[u8], token: Token) -> Result<Name, AllocError>
    requires { IsTokenOver text.now token }
    ensures { IfOk result (λ name. name ≡ word_of text.now token) }
{
    let text = folded(alloc, bytes_of(text, token))?;
    Ok(Name {
        text,
        at: token.from,
    })
}

/// The name that an item is.
pub(crate) fn name(alloc: Global, text: &[u8], item: &Item) -> Result<Name, PddlFault>
    requires { IsItemOver text.now item.now }
    ensures read { IfOk result (λ name. name_at (form_at text.now item.now) ≡ Ok name) }
    ensures fault { IfErr result (IsFaultOf (name_at (form_at text.now item.now))) }
{
    match item {
        Item::Word(token) => {
            if !classes::is_name(bytes_of(text, *token)) {
                return Err(PddlFault::Shape(token.from));
            }
            Ok(word(alloc, text, *token)?)
        }
        Item::List(list) => Err(PddlFault::Shape(list.at)),
    }
}
