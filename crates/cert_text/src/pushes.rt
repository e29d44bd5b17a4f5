ghost use Rattle.std.specs.Prelude.{◌≡◌, ◌++◌, ◌∷◌, OnOk, map, codes};
ghost use Rattle.std.specs.Fmt.{decimal};
ghost use Rattle.cert_text.specs.Lines.{bound_word, number_or_none, numeral, word_text, spaced};
ghost use Rattle.cert_text.specs.Lines.{Number as Numbered};

use grd_base::{Bound, OutOfMemory};
use std::io::Write;

/// Writes a number behind a space. Writing to a vector fails for want of memory alone.
fn push_decimal(text: &mut Vec<u8>, number: u32) -> Result<(), OutOfMemory>
    ensures { OnOk result (text.new.items ≡ text.old.items ++ (codes " " ++ decimal number)) }
{
    write!(text, " {number}").map_err(|_| OutOfMemory)
}

/// Writes a number behind a space.
#[tactic(auto, using(crate::proofs::Written::decimal_is))]
pub(crate) fn push_number(text: &mut Vec<u8>, number: u32) -> Result<(), OutOfMemory>
    ensures { OnOk result (text.new.items ≡ text.old.items ++ 32 ∷ numeral number) }
{
    push_decimal(text, number)?;
    Ok(())
}

/// Writes numbers, each behind a space.
#[tactic(auto, using(crate::proofs::Written::spaced_more, crate::proofs::Written::spaced_all))]
pub(crate) fn push_numbers(text: &mut Vec<u8>, numbers: &[u32]) -> Result<(), OutOfMemory>
    ensures { OnOk result (text.new.items ≡ text.old.items ++ spaced (map Numbered numbers.now)) }
{
    for number in numbers {
        push_number(text, *number)?;
    }
    Ok(())
}

/// Writes a word behind a space.
pub(crate) fn push_key(text: &mut Vec<u8>, key: &str) -> Result<(), OutOfMemory>
    ensures { OnOk result (text.new.items ≡ text.old.items ++ 32 ∷ key.now) }
{
    text.push(b' ')?;
    text.extend_from_slice(key.as_bytes())?;
    Ok(())
}

pub(crate) fn push_number_or_none(
    text: &mut Vec<u8>,
    number: Option<u32>,
) -> Result<(), OutOfMemory>
    ensures { OnOk result (text.new.items ≡ text.old.items ++ 32 ∷ word_text (number_or_none number)) }
{
    match number {
        Some(number) => push_number(text, number),
        None => push_key(text, "none"),
    }
}

/// Writes the bound and the state of a row.
pub(crate) fn push_row(text: &mut Vec<u8>, bound: Bound, state: &[u32]) -> Result<(), OutOfMemory>
    ensures { OnOk result (text.new.items ≡ text.old.items
        ++ 32 ∷ (word_text (bound_word bound) ++ 32 ∷ (codes "state" ++ spaced (map Numbered state.now)))) }
{
    match bound {
        Bound::Steps(number) => push_number(text, number)?,
        Bound::Never => push_key(text, "never")?,
    }
    push_key(text, "state")?;
    push_numbers(text, state)
}

/// Writes a line of one word.
pub(crate) fn push_text(text: &mut Vec<u8>, words: &str) -> Result<(), OutOfMemory>
    ensures { OnOk result (text.new.items ≡ text.old.items ++ words.now) }
{
    text.extend_from_slice(words.as_bytes())?;
    Ok(())
}
