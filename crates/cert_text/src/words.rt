ghost use Rattle.std.specs.Prelude.{◌≡◌, ◌∷◌, ◌^◌, ◌-◌, ◌≤◌, IfOk, IfSome, ◌<◌, length, ◌&&◌, None, Some};
ghost use Rattle.std.specs.List.{prefix_len, list_any};
ghost use Rattle.std.specs.Option.{option_map};
ghost use Rattle.std.specs.Str.{bytes_eq};
ghost use Rattle.cert_text.specs.Reading.{begins_numeral, is_numeral, value_of, number_up_to, number_of, is_over_range, words, words_left, next_word, next_number, next_key, next_number_or, numbers_up_to, all_numbers, is_no_space};

use std::alloc::{AllocError, Global};

/// The least number over the range.
const OVER: u64 = 1 << 32;

/// How many bytes stand before the first space.
fn word_len(bytes: &[u8]) -> usize
    ensures value { result ≡ prefix_len is_no_space bytes.now }
    ensures within { result ≤ length bytes.now }
{
    bytes.iter().take_while(|b| **b != b' ').count()
}

/// The first word of a line, and what stands behind it.
pub(crate) fn first_word(line: &[u8]) -> (&[u8], &[u8])
    ensures words { words line.now ≡ result.0.now ∷ words_left result.1.now }
    ensures within { length result.1.now ≤ length line.now }
{
    line.split_at(word_len(line))
}

/// The next word of the rest of a line, which is empty or begins with a space, and what stands behind it.
pub(crate) fn next_word(rest: &[u8]) -> Option<(&[u8], &[u8])>
    ensures word { option_map (λ x. (x.0.now, words_left x.1.now)) result ≡ next_word (words_left rest.now) }
    ensures shorter { IfSome result (λ x. length x.1.now < length rest.now) }
{
    let (_, behind) = rest.split_first()?;
    Some(first_word(behind))
}

/// Whether a numeral may begin so: with one digit, or with one that is no zero.
fn begins_numeral(word: &[u8]) -> bool
    ensures { result ≡ begins_numeral word.now }
{
    match word {
        [] => false,
        [_] => true,
        [first, ..] => *first != b'0',
    }
}

/// The number of a word, or the least one over the range.
#[tactic(auto, using(crate::proofs::NumberLaws::number_found, crate::proofs::NumberLaws::no_number_begins, crate::proofs::NumberLaws::no_number_digits, crate::proofs::NumberLaws::digit_missing, crate::proofs::NumberLaws::digits_more, crate::proofs::NumberLaws::number_more))]
fn number_of(word: &[u8]) -> Option<u64>
    ensures { result ≡ number_up_to (2 ^ 32) word.now }
{
    if !begins_numeral(word) {
        return None;
    }
    let mut number = 0;
    for digit in word {
        if !digit.is_ascii_digit() {
            return None;
        }
        number = (number * 10 + u64::from(*digit - b'0')).min(OVER);
    }
    Some(number)
}

/// Whether the word is a number over the range.
#[tactic(auto, using(crate::proofs::NumberLaws::over_by_number, crate::proofs::NumberLaws::not_over_by_number))]
fn is_over_range(word: &[u8]) -> bool
    ensures { result ≡ is_over_range word.now }
{
    match number_of(word) {
        Some(number) => number == OVER,
        None => false,
    }
}

/// Whether a word of the line is a number over the range.
#[tactic(auto, using(crate::proofs::WordLaws::over_more, crate::proofs::WordLaws::over_found, crate::proofs::WordLaws::over_end))]
pub(crate) fn holds_over_range(line: &[u8]) -> bool
    ensures { result ≡ list_any is_over_range (words line.now) }
{
    let (word, behind) = first_word(line);
    if is_over_range(word) {
        return true;
    }
    let mut left = behind;
    while let Some((word, behind)) = next_word(left) {
        if is_over_range(word) {
            return true;
        }
        left = behind;
    }
    false
}

/// The next number, as far as it is in memory: one over the range is the greatest of the range.
pub(crate) fn next_number(rest: &[u8]) -> Option<(u32, &[u8])>
    ensures { option_map (λ x. (x.0, words_left x.1.now)) result ≡ next_number (words_left rest.now) }
{
    let (word, rest) = next_word(rest)?;
    Some((number_in_range(word)?, rest))
}

/// The number of a word, at most the greatest of the range.
#[tactic(auto, using(crate::proofs::NumberLaws::number_smaller, crate::proofs::NumberLaws::no_number_smaller))]
fn number_in_range(word: &[u8]) -> Option<u32>
    ensures { result ≡ number_of word.now }
{
    let number = number_of(word)?;
    Some(number.min(OVER - 1) as u32)
}

/// Whether the word is this text.
pub(crate) fn is_word(word: &[u8], text: &str) -> bool
    ensures { result ≡ bytes_eq word.now text.now }
{
    word == text.as_bytes()
}

/// What stands behind this word, where it is the next.
pub(crate) fn next_key<'a>(rest: &'a [u8], text: &str) -> Option<&'a [u8]>
    ensures { option_map (λ x. words_left x.now) result ≡ next_key text.now (words_left rest.now) }
{
    let (word, rest) = next_word(rest)?;
    if is_word(word, text) {
        Some(rest)
    } else {
        None
    }
}

/// The next number, or nothing where this word stands in its place.
pub(crate) fn next_number_or<'a>(rest: &'a [u8], text: &str) -> Option<(Option<u32>, &'a [u8])>
    ensures { option_map (λ x. (x.0, words_left x.1.now)) result ≡ next_number_or text.now (words_left rest.now) }
{
    let (word, rest) = next_word(rest)?;
    if is_word(word, text) {
        return Some((None, rest));
    }
    Some((Some(number_in_range(word)?), rest))
}

/// The numbers up to this word, and what stands behind it.
#[tactic(auto, using(crate::proofs::WordLaws::up_to_more, crate::proofs::WordLaws::up_to_stop, crate::proofs::WordLaws::up_to_found, crate::proofs::WordLaws::up_to_end))]
pub(crate) fn numbers_up_to<'a>(
    alloc: Global,
    rest: &'a [u8],
    text: &str,
) -> Result<Option<(Vec<u32>, &'a [u8])>, AllocError>
    ensures { IfOk result (λ found. option_map (λ x. (x.0.items, words_left x.1.now)) found
        ≡ numbers_up_to text.now (words_left rest.now)) }
{
    let mut numbers = Vec::new(alloc);
    let mut left = rest;
    while let Some((word, behind)) = next_word(left) {
        if is_word(word, text) {
            return Ok(Some((numbers, behind)));
        }
        let Some(number) = number_in_range(word) else {
            return Ok(None);
        };
        numbers.push(number)?;
        left = behind;
    }
    Ok(None)
}

/// The numbers of all words that are left.
#[tactic(auto, using(crate::proofs::WordLaws::all_numbers_more, crate::proofs::WordLaws::all_numbers_stop, crate::proofs::WordLaws::all_numbers_end))]
pub(crate) fn all_numbers(alloc: Global, rest: &[u8]) -> Result<Option<Vec<u32>>, AllocError>
    ensures { IfOk result (λ found. option_map (λ v. v.items) found ≡ all_numbers (words_left rest.now)) }
{
    let mut numbers = Vec::new(alloc);
    let mut left = rest;
    while let Some((word, behind)) = next_word(left) {
        let Some(number) = number_in_range(word) else {
            return Ok(None);
        };
        numbers.push(number)?;
        left = behind;
    }
    Ok(Some(numbers))
}
