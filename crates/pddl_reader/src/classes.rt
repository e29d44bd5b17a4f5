ghost use Rattle.std.specs.Prelude.{◌≡◌};
ghost use Rattle.std.specs.List.{list_all, list_any};
ghost use Rattle.std.specs.Char.{to_ascii_lowercase};
ghost use Rattle.std.specs.Str.{bytes_eq, str_to_ascii_lowercase};
ghost use Rattle.pddl_reader.specs.Classes.{is_name_byte, is_name, is_variable, is_keyword, is_element, is_one_of, accepted, section_feature, takes_equality, takes_negation, is_equality, equality_feature, not_feature, head_feature, is_predicate_name, is_predicate};

use crate::faults::Feature;
use crate::kinds::{Listed, Part};

fn is_name_byte(b: u8) -> bool
    ensures { result ≡ is_name_byte (to_ascii_lowercase b) }
{
    b.is_ascii_alphanumeric() || b == b'-' || b == b'_'
}

fn are_name_bytes(text: &[u8]) -> bool
    ensures { result ≡ list_all (λ b. is_name_byte (to_ascii_lowercase b)) text.now }
{
    text.iter().all(|b| is_name_byte(*b))
}

/// Whether the text is a name. The case of letters counts in none of these functions.
pub(crate) fn is_name(text: &[u8]) -> bool
    ensures { result ≡ is_name (str_to_ascii_lowercase text.now) }
{
    match text.first() {
        Some(first) => *first != b'-' && are_name_bytes(text),
        None => false,
    }
}

/// Whether the text is a question mark and then a name.
pub(crate) fn is_variable(text: &[u8]) -> bool
    ensures { result ≡ is_variable (str_to_ascii_lowercase text.now) }
{
    match text {
        [b'?', name @ ..] => is_name(name),
        _ => false,
    }
}

/// Whether the text is a colon and then a name.
pub(crate) fn is_keyword(text: &[u8]) -> bool
    ensures { result ≡ is_keyword (str_to_ascii_lowercase text.now) }
{
    match text {
        [b':', name @ ..] => is_name(name),
        _ => false,
    }
}

/// Whether the text may stand as an element of a typed list.
pub(crate) fn is_element(listed: Listed, text: &[u8]) -> bool
    ensures { result ≡ is_element listed (str_to_ascii_lowercase text.now) }
{
    match listed {
        Listed::Names => is_name(text),
        Listed::Variables => is_variable(text),
    }
}

/// Whether the text is the word, which has no capital letter.
pub(crate) fn is(text: &[u8], word: &str) -> bool
    ensures { result ≡ bytes_eq word.now (str_to_ascii_lowercase text.now) }
{
    let word = word.as_bytes();
    if text.len() != word.len() {
        return false;
    }
    for (i, b) in text.iter().enumerate() {
        if b.to_ascii_lowercase() != word[i] {
            return false;
        }
    }
    true
}

/// Whether the text is one of the words, which have no capital letters.
pub(crate) fn is_one_of(text: &[u8], words: &[&str]) -> bool
    ensures { result
        ≡ list_any (λ w. bytes_eq w.now (str_to_ascii_lowercase text.now)) words.now }
{
    words.iter().any(|word| is(text, word))
}

/// Whether the text is a requirement that is accepted.
pub(crate) fn is_accepted(text: &[u8]) -> bool
    ensures { result ≡ is_one_of accepted (str_to_ascii_lowercase text.now) }
{
    is_one_of(
        text,
        &[":strips", ":typing", ":equality", ":negative-preconditions"],
    )
}

/// The feature that a section's keyword names.
pub(crate) fn section_feature(text: &[u8]) -> Option<Feature>
    ensures { result ≡ section_feature (str_to_ascii_lowercase text.now) }
{
    if is(text, ":functions") {
        Some(Feature::Functions)
    } else if is_one_of(text, &[":derived", ":axiom"]) {
        Some(Feature::Derived)
    } else if is(text, ":durative-action") {
        Some(Feature::Durative)
    } else if is(text, ":constraints") {
        Some(Feature::Constraints)
    } else if is_one_of(text, &[":metric", ":length"]) {
        Some(Feature::Metric)
    } else {
        None
    }
}

/// Whether an equality may stand where an atom may.
fn takes_equality(part: Part) -> bool
    ensures { result ≡ takes_equality part }
{
    match part {
        Part::Precondition => true,
        Part::Effect | Part::Start => false,
    }
}

/// Whether a negation may stand where an atom may.
pub(crate) fn takes_negation(part: Part) -> bool
    ensures { result ≡ takes_negation part }
{
    match part {
        Part::Precondition | Part::Effect => true,
        Part::Start => false,
    }
}

/// Whether the text is the sign of equality.
pub(crate) fn is_equality(text: &[u8]) -> bool
    ensures { result ≡ is_equality (str_to_ascii_lowercase text.now) }
{
    is(text, "=")
}

fn equality_feature(part: Part) -> Option<Feature>
    ensures { result ≡ equality_feature part }
{
    match part {
        Part::Precondition => None,
        Part::Effect => Some(Feature::Equality),
        Part::Start => Some(Feature::NumericCondition),
    }
}

fn not_feature(part: Part) -> Option<Feature>
    ensures { result ≡ not_feature part }
{
    match part {
        Part::Precondition | Part::Effect => None,
        Part::Start => Some(Feature::NegativeInit),
    }
}

/// The feature that the head of a list names where a condition or an atom may stand.
pub(crate) fn head_feature(part: Part, text: &[u8]) -> Option<Feature>
    ensures { result ≡ head_feature part (str_to_ascii_lowercase text.now) }
{
    if is(text, "or") {
        Some(Feature::Disjunction)
    } else if is(text, "imply") {
        Some(Feature::Implication)
    } else if is_one_of(text, &["forall", "exists"]) {
        Some(Feature::Quantifier)
    } else if is(text, "when") {
        Some(Feature::Conditional)
    } else if is(text, "preference") {
        Some(Feature::Preference)
    } else if is_one_of(
        text,
        &["increase", "decrease", "assign", "scale-up", "scale-down"],
    ) {
        Some(Feature::NumericEffect)
    } else if is_one_of(text, &["<", ">", "<=", ">="]) {
        Some(Feature::NumericCondition)
    } else if is_equality(text) {
        equality_feature(part)
    } else if is(text, "not") {
        not_feature(part)
    } else {
        None
    }
}

/// Whether the text may be the name of an atom's predicate.
fn is_predicate_name(text: &[u8]) -> bool
    ensures { result ≡ is_predicate_name (str_to_ascii_lowercase text.now) }
{
    is_name(text) && !is_one_of(text, &["and", "not"])
}

/// Whether the text may be the predicate of an atom in the part, or the sign of an equality.
pub(crate) fn is_predicate(part: Part, text: &[u8]) -> bool
    ensures { result ≡ is_predicate part (str_to_ascii_lowercase text.now) }
{
    is_predicate_name(text) || (takes_equality(part) && is_equality(text))
}
