ghost use Rattle.std.specs.Prelude.{◌≡◌, ◌≢◌, ◌⊎◌, ◌<◌, ◌^◌, ◌↔◌, ℕ, List, [], ◌∷◌, ◌++◌, map, string_bytes, All, Contains, IsTrue, IfOk, MatchOption, MatchResult};
ghost use Rattle.command_words.specs.Commands.{PlainJob, Reads, IsUsageFault, flag_of, required_of, options_of, command_text, IsValue, IsNumber, AreItemsOf, IsGiven, NotGiven, Gives, GivesText, IsFirstWith, GivesNoNumber};
ghost use Rattle.command_words.specs.Words.{items_of, usage_fault_of, HasNoRepeats, HasNoEquals, IsFront, IsFrontFault, with_number_of, ReadsLimits, IsJob};

use crate::command::{Command, OptionName};
use crate::faults::{UsageFault, WordsFault};
use crate::job::Job;
use grd_base::Limits;
use std::alloc::{AllocError, Global};

/// The limits that hold where none is given.
const DEFAULT_LIMITS: Limits = Limits {
    states: 100_000,
    sets: 200_000,
};

/// The most digits of a number.
const MOST_DIGITS: usize = 10;

/// An option with its value.
#[derive(Clone, Copy)]
struct Item<'a> {
    name: OptionName,
    value: &'a str,
}

/// An item, and how many words it takes.
#[derive(Clone, Copy)]
struct Front<'a> {
    item: Item<'a>,
    count: usize,
}

/// Why words don't begin with one more item.
#[derive(Clone, Copy)]
enum FrontFault {
    /// The first word begins no item, or wants a word behind it.
    First,
    /// The second word is no value.
    Second,
    /// The option is given before.
    Repeated,
}

/// The job for which the words behind the program's name ask. The first fault from left to right
/// decides; then the first option that is missing, then the first that is no number of its range.
pub fn read_words(alloc: Global, words: &[String]) -> Result<Job, WordsFault>
    ensures read { IfOk result (Reads (map string_bytes words.now)) }
    ensures fault { (f : UsageFault) → result ≡ Err (WordsFault.Usage f)
        → IsUsageFault (map string_bytes words.now) f }
    ensures read_exactly { (job : PlainJob) → Reads (map string_bytes words.now) job
        → (result ≡ Ok job) ⊎ (result ≡ Err WordsFault.OutOfMemory) }
    ensures fault_exactly { (f : UsageFault) → IsUsageFault (map string_bytes words.now) f
        → (result ≡ Err (WordsFault.Usage f)) ⊎ (result ≡ Err WordsFault.OutOfMemory) }
{
    let Some(first) = words.first() else {
        return Err(WordsFault::Usage(UsageFault::NoCommand));
    };
    let Some(command) = Command::named(first.as_str()) else {
        return Err(WordsFault::Usage(UsageFault::UnknownCommand));
    };
    read_job(alloc, command, &words[1..])
}

/// The job for which a command and the words behind it ask.
fn read_job(alloc: Global, command: Command, words: &[String]) -> Result<Job, WordsFault>
    ensures read { IfOk result (Reads (command_text command ∷ map string_bytes words.now)) }
    ensures fault { (f : UsageFault) → result ≡ Err (WordsFault.Usage f)
        → IsUsageFault (command_text command ∷ map string_bytes words.now) f }
{
    let items = read_items(alloc, command, words)?;
    if let Some(name) = first_missing(command.required(), &items) {
        return Err(WordsFault::Usage(UsageFault::Missing(name)));
    }
    match read_limits(command, &items) {
        Ok(limits) => Ok(job_of(alloc, command, &items, limits)?),
        Err(name) => Err(WordsFault::Usage(UsageFault::BadNumber(name))),
    }
}

/// The job for which the items of a command ask. What the command does not have is empty.
fn job_of(
    alloc: Global,
    command: Command,
    items: &[Item],
    limits: Limits,
) -> Result<Job, AllocError>
    ensures { IfOk result (IsJob command (items_of items.now) limits) }
{
    let domain = text_given(items, OptionName::Domain);
    let problem = text_given(items, OptionName::Problem);
    let goals = text_given(items, OptionName::Goals);
    Ok(Job {
        command,
        domain: String::from_str(alloc, domain)?,
        problem: String::from_str(alloc, problem)?,
        goals: String::from_str(alloc, goals)?,
        limits,
    })
}

/// The items that the words behind a command are.
fn read_items<'a>(
    alloc: Global,
    command: Command,
    words: &'a [String],
) -> Result<Vec<Item<'a>>, WordsFault>
    ensures items { IfOk result (λ items. AreItemsOf command (map string_bytes words.now) (items_of items.items)) }
    ensures fault { (f : UsageFault) → result ≡ Err (WordsFault.Usage f)
        → IsUsageFault (command_text command ∷ map string_bytes words.now) f }
{
    let mut items = Vec::new(alloc);
    let mut at = 0;
    while at < words.len() {
        let front = match front_item(command, &items, words[at].as_str(), &words[at + 1..]) {
            Ok(front) => front,
            Err(fault) => return Err(WordsFault::Usage(usage_fault(fault, at))),
        };
        items.push(front.item)?;
        at += front.count;
    }
    Ok(items)
}

/// The fault of the words behind a command of which so many are items.
fn usage_fault(fault: FrontFault, good: usize) -> UsageFault
    requires { good < 2 ^ 63 }
    ensures { result ≡ usage_fault_of fault good }
{
    let place = good as u64 + 2;
    match fault {
        FrontFault::First => UsageFault::BadItem(place),
        FrontFault::Second => UsageFault::BadItem(place + 1),
        FrontFault::Repeated => UsageFault::Repeated(place),
    }
}

/// The item with which a word and the words behind it begin, after the items that are given before.
fn front_item<'a>(
    command: Command,
    items: &[Item],
    word: &'a str,
    rest: &'a [String],
) -> Result<Front<'a>, FrontFault>
    ensures { let words = word.now ∷ map string_bytes rest.now in
        MatchResult result (IsFront command (items_of items.now) words) (IsFrontFault command (items_of items.now) words) }
{
    match word.split_once('=') {
        Some((flag, value)) => joined_item(command, items, flag, value),
        None => bare_item(command, items, word, rest),
    }
}

/// The item of one word, cut at its first '='.
fn joined_item<'a>(
    command: Command,
    items: &[Item],
    flag: &str,
    value: &'a str,
) -> Result<Front<'a>, FrontFault>
    requires { HasNoEquals flag.now }
    ensures { (rest : List (List ℕ)) → let words = (flag.now ++ 61 ∷ value.now) ∷ rest in
        MatchResult result (IsFront command (items_of items.now) words) (IsFrontFault command (items_of items.now) words) }
{
    let Some(name) = option_named(command, flag) else {
        return Err(FrontFault::First);
    };
    if !is_value(value) {
        return Err(FrontFault::First);
    }
    match value_of(items, name) {
        None => Ok(Front {
            item: Item { name, value },
            count: 1,
        }),
        Some(_) => Err(FrontFault::Repeated),
    }
}

/// The item of a word with no '=' and the word behind it.
fn bare_item<'a>(
    command: Command,
    items: &[Item],
    word: &str,
    rest: &'a [String],
) -> Result<Front<'a>, FrontFault>
    requires { HasNoEquals word.now }
    ensures { let words = word.now ∷ map string_bytes rest.now in
        MatchResult result (IsFront command (items_of items.now) words) (IsFrontFault command (items_of items.now) words) }
{
    let Some(name) = option_named(command, word) else {
        return Err(FrontFault::First);
    };
    let Some(value) = rest.first() else {
        return Err(FrontFault::First);
    };
    if value_of(items, name).is_some() {
        return Err(FrontFault::Repeated);
    }
    let value = value.as_str();
    if !is_value(value) {
        return Err(FrontFault::Second);
    }
    Ok(Front {
        item: Item { name, value },
        count: 2,
    })
}

/// The option of the command whose word this is.
fn option_named(command: Command, word: &str) -> Option<OptionName>
    ensures { MatchOption result (All (λ name. word.now ≢ flag_of name) (options_of command))
        (λ name. Contains (options_of command) name × (word.now ≡ flag_of name)) }
{
    match option_among(command.required(), word) {
        Some(name) => Some(name),
        None => option_among(command.optional(), word),
    }
}

/// The option among the names whose word this is.
fn option_among(names: &[OptionName], word: &str) -> Option<OptionName>
    ensures { MatchOption result (All (λ name. word.now ≢ flag_of name) names.now)
        (λ name. Contains names.now name × (word.now ≡ flag_of name)) }
{
    let text = word.strip_prefix("--")?;
    names.iter().copied().find(|name| name.name() == text)
}

fn is_value(text: &str) -> bool
    ensures { IsTrue result ↔ IsValue text.now }
{
    !text.is_empty() && !text.starts_with('-')
}

/// What the option is given.
fn value_of<'a>(items: &[Item<'a>], name: OptionName) -> Option<&'a str>
    ensures { MatchOption result (NotGiven (items_of items.now) name)
        (λ value. Gives (items_of items.now) name value.now) }
{
    for item in items {
        if item.name == name {
            return Some(item.value);
        }
    }
    None
}

/// What the option is given, or an empty text.
fn text_given<'a>(items: &[Item<'a>], name: OptionName) -> &'a str
    ensures { GivesText (items_of items.now) name result.now }
{
    value_of(items, name).unwrap_or("")
}

/// The first of the names that is not given.
fn first_missing(names: &[OptionName], items: &[Item]) -> Option<OptionName>
    ensures { MatchOption result (All (IsGiven (items_of items.now)) names.now)
        (IsFirstWith names.now (NotGiven (items_of items.now))) }
{
    for name in names {
        if value_of(items, *name).is_none() {
            return Some(*name);
        }
    }
    None
}

/// The limits that the items of the command give, or the first option that is no number.
fn read_limits(command: Command, items: &[Item]) -> Result<Limits, OptionName>
    requires { HasNoRepeats (items_of items.now) }
    ensures { MatchResult result (ReadsLimits (options_of command) (items_of items.now) DEFAULT_LIMITS)
        (IsFirstWith (options_of command) (GivesNoNumber (items_of items.now))) }
{
    let limits = with_numbers(DEFAULT_LIMITS, command.required(), items)?;
    with_numbers(limits, command.optional(), items)
}

/// The limits with the numbers that the items give to the names.
fn with_numbers(limits: Limits, names: &[OptionName], items: &[Item]) -> Result<Limits, OptionName>
    requires { HasNoRepeats (items_of items.now) }
    ensures { MatchResult result (ReadsLimits names.now (items_of items.now) limits)
        (IsFirstWith names.now (GivesNoNumber (items_of items.now))) }
{
    let mut limits = limits;
    for name in names {
        match with_number_given(limits, *name, items) {
            Ok(more) => limits = more,
            Err(name) => return Err(name),
        }
    }
    Ok(limits)
}

/// The limits with the number that the items give to the option.
fn with_number_given(limits: Limits, name: OptionName, items: &[Item]) -> Result<Limits, OptionName>
    requires { HasNoRepeats (items_of items.now) }
    ensures { MatchResult result (ReadsLimits (name ∷ []) (items_of items.now) limits)
        (λ bad. (bad ≡ name) × GivesNoNumber (items_of items.now) name) }
{
    let Some(range) = name.range() else {
        return Ok(limits);
    };
    let Some(text) = value_of(items, name) else {
        return Ok(limits);
    };
    match read_number(range, text) {
        Some(n) => Ok(with_number(limits, name, n)),
        None => Err(name),
    }
}

/// The limits with the number of an option.
fn with_number(limits: Limits, name: OptionName, n: u32) -> Limits
    ensures { result ≡ with_number_of limits name n }
{
    match name {
        OptionName::MaxStates => Limits {
            states: n,
            ..limits
        },
        OptionName::Domain | OptionName::Problem | OptionName::Goals => limits,
    }
}

/// The number of the range that the text writes in 1 to 10 digits.
fn read_number(range: (u32, u32), text: &str) -> Option<u32>
    ensures { MatchOption result ((n : ℕ) → IsNumber range text.now n → ⊥) (IsNumber range text.now) }
{
    if text.is_empty() || text.len() > MOST_DIGITS || !text.bytes().all(|b| b.is_ascii_digit()) {
        return None;
    }
    let n: u64 = text.parse().ok()?;
    if u64::from(range.0) <= n && n <= u64::from(range.1) {
        Some(n as u32)
    } else {
        None
    }
}
