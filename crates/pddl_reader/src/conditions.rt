ghost use Rattle.std.specs.Prelude.{◌≡◌, [], ◌∷◌, map, Ok, IfOk, OnOk, IfErr};
ghost use Rattle.pddl_reader.specs.Forms.{Leaf, word_of, form_at};
ghost use Rattle.pddl_reader.specs.Items.{IsTokenOver, IsItemOver, AreItemsOver, forms_at, IsFaultOf};
ghost use Rattle.pddl_reader.specs.Terms.{plain_term};
ghost use Rattle.pddl_reader.specs.Steps.{behind};
ghost use Rattle.pddl_reader.specs.Reading.{each_at, takes_variables, term_at, atom_in, atom_at, negation_in, literal_in, condition_at};
ghost use Rattle.pddl_reader.specs.Conditions.{has_enough};

use crate::classes;
use crate::faults::PddlFault;
use crate::kinds::Part;
use crate::values::{Literal, Term};
use crate::words::{bytes_of, is_word, place, word};
use pddl_lexer::{Item, Token};
use std::alloc::Global;

fn takes_variables(part: Part) -> bool
    ensures { result ≡ takes_variables part }
{
    match part {
        Part::Precondition | Part::Effect => true,
        Part::Start => false,
    }
}

fn term(alloc: Global, text: &[u8], part: Part, item: &Item) -> Result<Term, PddlFault>
    requires { IsItemOver text.now item.now }
    ensures read { IfOk result (λ t. term_at part (form_at text.now item.now) ≡ Ok (plain_term t)) }
    ensures fault { IfErr result (IsFaultOf (term_at part (form_at text.now item.now))) }
{
    match item {
        Item::Word(token) => {
            let bytes = bytes_of(text, *token);
            if classes::is_name(bytes) {
                return Ok(Term::Constant(word(alloc, text, *token)?));
            }
            if takes_variables(part) && classes::is_variable(bytes) {
                return Ok(Term::Variable(word(alloc, text, *token)?));
            }
            Err(PddlFault::Shape(token.from))
        }
        Item::List(list) => Err(PddlFault::Shape(list.at)),
    }
}

fn terms(alloc: Global, text: &[u8], part: Part, items: &[Item]) -> Result<Vec<Term>, PddlFault>
    requires { AreItemsOver text.now items.now }
    ensures read { IfOk result
        (λ terms. each_at (term_at part) (forms_at text.now items.now) ≡ Ok (map plain_term terms.items)) }
    ensures fault { IfErr result
        (IsFaultOf (each_at (term_at part) (forms_at text.now items.now))) }
{
    let mut terms = Vec::new(alloc);
    for item in items {
        terms.push(term(alloc, text, part, item)?)?;
    }
    Ok(terms)
}

/// Whether the items may be the terms behind the head: an equality has one or more.
fn has_enough(text: &[u8], head: Token, items: &[Item]) -> bool
    requires { IsTokenOver text.now head }
    ensures { result ≡ has_enough (word_of text.now head).text (forms_at text.now items.now) }
{
    match items {
        [] => !classes::is_equality(bytes_of(text, head)),
        [_, ..] => true,
    }
}

/// Reads the atom of the list at the place, whose head stands in front of the items.
fn atom_by(
    alloc: Global,
    text: &[u8],
    part: Part,
    at: u32,
    head: Token,
    items: &[Item],
) -> Result<Literal, PddlFault>
    requires head_over { IsTokenOver text.now head }
    requires items_over { AreItemsOver text.now items.now }
    ensures read { IfOk result
        (λ l. atom_in part at (Leaf (word_of text.now head) ∷ forms_at text.now items.now) ≡ Ok l) }
    ensures fault { IfErr result
        (IsFaultOf (atom_in part at (Leaf (word_of text.now head) ∷ forms_at text.now items.now))) }
{
    let bytes = bytes_of(text, head);
    if let Some(feature) = classes::head_feature(part, bytes) {
        return Err(PddlFault::Unsupported(at, feature));
    }
    if !classes::is_predicate(part, bytes) {
        return Err(PddlFault::Shape(head.from));
    }
    if !has_enough(text, head, items) {
        return Err(PddlFault::Shape(at));
    }
    Ok(Literal {
        positive: true,
        predicate: word(alloc, text, head)?,
        terms: terms(alloc, text, part, items)?,
    })
}

/// Reads the atom of the list at the place.
fn atom_in(
    alloc: Global,
    text: &[u8],
    part: Part,
    at: u32,
    items: &[Item],
) -> Result<Literal, PddlFault>
    requires { AreItemsOver text.now items.now }
    ensures read { IfOk result (λ l. atom_in part at (forms_at text.now items.now) ≡ Ok l) }
    ensures fault { IfErr result (IsFaultOf (atom_in part at (forms_at text.now items.now))) }
{
    match items.split_first() {
        None => Err(PddlFault::Shape(at)),
        Some((Item::List(list), _)) => Err(PddlFault::Shape(list.at)),
        Some((Item::Word(head), rest)) => atom_by(alloc, text, part, at, *head, rest),
    }
}

/// Reads an atom.
pub(crate) fn atom(
    alloc: Global,
    text: &[u8],
    part: Part,
    item: &Item,
) -> Result<Literal, PddlFault>
    requires { IsItemOver text.now item.now }
    ensures read { IfOk result (λ l. atom_at part (form_at text.now item.now) ≡ Ok l) }
    ensures fault { IfErr result (IsFaultOf (atom_at part (form_at text.now item.now))) }
{
    match item {
        Item::Word(token) => Err(PddlFault::Shape(token.from)),
        Item::List(list) => atom_in(alloc, text, part, list.at, &list.items),
    }
}

/// Reads what stands behind `not` in the list at the place.
fn negation(
    alloc: Global,
    text: &[u8],
    part: Part,
    at: u32,
    items: &[Item],
) -> Result<Literal, PddlFault>
    requires { AreItemsOver text.now items.now }
    ensures read { IfOk result (λ l. negation_in part at (forms_at text.now items.now) ≡ Ok l) }
    ensures fault { IfErr result (IsFaultOf (negation_in part at (forms_at text.now items.now))) }
{
    let Some((first, rest)) = items.split_first() else {
        return Err(PddlFault::Shape(at));
    };
    let atom = atom(alloc, text, part, first)?;
    match rest.first() {
        Some(second) => Err(PddlFault::Shape(place(second))),
        None => Ok(Literal {
            positive: false,
            predicate: atom.predicate,
            terms: atom.terms,
        }),
    }
}

/// Reads the literal of the list at the place, whose head stands in front of the items.
fn literal(
    alloc: Global,
    text: &[u8],
    part: Part,
    at: u32,
    head: Token,
    items: &[Item],
) -> Result<Literal, PddlFault>
    requires head_over { IsTokenOver text.now head }
    requires items_over { AreItemsOver text.now items.now }
    ensures read { IfOk result
        (λ l. literal_in part at (word_of text.now head) (forms_at text.now items.now)
        ≡ Ok (l ∷ [])) }
    ensures fault { IfErr result
        (IsFaultOf (literal_in part at (word_of text.now head) (forms_at text.now items.now))) }
{
    if is_word(text, head, "not") && classes::takes_negation(part) {
        negation(alloc, text, part, at, items)
    } else {
        atom_by(alloc, text, part, at, head, items)
    }
}

/// Adds the literals of a condition.
fn add_condition(
    alloc: Global,
    text: &[u8],
    part: Part,
    item: &Item,
    found: &mut Vec<Literal>,
) -> Result<(), PddlFault>
    requires { IsItemOver text.now item.now }
    ensures read { OnOk result
        (behind found.old.items (condition_at part (form_at text.now item.now))
        ≡ Ok found.new.items) }
    ensures fault { IfErr result (IsFaultOf (condition_at part (form_at text.now item.now))) }
{
    let list = match item {
        Item::Word(token) => return Err(PddlFault::Shape(token.from)),
        Item::List(list) => list,
    };
    let Some((first, rest)) = list.items.split_first() else {
        return Ok(());
    };
    let head = match first {
        Item::Word(head) => *head,
        Item::List(inner) => return Err(PddlFault::Shape(inner.at)),
    };
    if !is_word(text, head, "and") {
        found.push(literal(alloc, text, part, list.at, head, rest)?)?;
        return Ok(());
    }
    for item in rest {
        add_condition(alloc, text, part, item, found)?;
    }
    Ok(())
}

/// Reads a condition, as its literals in text order.
pub(crate) fn condition(
    alloc: Global,
    text: &[u8],
    part: Part,
    item: &Item,
) -> Result<Vec<Literal>, PddlFault>
    requires { IsItemOver text.now item.now }
    ensures read { IfOk result (λ ls. condition_at part (form_at text.now item.now) ≡ Ok ls.items) }
    ensures fault { IfErr result (IsFaultOf (condition_at part (form_at text.now item.now))) }
{
    let mut found = Vec::new(alloc);
    add_condition(alloc, text, part, item, &mut found)?;
    Ok(found)
}
