ghost use Rattle.std.specs.Prelude.{◌≡◌, ℕ, ◌<◌, [], Ok, Err, false, List, length, IfOk, IfErr, OnOk};
ghost use Rattle.std.specs.List.{list_any};
ghost use Rattle.pddl_reader.specs.Forms.{word_of, form_at};
ghost use Rattle.pddl_reader.specs.Items.{IsTokenOver, IsItemOver, AreItemsOver, forms_at, IsFaultOf};
ghost use Rattle.pddl_reader.specs.Kept.{KeepsParts, AddsPart, TakesPart};
ghost use Rattle.pddl_reader.specs.Reading.{part_by, same_part, new_part, part_at, parts_from, action_in};
ghost use Rattle.pddl_reader.specs.Sections.{PartValue, HasParameters};

use crate::conditions::condition;
use crate::faults::PddlFault;
use crate::kinds::{ActionPart, Listed, Part};
use crate::lists::{first_item, first_word};
use crate::typed::typed_list;
use crate::values::{Literal, Schema, TypedName};
use crate::words::{is_word, name};
use pddl_lexer::{Item, Token};
use std::alloc::Global;

/// The kind of parts that a keyword names.
fn part_by(text: &[u8], token: Token) -> Option<ActionPart>
    requires { IsTokenOver text.now token }
    ensures { result ≡ part_by (word_of text.now token).text }
{
    if is_word(text, token, ":parameters") {
        Some(ActionPart::Parameters)
    } else if is_word(text, token, ":precondition") {
        Some(ActionPart::Precondition)
    } else if is_word(text, token, ":effect") {
        Some(ActionPart::Effect)
    } else {
        None
    }
}

/// Reads the parameters behind their keyword.
fn parameters(alloc: Global, text: &[u8], item: &Item) -> Result<Vec<TypedName>, PddlFault>
    requires { IsItemOver text.now item.now }
    ensures read { IfOk result (λ v.
        part_at ActionPart.Parameters (form_at text.now item.now) ≡ Ok (HasParameters v.items)) }
    ensures fault { IfErr result
        (IsFaultOf (part_at ActionPart.Parameters (form_at text.now item.now))) }
{
    match item {
        Item::Word(token) => Err(PddlFault::Shape(token.from)),
        Item::List(list) => typed_list(alloc, text, Listed::Variables, list.at, &list.items),
    }
}

/// The parts of an action that are read so far.
#[derive(Drop)]
struct Parts {
    given: Vec<ActionPart>,
    parameters: Vec<TypedName>,
    pre: Vec<Literal>,
    effect: Vec<Literal>,
}

impl Parts {
    fn new(alloc: Global) -> Self
        ensures { KeepsParts [] result }
    {
        Parts {
            given: Vec::new(alloc),
            parameters: Vec::new(alloc),
            pre: Vec::new(alloc),
            effect: Vec::new(alloc),
        }
    }

    /// The part that the keyword names, if it comes for the first time.
    fn new_part(&self, text: &[u8], token: Token) -> Result<ActionPart, PddlFault>
        requires { IsTokenOver text.now token }
        ensures read { IfOk result (λ part.
            new_part (part_by (word_of text.now token).text) self.now.given.items (word_of text.now token)
            ≡ Ok part) }
        ensures fresh { IfOk result (λ part. list_any (same_part part) self.now.given.items ≡ false) }
        ensures fault { IfErr result (λ f.
            new_part (part_by (word_of text.now token).text) self.now.given.items (word_of text.now token)
            ≡ Err f) }
    {
        match part_by(text, token) {
            None => Err(PddlFault::Shape(token.from)),
            Some(part) => {
                if self.given.contains(&part) {
                    Err(PddlFault::DoubledSection(token.from))
                } else {
                    Ok(part)
                }
            }
        }
    }

    /// Reads the item behind the keyword of the part.
    fn read_part(
        &mut self,
        alloc: Global,
        text: &[u8],
        part: ActionPart,
        item: &Item,
    ) -> Result<(), PddlFault>
        requires over { IsItemOver text.now item.now }
        requires fresh { list_any (same_part part) self.old.given.items ≡ false }
        ensures read { OnOk result (AddsPart part self.old (form_at text.now item.now) self.new) }
        ensures fault { IfErr result (IsFaultOf (part_at part (form_at text.now item.now))) }
    {
        self.given.push(part)?;
        match part {
            ActionPart::Parameters => {
                self.parameters = parameters(alloc, text, item)?;
                Ok(())
            }
            ActionPart::Precondition => {
                self.pre = condition(alloc, text, Part::Precondition, item)?;
                Ok(())
            }
            ActionPart::Effect => {
                self.effect = condition(alloc, text, Part::Effect, item)?;
                Ok(())
            }
        }
    }

    /// Reads the part that stands first, and answers what stands behind it.
    fn take<'a>(
        &mut self,
        alloc: Global,
        text: &[u8],
        at: u32,
        items: &'a [Item],
    ) -> Result<&'a [Item], PddlFault>
        requires some { 0 < length items.now }
        requires over { AreItemsOver text.now items.now }
        ensures over { IfOk result (λ rest. AreItemsOver text.now rest.now) }
        ensures shorter { IfOk result (λ rest. length rest.now < length items.now) }
        ensures read { IfOk result (λ rest.
            TakesPart at self.old (forms_at text.now items.now) self.new (forms_at text.now rest.now)) }
        ensures fault { IfErr result
            (IsFaultOf (parts_from at self.old.given.items (forms_at text.now items.now))) }
    {
        let (token, behind) = first_word(at, items)?;
        let part = self.new_part(text, token)?;
        let (item, rest) = first_item(at, behind)?;
        self.read_part(alloc, text, part, item)?;
        Ok(rest)
    }
}

/// Reads the parts of the action at the place.
fn read_parts(alloc: Global, text: &[u8], at: u32, items: &[Item]) -> Result<Parts, PddlFault>
    requires { AreItemsOver text.now items.now }
    ensures read { IfOk result (λ p. (seen : List PartValue)
        × (parts_from at [] (forms_at text.now items.now) ≡ Ok seen) × KeepsParts seen p) }
    ensures fault { IfErr result (IsFaultOf (parts_from at [] (forms_at text.now items.now))) }
{
    let mut parts = Parts::new(alloc);
    let mut rest = items;
    while !rest.is_empty() {
        rest = parts.take(alloc, text, at, rest)?;
    }
    Ok(parts)
}

/// Reads the action at the place: its name and its parts.
pub(crate) fn action(
    alloc: Global,
    text: &[u8],
    at: u32,
    items: &[Item],
) -> Result<Schema, PddlFault>
    requires { AreItemsOver text.now items.now }
    ensures read { IfOk result (λ a. action_in at (forms_at text.now items.now) ≡ Ok a) }
    ensures fault { IfErr result (IsFaultOf (action_in at (forms_at text.now items.now))) }
{
    let (item, rest) = first_item(at, items)?;
    let name = name(alloc, text, item)?;
    let parts = read_parts(alloc, text, at, rest)?;
    Ok(Schema {
        name,
        parameters: parts.parameters,
        pre: parts.pre,
        effect: parts.effect,
    })
}
