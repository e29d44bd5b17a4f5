ghost use Rattle.std.specs.Prelude.{◌≡◌, ℕ, [], Ok, Err, List, IfOk, IfErr, OnOk};
ghost use Rattle.pddl_reader.specs.Forms.{Word, Form, form_at};
ghost use Rattle.pddl_reader.specs.Items.{IsItemOver, AreItemsOver, forms_at, IsFaultOf};
ghost use Rattle.pddl_reader.specs.PlainSections.{plain_section};
ghost use Rattle.pddl_reader.specs.Reading.{each_at, atom_at, predicate_in, predicate_at, requirement_at, one_name, one_form, content_in};

use crate::actions::action;
use crate::classes;
use crate::conditions::atom;
use crate::faults::{Feature, PddlFault};
use crate::kinds::{Listed, Part, SectionKind};
use crate::lists::{first_item, no_item};
use crate::typed::typed_list;
use crate::values::{Literal, Name, Predicate, Schema, TypedName};
use crate::words::{bytes_of, name};
use pddl_lexer::Item;
use std::alloc::Global;

/// A section with its value.
#[derive(Drop)]
pub(crate) enum Section {
    Requirements,
    Types(Vec<TypedName>),
    Constants(Vec<TypedName>),
    Predicates(Vec<Predicate>),
    Action(Schema),
    Domain(Name),
    Objects(Vec<TypedName>),
    Init(Vec<Literal>),
    Goal,
}

/// Sees that the item is a requirement that is accepted.
fn requirement(text: &[u8], item: &Item) -> Result<(), PddlFault>
    requires { IsItemOver text.now item.now }
    ensures read { OnOk result ((w : Word) × (requirement_at (form_at text.now item.now) ≡ Ok w)) }
    ensures fault { IfErr result (λ f. requirement_at (form_at text.now item.now) ≡ Err f) }
{
    match item {
        Item::Word(token) => {
            let bytes = bytes_of(text, *token);
            if classes::is_accepted(bytes) {
                Ok(())
            } else if classes::is_keyword(bytes) {
                Err(PddlFault::Unsupported(token.from, Feature::Requirement))
            } else {
                Err(PddlFault::Shape(token.from))
            }
        }
        Item::List(list) => Err(PddlFault::Shape(list.at)),
    }
}

/// Sees that each item is a requirement that is accepted.
fn requirements(text: &[u8], items: &[Item]) -> Result<(), PddlFault>
    requires { AreItemsOver text.now items.now }
    ensures read { OnOk result
        ((words : List Word) × (each_at requirement_at (forms_at text.now items.now) ≡ Ok words)) }
    ensures fault { IfErr result (IsFaultOf (each_at requirement_at (forms_at text.now items.now))) }
{
    for item in items {
        requirement(text, item)?;
    }
    Ok(())
}

/// Reads the declared predicate of the list at the place.
fn predicate_in(alloc: Global, text: &[u8], at: u32, items: &[Item]) -> Result<Predicate, PddlFault>
    requires { AreItemsOver text.now items.now }
    ensures read { IfOk result (λ p. predicate_in at (forms_at text.now items.now) ≡ Ok p) }
    ensures fault { IfErr result (IsFaultOf (predicate_in at (forms_at text.now items.now))) }
{
    let (item, rest) = first_item(at, items)?;
    let name = name(alloc, text, item)?;
    let parameters = typed_list(alloc, text, Listed::Variables, at, rest)?;
    Ok(Predicate { name, parameters })
}

/// Reads a declared predicate.
fn predicate(alloc: Global, text: &[u8], item: &Item) -> Result<Predicate, PddlFault>
    requires { IsItemOver text.now item.now }
    ensures read { IfOk result (λ p. predicate_at (form_at text.now item.now) ≡ Ok p) }
    ensures fault { IfErr result (IsFaultOf (predicate_at (form_at text.now item.now))) }
{
    match item {
        Item::Word(token) => Err(PddlFault::Shape(token.from)),
        Item::List(list) => predicate_in(alloc, text, list.at, &list.items),
    }
}

fn predicates(alloc: Global, text: &[u8], items: &[Item]) -> Result<Vec<Predicate>, PddlFault>
    requires { AreItemsOver text.now items.now }
    ensures read { IfOk result
        (λ found. each_at predicate_at (forms_at text.now items.now) ≡ Ok found.items) }
    ensures fault { IfErr result (IsFaultOf (each_at predicate_at (forms_at text.now items.now))) }
{
    let mut found = Vec::new(alloc);
    for item in items {
        found.push(predicate(alloc, text, item)?)?;
    }
    Ok(found)
}

/// Reads the atoms that are true at the start.
fn start_atoms(alloc: Global, text: &[u8], items: &[Item]) -> Result<Vec<Literal>, PddlFault>
    requires { AreItemsOver text.now items.now }
    ensures read { IfOk result
        (λ found. each_at (atom_at Part.Start) (forms_at text.now items.now) ≡ Ok found.items) }
    ensures fault { IfErr result
        (IsFaultOf (each_at (atom_at Part.Start) (forms_at text.now items.now))) }
{
    let mut found = Vec::new(alloc);
    for item in items {
        found.push(atom(alloc, text, Part::Start, item)?)?;
    }
    Ok(found)
}

/// Reads the one name of the list at the place.
pub(crate) fn one_name(
    alloc: Global,
    text: &[u8],
    at: u32,
    items: &[Item],
) -> Result<Name, PddlFault>
    requires { AreItemsOver text.now items.now }
    ensures read { IfOk result (λ name. one_name at (forms_at text.now items.now) ≡ Ok name) }
    ensures fault { IfErr result (IsFaultOf (one_name at (forms_at text.now items.now))) }
{
    let (item, rest) = first_item(at, items)?;
    let name = name(alloc, text, item)?;
    no_item(rest)?;
    Ok(name)
}

/// Sees that the list at the place has one item.
fn one_form(at: u32, items: &[Item]) -> Result<(), PddlFault>
    ensures read { OnOk result ((text : List ℕ)
        → (f : Form) × (one_form at (forms_at text items.now) ≡ Ok f)) }
    ensures fault { IfErr result (λ fault. (text : List ℕ)
        → one_form at (forms_at text items.now) ≡ Err fault) }
{
    let (_item, rest) = first_item(at, items)?;
    no_item(rest)
}

/// Reads the content of a section at the place, which is of this kind.
pub(crate) fn content(
    alloc: Global,
    text: &[u8],
    kind: SectionKind,
    at: u32,
    items: &[Item],
) -> Result<Section, PddlFault>
    requires { AreItemsOver text.now items.now }
    ensures read { IfOk result
        (λ s. content_in kind at (forms_at text.now items.now) ≡ Ok (plain_section s)) }
    ensures fault { IfErr result (IsFaultOf (content_in kind at (forms_at text.now items.now))) }
{
    match kind {
        SectionKind::Requirements => {
            requirements(text, items)?;
            Ok(Section::Requirements)
        }
        SectionKind::Types => Ok(Section::Types(typed_list(
            alloc,
            text,
            Listed::Names,
            at,
            items,
        )?)),
        SectionKind::Constants => Ok(Section::Constants(typed_list(
            alloc,
            text,
            Listed::Names,
            at,
            items,
        )?)),
        SectionKind::Predicates => Ok(Section::Predicates(predicates(alloc, text, items)?)),
        SectionKind::Action => Ok(Section::Action(action(alloc, text, at, items)?)),
        SectionKind::Domain => Ok(Section::Domain(one_name(alloc, text, at, items)?)),
        SectionKind::Objects => Ok(Section::Objects(typed_list(
            alloc,
            text,
            Listed::Names,
            at,
            items,
        )?)),
        SectionKind::Init => Ok(Section::Init(start_atoms(alloc, text, items)?)),
        SectionKind::Goal => {
            one_form(at, items)?;
            Ok(Section::Goal)
        }
    }
}
