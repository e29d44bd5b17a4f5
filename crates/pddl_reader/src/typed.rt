ghost use Rattle.std.specs.Prelude.{◌≡◌, true, false, [], ◌++◌, map, Ok, IfOk, OnOk, IfErr};
ghost use Rattle.pddl_reader.specs.Forms.{group, form_at};
ghost use Rattle.pddl_reader.specs.Items.{IsItemOver, AreItemsOver, forms_at, IsFaultOf};
ghost use Rattle.pddl_reader.specs.declared.kinds.Listed.{Listed};
ghost use Rattle.pddl_reader.specs.Typed.{typed_by, untyped};
ghost use Rattle.pddl_reader.specs.Reading.{each_at, name_at, either_at, begins_either, type_at, typed_from};

use crate::classes;
use crate::faults::{Feature, PddlFault};
use crate::kinds::Listed;
use crate::values::{Name, TypedName, Types};
use crate::words::{bytes_of, is_word, name, word};
use pddl_lexer::Item;
use std::alloc::{AllocError, Global};
use std::mem;

fn names(alloc: Global, text: &[u8], items: &[Item]) -> Result<Vec<Name>, PddlFault>
    requires { AreItemsOver text.now items.now }
    ensures read { IfOk result
        (λ names. each_at name_at (forms_at text.now items.now) ≡ Ok names.items) }
    ensures fault { IfErr result (IsFaultOf (each_at name_at (forms_at text.now items.now))) }
{
    let mut names = Vec::new(alloc);
    for item in items {
        names.push(name(alloc, text, item)?)?;
    }
    Ok(names)
}

/// Reads `either` and names in the list at the place.
fn either(alloc: Global, text: &[u8], at: u32, items: &[Item]) -> Result<Vec<Name>, PddlFault>
    requires { AreItemsOver text.now items.now }
    ensures read { IfOk result
        (λ names. either_at at (forms_at text.now items.now) ≡ Ok names.items) }
    ensures fault { IfErr result (IsFaultOf (either_at at (forms_at text.now items.now))) }
{
    let Some((head, rest)) = items.split_first() else {
        return Err(PddlFault::Shape(at));
    };
    match head {
        Item::List(inner) => Err(PddlFault::Shape(inner.at)),
        Item::Word(head) => {
            if !is_word(text, *head, "either") {
                return Err(PddlFault::Shape(head.from));
            }
            if rest.is_empty() {
                return Err(PddlFault::Shape(at));
            }
            names(alloc, text, rest)
        }
    }
}

fn begins_either(text: &[u8], items: &[Item]) -> bool
    requires { AreItemsOver text.now items.now }
    ensures { result ≡ begins_either (forms_at text.now items.now) }
{
    match items.split_first() {
        Some((Item::Word(head), _)) => is_word(text, *head, "either"),
        _ => false,
    }
}

/// Reads the list at the place as a type.
fn list_type(
    alloc: Global,
    text: &[u8],
    listed: Listed,
    at: u32,
    items: &[Item],
) -> Result<Vec<Name>, PddlFault>
    requires { AreItemsOver text.now items.now }
    ensures read { IfOk result
        (λ types. type_at listed (group at (forms_at text.now items.now)) ≡ Ok types.items) }
    ensures fault { IfErr result
        (IsFaultOf (type_at listed (group at (forms_at text.now items.now)))) }
{
    match listed {
        Listed::Variables => either(alloc, text, at, items),
        Listed::Names => {
            if begins_either(text, items) {
                return Err(PddlFault::Unsupported(at, Feature::EitherOfNames));
            }
            Err(PddlFault::Shape(at))
        }
    }
}

/// Reads a type, which is one name or more.
fn type_names(
    alloc: Global,
    text: &[u8],
    listed: Listed,
    item: &Item,
) -> Result<Vec<Name>, PddlFault>
    requires { IsItemOver text.now item.now }
    ensures read { IfOk result
        (λ types. type_at listed (form_at text.now item.now) ≡ Ok types.items) }
    ensures fault { IfErr result (IsFaultOf (type_at listed (form_at text.now item.now))) }
{
    match item {
        Item::List(list) => list_type(alloc, text, listed, list.at, &list.items),
        Item::Word(_) => {
            let mut types = Vec::new(alloc);
            types.push(name(alloc, text, item)?)?;
            Ok(types)
        }
    }
}

/// The type, for names to share.
fn shared_type(alloc: Global, text: &[u8], listed: Listed, item: &Item) -> Result<Types, PddlFault>
    requires { IsItemOver text.now item.now }
    ensures read { IfOk result (λ types. type_at listed (form_at text.now item.now) ≡ Ok types) }
    ensures fault { IfErr result (IsFaultOf (type_at listed (form_at text.now item.now))) }
{
    let names = type_names(alloc, text, listed, item)?;
    Ok(Types::new(alloc, names)?)
}

/// Adds the elements, each with the types.
fn add_typed(
    names: &mut Vec<TypedName>,
    elements: Vec<Name>,
    types: &Types,
) -> Result<(), AllocError>
    ensures { OnOk result
        (names.new.items ≡ names.old.items ++ typed_by types.now elements.items) }
{
    for name in elements {
        let types = types.share()?;
        names.push(TypedName { name, types })?;
    }
    Ok(())
}

/// The name with the type `object`.
fn untyped(alloc: Global, name: Name) -> Result<TypedName, AllocError>
    ensures { IfOk result (λ typed. typed ≡ untyped name) }
{
    let mut types = Vec::new(alloc);
    types.push(Name {
        text: String::from_str(alloc, "object")?,
        at: name.at,
    })?;
    let types = Types::new(alloc, types)?;
    Ok(TypedName { name, types })
}

/// Adds the elements, each with the type `object`.
fn add_untyped(
    alloc: Global,
    names: &mut Vec<TypedName>,
    elements: Vec<Name>,
) -> Result<(), AllocError>
    ensures { OnOk result (names.new.items ≡ names.old.items ++ map untyped elements.items) }
{
    for name in elements {
        names.push(untyped(alloc, name)?)?;
    }
    Ok(())
}

/// A typed list as far as it is read.
#[derive(Drop)]
struct TypedReading {
    names: Vec<TypedName>,
    /// The elements that wait for their type.
    waiting: Vec<Name>,
    /// Whether a dash stands behind them.
    dash: bool,
}

impl TypedReading {
    ghost use Rattle.pddl_reader.specs.TypedSteps.{typed_behind, Takes, Refuses};

    /// Reads the type behind a dash.
    fn take_type(
        &mut self,
        alloc: Global,
        text: &[u8],
        listed: Listed,
        item: &Item,
    ) -> Result<(), PddlFault>
        requires dash { self.old.dash ≡ true }
        requires over { IsItemOver text.now item.now }
        ensures taken { OnOk result
            (Takes listed self.old (form_at text.now item.now) self.new) }
        ensures refused { IfErr result (Refuses listed self.old (form_at text.now item.now)) }
    {
        let types = shared_type(alloc, text, listed, item)?;
        let elements = mem::replace(&mut self.waiting, Vec::new(alloc));
        add_typed(&mut self.names, elements, &types)?;
        self.dash = false;
        Ok(())
    }

    /// Reads an element, or a dash behind elements.
    fn take_element(
        &mut self,
        alloc: Global,
        text: &[u8],
        listed: Listed,
        item: &Item,
    ) -> Result<(), PddlFault>
        requires no_dash { self.old.dash ≡ false }
        requires over { IsItemOver text.now item.now }
        ensures taken { OnOk result
            (Takes listed self.old (form_at text.now item.now) self.new) }
        ensures refused { IfErr result (Refuses listed self.old (form_at text.now item.now)) }
    {
        let token = match item {
            Item::Word(token) => *token,
            Item::List(list) => return Err(PddlFault::Shape(list.at)),
        };
        if classes::is_element(listed, bytes_of(text, token)) {
            self.waiting.push(word(alloc, text, token)?)?;
            return Ok(());
        }
        if self.waiting.is_empty() || !is_word(text, token, "-") {
            return Err(PddlFault::Shape(token.from));
        }
        self.dash = true;
        Ok(())
    }

    fn take(
        &mut self,
        alloc: Global,
        text: &[u8],
        listed: Listed,
        item: &Item,
    ) -> Result<(), PddlFault>
        requires { IsItemOver text.now item.now }
        ensures taken { OnOk result
            (Takes listed self.old (form_at text.now item.now) self.new) }
        ensures refused { IfErr result (Refuses listed self.old (form_at text.now item.now)) }
    {
        if self.dash {
            self.take_type(alloc, text, listed, item)
        } else {
            self.take_element(alloc, text, listed, item)
        }
    }

    /// What is read where the list ends, which stands at the place.
    fn end(self, alloc: Global, at: u32) -> Result<Vec<TypedName>, PddlFault>
        ensures read { (listed : Listed) → IfOk result
            (λ names. typed_behind listed self at [] ≡ Ok names.items) }
        ensures fault { (listed : Listed) → IfErr result
            (IsFaultOf (typed_behind listed self at [])) }
    {
        if self.dash {
            return Err(PddlFault::Shape(at));
        }
        let mut names = self.names;
        add_untyped(alloc, &mut names, self.waiting)?;
        Ok(names)
    }
}

/// Reads a typed list. `at` is the place of the list in which the items stand.
pub(crate) fn typed_list(
    alloc: Global,
    text: &[u8],
    listed: Listed,
    at: u32,
    items: &[Item],
) -> Result<Vec<TypedName>, PddlFault>
    requires { AreItemsOver text.now items.now }
    ensures read { IfOk result
        (λ names. typed_from listed at [] (forms_at text.now items.now) ≡ Ok names.items) }
    ensures fault { IfErr result
        (IsFaultOf (typed_from listed at [] (forms_at text.now items.now))) }
{
    let mut reading = TypedReading {
        names: Vec::new(alloc),
        waiting: Vec::new(alloc),
        dash: false,
    };
    for item in items {
        reading.take(alloc, text, listed, item)?;
    }
    reading.end(alloc, at)
}
