ghost use Rattle.std.specs.Prelude.{◌≡◌, [], ◌∷◌, List, IfOk, IfErr, OnOk};
ghost use Rattle.pddl_reader.specs.Forms.{place_of, form_at};
ghost use Rattle.pddl_reader.specs.Lists.{IsFirstItem, IsFirstWord, IsHeadWordFault};

use crate::faults::PddlFault;
use crate::words::place;
use pddl_lexer::{Item, Token};

/// The first item of the list at the place, and the items behind it.
pub(crate) fn first_item(at: u32, items: &[Item]) -> Result<(&Item, &[Item]), PddlFault>
    ensures found { IfOk result (λ x. IsFirstItem items.now x.0.now x.1.now) }
    ensures fault { IfErr result (λ f. (items.now ≡ []) × (f ≡ PddlFault.Shape at)) }
{
    match items.split_first() {
        Some((item, rest)) => Ok((item, rest)),
        None => Err(PddlFault::Shape(at)),
    }
}

/// The word that stands first in the list at the place, and the items behind it.
pub(crate) fn first_word(at: u32, items: &[Item]) -> Result<(Token, &[Item]), PddlFault>
    ensures found { IfOk result (λ x. IsFirstWord items.now x.0 x.1.now) }
    ensures fault { IfErr result (IsHeadWordFault at items.now) }
{
    let (item, rest) = first_item(at, items)?;
    match item {
        Item::Word(token) => Ok((*token, rest)),
        Item::List(list) => Err(PddlFault::Shape(list.at)),
    }
}

/// Sees that no item is left.
pub(crate) fn no_item(items: &[Item]) -> Result<(), PddlFault>
    ensures none { OnOk result (items.now ≡ []) }
    ensures fault { IfErr result (λ f. (item : Item) × (more : List Item)
        × (items.now ≡ item ∷ more) × (f ≡ PddlFault.Shape (place_of (form_at [] item)))) }
{
    match items {
        [] => Ok(()),
        [item, ..] => Err(PddlFault::Shape(place(item))),
    }
}
