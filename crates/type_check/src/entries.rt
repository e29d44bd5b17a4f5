// The types that a domain declares, with their parents by numbers.
ghost use Rattle.std.specs.Prelude.{◌≡◌, ◌≤◌, ◌^◌, ◌++◌, ◌∷◌, [], List, ℕ, map, length, Contains, IfOk, OnOk};
ghost use Rattle.std.specs.List.{IsDistinct};
ghost use Rattle.std.specs.Str.{bytes_eq};
ghost use Rattle.pddl_reader.specs.Values.{PlainTypedName};
ghost use Rattle.type_check.specs.Types.{names_of, type_of, is_entry, firsts, type_names};
ghost use Rattle.type_check.specs.Chains.{parents_in, type_parents};

use crate::names::Names;
use grd_base::OutOfMemory;
use pddl_reader::{Domain, TypedName};
use std::alloc::Global;

/// The first type of a name: a declared type, a constant or an object has just one.
#[tactic(auto, unfolding(crate::specs::Types::object_type))]
pub(crate) fn type_text(n: &TypedName) -> &str
    ensures { result.now ≡ type_of n.now }
{
    match n.types.as_slice().first() {
        Some(name) => name.text.as_str(),
        None => "object",
    }
}

/// Whether the declaration gives its type a parent.
#[tactic(auto, unfolding(crate::specs::Types::object_type))]
pub(crate) fn is_entry(n: &TypedName) -> bool
    ensures { result ≡ is_entry n.now }
{
    !(n.name.text.as_str() == "object" && type_text(n) == "object")
}

// Adds the names that are declared, each where it is not there.
fn add_names<'a>(names: &mut Names<'a>, types: &'a [TypedName]) -> Result<(), OutOfMemory>
    ensures { OnOk result ((front : List (List ℕ)) → names.old ≡ firsts front → names.new ≡ firsts (front ++ names_of types.now)) }
{
    for n in types {
        names.add(n.name.text.as_str())?;
    }
    Ok(())
}

// Adds the names of the parents, each where it is not there.
fn add_parents<'a>(names: &mut Names<'a>, types: &'a [TypedName]) -> Result<(), OutOfMemory>
    ensures { OnOk result ((front : List (List ℕ)) → names.old ≡ firsts front → names.new ≡ firsts (front ++ map type_of types.now)) }
{
    for n in types {
        names.add(type_text(n))?;
    }
    Ok(())
}

/// The types of a domain by their numbers.
pub(crate) fn numbered<'a>(alloc: Global, domain: &'a Domain) -> Result<Names<'a>, OutOfMemory>
    ensures { IfOk result (λ names. names ≡ type_names domain.now) }
{
    let mut names = Names::new(alloc);
    names.add("object")?;
    add_names(&mut names, domain.types.as_slice())?;
    add_parents(&mut names, domain.types.as_slice())?;
    Ok(names)
}

// Gives a type the parent that an entry names, in the place of what the entries behind it gave.
fn note_parent(names: &Names, parents: &mut [Option<u32>], entry: &TypedName)
    requires few { length names.now ≤ 2 ^ 32 }
    requires distinct { IsDistinct bytes_eq names.now }
    requires known { Contains names.now entry.now.name.text }
    requires parent_known { Contains names.now (type_of entry.now) }
    requires each { length parents.old ≡ length names.now }
    ensures { (behind : List PlainTypedName) → parents.old ≡ parents_in names.now behind
        → parents.new ≡ parents_in names.now (entry.now ∷ behind) }
{
    let number = names.place_of(entry.name.text.as_str());
    let parent = names.place_of(type_text(entry));
    if let Some(number) = number {
        parents[number as usize] = parent;
    }
}

/// The parent of each type by its number. A type that is not declared stands under `object`.
pub(crate) fn parents_of(
    alloc: Global,
    names: &Names,
    domain: &Domain,
) -> Result<Vec<Option<u32>>, OutOfMemory>
    requires few { length names.now ≤ 2 ^ 32 }
    requires names { names.now ≡ type_names domain.now }
    ensures { IfOk result (λ parents. parents.items ≡ type_parents domain.now) }
{
    let types = domain.types.as_slice();
    let mut parents = vec![in alloc; Some(0); names.len()]?;
    parents[0] = None;
    for at in (0..types.len()).rev() {
        let n = &types[at];
        if is_entry(n) {
            note_parent(names, &mut parents, n);
        }
    }
    Ok(parents)
}
