ghost use Rattle.std.specs.Prelude.{◌≡◌, IfOk};
ghost use Rattle.type_check.specs.Rules.{any_object, equality};

use grd_base::OutOfMemory;
use pddl_reader::{Name, Predicate, TypedName, Types};
use std::alloc::Global;

/// The predicate's name of an equality, which no domain declares.
pub(crate) const EQUALITY: &str = "=";

// A name that stands in no file.
fn name_of(alloc: Global, text: &str) -> Result<Name, OutOfMemory>
    ensures { IfOk result (λ name. name ≡ record { text = text.now; at = 0 }) }
{
    let text = String::from_str(alloc, text)?;
    Ok(Name { text, at: 0 })
}

// A place for any object.
#[tactic(auto, unfolding(crate::specs::Types::object_type))]
fn object_place(alloc: Global) -> Result<TypedName, OutOfMemory>
    ensures { IfOk result (λ place. place ≡ any_object) }
{
    let name = name_of(alloc, "")?;
    let types = Types::new(alloc, vec![in alloc; name_of(alloc, "object")?]?)?;
    Ok(TypedName { name, types })
}

/// The equality as a predicate, with two places for any object.
#[tactic(auto, unfolding(crate::specs::Rules::equality))]
pub(crate) fn equality_of_objects(alloc: Global) -> Result<Predicate, OutOfMemory>
    ensures { IfOk result (λ predicate. predicate ≡ equality) }
{
    let name = name_of(alloc, EQUALITY)?;
    let parameters = vec![in alloc; object_place(alloc)?, object_place(alloc)?]?;
    Ok(Predicate { name, parameters })
}
