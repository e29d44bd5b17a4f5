ghost use Rattle.std.specs.Prelude.{◌≡◌, map, IfOk, Contains};
ghost use Rattle.type_check.specs.Types.{type_of, type_names, place_in};
ghost use Rattle.type_check.specs.Rules.{all_objects};
ghost use Rattle.type_check.specs.Typing.{typed_object};

use crate::entries::type_text;
use crate::files::Files;
use crate::typed::TypedObject;
use crate::types::Types;
use grd_base::OutOfMemory;
use pddl_reader::{Name, TypedName};
use std::alloc::Global;

/// A copy of the name, at the same place.
pub(crate) fn copied(alloc: Global, name: &Name) -> Result<Name, OutOfMemory>
    ensures { IfOk result (λ copy. copy ≡ name.now) }
{
    let text = String::from_str(alloc, name.text.as_str())?;
    Ok(Name { text, at: name.at })
}

/// The number of the object's type.
fn kind(types: &Types<'_>, object: &TypedName) -> u32
    requires known { Contains (type_names types.now) (type_of object.now) }
    ensures { result ≡ place_in (type_names types.now) (type_of object.now) }
{
    types.number_of(type_text(object)).unwrap()
}

/// The object with its type's number.
fn typed_object(
    alloc: Global,
    types: &Types<'_>,
    object: &TypedName,
) -> Result<TypedObject, OutOfMemory>
    requires known { Contains (type_names types.now) (type_of object.now) }
    ensures { IfOk result (λ o. o ≡ typed_object types.now object.now) }
{
    let name = copied(alloc, &object.name)?;
    let kind = kind(types, object);
    Ok(TypedObject { name, kind })
}

/// The constants, and then the objects, with their types' numbers.
pub(crate) fn typed_objects(
    alloc: Global,
    files: &Files<'_>,
) -> Result<Vec<TypedObject>, OutOfMemory>
    ensures { IfOk result (λ objects. objects.items
        ≡ map (typed_object files.now.domain) (all_objects files.now.domain files.now.problem)) }
{
    let domain = files.domain;
    let problem = files.problem;
    let mut objects = Vec::new(alloc);
    for object in domain.constants.iter().chain(&problem.objects) {
        objects.push(typed_object(alloc, &files.types, object)?)?;
    }
    Ok(objects)
}
