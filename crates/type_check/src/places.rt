ghost use Rattle.std.specs.Prelude.{map, IfOk};
ghost use Rattle.type_check.specs.Typing.{IsPlace, ArePlaces};

use crate::files::Files;
use grd_base::OutOfMemory;
use pddl_reader::TypedName;
use std::alloc::Global;

/// The numbers of the objects that fit the parameter, rising.
fn place(alloc: Global, files: &Files<'_>, parameter: &TypedName) -> Result<Vec<u32>, OutOfMemory>
    ensures { IfOk result
        (λ place. IsPlace files.now.domain files.now.problem parameter.now place.items) }
{
    let domain = files.domain;
    let problem = files.problem;
    let mut place = Vec::new(alloc);
    let mut number = 0;
    for object in domain.constants.iter().chain(&problem.objects) {
        if files.types.object_fits(object, parameter.types.as_slice()) {
            place.push(number)?;
        }
        number += 1;
    }
    Ok(place)
}

/// For each parameter the numbers of the objects that fit it.
pub(crate) fn places(
    alloc: Global,
    files: &Files<'_>,
    parameters: &[TypedName],
) -> Result<Vec<Vec<u32>>, OutOfMemory>
    ensures { IfOk result (λ places. ArePlaces files.now.domain files.now.problem parameters.now
        (map (λ place. place.items) places.items)) }
{
    let mut places = Vec::new(alloc);
    for parameter in parameters {
        places.push(place(alloc, files, parameter)?)?;
    }
    Ok(places)
}
