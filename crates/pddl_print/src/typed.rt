ghost use Rattle.std.specs.Prelude.{◌≡◌, ◌++◌, map, OnOk};
ghost use Rattle.pddl_print.specs.Canonical.{name_text, separated, spaced, type_text, typed_text};

use pddl_reader::{Name, TypedName};
use std::alloc::AllocError;

/// Writes a name, which has its question mark if it is a variable.
pub(crate) fn put_name(out: &mut Vec<u8>, name: &Name) -> Result<(), AllocError>
    ensures { OnOk result (out.new.items ≡ out.old.items ++ name_text name.now) }
{
    out.extend_from_slice(name.text.as_bytes())
}

/// Writes names, each behind a space.
fn put_spaced_names(out: &mut Vec<u8>, names: &[Name]) -> Result<(), AllocError>
    ensures { OnOk result (out.new.items ≡ out.old.items ++ spaced (map name_text names.now)) }
{
    for name in names {
        out.extend_from_slice(b" ")?;
        put_name(out, name)?;
    }
    Ok(())
}

/// Writes the types of a name.
fn put_type(out: &mut Vec<u8>, types: &[Name]) -> Result<(), AllocError>
    ensures { OnOk result (out.new.items ≡ out.old.items ++ type_text types.now) }
{
    if types.len() == 1 {
        return put_name(out, &types[0]);
    }
    out.extend_from_slice(b"(either")?;
    put_spaced_names(out, types)?;
    out.extend_from_slice(b")")
}

/// Writes a name with its type.
fn put_typed(out: &mut Vec<u8>, name: &TypedName) -> Result<(), AllocError>
    ensures { OnOk result (out.new.items ≡ out.old.items ++ typed_text name.now) }
{
    put_name(out, &name.name)?;
    out.extend_from_slice(b" - ")?;
    put_type(out, name.types.as_slice())
}

/// Writes names with their types, each behind a space.
pub(crate) fn put_spaced_typed(out: &mut Vec<u8>, names: &[TypedName]) -> Result<(), AllocError>
    ensures { OnOk result (out.new.items ≡ out.old.items ++ spaced (map typed_text names.now)) }
{
    for name in names {
        out.extend_from_slice(b" ")?;
        put_typed(out, name)?;
    }
    Ok(())
}

/// Writes names with their types, with spaces between them.
pub(crate) fn put_separated_typed(out: &mut Vec<u8>, names: &[TypedName]) -> Result<(), AllocError>
    ensures { OnOk result (out.new.items ≡ out.old.items ++ separated (map typed_text names.now)) }
{
    match names.split_first() {
        Some((first, rest)) => {
            put_typed(out, first)?;
            put_spaced_typed(out, rest)
        }
        None => Ok(()),
    }
}
