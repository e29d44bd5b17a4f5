// The parts of the lines that tests compare.

use pddl_reader::Name;
use std::fmt::Write;
use std::test::Fail;

/// A number behind a text.
pub fn put_number(out: &mut String, front: &str, number: u32) -> Result<(), Fail> {
    out.push_str(front)?;
    write!(out, "{number}")?;
    Ok(())
}

/// Numbers, each behind a space, between two texts.
pub fn put_numbers(out: &mut String, front: &str, numbers: &[u32], back: &str) -> Result<(), Fail> {
    out.push_str(front)?;
    for number in numbers {
        put_number(out, " ", *number)?;
    }
    out.push_str(back)?;
    Ok(())
}

/// A name behind a text, with its place behind an at sign.
pub fn put_name(out: &mut String, front: &str, name: &Name) -> Result<(), Fail> {
    out.push_str(front)?;
    out.push_str(name.text.as_str())?;
    put_number(out, "@", name.at)
}
