ghost use Rattle.std.specs.Prelude.{◌≡◌, ◌^◌, ◌≤◌, length, IfOk};
ghost use Rattle.goal_files.specs.LineReading.{kept_lines};

use crate::pieces::{is_skipped, strip_carriage_return};
use std::alloc::{AllocError, Global};
use std::marker::Model;

/// A line of a text.
#[derive(Drop)]
pub(crate) struct Line<'a> {
    /// Counted from 1, skipped lines among them.
    pub(crate) number: u32,
    /// Without the carriage return at its end.
    pub(crate) bytes: &'a [u8],
}

impl<'a> Model for Line<'a> {
    ghost use Rattle.goal_files.specs.LineReading.{PlainLine};

    ghost Value = { PlainLine };

    ghost view = { λ l. record { number = l.number; bytes = l.bytes.now } };
}

/// The lines that are not skipped.
pub(crate) fn kept_lines(alloc: Global, text: &[u8]) -> Result<Vec<Line<'_>>, AllocError>
    requires { length text.now ≤ 2 ^ 20 }
    ensures { IfOk result (λ lines. lines.items ≡ kept_lines text.now) }
{
    let mut lines = Vec::new(alloc);
    let mut number = 0;
    for part in text.split(|b| *b == b'\n') {
        number += 1;
        let bytes = strip_carriage_return(part);
        if !is_skipped(bytes) {
            lines.push(Line { number, bytes })?;
        }
    }
    Ok(lines)
}
