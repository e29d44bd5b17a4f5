ghost use Rattle.std.specs.Prelude.{◌≡◌, ◌⊎◌, ℕ, List, Bool, map, string_bytes};
ghost use Rattle.grd_program.specs.Statuses.{IsPlainStatus};
ghost use Rattle.grd_program.specs.Runs.{HasWritten, HasWarned, HasCause, IsComplete, GrowsBy, MayBecome};

use crate::answer::answer;
use crate::errors::{OUT_OF_MEMORY, error_line, write_failed};
use crate::status::{Status, Target};
use grd_base::OutOfMemory;
use grd_io::{Shelf, Sink, write_whole};
use std::alloc::Global;

/// All that the program does: reads the words, then the files that they name, and writes the
/// text for which they ask to `out`, or one line to `err`.
pub fn run<F: Shelf, O: Sink, E: Sink>(
    alloc: Global,
    words: &[String],
    shelf: &mut F,
    out: &mut O,
    err: &mut E,
) -> Status
    ensures written { HasWritten (F.told shelf.old) (map string_bytes words.now) (O.written out.old)
        (O.written out.new) result }
    ensures warned { HasWarned (E.written err.old) (E.written err.new) (E.faults err.old)
        (E.faults err.new) result }
    ensures cause { HasCause (F.told shelf.old) (F.faults shelf.old) (F.faults shelf.new)
        (map string_bytes words.now) (O.faults out.old) (O.faults out.new) result }
    ensures complete { IsComplete (F.told shelf.old) (F.faults shelf.old) (F.faults shelf.new)
        (map string_bytes words.now) (O.faults out.old) (O.faults out.new) result }
    ensures plain { IsPlainStatus result }
    ensures files_stay { (x : List ℕ) → F.told shelf.new x ≡ F.told shelf.old x }
{
    let status = print_answer(alloc, words, shelf, out);
    warn(alloc, status, err)
}

/// Makes the whole text, and then writes it.
fn print_answer<F: Shelf, O: Sink>(
    alloc: Global,
    words: &[String],
    shelf: &mut F,
    out: &mut O,
) -> Status
    ensures written { HasWritten (F.told shelf.old) (map string_bytes words.now) (O.written out.old)
        (O.written out.new) result }
    ensures cause { HasCause (F.told shelf.old) (F.faults shelf.old) (F.faults shelf.new)
        (map string_bytes words.now) (O.faults out.old) (O.faults out.new) result }
    ensures files_stay { (x : List ℕ) → F.told shelf.new x ≡ F.told shelf.old x }
{
    let text = match answer(alloc, words, shelf) {
        Ok(text) => text,
        Err(status) => return status,
    };
    match write_whole(out, &text) {
        Ok(()) => Status::Done,
        Err(_) => Status::WriteFailed(Target::Output),
    }
}

/// Writes the line of a status. Where the line can't be made for want of memory, the status is that.
fn warn<E: Sink>(alloc: Global, status: Status, err: &mut E) -> Status
    ensures kept { MayBecome status result }
    ensures warned { HasWarned (E.written err.old) (E.written err.new) (E.faults err.old)
        (E.faults err.new) result }
{
    match status {
        Status::Done => status,
        Status::WriteFailed(target) => {
            put_line(err, write_failed(target));
            Status::WriteFailed(target)
        }
        Status::OutOfMemory => {
            put_line(err, OUT_OF_MEMORY);
            Status::OutOfMemory
        }
        _ => warn_of(alloc, status, err),
    }
}

/// Writes the line of a status that takes memory.
fn warn_of<E: Sink>(alloc: Global, status: Status, err: &mut E) -> Status
    ensures kept { (result ≡ status) ⊎ (result ≡ Status.OutOfMemory) }
    ensures warned { HasWarned (E.written err.old) (E.written err.new) (E.faults err.old)
        (E.faults err.new) result }
{
    match error_line(alloc, &status) {
        Ok(line) => {
            put_line(err, &line);
            status
        }
        Err(OutOfMemory) => {
            put_line(err, OUT_OF_MEMORY);
            Status::OutOfMemory
        }
    }
}

/// Writes a line, as far as the sink takes it.
fn put_line<E: Sink>(err: &mut E, line: &[u8])
    ensures { GrowsBy line.now (E.written err.old) (E.written err.new) (E.faults err.old)
        (E.faults err.new) }
{
    match write_whole(err, line) {
        Ok(()) | Err(_) => {}
    }
}
