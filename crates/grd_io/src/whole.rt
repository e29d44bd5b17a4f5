ghost use Rattle.std.specs.Prelude.{◌≡◌, ℕ, ◌+◌, ◌<◌, ◌≤◌, List, take, drop, length, min, Bool, true, false, IfOk, OnOk, OnErr, IsErrOf, vec_len};
ghost use Rattle.grd_io.specs.Bytes.{extended, grown_file, IsReadAt, IsThere, IsWholeFile, IsLongerFile, IsPartlyTaken, IsPartlyAppended, OthersStay};
ghost use Rattle.grd_io.specs.Causes.{HasCause, HasShelfCause};

use crate::faults::{Failed, ReadFault, ShelfFault};
use crate::shelf::Shelf;
use crate::sink::Sink;
use std::alloc::Global;

/// How many bytes one read asks for at most.
const PIECE: usize = 65_536;

/// Reads the bytes of a file that has at most `limit`. It asks for no more than one byte behind.
pub fn read_whole<F: Shelf>(
    alloc: Global,
    shelf: &mut F,
    name: &str,
    limit: u64,
) -> Result<Vec<u8>, ReadFault>
    ensures whole { IfOk result (λ bytes. IsWholeFile (F.told shelf.old name.now) bytes.items) }
    ensures within { IfOk result (λ bytes. vec_len bytes ≤ limit) }

    // Too long comes with the limit, only where the file has more, and no count rose.
    ensures limit_named { (n : ℕ) → IsErrOf result (ReadFault.TooLong n) → n ≡ limit }
    ensures longer { IsErrOf result (ReadFault.TooLong limit) → IsLongerFile (F.told shelf.old name.now) limit }
    ensures quiet { IsErrOf result (ReadFault.TooLong limit) → (x : List ℕ) (w : Bool) → F.faults shelf.new x w ≡ F.faults shelf.old x w }

    ensures files_stay { (x : List ℕ) → F.told shelf.new x ≡ F.told shelf.old x }
    ensures cause { HasShelfCause ReadFault.Failed (F.faults shelf.old) (F.faults shelf.new) name.now false result }
{
    let mut bytes = Vec::new(alloc);
    let mut piece = [0u8; PIECE];
    while bytes.len() as u64 <= limit {
        let from = bytes.len() as u64;
        let n = read_some(shelf, name, from, &mut piece, limit - from)?;
        if n == 0 {
            return Ok(bytes);
        }
        bytes.extend_from_slice(&piece[..n])?;
    }
    Err(ReadFault::TooLong(limit))
}

/// Reads to the front of a piece, at most one byte more than `room`.
fn read_some<F: Shelf>(
    shelf: &mut F,
    name: &str,
    from: u64,
    piece: &mut [u8],
    room: u64,
) -> Result<usize, ShelfFault>
    ensures read { IfOk result (IsReadAt (F.told shelf.old name.now) from (min (length piece.old) (room + 1)) piece.new) }
    ensures files_stay { (x : List ℕ) → F.told shelf.new x ≡ F.told shelf.old x }
    ensures cause { HasShelfCause ShelfFault.Failed (F.faults shelf.old) (F.faults shelf.new) name.now false result }
{
    let size = (piece.len() as u64).min(room.saturating_add(1)) as usize;
    let front = &mut piece[..size];
    shelf.read_at(name, from, front)
}

/// Appends all of a piece to a file. It takes no memory of its own.
pub fn append_whole<F: Shelf>(shelf: &mut F, name: &str, piece: &[u8]) -> Result<(), ShelfFault>
    requires there { IsThere (F.told shelf.old name.now) }
    ensures whole { OnOk result (F.told shelf.new name.now ≡ grown_file (F.told shelf.old name.now) piece.now) }
    ensures refused { OnErr result (IsPartlyAppended (F.told shelf.old name.now) (F.told shelf.new name.now) piece.now) }
    ensures others_stay { OthersStay (F.told shelf.old) (F.told shelf.new) name.now }
    ensures cause { HasShelfCause ShelfFault.Failed (F.faults shelf.old) (F.faults shelf.new) name.now true result }
{
    let mut done = 0;
    while done < piece.len() {
        done += shelf.append(name, rest_of(piece, done))?;
    }
    Ok(())
}

/// Writes all of a piece. It takes no memory.
pub fn write_whole<O: Sink>(sink: &mut O, piece: &[u8]) -> Result<(), Failed>
    ensures whole { OnOk result (O.written sink.new ≡ extended (O.written sink.old) piece.now) }
    ensures refused { OnErr result (IsPartlyTaken (O.written sink.old) (O.written sink.new) piece.now) }
    ensures cause { HasCause (O.faults sink.old) (O.faults sink.new) result }
{
    let mut done = 0;
    while done < piece.len() {
        done += sink.write(rest_of(piece, done))?;
    }
    Ok(())
}

/// What is left of a piece behind its first bytes.
pub(crate) fn rest_of(piece: &[u8], done: usize) -> &[u8]
    requires { done ≤ length piece.now }
    ensures { result.now ≡ drop done piece.now }
{
    &piece[done..]
}

/// The first bytes of a piece.
pub(crate) fn front_of(piece: &[u8], n: usize) -> &[u8]
    requires { n ≤ length piece.now }
    ensures { result.now ≡ take n piece.now }
{
    &piece[..n]
}
