ghost use Rattle.std.specs.Prelude.{◌≡◌, ◌≢◌, ◌^◌, ◌<◌, ◌≤◌, [], length, take, Some, None, true, false, IfSome, IfOk, OnOk, OnErr, IsSomeAnd, string_bytes};
ghost use Rattle.std.specs.Io.KnownBytes.{Appends};
ghost use Rattle.grd_io.specs.Bytes.{IsReadAt, IsTaken, IsAppended};
ghost use Rattle.grd_io.specs.Causes.{HasCause, HasShelfCause};
ghost use Rattle.grd_io.specs.Counts.{count_of};
ghost use Rattle.grd_io.specs.Devices.{HasTaken, HaveTaken, created_name};

use crate::faults::{Failed, ShelfFault};
use crate::names::Names;
use crate::shelf::Shelf;
use crate::sink::Sink;
use std::alloc::Global;
use std::fs;
use std::io::{Read, Seek, SeekFrom, Write};
use std::marker::Model;
use std::rt::Files;

/// A read behind this place finds the end of the file.
const LAST_PLACE: u64 = 1 << 40;

/// The file that was created last, open for writing.
#[derive(Drop)]
struct Created<W: Write> {
    name: String,
    file: W,
}

impl<W: Write> Model for Created<W> {
    ghost use Rattle.std.specs.Prelude.{string_bytes};
    ghost use Rattle.grd_io.specs.Devices.{CreatedFile};

    ghost Value = { CreatedFile };

    ghost view = { λ c. record { name = string_bytes c.name; known = W.contents c.file } };
}

impl<W: Write> Created<W> {
    /// Writes to the file, where it has this name. None is a failure.
    fn append(&mut self, name: &str, piece: &[u8]) -> Option<usize>
        ensures within { IfSome result (λ n. n ≤ length piece.now) }
        ensures some { IfSome result (λ n. 0 < n) }
        ensures taken { IfSome result (λ n. HasTaken self.old self.new name.now (take n piece.now)) }
        ensures stays { self.new.name ≡ self.old.name }
        ensures other { self.old.name ≢ name.now → self.new ≡ self.old }
    {
        if self.name.as_str() != name {
            return None;
        }
        write_out(&mut self.file, piece)
    }
}

/// The files of the runtime. It tells no content, and counts the host's failures. It appends to
/// the file that it created last, and to no other.
#[derive(Drop)]
pub struct HostShelf<'r, R: Files> {
    rt: &'r R,
    created: Option<Created<R::File>>,
    failed: Names,
}

impl<'r, R: Files> Model for HostShelf<'r, R> {
    ghost use Rattle.grd_io.specs.Devices.{HostFiles};

    ghost Value = { HostFiles };

    ghost view = { λ s. record { created = s.created; failed = s.failed } };
}

impl<'r, R: Files> HostShelf<'r, R> {
    /// A shelf over the files of this runtime.
    pub fn new(rt: &'r R, alloc: Global) -> HostShelf<'r, R>
        ensures none { result.created ≡ None }
        ensures quiet { result.failed ≡ [] }
    {
        HostShelf {
            rt,
            created: None,
            failed: Names::new(alloc),
        }
    }
}

impl<'r, R: Files> Shelf for HostShelf<'r, R> {
    ghost told = { λ shelf name. None };

    ghost faults = { λ shelf. count_of shelf.failed };

    fn read_at(&mut self, name: &str, from: u64, into: &mut [u8]) -> Result<usize, ShelfFault>
        ensures read { IfOk result (IsReadAt None from (length into.old) into.new) }
        ensures cause { HasShelfCause ShelfFault.Failed (count_of self.old.failed) (count_of self.new.failed) name.now false result }
        ensures last { 2 ^ 40 < from → result ≡ Ok 0 }

        // The file that was created last is so still.
        ensures stays { self.new.created ≡ self.old.created }
    {
        if from > LAST_PLACE {
            return Ok(0);
        }
        match read_file(self.rt, name, from, into) {
            Some(n) => Ok(n),
            None => Err(self.failed.fail(name, false)),
        }
    }

    fn create(&mut self, name: &str) -> Result<(), ShelfFault>
        ensures cause { HasShelfCause ShelfFault.Failed (count_of self.old.failed) (count_of self.new.failed) name.now true result }
        ensures created { OnOk result (IsSomeAnd self.new.created (λ file. file.name ≡ name.now)) }
        ensures refused { OnErr result (self.new.created ≡ self.old.created) }
    {
        let copy = self.failed.copy_of(name)?;
        match fs::create(self.rt, name) {
            Ok(file) => {
                self.created = Some(Created { name: copy, file });
                Ok(())
            }
            Err(_) => Err(self.failed.fail(name, true)),
        }
    }

    fn append(&mut self, name: &str, piece: &[u8]) -> Result<usize, ShelfFault>
        ensures taken { IfOk result (IsAppended None None piece.now) }
        ensures cause { HasShelfCause ShelfFault.Failed (count_of self.old.failed) (count_of self.new.failed) name.now true result }

        // Bytes are taken by the file that was created last, and only where it has this name.
        ensures created { IfOk result (λ n. 0 < n → HaveTaken self.old.created self.new.created name.now (take n piece.now)) }
        ensures stays { created_name self.new.created ≡ created_name self.old.created }
        ensures other { created_name self.old.created ≢ Some name.now → self.new.created ≡ self.old.created }
        ensures empty { piece.now ≡ [] → result ≡ Ok 0 }
        ensures idle { piece.now ≡ [] → self.new.created ≡ self.old.created }
    {
        if piece.is_empty() {
            return Ok(0);
        }
        match append_to(&mut self.created, name, piece) {
            Some(n) => Ok(n),
            None => Err(self.failed.fail(name, true)),
        }
    }
}

/// Writes to the file that was created last, where it has this name. None is a failure.
fn append_to<W: Write>(created: &mut Option<Created<W>>, name: &str, piece: &[u8]) -> Option<usize>
    ensures within { IfSome result (λ n. n ≤ length piece.now) }
    ensures some { IfSome result (λ n. 0 < n) }
    ensures taken { IfSome result (λ n. HaveTaken created.old created.new name.now (take n piece.now)) }
    ensures stays { created_name created.new ≡ created_name created.old }
    ensures other { created_name created.old ≢ Some name.now → created.new ≡ created.old }
{
    match created {
        Some(file) => file.append(name, piece),
        None => None,
    }
}

/// Reads once from a file, which is opened for it. None is a failure.
fn read_file<R: Files>(rt: &R, name: &str, from: u64, into: &mut [u8]) -> Option<usize>
    ensures { IfSome result (λ n. n ≤ length into.old) }
{
    let mut file = fs::open(rt, name).ok()?;
    file.seek(SeekFrom::Start(from)).ok()?;
    file.read(into).ok()
}

/// A writer of std as a sink. It tells no content, and counts the writer's failures.
#[derive(Drop)]
pub struct HostSink<W: Write> {
    writer: W,
    faults: u64,
}

impl<W: Write> Model for HostSink<W> {
    ghost use Rattle.grd_io.specs.Devices.{HostBytes};

    ghost Value = { HostBytes };

    ghost view = { λ s. record { known = W.contents s.writer; faults = s.faults } };
}

impl<W: Write> HostSink<W> {
    /// A sink that writes to this writer, and flushes it after each write.
    pub fn new(writer: W) -> HostSink<W>
        ensures known { result.known ≡ W.contents writer }
        ensures quiet { result.faults ≡ 0 }
    {
        HostSink { writer, faults: 0 }
    }
}

/// Writes bytes from the front of a piece, and flushes. None is a failure.
fn write_out<W: Write>(writer: &mut W, piece: &[u8]) -> Option<usize>
    ensures within { IfSome result (λ n. n ≤ length piece.now) }
    ensures some { IfSome result (λ n. 0 < n) }
    ensures known { IfSome result (λ n. Appends (W.contents writer.old) (W.contents writer.new) (take n piece.now)) }
{
    let n = writer.write(piece).ok()?;
    // Bytes that are taken and not flushed may be lost, so that is a failure as well. Then the
    // writer may have taken some of the piece, of which the sink tells nothing.
    writer.flush().ok()?;
    if n == 0 { None } else { Some(n) }
}

impl<W: Write> Sink for HostSink<W> {
    ghost written = { λ sink. None };

    ghost faults = { λ sink. sink.faults };

    fn write(&mut self, piece: &[u8]) -> Result<usize, Failed>
        ensures taken { IfOk result (IsTaken None None piece.now) }
        ensures cause { HasCause self.old.faults self.new.faults result }

        // The writer took what is answered.
        ensures known { IfOk result (λ n. Appends self.old.known self.new.known (take n piece.now)) }
        ensures empty { piece.now ≡ [] → result ≡ Ok 0 }
    {
        if piece.is_empty() {
            return Ok(0);
        }
        match write_out(&mut self.writer, piece) {
            Some(n) => Ok(n),
            None => {
                self.faults = self.faults.saturating_add(1);
                Err(Failed)
            }
        }
    }
}
