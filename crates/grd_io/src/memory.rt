ghost use Rattle.std.specs.Prelude.{◌≡◌, ◌⊎◌, ◌-◌, ◌<◌, [], length, min, Some, None, true, false, All, IsTrue, IsSome, IsSomeAnd, IsErr, IfOk, OnOk, OnErr, IsErrOf};
ghost use Rattle.std.specs.Option.{option_map};
ghost use Rattle.grd_io.specs.Bytes.{IsTaken, IsReadAt, IsAppended, OthersStay};
ghost use Rattle.grd_io.specs.Causes.{HasCause, HasShelfCause};
ghost use Rattle.grd_io.specs.Counts.{count_of};
ghost use Rattle.grd_io.specs.Devices.{after_call, any_step, is_failing, file_of, plain_files, have_distinct_names, no_calls};

use crate::calls::Calls;
use crate::faults::{Failed, ShelfFault};
use crate::files::{copy_from, empty_file, extend_file, find_file};
use crate::names::Names;
use crate::shelf::Shelf;
use crate::sink::Sink;
use crate::whole::front_of;
use std::alloc::Global;
use std::marker::Model;

/// Files in memory. The calls of the numbers that it is given fail.
#[derive(Drop)]
pub struct MemoryShelf {
    files: Vec<(String, Vec<u8>)>,
    calls: Calls,
    failed: Names,
}

impl Model for MemoryShelf {
    ghost use Rattle.grd_io.specs.Devices.{MemoryFiles, plain_files};

    ghost Value = { MemoryFiles };

    ghost view = { λ s. record { files = plain_files s.files.items; calls = s.calls; failed = s.failed } };
}

impl MemoryShelf {
    /// A shelf with these files, by name, whose calls of the numbers in `fail`, from 1, fail. The
    /// names are distinct.
    pub fn new(alloc: Global, files: Vec<(String, Vec<u8>)>, fail: Vec<u64>) -> MemoryShelf
        requires { IsTrue (have_distinct_names (plain_files files.items)) }
        ensures files { result.files ≡ plain_files files.items }
        ensures calls { result.calls ≡ no_calls fail.items any_step }
        ensures quiet { result.failed ≡ [] }

        // Each file that was passed is told by its name.
        ensures told { All (λ file. ⟦<MemoryShelf as Shelf>⟧.told result file.0 ≡ Some (Some file.1)) (plain_files files.items) }
    {
        MemoryShelf {
            files,
            calls: Calls::new(fail),
            failed: Names::new(alloc),
        }
    }

    /// Such a shelf that gives and takes at most `step` bytes in one call.
    pub fn in_steps(
        alloc: Global,
        files: Vec<(String, Vec<u8>)>,
        fail: Vec<u64>,
        step: usize,
    ) -> MemoryShelf
        requires names { IsTrue (have_distinct_names (plain_files files.items)) }
        requires step { 0 < step }
        ensures files { result.files ≡ plain_files files.items }
        ensures calls { result.calls ≡ no_calls fail.items step }
        ensures quiet { result.failed ≡ [] }
        ensures told { All (λ file. ⟦<MemoryShelf as Shelf>⟧.told result file.0 ≡ Some (Some file.1)) (plain_files files.items) }
    {
        MemoryShelf {
            files,
            calls: Calls::in_steps(fail, step),
            failed: Names::new(alloc),
        }
    }

    /// The bytes of a file, as the shelf tells them.
    pub fn file(&self, name: &str) -> Option<&[u8]>
        ensures { ⟦<MemoryShelf as Shelf>⟧.told self.now name.now ≡ Some (option_map (λ bytes. bytes.now) result) }
    {
        find_file(&self.files, name)
    }
}

impl Shelf for MemoryShelf {
    ghost told = { λ shelf name. Some (file_of shelf.files name) };

    ghost faults = { λ shelf. count_of shelf.failed };

    fn read_at(&mut self, name: &str, from: u64, into: &mut [u8]) -> Result<usize, ShelfFault>
        ensures read { IfOk result (IsReadAt (Some (file_of self.old.files name.now)) from (length into.old) into.new) }
        ensures most { IfOk result (λ n. IsSomeAnd (file_of self.old.files name.now) (λ bytes.
            n ≡ min (min (length into.old) self.old.calls.step) (length bytes - from))) }
        ensures files_stay { self.new.files ≡ self.old.files }
        ensures cause { HasShelfCause ShelfFault.Failed (count_of self.old.failed) (count_of self.new.failed) name.now false result }

        // It fails where this call is listed or there is no such file, and nowhere else.
        ensures counted { self.new.calls ≡ after_call self.old.calls }
        ensures listed { IsTrue (is_failing self.new.calls) → IsErr result }
        ensures unlisted { IsErrOf result ShelfFault.Failed → IsTrue (is_failing self.new.calls) ⊎ (file_of self.old.files name.now ≡ None) }
    {
        let most = self.calls.most_of(into.len());
        if self.calls.is_next_failing() {
            return Err(self.failed.fail(name, false));
        }
        match find_file(&self.files, name) {
            Some(bytes) => Ok(copy_from(bytes, from, into, most)),
            None => Err(self.failed.fail(name, false)),
        }
    }

    fn create(&mut self, name: &str) -> Result<(), ShelfFault>
        ensures made { OnOk result (Some (file_of self.new.files name.now) ≡ Some (Some [])) }
        ensures others_stay { OthersStay (λ x. Some (file_of self.old.files x)) (λ x. Some (file_of self.new.files x)) name.now }
        ensures refused { OnErr result (self.new.files ≡ self.old.files) }
        ensures cause { HasShelfCause ShelfFault.Failed (count_of self.old.failed) (count_of self.new.failed) name.now true result }

        // It fails where this call is listed, and nowhere else.
        ensures counted { self.new.calls ≡ after_call self.old.calls }
        ensures listed { IsTrue (is_failing self.new.calls) → IsErr result }
        ensures unlisted { IsErrOf result ShelfFault.Failed → IsTrue (is_failing self.new.calls) }
    {
        if self.calls.is_next_failing() {
            return Err(self.failed.fail(name, true));
        }
        empty_file(&mut self.files, name)?;
        Ok(())
    }

    fn append(&mut self, name: &str, piece: &[u8]) -> Result<usize, ShelfFault>
        requires there { IsSome (file_of self.old.files name.now) }
        ensures taken { IfOk result (IsAppended (Some (file_of self.old.files name.now)) (Some (file_of self.new.files name.now)) piece.now) }
        ensures most { IfOk result (λ n. n ≡ min (length piece.now) self.old.calls.step) }
        ensures others_stay { OthersStay (λ x. Some (file_of self.old.files x)) (λ x. Some (file_of self.new.files x)) name.now }
        ensures refused { OnErr result (self.new.files ≡ self.old.files) }
        ensures cause { HasShelfCause ShelfFault.Failed (count_of self.old.failed) (count_of self.new.failed) name.now true result }

        // It fails where this call is listed, and nowhere else.
        ensures counted { self.new.calls ≡ after_call self.old.calls }
        ensures listed { IsTrue (is_failing self.new.calls) → IsErr result }
        ensures unlisted { IsErrOf result ShelfFault.Failed → IsTrue (is_failing self.new.calls) }
    {
        let most = self.calls.most_of(piece.len());
        if self.calls.is_next_failing() {
            return Err(self.failed.fail(name, true));
        }
        extend_file(&mut self.files, name, front_of(piece, most))?;
        Ok(most)
    }
}

/// Bytes in memory. The calls of the numbers that it is given fail.
#[derive(Drop)]
pub struct MemorySink {
    bytes: Vec<u8>,
    calls: Calls,
    faults: u64,
}

impl Model for MemorySink {
    ghost use Rattle.grd_io.specs.Devices.{MemoryBytes};

    ghost Value = { MemoryBytes };

    ghost view = { λ s. record { bytes = s.bytes.items; calls = s.calls; faults = s.faults } };
}

impl MemorySink {
    /// An empty sink, whose calls of the numbers in `fail`, from 1, fail.
    pub fn new(alloc: Global, fail: Vec<u64>) -> MemorySink
        ensures written { ⟦<MemorySink as Sink>⟧.written result ≡ Some [] }
        ensures calls { result.calls ≡ no_calls fail.items any_step }
        ensures quiet { result.faults ≡ 0 }
    {
        MemorySink {
            bytes: Vec::new(alloc),
            calls: Calls::new(fail),
            faults: 0,
        }
    }

    /// Such a sink that takes at most `step` bytes in one call.
    pub fn in_steps(alloc: Global, fail: Vec<u64>, step: usize) -> MemorySink
        requires { 0 < step }
        ensures written { ⟦<MemorySink as Sink>⟧.written result ≡ Some [] }
        ensures calls { result.calls ≡ no_calls fail.items step }
        ensures quiet { result.faults ≡ 0 }
    {
        MemorySink {
            bytes: Vec::new(alloc),
            calls: Calls::in_steps(fail, step),
            faults: 0,
        }
    }

    /// The bytes that were written.
    pub fn written(&self) -> &[u8]
        ensures { ⟦<MemorySink as Sink>⟧.written self.now ≡ Some result.now }
    {
        &self.bytes
    }
}

impl Sink for MemorySink {
    ghost written = { λ sink. Some sink.bytes };

    ghost faults = { λ sink. sink.faults };

    fn write(&mut self, piece: &[u8]) -> Result<usize, Failed>
        ensures taken { IfOk result (IsTaken (Some self.old.bytes) (Some self.new.bytes) piece.now) }
        ensures most { IfOk result (λ n. n ≡ min (length piece.now) self.old.calls.step) }
        ensures refused { OnErr result (self.new.bytes ≡ self.old.bytes) }
        ensures cause { HasCause self.old.faults self.new.faults result }

        // It fails where this call is listed. It may fail elsewhere, as where room is refused.
        ensures counted { self.new.calls ≡ after_call self.old.calls }
        ensures listed { IsTrue (is_failing self.new.calls) → IsErr result }
    {
        let most = self.calls.most_of(piece.len());
        if self.calls.is_next_failing()
            || self.bytes.extend_from_slice(front_of(piece, most)).is_err()
        {
            self.faults = self.faults.saturating_add(1);
            return Err(Failed);
        }
        Ok(most)
    }
}
