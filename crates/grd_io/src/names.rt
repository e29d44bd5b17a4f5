ghost use Rattle.std.specs.Prelude.{◌≡◌, [], ◌∷◌, ◌++◌, IfOk, OnOk, OnErr, string_bytes};

use crate::faults::ShelfFault;
use grd_base::OutOfMemory;
use std::alloc::Global;
use std::marker::Model;

/// The failures of a shelf, in order: a name, and whether it was written or read. How often a name
/// is listed for a use is its count.
#[derive(Drop)]
pub(crate) struct Names {
    names: Vec<(String, bool)>,
}

impl Model for Names {
    ghost use Rattle.std.specs.Prelude.{List, map, string_bytes};
    ghost use Rattle.grd_io.specs.Counts.{Failure};

    ghost Value = { List Failure };

    ghost view = { λ n. map (λ failure. (string_bytes failure.0, failure.1)) n.names.items };
}

impl Names {
    /// Nothing failed yet.
    pub(crate) fn new(alloc: Global) -> Names
        ensures { result ≡ [] }
    {
        Names {
            names: Vec::new(alloc),
        }
    }

    /// A name of its own, in the memory of this list.
    pub(crate) fn copy_of(&self, name: &str) -> Result<String, OutOfMemory>
        ensures { IfOk result (λ copy. string_bytes copy ≡ name.now) }
    {
        Ok(String::from_str(*self.names.allocator(), name)?)
    }

    /// Notes a failure, and answers the fault for it.
    pub(crate) fn fail(&mut self, name: &str, writing: bool) -> ShelfFault
        ensures noted { result ≡ ShelfFault.Failed → self.new ≡ self.old ++ (name.now, writing) ∷ [] }
        ensures unnoted { result ≡ ShelfFault.OutOfMemory → self.new ≡ self.old }
    {
        match self.note(name, writing) {
            Ok(()) => ShelfFault::Failed,
            Err(refused) => ShelfFault::from(refused),
        }
    }

    /// Lists the name once more for this use.
    fn note(&mut self, name: &str, writing: bool) -> Result<(), OutOfMemory>
        ensures noted { OnOk result (self.new ≡ self.old ++ (name.now, writing) ∷ []) }
        ensures unnoted { OnErr result (self.new ≡ self.old) }
    {
        let copy = self.copy_of(name)?;
        self.names.push((copy, writing))?;
        Ok(())
    }
}
