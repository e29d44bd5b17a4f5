ghost use Rattle.std.specs.Prelude.{◌≡◌, ℕ, List, length, Bool, true, false, Option, IfOk, IsOk, IsErr};
ghost use Rattle.grd_io.specs.Bytes.{IsReadAt, IsThere, IsAppended, emptied, OthersStay};
ghost use Rattle.grd_io.specs.Causes.{HasShelfCause};

use crate::faults::ShelfFault;

/// Files by name.
pub trait Shelf {
    // What the shelf tells of a name: nothing, or that there is no file, or the file's bytes.
    ghost told: { Self → List ℕ → Option (Option (List ℕ)) };

    // How often a name has failed: `true` for writing it, `false` for reading it.
    ghost faults: { Self → List ℕ → Bool → ℕ };

    /// Copies bytes of a file, from the place `from` on, to the front of `into`, and answers how
    /// many. A missing file is a failure.
    fn read_at(&mut self, name: &str, from: u64, into: &mut [u8]) -> Result<usize, ShelfFault>
        ensures read { IfOk result (IsReadAt (told self.old name.now) from (length into.old) into.new) }
        ensures files_stay { (x : List ℕ) → told self.new x ≡ told self.old x }
        ensures cause { HasShelfCause ShelfFault.Failed (faults self.old) (faults self.new) name.now false result };

    /// Makes the file, without bytes. A file that was there is emptied.
    fn create(&mut self, name: &str) -> Result<(), ShelfFault>
        ensures made { IsOk result → told self.new name.now ≡ emptied (told self.old name.now) }
        ensures others_stay { OthersStay (told self.old) (told self.new) name.now }
        ensures refused { IsErr result → (x : List ℕ) → told self.new x ≡ told self.old x }
        ensures cause { HasShelfCause ShelfFault.Failed (faults self.old) (faults self.new) name.now true result };

    /// Appends bytes from the front of the piece to the file, and answers how many.
    fn append(&mut self, name: &str, piece: &[u8]) -> Result<usize, ShelfFault>
        requires there { IsThere (told self.old name.now) }
        ensures taken { IfOk result (IsAppended (told self.old name.now) (told self.new name.now) piece.now) }
        ensures others_stay { OthersStay (told self.old) (told self.new) name.now }
        ensures refused { IsErr result → (x : List ℕ) → told self.new x ≡ told self.old x }
        ensures cause { HasShelfCause ShelfFault.Failed (faults self.old) (faults self.new) name.now true result };
}
