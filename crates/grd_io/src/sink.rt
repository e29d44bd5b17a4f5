ghost use Rattle.std.specs.Prelude.{◌≡◌, ℕ, List, Option, IfOk, OnErr};
ghost use Rattle.grd_io.specs.Bytes.{IsTaken};
ghost use Rattle.grd_io.specs.Causes.{HasCause};

use crate::faults::Failed;

/// Takes bytes, in order.
pub trait Sink {
    // The bytes that the sink has taken, where it tells.
    ghost written: { Self → Option (List ℕ) };

    // How often the sink has failed.
    ghost faults: { Self → ℕ };

    /// Takes bytes from the front of the piece, and answers how many.
    fn write(&mut self, piece: &[u8]) -> Result<usize, Failed>
        ensures taken { IfOk result (IsTaken (written self.old) (written self.new) piece.now) }
        ensures refused { OnErr result (written self.new ≡ written self.old) }
        ensures cause { HasCause (faults self.old) (faults self.new) result };
}
