ghost use Rattle.std.specs.Prelude.{◌≡◌};
ghost use Rattle.grd_io.specs.declared.faults.ShelfFault.TheVariants.{OutOfMemory as ShelfOutOfMemory};
ghost use Rattle.grd_io.specs.declared.faults.ReadFault.TheVariants.{OutOfMemory as ReadOutOfMemory};

use grd_base::OutOfMemory;
use std::alloc::AllocError;
use thiserror::Error;

/// A sink failed, and counted it.
#[derive(Clone, Copy, Debug, PartialEq, Eq, Error)]
#[error("failed")]
pub struct Failed;

/// Why a shelf refused a call.
#[derive(Clone, Copy, Debug, PartialEq, Eq, Error)]
pub enum ShelfFault {
    /// The shelf failed, and counted it.
    #[error("failed")]
    Failed,
    #[error("out of memory")]
    OutOfMemory,
}

impl From<OutOfMemory> for ShelfFault {
    ghost from_gives = { λ _ fault. fault ≡ ShelfOutOfMemory };

    fn from(_error: OutOfMemory) -> ShelfFault {
        ShelfFault::OutOfMemory
    }
}

impl From<AllocError> for ShelfFault {
    ghost from_gives = { λ _ fault. fault ≡ ShelfOutOfMemory };

    fn from(_error: AllocError) -> ShelfFault {
        ShelfFault::OutOfMemory
    }
}

/// Why a file was not read whole.
#[derive(Clone, Copy, Debug, PartialEq, Eq, Error)]
pub enum ReadFault {
    /// The shelf failed, and counted it.
    #[error("failed")]
    Failed,
    /// The file has more bytes than this limit.
    #[error("longer than {0} bytes")]
    TooLong(u64),
    #[error("out of memory")]
    OutOfMemory,
}

impl From<ShelfFault> for ReadFault {
    ghost use Rattle.std.specs.Prelude.{◌≡◌};
    ghost use Rattle.grd_io.specs.Faults.{read_fault_of};

    ghost from_gives = { λ fault whole. whole ≡ read_fault_of fault };

    fn from(fault: ShelfFault) -> ReadFault {
        match fault {
            ShelfFault::Failed => ReadFault::Failed,
            ShelfFault::OutOfMemory => ReadFault::OutOfMemory,
        }
    }
}

impl From<AllocError> for ReadFault {
    ghost from_gives = { λ _ fault. fault ≡ ReadOutOfMemory };

    fn from(_error: AllocError) -> ReadFault {
        ReadFault::OutOfMemory
    }
}
