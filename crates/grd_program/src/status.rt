use command_words::UsageFault;
use goal_files::GoalFault;
use grd_base::{FileRole, GoalId, OutOfMemory};
use ground_all::GroundFault;
use pddl_reader::PddlFault;
use type_check::TypeFault;

/// How a run ended.
#[derive(Clone, Copy, Debug, PartialEq, Eq)]
pub enum Status {
    /// The whole answer was written.
    Done,
    /// A file is refused.
    Refused(Refusal),
    /// The words ask for no job.
    Usage(UsageFault),
    /// A search met its limit.
    Limit(LimitFault),
    /// An input file could not be read.
    ReadFailed(FileRole),
    /// An answer could not be written. A part of it may have been.
    WriteFailed(Target),
    OutOfMemory,
}

/// Why files are refused.
#[derive(Clone, Copy, Debug, PartialEq, Eq)]
pub enum Refusal {
    /// The file has more than so many bytes.
    TooLong(FileRole, u64),
    /// The domain's or the problem's text is at fault. The fault is never want of memory.
    Pddl(FileRole, PddlFault),
    /// The domain and the problem are not well typed.
    Typing(TypeFault),
    /// The goals file gives no goals. The fault is never want of memory.
    Goals(GoalFault),
    /// The world has too many atoms or actions. The fault is never want of memory.
    Count(GroundFault),
}

/// Which limit a search met.
#[derive(Clone, Copy, Debug, PartialEq, Eq)]
pub enum LimitFault {
    /// More than so many states count for the goal.
    States(GoalId, u32),
}

/// What is written to.
#[derive(Clone, Copy, Debug, PartialEq, Eq)]
pub enum Target {
    /// The standard output.
    Output,
    /// The file of the certificate.
    Certificate,
}

impl Status {
    ghost use Rattle.std.specs.Prelude.{◌≡◌};
    ghost use Rattle.grd_program.specs.Statuses.{code_of};

    /// The exit status of the program. 3 is for refused certificates, which no command reads yet.
    pub fn code(&self) -> u8
        ensures { result ≡ code_of self.now }
    {
        match self {
            Status::Done => 0,
            Status::Refused(_) => 1,
            Status::Usage(_) => 2,
            Status::Limit(_) => 4,
            Status::ReadFailed(_) => 5,
            Status::WriteFailed(_) => 6,
            Status::OutOfMemory => 7,
        }
    }
}

impl From<OutOfMemory> for Status {
    ghost use Rattle.std.specs.Prelude.{◌≡◌};
    ghost use Rattle.grd_program.specs.declared.status.Status.TheVariants.{OutOfMemory as StatusOutOfMemory};

    ghost from_gives = { λ _ status. status ≡ StatusOutOfMemory };

    fn from(_error: OutOfMemory) -> Status {
        Status::OutOfMemory
    }
}
