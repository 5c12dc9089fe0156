//! How a run ends.
ghost use Rattle.std.specs.Prelude.{◌≡◌};
ghost use Rattle.rose_shell.specs.Status.{number_of};

use crate::fault::Fault;
use grid_base::NoMemory;
use realm_store::{Damage, StartError};

/// How a run ended.
#[derive(Clone, Copy, Debug, PartialEq, Eq)]
pub enum Status {
    /// The input ended, and each line of it was answered.
    Done,
    /// The words that the program was started with are none that it knows.
    Usage,
    /// The input could not be read on.
    SourceFault,
    /// The output took no more.
    SinkFault,
    /// A file could not be read or written on, or another program holds the folder.
    DiskFault,
    /// The files stand for no state.
    Damaged(Damage),
    /// Memory ran out.
    NoMemory,
    /// The input is longer than the run may read.
    InputLimit,
}

impl Status {
    /// The number that the program ends with.
    pub fn number(&self) -> u8
        ensures number { result ≡ number_of self.now }
    {
        match self {
            Status::Done => 0,
            Status::Usage => 1,
            Status::SourceFault => 2,
            Status::SinkFault => 3,
            Status::DiskFault => 4,
            Status::Damaged(_) => 5,
            Status::NoMemory => 6,
            Status::InputLimit => 7,
        }
    }
}

impl From<Fault> for Status {
    ghost use Rattle.std.specs.Prelude.{◌≡◌};
    ghost use Rattle.rose_shell.specs.Faults.{status_of};

    ghost from_gives = { λ fault status. status ≡ status_of fault };

    fn from(fault: Fault) -> Status {
        match fault {
            Fault::Source => Status::SourceFault,
            Fault::Sink => Status::SinkFault,
            Fault::Disk => Status::DiskFault,
            Fault::NoMemory => Status::NoMemory,
        }
    }
}

impl From<NoMemory> for Status {
    ghost use Rattle.std.specs.Prelude.{◌≡◌};
    ghost use Rattle.rose_shell.specs.declared.status.Status.TheVariants.{NoMemory};

    ghost from_gives = { λ _ status. status ≡ NoMemory };

    fn from(_: NoMemory) -> Status {
        Status::NoMemory
    }
}

impl From<StartError> for Status {
    ghost use Rattle.std.specs.Prelude.{◌≡◌};
    ghost use Rattle.rose_shell.specs.Faults.{status_unstarted};

    ghost from_gives = { λ error status. status ≡ status_unstarted error };

    fn from(error: StartError) -> Status {
        match error {
            StartError::Disk => Status::DiskFault,
            StartError::Damaged(damage) => Status::Damaged(damage),
            StartError::NoMemory => Status::NoMemory,
        }
    }
}
