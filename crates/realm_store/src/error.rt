//! Why a change isn't committed, no record accepted, no checkpoint made and no state taken over, and why no group is begun or ended.
ghost use Rattle.std.specs.Prelude.{◌≡◌};
ghost use Rattle.realm_store.specs.declared.error.AcceptError.TheVariants.{Disk as Unaccepted, NoMemory as NoRecord};
ghost use Rattle.realm_store.specs.declared.error.AdoptError.TheVariants.{Disk as Unadopted, NoMemory as NoAdopting};
ghost use Rattle.realm_store.specs.declared.error.BeginError.TheVariants.{NoMemory as NoBegin};
ghost use Rattle.realm_store.specs.declared.error.CheckpointError.TheVariants.{Disk as Unrenewed, NoMemory as NoCheckpoint};
ghost use Rattle.realm_store.specs.declared.error.CommitError.TheVariants.{Disk as Unwritten, NoMemory as NoCommit};
ghost use Rattle.realm_store.specs.declared.error.EndError.TheVariants.{Disk as Unended, NoMemory as NoEnd};

use grid_base::NoMemory;
use realm_insert::Refusal;
use realm_journal::JournalError;
use thiserror::Error;

/// Why a change isn't committed.
#[derive(Clone, Copy, Debug, PartialEq, Eq, Error)]
pub enum CommitError {
    /// It is refused. The store and the files are unchanged.
    #[error("refused: {0}")]
    Refused(Refusal),
    /// The disk failed: the files stand for the state before the change or after it. The store is spent.
    #[error("disk fault")]
    Disk,
    /// Memory ran out before anything was written. The store is spent.
    #[error("no memory")]
    NoMemory,
}

impl From<NoMemory> for CommitError {
    ghost from_gives = { λ _ e. e ≡ NoCommit };

    fn from(_: NoMemory) -> CommitError {
        CommitError::NoMemory
    }
}

impl From<JournalError> for CommitError {
    ghost from_gives = { λ _ e. e ≡ Unwritten };

    fn from(_: JournalError) -> CommitError {
        CommitError::Disk
    }
}

/// Why no checkpoint is made. In each case the files stand for the state all the time.
#[derive(Clone, Copy, Debug, PartialEq, Eq, Error)]
pub enum CheckpointError {
    /// There is no greater generation. The store and the files are unchanged.
    #[error("no greater generation is left")]
    Generations,
    /// The disk failed. The store is spent.
    #[error("disk fault")]
    Disk,
    /// Memory ran out before anything was written. The store is spent.
    #[error("no memory")]
    NoMemory,
}

impl From<NoMemory> for CheckpointError {
    ghost from_gives = { λ _ e. e ≡ NoCheckpoint };

    fn from(_: NoMemory) -> CheckpointError {
        CheckpointError::NoMemory
    }
}

impl From<JournalError> for CheckpointError {
    ghost from_gives = { λ _ e. e ≡ Unrenewed };

    fn from(_: JournalError) -> CheckpointError {
        CheckpointError::Disk
    }
}

/// Why a state from elsewhere isn't taken over.
#[derive(Clone, Copy, Debug, PartialEq, Eq, Error)]
pub enum AdoptError {
    /// The snapshot keeps no valid state. The store and the files are unchanged.
    #[error("no valid state")]
    Invalid,
    /// The store has as many changes, or more: so many. The store and the files are unchanged.
    #[error("{have} changes are there already")]
    Older { have: u64 },
    /// There is no greater generation. The store and the files are unchanged.
    #[error("no greater generation is left")]
    Generations,
    /// The disk failed: the files stand for the state before or for the new one. The store is spent.
    #[error("disk fault")]
    Disk,
    /// Memory ran out before anything was written. The store is spent.
    #[error("no memory")]
    NoMemory,
}

impl From<NoMemory> for AdoptError {
    ghost from_gives = { λ _ e. e ≡ NoAdopting };

    fn from(_: NoMemory) -> AdoptError {
        AdoptError::NoMemory
    }
}

impl From<JournalError> for AdoptError {
    ghost from_gives = { λ _ e. e ≡ Unadopted };

    fn from(_: JournalError) -> AdoptError {
        AdoptError::Disk
    }
}

/// Why no group is begun. In each case the store is unchanged.
#[derive(Clone, Copy, Debug, PartialEq, Eq, Error)]
pub enum BeginError {
    /// A group is open already.
    #[error("a group is open")]
    InGroup,
    /// Memory ran out.
    #[error("no memory")]
    NoMemory,
}

impl From<NoMemory> for BeginError {
    ghost from_gives = { λ _ e. e ≡ NoBegin };

    fn from(_: NoMemory) -> BeginError {
        BeginError::NoMemory
    }
}

/// Why a group isn't ended.
#[derive(Clone, Copy, Debug, PartialEq, Eq, Error)]
pub enum EndError {
    /// No group is open. The store and the files are unchanged.
    #[error("no group is open")]
    NoGroup,
    /// The disk failed: the files stand for the state before the group or behind it. The store is spent.
    #[error("disk fault")]
    Disk,
    /// Memory ran out before anything was written. The store is spent.
    #[error("no memory")]
    NoMemory,
}

impl From<NoMemory> for EndError {
    ghost from_gives = { λ _ e. e ≡ NoEnd };

    fn from(_: NoMemory) -> EndError {
        EndError::NoMemory
    }
}

impl From<JournalError> for EndError {
    ghost from_gives = { λ _ e. e ≡ Unended };

    fn from(_: JournalError) -> EndError {
        EndError::Disk
    }
}

/// Why a record of another store isn't accepted.
#[derive(Clone, Copy, Debug, PartialEq, Eq, Error)]
pub enum AcceptError {
    /// It isn't the next: the state has this many changes. The store and the files are unchanged.
    #[error("not the next record: there are {have} changes")]
    Gap { have: u64 },
    /// It would stand too far in its file. The store and the files are unchanged.
    #[error("no room for a record")]
    Full,
    /// It would come behind a generation of its own, and there is no greater one. The store and the files are unchanged.
    #[error("no greater generation is left")]
    Generations,
    /// The change with this number, the first such, is refused, or its trace doesn't settle it. Nothing is written. The
    /// store is spent.
    #[error("change {number} doesn't lead on")]
    NotOf { number: u64 },
    /// The disk failed: the files stand for the state before the record or behind it. The store is spent.
    #[error("disk fault")]
    Disk,
    /// Memory ran out before anything was written. The store is spent.
    #[error("no memory")]
    NoMemory,
}

impl From<NoMemory> for AcceptError {
    ghost from_gives = { λ _ e. e ≡ NoRecord };

    fn from(_: NoMemory) -> AcceptError {
        AcceptError::NoMemory
    }
}

impl From<JournalError> for AcceptError {
    ghost from_gives = { λ _ e. e ≡ Unaccepted };

    fn from(_: JournalError) -> AcceptError {
        AcceptError::Disk
    }
}
