//! Why pages aren't written or read.
ghost use Rattle.std.specs.Prelude.{◌≡◌};

use crate::damage::Damage;
use grid_base::NoMemory;
use outside_world::Failed;
use std::alloc::AllocError;
use thiserror::Error;

/// Why a generation isn't put on a file.
pub use realm_journal::JournalError as SwitchError;

/// Why the newest generation isn't found.
#[derive(Clone, Copy, Debug, PartialEq, Eq, Error)]
pub enum PagesError {
    /// The disk failed.
    #[error("disk fault")]
    Disk,
    /// The files are damaged.
    #[error("the files are damaged: {0}")]
    Damaged(Damage),
    /// Memory ran out.
    #[error("no memory")]
    NoMemory,
}

impl From<Failed> for PagesError {
    ghost use Rattle.realm_pages.specs.declared.error.PagesError.TheVariants.{Disk};

    ghost from_gives = { λ _ e. e ≡ Disk };

    fn from(_: Failed) -> PagesError {
        PagesError::Disk
    }
}

impl From<AllocError> for PagesError {
    ghost use Rattle.realm_pages.specs.declared.error.PagesError.TheVariants.{NoMemory};

    ghost from_gives = { λ _ e. e ≡ NoMemory };

    fn from(_: AllocError) -> PagesError {
        PagesError::NoMemory
    }
}

impl From<NoMemory> for PagesError {
    ghost use Rattle.realm_pages.specs.declared.error.PagesError.TheVariants.{NoMemory};

    ghost from_gives = { λ _ e. e ≡ NoMemory };

    fn from(_: NoMemory) -> PagesError {
        PagesError::NoMemory
    }
}

impl From<Damage> for PagesError {
    ghost use Rattle.realm_pages.specs.declared.error.PagesError.TheVariants.{Damaged};

    ghost from_gives = { λ d e. e ≡ Damaged d };

    fn from(damage: Damage) -> PagesError {
        PagesError::Damaged(damage)
    }
}
