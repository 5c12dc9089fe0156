//! Why a line could not be read. Within the crate a reader counts the bytes that are left behind the
//! place where it stopped, since that number stays the same however many bytes were read before it.
ghost use Rattle.std.specs.Prelude.{◌≡◌};
ghost use Rattle.line_grammar.specs.declared.fault.ReadError.TheVariants.{NoMemory};

use std::alloc::{AllocError, AllocFailed};
use thiserror::Error;

/// Why a line gives no command.
#[derive(Clone, Copy, Debug, PartialEq, Eq, Error)]
pub enum LineError {
    /// No command has this text. The first `at` bytes are the most with which some command's text
    /// begins, so `at` is the length of the line where a command goes on with the line's text.
    #[error("no command goes on so at byte {at}")]
    Bad { at: usize },
    /// Memory ran out.
    #[error("no memory")]
    NoMemory,
}

/// Why a reader stopped, `left` bytes before the end of the line.
#[derive(Debug, Drop)]
pub enum ReadError {
    Stopped { left: usize },
    NoMemory,
}

impl From<AllocError> for ReadError {
    ghost from_gives = { λ _ e. e ≡ NoMemory };

    fn from(_e: AllocError) -> ReadError {
        ReadError::NoMemory
    }
}

impl<T: Drop> From<AllocFailed<T>> for ReadError {
    ghost from_gives = { λ _ e. e ≡ NoMemory };

    fn from(_e: AllocFailed<T>) -> ReadError {
        ReadError::NoMemory
    }
}
