//! Why a call on a drawing fails. It is unchanged then.
ghost use Rattle.std.specs.Prelude.{◌≡◌};
ghost use Rattle.realm_drawing.specs.declared.errors.ChainError.TheVariants.{NoMemory as ChainExhausted};
ghost use Rattle.realm_drawing.specs.declared.errors.StepError.TheVariants.{NoMemory as StepExhausted};

use grid_base::NoMemory;
use thiserror::Error;

/// Why a chain can't be placed.
#[derive(Clone, Copy, Debug, PartialEq, Eq, Error)]
pub enum ChainError {
    /// The points are under two, or aren't a chain that may stand for a segment from the first to the last.
    #[error("not a chain")]
    NotAChain,
    #[error("no memory")]
    NoMemory,
}

/// Why a step can't be taken.
#[derive(Clone, Copy, Debug, PartialEq, Eq, Error)]
pub enum StepError {
    /// The step mends no violation of the drawing.
    #[error("the step isn't permitted")]
    NotPermitted,
    #[error("no memory")]
    NoMemory,
}

impl From<NoMemory> for ChainError {
    ghost from_gives = { λ _ e. e ≡ ChainExhausted };

    fn from(_: NoMemory) -> ChainError {
        ChainError::NoMemory
    }
}

impl From<NoMemory> for StepError {
    ghost from_gives = { λ _ e. e ≡ StepExhausted };

    fn from(_: NoMemory) -> StepError {
        StepError::NoMemory
    }
}
