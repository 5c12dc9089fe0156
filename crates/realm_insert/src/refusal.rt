//! Why a change isn't made.
ghost use Rattle.std.specs.Prelude.{◌≡◌};
ghost use Rattle.realm_insert.specs.declared.refusal.ChangeError.TheVariants.{NoMemory as NoChange};
ghost use Rattle.realm_insert.specs.declared.refusal.ReplayError.TheVariants.{NoMemory as NoReplay};

use grid_base::NoMemory;
use thiserror::Error;

/// Why a change is refused, in the order in which the causes are asked for. The engine is unchanged then.
#[derive(Clone, Copy, Debug, PartialEq, Eq, Error)]
pub enum Refusal {
    /// A coordinate is `GRID_SIDE` or more.
    #[error("a coordinate is off the grid")]
    Range,
    /// A list is too short: one of `lines` takes two points, one of `regions` three.
    #[error("a list is too short")]
    Shape,
    /// The two ends of a segment, or two neighbours of a list, are one point.
    #[error("two neighbours are one point")]
    Degenerate,
    /// The name that is to be defined has a value.
    #[error("the name is taken")]
    NameTaken,
    /// A name that is used has no value.
    #[error("no value has the name")]
    NoName,
    /// The operator doesn't take values of these kinds.
    #[error("the kinds don't fit")]
    Types,
    /// No original has the id.
    #[error("no original has the id")]
    NoId,
    /// The point isn't explicit.
    #[error("the point isn't explicit")]
    NoPoint,
    /// No trace is kept of the number. No change is refused for this.
    #[error("no trace is kept of the number")]
    NoTrace,
    /// The original, or the point, is a part of a value.
    #[error("a value has it as a part")]
    InUse,
    /// Too few ids are left.
    #[error("too few ids are left")]
    Ids,
    /// As many changes were accepted as there may be.
    #[error("no change is left")]
    Changes,
    /// The journal has no room for the change. The engine never answers this.
    #[error("no room is left in the journal")]
    Full,
    /// No greater generation may be written. The engine never answers this.
    #[error("no greater generation is left")]
    Generations,
}

/// Why a change isn't made.
#[derive(Clone, Copy, Debug, PartialEq, Eq, Error)]
pub enum ChangeError {
    /// It is refused, and the engine is unchanged.
    #[error("refused: {0}")]
    Refused(Refusal),
    /// The engine is spent.
    #[error("no memory")]
    NoMemory,
}

impl From<NoMemory> for ChangeError {
    ghost from_gives = { λ _ e. e ≡ NoChange };

    fn from(_: NoMemory) -> ChangeError {
        ChangeError::NoMemory
    }
}

/// Why a change isn't made again by its trace.
#[derive(Clone, Copy, Debug, PartialEq, Eq, Error)]
pub enum ReplayError {
    /// It is refused, and the engine is unchanged.
    #[error("refused: {0}")]
    Refused(Refusal),
    /// The step with this number, from 1, isn't permitted; past the last, a violation is left. The engine is spent.
    #[error("step {step} doesn't fit")]
    Mismatch { step: u64 },
    /// The engine is spent.
    #[error("no memory")]
    NoMemory,
}

impl From<NoMemory> for ReplayError {
    ghost from_gives = { λ _ e. e ≡ NoReplay };

    fn from(_: NoMemory) -> ReplayError {
        ReplayError::NoMemory
    }
}
