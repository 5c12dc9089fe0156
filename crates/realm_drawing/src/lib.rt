//! Drawings: explicit points, and the segments that were given, the originals, with the chains that stand for them.
//! Begin at `Drawing`, then read what a step does in `specs/Steps.antt` of hook_chain.
#![tactic(auto)]

mod drawing;
mod errors;
mod explicit;
mod keyed;
mod leaving;
mod originals;
mod passages;
mod redrawing;
mod shares;
mod violations;
mod walks;

pub use drawing::Drawing;
pub use errors::{ChainError, StepError};
pub use keyed::KeyedPiece;
pub use walks::Chains;
