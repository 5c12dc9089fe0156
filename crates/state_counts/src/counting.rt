//! The numbers of a state.
ghost use Rattle.std.specs.Prelude.{◌≡◌, false, IfOk};
ghost use Rattle.grid_base.specs.Drawing.{IsPoint, IsPiece};
ghost use Rattle.state_counts.specs.Counts.{IsNumberOf, AreCounts};

use crate::originals::count_originals;
use grid_base::NoMemory;
use realm_drawing::Drawing;
use realm_insert::Engine;

/// How much is in a state.
#[derive(Clone, Copy, Debug, PartialEq, Eq)]
pub struct Counts {
    /// Originals.
    pub originals: u64,
    /// Values.
    pub values: u64,
    /// Points, explicit ones and vertices of chains, each once.
    pub points: u64,
    /// Pieces, each once, however many originals have it.
    pub pieces: u64,
}

/// How much is in the state of the engine. All its points are listed for it, and then all its pieces.
pub fn counts_of(engine: &Engine) -> Result<Counts, NoMemory>
    requires ready { engine.now.spent ≡ false }
    ensures { IfOk result (AreCounts engine.now.state) }
{
    let drawing = engine.drawing();
    let originals = count_originals(drawing, engine.next_id());
    let values = engine.table().len() as u64;
    let points = count_points(drawing)?;
    let pieces = count_pieces(drawing)?;
    Ok(Counts {
        originals,
        values,
        points,
        pieces,
    })
}

fn count_points(drawing: &Drawing) -> Result<u64, NoMemory>
    ensures { IfOk result (IsNumberOf (IsPoint drawing.now.drawing)) }
{
    let points = drawing.points()?;
    Ok(points.len() as u64)
}

fn count_pieces(drawing: &Drawing) -> Result<u64, NoMemory>
    ensures { IfOk result (IsNumberOf (IsPiece drawing.now.drawing)) }
{
    let pieces = drawing.pieces()?;
    Ok(pieces.len() as u64)
}
