//! Frames, given as lines. One line is made and given at a time, so no more than one is held.
ghost use Rattle.std.specs.Prelude.{◌≡◌, ◌⊎◌, ◌++◌, ◌∷◌, [], false, All, IfOk, OnOk};
ghost use Rattle.outside_world.specs.Counts.{Rose};
ghost use Rattle.outside_world.specs.GoesOn.{GoesOn};
ghost use Rattle.standby_core.specs.Frames.{HasText, IsFrame, line_of};
ghost use Rattle.rose_shell.specs.Faults.{TellsFault};
ghost use Rattle.rose_shell.specs.Shipping.{GivesFrames};

use crate::giving::give_all;
use crate::status::Status;
use grid_base::{NoMemory, Reply};
use outside_world::Outside;
use standby_core::{Frame, write_frame};
use std::alloc::Global;

/// Gives the line of each frame in order, each with its line feed.
pub(crate) fn give_frames<W: Outside>(alloc: Global, world: &mut W, frames: &[Frame]) -> Status
    requires intact { W.failed world.old ≡ false }
    requires with_text { All HasText frames.now }
    ensures ends { (result ≡ Status.Done) ⊎ ((result ≡ Status.SinkFault) ⊎ (result ≡ Status.NoMemory)) }
    ensures intact { ¬ (TellsFault result) → W.failed world.new ≡ false }
    ensures sink_fault { result ≡ Status.SinkFault
        → Rose (W.sink_faults world.old) (W.sink_faults world.new) }
    ensures told { W.tells world.new
        → GivesFrames (W.view world.old) (W.view world.new) frames.now result }
    ensures goes_on { GoesOn ⟦<W as Outside>⟧ world.old world.new }
{
    for frame in frames {
        let line = match line_with_end(alloc, frame) {
            Ok(line) => line,
            Err(NoMemory) => return Status::NoMemory,
        };
        if let Err(fault) = give_all(world, line.bytes()) {
            return Status::from(fault);
        }
    }
    Status::Done
}

// The line of the frame, with its line feed.
fn line_with_end(alloc: Global, frame: &Frame) -> Result<Reply, NoMemory>
    requires with_text { HasText frame.now }
    ensures is_frame { OnOk result (IsFrame frame.now) }
    ensures line { IfOk result (λ line. line ≡ line_of frame.now ++ 10 ∷ []) }
{
    let line = write_frame(alloc, frame)?;
    let mut bytes = line.into_bytes();
    bytes.push(b'\n')?;
    Ok(Reply::new(bytes))
}
