//! Accepted changes.
ghost use Rattle.std.specs.Prelude.{◌≡◌, ◌≤◌, length};
ghost use Rattle.record_codec.specs.Entries.{IsShort, room_for};

use crate::trace::Trace;
use grid_base::Reply;

/// An accepted change with the steps that settled it.
#[derive(Debug, Drop)]
pub struct Entry {
    /// The text of the change, without a line end.
    pub line: Reply,
    /// The steps that settled the drawing, in order.
    pub trace: Trace,
}

impl Entry {
    /// Room for its text, of which a step takes 41 bytes at most.
    pub(crate) fn room(&self) -> usize
        requires { length self.now.line ≤ 1048576 }
        ensures room { result ≡ room_for self.now }
        ensures short { IsShort self.now }
    {
        let line = self.line.bytes().len();
        let steps = self.trace.steps().len();
        12 + line + 41 * steps
    }
}
