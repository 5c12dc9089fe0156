//! What has come of the input and waits.

use crate::waiting::Waiting;
use std::alloc::Global;

/// What has come of the input and waits: a line that hasn't ended, and a batch that lacks lines.
#[derive(Debug, Drop)]
pub(crate) struct Input {
    /// What is kept of the line.
    pub(crate) kept: Vec<u8>,
    /// The batch, if there is one.
    pub(crate) waiting: Waiting,
}

impl Input {
    ghost use Rattle.std.specs.Prelude.{◌≡◌, []};

    /// Nothing has come.
    pub(crate) fn new(alloc: Global) -> Input
        ensures kept { result.kept.items ≡ [] }
        ensures missing { result.waiting.missing ≡ 0 }
        ensures lines { result.waiting.lines.items ≡ [] }
    {
        Input {
            kept: Vec::new(alloc),
            waiting: Waiting::new(alloc),
        }
    }
}
