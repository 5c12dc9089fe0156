//! A text between two gates, as it is to stand in a file, so that putting it there takes no memory.
ghost use Rattle.std.specs.Prelude.{◌≡◌, ◌<◌, ◌^◌, ◌∷◌, [], ◌++◌, length, drop, IfOk};
ghost use Rattle.realm_journal.specs.Gates.{open_gate, closed_gate};

use crate::{CLOSED, OPEN};
use grid_base::NoMemory;
use std::alloc::Global;
use std::marker::Model;

/// An open gate, a text, and the closed gate of what comes next. Contracts see the text.
#[derive(Drop)]
pub struct Block {
    whole: Vec<u8>,
}

impl Model for Block {
    ghost use Rattle.std.specs.Prelude.{ℕ, List};
    ghost use Rattle.realm_journal.specs.BlockFields.{text_within, IsFramed};

    ghost Value = { List ℕ };

    ghost view = { text_within };

    ghost invariant = { IsFramed };
}

/// What a block begins with, an open gate, with room for a text of so many bytes. The text goes behind it.
pub fn begin_block(alloc: Global, room: usize) -> Result<Vec<u8>, NoMemory>
    ensures gate { IfOk result (λ begun. begun.items ≡ open_gate ∷ []) }
{
    let mut begun = Vec::with_capacity(alloc, room.saturating_add(2))?;
    begun.push(OPEN)?;
    Ok(begun)
}

impl Block {
    /// The block of the text that stands behind an open gate. No byte of it is copied where there is room.
    pub fn close(begun: Vec<u8>) -> Result<Block, NoMemory>
        requires gate { begun.items ≡ open_gate ∷ drop 1 begun.items }
        ensures text { IfOk result (λ block. block ≡ drop 1 begun.items) }
    {
        let mut whole = begun;
        whole.push(CLOSED)?;
        Ok(Block { whole })
    }

    /// All its bytes.
    pub(crate) fn whole(&self) -> &[u8]
        ensures whole { result.now ≡ open_gate ∷ (self.now ++ closed_gate ∷ []) }
        ensures fits { length result.now < 2 ^ 63 }
    {
        &self.whole
    }
}
