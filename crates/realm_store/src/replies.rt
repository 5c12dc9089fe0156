//! The reply to a change that is made.
ghost use Rattle.std.specs.Prelude.{◌≡◌, length, IfOk};
ghost use Rattle.realm_store.specs.Replies.{ok_reply};

use grid_base::{NoMemory, Reply};
use realm_insert::Applied;
use std::alloc::Global;

// Room for the longest reply: four words, and four numbers of at most 20 digits.
const ROOM: usize = 104;

/// The reply to the change with this number.
pub(crate) fn accept(alloc: Global, number: u64, applied: &Applied) -> Result<Reply, NoMemory>
    ensures { IfOk result (λ reply. reply
        ≡ ok_reply number (length applied.now.trace) applied.now.first applied.now.added) }
{
    let steps = applied.trace.steps().len();
    let (first, added) = (applied.first, applied.added);
    let mut text = String::with_capacity(alloc, ROOM)?;
    write!(
        text,
        "ok {number} steps {steps} first {first} new {added}\n"
    )?;
    Ok(Reply::new(text.into_bytes()))
}
