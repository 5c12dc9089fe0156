//! Replies, one after another.
ghost use Rattle.std.specs.Prelude.{◌≡◌, IfOk};
ghost use Rattle.std.specs.List.{concat};

use grid_base::{NoMemory, Reply};
use std::alloc::Global;

/// The replies in one.
pub(crate) fn joined(alloc: Global, replies: &[Reply]) -> Result<Reply, NoMemory>
    ensures { IfOk result (λ reply. reply ≡ concat replies.now) }
{
    let mut bytes = Vec::new(alloc);
    for reply in replies {
        bytes.extend_from_slice(reply.bytes())?;
    }
    Ok(Reply::new(bytes))
}
