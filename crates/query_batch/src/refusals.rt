//! The replies to lines that are refused before any state is looked at.
ghost use Rattle.std.specs.Prelude.{◌≡◌, IfOk};
ghost use Rattle.query_batch.specs.Replies.{no_line_reply, too_long_reply, batch_change_reply};

use grid_base::{NoMemory, Reply};
use std::alloc::Global;

/// The reply to a line that is no command's text. No command's text goes on behind `at` bytes of it.
pub fn refuse_text(alloc: Global, at: usize) -> Result<Reply, NoMemory>
    ensures { IfOk result (λ reply. reply ≡ no_line_reply at) }
{
    let text = format!(in alloc; "no line {at}\n")?;
    Ok(Reply::new(text.into_bytes()))
}

/// The reply to a line that is too long.
pub(crate) fn refuse_long(alloc: Global) -> Result<Reply, NoMemory>
    ensures { IfOk result (λ reply. reply ≡ too_long_reply) }
{
    let text = format!(in alloc; "no too-long\n")?;
    Ok(Reply::new(text.into_bytes()))
}

/// The reply to a command that is no query and stands in a batch.
pub(crate) fn refuse_in_batch(alloc: Global) -> Result<Reply, NoMemory>
    ensures { IfOk result (λ reply. reply ≡ batch_change_reply) }
{
    let text = format!(in alloc; "no batch-change\n")?;
    Ok(Reply::new(text.into_bytes()))
}
