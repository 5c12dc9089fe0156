//! The replies to commands that are refused.
ghost use Rattle.std.specs.Prelude.{◌≡◌, IfOk};
ghost use Rattle.realm_insert.specs.declared.refusal.Refusal.TheVariants.{NoName};
ghost use Rattle.rose_query.specs.Replies.{word_of, no_reply};

use grid_base::{NoMemory, Reply};
use realm_insert::Refusal;
use std::alloc::Global;

/// The reply to a command that is refused.
pub fn refuse(alloc: Global, refusal: Refusal) -> Result<Reply, NoMemory>
    ensures { IfOk result (λ reply. reply ≡ no_reply refusal) }
{
    let word = word(refusal);
    let text = format!(in alloc; "no {word}\n")?;
    Ok(Reply::new(text.into_bytes()))
}

fn word(refusal: Refusal) -> &'static str
    ensures { result.now ≡ word_of refusal }
{
    match refusal {
        Refusal::Range => "range",
        Refusal::Shape => "shape",
        Refusal::Degenerate => "degenerate",
        Refusal::NameTaken => "name-taken",
        Refusal::NoName => "no-name",
        Refusal::Types => "types",
        Refusal::NoId => "no-id",
        Refusal::NoPoint => "no-point",
        Refusal::NoTrace => "no-trace",
        Refusal::InUse => "in-use",
        Refusal::Ids => "ids",
        Refusal::Changes => "changes",
        Refusal::Full => "full",
        Refusal::Generations => "generations",
    }
}

/// The reply where no value has a name that is used.
pub(crate) fn refuse_name(alloc: Global) -> Result<Reply, NoMemory>
    ensures { IfOk result (λ reply. reply ≡ no_reply NoName) }
{
    refuse(alloc, Refusal::NoName)
}
