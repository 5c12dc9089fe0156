//! A record that is ready to be appended.
ghost use Rattle.std.specs.Prelude.{◌≡◌, IfOk};
ghost use Rattle.record_codec.specs.Fitting.{IsRecord};
ghost use Rattle.record_codec.specs.Spelling.{record_text};

use crate::block::{Block, begin_block};
use grid_base::NoMemory;
use record_codec::{Record, push_record, room_for};
use std::alloc::Global;
use std::marker::Model;

/// The block of a record: appending it takes no memory. Contracts see the record.
#[derive(Drop)]
pub struct Prepared {
    block: Block,
}

impl Model for Prepared {
    ghost use Rattle.record_codec.specs.declared.record.Record.{Record};
    ghost use Rattle.realm_journal.specs.PreparedFields.{record_within, IsOfRecord};

    ghost Value = { Record };

    ghost view = { record_within };

    ghost invariant = { IsOfRecord };
}

/// Makes a record ready to be appended. This takes the memory that appending needs.
pub fn prepare(alloc: Global, r: &Record) -> Result<Prepared, NoMemory>
    requires { IsRecord r.now }
    ensures { IfOk result (λ p. p ≡ r.now) }
{
    let mut begun = begin_block(alloc, room_for(r))?;
    push_record(&mut begun, r)?;
    let block = Block::close(begun)?;
    Ok(Prepared { block })
}

impl Prepared {
    /// The record's text between its gates.
    pub(crate) fn block(&self) -> &Block
        ensures text { result.now ≡ record_text self.now }
    {
        &self.block
    }
}
