//! Makes the changes of a row of records again. A record is read, made again and let go of before the next is read.
ghost use Rattle.std.specs.Prelude.{◌≡◌, false, IfOk};
ghost use Rattle.realm_store.specs.Remaking.{RowRemade};

use crate::replaying::replay_one;
use grid_base::NoMemory;
use realm_insert::Engine;
use realm_journal::{NextRecord, next_record};
use std::alloc::Global;
use std::thread::Threads;

/// How a row of records ends.
pub(crate) enum RowEnd {
    /// All of them lead on, up to the closed gate at this place of the bytes.
    Closed { end: usize },
    /// So many of them lead on. The gate behind is open, and no record there leads on.
    Bad { count: usize },
}

/// Makes the changes of the records again whose first gate stands at the front of these bytes.
pub(crate) fn remake_row<R: Threads + Sync>(
    rt: &R,
    alloc: Global,
    engine: &mut Engine,
    bytes: &[u8],
) -> Result<RowEnd, NoMemory>
    requires ready { engine.old.spent ≡ false }
    ensures { IfOk result (λ row. RowRemade engine.old.state bytes.now row engine.new) }
{
    let mut count = 0;
    let mut place = 0;
    loop {
        match next_record(alloc, bytes, place)? {
            NextRecord::Closed => return Ok(RowEnd::Closed { end: place }),
            NextRecord::Bad => return Ok(RowEnd::Bad { count }),
            NextRecord::Record { record, end } => {
                if !replay_one(rt, alloc, engine, &record)? {
                    return Ok(RowEnd::Bad { count });
                }
                count += 1;
                place = end;
            }
        }
    }
}
