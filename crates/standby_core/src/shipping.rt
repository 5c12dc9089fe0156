//! Which frames are sent.
ghost use Rattle.std.specs.Prelude.{◌≡◌, ◌<◌, ◌↔◌, All, IsTrue, IfOk};
ghost use Rattle.record_codec.specs.Fitting.{IsRecord};
ghost use Rattle.record_codec.specs.Payload.{IsSnapshot};
ghost use Rattle.standby_core.specs.Frames.{HasText};
ghost use Rattle.standby_core.specs.Shipping.{AreSent, last_number, records_above};

use crate::copies::{copied_record, copied_snapshot};
use crate::frame::Frame;
use grid_base::NoMemory;
use record_codec::{Record, Snapshot};
use std::alloc::Global;

/// The frames for a standby that has `k` changes. `now` is the present state, `base` the number of changes of an
/// earlier one, and `records` are those that led from that one to the present.
pub fn frames_for(
    alloc: Global,
    base: u64,
    records: &[Record],
    now: &Snapshot,
    k: u64,
) -> Result<Vec<Frame>, NoMemory>
    ensures sent { IfOk result (λ v. AreSent base records.now now.now k v.items) }
    // Of records and a state that have a text, each frame has one.
    ensures with_text { All IsRecord records.now → IsSnapshot now.now
        → IfOk result (λ v. All HasText v.items) }
{
    if k >= now.changes {
        return Ok(Vec::new(alloc));
    }
    if k >= base {
        return frames_above(alloc, records, k);
    }
    let mut frames = Vec::new(alloc);
    frames.push(Frame::Snap(copied_snapshot(alloc, now)?))?;
    Ok(frames)
}

// Of these records, each that has a change which comes after `k`.
fn frames_above(alloc: Global, records: &[Record], k: u64) -> Result<Vec<Frame>, NoMemory>
    ensures above { IfOk result (λ v. v.items ≡ records_above k records.now) }
    ensures with_text { All IsRecord records.now → IfOk result (λ v. All HasText v.items) }
{
    let mut frames = Vec::new(alloc);
    for r in records {
        if ends_above(r, k) {
            frames.push(Frame::Rec(copied_record(alloc, r)?))?;
        }
    }
    Ok(frames)
}

// Whether its last change has a number above `k`. That number may not fit in 64 bits.
fn ends_above(r: &Record, k: u64) -> bool
    ensures { IsTrue result ↔ (k < last_number r.now) }
{
    let more = r.entries.entries().len().saturating_sub(1) as u64;
    k < r.number || more > k - r.number
}
