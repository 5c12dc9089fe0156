//! Lines as frames.
ghost use Rattle.std.specs.Prelude.{◌≡◌, IfOk, IfSome, Some};
ghost use Rattle.record_codec.specs.declared.record.Record.{Record as Seen};
ghost use Rattle.record_codec.specs.Fitting.{IsRecord};
ghost use Rattle.record_codec.specs.Spelling.{record_text};
ghost use Rattle.record_codec.specs.declared.snapshot.Snapshot.{Snapshot as State};
ghost use Rattle.standby_core.specs.declared.frame.Frame.{Frame};
ghost use Rattle.standby_core.specs.declared.frame.Frame.TheVariants.{Rec, Snap};
ghost use Rattle.standby_core.specs.Frames.{IsFrame, IsLineOf, content};
ghost use Rattle.standby_core.specs.Digits.{AreDigitsOf};

use crate::digits::bytes_of;
use crate::frame::Frame;
use grid_base::NoMemory;
use record_codec::{Record, Snapshot, decode, decode_snapshot};
use std::alloc::Global;

/// The frame of the line, which has no line end; none where the line is no frame.
pub fn read_frame(alloc: Global, line: &[u8]) -> Result<Option<Frame>, NoMemory>
    // What is found is a frame whose line this is.
    ensures found { IfOk result (λ o. IfSome o (λ f. IsLineOf f line.now)) }
    // The frame whose line this is is found, unless memory runs out.
    ensures only { (f : Frame) → IsLineOf f line.now → IfOk result (λ o. o ≡ Some f) }
{
    if let Some(digits) = line.strip_prefix(b"rec ") {
        return read_record(alloc, digits);
    }
    if let Some(digits) = line.strip_prefix(b"snap ") {
        return read_snapshot(alloc, digits);
    }
    Ok(None)
}

// The record that these digits write, as a frame.
fn read_record(alloc: Global, digits: &[u8]) -> Result<Option<Frame>, NoMemory>
    ensures found { IfOk result (λ o. IfSome o (λ f. (r : Seen) × (f ≡ Rec r) × IsFrame f
        × AreDigitsOf (content f) digits.now)) }
    ensures only { (r : Seen) → IsFrame (Rec r) → AreDigitsOf (content (Rec r)) digits.now
        → IfOk result (λ o. o ≡ Some (Rec r)) }
{
    let Some(bytes) = bytes_of(alloc, digits)? else {
        return Ok(None);
    };
    match whole_record(alloc, bytes.as_slice())? {
        Some(r) => Ok(Some(Frame::Rec(r))),
        None => Ok(None),
    }
}

// The record of which the bytes are the text; none where they are the text of none.
fn whole_record(alloc: Global, bytes: &[u8]) -> Result<Option<Record>, NoMemory>
    ensures found { IfOk result (λ o. IfSome o (λ r. IsRecord r × (bytes.now ≡ record_text r))) }
    ensures only { (r : Seen) → IsRecord r → bytes.now ≡ record_text r → IfOk result (λ o. o ≡ Some r) }
{
    let Some((r, taken)) = decode(alloc, bytes)? else {
        return Ok(None);
    };
    if taken == bytes.len() {
        Ok(Some(r))
    } else {
        Ok(None)
    }
}

// The state that these digits write, as a frame.
fn read_snapshot(alloc: Global, digits: &[u8]) -> Result<Option<Frame>, NoMemory>
    ensures found { IfOk result (λ o. IfSome o (λ f. (s : State) × (f ≡ Snap s) × IsFrame f
        × AreDigitsOf (content f) digits.now)) }
    ensures only { (s : State) → IsFrame (Snap s) → AreDigitsOf (content (Snap s)) digits.now
        → IfOk result (λ o. o ≡ Some (Snap s)) }
{
    let Some(bytes) = bytes_of(alloc, digits)? else {
        return Ok(None);
    };
    match decode_snapshot(alloc, bytes.as_slice())? {
        Some(s) => Ok(Some(Frame::Snap(s))),
        None => Ok(None),
    }
}
