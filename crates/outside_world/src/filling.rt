//! Bytes that are put into buffers and files.
ghost use Rattle.std.specs.Prelude.{◌≡◌, ◌≤◌, ◌+◌, length, take, drop, min, max, IsOk, replicate, IfOk};
ghost use Rattle.std.specs.Prelude.{OnOk, OnErr};
ghost use Rattle.std.specs.Vec.{vec_capacity};
ghost use Rattle.outside_world.specs.Calls.{overwritten};

use grid_base::NoMemory;
use std::alloc::Global;

/// Fills a buffer with the first bytes of a list, as far as both go.
pub(crate) fn fill(buf: &mut [u8], list: &[u8]) -> usize
    ensures size { result ≡ min (length buf.old) (length list.now) }
    ensures bytes { take result buf.new ≡ take result list.now }
    ensures length { length buf.new ≡ length buf.old }
{
    let size = buf.len().min(list.len());
    buf[..size].copy_from_slice(&list[..size]);
    size
}

/// The bytes of a list from a place on.
pub(crate) fn behind(list: &[u8], at: u64) -> &[u8]
    ensures { result.now ≡ drop at list.now }
{
    let begin = at.min(list.len() as u64) as usize;
    &list[begin..]
}

/// Puts bytes over those of a file from a place on, and past its end.
pub(crate) fn overwrite(file: &mut Vec<u8>, at: usize, bytes: &[u8]) -> Result<(), NoMemory>
    requires within { at ≤ length file.old.items }
    ensures ok { OnOk result (file.new.items ≡ overwritten at bytes.now file.old.items) }
    ensures err { OnErr result (file.new.items ≡ file.old.items) }
    ensures capacity { vec_capacity file.old ≤ vec_capacity file.new }
    ensures fits { max (length file.old.items) (at + length bytes.now) ≤ vec_capacity file.old → IsOk result }
{
    let inside = bytes.len().min(file.len() - at);
    file.extend_from_slice(&bytes[inside..])?;
    file[at..at + inside].copy_from_slice(&bytes[..inside]);
    Ok(())
}

/// So many copies of a byte.
pub(crate) fn copies(alloc: Global, byte: u8, size: usize) -> Result<Vec<u8>, NoMemory>
    ensures { IfOk result (λ v. v.items ≡ replicate size byte) }
{
    let mut bytes = Vec::new(alloc);
    bytes.resize(size, byte)?;
    Ok(bytes)
}
