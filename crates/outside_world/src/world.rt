//! What the store asks of the world outside: the next bytes of its input, room for its output, and two
//! files.
//!
//! What a crash may leave of a file is told as a method. What is written is held back. When the crash comes,
//! each place that was written since the last sync of its file takes any byte, and so does each place past
//! the length that the file had then; the file ends anywhere between that length and the greatest that it
//! has reached since. Every other byte is what it was at that sync. The choices are free of each other,
//! place by place and file by file: a write may be lost while a later one is there, or be there in part. A
//! write that fails is held back as well, with any bytes in its range. A sync that succeeds lets go of all
//! that is held back of its file, and one that fails of nothing. What is read is as if each write were done
//! at once, and is one of the things that a crash may leave.
ghost use Rattle.std.specs.Prelude.{◌≡◌, ◌≤◌, ◌<◌, ◌+◌, ◌^◌, ℕ, Bool, true, false, length, IfOk, OnOk, OnErr};
ghost use Rattle.outside_world.specs.Counts.{Rose};
ghost use Rattle.outside_world.specs.View.{View, Asked, Moment, MayLeave};
ghost use Rattle.outside_world.specs.Calls.{Took, Gave, Sized, Read, Wrote, Synced};
ghost use Rattle.outside_world.specs.Disk.{IsByteByByte};
ghost use Rattle.outside_world.specs.declared.world.FileName.{FileName};

use thiserror::Error;

/// The two files of a store.
#[derive(Clone, Copy, Debug, PartialEq, Eq)]
pub enum FileName {
    A,
    B,
}

/// The call failed, and the count of its faults rose.
#[derive(Clone, Copy, Debug, PartialEq, Eq, Error)]
#[error("the call failed")]
pub struct Failed;

/// The world outside. What it holds is optional: a world may tell it or not, and clauses on content hold
/// where it tells. One clock counts all calls.
///
/// The first call that fails is the last one. A real file system may forget what a failed sync should have
/// written, and answer the next sync with Ok: who tried again would take bytes for lasting that are lost.
pub trait Outside {
    /// Whether the world still tells what it holds.
    ghost tells: { Self → Type 0 };

    /// What it tells.
    ghost view: { Self → View };

    /// How often a take has failed.
    ghost source_faults: { Self → ℕ };

    /// How often a give has failed.
    ghost sink_faults: { Self → ℕ };

    /// How often a call on a file has failed.
    ghost disk_faults: { Self → ℕ };

    /// Whether a call has failed: then no call is made any more.
    ghost failed: { Self → Bool };

    /// Reads what comes next of the input into the front of the buffer. Where the buffer has room, 0 means that
    /// the input is over.
    fn take(&mut self, buf: &mut [u8]) -> Result<usize, Failed>
        requires intact { failed self.old ≡ false }
        ensures within { IfOk result (λ n. n ≤ length buf.old) }
        ensures later { source_faults self.old ≤ source_faults self.new }
        ensures others { (sink_faults self.new ≡ sink_faults self.old)
            × (disk_faults self.new ≡ disk_faults self.old) }
        ensures source_fault { OnErr result (Rose (source_faults self.old) (source_faults self.new)) }
        ensures intact { OnOk result (failed self.new ≡ false) }
        ensures fails { OnErr result (failed self.new ≡ true) }
        ensures still { tells self.new → tells self.old }
        ensures told { tells self.new → Took (view self.old) (view self.new) buf.new result };

    /// Hands bytes to the output, and answers how many of them it took from the front: one at least, where
    /// there are any.
    fn give(&mut self, bytes: &[u8]) -> Result<usize, Failed>
        requires intact { failed self.old ≡ false }
        ensures within { IfOk result (λ n. n ≤ length bytes.now) }
        ensures progress { IfOk result (λ n. 0 < length bytes.now → 0 < n) }
        ensures later { sink_faults self.old ≤ sink_faults self.new }
        ensures others { (source_faults self.new ≡ source_faults self.old)
            × (disk_faults self.new ≡ disk_faults self.old) }
        ensures sink_fault { OnErr result (Rose (sink_faults self.old) (sink_faults self.new)) }
        ensures intact { OnOk result (failed self.new ≡ false) }
        ensures fails { OnErr result (failed self.new ≡ true) }
        ensures still { tells self.new → tells self.old }
        ensures told { tells self.new → Gave (view self.old) (view self.new) bytes.now result };

    /// The length of a file, in bytes.
    fn size(&mut self, file: FileName) -> Result<u64, Failed>
        requires intact { failed self.old ≡ false }
        ensures later { disk_faults self.old ≤ disk_faults self.new }
        ensures others { (source_faults self.new ≡ source_faults self.old)
            × (sink_faults self.new ≡ sink_faults self.old) }
        ensures disk_fault { OnErr result (Rose (disk_faults self.old) (disk_faults self.new)) }
        ensures intact { OnOk result (failed self.new ≡ false) }
        ensures fails { OnErr result (failed self.new ≡ true) }
        ensures still { tells self.new → tells self.old }
        ensures told { tells self.new → Sized (view self.old) (view self.new) file result };

    /// Fills a prefix of the buffer with the bytes from a place of a file on, shorter than the buffer only at
    /// the file's end.
    fn read_at(&mut self, file: FileName, at: u64, buf: &mut [u8]) -> Result<usize, Failed>
        requires intact { failed self.old ≡ false }
        ensures within { IfOk result (λ n. n ≤ length buf.old) }
        ensures later { disk_faults self.old ≤ disk_faults self.new }
        ensures others { (source_faults self.new ≡ source_faults self.old)
            × (sink_faults self.new ≡ sink_faults self.old) }
        ensures disk_fault { OnErr result (Rose (disk_faults self.old) (disk_faults self.new)) }
        ensures intact { OnOk result (failed self.new ≡ false) }
        ensures fails { OnErr result (failed self.new ≡ true) }
        ensures still { tells self.new → tells self.old }
        ensures told { tells self.new → Read (view self.old) (view self.new) file at buf.new result };

    /// Writes all the bytes from a place of a file on, over what is there and past the end. The place is
    /// within the file or at its end.
    fn write_at(&mut self, file: FileName, at: u64, bytes: &[u8]) -> Result<(), Failed>
        requires intact { failed self.old ≡ false }
        requires fits { at + length bytes.now < 2 ^ 64 }
        requires within { tells self.old → at ≤ length ((view self.old).reads file) }
        ensures later { disk_faults self.old ≤ disk_faults self.new }
        ensures others { (source_faults self.new ≡ source_faults self.old)
            × (sink_faults self.new ≡ sink_faults self.old) }
        ensures disk_fault { OnErr result (Rose (disk_faults self.old) (disk_faults self.new)) }
        ensures intact { OnOk result (failed self.new ≡ false) }
        ensures fails { OnErr result (failed self.new ≡ true) }
        ensures still { tells self.new → tells self.old }
        ensures told { tells self.new → Wrote (view self.old) (view self.new) file at bytes.now result };

    /// Makes what a file reads as last: a crash leaves it so, until it is written again.
    fn sync(&mut self, file: FileName) -> Result<(), Failed>
        requires intact { failed self.old ≡ false }
        ensures later { disk_faults self.old ≤ disk_faults self.new }
        ensures others { (source_faults self.new ≡ source_faults self.old)
            × (sink_faults self.new ≡ sink_faults self.old) }
        ensures disk_fault { OnErr result (Rose (disk_faults self.old) (disk_faults self.new)) }
        ensures intact { OnOk result (failed self.new ≡ false) }
        ensures fails { OnErr result (failed self.new ≡ true) }
        ensures still { tells self.new → tells self.old }
        ensures told { tells self.new → Synced (view self.old) (view self.new) file result };

    /// What a file reads as is one of its images.
    ghost reads_an_image: { (w : Self) (f : FileName) → tells w → (view w).image f ((view w).reads f) };

    /// What a crash may leave of each file is said byte by byte.
    ghost byte_by_byte: { (w : Self) → tells w → IsByteByByte (view w) };

    /// This moment is one of those since an earlier one.
    ghost counts_now: { (w : Self) (t : ℕ) (m : Moment) → tells w → t ≤ (view w).moment → MayLeave (view w) m
        → (view w).left_since t m };

    /// Since this moment there is no other,
    ghost only_now: { (w : Self) (m : Moment) → tells w → (view w).left_since (view w).moment m
        → MayLeave (view w) m };

    /// and no take has begun.
    ghost none_asked: { (w : Self) (a : Asked) → tells w → (view w).asked_since (view w).moment a → ⊥ };
}
