//! The lock on a file, which one program holds at a time. The system gives it back where the file is closed, so at the
//! end of the program at the latest, however it ends.
ghost use Rattle.std.specs.Prelude.{◌≡◌, Option, Bool, None, OnOk};
ghost use Rattle.process_world.specs.Locks.{IsHeld};

use outside_world::Failed;
use std::fs::{File, TryLockError};

/// A file with a lock, which one opening of the file holds at a time.
pub trait TryLock {
    /// Whether this opening holds the lock, where the file tells it.
    ghost is_held: { Self → Option Bool } = { λ _. None };

    /// Takes the lock without waiting. It fails where another opening holds it, in this program or another, and where
    /// the file system has no locks.
    fn try_lock(&mut self) -> Result<(), TryLockError>
        ensures held { OnOk result (IsHeld (is_held self.new)) };
}

/// The lock of the system on the whole file. What the system does with it is told to no contract.
impl TryLock for File {
    fn try_lock(&mut self) -> Result<(), TryLockError> {
        File::try_lock(self)
    }
}

/// An open file whose lock was taken. The lock goes where this is dropped, since the file is closed then.
#[derive(Drop)]
pub struct HeldFile<F: TryLock + Drop> {
    file: F,
    ghost held: { IsHeld (F.is_held file) },
}

impl<F: TryLock + Drop> HeldFile<F> {
    /// Takes the lock of an open file. Where it isn't got the file is closed.
    pub(crate) fn hold(file: F) -> Result<HeldFile<F>, Failed> {
        let mut file = file;
        match file.try_lock() {
            Ok(()) => Ok(HeldFile { file }),
            Err(_) => Err(Failed),
        }
    }

    /// The file, whose lock is held.
    pub(crate) fn file(&self) -> &F
        ensures same { result.now ≡ self.now.file }
        ensures held { IsHeld (F.is_held result.now) }
    {
        &self.file
    }
}
