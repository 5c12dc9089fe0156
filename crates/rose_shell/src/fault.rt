//! What ends a session before its input does.

use grid_base::NoMemory;

/// What ends a session before its input does.
#[derive(Clone, Copy, Debug, PartialEq, Eq)]
pub enum Fault {
    /// The input could not be read on.
    Source,
    /// The output took no more.
    Sink,
    /// A file could not be written on.
    Disk,
    /// Memory ran out.
    NoMemory,
}

impl From<NoMemory> for Fault {
    ghost use Rattle.std.specs.Prelude.{◌≡◌};
    ghost use Rattle.rose_shell.specs.declared.fault.Fault.TheVariants.{NoMemory};

    ghost from_gives = { λ _ e. e ≡ NoMemory };

    fn from(_: NoMemory) -> Fault {
        Fault::NoMemory
    }
}
