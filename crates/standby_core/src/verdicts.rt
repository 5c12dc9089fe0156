//! What is done with a frame.

/// What a standby does with a frame.
#[derive(Clone, Copy, Debug, PartialEq, Eq)]
pub enum Verdict {
    /// It comes next, and is applied.
    Apply,
    /// All of it is there already, or changes before it are missing. It is left out.
    Skip,
}
