//! What the program is told to do.

/// What the words behind the program's name tell it to do.
#[derive(Clone, Copy, Debug, PartialEq, Eq)]
pub enum Word {
    /// Answer the lines of the input.
    Run,
    /// Tell how much is in the store.
    Check,
    /// Make a map of so many lines that nobody wrote, from a number on.
    Gen { lines: u64, start: u64 },
    /// Send what brings a second store up to date that has so many changes.
    Ship { changes: u64 },
    /// Take what another store sends, and acknowledge what is kept.
    Follow,
    /// Give the certificate of what the store keeps.
    Certify,
    /// Judge the input as a certificate.
    Audit,
}
