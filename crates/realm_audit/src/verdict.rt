//! The verdict on a certificate.

/// What an auditor says of the lines that it heard.
#[derive(Clone, Copy, Debug, PartialEq, Eq)]
pub enum Verdict {
    /// No line fails, and the last one ends the certificate. How many changes it has, and how many steps, each up to 2^63.
    Sound { changes: u64, steps: u64 },
    /// Which line fails first, counted from 1; where none does and the end is missing, the one behind the last.
    Unsound { line: u64 },
}
