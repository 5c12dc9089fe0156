//! Digests in base 16.
ghost use Rattle.std.specs.Prelude.{Some};
ghost use Rattle.process_run.specs.Base16.{byte_text, bytes_text};

use std::fmt;
use std::fmt::Display;

/// A digest, shown byte by byte in base 16.
#[derive(Clone, Copy)]
pub(crate) struct InBase16(pub(crate) [u8; 32]);

impl Display for InBase16 {
    ghost output = { λ digest. Some (bytes_text digest.0) };

    fn fmt<W: fmt::Write>(&self, f: &mut fmt::Formatter<W>) -> fmt::Result {
        for byte in &self.0 {
            let digits = TwoDigits(*byte);
            write!(f, "{digits}")?;
        }
        Ok(())
    }
}

// A byte, shown by two digits of base 16.
#[derive(Clone, Copy)]
struct TwoDigits(u8);

impl Display for TwoDigits {
    ghost output = { λ byte. Some (byte_text byte.0) };

    fn fmt<W: fmt::Write>(&self, f: &mut fmt::Formatter<W>) -> fmt::Result {
        let byte = self.0;
        write!(f, "{byte:02x}")
    }
}
