//! Bytes as hexadecimal digits in lower case, two for each byte. The digits are those of the crate `hex`,
//! which reads upper case too: so that is looked for first.
ghost use Rattle.std.specs.Prelude.{◌≡◌, ◌++◌, ℕ, List, IfOk, IfSome, IsSomeAnd, length, ◌+◌, ◌*◌};
ghost use Rattle.std.specs.List.{list_any};
ghost use Rattle.hex.specs.Hex.{encode_lower, IsBytes};
ghost use Rattle.standby_core.specs.Digits.{is_capital, AreDigitsOf};

use grid_base::{NoMemory, Reply};
use hex::FromHexError;
use std::alloc::Global;

/// The bytes that the digits write; none where they aren't two digits in lower case for each of some bytes.
pub(crate) fn bytes_of(alloc: Global, digits: &[u8]) -> Result<Option<Vec<u8>>, NoMemory>
    ensures found { IfOk result (λ o. IfSome o (λ v. AreDigitsOf v.items digits.now)) }
    ensures only { (bytes : List ℕ) → AreDigitsOf bytes digits.now
        → IfOk result (λ o. IsSomeAnd o (λ v. v.items ≡ bytes)) }
{
    if has_capital(digits) {
        return Ok(None);
    }
    match hex::decode(alloc, digits) {
        Ok(bytes) => Ok(Some(bytes)),
        Err(e) => match e {
            FromHexError::OutOfMemory => Err(NoMemory),
            _ => Ok(None),
        },
    }
}

// Whether one of the digits is in upper case.
fn has_capital(digits: &[u8]) -> bool
    ensures { result ≡ list_any is_capital digits.now }
{
    digits.iter().any(|d| b'A' <= *d && *d <= b'F')
}

/// Bytes are bytes.
pub(crate) fn are_bytes(bytes: &[u8])
    ensures { IsBytes bytes.now }
{
    let _ = bytes;
}

/// The word, and the digits of the bytes behind it.
pub(crate) fn line_with(alloc: Global, word: &[u8], bytes: &[u8]) -> Result<Reply, NoMemory>
    ensures { IfOk result (λ line. line ≡ word.now ++ encode_lower bytes.now) }
{
    let Some(count) = bytes.len().checked_mul(2) else {
        return Err(NoMemory);
    };
    let Some(room) = word.len().checked_add(count) else {
        return Err(NoMemory);
    };
    let mut line = vec![in alloc; 0u8; room]?;
    fill(line.as_mut_slice(), word, bytes);
    Ok(Reply::new(line))
}

// Writes the word and the digits over the line, which has room for just these.
fn fill(line: &mut [u8], word: &[u8], bytes: &[u8])
    requires { length line.old ≡ length word.now + 2 * length bytes.now }
    ensures { line.new ≡ word.now ++ encode_lower bytes.now }
{
    let (front, back) = line.split_at_mut(word.len());
    front.copy_from_slice(word);
    let written = hex::encode_to_slice(bytes, back);
    prove!(written.is_ok());
}
