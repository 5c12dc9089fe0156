//! A page is read by writing it again: what is used of it says what the whole of it must be.
ghost use Rattle.std.specs.Prelude.{◌≡◌, ◌≤◌, ◌<◌, ◌+◌, ℕ, List, ◌++◌, length, take, IfOk, IfErr};
ghost use Rattle.std.specs.Prelude.{IfSome, Ok, Some};
ghost use Rattle.page_codec.specs.Pages.{Fills, body_of, page_of, part_of};
ghost use Rattle.page_codec.specs.Pages.{digest_kept, digest_found, IsFault};

use byteorder::{BigEndian, ByteOrder};
use sha2::{Digest, Sha256};
use thiserror::Error;

/// Why bytes are no page.
#[derive(Clone, Copy, Debug, PartialEq, Eq, Error)]
pub enum PageError {
    /// The digest that stands in the page isn't the one of its other bytes.
    #[error("the digest of a page is not that of its bytes")]
    Digest { kept: [u8; 32], found: [u8; 32] },
    /// The digests agree, and the other bytes are no page of this number.
    #[error("a page is not as it should be")]
    BadPage,
}

/// The page of this number that holds this part of the payload.
pub fn encode_page(number: u64, part: &[u8]) -> [u8; 4096]
    requires { Fills part.now }
    ensures { result ≡ page_of number part.now }
{
    let body = body_with(number, part);
    let mut page = [0; 4096];
    page[..4064].copy_from_slice(&body);
    page[4064..].copy_from_slice(&Sha256::digest(&body));
    page
}

/// How many bytes of the payload the page of this number holds, from its byte 10 on.
pub fn check_page(number: u64, bytes: &[u8; 4096]) -> Result<usize, PageError>
    // What is accepted is the page that holds these bytes.
    ensures page { IfOk result (λ used. (length (part_of used bytes.now) ≡ used)
        × Fills (part_of used bytes.now) × (bytes.now ≡ page_of number (part_of used bytes.now))) }
    // Each page of this number is accepted.
    ensures only { (part : List ℕ) → Fills part → bytes.now ≡ page_of number part
        → result ≡ Ok (length part) }
    // Which of the two faults it is.
    ensures fault { IfErr result (λ e. IsFault number bytes.now e) }
{
    let kept = kept_in(bytes);
    let found = found_of(bytes);
    if kept != found {
        return Err(PageError::Digest { kept, found });
    }
    match used_of(number, bytes) {
        Some(used) => Ok(used),
        None => Err(PageError::BadPage),
    }
}

// The digest that stands in the page.
fn kept_in(bytes: &[u8; 4096]) -> [u8; 32]
    ensures { result ≡ digest_kept bytes.now }
{
    let (_, rest) = bytes.split_at(4064);
    let mut kept = [0; 32];
    kept.copy_from_slice(rest);
    kept
}

// The digest of its other bytes.
fn found_of(bytes: &[u8; 4096]) -> [u8; 32]
    ensures { result ≡ digest_found bytes.now }
{
    Sha256::digest(&bytes[..4064])
}

// How many bytes of the payload the page of this number holds, whatever its digest.
fn used_of(number: u64, bytes: &[u8; 4096]) -> Option<usize>
    ensures found { IfSome result (λ used. (length (part_of used bytes.now) ≡ used)
        × Fills (part_of used bytes.now)
        × (take 4064 bytes.now ≡ body_of number (part_of used bytes.now))) }
    ensures only { (part rest : List ℕ) → Fills part → bytes.now ≡ body_of number part ++ rest
        → result ≡ Some (length part) }
{
    let used = count_in(bytes);
    if used == 0 {
        return None;
    }
    if used > 4054 {
        return None;
    }
    let written = body_with(number, &bytes[10..10 + used]);
    if bytes[..4064] != written[..] {
        return None;
    }
    Some(used)
}

// How many bytes are used by what the page says.
fn count_in(bytes: &[u8; 4096]) -> usize
    ensures { (number : ℕ) (part rest : List ℕ) → Fills part → bytes.now ≡ body_of number part ++ rest
        → result ≡ length part }
{
    usize::from(BigEndian::read_u16(&bytes[8..10]))
}

// The page without its digest.
fn body_with(number: u64, part: &[u8]) -> [u8; 4064]
    requires { Fills part.now }
    ensures { result ≡ body_of number part.now }
{
    let mut body = [0; 4064];
    BigEndian::write_u64(&mut body[..8], number);
    BigEndian::write_u16(&mut body[8..10], part.len() as u16);
    body[10..10 + part.len()].copy_from_slice(part);
    body
}
