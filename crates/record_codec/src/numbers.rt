//! Numbers as bytes: the highest byte first.
ghost use Rattle.std.specs.Prelude.{◌≡◌, ◌+◌, ◌≤◌, ◌++◌, length, take, drop, OnOk};
ghost use Rattle.std.specs.Int.{w16, w32, w64, to_be_bytes, from_be_bytes};

use byteorder::{BigEndian, ByteOrder};
use std::alloc::AllocError;

/// Writes the number in four bytes at the end.
pub(crate) fn push_four(out: &mut Vec<u8>, number: u32) -> Result<(), AllocError>
    ensures { OnOk result (out.new.items ≡ out.old.items ++ to_be_bytes w32 number) }
{
    let mut bytes = [0; 4];
    BigEndian::write_u32(&mut bytes, number);
    out.extend_from_slice(&bytes)
}

/// Writes the number in eight bytes at the end.
pub(crate) fn push_eight(out: &mut Vec<u8>, number: u64) -> Result<(), AllocError>
    ensures { OnOk result (out.new.items ≡ out.old.items ++ to_be_bytes w64 number) }
{
    let mut bytes = [0; 8];
    BigEndian::write_u64(&mut bytes, number);
    out.extend_from_slice(&bytes)
}

/// Writes the number over the two bytes at this place.
pub(crate) fn put_two(bytes: &mut [u8], at: usize, number: u16)
    requires { at + 2 ≤ length bytes.old }
    ensures { bytes.new ≡ take at bytes.old ++ (to_be_bytes w16 number ++ drop 2 (drop at bytes.old)) }
{
    BigEndian::write_u16(&mut bytes[at..at + 2], number);
}

/// Writes the number over the eight bytes at this place.
pub(crate) fn put_eight(bytes: &mut [u8], at: usize, number: u64)
    requires { at + 8 ≤ length bytes.old }
    ensures { bytes.new ≡ take at bytes.old ++ (to_be_bytes w64 number ++ drop 8 (drop at bytes.old)) }
{
    BigEndian::write_u64(&mut bytes[at..at + 8], number);
}

/// The number in two bytes.
pub(crate) fn number_in_two(bytes: &[u8]) -> u16
    requires { length bytes.now ≡ 2 }
    ensures { result ≡ from_be_bytes w16 bytes.now }
{
    BigEndian::read_u16(bytes)
}

/// The number in four bytes.
pub(crate) fn number_in_four(bytes: &[u8]) -> u32
    requires { length bytes.now ≡ 4 }
    ensures { result ≡ from_be_bytes w32 bytes.now }
{
    BigEndian::read_u32(bytes)
}

/// The number in eight bytes.
pub(crate) fn number_in_eight(bytes: &[u8]) -> u64
    requires { length bytes.now ≡ 8 }
    ensures { result ≡ from_be_bytes w64 bytes.now }
{
    BigEndian::read_u64(bytes)
}
