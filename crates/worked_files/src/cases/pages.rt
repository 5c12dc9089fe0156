//! Pages whose digests were made by another program.
ghost use Rattle.std.specs.Prelude.{◌<◌};

use page_codec::{PageError, check_page, encode_page};
use std::test::*;

// The digest of page 1 that holds `abc`.
const OF_ABC: [u8; 32] = [
    0x85, 0x19, 0x2c, 0xb2, 0xe0, 0x06, 0x28, 0xea, 0x10, 0x04, 0x43, 0xdb, 0x61, 0xde, 0xce, 0x0c,
    0x1f, 0xaf, 0xe5, 0x32, 0x37, 0x85, 0x76, 0xdc, 0x0a, 0x85, 0x43, 0x74, 0x1b, 0xa8, 0x0c, 0x6f,
];

// The digest of page 2 that is full of the byte 7.
const OF_SEVENS: [u8; 32] = [
    0xfe, 0x49, 0x44, 0x67, 0x00, 0x64, 0xb8, 0xb7, 0x07, 0x4a, 0x75, 0xf1, 0xf6, 0xc0, 0x36, 0x1e,
    0xa3, 0x42, 0x9e, 0xbd, 0x51, 0x3f, 0x78, 0xab, 0x4e, 0x87, 0xb8, 0xcd, 0x93, 0xf0, 0xb2, 0x40,
];

// The digest of that page with 4,055 as the number of bytes used.
const OF_TOO_MANY: [u8; 32] = [
    0xf3, 0x67, 0x89, 0x7e, 0xef, 0xce, 0x2b, 0x3b, 0x98, 0x92, 0x99, 0xb6, 0xc7, 0x14, 0x37, 0x18,
    0x1b, 0x4d, 0x37, 0xf4, 0xe7, 0x5f, 0x70, 0x99, 0xc1, 0xbd, 0x56, 0x7c, 0xd2, 0xb5, 0x76, 0x5f,
];

// The digest of page 1 with the byte 1 behind `abc`.
const OF_MORE: [u8; 32] = [
    0xaf, 0xc1, 0x8e, 0x5e, 0x66, 0x70, 0x80, 0xfe, 0xa0, 0xa8, 0x8d, 0x06, 0xec, 0x41, 0x54, 0xbd,
    0x23, 0xa1, 0xad, 0x36, 0xe4, 0xb7, 0x6e, 0x21, 0xd7, 0x86, 0x73, 0xe8, 0x6b, 0x10, 0x6b, 0x25,
];

// The digest of page 1 that uses nothing.
const OF_NOTHING: [u8; 32] = [
    0x89, 0xf0, 0x1d, 0x92, 0xb9, 0x90, 0xa1, 0xbd, 0x53, 0xc3, 0x92, 0x0c, 0x49, 0xbc, 0x41, 0x30,
    0x80, 0x67, 0xb9, 0xe8, 0x9d, 0xa0, 0xa2, 0x8c, 0xff, 0x48, 0x9f, 0x35, 0x30, 0x28, 0xa1, 0xe9,
];

#[test]
fn a_page_is_its_number_its_part_and_a_digest(rt: HostRuntime) {
    let page = encode_page(1, b"abc");
    let head = [0, 0, 0, 0, 0, 0, 0, 1, 0, 3, 97, 98, 99, 0];
    assert_eq!(rt; page.first_chunk(), Some(&head));
    assert_eq!(rt; page.last_chunk(), Some(&OF_ABC));
    let full = encode_page(2, &[7; 4054]);
    assert_eq!(rt; full.last_chunk(), Some(&OF_SEVENS));
    assert_eq!(rt; check_page(1, &page), Ok(3));
    assert_eq!(rt; check_page(2, &full), Ok(4054));
}

#[test]
fn digests_that_differ_are_shown(rt: HostRuntime) {
    let mut page = encode_page(1, b"abc");
    page[4064] = 0;
    let mut kept = OF_ABC;
    kept[0] = 0;
    let found = OF_ABC;
    assert_eq!(rt;
        check_page(1, &page),
        Err(PageError::Digest { kept, found })
    );
}

// A page whose digest is made anew when a byte of it was changed.
fn changed(mut page: [u8; 4096], place: usize, byte: u8, digest: &[u8; 32]) -> [u8; 4096]
    requires { place < 4096 }
{
    page[place] = byte;
    page[4064..].copy_from_slice(digest);
    page
}

#[test]
fn a_page_with_its_digest_may_be_bad(rt: HostRuntime) {
    let page = encode_page(1, b"abc");
    assert_eq!(rt; check_page(2, &page), Err(PageError::BadPage));
    let more = changed(page, 13, 1, &OF_MORE);
    assert_eq!(rt; check_page(1, &more), Err(PageError::BadPage));
    let full = encode_page(2, &[7; 4054]);
    let too_many = changed(full, 9, 0xd7, &OF_TOO_MANY);
    assert_eq!(rt; check_page(2, &too_many), Err(PageError::BadPage));
    let none = changed(encode_page(1, &[0; 3]), 9, 0, &OF_NOTHING);
    assert_eq!(rt; check_page(1, &none), Err(PageError::BadPage));
}
