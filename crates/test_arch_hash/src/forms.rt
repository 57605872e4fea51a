//! Archived forms that are made in place.
ghost use Rattle.std.specs.Prelude.{◌≡◌, length};

use crate::scores::{HELLO, score};
use fo_arch_hash::{archived_entry, put_entry, put_score};
use fo_image::{Entry, Pointer, Score, is_entry, is_score};
use fo_vacput::EMPTY;
use std::test::Fail;

/// The score of a block of two pointers, nil and `hello`.
const POINTERS: Score = Score([
    0xe6, 0xed, 0x17, 0x25, 0xa1, 0x18, 0x9e, 0x11, 0x2c, 0x43, 0x5b, 0xfa, 0xcb, 0x84, 0xd3, 0x60,
    0x5b, 0xd4, 0x4d, 0xb1,
]);

/// The score of a leaf of two entries, none and that of `hello`.
const ENTRIES: Score = Score([
    0x7e, 0x21, 0xf0, 0xfb, 0xcc, 0x3b, 0xdb, 0x41, 0xf3, 0xe2, 0xa7, 0x8d, 0x4b, 0x08, 0x0b, 0x02,
    0x5f, 0x34, 0x35, 0x05,
]);

/// A file of five bytes.
const FILE: Entry = Entry {
    generation: 7,
    active: true,
    dir: false,
    depth: 0,
    tag: 96,
    size: 5,
    top: Pointer::Local(9),
};

/// A block of nil pointers but for the second.
fn pointers() -> [u8; 8192]
    ensures { length result ≡ 8192 }
{
    let mut block = [0; 8192];
    for i in 0..409 {
        put_score(&mut block, i, &EMPTY);
    }
    put_score(&mut block, 1, &HELLO);
    block
}

/// A leaf of entries of which the second is in use.
fn entries() -> [u8; 8192]
    ensures { length result ≡ 8192 }
{
    let mut block = [0; 8192];
    if is_entry(&FILE) && FILE.depth <= 4 && is_score(HELLO) {
        let entry = archived_entry(&FILE, HELLO);
        put_entry(&mut block, 1, &entry);
    }
    block
}

#[test]
fn pointers_are_scores(rt: HostRuntime) -> Result<(), Fail> {
    let found = score(rt.alloc(), 1, &pointers())?;
    assert!(rt; found == Some(POINTERS));
    Ok(())
}

#[test]
fn entries_have_scores(rt: HostRuntime) -> Result<(), Fail> {
    let found = score(rt.alloc(), 8, &entries())?;
    assert!(rt; found == Some(ENTRIES));
    Ok(())
}
