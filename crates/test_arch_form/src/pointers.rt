//! Blocks of pointers.
ghost use Rattle.std.specs.Prelude.{◌≡◌, length};

use fo_arch_form::{Stored, form_pointers};
use fo_arch_hash::{piece_of, score_of};
use fo_image::{Score, is_score};
use std::alloc::Global;
use std::test::Fail;

/// The score of `hello`.
const HELLO: Score = Score([
    0xaa, 0xf4, 0xc6, 0x1d, 0xdc, 0xc5, 0xe8, 0xa2, 0xda, 0xbe, 0xde, 0x0f, 0x3b, 0x48, 0x2c, 0xd9,
    0xae, 0xa9, 0x43, 0x4d,
]);

/// The score of a block of two pointers, nil and `hello`.
const POINTERS: Score = Score([
    0xe6, 0xed, 0x17, 0x25, 0xa1, 0x18, 0x9e, 0x11, 0x2c, 0x43, 0x5b, 0xfa, 0xcb, 0x84, 0xd3, 0x60,
    0x5b, 0xd4, 0x4d, 0xb1,
]);

/// A block of nil pointers but for the second, which names block 9.
fn pointers() -> [u8; 8192]
    ensures { length result ≡ 8192 }
{
    let mut block = [0; 8192];
    block[39] = 10;
    block
}

/// What is known where this block of data is stored as `hello`.
fn stored(alloc: Global, at: u32) -> Result<Stored, Fail> {
    let mut done = Stored::new(alloc);
    if is_score(HELLO) {
        done.add(at, 0, HELLO)?;
    }
    Ok(done)
}

/// The score of the form; none where a block that is named isn't stored.
fn score(alloc: Global, at: u32) -> Result<Option<Score>, Fail> {
    let done = stored(alloc, at)?;
    let mut block = pointers();
    if form_pointers(&done, 0, &mut block).is_err() {
        return Ok(None);
    }
    let piece = piece_of(alloc, 3, 1, &block)?;
    Ok(Some(score_of(&piece)))
}

/// A pointer becomes the score of what it names, with ample memory.
#[test]
fn ample(rt: HostRuntime) -> Result<(), Fail> {
    let found = score(rt.alloc(), 9)?;
    assert!(rt; found == Some(POINTERS));
    Ok(())
}

#[test]
fn a_block_that_is_not_stored_is_missed(rt: HostRuntime) -> Result<(), Fail> {
    let found = score(rt.alloc(), 8)?;
    assert!(rt; found.is_none());
    Ok(())
}
