//! Scores of pieces.
ghost use Rattle.std.specs.Prelude.{◌≡◌, ◌≤◌, true, length};
ghost use Rattle.fo_image.specs.Format.{is_arena_kind};

use fo_arch_hash::{Batch, copy_of, hash_here, piece_of};
use fo_image::Score;
use std::alloc::Global;
use std::test::Fail;

/// The scores of `hello`, and of 300 zeros.
pub(crate) const HELLO: Score = Score([
    0xaa, 0xf4, 0xc6, 0x1d, 0xdc, 0xc5, 0xe8, 0xa2, 0xda, 0xbe, 0xde, 0x0f, 0x3b, 0x48, 0x2c, 0xd9,
    0xae, 0xa9, 0x43, 0x4d,
]);

const ROOT: Score = Score([
    0xb2, 0x3b, 0x62, 0xbb, 0xd2, 0x2a, 0x60, 0x2b, 0x11, 0x30, 0x38, 0xa0, 0x72, 0x17, 0xc6, 0xab,
    0xcb, 0x15, 0x6f, 0x06,
]);

/// The score of one block, which is hashed in a copy of a batch.
pub(crate) fn score(alloc: Global, kind: u8, block: &[u8]) -> Result<Option<Score>, Fail>
    requires kind { is_arena_kind kind ≡ true }
    requires length { length block.now ≤ 8192 }
{
    let mut pieces = Vec::new(alloc);
    pieces.push(piece_of(alloc, 3, kind, block)?)?;
    let batch = Batch {
        epoch: 2,
        stored: 0,
        pieces,
    };
    let hashed = hash_here(alloc, copy_of(alloc, &batch)?)?;
    Ok(hashed.scores.first().copied())
}

/// A block of data that begins with `hello`.
fn hello() -> [u8; 8192]
    ensures { length result ≡ 8192 }
{
    let mut block = [0; 8192];
    block[..5].copy_from_slice(b"hello");
    block
}

/// Data is hashed without the zeros at its end, with ample memory.
#[test]
fn ample(rt: HostRuntime) -> Result<(), Fail> {
    let found = score(rt.alloc(), 0, &hello())?;
    assert!(rt; found == Some(HELLO));
    Ok(())
}

#[test]
fn a_root_is_hashed_whole(rt: HostRuntime) -> Result<(), Fail> {
    let found = score(rt.alloc(), 16, &[0; 300])?;
    assert!(rt; found == Some(ROOT));
    Ok(())
}
