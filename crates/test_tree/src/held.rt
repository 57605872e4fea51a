//! A source of which leaves are held under scores.
ghost use Rattle.std.specs.Prelude.{◌≡◌, length};

use crate::steps::{has_leaf, overwrite, source};
use fo_base::BLOCK;
use fo_image::{Pointer, Score};
use fo_ports::{BlockError, Blocks};
use fo_ports_plain::PlainBlocks;
use std::alloc::Global;
use std::test::Fail;

/// The leaves: ones, and twos.
const ONES: Score = Score([51; 20]);

const TWOS: Score = Score([52; 20]);

const TOP: Score = Score([50; 20]);

/// The SHA-1 of no bytes (FIPS 180-4), which in archives stands for none.
const EMPTY: [u8; 20] = [
    0xda, 0x39, 0xa3, 0xee, 0x5e, 0x6b, 0x4b, 0x0d, 0x32, 0x55, 0xbf, 0xef, 0x95, 0x60, 0x18, 0x90,
    0xaf, 0xd8, 0x07, 0x09,
];

/// A block of pointers to both leaves, and then to the empty block.
fn pointers() -> [u8; BLOCK]
    ensures { length result ≡ 8192 }
{
    let mut block = [0; BLOCK];
    block[..20].copy_from_slice(&[51; 20]);
    block[20..40].copy_from_slice(&[52; 20]);
    block[40..60].copy_from_slice(&EMPTY);
    block
}

/// A source of two leaves and five bytes, of which the first two are held, and the empty block isn't; one byte of the second is overwritten:
/// whether leaf `i` has these bytes then.
fn shows(alloc: Global, i: u32, wanted: &[u8; BLOCK]) -> Result<bool, BlockError> {
    let mut on = PlainBlocks::new(alloc, 30)?;
    on.hold(&TOP, 1, &pointers())?;
    on.hold(&ONES, 0, &[1; BLOCK])?;
    on.hold(&TWOS, 0, &[2; BLOCK])?;
    on.reserve(30, 100, 0)?;
    let mut ways = source(alloc, 1, 16389, Pointer::Score(TOP));
    overwrite(&mut ways, &mut on, 8195, 9)?;
    has_leaf(&ways, &mut on, i, wanted)
}

/// The byte stands, and all others are as they are held. The third leaf is a hole: the score of the empty block is nil, in the block of
/// pointers that is held and in the one that comes for it, and nothing is fetched for it.
#[test]
fn one_byte(rt: HostRuntime) -> Result<(), Fail> {
    let mut second = [2; BLOCK];
    second[3] = 9;
    assert!(rt; shows(rt.alloc(), 0, &[1; BLOCK])?);
    assert!(rt; shows(rt.alloc(), 1, &second)?);
    assert!(rt; shows(rt.alloc(), 2, &[0; BLOCK])?);
    Ok(())
}
