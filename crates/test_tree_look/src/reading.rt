//! Sources whose top is a score.
ghost use Rattle.std.specs.Prelude.{◌≡◌, false, length};
ghost use Rattle.fo_image.specs.declared.types.Pointer.TheVariants.{Score as Held};

use fo_image::{Pointer, Score};
use fo_ports_plain::PlainBlocks;
use fo_tree_read::Tree;
use std::test::Fail;

/// A source of data under a score.
pub fn held_tree(score: Score, depth: u8, size: u64) -> Tree
    ensures { result ≡ record { dir = false; tag = 40; rank = 2112; depth = depth; size = size; top = Held score } }
{
    Tree {
        dir: false,
        tag: 40,
        rank: 2112,
        depth,
        size,
        top: Pointer::Score(score),
    }
}

/// Five bytes of a leaf that is held: the last two are read, and nothing behind them.
#[test]
fn ample(rt: HostRuntime) -> Result<(), Fail> {
    let mut on = PlainBlocks::new(rt.alloc(), 2)?;
    on.hold(&Score([51; 20]), 0, &[1; 8192])?;
    let tree = held_tree(Score([51; 20]), 0, 5);
    let mut into = [7; 4];
    assert_eq!(rt; tree.read(&mut on, 3, &mut into)?, 2);
    assert_eq!(rt; into, [1, 1, 7, 7]);
    Ok(())
}

/// Two leaves below a block of pointers that is held: the second has zeros where its pointer is none, and no leaf stands on the device.
#[test]
fn pointers(rt: HostRuntime) -> Result<(), Fail> {
    let mut on = PlainBlocks::new(rt.alloc(), 2)?;
    on.hold(&Score([50; 20]), 1, &first_pointer())?;
    on.hold(&Score([51; 20]), 0, &[1; 8192])?;
    let tree = held_tree(Score([50; 20]), 1, 20000);
    let mut into = [7; 4];
    assert_eq!(rt; tree.read(&mut on, 8190, &mut into)?, 4);
    assert_eq!(rt; into, [1, 1, 0, 0]);
    assert_eq!(rt; tree.leaf(&mut on, 0)?, None);
    Ok(())
}

/// A block whose first pointer is a score.
pub fn first_pointer() -> [u8; 8192]
    ensures { length result ≡ 8192 }
{
    let mut block = [0; 8192];
    block[..20].copy_from_slice(&[51; 20]);
    block
}
