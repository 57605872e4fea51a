ghost use Rattle.std.specs.Prelude.{◌≡◌, ◌≤◌, false, IfOk};
ghost use Rattle.fo_image.specs.Format.{SpellsSuper, SuperHolds};
ghost use Rattle.fo_image.specs.Usable.{is_usable};
ghost use Rattle.fo_mind.specs.Parts.{count_of, label_at};
ghost use Rattle.fo_mind.specs.Sound.{Labelled};

use fo_base::{BLOCK, Memory};
use fo_buffers::Block;
use fo_image::{Kind, Super, write_super};
use fo_labels::Labels;
use fo_mind::Mind;
use std::alloc::Global;
use std::test::Fail;

/// A super block of the first epoch, whose root is block 3.
const FIRST: Super = Super {
    version: 1,
    low: 1,
    high: 1,
    active: 3,
    numbers: 1,
    pending: 0,
    last: None,
};

/// The labels of ten blocks, of which 3 to 9 are data blocks: block 3 is a live root block, and the others are free.
fn first_labels(alloc: Global) -> Result<Labels, Memory>
    ensures first { IfOk result (λ r. r.first ≡ 3) }
    ensures count { IfOk result (λ r. count_of r ≡ 10) }
    ensures labelled { IfOk result Labelled }
    ensures root { IfOk result (λ r. is_usable 1 (label_at r 3) ≡ false) }
{
    let mut labels = Labels::new(alloc, 10, 3)?;
    let _root = labels.alloc(Kind::Root, 1, 1, 1);
    Ok(labels)
}

/// A block that spells a super block.
fn spelled(alloc: Global, one: &Super) -> Result<Block, Memory>
    requires { SuperHolds one.now }
    ensures { IfOk result (SpellsSuper one.now) }
{
    let mut bytes = [0; BLOCK];
    write_super(one, &mut bytes);
    let mut block = Block::new(alloc)?;
    block.fill(&bytes);
    Ok(block)
}

/// A mind over ten blocks.
fn small(alloc: Global) -> Result<Mind, Memory> {
    let labels = first_labels(alloc)?;
    let block = spelled(alloc, &FIRST)?;
    Mind::new(alloc, labels, FIRST, block)
}

/// The address of a new leaf of data, where one may be made.
fn make(mind: &mut Mind) -> Option<u32> {
    if mind.spare() == 0 {
        return None;
    }
    Some(mind.new_block(Kind::Data(0), 7, 24))
}

/// Whether room was made for so many blocks, with one pin and one removal.
fn has_room(mind: &mut Mind, blocks: u32) -> Option<bool> {
    mind.make_room(blocks, 1, 1).ok()
}

/// Room is made for as many blocks as are usable, and no more; just as many are given out, the least usable one first.
#[test]
fn ample(rt: HostRuntime) -> Result<(), Fail> {
    let mut mind = small(rt.alloc())?;
    assert_eq!(rt; make(&mut mind), None);
    assert_eq!(rt; has_room(&mut mind, 7), Some(false));
    assert_eq!(rt; has_room(&mut mind, 2), Some(true));
    assert_eq!(rt; make(&mut mind), Some(4));
    assert_eq!(rt; make(&mut mind), Some(5));
    assert_eq!(rt; make(&mut mind), None);
    assert_eq!(rt; has_room(&mut mind, 5), Some(false));
    assert_eq!(rt; has_room(&mut mind, 4), Some(true));
    Ok(())
}
