ghost use Rattle.std.specs.Prelude.{◌≡◌, ◌<◌, length};
ghost use Rattle.fo_image.specs.Format.{PointerHolds};

use fo_image::{BLOCK, Kind, Pointer, Score, write_pointer};
use fo_unlink::{Queue, Removal, Step};
use std::test::Fail;

fn point(block: &mut [u8], slot: usize, to: Pointer)
    requires size { length block.old ≡ 8192 }
    requires slot { slot < 409 }
    requires pointer { PointerHolds to }
{
    write_pointer(&to, &mut block[20 * slot..20 * slot + 20]);
}

/// A block of level 2 at 100, with 110 and 111 of level 1 below it, with the leaves 120, 121 and 122 below these.
fn content(b: u32) -> [u8; BLOCK] {
    let mut block = [0; BLOCK];
    match b {
        100 => {
            point(&mut block, 0, Pointer::Local(110));
            point(&mut block, 1, Pointer::Score(Score([7; 20])));
            point(&mut block, 5, Pointer::Local(111));
        }
        110 => {
            point(&mut block, 3, Pointer::Local(120));
            point(&mut block, 4, Pointer::Local(121));
        }
        111 => point(&mut block, 408, Pointer::Local(122)),
        _ => block = [1; BLOCK],
    }
    block
}

/// The next block that the queue closes, where it neither waits nor is empty.
fn next_closed(queue: &mut Queue) -> Option<u32> {
    let mut block = [0; BLOCK];
    for _ in 0..10 {
        match queue.step(true, &block) {
            Step::Closes(b) => return Some(b),
            Step::Reads(b) => block = content(b),
            Step::Waits | Step::Empty => return None,
        }
    }
    None
}

/// Whether the queue closes these blocks and no more.
fn closes(queue: &mut Queue, blocks: &[u32]) -> bool {
    for b in blocks {
        if next_closed(queue) != Some(*b) {
            return false;
        }
    }
    next_closed(queue).is_none()
}

const TREE: Removal = Removal {
    at: 100,
    kind: Kind::Data(2),
    whole: true,
    epoch: 6,
    after: 40,
};

const LEAF: Removal = Removal {
    at: 50,
    kind: Kind::Dir(0),
    whole: true,
    epoch: 7,
    after: 41,
};

const ROOT: Removal = Removal {
    at: 60,
    kind: Kind::Root,
    whole: false,
    epoch: 7,
    after: 1,
};

/// Three removals, the last of them once there was room made for it.
#[test]
fn ample(rt: HostRuntime) -> Result<(), Fail> {
    let mut queue = Queue::new(rt.alloc(), 2)?;
    queue.push(TREE);
    queue.push(LEAF);
    queue.reserve(1)?;
    queue.push(ROOT);
    assert!(rt; queue.first() == Some(TREE) && queue.len() == 3);
    assert!(rt; closes(&mut queue, &[120, 121, 110, 122, 111, 100, 50, 60]));
    assert!(rt; queue.len() == 0);
    Ok(())
}

/// A tree of entries, down to its leaves.
#[test]
fn entries(rt: HostRuntime) -> Result<(), Fail> {
    let mut queue = Queue::new(rt.alloc(), 1)?;
    queue.push(Removal {
        kind: Kind::Dir(2),
        ..TREE
    });
    assert!(rt; closes(&mut queue, &[120, 121, 110, 122, 111, 100]));
    Ok(())
}

/// The first removal waits as long as the block after which it comes isn't settled.
#[test]
fn waits(rt: HostRuntime) -> Result<(), Fail> {
    let nothing = [0; BLOCK];
    let mut queue = Queue::new(rt.alloc(), 2)?;
    assert!(rt; queue.step(true, &nothing) == Step::Empty);
    queue.push(TREE);
    assert!(rt; queue.step(false, &nothing) == Step::Waits);
    assert!(rt; queue.step(true, &nothing) == Step::Reads(100));
    Ok(())
}
