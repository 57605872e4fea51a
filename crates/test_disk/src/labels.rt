use fo_image::{Kind, Label, State};
use fo_labels::Labels;
use std::test::Fail;

const DATA: Kind = Kind::Data(0);

/// Whether the next blocks that are given out are these.
fn gives(labels: &mut Labels, from: u32, to: u32) -> bool {
    for at in from..to {
        if labels.alloc(DATA, 34, 1, 1) != Some(at) {
            return false;
        }
    }
    labels.alloc(DATA, 34, 1, 1).is_none()
}

/// A fresh image of 64 blocks, whose label table is one block.
#[test]
fn ample(rt: HostRuntime) -> Result<(), Fail> {
    let mut labels = Labels::new(rt.alloc(), 64, 3)?;
    assert_eq!(rt; labels.usable(1), 61);
    assert_eq!(rt; labels.alloc(Kind::Root, 1, 1, 1), Some(3));
    let root = Label {
        state: State::Live,
        kind: Kind::Root,
        tag: 1,
        epoch: 1,
        closing: 0xffff_ffff,
    };
    assert!(rt; labels.label(3) == root);
    assert!(rt; gives(&mut labels, 4, 64));
    Ok(())
}

/// 100,000 calls of `alloc` and of `close` on 2^20 labels. The first half of the blocks stays live, so that a search
/// that walks the labels would take an hour.
#[test]
fn many(rt: HostRuntime) -> Result<(), Fail> {
    let mut labels = Labels::new(rt.alloc(), 1 << 20, 1800)?;
    fill(&mut labels);
    assert!(rt; cycles(&mut labels));
    Ok(())
}

/// Gives out the first half of the blocks.
fn fill(labels: &mut Labels) {
    for _ in 1800..1 << 19 {
        let _ = labels.alloc(DATA, 34, 7, 2);
    }
}

/// Gives out and closes the least usable block 100,000 times. Whether it was the first of the second half each time.
fn cycles(labels: &mut Labels) -> bool {
    for _ in 0..100_000 {
        if cycle(labels) != Some(1 << 19) {
            return false;
        }
    }
    true
}

/// The least usable block, given out and closed.
fn cycle(labels: &mut Labels) -> Option<u32> {
    let at = labels.alloc(DATA, 36, 7, 2)?;
    labels.close(at, 7);
    Some(at)
}
