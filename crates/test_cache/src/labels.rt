//! A block of the label table, against bytes as the format has them: state, kind, epoch, closing epoch and tag, high bytes first.
ghost use Rattle.std.specs.Prelude.{◌≤◌, IfOk};
ghost use Rattle.fo_labels.specs.Spelled.{AreLabels};

use fo_base::Memory;
use fo_image::{Kind, Label, State};
use fo_labels::Labels;
use std::alloc::Global;
use std::test::Fail;

const ROOT: Label = Label {
    state: State::Live,
    kind: Kind::Root,
    tag: 1,
    epoch: 1,
    closing: 0xffff_ffff,
};

const CLOSED: Label = Label {
    state: State::Closed,
    kind: Kind::Dir(4),
    tag: 34,
    epoch: 2,
    closing: 3,
};

/// The labels of a device of 64 blocks, with two that are not free.
fn labels(alloc: Global) -> Result<Labels, Memory>
    ensures { IfOk result AreLabels }
{
    let mut labels = Labels::new(alloc, 64, 3)?;
    labels.restore(3, ROOT);
    labels.restore(4, CLOSED);
    Ok(labels)
}

/// The first block of its label table.
fn table(labels: &Labels) -> [u8; 8192]
    requires { AreLabels labels.now }
{
    let mut block = [7; 8192];
    labels.spell(2, &mut block);
    block
}

/// Whether the bytes at a place are these.
fn stands(block: &[u8; 8192], from: usize, bytes: &[u8; 14]) -> bool
    requires { from ≤ 8178 }
{
    for i in 0..14 {
        if block[from + i] != bytes[i] {
            return false;
        }
    }
    true
}

/// How many bytes are not zero.
fn others(block: &[u8; 8192]) -> usize {
    block.iter().filter(|b| **b != 0).count()
}

/// The labels of blocks 3 and 4 stand at bytes 42 and 56, and all else is zero.
#[test]
fn spelled(rt: HostRuntime) -> Result<(), Fail> {
    let labels = labels(rt.alloc())?;
    let block = table(&labels);
    assert!(rt;
        stands(
            &block,
            42,
            &[1, 16, 0, 0, 0, 1, 255, 255, 255, 255, 0, 0, 0, 1]
        )
    );
    assert!(rt; stands(&block, 56, &[9, 12, 0, 0, 0, 2, 0, 0, 0, 3, 0, 0, 0, 34]));
    assert_eq!(rt; others(&block), 13);
    Ok(())
}
