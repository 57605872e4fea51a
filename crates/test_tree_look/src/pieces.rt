//! Pieces of leaves, and the way to a leaf (`fo_tree_read`).
use crate::reading::{first_pointer, held_tree};
use fo_image::{Pointer, Score};
use fo_ports_plain::PlainBlocks;
use std::test::Fail;

/// With ample memory a piece is copied by `copy_part`, and `pointer_at` and `address_at` say where the first leaf is: under a score.
#[test]
fn ample(rt: HostRuntime) -> Result<(), Fail> {
    let mut on = PlainBlocks::new(rt.alloc(), 2)?;
    on.hold(&Score([50; 20]), 1, &first_pointer())?;
    on.hold(&Score([51; 20]), 0, &[1; 8192])?;
    let tree = held_tree(Score([50; 20]), 1, 20000);
    let mut into = [7; 2];
    tree.copy_part(&mut on, 8190, &mut into)?;
    assert_eq!(rt; into, [1, 1]);
    assert_eq!(rt;
        tree.pointer_at(&mut on, 1, 0)?,
        Pointer::Score(Score([51; 20]))
    );
    assert_eq!(rt; tree.address_at(&mut on, 1, 0)?, None);
    Ok(())
}
