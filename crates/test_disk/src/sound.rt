use fo_image::{BLOCK, write_label, write_root, write_super};
use fo_sound::{fresh_label, fresh_root, fresh_super, root_label};
use std::test::Fail;

/// Whether the block begins with these bytes, and is zero from there on.
fn holds(block: &[u8; BLOCK], front: &[u8]) -> bool {
    let mut wanted = [0; BLOCK];
    for (to, from) in wanted.iter_mut().zip(front.iter()) {
        *to = *from;
    }
    *block == wanted
}

/// The super block and the root's label of a fresh device of 64 blocks.
#[test]
fn starts(rt: HostRuntime) {
    let mut block = [0; BLOCK];
    write_super(&fresh_super(64), &mut block);
    let wanted = b"FOSSILSB\0\x01\0\0\0\x01\0\0\0\x01\0\0\0\x03\0\0\0\x01\0\0\0\0\0";
    assert!(rt; holds(&block, wanted));
    let mut label = [0; 14];
    write_label(&fresh_label(64), &mut label);
    assert!(rt; label == [1, 16, 0, 0, 0, 1, 255, 255, 255, 255, 0, 0, 0, 1]);
    assert!(rt; root_label(&fresh_super(64)) == fresh_label(64));
}

/// Its root block, at time 7.
#[test]
fn ample(rt: HostRuntime) -> Result<(), Fail> {
    let mut block = [0; BLOCK];
    write_root(&fresh_root(rt.alloc(), 7)?, &mut block);
    let wanted = b"FOSSILRT\0\0\0\x01\0\0\0\x07\0\0\0\0\0\0\0\0\
        \0\0\0\0\x03\0\0\0\0\0\0\x20\0\0\0\0\0\0\0\0\0\0\0\0\0\0\0\0\0\0\0\0\0\0\0\0\0\0\0\0\
        \0\0\0\0\x01\0\0\0\0\0\0\x21\0\0\0\0\0\0\0\0\0\0\0\0\0\0\0\0\0\0\0\0\0\0\0\0\0\0\0\0\
        \0\x2c\0\0\0\0\0\0\0\0\0\0\0\0\0\0\0\0\x80\0\x01\xff\0\0\0\x07\0\0\0\x07\x01/\x03adm\x03adm\x03adm";
    assert!(rt; holds(&block, wanted));
    Ok(())
}
