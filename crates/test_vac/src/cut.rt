//! What is stored of a block, and the block made of it again.
ghost use Rattle.std.specs.Prelude.{◌≡◌, length};

use fo_vacput::{EMPTY, cut, grow};

/// A block of data, of whose bytes the last that is not zero is the one before this place.
fn data(end: usize) -> [u8; 8192] {
    let mut block = [0; 8192];
    if end <= 8192 {
        block[..end].fill(7);
    }
    block
}

/// A block of nil pointers in an archive.
fn nil() -> [u8; 8192] {
    let mut block = [0; 8192];
    for pointer in block.chunks_exact_mut(20) {
        pointer.copy_from_slice(&EMPTY.0);
    }
    block
}

/// The same with one of its bytes changed.
fn changed(at: usize, byte: u8) -> [u8; 8192] {
    let mut block = nil();
    if at < 8192 {
        block[at] = byte;
    }
    block
}

/// What `grow` makes of what `cut` leaves.
fn again(kind: u8, block: &[u8; 8192]) -> [u8; 8192]
    requires { length block.now ≡ 8192 }
    ensures { result ≡ block.now }
{
    let left = cut(kind, block);
    let mut again = [0xff; 8192];
    grow(kind, &block[..left], &mut again);
    again
}

/// Whether so much is left of the block, and the block is made of it again.
fn leaves(kind: u8, block: [u8; 8192], left: usize) -> bool {
    cut(kind, &block) == left && again(kind, &block) == block
}

#[test]
fn zeros_are_left_out(rt: HostRuntime) {
    assert!(rt; leaves(0, data(5), 5));
    assert!(rt; leaves(8, data(0), 0));
    assert!(rt; leaves(17, data(8192), 8192));
    assert!(rt; leaves(1, data(5), 8180));
}

#[test]
fn nil_pointers_are_left_out(rt: HostRuntime) {
    assert!(rt; leaves(1, nil(), 0));
    assert!(rt; leaves(12, changed(0, 1), 20));
    assert!(rt; leaves(4, changed(8179, 1), 8180));
    assert!(rt;
        leaves(9, changed(39, 1), 40),
        "a score that differs in its last byte"
    );
    assert!(rt; leaves(0, nil(), 8180), "data that looks like pointers");
    assert!(rt; leaves(2, changed(8191, 1), 8192), "no block of pointers");
}

#[test]
fn a_root_is_stored_whole(rt: HostRuntime) {
    let root = [0; 300];
    assert!(rt; cut(16, &root) == 300);
    let mut again = [1; 300];
    grow(16, &root, &mut again);
    assert!(rt; again == root);
}
