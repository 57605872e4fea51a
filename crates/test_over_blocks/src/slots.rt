//! Slots in the bytes of blocks, and blocks of their formats.
ghost use Rattle.std.specs.Prelude.{◌≡◌, ◌+◌, ◌≤◌, length};

use fo_crash::Slot;
use fo_image::{BLOCK, Entry, Kind, Pointer};
use fo_slots::{has_slots, is_formed, put_bytes_into, put_slot_into, read_slot};
use std::test::Fail;

fn zeros() -> [u8; BLOCK] {
    [0; BLOCK]
}

fn put(block: &mut [u8], at: usize, bytes: &[u8])
    requires { at + length bytes.now ≤ length block.old }
{
    block[at..at + bytes.len()].copy_from_slice(bytes);
}

/// Address 70.
const POINTER: [u8; 20] = [0, 0, 0, 0, 0, 0, 0, 0, 0, 0, 0, 0, 0, 0, 0, 0, 0, 0, 0, 71];

/// Generation 3, active, depth 1, tag 40, size 9000, top at 70.
const ENTRY: [u8; 40] = [
    0, 0, 0, 3, 1, 1, 0, 0, 0, 0, 0, 40, 0, 0, 0, 0, 0, 0, 35, 40, 0, 0, 0, 0, 0, 0, 0, 0, 0, 0, 0,
    0, 0, 0, 0, 0, 0, 0, 0, 71,
];

/// The record of file 7, at slot 7 and generation 1, of the name `a` and of three users `adm`.
const RECORD: [u8; 44] = [
    0, 44, 0, 0, 0, 7, 0, 0, 0, 7, 0, 0, 0, 1, 0, 0, 0, 0, 0, 0, 1, 164, 0, 0, 0, 5, 0, 0, 0, 6, 1,
    97, 3, 97, 100, 109, 3, 97, 100, 109, 3, 97, 100, 109,
];

/// The record of a root directory.
const ROOT: [u8; 44] = [
    0, 44, 0, 0, 0, 0, 0, 0, 0, 0, 0, 0, 0, 0, 0, 0, 0, 0, 0, 0, 1, 164, 0, 0, 0, 5, 0, 0, 0, 6, 1,
    47, 3, 97, 100, 109, 3, 97, 100, 109, 3, 97, 100, 109,
];

fn entry() -> Entry {
    Entry {
        generation: 3,
        active: true,
        dir: false,
        depth: 1,
        tag: 40,
        size: 9000,
        top: Pointer::Local(70),
    }
}

#[test]
fn read(rt: HostRuntime) -> Result<(), Fail> {
    let mut inner = zeros();
    put(&mut inner, 60, &POINTER);
    let mut leaf = zeros();
    put(&mut leaf, 80, &ENTRY);
    let mut root = zeros();
    put(&mut root, 16, &[0, 0, 0, 4, 0, 0, 0, 9]);
    assert!(rt; read_slot(Kind::Data(1), &inner, 3) == Some(Slot::Pointer(Pointer::Local(70))));
    assert!(rt; read_slot(Kind::Dir(0), &leaf, 2) == Some(Slot::Entry(entry())));
    assert!(rt; read_slot(Kind::Root, &root, 2) == Some(Slot::Prev(4, 9)));
    assert!(rt; has_slots(Kind::Dir(0), &leaf));
    put(&mut leaf, 86, &[1]);
    assert!(rt; read_slot(Kind::Dir(0), &leaf, 2).is_none());
    assert!(rt; !has_slots(Kind::Dir(0), &leaf));
    Ok(())
}

#[test]
fn written(rt: HostRuntime) -> Result<(), Fail> {
    let mut inner = zeros();
    put_slot_into(
        Kind::Data(1),
        3,
        &Slot::Pointer(Pointer::Local(70)),
        &mut inner,
    );
    assert!(rt; &inner[60..80] == POINTER.as_slice());
    let mut root = zeros();
    put_slot_into(Kind::Root, 2, &Slot::Prev(4, 9), &mut root);
    put_bytes_into(Kind::Root, 12, &[0, 0, 0, 5], &mut root);
    assert!(rt; &root[12..24] == [0, 0, 0, 5, 0, 0, 0, 4, 0, 0, 0, 9].as_slice());
    Ok(())
}

/// A leaf of one record of 44 bytes; rank 16 is that of a leaf of records, and rank 17 isn't.
#[test]
fn leaves(rt: HostRuntime) -> Result<(), Fail> {
    let mut leaf = zeros();
    assert!(rt; is_formed(Kind::Data(0), 16, &leaf));
    put(&mut leaf, 0, &[0, 1, 0, 44]);
    put(&mut leaf, 4, &RECORD);
    assert!(rt; is_formed(Kind::Data(0), 16, &leaf));
    put(&mut leaf, 48, &[1]);
    assert!(rt; !is_formed(Kind::Data(0), 16, &leaf));
    assert!(rt; is_formed(Kind::Data(0), 17, &leaf));
    Ok(())
}

/// A root block of epoch 1, with anything where its slots are.
#[test]
fn roots(rt: HostRuntime) -> Result<(), Fail> {
    let mut root = zeros();
    put(&mut root, 0, b"FOSSILRT");
    put(&mut root, 8, &[0, 0, 0, 1, 0, 0, 0, 5, 9, 9, 9, 9]);
    put(&mut root, 104, &ROOT);
    assert!(rt; is_formed(Kind::Root, 0, &root));
    put(&mut root, 109, &[1]);
    assert!(rt; !is_formed(Kind::Root, 0, &root));
    Ok(())
}
