//! Blocks that don't hash to their scores, and two blocks of one score.
use crate::blocks::{HELLO, empty, score, stored};
use fo_disk::MemDisk;
use hex::decode_to_slice;
use std::alloc::Global;
use std::test::Fail;
use venti_store::{Arena, ArenaError};

/// The hexadecimal digits of the front that two blocks of one score share, and of what they have behind it.
const FRONT: &str =
    "255044462d312e330a25e2e3cfd30a0a0a312030206f626a0a3c3c2f57696474682032203020522f4865696768742033203020522f547970652034203020522f537562747970652035203020522f46696c7465722036203020522f436f6c6f7253706163652037203020522f4c656e6774682038203020522f42697473506572436f6d706f6e656e7420383e3e0a73747265616d0affd8fffe00245348412d3120697320646561642121212121852fec092339759c39b1a1c63c4c97e1fffe01";

const ONE: &str =
    "7f46dc93a6b67e013b029aaa1db2560b45ca67d688c7f84b8c4c791fe02b3df614f86db1690901c56b45c1530afedfb76038e972722fe7ad728f0e4904e046c230570fe9d41398abe12ef5bc942be33542a4802d98b5d70f2a332ec37fac3514e74ddc0f2cc1a874cd0c78305a21566461309789606bd0bf3f98cda8044629a1";

const OTHER: &str =
    "7346dc9166b67e118f029ab621b2560ff9ca67cca8c7f85ba84c79030c2b3de218f86db3a90901d5df45c14f26fedfb3dc38e96ac22fe7bd728f0e45bce046d23c570feb141398bb552ef5a0a82be331fea48037b8b5d71f0e332edf93ac3500eb4ddc0decc1a864790c782c76215660dd309791d06bd0af3f98cda4bc4629b1";

/// The block with this end.
fn colliding(end: &str) -> Result<[u8; 320], Fail> {
    let mut block = [0; 320];
    decode_to_slice(FRONT, &mut block[..192])?;
    decode_to_slice(end, &mut block[192..])?;
    Ok(block)
}

/// Whether the arena names both blocks as it refuses the other one.
fn collides(arena: &mut Arena<MemDisk>, one: &[u8; 320], other: &[u8; 320]) -> bool {
    match arena.put(0, other) {
        Err(ArenaError::Collision(held, refused)) => {
            held.as_slice() == one.as_slice() && refused.as_slice() == other.as_slice()
        }
        _ => false,
    }
}

/// The second of two blocks of one score is refused under the kind of the first.
#[test]
fn collision(rt: HostRuntime) -> Result<(), Fail> {
    let one = colliding(ONE)?;
    let other = colliding(OTHER)?;
    let shared = score("f92d74e3874587aaf443d1db961d4e26dde13e9c")?;
    let mut arena = empty(rt.alloc())?;
    assert!(rt; arena.put(0, &one)? == shared);
    assert!(rt; collides(&mut arena, &one, &other));
    assert_eq!(rt; arena.used(), 1);
    assert!(rt; arena.put(1, &other)? == shared);
    Ok(())
}

/// Whether both calls say that block 2 is damaged.
fn is_damaged(alloc: Global, mut arena: Arena<MemDisk>) -> Result<bool, Fail> {
    let hello = score(HELLO)?;
    let mut into = Vec::new(alloc);
    let got = matches!(arena.get(&hello, 0, &mut into), Err(ArenaError::Damaged(2)));
    Ok(got && matches!(arena.put(0, b"hello"), Err(ArenaError::Damaged(2))))
}

/// A place that says the score of "hello" and has other bytes.
#[test]
fn damaged(rt: HostRuntime) -> Result<(), Fail> {
    let alloc = rt.alloc();
    assert!(rt; is_damaged(alloc, stored(alloc, b"jello", Vec::new(alloc))?)?);
    Ok(())
}
