//! Archives of a root with two small files.
ghost use Rattle.std.specs.Prelude.{◌≡◌, ℕ, None, map};
ghost use Rattle.fo_arch_hash.specs.Batch.{kept};
ghost use Rattle.fo_arch_form.specs.Stored.{found, count_of};
ghost use Rattle.fo_arch_walk.specs.Pieces.{AreApart};
ghost use Rattle.fo_arch.specs.Archive.{IsOf};

use crate::forms::{FIRST, SECOND};
use crate::made::{changed, image};
use fo_arch::Archive;
use fo_arch_hash::{Batch, Piece, hash_here};
use fo_disk::{BLOCK, Disk, MemDisk};
use fo_image::Score;
use std::alloc::Global;
use std::test::Fail;
use venti_store::Arena;

/// An empty arena of 16 blocks, of which the device calls of these numbers fail. Its device had 5 calls once it is opened.
pub(crate) fn arena(alloc: Global, fails: Vec<u64>) -> Result<Arena<MemDisk>, Fail> {
    let mut disk = MemDisk::new(alloc, 16, fails)?;
    let mut head = [0; BLOCK];
    head[..8].copy_from_slice(b"FSARENA1");
    head[11] = 16;
    if 0 < disk.blocks()? {
        disk.write(0, &head)?;
    }
    disk.sync()?;
    opened(alloc, disk)
}

/// The arena on this disk.
fn opened(alloc: Global, disk: MemDisk) -> Result<Arena<MemDisk>, Fail> {
    match Arena::open(alloc, disk) {
        Ok(arena) => Ok(arena),
        Err(refused) => Err(Fail::from(refused.why)),
    }
}

/// Stores a batch of an archive and finishes it.
pub(crate) fn stored(
    alloc: Global,
    arena: &mut Arena<MemDisk>,
    archive: &mut Archive,
    batch: Batch,
) -> Option<Score>
    requires { IsOf archive.old batch }
    ensures { archive.new.root ≡ archive.old.root }
{
    let hashed = hash_here(alloc, batch).ok()?;
    archive.store(arena, &hashed).ok()?;
    if !archive.is_whole() {
        return None;
    }
    archive.finish(arena).ok()
}

/// The score of a new archive with these pieces.
fn archived(
    alloc: Global,
    arena: &mut Arena<MemDisk>,
    mut archive: Archive,
    epoch: u32,
    pieces: Vec<Piece>,
) -> Option<Score>
    requires epoch { archive.epoch ≡ epoch }
    requires none { (at kind : ℕ) → found archive.done at kind ≡ None }
    requires count { count_of archive.done ≡ 0 }
    requires apart { AreApart (map kept pieces.items) }
{
    let batch = Batch {
        epoch,
        stored: 0,
        pieces,
    };
    stored(alloc, arena, &mut archive, batch)
}

/// Whether the first archive has its score, and so many places are used then.
fn first(alloc: Global, arena: &mut Arena<MemDisk>, used: u32) -> bool {
    let archive = Archive::begin(alloc, 9, 77, 2, None);
    match image(alloc) {
        Ok(pieces) => archived(alloc, arena, archive, 9, pieces) == Some(FIRST)
            && arena.used() == used,
        Err(_) => false,
    }
}

/// Whether the second archive has its score, and eleven places are used then.
fn second(alloc: Global, arena: &mut Arena<MemDisk>) -> bool {
    let archive = Archive::begin(alloc, 10, 78, 2, Some(FIRST));
    match changed(alloc) {
        Ok(pieces) => archived(alloc, arena, archive, 10, pieces) == Some(SECOND)
            && arena.used() == 11,
        Err(_) => false,
    }
}

/// A root with two small files takes six places; once a byte of one file was changed, five of its blocks are new. With ample memory.
#[test]
fn ample(rt: HostRuntime) -> Result<(), Fail> {
    let alloc = rt.alloc();
    let mut arena = arena(alloc, Vec::new(alloc))?;
    assert!(rt; first(alloc, &mut arena, 6));
    assert!(rt; second(alloc, &mut arena));
    Ok(())
}

/// Whether an archive fails, and then goes through, and is held once the arena is opened again.
fn loses_nothing(alloc: Global, mut arena: Arena<MemDisk>) -> Result<bool, Fail> {
    let failed = !first(alloc, &mut arena, 6);
    let then = first(alloc, &mut arena, 6);
    let mut again = opened(alloc, arena.close())?;
    Ok(failed && then && again.used() == 6 && first(alloc, &mut again, 6))
}

/// Each call of the arena's device fails in turn: six blocks, their lines, a sync, the head, and a sync.
#[test]
fn each_fails(rt: HostRuntime) -> Result<(), Fail> {
    let alloc = rt.alloc();
    for call in 5..15 {
        assert!(rt; loses_nothing(alloc, arena(alloc, vec![in alloc; call]?)?)?);
    }
    Ok(())
}

/// Whether the second archive fails after the first, and then goes through, and both are held once the arena is opened again.
fn loses_neither(alloc: Global, mut arena: Arena<MemDisk>) -> Result<bool, Fail> {
    let before = first(alloc, &mut arena, 6);
    let failed = !second(alloc, &mut arena);
    let then = second(alloc, &mut arena);
    let mut again = opened(alloc, arena.close())?;
    let held = second(alloc, &mut again) && first(alloc, &mut again, 11);
    Ok(before && failed && then && held)
}

/// Each call of the second archive fails in turn: five blocks, their lines, a sync, the head, and a sync. The leaf that is held is at hand.
#[test]
fn each_fails_later(rt: HostRuntime) -> Result<(), Fail> {
    let alloc = rt.alloc();
    for call in 15..24 {
        assert!(rt; loses_neither(alloc, arena(alloc, vec![in alloc; call]?)?)?);
    }
    Ok(())
}

/// Puts so many blocks of one byte.
fn fill(arena: &mut Arena<MemDisk>, blocks: u8) -> Result<(), Fail> {
    for byte in 0..blocks {
        arena.put(0, &[byte])?;
    }
    Ok(())
}

/// Of a batch of five pieces an arena with room for two takes the first two alone.
#[test]
fn full(rt: HostRuntime) -> Result<(), Fail> {
    let alloc = rt.alloc();
    let mut arena = arena(alloc, Vec::new(alloc))?;
    fill(&mut arena, 12)?;
    assert!(rt; !first(alloc, &mut arena, 6));
    assert!(rt; arena.used() == 14);
    Ok(())
}
