//! Batches of an archive, one after another.
ghost use Rattle.std.specs.Prelude.{◌≡◌, ◌≤◌, IfOk};
ghost use Rattle.fo_arch.specs.Archive.{IsOf};

use fo_arch::Archive;
use fo_arch_hash::{Batch, hash_here};
use fo_devices::Devices;
use fo_disk::Disk;
use fo_image::Score;
use fo_ports::BlockError;
use std::alloc::Global;
use venti_store::Arena;

/// What comes of a batch.
#[derive(Clone, Copy, Debug, PartialEq, Eq)]
pub(crate) enum Next {
    /// It was stored.
    Stored,
    /// It was empty: all is stored.
    Whole,
    /// This block is damaged.
    Damaged(u32),
    /// It was refused for another cause.
    Refused,
}

/// Stores a batch of an archive, if it isn't empty.
fn stored<A: Disk>(alloc: Global, archive: &mut Archive, arena: &mut Arena<A>, batch: Batch) -> Next
    requires { IsOf archive.old batch }
    ensures { archive.new.root ≡ archive.old.root }
{
    if batch.pieces.is_empty() {
        return Next::Whole;
    }
    let Ok(hashed) = hash_here(alloc, batch) else {
        return Next::Refused;
    };
    match archive.store(arena, &hashed) {
        Ok(()) => Next::Stored,
        Err(_) => Next::Refused,
    }
}

/// Reads a batch of at most `n` blocks.
fn batch<D: Disk, A: Disk>(
    on: &mut Devices<D, A>,
    archive: &Archive,
    n: usize,
) -> Result<Batch, BlockError>
    requires root { archive.now.root ≡ 3 }
    requires some { 1 ≤ n }
    ensures { IfOk result (IsOf archive.now) }
{
    if !on.cache.mind.is_block(3) {
        return Err(BlockError::Memory);
    }
    archive.batch(on, n)
}

/// Reads a batch of at most `n` blocks, and stores it in the arena beside them.
pub(crate) fn step<D: Disk, A: Disk>(
    alloc: Global,
    on: &mut Devices<D, A>,
    archive: &mut Archive,
    n: usize,
) -> Next
    requires root { archive.old.root ≡ 3 }
    requires some { 1 ≤ n }
    ensures { archive.new.root ≡ 3 }
{
    match batch(on, archive, n) {
        Ok(batch) => stored(alloc, archive, &mut on.arena, batch),
        Err(BlockError::Damaged(at)) => Next::Damaged(at),
        Err(_) => Next::Refused,
    }
}

/// Stores batches of at most `n` blocks, until one isn't stored; at most 40.
pub(crate) fn run<D: Disk, A: Disk>(
    alloc: Global,
    on: &mut Devices<D, A>,
    archive: &mut Archive,
    n: usize,
) -> Next
    requires root { archive.old.root ≡ 3 }
    requires some { 1 ≤ n }
    ensures { archive.new.root ≡ 3 }
{
    for _ in 0..40 {
        let next = step(alloc, on, archive, n);
        if next != Next::Stored {
            return next;
        }
    }
    Next::Refused
}

/// The score of an archive, once all is stored in batches of at most `n` blocks.
pub(crate) fn archived<D: Disk, A: Disk>(
    alloc: Global,
    on: &mut Devices<D, A>,
    mut archive: Archive,
    n: usize,
) -> Option<Score>
    requires root { archive.root ≡ 3 }
    requires some { 1 ≤ n }
{
    if run(alloc, on, &mut archive, n) != Next::Whole || !archive.is_whole() {
        return None;
    }
    archive.finish(&mut on.arena).ok()
}
