//! An end where a removal is queued.
ghost use Rattle.std.specs.Prelude.{◌≡◌};

use crate::opening::{fresh, has};
use fo_buffers::Block;
use fo_cache::Cache;
use fo_disk::{Disk, MemDisk};
use fo_ending::end;
use fo_ports::BlockError;
use fo_reserving::reserve;
use std::alloc::Global;
use std::test::Fail;

/// Queues the root, which no end closes.
fn queue_root<D: Disk>(cache: &mut Cache<D>) -> Result<(), BlockError> {
    reserve(cache, 0, 0, 1)?;
    let root = cache.mind.root();
    cache.retire(root, 1, 1);
    Ok(())
}

/// Ends a cache, and answers what went wrong.
fn end_whole<D: Disk>(alloc: Global, cache: &mut Cache<D>) -> Result<(), BlockError> {
    let Ok(spare) = Block::new(alloc) else {
        return Err(BlockError::Memory);
    };
    let Ok(other) = Block::new(alloc) else {
        return Err(BlockError::Memory);
    };
    end(cache, spare, other)
}

/// Whether a cache ends with nothing queued, where the root was.
fn ends_queued<D: Disk>(alloc: Global, cache: &mut Cache<D>) -> bool {
    let queued = queue_root(cache).is_ok() && cache.mind.queued() == 1;
    queued && end_whole(alloc, cache).is_ok() && cache.mind.queued() == 0
}

/// Whether a cache is as it was, after it ended.
fn is_same(cache: Cache<MemDisk>, ended: bool) -> bool {
    ended && has(&cache, 60, 1)
}

/// Whether a cache ends, and is as it was.
fn ends(alloc: Global, mut cache: Cache<MemDisk>) -> bool {
    let ended = ends_queued(alloc, &mut cache);
    is_same(cache, ended)
}

/// With ample memory.
#[test]
fn ample(rt: HostRuntime) -> Result<(), Fail> {
    let alloc = rt.alloc();
    let cache = fresh(alloc, Vec::new(alloc))?;
    let whole = ends(alloc, cache);
    assert!(rt; whole);
    Ok(())
}
