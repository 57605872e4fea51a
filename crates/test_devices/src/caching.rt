//! Calls on a cache (`fo_cache`).
use crate::minds::small;
use fo_base::{BLOCK, Memory};
use fo_cache::Cache;
use fo_disk::Disk;
use fo_image::Kind;
use std::alloc::Global;
use std::test::Fail;

/// Makes room for a block, two pins and a removal.
fn has_room<D: Disk>(cache: &mut Cache<D>) -> bool {
    matches!(cache.make_room(1, 2, 1), Ok(true))
}

/// Whether block 5, a leaf of data, is brought into memory.
fn pins<D: Disk>(cache: &mut Cache<D>) -> bool {
    cache.mind.is_block(5) && cache.pin(5, Kind::Data(0), 0).is_ok() && cache.mind.is_pinned(5)
}

/// Whether block 5 is got, and has only zeros, and takes other bytes.
pub fn puts<D: Disk>(cache: &mut Cache<D>) -> bool {
    let mut block = [7; BLOCK];
    if !cache.mind.is_block(5) || cache.get(5, Kind::Data(0), 0, &mut block).is_err() {
        return false;
    }
    if !cache.mind.is_pinned(5) || !cache.mind.is_block(5) {
        return false;
    }
    if cache.mind.label(5).epoch != cache.mind.high() {
        return false;
    }
    cache.put_bytes(5, 0, b"hello");
    block.iter().all(|b| *b == 0)
}

/// Whether there is room for the turn of block 5, and all is settled in turns.
fn settles<D: Disk>(cache: &mut Cache<D>) -> bool {
    let dirty = cache.mind.order.dirty_len();
    cache.keep_turn_of(5).is_ok()
        && cache.settle_turns().is_ok()
        && dirty == 1
        && cache.mind.order.dirty_len() == 0
}

/// Whether the first file number is granted, for which another super block is written.
fn numbers<D: Disk>(cache: &mut Cache<D>) -> bool {
    matches!(cache.number(), Ok(Some(1)))
}

/// Whether each call that may want memory is answered.
fn works(alloc: Global) -> Result<bool, Memory> {
    let mut cache = small(alloc)?;
    let all = has_room(&mut cache)
        && pins(&mut cache)
        && puts(&mut cache)
        && settles(&mut cache)
        && numbers(&mut cache);
    let _ = cache.close();
    Ok(all)
}

/// With ample memory `make_room`, `pin`, `get`, `keep_turn_of`, `settle_turns` and `number` do what they say.
#[test]
fn ample(rt: HostRuntime) -> Result<(), Fail> {
    assert!(rt; works(rt.alloc())?);
    Ok(())
}
