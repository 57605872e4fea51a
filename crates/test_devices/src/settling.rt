//! All is settled (`fo_settling`).
use crate::caching::puts;
use crate::minds::small;
use fo_base::Memory;
use fo_cache::Cache;
use fo_disk::Disk;
use fo_settling::settle;
use std::alloc::Global;
use std::test::Fail;

/// Whether a block that was changed is dirty, and nothing is once all is settled.
fn settles<D: Disk>(cache: &mut Cache<D>) -> bool {
    let room = matches!(cache.make_room(0, 1, 0), Ok(true));
    let put = puts(cache);
    let dirty = cache.mind.order.dirty_len();
    let settled = settle(cache).is_ok();
    room && put && dirty == 1 && settled && cache.mind.order.dirty_len() == 0
}

/// Whether it is so in a new cache.
fn works(alloc: Global) -> Result<bool, Memory> {
    let mut cache = small(alloc)?;
    let settled = settles(&mut cache);
    let _ = cache.close();
    Ok(settled)
}

/// With ample memory all is settled.
#[test]
fn ample(rt: HostRuntime) -> Result<(), Fail> {
    assert!(rt; works(rt.alloc())?);
    Ok(())
}
