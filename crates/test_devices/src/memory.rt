//! What memory holds between requests.
ghost use Rattle.std.specs.Prelude.{◌≡◌, ◌<◌, []};
ghost use Rattle.fo_mind.specs.MindParts.{parts};
ghost use Rattle.fo_mind.specs.Parts.{IsBlock, count_of};

use crate::minds::{Zeros, small};
use fo_base::{BLOCK, Memory};
use fo_cache::Cache;
use fo_image::Kind;
use fo_ports::BlockError;
use fo_reserving::reserve;
use fo_turning::{Flushed, flush_turn};
use std::alloc::Global;
use std::test::Fail;

/// A block of data is changed by a request.
fn put(cache: &mut Cache<Zeros>, at: u32) -> Result<(), BlockError>
    requires block { IsBlock (parts cache.old.mind [] 0) at }
    ensures first { (parts cache.new.mind [] 0).region.first ≡ (parts cache.old.mind [] 0).region.first }
    ensures count { count_of (parts cache.new.mind [] 0).region ≡ count_of (parts cache.old.mind [] 0).region }
{
    let mut block = [0; BLOCK];
    reserve(cache, 0, 1, 0)?;
    cache.get(at, Kind::Data(0), 0, &mut block)?;
    if !cache.mind.is_block(at) || cache.mind.label(at).epoch != cache.mind.high() {
        return Err(BlockError::Damaged(at));
    }
    cache.put_bytes(at, 0, b"hello");
    Ok(())
}

/// Whether flushing turns come to an end, so many at most.
fn flushes(cache: &mut Cache<Zeros>, turns: u32) -> bool {
    for _ in 0..turns {
        match flush_turn(cache) {
            Ok(Flushed::Idle) => return true,
            Ok(_) => (),
            Err(_) => return false,
        }
    }
    false
}

/// Whether a block that was changed is held after the next request has begun, and no more once it is settled.
fn comes_back(cache: &mut Cache<Zeros>) -> bool
    requires first { (parts cache.old.mind [] 0).region.first ≡ 3 }
    requires count { count_of (parts cache.old.mind [] 0).region ≡ 10 }
{
    let put = put(cache, 5).is_ok();
    let begun = reserve(cache, 0, 1, 0).is_ok();
    let held = cache.mind.buffers.is_held(5);
    let over = flushes(cache, 8);
    put && begun && held && over && !cache.mind.buffers.is_held(5)
}

/// Whether memory comes back in a new cache.
fn works(alloc: Global) -> Result<bool, Memory> {
    let mut cache = small(alloc)?;
    let back = comes_back(&mut cache);
    let _ = cache.close();
    Ok(back)
}

/// With ample memory a block that was changed is given up by the turn that settles it.
#[test]
fn ample(rt: HostRuntime) -> Result<(), Fail> {
    assert!(rt; works(rt.alloc())?);
    Ok(())
}
