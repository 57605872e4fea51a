//! What a request left pinned is let go.
ghost use Rattle.std.specs.Prelude.{◌≡◌, ◌<◌, ℕ, [], true, false};
ghost use Rattle.fo_mind.specs.MindParts.{parts};
ghost use Rattle.fo_mind.specs.Parts.{IsPinned, count_of};
ghost use Rattle.fo_turning.specs.Freed.{Loosens, pins_below};

use fo_cache::Cache;
use fo_disk::Disk;

// Unpins a block, which is given up where it may be, and answers whether none was pinned.
fn unpin_next<D: Disk>(cache: &mut Cache<D>) -> bool
    ensures none { result ≡ true → (b : ℕ) → IsPinned (parts cache.new.mind [] 0).held b → ⊥ }
    ensures less { result ≡ false → pins_below (count_of (parts cache.old.mind [] 0).region) (parts cache.new.mind [] 0).held < pins_below (count_of (parts cache.old.mind [] 0).region) (parts cache.old.mind [] 0).held }
    ensures loosens { Loosens (parts cache.old.mind (D.state cache.old.main).holds (D.faults cache.old.main)) (parts cache.new.mind (D.state cache.new.main).holds (D.faults cache.new.main)) }
    ensures device { cache.new.main ≡ cache.old.main }
{
    let Some(at) = cache.unpin() else {
        return true;
    };
    cache.release(at);
    false
}

/// Unpins all blocks. Those that the device has as memory has them are given up.
pub fn unpin_all<D: Disk>(cache: &mut Cache<D>)
    ensures none { (b : ℕ) → IsPinned (parts cache.new.mind [] 0).held b → ⊥ }
    ensures loosens { Loosens (parts cache.old.mind (D.state cache.old.main).holds (D.faults cache.old.main)) (parts cache.new.mind (D.state cache.new.main).holds (D.faults cache.new.main)) }
    ensures device { cache.new.main ≡ cache.old.main }
{
    while !unpin_next(cache) {}
}
