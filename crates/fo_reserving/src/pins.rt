//! Pins end, and blocks are given up.
ghost use Rattle.std.specs.Prelude.{◌≡◌, ◌<◌, ℕ, [], true, false};
ghost use Rattle.fo_closing.specs.of_mind.MindParts.{parts};
ghost use Rattle.fo_closing.specs.of_mind.Parts.{IsBlock, IsPinned, count_of};
ghost use Rattle.fo_closing.specs.of_mind.Turning.{may_release};
ghost use Rattle.fo_reserving.specs.Steps.{GivesAll, IsKept, Lets, Reserves, pins_below};

use fo_disk::Disk;
use fo_settling::Cache;

// Unpins a block, and gives it up where it may be; true where none was pinned.
fn unpin_next<D: Disk>(cache: &mut Cache<D>) -> bool
    ensures lets { Lets (parts cache.old.mind [] 0) (parts cache.new.mind [] 0) }
    ensures none { result ≡ true → (b : ℕ) → IsPinned (parts cache.new.mind [] 0).held b → ⊥ }
    ensures kept { (b : ℕ) → IsKept (parts cache.old.mind [] 0) b → IsKept (parts cache.new.mind [] 0) b }
    ensures less { result ≡ false → pins_below (parts cache.new.mind [] 0).held (count_of (parts cache.new.mind [] 0).region) < pins_below (parts cache.old.mind [] 0).held (count_of (parts cache.old.mind [] 0).region) }
    ensures device { cache.new.main ≡ cache.old.main }
{
    let Some(at) = cache.unpin() else {
        return true;
    };
    cache.release(at);
    false
}

// Ends all pins.
fn unpin_each<D: Disk>(cache: &mut Cache<D>)
    ensures lets { Lets (parts cache.old.mind [] 0) (parts cache.new.mind [] 0) }
    ensures none { (b : ℕ) → IsPinned (parts cache.new.mind [] 0).held b → ⊥ }
    ensures gone { (b : ℕ) → IsPinned (parts cache.old.mind [] 0).held b → may_release (parts cache.new.mind [] 0) b ≡ false }
    ensures device { cache.new.main ≡ cache.old.main }
{
    while !unpin_next(cache) {}
}

/// Ends all pins, and gives each block that was pinned up where it may be.
pub fn unpin_all<D: Disk>(cache: &mut Cache<D>)
    ensures none { (b : ℕ) → IsPinned (parts cache.new.mind [] 0).held b → ⊥ }
    ensures gone { (b : ℕ) → IsPinned (parts cache.old.mind [] 0).held b → may_release (parts cache.new.mind [] 0) b ≡ false }
    ensures lets { Lets (parts cache.old.mind [] 0) (parts cache.new.mind [] 0) }
    ensures leaves { Reserves (parts cache.old.mind (D.state cache.old.main).holds (D.faults cache.old.main)) (parts cache.new.mind (D.state cache.new.main).holds (D.faults cache.new.main)) }
    ensures device { cache.new.main ≡ cache.old.main }
{
    unpin_each(cache);
}

// Gives a block up where it may be.
fn release_one<D: Disk>(cache: &mut Cache<D>, at: u32)
    requires block { IsBlock (parts cache.old.mind [] 0) at }
    ensures gone { may_release (parts cache.new.mind [] 0) at ≡ false }
    ensures others { (b : ℕ) → may_release (parts cache.old.mind [] 0) b ≡ false → may_release (parts cache.new.mind [] 0) b ≡ false }
    ensures lets { Lets (parts cache.old.mind [] 0) (parts cache.new.mind [] 0) }
    ensures device { cache.new.main ≡ cache.old.main }
{
    if !cache.mind.buffers.is_held(at) {
        return;
    }
    cache.release(at);
}

// Gives each block up that may be.
fn release_each<D: Disk>(cache: &mut Cache<D>)
    ensures none { (b : ℕ) → IsBlock (parts cache.new.mind [] 0) b → may_release (parts cache.new.mind [] 0) b ≡ false }
    ensures lets { Lets (parts cache.old.mind [] 0) (parts cache.new.mind [] 0) }
    ensures device { cache.new.main ≡ cache.old.main }
{
    for at in cache.mind.first..cache.mind.count {
        release_one(cache, at);
    }
}

/// Gives each block up that may be: those that were settled, and that nobody has pinned since. It goes over all addresses.
pub fn release_all<D: Disk>(cache: &mut Cache<D>)
    ensures none { (b : ℕ) → IsBlock (parts cache.new.mind [] 0) b → may_release (parts cache.new.mind [] 0) b ≡ false }
    ensures lets { Lets (parts cache.old.mind [] 0) (parts cache.new.mind [] 0) }
    ensures leaves { Reserves (parts cache.old.mind (D.state cache.old.main).holds (D.faults cache.old.main)) (parts cache.new.mind (D.state cache.new.main).holds (D.faults cache.new.main)) }
    ensures device { cache.new.main ≡ cache.old.main }
{
    release_each(cache);
}

/// Ends all pins, and gives each block up that may be. It goes over all addresses.
pub fn give_up_all<D: Disk>(cache: &mut Cache<D>)
    ensures all { GivesAll (parts cache.new.mind [] 0) }
    ensures lets { Lets (parts cache.old.mind [] 0) (parts cache.new.mind [] 0) }
    ensures leaves { Reserves (parts cache.old.mind (D.state cache.old.main).holds (D.faults cache.old.main)) (parts cache.new.mind (D.state cache.new.main).holds (D.faults cache.new.main)) }
    ensures device { cache.new.main ≡ cache.old.main }
{
    unpin_all(cache);
    release_all(cache);
}
