//! Turns and clearings follow one another while nothing is pinned, until neither is left.
ghost use Rattle.std.specs.Prelude.{◌≡◌, ◌+◌, ◌<◌, ◌≤◌, ℕ, [], true, false, length, None, OnOk, IfOk, IfErr};
ghost use Rattle.fo_base.specs.Cause.{Rose};
ghost use Rattle.fo_order.specs.Turns.{IsQuiet};
ghost use Rattle.fo_ports.specs.Causes.{Caused};
ghost use Rattle.fo_waits.specs.Listed.{Clears, ClearsAfter};
ghost use Rattle.fo_mind.specs.Due.{IsDueSlot, is_over};
ghost use Rattle.fo_mind.specs.MindParts.{parts};
ghost use Rattle.fo_mind.specs.Parts.{IsPinned};
ghost use Rattle.fo_cache.specs.Supers.{IsFault};
ghost use Rattle.fo_cache.specs.Work.{AtMost, calls_left};
ghost use Rattle.fo_reserving.specs.of_settling.Clearings.{Clearings, Lasts};
ghost use Rattle.fo_opening.specs.Ending.{Ending};
ghost use Rattle.fo_opening.specs.Finished.{Settled};

use crate::turns::take_turns;
use fo_cache::Cache;
use fo_disk::Disk;
use fo_ports::BlockError;

// Takes all turns, with nothing in doubt.
fn settle_sure<D: Disk>(cache: &mut Cache<D>) -> Result<(), BlockError>
    requires free { (b : ℕ) → IsPinned (parts cache.old.mind [] 0).held b → ⊥ }
    ensures quiet { OnOk result (IsQuiet (parts cache.new.mind [] 0).turns) }
    ensures certain { OnOk result ((parts cache.new.mind [] 0).doubt ≡ None) }
    ensures clears { (parts cache.new.mind [] 0).clears ≡ (parts cache.old.mind [] 0).clears }
    ensures ending { Ending (D.state cache.old.main) (D.state cache.new.main) (D.faults cache.old.main) (D.faults cache.new.main) (parts cache.old.mind [] 0) (parts cache.new.mind [] 0) }
    ensures lasts { Lasts (parts cache.old.mind (D.state cache.old.main).holds (D.faults cache.old.main)) (parts cache.new.mind (D.state cache.new.main).holds (D.faults cache.new.main)) }
    ensures calls { AtMost (calls_left (parts cache.old.mind [] 0)) (D.calls cache.old.main) (D.calls cache.new.main) }
    ensures spent { OnOk result (D.calls cache.new.main + calls_left (parts cache.new.mind [] 0) ≤ D.calls cache.old.main + calls_left (parts cache.old.mind [] 0)) }
    ensures size { D.size cache.new.main ≡ D.size cache.old.main }
    ensures cause { IfErr result (Caused ⊥ (λ b. ⊥) (Rose (D.faults cache.old.main) (D.faults cache.new.main)) ⊥) }
    ensures failed { IfErr result IsFault }
    ensures later { D.faults cache.old.main ≤ D.faults cache.new.main }
{
    cache.settle_doubt()?;
    take_turns(cache)
}

// Clears a slot that waits for a settled leaf.
fn clear_slot<D: Disk>(cache: &mut Cache<D>, at: u32, i: u32)
    requires waits { Clears (parts cache.old.mind [] 0).clears at i }
    requires due { IsDueSlot (parts cache.old.mind [] 0).turns (parts cache.old.mind [] 0).clears at i }
    ensures clears { Clearings (parts cache.old.mind (D.state cache.old.main).holds (D.faults cache.old.main)) (parts cache.new.mind (D.state cache.new.main).holds (D.faults cache.new.main)) }
    ensures ending { Ending (D.state cache.old.main) (D.state cache.new.main) (D.faults cache.old.main) (D.faults cache.new.main) (parts cache.old.mind [] 0) (parts cache.new.mind [] 0) }
    ensures less { length (parts cache.new.mind [] 0).clears < length (parts cache.old.mind [] 0).clears }
    ensures left { calls_left (parts cache.new.mind [] 0) ≤ calls_left (parts cache.old.mind [] 0) }
    ensures device { cache.new.main ≡ cache.old.main }
{
    cache.clear_due(at, i);
}

// Clears the next slot whose leaf is settled, and answers whether there was none.
fn clear_next<D: Disk>(cache: &mut Cache<D>) -> bool
    ensures none { result ≡ true → (b j leaf : ℕ) → ClearsAfter (parts cache.old.mind [] 0).clears b j leaf → is_over (parts cache.old.mind [] 0).turns leaf ≡ false }
    ensures same { result ≡ true → parts cache.new.mind [] 0 ≡ parts cache.old.mind [] 0 }
    ensures clears { Clearings (parts cache.old.mind (D.state cache.old.main).holds (D.faults cache.old.main)) (parts cache.new.mind (D.state cache.new.main).holds (D.faults cache.new.main)) }
    ensures ending { Ending (D.state cache.old.main) (D.state cache.new.main) (D.faults cache.old.main) (D.faults cache.new.main) (parts cache.old.mind [] 0) (parts cache.new.mind [] 0) }
    ensures less { result ≡ false → length (parts cache.new.mind [] 0).clears < length (parts cache.old.mind [] 0).clears }
    ensures fewer { length (parts cache.new.mind [] 0).clears ≤ length (parts cache.old.mind [] 0).clears }
    ensures left { calls_left (parts cache.new.mind [] 0) ≤ calls_left (parts cache.old.mind [] 0) }
    ensures device { cache.new.main ≡ cache.old.main }
{
    let Some((at, i)) = cache.next_due() else {
        return true;
    };
    clear_slot(cache, at, i);
    false
}

// Clears each slot whose leaf is settled.
fn clear_all<D: Disk>(cache: &mut Cache<D>)
    ensures clears { Clearings (parts cache.old.mind (D.state cache.old.main).holds (D.faults cache.old.main)) (parts cache.new.mind (D.state cache.new.main).holds (D.faults cache.new.main)) }
    ensures ending { Ending (D.state cache.old.main) (D.state cache.new.main) (D.faults cache.old.main) (D.faults cache.new.main) (parts cache.old.mind [] 0) (parts cache.new.mind [] 0) }
    ensures fewer { length (parts cache.new.mind [] 0).clears ≤ length (parts cache.old.mind [] 0).clears }
    ensures left { calls_left (parts cache.new.mind [] 0) ≤ calls_left (parts cache.old.mind [] 0) }
    ensures device { cache.new.main ≡ cache.old.main }
{
    while !clear_next(cache) {}
}

// Takes all turns, and then clears the slots whose leaves are settled; true where none was left, so that all is settled.
fn settle_round<D: Disk>(cache: &mut Cache<D>) -> Result<bool, BlockError>
    requires free { (b : ℕ) → IsPinned (parts cache.old.mind [] 0).held b → ⊥ }
    ensures settled { IfOk result (λ b. b ≡ true → Settled (parts cache.new.mind [] 0)) }
    ensures less { IfOk result (λ b. b ≡ false → length (parts cache.new.mind [] 0).clears < length (parts cache.old.mind [] 0).clears) }
    ensures clears { Clearings (parts cache.old.mind (D.state cache.old.main).holds (D.faults cache.old.main)) (parts cache.new.mind (D.state cache.new.main).holds (D.faults cache.new.main)) }
    ensures ending { Ending (D.state cache.old.main) (D.state cache.new.main) (D.faults cache.old.main) (D.faults cache.new.main) (parts cache.old.mind [] 0) (parts cache.new.mind [] 0) }
    ensures calls { AtMost (calls_left (parts cache.old.mind [] 0)) (D.calls cache.old.main) (D.calls cache.new.main) }
    ensures spent { OnOk result (D.calls cache.new.main + calls_left (parts cache.new.mind [] 0) ≤ D.calls cache.old.main + calls_left (parts cache.old.mind [] 0)) }
    ensures size { D.size cache.new.main ≡ D.size cache.old.main }
    ensures cause { IfErr result (Caused ⊥ (λ b. ⊥) (Rose (D.faults cache.old.main) (D.faults cache.new.main)) ⊥) }
    ensures failed { IfErr result IsFault }
    ensures later { D.faults cache.old.main ≤ D.faults cache.new.main }
{
    settle_sure(cache)?;
    if clear_next(cache) {
        return Ok(true);
    }
    clear_all(cache);
    Ok(false)
}

/// Takes turns and clears slots until neither is left, where nothing is pinned. It wants no memory.
pub(crate) fn settle_all<D: Disk>(cache: &mut Cache<D>) -> Result<(), BlockError>
    requires free { (b : ℕ) → IsPinned (parts cache.old.mind [] 0).held b → ⊥ }
    ensures settled { OnOk result (Settled (parts cache.new.mind [] 0)) }
    ensures clears { Clearings (parts cache.old.mind (D.state cache.old.main).holds (D.faults cache.old.main)) (parts cache.new.mind (D.state cache.new.main).holds (D.faults cache.new.main)) }
    ensures ending { Ending (D.state cache.old.main) (D.state cache.new.main) (D.faults cache.old.main) (D.faults cache.new.main) (parts cache.old.mind [] 0) (parts cache.new.mind [] 0) }
    ensures calls { AtMost (calls_left (parts cache.old.mind [] 0)) (D.calls cache.old.main) (D.calls cache.new.main) }
    ensures size { D.size cache.new.main ≡ D.size cache.old.main }
    ensures cause { IfErr result (Caused ⊥ (λ b. ⊥) (Rose (D.faults cache.old.main) (D.faults cache.new.main)) ⊥) }
    ensures failed { IfErr result IsFault }
    ensures later { D.faults cache.old.main ≤ D.faults cache.new.main }
{
    while !settle_round(cache)? {}
    Ok(())
}
