//! Turns and clearings, until neither is left.
ghost use Rattle.std.specs.Prelude.{◌≡◌, ◌⊎◌, ◌+◌, ◌<◌, ◌≤◌, ℕ, [], true, false, length, OnOk, IfOk, IfErr};
ghost use Rattle.fo_base.specs.Cause.{Rose};
ghost use Rattle.fo_ports.specs.of_crash.Steps.{AllAre};
ghost use Rattle.fo_order.specs.Turns.{IsQuiet};
ghost use Rattle.fo_ports.specs.Causes.{Caused};
ghost use Rattle.fo_ports.specs.State.{IsUnlinked, Rests, StaysKnown};
ghost use Rattle.fo_facts.specs.Known.{fact_at};
ghost use Rattle.fo_cache.specs.of_waits.Listed.{Clears};
ghost use Rattle.fo_cache.specs.of_mind.MindParts.{parts};
ghost use Rattle.fo_cache.specs.of_mind.Parts.{CacheKeeps, IsNewborn, IsPinned, state_of};
ghost use Rattle.fo_cache.specs.Called.{no_more};
ghost use Rattle.fo_cache.specs.Easing.{Eases};
ghost use Rattle.fo_cache.specs.Work.{AtMost, calls_left};
ghost use Rattle.fo_settling.specs.Clearings.{Clearings};
ghost use Rattle.fo_settling.specs.Costs.{Costs, Fewer, NoneDue, Spends, Touches, most_calls, most_writes, none_left};

use fo_cache::Cache;
use fo_disk::Disk;
use fo_ports::BlockError;

// Clears the next slot whose leaf is settled, and answers whether there was none.
fn clear_next<D: Disk>(cache: &mut Cache<D>) -> bool
    ensures eases { Eases (parts cache.old.mind (D.state cache.old.main).holds (D.faults cache.old.main)) (parts cache.new.mind (D.state cache.new.main).holds (D.faults cache.new.main)) }
    ensures clears { Clearings (parts cache.old.mind (D.state cache.old.main).holds (D.faults cache.old.main)) (parts cache.new.mind (D.state cache.new.main).holds (D.faults cache.new.main)) }
    ensures less { result ≡ false → length (parts cache.new.mind [] 0).clears < length (parts cache.old.mind [] 0).clears }
    ensures same { result ≡ true → cache.new ≡ cache.old }
    ensures left { calls_left (parts cache.new.mind [] 0) ≤ calls_left (parts cache.old.mind [] 0) }
    ensures touches { Touches (parts cache.old.mind [] 0) (parts cache.new.mind [] 0) }
    ensures none { result ≡ true → NoneDue (parts cache.new.mind [] 0) }
    ensures device { cache.new.main ≡ cache.old.main }
{
    let Some((at, i)) = cache.next_due() else {
        return true;
    };
    cache.clear_due(at, i);
    false
}

// Clears each slot whose leaf is settled.
fn clear_all<D: Disk>(cache: &mut Cache<D>)
    ensures eases { Eases (parts cache.old.mind (D.state cache.old.main).holds (D.faults cache.old.main)) (parts cache.new.mind (D.state cache.new.main).holds (D.faults cache.new.main)) }
    ensures clears { Clearings (parts cache.old.mind (D.state cache.old.main).holds (D.faults cache.old.main)) (parts cache.new.mind (D.state cache.new.main).holds (D.faults cache.new.main)) }
    ensures fewer { length (parts cache.new.mind [] 0).clears ≤ length (parts cache.old.mind [] 0).clears }
    ensures left { calls_left (parts cache.new.mind [] 0) ≤ calls_left (parts cache.old.mind [] 0) }
    ensures touches { Touches (parts cache.old.mind [] 0) (parts cache.new.mind [] 0) }
    ensures none { NoneDue (parts cache.new.mind [] 0) }
    ensures device { cache.new.main ≡ cache.old.main }
{
    while !clear_next(cache) {}
}

// Takes all turns, and then clears the slots whose leaves are settled; true where none was left, so that nothing waits any more.
fn settle_round<D: Disk>(cache: &mut Cache<D>) -> Result<bool, BlockError>
    ensures eases { Eases (parts cache.old.mind (D.state cache.old.main).holds (D.faults cache.old.main)) (parts cache.new.mind (D.state cache.new.main).holds (D.faults cache.new.main)) }
    ensures clears { Clearings (parts cache.old.mind (D.state cache.old.main).holds (D.faults cache.old.main)) (parts cache.new.mind (D.state cache.new.main).holds (D.faults cache.new.main)) }
    ensures done { IfOk result (λ b. b ≡ true → IsQuiet (parts cache.new.mind [] 0).turns × ((b j : ℕ) → Clears (parts cache.new.mind [] 0).clears b j → ⊥)) }
    ensures less { IfOk result (λ b. b ≡ false → length (parts cache.new.mind [] 0).clears < length (parts cache.old.mind [] 0).clears) }
    ensures calls { AtMost (calls_left (parts cache.old.mind [] 0)) (D.calls cache.old.main) (D.calls cache.new.main) }
    ensures spent { OnOk result (D.calls cache.new.main + calls_left (parts cache.new.mind [] 0) ≤ D.calls cache.old.main + calls_left (parts cache.old.mind [] 0)) }
    ensures made { Spends (D.state cache.old.main) (D.state cache.new.main) (D.calls cache.old.main) (D.calls cache.new.main) (parts cache.old.mind [] 0) none_left no_more }
    ensures spends { OnOk result (Spends (D.state cache.old.main) (D.state cache.new.main) (D.calls cache.old.main) (D.calls cache.new.main) (parts cache.old.mind [] 0) (most_calls (parts cache.new.mind [] 0)) (most_writes (parts cache.new.mind [] 0))) }
    ensures waits { OnOk result (Fewer (parts cache.old.mind [] 0) (parts cache.new.mind [] 0)) }
    ensures size { D.size cache.new.main ≡ D.size cache.old.main }
    ensures later { D.faults cache.old.main ≤ D.faults cache.new.main }
    ensures cause { IfErr result (Caused ⊥ (λ b. ⊥) (Rose (D.faults cache.old.main) (D.faults cache.new.main)) ⊥) }
{
    cache.settle_turns()?;
    let Some((at, i)) = cache.next_due() else {
        return Ok(true);
    };
    cache.clear_due(at, i);
    clear_all(cache);
    Ok(false)
}

// Takes turns and clears slots until neither is left.
fn settle_rounds<D: Disk>(cache: &mut Cache<D>) -> Result<(), BlockError>
    ensures eases { Eases (parts cache.old.mind (D.state cache.old.main).holds (D.faults cache.old.main)) (parts cache.new.mind (D.state cache.new.main).holds (D.faults cache.new.main)) }
    ensures clears { Clearings (parts cache.old.mind (D.state cache.old.main).holds (D.faults cache.old.main)) (parts cache.new.mind (D.state cache.new.main).holds (D.faults cache.new.main)) }
    ensures done { OnOk result (IsQuiet (parts cache.new.mind [] 0).turns × ((b j : ℕ) → Clears (parts cache.new.mind [] 0).clears b j → ⊥)) }
    ensures calls { AtMost (calls_left (parts cache.old.mind [] 0)) (D.calls cache.old.main) (D.calls cache.new.main) }
    ensures made { Spends (D.state cache.old.main) (D.state cache.new.main) (D.calls cache.old.main) (D.calls cache.new.main) (parts cache.old.mind [] 0) none_left no_more }
    ensures size { D.size cache.new.main ≡ D.size cache.old.main }
    ensures later { D.faults cache.old.main ≤ D.faults cache.new.main }
    ensures cause { IfErr result (Caused ⊥ (λ b. ⊥) (Rose (D.faults cache.old.main) (D.faults cache.new.main)) ⊥) }
{
    while !settle_round(cache)? {}
    Ok(())
}

/// Settles all but what is newborn, and clears the slots that wait; then nobody waits for an entry any more, and what is pinned and in
/// the tree is sealed. Where slots wait only for leaves of which no slot waits, the device is called at most four times for each block
/// that has a turn or of which a slot waits, and four times beside that; each such block is written at most twice, and no other but
/// block 1, once, where it is in doubt (`Costs`).
pub fn settle<D: Disk>(cache: &mut Cache<D>) -> Result<(), BlockError>
    ensures all { OnOk result (AllAre (state_of (parts cache.new.mind (D.state cache.new.main).holds (D.faults cache.new.main))).now (state_of (parts cache.new.mind (D.state cache.new.main).holds (D.faults cache.new.main))).may_leave) }
    ensures none { OnOk result ((b j : ℕ) → (state_of (parts cache.new.mind (D.state cache.new.main).holds (D.faults cache.new.main))).clearing b j → ⊥) }
    ensures quiet { OnOk result (IsQuiet (parts cache.new.mind [] 0).turns) }
    ensures clean { OnOk result ((b : ℕ) → (state_of (parts cache.new.mind (D.state cache.new.main).holds (D.faults cache.new.main))).dirty b → (state_of (parts cache.new.mind (D.state cache.new.main).holds (D.faults cache.new.main))).newborn b × ((state_of (parts cache.new.mind (D.state cache.new.main).holds (D.faults cache.new.main))).tells → IsUnlinked (state_of (parts cache.new.mind (D.state cache.new.main).holds (D.faults cache.new.main))) b)) }
    ensures no_wait { OnOk result ((a on j : ℕ) → (state_of (parts cache.new.mind (D.state cache.new.main).holds (D.faults cache.new.main))).waits a on j → ⊥) }
    ensures pinned { OnOk result ((b : ℕ) → (state_of (parts cache.new.mind (D.state cache.new.main).holds (D.faults cache.new.main))).pinned b → (state_of (parts cache.new.mind (D.state cache.new.main).holds (D.faults cache.new.main))).newborn b ⊎ (state_of (parts cache.new.mind (D.state cache.new.main).holds (D.faults cache.new.main))).sealed b) }
    ensures clears { Clearings (parts cache.old.mind (D.state cache.old.main).holds (D.faults cache.old.main)) (parts cache.new.mind (D.state cache.new.main).holds (D.faults cache.new.main)) }
    ensures rests { Rests (state_of (parts cache.old.mind (D.state cache.old.main).holds (D.faults cache.old.main))) (state_of (parts cache.new.mind (D.state cache.new.main).holds (D.faults cache.new.main))) }
    ensures queued { (state_of (parts cache.old.mind (D.state cache.old.main).holds (D.faults cache.old.main))).queued ≤ (state_of (parts cache.new.mind (D.state cache.new.main).holds (D.faults cache.new.main))).queued }
    ensures known { (b : ℕ) → (state_of (parts cache.old.mind (D.state cache.old.main).holds (D.faults cache.old.main))).pinned b → StaysKnown (state_of (parts cache.old.mind (D.state cache.old.main).holds (D.faults cache.old.main))) (state_of (parts cache.new.mind (D.state cache.new.main).holds (D.faults cache.new.main))) b }
    ensures blocks { (b : ℕ) → ((state_of (parts cache.new.mind (D.state cache.new.main).holds (D.faults cache.new.main))).label b ≡ (state_of (parts cache.old.mind (D.state cache.old.main).holds (D.faults cache.old.main))).label b) × ((state_of (parts cache.old.mind (D.state cache.old.main).holds (D.faults cache.old.main))).pinned b → (state_of (parts cache.new.mind (D.state cache.new.main).holds (D.faults cache.new.main))).pinned b) × ((state_of (parts cache.old.mind (D.state cache.old.main).holds (D.faults cache.old.main))).sealed b → (state_of (parts cache.new.mind (D.state cache.new.main).holds (D.faults cache.new.main))).sealed b) }
    ensures room { ((state_of (parts cache.new.mind (D.state cache.new.main).holds (D.faults cache.new.main))).spare ≡ (state_of (parts cache.old.mind (D.state cache.old.main).holds (D.faults cache.old.main))).spare) × ((state_of (parts cache.new.mind (D.state cache.new.main).holds (D.faults cache.new.main))).pins_left ≡ (state_of (parts cache.old.mind (D.state cache.old.main).holds (D.faults cache.old.main))).pins_left) × ((state_of (parts cache.new.mind (D.state cache.new.main).holds (D.faults cache.new.main))).room ≡ (state_of (parts cache.old.mind (D.state cache.old.main).holds (D.faults cache.old.main))).room) }
    ensures keeps { CacheKeeps (parts cache.old.mind (D.state cache.old.main).holds (D.faults cache.old.main)) (parts cache.new.mind (D.state cache.new.main).holds (D.faults cache.new.main)) }
    ensures calls { AtMost (calls_left (parts cache.old.mind [] 0)) (D.calls cache.old.main) (D.calls cache.new.main) }
    ensures costs { Costs (D.state cache.old.main) (D.state cache.new.main) (D.calls cache.old.main) (D.calls cache.new.main) (parts cache.old.mind [] 0) }
    ensures size { D.size cache.new.main ≡ D.size cache.old.main }
    ensures cause { IfErr result (Caused ⊥ (λ b. ⊥) (Rose (D.faults cache.old.main) (D.faults cache.new.main)) ⊥) }
    ensures later { D.faults cache.old.main ≤ D.faults cache.new.main }
{
    settle_all(cache)
}

// Settles all, ends the waits, and seals what is pinned.
fn settle_all<D: Disk>(cache: &mut Cache<D>) -> Result<(), BlockError>
    ensures eases { Eases (parts cache.old.mind (D.state cache.old.main).holds (D.faults cache.old.main)) (parts cache.new.mind (D.state cache.new.main).holds (D.faults cache.new.main)) }
    ensures clears { Clearings (parts cache.old.mind (D.state cache.old.main).holds (D.faults cache.old.main)) (parts cache.new.mind (D.state cache.new.main).holds (D.faults cache.new.main)) }
    ensures none { OnOk result ((b j : ℕ) → Clears (parts cache.new.mind [] 0).clears b j → ⊥) }
    ensures quiet { OnOk result (IsQuiet (parts cache.new.mind [] 0).turns) }
    ensures no_wait { OnOk result ((parts cache.new.mind [] 0).waits ≡ []) }
    ensures pinned { OnOk result ((b : ℕ) → IsPinned (parts cache.new.mind [] 0).held b → IsNewborn (parts cache.new.mind [] 0).facts b ⊎ ((fact_at (parts cache.new.mind [] 0).facts b).sealed ≡ true)) }
    ensures calls { AtMost (calls_left (parts cache.old.mind [] 0)) (D.calls cache.old.main) (D.calls cache.new.main) }
    ensures costs { Costs (D.state cache.old.main) (D.state cache.new.main) (D.calls cache.old.main) (D.calls cache.new.main) (parts cache.old.mind [] 0) }
    ensures size { D.size cache.new.main ≡ D.size cache.old.main }
    ensures later { D.faults cache.old.main ≤ D.faults cache.new.main }
    ensures cause { IfErr result (Caused ⊥ (λ b. ⊥) (Rose (D.faults cache.old.main) (D.faults cache.new.main)) ⊥) }
{
    cache.settle_doubt()?;
    settle_rounds(cache)?;
    cache.waits_over();
    cache.seal_pinned();
    Ok(())
}
