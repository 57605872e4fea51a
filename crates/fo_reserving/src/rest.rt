//! A cache comes to rest, so that blocks may be closed.
ghost use Rattle.std.specs.Prelude.{◌≡◌, ◌<◌, ◌≤◌, ℕ, [], true, false, length, None, is_some, OnOk, IfErr};
ghost use Rattle.fo_base.specs.Cause.{Rose};
ghost use Rattle.fo_buffers.specs.Held.{held_at};
ghost use Rattle.fo_order.specs.Turns.{IsQuiet};
ghost use Rattle.fo_ports.specs.Causes.{Caused};
ghost use Rattle.fo_closing.specs.of_mind.MindParts.{parts};
ghost use Rattle.fo_closing.specs.of_mind.Parts.{IsNewborn};
ghost use Rattle.fo_closing.specs.Rest.{AtRest};
ghost use Rattle.fo_reserving.specs.Steps.{Reserves};

use crate::pins::{release_all, unpin_all};
use fo_disk::Disk;
use fo_ports::BlockError;
use fo_settling::{Cache, settle};
use fo_waits::Clearing;

// Whether no slot waits to be cleared.
fn are_none(clears: &[Clearing]) -> bool
    ensures none { result ≡ true → clears.now ≡ [] }
    ensures some { result ≡ false → 0 < length clears.now }
{
    clears.is_empty()
}

// Settles all where a slot waits to be cleared, so that none waits.
fn settle_slots<D: Disk>(cache: &mut Cache<D>) -> Result<(), BlockError>
    ensures clears { OnOk result ((parts cache.new.mind [] 0).clears ≡ []) }
    ensures leaves { Reserves (parts cache.old.mind (D.state cache.old.main).holds (D.faults cache.old.main)) (parts cache.new.mind (D.state cache.new.main).holds (D.faults cache.new.main)) }
    ensures size { D.size cache.new.main ≡ D.size cache.old.main }
    ensures cause { IfErr result (Caused ⊥ (λ b. ⊥) (Rose (D.faults cache.old.main) (D.faults cache.new.main)) ⊥) }
    ensures later { D.faults cache.old.main ≤ D.faults cache.new.main }
{
    if are_none(&cache.mind.clears) {
        return Ok(());
    }
    settle(cache)
}

// Settles all, so that no slot waits and nothing is in doubt.
fn settle_turned<D: Disk>(cache: &mut Cache<D>) -> Result<(), BlockError>
    ensures quiet { OnOk result (IsQuiet (parts cache.new.mind [] 0).turns) }
    ensures calm { OnOk result (((parts cache.new.mind [] 0).clears ≡ []) × ((parts cache.new.mind [] 0).doubt ≡ None)) }
    ensures leaves { Reserves (parts cache.old.mind (D.state cache.old.main).holds (D.faults cache.old.main)) (parts cache.new.mind (D.state cache.new.main).holds (D.faults cache.new.main)) }
    ensures size { D.size cache.new.main ≡ D.size cache.old.main }
    ensures cause { IfErr result (Caused ⊥ (λ b. ⊥) (Rose (D.faults cache.old.main) (D.faults cache.new.main)) ⊥) }
    ensures later { D.faults cache.old.main ≤ D.faults cache.new.main }
{
    settle_slots(cache)?;
    cache.settle_doubt()?;
    cache.settle_turns()
}

// Settles all, so that nothing waits and nothing is in doubt.
fn settle_whole<D: Disk>(cache: &mut Cache<D>) -> Result<(), BlockError>
    ensures quiet { OnOk result (IsQuiet (parts cache.new.mind [] 0).turns) }
    ensures calm { OnOk result (((parts cache.new.mind [] 0).clears ≡ []) × ((parts cache.new.mind [] 0).waits ≡ []) × ((parts cache.new.mind [] 0).doubt ≡ None)) }
    ensures leaves { Reserves (parts cache.old.mind (D.state cache.old.main).holds (D.faults cache.old.main)) (parts cache.new.mind (D.state cache.new.main).holds (D.faults cache.new.main)) }
    ensures size { D.size cache.new.main ≡ D.size cache.old.main }
    ensures cause { IfErr result (Caused ⊥ (λ b. ⊥) (Rose (D.faults cache.old.main) (D.faults cache.new.main)) ⊥) }
    ensures later { D.faults cache.old.main ≤ D.faults cache.new.main }
{
    settle_turned(cache)?;
    cache.waits_over();
    Ok(())
}

/// Settles all, and ends all pins: then all is at rest, and nobody waits.
pub fn settle_down<D: Disk>(cache: &mut Cache<D>) -> Result<(), BlockError>
    ensures quiet { OnOk result (IsQuiet (parts cache.new.mind [] 0).turns) }
    ensures rest { OnOk result (AtRest (parts cache.new.mind [] 0)) }
    ensures no_wait { OnOk result ((parts cache.new.mind [] 0).waits ≡ []) }
    ensures leaves { Reserves (parts cache.old.mind (D.state cache.old.main).holds (D.faults cache.old.main)) (parts cache.new.mind (D.state cache.new.main).holds (D.faults cache.new.main)) }
    ensures size { D.size cache.new.main ≡ D.size cache.old.main }
    ensures cause { IfErr result (Caused ⊥ (λ b. ⊥) (Rose (D.faults cache.old.main) (D.faults cache.new.main)) ⊥) }
    ensures later { D.faults cache.old.main ≤ D.faults cache.new.main }
{
    settle_whole(cache)?;
    unpin_all(cache);
    Ok(())
}

/// Settles all, ends all pins, and gives up what may be: then only what is newborn is held.
pub fn come_to_rest<D: Disk>(cache: &mut Cache<D>) -> Result<(), BlockError>
    ensures quiet { OnOk result (IsQuiet (parts cache.new.mind [] 0).turns) }
    ensures rest { OnOk result (AtRest (parts cache.new.mind [] 0)) }
    ensures held { OnOk result ((b : ℕ) → is_some (held_at (parts cache.new.mind [] 0).held b) ≡ true → IsNewborn (parts cache.new.mind [] 0).facts b) }
    ensures leaves { Reserves (parts cache.old.mind (D.state cache.old.main).holds (D.faults cache.old.main)) (parts cache.new.mind (D.state cache.new.main).holds (D.faults cache.new.main)) }
    ensures size { D.size cache.new.main ≡ D.size cache.old.main }
    ensures cause { IfErr result (Caused ⊥ (λ b. ⊥) (Rose (D.faults cache.old.main) (D.faults cache.new.main)) ⊥) }
    ensures later { D.faults cache.old.main ≤ D.faults cache.new.main }
{
    settle_down(cache)?;
    release_all(cache);
    Ok(())
}
