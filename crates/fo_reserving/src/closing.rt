//! Blocks are closed until enough are usable.
ghost use Rattle.std.specs.Prelude.{◌≡◌, ◌⊎◌, ◌<◌, ◌≤◌, ℕ, [], true, length, is_some, OnOk, IfErr};
ghost use Rattle.fo_base.specs.Cause.{Rose};
ghost use Rattle.fo_buffers.specs.Held.{held_at};
ghost use Rattle.fo_labels.specs.Region.{usable_count};
ghost use Rattle.fo_order.specs.Turns.{IsQuiet};
ghost use Rattle.fo_ports.specs.Causes.{Caused};
ghost use Rattle.fo_closing.specs.of_mind.MindParts.{parts};
ghost use Rattle.fo_closing.specs.of_mind.Parts.{IsNewborn};
ghost use Rattle.fo_closing.specs.Leaves.{Leaves};
ghost use Rattle.fo_closing.specs.Rest.{AtRest};
ghost use Rattle.fo_reserving.specs.Steps.{Reserves};

use fo_closing::close_until;
use fo_disk::Disk;
use fo_ports::BlockError;
use fo_settling::Cache;

/// Closes blocks that left the tree, where a removal is queued, until so many are usable or none is left. Nothing is written.
pub fn close_queued<D: Disk>(cache: &mut Cache<D>, blocks: u32) -> Result<(), BlockError>
    requires some { 0 < length (parts cache.old.mind [] 0).removals }
    requires quiet { IsQuiet (parts cache.old.mind [] 0).turns }
    requires rest { AtRest (parts cache.old.mind [] 0) }
    requires held { (b : ℕ) → is_some (held_at (parts cache.old.mind [] 0).held b) ≡ true → IsNewborn (parts cache.old.mind [] 0).facts b }
    ensures over { OnOk result ((blocks ≤ usable_count (parts cache.new.mind [] 0).one.low (parts cache.new.mind [] 0).region) ⊎ ((parts cache.new.mind [] 0).removals ≡ [])) }
    ensures rest { AtRest (parts cache.new.mind [] 0) }
    ensures shuts { Leaves (D.state cache.old.main).holds (parts cache.old.mind (D.state cache.old.main).holds (D.faults cache.old.main)) (parts cache.new.mind (D.state cache.new.main).holds (D.faults cache.new.main)) }
    ensures leaves { Reserves (parts cache.old.mind (D.state cache.old.main).holds (D.faults cache.old.main)) (parts cache.new.mind (D.state cache.new.main).holds (D.faults cache.new.main)) }
    ensures size { D.size cache.new.main ≡ D.size cache.old.main }
    ensures state { D.state cache.new.main ≡ D.state cache.old.main }
    ensures cause { IfErr result (Caused ⊥ (λ b. ⊥) (Rose (D.faults cache.old.main) (D.faults cache.new.main)) ⊥) }
    ensures later { D.faults cache.old.main ≤ D.faults cache.new.main }
{
    close_until(&mut cache.main, &mut cache.mind, blocks)
}

/// Closes blocks that left the tree, until so many are usable or no removal is left. Nothing but what is newborn is held meanwhile.
pub fn close_until_usable<D: Disk>(cache: &mut Cache<D>, blocks: u32) -> Result<(), BlockError>
    requires quiet { IsQuiet (parts cache.old.mind [] 0).turns }
    requires rest { AtRest (parts cache.old.mind [] 0) }
    requires held { (b : ℕ) → is_some (held_at (parts cache.old.mind [] 0).held b) ≡ true → IsNewborn (parts cache.old.mind [] 0).facts b }
    ensures over { OnOk result ((blocks ≤ usable_count (parts cache.new.mind [] 0).one.low (parts cache.new.mind [] 0).region) ⊎ ((parts cache.new.mind [] 0).removals ≡ [])) }
    ensures rest { AtRest (parts cache.new.mind [] 0) }
    ensures leaves { Reserves (parts cache.old.mind (D.state cache.old.main).holds (D.faults cache.old.main)) (parts cache.new.mind (D.state cache.new.main).holds (D.faults cache.new.main)) }
    ensures size { D.size cache.new.main ≡ D.size cache.old.main }
    ensures cause { IfErr result (Caused ⊥ (λ b. ⊥) (Rose (D.faults cache.old.main) (D.faults cache.new.main)) ⊥) }
    ensures later { D.faults cache.old.main ≤ D.faults cache.new.main }
{
    if cache.mind.queued() == 0 {
        return Ok(());
    }
    close_queued(cache, blocks)
}
