//! Unlinking turns.
ghost use Rattle.std.specs.Prelude.{◌≡◌, ◌≢◌, ◌↔◌, ◌≤◌, ℕ, [], Ok, IsTrue, MatchResult, OnErr, IfOk, IfErr};
ghost use Rattle.fo_order.specs.Turns.{IsQuiet};
ghost use Rattle.fo_waits.specs.Listed.{Clears};
ghost use Rattle.fo_base.specs.Cause.{Rose};
ghost use Rattle.fo_ports.specs.Causes.{Caused};
ghost use Rattle.fo_mind.specs.MindParts.{parts};
ghost use Rattle.fo_closing.specs.Rest.{AtRest};
ghost use Rattle.fo_turning.specs.declared.unlink.Unlinked.TheVariants.{Empty, Waits};
ghost use Rattle.fo_turning.specs.Flushes.{AtIdle};
ghost use Rattle.fo_turning.specs.Freed.{Yields};
ghost use Rattle.fo_turning.specs.Unlinks.{Unlinks};

use crate::close::close_turn;
use crate::pins::unpin_all;
use fo_cache::Cache;
use fo_disk::Disk;
use fo_order::Turn;
use fo_ports::BlockError;

/// What an unlinking turn did.
#[derive(Clone, Copy, Debug, PartialEq, Eq)]
pub enum Unlinked {
    /// This block was closed.
    Closed(u32),
    /// This block may not be closed, and stays as it is.
    Passed(u32),
    /// The first removal was given up: the block after which it comes will not be settled.
    GivenUp,
    /// A removal is queued, and something is to be flushed first.
    Waits,
    /// No removal is queued.
    Empty,
}

// Whether no slot waits, where all is settled.
fn is_clear<D: Disk>(cache: &Cache<D>) -> bool
    requires { IsQuiet (parts cache.now.mind [] 0).turns }
    ensures { IsTrue result ↔ ((b j : ℕ) → Clears (parts cache.now.mind [] 0).clears b j → ⊥) }
{
    match cache.next_due() {
        Some(_) => false,
        None => true,
    }
}

// Whether nothing has a turn, nothing is in doubt and no slot waits.
fn is_idle<D: Disk>(cache: &mut Cache<D>) -> bool
    ensures idle { IsTrue result ↔ AtIdle (parts cache.old.mind [] 0) }
    ensures same { parts cache.new.mind [] 0 ≡ parts cache.old.mind [] 0 }
    ensures device { cache.new.main ≡ cache.old.main }
{
    if cache.mind.is_doubted() {
        return false;
    }
    match cache.next_turn() {
        Turn::Write(_) => false,
        Turn::Sync => false,
        Turn::Idle => is_clear(cache),
    }
}

// Closes one block, where nothing is to be flushed.
fn unlink_idle<D: Disk>(cache: &mut Cache<D>) -> Result<Unlinked, BlockError>
    requires idle { AtIdle (parts cache.old.mind [] 0) }
    requires some { (parts cache.old.mind [] 0).removals ≢ [] }
    ensures unlinks { IfOk result (λ u. Unlinks (D.state cache.old.main).holds u (parts cache.old.mind (D.state cache.old.main).holds (D.faults cache.old.main)) (parts cache.new.mind (D.state cache.new.main).holds (D.faults cache.new.main)) cache.new.mind.queue) }
    ensures more { (result ≢ Ok Empty) × (result ≢ Ok Waits) }
    ensures yields { Yields (parts cache.old.mind (D.state cache.old.main).holds (D.faults cache.old.main)) (parts cache.new.mind (D.state cache.new.main).holds (D.faults cache.new.main)) }
    ensures rest { AtRest (parts cache.new.mind [] 0) }
    ensures labels { OnErr result ((parts cache.new.mind [] 0).region ≡ (parts cache.old.mind [] 0).region) }
    ensures removals { OnErr result ((parts cache.new.mind [] 0).removals ≡ (parts cache.old.mind [] 0).removals) }
    ensures size { D.size cache.new.main ≡ D.size cache.old.main }
    ensures state { D.state cache.new.main ≡ D.state cache.old.main }
    ensures cause { IfErr result (Caused ⊥ (λ b. ⊥) (Rose (D.faults cache.old.main) (D.faults cache.new.main)) ⊥) }
    ensures later { D.faults cache.old.main ≤ D.faults cache.new.main }
{
    unpin_all(cache);
    close_turn(cache)
}

/// Closes one block that left the tree, or passes one over. Nothing is closed before all is flushed, as `Waits` says; then what a request
/// left pinned is unpinned. But for `Waits` and `Empty` all is at rest after it, so that `close_turn` may go on. Where it fails no label
/// changes, and as many removals are queued.
pub fn unlink_turn<D: Disk>(cache: &mut Cache<D>) -> Result<Unlinked, BlockError>
    ensures unlinks { IfOk result (λ u. Unlinks (D.state cache.old.main).holds u (parts cache.old.mind (D.state cache.old.main).holds (D.faults cache.old.main)) (parts cache.new.mind (D.state cache.new.main).holds (D.faults cache.new.main)) cache.new.mind.queue) }
    ensures empty { (result ≡ Ok Empty) ↔ ((parts cache.old.mind [] 0).removals ≡ []) }
    ensures waits { (result ≡ Ok Waits) ↔ (((parts cache.old.mind [] 0).removals ≢ []) × (AtIdle (parts cache.old.mind [] 0) → ⊥)) }
    ensures yields { Yields (parts cache.old.mind (D.state cache.old.main).holds (D.faults cache.old.main)) (parts cache.new.mind (D.state cache.new.main).holds (D.faults cache.new.main)) }
    ensures rest { MatchResult result (λ u. u ≢ Waits → u ≢ Empty → AtRest (parts cache.new.mind [] 0)) (λ e. AtRest (parts cache.new.mind [] 0)) }
    ensures labels { OnErr result ((parts cache.new.mind [] 0).region ≡ (parts cache.old.mind [] 0).region) }
    ensures removals { OnErr result ((parts cache.new.mind [] 0).removals ≡ (parts cache.old.mind [] 0).removals) }
    ensures size { D.size cache.new.main ≡ D.size cache.old.main }
    ensures state { D.state cache.new.main ≡ D.state cache.old.main }
    ensures cause { IfErr result (Caused ⊥ (λ b. ⊥) (Rose (D.faults cache.old.main) (D.faults cache.new.main)) ⊥) }
    ensures later { D.faults cache.old.main ≤ D.faults cache.new.main }
{
    if cache.mind.queued() == 0 {
        return Ok(Unlinked::Empty);
    }
    if !is_idle(cache) {
        return Ok(Unlinked::Waits);
    }
    unlink_idle(cache)
}
