//! A slot is cleared.
ghost use Rattle.std.specs.Prelude.{◌≡◌, ◌≢◌, ◌⊎◌, ◌<◌, ◌≤◌, ℕ, [], true, false, None, Some, IfSome, MatchOption};
ghost use Rattle.fo_disk.specs.Disk.{Content as Holds};
ghost use Rattle.fo_image.specs.declared.types.Kind.TheVariants.{Dir};
ghost use Rattle.fo_image.specs.declared.types.Pointer.TheVariants.{Local};
ghost use Rattle.fo_crash.specs.Images.{SameImage, target};
ghost use Rattle.fo_crash.specs.Steps.{PutsSlot, cleared};
ghost use Rattle.fo_mind.specs.of_ports.Blocks.{slot_count};
ghost use Rattle.fo_mind.specs.of_ports.State.{AddsNoWait, AddsRemovals, Frame, Hangs, QueuesOne, none};
ghost use Rattle.fo_mind.specs.of_waits.Listed.{Clears};
ghost use Rattle.fo_mind.specs.Due.{is_over};
ghost use Rattle.fo_mind.specs.MindParts.{parts};
ghost use Rattle.fo_mind.specs.Parts.{CacheKeeps, IsPinned, label_at, memory, state_of};
ghost use Rattle.fo_put.specs.Removed.{ClearsOrWaits, Removed};

use fo_mind::Mind;

// Clears a slot of a pinned block at once.
fn clear_slot(mind: &mut Mind, at: u32, i: u32)
    requires pinned { IsPinned (parts mind.old [] 0).held at }
    requires current { (label_at (parts mind.old [] 0).region at).epoch ≡ (parts mind.old [] 0).one.high }
    requires slots { i < slot_count (label_at (parts mind.old [] 0).region at).kind }
    requires room { 0 < (parts mind.old [] 0).room }
    requires settled { Clears (parts mind.old [] 0).clears at i → ⊥ }
    ensures { (disk : Holds) (faults : ℕ) → Removed at i (parts mind.old disk faults) (parts mind.new disk faults) }
{
    let old = mind.slot(at, i);
    let slot = old.cleared();
    mind.end_waits(at, i);
    mind.change_slot(at, i, slot, 1);
}

// The leaf to wait for, where it isn't settled.
fn waited(mind: &Mind, after: Option<u32>) -> Option<u32>
    ensures { MatchOption result (IfSome after (λ leaf. is_over (parts mind.now [] 0).turns leaf ≡ true)) (λ leaf. (after ≡ Some leaf) × (is_over (parts mind.now [] 0).turns leaf ≡ false)) }
{
    let Some(leaf) = after else {
        return None;
    };
    if mind.is_over(leaf) {
        return None;
    }
    Some(leaf)
}

/// Clears a slot of a pinned block: at once, or, of a leaf of entries, when block `after` is settled, where it isn't yet. Once the first
/// entry of a pair is cleared, no block waits for that pair any more.
pub fn remove_slot(mind: &mut Mind, at: u32, i: u32, after: Option<u32>)
    requires pinned { IsPinned (parts mind.old [] 0).held at }
    requires current { (label_at (parts mind.old [] 0).region at).epoch ≡ (parts mind.old [] 0).one.high }
    requires slots { i < slot_count (label_at (parts mind.old [] 0).region at).kind }
    requires room { 0 < (parts mind.old [] 0).room }
    requires settled { Clears (parts mind.old [] 0).clears at i → ⊥ }
    requires after { IfSome after (λ leaf. (label_at (parts mind.old [] 0).region at).kind ≡ Dir 0) }
    ensures now { (disk : Holds) (faults : ℕ) → (PutsSlot at i (cleared ((memory (parts mind.old disk faults) at).slot i)) (memory (parts mind.old disk faults)) (memory (parts mind.new disk faults)) × ((state_of (parts mind.new disk faults)).clearing at i → ⊥)) ⊎ (SameImage (memory (parts mind.new disk faults)) (memory (parts mind.old disk faults)) × (state_of (parts mind.new disk faults)).clearing at i × (after ≢ None)) }
    ensures frame { (disk : Holds) (faults : ℕ) → Frame (λ b. b ≡ at) (λ b. b ≡ at) 1 (state_of (parts mind.old disk faults)) (state_of (parts mind.new disk faults)) }
    ensures hangs { (disk : Holds) (faults : ℕ) → Hangs at i (cleared ((memory (parts mind.old disk faults) at).slot i)) (state_of (parts mind.old disk faults)) (state_of (parts mind.new disk faults)) }
    ensures order { (b j : ℕ) → (Clears (parts mind.new [] 0).clears b j → Clears (parts mind.old [] 0).clears b j ⊎ ((b ≡ at) × (j ≡ i))) × (Clears (parts mind.old [] 0).clears b j → Clears (parts mind.new [] 0).clears b j) }
    ensures no_wait { (disk : Holds) (faults : ℕ) → AddsNoWait none (state_of (parts mind.old disk faults)) (state_of (parts mind.new disk faults)) }
    ensures queues { (disk : Holds) (faults : ℕ) → ((state_of (parts mind.old disk faults)).queued ≤ (state_of (parts mind.new disk faults)).queued) × ((c : ℕ) → target ((memory (parts mind.old disk faults) at).slot i) ≡ Local c → (state_of (parts mind.new disk faults)).clearing at i ⊎ QueuesOne (state_of (parts mind.old disk faults)) (state_of (parts mind.new disk faults))) }
    ensures removals { (disk : Holds) (faults : ℕ) → AddsRemovals ((memory (parts mind.old disk faults) at).slot i) (state_of (parts mind.old disk faults)) (state_of (parts mind.new disk faults)) }
    ensures keeps { (disk : Holds) (faults : ℕ) → CacheKeeps (parts mind.old disk faults) (parts mind.new disk faults) }
    ensures is { (disk : Holds) (faults : ℕ) → ClearsOrWaits at i after (parts mind.old disk faults) (parts mind.new disk faults) }
{
    match waited(mind, after) {
        None => clear_slot(mind, at, i),
        Some(leaf) => mind.clear_later(at, i, leaf),
    }
}
