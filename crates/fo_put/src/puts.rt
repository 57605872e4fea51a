//! A slot is put.
ghost use Rattle.std.specs.Prelude.{◌≡◌, ◌≢◌, ◌⊎◌, ◌<◌, ◌≤◌, ℕ, []};
ghost use Rattle.fo_disk.specs.Disk.{Content as Holds};
ghost use Rattle.fo_image.specs.declared.types.Pointer.TheVariants.{Local};
ghost use Rattle.fo_crash.specs.Images.{target};
ghost use Rattle.fo_crash.specs.Names.{SameUse};
ghost use Rattle.fo_crash.specs.Steps.{PutsSlot, Through};
ghost use Rattle.fo_mind.specs.of_ports.Blocks.{SlotFits, cost, slot_count};
ghost use Rattle.fo_mind.specs.of_ports.State.{AddsNoWait, AddsRemovals, Frame, Hangs, KeepsOrder, none};
ghost use Rattle.fo_mind.specs.of_waits.Listed.{Awaits, Clears};
ghost use Rattle.fo_mind.specs.MindParts.{parts};
ghost use Rattle.fo_mind.specs.Parts.{CacheKeeps, IsBlock, IsPinned, label_at, memory, state_of};
ghost use Rattle.fo_mind.specs.Slotted.{Slotted};
ghost use Rattle.fo_put.specs.Queued.{Queues};

use fo_crash::Slot;
use fo_mind::{Mind, cost};

/// Puts a slot of a pinned block. Where the block is in the tree of memory, all that hangs from the slot by blocks that were made comes into
/// the tree, and is newborn no more. What leaves is queued to be closed, as far as the blocks are held that tell what leaves.
pub fn put_slot(mind: &mut Mind, at: u32, i: u32, slot: Slot)
    requires pinned { IsPinned (parts mind.old [] 0).held at }
    requires current { (label_at (parts mind.old [] 0).region at).epoch ≡ (parts mind.old [] 0).one.high }
    requires spelled { (i < slot_count (label_at (parts mind.old [] 0).region at).kind) × SlotFits (label_at (parts mind.old [] 0).region at).kind i slot }
    requires settled { Clears (parts mind.old [] 0).clears at i → ⊥ }
    requires same_use { (a : ℕ) → Awaits (parts mind.old [] 0).waits a at i → SameUse slot ((memory (parts mind.old [] 0) at).slot i) }
    requires leads { (b : ℕ) → target slot ≡ Local b → IsBlock (parts mind.old [] 0) b × (b ≢ at) }
    requires room { cost ((memory (parts mind.old [] 0) at).slot i) slot ≤ (parts mind.old [] 0).room }
    ensures now { (disk : Holds) (faults : ℕ) → PutsSlot at i slot (memory (parts mind.old disk faults)) (memory (parts mind.new disk faults)) }
    ensures frame { (disk : Holds) (faults : ℕ) → Frame (λ b. b ≡ at) (λ b. (b ≡ at) ⊎ (target slot ≡ Local b)) (cost ((memory (parts mind.old disk faults) at).slot i) slot) (state_of (parts mind.old disk faults)) (state_of (parts mind.new disk faults)) }
    ensures hangs { (disk : Holds) (faults : ℕ) → Hangs at i slot (state_of (parts mind.old disk faults)) (state_of (parts mind.new disk faults)) }
    ensures order { (disk : Holds) (faults : ℕ) → KeepsOrder none (state_of (parts mind.old disk faults)) (state_of (parts mind.new disk faults)) }
    ensures no_wait { (disk : Holds) (faults : ℕ) → AddsNoWait none (state_of (parts mind.old disk faults)) (state_of (parts mind.new disk faults)) }
    ensures queues { (disk : Holds) (faults : ℕ) → Queues ((memory (parts mind.old disk faults) at).slot i) slot (state_of (parts mind.old disk faults)).queued (state_of (parts mind.new disk faults)).queued }
    ensures removals { (disk : Holds) (faults : ℕ) → AddsRemovals ((memory (parts mind.old disk faults) at).slot i) (state_of (parts mind.old disk faults)) (state_of (parts mind.new disk faults)) }
    ensures links { (disk : Holds) (faults : ℕ) → ((state_of (parts mind.old disk faults)).newborn at → ⊥) → (b : ℕ) → Through (state_of (parts mind.old disk faults)).newborn (state_of (parts mind.old disk faults)).now slot b → (state_of (parts mind.new disk faults)).newborn b → ⊥ }
    ensures keeps { (disk : Holds) (faults : ℕ) → CacheKeeps (parts mind.old disk faults) (parts mind.new disk faults) }
    ensures slotted { (disk : Holds) (faults : ℕ) → Slotted at i (cost ((memory (parts mind.old disk faults) at).slot i) slot) slot (parts mind.old disk faults) (parts mind.new disk faults) }
{
    let old = mind.slot(at, i);
    let price = cost(&old, &slot);
    mind.change_slot(at, i, slot, price);
}
