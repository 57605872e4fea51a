//! Blocks are pinned no more.
ghost use Rattle.std.specs.Prelude.{◌≡◌, ◌==◌, ◌<◌, ℕ, [], true, false, not, length, slice_set, MatchOption};
ghost use Rattle.std.specs.List.{list_any};
ghost use Rattle.std.specs.Option.{option_map_or};
ghost use Rattle.fo_disk.specs.Disk.{Content as Holds};
ghost use Rattle.fo_buffers.specs.Held.{held_at, is_pinned};
ghost use Rattle.fo_facts.specs.Known.{fact_at};
ghost use Rattle.fo_bring.specs.Blocks.{IsData};
ghost use Rattle.fo_mind.specs.MindParts.{parts};
ghost use Rattle.fo_mind.specs.Parts.{IsPinned};
ghost use Rattle.fo_mind.specs.Turning.{Released, Unpinned, is_settled, may_release, unpinned_fact};

use crate::mind::Mind;
use fo_buffers::Buffers;
use fo_facts::{Fact, Facts};
use fo_order::{Flags, Tried};
use fo_waits::{has_clearing, is_awaited};

// Room is kept for a block only while it isn't linked.
fn owe_unlinked(facts: &mut Facts, at: u32)
    requires { at < length facts.old }
    ensures { facts.new ≡ slice_set facts.old at (unpinned_fact (fact_at facts.old at)) }
{
    let was = facts.get(at);
    let owes = was.owes && !was.linked;
    facts.set(at, Fact { owes, ..was });
}

// Whether the last write of a block was settled.
pub(crate) fn is_settled(flags: Flags) -> bool
    ensures { result ≡ is_settled flags.tried }
{
    match flags.tried {
        Tried::Settled => true,
        Tried::Written | Tried::Failed => false,
    }
}

// Whether a block is held and not pinned.
fn is_free(buffers: &Buffers, at: u32) -> bool
    ensures { result ≡ not (option_map_or is_pinned (held_at buffers.now at) true) }
{
    buffers.is_held(at) && !buffers.is_pinned(at)
}

impl Mind {
    /// Unpins one pinned block and gives its address, and None exactly where none is pinned. The pins that are left stay as they are.
    pub fn unpin(&mut self) -> Option<u32>
        ensures { (disk : Holds) (faults : ℕ) → MatchOption result ((parts self.new disk faults ≡ parts self.old disk faults) × ((q : ℕ) → IsPinned self.old.buffers q → ⊥)) (λ at. Unpinned at (parts self.old disk faults) (parts self.new disk faults)) }
    {
        let Some(at) = self.buffers.unpin() else {
            return None;
        };
        owe_unlinked(&mut self.facts, at);
        Some(at)
    }

    // Whether a block may be given up.
    fn may_release(&self, at: u32) -> bool
        requires block { IsData self.now.first self.now.count at }
        ensures { result ≡ may_release (parts self.now [] 0) at }
    {
        let free = is_free(&self.buffers, at);
        let dirty = self.buffers.is_dirty(at);
        let settled = is_settled(self.order.flags(at));
        let awaited = is_awaited(&self.waits, at);
        let clearing = has_clearing(&self.clears, at);
        let linked = self.facts.get(at).linked;
        free && !dirty && settled && !awaited && !clearing && linked
    }

    /// Gives a block up where it may be: it becomes the first of the clean ones, or is forgotten for want of memory.
    pub fn release(&mut self, at: u32)
        requires block { IsData self.old.first self.old.count at }
        ensures gone { may_release (parts self.old [] 0) at ≡ true → (disk : Holds) (faults : ℕ) → Released at (parts self.old disk faults) (parts self.new disk faults) }
        ensures kept { may_release (parts self.old [] 0) at ≡ false → (disk : Holds) (faults : ℕ) → parts self.new disk faults ≡ parts self.old disk faults }
    {
        if self.may_release(at) {
            self.buffers.release(at);
        }
    }
}
