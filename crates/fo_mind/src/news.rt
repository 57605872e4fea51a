//! Blocks that are new, and copies.
ghost use Rattle.std.specs.Prelude.{◌≡◌, ◌-◌, ◌^◌, ◌<◌, ◌↔◌, ℕ, true, List, length, Some, None, is_some, option_map};
ghost use Rattle.fo_disk.specs.Disk.{Content as Holds};
ghost use Rattle.fo_image.specs.declared.types.State.TheVariants.{Live};
ghost use Rattle.fo_image.specs.Usable.{live_label};
ghost use Rattle.fo_buffers.specs.Held.{held_at, block_in};
ghost use Rattle.fo_crash.specs.Images.{SameContent};
ghost use Rattle.fo_ports.specs.Blocks.{IsLevel, blank, zero_bytes};
ghost use Rattle.fo_ports.specs.State.{Gives};
ghost use Rattle.fo_slots.specs.Read.{read};
ghost use Rattle.fo_facts.specs.Known.{fact_at};
ghost use Rattle.fo_bring.specs.Blocks.{Good};
ghost use Rattle.fo_mind.specs.Changes.{Given};
ghost use Rattle.fo_mind.specs.MindParts.{parts};
ghost use Rattle.fo_mind.specs.Parts.{Instead, IsPinned, label_at, memory, state_of};

use crate::mind::Mind;
use fo_base::BLOCK;
use fo_buffers::Buffers;
use fo_image::Kind;
use fo_slots::spelled_is_meant;

// The bytes of a block of zeros.
fn no_bytes() -> [u8; BLOCK]
    ensures { result ≡ zero_bytes }
{
    [0; BLOCK]
}

// A block of zeros, of a level that may be given out empty.
fn blank_block(kind: Kind) -> [u8; BLOCK]
    requires { IsLevel kind }
    ensures content { SameContent (read kind result) (blank kind) }
    ensures good { (first count : ℕ) → Good first count kind result }
    ensures zeros { result ≡ zero_bytes }
{
    spelled_is_meant();
    no_bytes()
}

// The bytes of a held block.
pub(crate) fn copied(buffers: &Buffers, at: u32) -> [u8; BLOCK]
    requires { is_some (held_at buffers.now at) ≡ true }
    ensures { Some result ≡ option_map block_in (held_at buffers.now at) }
{
    match buffers.bytes(at) {
        Some(held) => bytes_of(held),
        None => no_bytes(),
    }
}

// The bytes of a block.
fn bytes_of(held: &[u8]) -> [u8; BLOCK]
    requires { length held.now ≡ 8192 }
    ensures { result ≡ held.now }
{
    let mut bytes = no_bytes();
    bytes.copy_from_slice(held);
    bytes
}

impl Mind {
    /// Gives out a block of zeros, for a place of this kind, tag and rank.
    pub fn new_block(&mut self, kind: Kind, tag: u32, rank: u32) -> u32
        requires spare { 0 < self.old.spare }
        requires level { IsLevel kind }
        ensures gives { (disk : Holds) (faults : ℕ) → Gives result (blank kind) (live_label kind tag self.old.one.high) (state_of (parts self.old disk faults)) (state_of (parts self.new disk faults)) }
        ensures instead { (x : ℕ) → Instead self.new.facts result x → ⊥ }
        ensures given { (disk : Holds) (faults : ℕ) → Given result kind tag rank zero_bytes None (parts self.old disk faults) (parts self.new disk faults) }
    {
        let bytes = blank_block(kind);
        self.give(kind, tag, rank, &bytes, None)
    }

    /// Gives out a copy of a pinned block, which is to come in its place.
    pub fn copy(&mut self, at: u32) -> u32
        requires spare { 0 < self.old.spare }
        requires pinned { IsPinned self.old.buffers at }
        ensures gives { (disk : Holds) (faults : ℕ) → Gives result (memory (parts self.old disk faults) at) (record (label_at self.old.labels at) { state = Live; epoch = self.old.one.high; closing = 2 ^ 32 - 1 }) (state_of (parts self.old disk faults)) (state_of (parts self.new disk faults)) }
        ensures instead { (x : ℕ) → Instead self.new.facts result x ↔ (x ≡ at) }
        ensures given { (bytes : List ℕ) → Some bytes ≡ option_map block_in (held_at self.old.buffers at) → (disk : Holds) (faults : ℕ) → Given result (label_at self.old.labels at).kind (label_at self.old.labels at).tag (fact_at self.old.facts at).rank bytes (Some at) (parts self.old disk faults) (parts self.new disk faults) }
    {
        let label = self.label(at);
        let fact = self.facts.get(at);
        let bytes = copied(&self.buffers, at);
        self.give(label.kind, label.tag, fact.rank, &bytes, Some(at))
    }
}
