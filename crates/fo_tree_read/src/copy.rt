//! Bytes of one leaf are copied.
ghost use Rattle.std.specs.Prelude.{◌≡◌, ◌⊎◌, ◌+◌, ◌*◌, ◌/◌, ◌%◌, ◌^◌, ◌<◌, ◌≤◌, ℕ, List, Some, None, length, slice_index, OnOk, IfErr, true, false};
ghost use Rattle.fo_looks.specs.of_base.Cause.{Rose};
ghost use Rattle.fo_looks.specs.of_image.declared.types.Kind.TheVariants.{Data};
ghost use Rattle.fo_looks.specs.of_image.declared.types.Pointer.TheVariants.{Local};
ghost use Rattle.fo_looks.specs.of_ports.Causes.{Caused};
ghost use Rattle.fo_looks.specs.of_ports.State.{Looks};
ghost use Rattle.fo_looks.specs.of_ports.Sources.{byte_at};
ghost use Rattle.fo_tree_read.specs.Tree.{kind_at, address_of, held_of, block_at, byte, Hangs, StandsAs, IsGot, Got, Failed, Refused, Names};
ghost use Rattle.fo_tree_read.specs.Reading.{LeafWay, passed, IsNext, HasLeafPins, IsLeafFound, IsLocal};

use crate::below::{kind_at, kind_number};
use crate::tree::Tree;
use fo_looks::{BLOCK, BlockError, Blocks, Kind, Pointer, Score};

/// How many bytes a leaf has.
pub(crate) const LEAF: u64 = BLOCK as u64;

/// Copies bytes of a leaf where it can be lent, and says whether it could.
fn copy_lent<B: Blocks>(
    on: &B,
    at: u32,
    kind: Kind,
    rank: u32,
    from: usize,
    into: &mut [u8],
) -> bool
    requires block { (B.state on.now).is_block at }
    requires part { from + length into.old ≤ 8192 }
    ensures given { result ≡ true → kind ≡ Data 0 → (i : ℕ) → i < length into.old → slice_index into.new i ≡ slice_index (((B.state on.now).now at).bytes) (from + i) }
    ensures length { length into.new ≡ length into.old }
{
    let Some(block) = on.lend(at, kind, rank) else {
        return false;
    };
    into.copy_from_slice(&block[from..from + into.len()]);
    true
}

/// Copies bytes of a leaf that stands on the device, by a copy of the whole.
fn copy_whole<B: Blocks>(
    on: &mut B,
    at: u32,
    kind: Kind,
    rank: u32,
    from: usize,
    into: &mut [u8],
) -> Result<(), BlockError>
    requires block { (B.state on.old).is_block at }
    requires told { (B.state on.old).tells → StandsAs (B.state on.old) kind rank at }
    requires part { from + length into.old ≤ 8192 }
    ensures given { OnOk result (kind ≡ Data 0 → (i : ℕ) → i < length into.old → slice_index into.new i ≡ slice_index (((B.state on.new).now at).bytes) (from + i)) }
    ensures got { OnOk result ((0 < (B.state on.old).pins_left) ⊎ (B.state on.old).pinned at → IsGot (B.state on.new) kind at) }
    ensures pins { (B.state on.old).pins_left ≤ (B.state on.new).pins_left + 1 }
    ensures again { IsGot (B.state on.old) kind at → (B.state on.old).pins_left ≤ (B.state on.new).pins_left }
    ensures looks { Looks (B.state on.old) (B.state on.new) }
    ensures keeps { B.keeps on.old on.new }
    ensures cause { IfErr result (Failed (B.state on.old) (B.state on.new)) }
{
    let mut block = [0; BLOCK];
    on.get(at, kind, rank, &mut block)?;
    into.copy_from_slice(&block[from..from + into.len()]);
    Ok(())
}

/// Copies bytes of a leaf that stands on the device. It stands at a place of this kind and rank after a look, too.
fn copy_local<B: Blocks>(
    on: &mut B,
    at: u32,
    kind: Kind,
    rank: u32,
    from: usize,
    into: &mut [u8],
) -> Result<(), BlockError>
    requires block { (B.state on.old).is_block at }
    requires told { (b : B) → B.keeps on.old b → Looks (B.state on.old) (B.state b) → (B.state b).tells → StandsAs (B.state b) kind rank at }
    requires part { from + length into.old ≤ 8192 }
    ensures given { OnOk result (kind ≡ Data 0 → (i : ℕ) → i < length into.old → slice_index into.new i ≡ slice_index (((B.state on.new).now at).bytes) (from + i)) }
    ensures got { OnOk result ((0 < (B.state on.old).pins_left) ⊎ (B.state on.old).pinned at → IsGot (B.state on.new) kind at) }
    ensures pins { (B.state on.old).pins_left ≤ (B.state on.new).pins_left + 1 }
    ensures again { IsGot (B.state on.old) kind at → (B.state on.old).pins_left ≤ (B.state on.new).pins_left }
    ensures looks { Looks (B.state on.old) (B.state on.new) }
    ensures keeps { B.keeps on.old on.new }
    ensures cause { IfErr result (Failed (B.state on.old) (B.state on.new)) }
{
    on.pin(at, kind, rank)?;
    if copy_lent(on, at, kind, rank, from, into) {
        return Ok(());
    }
    copy_whole(on, at, kind, rank, from, into)
}

/// Copies bytes of a leaf that is held under its score.
fn copy_held<B: Blocks>(
    on: &mut B,
    score: &Score,
    kind: u8,
    from: usize,
    into: &mut [u8],
) -> Result<(), BlockError>
    requires part { from + length into.old ≤ 8192 }
    ensures given { OnOk result ((B.state on.old).tells → (bytes : List ℕ) × ((B.state on.old).held score.now kind ≡ Some bytes) × ((i : ℕ) → i < length into.old → slice_index into.new i ≡ slice_index bytes (from + i))) }
    ensures pins { (B.state on.old).pins_left ≤ (B.state on.new).pins_left }
    ensures looks { Looks (B.state on.old) (B.state on.new) }
    ensures keeps { B.keeps on.old on.new }
    ensures cause { IfErr result (Caused ⊥ (λ b. (b ≡ 1) × ((B.state on.old).tells → (B.state on.old).held score.now kind ≡ None)) ⊥ (Rose (B.state on.old).arena_faults (B.state on.new).arena_faults)) }
{
    let mut block = [0; BLOCK];
    on.fetch(score, kind, &mut block)?;
    into.copy_from_slice(&block[from..from + into.len()]);
    Ok(())
}

impl Tree {
    /// Copies bytes of leaf `k`, which is where the pointer says; zeros where it is nowhere.
    fn copy_leaf<B: Blocks>(
        &self,
        on: &mut B,
        leaf: Pointer,
        from: usize,
        into: &mut [u8],
    ) -> Result<(), BlockError>
        requires hangs { Hangs (B.state on.old) self.now }
        requires block { (b : ℕ) → leaf ≡ Local b → (B.state on.old).is_block b }
        requires there { (B.state on.old).tells → (k : ℕ) × (leaf ≡ block_at (B.state on.old) self.now self.now.depth k) }
        requires part { from + length into.old ≤ 8192 }
        ensures given { OnOk result (self.now.dir ≡ false → (B.state on.old).tells ⊎ ((b : ℕ) × (leaf ≡ Local b)) → (i : ℕ) → i < length into.old → slice_index into.new i ≡ byte_at (B.state on.new).now (address_of leaf) (held_of (B.state on.new) (kind_at self.now.dir 0) leaf) (from + i)) }
        ensures got { OnOk result ((0 < (B.state on.old).pins_left) ⊎ Got (B.state on.old) (kind_at self.now.dir 0) leaf → Got (B.state on.new) (kind_at self.now.dir 0) leaf) }
        ensures pins { (B.state on.old).pins_left ≤ (B.state on.new).pins_left + 1 }
        ensures again { Got (B.state on.old) (kind_at self.now.dir 0) leaf → (B.state on.old).pins_left ≤ (B.state on.new).pins_left }
        ensures looks { Looks (B.state on.old) (B.state on.new) }
        ensures keeps { B.keeps on.old on.new }
        ensures cause { IfErr result (Refused (B.state on.old) (B.state on.new) (Names (B.state on.old) self.now)) }
    {
        match leaf {
            Pointer::Nil => {
                into.fill(0);
                Ok(())
            }
            Pointer::Local(at) => {
                copy_local(on, at, kind_at(self.dir, 0), self.rank, from, into)?;
                Ok(())
            }
            Pointer::Score(score) => {
                copy_held(on, &score, kind_number(self.dir, 0), from, into)?;
                Ok(())
            }
        }
    }

    /// Copies bytes of one leaf.
    pub fn copy_part<B: Blocks>(
        &self,
        on: &mut B,
        place: u64,
        into: &mut [u8],
    ) -> Result<(), BlockError>
        requires hangs { Hangs (B.state on.old) self.now }
        requires part { place % 8192 + length into.old ≤ 8192 }
        requires within { place < self.now.size }
        ensures given { OnOk result (self.now.dir ≡ false → IsLeafFound (B.state on.old) self.now (place / 8192) → (B.state on.old).tells ⊎ IsLocal (B.state on.new) self.now (place / 8192) → (i : ℕ) → i < length into.old → slice_index into.new i ≡ byte (B.state on.new) self.now (place + i)) }
        ensures way { OnOk result (HasLeafPins (B.state on.old) self.now (place / 8192) → LeafWay (B.state on.new) self.now (place / 8192)) }
        ensures pins { (B.state on.old).pins_left ≤ (B.state on.new).pins_left + self.now.depth + 1 }
        ensures near { (j : ℕ) → IsNext (B.state on.old) self.now j (place / 8192) → (B.state on.old).pins_left + passed self.now.depth j ≤ (B.state on.new).pins_left + passed self.now.depth (place / 8192) }
        ensures looks { Looks (B.state on.old) (B.state on.new) }
        ensures keeps { B.keeps on.old on.new }
        ensures cause { IfErr result (Refused (B.state on.old) (B.state on.new) (Names (B.state on.old) self.now)) }
    {
        let leaf = self.pointer_at(on, self.depth, place / LEAF)?;
        self.copy_leaf(on, leaf, (place % LEAF) as usize, into)?;
        Ok(())
    }
}
