//! One leaf is read.
ghost use Rattle.std.specs.Prelude.{◌≡◌, ◌⊎◌, ◌+◌, ◌<◌, ◌≤◌, ℕ, length, slice_index, OnOk, IfErr, true, false};
ghost use Rattle.fo_base.specs.Cause.{Rose};
ghost use Rattle.fo_image.specs.declared.types.Kind.TheVariants.{Data, Dir};
ghost use Rattle.fo_image.specs.declared.types.State.TheVariants.{Live};
ghost use Rattle.fo_ports.specs.Blocks.{Reads};
ghost use Rattle.fo_ports.specs.Causes.{Caused};
ghost use Rattle.fo_ports.specs.State.{Looks};
ghost use Rattle.fo_ports_source.specs.Source.{IsLeaf, IsHeld};

use fo_base::BLOCK;
use fo_image::{Kind, State};
use fo_ports::{BlockError, Blocks};

/// Copies a leaf, and pins it.
fn get_leaf<B: Blocks>(
    on: &mut B,
    at: u32,
    kind: Kind,
    tag: u32,
    rank: u32,
    into: &mut [u8],
) -> Result<(), BlockError>
    requires leaf { IsLeaf (B.state on.old) kind tag rank at }
    requires kind { (kind ≡ Data 0) ⊎ (kind ≡ Dir 0) }
    requires length { length into.old ≡ 8192 }
    ensures bytes { OnOk result (Reads kind ((B.state on.new).now at) into.new) }
    ensures kind { OnOk result (((B.state on.new).label at).kind ≡ kind) }
    ensures long { OnOk result (length (((B.state on.new).now at).bytes) ≡ 8192) }
    ensures pinned { OnOk result ((0 < (B.state on.old).pins_left) ⊎ (B.state on.old).pinned at → (B.state on.new).pinned at) }
    ensures pins { (B.state on.old).pins_left ≤ (B.state on.new).pins_left + 1 }
    ensures looks { Looks (B.state on.old) (B.state on.new) }
    ensures keeps { B.keeps on.old on.new }
    ensures cause { IfErr result (Caused ⊥ (λ b. ((B.state on.old).tells → ⊥) × (B.state on.old).is_block b) (Rose (B.state on.old).faults (B.state on.new).faults) ⊥) }
{
    let _ = tag;
    on.get(at, kind, rank, into)?;
    Ok(())
}

/// Copies bytes of a leaf of data.
pub(crate) fn copy_from<B: Blocks>(
    on: &mut B,
    at: u32,
    kind: Kind,
    tag: u32,
    rank: u32,
    from: usize,
    into: &mut [u8],
) -> Result<(), BlockError>
    requires leaf { IsLeaf (B.state on.old) kind tag rank at }
    requires kind { (kind ≡ Data 0) ⊎ (kind ≡ Dir 0) }
    requires part { from + length into.old ≤ 8192 }
    ensures given { OnOk result (kind ≡ Data 0 → (i : ℕ) → i < length into.old → slice_index into.new i ≡ slice_index (((B.state on.new).now at).bytes) (from + i)) }
    ensures pinned { OnOk result ((0 < (B.state on.old).pins_left) ⊎ (B.state on.old).pinned at → (B.state on.new).pinned at) }
    ensures pins { (B.state on.old).pins_left ≤ (B.state on.new).pins_left + 1 }
    ensures looks { Looks (B.state on.old) (B.state on.new) }
    ensures keeps { B.keeps on.old on.new }
    ensures cause { IfErr result (Caused ⊥ (λ b. ((B.state on.old).tells → ⊥) × (B.state on.old).is_block b) (Rose (B.state on.old).faults (B.state on.new).faults) ⊥) }
{
    let mut block = [0; BLOCK];
    get_leaf(on, at, kind, tag, rank, &mut block)?;
    into.copy_from_slice(&block[from..from + into.len()]);
    Ok(())
}

/// Pins a leaf, and looks at its label.
pub(crate) fn pin_block<B: Blocks>(
    on: &mut B,
    at: u32,
    kind: Kind,
    tag: u32,
    rank: u32,
) -> Result<(), BlockError>
    requires leaf { IsLeaf (B.state on.old) kind tag rank at }
    requires kind { (kind ≡ Data 0) ⊎ (kind ≡ Dir 0) }
    ensures held { OnOk result ((0 < (B.state on.old).pins_left) ⊎ (B.state on.old).pinned at → IsHeld (B.state on.new) kind tag at) }
    ensures pins { (B.state on.old).pins_left ≤ (B.state on.new).pins_left + 1 }
    ensures looks { Looks (B.state on.old) (B.state on.new) }
    ensures keeps { B.keeps on.old on.new }
    ensures cause { IfErr result (Caused ⊥ (λ b. ((B.state on.old).tells → ⊥) × (B.state on.old).is_block b) (Rose (B.state on.old).faults (B.state on.new).faults) ⊥) }
{
    let mut block = [0; BLOCK];
    get_leaf(on, at, kind, tag, rank, &mut block)?;
    if has_label(on, at, tag) {
        Ok(())
    } else {
        Err(BlockError::Damaged(at))
    }
}

/// Whether a block is live, of this tag, and of an epoch up to the high one.
fn has_label<B: Blocks>(on: &B, at: u32, tag: u32) -> bool
    requires block { (B.state on.now).is_block at }
    ensures yes { result ≡ true → (((B.state on.now).label at).state ≡ Live) × (((B.state on.now).label at).tag ≡ tag) × (((B.state on.now).label at).epoch ≤ (B.state on.now).high) }
    ensures no { result ≡ false → ((B.state on.now).label at).state ≡ Live → ((B.state on.now).label at).tag ≡ tag → ((B.state on.now).label at).epoch ≤ (B.state on.now).high → ⊥ }
{
    let label = on.label(at);
    matches!(label.state, State::Live) && label.tag == tag && label.epoch <= on.high()
}
