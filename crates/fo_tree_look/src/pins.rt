//! The ways to leaves are prepared.
ghost use Rattle.std.specs.Prelude.{◌≡◌, ◌≢◌, ◌⊎◌, ◌+◌, ◌-◌, ◌*◌, ◌/◌, ◌%◌, ◌≤◌, ◌<◌, ℕ, length, IfOk, OnOk, IfErr, IsTrue, true};
ghost use Rattle.fo_image.specs.declared.types.Score.{Score};
ghost use Rattle.fo_image.specs.declared.types.State.TheVariants.{Live};
ghost use Rattle.fo_image.specs.declared.types.Pointer.TheVariants.{Local, Score as Held};
ghost use Rattle.fo_image.specs.Format.{kind_code};
ghost use Rattle.fo_tree_read.specs.of_crash.declared.place.Place.{Place};
ghost use Rattle.fo_tree_read.specs.of_ports.State.{Looks};
ghost use Rattle.fo_tree_read.specs.Tree.{Hangs, kind_at, kind_down, below, block_at, StandsAs, Got, Failed, Refused, Names};
ghost use Rattle.fo_tree_read.specs.Reading.{passed, most, IsNext, HasLeafPins};
ghost use Rattle.fo_tree_look.specs.Source.{IsPlainTree, HasLabel, IsPrepared, IsKept, Extends, Ready, WayReady, WayGot, Looked, WaysReady, Over, seen};

use crate::keep::{keep, kept_pointer};
use crate::place::{LEAF, SLOTS, is_plain, kind_at, kind_number};
use crate::ways::Kept;
use fo_image::{BLOCK, Kind, Pointer, State};
use fo_tree_read::{BlockError, Blocks, Tree};

/// Prepares the ways to bytes that the source has.
pub(crate) fn prepare_ways<B: Blocks>(
    tree: &Tree,
    kept: &mut Vec<Kept>,
    on: &mut B,
    offset: u64,
    len: u64,
) -> Result<(), BlockError>
    requires over { (limit : ℕ) × Over (B.state on.old) tree.now kept.old.items limit }
    requires within { offset + len ≤ tree.now.size }
    ensures ready { OnOk result (most tree.now.depth len ≤ (B.state on.old).pins_left → WaysReady (B.state on.new) tree.now kept.new.items offset len) }
    ensures pins { (B.state on.old).pins_left ≤ (B.state on.new).pins_left + most tree.now.depth len }
    ensures more { Extends (B.state on.new) kept.old.items kept.new.items }
    ensures looks { Looks (B.state on.old) (B.state on.new) }
    ensures keeps { B.keeps on.old on.new }
    ensures cause { IfErr result (Refused (B.state on.old) (B.state on.new) (Names (B.state on.old) tree.now)) }
{
    let mut done = 0;
    while done < len {
        let place = offset + done;
        let count = (LEAF - place % LEAF).min(len - done);
        prepare_leaf(tree, kept, on, place)?;
        done += count;
    }
    Ok(())
}

/// Prepares the way to the leaf of a byte, and the leaf.
fn prepare_leaf<B: Blocks>(
    tree: &Tree,
    kept: &mut Vec<Kept>,
    on: &mut B,
    place: u64,
) -> Result<(), BlockError>
    requires over { (limit : ℕ) × Over (B.state on.old) tree.now kept.old.items limit }
    requires within { place < tree.now.size }
    ensures ready { OnOk result (HasLeafPins (B.state on.old) tree.now (place / 8192) → WayReady (B.state on.new) tree.now kept.new.items tree.now.depth (place / 8192)) }
    ensures pins { (B.state on.old).pins_left ≤ (B.state on.new).pins_left + tree.now.depth + 1 }
    ensures near { (j : ℕ) → IsNext (B.state on.old) tree.now j (place / 8192) → (B.state on.old).pins_left + passed tree.now.depth j ≤ (B.state on.new).pins_left + passed tree.now.depth (place / 8192) }
    ensures more { Extends (B.state on.new) kept.old.items kept.new.items }
    ensures looks { Looks (B.state on.old) (B.state on.new) }
    ensures keeps { B.keeps on.old on.new }
    ensures cause { IfErr result (Refused (B.state on.old) (B.state on.new) (Names (B.state on.old) tree.now)) }
{
    let mut nothing = [0; 0];
    tree.copy_part(on, place, &mut nothing)?;
    look_down(tree, kept, on, tree.depth, place / LEAF)?;
    Ok(())
}

/// Looks at block `k` of those so many steps below the top, and at all above it, and gives where it is.
fn look_down<B: Blocks>(
    tree: &Tree,
    kept: &mut Vec<Kept>,
    on: &mut B,
    down: u8,
    k: u64,
) -> Result<Pointer, BlockError>
    requires over { (limit : ℕ) × Over (B.state on.old) tree.now kept.old.items limit }
    requires down { down ≤ tree.now.depth }
    ensures looked { IfOk result (λ p. Looked (B.state on.old) (B.state on.new) tree.now kept.new.items down k p) }
    ensures pins { WayGot (B.state on.old) tree.now down k → (B.state on.old).pins_left ≤ (B.state on.new).pins_left }
    ensures more { Extends (B.state on.new) kept.old.items kept.new.items }
    ensures looks { Looks (B.state on.old) (B.state on.new) }
    ensures keeps { B.keeps on.old on.new }
    ensures cause { IfErr result (Refused (B.state on.old) (B.state on.new) (Names (B.state on.old) tree.now)) }
{
    if down == 0 {
        look_into(tree, kept, on, 0, tree.top)?;
        return Ok(tree.top);
    }
    let above = look_down(tree, kept, on, down - 1, k / SLOTS)?;
    let pointer = look_below(tree, kept, on, down - 1, above, (k % SLOTS) as u32)?;
    look_into(tree, kept, on, down, pointer)?;
    Ok(pointer)
}

/// The pointer in slot `i` of the block that a pointer names, which was looked at.
fn look_below<B: Blocks>(
    tree: &Tree,
    kept: &[Kept],
    on: &mut B,
    down: u8,
    above: Pointer,
    i: u32,
) -> Result<Pointer, BlockError>
    requires hangs { Hangs (B.state on.old) tree.now }
    requires down { down < tree.now.depth }
    requires block { (b : ℕ) → above ≡ Local b → (B.state on.old).is_block b }
    requires there { (B.state on.old).tells → (k : ℕ) × (above ≡ block_at (B.state on.old) tree.now down k) }
    requires kept { (score : Score) → above ≡ Held score → IsKept kept.now score (kind_code (kind_down tree.now down)) }
    requires slot { i < 409 }
    ensures found { IfOk result (λ p. p ≡ below (seen (B.state on.new) kept.now) (kind_down tree.now down) above i) }
    ensures block { IfOk result (λ p. (b : ℕ) → p ≡ Local b → (B.state on.new).is_block b) }
    ensures pins { Got (B.state on.old) (kind_down tree.now down) above → (B.state on.old).pins_left ≤ (B.state on.new).pins_left }
    ensures looks { Looks (B.state on.old) (B.state on.new) }
    ensures keeps { B.keeps on.old on.new }
    ensures cause { IfErr result (Failed (B.state on.old) (B.state on.new)) }
{
    match above {
        Pointer::Nil => Ok(Pointer::Nil),
        Pointer::Local(at) => {
            let pointer = tree.step(on, at, down, i)?;
            Ok(pointer)
        }
        Pointer::Score(score) => {
            let kind = kind_number(tree.dir, tree.depth - down);
            Ok(kept_pointer(kept, &score, kind, i))
        }
    }
}

/// Looks at the block that a pointer names so many steps below the top.
fn look_into<B: Blocks>(
    tree: &Tree,
    kept: &mut Vec<Kept>,
    on: &mut B,
    down: u8,
    pointer: Pointer,
) -> Result<(), BlockError>
    requires over { (limit : ℕ) × Over (B.state on.old) tree.now kept.old.items limit }
    requires down { down ≤ tree.now.depth }
    requires block { (b : ℕ) → pointer ≡ Local b → (B.state on.old).is_block b }
    requires there { (B.state on.old).tells → (k : ℕ) × (pointer ≡ block_at (B.state on.old) tree.now down k) }
    ensures ready { OnOk result (Got (B.state on.old) (kind_down tree.now down) pointer → Ready (B.state on.new) tree.now kept.new.items down pointer) }
    ensures pins { Got (B.state on.old) (kind_down tree.now down) pointer → (B.state on.old).pins_left ≤ (B.state on.new).pins_left }
    ensures more { Extends (B.state on.new) kept.old.items kept.new.items }
    ensures looks { Looks (B.state on.old) (B.state on.new) }
    ensures keeps { B.keeps on.old on.new }
    ensures cause { IfErr result (Refused (B.state on.old) (B.state on.new) (Names (B.state on.old) tree.now)) }
{
    let level = tree.depth - down;
    match pointer {
        Pointer::Nil => Ok(()),
        Pointer::Local(at) => {
            let kind = kind_at(tree.dir, level);
            look_local(on, at, kind, tree.tag, tree.rank + level as u32)?;
            Ok(())
        }
        Pointer::Score(score) => {
            may_keep(tree, on, level)?;
            keep(kept, on, &score, kind_number(tree.dir, level))?;
            Ok(())
        }
    }
}

/// Refuses a leaf of entries or records under a score.
fn may_keep<B: Blocks>(tree: &Tree, on: &B, level: u8) -> Result<(), BlockError>
    requires plain { (B.state on.now).tells → level ≡ 0 → (IsPlainTree tree.now → ⊥) → ⊥ }
    ensures may { OnOk result (IsPlainTree tree.now ⊎ (0 < level)) }
    ensures cause { IfErr result (Failed (B.state on.now) (B.state on.now)) }
{
    if level == 0 && !is_plain(tree) {
        Err(BlockError::Damaged(on.root()))
    } else {
        Ok(())
    }
}

/// Gets a block, and looks at its label.
fn look_local<B: Blocks>(
    on: &mut B,
    at: u32,
    kind: Kind,
    tag: u32,
    rank: u32,
) -> Result<(), BlockError>
    requires block { (B.state on.old).is_block at }
    requires place { (B.state on.old).tells → StandsAs (B.state on.old) kind rank at }
    requires told { (B.state on.old).tells → HasLabel (B.state on.old) tag at }
    ensures ready { OnOk result ((B.state on.old).pinned at → IsPrepared (B.state on.new) kind tag at) }
    ensures pins { (B.state on.old).pinned at → ((B.state on.old).label at).kind ≡ kind → (B.state on.old).pins_left ≤ (B.state on.new).pins_left }
    ensures looks { Looks (B.state on.old) (B.state on.new) }
    ensures keeps { B.keeps on.old on.new }
    ensures cause { IfErr result (Failed (B.state on.old) (B.state on.new)) }
{
    let mut block = [0; BLOCK];
    on.get(at, kind, rank, &mut block)?;
    if has_label(on, at, tag) {
        Ok(())
    } else {
        Err(BlockError::Damaged(at))
    }
}

/// Whether a block is live, of this tag, and of an epoch up to the high one.
fn has_label<B: Blocks>(on: &B, at: u32, tag: u32) -> bool
    requires { (B.state on.now).is_block at }
    ensures is { result ≡ true → HasLabel (B.state on.now) tag at }
    ensures all { HasLabel (B.state on.now) tag at → result ≡ true }
{
    let label = on.label(at);
    matches!(label.state, State::Live) && label.tag == tag && label.epoch <= on.high()
}
