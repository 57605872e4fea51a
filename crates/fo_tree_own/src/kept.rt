//! The block below a slot is made current where it is under a score.
ghost use Rattle.std.specs.Prelude.{◌≡◌, ◌⊎◌, ◌+◌, ◌*◌, ◌/◌, ◌%◌, ◌^◌, ◌<◌, ◌≤◌, ℕ, suc, List, length, Some};
ghost use Rattle.fo_image.specs.declared.types.Kind.{Kind};
ghost use Rattle.fo_image.specs.declared.types.Kind.TheVariants.{Data};
ghost use Rattle.fo_image.specs.declared.types.Pointer.TheVariants.{Score as Held};
ghost use Rattle.fo_image.specs.Format.{kind_code};
ghost use Rattle.fo_crash.specs.declared.place.Place.{Place};
ghost use Rattle.fo_crash.specs.Images.{target};
ghost use Rattle.fo_tree_look.specs.of_ports.Blocks.{IsInner};
ghost use Rattle.fo_tree_look.specs.of_tree_read.Tree.{kind_at};
ghost use Rattle.fo_tree_look.specs.Source.{IsPlainTree, IsKept, find_kept};
ghost use Rattle.fo_tree_own.specs.Step.{IsOwn, IsBare, Filled, HasKept, Links};

use crate::below::{SLOTS, kind_at};
use crate::fill::{fill_leaf, fill_slots};
use fo_crash::Slot;
use fo_image::{Pointer, Score};
use fo_tree_look::{Blocks, Kept, Tree, kept_bytes};

/// Makes block `k` of a level current, which is under a score: it is one with what was kept of it, to which the slot above is led.
pub fn kept_below<B: Blocks>(
    tree: &Tree,
    kept: &[Kept],
    on: &mut B,
    above: u32,
    level: u8,
    k: u64,
    score: &Score,
) -> u32
    requires above { IsOwn (B.state on.old) tree.now (suc level) (k / 409) above }
    requires leads { target (((B.state on.old).now above).slot (k % 409)) ≡ Held score.now }
    requires kept { IsKept kept.now score.now (kind_code (kind_at tree.now.dir level)) }
    requires plain { IsPlainTree tree.now ⊎ (0 < level) }
    requires level { level < 4 }
    requires low { tree.now.rank < 2 ^ 31 }
    requires spare { 0 < (B.state on.old).spare }
    ensures links { Links tree.now level (k / 409) above (k % 409) (Held score.now) result (B.state on.old) (B.state on.new) }
    ensures content { (bytes : List ℕ) → find_kept kept.now score.now (kind_code (kind_at tree.now.dir level)) ≡ Some bytes → HasKept (B.state on.new) level result bytes }
    ensures keeps { B.keeps on.old on.new }
{
    let kind = kind_at(tree.dir, level);
    let made = on.new_block(kind, tree.tag, tree.rank + level as u32);
    fill_kept(tree, kept, on, made, level, score);
    on.put_slot(
        above,
        (k % SLOTS) as u32,
        Slot::Pointer(Pointer::Local(made)),
    );
    made
}

/// Fills a block that was given out with what was kept of it.
pub fn fill_kept<B: Blocks>(
    tree: &Tree,
    kept: &[Kept],
    on: &mut B,
    at: u32,
    level: u8,
    score: &Score,
)
    requires bare { IsBare (B.state on.old) (kind_at tree.now.dir level) at }
    requires plain { IsPlainTree tree.now ⊎ (0 < level) }
    requires level { level ≤ 4 }
    requires place { (B.state on.old).tells → (p : Place) → (B.state on.old).stands at p → p.rank ≡ tree.now.rank + level }
    requires kind { (B.state on.old).tells → (p : Place) → (B.state on.old).stands at p → p.kind ≡ kind_at tree.now.dir level }
    ensures filled { Filled at (B.state on.old) (B.state on.new) }
    ensures bare { IsBare (B.state on.new) (kind_at tree.now.dir level) at }
    ensures content { (bytes : List ℕ) → find_kept kept.now score.now (kind_code (kind_at tree.now.dir level)) ≡ Some bytes → HasKept (B.state on.new) level at bytes }
    ensures keeps { B.keeps on.old on.new }
{
    let found = kept_bytes(kept, score, kind_number(tree.dir, level));
    if let Some(bytes) = found {
        fill_with(on, at, level, &bytes);
    }
}

/// Fills a block that was given out with these bytes, or with the scores that they spell.
fn fill_with<B: Blocks>(on: &mut B, at: u32, level: u8, bytes: &[u8])
    requires bare { (kind : Kind) × IsBare (B.state on.old) kind at × (level ≡ 0 → kind ≡ Data 0) × (0 < level → IsInner kind) }
    requires length { length bytes.now ≡ 8192 }
    requires formed { level ≡ 0 → (B.state on.old).tells → (p : Place) → (B.state on.old).stands at p → (p.kind ≡ Data 0) × (p.rank % 32 ≡ 16 → ⊥) }
    ensures filled { Filled at (B.state on.old) (B.state on.new) }
    ensures bare { (kind : Kind) → IsBare (B.state on.old) kind at → IsBare (B.state on.new) kind at }
    ensures content { HasKept (B.state on.new) level at bytes.now }
    ensures keeps { B.keeps on.old on.new }
{
    if level == 0 {
        fill_leaf(on, at, bytes)
    } else {
        fill_slots(on, at, bytes)
    }
}

/// The number by which the kind of a block of a source is known where it is held.
fn kind_number(dir: bool, level: u8) -> u8
    requires { level ≤ 4 }
    ensures { result ≡ kind_code (kind_at dir level) }
{
    if dir { 8 + level } else { level }
}
