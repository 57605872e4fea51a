//! Blocks that were given out are filled with what was kept under a score.
ghost use Rattle.std.specs.Prelude.{◌≡◌, ◌≢◌, ◌*◌, ◌%◌, ◌<◌, ℕ, length, take, drop};
ghost use Rattle.fo_image.specs.declared.types.Kind.{Kind};
ghost use Rattle.fo_image.specs.declared.types.Kind.TheVariants.{Data};
ghost use Rattle.fo_image.specs.declared.types.Pointer.TheVariants.{Local};
ghost use Rattle.fo_image.specs.Format.{PointerHolds};
ghost use Rattle.fo_crash.specs.declared.place.Place.{Place};
ghost use Rattle.fo_crash.specs.declared.slot.Slot.TheVariants.{Pointer as To};
ghost use Rattle.fo_crash.specs.Steps.{PutsSlot};
ghost use Rattle.fo_tree_look.specs.of_ports.Blocks.{IsInner};
ghost use Rattle.fo_tree_look.specs.of_tree_read.Tree.{score_of};
ghost use Rattle.fo_tree_own.specs.Step.{IsBare, Filled};

use fo_crash::Slot;
use fo_image::Pointer;
use fo_tree_look::{Blocks, score_in};

/// Fills a leaf that was given out.
pub(crate) fn fill_leaf<B: Blocks>(on: &mut B, at: u32, bytes: &[u8])
    requires bare { IsBare (B.state on.old) (Data 0) at }
    requires length { length bytes.now ≡ 8192 }
    requires formed { (B.state on.old).tells → (p : Place) → (B.state on.old).stands at p → (p.kind ≡ Data 0) × (p.rank % 32 ≡ 16 → ⊥) }
    ensures filled { Filled at (B.state on.old) (B.state on.new) }
    ensures bare { (kind : Kind) → IsBare (B.state on.old) kind at → IsBare (B.state on.new) kind at }
    ensures content { ((B.state on.new).now at).bytes ≡ bytes.now }
    ensures keeps { B.keeps on.old on.new }
{
    on.put_bytes(at, 0, bytes);
}

/// Fills a block of pointers that was given out.
pub(crate) fn fill_slots<B: Blocks>(on: &mut B, at: u32, bytes: &[u8])
    requires bare { (kind : Kind) × IsInner kind × IsBare (B.state on.old) kind at }
    requires length { length bytes.now ≡ 8192 }
    ensures filled { Filled at (B.state on.old) (B.state on.new) }
    ensures bare { (kind : Kind) → IsBare (B.state on.old) kind at → IsBare (B.state on.new) kind at }
    ensures content { (j : ℕ) → j < 409 → ((B.state on.new).now at).slot j ≡ To (score_of (take 20 (drop (20 * j) bytes.now))) }
    ensures bytes { ((B.state on.new).now at).bytes ≡ ((B.state on.old).now at).bytes }
    ensures keeps { B.keeps on.old on.new }
{
    for i in 0..409 {
        put_score(on, at, i, score_in(bytes, i as usize));
    }
}

/// Puts a score, or nothing, into a block of pointers that was given out.
fn put_score<B: Blocks>(on: &mut B, at: u32, i: u32, pointer: Pointer)
    requires bare { (kind : Kind) × IsInner kind × IsBare (B.state on.old) kind at }
    requires slot { i < 409 }
    requires holds { PointerHolds pointer }
    requires none { (b : ℕ) → pointer ≢ Local b }
    ensures filled { Filled at (B.state on.old) (B.state on.new) }
    ensures bare { (kind : Kind) → IsBare (B.state on.old) kind at → IsBare (B.state on.new) kind at }
    ensures puts { PutsSlot at i (To pointer) (B.state on.old).now (B.state on.new).now }
    ensures keeps { B.keeps on.old on.new }
{
    on.put_slot(at, i, Slot::Pointer(pointer));
}
