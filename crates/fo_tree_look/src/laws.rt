//! What holds of a source over blocks between calls.
ghost use Rattle.std.specs.Prelude.{◌≡◌, ◌+◌, ◌*◌, ◌≤◌, ◌↔◌, ℕ, Some, None};
ghost use Rattle.fo_image.specs.declared.types.Pointer.TheVariants.{Local};
ghost use Rattle.fo_image.specs.declared.types.State.TheVariants.{Live};
ghost use Rattle.fo_tree_read.specs.of_crash.declared.place.Place.{Place};
ghost use Rattle.fo_tree_read.specs.of_ports.Sources.{source_bytes, IsReady, StaysReady, Undisturbed};
ghost use Rattle.fo_tree_look.specs.Source.{Over, IsPlainTree, HasBlock, Prepared, IsTopCurrent, form_of, address_here, held_here, leaves_of};

use crate::ways::Ways;
use fo_tree_read::Blocks;

/// The bytes are those of the leaves in memory; two leaves are two blocks, which stand at places of the source's kind, tag and rank. The
/// source's blocks have its tag, are live, of an epoch up to the high one, and not to be closed; its top is one of them. A source of
/// entries or of records has no leaf under a score. No leaf stands at the end and behind it.
pub fn holds<B: Blocks>(source: &Ways, on: &B)
    requires over { Over (B.state on.now) source.now.tree source.now.kept.items source.now.limit }
    ensures bytes_are { (leaves_of (B.state on.now) source.now.tree source.now.kept.items source.now.limit).bytes ≡ source_bytes (address_here (B.state on.now) source.now.tree) (held_here (B.state on.now) source.now.tree source.now.kept.items) (B.state on.now).now source.now.tree.size }
    ensures none_held { (i : ℕ) → (B.state on.now).tells → (IsPlainTree source.now.tree → ⊥) → held_here (B.state on.now) source.now.tree source.now.kept.items i ≡ None }
    ensures none_behind { (i : ℕ) → source.now.tree.size ≤ 8192 * i → (address_here (B.state on.now) source.now.tree i ≡ None) × (held_here (B.state on.now) source.now.tree source.now.kept.items i ≡ None) }
    ensures in_limit { source.now.tree.size ≤ source.now.limit }
    ensures apart { (i j at : ℕ) → (B.state on.now).tells → address_here (B.state on.now) source.now.tree i ≡ Some at → address_here (B.state on.now) source.now.tree j ≡ Some at → i ≡ j }
    ensures leaf_owned { (i at : ℕ) → address_here (B.state on.now) source.now.tree i ≡ Some at → HasBlock (B.state on.now) source.now.tree at }
    ensures top_owned { (at : ℕ) → source.now.tree.top ≡ Local at → HasBlock (B.state on.now) source.now.tree at }
    ensures leaf_stands { (i at : ℕ) → (B.state on.now).tells → address_here (B.state on.now) source.now.tree i ≡ Some at → (p : Place) × (B.state on.now).stands at p }
    ensures leaf_place { (i at : ℕ) (p : Place) → (B.state on.now).tells → address_here (B.state on.now) source.now.tree i ≡ Some at → (B.state on.now).stands at p → (p.kind ≡ (form_of source.now.tree source.now.generation source.now.limit).kind) × (p.tag ≡ source.now.tree.tag) × (p.rank ≡ source.now.tree.rank) }
    ensures owned { (at : ℕ) (p : Place) → (B.state on.now).tells → HasBlock (B.state on.now) source.now.tree at → (B.state on.now).stands at p → p.tag ≡ source.now.tree.tag }
    ensures live { (at : ℕ) → (B.state on.now).tells → HasBlock (B.state on.now) source.now.tree at → (((B.state on.now).label at).state ≡ Live) × (((B.state on.now).label at).epoch ≤ (B.state on.now).high) × ((B.state on.now).covered at → ⊥) }
{}

/// Where the source's blocks stay in place it keeps its leaves, over a device that tells nothing it stays whatever is done. What was
/// prepared stays so where the blocks that are ready do, and a part of it is prepared.
pub fn stays<B: Blocks>(source: &Ways, before: &B, after: &B)
    requires over { Over (B.state before.now) source.now.tree source.now.kept.items source.now.limit }
    requires keeps { B.keeps before.now after.now }
    ensures over { ((B.state before.now).tells → Undisturbed (leaves_of (B.state before.now) source.now.tree source.now.kept.items source.now.limit) source.now.tree.size (B.state before.now) (B.state after.now)) → Over (B.state after.now) source.now.tree source.now.kept.items source.now.limit }
    ensures leaves { ((B.state before.now).tells → Undisturbed (leaves_of (B.state before.now) source.now.tree source.now.kept.items source.now.limit) source.now.tree.size (B.state before.now) (B.state after.now)) → (B.state before.now).tells → ((i : ℕ) → (address_here (B.state after.now) source.now.tree i ≡ address_here (B.state before.now) source.now.tree i) × (held_here (B.state after.now) source.now.tree source.now.kept.items i ≡ held_here (B.state before.now) source.now.tree source.now.kept.items i)) × ((at : ℕ) → HasBlock (B.state after.now) source.now.tree at ↔ HasBlock (B.state before.now) source.now.tree at) }
    ensures still_current { ((at : ℕ) → HasBlock (B.state before.now) source.now.tree at → (B.state after.now).label at ≡ (B.state before.now).label at) → IsTopCurrent (B.state before.now) source.now.tree → IsTopCurrent (B.state after.now) source.now.tree }
    ensures still_prepared { ((at : ℕ) → IsReady source.now.tree.tag (B.state before.now) at → StaysReady (B.state before.now) (B.state after.now) at) → (o n : ℕ) → Prepared (B.state before.now) source.now.tree source.now.kept.items source.now.limit o n → Prepared (B.state after.now) source.now.tree source.now.kept.items source.now.limit o n }
    ensures prepared_within { (o n p m : ℕ) → Prepared (B.state before.now) source.now.tree source.now.kept.items source.now.limit o n → o ≤ p → p + m ≤ o + n → Prepared (B.state before.now) source.now.tree source.now.kept.items source.now.limit p m × (o + n ≤ source.now.limit) }
{}
