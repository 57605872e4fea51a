//! What the blocks of a source are, and that it may be linked once it was changed.
ghost use Rattle.std.specs.Prelude.{◌≡◌, ◌≢◌, ◌⊎◌, ◌↔◌, ◌≤◌, ℕ, false, Some};
ghost use Rattle.fo_image.specs.declared.types.Pointer.{Pointer};
ghost use Rattle.fo_image.specs.declared.types.Pointer.TheVariants.{Nil, Local};
ghost use Rattle.fo_crash.specs.declared.slot.Slot.TheVariants.{Entry as Head};
ghost use Rattle.fo_crash.specs.Images.{Reaches};
ghost use Rattle.fo_crash.specs.Steps.{Through};
ghost use Rattle.fo_ports.specs.State.{IsPointers};
ghost use Rattle.fo_ports.specs.Sources.{Changes, ComesFor, Grows, Made, MayZero, Owned};
ghost use Rattle.fo_ports.specs.Alike.{KeepsAlike, LeadsAlike, stem_of};
ghost use Rattle.fo_tree_look.specs.Source.{Over, HasBlock, address_here, form_of, leaves_of};
ghost use Rattle.fo_tree_link.specs.of_tree_down.Clear.{EndsClear};
ghost use Rattle.fo_tree_link.specs.Link.{entry_of, CanLink};
ghost use Rattle.fo_tree_link.specs.Change.{HangsInTree, KeepsOthers};

use crate::source::Source;
use fo_ports::Blocks;
use fo_tree_link::may_link;

/// Where the device tells, a source's blocks are just those to which its entry leads in memory through blocks of pointers, and each of its
/// leaves hangs from its entry.
pub fn owned_blocks<B: Blocks>(source: &Source, on: &B)
    requires { Over (B.state on.now) source.now.ways.tree source.now.ways.kept.items source.now.ways.limit }
    ensures blocks { (B.state on.now).tells → (b : ℕ) → HasBlock (B.state on.now) source.now.ways.tree b ↔ Through (IsPointers (B.state on.now)) (B.state on.now).now (Head (entry_of source.now.ways.tree source.now.ways.generation)) b }
    ensures leaves { (B.state on.now).tells → (i b : ℕ) → address_here (B.state on.now) source.now.ways.tree i ≡ Some b → Reaches (B.state on.now).now (Head (entry_of source.now.ways.tree source.now.ways.generation)) b }
{}

/// A source of data that hung from its entry in slot `i` of block `at` may be linked there once calls of the trait changed it: what is asked
/// here follows from the clauses of each (`comes`, `only`, `grows`, and of `changes` what is made, stays, and comes in the place of others).
pub fn may_link_changed<B: Blocks>(
    source: &Source,
    new: &Source,
    before: &B,
    after: &B,
    at: u32,
    i: u32,
)
    requires over { Over (B.state before.now) source.now.ways.tree source.now.ways.kept.items source.now.ways.limit }
    requires now { Over (B.state after.now) new.now.ways.tree new.now.ways.kept.items new.now.ways.limit }
    requires keeps { B.keeps before.now after.now }
    requires entry { (((B.state before.now).now at).slot i ≡ Head (entry_of source.now.ways.tree source.now.ways.generation)) × (((B.state after.now).now at).slot i ≡ Head (entry_of source.now.ways.tree source.now.ways.generation)) }
    requires form { form_of new.now.ways.tree new.now.ways.generation new.now.ways.limit ≡ form_of source.now.ways.tree source.now.ways.generation source.now.ways.limit }
    requires data { source.now.ways.tree.dir ≡ false }
    requires longer { source.now.ways.tree.size ≤ new.now.ways.tree.size }
    requires grows { Grows (B.state before.now) (B.state after.now) (leaves_of (B.state before.now) source.now.ways.tree source.now.ways.kept.items source.now.ways.limit) (leaves_of (B.state after.now) new.now.ways.tree new.now.ways.kept.items new.now.ways.limit) }
    requires comes { (B.state before.now).tells → (from : Pointer) → ComesFor (B.state before.now) source.now.ways.tree.top from → ComesFor (B.state after.now) new.now.ways.tree.top from }
    requires only { (B.state before.now).tells → new.now.ways.tree.top ≢ Nil → (y x : ℕ) → (B.state after.now).instead y x → (new.now.ways.tree.top ≡ Local y) ⊎ ((B.state before.now).instead y x × (source.now.ways.tree.top ≡ Local y → ⊥)) }
    requires adds { (y x : ℕ) → (B.state after.now).instead y x → (B.state before.now).instead y x ⊎ Made (B.state before.now) (B.state after.now) y }
    requires others { KeepsOthers (B.state before.now) (B.state after.now) source.now.ways.tree }
    requires linked { (B.state before.now).tells → HangsInTree (B.state before.now) source.now.ways.tree at i }
    ensures { (B.state after.now).tells → CanLink (B.state after.now) new.now.ways.tree new.now.ways.generation at i }
{
    may_link(
        &source.ways.tree,
        &new.ways.tree,
        &source.ways.kept,
        before,
        after,
        source.ways.generation,
        at,
        i,
    );
}

/// Any source that hung from its entry in slot `i` of block `at` may be linked there once leaf `k` was owned, at this address, and nothing
/// stands behind its end: what is asked here are the clauses of `own_leaf`.
pub fn may_link_owned<B: Blocks>(
    source: &Source,
    new: &Source,
    before: &B,
    after: &B,
    k: u32,
    leaf: u32,
    at: u32,
    i: u32,
)
    requires over { Over (B.state before.now) source.now.ways.tree source.now.ways.kept.items source.now.ways.limit }
    requires now { Over (B.state after.now) new.now.ways.tree new.now.ways.kept.items new.now.ways.limit }
    requires keeps { B.keeps before.now after.now }
    requires entry { (((B.state before.now).now at).slot i ≡ Head (entry_of source.now.ways.tree source.now.ways.generation)) × (((B.state after.now).now at).slot i ≡ Head (entry_of source.now.ways.tree source.now.ways.generation)) }
    requires form { form_of new.now.ways.tree new.now.ways.generation new.now.ways.limit ≡ form_of source.now.ways.tree source.now.ways.generation source.now.ways.limit }
    requires longer { source.now.ways.tree.size ≤ new.now.ways.tree.size }
    requires grows { Grows (B.state before.now) (B.state after.now) (leaves_of (B.state before.now) source.now.ways.tree source.now.ways.kept.items source.now.ways.limit) (leaves_of (B.state after.now) new.now.ways.tree new.now.ways.kept.items new.now.ways.limit) }
    requires comes { (B.state before.now).tells → (from : Pointer) → ComesFor (B.state before.now) source.now.ways.tree.top from → ComesFor (B.state after.now) new.now.ways.tree.top from }
    requires only { (B.state before.now).tells → new.now.ways.tree.top ≢ Nil → (y x : ℕ) → (B.state after.now).instead y x → (new.now.ways.tree.top ≡ Local y) ⊎ ((B.state before.now).instead y x × (source.now.ways.tree.top ≡ Local y → ⊥)) }
    requires owned { Owned (form_of source.now.ways.tree source.now.ways.generation source.now.ways.limit) source.now.ways.tree.size k leaf (B.state before.now) (B.state after.now) (leaves_of (B.state before.now) source.now.ways.tree source.now.ways.kept.items source.now.ways.limit) (leaves_of (B.state after.now) new.now.ways.tree new.now.ways.kept.items new.now.ways.limit) }
    requires changes { Changes source.now.ways.tree.tag (HasBlock (B.state before.now) source.now.ways.tree) (MayZero (form_of source.now.ways.tree source.now.ways.generation source.now.ways.limit) source.now.ways.tree.size k (B.state before.now) (leaves_of (B.state before.now) source.now.ways.tree source.now.ways.kept.items source.now.ways.limit)) (B.state before.now) (B.state after.now) }
    requires trimmed { (B.state after.now).tells → EndsClear (B.state after.now) new.now.ways.tree new.now.ways.kept.items }
    requires linked { (B.state before.now).tells → HangsInTree (B.state before.now) source.now.ways.tree at i }
    ensures { (B.state after.now).tells → CanLink (B.state after.now) new.now.ways.tree new.now.ways.generation at i }
{
    may_link(
        &source.ways.tree,
        &new.ways.tree,
        &source.ways.kept,
        before,
        after,
        source.ways.generation,
        at,
        i,
    );
}

/// Where a leaf was owned of a source that hung from its entry in slot `i` of block `at`, the entry as it is then leads from there to no
/// more of leaves of records than memory's does, so that `link` shows no more of them: what is asked here are clauses of `own_leaf`.
pub fn may_show_linked<B: Blocks>(
    source: &Source,
    new: &Source,
    before: &B,
    after: &B,
    at: u32,
    i: u32,
)
    requires over { Over (B.state before.now) source.now.ways.tree source.now.ways.kept.items source.now.ways.limit }
    requires now { Over (B.state after.now) new.now.ways.tree new.now.ways.kept.items new.now.ways.limit }
    requires keeps { B.keeps before.now after.now }
    requires entry { ((B.state before.now).now at).slot i ≡ Head (entry_of source.now.ways.tree source.now.ways.generation) }
    requires alike { KeepsAlike (B.state before.now) (B.state after.now) (stem_of (form_of source.now.ways.tree source.now.ways.generation source.now.ways.limit) source.now.ways.tree.size source.now.ways.tree.top) (stem_of (form_of new.now.ways.tree new.now.ways.generation new.now.ways.limit) new.now.ways.tree.size new.now.ways.tree.top) }
    requires linked { (B.state before.now).tells → HangsInTree (B.state before.now) source.now.ways.tree at i }
    ensures { LeadsAlike (B.state after.now).may_leave (B.state after.now).now at i (Head (entry_of new.now.ways.tree new.now.ways.generation)) }
{}
