//! Where a source that was changed may be linked.
ghost use Rattle.std.specs.Prelude.{◌≡◌, ◌≢◌, ◌⊎◌, ◌-◌, ◌^◌, ◌<◌, ◌≤◌, ℕ, true};
ghost use Rattle.fo_image.specs.declared.types.Score.{Score};
ghost use Rattle.fo_image.specs.declared.types.Pointer.{Pointer};
ghost use Rattle.fo_image.specs.declared.types.Pointer.TheVariants.{Nil, Local, Score as Held};
ghost use Rattle.fo_crash.specs.declared.slot.Slot.TheVariants.{Entry as Head};
ghost use Rattle.fo_crash.specs.Images.{Reaches, target, walk};
ghost use Rattle.fo_ports.specs.Blocks.{zeros};
ghost use Rattle.fo_ports.specs.Sources.{Changes, ComesFor, Made, Owned, MayZero};
ghost use Rattle.fo_tree_read.specs.Tree.{kind_at, block_at};
ghost use Rattle.fo_tree_look.specs.Source.{Over, HasBlock, form_of, leaves_of};
ghost use Rattle.fo_tree_down.specs.Way.{Comes, StaysBeside, with_top};
ghost use Rattle.fo_tree_down.specs.Clear.{EndsClear};
ghost use Rattle.fo_tree_open.specs.Open.{HasEntry};
ghost use Rattle.fo_tree_link.specs.Link.{entry_of, CanLink};
ghost use Rattle.fo_tree_link.specs.Change.{HangsInTree, SameSource, KeepsEntries, KeepsOthers};

use fo_ports::Blocks;
use fo_tree_look::Kept;
use fo_tree_read::Tree;

/// A source that hung from its entry in slot `i` of block `at`, and was changed by calls that make ways current, put levels above its top or
/// put bytes, may be linked: its new top comes in the place of what the entry leads to.
pub fn may_link<B: Blocks>(
    tree: &Tree,
    new: &Tree,
    kept: &[Kept],
    before: &B,
    after: &B,
    generation: u32,
    at: u32,
    i: u32,
)
    requires over { (limit : ℕ) × Over (B.state before.now) tree.now kept.now limit }
    requires keeps { B.keeps before.now after.now }
    requires entry { (((B.state before.now).now at).slot i ≡ Head (entry_of tree.now generation)) × (((B.state after.now).now at).slot i ≡ Head (entry_of tree.now generation)) }
    requires same { SameSource tree.now new.now }
    requires comes { (B.state before.now).tells → (from : Pointer) → ComesFor (B.state before.now) tree.now.top from → ComesFor (B.state after.now) new.now.top from }
    requires only { (B.state before.now).tells → (y x : ℕ) → (B.state after.now).instead y x → (new.now.top ≡ Local y) ⊎ ((B.state before.now).instead y x × (tree.now.top ≡ Local y → ⊥)) }
    requires others { KeepsOthers (B.state before.now) (B.state after.now) tree.now }
    requires linked { (B.state before.now).tells → HangsInTree (B.state before.now) tree.now at i }
    requires leaves { (B.state before.now).tells → KeepsEntries (B.state before.now) (B.state after.now) tree.now new.now }
    ensures { (B.state after.now).tells → CanLink (B.state after.now) new.now generation at i }
{}

/// A source that hung from its entry stands over its blocks with no bytes left, and no top, and may be linked so: then all that hung from
/// the entry leaves. Of a source of entries no slot of what hangs there may wait; a source of data has none that does.
pub fn may_empty<B: Blocks>(
    tree: &Tree,
    empty: &Tree,
    kept: &[Kept],
    on: &B,
    generation: u32,
    at: u32,
    i: u32,
)
    requires over { (limit : ℕ) × Over (B.state on.now) tree.now kept.now limit }
    requires leaf { HasEntry ((B.state on.now).label at).kind i }
    requires entry { ((B.state on.now).now at).slot i ≡ Head (entry_of tree.now generation) }
    requires same { (empty.now.dir ≡ tree.now.dir) × (empty.now.rank ≡ tree.now.rank) }
    requires empty { (empty.now.size ≡ 0) × (empty.now.depth ≡ 0) × (empty.now.top ≡ Nil) }
    requires linked { (B.state on.now).tells → HangsInTree (B.state on.now) tree.now at i }
    requires settled { (B.state on.now).tells → tree.now.dir ≡ true → (b j : ℕ) → (B.state on.now).clearing b j → Reaches (B.state on.now).now (Head (entry_of tree.now generation)) b → ⊥ }
    ensures can { (B.state on.now).tells → CanLink (B.state on.now) empty.now generation at i }
    ensures over { (limit : ℕ) → Over (B.state on.now) tree.now kept.now limit → Over (B.state on.now) empty.now kept.now limit }
{}

/// A source that hung from its entry may be linked with fewer levels, below the first block of the level that is its top then: the entry
/// goes down to that, and all beside it leaves. No level that goes is under a score. Of a source of entries no slot of what leaves may
/// wait; a source of data has none that does. Over any device the tops of the levels that go are the first blocks of these.
pub fn may_lower<B: Blocks>(
    tree: &Tree,
    new: &Tree,
    kept: &[Kept],
    on: &B,
    generation: u32,
    at: u32,
    i: u32,
)
    requires over { (limit : ℕ) × Over (B.state on.now) tree.now kept.now limit }
    requires leaf { HasEntry ((B.state on.now).label at).kind i }
    requires entry { ((B.state on.now).now at).slot i ≡ Head (entry_of tree.now generation) }
    requires same { (new.now.dir ≡ tree.now.dir) × (new.now.rank ≡ tree.now.rank) }
    requires fewer { new.now.depth ≤ tree.now.depth }
    requires top { (B.state on.now).tells → new.now.top ≡ block_at (B.state on.now) tree.now (tree.now.depth - new.now.depth) 0 }
    requires local_down { (B.state on.now).tells → (n : ℕ) (score : Score) → n < tree.now.depth - new.now.depth → block_at (B.state on.now) tree.now n 0 ≢ Held score }
    requires linked { (B.state on.now).tells → HangsInTree (B.state on.now) tree.now at i }
    requires settled { (B.state on.now).tells → tree.now.dir ≡ true → (b j : ℕ) → (B.state on.now).clearing b j → Reaches (B.state on.now).now (Head (entry_of tree.now generation)) b → Reaches (B.state on.now).now (Head (entry_of new.now generation)) b }
    ensures can { (B.state on.now).tells → CanLink (B.state on.now) new.now generation at i }
    ensures tops { (n b : ℕ) → target (walk (B.state on.now).now (((B.state on.now).now at).slot i) (zeros n)) ≡ Local b → block_at (B.state on.now) tree.now n 0 ≡ Local b }
{}

/// Where the way to a leaf of a source of entries was made current, each of its leaves has the slots of a leaf that it had, or leads to no
/// block.
pub fn keeps_entries<B: Blocks>(
    tree: &Tree,
    kept: &[Kept],
    before: &B,
    after: &B,
    i: u64,
    top: u32,
    at: u32,
)
    requires over { (limit : ℕ) × Over (B.state before.now) tree.now kept.now limit }
    requires keeps { B.keeps before.now after.now }
    requires few { i < 409 ^ tree.now.depth }
    requires comes { Comes (B.state before.now) (B.state after.now) tree.now kept.now tree.now.depth i at }
    requires leads { block_at (B.state after.now) (with_top tree.now top) tree.now.depth i ≡ Local at }
    requires beside { (B.state before.now).tells → StaysBeside (B.state before.now) (B.state after.now) tree.now (with_top tree.now top) tree.now.depth i }
    requires changes { Changes tree.now.tag (HasBlock (B.state before.now) tree.now) (λ b. HasBlock (B.state before.now) tree.now b × (((B.state before.now).label b).kind ≢ kind_at tree.now.dir 0)) (B.state before.now) (B.state after.now) }
    ensures { (B.state before.now).tells → KeepsEntries (B.state before.now) (B.state after.now) tree.now (with_top tree.now top) }
{}

/// Where a leaf of a source of entries was owned, within its end or past it, and nothing stands behind its end, each of its leaves has the
/// slots of a leaf that it had, or leads to no block.
pub fn owned_entries<B: Blocks>(
    tree: &Tree,
    new: &Tree,
    kept: &[Kept],
    before: &B,
    after: &B,
    i: u32,
    at: u32,
)
    requires over { (limit : ℕ) × Over (B.state before.now) tree.now kept.now limit }
    requires keeps { B.keeps before.now after.now }
    requires owned { (generation limit : ℕ) → Owned (form_of tree.now generation limit) tree.now.size i at (B.state before.now) (B.state after.now) (leaves_of (B.state before.now) tree.now kept.now limit) (leaves_of (B.state after.now) new.now kept.now limit) }
    requires changes { (generation limit : ℕ) → Changes tree.now.tag (HasBlock (B.state before.now) tree.now) (MayZero (form_of tree.now generation limit) tree.now.size i (B.state before.now) (leaves_of (B.state before.now) tree.now kept.now limit)) (B.state before.now) (B.state after.now) }
    requires clear { EndsClear (B.state after.now) new.now kept.now }
    ensures { (B.state before.now).tells → KeepsEntries (B.state before.now) (B.state after.now) tree.now new.now }
{}

/// What two calls on a source, one after another, leave of other blocks is what one leaves. (What comes in the place of what the entry has
/// is said so that it joins by itself.)
pub fn keeps_others<B: Blocks>(tree: &Tree, middle_tree: &Tree, before: &B, middle: &B, after: &B)
    requires keeps { B.keeps before.now middle.now }
    requires first { KeepsOthers (B.state before.now) (B.state middle.now) tree.now }
    requires second { KeepsOthers (B.state middle.now) (B.state after.now) middle_tree.now }
    requires owns { (B.state before.now).tells → (b : ℕ) → HasBlock (B.state middle.now) middle_tree.now b → HasBlock (B.state before.now) tree.now b ⊎ Made (B.state before.now) (B.state middle.now) b }
    requires labels { ((b : ℕ) → (Made (B.state before.now) (B.state middle.now) b → ⊥) → (B.state middle.now).label b ≡ (B.state before.now).label b) × ((b : ℕ) → (Made (B.state middle.now) (B.state after.now) b → ⊥) → (B.state after.now).label b ≡ (B.state middle.now).label b) }
    requires covered { (b : ℕ) → (B.state middle.now).covered b → (B.state after.now).covered b }
    ensures { KeepsOthers (B.state before.now) (B.state after.now) tree.now }
{}
