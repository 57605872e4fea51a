//! A source is opened from its entry, and prepared.
ghost use Rattle.std.specs.Prelude.{◌≡◌, ◌≢◌, ◌⊎◌, ◌+◌, ◌*◌, ◌%◌, ◌^◌, ◌<◌, ◌≤◌, ℕ, true, false, IfOk, IfErr};
ghost use Rattle.fo_base.specs.Cause.{Rose};
ghost use Rattle.fo_crash.specs.declared.slot.Slot.TheVariants.{Entry as Head};
ghost use Rattle.fo_ports.specs.declared.error.BlockError.TheVariants.{Damaged};
ghost use Rattle.fo_ports.specs.Causes.{Caused};
ghost use Rattle.fo_ports.specs.State.{Looks};
ghost use Rattle.fo_tree_look.specs.Source.{Over};
ghost use Rattle.fo_tree_shorten.specs.of_tree_down.Clear.{EndsClear};
ghost use Rattle.fo_files_leaf.specs.Leaf.{IsHolder, IsWanted, IsEntryIn, IsFor, MayGrow};

use fo_base::BLOCK;
use fo_crash::Slot;
use fo_image::Entry;
use fo_ports::{BlockError, Blocks, Bytes};
use fo_tree::Source;
use std::alloc::Global;

/// Which leaf is wanted, of a source whose entry stands in a slot of block `at`: one of entries or of records, of this tag, with leaves of
/// this rank, and up to this length.
#[derive(Clone, Copy, Debug)]
pub struct LeafOf {
    pub at: u32,
    pub slot: u32,
    pub is_dir: bool,
    pub tag: u32,
    pub rank: u32,
    pub limit: u64,
    pub leaf: u32,
}

/// The entry that memory has in a slot of a pinned block. The block is damaged where the slot waits to be cleared.
fn entry_in<B: Blocks>(on: &B, at: u32, slot: u32) -> Result<Entry, BlockError>
    requires holder { IsHolder (B.state on.now) at slot }
    ensures is { IfOk result (λ e. (((B.state on.now).now at).slot slot ≡ Head e) × ((B.state on.now).clearing at slot → ⊥)) }
    ensures damaged { IfErr result (λ e. e ≡ Damaged at) }
{
    if on.is_clearing(at, slot) {
        return Err(BlockError::Damaged(at));
    }
    match on.slot(at, slot) {
        Slot::Entry(entry) => Ok(entry),
        _ => Err(BlockError::Damaged(at)),
    }
}

/// Whether a leaf stands in a source of so many bytes, or right behind its last leaf, and ends within this length.
fn is_within(leaf: u32, size: u64, limit: u64) -> bool
    requires low { (size ≤ 2 ^ 47) × (limit ≤ 2 ^ 47) }
    ensures { result ≡ true → (8192 * leaf < size + 8192) × (8192 * leaf + 8192 ≤ limit) }
{
    let from = BLOCK as u64 * leaf as u64;
    from < size + BLOCK as u64 && from + BLOCK as u64 <= limit
}

/// The source that an entry names, where it is one that is wanted and has the leaf, or ends with the one before. The block with the entry is
/// damaged where it is another, or is a block of the source itself.
fn opened<B: Blocks>(alloc: Global, on: &B, wanted: LeafOf) -> Result<Source, BlockError>
    requires holder { IsHolder (B.state on.now) wanted.at wanted.slot }
    requires wanted { IsWanted wanted }
    requires silent { (B.state on.now).tells → ⊥ }
    ensures entry { IfOk result (λ x. IsEntryIn (B.state on.now) x wanted.at wanted.slot) }
    ensures over { IfOk result (λ x. Over (B.state on.now) x.ways.tree x.ways.kept.items x.ways.limit) }
    ensures is { IfOk result (λ x. (x.ways.tree.tag ≡ wanted.tag) × (x.ways.tree.dir ≡ wanted.is_dir) × (x.ways.tree.rank ≡ wanted.rank)) }
    ensures within { IfOk result (λ x. (8192 * wanted.leaf < x.ways.tree.size + 8192) × (8192 * wanted.leaf + 8192 ≤ x.ways.limit)) }
    ensures apart { IfOk result (λ x. ((B.state on.now).label wanted.at).tag ≢ wanted.tag) }
    ensures damaged { IfErr result (λ e. e ≡ Damaged wanted.at) }
{
    let LeafOf {
        at,
        slot,
        is_dir,
        tag,
        rank,
        limit,
        leaf,
    } = wanted;
    if on.label(at).tag == tag {
        return Err(BlockError::Damaged(at));
    }
    let entry = match entry_in(on, at, slot) {
        Ok(entry) => entry,
        Err(why) => return Err(why),
    };
    if entry.dir != is_dir {
        return Err(BlockError::Damaged(at));
    }
    let source = match Source::open(alloc, on, at, slot, &entry, tag, rank, limit) {
        Some(source) => source,
        None => return Err(BlockError::Damaged(at)),
    };
    if is_within(leaf, source.ways.tree.size, limit) {
        Ok(source)
    } else {
        Err(BlockError::Damaged(at))
    }
}

/// Whether a source may grow to have a leaf which was prepared: nothing stands behind its end, or it has the leaf.
pub fn may_grow<B: Blocks>(on: &B, source: &Source, leaf: u32) -> bool
    requires source { IsFor (B.state on.now) source.now leaf }
    ensures may { result ≡ true → MayGrow (B.state on.now) source.now leaf }
    ensures not { result ≡ false → (source.now.ways.tree.size < 8192 * (leaf + 1)) × (EndsClear (B.state on.now) source.now.ways.tree source.now.ways.kept.items → ⊥) }
{
    if BLOCK as u64 * (leaf as u64 + 1) <= source.ways.tree.size {
        return true;
    }
    source.trimmed(on)
}

/// The source with the leaf that is wanted, which is prepared. The block with the source's entry is damaged where it has another entry than is
/// wanted, or one that waits to be cleared.
pub fn source_for<B: Blocks>(
    alloc: Global,
    on: &mut B,
    wanted: LeafOf,
) -> Result<Source, BlockError>
    requires holder { IsHolder (B.state on.old) wanted.at wanted.slot }
    requires wanted { IsWanted wanted }
    requires pins { 20 ≤ (B.state on.old).pins_left }
    requires silent { (B.state on.old).tells → ⊥ }
    ensures source { IfOk result (λ x. IsFor (B.state on.new) x wanted.leaf) }
    ensures entry { IfOk result (λ x. IsEntryIn (B.state on.old) x wanted.at wanted.slot) }
    ensures is { IfOk result (λ x. (x.ways.tree.tag ≡ wanted.tag) × (x.ways.tree.dir ≡ wanted.is_dir) × (x.ways.tree.rank ≡ wanted.rank)) }
    ensures within { IfOk result (λ x. 8192 * wanted.leaf < x.ways.tree.size + 8192) }
    ensures apart { IfOk result (λ x. ((B.state on.old).label wanted.at).tag ≢ wanted.tag) }
    ensures pins { (B.state on.old).pins_left ≤ (B.state on.new).pins_left + 20 }
    ensures looks { Looks (B.state on.old) (B.state on.new) × B.keeps on.old on.new }
    ensures cause { IfErr result (Caused ⊥ (λ b. (B.state on.old).is_block b ⊎ (b ≡ 1)) (Rose (B.state on.old).faults (B.state on.new).faults) (Rose (B.state on.old).arena_faults (B.state on.new).arena_faults)) }
{
    let mut source = match opened(alloc, on, wanted) {
        Ok(source) => source,
        Err(why) => return Err(why),
    };
    match source
        .ways
        .prepare(on, BLOCK as u64 * wanted.leaf as u64, BLOCK as u64)
    {
        Ok(()) => Ok(source),
        Err(why) => Err(why),
    }
}
