//! A leaf is put into a plan.
ghost use Rattle.std.specs.Prelude.{◌≡◌, ◌≢◌, ◌⊎◌, ◌+◌, ◌*◌, ◌%◌, ◌^◌, ◌<◌, ◌≤◌, ◌++◌, ℕ, [], ◌∷◌, true, false, length, slice_index, Some, IfOk, IfErr};
ghost use Rattle.fo_base.specs.Cause.{Rose};
ghost use Rattle.fo_crash.specs.declared.slot.Slot.TheVariants.{Entry as Head};
ghost use Rattle.fo_ports.specs.declared.error.BlockError.TheVariants.{Damaged, Memory};
ghost use Rattle.fo_ports.specs.Causes.{Caused};
ghost use Rattle.fo_ports.specs.State.{Looks};
ghost use Rattle.fo_tree_read.specs.Tree.{kind_at};
ghost use Rattle.fo_tree_look.specs.Source.{Over, Prepared, address_here};
ghost use Rattle.fo_tree_shorten.specs.of_tree_open.Open.{HasEntry};
ghost use Rattle.fo_files_way.specs.Plan.{IsEntryIn, IsWanted, IsLeafReady, IsHeld, MayOwnAll, AreBlocks, Fulfils, IsAdded, most_for_levels};

use crate::plan::{Level, Plan};
use fo_base::BLOCK;
use fo_crash::Slot;
use fo_files_at::tree::Source;
use fo_image::Entry;
use fo_ports::{BlockError, Blocks};
use std::alloc::Global;

/// Which leaf is to be owned, of a source whose entry stands in a slot of block `above` of a plan: one of entries or of records, of this tag,
/// with leaves of this rank, and no longer than this.
#[derive(Clone, Copy, Debug)]
pub struct Wanted {
    pub above: usize,
    pub slot: u32,
    pub is_dir: bool,
    pub tag: u32,
    pub rank: u32,
    pub limit: u64,
    pub leaf: u32,
}

/// A level that was made, and the address of its leaf.
#[derive(Drop)]
struct Placed {
    level: Level,
    at: u32,
}

/// The entry that memory has in a slot of a pinned block. The block is damaged where the slot waits to be cleared.
fn entry_in<B: Blocks>(on: &B, at: u32, slot: u32) -> Result<Entry, BlockError>
    requires pinned { (B.state on.now).pinned at }
    requires leaf { HasEntry ((B.state on.now).label at).kind slot }
    ensures is { IfOk result (λ e. (((B.state on.now).now at).slot slot ≡ Head e) × ((B.state on.now).clearing at slot → ⊥)) }
    ensures damaged { IfErr result (λ e. e ≡ Damaged at) }
{
    if on.is_clearing(at, slot) {
        return Err(BlockError::Damaged(at));
    }
    match on.slot(at, slot) {
        Slot::Entry(entry) => Ok(entry),
        _ => Err(BlockError::Damaged(at)),
    }
}

/// Whether an entry names such a source, which has the whole leaf.
fn is_wanted(entry: &Entry, wanted: Wanted) -> bool
    ensures { result ≡ true → IsWanted entry.now wanted }
{
    if entry.dir != wanted.is_dir {
        return false;
    }
    BLOCK as u64 * (wanted.leaf as u64 + 1) <= entry.size
}

/// The source of the entry that stands there. The block is damaged where it is another than is wanted.
fn opened<B: Blocks>(alloc: Global, on: &B, at: u32, wanted: Wanted) -> Result<Source, BlockError>
    requires pinned { (B.state on.now).pinned at }
    requires leaf { HasEntry ((B.state on.now).label at).kind wanted.slot }
    requires low { (wanted.rank < 2 ^ 31) × (wanted.limit ≤ 2 ^ 47) }
    requires silent { (B.state on.now).tells → ⊥ }
    ensures entry { IfOk result (λ x. IsEntryIn (B.state on.now) x at wanted.slot) }
    ensures over { IfOk result (λ x. Over (B.state on.now) x.ways.tree x.ways.kept.items x.ways.limit) }
    ensures is { IfOk result (λ x. (x.ways.tree.tag ≡ wanted.tag) × (x.ways.tree.dir ≡ wanted.is_dir) × (x.ways.tree.rank ≡ wanted.rank)) }
    ensures within { IfOk result (λ x. 8192 * (wanted.leaf + 1) ≤ x.ways.tree.size) }
    ensures damaged { IfErr result (λ e. e ≡ Damaged at) }
{
    let entry = match entry_in(on, at, wanted.slot) {
        Ok(entry) => entry,
        Err(why) => return Err(why),
    };
    if !is_wanted(&entry, wanted) {
        return Err(BlockError::Damaged(at));
    }
    let Wanted {
        slot,
        tag,
        rank,
        limit,
        ..
    } = wanted;
    match Source::open(alloc, on, at, slot, &entry, tag, rank, limit) {
        Some(source) => Ok(source),
        None => Err(BlockError::Damaged(at)),
    }
}

/// Prepares a leaf that a source has, and gives its address. The block with the source's entry is damaged where no leaf stands.
fn readied<B: Blocks>(
    on: &mut B,
    source: &mut Source,
    leaf: u32,
    from: u32,
) -> Result<u32, BlockError>
    requires block { (B.state on.old).is_block from }
    requires over { Over (B.state on.old) source.old.ways.tree source.old.ways.kept.items source.old.ways.limit }
    requires within { 8192 * (leaf + 1) ≤ source.old.ways.tree.size }
    requires pins { 20 ≤ (B.state on.old).pins_left }
    requires silent { (B.state on.old).tells → ⊥ }
    ensures same { (source.new.ways.tree ≡ source.old.ways.tree) × (source.new.ways.generation ≡ source.old.ways.generation) × (source.new.ways.limit ≡ source.old.ways.limit) }
    ensures over { IfOk result (λ at. Over (B.state on.new) source.new.ways.tree source.new.ways.kept.items source.new.ways.limit) }
    ensures prepared { IfOk result (λ at. Prepared (B.state on.new) source.new.ways.tree source.new.ways.kept.items source.new.ways.limit (8192 * leaf) 8192) }
    ensures there { IfOk result (λ at. (address_here (B.state on.new) source.new.ways.tree leaf ≡ Some at) × (B.state on.new).is_block at) }
    ensures pins { (B.state on.old).pins_left ≤ (B.state on.new).pins_left + 20 }
    ensures looks { Looks (B.state on.old) (B.state on.new) × B.keeps on.old on.new }
    ensures cause { IfErr result (Caused ⊥ (λ b. (B.state on.old).is_block b ⊎ (b ≡ 1)) (Rose (B.state on.old).faults (B.state on.new).faults) (Rose (B.state on.old).arena_faults (B.state on.new).arena_faults)) }
{
    match source
        .ways
        .prepare(on, BLOCK as u64 * leaf as u64, BLOCK as u64)
    {
        Ok(()) => {}
        Err(why) => return Err(why),
    }
    match source.ways.leaf(on, leaf) {
        Ok(Some(at)) => Ok(at),
        Ok(None) => Err(BlockError::Damaged(from)),
        Err(why) => Err(why),
    }
}

/// Whether a tag is among these.
fn has_tag(tags: &[u32], tag: u32) -> bool
    ensures { result ≡ false → (i : ℕ) → i < length tags.now → slice_index tags.now i ≢ tag }
{
    for i in 0..tags.len() {
        if tags[i] == tag {
            return true;
        }
    }
    false
}

/// The level that is wanted, with its leaf prepared.
fn level_for<B: Blocks>(
    alloc: Global,
    on: &mut B,
    plan: &Plan,
    wanted: Wanted,
) -> Result<Placed, BlockError>
    requires silent { (B.state on.old).tells → ⊥ }
    requires may { MayOwnAll (B.state on.old) 0 plan.now.at.items plan.now.tags.items plan.now.levels.items }
    requires blocks { AreBlocks (B.state on.old) plan.now.at.items }
    requires above { wanted.above < length plan.now.at.items }
    requires slot { HasEntry ((B.state on.old).label (slice_index plan.now.at.items wanted.above)).kind wanted.slot }
    requires low { (wanted.rank < 2 ^ 31) × (wanted.limit ≤ 2 ^ 47) }
    requires kind { wanted.is_dir ≡ false → wanted.rank % 32 ≡ 16 }
    requires pins { 20 ≤ (B.state on.old).pins_left }
    ensures ready { IfOk result (λ f. IsLeafReady (B.state on.new) f.level.source f.level.leaf f.at) }
    ensures entry { IfOk result (λ f. IsEntryIn (B.state on.new) f.level.source (slice_index plan.now.at.items wanted.above) f.level.slot) }
    ensures is { IfOk result (λ f. Fulfils wanted f.level) }
    ensures held { IfOk result (λ f. IsHeld (B.state on.new) wanted.tag f.at × (((B.state on.new).label f.at).kind ≡ kind_at wanted.is_dir 0) × (B.state on.new).is_block f.at) }
    ensures fresh { IfOk result (λ f. (i : ℕ) → i < length plan.now.tags.items → slice_index plan.now.tags.items i ≢ wanted.tag) }
    ensures pins { (B.state on.old).pins_left ≤ (B.state on.new).pins_left + 20 }
    ensures looks { Looks (B.state on.old) (B.state on.new) × B.keeps on.old on.new }
    ensures cause { IfErr result (Caused ⊥ (λ b. (B.state on.old).is_block b ⊎ (b ≡ 1)) (Rose (B.state on.old).faults (B.state on.new).faults) (Rose (B.state on.old).arena_faults (B.state on.new).arena_faults)) }
{
    let from = plan.at[wanted.above];
    if has_tag(plan.tags.as_slice(), wanted.tag) {
        return Err(BlockError::Damaged(from));
    }
    let mut source = match opened(alloc, on, from, wanted) {
        Ok(source) => source,
        Err(why) => return Err(why),
    };
    let Wanted {
        above,
        slot,
        leaf,
        ..
    } = wanted;
    match readied(on, &mut source, leaf, from) {
        Ok(at) => Ok(Placed {
            level: Level {
                source,
                leaf,
                above,
                slot,
            },
            at,
        }),
        Err(why) => Err(why),
    }
}

impl Plan {
    /// Puts a level and its block behind the others. Refused: want of memory.
    fn with(self, level: Level, at: u32, tag: u32) -> Result<Plan, BlockError>
        ensures is { IfOk result (λ p. (p.at.items ≡ self.at.items ++ at ∷ []) × (p.tags.items ≡ self.tags.items ++ tag ∷ []) × (p.levels.items ≡ self.levels.items ++ level ∷ [])) }
        ensures memory { IfErr result (λ e. e ≡ Memory) }
    {
        let Plan {
            mut levels,
            at: mut blocks,
            mut tags,
        } = self;
        if blocks.push(at).is_err() {
            return Err(BlockError::Memory);
        }
        if tags.push(tag).is_err() {
            return Err(BlockError::Memory);
        }
        match levels.push_back(level) {
            Ok(()) => Ok(Plan {
                levels,
                at: blocks,
                tags,
            }),
            Err(_) => Err(BlockError::Memory),
        }
    }

    /// Prepares a leaf that is wanted, and puts it into the plan. Damaged is the block that has the entry, where this is another than is
    /// wanted, waits to be cleared, or is of a source that the plan has.
    pub fn add<B: Blocks>(
        self,
        alloc: Global,
        on: &mut B,
        wanted: Wanted,
    ) -> Result<Plan, BlockError>
        requires silent { (B.state on.old).tells → ⊥ }
        requires may { MayOwnAll (B.state on.old) 0 self.at.items self.tags.items self.levels.items }
        requires blocks { AreBlocks (B.state on.old) self.at.items }
        requires above { wanted.above < length self.at.items }
        requires slot { HasEntry ((B.state on.old).label (slice_index self.at.items wanted.above)).kind wanted.slot }
        requires low { (wanted.rank < 2 ^ 31) × (wanted.limit ≤ 2 ^ 47) }
        requires kind { wanted.is_dir ≡ false → wanted.rank % 32 ≡ 16 }
        requires pins { 20 ≤ (B.state on.old).pins_left }
        ensures may { IfOk result (λ p. MayOwnAll (B.state on.new) 0 p.at.items p.tags.items p.levels.items) }
        ensures blocks { IfOk result (λ p. AreBlocks (B.state on.new) p.at.items) }
        ensures level { IfOk result (λ p. IsAdded wanted self.levels.items p.levels.items) }
        ensures most { IfOk result (λ p. most_for_levels p.levels.items ≤ most_for_levels self.levels.items + 5) }
        ensures adds { IfOk result (λ p. (a : ℕ) × (p.at.items ≡ self.at.items ++ a ∷ []) × (((B.state on.new).label a).kind ≡ kind_at wanted.is_dir 0)) }
        ensures pins { (B.state on.old).pins_left ≤ (B.state on.new).pins_left + 20 }
        ensures looks { Looks (B.state on.old) (B.state on.new) × B.keeps on.old on.new }
        ensures cause { IfErr result (Caused ⊥ (λ b. (B.state on.old).is_block b ⊎ (b ≡ 1)) (Rose (B.state on.old).faults (B.state on.new).faults) (Rose (B.state on.old).arena_faults (B.state on.new).arena_faults)) }
    {
        match level_for(alloc, on, &self, wanted) {
            Ok(found) => {
                let Placed { level, at } = found;
                self.with(level, at, wanted.tag)
            }
            Err(why) => Err(why),
        }
    }
}
