//! A source is opened.
ghost use Rattle.std.specs.Prelude.{◌≡◌, ◌^◌, ◌<◌, ◌≤◌, ℕ, true, List, [], MatchOption, IfSome};
ghost use Rattle.fo_image.specs.declared.types.Pointer.TheVariants.{Nil, Local};
ghost use Rattle.fo_image.specs.Format.{EntryHolds};
ghost use Rattle.fo_tree_look.specs.of_crash.declared.slot.Slot.TheVariants.{Entry as Head};
ghost use Rattle.fo_tree_look.specs.of_crash.Images.{Reaches, to_block};
ghost use Rattle.fo_tree_look.specs.declared.ways.Kept.{Kept};
ghost use Rattle.fo_tree_look.specs.Source.{Over, HasBlock};
ghost use Rattle.fo_tree_open.specs.Open.{HasEntry, IsFit, CanOpen, StandsIn, tree_of};

use fo_image::{Entry, Pointer};
use fo_tree_look::{Blocks, Tree, Ways};
use std::alloc::Global;

/// The source of the entry that memory has in slot `i` of block `at`, a pinned leaf of entries or root block: with this tag and rank of
/// its leaves, and up to this length. None exactly where the entry is no entry of such a source.
pub fn open<B: Blocks>(
    alloc: Global,
    on: &B,
    at: u32,
    i: u32,
    entry: &Entry,
    tag: u32,
    rank: u32,
    limit: u64,
) -> Option<Ways>
    requires pinned { (B.state on.now).pinned at }
    requires leaf { HasEntry ((B.state on.now).label at).kind i }
    requires entry { ((B.state on.now).now at).slot i ≡ Head entry.now }
    requires low { (rank < 2 ^ 31) × (limit ≤ 2 ^ 47) }
    requires told { (B.state on.now).tells → CanOpen (B.state on.now) at i entry.now rank }
    ensures fits { MatchOption result (IsFit entry.now tag limit → ⊥) (λ ways. IsFit entry.now tag limit) }
    ensures is { IfSome result (λ ways. (ways.tree ≡ tree_of entry.now rank) × (ways.generation ≡ entry.now.generation) × (ways.limit ≡ limit) × (ways.kept.items ≡ [])) }
    ensures over { IfSome result (λ ways. Over (B.state on.now) ways.tree ways.kept.items ways.limit) }
    ensures linked { IfSome result (λ ways. (B.state on.now).tells → (b : ℕ) → HasBlock (B.state on.now) ways.tree b → Reaches (B.state on.now).now (to_block 1) b) }
{
    let _ = on;
    let _ = at;
    let _ = i;
    if !is_fit(entry, tag, limit) {
        return None;
    }
    Some(source_of(alloc, entry, rank, limit))
}

/// The source of an entry that was read: as `open`, where the block with the entry isn't pinned. It holds, has at most four levels, and leads
/// to a data block, if to a block of the device.
pub fn open_read<B: Blocks>(
    alloc: Global,
    on: &B,
    entry: &Entry,
    tag: u32,
    rank: u32,
    limit: u64,
) -> Option<Ways>
    requires entry { EntryHolds entry.now × (entry.now.depth ≤ 4) }
    requires block { (b : ℕ) → entry.now.top ≡ Local b → (B.state on.now).is_block b }
    requires low { (rank < 2 ^ 31) × (limit ≤ 2 ^ 47) }
    requires told { (B.state on.now).tells → StandsIn (B.state on.now) entry.now rank }
    ensures fits { MatchOption result (IsFit entry.now tag limit → ⊥) (λ ways. IsFit entry.now tag limit) }
    ensures is { IfSome result (λ ways. (ways.tree ≡ tree_of entry.now rank) × (ways.generation ≡ entry.now.generation) × (ways.limit ≡ limit) × (ways.kept.items ≡ [])) }
    ensures over { IfSome result (λ ways. Over (B.state on.now) ways.tree ways.kept.items ways.limit) }
    ensures linked { IfSome result (λ ways. (B.state on.now).tells → (b : ℕ) → HasBlock (B.state on.now) ways.tree b → Reaches (B.state on.now).now (to_block 1) b) }
{
    let _ = on;
    if !is_fit(entry, tag, limit) {
        return None;
    }
    Some(source_of(alloc, entry, rank, limit))
}

/// Whether an entry is one of a source of this tag and up to this length.
fn is_fit(entry: &Entry, tag: u32, limit: u64) -> bool
    ensures yes { result ≡ true → IsFit entry.now tag limit }
    ensures all { IsFit entry.now tag limit → result ≡ true }
{
    entry.active && entry.tag == tag && entry.size <= limit && has_blocks(entry)
}

/// Whether a top stands only where there are bytes.
fn has_blocks(entry: &Entry) -> bool
    ensures yes { result ≡ true → entry.now.size ≡ 0 → entry.now.top ≡ Nil }
    ensures all { (entry.now.size ≡ 0 → entry.now.top ≡ Nil) → result ≡ true }
{
    entry.size > 0 || matches!(entry.top, Pointer::Nil)
}

/// The source that an entry names.
fn source_of(alloc: Global, entry: &Entry, rank: u32, limit: u64) -> Ways
    ensures { (result.tree ≡ tree_of entry.now rank) × (result.generation ≡ entry.now.generation) × (result.limit ≡ limit) × (result.kept.items ≡ []) }
{
    Ways {
        tree: tree_of(entry, rank),
        generation: entry.generation,
        limit,
        kept: Vec::new(alloc),
    }
}

/// Where the blocks of an entry's source hang.
fn tree_of(entry: &Entry, rank: u32) -> Tree
    ensures { result ≡ tree_of entry.now rank }
{
    Tree {
        dir: entry.dir,
        tag: entry.tag,
        rank,
        depth: entry.depth,
        size: entry.size,
        top: entry.top,
    }
}
