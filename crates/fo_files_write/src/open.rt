//! The data of a file is opened.
ghost use Rattle.std.specs.Prelude.{◌≡◌, ◌+◌, ◌*◌, ◌^◌, ◌<◌, ◌≤◌, ℕ, false, IfOk, IfErr, IfSome};
ghost use Rattle.fo_crash.specs.declared.slot.Slot.TheVariants.{Entry as Head};
ghost use Rattle.fo_ports.specs.declared.error.BlockError.TheVariants.{Damaged};
ghost use Rattle.fo_tree_look.specs.Source.{Over};
ghost use Rattle.fo_files_dir.specs.of_tree_open.Open.{HasEntry};
ghost use Rattle.fo_tree_shorten.specs.Shorten.{EntryAt};
ghost use Rattle.fo_files_dir.specs.Dir.{IsFileAt};

use fo_crash::Slot;
use fo_files_dir::FileAt;
use fo_image::Entry;
use fo_ports::{BlockError, Blocks};
use fo_tree::Source;
use std::alloc::Global;

/// How many ranks the leaves of a file's data are below the leaf of entries that has its entry, and how long it may get.
const DATA_BELOW: u32 = 8;

const DATA_LIMIT: u64 = 1 << 40;

/// The tag of a file's data; None where the number is none.
fn tag_of(number: u32) -> Option<u32>
    ensures { IfSome result (λ t. t ≡ 32 + 2 * number) }
{
    if number >= 1 << 30 {
        return None;
    }
    Some(32 + 2 * number)
}

/// The entry that memory has in a slot of a pinned block. The block is damaged where the slot waits to be cleared.
fn entry_in<B: Blocks>(on: &B, at: u32, slot: u32) -> Result<Entry, BlockError>
    requires pinned { (B.state on.now).pinned at }
    requires leaf { HasEntry ((B.state on.now).label at).kind slot }
    ensures is { IfOk result (λ e. (((B.state on.now).now at).slot slot ≡ Head e) × ((B.state on.now).clearing at slot → ⊥)) }
    ensures damaged { IfErr result (λ e. e ≡ Damaged at) }
{
    if on.is_clearing(at, slot) {
        return Err(BlockError::Damaged(at));
    }
    match on.slot(at, slot) {
        Slot::Entry(entry) => Ok(entry),
        _ => Err(BlockError::Damaged(at)),
    }
}

/// The tag of a file's data, which isn't that of the block with its entry. The block is damaged where it is, or the file's number is none.
fn tag_beside<B: Blocks>(on: &B, file: FileAt) -> Result<u32, BlockError>
    requires block { (B.state on.now).is_block file.at }
    ensures is { IfOk result (λ t. (t ≡ 32 + 2 * file.number) × (((B.state on.now).label file.at).tag ≡ t → ⊥)) }
    ensures damaged { IfErr result (λ e. e ≡ Damaged file.at) }
{
    match tag_of(file.number) {
        Some(tag) if on.label(file.at).tag != tag => Ok(tag),
        _ => Err(BlockError::Damaged(file.at)),
    }
}

/// The data of a file. The block with its entry is damaged where the entry is another, isn't in use, or waits to be cleared.
pub(crate) fn opened<B: Blocks>(alloc: Global, on: &B, file: FileAt) -> Result<Source, BlockError>
    requires silent { (B.state on.now).tells → ⊥ }
    requires file { IsFileAt (B.state on.now) file }
    ensures entry { IfOk result (λ x. EntryAt (B.state on.now) x.ways.tree x.ways.generation file.at file.slot) }
    ensures over { IfOk result (λ x. Over (B.state on.now) x.ways.tree x.ways.kept.items x.ways.limit) }
    ensures is { IfOk result (λ x. (x.ways.tree.tag ≡ 32 + 2 * file.number) × (x.ways.tree.dir ≡ false) × (x.ways.tree.rank + 8 ≡ file.rank) × (x.ways.limit ≡ 2 ^ 40)) }
    ensures damaged { IfErr result (λ e. e ≡ Damaged file.at) }
{
    let tag = match tag_beside(on, file) {
        Ok(tag) => tag,
        Err(why) => return Err(why),
    };
    let FileAt { at, slot, rank, .. } = file;
    let entry = match entry_in(on, at, slot) {
        Ok(entry) => entry,
        Err(why) => return Err(why),
    };
    if entry.dir {
        return Err(BlockError::Damaged(at));
    }
    match Source::open(
        alloc,
        on,
        at,
        slot,
        &entry,
        tag,
        rank - DATA_BELOW,
        DATA_LIMIT,
    ) {
        Some(source) => Ok(source),
        None => Err(BlockError::Damaged(at)),
    }
}
