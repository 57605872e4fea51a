//! The data of a file is opened.
ghost use Rattle.std.specs.Prelude.{◌≡◌, ◌+◌, ◌*◌, ◌^◌, ◌<◌, ◌≤◌, ℕ, true, false, IfOk, IfErr, MatchOption};
ghost use Rattle.fo_crash.specs.declared.slot.Slot.TheVariants.{Entry as Head};
ghost use Rattle.fo_ports.specs.declared.error.BlockError.TheVariants.{Damaged};
ghost use Rattle.fo_tree_look.specs.Source.{Over};
ghost use Rattle.fo_tree_open.specs.Open.{HasEntry};
ghost use Rattle.fo_files_write.specs.of_tree_shorten.Shorten.{EntryAt};
ghost use Rattle.fo_files_dir.specs.Dir.{IsFileAt};
ghost use Rattle.fo_files_cut.specs.Cut.{IsData};

use fo_crash::Slot;
use fo_files_dir::FileAt;
use fo_image::Entry;
use fo_ports::{BlockError, Blocks};
use fo_tree_look::Ways;
use fo_tree_open::open;
use std::alloc::Global;

/// How many ranks the leaves of a file's data are below the leaf of entries that has its entry.
const DATA_BELOW: u32 = 8;

/// How many bytes a file may have.
pub(crate) const FILE_LIMIT: u64 = 1 << 40;

/// The tag of a file's data; None where the number is none.
fn tag_of(number: u32) -> Option<u32>
    ensures { MatchOption result (2 ^ 30 ≤ number) (λ t. (t ≡ 32 + 2 * number) × (number < 2 ^ 30)) }
{
    if number >= 1 << 30 {
        return None;
    }
    Some(32 + 2 * number)
}

/// The tag of a file's data, which isn't that of the block with its entry. The block is damaged where it is, or the file's number is none.
fn tag_beside<B: Blocks>(on: &B, file: FileAt) -> Result<u32, BlockError>
    requires block { (B.state on.now).is_block file.at }
    ensures is { IfOk result (λ t. (t ≡ 32 + 2 * file.number) × (((B.state on.now).label file.at).tag ≡ t → ⊥) × (file.number < 2 ^ 30)) }
    ensures damaged { IfErr result (λ e. (e ≡ Damaged file.at) × (IsData (B.state on.now) file → ⊥)) }
{
    let Some(tag) = tag_of(file.number) else {
        return Err(BlockError::Damaged(file.at));
    };
    if on.label(file.at).tag == tag {
        return Err(BlockError::Damaged(file.at));
    }
    Ok(tag)
}

/// The entry of data that memory has in a slot of a pinned block. The block is damaged where there is another, or it waits to be cleared.
fn entry_in<B: Blocks>(on: &B, file: FileAt) -> Result<Entry, BlockError>
    requires pinned { (B.state on.now).pinned file.at }
    requires leaf { HasEntry ((B.state on.now).label file.at).kind file.slot }
    ensures is { IfOk result (λ e. (((B.state on.now).now file.at).slot file.slot ≡ Head e) × ((B.state on.now).clearing file.at file.slot → ⊥) × (e.dir ≡ false)) }
    ensures damaged { IfErr result (λ e. (e ≡ Damaged file.at) × (IsData (B.state on.now) file → ⊥)) }
{
    if on.is_clearing(file.at, file.slot) {
        return Err(BlockError::Damaged(file.at));
    }
    match on.slot(file.at, file.slot) {
        Slot::Entry(entry) if !entry.dir => Ok(entry),
        _ => Err(BlockError::Damaged(file.at)),
    }
}

/// The data of a file. The block with its entry is damaged where the entry isn't one of its data, or waits to be cleared.
pub(crate) fn opened<B: Blocks>(alloc: Global, on: &B, file: FileAt) -> Result<Ways, BlockError>
    requires silent { (B.state on.now).tells → ⊥ }
    requires file { IsFileAt (B.state on.now) file }
    ensures entry { IfOk result (λ x. EntryAt (B.state on.now) x.tree x.generation file.at file.slot) }
    ensures over { IfOk result (λ x. Over (B.state on.now) x.tree x.kept.items x.limit) }
    ensures is { IfOk result (λ x. (x.tree.tag ≡ 32 + 2 * file.number) × (x.tree.dir ≡ false) × (x.tree.rank + 8 ≡ file.rank) × (x.limit ≡ 2 ^ 40)) }
    ensures data { IfOk result (λ x. IsData (B.state on.now) file) }
    ensures damaged { IfErr result (λ e. (e ≡ Damaged file.at) × (IsData (B.state on.now) file → ⊥)) }
{
    let tag = match tag_beside(on, file) {
        Ok(tag) => tag,
        Err(why) => return Err(why),
    };
    let entry = match entry_in(on, file) {
        Ok(entry) => entry,
        Err(why) => return Err(why),
    };
    let FileAt { at, slot, rank, .. } = file;
    match open(
        alloc,
        on,
        at,
        slot,
        &entry,
        tag,
        rank - DATA_BELOW,
        FILE_LIMIT,
    ) {
        Some(ways) => Ok(ways),
        None => Err(BlockError::Damaged(at)),
    }
}
