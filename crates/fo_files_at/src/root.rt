//! The root directory.
ghost use Rattle.std.specs.Prelude.{◌≡◌, ◌⊎◌, ◌<◌, ℕ, true, length, IfOk, IfErr};
ghost use Rattle.fo_base.specs.Cause.{Rose};
ghost use Rattle.fo_image.specs.declared.types.Kind.TheVariants.{Root};
ghost use Rattle.fo_image.specs.declared.types.Pointer.TheVariants.{Local};
ghost use Rattle.fo_image.specs.Record.{RecordHolds};
ghost use Rattle.fo_ports.specs.of_crash.Images.{target};
ghost use Rattle.fo_ports.specs.Blocks.{ReadsSlots, slot_count};
ghost use Rattle.fo_ports.specs.declared.error.BlockError.TheVariants.{Damaged, Memory};
ghost use Rattle.fo_ports.specs.Causes.{Caused};
ghost use Rattle.fo_ports.specs.State.{Looks};
ghost use Rattle.fo_files_at.specs.Held.{FileHolds};

use crate::file::{File, ROOT_PLACE, ROOT_RANK};
use fo_base::BLOCK;
use fo_dir_read::entry_from;
use fo_image::{Kind, Record, RecordError, read_record, u16_at};
use fo_ports::{BlockError, Blocks};
use std::alloc::Global;

/// Where a root block has the root directory's own record, which begins with its length: behind a head of 24 bytes and two
/// entries of 40.
const OWN: usize = 104;

/// The root directory's own record, which stands in its root block. The rest of the block is not read.
fn own_record(alloc: Global, block: &[u8], root: u32) -> Result<Record, BlockError>
    requires { length block.now ≡ 8192 }
    ensures holds { IfOk result RecordHolds }
    ensures cause { IfErr result (λ e. (e ≡ Memory) ⊎ (e ≡ Damaged root)) }
{
    let end = OWN + u16_at(block, OWN) as usize;
    if BLOCK < end {
        return Err(BlockError::Damaged(root));
    }
    match read_record(alloc, &block[OWN..end]) {
        Ok(own) => Ok(own),
        Err(RecordError::Memory) => Err(BlockError::Memory),
        Err(RecordError::Bad(_)) => Err(BlockError::Damaged(root)),
    }
}

/// The root directory of a root block that was read.
fn root_from<B: Blocks>(alloc: Global, on: &B, block: &[u8], root: u32) -> Result<File, BlockError>
    requires length { length block.now ≡ 8192 }
    requires reads { ReadsSlots Root ((B.state on.now).now root) block.now }
    requires names { (i below : ℕ) → i < slot_count Root → target (((B.state on.now).now root).slot i) ≡ Local below → (B.state on.now).is_block below }
    requires block { (B.state on.now).is_block root }
    ensures holds { IfOk result (FileHolds (B.state on.now)) }
    ensures rank { IfOk result (λ f. f.rank ≡ 2120) }
    ensures dir { IfOk result (λ f. (f.dir ≡ true) × (f.leaf ≡ root)) }
    ensures cause { IfErr result (λ e. (e ≡ Memory) ⊎ (e ≡ Damaged root)) }
{
    let _ = on;
    let named = match own_record(alloc, block, root) {
        Ok(named) => named,
        Err(why) => return Err(why),
    };
    Ok(File {
        named,
        dir: true,
        first: entry_from(block, 24),
        second: entry_from(block, 64),
        leaf: root,
        rank: ROOT_RANK,
    })
}

/// The root directory of the tree with this root block, which is copied.
fn copied_root<B: Blocks>(alloc: Global, on: &mut B, root: u32) -> Result<File, BlockError>
    requires block { (B.state on.old).is_block root }
    requires silent { (B.state on.old).tells → ⊥ }
    ensures holds { IfOk result (FileHolds (B.state on.new)) }
    ensures rank { IfOk result (λ f. f.rank ≡ 2120) }
    ensures dir { IfOk result (λ f. (f.dir ≡ true) × (f.leaf ≡ root)) }
    ensures looks { Looks (B.state on.old) (B.state on.new) × B.keeps on.old on.new }
    ensures cause { IfErr result (Caused ⊥ (λ b. (B.state on.old).is_block b) (Rose (B.state on.old).faults (B.state on.new).faults) ⊥) }
{
    let mut block = [0; BLOCK];
    match on.get(root, Kind::Root, ROOT_PLACE, &mut block) {
        Ok(()) => root_from(alloc, on, &block, root),
        Err(why) => Err(why),
    }
}

/// The root directory of the tree with this root block.
pub fn root_file<B: Blocks>(alloc: Global, on: &mut B, root: u32) -> Result<File, BlockError>
    requires block { (B.state on.old).is_block root }
    requires silent { (B.state on.old).tells → ⊥ }
    ensures holds { IfOk result (FileHolds (B.state on.new)) }
    ensures rank { IfOk result (λ f. f.rank ≡ 2120) }
    ensures dir { IfOk result (λ f. (f.dir ≡ true) × (f.leaf ≡ root)) }
    ensures looks { Looks (B.state on.old) (B.state on.new) × B.keeps on.old on.new }
    ensures cause { IfErr result (Caused ⊥ (λ b. (B.state on.old).is_block b) (Rose (B.state on.old).faults (B.state on.new).faults) ⊥) }
{
    match on.pin(root, Kind::Root, ROOT_PLACE) {
        Ok(()) => {}
        Err(why) => return Err(why),
    }
    match on.lend(root, Kind::Root, ROOT_PLACE) {
        Some(block) => root_from(alloc, on, block, root),
        None => copied_root(alloc, on, root),
    }
}
