//! The rules, over values that were read.
ghost use Rattle.std.specs.Prelude.{◌≡◌, ◌^◌, ◌≤◌, ◌↔◌, length, IsTrue, MatchResult};
ghost use Rattle.fo_image.specs.Format.{SpellsHeader};
ghost use Rattle.fo_image.specs.Record.{SpellsRoot};
ghost use Rattle.fo_check.specs.declared.error.CheckError.TheVariants.{Unsound};
ghost use Rattle.fo_sound.specs.Image.{IsDataBlock};
ghost use Rattle.fo_sound.specs.Sound.{HasEpochs, ReachesLow};
ghost use Rattle.fo_check.specs.Answer.{Finds, IsAlone};
ghost use Rattle.fo_check.specs.Stage.{RefusesRoot, RefusesRest};

use crate::error::CheckError;
use fo_image::{RecordError, RootBlock, Super, first_data, read_header, read_root};
use std::alloc::Global;

/// Whether the block is the header of a device of so many blocks.
pub(crate) fn is_header(block: &[u8], blocks: u32) -> bool
    requires { length block.now ≡ 8192 }
    ensures { IsTrue result ↔ SpellsHeader (record { blocks = blocks }) block.now }
{
    match read_header(block) {
        Ok(header) => header.blocks == blocks,
        Err(_) => false,
    }
}

/// Whether the low epoch is at most the high one, and an epoch that is to be archived one of a snapshot that is kept.
pub(crate) fn has_epochs(s: &Super) -> bool
    ensures { IsTrue result ↔ HasEpochs s.now }
{
    s.low <= s.high && (s.pending == 0 || (s.low <= s.pending && s.pending < s.high))
}

/// Whether this is the address of a data block.
pub(crate) fn is_data_block(blocks: u32, address: u32) -> bool
    requires { blocks ≤ 2 ^ 20 }
    ensures { IsTrue result ↔ IsDataBlock blocks address }
{
    first_data(blocks) <= address && address < blocks
}

/// The root block of the high epoch that is in this block.
pub(crate) fn root_of(alloc: Global, s: &Super, block: &[u8]) -> Result<RootBlock, CheckError>
    requires { length block.now ≡ 8192 }
    ensures { Finds (λ root. SpellsRoot root block.now × (root.epoch ≡ s.now.high)) (RefusesRoot s.now block.now) result }
{
    let broken = unsound(2, s.active);
    let root = match read_root(alloc, block) {
        Ok(root) => root,
        Err(RecordError::Bad(_)) => return Err(broken),
        Err(RecordError::Memory) => return Err(CheckError::Memory),
    };
    if root.epoch != s.high {
        return Err(broken);
    }
    Ok(root)
}

/// Whether no root before the active one is kept, and nothing was archived.
fn is_alone(s: &Super, root: &RootBlock) -> bool
    ensures { IsTrue result ↔ IsAlone s.now root.now }
{
    root.prev_epoch < s.low && s.last.is_none()
}

/// A rule that is broken at this block.
pub(crate) fn unsound(rule: u8, block: u32) -> CheckError
    ensures { result ≡ Unsound rule block }
{
    CheckError::Unsound { rule, block }
}

/// Refuses what is not built yet, and a chain of roots that doesn't reach the low epoch.
pub(crate) fn judge(s: &Super, root: &RootBlock) -> Result<(), CheckError>
    ensures answer { MatchResult result (λ _. IsAlone s.now root.now × ReachesLow s.now) (RefusesRest s.now root.now) }
{
    if !is_alone(s, root) {
        return Err(CheckError::NotBuilt);
    }
    if s.low != s.high {
        return Err(unsound(3, s.active));
    }
    Ok(())
}
