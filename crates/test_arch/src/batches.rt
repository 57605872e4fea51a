//! Batches of a root block alone.
ghost use Rattle.std.specs.Prelude.{◌≡◌, IfOk};
ghost use Rattle.fo_arch.specs.Archive.{IsOf};

use crate::archives::{arena, stored};
use crate::forms::BARE;
use fo_arch::Archive;
use fo_arch_hash::{Batch, MOST};
use fo_disk::MemDisk;
use fo_ports::BlockError;
use fo_ports_plain::PlainBlocks;
use std::alloc::Global;
use std::test::Fail;
use venti_store::Arena;

/// A batch of this archive, read from a new device.
fn batch_of(alloc: Global, archive: &Archive) -> Result<Batch, BlockError>
    requires { archive.now.root ≡ 2 }
    ensures { IfOk result (IsOf archive.now) }
{
    let mut on = PlainBlocks::new(alloc, 1)?;
    archive.batch(&mut on, MOST as usize)
}

/// Whether a batch is empty.
fn is_done(alloc: Global, archive: &Archive) -> bool
    requires { archive.now.root ≡ 2 }
{
    match batch_of(alloc, archive) {
        Ok(batch) => batch.pieces.is_empty(),
        Err(_) => false,
    }
}

/// Whether the archive of a new device has its score, where all is stored then, and nothing was before.
fn bare(alloc: Global, arena: &mut Arena<MemDisk>) -> bool {
    let mut archive = Archive::begin(alloc, 1, 5, 2, None);
    match batch_of(alloc, &archive) {
        Ok(batch) => {
            batch.pieces.len() == 1
                && stored(alloc, arena, &mut archive, batch) == Some(BARE)
                && is_done(alloc, &archive)
        }
        Err(_) => false,
    }
}

/// A root block alone takes a batch of one piece, and then the root of the archive. With ample memory.
#[test]
fn ample(rt: HostRuntime) -> Result<(), Fail> {
    let alloc = rt.alloc();
    let mut arena = arena(alloc, Vec::new(alloc))?;
    assert!(rt; bare(alloc, &mut arena));
    assert!(rt; arena.used() == 2);
    Ok(())
}
