//! The root directory's own record is changed.
ghost use Rattle.std.specs.Prelude.{◌≡◌, ◌⊎◌, ◌+◌, ◌≤◌, ℕ, [], IfOk, IfErr, OnOk, OnErr};
ghost use Rattle.fo_base.specs.Cause.{Rose};
ghost use Rattle.fo_ports.specs.Causes.{Caused};
ghost use Rattle.fo_files_into.specs.of_files_at.Way.{IsWay};
ghost use Rattle.fo_files_edit.specs.Edit.{EditsRoot, RootLeft, as_root};
ghost use Rattle.fo_ports.specs.Sources.{Dirties};
ghost use Rattle.fo_ports.specs.State.{none};

use crate::found::Found;
use fo_base::Bytes;
use fo_files_into::files_along::own_dir_along;
use fo_files_record::put_own_record;
use fo_image::Record;
use fo_ports::{BlockError, Blocks};
use std::alloc::{AllocError, Global};

/// A copy of a record as a root block has it: of the name `/`, and with no number, pair or generation.
pub fn root_record(alloc: Global, named: &Record) -> Result<Record, AllocError>
    ensures { IfOk result (λ r. r ≡ as_root named.now) }
{
    Ok(Record {
        name: Bytes::copy_of(alloc, b"/")?,
        number: 0,
        slot: 0,
        generation: 0,
        uid: named.uid.copy(alloc)?,
        gid: named.gid.copy(alloc)?,
        muid: named.muid.copy(alloc)?,
        ..*named
    })
}

/// Owns the root block of the root directory that was found, and puts the record that the way has into it. Where it is refused the record stays.
pub(crate) fn edit_root<B: Blocks>(
    alloc: Global,
    on: &mut B,
    root: u32,
    found: &Found,
) -> Result<(), BlockError>
    requires silent { (B.state on.old).tells → ⊥ }
    requires way { IsWay (B.state on.old) root [] found.now.way }
    requires pins { 1 ≤ (B.state on.old).pins_left }
    ensures edits { OnOk result (EditsRoot B B.state on.old on.new root found.now.way) }
    ensures left { OnErr result (RootLeft B B.state on.old on.new root found.now.way) }
    ensures usable { (B.state on.old).usable ≤ (B.state on.new).usable }
    ensures cause { IfErr result (Caused ⊥ (λ b. (B.state on.old).is_block b ⊎ (b ≡ 1)) (Rose (B.state on.old).faults (B.state on.new).faults) (Rose (B.state on.old).arena_faults (B.state on.new).arena_faults)) }
    ensures dirties { Dirties 1 none (B.state on.old) (B.state on.new) }
    ensures keeps { B.keeps on.old on.new }
{
    if !found.way.file.dir {
        return Err(BlockError::Damaged(found.way.file.leaf));
    }
    let stand = match own_dir_along(alloc, on, &found.way) {
        Ok(stand) => stand,
        Err(why) => return Err(why),
    };
    let Ok(named) = root_record(alloc, &found.way.file.named) else {
        return Err(BlockError::Memory);
    };
    match put_own_record(alloc, on, stand.dir.at, named) {
        Ok(()) => Ok(()),
        Err(why) => Err(why),
    }
}
