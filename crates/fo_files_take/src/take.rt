//! A file's record goes, and its directory's own record changes.
ghost use Rattle.std.specs.Prelude.{◌≡◌, ◌⊎◌, ◌+◌, ◌≤◌, ℕ, IfErr, OnOk, OnErr, ◌∷◌, [], ◌*◌};
ghost use Rattle.fo_base.specs.Cause.{Rose};
ghost use Rattle.fo_ports.specs.Causes.{Caused};
ghost use Rattle.fo_files_dir.specs.Dir.{IsDirAt};
ghost use Rattle.fo_files_own.specs.of_files_record.Leaf.{IsEntriesAt};
ghost use Rattle.fo_files_own.specs.Own.{IsApartFrom, IsOwnAt, MayOwn, block_of, blocks_for};
ghost use Rattle.fo_files_take.specs.Take.{LeavesFrom, TakesFrom};
ghost use Rattle.fo_ports.specs.Sources.{AddsDirty};

use fo_files_dir::DirAt;
use fo_files_own::files_change::take_file;
use fo_files_own::{OwnAt, put_own, ready_own};
use fo_image::Record;
use fo_ports::{BlockError, Blocks};
use std::alloc::Global;

/// A file that is to go, a directory or not: the leaf of the entries that has its pair, leaf `leaf` of its directory's records, which has its record,
/// and its pair.
#[derive(Clone, Copy, Debug)]
pub(crate) struct Going {
    pub(crate) entries: u32,
    pub(crate) leaf: u32,
    pub(crate) pair: u32,
    pub(crate) dir: bool,
}

/// Takes a file's record out of its directory, with the entries of its pair, and then puts the directory's own record. Refused before any record is
/// other than it was.
pub(crate) fn take_from<B: Blocks>(
    alloc: Global,
    on: &mut B,
    dir: DirAt,
    own: OwnAt,
    changed: &Record,
    file: Going,
    name: &[u8],
) -> Result<(), BlockError>
    requires silent { (B.state on.old).tells → ⊥ }
    requires dir { IsDirAt (B.state on.old) dir }
    requires entries { IsEntriesAt (B.state on.old) file.entries }
    requires own { IsOwnAt (B.state on.old) own × IsApartFrom dir own }
    requires changed { MayOwn own changed.now }
    requires pins { 80 ≤ (B.state on.old).pins_left }
    requires spare { 26 ≤ (B.state on.old).spare }
    requires room { 1639 ≤ (B.state on.old).room }
    ensures takes { OnOk result (TakesFrom B B.state on.old on.new dir own changed.now file.entries file.leaf file.pair name.now file.dir) }
    ensures left { OnErr result (LeavesFrom B B.state on.old on.new dir own changed.now.name) }
    ensures taken { (B.state on.old).usable ≤ (B.state on.new).usable + 26 }
    ensures cause { IfErr result (Caused ⊥ (λ b. (B.state on.old).is_block b ⊎ (b ≡ 1)) (Rose (B.state on.old).faults (B.state on.new).faults) (Rose (B.state on.old).arena_faults (B.state on.new).arena_faults)) }
    ensures dirties { AddsDirty (2 * (blocks_for own + 10)) (dir.at ∷ file.entries ∷ block_of own ∷ []) dir.at (B.state on.old) (B.state on.new) }
    ensures keeps { B.keeps on.old on.new }
{
    let ready = match ready_own(alloc, on, own, changed) {
        Ok(ready) => ready,
        Err(why) => return Err(why),
    };
    let Going {
        entries,
        leaf,
        pair,
        dir: is_dir,
    } = file;
    match take_file(alloc, on, dir, entries, leaf, pair, name, is_dir) {
        Ok(()) => {}
        Err(why) => return Err(why),
    }
    put_own(on, ready);
    Ok(())
}
