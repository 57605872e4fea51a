//! A record goes with its pair.
ghost use Rattle.std.specs.Prelude.{◌≡◌, ◌⊎◌, ◌+◌, ◌≤◌, ℕ, IfErr, OnOk, OnErr, ◌∷◌, []};
ghost use Rattle.fo_base.specs.Cause.{Rose};
ghost use Rattle.fo_ports.specs.Causes.{Caused};
ghost use Rattle.fo_files_dir.specs.Dir.{IsDirAt};
ghost use Rattle.fo_files_leaf.specs.Leaf.{Readied};
ghost use Rattle.fo_files_record.specs.Leaf.{IsEntriesAt};
ghost use Rattle.fo_files_record.specs.Stays.{Rewrites, no_slot};
ghost use Rattle.fo_files_record.specs.Takes.{TakesOut};
ghost use Rattle.fo_files_change.specs.Records.{AltersRecords, HasLeaf, records_of};
ghost use Rattle.fo_ports.specs.Sources.{AddsDirty};

use crate::leaf::{RECORDS_BELOW, records_leaf};
use fo_files_dir::DirAt;
use fo_files_record::take_out;
use fo_ports::{BlockError, Blocks};
use std::alloc::Global;

/// Takes the first record of this name, which has to be of this pair, and a directory's or not, as is said, out of leaf `i` of a directory's
/// records, and clears its first entry in the leaf of entries that has the pair, of a directory the second too, once the leaf of records is
/// settled so. A leaf is damaged where it has no such record, its entry is another's, or an entry waits to be cleared already. Where it is
/// refused no record went: the leaf was made ready at most, or all was settled.
pub fn take_file<B: Blocks>(
    alloc: Global,
    on: &mut B,
    dir: DirAt,
    entries: u32,
    i: u32,
    pair: u32,
    name: &[u8],
    is_dir: bool,
) -> Result<(), BlockError>
    requires silent { (B.state on.old).tells → ⊥ }
    requires dir { IsDirAt (B.state on.old) dir }
    requires entries { IsEntriesAt (B.state on.old) entries }
    requires pins { 20 ≤ (B.state on.old).pins_left }
    requires spare { 10 ≤ (B.state on.old).spare }
    requires room { 2 ≤ (B.state on.old).room }
    ensures takes { OnOk result ((a m n : B) × (leaf : ℕ) × Readied (B.state on.old) (B.state a) (B.state m) (records_of dir i) leaf × AltersRecords dir (B.state on.old) (B.state m) × TakesOut (B.state m) (B.state n) (B.state on.new) leaf entries pair name.now is_dir) }
    ensures there { OnOk result (HasLeaf (B.state on.old) dir i) }
    ensures nothing { OnErr result ((m : B) × AltersRecords dir (B.state on.old) (B.state m) × Rewrites (λ b. ⊥) no_slot (B.state m) (B.state on.new)) }
    ensures dir { IsDirAt (B.state on.new) dir }
    ensures entries { (e : ℕ) → IsEntriesAt (B.state on.old) e → IsEntriesAt (B.state on.new) e }
    ensures spare { (B.state on.old).spare ≤ (B.state on.new).spare + 10 }
    ensures pins { (B.state on.old).pins_left ≤ (B.state on.new).pins_left + 20 }
    ensures room { (B.state on.old).room ≤ (B.state on.new).room + 2 }
    ensures cause { IfErr result (Caused ⊥ (λ b. (B.state on.old).is_block b ⊎ (b ≡ 1)) (Rose (B.state on.old).faults (B.state on.new).faults) (Rose (B.state on.old).arena_faults (B.state on.new).arena_faults)) }
    ensures dirties { AddsDirty 20 (dir.at ∷ entries ∷ []) dir.at (B.state on.old) (B.state on.new) }
    ensures keeps { B.keeps on.old on.new }
{
    let leaf = match records_leaf(alloc, on, dir, i) {
        Ok(leaf) => leaf,
        Err(why) => return Err(why),
    };
    match take_out(
        alloc,
        on,
        leaf,
        dir.rank - RECORDS_BELOW,
        entries,
        pair,
        name,
        is_dir,
    ) {
        Ok(()) => Ok(()),
        Err(why) => Err(why),
    }
}
