//! A piece is put into a file, and its record.
ghost use Rattle.std.specs.Prelude.{◌≡◌, ◌≢◌, ◌⊎◌, ◌+◌, ◌*◌, ◌/◌, ◌%◌, ◌^◌, ◌<◌, ◌≤◌, ℕ, List, length, IfErr, OnOk, OnErr, ◌∷◌, []};
ghost use Rattle.fo_base.specs.Cause.{Rose};
ghost use Rattle.fo_image.specs.Record.{RecordHolds};
ghost use Rattle.fo_ports.specs.Causes.{Caused};
ghost use Rattle.fo_ports.specs.State.{Looks};
ghost use Rattle.fo_files_dir.specs.Dir.{IsDirAt, IsFileAt};
ghost use Rattle.fo_files_record.specs.Leaf.{IsEntriesAt};
ghost use Rattle.fo_files_cut.specs.of_files_write.Data.{most_of};
ghost use Rattle.fo_files_into.specs.Into.{Puts, LeftBy};
ghost use Rattle.fo_ports.specs.Sources.{AddsDirty};

use fo_base::BLOCK;
use fo_dir_change::change_record;
use fo_files_along::Stand;
use fo_files_along::files_at::RECORDS_BELOW;
use fo_files_cut::files_write::write_data;
use fo_files_ready::ready_record;
use fo_files_record::read;
use fo_image::Record;
use fo_ports::{BlockError, Blocks};
use std::alloc::Global;

/// Puts a piece at an offset of a file, and a record of the same name in the place of the first of that in leaf `i` of its directory's records, which
/// may move to leaf `spare` before. All that may be refused comes before the data.
pub fn write_into<B: Blocks>(
    alloc: Global,
    on: &mut B,
    at: Stand,
    i: u32,
    spare: u32,
    named: &Record,
    offset: u64,
    piece: &[u8],
) -> Result<(), BlockError>
    requires silent { (B.state on.old).tells → ⊥ }
    requires dir { IsDirAt (B.state on.old) at.dir }
    requires file { IsFileAt (B.state on.old) at.file }
    requires entries { IsEntriesAt (B.state on.old) at.file.at }
    requires spelled { RecordHolds named.now }
    requires some { 0 < length piece.now }
    requires within { offset + length piece.now ≤ 2 ^ 40 }
    requires pins { most_of (length piece.now) + 75 ≤ (B.state on.old).pins_left }
    requires spare { most_of (length piece.now) + 15 ≤ (B.state on.old).spare }
    requires room { 3274 ≤ (B.state on.old).room }
    ensures puts { OnOk result (Puts B B.state on.old on.new at.dir at.file i spare named.now offset (length piece.now)) }
    ensures left { OnErr result (LeftBy B B.state on.old on.new at.dir at.file i spare named.now.name) }
    ensures spare { (B.state on.old).spare ≤ (B.state on.new).spare + (most_of (length piece.now) + 15) }
    ensures usable { (B.state on.old).usable + (B.state on.new).spare ≤ (B.state on.new).usable + (B.state on.old).spare }
    ensures cause { IfErr result (Caused ⊥ (λ b. (B.state on.old).is_block b ⊎ (b ≡ 1)) (Rose (B.state on.old).faults (B.state on.new).faults) (Rose (B.state on.old).arena_faults (B.state on.new).arena_faults)) }
    ensures dirties { AddsDirty (2 * (most_of (length piece.now) + 15)) (at.dir.at ∷ at.file.at ∷ []) at.dir.at (B.state on.old) (B.state on.new) }
    ensures keeps { B.keeps on.old on.new }
{
    let Stand { dir, file, .. } = at;
    let name = named.name.as_slice();
    let leaf = match ready_record(alloc, on, dir, file.at, i, spare, name, named) {
        Ok(leaf) => leaf,
        Err(why) => return Err(why),
    };
    let mut bytes = [0; BLOCK];
    match read(on, leaf, dir.rank - RECORDS_BELOW, &mut bytes) {
        Ok(()) => {}
        Err(why) => return Err(why),
    }
    match write_data(alloc, on, file, offset, piece) {
        Ok(_) => {}
        Err(why) => return Err(why),
    }
    let _ = change_record(on, leaf, name, named, &mut bytes);
    Ok(())
}
