//! The data of a file is written.
ghost use Rattle.std.specs.Prelude.{◌≡◌, ◌⊎◌, ◌+◌, ◌*◌, ◌/◌, ◌%◌, ◌^◌, ◌<◌, ◌≤◌, ℕ, false, length, max, IfOk, IfErr, ◌∷◌, []};
ghost use Rattle.fo_base.specs.Cause.{Rose};
ghost use Rattle.fo_ports.specs.Causes.{Caused};
ghost use Rattle.fo_tree_look.specs.Source.{Over};
ghost use Rattle.fo_tree_shorten.specs.Shorten.{EntryAt};
ghost use Rattle.fo_files_dir.specs.Dir.{IsFileAt};
ghost use Rattle.fo_files_write.specs.Alters.{Alters, is_above, any_kind};
ghost use Rattle.fo_files_write.specs.Data.{HasData, PutsPiece, most_of};
ghost use Rattle.fo_ports.specs.Sources.{AddsDirty};

use crate::open::opened;
use crate::put::{put, ready_for};
use fo_files_dir::FileAt;
use fo_ports::{BlockError, Blocks};
use fo_tree::Source;
use std::alloc::Global;

/// Puts a piece in the place of a file's bytes from the offset on, and gives the file's length then. Where it is refused, the
/// file's entry has the length that it had. The entry keeps its generation. Damaged is the block with its entry, where that is another, isn't in use, or waits to be cleared.
pub fn write_data<B: Blocks>(
    alloc: Global,
    on: &mut B,
    file: FileAt,
    offset: u64,
    piece: &[u8],
) -> Result<u64, BlockError>
    requires silent { (B.state on.old).tells → ⊥ }
    requires file { IsFileAt (B.state on.old) file }
    requires within { offset + length piece.now ≤ 2 ^ 40 }
    requires pins { most_of (length piece.now) + 15 ≤ (B.state on.old).pins_left }
    requires spare { most_of (length piece.now) + 4 ≤ (B.state on.old).spare }
    requires room { 1637 ≤ (B.state on.old).room }
    ensures length { IfOk result (λ n. (generation size : ℕ) × HasData (B.state on.old) file generation size × HasData (B.state on.new) file generation n × (length piece.now ≡ 0 → n ≡ size) × (0 < length piece.now → n ≡ max size (offset + length piece.now))) }
    ensures puts { IfOk result (λ n. 0 < length piece.now → (m : B) × Alters file.at file.slot (32 + 2 * file.number) is_above (B.state on.old) (B.state m) × PutsPiece (B.state m) (B.state on.new) file offset (length piece.now)) }
    ensures stays { IfErr result (λ why. (generation size : ℕ) → HasData (B.state on.old) file generation size → HasData (B.state on.new) file generation size) }
    ensures file { IsFileAt (B.state on.new) file }
    ensures nothing { IfErr result (λ why. Alters file.at file.slot (32 + 2 * file.number) is_above (B.state on.old) (B.state on.new)) }
    ensures alters { Alters file.at file.slot (32 + 2 * file.number) any_kind (B.state on.old) (B.state on.new) }
    ensures spare { (B.state on.old).spare ≤ (B.state on.new).spare + (most_of (length piece.now) + 4) }
    ensures room { (B.state on.old).room ≤ (B.state on.new).room + 1637 }
    ensures pins { (B.state on.old).pins_left ≤ (B.state on.new).pins_left + (most_of (length piece.now) + 15) }
    ensures dirties { AddsDirty (2 * (most_of (length piece.now) + 4)) (file.at ∷ []) file.at (B.state on.old) (B.state on.new) }
    ensures keeps { B.keeps on.old on.new }
    ensures cause { IfErr result (Caused ⊥ (λ b. (B.state on.old).is_block b ⊎ (b ≡ 1)) (Rose (B.state on.old).faults (B.state on.new).faults) (Rose (B.state on.old).arena_faults (B.state on.new).arena_faults)) }
{
    let mut source = match opened(alloc, on, file) {
        Ok(source) => source,
        Err(why) => return Err(why),
    };
    if piece.is_empty() {
        return Ok(source.ways.len());
    }
    write_source(on, &mut source, file, offset, piece)
}

/// Puts a piece into the data of a file that was opened.
fn write_source<B: Blocks>(
    on: &mut B,
    source: &mut Source,
    file: FileAt,
    offset: u64,
    piece: &[u8],
) -> Result<u64, BlockError>
    requires silent { (B.state on.old).tells → ⊥ }
    requires over { Over (B.state on.old) source.old.ways.tree source.old.ways.kept.items source.old.ways.limit }
    requires data { (source.old.ways.tree.dir ≡ false) × (source.old.ways.tree.rank % 32 ≡ 0) }
    requires entry { EntryAt (B.state on.old) source.old.ways.tree source.old.ways.generation file.at file.slot }
    requires some { 0 < length piece.now }
    requires within { offset + length piece.now ≤ source.old.ways.limit }
    requires pins { most_of (length piece.now) + 15 ≤ (B.state on.old).pins_left }
    requires spare { most_of (length piece.now) + 4 ≤ (B.state on.old).spare }
    requires room { 1637 ≤ (B.state on.old).room }
    ensures same { (source.new.ways.tree.dir ≡ source.old.ways.tree.dir) × (source.new.ways.tree.tag ≡ source.old.ways.tree.tag) × (source.new.ways.generation ≡ source.old.ways.generation) }
    ensures entry { EntryAt (B.state on.new) source.new.ways.tree source.new.ways.generation file.at file.slot }
    ensures puts { IfOk result (λ n. (m : B) × Alters file.at file.slot source.old.ways.tree.tag is_above (B.state on.old) (B.state m) × PutsPiece (B.state m) (B.state on.new) file offset (length piece.now)) }
    ensures size { IfOk result (λ n. (n ≡ source.new.ways.tree.size) × (n ≡ max source.old.ways.tree.size (offset + length piece.now))) }
    ensures stays { IfErr result (λ why. source.new.ways.tree.size ≡ source.old.ways.tree.size) }
    ensures nothing { IfErr result (λ why. Alters file.at file.slot source.old.ways.tree.tag is_above (B.state on.old) (B.state on.new)) }
    ensures alters { Alters file.at file.slot source.old.ways.tree.tag any_kind (B.state on.old) (B.state on.new) }
    ensures spare { (B.state on.old).spare ≤ (B.state on.new).spare + (most_of (length piece.now) + 4) }
    ensures room { (B.state on.old).room ≤ (B.state on.new).room + 1637 }
    ensures pins { (B.state on.old).pins_left ≤ (B.state on.new).pins_left + (most_of (length piece.now) + 15) }
    ensures dirties { AddsDirty (2 * (most_of (length piece.now) + 4)) (file.at ∷ []) file.at (B.state on.old) (B.state on.new) }
    ensures keeps { B.keeps on.old on.new }
    ensures cause { IfErr result (Caused ⊥ (λ b. (B.state on.old).is_block b ⊎ (b ≡ 1)) (Rose (B.state on.old).faults (B.state on.new).faults) (Rose (B.state on.old).arena_faults (B.state on.new).arena_faults)) }
{
    let FileAt { at, slot, .. } = file;
    match ready_for(on, source, at, slot, offset, piece.len() as u64) {
        Ok(()) => {}
        Err(why) => return Err(why),
    }
    put(on, source, at, slot, offset, piece);
    Ok(source.ways.len())
}
