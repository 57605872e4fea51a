//! The life of a file.
ghost use Rattle.std.specs.Prelude.{◌≡◌, ◌+◌, ◌-◌, ◌^◌, ◌<◌, ◌≤◌, ℕ, true, length, IfOk};
ghost use Rattle.fo_image.specs.Record.{RecordHolds};
ghost use Rattle.fo_files_dir.specs.Dir.{IsDirAt, IsFileAt};
ghost use Rattle.fo_files_record.specs.Leaf.{IsEntriesAt};

use fo_files_change::take_file;
use fo_files_dir::{DirAt, FileAt};
use fo_files_new::files_leaf::{LeafOf, ready_leaf};
use fo_files_new::new_file;
use fo_files_write::write_data;
use fo_image::Record;
use fo_ports::{BlockError, Blocks};
use std::alloc::Global;

/// The first leaf of a directory's entries.
fn entries(dir: DirAt) -> LeafOf
    requires { 40 ≤ dir.rank }
    ensures { (result.at ≡ dir.at) × (result.slot ≡ dir.slot) × (result.rank ≡ dir.rank - 32) × (result.limit ≡ 2 ^ 38) × (result.is_dir ≡ true) }
{
    LeafOf {
        at: dir.at,
        slot: dir.slot,
        is_dir: true,
        tag: 42,
        rank: dir.rank - 32,
        limit: 1 << 38,
        leaf: 0,
    }
}

/// Puts file 9 into a directory as its first, with its record in the first leaf. Gives where its pair stands.
pub fn made<B: Blocks>(
    alloc: Global,
    on: &mut B,
    dir: DirAt,
    named: Record,
) -> Result<FileAt, BlockError>
    requires dir { IsDirAt (B.state on.old) dir × (dir.rank ≡ 2088) }
    requires named { RecordHolds named × (named.number < 2 ^ 30) }
    requires pins { 101 ≤ (B.state on.old).pins_left }
    requires spare { 34 ≤ (B.state on.old).spare }
    requires room { 1637 ≤ (B.state on.old).room }
    requires untold { (b : B) → (B.state b).tells → ⊥ }
    ensures dir { IsDirAt (B.state on.new) dir }
    ensures file { IfOk result (λ f. IsFileAt (B.state on.new) f × IsEntriesAt (B.state on.new) f.at) }
    ensures pins { (B.state on.old).pins_left ≤ (B.state on.new).pins_left + 101 }
    ensures spare { (B.state on.old).spare ≤ (B.state on.new).spare + 34 }
    ensures room { (B.state on.old).room ≤ (B.state on.new).room + 1637 }
{
    match new_file(alloc, on, dir, 0, 0, named) {
        Ok(_) => {}
        Err(why) => return Err(why),
    }
    match ready_leaf(alloc, on, entries(dir)) {
        Ok(at) => Ok(FileAt {
            at,
            slot: 0,
            number: 9,
            rank: 2056,
        }),
        Err(why) => Err(why),
    }
}

/// Writes a piece into a file, and gives its length then.
pub fn written<B: Blocks>(
    alloc: Global,
    on: &mut B,
    dir: DirAt,
    file: FileAt,
    piece: &[u8],
) -> Result<u64, BlockError>
    requires file { IsFileAt (B.state on.old) file }
    requires short { length piece.now ≤ 8192 }
    requires pins { 31 ≤ (B.state on.old).pins_left }
    requires spare { 20 ≤ (B.state on.old).spare }
    requires room { 1637 ≤ (B.state on.old).room }
    requires untold { (b : B) → (B.state b).tells → ⊥ }
    ensures dir { IsDirAt (B.state on.old) dir → IsDirAt (B.state on.new) dir }
    ensures entries { IsEntriesAt (B.state on.old) file.at → IsEntriesAt (B.state on.new) file.at }
    ensures pins { (B.state on.old).pins_left ≤ (B.state on.new).pins_left + 31 }
    ensures spare { (B.state on.old).spare ≤ (B.state on.new).spare + 20 }
    ensures room { (B.state on.old).room ≤ (B.state on.new).room + 1637 }
{
    let _ = dir;
    write_data(alloc, on, file, 3, piece)
}

/// A file is made, written and taken out by this name, of this pair. Gives the length that it had.
pub fn life<B: Blocks>(
    alloc: Global,
    on: &mut B,
    dir: DirAt,
    named: Record,
    piece: &[u8],
    pair: u32,
    name: &[u8],
) -> Result<u64, BlockError>
    requires dir { IsDirAt (B.state on.old) dir × (dir.rank ≡ 2088) }
    requires named { RecordHolds named × (named.number < 2 ^ 30) }
    requires short { length piece.now ≤ 8192 }
    requires pins { 152 ≤ (B.state on.old).pins_left }
    requires spare { 64 ≤ (B.state on.old).spare }
    requires room { 3276 ≤ (B.state on.old).room }
    requires untold { (b : B) → (B.state b).tells → ⊥ }
{
    let file = match made(alloc, on, dir, named) {
        Ok(file) => file,
        Err(why) => return Err(why),
    };
    let size = match written(alloc, on, dir, file, piece) {
        Ok(size) => size,
        Err(why) => return Err(why),
    };
    match take_file(alloc, on, dir, file.at, 0, pair, name, false) {
        Ok(()) => Ok(size),
        Err(why) => Err(why),
    }
}
