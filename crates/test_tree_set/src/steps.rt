//! Steps on the data of a file, one after another, over any blocks that tell nothing.
ghost use Rattle.std.specs.Prelude.{◌≡◌, ◌+◌, ◌-◌, ◌*◌, ◌^◌, ◌<◌, ◌≤◌, ℕ, length};
ghost use Rattle.fo_image.specs.declared.types.Pointer.TheVariants.{Nil};
ghost use Rattle.fo_tree_look.specs.Source.{Over};
ghost use Rattle.fo_files_dir.specs.Dir.{IsFileAt};
ghost use Rattle.test_tree_set.specs.Steps.{blank_data};

use fo_crash::Slot;
use fo_files_cut::files_write::write_data;
use fo_files_cut::{CutError, cut_data};
use fo_files_dir::FileAt;
use fo_image::{Entry, Kind, Pointer};
use fo_ports::{BlockError, Blocks};
use fo_tree_look::Ways;
use fo_tree_open::open;
use std::alloc::Global;

/// What is done to a file: it gets a length, or a byte is put.
#[derive(Clone, Copy)]
pub enum Step {
    Cut(u64),
    Put(u64, u8),
}

/// The entry of the data of file 4, which has no bytes.
fn blank_data() -> Entry
    ensures { result ≡ blank_data }
{
    Entry {
        generation: 1,
        active: true,
        dir: false,
        depth: 0,
        tag: 40,
        size: 0,
        top: Pointer::Nil,
    }
}

/// A file without bytes, whose pair of entries stands in a new leaf of entries.
pub fn begun<B: Blocks>(on: &mut B) -> FileAt
    requires spare { 0 < (B.state on.old).spare }
    requires untold { (b : B) → (B.state b).tells → ⊥ }
    ensures file { IsFileAt (B.state on.new) result }
    ensures spare { (B.state on.old).spare ≤ (B.state on.new).spare + 1 }
    ensures room { (B.state on.old).room ≤ (B.state on.new).room }
    ensures pins { (B.state on.new).pins_left ≡ (B.state on.old).pins_left }
{
    let at = on.new_block(Kind::Dir(0), 32, 2120);
    let entry = blank_data();
    on.put_slot(at, 0, Slot::Entry(entry));
    FileAt {
        at,
        slot: 0,
        number: 4,
        rank: 2120,
    }
}

/// A step is done. Whether it was not refused as too big.
fn apply<B: Blocks>(alloc: Global, on: &mut B, file: FileAt, step: Step) -> Result<bool, BlockError>
    requires file { IsFileAt (B.state on.old) file }
    requires untold { (b : B) → (B.state b).tells → ⊥ }
    requires spare { 19 ≤ (B.state on.old).spare }
    requires room { 3273 ≤ (B.state on.old).room }
    requires pins { 30 ≤ (B.state on.old).pins_left }
    ensures file { IsFileAt (B.state on.new) file }
    ensures spare { (B.state on.old).spare ≤ (B.state on.new).spare + 19 }
    ensures room { (B.state on.old).room ≤ (B.state on.new).room + 3273 }
    ensures pins { (B.state on.old).pins_left ≤ (B.state on.new).pins_left + 30 }
{
    match step {
        Step::Cut(len) => cut(alloc, on, file, len),
        Step::Put(place, value) => put(alloc, on, file, place, value),
    }
}

/// The file gets a length.
fn cut<B: Blocks>(alloc: Global, on: &mut B, file: FileAt, len: u64) -> Result<bool, BlockError>
    requires file { IsFileAt (B.state on.old) file }
    requires untold { (b : B) → (B.state b).tells → ⊥ }
    requires spare { 19 ≤ (B.state on.old).spare }
    requires room { 3273 ≤ (B.state on.old).room }
    requires pins { 30 ≤ (B.state on.old).pins_left }
    ensures file { IsFileAt (B.state on.new) file }
    ensures spare { (B.state on.old).spare ≤ (B.state on.new).spare + 19 }
    ensures room { (B.state on.old).room ≤ (B.state on.new).room + 3273 }
    ensures pins { (B.state on.old).pins_left ≤ (B.state on.new).pins_left + 30 }
{
    match cut_data(alloc, on, file, len) {
        Ok(long) => Ok(long == len),
        Err(CutError::TooBig) => Ok(false),
        Err(CutError::Blocks(why)) => Err(why),
    }
}

/// A byte is put into the file.
fn put<B: Blocks>(
    alloc: Global,
    on: &mut B,
    file: FileAt,
    place: u64,
    value: u8,
) -> Result<bool, BlockError>
    requires file { IsFileAt (B.state on.old) file }
    requires untold { (b : B) → (B.state b).tells → ⊥ }
    requires spare { 19 ≤ (B.state on.old).spare }
    requires room { 3273 ≤ (B.state on.old).room }
    requires pins { 30 ≤ (B.state on.old).pins_left }
    ensures file { IsFileAt (B.state on.new) file }
    ensures spare { (B.state on.old).spare ≤ (B.state on.new).spare + 19 }
    ensures room { (B.state on.old).room ≤ (B.state on.new).room + 3273 }
    ensures pins { (B.state on.old).pins_left ≤ (B.state on.new).pins_left + 30 }
{
    if place >= 1 << 40 {
        return Ok(false);
    }
    match write_data(alloc, on, file, place, &[value]) {
        Ok(_) => Ok(true),
        Err(why) => Err(why),
    }
}

/// All steps are done. Whether none was refused as too big.
pub fn run<B: Blocks>(
    alloc: Global,
    on: &mut B,
    file: FileAt,
    steps: &[Step],
) -> Result<bool, BlockError>
    requires file { IsFileAt (B.state on.old) file }
    requires untold { (b : B) → (B.state b).tells → ⊥ }
    requires spare { 19 * length steps.now ≤ (B.state on.old).spare }
    requires room { 3273 * length steps.now ≤ (B.state on.old).room }
    requires pins { 30 * length steps.now ≤ (B.state on.old).pins_left }
    ensures { IsFileAt (B.state on.new) file }
{
    for step in steps {
        if !apply(alloc, on, file, *step)? {
            return Ok(false);
        }
    }
    Ok(true)
}

/// The byte at a place of the file; 0 behind its end.
fn byte<B: Blocks>(ways: &Ways, on: &mut B, place: u64) -> Result<u8, BlockError>
    requires over { Over (B.state on.old) ways.now.tree ways.now.kept.items ways.now.limit }
    ensures { Over (B.state on.new) ways.now.tree ways.now.kept.items ways.now.limit }
{
    let mut into = [0];
    ways.read(on, place, &mut into)?;
    Ok(into[0])
}

/// Whether the file has these bytes at these places.
fn has<B: Blocks>(ways: &Ways, on: &mut B, rows: &[(u64, u8)]) -> Result<bool, BlockError>
    requires over { Over (B.state on.old) ways.now.tree ways.now.kept.items ways.now.limit }
    ensures { Over (B.state on.new) ways.now.tree ways.now.kept.items ways.now.limit }
{
    for (place, value) in rows {
        if byte(ways, on, *place)? != *value {
            return Ok(false);
        }
    }
    Ok(true)
}

/// The depth of a file's data, where it has these bytes; None where it hasn't.
pub fn found<B: Blocks>(
    alloc: Global,
    on: &mut B,
    file: FileAt,
    rows: &[(u64, u8)],
) -> Result<Option<u8>, BlockError>
    requires file { IsFileAt (B.state on.old) file }
    requires untold { (b : B) → (B.state b).tells → ⊥ }
{
    let Slot::Entry(entry) = on.slot(file.at, file.slot) else {
        return Ok(None);
    };
    let Some(ways) = open(alloc, on, file.at, file.slot, &entry, 40, 2112, 1 << 40) else {
        return Ok(None);
    };
    let depth = ways.tree.depth;
    if has(&ways, on, rows)? {
        return Ok(Some(depth));
    }
    Ok(None)
}
