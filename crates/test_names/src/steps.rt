//! Names of the root directory that are made, removed and renamed.
ghost use Rattle.std.specs.Prelude.{◌≡◌, ◌+◌, ◌*◌, ◌/◌, ◌%◌, ◌^◌, ◌<◌, ◌≤◌, ℕ, true, length, IfOk, IfSome, OnOk};
ghost use Rattle.fo_image.specs.declared.types.Pointer.TheVariants.{Nil};
ghost use Rattle.fo_image.specs.Record.{IsTextWithin, RecordHolds};
ghost use Rattle.fo_crash.specs.Images.{target};
ghost use Rattle.fo_crash.specs.Names.{IsInUse};
ghost use Rattle.fo_meta.specs.Leaf.{IsLeaf};
ghost use Rattle.test_names.specs.declared.parts.Part.TheVariants.{Entries, Records};
ghost use Rattle.test_names.specs.Root.{IsInMemory, IsLeafOf, NoneComes};

use crate::finds::{found, free, roomy};
use crate::leaf::at_hand;
use crate::names::user;
use crate::own::own_leaf;
use crate::parts::Part;
use fo_base::{BLOCK, Bytes as Text, Memory};
use fo_crash::Slot;
use fo_dir_add::{Outcome, add_new};
use fo_dir_read::Found;
use fo_dir_remove::remove_record;
use fo_image::{Pointer, Record, record_len};
use fo_ports::{BlockError, Blocks};
use std::alloc::Global;

/// How many pairs a leaf of entries has.
const PAIRS: u32 = 102;

/// Makes room for what a step takes at most.
pub(crate) fn reserve<B: Blocks>(on: &mut B) -> Result<(), BlockError>
    requires memory { (b : B) → IsInMemory (B.state b) }
    requires none { NoneComes (B.state on.old) }
    ensures room { OnOk result ((60 ≤ (B.state on.new).spare) × (4 ≤ (B.state on.new).room)) }
    ensures none { NoneComes (B.state on.new) }
    ensures keeps { B.keeps on.old on.new }
{
    match on.reserve(60, 0, 4) {
        Ok(()) => Ok(()),
        Err(why) => Err(why),
    }
}

/// The record of a file of this name and number that has no pair yet.
pub fn record(alloc: Global, name: Text, number: u32) -> Result<Record, Memory>
    requires { IsTextWithin 255 name }
    ensures { IfOk result RecordHolds }
{
    Ok(Record {
        name,
        number,
        slot: 0,
        generation: 0,
        vers: 0,
        mode: 0o644,
        atime: 100,
        mtime: 100,
        uid: user(alloc)?,
        gid: user(alloc)?,
        muid: user(alloc)?,
    })
}

/// Adds a record to a leaf of records at hand, with pair `k`, which is one of this leaf of entries. Whether it was added.
fn put<B: Blocks>(
    on: &mut B,
    leaf: u32,
    entries: u32,
    k: u32,
    named: &mut Record,
    bytes: &mut [u8],
) -> bool
    requires memory { (b : B) → IsInMemory (B.state b) }
    requires none { NoneComes (B.state on.old) }
    requires leaf { IsLeafOf (B.state on.old) Records leaf }
    requires entries { IsLeafOf (B.state on.old) Entries entries }
    requires room { 0 < (B.state on.old).room }
    requires number { named.old.number < 2 ^ 30 }
    requires spelled { RecordHolds named.old }
    requires bytes { IsLeaf bytes.old × (bytes.old ≡ ((B.state on.old).now leaf).bytes) }
    ensures none { NoneComes (B.state on.new) }
    ensures keeps { B.keeps on.old on.new }
{
    match add_new(on, leaf, entries, k / PAIRS, k % PAIRS, named, bytes) {
        Outcome::Added => true,
        Outcome::Taken => false,
        Outcome::NoRoom => false,
    }
}

/// Makes the leaf of entries of pair `k` and leaf `i` of records current. Whether both are leaves, or stand behind the last one.
pub(crate) fn own_both<B: Blocks>(
    alloc: Global,
    on: &mut B,
    k: u32,
    i: u32,
) -> Result<bool, BlockError>
    requires memory { (b : B) → IsInMemory (B.state b) }
    requires none { NoneComes (B.state on.old) }
    requires spare { 20 ≤ (B.state on.old).spare }
    ensures none { NoneComes (B.state on.new) }
    ensures spare { (B.state on.old).spare ≤ (B.state on.new).spare + 20 }
    ensures room { (B.state on.new).room ≡ (B.state on.old).room }
    ensures keeps { B.keeps on.old on.new }
{
    if !own_leaf(alloc, on, Part::Entries, k / PAIRS)? {
        return Ok(false);
    }
    own_leaf(alloc, on, Part::Records, i)
}

/// The addresses of the leaf of entries of pair `k` and of leaf `i` of records, which is at hand then. None where one isn't current.
pub(crate) fn both_at_hand<B: Blocks>(
    alloc: Global,
    on: &mut B,
    k: u32,
    i: u32,
    bytes: &mut [u8],
) -> Result<Option<(u32, u32)>, BlockError>
    requires memory { (b : B) → IsInMemory (B.state b) }
    requires none { NoneComes (B.state on.old) }
    requires length { length bytes.old ≡ 8192 }
    ensures entries { IfOk result (λ found. IfSome found (λ two. IsLeafOf (B.state on.new) Entries two.0)) }
    ensures leaf { IfOk result (λ found. IfSome found (λ two. IsLeafOf (B.state on.new) Records two.1)) }
    ensures hand { IfOk result (λ found. IfSome found (λ two. IsLeaf bytes.new × (bytes.new ≡ ((B.state on.new).now two.1).bytes))) }
    ensures none { NoneComes (B.state on.new) }
    ensures left { ((B.state on.new).spare ≡ (B.state on.old).spare) × ((B.state on.new).room ≡ (B.state on.old).room) }
    ensures keeps { B.keeps on.old on.new }
{
    let Some(entries) = at_hand(alloc, on, Part::Entries, k / PAIRS, bytes)? else {
        return Ok(None);
    };
    let Some(leaf) = at_hand(alloc, on, Part::Records, i, bytes)? else {
        return Ok(None);
    };
    Ok(Some((entries, leaf)))
}

/// Adds a record with pair `k` to leaf `i`. Whether it was added.
fn add<B: Blocks>(
    alloc: Global,
    on: &mut B,
    k: u32,
    i: u32,
    named: &mut Record,
) -> Result<bool, BlockError>
    requires memory { (b : B) → IsInMemory (B.state b) }
    requires none { NoneComes (B.state on.old) }
    requires spare { 20 ≤ (B.state on.old).spare }
    requires room { 4 ≤ (B.state on.old).room }
    requires spelled { RecordHolds named.old }
    ensures none { NoneComes (B.state on.new) }
    ensures keeps { B.keeps on.old on.new }
{
    if named.number >= 1 << 30 {
        return Ok(false);
    }
    if !own_both(alloc, on, k, i)? {
        return Ok(false);
    }
    let mut bytes = [0; BLOCK];
    let Some((entries, leaf)) = both_at_hand(alloc, on, k, i, &mut bytes)? else {
        return Ok(false);
    };
    Ok(put(on, leaf, entries, k, named, &mut bytes))
}

/// Makes a file of this name and number. Whether it was made.
pub fn make<B: Blocks>(
    alloc: Global,
    on: &mut B,
    name: Text,
    number: u32,
) -> Result<bool, BlockError>
    requires memory { (b : B) → IsInMemory (B.state b) }
    requires none { NoneComes (B.state on.old) }
    requires name { IsTextWithin 255 name }
    ensures none { NoneComes (B.state on.new) }
    ensures keeps { B.keeps on.old on.new }
{
    let mut named = record(alloc, name, number)?;
    reserve(on)?;
    let Some(k) = free(alloc, on)? else {
        return Ok(false);
    };
    let Some(i) = roomy(alloc, on, record_len(&named))? else {
        return Ok(false);
    };
    add(alloc, on, k, i, &mut named)
}

/// Whether an entry of a leaf at hand is in use, with this generation, and leads to no block.
fn is_plain<B: Blocks>(on: &B, entries: u32, j: u32, generation: u32) -> bool
    requires entries { IsLeafOf (B.state on.now) Entries entries }
    requires within { j < 204 }
    ensures { result ≡ true → IsInUse (((B.state on.now).now entries).slot j) generation × (target (((B.state on.now).now entries).slot j) ≡ Nil) }
{
    match on.slot(entries, j) {
        Slot::Entry(entry) => {
            entry.active && entry.generation == generation && matches!(entry.top, Pointer::Nil)
        }
        _ => false,
    }
}

/// Takes a name out of a leaf of records at hand, with its pair, which is one of this leaf of entries. Whether it was there.
fn take<B: Blocks>(on: &mut B, leaf: u32, entries: u32, found: &Found, bytes: &mut [u8]) -> bool
    requires memory { (b : B) → IsInMemory (B.state b) }
    requires none { NoneComes (B.state on.old) }
    requires leaf { IsLeafOf (B.state on.old) Records leaf }
    requires entries { IsLeafOf (B.state on.old) Entries entries }
    requires room { 0 < (B.state on.old).room }
    requires bytes { IsLeaf bytes.old × (bytes.old ≡ ((B.state on.old).now leaf).bytes) }
    ensures none { NoneComes (B.state on.new) }
    ensures keeps { B.keeps on.old on.new }
{
    let p = found.record.slot % PAIRS;
    if !is_plain(on, entries, 2 * p, found.record.generation) {
        return false;
    }
    remove_record(on, leaf, entries, p, found.record.name.as_slice(), bytes)
}

/// Takes out a name that was found, with its pair. Whether it was there.
fn take_found<B: Blocks>(alloc: Global, on: &mut B, found: Found) -> Result<bool, BlockError>
    requires memory { (b : B) → IsInMemory (B.state b) }
    requires none { NoneComes (B.state on.old) }
    requires spare { 20 ≤ (B.state on.old).spare }
    requires room { 4 ≤ (B.state on.old).room }
    ensures none { NoneComes (B.state on.new) }
    ensures keeps { B.keeps on.old on.new }
{
    if !own_both(alloc, on, found.record.slot, found.leaf)? {
        return Ok(false);
    }
    let mut bytes = [0; BLOCK];
    match both_at_hand(alloc, on, found.record.slot, found.leaf, &mut bytes) {
        Ok(Some((entries, leaf))) => Ok(take(on, leaf, entries, &found, &mut bytes)),
        Ok(None) => Ok(false),
        Err(why) => Err(why),
    }
}

/// Removes the file of a name. Whether it was there, and is removed.
pub fn remove<B: Blocks>(alloc: Global, on: &mut B, name: &Text) -> Result<bool, BlockError>
    requires memory { (b : B) → IsInMemory (B.state b) }
    requires none { NoneComes (B.state on.old) }
    ensures none { NoneComes (B.state on.new) }
    ensures keeps { B.keeps on.old on.new }
{
    reserve(on)?;
    match found(alloc, on, name) {
        Ok(Some(found)) => take_found(alloc, on, found),
        Ok(None) => Ok(false),
        Err(why) => Err(why),
    }
}
