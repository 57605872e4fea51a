//! What is looked for in the root directory.
ghost use Rattle.std.specs.Prelude.{◌≡◌, ◌≤◌, ℕ, IfOk, IfSome};
ghost use Rattle.fo_image.specs.Record.{RecordHolds};
ghost use Rattle.test_names.specs.Root.{IsInMemory, NoneComes};

use crate::parts::Part;
use crate::root::opened;
use fo_base::Bytes as Text;
use fo_dir_list::{leaf_for, next};
use fo_dir_read::{Found, free_pair, lookup};
use fo_image::Record;
use fo_ports::{BlockError, Blocks};
use std::alloc::Global;

/// The rank of the records.
const RECORDS: u32 = 2096;

/// The rank of the entries.
const ENTRIES: u32 = 2088;

/// The least free pair.
pub fn free<B: Blocks>(alloc: Global, on: &mut B) -> Result<Option<u32>, BlockError>
    requires memory { (b : B) → IsInMemory (B.state b) }
    requires none { NoneComes (B.state on.old) }
    ensures none { NoneComes (B.state on.new) }
    ensures left { ((B.state on.new).spare ≡ (B.state on.old).spare) × ((B.state on.new).room ≡ (B.state on.old).room) }
    ensures keeps { B.keeps on.old on.new }
{
    let Some(mut entries) = opened(alloc, on, Part::Entries)? else {
        return Ok(None);
    };
    match free_pair(&mut entries, on, ENTRIES) {
        Ok(k) => Ok(Some(k)),
        Err(why) => Err(why),
    }
}

/// The first leaf of records with room for one of this length, or the one behind the last. None where no record is so long.
pub(crate) fn roomy<B: Blocks>(
    alloc: Global,
    on: &mut B,
    len: usize,
) -> Result<Option<u32>, BlockError>
    requires memory { (b : B) → IsInMemory (B.state b) }
    requires none { NoneComes (B.state on.old) }
    ensures none { NoneComes (B.state on.new) }
    ensures left { ((B.state on.new).spare ≡ (B.state on.old).spare) × ((B.state on.new).room ≡ (B.state on.old).room) }
    ensures keeps { B.keeps on.old on.new }
{
    if 481 < len {
        return Ok(None);
    }
    let Some(mut records) = opened(alloc, on, Part::Records)? else {
        return Ok(None);
    };
    match leaf_for(&mut records, on, RECORDS, len) {
        Ok(i) => Ok(Some(i)),
        Err(why) => Err(why),
    }
}

/// The first record of a name, and the leaf in which it stands.
pub fn found<B: Blocks>(alloc: Global, on: &mut B, name: &Text) -> Result<Option<Found>, BlockError>
    requires memory { (b : B) → IsInMemory (B.state b) }
    requires none { NoneComes (B.state on.old) }
    ensures holds { IfOk result (λ found. IfSome found (λ f. RecordHolds f.record)) }
    ensures none { NoneComes (B.state on.new) }
    ensures left { ((B.state on.new).spare ≡ (B.state on.old).spare) × ((B.state on.new).room ≡ (B.state on.old).room) }
    ensures keeps { B.keeps on.old on.new }
{
    let Some(mut records) = opened(alloc, on, Part::Records)? else {
        return Ok(None);
    };
    match lookup(alloc, &mut records, on, RECORDS, name.as_slice()) {
        Ok(found) => Ok(found),
        Err(why) => Err(why),
    }
}

/// The record of the least name after this one.
pub fn next_record<B: Blocks>(
    alloc: Global,
    on: &mut B,
    after: &Text,
) -> Result<Option<Record>, BlockError>
    requires memory { (b : B) → IsInMemory (B.state b) }
    requires none { NoneComes (B.state on.old) }
    ensures none { NoneComes (B.state on.new) }
    ensures keeps { B.keeps on.old on.new }
{
    let Some(mut records) = opened(alloc, on, Part::Records)? else {
        return Ok(None);
    };
    match next(alloc, &mut records, on, RECORDS, after.as_slice()) {
        Ok(found) => Ok(found),
        Err(why) => Err(why),
    }
}
