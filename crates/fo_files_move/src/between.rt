//! A record moves between two owned leaves.
ghost use Rattle.std.specs.Prelude.{◌≡◌, ◌≢◌, ◌⊎◌, ◌+◌, ◌%◌, ◌<◌, ◌≤◌, ℕ, true, false, length, IfOk, IfErr, OnOk, OnErr, [], ◌∷◌};
ghost use Rattle.fo_base.specs.Cause.{Rose};
ghost use Rattle.fo_image.specs.Record.{RecordHolds};
ghost use Rattle.fo_meta.specs.Leaf.{IsLeaf};
ghost use Rattle.fo_ports.specs.declared.error.BlockError.TheVariants.{Damaged, Memory};
ghost use Rattle.fo_ports.specs.Causes.{Caused};
ghost use Rattle.fo_dir_move.specs.of_dir_add.Adds.{IsFullFor};
ghost use Rattle.fo_dir_move.specs.of_dir_change.Changes.{IsFirstOf};
ghost use Rattle.fo_dir_move.specs.Moves.{HasLeaves, IsSettledBut};
ghost use Rattle.fo_files_record.specs.Leaf.{IsRecordsAt, IsEntriesAt};
ghost use Rattle.fo_files_record.specs.Stays.{Rewrites, no_slot};
ghost use Rattle.fo_files_move.specs.Moves.{HasMoved, LacksRoomFor};
ghost use Rattle.fo_ports.specs.Sources.{DirtiesIn};

use fo_base::BLOCK;
use fo_dir_move::move_record;
use fo_files_record::read;
use fo_image::Record;
use fo_meta::{find, insert};
use fo_ports::{BlockError, Blocks};
use std::alloc::Global;

/// The first record of this name in the bytes of a leaf, which is damaged where it has none.
fn first_named(alloc: Global, bytes: &[u8], leaf: u32, name: &[u8]) -> Result<Record, BlockError>
    requires { IsLeaf bytes.now }
    ensures first { IfOk result (IsFirstOf name.now bytes.now) }
    ensures named { IfOk result (λ r. r.name ≡ name.now) }
    ensures holds { IfOk result RecordHolds }
    ensures cause { IfErr result (λ e. (e ≡ Memory) ⊎ (e ≡ Damaged leaf)) }
{
    match find(alloc, bytes, name) {
        Ok(Some(record)) => Ok(record),
        Ok(None) => Err(BlockError::Damaged(leaf)),
        Err(_) => Err(BlockError::Memory),
    }
}

/// Whether a record has room at the end of a leaf.
fn has_room(leaf: &[u8], named: &Record) -> bool
    requires leaf { IsLeaf leaf.now }
    requires spelled { RecordHolds named.now }
    ensures { result ≡ false → IsFullFor named.now leaf.now }
{
    let mut more = [0; BLOCK];
    more.copy_from_slice(leaf);
    match insert(&mut more, named) {
        Ok(()) => true,
        Err(_) => false,
    }
}

/// Copies the bytes of two owned leaves.
fn both_read<B: Blocks>(
    on: &mut B,
    from: u32,
    to: u32,
    rank: u32,
    from_bytes: &mut [u8],
    to_bytes: &mut [u8],
) -> Result<(), BlockError>
    requires silent { (B.state on.old).tells → ⊥ }
    requires from { IsRecordsAt (B.state on.old) from }
    requires to { IsRecordsAt (B.state on.old) to }
    requires rank { rank % 32 ≡ 16 }
    requires length { (length from_bytes.old ≡ 8192) × (length to_bytes.old ≡ 8192) }
    ensures from { IsRecordsAt (B.state on.new) from }
    ensures to { IsRecordsAt (B.state on.new) to }
    ensures bytes { OnOk result (IsLeaf from_bytes.new × (from_bytes.new ≡ ((B.state on.new).now from).bytes) × IsLeaf to_bytes.new × (to_bytes.new ≡ ((B.state on.new).now to).bytes)) }
    ensures same { HasLeaves from to (((B.state on.old).now from).bytes) (((B.state on.old).now to).bytes) (B.state on.new) }
    ensures stays { Rewrites (λ b. ⊥) no_slot (B.state on.old) (B.state on.new) }
    ensures room { (B.state on.new).room ≡ (B.state on.old).room }
    ensures cause { IfErr result (Caused ⊥ (B.state on.old).is_block (Rose (B.state on.old).faults (B.state on.new).faults) ⊥) }
    ensures dirties { DirtiesIn [] (B.state on.old) (B.state on.new) }
    ensures keeps { B.keeps on.old on.new }
{
    match read(on, from, rank, from_bytes) {
        Ok(()) => {}
        Err(why) => return Err(why),
    }
    match read(on, to, rank, to_bytes) {
        Ok(()) => Ok(()),
        Err(why) => Err(why),
    }
}

/// Settles, where one of these isn't in place.
fn placed<B: Blocks>(on: &mut B, from: u32, to: u32, entries: u32) -> Result<(), BlockError>
    requires silent { (B.state on.old).tells → ⊥ }
    requires from { IsRecordsAt (B.state on.old) from }
    requires to { IsRecordsAt (B.state on.old) to }
    requires entries { IsEntriesAt (B.state on.old) entries }
    ensures from { IsRecordsAt (B.state on.new) from }
    ensures to { IsRecordsAt (B.state on.new) to }
    ensures entries { IsEntriesAt (B.state on.new) entries }
    ensures same { HasLeaves from to (((B.state on.old).now from).bytes) (((B.state on.old).now to).bytes) (B.state on.new) }
    ensures stays { Rewrites (λ b. ⊥) no_slot (B.state on.old) (B.state on.new) }
    ensures room { (B.state on.new).room ≡ (B.state on.old).room }
    ensures cause { IfErr result (Caused ⊥ (B.state on.old).is_block (Rose (B.state on.old).faults (B.state on.new).faults) ⊥) }
    ensures dirties { DirtiesIn [] (B.state on.old) (B.state on.new) }
    ensures keeps { B.keeps on.old on.new }
{
    if on.sealed(from) && on.sealed(to) && on.sealed(entries) {
        return Ok(());
    }
    match on.settle() {
        Ok(()) => Ok(()),
        Err(why) => Err(why),
    }
}

/// Moves a record that was found, where the bytes of both leaves are at hand.
fn moved<B: Blocks>(
    on: &mut B,
    from: u32,
    to: u32,
    entries: u32,
    named: &Record,
    from_bytes: &[u8],
    to_bytes: &mut [u8],
) -> Result<bool, BlockError>
    requires silent { (B.state on.old).tells → ⊥ }
    requires differ { from ≢ to }
    requires from { IsRecordsAt (B.state on.old) from }
    requires to { IsRecordsAt (B.state on.old) to }
    requires entries { IsEntriesAt (B.state on.old) entries }
    requires room { 0 < (B.state on.old).room }
    requires from_bytes { IsLeaf from_bytes.now × (from_bytes.now ≡ ((B.state on.old).now from).bytes) }
    requires to_bytes { IsLeaf to_bytes.old × (to_bytes.old ≡ ((B.state on.old).now to).bytes) }
    requires first { IsFirstOf named.now.name (((B.state on.old).now from).bytes) named.now }
    requires spelled { RecordHolds named.now }
    ensures moved { IfOk result (λ fits. fits ≡ true → HasMoved named.now.name (((B.state on.old).now from).bytes) (((B.state on.old).now to).bytes) (((B.state on.new).now from).bytes) (((B.state on.new).now to).bytes)) }
    ensures full { IfOk result (λ fits. fits ≡ false → LacksRoomFor named.now.name (((B.state on.old).now from).bytes) (((B.state on.old).now to).bytes) × (on.new ≡ on.old)) }
    ensures stays { OnErr result (HasLeaves from to (((B.state on.old).now from).bytes) (((B.state on.old).now to).bytes) (B.state on.new)) }
    ensures settled { IfOk result (λ fits. fits ≡ true → IsSettledBut to (B.state on.new)) }
    ensures from { IsRecordsAt (B.state on.new) from }
    ensures to { IsRecordsAt (B.state on.new) to }
    ensures entries { IsEntriesAt (B.state on.new) entries }
    ensures rewrites { Rewrites (λ b. (b ≡ from) ⊎ (b ≡ to)) no_slot (B.state on.old) (B.state on.new) }
    ensures room { (B.state on.old).room ≤ (B.state on.new).room + 1 }
    ensures cause { IfErr result (Caused ⊥ (B.state on.old).is_block (Rose (B.state on.old).faults (B.state on.new).faults) ⊥) }
    ensures dirties { DirtiesIn (from ∷ to ∷ []) (B.state on.old) (B.state on.new) }
    ensures keeps { B.keeps on.old on.new }
{
    match move_record(on, from, to, entries, named, from_bytes, to_bytes) {
        Ok(fits) => Ok(fits),
        Err(why) => Err(why),
    }
}

/// Moves a record that was found where it has room, after a settling where one of the leaves isn't in place.
fn fitted<B: Blocks>(
    on: &mut B,
    from: u32,
    to: u32,
    entries: u32,
    named: &Record,
    from_bytes: &[u8],
    to_bytes: &mut [u8],
) -> Result<bool, BlockError>
    requires silent { (B.state on.old).tells → ⊥ }
    requires differ { from ≢ to }
    requires from { IsRecordsAt (B.state on.old) from }
    requires to { IsRecordsAt (B.state on.old) to }
    requires entries { IsEntriesAt (B.state on.old) entries }
    requires room { 0 < (B.state on.old).room }
    requires from_bytes { IsLeaf from_bytes.now × (from_bytes.now ≡ ((B.state on.old).now from).bytes) }
    requires to_bytes { IsLeaf to_bytes.old × (to_bytes.old ≡ ((B.state on.old).now to).bytes) }
    requires first { IsFirstOf named.now.name (((B.state on.old).now from).bytes) named.now }
    requires spelled { RecordHolds named.now }
    ensures moved { IfOk result (λ fits. fits ≡ true → HasMoved named.now.name (((B.state on.old).now from).bytes) (((B.state on.old).now to).bytes) (((B.state on.new).now from).bytes) (((B.state on.new).now to).bytes)) }
    ensures full { IfOk result (λ fits. fits ≡ false → LacksRoomFor named.now.name (((B.state on.old).now from).bytes) (((B.state on.old).now to).bytes) × HasLeaves from to (((B.state on.old).now from).bytes) (((B.state on.old).now to).bytes) (B.state on.new)) }
    ensures stays { OnErr result (HasLeaves from to (((B.state on.old).now from).bytes) (((B.state on.old).now to).bytes) (B.state on.new)) }
    ensures settled { IfOk result (λ fits. fits ≡ true → IsSettledBut to (B.state on.new)) }
    ensures from { IsRecordsAt (B.state on.new) from }
    ensures to { IsRecordsAt (B.state on.new) to }
    ensures entries { IsEntriesAt (B.state on.new) entries }
    ensures rewrites { Rewrites (λ b. (b ≡ from) ⊎ (b ≡ to)) no_slot (B.state on.old) (B.state on.new) }
    ensures room { (B.state on.old).room ≤ (B.state on.new).room + 1 }
    ensures cause { IfErr result (Caused ⊥ (B.state on.old).is_block (Rose (B.state on.old).faults (B.state on.new).faults) ⊥) }
    ensures dirties { DirtiesIn (from ∷ to ∷ []) (B.state on.old) (B.state on.new) }
    ensures keeps { B.keeps on.old on.new }
{
    if !has_room(to_bytes, named) {
        return Ok(false);
    }
    match placed(on, from, to, entries) {
        Ok(()) => moved(on, from, to, entries, named, from_bytes, to_bytes),
        Err(why) => Err(why),
    }
}

/// Moves the first record of this name in an owned leaf of records of this rank to the end of another, as it is; or answers that it has no room
/// there. In between all is settled. A leaf is damaged where it has no such record, or is the other one. Where it is refused both leaves have
/// what they had.
pub fn move_between<B: Blocks>(
    alloc: Global,
    on: &mut B,
    from: u32,
    to: u32,
    rank: u32,
    entries: u32,
    name: &[u8],
) -> Result<bool, BlockError>
    requires silent { (B.state on.old).tells → ⊥ }
    requires from { IsRecordsAt (B.state on.old) from }
    requires to { IsRecordsAt (B.state on.old) to }
    requires rank { rank % 32 ≡ 16 }
    requires entries { IsEntriesAt (B.state on.old) entries }
    requires room { 0 < (B.state on.old).room }
    ensures moved { IfOk result (λ fits. fits ≡ true → HasMoved name.now (((B.state on.old).now from).bytes) (((B.state on.old).now to).bytes) (((B.state on.new).now from).bytes) (((B.state on.new).now to).bytes)) }
    ensures full { IfOk result (λ fits. fits ≡ false → LacksRoomFor name.now (((B.state on.old).now from).bytes) (((B.state on.old).now to).bytes) × HasLeaves from to (((B.state on.old).now from).bytes) (((B.state on.old).now to).bytes) (B.state on.new)) }
    ensures stays { OnErr result (HasLeaves from to (((B.state on.old).now from).bytes) (((B.state on.old).now to).bytes) (B.state on.new)) }
    ensures settled { IfOk result (λ fits. fits ≡ true → IsSettledBut to (B.state on.new)) }
    ensures from { IsRecordsAt (B.state on.new) from }
    ensures to { IsRecordsAt (B.state on.new) to }
    ensures entries { IsEntriesAt (B.state on.new) entries }
    ensures rewrites { Rewrites (λ b. (b ≡ from) ⊎ (b ≡ to)) no_slot (B.state on.old) (B.state on.new) }
    ensures room { (B.state on.old).room ≤ (B.state on.new).room + 1 }
    ensures cause { IfErr result (Caused ⊥ (B.state on.old).is_block (Rose (B.state on.old).faults (B.state on.new).faults) ⊥) }
    ensures dirties { DirtiesIn (from ∷ to ∷ []) (B.state on.old) (B.state on.new) }
    ensures keeps { B.keeps on.old on.new }
{
    if from == to {
        return Err(BlockError::Damaged(to));
    }
    let mut from_bytes = [0; BLOCK];
    let mut to_bytes = [0; BLOCK];
    match both_read(on, from, to, rank, &mut from_bytes, &mut to_bytes) {
        Ok(()) => {}
        Err(why) => return Err(why),
    }
    match first_named(alloc, &from_bytes, from, name) {
        Ok(named) => fitted(on, from, to, entries, &named, &from_bytes, &mut to_bytes),
        Err(why) => Err(why),
    }
}
