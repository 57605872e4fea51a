//! A record goes with the entries of its pair.
ghost use Rattle.std.specs.Prelude.{◌≡◌, ◌⊎◌, ◌↔◌, ◌+◌, ◌*◌, ◌%◌, ◌<◌, ◌≤◌, ℕ, true, false, length, IfOk, IfErr, OnOk, OnErr, [], ◌∷◌};
ghost use Rattle.fo_base.specs.Cause.{Rose};
ghost use Rattle.fo_image.specs.declared.record.Record.{Record};
ghost use Rattle.fo_image.specs.declared.types.Pointer.TheVariants.{Local};
ghost use Rattle.fo_crash.specs.Images.{target};
ghost use Rattle.fo_crash.specs.Names.{IsInUse};
ghost use Rattle.fo_meta.specs.Leaf.{IsLeaf};
ghost use Rattle.fo_dir_remove.specs.of_world.Step.{is_dir_mode};
ghost use Rattle.fo_ports.specs.declared.error.BlockError.TheVariants.{Damaged, Memory};
ghost use Rattle.fo_ports.specs.Causes.{Caused};
ghost use Rattle.fo_ports.specs.State.{Looks, QueuesOne};
ghost use Rattle.fo_dir_remove.specs.of_dir_change.Changes.{Bears, HasTaken};
ghost use Rattle.fo_dir_remove.specs.Removes.{IsGoing};
ghost use Rattle.fo_files_record.specs.Leaf.{IsRecordsAt, IsEntriesAt};
ghost use Rattle.fo_files_record.specs.Stays.{Rewrites, IsPairSlot, IsClean, no_slot};
ghost use Rattle.fo_files_record.specs.Takes.{IsOfPair, TakesOut};
ghost use Rattle.fo_ports.specs.Sources.{DirtiesIn};

use crate::leaf::read;
use fo_base::BLOCK;
use fo_crash::Slot;
use fo_dir_remove::{clear_second, remove_record};
use fo_image::Record;
use fo_meta::find;
use fo_ports::{BlockError, Blocks};
use std::alloc::Global;

/// How many pairs a leaf of entries has.
const PAIRS: u32 = 102;

/// The bit of a mode that says that a file is a directory.
const DIR_BIT: u32 = 1 << 31;

/// Whether a record has this pair, and is a directory's or not, as is said.
fn is_of_pair(named: &Record, pair: u32, is_dir: bool) -> bool
    ensures { result ≡ true → (named.now.slot ≡ pair) × (is_dir_mode named.now.mode ≡ is_dir) }
{
    named.slot == pair && (DIR_BIT <= named.mode) == is_dir
}

/// The generation of the first record of this name in the bytes of a leaf. The leaf is damaged where it has none, or that is of another pair, or
/// of another kind of file.
fn generation_of(
    alloc: Global,
    bytes: &[u8],
    leaf: u32,
    name: &[u8],
    pair: u32,
    is_dir: bool,
) -> Result<u32, BlockError>
    requires { IsLeaf bytes.now }
    ensures is { IfOk result (λ g. (r : Record) × IsOfPair name.now bytes.now pair is_dir r × (r.generation ≡ g)) }
    ensures cause { IfErr result (λ e. (e ≡ Memory) ⊎ (e ≡ Damaged leaf)) }
{
    match find(alloc, bytes, name) {
        Ok(Some(named)) => {
            if is_of_pair(&named, pair, is_dir) {
                Ok(named.generation)
            } else {
                Err(BlockError::Damaged(leaf))
            }
        }
        Ok(None) => Err(BlockError::Damaged(leaf)),
        Err(_) => Err(BlockError::Memory),
    }
}

/// Whether an entry is in use with this generation.
fn is_used<B: Blocks>(on: &B, entries: u32, j: u32, generation: u32) -> bool
    requires entries { IsEntriesAt (B.state on.now) entries }
    requires within { j < 204 }
    ensures { result ≡ true → IsInUse (((B.state on.now).now entries).slot j) generation }
{
    match on.slot(entries, j) {
        Slot::Entry(entry) => entry.active && entry.generation == generation,
        _ => false,
    }
}

/// Whether an entry that is to be cleared waits for it already.
fn goes_already<B: Blocks>(on: &B, entries: u32, p: u32, is_dir: bool) -> bool
    requires within { p < 102 }
    ensures { result ≡ false → ((B.state on.now).clearing entries (2 * p) → ⊥) × (is_dir ≡ true → (B.state on.now).clearing entries (2 * p + 1) → ⊥) }
{
    if on.is_clearing(entries, 2 * p) {
        return true;
    }
    is_dir && on.is_clearing(entries, 2 * p + 1)
}

/// Settles, where one of the leaves isn't in place, or what hangs below an entry may wait.
fn settled_for<B: Blocks>(
    on: &mut B,
    leaf: u32,
    entries: u32,
    is_dir: bool,
) -> Result<(), BlockError>
    requires silent { (B.state on.old).tells → ⊥ }
    requires leaf { IsRecordsAt (B.state on.old) leaf }
    requires entries { IsEntriesAt (B.state on.old) entries }
    ensures leaf { IsRecordsAt (B.state on.new) leaf }
    ensures entries { IsEntriesAt (B.state on.new) entries }
    ensures bytes { ((B.state on.new).now leaf).bytes ≡ ((B.state on.old).now leaf).bytes }
    ensures in_place { OnOk result (((B.state on.new).newborn entries ⊎ (B.state on.new).sealed entries) × ((B.state on.new).newborn leaf ⊎ (B.state on.new).sealed leaf)) }
    ensures clean { OnOk result (is_dir ≡ true → IsClean (B.state on.new)) }
    ensures stays { Rewrites (λ b. ⊥) no_slot (B.state on.old) (B.state on.new) }
    ensures room { (B.state on.new).room ≡ (B.state on.old).room }
    ensures cause { IfErr result (Caused ⊥ (B.state on.old).is_block (Rose (B.state on.old).faults (B.state on.new).faults) ⊥) }
    ensures dirties { DirtiesIn [] (B.state on.old) (B.state on.new) }
    ensures keeps { B.keeps on.old on.new }
{
    if !is_dir && on.sealed(entries) && on.sealed(leaf) {
        return Ok(());
    }
    match on.settle() {
        Ok(()) => Ok(()),
        Err(why) => Err(why),
    }
}

/// Takes a record that is there out of its leaf, and clears the first entry of its pair.
fn record_taken<B: Blocks>(
    on: &mut B,
    leaf: u32,
    entries: u32,
    p: u32,
    name: &[u8],
    is_dir: bool,
    bytes: &mut [u8],
)
    requires silent { (B.state on.old).tells → ⊥ }
    requires leaf { IsRecordsAt (B.state on.old) leaf }
    requires entries { IsEntriesAt (B.state on.old) entries }
    requires within { p < 102 }
    requires settled { (B.state on.old).clearing entries (2 * p) → ⊥ }
    requires room { 0 < (B.state on.old).room }
    requires bytes { IsLeaf bytes.old × (bytes.old ≡ ((B.state on.old).now leaf).bytes) }
    requires bears { Bears name.now (((B.state on.old).now leaf).bytes) }
    ensures taken { HasTaken name.now (((B.state on.old).now leaf).bytes) (((B.state on.new).now leaf).bytes) }
    ensures first { IsGoing (B.state on.old) (B.state on.new) entries (2 * p) }
    ensures second { (((B.state on.new).now entries).slot (2 * p + 1) ≡ ((B.state on.old).now entries).slot (2 * p + 1)) × ((B.state on.new).clearing entries (2 * p + 1) → (B.state on.old).clearing entries (2 * p + 1)) }
    ensures later { (B.state on.new).dirty leaf → ((B.state on.old).newborn leaf → ⊥) → (B.state on.new).clearing entries (2 * p) }
    ensures queues { ((c : ℕ) → target (((B.state on.old).now entries).slot (2 * p)) ≡ Local c → (B.state on.new).clearing entries (2 * p) ⊎ QueuesOne (B.state on.old) (B.state on.new)) }
    ensures leaf { IsRecordsAt (B.state on.new) leaf }
    ensures entries { IsEntriesAt (B.state on.new) entries }
    ensures stays { Rewrites (λ b. b ≡ leaf) (IsPairSlot entries p is_dir) (B.state on.old) (B.state on.new) }
    ensures room { (B.state on.new).room + 1 ≡ (B.state on.old).room }
    ensures dirties { DirtiesIn (leaf ∷ entries ∷ []) (B.state on.old) (B.state on.new) }
    ensures keeps { B.keeps on.old on.new }
{
    let _ = is_dir;
    let _ = remove_record(on, leaf, entries, p, name, bytes);
}

/// Clears the second entry of a directory's pair after the first.
fn second_cleared<B: Blocks>(on: &mut B, leaf: u32, entries: u32, p: u32)
    requires silent { (B.state on.old).tells → ⊥ }
    requires leaf { IsRecordsAt (B.state on.old) leaf }
    requires entries { IsEntriesAt (B.state on.old) entries }
    requires within { p < 102 }
    requires settled { (B.state on.old).clearing entries (2 * p + 1) → ⊥ }
    requires room { 0 < (B.state on.old).room }
    ensures bytes { ((B.state on.new).now leaf).bytes ≡ ((B.state on.old).now leaf).bytes }
    ensures first { (((B.state on.new).now entries).slot (2 * p) ≡ ((B.state on.old).now entries).slot (2 * p)) × ((B.state on.new).clearing entries (2 * p) ↔ (B.state on.old).clearing entries (2 * p)) }
    ensures second { IsGoing (B.state on.old) (B.state on.new) entries (2 * p + 1) }
    ensures dirty { (B.state on.new).dirty leaf → (B.state on.old).dirty leaf }
    ensures queued { (B.state on.old).queued ≤ (B.state on.new).queued }
    ensures leaf { IsRecordsAt (B.state on.new) leaf }
    ensures entries { IsEntriesAt (B.state on.new) entries }
    ensures stays { Rewrites (λ b. b ≡ leaf) (IsPairSlot entries p true) (B.state on.old) (B.state on.new) }
    ensures room { (B.state on.new).room + 1 ≡ (B.state on.old).room }
    ensures dirties { DirtiesIn (entries ∷ []) (B.state on.old) (B.state on.new) }
    ensures keeps { B.keeps on.old on.new }
{
    clear_second(on, leaf, entries, p);
}

/// Copies the bytes of an owned leaf whose first record of this name has this pair, and is a directory's or not, as is said. The leaf is damaged
/// where it hasn't, that of the entries where the pair's first entry isn't the record's, or an entry waits to be cleared.
fn looked<B: Blocks>(
    alloc: Global,
    on: &mut B,
    leaf: u32,
    rank: u32,
    entries: u32,
    pair: u32,
    name: &[u8],
    is_dir: bool,
    into: &mut [u8],
) -> Result<(), BlockError>
    requires silent { (B.state on.old).tells → ⊥ }
    requires leaf { IsRecordsAt (B.state on.old) leaf }
    requires rank { rank % 32 ≡ 16 }
    requires entries { IsEntriesAt (B.state on.old) entries }
    requires length { length into.old ≡ 8192 }
    ensures leaf { IsRecordsAt (B.state on.new) leaf }
    ensures bytes { OnOk result (IsLeaf into.new × (into.new ≡ ((B.state on.new).now leaf).bytes)) }
    ensures same { ((B.state on.new).now leaf).bytes ≡ ((B.state on.old).now leaf).bytes }
    ensures one { OnOk result ((r : Record) × IsOfPair name.now (((B.state on.old).now leaf).bytes) pair is_dir r × IsInUse (((B.state on.old).now entries).slot (2 * (pair % 102))) r.generation) }
    ensures settled { OnOk result (((B.state on.new).clearing entries (2 * (pair % 102)) → ⊥) × (is_dir ≡ true → (B.state on.new).clearing entries (2 * (pair % 102) + 1) → ⊥)) }
    ensures pins { (B.state on.new).pins_left ≡ (B.state on.old).pins_left }
    ensures looks { Looks (B.state on.old) (B.state on.new) }
    ensures cause { IfErr result (Caused ⊥ (B.state on.old).is_block (Rose (B.state on.old).faults (B.state on.new).faults) ⊥) }
    ensures keeps { B.keeps on.old on.new }
{
    match read(on, leaf, rank, into) {
        Ok(()) => {}
        Err(why) => return Err(why),
    }
    let generation = match generation_of(alloc, into, leaf, name, pair, is_dir) {
        Ok(generation) => generation,
        Err(why) => return Err(why),
    };
    let p = pair % PAIRS;
    if goes_already(on, entries, p, is_dir) || !is_used(on, entries, 2 * p, generation) {
        return Err(BlockError::Damaged(entries));
    }
    Ok(())
}

/// Takes the first record of this name, which has to be of this pair, and a directory's or not, as is said, out of an owned leaf of records of
/// this rank, and clears its first entry in the leaf of entries that has the pair, of a directory the second too, once the leaf of records is
/// settled so. A leaf is damaged where it has no such record, its entry is another's, or an entry waits to be cleared already. Where it is
/// refused all was only looked at, and settled, where it had to be.
pub fn take_out<B: Blocks>(
    alloc: Global,
    on: &mut B,
    leaf: u32,
    rank: u32,
    entries: u32,
    pair: u32,
    name: &[u8],
    is_dir: bool,
) -> Result<(), BlockError>
    requires silent { (B.state on.old).tells → ⊥ }
    requires leaf { IsRecordsAt (B.state on.old) leaf }
    requires rank { rank % 32 ≡ 16 }
    requires entries { IsEntriesAt (B.state on.old) entries }
    requires room { 2 ≤ (B.state on.old).room }
    ensures takes { OnOk result ((m : B) × TakesOut (B.state on.old) (B.state m) (B.state on.new) leaf entries pair name.now is_dir) }
    ensures nothing { OnErr result (Rewrites (λ b. ⊥) no_slot (B.state on.old) (B.state on.new)) }
    ensures leaf { IsRecordsAt (B.state on.new) leaf }
    ensures entries { IsEntriesAt (B.state on.new) entries }
    ensures stays { Rewrites (λ b. b ≡ leaf) (IsPairSlot entries (pair % 102) is_dir) (B.state on.old) (B.state on.new) }
    ensures room { (B.state on.old).room ≤ (B.state on.new).room + 2 }
    ensures cause { IfErr result (Caused ⊥ (B.state on.old).is_block (Rose (B.state on.old).faults (B.state on.new).faults) ⊥) }
    ensures dirties { DirtiesIn (leaf ∷ entries ∷ []) (B.state on.old) (B.state on.new) }
    ensures keeps { B.keeps on.old on.new }
{
    let mut bytes = [0; BLOCK];
    match looked(
        alloc, on, leaf, rank, entries, pair, name, is_dir, &mut bytes,
    ) {
        Ok(()) => {}
        Err(why) => return Err(why),
    }
    match settled_for(on, leaf, entries, is_dir) {
        Ok(()) => {
            both_taken(on, leaf, entries, pair % PAIRS, name, is_dir, &mut bytes);
            Ok(())
        }
        Err(why) => Err(why),
    }
}

/// Takes a record that is there out of its leaf, and clears the entries of its pair.
fn both_taken<B: Blocks>(
    on: &mut B,
    leaf: u32,
    entries: u32,
    p: u32,
    name: &[u8],
    is_dir: bool,
    bytes: &mut [u8],
)
    requires silent { (B.state on.old).tells → ⊥ }
    requires leaf { IsRecordsAt (B.state on.old) leaf }
    requires entries { IsEntriesAt (B.state on.old) entries }
    requires within { p < 102 }
    requires settled { ((B.state on.old).clearing entries (2 * p) → ⊥) × (is_dir ≡ true → (B.state on.old).clearing entries (2 * p + 1) → ⊥) }
    requires room { 2 ≤ (B.state on.old).room }
    requires bytes { IsLeaf bytes.old × (bytes.old ≡ ((B.state on.old).now leaf).bytes) }
    requires bears { Bears name.now (((B.state on.old).now leaf).bytes) }
    ensures taken { HasTaken name.now (((B.state on.old).now leaf).bytes) (((B.state on.new).now leaf).bytes) }
    ensures first { IsGoing (B.state on.old) (B.state on.new) entries (2 * p) }
    ensures second { is_dir ≡ true → IsGoing (B.state on.old) (B.state on.new) entries (2 * p + 1) }
    ensures later { (B.state on.new).dirty leaf → ((B.state on.old).newborn leaf → ⊥) → (B.state on.new).clearing entries (2 * p) }
    ensures queues { ((c : ℕ) → target (((B.state on.old).now entries).slot (2 * p)) ≡ Local c → (B.state on.new).clearing entries (2 * p) ⊎ QueuesOne (B.state on.old) (B.state on.new)) }
    ensures leaf { IsRecordsAt (B.state on.new) leaf }
    ensures entries { IsEntriesAt (B.state on.new) entries }
    ensures stays { Rewrites (λ b. b ≡ leaf) (IsPairSlot entries p is_dir) (B.state on.old) (B.state on.new) }
    ensures room { (B.state on.old).room ≤ (B.state on.new).room + 2 }
    ensures dirties { DirtiesIn (leaf ∷ entries ∷ []) (B.state on.old) (B.state on.new) }
    ensures keeps { B.keeps on.old on.new }
{
    record_taken(on, leaf, entries, p, name, is_dir, bytes);
    if is_dir {
        second_cleared(on, leaf, entries, p);
    }
}
