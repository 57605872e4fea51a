//! A file as its directory has it, and its sources.
ghost use Rattle.std.specs.Prelude.{◌≡◌, ◌+◌, ◌-◌, ◌^◌, ◌<◌, ◌≤◌, ℕ, true, false, length, IfOk, IfErr, IfSome, MatchOption};
ghost use Rattle.fo_base.specs.Cause.{Rose};
ghost use Rattle.fo_image.specs.declared.types.Kind.TheVariants.{Dir};
ghost use Rattle.fo_image.specs.declared.types.Pointer.TheVariants.{Local};
ghost use Rattle.fo_image.specs.Format.{EntryHolds};
ghost use Rattle.fo_image.specs.Record.{RecordHolds};
ghost use Rattle.fo_ports.specs.of_crash.Images.{target};
ghost use Rattle.fo_ports.specs.Blocks.{ReadsSlots};
ghost use Rattle.fo_ports.specs.declared.error.BlockError.TheVariants.{Damaged};
ghost use Rattle.fo_ports.specs.Causes.{Caused};
ghost use Rattle.fo_ports.specs.State.{Looks};
ghost use Rattle.fo_tree.specs.of_tree_look.Source.{Over};
ghost use Rattle.fo_dir_read.specs.Pairs.{LeadsWithin};
ghost use Rattle.fo_files_at.specs.Held.{FileHolds, IsSource, tag_for};

use fo_base::BLOCK;
use fo_dir_read::entry_from;
use fo_image::{Entry, Kind, Record};
use fo_ports::{BlockError, Blocks, Bytes};
use fo_tree::{Source, open_read};
use std::alloc::Global;

/// The rank of the place of a root block, and that of the leaf of entries for which it stands.
pub const ROOT_PLACE: u32 = 2144;

pub const ROOT_RANK: u32 = 2120;

/// How many ranks below a leaf of entries the leaves of entries, of records and of data are that its entries name.
pub const ENTRIES_BELOW: u32 = 32;

pub const RECORDS_BELOW: u32 = 24;

pub const DATA_BELOW: u32 = 8;

/// How long the entries of a directory may get, its records, and the data of a file.
pub const ENTRIES_LIMIT: u64 = 1 << 38;

pub const RECORDS_LIMIT: u64 = 1 << 40;

pub const DATA_LIMIT: u64 = 1 << 40;

/// How many pairs a leaf of entries has.
pub const PAIRS: u32 = 102;

/// A file as its directory has it: its record, whether it is a directory, the two entries of its pair, and the leaf of entries in which they
/// stand, or root block, with its rank.
#[derive(Debug, Drop)]
pub struct File {
    pub named: Record,
    pub dir: bool,
    pub first: Entry,
    pub second: Entry,
    pub leaf: u32,
    pub rank: u32,
}

/// The two entries of a pair, and the leaf in which they stand.
#[derive(Debug, Drop)]
struct Pair {
    first: Entry,
    second: Entry,
    leaf: u32,
}

/// The tag of a file's data or entries, or of a directory's records; None where the number is none.
pub fn tag_of(number: u32, is_records: bool) -> Option<u32>
    ensures { MatchOption result (2 ^ 30 ≤ number) (λ t. (t ≡ tag_for number is_records) × (number < 2 ^ 30)) }
{
    if number >= 1 << 30 {
        return None;
    }
    if is_records {
        Some(33 + 2 * number)
    } else {
        Some(32 + 2 * number)
    }
}

/// The source of an entry of a file that was read; the leaf that has the entry is damaged where it is another.
fn source_of<B: Blocks>(
    alloc: Global,
    on: &B,
    file: &File,
    entry: &Entry,
    is_records: bool,
    rank: u32,
    limit: u64,
) -> Result<Source, BlockError>
    requires entry { EntryHolds entry.now × LeadsWithin (B.state on.now) entry.now }
    requires low { (rank < 2 ^ 31) × (limit ≤ 2 ^ 47) }
    requires silent { (B.state on.now).tells → ⊥ }
    ensures is { IfOk result (λ s. IsSource entry.now (tag_for file.now.named.number is_records) rank limit s × (file.now.named.number < 2 ^ 30)) }
    ensures over { IfOk result (λ s. Over (B.state on.now) s.ways.tree s.ways.kept.items s.ways.limit) }
    ensures damaged { IfErr result (λ e. e ≡ Damaged file.now.leaf) }
{
    let Some(tag) = tag_of(file.named.number, is_records) else {
        return Err(BlockError::Damaged(file.leaf));
    };
    match open_read(alloc, on, entry, tag, rank, limit) {
        Some(ways) => Ok(Source { ways }),
        None => Err(BlockError::Damaged(file.leaf)),
    }
}

/// The entries of a directory.
pub fn entries_of<B: Blocks>(alloc: Global, on: &B, dir: &File) -> Result<Source, BlockError>
    requires holds { FileHolds (B.state on.now) dir.now }
    requires high { 40 ≤ dir.now.rank }
    requires silent { (B.state on.now).tells → ⊥ }
    ensures is { IfOk result (λ s. IsSource dir.now.first (tag_for dir.now.named.number false) (dir.now.rank - 32) (2 ^ 38) s × (dir.now.first.dir ≡ true) × (dir.now.named.number < 2 ^ 30)) }
    ensures over { IfOk result (λ s. Over (B.state on.now) s.ways.tree s.ways.kept.items s.ways.limit) }
    ensures damaged { IfErr result (λ e. e ≡ Damaged dir.now.leaf) }
{
    if !dir.first.dir {
        return Err(BlockError::Damaged(dir.leaf));
    }
    let rank = dir.rank - ENTRIES_BELOW;
    source_of(alloc, on, dir, &dir.first, false, rank, ENTRIES_LIMIT)
}

/// The records of a directory.
pub fn records_of<B: Blocks>(alloc: Global, on: &B, dir: &File) -> Result<Source, BlockError>
    requires holds { FileHolds (B.state on.now) dir.now }
    requires high { 40 ≤ dir.now.rank }
    requires silent { (B.state on.now).tells → ⊥ }
    ensures is { IfOk result (λ s. IsSource dir.now.second (tag_for dir.now.named.number true) (dir.now.rank - 24) (2 ^ 40) s × (dir.now.second.dir ≡ false) × (dir.now.named.number < 2 ^ 30)) }
    ensures over { IfOk result (λ s. Over (B.state on.now) s.ways.tree s.ways.kept.items s.ways.limit) }
    ensures damaged { IfErr result (λ e. e ≡ Damaged dir.now.leaf) }
{
    if dir.second.dir {
        return Err(BlockError::Damaged(dir.leaf));
    }
    let rank = dir.rank - RECORDS_BELOW;
    source_of(alloc, on, dir, &dir.second, true, rank, RECORDS_LIMIT)
}

/// The bytes of a file that is no directory.
pub fn data_of<B: Blocks>(alloc: Global, on: &B, file: &File) -> Result<Source, BlockError>
    requires holds { FileHolds (B.state on.now) file.now }
    requires silent { (B.state on.now).tells → ⊥ }
    ensures is { IfOk result (λ s. IsSource file.now.first (tag_for file.now.named.number false) (file.now.rank - 8) (2 ^ 40) s × (file.now.first.dir ≡ false) × (file.now.named.number < 2 ^ 30)) }
    ensures over { IfOk result (λ s. Over (B.state on.now) s.ways.tree s.ways.kept.items s.ways.limit) }
    ensures damaged { IfErr result (λ e. e ≡ Damaged file.now.leaf) }
{
    if file.first.dir {
        return Err(BlockError::Damaged(file.leaf));
    }
    let rank = file.rank - DATA_BELOW;
    source_of(alloc, on, file, &file.first, false, rank, DATA_LIMIT)
}

/// Pair `k` of a source of entries; None where no leaf stands there.
fn pair_at<B: Blocks>(
    entries: &mut Source,
    on: &mut B,
    rank: u32,
    k: u32,
) -> Result<Option<Pair>, BlockError>
    requires over { Over (B.state on.old) entries.old.ways.tree entries.old.ways.kept.items entries.old.ways.limit }
    requires form { (entries.old.ways.tree.dir ≡ true) × (entries.old.ways.tree.rank ≡ rank) }
    requires silent { (B.state on.old).tells → ⊥ }
    ensures first { IfOk result (λ found. IfSome found (λ p. EntryHolds p.first × LeadsWithin (B.state on.new) p.first)) }
    ensures second { IfOk result (λ found. IfSome found (λ p. EntryHolds p.second × LeadsWithin (B.state on.new) p.second)) }
    ensures stands { IfOk result (λ found. IfSome found (λ p. (B.state on.new).is_block p.leaf)) }
    ensures looks { Looks (B.state on.old) (B.state on.new) × B.keeps on.old on.new }
    ensures cause { IfErr result (Caused ⊥ (λ b. (B.state on.old).is_block b) (Rose (B.state on.old).faults (B.state on.new).faults) ⊥) }
{
    let leaf = match entries.leaf(on, k / PAIRS) {
        Ok(Some(leaf)) => leaf,
        Ok(None) => return Ok(None),
        Err(why) => return Err(why),
    };
    match pair_in(on, leaf, rank, 2 * (k % PAIRS)) {
        Ok(pair) => Ok(Some(pair)),
        Err(why) => Err(why),
    }
}

/// The pair whose first entry is entry `j` of a leaf of entries that was read.
fn pair_from<B: Blocks>(on: &B, block: &[u8], leaf: u32, j: u32) -> Pair
    requires length { length block.now ≡ 8192 }
    requires within { j < 203 }
    requires reads { ReadsSlots (Dir 0) ((B.state on.now).now leaf) block.now }
    requires names { (i below : ℕ) → i < 204 → target (((B.state on.now).now leaf).slot i) ≡ Local below → (B.state on.now).is_block below }
    ensures first { EntryHolds result.first × LeadsWithin (B.state on.now) result.first }
    ensures second { EntryHolds result.second × LeadsWithin (B.state on.now) result.second }
    ensures stands { result.leaf ≡ leaf }
{
    let _ = on;
    Pair {
        first: entry_from(block, 40 * j as usize),
        second: entry_from(block, 40 * (j + 1) as usize),
        leaf,
    }
}

/// The pair whose first entry is entry `j` of a leaf of entries, which is copied.
fn copied_pair<B: Blocks>(on: &mut B, leaf: u32, rank: u32, j: u32) -> Result<Pair, BlockError>
    requires block { (B.state on.old).is_block leaf }
    requires within { j < 203 }
    requires silent { (B.state on.old).tells → ⊥ }
    ensures first { IfOk result (λ p. EntryHolds p.first × LeadsWithin (B.state on.new) p.first) }
    ensures second { IfOk result (λ p. EntryHolds p.second × LeadsWithin (B.state on.new) p.second) }
    ensures stands { IfOk result (λ p. p.leaf ≡ leaf) }
    ensures looks { Looks (B.state on.old) (B.state on.new) × B.keeps on.old on.new }
    ensures cause { IfErr result (Caused ⊥ (λ b. (B.state on.old).is_block b) (Rose (B.state on.old).faults (B.state on.new).faults) ⊥) }
{
    let mut block = [0; BLOCK];
    match on.get(leaf, Kind::Dir(0), rank, &mut block) {
        Ok(()) => Ok(pair_from(on, &block, leaf, j)),
        Err(why) => Err(why),
    }
}

/// The pair whose first entry is entry `j` of a leaf of entries.
fn pair_in<B: Blocks>(on: &mut B, leaf: u32, rank: u32, j: u32) -> Result<Pair, BlockError>
    requires block { (B.state on.old).is_block leaf }
    requires within { j < 203 }
    requires silent { (B.state on.old).tells → ⊥ }
    ensures first { IfOk result (λ p. EntryHolds p.first × LeadsWithin (B.state on.new) p.first) }
    ensures second { IfOk result (λ p. EntryHolds p.second × LeadsWithin (B.state on.new) p.second) }
    ensures stands { IfOk result (λ p. p.leaf ≡ leaf) }
    ensures looks { Looks (B.state on.old) (B.state on.new) × B.keeps on.old on.new }
    ensures cause { IfErr result (Caused ⊥ (λ b. (B.state on.old).is_block b) (Rose (B.state on.old).faults (B.state on.new).faults) ⊥) }
{
    match on.pin(leaf, Kind::Dir(0), rank) {
        Ok(()) => {}
        Err(why) => return Err(why),
    }
    match on.lend(leaf, Kind::Dir(0), rank) {
        Some(block) => Ok(pair_from(on, block, leaf, j)),
        None => copied_pair(on, leaf, rank, j),
    }
}

/// The file of a record of a directory. Where no leaf of entries stands for it, the leaf with the directory's own entries is damaged.
pub fn below<B: Blocks>(
    alloc: Global,
    on: &mut B,
    dir: &File,
    named: Record,
) -> Result<File, BlockError>
    requires holds { FileHolds (B.state on.old) dir.now }
    requires high { 40 ≤ dir.now.rank }
    requires record { RecordHolds named }
    requires silent { (B.state on.old).tells → ⊥ }
    ensures holds { IfOk result (FileHolds (B.state on.new)) }
    ensures is { IfOk result (λ f. (f.named ≡ named) × (f.rank + 32 ≡ dir.now.rank)) }
    ensures looks { Looks (B.state on.old) (B.state on.new) × B.keeps on.old on.new }
    ensures cause { IfErr result (Caused ⊥ (λ b. (B.state on.old).is_block b) (Rose (B.state on.old).faults (B.state on.new).faults) ⊥) }
{
    let mut entries = match entries_of(alloc, on, dir) {
        Ok(entries) => entries,
        Err(why) => return Err(why),
    };
    let rank = dir.rank - ENTRIES_BELOW;
    let pair = match pair_at(&mut entries, on, rank, named.slot) {
        Ok(Some(pair)) => pair,
        Ok(None) => return Err(BlockError::Damaged(dir.leaf)),
        Err(why) => return Err(why),
    };
    let is_dir = named.mode >= 1 << 31;
    Ok(File {
        named,
        dir: is_dir,
        first: pair.first,
        second: pair.second,
        leaf: pair.leaf,
        rank,
    })
}
