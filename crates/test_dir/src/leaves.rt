//! Leaves that have records, over any blocks and any source.
ghost use Rattle.std.specs.Prelude.{◌≡◌, ◌+◌, ◌<◌, ◌≤◌, length, max, true};
ghost use Rattle.fo_meta.specs.Leaf.{IsLeaf};
ghost use Rattle.fo_ports.specs.Sources.{IsEnough, most_for};
ghost use Rattle.fo_dir_read.specs.Names.{OfRecords};
ghost use Rattle.fo_dir_read.specs.Pairs.{OfEntries};

use fo_base::BLOCK;
use fo_dir_put::change_leaf;
use fo_dir_read::free_pair;
use fo_dir_ready::{ready_entries, ready_records};
use fo_image::Kind;
use fo_ports::{BlockError, Blocks, Bytes};
use fo_slots::is_formed;

/// A block of zeros.
pub fn zeros() -> [u8; BLOCK]
    ensures { length result ≡ 8192 }
{
    [0; BLOCK]
}

/// Puts bytes into a block.
pub fn put(block: &mut [u8], at: usize, bytes: &[u8])
    requires { at + length bytes.now ≤ length block.old }
    ensures { length block.new ≡ length block.old }
{
    block[at..at + bytes.len()].copy_from_slice(bytes);
}

/// Whether the bytes are a leaf of records.
pub fn is_leaf(bytes: &[u8]) -> bool
    requires { length bytes.now ≡ 8192 }
    ensures { result ≡ true → IsLeaf bytes.now }
{
    is_formed(Kind::Data(0), 16, bytes)
}

/// Makes the first leaf ready, and gives it these bytes.
pub fn fill<B: Blocks, S: Bytes<B>>(
    records: &mut S,
    on: &mut B,
    rank: u32,
    bytes: &[u8],
) -> Result<(), BlockError>
    requires over { S.is_over records.old on.old }
    requires form { OfRecords (S.form records.old) rank }
    requires limit { 8192 ≤ (S.form records.old).limit }
    requires pins { most_for (max (S.size records.old) 8192) 8192 ≤ (B.state on.old).pins_left }
    requires spare { IsEnough (S.leaves records.old on.old).current (S.size records.old) 0 (B.state on.old).spare }
    requires trimmed { S.size records.old < 8192 → S.is_trimmed records.old on.old }
    requires bytes { IsLeaf bytes.now }
    ensures over { S.is_over records.new on.new }
    ensures form { S.form records.new ≡ S.form records.old }
{
    match ready_records(records, on, rank, 0) {
        Ok(leaf) => {
            change_leaf(on, leaf.at, bytes);
            Ok(())
        }
        Err(why) => Err(why),
    }
}

/// Makes the first leaf of entries ready: whether its first pair is free, and it is in place, as every block in memory is.
pub fn is_ready<B: Blocks, S: Bytes<B>>(
    entries: &mut S,
    on: &mut B,
    rank: u32,
) -> Result<bool, BlockError>
    requires over { S.is_over entries.old on.old }
    requires form { OfEntries (S.form entries.old) rank }
    requires limit { 8192 ≤ (S.form entries.old).limit }
    requires pins { most_for (max (S.size entries.old) 8192) 8192 ≤ (B.state on.old).pins_left }
    requires spare { IsEnough (S.leaves entries.old on.old).current (S.size entries.old) 0 (B.state on.old).spare }
    requires trimmed { S.size entries.old < 8192 → S.is_trimmed entries.old on.old }
{
    match ready_entries(entries, on, rank, 0) {
        Ok(leaf) => match free_pair(entries, on, rank) {
            Ok(k) => Ok(k == 0 && leaf.sealed),
            Err(why) => Err(why),
        },
        Err(why) => Err(why),
    }
}
