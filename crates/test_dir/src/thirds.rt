//! A directory of 26 names, put in another order than that of their letters, of which every third is taken out; over any blocks and any
//! source.
ghost use Rattle.std.specs.Prelude.{◌≡◌, ◌+◌, ◌*◌, ◌<◌, ◌≤◌, ℕ, length, max, true, IfOk, Some};
ghost use Rattle.fo_image.specs.Record.{RecordHolds};
ghost use Rattle.fo_meta.specs.Leaf.{IsLeaf};
ghost use Rattle.fo_ports.specs.Sources.{IsEnough, most_for};
ghost use Rattle.fo_dir_read.specs.Names.{OfRecords, leaf_count};
ghost use Rattle.fo_dir_put.specs.Puts.{IsOwnedRecords};

use crate::reads::comes;
use fo_base::BLOCK;
use fo_dir_change::take_record;
use fo_dir_list::count;
use fo_dir_put::change_leaf;
use fo_dir_read::lookup;
use fo_dir_ready::ready_records;
use fo_image::{Record, RecordError, read_record};
use fo_meta::{empty_leaf, insert};
use fo_ports::{BlockError, Blocks, Bytes};
use std::alloc::Global;

/// A record with the name `a`, of which the letter is changed.
const LETTER: [u8; 44] = [
    0, 44, 0, 0, 0, 7, 0, 0, 0, 7, 0, 0, 0, 1, 0, 0, 0, 0, 0, 0, 1, 164, 0, 0, 0, 5, 0, 0, 0, 6, 1,
    97, 3, 97, 100, 109, 3, 97, 100, 109, 3, 97, 100, 109,
];

/// The record with this name.
fn letter_record(alloc: Global, letter: u8) -> Result<Record, RecordError>
    ensures { IfOk result RecordHolds }
{
    let mut bytes = LETTER;
    bytes[31] = letter;
    read_record(alloc, &bytes)
}

/// Adds the record of a letter at the end of a leaf. Whether it is one, and has room.
fn put_letter(alloc: Global, leaf: &mut [u8], letter: u8) -> bool
    requires { IsLeaf leaf.old }
    ensures { IsLeaf leaf.new }
{
    match letter_record(alloc, letter) {
        Ok(record) => insert(leaf, &record).is_ok(),
        Err(_) => false,
    }
}

/// Adds all 26, `d` first, and each seven letters after the one before.
fn put_letters(alloc: Global, leaf: &mut [u8]) -> bool
    requires { IsLeaf leaf.old }
    ensures { IsLeaf leaf.new }
{
    for k in 0..26 {
        if !put_letter(alloc, leaf, 97 + (7 * k + 3) % 26) {
            return false;
        }
    }
    true
}

/// Makes the first leaf ready, and gives it these bytes. Its address.
fn fill_at<B: Blocks, S: Bytes<B>>(
    records: &mut S,
    on: &mut B,
    rank: u32,
    bytes: &[u8],
) -> Result<u32, BlockError>
    requires over { S.is_over records.old on.old }
    requires form { OfRecords (S.form records.old) rank }
    requires limit { 8192 ≤ (S.form records.old).limit }
    requires pins { most_for (max (S.size records.old) 8192) 8192 ≤ (B.state on.old).pins_left }
    requires spare { IsEnough (S.leaves records.old on.old).current (S.size records.old) 0 (B.state on.old).spare }
    requires trimmed { S.size records.old < 8192 → S.is_trimmed records.old on.old }
    requires bytes { IsLeaf bytes.now }
    ensures over { IfOk result (λ at. S.is_over records.new on.new) }
    ensures form { S.form records.new ≡ S.form records.old }
    ensures size { IfOk result (λ at. 8192 ≤ S.size records.new) }
    ensures leaf { IfOk result (λ at. (B.state on.new).tells → (S.leaves records.new on.new).at 0 ≡ Some at) }
    ensures owned { IfOk result (λ at. IsOwnedRecords (B.state on.new) at) }
    ensures hand { IfOk result (λ at. bytes.now ≡ ((B.state on.new).now at).bytes) }
{
    match ready_records(records, on, rank, 0) {
        Ok(leaf) => {
            change_leaf(on, leaf.at, bytes);
            Ok(leaf.at)
        }
        Err(why) => Err(why),
    }
}

/// Takes a name out of the first leaf.
fn take_one<B: Blocks, S: Bytes<B>>(
    records: &S,
    on: &mut B,
    at: u32,
    name: &[u8],
    bytes: &mut [u8],
) -> bool
    requires over { S.is_over records.now on.old }
    requires size { 8192 ≤ S.size records.now }
    requires leaf { (B.state on.old).tells → (S.leaves records.now on.old).at 0 ≡ Some at }
    requires owned { IsOwnedRecords (B.state on.old) at }
    requires hand { IsLeaf bytes.old × (bytes.old ≡ ((B.state on.old).now at).bytes) }
    ensures over { result ≡ true → S.is_over records.now on.new }
    ensures leaf { result ≡ true → (B.state on.new).tells → (S.leaves records.now on.new).at 0 ≡ Some at }
    ensures owned { result ≡ true → IsOwnedRecords (B.state on.new) at }
    ensures hand { IsLeaf bytes.new × (bytes.new ≡ ((B.state on.new).now at).bytes) }
{
    let _ = records;
    take_record(on, at, name, bytes)
}

/// Takes every third letter out.
fn take_thirds<B: Blocks, S: Bytes<B>>(records: &S, on: &mut B, at: u32, bytes: &mut [u8]) -> bool
    requires over { S.is_over records.now on.old }
    requires size { 8192 ≤ S.size records.now }
    requires leaf { (B.state on.old).tells → (S.leaves records.now on.old).at 0 ≡ Some at }
    requires owned { IsOwnedRecords (B.state on.old) at }
    requires hand { IsLeaf bytes.old × (bytes.old ≡ ((B.state on.old).now at).bytes) }
    ensures over { result ≡ true → S.is_over records.now on.new }
{
    for k in 0..9 {
        if !take_one(records, on, at, &[97 + 3 * k], bytes) {
            return false;
        }
    }
    true
}

/// Whether a name is there.
fn has<B: Blocks, S: Bytes<B>>(
    alloc: Global,
    records: &mut S,
    on: &mut B,
    rank: u32,
    name: &[u8],
) -> Result<bool, BlockError>
    requires over { S.is_over records.old on.old }
    requires form { OfRecords (S.form records.old) rank }
    ensures over { S.is_over records.new on.new }
    ensures form { S.form records.new ≡ S.form records.old }
{
    match lookup(alloc, records, on, rank, name) {
        Ok(found) => Ok(found.is_some()),
        Err(why) => Err(why),
    }
}

/// Whether letter `k` is there exactly where it is no third one, and then comes after the letter before.
fn is_right<B: Blocks, S: Bytes<B>>(
    alloc: Global,
    records: &mut S,
    on: &mut B,
    rank: u32,
    k: u8,
) -> Result<bool, BlockError>
    requires over { S.is_over records.old on.old }
    requires form { OfRecords (S.form records.old) rank }
    requires within { k < 26 }
    ensures over { S.is_over records.new on.new }
    ensures form { S.form records.new ≡ S.form records.old }
{
    let there = has(alloc, records, on, rank, &[97 + k])?;
    if k % 3 == 0 {
        return Ok(!there);
    }
    let next = comes(alloc, records, on, rank, &[96 + k], &[97 + k])?;
    Ok(there && next)
}

/// Whether all letters are right.
fn are_right<B: Blocks, S: Bytes<B>>(
    alloc: Global,
    records: &mut S,
    on: &mut B,
    rank: u32,
) -> Result<bool, BlockError>
    requires over { S.is_over records.old on.old }
    requires form { OfRecords (S.form records.old) rank }
    ensures over { S.is_over records.new on.new }
    ensures form { S.form records.new ≡ S.form records.old }
{
    for k in 0..26 {
        match is_right(alloc, records, on, rank, k) {
            Ok(true) => {}
            Ok(false) => return Ok(false),
            Err(why) => return Err(why),
        }
    }
    Ok(true)
}

/// Puts 26 names, takes every third out, and says whether the other 17 are there, in the order of their letters.
pub fn thirds<B: Blocks, S: Bytes<B>>(
    alloc: Global,
    records: &mut S,
    on: &mut B,
    rank: u32,
) -> Result<bool, BlockError>
    requires over { S.is_over records.old on.old }
    requires form { OfRecords (S.form records.old) rank }
    requires limit { 8192 ≤ (S.form records.old).limit }
    requires pins { most_for (max (S.size records.old) 8192) 8192 ≤ (B.state on.old).pins_left }
    requires spare { IsEnough (S.leaves records.old on.old).current (S.size records.old) 0 (B.state on.old).spare }
    requires trimmed { S.size records.old < 8192 → S.is_trimmed records.old on.old }
{
    let mut leaf = empty_leaf();
    if !put_letters(alloc, &mut leaf) {
        return Ok(false);
    }
    let at = fill_at(records, on, rank, &leaf)?;
    if !take_thirds(records, on, at, &mut leaf) {
        return Ok(false);
    }
    if !are_right(alloc, records, on, rank)? {
        return Ok(false);
    }
    Ok(count(records, on, rank)? == 17)
}
