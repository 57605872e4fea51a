//! What leaves of an older epoch hold.
ghost use Rattle.std.specs.Prelude.{◌≡◌, ◌<◌, ◌≤◌, ℕ, true, IfOk};
ghost use Rattle.fo_image.specs.declared.types.State.TheVariants.{Live};
ghost use Rattle.fo_crash.specs.declared.place.Place.{Place};
ghost use Rattle.fo_ports_plain.specs.Meaning.{state_of};
ghost use Rattle.fo_ports_plain.specs.Parts.{parts};
ghost use Rattle.test_names.specs.Root.{HasBlocks, IsInMemory, NoneComes};

use fo_base::{BLOCK, Memory};
use fo_crash::Place;
use fo_image::State;
use fo_ports::{BlockError, Blocks};
use fo_ports_plain::PlainBlocks;
use std::alloc::Global;
use test_names::{Part, leaf_at};

/// How many blocks the device has, with the first two, of which none is made.
const BLOCKS: u32 = 1003;

/// How many leaves a source has at most whose top has one level of pointers.
const LEAVES: u32 = 409;

/// A block, and what its bytes sum up to.
#[derive(Clone, Copy, Debug)]
pub struct Sum {
    at: u32,
    sum: u64,
}

/// What bytes sum up to. Where two blocks differ in one byte, so do their sums.
fn sum_of(bytes: &[u8]) -> u64 {
    let mut sum = 0_u64;
    for byte in bytes {
        sum = sum
            .wrapping_mul(1_099_511_628_211)
            .wrapping_add(u64::from(*byte));
    }
    sum
}

/// Whether a block of the device was given out.
fn is_live<B: Blocks>(on: &B, at: u32) -> bool
    requires { HasBlocks 1003 (B.state on.now) }
    ensures { result ≡ true → (B.state on.now).is_block at × (((B.state on.now).label at).state ≡ Live) }
{
    if at <= 1 || BLOCKS <= at {
        return false;
    }
    matches!(on.label(at).state, State::Live)
}

/// What the bytes of a block sum up to that stands at this place.
fn sum_there<B: Blocks>(on: &mut B, at: u32, place: Place) -> Result<Option<u64>, BlockError>
    requires block { (B.state on.old).is_block at }
    requires place { (p : Place) → (B.state on.old).stands at p → place ≡ p }
    requires none { NoneComes (B.state on.old) }
    ensures none { NoneComes (B.state on.new) }
    ensures keeps { B.keeps on.old on.new }
{
    let mut block = [0; BLOCK];
    match on.get(at, place.kind, place.rank, &mut block) {
        Ok(()) => Ok(Some(sum_of(&block))),
        Err(why) => Err(why),
    }
}

/// What the bytes of a block sum up to, as it is read at its place. None where it was never given out.
fn sum_at(on: &mut PlainBlocks, at: u32) -> Result<Option<u64>, BlockError>
    requires blocks { HasBlocks 1003 (state_of (parts on.old)) }
    requires none { NoneComes (state_of (parts on.old)) }
    ensures blocks { HasBlocks 1003 (state_of (parts on.new)) }
    ensures none { NoneComes (state_of (parts on.new)) }
{
    if !is_live(on, at) {
        return Ok(None);
    }
    let place = on.place(at);
    sum_there(on, at, place)
}

/// The address of leaf `i` of a source. None where there is none.
fn leaf_in(
    alloc: Global,
    on: &mut PlainBlocks,
    part: Part,
    i: u32,
) -> Result<Option<u32>, BlockError>
    requires blocks { HasBlocks 1003 (state_of (parts on.old)) }
    requires none { NoneComes (state_of (parts on.old)) }
    ensures blocks { HasBlocks 1003 (state_of (parts on.new)) }
    ensures none { NoneComes (state_of (parts on.new)) }
{
    leaf_at(alloc, on, part, i)
}

/// Notes what the bytes of a block sum up to.
fn note(sums: &mut Vec<Sum>, at: u32, sum: u64) -> Result<(), Memory> {
    match sums.push(Sum { at, sum }) {
        Ok(()) => Ok(()),
        Err(_) => Err(Memory),
    }
}

/// Notes what the bytes of leaf `i` of a source sum up to. Whether there is one.
fn note_leaf(
    alloc: Global,
    on: &mut PlainBlocks,
    part: Part,
    i: u32,
    sums: &mut Vec<Sum>,
) -> Result<bool, BlockError>
    requires blocks { HasBlocks 1003 (state_of (parts on.old)) }
    requires none { NoneComes (state_of (parts on.old)) }
    ensures blocks { HasBlocks 1003 (state_of (parts on.new)) }
    ensures none { NoneComes (state_of (parts on.new)) }
{
    let Some(at) = leaf_in(alloc, on, part, i)? else {
        return Ok(false);
    };
    let Some(sum) = sum_at(on, at)? else {
        return Ok(false);
    };
    note(sums, at, sum)?;
    Ok(true)
}

/// Notes what the bytes of each leaf of a source sum up to. Whether it has leaves.
fn note_part(
    alloc: Global,
    on: &mut PlainBlocks,
    part: Part,
    sums: &mut Vec<Sum>,
) -> Result<bool, BlockError>
    requires blocks { HasBlocks 1003 (state_of (parts on.old)) }
    requires none { NoneComes (state_of (parts on.old)) }
    ensures blocks { HasBlocks 1003 (state_of (parts on.new)) }
    ensures none { NoneComes (state_of (parts on.new)) }
{
    for i in 0..LEAVES {
        if !note_leaf(alloc, on, part, i, sums)? {
            return Ok(0 < i);
        }
    }
    Ok(false)
}

/// Notes what the bytes of each leaf of the root directory sum up to. Whether it has leaves of both sources.
pub fn note_leaves(
    alloc: Global,
    on: &mut PlainBlocks,
    sums: &mut Vec<Sum>,
) -> Result<bool, BlockError>
    requires blocks { HasBlocks 1003 (state_of (parts on.old)) }
    requires none { NoneComes (state_of (parts on.old)) }
    ensures blocks { HasBlocks 1003 (state_of (parts on.new)) }
    ensures none { NoneComes (state_of (parts on.new)) }
{
    if !note_part(alloc, on, Part::Entries, sums)? {
        return Ok(false);
    }
    note_part(alloc, on, Part::Records, sums)
}

/// Whether the bytes of each of these blocks sum up to what they did.
pub fn are_kept(on: &mut PlainBlocks, sums: &[Sum]) -> Result<bool, BlockError>
    requires blocks { HasBlocks 1003 (state_of (parts on.old)) }
    requires none { NoneComes (state_of (parts on.old)) }
    ensures blocks { HasBlocks 1003 (state_of (parts on.new)) }
    ensures none { NoneComes (state_of (parts on.new)) }
{
    for noted in sums {
        if sum_at(on, noted.at)? != Some(noted.sum) {
            return Ok(false);
        }
    }
    Ok(true)
}

/// Whether leaf `i` of a source is of the current epoch. None where there is none.
fn is_leaf_current<B: Blocks>(
    alloc: Global,
    on: &mut B,
    part: Part,
    i: u32,
) -> Result<Option<bool>, BlockError>
    requires memory { (b : B) → IsInMemory (B.state b) }
    requires none { NoneComes (B.state on.old) }
    ensures none { NoneComes (B.state on.new) }
{
    match leaf_at(alloc, on, part, i) {
        Ok(Some(at)) => Ok(Some(on.label(at).epoch == on.high())),
        Ok(None) => Ok(None),
        Err(why) => Err(why),
    }
}

/// Whether each leaf of a source is of the current epoch.
fn is_part_current<B: Blocks>(alloc: Global, on: &mut B, part: Part) -> Result<bool, BlockError>
    requires memory { (b : B) → IsInMemory (B.state b) }
    requires none { NoneComes (B.state on.old) }
    ensures none { NoneComes (B.state on.new) }
{
    for i in 0..LEAVES {
        match is_leaf_current(alloc, on, part, i) {
            Ok(Some(true)) => {}
            Ok(Some(false)) => return Ok(false),
            Ok(None) => return Ok(true),
            Err(why) => return Err(why),
        }
    }
    Ok(false)
}

/// Whether each leaf of the root directory is of the current epoch.
pub fn are_current<B: Blocks>(alloc: Global, on: &mut B) -> Result<bool, BlockError>
    requires memory { (b : B) → IsInMemory (B.state b) }
    requires none { NoneComes (B.state on.old) }
    ensures none { NoneComes (B.state on.new) }
{
    if !is_part_current(alloc, on, Part::Entries)? {
        return Ok(false);
    }
    is_part_current(alloc, on, Part::Records)
}
