//! A directory of many names, in one epoch and in the next.
ghost use Rattle.std.specs.Prelude.{◌≡◌, ◌<◌, ◌≤◌, ℕ, true, IfOk};
ghost use Rattle.fo_ports_plain.specs.Meaning.{state_of};
ghost use Rattle.fo_ports_plain.specs.Parts.{parts};
ghost use Rattle.test_names.specs.Root.{HasBlocks, IsInMemory, NoneComes};

use crate::expected::Model;
use crate::older::{Sum, are_current, are_kept, note_leaves};
use crate::round::{Counts, Looks, Phase, look_at, round};
use fo_base::Memory;
use fo_ports::{BlockError, Blocks};
use fo_ports_plain::PlainBlocks;
use std::alloc::Global;
use test_names::{begin_root, device};

/// What is done in the first epoch.
const FIRST: [Phase; 3] = [Phase::Make(0), Phase::Remove(0), Phase::Rename(40)];

/// What is done in the second.
const SECOND: [Phase; 3] = [Phase::Make(20), Phase::Remove(1), Phase::Rename(80)];

/// Makes room for the root block of a new epoch. Whether one may begin.
fn has_room<B: Blocks>(on: &mut B) -> Result<bool, BlockError>
    requires none { NoneComes (B.state on.old) }
    ensures may { IfOk result (λ yes. yes ≡ true → ((B.state on.new).high < 1000) × (0 < (B.state on.new).spare)) }
    ensures none { NoneComes (B.state on.new) }
    ensures keeps { B.keeps on.old on.new }
{
    if let Err(why) = on.reserve(1, 0, 0) {
        return Err(why);
    }
    Ok(on.high() < 1000)
}

/// Makes room for the root block of a new epoch. Whether one may begin.
fn may_begin(on: &mut PlainBlocks) -> Result<bool, BlockError>
    requires blocks { HasBlocks 1003 (state_of (parts on.old)) }
    requires none { NoneComes (state_of (parts on.old)) }
    ensures may { IfOk result (λ yes. yes ≡ true → ((parts on.new).high < 1000) × (0 < (parts on.new).spare)) }
    ensures blocks { HasBlocks 1003 (state_of (parts on.new)) }
    ensures none { NoneComes (state_of (parts on.new)) }
{
    has_room(on)
}

/// A new epoch begins.
fn next_epoch(on: &mut PlainBlocks)
    requires may { ((parts on.old).high < 1000) × (0 < (parts on.old).spare) }
    requires blocks { HasBlocks 1003 (state_of (parts on.old)) }
    requires none { NoneComes (state_of (parts on.old)) }
    ensures blocks { HasBlocks 1003 (state_of (parts on.new)) }
    ensures none { NoneComes (state_of (parts on.new)) }
{
    on.begin_epoch();
}

/// A new epoch begins. Whether one may.
fn begin_epoch(on: &mut PlainBlocks) -> Result<bool, BlockError>
    requires blocks { HasBlocks 1003 (state_of (parts on.old)) }
    requires none { NoneComes (state_of (parts on.old)) }
    ensures blocks { HasBlocks 1003 (state_of (parts on.new)) }
    ensures none { NoneComes (state_of (parts on.new)) }
{
    if !may_begin(on)? {
        return Ok(false);
    }
    next_epoch(on);
    Ok(true)
}

/// Whether leaves of the epoch before hold what they held, and each leaf that there is now is of the current epoch.
fn are_copied(alloc: Global, on: &mut PlainBlocks, sums: &[Sum]) -> Result<bool, BlockError>
    requires blocks { HasBlocks 1003 (state_of (parts on.old)) }
    requires none { NoneComes (state_of (parts on.old)) }
{
    if !are_kept(on, sums)? {
        return Ok(false);
    }
    are_current(alloc, on)
}

/// The steps of the second epoch, behind a look at what the first one left.
fn change_again<B: Blocks>(alloc: Global, on: &mut B, model: &mut Model, counts: &mut Counts)
    requires memory { (b : B) → IsInMemory (B.state b) }
    requires none { NoneComes (B.state on.old) }
    ensures none { NoneComes (B.state on.new) }
    ensures keeps { B.keeps on.old on.new }
{
    look_at(alloc, on, model, counts);
    round(alloc, on, model, SECOND, Looks::AtHundredths, counts);
}

/// A second epoch over leaves of the first, which are to hold what they held.
fn second(alloc: Global, on: &mut PlainBlocks, model: &mut Model, sums: &[Sum], counts: &mut Counts)
    requires blocks { HasBlocks 1003 (state_of (parts on.old)) }
    requires none { NoneComes (state_of (parts on.old)) }
{
    match begin_epoch(on) {
        Ok(true) => {}
        _ => counts.is_wrong(),
    }
    change_again(alloc, on, model, counts);
    match are_copied(alloc, on, sums) {
        Ok(true) => {}
        _ => counts.is_wrong(),
    }
}

/// The steps of the first epoch, on an empty device.
fn change_first<B: Blocks>(
    alloc: Global,
    on: &mut B,
    model: &mut Model,
    looks: Looks,
    counts: &mut Counts,
)
    requires memory { (b : B) → IsInMemory (B.state b) }
    requires none { NoneComes (B.state on.old) }
    ensures none { NoneComes (B.state on.new) }
    ensures keeps { B.keeps on.old on.new }
{
    match begin_root(on) {
        Ok(true) => {}
        _ => counts.is_wrong(),
    }
    round(alloc, on, model, FIRST, looks, counts);
}

/// Notes what the leaves hold, once more where that wants memory. Whether there are leaves of both sources.
fn noted(alloc: Global, on: &mut PlainBlocks, sums: &mut Vec<Sum>) -> bool
    requires blocks { HasBlocks 1003 (state_of (parts on.old)) }
    requires none { NoneComes (state_of (parts on.old)) }
    ensures blocks { HasBlocks 1003 (state_of (parts on.new)) }
    ensures none { NoneComes (state_of (parts on.new)) }
{
    match note_leaves(alloc, on, sums) {
        Ok(all) => return all,
        Err(BlockError::Memory) => {}
        Err(_) => return false,
    }
    matches!(note_leaves(alloc, on, sums), Ok(true))
}

/// A first epoch, on an empty device.
fn first(alloc: Global, on: &mut PlainBlocks, model: &mut Model, looks: Looks, counts: &mut Counts)
    requires blocks { HasBlocks 1003 (state_of (parts on.old)) }
    requires none { NoneComes (state_of (parts on.old)) }
    ensures blocks { HasBlocks 1003 (state_of (parts on.new)) }
    ensures none { NoneComes (state_of (parts on.new)) }
{
    change_first(alloc, on, model, looks, counts);
}

/// A first epoch with few looks; then what its leaves hold is noted.
fn first_noted(
    alloc: Global,
    on: &mut PlainBlocks,
    model: &mut Model,
    sums: &mut Vec<Sum>,
    counts: &mut Counts,
)
    requires blocks { HasBlocks 1003 (state_of (parts on.old)) }
    requires none { NoneComes (state_of (parts on.old)) }
    ensures blocks { HasBlocks 1003 (state_of (parts on.new)) }
    ensures none { NoneComes (state_of (parts on.new)) }
{
    first(alloc, on, model, Looks::AtEnds, counts);
    if !noted(alloc, on, sums) {
        counts.is_wrong();
    }
}

/// So many names are made, removed and renamed in one epoch: what was done. All are looked at after each hundredth step.
pub fn first_epoch(alloc: Global, many: u16) -> Result<Counts, Memory> {
    let mut model = Model::new(alloc, many)?;
    let mut on = device(alloc)?;
    let mut counts = Counts::none();
    first(alloc, &mut on, &mut model, Looks::AtHundredths, &mut counts);
    Ok(counts)
}

/// So many names are made, removed and renamed in one epoch and in the next: what was done in each. All are looked at after each hundredth step
/// of the second one; of the first one at the end of each phase.
pub fn both_epochs(alloc: Global, many: u16) -> Result<(Counts, Counts), Memory> {
    let mut model = Model::new(alloc, many)?;
    let mut sums = Vec::new(alloc);
    let mut on = device(alloc)?;
    let mut counts = Counts::none();
    first_noted(alloc, &mut on, &mut model, &mut sums, &mut counts);
    let mut later = Counts::none();
    second(alloc, &mut on, &mut model, &sums, &mut later);
    Ok((counts, later))
}
