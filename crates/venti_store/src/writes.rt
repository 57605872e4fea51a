//! The writes and syncs that settle the blocks of an arena on its device.
//!
//! The bytes of the blocks that wait and their lines come first and are settled; then the head says that they are used.
ghost use Rattle.std.specs.Prelude.{◌≡◌, ◌≢◌, ℕ, ◌+◌, ◌-◌, ◌/◌, ◌^◌, ◌<◌, ◌≤◌, List, length, take, MatchResult, OnOk, IfErr};
ghost use Rattle.fo_base.specs.Cause.{HasCause};
ghost use Rattle.fo_disk.specs.Disk.{IsWrite};
ghost use Rattle.fo_disk.specs.declared.disk.DiskFault.TheVariants.{Write};
ghost use Rattle.fo_image.specs.Format.{ArenaLineHolds};
ghost use Rattle.fo_image.specs.Place.{arena_places};
ghost use Rattle.venti_store.specs.Held.{line_at, HasLine};
ghost use Rattle.venti_store.specs.Kept.{waits, IsLater};
ghost use Rattle.venti_store.specs.Settling.{Run, Goes, WroteBytes, WroteLines, Waits, Ends, all_settled};

use crate::waiting::Waiting;
use fo_base::LINES;
use fo_disk::{BLOCK, Disk, DiskFault, Failed};
use fo_image::{ArenaHead, ArenaLine, stored_block, write_arena_head, write_arena_line};

/// A block that begins with these bytes, and has zeros behind them.
fn padded(bytes: &[u8]) -> [u8; BLOCK]
    requires { length bytes.now ≤ 8192 }
    ensures { take (length bytes.now) result ≡ bytes.now }
{
    let mut block = [0; BLOCK];
    block[..bytes.len()].copy_from_slice(bytes);
    block
}

/// Writes a block that begins with these bytes; whole blocks are not copied.
fn write_bytes<A: Disk>(device: &mut A, at: u32, bytes: &[u8]) -> Result<(), Failed>
    requires block { at < A.size device.old }
    requires length { length bytes.now ≤ 8192 }
    ensures wrote { (block : List ℕ) × (take (length bytes.now) block ≡ bytes.now) × IsWrite at block result (A.state device.old) (A.state device.new) }
    ensures size { A.size device.new ≡ A.size device.old }
    ensures calls { A.calls device.new ≤ A.calls device.old + 1 }
    ensures cause { HasCause (A.faults device.old) (A.faults device.new) result }
{
    if bytes.len() == BLOCK {
        return device.write(at, bytes);
    }
    device.write(at, &padded(bytes))
}

/// Writes the blocks that wait, of which the first has this place.
fn write_waiting<A: Disk>(device: &mut A, first: u32, pending: &[Waiting]) -> Result<(), DiskFault>
    requires most { A.size device.old ≤ 2 ^ 20 }
    requires room { first + length pending.now ≤ arena_places (A.size device.old) }
    ensures goes { (run : Run) → run.size ≡ A.size device.old → run.settled ≡ first → Waits run (waits pending.now) → Goes run (A.state device.old)
        → Goes run (A.state device.new) }
    ensures wrote { OnOk result ((run : Run) → run.size ≡ A.size device.old → run.settled ≡ first → Waits run (waits pending.now) → Goes run (A.state device.old)
        → WroteBytes run (length run.lines) (A.state device.new)) }
    ensures size { A.size device.new ≡ A.size device.old }
    ensures calls { A.calls device.new ≤ A.calls device.old + length pending.now }
    ensures cause { HasCause (A.faults device.old) (A.faults device.new) result }
    ensures fault { IfErr result (λ e. e ≡ Write) }
{
    for i in 0..pending.len() {
        let Ok(()) = write_bytes(device, stored_block(first + i as u32), &pending[i].bytes) else {
            return Err(DiskFault::Write);
        };
    }
    Ok(())
}

/// The block of the index with the lines of this group of places.
fn lines_of_group(lines: &[ArenaLine], group: u32) -> [u8; BLOCK]
    requires few { group < 2 ^ 20 }
    requires spelled { (place : ℕ) → place < length lines.now → ArenaLineHolds (line_at lines.now place) }
    ensures { (place : ℕ) → place / 341 ≡ group → place < length lines.now → HasLine lines.now place result }
{
    let mut block = [0; BLOCK];
    let first = (group * LINES) as usize;
    for place in first..lines.len().min(first + LINES as usize) {
        let at = 24 * (place - first);
        write_arena_line(&lines[place], &mut block[at..at + 24]);
    }
    block
}

/// Writes the lines of the places from this one on, in whole blocks of the index.
fn write_lines<A: Disk>(device: &mut A, first: u32, lines: &[ArenaLine]) -> Result<(), DiskFault>
    requires most { A.size device.old ≤ 2 ^ 20 }
    requires room { length lines.now ≤ arena_places (A.size device.old) }
    requires some { first < length lines.now }
    requires spelled { (place : ℕ) → place < length lines.now → ArenaLineHolds (line_at lines.now place) }
    ensures goes { (run : Run) → run.size ≡ A.size device.old → run.settled ≡ first → run.lines ≡ lines.now → Goes run (A.state device.old)
        → Goes run (A.state device.new) }
    ensures wrote { OnOk result ((run : Run) → run.size ≡ A.size device.old → run.settled ≡ first → run.lines ≡ lines.now → Goes run (A.state device.old)
        → WroteLines run (length run.lines) (A.state device.new)) }
    ensures bytes { OnOk result ((run : Run) → WroteBytes run (length run.lines) (A.state device.old) → WroteBytes run (length run.lines) (A.state device.new)) }
    ensures size { A.size device.new ≡ A.size device.old }
    ensures calls { A.calls device.new ≤ A.calls device.old + ((length lines.now + 340) / 341 - first / 341) }
    ensures cause { HasCause (A.faults device.old) (A.faults device.new) result }
    ensures fault { IfErr result (λ e. e ≡ Write) }
{
    let used = lines.len() as u32;
    for group in first / LINES..used.div_ceil(LINES) {
        let block = lines_of_group(lines, group);
        let Ok(()) = device.write(1 + (LINES + 1) * group, &block) else {
            return Err(DiskFault::Write);
        };
    }
    Ok(())
}

/// Writes the blocks that wait and their lines, and settles them. Where none waits, nothing is done.
pub(crate) fn settle<A: Disk>(
    device: &mut A,
    first: u32,
    lines: &[ArenaLine],
    pending: &[Waiting],
) -> Result<(), DiskFault>
    requires most { A.size device.old ≤ 2 ^ 20 }
    requires room { length lines.now ≤ arena_places (A.size device.old) }
    requires all { first + length pending.now ≡ length lines.now }
    requires spelled { (place : ℕ) → place < length lines.now → ArenaLineHolds (line_at lines.now place) }
    ensures goes { (run : Run) → run.size ≡ A.size device.old → run.settled ≡ first → run.lines ≡ lines.now → Waits run (waits pending.now) → Goes run (A.state device.old)
        → MatchResult result (λ _. Goes (all_settled run) (A.state device.new)) (λ _. Goes run (A.state device.new)) }
    ensures size { A.size device.new ≡ A.size device.old }
    ensures calls { A.calls device.new ≤ A.calls device.old + length pending.now + ((length lines.now + 340) / 341 - first / 341) + 1 }
    ensures cause { HasCause (A.faults device.old) (A.faults device.new) result }
    ensures fault { IfErr result IsLater }
{
    if pending.is_empty() {
        return Ok(());
    }
    write_waiting(device, first, pending)?;
    write_lines(device, first, lines)?;
    let Ok(()) = device.sync() else {
        return Err(DiskFault::Sync);
    };
    Ok(())
}

/// Writes the head of an arena with so many used places, all of which are settled, and settles it.
pub(crate) fn write_head<A: Disk>(device: &mut A, blocks: u32, used: u32) -> Result<(), DiskFault>
    requires size { A.size device.old ≡ blocks }
    requires some { 0 < blocks }
    ensures ends { (run : Run) → run.size ≡ blocks → run.settled ≡ used → length run.lines ≡ used → Goes run (A.state device.old)
        → MatchResult result (λ _. Ends run (A.state device.new)) (λ _. Goes run (A.state device.new)) }
    ensures size { A.size device.new ≡ A.size device.old }
    ensures calls { A.calls device.new ≤ A.calls device.old + 2 }
    ensures cause { HasCause (A.faults device.old) (A.faults device.new) result }
    ensures fault { IfErr result IsLater }
{
    let mut block = [0; BLOCK];
    write_arena_head(&ArenaHead { blocks, used }, &mut block);
    let Ok(()) = device.write(0, &block) else {
        return Err(DiskFault::Write);
    };
    let Ok(()) = device.sync() else {
        return Err(DiskFault::Sync);
    };
    Ok(())
}
