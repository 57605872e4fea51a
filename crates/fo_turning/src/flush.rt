//! Flushing turns.
ghost use Rattle.std.specs.Prelude.{◌≡◌, ◌≢◌, ◌↔◌, ◌+◌, ◌<◌, ◌≤◌, ℕ, [], true, length, None, Ok, IsOk, OnOk, OnErr, IfOk, IfErr};
ghost use Rattle.fo_base.specs.Cause.{Rose};
ghost use Rattle.fo_disk.specs.Disk.{IsSettled, IsSync, versions_of};
ghost use Rattle.fo_disk.specs.declared.disk.Failed.{Failed};
ghost use Rattle.fo_order.specs.declared.marks.Tried.TheVariants.{Written};
ghost use Rattle.fo_order.specs.Turns.{IsDue, IsNext, IsQuiet, flag_at};
ghost use Rattle.fo_ports.specs.Causes.{Caused};
ghost use Rattle.fo_waits.specs.Listed.{Clears};
ghost use Rattle.fo_mind.specs.MindParts.{parts};
ghost use Rattle.fo_mind.specs.Parts.{IsPinned};
ghost use Rattle.fo_mind.specs.Turning.{HasTurn, Missed, Synced};
ghost use Rattle.fo_cache.specs.Easing.{Eases};
ghost use Rattle.fo_cache.specs.Settling.{Settles};
ghost use Rattle.fo_cache.specs.Supers.{Overruled};
ghost use Rattle.fo_cache.specs.Work.{AtMost, in_doubt};
ghost use Rattle.fo_turning.specs.declared.flush.Flushed.TheVariants.{Wrote, Synced as SyncedIs, Idle};
ghost use Rattle.fo_turning.specs.Flushes.{AtIdle, Does, Lands, Misses, Overrules, Syncs, Writes};

use crate::release::{marks_of, release_written};
use fo_cache::Cache;
use fo_disk::{Disk, DiskFault};
use fo_order::Turn;
use fo_ports::BlockError;

/// What a flushing turn did.
#[derive(Clone, Copy, Debug, PartialEq, Eq)]
pub enum Flushed {
    /// This block was written; block 1 was settled too.
    Wrote(u32),
    /// What was written was settled.
    Synced,
    /// A slot was cleared, which waited for a leaf that is settled.
    Cleared,
    /// Nothing is to be written or settled, and no slot waits.
    Idle,
}

// Clears the next slot whose leaf is settled, where nothing else is to be done.
fn clear_next<D: Disk>(cache: &mut Cache<D>) -> Flushed
    requires quiet { IsQuiet (parts cache.old.mind [] 0).turns }
    requires certain { (parts cache.old.mind [] 0).doubt ≡ None }
    ensures does { Does result (D.state cache.old.main) (D.state cache.new.main) (parts cache.old.mind [] 0) (parts cache.new.mind [] 0) }
    ensures idle { ((b j : ℕ) → Clears (parts cache.old.mind [] 0).clears b j → ⊥) → result ≡ Idle }
    ensures eases { Eases (parts cache.old.mind (D.state cache.old.main).holds (D.faults cache.old.main)) (parts cache.new.mind (D.state cache.new.main).holds (D.faults cache.new.main)) }
    ensures device { cache.new.main ≡ cache.old.main }
{
    let Some((at, i)) = cache.next_due() else {
        return Flushed::Idle;
    };
    cache.clear_due(at, i);
    Flushed::Cleared
}

// Writes block 1 as memory has it, and settles it with all that was written.
fn settle_first<D: Disk>(cache: &mut Cache<D>) -> Result<(), BlockError>
    ensures overruled { OnOk result (Overruled (D.state cache.old.main) (D.state cache.new.main) (parts cache.old.mind [] 0) (parts cache.new.mind [] 0)) }
    ensures nothing { OnErr result (parts cache.new.mind [] 0 ≡ parts cache.old.mind [] 0) }
    ensures eases { Eases (parts cache.old.mind (D.state cache.old.main).holds (D.faults cache.old.main)) (parts cache.new.mind (D.state cache.new.main).holds (D.faults cache.new.main)) }
    ensures calls { AtMost 2 (D.calls cache.old.main) (D.calls cache.new.main) }
    ensures size { D.size cache.new.main ≡ D.size cache.old.main }
    ensures cause { IfErr result (Caused ⊥ (λ b. ⊥) (Rose (D.faults cache.old.main) (D.faults cache.new.main)) ⊥) }
    ensures later { D.faults cache.old.main ≤ D.faults cache.new.main }
{
    cache.settle_one()?;
    Ok(())
}

// Settles block 1 as memory has it with all that was written, which is then given up where it may be.
fn write_first<D: Disk>(cache: &mut Cache<D>) -> Result<Flushed, BlockError>
    ensures does { IfOk result (λ f. (f ≡ Wrote 1) × Overrules (D.state cache.old.main) (D.state cache.new.main) (parts cache.old.mind [] 0) (parts cache.new.mind [] 0)) }
    ensures nothing { OnErr result (parts cache.new.mind [] 0 ≡ parts cache.old.mind [] 0) }
    ensures eases { Eases (parts cache.old.mind (D.state cache.old.main).holds (D.faults cache.old.main)) (parts cache.new.mind (D.state cache.new.main).holds (D.faults cache.new.main)) }
    ensures calls { AtMost 2 (D.calls cache.old.main) (D.calls cache.new.main) }
    ensures size { D.size cache.new.main ≡ D.size cache.old.main }
    ensures cause { IfErr result (Caused ⊥ (λ b. ⊥) (Rose (D.faults cache.old.main) (D.faults cache.new.main)) ⊥) }
    ensures later { D.faults cache.old.main ≤ D.faults cache.new.main }
{
    let marks = marks_of(cache)?;
    settle_first(cache)?;
    release_written(cache, marks);
    Ok(Flushed::Wrote(1))
}

// Writes a block that has a turn.
fn write_ready<D: Disk>(cache: &mut Cache<D>, at: u32) -> Result<Flushed, BlockError>
    requires turn { (flag_at (parts cache.old.mind [] 0).turns at).dirty ≡ true }
    requires room { IsPinned (parts cache.old.mind [] 0).held at → HasTurn (parts cache.old.mind [] 0) }
    ensures lands { IfOk result (λ f. (f ≡ Wrote at) × Lands at (D.state cache.old.main) (D.state cache.new.main) (parts cache.old.mind [] 0) (parts cache.new.mind [] 0)) }
    ensures missed { OnErr result (Missed at (parts cache.old.mind [] 0) (parts cache.new.mind [] 0)) }
    ensures settles { Settles (D.state cache.old.main) (D.state cache.new.main) (parts cache.old.mind [] 0) (parts cache.new.mind [] 0) }
    ensures others { (k : ℕ) → k ≢ at → versions_of (D.state cache.new.main).holds k ≡ versions_of (D.state cache.old.main).holds k }
    ensures calls { AtMost 1 (D.calls cache.old.main) (D.calls cache.new.main) }
    ensures size { D.size cache.new.main ≡ D.size cache.old.main }
    ensures cause { IfErr result (Caused ⊥ (λ b. ⊥) (Rose (D.faults cache.old.main) (D.faults cache.new.main)) ⊥) }
    ensures later { D.faults cache.old.main ≤ D.faults cache.new.main }
{
    match cache.write_turn(at) {
        Ok(()) => Ok(Flushed::Wrote(at)),
        Err(_) => Err(BlockError::Fault(DiskFault::Write)),
    }
}

// Writes the block that is next.
fn write_next<D: Disk>(cache: &mut Cache<D>, at: u32) -> Result<Flushed, BlockError>
    requires next { IsNext (parts cache.old.mind [] 0).turns at }
    ensures does { IfOk result (λ f. (f ≡ Wrote at) × Writes at (D.state cache.old.main) (D.state cache.new.main) (parts cache.old.mind [] 0) (parts cache.new.mind [] 0)) }
    ensures settles { Settles (D.state cache.old.main) (D.state cache.new.main) (parts cache.old.mind [] 0) (parts cache.new.mind [] 0) }
    ensures misses { OnErr result (Misses (parts cache.old.mind [] 0) (parts cache.new.mind [] 0)) }
    ensures calls { AtMost 1 (D.calls cache.old.main) (D.calls cache.new.main) }
    ensures size { D.size cache.new.main ≡ D.size cache.old.main }
    ensures cause { IfErr result (Caused ⊥ (λ b. ⊥) (Rose (D.faults cache.old.main) (D.faults cache.new.main)) ⊥) }
    ensures later { D.faults cache.old.main ≤ D.faults cache.new.main }
{
    let Ok(()) = cache.keep_turn_of(at) else {
        return Err(BlockError::Memory);
    };
    write_ready(cache, at)
}

// Settles what was written.
fn sync_next<D: Disk>(cache: &mut Cache<D>) -> Result<(), BlockError>
    ensures synced { OnOk result (Synced (parts cache.old.mind [] 0) (parts cache.new.mind [] 0)) }
    ensures each { OnOk result ((b : ℕ) → (parts cache.old.mind [] 0).region.first ≤ b → b < length (D.state cache.new.main).holds → (flag_at (parts cache.old.mind [] 0).turns b).tried ≡ Written → IsSettled (D.state cache.new.main).holds b) }
    ensures state { OnOk result (IsSync {E = Failed} (Ok tt) (D.state cache.old.main) (D.state cache.new.main)) }
    ensures nothing { OnErr result (parts cache.new.mind [] 0 ≡ parts cache.old.mind [] 0) }
    ensures eases { Eases (parts cache.old.mind (D.state cache.old.main).holds (D.faults cache.old.main)) (parts cache.new.mind (D.state cache.new.main).holds (D.faults cache.new.main)) }
    ensures calls { AtMost 1 (D.calls cache.old.main) (D.calls cache.new.main) }
    ensures size { D.size cache.new.main ≡ D.size cache.old.main }
    ensures cause { IfErr result (Caused ⊥ (λ b. ⊥) (Rose (D.faults cache.old.main) (D.faults cache.new.main)) ⊥) }
    ensures later { D.faults cache.old.main ≤ D.faults cache.new.main }
{
    match cache.sync_turn() {
        Ok(()) => Ok(()),
        Err(_) => Err(BlockError::Fault(DiskFault::Sync)),
    }
}

// Settles what was written, and gives it up where it may be.
fn sync_written<D: Disk>(cache: &mut Cache<D>) -> Result<Flushed, BlockError>
    requires due { IsDue (parts cache.old.mind [] 0).turns }
    ensures does { IfOk result (λ f. (f ≡ SyncedIs) × Syncs (D.state cache.old.main) (D.state cache.new.main) (parts cache.old.mind [] 0) (parts cache.new.mind [] 0)) }
    ensures nothing { OnErr result (parts cache.new.mind [] 0 ≡ parts cache.old.mind [] 0) }
    ensures eases { Eases (parts cache.old.mind (D.state cache.old.main).holds (D.faults cache.old.main)) (parts cache.new.mind (D.state cache.new.main).holds (D.faults cache.new.main)) }
    ensures calls { AtMost 1 (D.calls cache.old.main) (D.calls cache.new.main) }
    ensures size { D.size cache.new.main ≡ D.size cache.old.main }
    ensures cause { IfErr result (Caused ⊥ (λ b. ⊥) (Rose (D.faults cache.old.main) (D.faults cache.new.main)) ⊥) }
    ensures later { D.faults cache.old.main ≤ D.faults cache.new.main }
{
    let marks = marks_of(cache)?;
    sync_next(cache)?;
    release_written(cache, marks);
    Ok(Flushed::Synced)
}

// Does what is next.
fn take_turn<D: Disk>(cache: &mut Cache<D>) -> Result<Flushed, BlockError>
    ensures does { IfOk result (λ f. Does f (D.state cache.old.main) (D.state cache.new.main) (parts cache.old.mind [] 0) (parts cache.new.mind [] 0)) }
    ensures idle { AtIdle (parts cache.old.mind [] 0) → result ≡ Ok Idle }
    ensures eases { Eases (parts cache.old.mind (D.state cache.old.main).holds (D.faults cache.old.main)) (parts cache.new.mind (D.state cache.new.main).holds (D.faults cache.new.main)) }
    ensures misses { OnErr result (Misses (parts cache.old.mind [] 0) (parts cache.new.mind [] 0)) }
    ensures sure { IsQuiet (parts cache.old.mind [] 0).turns → (parts cache.old.mind [] 0).doubt ≡ None → IsOk result }
    ensures calls { AtMost (1 + in_doubt (parts cache.old.mind [] 0).doubt) (D.calls cache.old.main) (D.calls cache.new.main) }
    ensures size { D.size cache.new.main ≡ D.size cache.old.main }
    ensures cause { IfErr result (Caused ⊥ (λ b. ⊥) (Rose (D.faults cache.old.main) (D.faults cache.new.main)) ⊥) }
    ensures later { D.faults cache.old.main ≤ D.faults cache.new.main }
{
    if cache.mind.is_doubted() {
        return write_first(cache);
    }
    match cache.next_turn() {
        Turn::Write(at) => write_next(cache, at),
        Turn::Sync => sync_written(cache),
        Turn::Idle => Ok(clear_next(cache)),
    }
}

/// Takes one step of a settling, and answers which: a write, a sync, or a slot that is cleared. The device is called once at most, and
/// twice where block 1 is in doubt. What a sync settled is given up where it may be. It may want memory, for the turn of a pinned block and for
/// the list of what is settled; then it did nothing. Where nothing is to be written or settled it doesn't fail.
pub fn flush_turn<D: Disk>(cache: &mut Cache<D>) -> Result<Flushed, BlockError>
    ensures does { IfOk result (λ f. Does f (D.state cache.old.main) (D.state cache.new.main) (parts cache.old.mind [] 0) (parts cache.new.mind [] 0)) }
    ensures idle { (result ≡ Ok Idle) ↔ AtIdle (parts cache.old.mind [] 0) }
    ensures still { AtIdle (parts cache.old.mind [] 0) → parts cache.new.mind [] 0 ≡ parts cache.old.mind [] 0 }
    ensures eases { Eases (parts cache.old.mind (D.state cache.old.main).holds (D.faults cache.old.main)) (parts cache.new.mind (D.state cache.new.main).holds (D.faults cache.new.main)) }
    ensures misses { OnErr result (Misses (parts cache.old.mind [] 0) (parts cache.new.mind [] 0)) }
    ensures sure { IsQuiet (parts cache.old.mind [] 0).turns → (parts cache.old.mind [] 0).doubt ≡ None → IsOk result }
    ensures calls { AtMost (1 + in_doubt (parts cache.old.mind [] 0).doubt) (D.calls cache.old.main) (D.calls cache.new.main) }
    ensures size { D.size cache.new.main ≡ D.size cache.old.main }
    ensures cause { IfErr result (Caused ⊥ (λ b. ⊥) (Rose (D.faults cache.old.main) (D.faults cache.new.main)) ⊥) }
    ensures later { D.faults cache.old.main ≤ D.faults cache.new.main }
{
    take_turn(cache)
}
