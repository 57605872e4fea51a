//! Turns are taken while nothing is pinned, which wants no memory.
ghost use Rattle.std.specs.Prelude.{◌≡◌, ◌+◌, ◌<◌, ◌≤◌, ℕ, [], true, false, OnOk, IfOk, IfErr};
ghost use Rattle.fo_base.specs.Cause.{Rose};
ghost use Rattle.fo_order.specs.Turns.{IsDue, IsNext, IsQuiet};
ghost use Rattle.fo_ports.specs.Causes.{Caused};
ghost use Rattle.fo_mind.specs.MindParts.{parts};
ghost use Rattle.fo_mind.specs.Parts.{IsPinned};
ghost use Rattle.fo_cache.specs.Settling.{Settles};
ghost use Rattle.fo_cache.specs.Supers.{IsFault};
ghost use Rattle.fo_cache.specs.Work.{AtMost, work};

use fo_cache::Cache;
use fo_disk::{Disk, DiskFault};
use fo_order::Turn;
use fo_ports::BlockError;

// Writes the block that is next.
fn write_next<D: Disk>(cache: &mut Cache<D>, at: u32) -> Result<bool, BlockError>
    requires next { IsNext (parts cache.old.mind [] 0).turns at }
    requires free { (b : ℕ) → IsPinned (parts cache.old.mind [] 0).held b → ⊥ }
    ensures idle { IfOk result (λ b. b ≡ false) }
    ensures settles { Settles (D.state cache.old.main) (D.state cache.new.main) (parts cache.old.mind [] 0) (parts cache.new.mind [] 0) }
    ensures less { OnOk result (work (parts cache.new.mind [] 0).turns < work (parts cache.old.mind [] 0).turns) }
    ensures calls { AtMost (work (parts cache.old.mind [] 0).turns) (D.calls cache.old.main) (D.calls cache.new.main) }
    ensures spent { OnOk result (D.calls cache.new.main + work (parts cache.new.mind [] 0).turns ≤ D.calls cache.old.main + work (parts cache.old.mind [] 0).turns) }
    ensures size { D.size cache.new.main ≡ D.size cache.old.main }
    ensures cause { IfErr result (Caused ⊥ (λ b. ⊥) (Rose (D.faults cache.old.main) (D.faults cache.new.main)) ⊥) }
    ensures failed { IfErr result IsFault }
    ensures later { D.faults cache.old.main ≤ D.faults cache.new.main }
{
    let Ok(()) = cache.write_turn(at) else {
        return Err(BlockError::Fault(DiskFault::Write));
    };
    Ok(false)
}

// Settles what was written.
fn sync_next<D: Disk>(cache: &mut Cache<D>) -> Result<bool, BlockError>
    requires due { IsDue (parts cache.old.mind [] 0).turns }
    ensures idle { IfOk result (λ b. b ≡ false) }
    ensures settles { Settles (D.state cache.old.main) (D.state cache.new.main) (parts cache.old.mind [] 0) (parts cache.new.mind [] 0) }
    ensures less { OnOk result (work (parts cache.new.mind [] 0).turns < work (parts cache.old.mind [] 0).turns) }
    ensures calls { AtMost (work (parts cache.old.mind [] 0).turns) (D.calls cache.old.main) (D.calls cache.new.main) }
    ensures spent { OnOk result (D.calls cache.new.main + work (parts cache.new.mind [] 0).turns ≤ D.calls cache.old.main + work (parts cache.old.mind [] 0).turns) }
    ensures size { D.size cache.new.main ≡ D.size cache.old.main }
    ensures cause { IfErr result (Caused ⊥ (λ b. ⊥) (Rose (D.faults cache.old.main) (D.faults cache.new.main)) ⊥) }
    ensures failed { IfErr result IsFault }
    ensures later { D.faults cache.old.main ≤ D.faults cache.new.main }
{
    let Ok(()) = cache.sync_turn() else {
        return Err(BlockError::Fault(DiskFault::Sync));
    };
    Ok(false)
}

// Does what is to be done next, and answers whether that was nothing. Else less is left to do.
fn take_turn<D: Disk>(cache: &mut Cache<D>) -> Result<bool, BlockError>
    requires free { (b : ℕ) → IsPinned (parts cache.old.mind [] 0).held b → ⊥ }
    ensures idle { IfOk result (λ b. b ≡ true → IsQuiet (parts cache.new.mind [] 0).turns) }
    ensures settles { Settles (D.state cache.old.main) (D.state cache.new.main) (parts cache.old.mind [] 0) (parts cache.new.mind [] 0) }
    ensures less { IfOk result (λ b. b ≡ false → work (parts cache.new.mind [] 0).turns < work (parts cache.old.mind [] 0).turns) }
    ensures calls { AtMost (work (parts cache.old.mind [] 0).turns) (D.calls cache.old.main) (D.calls cache.new.main) }
    ensures spent { OnOk result (D.calls cache.new.main + work (parts cache.new.mind [] 0).turns ≤ D.calls cache.old.main + work (parts cache.old.mind [] 0).turns) }
    ensures size { D.size cache.new.main ≡ D.size cache.old.main }
    ensures cause { IfErr result (Caused ⊥ (λ b. ⊥) (Rose (D.faults cache.old.main) (D.faults cache.new.main)) ⊥) }
    ensures failed { IfErr result IsFault }
    ensures later { D.faults cache.old.main ≤ D.faults cache.new.main }
{
    match cache.next_turn() {
        Turn::Idle => Ok(true),
        Turn::Write(at) => write_next(cache, at),
        Turn::Sync => sync_next(cache),
    }
}

/// Takes turns until none is left, where nothing is pinned. It fails only where the device does.
pub fn take_turns<D: Disk>(cache: &mut Cache<D>) -> Result<(), BlockError>
    requires free { (b : ℕ) → IsPinned (parts cache.old.mind [] 0).held b → ⊥ }
    ensures quiet { OnOk result (IsQuiet (parts cache.new.mind [] 0).turns) }
    ensures settles { Settles (D.state cache.old.main) (D.state cache.new.main) (parts cache.old.mind [] 0) (parts cache.new.mind [] 0) }
    ensures calls { AtMost (work (parts cache.old.mind [] 0).turns) (D.calls cache.old.main) (D.calls cache.new.main) }
    ensures size { D.size cache.new.main ≡ D.size cache.old.main }
    ensures cause { IfErr result (Caused ⊥ (λ b. ⊥) (Rose (D.faults cache.old.main) (D.faults cache.new.main)) ⊥) }
    ensures failed { IfErr result IsFault }
    ensures later { D.faults cache.old.main ≤ D.faults cache.new.main }
{
    while !take_turn(cache)? {}
    Ok(())
}
