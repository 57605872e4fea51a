//! A cache is finished: the device has all of it.
ghost use Rattle.std.specs.Prelude.{◌≡◌, ◌+◌, ◌<◌, ◌≤◌, ◌^◌, ℕ, [], true, false, length, OnOk, IfErr};
ghost use Rattle.fo_base.specs.Cause.{Rose};
ghost use Rattle.fo_disk.specs.Disk.{IsQuiet, versions_of};
ghost use Rattle.fo_image.specs.Format.{SuperHolds};
ghost use Rattle.fo_ports.specs.Causes.{Caused};
ghost use Rattle.fo_mind.specs.MindParts.{parts};
ghost use Rattle.fo_mind.specs.Parts.{bytes_at};
ghost use Rattle.fo_cache.specs.Supers.{IsFault};
ghost use Rattle.fo_cache.specs.Work.{AtMost, calls_left};
ghost use Rattle.fo_reserving.specs.of_settling.Clearings.{Clearings, Lasts};
ghost use Rattle.fo_opening.specs.Ending.{Ending};
ghost use Rattle.fo_opening.specs.Finished.{Ends, Finished, Settled, saved_number};

use crate::rounds::settle_all;
use fo_buffers::Block;
use fo_cache::Cache;
use fo_disk::Disk;
use fo_image::Super;
use fo_ports::BlockError;
use fo_reserving::unpin_all;

// The next file number, or the one after it, where that was granted and isn't taken.
fn saved_number(next: u32, granted: bool) -> u32
    requires { next ≤ 2 ^ 30 }
    ensures { result ≡ saved_number next granted }
{
    if granted {
        return next + 1;
    }
    next.max(1)
}

// Writes this super block with the next file number.
fn save_number<D: Disk>(cache: &mut Cache<D>, one: Super, spare: Block) -> Result<(), BlockError>
    requires settled { Settled (parts cache.old.mind [] 0) }
    requires spelled { SuperHolds one }
    requires root { one.active ≡ (parts cache.old.mind [] 0).one.active }
    requires high { one.high ≡ (parts cache.old.mind [] 0).one.high }
    requires low { one.low ≡ (parts cache.old.mind [] 0).one.low }
    ensures finished { OnOk result (Finished one (D.state cache.new.main) (parts cache.new.mind [] 0)) }
    ensures quiet { OnOk result (IsQuiet (D.state cache.new.main).holds) }
    ensures ending { Ending (D.state cache.old.main) (D.state cache.new.main) (D.faults cache.old.main) (D.faults cache.new.main) (parts cache.old.mind [] 0) (parts cache.new.mind [] 0) }
    ensures lasts { Lasts (parts cache.old.mind (D.state cache.old.main).holds (D.faults cache.old.main)) (parts cache.new.mind (D.state cache.new.main).holds (D.faults cache.new.main)) }
    ensures calls { AtMost 2 (D.calls cache.old.main) (D.calls cache.new.main) }
    ensures size { D.size cache.new.main ≡ D.size cache.old.main }
    ensures cause { IfErr result (Caused ⊥ (λ b. ⊥) (Rose (D.faults cache.old.main) (D.faults cache.new.main)) ⊥) }
    ensures failed { IfErr result IsFault }
    ensures later { D.faults cache.old.main ≤ D.faults cache.new.main }
{
    let numbers = saved_number(cache.mind.next(), cache.mind.granted);
    cache.write_super(Super { numbers, ..one }, spare)?;
    Ok(())
}

/// Ends all pins, settles all, and writes the next file number into the super block, for which it is given a block of memory. Then the
/// device is quiet, as far as it tells. Where it is refused, what was settled until then stays so, and the super block may be in doubt; it
/// may be called again. It wants no memory.
pub fn finish<D: Disk>(cache: &mut Cache<D>, spare: Block) -> Result<(), BlockError>
    ensures finished { OnOk result (Finished (parts cache.old.mind [] 0).one (D.state cache.new.main) (parts cache.new.mind [] 0)) }
    ensures quiet { OnOk result (IsQuiet (D.state cache.new.main).holds) }
    ensures header { versions_of (D.state cache.new.main).holds 0 ≡ versions_of (D.state cache.old.main).holds 0 }
    ensures count { length (D.state cache.new.main).holds ≡ length (D.state cache.old.main).holds }
    ensures ends { Ends (parts cache.old.mind (D.state cache.old.main).holds (D.faults cache.old.main)) (parts cache.new.mind (D.state cache.new.main).holds (D.faults cache.new.main)) }
    ensures clears { Clearings (parts cache.old.mind (D.state cache.old.main).holds (D.faults cache.old.main)) (parts cache.new.mind (D.state cache.new.main).holds (D.faults cache.new.main)) }
    ensures bytes { (parts cache.old.mind [] 0).clears ≡ [] → (b : ℕ) → (parts cache.old.mind [] 0).region.first ≤ b → b < length (D.state cache.old.main).holds → bytes_at (parts cache.new.mind [] 0).held (D.state cache.new.main).holds b ≡ bytes_at (parts cache.old.mind [] 0).held (D.state cache.old.main).holds b }
    ensures calls { AtMost (calls_left (parts cache.old.mind [] 0) + 2) (D.calls cache.old.main) (D.calls cache.new.main) }
    ensures size { D.size cache.new.main ≡ D.size cache.old.main }
    ensures cause { IfErr result (Caused ⊥ (λ b. ⊥) (Rose (D.faults cache.old.main) (D.faults cache.new.main)) ⊥) }
    ensures failed { IfErr result IsFault }
    ensures later { D.faults cache.old.main ≤ D.faults cache.new.main }
{
    let one = cache.mind.one();
    unpin_all(cache);
    settle_all(cache)?;
    save_number(cache, one, spare)
}
