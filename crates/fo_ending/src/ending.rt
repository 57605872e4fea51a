//! A cache is ended.
ghost use Rattle.std.specs.Prelude.{◌≡◌, ◌+◌, ◌<◌, ◌≤◌, [], length, OnOk, IfErr};
ghost use Rattle.fo_base.specs.Cause.{Rose};
ghost use Rattle.fo_disk.specs.Disk.{IsQuiet, versions_of};
ghost use Rattle.fo_ports.specs.Causes.{Caused};
ghost use Rattle.fo_ports.specs.State.{IsClosing};
ghost use Rattle.fo_mind.specs.MindParts.{parts};
ghost use Rattle.fo_mind.specs.Parts.{state_of};
ghost use Rattle.fo_cache.specs.Supers.{IsFault};
ghost use Rattle.fo_cache.specs.Work.{AtMost, calls_left};
ghost use Rattle.fo_reserving.specs.Steps.{ClosesAtRest};
ghost use Rattle.fo_opening.specs.Finished.{Finished, Settled};
ghost use Rattle.fo_ending.specs.Ended.{Drained, Ended, SameBytes, first_of};

use crate::drain::drain;
use fo_buffers::Block;
use fo_cache::Cache;
use fo_disk::Disk;
use fo_opening::finish;
use fo_ports::BlockError;

// The first failure of two calls.
fn first_failure(
    before: Result<(), BlockError>,
    after: Result<(), BlockError>,
) -> Result<(), BlockError>
    ensures { result ≡ first_of before after }
{
    match before {
        Ok(()) => after,
        Err(why) => Err(why),
    }
}

// Closes all that is queued, where all is settled, and settles that. It is settled, too, where closing fails.
fn close_and_finish<D: Disk>(cache: &mut Cache<D>, spare: Block) -> Result<(), BlockError>
    requires settled { Settled (parts cache.old.mind [] 0) }
    requires some { 0 < length (parts cache.old.mind [] 0).removals }
    ensures drained { OnOk result (Drained (parts cache.old.mind (D.state cache.old.main).holds (D.faults cache.old.main)) (parts cache.new.mind (D.state cache.new.main).holds (D.faults cache.new.main))) }
    ensures finished { OnOk result (Finished (parts cache.old.mind [] 0).one (D.state cache.new.main) (parts cache.new.mind [] 0)) }
    ensures quiet { OnOk result (IsQuiet (D.state cache.new.main).holds) }
    ensures closes { ClosesAtRest (parts cache.old.mind (D.state cache.old.main).holds (D.faults cache.old.main)) (parts cache.new.mind (D.state cache.new.main).holds (D.faults cache.new.main)) }
    ensures bytes { SameBytes (parts cache.old.mind (D.state cache.old.main).holds (D.faults cache.old.main)) (parts cache.new.mind (D.state cache.new.main).holds (D.faults cache.new.main)) }
    ensures header { versions_of (D.state cache.new.main).holds 0 ≡ versions_of (D.state cache.old.main).holds 0 }
    ensures count { length (D.state cache.new.main).holds ≡ length (D.state cache.old.main).holds }
    ensures size { D.size cache.new.main ≡ D.size cache.old.main }
    ensures cause { IfErr result (Caused ⊥ (λ b. ⊥) (Rose (D.faults cache.old.main) (D.faults cache.new.main)) ⊥) }
    ensures failed { IfErr result IsFault }
    ensures later { D.faults cache.old.main ≤ D.faults cache.new.main }
{
    let closed = drain(cache);
    let ended = finish(cache, spare);
    first_failure(closed, ended)
}

/// Ends all pins, settles all, writes the next file number, closes all that is queued, and settles that, for which it is given two blocks
/// of memory. Then the device is quiet, as far as it tells, and no removal is queued. Where it is refused, what was settled until then
/// stays so. It wants no memory.
pub fn end<D: Disk>(cache: &mut Cache<D>, spare: Block, other: Block) -> Result<(), BlockError>
    ensures ended { OnOk result (Ended (parts cache.old.mind (D.state cache.old.main).holds (D.faults cache.old.main)) (parts cache.new.mind (D.state cache.new.main).holds (D.faults cache.new.main))) }
    ensures finished { OnOk result (Finished (parts cache.old.mind [] 0).one (D.state cache.new.main) (parts cache.new.mind [] 0)) }
    ensures quiet { OnOk result (IsQuiet (D.state cache.new.main).holds) }
    ensures closes { ClosesAtRest (parts cache.old.mind (D.state cache.old.main).holds (D.faults cache.old.main)) (parts cache.new.mind (D.state cache.new.main).holds (D.faults cache.new.main)) }
    ensures bytes { (parts cache.old.mind [] 0).clears ≡ [] → SameBytes (parts cache.old.mind (D.state cache.old.main).holds (D.faults cache.old.main)) (parts cache.new.mind (D.state cache.new.main).holds (D.faults cache.new.main)) }
    ensures header { versions_of (D.state cache.new.main).holds 0 ≡ versions_of (D.state cache.old.main).holds 0 }
    ensures count { length (D.state cache.new.main).holds ≡ length (D.state cache.old.main).holds }
    ensures calls { (IsClosing (state_of (parts cache.old.mind [] 0)) → ⊥) → AtMost (calls_left (parts cache.old.mind [] 0) + 2) (D.calls cache.old.main) (D.calls cache.new.main) }
    ensures size { D.size cache.new.main ≡ D.size cache.old.main }
    ensures cause { IfErr result (Caused ⊥ (λ b. ⊥) (Rose (D.faults cache.old.main) (D.faults cache.new.main)) ⊥) }
    ensures failed { IfErr result IsFault }
    ensures later { D.faults cache.old.main ≤ D.faults cache.new.main }
{
    finish(cache, spare)?;
    if cache.mind.queued() == 0 {
        return Ok(());
    }
    close_and_finish(cache, other)
}
