//! All that is queued is closed, where all is settled.
ghost use Rattle.std.specs.Prelude.{◌≡◌, ◌⊎◌, ◌<◌, ◌≤◌, [], true, false, length, OnOk, IfOk, IfErr};
ghost use Rattle.fo_base.specs.Cause.{Rose};
ghost use Rattle.fo_order.specs.Turns.{IsQuiet};
ghost use Rattle.fo_ports.specs.Causes.{Caused};
ghost use Rattle.fo_mind.specs.MindParts.{parts};
ghost use Rattle.fo_cache.specs.Supers.{IsFault};
ghost use Rattle.fo_opening.specs.Finished.{Settled};
ghost use Rattle.fo_ending.specs.Steps.{IsCalm, MayDrain, ShutsOne, Steps, left_of, live_count};

use crate::calm::close_one;
use fo_cache::Cache;
use fo_disk::Disk;
use fo_opening::take_turns;
use fo_ports::BlockError;
use fo_reserving::{close_queued, give_up_all};

// Ends all waits and pins, and gives up what may be: then only what is newborn is held.
fn come_to_rest<D: Disk>(cache: &mut Cache<D>)
    requires settled { Settled (parts cache.old.mind [] 0) }
    ensures quiet { IsQuiet (parts cache.new.mind [] 0).turns }
    ensures calm { IsCalm (parts cache.new.mind [] 0) }
    ensures queue { (parts cache.new.mind [] 0).removals ≡ (parts cache.old.mind [] 0).removals }
    ensures steps { Steps (parts cache.old.mind (D.state cache.old.main).holds (D.faults cache.old.main)) (parts cache.new.mind (D.state cache.new.main).holds (D.faults cache.new.main)) }
    ensures device { cache.new.main ≡ cache.old.main }
{
    cache.waits_over();
    give_up_all(cache);
}

// Settles the labels of what was closed.
fn settle_closed<D: Disk>(cache: &mut Cache<D>) -> Result<(), BlockError>
    requires calm { IsCalm (parts cache.old.mind [] 0) }
    ensures quiet { OnOk result (IsQuiet (parts cache.new.mind [] 0).turns) }
    ensures calm { OnOk result (IsCalm (parts cache.new.mind [] 0)) }
    ensures queue { (parts cache.new.mind [] 0).removals ≡ (parts cache.old.mind [] 0).removals }
    ensures labels { (parts cache.new.mind [] 0).region ≡ (parts cache.old.mind [] 0).region }
    ensures steps { Steps (parts cache.old.mind (D.state cache.old.main).holds (D.faults cache.old.main)) (parts cache.new.mind (D.state cache.new.main).holds (D.faults cache.new.main)) }
    ensures size { D.size cache.new.main ≡ D.size cache.old.main }
    ensures cause { IfErr result (Caused ⊥ (λ b. ⊥) (Rose (D.faults cache.old.main) (D.faults cache.new.main)) ⊥) }
    ensures failed { IfErr result IsFault }
    ensures later { D.faults cache.old.main ≤ D.faults cache.new.main }
{
    take_turns(cache)
}

// What closing answered that stops where memory is wanting: whether no removal is left.
fn left_of(closed: Result<(), BlockError>) -> Result<bool, BlockError>
    ensures { result ≡ left_of closed }
{
    match closed {
        Ok(()) => Ok(true),
        Err(BlockError::Memory) => Ok(false),
        Err(e) => Err(e),
    }
}

// Whether no removal is left.
fn is_empty<D: Disk>(cache: &Cache<D>) -> bool
    ensures none { result ≡ true → (parts cache.now.mind [] 0).removals ≡ [] }
    ensures some { result ≡ false → 0 < length (parts cache.now.mind [] 0).removals }
{
    cache.mind.queued() == 0
}

// Closes what is queued while there is memory for it, and answers whether no removal is left.
fn close_on<D: Disk>(cache: &mut Cache<D>) -> Result<bool, BlockError>
    requires may { MayDrain (parts cache.old.mind [] 0) }
    ensures over { IfOk result (λ over. over ≡ true → (parts cache.new.mind [] 0).removals ≡ []) }
    ensures calm { IsCalm (parts cache.new.mind [] 0) }
    ensures fewer { live_count (parts cache.new.mind [] 0).region ≤ live_count (parts cache.old.mind [] 0).region }
    ensures steps { Steps (parts cache.old.mind (D.state cache.old.main).holds (D.faults cache.old.main)) (parts cache.new.mind (D.state cache.new.main).holds (D.faults cache.new.main)) }
    ensures size { D.size cache.new.main ≡ D.size cache.old.main }
    ensures cause { IfErr result (Caused ⊥ (λ b. ⊥) (Rose (D.faults cache.old.main) (D.faults cache.new.main)) ⊥) }
    ensures failed { IfErr result IsFault }
    ensures later { D.faults cache.old.main ≤ D.faults cache.new.main }
{
    let closed = close_queued(cache, u32::MAX);
    left_of(closed)
}

// Closes the next block of what is queued, for which no memory is wanted.
fn close_first<D: Disk>(cache: &mut Cache<D>) -> Result<(), BlockError>
    requires may { MayDrain (parts cache.old.mind [] 0) }
    ensures over { OnOk result (((parts cache.new.mind [] 0).removals ≡ []) ⊎ ShutsOne (parts cache.old.mind [] 0).region (parts cache.new.mind [] 0).region) }
    ensures calm { IsCalm (parts cache.new.mind [] 0) }
    ensures fewer { ShutsOne (parts cache.old.mind [] 0).region (parts cache.new.mind [] 0).region → live_count (parts cache.new.mind [] 0).region < live_count (parts cache.old.mind [] 0).region }
    ensures steps { Steps (parts cache.old.mind (D.state cache.old.main).holds (D.faults cache.old.main)) (parts cache.new.mind (D.state cache.new.main).holds (D.faults cache.new.main)) }
    ensures size { D.size cache.new.main ≡ D.size cache.old.main }
    ensures cause { IfErr result (Caused ⊥ (λ b. ⊥) (Rose (D.faults cache.old.main) (D.faults cache.new.main)) ⊥) }
    ensures failed { IfErr result IsFault }
    ensures later { D.faults cache.old.main ≤ D.faults cache.new.main }
{
    close_one(&mut cache.main, &mut cache.mind)
}

// Closes a block where all is settled, if a removal is queued, and settles its label. No memory is wanted.
fn close_settled<D: Disk>(cache: &mut Cache<D>) -> Result<(), BlockError>
    requires quiet { IsQuiet (parts cache.old.mind [] 0).turns }
    requires calm { IsCalm (parts cache.old.mind [] 0) }
    ensures quiet { OnOk result (IsQuiet (parts cache.new.mind [] 0).turns) }
    ensures calm { OnOk result (IsCalm (parts cache.new.mind [] 0)) }
    ensures less { OnOk result (((parts cache.new.mind [] 0).removals ≡ []) ⊎ (live_count (parts cache.new.mind [] 0).region < live_count (parts cache.old.mind [] 0).region)) }
    ensures steps { Steps (parts cache.old.mind (D.state cache.old.main).holds (D.faults cache.old.main)) (parts cache.new.mind (D.state cache.new.main).holds (D.faults cache.new.main)) }
    ensures size { D.size cache.new.main ≡ D.size cache.old.main }
    ensures cause { IfErr result (Caused ⊥ (λ b. ⊥) (Rose (D.faults cache.old.main) (D.faults cache.new.main)) ⊥) }
    ensures failed { IfErr result IsFault }
    ensures later { D.faults cache.old.main ≤ D.faults cache.new.main }
{
    if is_empty(cache) {
        return Ok(());
    }
    close_first(cache)?;
    settle_closed(cache)
}

// Settles what was closed, and closes a block more, for which no memory is wanted.
fn close_slowly<D: Disk>(cache: &mut Cache<D>) -> Result<(), BlockError>
    requires calm { IsCalm (parts cache.old.mind [] 0) }
    ensures quiet { OnOk result (IsQuiet (parts cache.new.mind [] 0).turns) }
    ensures calm { OnOk result (IsCalm (parts cache.new.mind [] 0)) }
    ensures less { OnOk result (((parts cache.new.mind [] 0).removals ≡ []) ⊎ (live_count (parts cache.new.mind [] 0).region < live_count (parts cache.old.mind [] 0).region)) }
    ensures steps { Steps (parts cache.old.mind (D.state cache.old.main).holds (D.faults cache.old.main)) (parts cache.new.mind (D.state cache.new.main).holds (D.faults cache.new.main)) }
    ensures size { D.size cache.new.main ≡ D.size cache.old.main }
    ensures cause { IfErr result (Caused ⊥ (λ b. ⊥) (Rose (D.faults cache.old.main) (D.faults cache.new.main)) ⊥) }
    ensures failed { IfErr result IsFault }
    ensures later { D.faults cache.old.main ≤ D.faults cache.new.main }
{
    settle_closed(cache)?;
    close_settled(cache)
}

// Closes what is queued, or, where memory is wanting, some of it, and answers whether no removal is left. Else all is settled.
fn close_some<D: Disk>(cache: &mut Cache<D>) -> Result<bool, BlockError>
    requires may { MayDrain (parts cache.old.mind [] 0) }
    ensures over { IfOk result (λ over. over ≡ true → (parts cache.new.mind [] 0).removals ≡ []) }
    ensures again { IfOk result (λ over. over ≡ false → MayDrain (parts cache.new.mind [] 0)) }
    ensures less { IfOk result (λ over. over ≡ false → live_count (parts cache.new.mind [] 0).region < live_count (parts cache.old.mind [] 0).region) }
    ensures steps { Steps (parts cache.old.mind (D.state cache.old.main).holds (D.faults cache.old.main)) (parts cache.new.mind (D.state cache.new.main).holds (D.faults cache.new.main)) }
    ensures size { D.size cache.new.main ≡ D.size cache.old.main }
    ensures cause { IfErr result (Caused ⊥ (λ b. ⊥) (Rose (D.faults cache.old.main) (D.faults cache.new.main)) ⊥) }
    ensures failed { IfErr result IsFault }
    ensures later { D.faults cache.old.main ≤ D.faults cache.new.main }
{
    if close_on(cache)? {
        return Ok(true);
    }
    close_slowly(cache)?;
    Ok(is_empty(cache))
}

// Closes blocks until no removal is left, where one is queued and all is at rest.
fn close_all<D: Disk>(cache: &mut Cache<D>) -> Result<(), BlockError>
    requires may { MayDrain (parts cache.old.mind [] 0) }
    ensures empty { OnOk result ((parts cache.new.mind [] 0).removals ≡ []) }
    ensures steps { Steps (parts cache.old.mind (D.state cache.old.main).holds (D.faults cache.old.main)) (parts cache.new.mind (D.state cache.new.main).holds (D.faults cache.new.main)) }
    ensures size { D.size cache.new.main ≡ D.size cache.old.main }
    ensures cause { IfErr result (Caused ⊥ (λ b. ⊥) (Rose (D.faults cache.old.main) (D.faults cache.new.main)) ⊥) }
    ensures failed { IfErr result IsFault }
    ensures later { D.faults cache.old.main ≤ D.faults cache.new.main }
{
    while !close_some(cache)? {}
    Ok(())
}

/// Closes all that is queued, where all is settled. No memory is wanted: where there is none, each block that is closed is settled before
/// the next one.
pub(crate) fn drain<D: Disk>(cache: &mut Cache<D>) -> Result<(), BlockError>
    requires settled { Settled (parts cache.old.mind [] 0) }
    requires some { 0 < length (parts cache.old.mind [] 0).removals }
    ensures empty { OnOk result ((parts cache.new.mind [] 0).removals ≡ []) }
    ensures clears { (parts cache.new.mind [] 0).clears ≡ [] }
    ensures steps { Steps (parts cache.old.mind (D.state cache.old.main).holds (D.faults cache.old.main)) (parts cache.new.mind (D.state cache.new.main).holds (D.faults cache.new.main)) }
    ensures size { D.size cache.new.main ≡ D.size cache.old.main }
    ensures cause { IfErr result (Caused ⊥ (λ b. ⊥) (Rose (D.faults cache.old.main) (D.faults cache.new.main)) ⊥) }
    ensures failed { IfErr result IsFault }
    ensures later { D.faults cache.old.main ≤ D.faults cache.new.main }
{
    come_to_rest(cache);
    close_all(cache)
}
