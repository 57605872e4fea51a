//! One turn of closing.
ghost use Rattle.std.specs.Prelude.{◌≡◌, ◌<◌, ◌≤◌, ℕ, [], true, Some, length, OnOk, OnErr, IfOk, IfErr};
ghost use Rattle.fo_base.specs.Cause.{Rose};
ghost use Rattle.fo_disk.specs.Disk.{Content as Holds};
ghost use Rattle.fo_ports.specs.Blocks.{AreZeros};
ghost use Rattle.fo_ports.specs.Causes.{Caused};
ghost use Rattle.fo_unlink.specs.Pending.{dropped, first_removal, way_level};
ghost use Rattle.fo_unlink.specs.Work.{work};
ghost use Rattle.fo_mind.specs.MindParts.{parts};
ghost use Rattle.fo_order.specs.Turns.{IsQuiet};
ghost use Rattle.fo_mind.specs.Parts.{IsSure, Parts, count_of};
ghost use Rattle.fo_mind.specs.Turning.{KeepsTurn};
ghost use Rattle.fo_closing.specs.Closed.{Closed, MayClose, MayTurn};
ghost use Rattle.fo_closing.specs.Known.{IsFault, IsWanted, Looked};
ghost use Rattle.fo_closing.specs.Rest.{AtRest};
ghost use Rattle.fo_closing.specs.Turned.{Decided, GivesUp, Turned, Went};

use crate::belongs::{is_closable, kind_below};
use crate::close::{close, close_first, keep_turn};
use crate::looks::show_wanted;
use crate::sure::is_sure;
use fo_base::BLOCK;
use fo_disk::Disk;
use fo_mind::Mind;
use fo_ports::BlockError;
use fo_unlink::{Removal, Step};

/// What a turn of closing did.
#[derive(Clone, Copy, Debug, PartialEq, Eq)]
pub enum Closing {
    /// This block was closed.
    Closed(u32),
    /// This block may not be closed, and stays as it is.
    Stays(u32),
    /// The content of this block is wanted next.
    Reads(u32),
    /// The first removal was given up.
    GivenUp,
    /// No removal is left.
    Empty,
}

fn clear(into: &mut [u8])
    ensures zeros { AreZeros into.new }
    ensures len { length into.new ≡ length into.old }
{
    into.fill(0);
}

// Closes a block, with a turn for which there is room, or, where all is quiet, with the first one.
fn close_by(mind: &mut Mind, at: u32, epoch: u32, quiet: bool)
    requires may { MayClose (parts mind.old [] 0) at epoch }
    requires turn { MayTurn quiet (parts mind.old [] 0) }
    ensures closed { (disk : Holds) (faults : ℕ) → (mid : Parts) × KeepsTurn (parts mind.old disk faults) mid × Closed at epoch mid (parts mind.new disk faults) }
    ensures queue { mind.new.queue ≡ mind.old.queue }
{
    if quiet {
        close_first(mind, at, epoch);
    } else {
        close(mind, at, epoch);
    }
}

// Closes a block that the queue closes now, where it may be closed.
fn decide(mind: &mut Mind, first: &Removal, at: u32, quiet: bool) -> Closing
    requires rest { AtRest (parts mind.old [] 0) }
    requires turn { MayTurn quiet (parts mind.old [] 0) }
    ensures decided { (disk : Holds) (faults : ℕ) → (mid : Parts) × KeepsTurn (parts mind.old disk faults) mid × Decided result first.now (way_level mind.old.queue.way) at mid (parts mind.new disk faults) }
    ensures queue { mind.new.queue ≡ mind.old.queue }
    ensures rest { AtRest (parts mind.new [] 0) }
{
    let kind = kind_below(first.kind, mind.queue.level());
    if !is_closable(mind, first, kind, at) {
        return Closing::Stays(at);
    }
    close_by(mind, at, first.epoch, quiet);
    Closing::Closed(at)
}

// The first removal goes on, with the content of the block that is wanted.
fn go_on(mind: &mut Mind, first: &Removal, block: &[u8], quiet: bool) -> Closing
    requires first { first_removal mind.old.queue ≡ Some first.now }
    requires length { length block.now ≡ 8192 }
    requires rest { AtRest (parts mind.old [] 0) }
    requires turn { MayTurn quiet (parts mind.old [] 0) }
    ensures went { (disk : Holds) (faults : ℕ) → (mid : Parts) × KeepsTurn (parts mind.old disk faults) mid × Went result first.now block.now mid (parts mind.new disk faults) mind.old.queue mind.new.queue }
    ensures less { work mind.new.queue < work mind.old.queue }
    ensures rest { AtRest (parts mind.new [] 0) }
{
    match mind.queue.step(true, block) {
        Step::Reads(at) => Closing::Reads(at),
        Step::Closes(at) => decide(mind, first, at, quiet),
        Step::Waits | Step::Empty => Closing::Empty,
    }
}

// Gives the first removal up.
fn give_up(mind: &mut Mind)
    requires some { 0 < length mind.old.queue.removals }
    requires rest { AtRest (parts mind.old [] 0) }
    ensures is { mind.new.queue ≡ dropped mind.old.queue }
    ensures less { work mind.new.queue < work mind.old.queue }
    ensures parts { (disk : Holds) (faults : ℕ) → parts mind.new disk faults ≡ record (parts mind.old disk faults) { removals = mind.new.queue.removals } }
    ensures rest { AtRest (parts mind.new [] 0) }
{
    mind.queue.drop_first();
}

// Makes ready for a step of the first removal: the content of the block that is wanted, and, where not all is quiet, room for the turn of a
// block of labels.
fn prepare<D: Disk>(
    main: &mut D,
    mind: &mut Mind,
    first: &Removal,
    block: &mut [u8],
    quiet: bool,
) -> Result<(), BlockError>
    requires within { mind.old.count ≤ D.size main.old }
    requires length { length block.old ≡ 8192 }
    requires rest { AtRest (parts mind.old [] 0) }
    requires quiet { quiet ≡ true → IsQuiet (parts mind.old [] 0).turns }
    ensures known { OnOk result (IsWanted (D.state main.old).holds mind.old.labels mind.old.buffers mind.old.queue first.now block.new) }
    ensures turn { OnOk result (MayTurn quiet (parts mind.new [] 0)) }
    ensures failed { quiet ≡ true → IfErr result IsFault }
    ensures len { length block.new ≡ 8192 }
    ensures rest { AtRest (parts mind.new [] 0) }
    ensures looked { Looked (D.state main.old).holds (parts mind.old (D.state main.old).holds (D.faults main.old)) (parts mind.new (D.state main.new).holds (D.faults main.new)) }
    ensures queue { mind.new.queue ≡ mind.old.queue }
    ensures size { D.size main.new ≡ D.size main.old }
    ensures state { D.state main.new ≡ D.state main.old }
    ensures cause { IfErr result (Caused ⊥ (λ b. ⊥) (Rose (D.faults main.old) (D.faults main.new)) ⊥) }
{
    clear(block);
    if let Err(e) = show_wanted(main, mind, first, block) {
        return Err(e);
    }
    if quiet {
        return Ok(());
    }
    let Ok(()) = keep_turn(mind) else {
        return Err(BlockError::Memory);
    };
    Ok(())
}

// Takes one turn of closing, over a device and memory at rest: where all is quiet it wants no memory.
fn take<D: Disk>(main: &mut D, mind: &mut Mind, quiet: bool) -> Result<Closing, BlockError>
    requires within { count_of (parts mind.old [] 0).region ≤ D.size main.old }
    requires rest { AtRest (parts mind.old [] 0) }
    requires quiet { quiet ≡ true → IsQuiet (parts mind.old [] 0).turns }
    ensures turned { IfOk result (λ answer. Turned (D.state main.old).holds answer (parts mind.old (D.state main.old).holds (D.faults main.old)) (parts mind.new (D.state main.new).holds (D.faults main.new)) mind.old.queue mind.new.queue) }
    ensures refused { OnErr result (Looked (D.state main.old).holds (parts mind.old (D.state main.old).holds (D.faults main.old)) (parts mind.new (D.state main.new).holds (D.faults main.new)) × (mind.new.queue ≡ mind.old.queue)) }
    ensures failed { quiet ≡ true → IfErr result IsFault }
    ensures rest { AtRest (parts mind.new [] 0) }
    ensures count { count_of (parts mind.new [] 0).region ≡ count_of (parts mind.old [] 0).region }
    ensures size { D.size main.new ≡ D.size main.old }
    ensures state { D.state main.new ≡ D.state main.old }
    ensures cause { IfErr result (Caused ⊥ (λ b. ⊥) (Rose (D.faults main.old) (D.faults main.new)) ⊥) }
    ensures later { D.faults main.old ≤ D.faults main.new }
{
    let Some(first) = mind.queue.first() else {
        return Ok(Closing::Empty);
    };
    if !is_sure(mind, first.after) {
        give_up(mind);
        return Ok(Closing::GivenUp);
    }
    let mut block = [0; BLOCK];
    if let Err(e) = prepare(main, mind, &first, &mut block, quiet) {
        return Err(e);
    }
    Ok(go_on(mind, &first, &block, quiet))
}

/// Takes one turn of closing, over a device and memory at rest.
pub fn close_next<D: Disk>(main: &mut D, mind: &mut Mind) -> Result<Closing, BlockError>
    requires within { count_of (parts mind.old [] 0).region ≤ D.size main.old }
    requires rest { AtRest (parts mind.old [] 0) }
    ensures turned { IfOk result (λ answer. Turned (D.state main.old).holds answer (parts mind.old (D.state main.old).holds (D.faults main.old)) (parts mind.new (D.state main.new).holds (D.faults main.new)) mind.old.queue mind.new.queue) }
    ensures refused { OnErr result (Looked (D.state main.old).holds (parts mind.old (D.state main.old).holds (D.faults main.old)) (parts mind.new (D.state main.new).holds (D.faults main.new)) × (mind.new.queue ≡ mind.old.queue)) }
    ensures rest { AtRest (parts mind.new [] 0) }
    ensures count { count_of (parts mind.new [] 0).region ≡ count_of (parts mind.old [] 0).region }
    ensures size { D.size main.new ≡ D.size main.old }
    ensures state { D.state main.new ≡ D.state main.old }
    ensures cause { IfErr result (Caused ⊥ (λ b. ⊥) (Rose (D.faults main.old) (D.faults main.new)) ⊥) }
    ensures later { D.faults main.old ≤ D.faults main.new }
{
    take(main, mind, false)
}

/// Takes one turn of closing, over a device and memory at rest where all is quiet. No memory is wanted.
pub fn close_quiet<D: Disk>(main: &mut D, mind: &mut Mind) -> Result<Closing, BlockError>
    requires within { count_of (parts mind.old [] 0).region ≤ D.size main.old }
    requires quiet { IsQuiet (parts mind.old [] 0).turns }
    requires rest { AtRest (parts mind.old [] 0) }
    ensures turned { IfOk result (λ answer. Turned (D.state main.old).holds answer (parts mind.old (D.state main.old).holds (D.faults main.old)) (parts mind.new (D.state main.new).holds (D.faults main.new)) mind.old.queue mind.new.queue) }
    ensures refused { OnErr result (Looked (D.state main.old).holds (parts mind.old (D.state main.old).holds (D.faults main.old)) (parts mind.new (D.state main.new).holds (D.faults main.new)) × (mind.new.queue ≡ mind.old.queue)) }
    ensures failed { IfErr result IsFault }
    ensures rest { AtRest (parts mind.new [] 0) }
    ensures count { count_of (parts mind.new [] 0).region ≡ count_of (parts mind.old [] 0).region }
    ensures size { D.size main.new ≡ D.size main.old }
    ensures state { D.state main.new ≡ D.state main.old }
    ensures cause { IfErr result (Caused ⊥ (λ b. ⊥) (Rose (D.faults main.old) (D.faults main.new)) ⊥) }
    ensures later { D.faults main.old ≤ D.faults main.new }
{
    take(main, mind, true)
}
