//! Blocks are closed until enough are usable.
ghost use Rattle.std.specs.Prelude.{◌≡◌, ◌≢◌, ◌<◌, ◌≤◌, true, false, [], OnOk, IfOk, IfErr};
ghost use Rattle.fo_base.specs.Cause.{Rose};
ghost use Rattle.fo_ports.specs.Causes.{Caused};
ghost use Rattle.fo_unlink.specs.Work.{work};
ghost use Rattle.fo_mind.specs.MindParts.{parts};
ghost use Rattle.fo_mind.specs.Parts.{count_of};
ghost use Rattle.fo_closing.specs.declared.turn.Closing.TheVariants.{Empty};
ghost use Rattle.fo_closing.specs.Closings.{Closings, IsOver};
ghost use Rattle.fo_closing.specs.Leaves.{Leaves};
ghost use Rattle.fo_closing.specs.Rest.{AtRest};

use crate::turn::{Closing, close_next};
use fo_disk::Disk;
use fo_mind::Mind;
use fo_ports::BlockError;

// Whether a turn found that no removal is left.
fn is_last(answer: Closing) -> bool
    ensures last { result ≡ true → answer ≡ Empty }
    ensures more { result ≡ false → answer ≢ Empty }
{
    match answer {
        Closing::Empty => true,
        Closing::Closed(_) | Closing::Stays(_) | Closing::Reads(_) | Closing::GivenUp => false,
    }
}

// Takes a turn, where too few blocks are usable, and answers whether it is over. Else less is left to do.
fn close_more<D: Disk>(main: &mut D, mind: &mut Mind, blocks: u32) -> Result<bool, BlockError>
    requires within { count_of (parts mind.old [] 0).region ≤ D.size main.old }
    requires rest { AtRest (parts mind.old [] 0) }
    ensures over { IfOk result (λ over. over ≡ true → IsOver blocks (parts mind.new [] 0) mind.new.queue) }
    ensures less { IfOk result (λ over. over ≡ false → work mind.new.queue < work mind.old.queue) }
    ensures closes { Closings (D.state main.old).holds (parts mind.old (D.state main.old).holds (D.faults main.old)) (parts mind.new (D.state main.new).holds (D.faults main.new)) mind.old.queue mind.new.queue }
    ensures rest { AtRest (parts mind.new [] 0) }
    ensures count { count_of (parts mind.new [] 0).region ≡ count_of (parts mind.old [] 0).region }
    ensures size { D.size main.new ≡ D.size main.old }
    ensures state { D.state main.new ≡ D.state main.old }
    ensures cause { IfErr result (Caused ⊥ (λ b. ⊥) (Rose (D.faults main.old) (D.faults main.new)) ⊥) }
    ensures later { D.faults main.old ≤ D.faults main.new }
{
    if mind.labels.usable(mind.one.low) >= blocks {
        return Ok(true);
    }
    match close_next(main, mind) {
        Ok(answer) => Ok(is_last(answer)),
        Err(e) => Err(e),
    }
}

/// Closes blocks, over a device and memory at rest, until so many are usable or no removal is left.
pub fn close_until<D: Disk>(main: &mut D, mind: &mut Mind, blocks: u32) -> Result<(), BlockError>
    requires within { count_of (parts mind.old [] 0).region ≤ D.size main.old }
    requires rest { AtRest (parts mind.old [] 0) }
    ensures over { OnOk result (IsOver blocks (parts mind.new [] 0) mind.new.queue) }
    ensures closes { Closings (D.state main.old).holds (parts mind.old (D.state main.old).holds (D.faults main.old)) (parts mind.new (D.state main.new).holds (D.faults main.new)) mind.old.queue mind.new.queue }
    ensures leaves { Leaves (D.state main.old).holds (parts mind.old (D.state main.old).holds (D.faults main.old)) (parts mind.new (D.state main.new).holds (D.faults main.new)) }
    ensures rest { AtRest (parts mind.new [] 0) }
    ensures count { count_of (parts mind.new [] 0).region ≡ count_of (parts mind.old [] 0).region }
    ensures size { D.size main.new ≡ D.size main.old }
    ensures state { D.state main.new ≡ D.state main.old }
    ensures cause { IfErr result (Caused ⊥ (λ b. ⊥) (Rose (D.faults main.old) (D.faults main.new)) ⊥) }
    ensures later { D.faults main.old ≤ D.faults main.new }
{
    while !close_more(main, mind, blocks)? {}
    Ok(())
}
