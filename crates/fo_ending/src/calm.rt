//! Turns of closing where all is settled, which want no memory.
ghost use Rattle.std.specs.Prelude.{◌≡◌, ◌⊎◌, ◌<◌, ◌≤◌, [], true, false, OnOk, IfOk, IfErr};
ghost use Rattle.fo_base.specs.Cause.{Rose};
ghost use Rattle.fo_order.specs.Turns.{IsQuiet};
ghost use Rattle.fo_ports.specs.Causes.{Caused};
ghost use Rattle.fo_unlink.specs.Work.{work};
ghost use Rattle.fo_mind.specs.MindParts.{parts};
ghost use Rattle.fo_mind.specs.Parts.{count_of};
ghost use Rattle.fo_cache.specs.Supers.{IsFault};
ghost use Rattle.fo_closing.specs.Closings.{Closings};
ghost use Rattle.fo_closing.specs.Leaves.{Leaves};
ghost use Rattle.fo_closing.specs.Rest.{AtRest};
ghost use Rattle.fo_ending.specs.Steps.{ShutsOne, ends};

use fo_closing::{Closing, close_quiet};
use fo_disk::Disk;
use fo_mind::Mind;
use fo_ports::BlockError;

// Whether a turn closed a block, or found that no removal is left.
fn is_end(answer: Closing) -> bool
    ensures { result ≡ ends answer }
{
    match answer {
        Closing::Closed(_) | Closing::Empty => true,
        Closing::Stays(_) | Closing::Reads(_) | Closing::GivenUp => false,
    }
}

// Takes a turn where all is settled, and answers whether it closed a block or found that no removal is left. Else all is settled still, and
// less is left to do.
fn close_calm<D: Disk>(main: &mut D, mind: &mut Mind) -> Result<bool, BlockError>
    requires within { count_of (parts mind.old [] 0).region ≤ D.size main.old }
    requires quiet { IsQuiet (parts mind.old [] 0).turns }
    requires rest { AtRest (parts mind.old [] 0) }
    ensures over { IfOk result (λ over. over ≡ true → ((parts mind.new [] 0).removals ≡ []) ⊎ ShutsOne (parts mind.old [] 0).region (parts mind.new [] 0).region) }
    ensures calm { IfOk result (λ over. over ≡ false → IsQuiet (parts mind.new [] 0).turns) }
    ensures same { IfOk result (λ over. over ≡ false → (parts mind.new [] 0).region ≡ (parts mind.old [] 0).region) }
    ensures less { IfOk result (λ over. over ≡ false → work mind.new.queue < work mind.old.queue) }
    ensures closes { Closings (D.state main.old).holds (parts mind.old (D.state main.old).holds (D.faults main.old)) (parts mind.new (D.state main.new).holds (D.faults main.new)) mind.old.queue mind.new.queue }
    ensures rest { AtRest (parts mind.new [] 0) }
    ensures count { count_of (parts mind.new [] 0).region ≡ count_of (parts mind.old [] 0).region }
    ensures size { D.size main.new ≡ D.size main.old }
    ensures state { D.state main.new ≡ D.state main.old }
    ensures cause { IfErr result (Caused ⊥ (λ b. ⊥) (Rose (D.faults main.old) (D.faults main.new)) ⊥) }
    ensures failed { IfErr result IsFault }
    ensures later { D.faults main.old ≤ D.faults main.new }
{
    match close_quiet(main, mind) {
        Ok(answer) => Ok(is_end(answer)),
        Err(e) => Err(e),
    }
}

/// Takes turns where all is settled, until a block is closed or no removal is left.
pub(crate) fn close_one<D: Disk>(main: &mut D, mind: &mut Mind) -> Result<(), BlockError>
    requires within { count_of (parts mind.old [] 0).region ≤ D.size main.old }
    requires quiet { IsQuiet (parts mind.old [] 0).turns }
    requires rest { AtRest (parts mind.old [] 0) }
    ensures over { OnOk result (((parts mind.new [] 0).removals ≡ []) ⊎ ShutsOne (parts mind.old [] 0).region (parts mind.new [] 0).region) }
    ensures closes { Closings (D.state main.old).holds (parts mind.old (D.state main.old).holds (D.faults main.old)) (parts mind.new (D.state main.new).holds (D.faults main.new)) mind.old.queue mind.new.queue }
    ensures leaves { Leaves (D.state main.old).holds (parts mind.old (D.state main.old).holds (D.faults main.old)) (parts mind.new (D.state main.new).holds (D.faults main.new)) }
    ensures rest { AtRest (parts mind.new [] 0) }
    ensures count { count_of (parts mind.new [] 0).region ≡ count_of (parts mind.old [] 0).region }
    ensures size { D.size main.new ≡ D.size main.old }
    ensures state { D.state main.new ≡ D.state main.old }
    ensures cause { IfErr result (Caused ⊥ (λ b. ⊥) (Rose (D.faults main.old) (D.faults main.new)) ⊥) }
    ensures failed { IfErr result IsFault }
    ensures later { D.faults main.old ≤ D.faults main.new }
{
    while !close_calm(main, mind)? {}
    Ok(())
}
