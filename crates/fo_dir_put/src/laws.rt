//! A law. The function does nothing: its contract is the law, so that the law is proved with the crate.
ghost use Rattle.fo_shown.specs.Shown.{ShowsNoMore};
ghost use Rattle.fo_dir_put.specs.Once.{StandOnce};

use fo_ports::Blocks;

/// Where images show no more, what they show of records stands once, as it did.
pub fn stands_once<B: Blocks>(before: &B, after: &B)
    requires shown { ShowsNoMore (B.state before.now).may_leave (B.state after.now).may_leave }
    requires once { StandOnce (B.state before.now).may_leave }
    ensures { StandOnce (B.state after.now).may_leave }
{}
