//! Pinned blocks are sealed.
ghost use Rattle.std.specs.Prelude.{◌≡◌, ◌<◌, ◌≤◌, ℕ, true, length};
ghost use Rattle.std.specs.List.{Contains};
ghost use Rattle.fo_disk.specs.Disk.{Content as Holds};
ghost use Rattle.fo_mind.specs.MindParts.{parts};
ghost use Rattle.fo_mind.specs.Sealed.{IsSealedIn, Seals, SealsPinned};

use crate::mind::Mind;
use fo_facts::{Fact, Facts};

// A block is sealed, where it is in the tree.
fn seal_one(facts: &mut Facts, at: u32)
    ensures seals { Seals facts.old facts.new }
    ensures here { IsSealedIn facts.new at }
{
    if facts.len() <= at as usize {
        return;
    }
    let fact = facts.get(at);
    let sealed = fact.sealed || fact.linked;
    facts.set(at, Fact { sealed, ..fact });
}

// Each of these blocks is sealed, where it is in the tree.
fn seal_each(facts: &mut Facts, list: &[u32])
    ensures seals { Seals facts.old facts.new }
    ensures each { (b : ℕ) → Contains list.now b → IsSealedIn facts.new b }
{
    for at in list {
        seal_one(facts, *at);
    }
}

impl Mind {
    /// Each pinned block that is in the tree is sealed: to be called where all is settled.
    pub fn seal_pinned(&mut self)
        ensures { (disk : Holds) (faults : ℕ) → SealsPinned (parts self.old disk faults) (parts self.new disk faults) }
    {
        seal_each(&mut self.facts, self.buffers.pins());
    }
}
