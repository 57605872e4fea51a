//! Leaves that are to be owned.
ghost use Rattle.std.specs.Prelude.{◌≡◌, ◌+◌, ◌<◌, ◌≤◌, ℕ, length, slice_index};
ghost use Rattle.fo_ports.specs.Sources.{most_to_own};
ghost use Rattle.fo_tree_shorten.specs.Shorten.{EntryAt};
ghost use Rattle.fo_files_way.specs.Plan.{IsLeafReady, MayOwnAll, most_for_levels};
ghost use Rattle.fo_files_way.specs.Owns.{Owns, IsTag, IsIn, IsAboveLeaves, AreCarried, AreLinked, AreCurrent, IsOwned};

use crate::own::own_linked;
use fo_files_at::tree::Source;
use fo_ports::Blocks;
use std::collections::VecDeque;

/// A leaf that is to be owned, of this source. The source's entry stands in a slot of block `above` of the plan.
#[derive(Drop)]
pub struct Level {
    pub source: Source,
    pub leaf: u32,
    pub above: usize,
    pub slot: u32,
}

/// Leaves that are to be owned, in this order. Block 0 is the root block, and block n + 1 that in which the leaf of level n stands; beside it
/// the tags of the blocks.
#[derive(Drop)]
pub struct Plan {
    pub levels: VecDeque<Level>,
    pub at: Vec<u32>,
    pub tags: Vec<u32>,
}

impl Plan {
    /// Owns each leaf of a plan, links its source, and gives the addresses of the blocks then.
    pub fn own<B: Blocks>(self, on: &mut B) -> Vec<u32>
        requires silent { (B.state on.old).tells → ⊥ }
        requires may { MayOwnAll (B.state on.old) 0 self.at.items self.tags.items self.levels.items }
        requires spare { most_for_levels self.levels.items ≤ (B.state on.old).spare }
        ensures owns { Owns (IsIn self.at.items) (IsAboveLeaves self.levels.items) (IsTag self.tags.items) (B.state on.old) (B.state on.new) }
        ensures carried { AreCarried (B.state on.old) (B.state on.new) self.levels.items self.at.items result.items }
        ensures linked { AreLinked (B.state on.new) result.items 0 self.levels.items }
        ensures current { AreCurrent (B.state on.new) self.tags.items result.items }
        ensures spare { (B.state on.old).spare ≤ (B.state on.new).spare + most_for_levels self.levels.items }
        ensures keeps { B.keeps on.old on.new }
    {
        let Plan {
            mut levels,
            mut at,
            tags,
        } = self;
        let _ = tags;
        let mut k = 0;
        while let Some(level) = levels.pop_front() {
            own_level(level, on, &mut at, k);
            k += 1;
        }
        at
    }
}

/// Owns the leaf of level `k`, links its source, and puts the leaf's address into the list of blocks.
fn own_level<B: Blocks>(level: Level, on: &mut B, at: &mut Vec<u32>, k: usize)
    requires silent { (B.state on.old).tells → ⊥ }
    requires ready { (b : ℕ) × IsLeafReady (B.state on.old) level.source level.leaf b }
    requires entry { EntryAt (B.state on.old) level.source.ways.tree level.source.ways.generation (slice_index at.old.items level.above) level.slot }
    requires within { (level.above < length at.old.items) × (k + 1 < length at.old.items) }
    requires spare { most_to_own level.source.ways.tree.size level.leaf ≤ (B.state on.old).spare }
    ensures owned { IsOwned (B.state on.old) (B.state on.new) level k at.old.items at.new.items }
    ensures spare { (B.state on.old).spare ≤ (B.state on.new).spare + most_to_own level.source.ways.tree.size level.leaf }
    ensures keeps { B.keeps on.old on.new }
{
    let Level {
        mut source,
        leaf,
        above,
        slot,
    } = level;
    let here = at[above];
    at[k + 1] = own_linked(&mut source, on, leaf, here, slot);
}
