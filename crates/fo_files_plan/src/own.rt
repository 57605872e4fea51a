//! A way that was planned is owned.
ghost use Rattle.std.specs.Prelude.{◌≡◌, ◌+◌, ◌<◌, ◌≤◌, ℕ, length, slice_index, ◌∷◌, [], ◌*◌};
ghost use Rattle.fo_ports.specs.Sources.{most_to_own, AddsDirty, Dirties};
ghost use Rattle.fo_files_way.specs.of_tree_shorten.Shorten.{EntryAt};
ghost use Rattle.fo_files_way.specs.Plan.{IsLeafReady, IsPlanned, AreBlocks, most_for_levels};
ghost use Rattle.fo_files_way.specs.Owns.{Owns, IsTag, IsIn, IsAboveLeaves, AreCarried, AreLinked, IsOwned};
ghost use Rattle.fo_files_plan.specs.Owned.{AreOwned};

use fo_files_way::{Level, Plan, own_linked};
use fo_ports::Blocks;

/// Owns each leaf of a plan, links its source, and gives the addresses of the blocks then: the root block, and behind it the leaves.
pub fn own_way<B: Blocks>(plan: Plan, on: &mut B) -> Vec<u32>
    requires silent { (B.state on.old).tells → ⊥ }
    requires plan { IsPlanned (B.state on.old) plan }
    requires spare { most_for_levels plan.levels.items ≤ (B.state on.old).spare }
    ensures owns { Owns (IsIn plan.at.items) (IsAboveLeaves plan.levels.items) (IsTag plan.tags.items) (B.state on.old) (B.state on.new) }
    ensures carried { AreCarried (B.state on.old) (B.state on.new) plan.levels.items plan.at.items result.items }
    ensures linked { AreLinked (B.state on.new) result.items 0 plan.levels.items }
    ensures owned { AreOwned (B.state on.new) result.items }
    ensures spare { (B.state on.old).spare ≤ (B.state on.new).spare + most_for_levels plan.levels.items }
    ensures dirties { Dirties (2 * most_for_levels plan.levels.items + 1) (IsIn result.items) (B.state on.old) (B.state on.new) }
    ensures keeps { B.keeps on.old on.new }
{
    let Plan {
        mut levels,
        mut at,
        tags,
    } = plan;
    let _ = tags;
    let mut k = 0;
    while let Some(level) = levels.pop_front() {
        own_level(level, on, &mut at, k);
        k += 1;
    }
    at
}

/// Owns the leaf of level `k`, links its source, and puts the leaf's address into the list of blocks.
fn own_level<B: Blocks>(level: Level, on: &mut B, at: &mut Vec<u32>, k: usize)
    requires silent { (B.state on.old).tells → ⊥ }
    requires ready { (b : ℕ) × IsLeafReady (B.state on.old) level.source level.leaf b }
    requires entry { EntryAt (B.state on.old) level.source.ways.tree level.source.ways.generation (slice_index at.old.items level.above) level.slot }
    requires within { (level.above < length at.old.items) × (k + 1 < length at.old.items) }
    requires blocks { AreBlocks (B.state on.old) at.old.items }
    requires spare { most_to_own level.source.ways.tree.size level.leaf ≤ (B.state on.old).spare }
    ensures owned { IsOwned (B.state on.old) (B.state on.new) level k at.old.items at.new.items }
    ensures blocks { AreBlocks (B.state on.new) at.new.items }
    ensures spare { (B.state on.old).spare ≤ (B.state on.new).spare + most_to_own level.source.ways.tree.size level.leaf }
    ensures dirties { AddsDirty (2 * most_to_own level.source.ways.tree.size level.leaf) (slice_index at.old.items level.above ∷ []) (slice_index at.new.items (k + 1)) (B.state on.old) (B.state on.new) }
    ensures keeps { B.keeps on.old on.new }
{
    let Level {
        mut source,
        leaf,
        above,
        slot,
    } = level;
    let here = at[above];
    at[k + 1] = own_linked(&mut source, on, leaf, here, slot);
}
