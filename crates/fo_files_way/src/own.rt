//! A leaf is owned, and its source linked.
ghost use Rattle.std.specs.Prelude.{◌≡◌, ◌+◌, ◌≤◌, ℕ, ◌∷◌, [], ◌*◌};
ghost use Rattle.fo_ports.specs.Sources.{most_to_own, AddsDirty};
ghost use Rattle.fo_tree_shorten.specs.Shorten.{EntryAt};
ghost use Rattle.fo_files_way.specs.Plan.{IsLeafReady};
ghost use Rattle.fo_files_way.specs.Owns.{OwnsOne};

use fo_files_at::tree::Source;
use fo_ports::{Blocks, Bytes};

/// Owns leaf `i` of a source whose entry stands in slot `j` of block `at`, and puts the source's entry there. Gives the leaf's address.
pub fn own_linked<B: Blocks>(source: &mut Source, on: &mut B, i: u32, at: u32, j: u32) -> u32
    requires silent { (B.state on.old).tells → ⊥ }
    requires ready { (b : ℕ) × IsLeafReady (B.state on.old) source.old i b }
    requires entry { EntryAt (B.state on.old) source.old.ways.tree source.old.ways.generation at j }
    requires spare { most_to_own source.old.ways.tree.size i ≤ (B.state on.old).spare }
    ensures one { OwnsOne (B.state on.old) (B.state on.new) source.old source.new i at j result }
    ensures spare { (B.state on.old).spare ≤ (B.state on.new).spare + most_to_own source.old.ways.tree.size i }
    ensures dirties { AddsDirty (2 * most_to_own source.old.ways.tree.size i) (at ∷ []) result (B.state on.old) (B.state on.new) }
    ensures keeps { B.keeps on.old on.new }
{
    let leaf = source.own_leaf(on, i);
    source.link(on, at, j);
    leaf
}
