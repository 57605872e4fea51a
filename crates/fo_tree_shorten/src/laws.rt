//! What a settling leaves of a source.
ghost use Rattle.std.specs.Prelude.{◌≡◌, ◌⊎◌, ◌<◌, ℕ, false};
ghost use Rattle.fo_ports.specs.State.{Rests, StaysKnown, IsDoomed};
ghost use Rattle.fo_tree_look.specs.Source.{Over, HasBlock, WayReady};
ghost use Rattle.fo_tree_link.specs.of_tree_down.Clear.{last_leaf};
ghost use Rattle.fo_tree_link.specs.Change.{HangsInTree};
ghost use Rattle.fo_tree_trim.specs.Trim.{IsEndCurrent, OnEnd};
ghost use Rattle.fo_tree_shorten.specs.Shorten.{EntryAt};

use fo_ports::Blocks;
use fo_tree_look::Ways;

/// A source of data that hangs from its entry, and from no slot that waits to be cleared, is after a settling as it was: what this crate's
/// calls ask of it, they may ask then.
pub fn stays_settled<B: Blocks>(ways: &Ways, before: &B, after: &B, at: u32, i: u32)
    requires over { Over (B.state before.now) ways.now.tree ways.now.kept.items ways.now.limit }
    requires data { ways.now.tree.dir ≡ false }
    requires entry { EntryAt (B.state before.now) ways.now.tree ways.now.generation at i }
    requires linked { (B.state before.now).tells → HangsInTree (B.state before.now) ways.now.tree at i }
    requires undoomed { (B.state before.now).tells → (b : ℕ) → (b ≡ at) ⊎ HasBlock (B.state before.now) ways.now.tree b → IsDoomed (B.state before.now) b → ⊥ }
    requires keeps { B.keeps before.now after.now }
    requires rests { Rests (B.state before.now) (B.state after.now) }
    requires known { (b : ℕ) → (B.state before.now).pinned b → StaysKnown (B.state before.now) (B.state after.now) b }
    requires blocks { (b : ℕ) → ((B.state after.now).label b ≡ (B.state before.now).label b) × ((B.state before.now).pinned b → (B.state after.now).pinned b) × ((B.state before.now).sealed b → (B.state after.now).sealed b) }
    ensures over { Over (B.state after.now) ways.now.tree ways.now.kept.items ways.now.limit }
    ensures entry { EntryAt (B.state after.now) ways.now.tree ways.now.generation at i }
    ensures linked { (B.state before.now).tells → HangsInTree (B.state after.now) ways.now.tree at i }
    ensures ready { WayReady (B.state before.now) ways.now.tree ways.now.kept.items ways.now.tree.depth (last_leaf ways.now.tree.size) → WayReady (B.state after.now) ways.now.tree ways.now.kept.items ways.now.tree.depth (last_leaf ways.now.tree.size) }
    ensures current { WayReady (B.state before.now) ways.now.tree ways.now.kept.items ways.now.tree.depth (last_leaf ways.now.tree.size) → IsEndCurrent (B.state before.now) ways.now.tree → IsEndCurrent (B.state after.now) ways.now.tree }
    ensures end { WayReady (B.state before.now) ways.now.tree ways.now.kept.items ways.now.tree.depth (last_leaf ways.now.tree.size) → (b : ℕ) → OnEnd (B.state after.now) ways.now.tree b → OnEnd (B.state before.now) ways.now.tree b }
{}
