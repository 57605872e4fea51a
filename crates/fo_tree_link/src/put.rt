//! A source is linked.
ghost use Rattle.std.specs.Prelude.{◌≡◌, ◌≢◌, ◌⊎◌, ◌<◌, ◌≤◌, ℕ, List};
ghost use Rattle.std.specs.List.{Contains};
ghost use Rattle.fo_image.specs.declared.types.Kind.TheVariants.{Dir};
ghost use Rattle.fo_image.specs.declared.types.Pointer.TheVariants.{Local};
ghost use Rattle.fo_crash.specs.declared.slot.Slot.TheVariants.{Entry as Head};
ghost use Rattle.fo_crash.specs.Images.{Reaches, target, walk, to_block};
ghost use Rattle.fo_crash.specs.Names.{SameUse};
ghost use Rattle.fo_crash.specs.Steps.{PutsSlot, AddsSlot, Covers};
ghost use Rattle.fo_ports.specs.Blocks.{cost, dropped, zeros};
ghost use Rattle.fo_ports.specs.State.{Frame, Hangs, KeepsOrder, AddsNoWait, IsPointers, none};
ghost use Rattle.fo_ports.specs.Sources.{StaysInPlace, StaysReady, ComesFor, DirtiesIn};
ghost use Rattle.fo_shown.specs.Shown.{ShowsNoMore};
ghost use Rattle.fo_shown.specs.Alike.{LeadsAlike};
ghost use Rattle.fo_tree_look.specs.Source.{Over, HasBlock};
ghost use Rattle.fo_tree_open.specs.Open.{HasEntry};
ghost use Rattle.fo_tree_link.specs.Link.{entry_of, CanLink};
ghost use Rattle.fo_tree_link.specs.Change.{HangsInTree};

use fo_crash::Slot;
use fo_image::Entry;
use fo_ports::Blocks;
use fo_tree_look::Ways;

/// Puts the source's entry, as it is now, into slot `i` of block `at`, a pinned and current leaf of entries or root block, where its old
/// entry stands: in the same use, and not waiting to be cleared. Of levels that the source loses the tops are pinned.
pub fn link<B: Blocks>(ways: &Ways, on: &mut B, at: u32, i: u32)
    requires over { Over (B.state on.old) ways.now.tree ways.now.kept.items ways.now.limit }
    requires pinned { (B.state on.old).pinned at }
    requires current { ((B.state on.old).label at).epoch ≡ (B.state on.old).high }
    requires leaf { HasEntry ((B.state on.old).label at).kind i }
    requires settled { (B.state on.old).clearing at i → ⊥ }
    requires same_use { SameUse (Head (entry_of ways.now.tree ways.now.generation)) (((B.state on.old).now at).slot i) }
    requires other { (b : ℕ) → ways.now.tree.top ≡ Local b → b ≢ at }
    requires room { cost (((B.state on.old).now at).slot i) (Head (entry_of ways.now.tree ways.now.generation)) ≤ (B.state on.old).room }
    requires tops { (n x : ℕ) → n < dropped (((B.state on.old).now at).slot i) (Head (entry_of ways.now.tree ways.now.generation)) → target (walk (B.state on.old).now (((B.state on.old).now at).slot i) (zeros n)) ≡ Local x → (B.state on.old).pinned x }
    requires told { (B.state on.old).tells → CanLink (B.state on.old) ways.now.tree ways.now.generation at i }
    ensures now { PutsSlot at i (Head (entry_of ways.now.tree ways.now.generation)) (B.state on.old).now (B.state on.new).now }
    ensures images { AddsSlot (B.state on.old).now at i (Head (entry_of ways.now.tree ways.now.generation)) (λ image. Unit {0}) (B.state on.old).may_leave (B.state on.new).may_leave }
    ensures shown { LeadsAlike (B.state on.old).may_leave (B.state on.old).now at i (Head (entry_of ways.now.tree ways.now.generation)) → ShowsNoMore (B.state on.old).may_leave (B.state on.new).may_leave }
    ensures over { Over (B.state on.new) ways.now.tree ways.now.kept.items ways.now.limit }
    ensures put { (b : ℕ) → ways.now.tree.top ≡ Local b → (B.state on.new).apart b → ⊥ }
    ensures comes { ComesFor (B.state on.new) ways.now.tree.top ways.now.tree.top }
    ensures instead { (y x : ℕ) → (B.state on.new).instead y x → (B.state on.old).instead y x × (ways.now.tree.top ≡ Local y → ⊥) }
    ensures linked { (B.state on.old).tells → (b : ℕ) → Reaches (B.state on.old).now (Head (entry_of ways.now.tree ways.now.generation)) b → Reaches (B.state on.new).now (to_block 1) b }
    ensures owned { (B.state on.old).tells → (b : ℕ) → HasBlock (B.state on.new) ways.now.tree b → Reaches (B.state on.new).now (to_block 1) b }
    ensures again { (B.state on.old).tells → ((y x : ℕ) → (B.state on.old).instead y x → ways.now.tree.top ≡ Local y) → HangsInTree (B.state on.new) ways.now.tree at i }
    ensures in_tree { (B.state on.old).tells → (b : ℕ) → (Reaches (B.state on.old).now (((B.state on.old).now at).slot i) b → ⊥) → Reaches (B.state on.old).now (to_block 1) b → Reaches (B.state on.new).now (to_block 1) b }
    ensures in_place { (B.state on.old).tells → (b : ℕ) → (b ≢ at) ⊎ (((B.state on.old).label b).kind ≡ Dir 0) → Reaches (B.state on.new).now (to_block 1) b → StaysInPlace (B.state on.old) (B.state on.new) b }
    ensures ready { (b : ℕ) → (b ≢ at) ⊎ (((B.state on.old).label b).kind ≡ Dir 0) → (B.state on.old).pinned b → StaysReady (B.state on.old) (B.state on.new) b }
    ensures bytes { (b : ℕ) → ((B.state on.new).now b).bytes ≡ ((B.state on.old).now b).bytes }
    ensures frame { Frame (λ b. b ≡ at) (λ b. (b ≡ at) ⊎ (ways.now.tree.top ≡ Local b)) (cost (((B.state on.old).now at).slot i) (Head (entry_of ways.now.tree ways.now.generation))) (B.state on.old) (B.state on.new) }
    ensures hangs { Hangs at i (Head (entry_of ways.now.tree ways.now.generation)) (B.state on.old) (B.state on.new) }
    ensures order { KeepsOrder none (B.state on.old) (B.state on.new) }
    ensures no_wait { AddsNoWait none (B.state on.old) (B.state on.new) }
    ensures covers { (B.state on.old).tells → Covers (IsPointers (B.state on.old)) (((B.state on.old).now at).slot i) (B.state on.old).now (B.state on.new).now (B.state on.old).covered (B.state on.new).covered }
    ensures dirties { (first : B) (blocks : List ℕ) → DirtiesIn blocks (B.state first) (B.state on.old) → Contains blocks at → DirtiesIn blocks (B.state first) (B.state on.new) }
    ensures keeps { B.keeps on.old on.new }
{
    let entry = entry_of(ways);
    on.put_slot(at, i, Slot::Entry(entry));
}

/// The source's entry.
fn entry_of(ways: &Ways) -> Entry
    ensures { result ≡ entry_of ways.now.tree ways.now.generation }
{
    ways.entry()
}
