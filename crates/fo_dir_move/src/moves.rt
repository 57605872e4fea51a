//! A record moves to another leaf.
ghost use Rattle.std.specs.Prelude.{◌≡◌, ◌≢◌, ◌+◌, ◌<◌, ℕ, List, IfErr, OnOk, OnErr, ◌∷◌, []};
ghost use Rattle.fo_base.specs.Cause.{Rose};
ghost use Rattle.fo_crash.specs.Images.{Reaches, to_block};
ghost use Rattle.fo_crash.specs.Steps.{AddsNothing, AllAre};
ghost use Rattle.fo_meta.specs.Leaf.{IsLeaf};
ghost use Rattle.fo_ports.specs.Causes.{Caused};
ghost use Rattle.fo_ports.specs.State.{Rests, StaysKnown};
ghost use Rattle.std.specs.List.{Contains};
ghost use Rattle.fo_dir_put.specs.Names.{AllFit, AllApart};
ghost use Rattle.fo_dir_put.specs.Differ.{AreDistinct, AllDiffer};
ghost use Rattle.fo_dir_put.specs.Once.{StandOnce};
ghost use Rattle.fo_dir_put.specs.Paired.{AllPaired};
ghost use Rattle.fo_dir_move.specs.Moves.{MaySettle, AreReady, KeepsEntries, HasLeaves, MayMove, MovesKeys, AreOfOneDir, MovesAlone, MovesPaired, IsSettledBut};
ghost use Rattle.fo_ports.specs.Sources.{DirtiesIn};

use fo_dir_put::{change_leaf, put_record};
use fo_ports::{BlockError, Blocks};

/// Settles between the two halves of a move.
fn settle_between<B: Blocks>(on: &mut B, from: u32, to: u32, entries: u32) -> Result<(), BlockError>
    requires ready { AreReady (B.state on.old) from to entries }
    requires may { (B.state on.old).tells → MaySettle (B.state on.old) from to entries }
    ensures ready { AreReady (B.state on.new) from to entries }
    ensures leaves { HasLeaves from to (((B.state on.old).now from).bytes) (((B.state on.old).now to).bytes) (B.state on.new) }
    ensures entries { KeepsEntries entries (B.state on.old) (B.state on.new) }
    ensures all { OnOk result (AllAre (B.state on.new).now (B.state on.new).may_leave) }
    ensures images { AddsNothing (B.state on.old).may_leave (B.state on.new).may_leave }
    ensures rests { Rests (B.state on.old) (B.state on.new) }
    ensures known { (b : ℕ) → (B.state on.old).pinned b → StaysKnown (B.state on.old) (B.state on.new) b }
    ensures blocks { (b : ℕ) → ((B.state on.new).label b ≡ (B.state on.old).label b) × ((B.state on.old).pinned b → (B.state on.new).pinned b) × ((B.state on.old).sealed b → (B.state on.new).sealed b) }
    ensures none { OnOk result ((b j : ℕ) → (B.state on.new).clearing b j → ⊥) }
    ensures sealed { OnOk result ((B.state on.old).tells → (b : ℕ) → Reaches (B.state on.new).now (to_block 1) b → (B.state on.new).sealed b) }
    ensures left { ((B.state on.new).spare ≡ (B.state on.old).spare) × ((B.state on.new).pins_left ≡ (B.state on.old).pins_left) }
    ensures room { (B.state on.new).room ≡ (B.state on.old).room }
    ensures cause { IfErr result (Caused ⊥ (λ b. ⊥) (Rose (B.state on.old).faults (B.state on.new).faults) ⊥) }
    ensures keeps { B.keeps on.old on.new }
{
    match on.settle() {
        Ok(()) => Ok(()),
        Err(why) => Err(why),
    }
}

/// Takes a record out of a leaf, settles, and puts it into another. Where the settling fails it is put back.
pub fn move_name<B: Blocks>(
    on: &mut B,
    from: u32,
    to: u32,
    entries: u32,
    without: &[u8],
    back: &[u8],
    with: &[u8],
) -> Result<(), BlockError>
    requires differ { from ≢ to }
    requires ready { AreReady (B.state on.old) from to entries }
    requires may { (B.state on.old).tells → MaySettle (B.state on.old) from to entries }
    requires room { 0 < (B.state on.old).room }
    requires bytes { IsLeaf without.now × IsLeaf with.now }
    requires back { IsLeaf back.now × (back.now ≡ ((B.state on.old).now from).bytes) }
    ensures moved { OnOk result (HasLeaves from to without.now with.now (B.state on.new)) }
    ensures stays { OnErr result (HasLeaves from to (((B.state on.old).now from).bytes) (((B.state on.old).now to).bytes) (B.state on.new)) }
    ensures fit { (n : ℕ) → MayMove n from to entries without.now with.now (B.state on.old) → AllFit n from entries (B.state on.old).may_leave → AllFit n to entries (B.state on.old).may_leave → AllFit n from entries (B.state on.new).may_leave × AllFit n to entries (B.state on.new).may_leave }
    ensures apart { (b : ℕ) → b ≢ from → b ≢ to → MovesKeys (((B.state on.old).now from).bytes) (((B.state on.old).now to).bytes) without.now with.now → AllApart from b (B.state on.old).may_leave → AllApart to b (B.state on.old).may_leave → AllApart from b (B.state on.new).may_leave × AllApart to b (B.state on.new).may_leave }
    ensures between { MovesKeys (((B.state on.old).now from).bytes) (((B.state on.old).now to).bytes) without.now with.now → AllApart from to (B.state on.old).may_leave → AllApart from to (B.state on.new).may_leave }
    ensures named { (leaves : List ℕ) → Contains leaves from → Contains leaves to → MovesKeys (((B.state on.old).now from).bytes) (((B.state on.old).now to).bytes) without.now with.now → AreDistinct without.now → AreDistinct with.now → AllDiffer leaves (B.state on.old).may_leave → AllDiffer leaves (B.state on.new).may_leave }
    ensures once { ((B.state on.old).tells → AreOfOneDir from to (B.state on.old)) → MovesKeys (((B.state on.old).now from).bytes) (((B.state on.old).now to).bytes) without.now with.now → AreDistinct without.now → AreDistinct with.now → StandOnce (B.state on.old).may_leave → StandOnce (B.state on.new).may_leave }
    ensures paired { (n a e : ℕ) → MovesPaired n a from to e entries without.now with.now (B.state on.old) → AllPaired n a e (B.state on.old) → AllPaired n a e (B.state on.new) }
    ensures alone { MovesAlone from to (B.state on.old) (B.state on.new) }
    ensures ready { AreReady (B.state on.new) from to entries }
    ensures settled { OnOk result (IsSettledBut to (B.state on.new)) }
    ensures room { (B.state on.new).room + 1 ≡ (B.state on.old).room }
    ensures cause { IfErr result (Caused ⊥ (λ b. ⊥) (Rose (B.state on.old).faults (B.state on.new).faults) ⊥) }
    ensures dirties { DirtiesIn (from ∷ to ∷ []) (B.state on.old) (B.state on.new) }
    ensures keeps { B.keeps on.old on.new }
{
    change_leaf(on, from, without);
    match settle_between(on, from, to, entries) {
        Ok(()) => {
            put_record(on, to, entries, with);
            Ok(())
        }
        Err(why) => {
            put_record(on, from, entries, back);
            Err(why)
        }
    }
}
