//! A record whose leaves are at hand moves.
ghost use Rattle.std.specs.Prelude.{◌≡◌, ◌≢◌, ◌⊎◌, ◌+◌, ◌/◌, ◌<◌, ℕ, List, true, false, IfOk, IfErr, OnErr, ◌∷◌, []};
ghost use Rattle.std.specs.List.{Contains};
ghost use Rattle.fo_base.specs.Cause.{Rose};
ghost use Rattle.fo_image.specs.Record.{RecordHolds};
ghost use Rattle.fo_meta.specs.Leaf.{IsLeaf};
ghost use Rattle.fo_ports.specs.Causes.{Caused};
ghost use Rattle.fo_ports.specs.State.{IsDoomed};
ghost use Rattle.fo_dir_put.specs.Differ.{AllDiffer};
ghost use Rattle.fo_dir_put.specs.Once.{StandOnce};
ghost use Rattle.fo_dir_put.specs.Paired.{AllPaired};
ghost use Rattle.fo_dir_add.specs.Adds.{HasAdded, IsFullFor};
ghost use Rattle.fo_dir_change.specs.Changes.{HasTaken, IsFirstOf};
ghost use Rattle.fo_dir_move.specs.Moves.{MaySettle, AreReady, HasLeaves, AreOfOneDir, MovesAlone, IsSettledBut};
ghost use Rattle.fo_dir_move.specs.Record.{IsBacked};
ghost use Rattle.fo_ports.specs.Sources.{DirtiesIn};

use crate::moves::move_name;
use fo_base::BLOCK;
use fo_image::Record;
use fo_meta::{insert, remove};
use fo_ports::{BlockError, Blocks};

/// The bytes of a leaf without the first record of this name.
fn without_name(leaf: &[u8], name: &[u8]) -> [u8; BLOCK]
    requires { IsLeaf leaf.now }
    ensures leaf { IsLeaf result }
    ensures taken { HasTaken name.now leaf.now result }
{
    let mut bytes = [0; BLOCK];
    bytes.copy_from_slice(leaf);
    let _ = remove(&mut bytes, name);
    bytes
}

/// Moves a record, the first of its name in a leaf, to the end of another, where the bytes of both are at hand; or answers that it has
/// no room there. Where the settling fails both leaves are as they were.
pub fn move_record<B: Blocks>(
    on: &mut B,
    from: u32,
    to: u32,
    entries: u32,
    named: &Record,
    from_bytes: &[u8],
    to_bytes: &mut [u8],
) -> Result<bool, BlockError>
    requires differ { from ≢ to }
    requires ready { AreReady (B.state on.old) from to entries }
    requires may { (B.state on.old).tells → MaySettle (B.state on.old) from to entries }
    requires room { 0 < (B.state on.old).room }
    requires from_bytes { IsLeaf from_bytes.now × (from_bytes.now ≡ ((B.state on.old).now from).bytes) }
    requires to_bytes { IsLeaf to_bytes.old × (to_bytes.old ≡ ((B.state on.old).now to).bytes) }
    requires first { IsFirstOf named.now.name (((B.state on.old).now from).bytes) named.now }
    requires spelled { RecordHolds named.now }
    ensures moved { IfOk result (λ fits. fits ≡ true → HasTaken named.now.name (((B.state on.old).now from).bytes) (((B.state on.new).now from).bytes) × HasAdded named.now (((B.state on.old).now to).bytes) (((B.state on.new).now to).bytes)) }
    ensures full { IfOk result (λ fits. fits ≡ false → IsFullFor named.now (((B.state on.old).now to).bytes) × (on.new ≡ on.old)) }
    ensures stays { OnErr result (HasLeaves from to (((B.state on.old).now from).bytes) (((B.state on.old).now to).bytes) (B.state on.new)) }
    ensures named { (leaves : List ℕ) → Contains leaves from → Contains leaves to → AllDiffer leaves (B.state on.old).may_leave → AllDiffer leaves (B.state on.new).may_leave }
    ensures once { ((B.state on.old).tells → AreOfOneDir from to (B.state on.old)) → StandOnce (B.state on.old).may_leave → StandOnce (B.state on.new).may_leave }
    ensures paired { (n a e : ℕ) → (named.now.slot / 102 ≡ n → (e ≡ entries) × IsBacked entries named.now (B.state on.old)) → (B.state on.old).pinned e ⊎ (IsDoomed (B.state on.old) e → ⊥) → AllPaired n a e (B.state on.old) → AllPaired n a e (B.state on.new) }
    ensures alone { IfOk result (λ fits. fits ≡ true → MovesAlone from to (B.state on.old) (B.state on.new)) × OnErr result (MovesAlone from to (B.state on.old) (B.state on.new)) }
    ensures ready { AreReady (B.state on.new) from to entries }
    ensures settled { IfOk result (λ fits. fits ≡ true → IsSettledBut to (B.state on.new)) }
    ensures room { IfOk result (λ fits. fits ≡ true → (B.state on.new).room + 1 ≡ (B.state on.old).room) × OnErr result ((B.state on.new).room + 1 ≡ (B.state on.old).room) }
    ensures cause { IfErr result (Caused ⊥ (λ b. ⊥) (Rose (B.state on.old).faults (B.state on.new).faults) ⊥) }
    ensures dirties { DirtiesIn (from ∷ to ∷ []) (B.state on.old) (B.state on.new) }
    ensures keeps { B.keeps on.old on.new }
{
    match insert(to_bytes, named) {
        Err(_) => Ok(false),
        Ok(()) => {
            let left = without_name(from_bytes, named.name.as_slice());
            match move_name(on, from, to, entries, &left, from_bytes, to_bytes) {
                Ok(()) => Ok(true),
                Err(why) => Err(why),
            }
        }
    }
}
