//! A record changes in its leaf.
ghost use Rattle.std.specs.Prelude.{◌≡◌, ◌≢◌, ℕ, List, true, false, ◌∷◌, []};
ghost use Rattle.std.specs.List.{Contains};
ghost use Rattle.fo_image.specs.Record.{RecordHolds};
ghost use Rattle.fo_meta.specs.Leaf.{IsLeaf};
ghost use Rattle.fo_dir_put.specs.Names.{AllFit, AllApart, LeavesRest};
ghost use Rattle.fo_dir_put.specs.Differ.{AllDiffer};
ghost use Rattle.fo_dir_put.specs.Once.{StandOnce};
ghost use Rattle.fo_dir_put.specs.Paired.{AllPaired};
ghost use Rattle.fo_dir_put.specs.Puts.{IsOwnedRecords, StaysCalm};
ghost use Rattle.fo_dir_change.specs.Changes.{Bears, HasChanged, IsTooLong, IsSameFile, MayBear, BearsAlone, BearsOnce};
ghost use Rattle.fo_dir_put.specs.of_ports.Sources.{DirtiesIn};

use fo_dir_put::{Blocks, change_leaf};
use fo_image::Record;
use fo_meta::replace;

/// Puts a record in the place of the first of this name, at the end of the leaf, whose bytes are at hand; or answers that it has no room.
pub fn change_record<B: Blocks>(
    on: &mut B,
    leaf: u32,
    name: &[u8],
    named: &Record,
    bytes: &mut [u8],
) -> bool
    requires owned { IsOwnedRecords (B.state on.old) leaf }
    requires bytes { IsLeaf bytes.old × (bytes.old ≡ ((B.state on.old).now leaf).bytes) }
    requires there { Bears name.now (((B.state on.old).now leaf).bytes) }
    requires spelled { RecordHolds named.now }
    ensures changed { result ≡ true → HasChanged name.now named.now (((B.state on.old).now leaf).bytes) (((B.state on.new).now leaf).bytes) }
    ensures full { result ≡ false → IsTooLong name.now named.now (((B.state on.old).now leaf).bytes) × (on.new ≡ on.old) }
    ensures hand { IsLeaf bytes.new × (bytes.new ≡ ((B.state on.new).now leaf).bytes) }
    ensures fit { (n entries : ℕ) → IsSameFile name.now named.now (((B.state on.old).now leaf).bytes) → AllFit n leaf entries (B.state on.old).may_leave → AllFit n leaf entries (B.state on.new).may_leave }
    ensures apart { (b : ℕ) → b ≢ leaf → IsSameFile name.now named.now (((B.state on.old).now leaf).bytes) → MayBear name.now named.now b (B.state on.old).may_leave → AllApart leaf b (B.state on.old).may_leave → AllApart leaf b (B.state on.new).may_leave }
    ensures named { (leaves : List ℕ) → Contains leaves leaf → IsSameFile name.now named.now (((B.state on.old).now leaf).bytes) → BearsAlone name.now named.now leaf leaves (((B.state on.old).now leaf).bytes) (B.state on.old).may_leave → AllDiffer leaves (B.state on.old).may_leave → AllDiffer leaves (B.state on.new).may_leave }
    ensures once { IsSameFile name.now named.now (((B.state on.old).now leaf).bytes) → BearsOnce name.now named.now leaf (((B.state on.old).now leaf).bytes) (B.state on.old).may_leave → StandOnce (B.state on.old).may_leave → StandOnce (B.state on.new).may_leave }
    ensures paired { (n a e : ℕ) → IsSameFile name.now named.now (((B.state on.old).now leaf).bytes) → AllPaired n a e (B.state on.old) → AllPaired n a e (B.state on.new) }
    ensures bytes { (b : ℕ) → b ≢ leaf → ((B.state on.new).now b).bytes ≡ ((B.state on.old).now b).bytes }
    ensures slots { (b j : ℕ) → ((B.state on.new).now b).slot j ≡ ((B.state on.old).now b).slot j }
    ensures others { result ≡ true → LeavesRest leaf (B.state on.old).may_leave (B.state on.new).may_leave }
    ensures calm { result ≡ true → StaysCalm (B.state on.old) (B.state on.new) }
    ensures room { (B.state on.new).room ≡ (B.state on.old).room }
    ensures dirties { DirtiesIn (leaf ∷ []) (B.state on.old) (B.state on.new) }
    ensures keeps { B.keeps on.old on.new }
{
    match replace(bytes, name, named) {
        Ok(()) => {
            change_leaf(on, leaf, bytes);
            true
        }
        Err(_) => false,
    }
}
