//! A record is taken out.
ghost use Rattle.std.specs.Prelude.{◌≡◌, ◌≢◌, ℕ, List, true, false, ◌∷◌, []};
ghost use Rattle.fo_meta.specs.Leaf.{IsLeaf};
ghost use Rattle.fo_dir_put.specs.Names.{AllFit, AllApart, LeavesRest};
ghost use Rattle.fo_dir_put.specs.Differ.{AllDiffer};
ghost use Rattle.fo_dir_put.specs.Once.{StandOnce};
ghost use Rattle.fo_dir_put.specs.Paired.{AllPaired};
ghost use Rattle.fo_dir_put.specs.Puts.{IsOwnedRecords, QueuesNone, StaysCalm};
ghost use Rattle.fo_dir_change.specs.Changes.{Bears, BearsNot, HasTaken};
ghost use Rattle.fo_dir_put.specs.of_ports.Sources.{DirtiesIn};

use fo_dir_put::{Blocks, change_leaf};
use fo_meta::remove;

/// Takes the first record of this name out of a leaf, whose bytes are at hand; or answers that it has none.
pub fn take_record<B: Blocks>(on: &mut B, leaf: u32, name: &[u8], bytes: &mut [u8]) -> bool
    requires owned { IsOwnedRecords (B.state on.old) leaf }
    requires bytes { IsLeaf bytes.old × (bytes.old ≡ ((B.state on.old).now leaf).bytes) }
    ensures taken { result ≡ true → Bears name.now (((B.state on.old).now leaf).bytes) × HasTaken name.now (((B.state on.old).now leaf).bytes) (((B.state on.new).now leaf).bytes) }
    ensures none { result ≡ false → BearsNot name.now (((B.state on.old).now leaf).bytes) × (on.new ≡ on.old) }
    ensures hand { IsLeaf bytes.new × (bytes.new ≡ ((B.state on.new).now leaf).bytes) }
    ensures fit { (n entries : ℕ) → AllFit n leaf entries (B.state on.old).may_leave → AllFit n leaf entries (B.state on.new).may_leave }
    ensures apart { (b : ℕ) → b ≢ leaf → AllApart leaf b (B.state on.old).may_leave → AllApart leaf b (B.state on.new).may_leave }
    ensures named { (leaves : List ℕ) → AllDiffer leaves (B.state on.old).may_leave → AllDiffer leaves (B.state on.new).may_leave }
    ensures once { StandOnce (B.state on.old).may_leave → StandOnce (B.state on.new).may_leave }
    ensures paired { (n a e : ℕ) → AllPaired n a e (B.state on.old) → AllPaired n a e (B.state on.new) }
    ensures bytes { (b : ℕ) → b ≢ leaf → ((B.state on.new).now b).bytes ≡ ((B.state on.old).now b).bytes }
    ensures slots { (b j : ℕ) → ((B.state on.new).now b).slot j ≡ ((B.state on.old).now b).slot j }
    ensures others { result ≡ true → LeavesRest leaf (B.state on.old).may_leave (B.state on.new).may_leave }
    ensures calm { result ≡ true → StaysCalm (B.state on.old) (B.state on.new) }
    ensures queues { result ≡ true → QueuesNone (B.state on.old) (B.state on.new) }
    ensures room { (B.state on.new).room ≡ (B.state on.old).room }
    ensures dirties { DirtiesIn (leaf ∷ []) (B.state on.old) (B.state on.new) }
    ensures keeps { B.keeps on.old on.new }
{
    if !remove(bytes, name) {
        return false;
    }
    change_leaf(on, leaf, bytes);
    true
}
