//! The entries of a pair.
ghost use Rattle.std.specs.Prelude.{◌≡◌, ◌+◌, ◌*◌, ◌<◌, ◌≤◌, ℕ, List, ◌∷◌, []};
ghost use Rattle.fo_crash.specs.declared.slot.Slot.TheVariants.{Entry as Head};
ghost use Rattle.fo_crash.specs.Steps.{AddsSlot, PutsSlot};
ghost use Rattle.fo_ports.specs.State.{AddsNoWait, none};
ghost use Rattle.fo_shown.specs.Shown.{ShowsNoMore};
ghost use Rattle.fo_dir_put.specs.Names.{AllFit, ShowsBytes};
ghost use Rattle.fo_dir_put.specs.Once.{MayComeOnce};
ghost use Rattle.fo_dir_put.specs.Paired.{AllPaired};
ghost use Rattle.fo_dir_put.specs.Puts.{IsOwnedEntries, IsUnused, IsNewEntry, StaysCalm, PutsPair};
ghost use Rattle.fo_ports.specs.Sources.{DirtiesIn};

use fo_crash::Slot;
use fo_image::Entry;
use fo_ports::Blocks;

/// Puts an entry where none is in use.
fn put_entry<B: Blocks>(on: &mut B, entries: u32, j: u32, entry: Entry)
    requires owned { IsOwnedEntries (B.state on.old) entries }
    requires within { j < 204 }
    requires unused { IsUnused (B.state on.old) entries j }
    requires new { IsNewEntry entry }
    ensures puts { PutsSlot entries j (Head entry) (B.state on.old).now (B.state on.new).now }
    ensures images { AddsSlot (B.state on.old).now entries j (Head entry) (λ image. Unit {0}) (B.state on.old).may_leave (B.state on.new).may_leave }
    ensures shows { ShowsBytes (B.state on.old).may_leave (B.state on.new).may_leave }
    ensures calm { StaysCalm (B.state on.old) (B.state on.new) }
    ensures no_wait { AddsNoWait none (B.state on.old) (B.state on.new) }
    ensures room { (B.state on.new).room ≡ (B.state on.old).room }
    ensures dirties { DirtiesIn (entries ∷ []) (B.state on.old) (B.state on.new) }
    ensures keeps { B.keeps on.old on.new }
{
    on.put_slot(entries, j, Slot::Entry(entry));
}

/// Puts the entries of a free pair of a leaf: the second, and then the first, for which names are made to wait.
pub fn put_pair<B: Blocks>(on: &mut B, entries: u32, p: u32, first: Entry, second: Entry)
    requires owned { IsOwnedEntries (B.state on.old) entries }
    requires within { p < 102 }
    requires first_unused { IsUnused (B.state on.old) entries (2 * p) }
    requires second_unused { IsUnused (B.state on.old) entries (2 * p + 1) }
    requires new { IsNewEntry first × IsNewEntry second }
    ensures puts { PutsPair entries p first second (B.state on.old) (B.state on.new) }
    ensures paired { (n a e : ℕ) → AllPaired n a e (B.state on.old) → AllPaired n a e (B.state on.new) }
    ensures fit { (n leaf : ℕ) → AllFit n leaf entries (B.state on.old).may_leave → AllFit n leaf entries (B.state on.new).may_leave }
    ensures shows { ShowsBytes (B.state on.old).may_leave (B.state on.new).may_leave }
    ensures shown { ShowsNoMore (B.state on.old).may_leave (B.state on.new).may_leave }
    ensures comes { (leaf : ℕ) (bytes was : List ℕ) → MayComeOnce leaf bytes was (B.state on.old).may_leave → MayComeOnce leaf bytes was (B.state on.new).may_leave }
    ensures calm { StaysCalm (B.state on.old) (B.state on.new) }
    ensures no_wait { AddsNoWait none (B.state on.old) (B.state on.new) }
    ensures room { (B.state on.new).room ≡ (B.state on.old).room }
    ensures dirties { DirtiesIn (entries ∷ []) (B.state on.old) (B.state on.new) }
    ensures keeps { B.keeps on.old on.new }
{
    put_entry(on, entries, 2 * p + 1, second);
    put_entry(on, entries, 2 * p, first);
}
