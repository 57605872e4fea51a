//! A source gets a length.
ghost use Rattle.std.specs.Prelude.{◌≡◌, ◌≢◌, ◌⊎◌, ◌+◌, ◌-◌, ◌*◌, ◌%◌, ◌<◌, ◌≤◌, ℕ, List, false, min, IfOk, IfErr, Err};
ghost use Rattle.std.specs.List.{Contains};
ghost use Rattle.fo_base.specs.Cause.{Rose};
ghost use Rattle.fo_image.specs.declared.types.Score.{Score};
ghost use Rattle.fo_image.specs.declared.types.Pointer.TheVariants.{Score as Held};
ghost use Rattle.fo_sparse.specs.Written.{resized};
ghost use Rattle.fo_ports.specs.Sources.{AddsDirty, DirtiesIn, depth_for};
ghost use Rattle.fo_tree_read.specs.Tree.{block_at};
ghost use Rattle.fo_tree_look.specs.Source.{Over, WayReady, leaves_of};
ghost use Rattle.fo_tree_down.specs.Clear.{EndsClear, last_leaf};
ghost use Rattle.fo_tree_link.specs.Change.{HangsInTree};
ghost use Rattle.fo_tree_trim.specs.of_tree_own.Shown.{ShowsNoMore};
ghost use Rattle.fo_tree_shorten.specs.Shorten.{EntryAt};
ghost use Rattle.fo_tree_set.specs.declared.error.LengthError.TheVariants.{TooBig};
ghost use Rattle.fo_tree_set.specs.Set.{SetsBy, SameForm, LengthCaused, SizeLeft};

use crate::error::LengthError;
use crate::long::set_longer;
use crate::short::set_shorter;
use fo_ports::Blocks;
use fo_tree_look::Ways;

/// Gives a source of data that holds no records this length: it loses the bytes behind it, or gets zeros behind its end. Its entry stands in
/// slot `i` of block `at`, and is put there. The way to the last leaf that stays is prepared.
///
/// A length past the limit is refused. Else what stands behind the shorter one of both ends is cut, once all was settled; where that is
/// refused, the source has the length that it had, or has its shorter one and isn't trimmed. No block is taken for what is between the ends;
/// zeros are put behind the old one in its leaf when the source grows.
pub fn set_len<B: Blocks>(
    ways: &mut Ways,
    on: &mut B,
    at: u32,
    i: u32,
    len: u64,
) -> Result<(), LengthError>
    requires over { Over (B.state on.old) ways.old.tree ways.old.kept.items ways.old.limit }
    requires data { (ways.old.tree.dir ≡ false) × (ways.old.tree.rank % 32 ≢ 16) }
    requires entry { EntryAt (B.state on.old) ways.old.tree ways.old.generation at i }
    requires ready { 0 < ways.old.tree.size → WayReady (B.state on.old) ways.old.tree ways.old.kept.items ways.old.tree.depth (last_leaf (min ways.old.tree.size len)) }
    requires linked { (B.state on.old).tells → HangsInTree (B.state on.old) ways.old.tree at i }
    requires local_down { (B.state on.old).tells → (n : ℕ) (score : Score) → n < ways.old.tree.depth - depth_for len → block_at (B.state on.old) ways.old.tree n 0 ≢ Held score }
    requires calm { (B.state on.old).tells → (b j : ℕ) → (B.state on.old).clearing b j → ⊥ }
    requires spare { ways.old.tree.depth + depth_for len < (B.state on.old).spare }
    requires room { 409 * (ways.old.tree.depth + depth_for len) < (B.state on.old).room }
    ensures too_big { (ways.old.limit < len → result ≡ Err TooBig) × (result ≡ Err TooBig → ways.old.limit < len) }
    ensures is { (ways.new.generation ≡ ways.old.generation) × (ways.new.limit ≡ ways.old.limit) × (ways.new.kept ≡ ways.old.kept) }
    ensures form { SameForm ways.old.tree ways.new.tree }
    ensures size { IfOk result (λ _. ways.new.tree.size ≡ len) }
    ensures left { IfErr result (SizeLeft ways.old.tree.size len ways.new.tree.size) }
    ensures over { Over (B.state on.new) ways.new.tree ways.new.kept.items ways.new.limit }
    ensures entry { EntryAt (B.state on.new) ways.new.tree ways.new.generation at i }
    ensures linked { (B.state on.old).tells → HangsInTree (B.state on.new) ways.new.tree at i }
    ensures clear { IfOk result (λ _. ways.old.tree.size ≢ len → EndsClear (B.state on.new) ways.new.tree ways.new.kept.items) }
    ensures bytes { (B.state on.old).tells → (leaves_of (B.state on.new) ways.new.tree ways.new.kept.items ways.new.limit).bytes ≡ resized (leaves_of (B.state on.old) ways.old.tree ways.old.kept.items ways.old.limit).bytes ways.new.tree.size }
    ensures steps { SetsBy B B.state on.old on.new ways.old.tree ways.new.tree ways.old.kept.items ways.old.generation at i len }
    ensures spare { (B.state on.old).spare ≤ (B.state on.new).spare + (ways.old.tree.depth + depth_for len + 1) }
    ensures dirties { (first : B) (blocks : List ℕ) → DirtiesIn blocks (B.state first) (B.state on.old) → Contains blocks at → AddsDirty (2 * (ways.old.tree.depth + depth_for len + 1)) blocks at (B.state first) (B.state on.new) }
    ensures room { (B.state on.old).room ≤ (B.state on.new).room + (409 * (ways.old.tree.depth + depth_for len) + 1) }
    ensures pins { (B.state on.new).pins_left ≡ (B.state on.old).pins_left }
    ensures cause { IfErr result (LengthCaused (ways.old.limit < len) (Rose (B.state on.old).faults (B.state on.new).faults)) }
    ensures shown { ShowsNoMore (B.state on.old).may_leave (B.state on.new).may_leave }
    ensures keeps { B.keeps on.old on.new }
{
    if len > ways.limit {
        return Err(LengthError::TooBig);
    }
    if len < ways.tree.size {
        return match set_shorter(ways, on, at, i, len) {
            Ok(()) => Ok(()),
            Err(why) => Err(LengthError::Untrimmed(why)),
        };
    }
    if ways.tree.size < len {
        return match set_longer(ways, on, at, i, len) {
            Ok(()) => Ok(()),
            Err(why) => Err(LengthError::Refused(why)),
        };
    }
    Ok(())
}
