//! A piece is put into the data of a file.
ghost use Rattle.std.specs.Prelude.{◌≡◌, ◌⊎◌, ◌+◌, ◌*◌, ◌%◌, ◌/◌, ◌^◌, ◌<◌, ◌≤◌, ℕ, false, length, max, IfOk, IfErr, ◌∷◌, []};
ghost use Rattle.fo_base.specs.Cause.{Rose};
ghost use Rattle.fo_ports.specs.Causes.{Caused};
ghost use Rattle.fo_ports.specs.State.{Looks};
ghost use Rattle.fo_tree_look.specs.Source.{Over, Prepared, form_of};
ghost use Rattle.fo_tree_trim.specs.of_tree_down.Clear.{EndsClear};
ghost use Rattle.fo_tree_shorten.specs.Shorten.{EntryAt};
ghost use Rattle.fo_files_write.specs.Alters.{Alters, is_above, any_kind};
ghost use Rattle.fo_files_write.specs.Data.{SameData, most_of};
ghost use Rattle.fo_ports.specs.Sources.{AddsDirty};

use crate::grow::trim_for;
use fo_ports::{BlockError, Blocks, Bytes};
use fo_tree::Source;

/// Prepares a source for a piece of so many bytes, and trims it where it has to grow.
pub(crate) fn ready_for<B: Blocks>(
    on: &mut B,
    source: &mut Source,
    at: u32,
    slot: u32,
    offset: u64,
    len: u64,
) -> Result<(), BlockError>
    requires silent { (B.state on.old).tells → ⊥ }
    requires over { Over (B.state on.old) source.old.ways.tree source.old.ways.kept.items source.old.ways.limit }
    requires data { source.old.ways.tree.dir ≡ false }
    requires entry { EntryAt (B.state on.old) source.old.ways.tree source.old.ways.generation at slot }
    requires within { offset + len ≤ source.old.ways.limit }
    requires pins { most_of len + 15 ≤ (B.state on.old).pins_left }
    requires spare { 4 ≤ (B.state on.old).spare }
    requires room { 1636 ≤ (B.state on.old).room }
    ensures same { SameData source.old.ways.tree source.new.ways.tree × (source.new.ways.generation ≡ source.old.ways.generation) × (source.new.ways.limit ≡ source.old.ways.limit) }
    ensures over { Over (B.state on.new) source.new.ways.tree source.new.ways.kept.items source.new.ways.limit }
    ensures entry { EntryAt (B.state on.new) source.new.ways.tree source.new.ways.generation at slot }
    ensures prepared { IfOk result (λ _. Prepared (B.state on.new) source.new.ways.tree source.new.ways.kept.items source.new.ways.limit offset len) }
    ensures clear { IfOk result (λ _. source.new.ways.tree.size < offset + len → EndsClear (B.state on.new) source.new.ways.tree source.new.ways.kept.items) }
    ensures alters { Alters at slot source.old.ways.tree.tag is_above (B.state on.old) (B.state on.new) }
    ensures spare { (B.state on.old).spare ≤ (B.state on.new).spare + 4 }
    ensures room { (B.state on.old).room ≤ (B.state on.new).room + 1636 }
    ensures pins { (B.state on.old).pins_left ≤ (B.state on.new).pins_left + (most_of len + 15) }
    ensures dirties { AddsDirty 8 (at ∷ []) at (B.state on.old) (B.state on.new) }
    ensures keeps { B.keeps on.old on.new }
    ensures cause { IfErr result (Caused ⊥ (λ b. (B.state on.old).is_block b ⊎ (b ≡ 1)) (Rose (B.state on.old).faults (B.state on.new).faults) (Rose (B.state on.old).arena_faults (B.state on.new).arena_faults)) }
{
    match trim_for(on, source, at, slot, offset + len) {
        Ok(()) => {}
        Err(why) => return Err(why),
    }
    prepare_piece(on, source, offset, len)
}

/// Prepares the ways to a piece.
fn prepare_piece<B: Blocks>(
    on: &mut B,
    source: &mut Source,
    offset: u64,
    len: u64,
) -> Result<(), BlockError>
    requires silent { (B.state on.old).tells → ⊥ }
    requires over { Over (B.state on.old) source.old.ways.tree source.old.ways.kept.items source.old.ways.limit }
    requires within { offset + len ≤ source.old.ways.limit }
    requires pins { most_of len ≤ (B.state on.old).pins_left }
    ensures same { (source.new.ways.tree ≡ source.old.ways.tree) × (source.new.ways.generation ≡ source.old.ways.generation) × (source.new.ways.limit ≡ source.old.ways.limit) }
    ensures over { Over (B.state on.new) source.new.ways.tree source.new.ways.kept.items source.new.ways.limit }
    ensures prepared { IfOk result (λ _. Prepared (B.state on.new) source.new.ways.tree source.new.ways.kept.items source.new.ways.limit offset len) }
    ensures clear { EndsClear (B.state on.old) source.old.ways.tree source.old.ways.kept.items → EndsClear (B.state on.new) source.new.ways.tree source.new.ways.kept.items }
    ensures pins { (B.state on.old).pins_left ≤ (B.state on.new).pins_left + most_of len }
    ensures looks { Looks (B.state on.old) (B.state on.new) × B.keeps on.old on.new }
    ensures cause { IfErr result (Caused ⊥ (λ b. (B.state on.old).is_block b ⊎ (b ≡ 1)) (Rose (B.state on.old).faults (B.state on.new).faults) (Rose (B.state on.old).arena_faults (B.state on.new).arena_faults)) }
{
    source.ways.prepare(on, offset, len)
}

/// Puts a piece into a source that was made ready for it, and links the source.
pub(crate) fn put<B: Blocks>(
    on: &mut B,
    source: &mut Source,
    at: u32,
    slot: u32,
    offset: u64,
    piece: &[u8],
)
    requires silent { (B.state on.old).tells → ⊥ }
    requires over { Over (B.state on.old) source.old.ways.tree source.old.ways.kept.items source.old.ways.limit }
    requires data { (source.old.ways.tree.dir ≡ false) × (source.old.ways.tree.rank % 32 ≡ 0) }
    requires entry { EntryAt (B.state on.old) source.old.ways.tree source.old.ways.generation at slot }
    requires some { 0 < length piece.now }
    requires prepared { Prepared (B.state on.old) source.old.ways.tree source.old.ways.kept.items source.old.ways.limit offset (length piece.now) }
    requires clear { source.old.ways.tree.size < offset + length piece.now → EndsClear (B.state on.old) source.old.ways.tree source.old.ways.kept.items }
    requires spare { most_of (length piece.now) ≤ (B.state on.old).spare }
    requires room { 1 ≤ (B.state on.old).room }
    ensures same { (source.new.ways.tree.dir ≡ source.old.ways.tree.dir) × (source.new.ways.tree.tag ≡ source.old.ways.tree.tag) × (source.new.ways.generation ≡ source.old.ways.generation) }
    ensures form { form_of source.new.ways.tree source.new.ways.generation source.new.ways.limit ≡ form_of source.old.ways.tree source.old.ways.generation source.old.ways.limit }
    ensures over { Over (B.state on.new) source.new.ways.tree source.new.ways.kept.items source.new.ways.limit }
    ensures prepared { Prepared (B.state on.new) source.new.ways.tree source.new.ways.kept.items source.new.ways.limit offset (length piece.now) }
    ensures size { source.new.ways.tree.size ≡ max source.old.ways.tree.size (offset + length piece.now) }
    ensures entry { EntryAt (B.state on.new) source.new.ways.tree source.new.ways.generation at slot }
    ensures alters { Alters at slot source.old.ways.tree.tag any_kind (B.state on.old) (B.state on.new) }
    ensures spare { (B.state on.old).spare ≤ (B.state on.new).spare + most_of (length piece.now) }
    ensures room { (B.state on.old).room ≤ (B.state on.new).room + 1 }
    ensures pins { (B.state on.new).pins_left ≡ (B.state on.old).pins_left }
    ensures dirties { AddsDirty (2 * most_of (length piece.now)) (at ∷ []) at (B.state on.old) (B.state on.new) }
    ensures keeps { B.keeps on.old on.new }
{
    source.write(on, offset, piece);
    source.link(on, at, slot);
}
