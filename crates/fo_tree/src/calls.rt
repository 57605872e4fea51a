//! The calls on a source in a tree.
use crate::put::put;
use crate::source::{Source, with_leaf};
use fo_image::Entry;
use fo_ports::{BlockError, Blocks, Bytes};
use fo_tree_grown::own_leaf;
use fo_tree_trim::is_clear_behind;

impl<B: Blocks> Bytes<B> for Source {
    ghost use Rattle.std.specs.Prelude.{◌≡◌, ◌≢◌, ◌⊎◌, ◌+◌, ◌*◌, ◌/◌, ◌%◌, ◌<◌, ◌≤◌, ℕ, true, refl, length, max};
    ghost use Rattle.fo_image.specs.declared.types.Pointer.{Pointer};
    ghost use Rattle.fo_image.specs.declared.types.Pointer.TheVariants.{Nil, Local};
    ghost use Rattle.fo_crash.specs.Images.{Reaches, to_block};
    ghost use Rattle.fo_sparse.specs.Written.{written, resized};
    ghost use Rattle.fo_ports.specs.State.{none};
    ghost use Rattle.fo_ports.specs.Sources.{IsPlain, IsEnough, Owned, MayZero, Changes, Grows, ComesFor, Dirties, depth_for, is_dir, most_for, most_to_own};
    ghost use Rattle.fo_tree_look.specs.Source.{form_of, leaves_of, Over};
    ghost use Rattle.fo_tree_link.specs.of_tree_down.Clear.{EndsClear};
    ghost use Rattle.fo_tree_trim.specs.of_tree_own.Shown.{ShowsNoMore};
    ghost use Rattle.fo_tree.specs.Writes.{LeavesBeside};
    ghost use Rattle.fo_tree.specs.Laws.{none_held_at, none_from, two_apart, leaf_has, top_has, stands_at, place_at, tag_at, live_at, says_of, keeps_over, keeps_leaves, keeps_current, keeps_clear, keeps_prepared, part_of};

    ghost form = { λ s. form_of s.ways.tree s.ways.generation s.ways.limit };

    ghost size = { λ s. s.ways.tree.size };

    ghost top = { λ s. s.ways.tree.top };

    ghost is_over = { λ s b. Over (B.state b) s.ways.tree s.ways.kept.items s.ways.limit };

    ghost leaves = { λ s b. leaves_of (B.state b) s.ways.tree s.ways.kept.items s.ways.limit };

    ghost is_trimmed = { λ s b. EndsClear (B.state b) s.ways.tree s.ways.kept.items };

    fn len(&self) -> u64 {
        self.ways.len()
    }

    fn entry(&self) -> Entry {
        self.ways.entry()
    }

    fn trimmed(&self, on: &B) -> bool {
        is_clear_behind(&self.ways.tree, &self.ways.kept, on)
    }

    fn read(&mut self, on: &mut B, offset: u64, into: &mut [u8]) -> Result<usize, BlockError> {
        let count = self.ways.read(on, offset, into)?;
        Ok(count)
    }

    fn leaf(&mut self, on: &mut B, i: u32) -> Result<Option<u32>, BlockError> {
        let at = self.ways.leaf(on, i)?;
        Ok(at)
    }

    fn prepare(&mut self, on: &mut B, offset: u64, len: u64) -> Result<(), BlockError> {
        self.ways.prepare(on, offset, len)?;
        Ok(())
    }

    /// As the trait says, and all leaves beside the piece stay, also in each image; no image shows more in a leaf of records.
    fn write(&mut self, on: &mut B, offset: u64, piece: &[u8])
        requires over { Over (B.state on.old) self.old.ways.tree self.old.ways.kept.items self.old.ways.limit }
        requires kind { IsPlain (form_of self.old.ways.tree self.old.ways.generation self.old.ways.limit) }
        requires prepared { (leaves_of (B.state on.old) self.old.ways.tree self.old.ways.kept.items self.old.ways.limit).prepared offset (length piece.now) }
        requires spare { most_for (max self.old.ways.tree.size (offset + length piece.now)) (length piece.now) ≤ (B.state on.old).spare }
        requires trimmed { self.old.ways.tree.size < offset + length piece.now → EndsClear (B.state on.old) self.old.ways.tree self.old.ways.kept.items }
        ensures size { (length piece.now ≡ 0 → self.new.ways.tree.size ≡ self.old.ways.tree.size) × (0 < length piece.now → self.new.ways.tree.size ≡ max self.old.ways.tree.size (offset + length piece.now)) }
        ensures bytes { (B.state on.old).tells → (leaves_of (B.state on.new) self.new.ways.tree self.new.ways.kept.items self.new.ways.limit).bytes ≡ written (leaves_of (B.state on.old) self.old.ways.tree self.old.ways.kept.items self.old.ways.limit).bytes offset piece.now }
        ensures over { Over (B.state on.new) self.new.ways.tree self.new.ways.kept.items self.new.ways.limit × (form_of self.new.ways.tree self.new.ways.generation self.new.ways.limit ≡ form_of self.old.ways.tree self.old.ways.generation self.old.ways.limit) }
        ensures grows { Grows (B.state on.old) (B.state on.new) (leaves_of (B.state on.old) self.old.ways.tree self.old.ways.kept.items self.old.ways.limit) (leaves_of (B.state on.new) self.new.ways.tree self.new.ways.kept.items self.new.ways.limit) }
        ensures spare { (B.state on.old).spare ≤ (B.state on.new).spare + most_for (max self.old.ways.tree.size (offset + length piece.now)) (length piece.now) }
        ensures dirties { Dirties (2 * most_for (max self.old.ways.tree.size (offset + length piece.now)) (length piece.now)) none (B.state on.old) (B.state on.new) }
        ensures room { (B.state on.new).room ≡ (B.state on.old).room }
        ensures trimmed { (B.state on.old).tells ⊎ ((self.old.ways.tree.size ≤ 8192 * (offset / 8192 + 1)) × (offset + length piece.now ≤ 8192 * (offset / 8192 + 1))) → EndsClear (B.state on.old) self.old.ways.tree self.old.ways.kept.items → EndsClear (B.state on.new) self.new.ways.tree self.new.ways.kept.items }
        ensures comes { (B.state on.old).tells → (from : Pointer) → ComesFor (B.state on.old) self.old.ways.tree.top from → ComesFor (B.state on.new) self.new.ways.tree.top from }
        ensures only { (B.state on.old).tells → self.new.ways.tree.top ≢ Nil → (y x : ℕ) → (B.state on.new).instead y x → (self.new.ways.tree.top ≡ Local y) ⊎ ((B.state on.old).instead y x × (self.old.ways.tree.top ≡ Local y → ⊥)) }
        ensures changes { Changes (form_of self.old.ways.tree self.old.ways.generation self.old.ways.limit).tag (leaves_of (B.state on.old) self.old.ways.tree self.old.ways.kept.items self.old.ways.limit).owns (leaves_of (B.state on.old) self.old.ways.tree self.old.ways.kept.items self.old.ways.limit).owns (B.state on.old) (B.state on.new) × B.keeps on.old on.new }
        ensures shows { LeavesBeside (B.state on.old) (B.state on.new) self.old.ways.tree offset (length piece.now) }
        ensures shown { ShowsNoMore (B.state on.old).may_leave (B.state on.new).may_leave }
    {
        if piece.is_empty() {
            return;
        }
        self.ways.tree = put(&self.ways, on, offset, piece);
    }

    fn own_leaf(&mut self, on: &mut B, i: u32) -> u32 {
        let current = own_leaf(&self.ways.tree, &self.ways.kept, on, i);
        self.ways.tree = with_leaf(&self.ways.tree, i, current.top);
        current.at
    }

    ghost bytes_are = { λ s b over. refl };

    ghost none_held = { λ s b i over told other. none_held_at (B.state b) s.ways.tree s.ways.kept.items s.ways.limit over told other i };

    ghost none_behind = { λ s b i over past. none_from (B.state b) s.ways.tree s.ways.kept.items i past };

    ghost in_limit = { λ s b over. over.within };

    ghost apart = { λ s b i j at over told e f. two_apart (B.state b) s.ways.tree s.ways.kept.items s.ways.limit (B.placed b (B.state b).now (B.present b told)) (B.one_place b) over told i j at e f };

    ghost leaf_owned = { λ s b i at over e. leaf_has (B.state b) s.ways.tree i at e };

    ghost top_owned = { λ s b at over e. top_has (B.state b) s.ways.tree at e };

    ghost leaf_stands = { λ s b i at over told e. stands_at (B.state b) s.ways.tree s.ways.kept.items s.ways.limit (B.placed b (B.state b).now (B.present b told)) over told i at e };

    ghost leaf_place = { λ s b i at p over told e stands. place_at (B.state b) s.ways.tree s.ways.kept.items s.ways.limit (B.placed b (B.state b).now (B.present b told)) (B.one_place b) over told i at p e stands };

    ghost owned = { λ s b at p over told has stands. tag_at (B.state b) s.ways.tree s.ways.kept.items s.ways.limit (B.placed b (B.state b).now (B.present b told)) (B.one_place b) over told at p has stands };

    ghost live = { λ s b at over told has. live_at (B.state b) s.ways.tree s.ways.kept.items s.ways.limit over told at has };

    ghost stays = { λ s a b over keeps still. (keeps_over (B.state a) (B.state b) s.ways.tree s.ways.kept.items s.ways.limit (B.keeps_all a b keeps) over (λ told. says_of (B.state a) (B.placed a (B.state a).now (B.present a told)) (B.one_place a) (B.super_stands a told) (λ at p other stands. (B.labelled a at p told other stands).1) (B.active a).0) still, λ told. keeps_leaves (B.state a) (B.state b) s.ways.tree s.ways.kept.items s.ways.limit (B.keeps_all a b keeps) over told (says_of (B.state a) (B.placed a (B.state a).now (B.present a told)) (B.one_place a) (B.super_stands a told) (λ at p other stands. (B.labelled a at p told other stands).1) (B.active a).0) (still told)) };

    ghost still_current = { λ s a b over over_still keeps ready same top. keeps_current (B.state a) (B.state b) s.ways.tree (B.keeps_all a b keeps) same top };

    ghost still_trimmed = { λ s a b over over_still keeps ready clear. keeps_clear (B.state a) (B.state b) s.ways.tree s.ways.kept.items (B.keeps_all a b keeps) ready clear };

    ghost still_prepared = { λ s a b o n over over_still keeps ready was. keeps_prepared (B.state a) (B.state b) s.ways.tree s.ways.kept.items s.ways.limit (B.keeps_all a b keeps) ready o n was };

    ghost prepared_within = { λ s b o n p m was from to. part_of (B.state b) s.ways.tree s.ways.kept.items s.ways.limit o n p m was from to };
}
