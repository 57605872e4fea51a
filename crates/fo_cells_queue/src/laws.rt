//! Laws of the removals. Each function does nothing: its contract is the law, so that the law is proved with the crate.
ghost use Rattle.std.specs.Prelude.{◌≡◌, ◌⊎◌, ◌≤◌, ℕ, true, List, [], ◌∷◌, ◌++◌, map};
ghost use Rattle.fo_image.specs.declared.types.Pointer.TheVariants.{Local};
ghost use Rattle.fo_image.specs.declared.types.State.TheVariants.{Live};
ghost use Rattle.fo_image.specs.Usable.{is_usable};
ghost use Rattle.fo_crash.specs.declared.slot.Slot.{Slot};
ghost use Rattle.fo_crash.specs.declared.place.Place.{Place};
ghost use Rattle.fo_crash.specs.Images.{Content, target};
ghost use Rattle.fo_crash.specs.Places.{place_below};
ghost use Rattle.fo_cells_epochs.specs.of_cells.Known.{Known, Top, IsClear, Stands};
ghost use Rattle.fo_cells_epochs.specs.of_cells.Writes.{Gives};
ghost use Rattle.fo_cells_epochs.specs.of_cells_out.Parents.{Tree, Stays, view, making};
ghost use Rattle.fo_cells_epochs.specs.of_cells_out.Removals.{Pending};
ghost use Rattle.fo_cells_epochs.specs.Epochs.{Root, IsRead, HasEpochs, KeepsTrees, RaisesLow, from_tops, root_top};
ghost use Rattle.fo_cells_queue.specs.Queue.{Queued, IsQueue, MovesQueue, NewLabel, IsSetAfter, past_blocks, closed_at, first_past, uncovering};

/// Blocks that are divided, in whatever form a cache has that.
pub trait Queues {
    /// The tree of memory, what was made, what is covered.
    ghost tree: { Self → Tree };
}

/// A write, a sync, the end of a wait, other bytes, a slot that begins to wait. (`KeepsTrees` is given by `fo_cells_epochs`, `Stays` by `fo_cells_out`.)
pub fn queue_stays<Q: Queues>(_q: &Q)
    ensures still { (old new : Known) (high : ℕ) (before after : List Top) (roots : List Root) (past : List Queued) (queue : List Pending) → Stays old new (Q.tree _q.now) → KeepsTrees old new before after roots → ((b : ℕ) → (Q.tree _q.now).Covered b ⊎ (Q.tree _q.now).Made b → new.label b ≡ old.label b) → IsQueue old (Q.tree _q.now) high before roots past queue → IsQueue new (Q.tree _q.now) high after roots past queue }
{}

/// A put and a clearing: what they queue was within.
pub fn queue_grows<Q: Queues>(_q: &Q, _u: &Q)
    ensures moved { (at i high : ℕ) (s : Slot) (high_of : Content → ℕ) (doubts : List Content) (old new : Known) (before after : List Top) (roots : List Root) (past : List Queued) (queue rs : List Pending) → MovesQueue at i s old new (Q.tree _q.now) (Q.tree _u.now) after past queue rs → KeepsTrees old new before after roots → HasEpochs old high high_of doubts before roots → IsQueue old (Q.tree _q.now) high before roots past queue → IsQueue new (Q.tree _u.now) high after roots past (queue ++ rs) }
{}

/// A block that may be given out is in no tree and waits for nothing; it was made then.
pub fn queue_gives<Q: Queues>(_q: &Q)
    ensures outside { (at high : ℕ) (c : Content) (p : Place) (high_of : Content → ℕ) (doubts : List Content) (old new : Known) (active : List Top) (roots : List Root) (past : List Queued) (queue : List Pending) → Gives at c p old new → is_usable old.low (old.label at) ≡ true → HasEpochs old high high_of doubts active roots → IsQueue old (Q.tree _q.now) high active roots past queue → ((Q.tree _q.now).Within at → ⊥) × ((Q.tree _q.now).Covered at ⊎ (Q.tree _q.now).Made at → ⊥) }
    ensures given { (at high : ℕ) (c : Content) (p : Place) (high_of : Content → ℕ) (doubts : List Content) (old new : Known) (active : List Top) (roots : List Root) (past : List Queued) (queue : List Pending) → Gives at c p old new → is_usable old.low (old.label at) ≡ true → (new.label at).state ≡ Live → ((Q.tree _q.now).Older at → ⊥) → ((i b : ℕ) → target (c.slot i) ≡ Local b → (Q.tree _q.now).Within b × Stands (view old active) b (place_below p i (c.slot i))) → HasEpochs old high high_of doubts active roots → IsQueue old (Q.tree _q.now) high active roots past queue → IsQueue new (making (Q.tree _q.now) at) high (record { at = at; place = p } ∷ active) roots past queue }
{}

/// The next block of the first removal is closed at the epoch of that removal, once the block after which it comes is set: all is kept.
pub fn queue_closes<Q: Queues>(_q: &Q)
    ensures earlier { (epoch b after high : ℕ) (bs : List ℕ) (rs : List Queued) (queue : List Pending) (high_of : Content → ℕ) (doubts : List Content) (active : List Top) (roots : List Root) (old new : Known) → NewLabel b (closed_at (old.label b) epoch) old new → IsSetAfter old after → ((i leaf : ℕ) → IsClear old.clears b i leaf → ⊥) → IsRead high_of → HasEpochs old high high_of doubts active roots → IsQueue old (Q.tree _q.now) high active roots (first_past epoch (b ∷ bs) after ∷ rs) queue → HasEpochs new high high_of doubts active roots × IsQueue new (uncovering (Q.tree _q.now) (bs ++ past_blocks rs) queue) high active roots (first_past epoch bs after ∷ rs) queue }
    ensures now { (b after high : ℕ) (bs : List ℕ) (rs : List Pending) (high_of : Content → ℕ) (doubts : List Content) (active : List Top) (roots : List Root) (old new : Known) → NewLabel b (closed_at (old.label b) high) old new → IsSetAfter old after → ((i leaf : ℕ) → IsClear old.clears b i leaf → ⊥) → (old.label b).epoch ≤ high → IsRead high_of → HasEpochs old high high_of doubts active roots → IsQueue old (Q.tree _q.now) high active roots [] (record { blocks = b ∷ bs; after = after } ∷ rs) → HasEpochs new high high_of doubts active roots × IsQueue new (uncovering (Q.tree _q.now) [] (record { blocks = bs; after = after } ∷ rs)) high active roots [] (record { blocks = bs; after = after } ∷ rs) }
    ensures done { (epoch after high : ℕ) (rs : List Queued) (queue : List Pending) (active : List Top) (roots : List Root) (k : Known) → IsQueue k (Q.tree _q.now) high active roots (first_past epoch [] after ∷ rs) queue → IsQueue k (Q.tree _q.now) high active roots rs queue }
    ensures now_done { (after high : ℕ) (rs : List Pending) (active : List Top) (roots : List Root) (k : Known) → IsQueue k (Q.tree _q.now) high active roots [] (record { blocks = []; after = after } ∷ rs) → IsQueue k (Q.tree _q.now) high active roots [] rs }
{}

/// The low epoch rises: removals are seen from fewer roots.
pub fn queue_stays_low<Q: Queues>(_q: &Q)
    ensures low { (low high : ℕ) (active : List Top) (roots kept : List Root) (past : List Queued) (queue : List Pending) (k : Known) → RaisesLow low roots kept → IsQueue k (Q.tree _q.now) high active roots past queue → IsQueue (from_tops k (active ++ map root_top kept) low) (Q.tree _q.now) high active kept past queue }
{}
