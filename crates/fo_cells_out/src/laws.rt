//! Laws of what leaves the tree. Each function does nothing: its contract is the law, so that the law is proved with the crate.
ghost use Rattle.std.specs.Prelude.{◌≡◌, ℕ, List, [], ◌∷◌, ◌++◌};
ghost use Rattle.fo_image.specs.declared.types.Label.{Label};
ghost use Rattle.fo_image.specs.declared.types.Pointer.TheVariants.{Local};
ghost use Rattle.fo_crash.specs.declared.slot.Slot.{Slot};
ghost use Rattle.fo_crash.specs.declared.place.Place.{Place};
ghost use Rattle.fo_crash.specs.Images.{Content, target};
ghost use Rattle.fo_cells.specs.Known.{Known, MaySlot, Stands};
ghost use Rattle.fo_cells.specs.Writes.{Relabels, Gives};
ghost use Rattle.fo_cells_out.specs.Removals.{Pending, IsCovered};
ghost use Rattle.fo_cells_out.specs.Parents.{Tree, Points, Moves, Stays, IsDivided, CopiesOnce, GainsOnce, LosesOnce, Same, making, copied_once, gained_once, lost_once};

/// Blocks that are divided, in whatever form a cache has that.
pub trait Divided {
    /// The tree of memory, what was made, what is covered.
    ghost tree: { Self → Tree };
}

/// A write, a sync, the end of a wait, other bytes, a slot that begins to wait, and a block that is given out.
pub fn steps_keep_division<D: Divided>(_divided: &D)
    ensures still { (old new : Known) (before : List ℕ) (queue : List Pending) → Stays old new (D.tree _divided.now) → IsDivided old (D.tree _divided.now) before queue → IsDivided new (D.tree _divided.now) before queue }
    ensures given { (at : ℕ) (c : Content) (p : Place) (old new : Known) (before : List ℕ) (queue : List Pending) → Gives at c p old new → ((D.tree _divided.now).Within at → ⊥) → ((D.tree _divided.now).Made at → ⊥) → ((D.tree _divided.now).Covered at → ⊥) → ((D.tree _divided.now).Older at → ⊥) → ((j b : ℕ) → target (c.slot j) ≡ Local b → (D.tree _divided.now).Within b) → IsDivided old (D.tree _divided.now) before queue → IsDivided new (making (D.tree _divided.now) at) before queue }
{}

/// A slot that leads where it led, and one of a made block.
pub fn moves_keep_division<D: Divided>(_divided: &D)
    ensures same { (at i : ℕ) (s : Slot) (old new : Known) (before : List ℕ) (queue : List Pending) → Same at i s old new (D.tree _divided.now) → IsDivided old (D.tree _divided.now) before queue → IsDivided new (D.tree _divided.now) before queue }
    ensures filled { (at i : ℕ) (s : Slot) (old new : Known) (before : List ℕ) (queue : List Pending) → Moves at i s old new → (D.tree _divided.now).Made at → ((b : ℕ) → target s ≡ Local b → (D.tree _divided.now).Within b) → IsDivided old (D.tree _divided.now) before queue → IsDivided new (D.tree _divided.now) before queue }
{}

/// A copy in the place of its original, levels gained, levels lost.
pub fn puts_keep_division<D: Divided>(_divided: &D)
    ensures copied { (at i : ℕ) (s : Slot) (old new : Known) (x y : ℕ) (before : List ℕ) (queue : List Pending) → CopiesOnce at i s old new (D.tree _divided.now) x y → IsDivided old (D.tree _divided.now) before queue → IsDivided new (copied_once (D.tree _divided.now) x y) before (queue ++ record { blocks = x ∷ []; after = at } ∷ []) }
    ensures gained { (at i : ℕ) (s : Slot) (old new : Known) (x y : ℕ) (before : List ℕ) (queue : List Pending) → GainsOnce at i s old new (D.tree _divided.now) x y → IsDivided old (D.tree _divided.now) before queue → IsDivided new (gained_once (D.tree _divided.now) y) before (queue ++ []) }
    ensures lost { (at i : ℕ) (s : Slot) (old new : Known) (x b : ℕ) (before : List ℕ) (queue : List Pending) → LosesOnce at i s old new (D.tree _divided.now) x b → IsDivided old (D.tree _divided.now) before queue → IsDivided new (lost_once (D.tree _divided.now) x) before (queue ++ record { blocks = x ∷ []; after = at } ∷ []) }
{}

/// The next block of the first removal, whose block is settled, stands nowhere, and may be closed.
pub fn closing_is_safe<D: Divided>(_divided: &D)
    ensures closed { (b after : ℕ) (bs : List ℕ) (rs : List Pending) (l : Label) (old new : Known) → Relabels b l old new → ((i : ℕ) (s : Slot) → MaySlot old after i s → s ≡ (old.memory after).slot i) → IsDivided old (D.tree _divided.now) [] (record { blocks = b ∷ bs; after = after } ∷ rs) → ((p : Place) → Stands old b p → ⊥) × IsDivided new (record (D.tree _divided.now) { Covered = λ a. IsCovered (record { blocks = bs; after = after } ∷ rs) a }) [] (record { blocks = bs; after = after } ∷ rs) }
{}
