//! Laws against leaks. Each function does nothing: its contract is the law, so that the law is proved with the crate.
ghost use Rattle.std.specs.Prelude.{◌≡◌, ℕ, List, [], ◌∷◌};
ghost use Rattle.fo_crash.specs.declared.place.Place.{Place};
ghost use Rattle.fo_crash.specs.Images.{Content};
ghost use Rattle.fo_cells.specs.Known.{Known, Top};
ghost use Rattle.fo_cells.specs.Writes.{Gives};
ghost use Rattle.fo_cells_out.specs.Removals.{Pending};
ghost use Rattle.fo_cells_out.specs.Parents.{Tree, making, copied_once, gained_once, lost_once};
ghost use Rattle.fo_cells_queue.specs.of_cells_epochs.Epochs.{Root, HasEpochs};
ghost use Rattle.fo_cells_queue.specs.Queue.{Queued};
ghost use Rattle.fo_cells_lost.specs.Lost.{LosesOnly, KeepsKept, MovesOnly, AreShared, ClosesOne, SharesStill};

/// The division of blocks, and what a call may lose.
pub trait Gaps {
    /// The tree of memory, what was made, what is covered.
    ghost tree: { Self → Tree };

    /// What hangs from the entries of a source that leaves, which no removal follows.
    ghost gap: { Self → ℕ → Type 0 };
}

/// A step after which labels are as they were loses nothing but its gap; a block that is given out isn't lost.
pub fn steps_lose_none<G: Gaps>(_before: &G, _after: &G)
    ensures moved { (old new : Known) (high : ℕ) (high_of : Content → ℕ) (doubts : List Content) (active : List Top) (roots : List Root) → MovesOnly (G.tree _before.now) (G.tree _after.now) (G.gap _after.now) → KeepsKept old new roots → new.low ≡ old.low → new.label ≡ old.label → HasEpochs old high high_of doubts active roots → LosesOnly old new (G.tree _before.now) (G.tree _after.now) roots (G.gap _after.now) }
    ensures same { MovesOnly (G.tree _before.now) (G.tree _before.now) (λ b. ⊥) }
    ensures copied { (x y : ℕ) → MovesOnly (G.tree _before.now) (copied_once (G.tree _before.now) x y) (λ b. ⊥) }
    ensures gained { (y : ℕ) → MovesOnly (G.tree _before.now) (gained_once (G.tree _before.now) y) (λ b. ⊥) }
    ensures lost { (x : ℕ) → MovesOnly (G.tree _before.now) (lost_once (G.tree _before.now) x) (λ b. ⊥) }
    ensures given { (at high : ℕ) (c : Content) (p : Place) (high_of : Content → ℕ) (doubts : List Content) (active : List Top) (roots : List Root) (old new : Known) → Gives at c p old new → HasEpochs old high high_of doubts active roots → LosesOnly old new (G.tree _before.now) (making (G.tree _before.now) at) roots (λ b. ⊥) }
{}

/// A block that is closed may be given out, or the kept tree of the epoch before has it.
pub fn closing_loses_none<G: Gaps>(_before: &G, _after: &G)
    ensures closed { (b epoch high : ℕ) (high_of : Content → ℕ) (doubts : List Content) (active : List Top) (roots : List Root) (past : List Queued) (queue : List Pending) (old new : Known) → ClosesOne b epoch old new (G.tree _before.now) (G.tree _after.now) high past queue → HasEpochs old high high_of doubts active roots → AreShared old (G.tree _before.now) high roots past queue → LosesOnly old new (G.tree _before.now) (G.tree _after.now) roots (λ a. ⊥) }
    ensures shared { (high : ℕ) (high_of : Content → ℕ) (doubts : List Content) (active : List Top) (roots : List Root) (past after : List Queued) (queue rest : List Pending) (old new : Known) → SharesStill old new (G.tree _before.now) (G.tree _after.now) high past after queue rest → KeepsKept old new roots → HasEpochs old high high_of doubts active roots → AreShared old (G.tree _before.now) high roots past queue → AreShared new (G.tree _after.now) high roots after rest }
{}
