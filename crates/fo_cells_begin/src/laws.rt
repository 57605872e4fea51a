//! Laws of a snapshot. Each function does nothing: its contract is the law, so that the law is proved with the crate.
ghost use Rattle.std.specs.Prelude.{ℕ, suc, List, [], ◌∷◌, ◌++◌};
ghost use Rattle.fo_crash.specs.Images.{Content};
ghost use Rattle.fo_cells.specs.Known.{Known};
ghost use Rattle.fo_cells.specs.Safe.{super_top};
ghost use Rattle.fo_cells_out.specs.Removals.{Pending};
ghost use Rattle.fo_cells_out.specs.Parents.{Tree};
ghost use Rattle.fo_cells_epochs.specs.Epochs.{Root, HasEpochs, kept_root};
ghost use Rattle.fo_cells_queue.specs.Queue.{Queued, IsQueue, past_blocks};
ghost use Rattle.fo_cells_begin.specs.Begin.{BeginsQueue, begun_tree, ended, old_root};

/// Blocks that are divided, in whatever form a cache has that.
pub trait Begins {
    /// The tree of memory, what was made, what is covered.
    ghost tree: { Self → Tree };
}

/// A snapshot begins: the removals of the epoch that ended are of an earlier one, and the old root waits after block 1.
pub fn snapshot_keeps_queue<B: Begins>(_before: &B)
    ensures begun { (root next high : ℕ) (high_of after_high : Content → ℕ) (doubts after : List Content) (roots : List Root) (past : List Queued) (queue : List Pending) (first new : Known) → BeginsQueue root next high first new (B.tree _before.now) queue → HasEpochs first high high_of doubts (super_top ∷ []) roots → HasEpochs new (suc high) after_high after (super_top ∷ []) (kept_root root high ∷ roots) → IsQueue first (B.tree _before.now) high (super_top ∷ []) roots past queue → IsQueue new (begun_tree (B.tree _before.now) root next (past_blocks (past ++ ended high queue))) (suc high) (super_top ∷ []) (kept_root root high ∷ roots) (past ++ ended high queue) (old_root root) }
{}
