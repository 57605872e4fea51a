//! Laws of calls in memory. Each function does nothing: its contract is the law, so that the law is proved with the crate.
ghost use Rattle.std.specs.Prelude.{ℕ};
ghost use Rattle.fo_cells_out.specs.Origins.{Origins};
ghost use Rattle.fo_cells_steps.specs.Calls.{PutBytesKeeps, WaitForKeeps, RemoveLaterKeeps, EndKeeps};
ghost use Rattle.fo_cells_steps.specs.Taking.{RemoveSlotKeeps, ClearingKeeps};

/// What a cache keeps of made blocks, in whatever form.
pub trait Makes {
    /// The blocks that were made and are not linked yet.
    ghost made: { Self → ℕ → Type 0 };

    /// What they are copies of, and in whose place they come.
    ghost origins: { Self → Origins };
}

/// Bytes are put, a leaf waits for more, a slot begins to wait, and a wait ends: slots of memory stay.
pub fn quiet_calls_keep_all<M: Makes>(_made: &M)
    ensures bytes { PutBytesKeeps (M.made _made.now) (M.origins _made.now) }
    ensures waits { WaitForKeeps (M.made _made.now) (M.origins _made.now) }
    ensures later { RemoveLaterKeeps (M.made _made.now) (M.origins _made.now) }
    ensures end { EndKeeps (M.made _made.now) (M.origins _made.now) }
{}

/// A slot of the tree is cleared, at once or after it waited: what hung from it leaves the tree, and its blocks are queued.
pub fn removals_keep_all<M: Makes>(_made: &M)
    ensures at_once { RemoveSlotKeeps (M.made _made.now) (M.origins _made.now) }
    ensures cleared { ClearingKeeps (M.made _made.now) (M.origins _made.now) }
{}
