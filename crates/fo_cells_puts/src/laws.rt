//! Laws of puts. The function does nothing: its contract is the law, so that the law is proved with the crate.
ghost use Rattle.std.specs.Prelude.{ℕ};
ghost use Rattle.fo_cells_puts.specs.Putting.{SameSlotKeeps, FillKeeps, LinkKeeps, ComesKeeps, LosesKeeps, MovesSeen};

use fo_cells_steps::Makes;

/// Blocks of which something holds.
pub trait Among {
    /// Whether it holds of this one.
    ghost among: { Self → ℕ → Type 0 };
}

/// A slot is put: it leads where it led; or it is one of a made block; or a made block comes where the slot led nowhere, or in the place of
/// another; or levels are lost. (`_some`: over what a made block is raised; what leaves and is not queued.)
pub fn puts_keep_all<M: Makes, S: Among>(_made: &M, _some: &S)
    ensures same { SameSlotKeeps (M.made _made.now) (M.origins _made.now) }
    ensures filled { FillKeeps (M.made _made.now) (M.origins _made.now) (S.among _some.now) }
    ensures linked { LinkKeeps (M.made _made.now) (M.origins _made.now) }
    ensures came { ComesKeeps (M.made _made.now) (M.origins _made.now) (S.among _some.now) }
    ensures lost { LosesKeeps (M.made _made.now) (M.origins _made.now) (S.among _some.now) }
    ensures moves { MovesSeen (M.made _made.now) (M.origins _made.now) }
{}
