//! Laws of blocks. Each function does nothing: its contract is the law, so that the law is proved with the crate.
ghost use Rattle.fo_cells_blocks.specs.Giving.{NewBlockKeeps, CopyKeeps};
ghost use Rattle.fo_cells_blocks.specs.Closing.{CloseEarlierKeeps, CloseNowKeeps, PastDoneKeeps, DoneKeeps};
ghost use Rattle.fo_cells_blocks.specs.Indexing.{IndexKeeps, AsideKeeps};

use fo_cells_steps::Makes;

/// A block is given out, empty or as a copy of an older one: it is in all images, no path from what stood leads to it, and it was made.
pub fn given_blocks_keep_all<M: Makes>(_made: &M)
    ensures empty { NewBlockKeeps (M.made _made.now) (M.origins _made.now) }
    ensures copied { CopyKeeps (M.made _made.now) (M.origins _made.now) }
{}

/// The next block of the first removal is closed, of an earlier epoch or of the active one, once the block after which it comes is set; and a
/// removal that has nothing left is gone.
pub fn closed_blocks_keep_all<M: Makes>(_made: &M)
    ensures earlier { CloseEarlierKeeps (M.made _made.now) (M.origins _made.now) }
    ensures now { CloseNowKeeps (M.made _made.now) (M.origins _made.now) }
    ensures past_done { PastDoneKeeps (M.made _made.now) (M.origins _made.now) }
    ensures done { DoneKeeps (M.made _made.now) (M.origins _made.now) }
{}

/// A block that was put into no slot yet is at another place; or is queued alone, as a new root that no super block came to name.
pub fn made_blocks_keep_all<M: Makes>(_made: &M)
    ensures indexed { IndexKeeps (M.made _made.now) (M.origins _made.now) }
    ensures aside { AsideKeeps (M.made _made.now) (M.origins _made.now) }
{}
