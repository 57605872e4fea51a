//! Laws of archives. Each function does nothing: its contract is the law, so that the law is proved with the crate.
ghost use Rattle.fo_arch_tree.specs.Tree.{StoredIsTree, SoundIsReadable};

/// Where the forms of all that was stored are held, a root of an archive that is held gives the archive of the root block's tree.
pub fn stored_is_the_snapshot()
    ensures { StoredIsTree }
{}

/// The trees of sound images are readable: the active one's and those of snapshots.
pub fn sound_trees_are_readable()
    ensures { SoundIsReadable }
{}
