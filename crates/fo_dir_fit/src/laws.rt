//! The laws. Each function does nothing: its contract is the law, so that the law is proved with the crate.
ghost use Rattle.std.specs.Prelude.{ℕ};
ghost use Rattle.fo_crash.specs.Images.{Arena, Image, from_block, step};
ghost use Rattle.fo_good.specs.Trees.{Lists};
ghost use Rattle.fo_dir_put.specs.Once.{StandOnce};
ghost use Rattle.fo_dir_names.specs.Example.{both, first, later, records_of, second};
ghost use Rattle.fo_dir_names.specs.Names.{IsOfData};
ghost use Rattle.fo_dir_pairs.specs.Pairs.{PairsStand, PairsStandIn};
ghost use Rattle.fo_dir_fit.specs.Fit.{HaveOneBlock, IsRootDir, ListsPairs};
ghost use Rattle.fo_dir_fit.specs.Rules.{HasLengths, IsSoundApart, IsSoundRoot, KeepsBoth, KeepsPairs};

use fo_ports::Blocks;

/// In one image a spot has one block.
pub fn one_block_at_a_spot<B: Blocks>(on: &B)
    ensures { (B.state on.now).tells → HaveOneBlock (B.state on.now) }
{
    let _ = on;
}

/// Where each record that an image shows has its pair in a block at the entries' spot, each that the image lists in a directory has it in the
/// entries that the image itself reads there.
pub fn pairs_are_listed<B: Blocks>(on: &B)
    ensures { (B.state on.now).tells → PairsStand (B.state on.now) → ListsPairs (B.state on.now) }
{
    let _ = on;
}

/// Where it has, each image keeps the rule of sound images on pairs, if it keeps the rest and its lengths reach the pairs.
pub fn pairs_are_kept<B: Blocks>(on: &B)
    ensures { (B.state on.now).tells → PairsStand (B.state on.now) → KeepsPairs (B.state on.now) }
{
    let _ = on;
}

/// Where records stand once, too, each image keeps the rules on pairs and on names.
pub fn pairs_and_names_are_kept<B: Blocks>(on: &B)
    ensures { (B.state on.now).tells → StandOnce (B.state on.now).may_leave → PairsStand (B.state on.now) → KeepsBoth (B.state on.now) }
{
    let _ = on;
}

/// The entries of a root block as the format has them are those of a directory, and its records are data.
pub fn root_is_a_directory()
    ensures { (arena : Arena) (image : Image) (root : ℕ) → IsSoundRoot image root → IsRootDir arena image root × IsOfData (step arena image (from_block root) 1).slot }
{}

/// There are images of which pairs stand; the later one keeps all that is asked beside, and lists a record in each of two leaves.
pub fn two_leaves_have_pairs()
    ensures stand { PairsStandIn later both }
    ensures beside { (arena : Arena) → IsSoundApart arena later 2 × HasLengths arena later 2 × Lists arena later (records_of arena) 0 0 first × Lists arena later (records_of arena) 1 0 second }
{}
