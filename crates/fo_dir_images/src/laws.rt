//! The laws. Each function does nothing: its contract is the law, so that the law is proved with the crate.
ghost use Rattle.std.specs.Prelude.{ℕ, []};
ghost use Rattle.fo_crash.specs.Images.{Arena, Image};
ghost use Rattle.fo_dir_images.specs.Alone.{KeepsNamesAlone};
ghost use Rattle.fo_dir_images.specs.Leaves.{Entries, Records, IsLeafOf, ReadsDirs, ShowsLeaves};
ghost use Rattle.fo_dir_images.specs.Example.{example};
ghost use Rattle.fo_dir_images.specs.Sources.{ReadsSources};
ghost use Rattle.fo_dir_images.specs.Whole.{PlacesLeaves, ShowsDirs};

use fo_ports::Blocks;

/// The sources of a directory to which names lead are those at its trail of slot pairs.
pub fn names_lead_along_trails()
    ensures { (arena : Arena) (image : Image) (root : ℕ) → ReadsDirs arena image root }
{}

/// The leaves of a source in memory are those of the directory at whose trail its entry stands.
pub fn sources_are_read<B: Blocks>(on: &B)
    ensures { ReadsSources (B.state on.now) }
{
    let _ = on;
}

/// A leaf of a directory that is there in memory is the same leaf in every image.
pub fn leaves_are_shown<B: Blocks>(on: &B)
    ensures { (B.state on.now).tells → ShowsLeaves (B.state on.now) }
{
    let _ = on;
}

/// In the leaves of a directory that are there each image lists records that differ, each with its pair.
pub fn directories_are_shown<B: Blocks>(on: &B)
    ensures { (B.state on.now).tells → ShowsDirs (B.state on.now) }
{
    let _ = on;
}

/// Leaves of a directory that are in place are there.
pub fn leaves_in_place_are_there<B: Blocks>(on: &B)
    ensures { (B.state on.now).tells → PlacesLeaves (B.state on.now) }
{
    let _ = on;
}

/// A name that memory has in no other leaf of a directory's records, where these are in place and sure, no image has in them either.
pub fn names_stand_alone<B: Blocks>(on: &B)
    ensures { (B.state on.now).tells → KeepsNamesAlone (B.state on.now) }
{
    leaves_are_shown(on);
    leaves_in_place_are_there(on);
}

/// Such leaves there are: block 4 is the one leaf of records of the root directory, in an image where it is the top of its source, and in
/// one where a new top was raised over it.
pub fn leaves_exist()
    ensures low { (arena : Arena) → IsLeafOf Records arena (example 0 4) 2 [] 0 4 × IsLeafOf Entries arena (example 0 4) 2 [] 0 3 }
    ensures raised { (arena : Arena) → IsLeafOf Records arena (example 1 5) 2 [] 0 4 × IsLeafOf Entries arena (example 1 5) 2 [] 0 3 }
{}
