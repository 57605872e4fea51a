//! The laws. Each function does nothing: its contract is the law, so that the law is proved with the crate.
ghost use Rattle.std.specs.Prelude.{◌∷◌, []};
ghost use Rattle.std.specs.List.{Contains};
ghost use Rattle.fo_crash.specs.Images.{Arena};
ghost use Rattle.fo_crash.specs.Steps.{AllAre};
ghost use Rattle.fo_good.specs.Reading.{leaf_records};
ghost use Rattle.fo_good.specs.Trees.{Lists};
ghost use Rattle.fo_shown.specs.Shown.{IsOfRecords, IsShownAt};
ghost use Rattle.fo_dir_put.specs.Once.{StandOnce};
ghost use Rattle.fo_dir_names.specs.Example.{both, first, later, leaf_of, leaf_spot, records_of, second};
ghost use Rattle.fo_dir_names.specs.Names.{NamesDiffer};
ghost use Rattle.fo_dir_names.specs.Rules.{IsSoundBeside, KeepsNames};
ghost use Rattle.fo_dir_names.specs.Settled.{memory};

use fo_ports::Blocks;

/// Where the records that all images together show of directories stand once, no image lists one name, number or pair twice in a directory,
/// nor one number in two.
pub fn names_differ<B: Blocks>(on: &B)
    ensures { (B.state on.now).tells → StandOnce (B.state on.now).may_leave → NamesDiffer (B.state on.now) }
{
    let _ = on;
}

/// Where they do, each image keeps the rules of sound images on names, if it keeps the rest.
pub fn names_are_kept<B: Blocks>(on: &B)
    ensures { (B.state on.now).tells → StandOnce (B.state on.now).may_leave → KeepsNames (B.state on.now) }
{
    let _ = on;
}

/// Where every image is what memory has, records stand once if memory's own do; and they do where those of all images do.
pub fn settled_once<B: Blocks>(on: &B)
    ensures all { AllAre (B.state on.now).now (B.state on.now).may_leave → StandOnce (memory (B.state on.now)) → StandOnce (B.state on.now).may_leave }
    ensures memory { (B.state on.now).tells → StandOnce (B.state on.now).may_leave → StandOnce (memory (B.state on.now)) }
{
    let _ = on;
}

/// There are images whose records stand once, with one record in each of two leaves; the later one keeps the other rules, and lists both.
pub fn two_leaves_stand_once()
    ensures once { StandOnce both }
    ensures first { IsOfRecords (leaf_spot 0) × IsShownAt both (leaf_spot 0) (leaf_of (first ∷ [])) × Contains (leaf_records (leaf_of (first ∷ []))) first }
    ensures second { IsOfRecords (leaf_spot 1) × IsShownAt both (leaf_spot 1) (leaf_of (second ∷ [])) × Contains (leaf_records (leaf_of (second ∷ []))) second }
    ensures beside { (arena : Arena) → IsSoundBeside arena later 2 × Lists arena later (records_of arena) 0 0 first × Lists arena later (records_of arena) 1 0 second }
{}
