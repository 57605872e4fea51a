//! A file is changed.
ghost use Rattle.std.specs.Prelude.{◌≡◌, ◌⊎◌, ◌+◌, ◌*◌, ◌^◌, ◌<◌, ◌≤◌, ℕ, false, length, None, IfSome, IfErr, OnOk, OnErr, ◌-◌};
ghost use Rattle.fo_ports.specs.State.{Looks, none};
ghost use Rattle.fo_world.specs.declared.error.FileError.TheVariants.{Full};
ghost use Rattle.fo_world.specs.Answers.{IsBelow, Refuses};
ghost use Rattle.fo_world.specs.Limits.{IsName, IsUser};
ghost use Rattle.fo_world.specs.Step.{depth_of, give, most_need, need};
ghost use Rattle.fo_files_edit.specs.of_files_at.Way.{IsWay};
ghost use Rattle.fo_files_edit.specs.of_files_look.Told.{faults_of, MayLook};
ghost use Rattle.fo_files_edit.specs.of_files_along.Along.{HasRoom, IsBlocks};
ghost use Rattle.fo_files_edit.specs.Asks.{FoundSame, WhyRefused};
ghost use Rattle.fo_files_rename.specs.Change as of;
ghost use Rattle.fo_files_rename.specs.Change.{ChangesFile, ChangesFound, KeepsFile, LeavesFile, LeavesFound, LeavesName, OwnsName};
ghost use Rattle.fo_ports.specs.Sources.{Dirties};

use crate::own::own_for;
use crate::rename::rename_below;
use fo_base::Bytes;
use fo_files_edit::{Found, change_below, change_root, found_at, is_renamed};
use fo_ports::Blocks;
use fo_world::{Change, FileError, Place};
use std::alloc::Global;

/// The length that a file is given; a directory has none.
fn given_of(dir: bool, given: Option<u64>) -> Option<u64>
    ensures { result ≡ of.given_of dir given }
{
    if dir { None } else { given }
}

/// Gives a file below the root directory that was found its new record, with another name, and the length that is given, where one is. First its
/// directory's own record is looked at, and whether the new name stands alone; then room is reserved, and all settled where it doesn't.
fn rename_found<B: Blocks>(
    alloc: Global,
    on: &mut B,
    root: u32,
    trail: &[u32],
    found: &Found,
    given: Option<u64>,
    who: &Bytes,
    now: u32,
) -> Result<(), FileError>
    requires silent { (B.state on.old).tells → ⊥ }
    requires way { IsWay (B.state on.old) root trail.now found.now.way }
    requires short { (0 < length trail.now) × (length trail.now ≤ 65) }
    requires within { IfSome given (λ n. n ≤ 2 ^ 40) }
    requires who { IsUser who.now }
    ensures renames { OnOk result (OwnsName B B.state on.old on.new root trail.now found.now.way found.now.name given who.now now) }
    ensures left { OnErr result (Looks (B.state on.old) (B.state on.new) ⊎ LeavesName B B.state on.old on.new root trail.now found.now.way found.now.name given) }
    ensures blocks { IfErr result IsBlocks }
    ensures taken { (B.state on.old).usable ≤ (B.state on.new).usable + (5 * length trail.now + 31) }
    ensures cause { Refuses (faults_of (B.state on.old)) (faults_of (B.state on.new)) ⊥ (HasRoom (B.state on.new)) (5 * length trail.now + 31) result }
    ensures dirties { Dirties (2 * need (length trail.now - 1) 0) none (B.state on.old) (B.state on.new) }
    ensures keeps { B.keeps on.old on.new }
{
    let own = match own_for(alloc, on, root, trail, &found.way, who, now) {
        Ok(own) => own,
        Err(why) => return Err(why),
    };
    rename_below(alloc, on, root, trail, found, &own, given)
}

/// Changes a file below the root directory that was found.
fn change_file_below<B: Blocks>(
    alloc: Global,
    on: &mut B,
    root: u32,
    trail: &[u32],
    found: &Found,
    what: &Change,
    who: &Bytes,
    now: u32,
) -> Result<(), FileError>
    requires silent { (B.state on.old).tells → ⊥ }
    requires way { IsWay (B.state on.old) root trail.now found.now.way }
    requires short { (0 < length trail.now) × (length trail.now ≤ 65) }
    requires within { IfSome what.now.length (λ n. n ≤ 2 ^ 40) }
    requires who { IsUser who.now }
    ensures changes { OnOk result (ChangesFound B B.state on.old on.new root trail.now found.now.way found.now.name what.now who.now now) }
    ensures left { OnErr result (LeavesFound B B.state on.old on.new root trail.now found.now.way found.now.name what.now) }
    ensures blocks { IfErr result IsBlocks }
    ensures taken { (B.state on.old).usable ≤ (B.state on.new).usable + (5 * length trail.now + 31) }
    ensures cause { Refuses (faults_of (B.state on.old)) (faults_of (B.state on.new)) ⊥ (HasRoom (B.state on.new)) (5 * length trail.now + 31) result }
    ensures dirties { Dirties (2 * need (length trail.now - 1) 0) none (B.state on.old) (B.state on.new) }
    ensures keeps { B.keeps on.old on.new }
{
    let given = given_of(found.way.file.dir, what.length);
    if is_renamed(&what.name, found.name.as_slice()) {
        return match rename_found(alloc, on, root, trail, found, given, who, now) {
            Ok(()) => Ok(()),
            Err(why) => Err(why),
        };
    }
    match change_below(alloc, on, root, trail, found, given) {
        Ok(()) => Ok(()),
        Err(why) => Err(why),
    }
}

/// Changes a file that was found, the root directory or one below it.
fn change_here<B: Blocks>(
    alloc: Global,
    on: &mut B,
    root: u32,
    at: &Place,
    found: &Found,
    what: &Change,
    who: &Bytes,
    now: u32,
) -> Result<(), FileError>
    requires silent { (B.state on.old).tells → ⊥ }
    requires way { IsWay (B.state on.old) root at.now.trail found.now.way }
    requires short { length at.now.trail ≤ 65 }
    requires within { IfSome what.now.length (λ n. n ≤ 2 ^ 40) }
    requires who { IsUser who.now }
    ensures changes { OnOk result (ChangesFound B B.state on.old on.new root at.now.trail found.now.way found.now.name what.now who.now now) }
    ensures left { OnErr result (LeavesFound B B.state on.old on.new root at.now.trail found.now.way found.now.name what.now) }
    ensures blocks { IfErr result IsBlocks }
    ensures taken { (B.state on.old).usable ≤ (B.state on.new).usable + most_need at.now }
    ensures cause { Refuses (faults_of (B.state on.old)) (faults_of (B.state on.new)) ⊥ (HasRoom (B.state on.new)) (most_need at.now) result }
    ensures fewer { (B.state on.old).usable ≤ (B.state on.new).usable + give (depth_of at.now) }
    ensures full { IfErr result (λ e. e ≡ Full → IsBelow (HasRoom (B.state on.new)) (give (depth_of at.now))) }
    ensures dirties { Dirties (2 * most_need at.now) none (B.state on.old) (B.state on.new) }
    ensures keeps { B.keeps on.old on.new }
{
    let trail = at.trail.as_slice();
    let depth = trail.len();
    if depth == 0 {
        return match change_root(alloc, on, root, found) {
            Ok(()) => Ok(()),
            Err(why) => Err(why),
        };
    }
    match change_file_below(alloc, on, root, trail, found, what, who, now) {
        Ok(()) => Ok(()),
        Err(why) => Err(why),
    }
}

/// Changes a file that was found.
fn change_found<B: Blocks>(
    alloc: Global,
    on: &mut B,
    root: u32,
    at: &Place,
    found: Found,
    what: &Change,
    who: &Bytes,
    now: u32,
) -> Result<(), FileError>
    requires silent { (B.state on.old).tells → ⊥ }
    requires way { IsWay (B.state on.old) root at.now.trail found.way }
    requires short { length at.now.trail ≤ 65 }
    requires within { IfSome what.now.length (λ n. n ≤ 2 ^ 40) }
    requires who { IsUser who.now }
    ensures changes { OnOk result (ChangesFound B B.state on.old on.new root at.now.trail found.way found.name what.now who.now now) }
    ensures left { OnErr result (LeavesFound B B.state on.old on.new root at.now.trail found.way found.name what.now) }
    ensures blocks { IfErr result IsBlocks }
    ensures taken { (B.state on.old).usable ≤ (B.state on.new).usable + most_need at.now }
    ensures cause { Refuses (faults_of (B.state on.old)) (faults_of (B.state on.new)) ⊥ (HasRoom (B.state on.new)) (most_need at.now) result }
    ensures fewer { (B.state on.old).usable ≤ (B.state on.new).usable + give (depth_of at.now) }
    ensures full { IfErr result (λ e. e ≡ Full → IsBelow (HasRoom (B.state on.new)) (give (depth_of at.now))) }
    ensures dirties { Dirties (2 * most_need at.now) none (B.state on.old) (B.state on.new) }
    ensures keeps { B.keeps on.old on.new }
{
    change_here(alloc, on, root, at, &found, what, who, now)
}

/// Changes all that is given of the file at a place of the tree with this root block, or nothing, by a user at a moment (seconds since 1970-01-01 UTC):
/// mode, mtime, group, length, which is a write, and name, which changes its directory, too. A file stays one, and a directory. Refused in this order:
/// the place is gone, a length is given for a directory, the view isn't the active tree, another file has the name, the length is above 2^40, the
/// system is halted, and what blocks refuse: of the looks at the directory, of the room, of the settling that comes before another name where a crash
/// could leave that name twice, and of the change. A refused call leaves each record, and the file's length. Where nothing changes it is granted,
/// halted or not.
pub fn change_file<B: Blocks>(
    alloc: Global,
    on: &mut B,
    root: u32,
    at: &Place,
    what: &Change,
    who: &Bytes,
    now: u32,
    halted: bool,
) -> Result<(), FileError>
    requires may { MayLook (B.state on.old) root }
    requires who { IsUser who.now }
    requires name { IfSome what.now.name IsName }
    requires gid { IfSome what.now.gid IsUser }
    requires root { length at.now.trail ≡ 0 → what.now.name ≡ None }
    ensures changes { OnOk result (KeepsFile B B.state on.old on.new root at.now what.now ⊎ ChangesFile B B.state on.old on.new root at.now what.now halted who.now now) }
    ensures left { OnErr result (Looks (B.state on.old) (B.state on.new) ⊎ LeavesFile B B.state on.old on.new root at.now what.now halted who.now now) }
    ensures awake { OnOk result ((halted ≡ false) ⊎ FoundSame (B.state on.new) root at.now what.now) }
    ensures refused { IfErr result (WhyRefused B B.state root at.now what.now halted) }
    ensures taken { (B.state on.old).usable ≤ (B.state on.new).usable + most_need at.now }
    ensures cause { Refuses (faults_of (B.state on.old)) (faults_of (B.state on.new)) ⊥ (HasRoom (B.state on.new)) (most_need at.now) result }
    ensures fewer { (B.state on.old).usable ≤ (B.state on.new).usable + give (depth_of at.now) }
    ensures full { IfErr result (λ e. e ≡ Full → IsBelow (HasRoom (B.state on.new)) (give (depth_of at.now))) }
    ensures dirties { Dirties (2 * most_need at.now) none (B.state on.old) (B.state on.new) }
    ensures keeps { B.keeps on.old on.new }
{
    match found_at(alloc, on, root, at, what, who, now, halted) {
        Ok(Some(found)) => change_found(alloc, on, root, at, found, what, who, now),
        Ok(None) => Ok(()),
        Err(why) => Err(why),
    }
}
