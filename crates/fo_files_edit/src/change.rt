//! Room is reserved for a change that keeps the name, and the file is changed.
ghost use Rattle.std.specs.Prelude.{◌≡◌, ◌⊎◌, ◌+◌, ◌*◌, ◌^◌, ◌<◌, ◌≤◌, ℕ, [], length, IfSome, IfErr, OnOk, OnErr};
ghost use Rattle.fo_ports.specs.State.{Rests, none};
ghost use Rattle.fo_world.specs.Answers.{Refuses, HadRoom};
ghost use Rattle.fo_files_into.specs.of_files_at.Way.{IsWay};
ghost use Rattle.fo_files_into.specs.of_files_look.Told.{faults_of};
ghost use Rattle.fo_files_into.specs.of_files_along.Along.{HasRoom, IsBlocks};
ghost use Rattle.fo_files_edit.specs.Edit.{EditsFile, IsLeft, EditsRoot, RootLeft};
ghost use Rattle.fo_ports.specs.Sources.{Dirties};

use crate::edit::edit_along;
use crate::found::Found;
use crate::root::edit_root;
use fo_files_into::files_along::reserve_room;
use fo_files_into::files_look::file_error;
use fo_ports::Blocks;
use fo_world::FileError;
use std::alloc::Global;

/// How many removals and waits a change may take: 1,637 to make the leaf with the record ready, and 3,273 for a length.
const REMOVALS: u32 = 1637 + 3273;

/// Reserves what a change of a file below the root directory needs that keeps its name, five blocks a directory and 22, and changes the file.
pub fn change_below<B: Blocks>(
    alloc: Global,
    on: &mut B,
    root: u32,
    trail: &[u32],
    found: &Found,
    given: Option<u64>,
) -> Result<(), FileError>
    requires silent { (B.state on.old).tells → ⊥ }
    requires way { IsWay (B.state on.old) root trail.now found.now.way }
    requires short { (0 < length trail.now) × (length trail.now ≤ 65) }
    requires within { IfSome given (λ n. n ≤ 2 ^ 40) }
    ensures edits { OnOk result ((b : B) × Rests (B.state on.old) (B.state b) × EditsFile B B.state b on.new root trail.now found.now.way found.now.name given) }
    ensures left { OnErr result ((b : B) × Rests (B.state on.old) (B.state b) × IsLeft B B.state b on.new root trail.now found.now.way found.now.name given) }
    ensures blocks { IfErr result IsBlocks }
    ensures had { HadRoom (HasRoom (B.state on.old)) (5 * length trail.now + 22) result }
    ensures taken { (B.state on.old).usable ≤ (B.state on.new).usable + (5 * length trail.now + 22) }
    ensures cause { Refuses (faults_of (B.state on.old)) (faults_of (B.state on.new)) ⊥ (HasRoom (B.state on.new)) (5 * length trail.now + 22) result }
    ensures dirties { Dirties (10 * length trail.now + 45) none (B.state on.old) (B.state on.new) }
    ensures keeps { B.keeps on.old on.new }
{
    let steps = trail.len() as u32;
    match reserve_room(on, 5 * steps + 22, 20 * steps + 76, REMOVALS) {
        Ok(()) => {}
        Err(why) => return Err(why),
    }
    match edit_along(alloc, on, root, trail, found, given) {
        Ok(()) => Ok(()),
        Err(why) => Err(file_error(why)),
    }
}

/// Ends all pins, and changes the root directory, which takes no block.
pub fn change_root<B: Blocks>(
    alloc: Global,
    on: &mut B,
    root: u32,
    found: &Found,
) -> Result<(), FileError>
    requires silent { (B.state on.old).tells → ⊥ }
    requires way { IsWay (B.state on.old) root [] found.now.way }
    ensures edits { OnOk result ((b : B) × Rests (B.state on.old) (B.state b) × EditsRoot B B.state b on.new root found.now.way) }
    ensures left { OnErr result ((b : B) × Rests (B.state on.old) (B.state b) × RootLeft B B.state b on.new root found.now.way) }
    ensures blocks { IfErr result IsBlocks }
    ensures taken { (B.state on.old).usable ≤ (B.state on.new).usable }
    ensures cause { Refuses (faults_of (B.state on.old)) (faults_of (B.state on.new)) ⊥ (HasRoom (B.state on.new)) 0 result }
    ensures dirties { Dirties 1 none (B.state on.old) (B.state on.new) }
    ensures keeps { B.keeps on.old on.new }
{
    match reserve_room(on, 0, 1, 0) {
        Ok(()) => {}
        Err(why) => return Err(why),
    }
    match edit_root(alloc, on, root, found) {
        Ok(()) => Ok(()),
        Err(why) => Err(file_error(why)),
    }
}
