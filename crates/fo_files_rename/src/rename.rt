//! A file that was found below the root directory gets a new name.
ghost use Rattle.std.specs.Prelude.{◌≡◌, ◌⊎◌, ◌+◌, ◌*◌, ◌^◌, ◌<◌, ◌≤◌, ℕ, [], length, IfSome, IfErr, OnOk, OnErr, ◌-◌};
ghost use Rattle.fo_base.specs.Cause.{Rose};
ghost use Rattle.fo_ports.specs.Causes.{Caused};
ghost use Rattle.fo_ports.specs.State.{Rests, none};
ghost use Rattle.fo_world.specs.Answers.{HadRoom, Refuses};
ghost use Rattle.fo_files_edit.specs.of_files_at.Way.{IsWay};
ghost use Rattle.fo_files_edit.specs.of_files_look.Told.{faults_of};
ghost use Rattle.fo_files_edit.specs.of_files_along.Along.{HasRoom, IsBlocks};
ghost use Rattle.fo_files_spot.specs.Settles.{SettlesUnless};
ghost use Rattle.fo_files_rename.specs.Rename.{IsLeafOver, LeavesAlong, MayStand, RenamesAlong};
ghost use Rattle.fo_ports.specs.Sources.{Dirties, DirtiesIn};
ghost use Rattle.fo_world.specs.Step.{need};

use crate::file::{beside_data, rename_file};
use crate::own::Own;
use fo_files_edit::Found;
use fo_files_edit::files_along::{own_along, reserve_room};
use fo_files_edit::files_at::Way;
use fo_files_edit::files_look::file_error;
use fo_files_own::own_at;
use fo_files_spot::settle_unless;
use fo_ports::{BlockError, Blocks};
use fo_world::FileError;
use std::alloc::Global;

/// How many removals and waits a change may take that gives a name: 1,637 each to make the directory's own record ready and the file's, and 3,273 for a
/// length.
const REMOVALS: u32 = 1637 + 1637 + 3273;

/// The leaf of records that has the own record of the directory of the last step of a way; 0 for the root directory.
fn own_leaf(way: &Way) -> u32
    ensures { IsLeafOver way.now.steps.items result }
{
    let depth = way.steps.len();
    if depth < 2 {
        return 0;
    }
    way.steps[depth - 2].leaf
}

/// Owns the way to a file below the root directory that was found, and gives it the record that the way has, and the length that is given, where one is;
/// and its directory this own record.
pub(crate) fn rename_along<B: Blocks>(
    alloc: Global,
    on: &mut B,
    root: u32,
    trail: &[u32],
    found: &Found,
    own: &Own,
    given: Option<u64>,
) -> Result<(), BlockError>
    requires silent { (B.state on.old).tells → ⊥ }
    requires way { IsWay (B.state on.old) root trail.now found.now.way }
    requires some { 0 < length trail.now }
    requires own { MayStand (length trail.now) own.now.named }
    requires within { IfSome given (λ n. n ≤ 2 ^ 40) }
    requires blocks { 5 * length trail.now + 31 ≤ (B.state on.old).spare }
    requires pins { 20 * length trail.now + 136 ≤ (B.state on.old).pins_left }
    requires room { 6547 ≤ (B.state on.old).room }
    ensures renames { OnOk result (RenamesAlong B B.state on.old on.new root trail.now found.now.way found.now.name own.now.named given) }
    ensures left { OnErr result (LeavesAlong B B.state on.old on.new root trail.now found.now.way found.now.name own.now.named.name given) }
    ensures taken { (B.state on.old).usable + (B.state on.new).spare ≤ (B.state on.new).usable + (B.state on.old).spare }
    ensures spare { (B.state on.old).spare ≤ (B.state on.new).spare + (5 * length trail.now + 31) }
    ensures cause { IfErr result (Caused ⊥ (λ b. (B.state on.old).is_block b ⊎ (b ≡ 1)) (Rose (B.state on.old).faults (B.state on.new).faults) (Rose (B.state on.old).arena_faults (B.state on.new).arena_faults)) }
    ensures dirties { Dirties (2 * need (length trail.now - 1) 0) none (B.state on.old) (B.state on.new) }
    ensures keeps { B.keeps on.old on.new }
{
    let _ = root;
    let _ = trail;
    let stand = match own_along(alloc, on, &found.way) {
        Ok(stand) => stand,
        Err(why) => return Err(why),
    };
    let place = own_at(stand.dir, stand.above, own_leaf(&found.way), own.spare);
    match beside_data(on, place, stand.file) {
        Ok(()) => {}
        Err(why) => return Err(why),
    }
    let steps = &found.way.steps;
    let leaf = steps[steps.len() - 1].leaf;
    let named = &found.way.file.named;
    let name = found.name.as_slice();
    match rename_file(
        alloc,
        on,
        stand,
        place,
        &own.named,
        leaf,
        found.spare,
        name,
        named,
        given,
    ) {
        Ok(()) => Ok(()),
        Err(why) => Err(why),
    }
}

/// Reserves what a change of a file needs that gives it a new name, on a way of so many directories: five blocks each and 31. Then it settles, unless
/// the name stands alone in the leaf that has the file's record.
fn room_for_name<B: Blocks>(on: &mut B, steps: u32, alone: bool) -> Result<(), FileError>
    requires silent { (B.state on.old).tells → ⊥ }
    requires short { steps ≤ 65 }
    ensures settles { OnOk result ((b : B) × Rests (B.state on.old) (B.state b) × SettlesUnless B B.state alone b on.new) }
    ensures left { OnErr result ((b : B) × Rests (B.state on.old) (B.state b) × ((on.new ≡ b) ⊎ Rests (B.state b) (B.state on.new))) }
    ensures room { OnOk result ((5 * steps + 31 ≤ (B.state on.new).spare) × (20 * steps + 136 ≤ (B.state on.new).pins_left) × (6547 ≤ (B.state on.new).room)) }
    ensures refused { IfErr result IsBlocks }
    ensures had { HadRoom (HasRoom (B.state on.old)) (5 * steps + 31) result }
    ensures usable { (B.state on.old).usable ≤ (B.state on.new).usable }
    ensures cause { Refuses (faults_of (B.state on.old)) (faults_of (B.state on.new)) ⊥ (HasRoom (B.state on.new)) (5 * steps + 31) result }
    ensures dirties { DirtiesIn [] (B.state on.old) (B.state on.new) }
    ensures keeps { B.keeps on.old on.new }
{
    match reserve_room(on, 5 * steps + 31, 20 * steps + 136, REMOVALS) {
        Ok(()) => {}
        Err(why) => return Err(why),
    }
    match settle_unless(on, alone) {
        Ok(()) => Ok(()),
        Err(why) => Err(file_error(why)),
    }
}

/// Reserves what a change of a file below the root directory needs that gives a new name, five blocks a directory and 31, settles where the new name
/// doesn't stand alone, and changes the file and its directory's own record.
pub(crate) fn rename_below<B: Blocks>(
    alloc: Global,
    on: &mut B,
    root: u32,
    trail: &[u32],
    found: &Found,
    own: &Own,
    given: Option<u64>,
) -> Result<(), FileError>
    requires silent { (B.state on.old).tells → ⊥ }
    requires way { IsWay (B.state on.old) root trail.now found.now.way }
    requires short { (0 < length trail.now) × (length trail.now ≤ 65) }
    requires own { MayStand (length trail.now) own.now.named }
    requires within { IfSome given (λ n. n ≤ 2 ^ 40) }
    ensures renames { OnOk result ((b c : B) × Rests (B.state on.old) (B.state b) × SettlesUnless B B.state own.now.alone b c × RenamesAlong B B.state c on.new root trail.now found.now.way found.now.name own.now.named given) }
    ensures left { OnErr result ((b c : B) × Rests (B.state on.old) (B.state b) × ((c ≡ b) ⊎ Rests (B.state b) (B.state c)) × LeavesAlong B B.state c on.new root trail.now found.now.way found.now.name own.now.named.name given) }
    ensures blocks { IfErr result IsBlocks }
    ensures had { HadRoom (HasRoom (B.state on.old)) (5 * length trail.now + 31) result }
    ensures taken { (B.state on.old).usable ≤ (B.state on.new).usable + (5 * length trail.now + 31) }
    ensures cause { Refuses (faults_of (B.state on.old)) (faults_of (B.state on.new)) ⊥ (HasRoom (B.state on.new)) (5 * length trail.now + 31) result }
    ensures dirties { Dirties (2 * need (length trail.now - 1) 0) none (B.state on.old) (B.state on.new) }
    ensures keeps { B.keeps on.old on.new }
{
    let steps = trail.len() as u32;
    match room_for_name(on, steps, own.alone) {
        Ok(()) => {}
        Err(why) => return Err(why),
    }
    match rename_along(alloc, on, root, trail, found, own, given) {
        Ok(()) => Ok(()),
        Err(why) => Err(file_error(why)),
    }
}
