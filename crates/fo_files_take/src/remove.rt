//! A removal of a file of the active tree.
ghost use Rattle.std.specs.Prelude.{◌≡◌, ◌⊎◌, ◌+◌, ◌-◌, ◌*◌, ◌<◌, ◌≤◌, ℕ, true, false, length, get_or, IfErr, OnOk, OnErr};
ghost use Rattle.fo_base.specs.Cause.{Rose};
ghost use Rattle.fo_ports.specs.Causes.{Caused};
ghost use Rattle.fo_ports.specs.State.{Looks, Rests, none};
ghost use Rattle.fo_world.specs.Answers.{Refuses, HadRoom};
ghost use Rattle.fo_world.specs.Limits.{IsBelowRoot, IsUser};
ghost use Rattle.fo_world.specs.Step.{depth_of, give, is_active};
ghost use Rattle.fo_files_along.specs.of_files_at.declared.at.Step.{Step};
ghost use Rattle.fo_files_along.specs.of_files_at.Way.{IsWay};
ghost use Rattle.fo_files_along.specs.of_files_look.Told.{faults_of, MayLook};
ghost use Rattle.fo_files_along.specs.Along.{HasRoom, IsBlocks};
ghost use Rattle.fo_files_take.specs.Take.{IsFound, IsLeft, IsRefused, Refused, Removes, TakesFile};
ghost use Rattle.fo_ports.specs.Sources.{Dirties};

use crate::look::{Found, look_for_removal};
use crate::take::{Going, take_from};
use fo_base::Bytes;
use fo_files_along::files_at::Way;
use fo_files_along::files_look::file_error;
use fo_files_along::{own_along, reserve_room};
use fo_files_own::own_at;
use fo_ports::{BlockError, Blocks};
use fo_world::{FileError, Place};
use std::alloc::Global;

/// How many blocks a removal takes at most, of a file with so many directories above: the way 5 a directory, the own record 11, and the leaf of the
/// record that goes 10, at most what is allowed to give.
fn blocks_for(steps: usize) -> u32
    requires { (0 < steps) × (steps ≤ 65) }
    ensures { result ≡ give (steps - 1) }
{
    5 * (steps as u32 - 1) + 36
}

/// How many pins: the plan 20 a directory and 1, the own record 60, and the leaf of the record that goes 20.
fn pins_for(steps: usize) -> u32
    requires { (0 < steps) × (steps ≤ 65) }
    ensures { result ≡ 20 * steps + 81 }
{
    20 * steps as u32 + 81
}

/// How many removals and waits: 1,636 to trim the records above, one to move one, and two for the entries.
const REMOVALS: u32 = 1637 + 2;

/// The leaf of the records of directory `k` of a way that has the record of the next file.
fn leaf_at(way: &Way, k: usize) -> u32
    requires within { k < length way.now.steps.items }
    ensures is { (d : Step) → result ≡ (get_or way.now.steps.items k d).leaf }
{
    way.steps[k].leaf
}

/// The leaf that has the record of directory `k` of a way; 0 of the root directory.
fn leaf_above(way: &Way, k: usize) -> u32
    requires within { k ≤ length way.now.steps.items }
{
    if k == 0 { 0 } else { way.steps[k - 1].leaf }
}

/// Takes the file at the end of a way out of its directory.
fn take_along<B: Blocks>(
    alloc: Global,
    on: &mut B,
    root: u32,
    trail: &[u32],
    found: &Found,
    who: &Bytes,
    now: u32,
) -> Result<(), BlockError>
    requires silent { (B.state on.old).tells → ⊥ }
    requires found { IsFound (B.state on.old) root trail.now who.now now found.now }
    requires short { (0 < length trail.now) × (length trail.now ≤ 65) }
    requires spare { give (length trail.now - 1) ≤ (B.state on.old).spare }
    requires pins { 20 * length trail.now + 81 ≤ (B.state on.old).pins_left }
    requires room { 1639 ≤ (B.state on.old).room }
    ensures takes { OnOk result (TakesFile B B.state on.old on.new root trail.now found.now.way who.now now) }
    ensures left { OnErr result (IsLeft B B.state on.old on.new root trail.now) }
    ensures taken { (B.state on.old).usable ≤ (B.state on.new).usable + give (length trail.now - 1) }
    ensures cause { IfErr result (Caused ⊥ (λ b. (B.state on.old).is_block b ⊎ (b ≡ 1)) (Rose (B.state on.old).faults (B.state on.new).faults) (Rose (B.state on.old).arena_faults (B.state on.new).arena_faults)) }
    ensures dirties { Dirties (2 * give (length trail.now - 1)) none (B.state on.old) (B.state on.new) }
    ensures keeps { B.keeps on.old on.new }
{
    let _ = root;
    let _ = who;
    let _ = now;
    let stand = match own_along(alloc, on, &found.way) {
        Ok(stand) => stand,
        Err(why) => return Err(why),
    };
    let last = trail.len() - 1;
    let own = own_at(
        stand.dir,
        stand.above,
        leaf_above(&found.way, last),
        found.spare,
    );
    let file = Going {
        entries: stand.file.at,
        leaf: leaf_at(&found.way, last),
        pair: found.way.file.named.slot,
        dir: found.way.file.dir,
    };
    let name = found.way.file.named.name.as_slice();
    match take_from(alloc, on, stand.dir, own, &found.own, file, name) {
        Ok(()) => Ok(()),
        Err(why) => Err(why),
    }
}

/// Reserves what a removal needs, and takes a file that was found out of its directory.
fn take_found<B: Blocks>(
    alloc: Global,
    on: &mut B,
    root: u32,
    trail: &[u32],
    found: &Found,
    who: &Bytes,
    now: u32,
) -> Result<(), FileError>
    requires silent { (B.state on.old).tells → ⊥ }
    requires found { IsFound (B.state on.old) root trail.now who.now now found.now }
    requires short { (0 < length trail.now) × (length trail.now ≤ 65) }
    ensures takes { OnOk result ((b : B) × Rests (B.state on.old) (B.state b) × TakesFile B B.state b on.new root trail.now found.now.way who.now now) }
    ensures left { OnErr result ((b : B) × (Looks (B.state on.old) (B.state b) ⊎ Rests (B.state on.old) (B.state b)) × IsLeft B B.state b on.new root trail.now) }
    ensures refused { IfErr result IsBlocks }
    ensures room { HadRoom (HasRoom (B.state on.old)) (give (length trail.now - 1)) result }
    ensures taken { (B.state on.old).usable ≤ (B.state on.new).usable + give (length trail.now - 1) }
    ensures cause { Refuses (faults_of (B.state on.old)) (faults_of (B.state on.new)) ⊥ (HasRoom (B.state on.new)) (give (length trail.now - 1)) result }
    ensures dirties { Dirties (2 * give (length trail.now - 1)) none (B.state on.old) (B.state on.new) }
    ensures keeps { B.keeps on.old on.new }
{
    let steps = trail.len();
    match reserve_room(on, blocks_for(steps), pins_for(steps), REMOVALS) {
        Ok(()) => {}
        Err(why) => return Err(why),
    }
    match take_along(alloc, on, root, trail, found, who, now) {
        Ok(()) => Ok(()),
        Err(why) => Err(file_error(why)),
    }
}

/// Takes the file at a place of the tree with this root block out of its directory, by a user at a moment (seconds since 1970-01-01 UTC). Refused in
/// this order: the file is gone, the view isn't the active tree, it is a directory with names, the system is halted, and what blocks refuse. A refused
/// removal leaves each record as it was.
pub fn remove_file<B: Blocks>(
    alloc: Global,
    on: &mut B,
    root: u32,
    at: &Place,
    who: &Bytes,
    now: u32,
    halted: bool,
) -> Result<(), FileError>
    requires may { MayLook (B.state on.old) root }
    requires below { IsBelowRoot at.now }
    requires who { IsUser who.now }
    ensures removes { OnOk result (Removes B B.state on.old on.new root at.now.trail who.now now) }
    ensures granted { OnOk result ((is_active at.now.view ≡ true) × (halted ≡ false)) }
    ensures left { OnErr result (Refused B B.state on.old on.new root at.now.trail) }
    ensures refused { IfErr result (IsRefused at.now.view halted ((m : B) × (w : Way) × IsWay (B.state m) root at.now.trail w × (w.file.dir ≡ true))) }
    ensures room { HadRoom (HasRoom (B.state on.old)) (give (depth_of at.now)) result }
    ensures taken { (B.state on.old).usable ≤ (B.state on.new).usable + give (depth_of at.now) }
    ensures cause { Refuses (faults_of (B.state on.old)) (faults_of (B.state on.new)) ⊥ (HasRoom (B.state on.new)) (give (depth_of at.now)) result }
    ensures dirties { Dirties (2 * give (depth_of at.now)) none (B.state on.old) (B.state on.new) }
    ensures keeps { B.keeps on.old on.new }
{
    match look_for_removal(alloc, on, root, at, who, now, halted) {
        Ok(found) => take_found(alloc, on, root, at.trail.as_slice(), &found, who, now),
        Err(why) => Err(why),
    }
}
