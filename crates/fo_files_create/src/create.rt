//! A file is made.
ghost use Rattle.std.specs.Prelude.{◌≡◌, ◌⊎◌, ◌+◌, ◌*◌, ◌^◌, ◌<◌, ◌≤◌, length, [], IfOk, IfErr, OnOk, OnErr};
ghost use Rattle.fo_image.specs.declared.record.Record.{Record};
ghost use Rattle.fo_world.specs.Answers.{HadRoom, Refuses};
ghost use Rattle.fo_world.specs.Fits.{InfoFits};
ghost use Rattle.fo_world.specs.Limits.{IsName, IsUser};
ghost use Rattle.fo_world.specs.Step.{below, create_need, info_of, need, new_node};
ghost use Rattle.fo_ports.specs.State.{KeepsNumbers, Looks, Rests, none};
ghost use Rattle.fo_files_create_look.specs.of_files_look.Told.{faults_of, MayLook};
ghost use Rattle.fo_files_create_look.specs.of_files_along.Along.{HasRoom, IsBlocks};
ghost use Rattle.fo_files_create_look.specs.Found.{IsFound};
ghost use Rattle.fo_files_create_look.specs.Named.{new_record};
ghost use Rattle.fo_files_create_look.specs.Refused.{IsRefused, MayMake};
ghost use Rattle.fo_files_create_look.specs.of_files_spot.Settles.{SettlesUnless};
ghost use Rattle.fo_files_create.specs.Create.{Creates, IsLate, IsLeft, LeavesAfter, LeavesAlong, MakesAlong, MakesFound, numbered, told_of};
ghost use Rattle.fo_ports.specs.Sources.{Dirties, DirtiesIn};

use crate::along::make_along;
use crate::number::{granted, with_number};
use crate::told::{place_below, told};
use fo_base::Bytes;
use fo_files_create_look::files_along::reserve_room;
use fo_files_create_look::files_look::file_error;
use fo_files_create_look::files_spot::settle_unless;
use fo_files_create_look::{Found, look_for_new};
use fo_ports::Blocks;
use fo_world::{FileError, Info, Place};
use std::alloc::Global;

/// How many blocks making a file takes at most, in a directory of this depth: the way 5 a directory, the directory's own record 11, and the new
/// file 24, which is 5 * depth + 35, at most the need.
fn blocks_for(depth: usize) -> u32
    requires { depth ≤ 65 }
    ensures { result ≡ need depth 0 }
{
    6 * depth as u32 + 40
}

/// How many pins: the plan 20 a directory and 1, the own record 60, the new file 81.
fn pins_for(depth: usize) -> u32
    requires { depth ≤ 65 }
    ensures { result ≡ 20 * depth + 142 }
{
    20 * depth as u32 + 142
}

/// How many removals and waits: 1,636 to trim the records above and one to move one, and 1,637 for the new file.
const REMOVALS: u32 = 1637 + 1637;

/// Reserves room for a file in a directory of this depth, and then settles, unless the file's name stands alone there in every image.
fn reserve_and_settle<B: Blocks>(on: &mut B, depth: usize, alone: bool) -> Result<(), FileError>
    requires silent { (B.state on.old).tells → ⊥ }
    requires short { depth ≤ 65 }
    ensures settles { OnOk result ((b : B) × Rests (B.state on.old) (B.state b) × SettlesUnless B B.state alone b on.new) }
    ensures left { OnErr result ((b : B) × Rests (B.state on.old) (B.state b) × ((on.new ≡ b) ⊎ Rests (B.state b) (B.state on.new))) }
    ensures numbers { KeepsNumbers (B.state on.old) (B.state on.new) }
    ensures room { OnOk result ((need depth 0 ≤ (B.state on.new).spare) × (20 * depth + 142 ≤ (B.state on.new).pins_left) × (3274 ≤ (B.state on.new).room)) }
    ensures refused { IfErr result IsBlocks }
    ensures had { HadRoom (HasRoom (B.state on.old)) (need depth 0) result }
    ensures usable { (B.state on.old).usable ≤ (B.state on.new).usable }
    ensures cause { Refuses (faults_of (B.state on.old)) (faults_of (B.state on.new)) ⊥ (HasRoom (B.state on.new)) (need depth 0) result }
    ensures dirties { DirtiesIn [] (B.state on.old) (B.state on.new) }
    ensures keeps { B.keeps on.old on.new }
{
    match reserve_room(on, blocks_for(depth), pins_for(depth), REMOVALS) {
        Ok(()) => {}
        Err(why) => return Err(why),
    }
    match settle_unless(on, alone) {
        Ok(()) => Ok(()),
        Err(why) => Err(file_error(why)),
    }
}

/// Reserves room, settles unless the name stands alone, and makes a file in the directory that was found, with this number, which was granted, at
/// this place.
fn make_at<B: Blocks>(
    alloc: Global,
    on: &mut B,
    root: u32,
    trail: &[u32],
    found: Found,
    number: u32,
    place: Place,
) -> Result<Info, FileError>
    requires silent { (B.state on.old).tells → ⊥ }
    requires found { (named : Record) × IsFound (B.state on.old) root trail.now named found }
    requires short { length trail.now ≤ 65 }
    requires number { number < 2 ^ 30 }
    requires granted { (B.state on.old).grants }
    ensures makes { IfOk result (λ i. (b c : B) × (r : Record) × Rests (B.state on.old) (B.state b) × SettlesUnless B B.state found.spot.alone b c × MakesAlong B B.state c on.new root trail.now found.way found.spot (numbered number found.named) r) }
    ensures told { IfOk result (λ i. i ≡ told_of place (numbered number found.named)) }
    ensures fits { IfOk result InfoFits }
    ensures next { OnOk result ((B.state on.new).next ≡ (B.state on.old).next + 1) }
    ensures left { OnErr result ((b c : B) × Rests (B.state on.old) (B.state b) × ((c ≡ b) ⊎ Rests (B.state b) (B.state c)) × LeavesAlong B B.state c on.new root trail.now) }
    ensures numbers { OnErr result ((B.state on.new).next ≡ (B.state on.old).next) }
    ensures refused { IfErr result IsBlocks }
    ensures room { HadRoom (HasRoom (B.state on.old)) (need (length trail.now) 0) result }
    ensures taken { (B.state on.old).usable ≤ (B.state on.new).usable + need (length trail.now) 0 }
    ensures cause { Refuses (faults_of (B.state on.old)) (faults_of (B.state on.new)) ⊥ (HasRoom (B.state on.new)) (need (length trail.now) 0) result }
    ensures dirties { Dirties (2 * need (length trail.now) 0) none (B.state on.old) (B.state on.new) }
    ensures keeps { B.keeps on.old on.new }
{
    match reserve_and_settle(on, trail.len(), found.spot.alone) {
        Ok(()) => {}
        Err(why) => return Err(why),
    }
    let Found {
        way,
        spare,
        named,
        spot,
    } = found;
    let named = with_number(named, number);
    match make_along(alloc, on, root, trail, &way, spare, spot, named) {
        Ok(made) => Ok(told(place, made)),
        Err(why) => Err(file_error(why)),
    }
}

/// Makes a file in the directory that was found, with this number, which was granted.
fn make_numbered<B: Blocks>(
    alloc: Global,
    on: &mut B,
    root: u32,
    at: &Place,
    found: Found,
    number: u32,
) -> Result<Info, FileError>
    requires silent { (B.state on.old).tells → ⊥ }
    requires found { (named : Record) × IsFound (B.state on.old) root at.now.trail named found }
    requires short { length at.now.trail ≤ 65 }
    requires number { number < 2 ^ 30 }
    requires granted { (B.state on.old).grants }
    ensures makes { IfOk result (λ i. (b c : B) × (r : Record) × Rests (B.state on.old) (B.state b) × SettlesUnless B B.state found.spot.alone b c × MakesAlong B B.state c on.new root at.now.trail found.way found.spot (numbered number found.named) r) }
    ensures told { IfOk result (λ i. i ≡ told_of (below at.now number) (numbered number found.named)) }
    ensures fits { IfOk result InfoFits }
    ensures next { OnOk result ((B.state on.new).next ≡ (B.state on.old).next + 1) }
    ensures left { OnErr result ((b c : B) × (Looks (B.state on.old) (B.state b) ⊎ Rests (B.state on.old) (B.state b)) × ((c ≡ b) ⊎ Rests (B.state b) (B.state c)) × LeavesAlong B B.state c on.new root at.now.trail) }
    ensures numbers { OnErr result ((B.state on.new).next ≡ (B.state on.old).next) }
    ensures refused { IfErr result IsBlocks }
    ensures room { HadRoom (HasRoom (B.state on.old)) (create_need at.now) result }
    ensures taken { (B.state on.old).usable ≤ (B.state on.new).usable + create_need at.now }
    ensures cause { Refuses (faults_of (B.state on.old)) (faults_of (B.state on.new)) ⊥ (HasRoom (B.state on.new)) (create_need at.now) result }
    ensures dirties { Dirties (2 * create_need at.now) none (B.state on.old) (B.state on.new) }
    ensures keeps { B.keeps on.old on.new }
{
    match place_below(alloc, at, number) {
        Ok(place) => match make_at(alloc, on, root, at.trail.as_slice(), found, number, place) {
            Ok(told) => Ok(told),
            Err(why) => Err(why),
        },
        Err(why) => Err(why),
    }
}

/// Makes a file in the directory that was found, with the next number.
fn make_found<B: Blocks>(
    alloc: Global,
    on: &mut B,
    root: u32,
    at: &Place,
    found: Found,
) -> Result<Info, FileError>
    requires silent { (B.state on.old).tells → ⊥ }
    requires found { (named : Record) × IsFound (B.state on.old) root at.now.trail named found }
    requires short { length at.now.trail ≤ 65 }
    ensures makes { IfOk result (λ i. MakesFound B B.state on.old on.new root at.now.trail found) }
    ensures told { IfOk result (λ i. i ≡ told_of (below at.now (B.state on.old).next) (numbered (B.state on.old).next found.named)) }
    ensures fits { IfOk result InfoFits }
    ensures next { OnOk result (((B.state on.old).next < 2 ^ 30) × ((B.state on.new).next ≡ (B.state on.old).next + 1)) }
    ensures left { OnErr result (LeavesAfter B B.state on.old on.new root at.now.trail) }
    ensures numbers { OnErr result ((B.state on.new).next ≡ (B.state on.old).next) }
    ensures refused { IfErr result (IsLate (B.state on.old).next) }
    ensures room { HadRoom (HasRoom (B.state on.old)) (create_need at.now) result }
    ensures taken { (B.state on.old).usable ≤ (B.state on.new).usable + create_need at.now }
    ensures cause { Refuses (faults_of (B.state on.old)) (faults_of (B.state on.new)) ⊥ (HasRoom (B.state on.new)) (create_need at.now) result }
    ensures dirties { Dirties (2 * create_need at.now) none (B.state on.old) (B.state on.new) }
    ensures keeps { B.keeps on.old on.new }
{
    match granted(on) {
        Ok(number) => match make_numbered(alloc, on, root, at, found, number) {
            Ok(told) => Ok(told),
            Err(why) => Err(why),
        },
        Err(why) => Err(why),
    }
}

/// Makes a file of this name in the directory at a place of the tree with this root block, or a directory where the mode has DMDIR, by a user at a
/// moment (seconds since 1970-01-01 UTC). It is of `uid` and `gid`; `who` is its muid, and the directory's. Refused in this order: the place is gone,
/// it is no directory, the view isn't the active tree, the directory has the name, the system is halted, a directory would lie deeper than 64, the
/// directory has 2^20 names, no file number below 2^30 is left, and what blocks refuse. A refused call leaves each record as it was.
pub fn create_file<B: Blocks>(
    alloc: Global,
    on: &mut B,
    root: u32,
    at: &Place,
    name: &Bytes,
    mode: u32,
    who: &Bytes,
    uid: &Bytes,
    gid: &Bytes,
    now: u32,
    halted: bool,
) -> Result<Info, FileError>
    requires may { MayLook (B.state on.old) root }
    requires name { IsName name.now }
    requires who { IsUser who.now }
    requires uid { IsUser uid.now }
    requires gid { IsUser gid.now }
    ensures creates { IfOk result (λ i. Creates B B.state on.old on.new root at.now.trail (new_record name.now mode who.now uid.now gid.now now)) }
    ensures told { IfOk result (λ i. i ≡ info_of (below at.now (B.state on.old).next) (name.now, new_node (B.state on.old).next mode who.now uid.now gid.now now)) }
    ensures fits { IfOk result InfoFits }
    ensures granted { OnOk result (MayMake at.now mode halted × ((B.state on.old).next < 2 ^ 30)) }
    ensures next { OnOk result ((B.state on.new).next ≡ (B.state on.old).next + 1) }
    ensures left { OnErr result (IsLeft B B.state on.old on.new root at.now.trail) }
    ensures numbers { OnErr result ((B.state on.new).next ≡ (B.state on.old).next) }
    ensures refused { IfErr result (IsRefused B.state root at.now name.now mode halted (2 ^ 30 ≤ (B.state on.old).next) ((B.state on.old).next < 2 ^ 30)) }
    ensures room { HadRoom (HasRoom (B.state on.old)) (create_need at.now) result }
    ensures taken { (B.state on.old).usable ≤ (B.state on.new).usable + create_need at.now }
    ensures cause { Refuses (faults_of (B.state on.old)) (faults_of (B.state on.new)) ⊥ (HasRoom (B.state on.new)) (create_need at.now) result }
    ensures dirties { Dirties (2 * create_need at.now) none (B.state on.old) (B.state on.new) }
    ensures keeps { B.keeps on.old on.new }
{
    match look_for_new(alloc, on, root, at, name, mode, who, uid, gid, now, halted) {
        Ok(found) => match make_found(alloc, on, root, at, found) {
            Ok(told) => Ok(told),
            Err(why) => Err(why),
        },
        Err(why) => Err(why),
    }
}
